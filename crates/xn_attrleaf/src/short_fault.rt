/// A fork has no attributes in short form. `at` is the place of the first byte that is missing; or that of the total size,
/// which is another than the attributes'.
#[derive(Clone, Copy, Debug, PartialEq, Eq)]
pub struct AttrShortFault {
    pub at: u64,
}
