/// Bytes are no short form. `at` is the place of the first byte that is missing, too many, or of a field that is wrong.
#[derive(Clone, Copy, Debug, PartialEq, Eq)]
pub struct ShortFault {
    pub at: u64,
}
