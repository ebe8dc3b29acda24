/// What the ring has to know of an intact record.
#[derive(Clone, Copy, Debug, PartialEq, Eq)]
pub struct Outline {
    /// How often the writer had gone round the ring, counted from 1.
    pub cycle: u32,
    /// The ring sector at which it begins.
    pub sector: u32,
    /// How many sectors it takes, its header's among them: 2 to 65.
    pub sectors: u32,
    /// The sequence number of the first record that was not yet settled as this one was written.
    pub tail: u64,
    /// Whether it holds just the unmount operation.
    pub is_unmount: bool,
}
