use crate::Ops;

/// A record of the log (`struct xlog_rec_header`), which begins at a sector of the ring.
#[derive(Debug, Drop)]
pub struct Record {
    /// How often the writer had gone round the ring, counted from 1.
    pub cycle: u32,
    /// The ring sector at which it begins.
    pub sector: u32,
    /// The sequence number of the first record that was not yet settled as this one was written.
    pub tail: u64,
    /// The ring sector of the record before, as its writer says. It is not looked at.
    pub previous: u32,
    pub ops: Ops,
}
