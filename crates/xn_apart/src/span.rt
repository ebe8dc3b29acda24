//! Spans of blocks.

/// So many blocks from a block on. Spans compare by block, and those of one block by count.
#[derive(Clone, Copy, Debug, PartialEq, Eq, PartialOrd, Ord)]
pub struct Span {
    pub block: u64,
    pub count: u64,
}
