//! The leaves of directories: leaf entries by hash, and the lengths of the free regions of their data blocks.
#![tactic(auto)]

mod bests;
mod dir_leaf;
mod entry;
mod fill;
mod free;
mod read;
mod tail;

pub use dir_leaf::DirLeaf;
pub use entry::HashAt;
pub use free::{FreeFault, FreeIndex};
pub use tail::LeafTail;
