//! The length of a block, and where in a directory's file each kind of block begins.

pub(crate) const BLOCK_BYTES: usize = 4096;

/// Behind the data blocks: the file block of the single leaf, or of the root of the tree.
pub(crate) const LEAF_FILE_BLOCK: u64 = 8_388_608;

/// Behind leaves and nodes: the first free-index block.
pub(crate) const FREE_FILE_BLOCK: u64 = 16_777_216;
