//! Images for demonstrations and tests: a superblock, and a root directory in short form or in block form, or a sample of many
//! inodes with a pool of free blocks.
#![tactic(auto)]

mod blocks;
mod images;
mod inodes;
mod layout;
mod pieces;
mod samples;
mod superblocks;

pub use blocks::{Named, block_directory};
pub use images::{block_image, image};
pub use inodes::{DATA_FORK, directory_in_block, directory_inode, regular_inode};
pub use layout::{Gap, Leaf, push_entry, push_gap, push_leaves};
pub use samples::sample;
pub use superblocks::superblock;

/// How many sectors of 512 bytes a small image has: one group of 576 blocks, the last 512 of them the log.
pub const SECTORS: u64 = 4608;

/// How many blocks the log of an image has.
pub const LOG_BLOCKS: u32 = 512;

/// The root directory's inode number. It stands in block 16.
pub const ROOT: u64 = 128;

/// The sector of the root directory's inode.
pub const ROOT_SECTOR: u64 = 128;

/// The block that holds the root directory of an image in block form.
pub const DIRECTORY_BLOCK: u64 = 40;

/// The uuid of every image.
pub const UUID: [u8; 16] = [0, 1, 2, 3, 4, 5, 6, 7, 8, 9, 10, 11, 12, 13, 14, 15];
