//! The inodes of an image that are live: those that its manifest lists, less the superblock's own.
#![tactic(auto)]

mod inodes;

pub use inodes::{live_inodes, place_of};
