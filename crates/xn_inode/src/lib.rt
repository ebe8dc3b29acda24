//! The superblock, the places of blocks and inodes that follow from it, and the cores of inodes.
#![tactic(auto)]

mod accepted;
mod extents;
mod fields;
mod fork_fault;
mod inode_core;
mod lists;
mod places;
mod store;
mod superblock;

pub use extents::{ExtentFault, Extents};
pub use fork_fault::ForkFault;
pub use inode_core::{Core, CoreFault, EXTENTS_FORMAT, LOCAL_FORMAT};
pub use store::{Store, StoreFault};
pub use superblock::{GeomFault, Super};
