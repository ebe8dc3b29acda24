//! The commands that read names, over a store: the list of a directory, the walk of a path, and the parents of an inode.
//!
//! An inode is live where the manifest lists it and the superblock doesn't name it as one of its own.
#![tactic(auto)]

mod fault;
mod law;
mod listing;
mod parent_list;
mod parts;
mod sight;
mod walk;

pub use fault::SeeFault;
pub use law::{lists_are_those_of_the_map, replies_are_those_of_the_map};
pub use listing::list;
pub use parent_list::parents;
pub use walk::resolve;
