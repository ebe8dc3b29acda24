//! The parents of an inode: the attributes with the parent flag, each of which names an entry that names the inode.
#![tactic(auto)]

mod flags;
mod listed;
mod of_inode;
mod order;
mod record;

pub use of_inode::{parents, parents_in_inode};
