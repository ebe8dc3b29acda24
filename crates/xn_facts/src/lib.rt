//! What the rules of the checker on one inode and its blocks say of an inode: what is kept of it, or which of them it breaks first.
#![tactic(auto)]

mod contents;
mod facts;
mod inodes;
mod of_inode;
mod own;
mod runs;

pub use facts::{Broken, Contents, Facts, Known, Node, Run, lesser};
pub use inodes::InodeBlock;
pub use of_inode::facts_of;
