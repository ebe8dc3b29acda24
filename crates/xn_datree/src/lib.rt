//! Hashed trees: the blocks by whose hashes the names of a large directory, or the attributes of an inode, are found.
//! Nodes and leaves are read here; what a leaf's entries are is told by a type that implements `Leaf`.
#![tactic(auto)]

mod find;
mod fork;
mod header;
mod held;
mod leaf;
mod measure;
mod node;
mod read;
mod trail;
mod visit;
mod walk;

pub use fork::{Fork, Grow};
pub use header::TreeHeader;
pub use leaf::{Leaf, LeafFault};
pub use walk::Tree;
