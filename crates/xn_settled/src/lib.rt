//! What committed items make of an image: which of them are cancelled, which can be carried out, what they make of inodes and blocks,
//! and which intents are pending. The definitions of `specs/` are those of the settled image, which the contracts of the crates above
//! cite.
#![tactic(auto)]

mod blocks;
mod inodes;
mod stored;

pub use blocks::lay_block;
pub use inodes::lay_inode;
