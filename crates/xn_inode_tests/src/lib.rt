//! Tests of numbers and names, of superblocks, inodes and extents, and of the view over them, a module each.
#![tactic(auto)]

#[cfg(test)]
mod bytes;
#[cfg(test)]
mod inode;
#[cfg(test)]
mod replay;
