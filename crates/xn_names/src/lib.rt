//! The entries of all directories in order: how many name an inode, and what the rules between inodes say of them.
#![tactic(auto)]

mod dots;
mod entry;
mod links;
mod order;
mod records;
mod tree;

pub use dots::has_dotdot;
pub use entry::Naming;
pub use links::{has_directory_links, has_links};
pub use order::{in_order, naming, naming_near};
pub use records::are_records;
pub use tree::{has_place, is_unnamed};
