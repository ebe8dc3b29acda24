//! Of each directory of an image there is one verdict, and of the attributes and parent records of each inode.
#![tactic(auto)]

mod attributes;
mod directories;

pub use attributes::{
    attributes_break_one_rule, inode_has_attributes_or_breaks, inode_has_one_attribute_list,
    inode_has_one_parent_list, inode_has_one_parent_order, inode_has_parents_or_breaks,
    parents_break_one_rule,
};
pub use directories::{
    directory_breaks_one_rule, directory_holds_one_list, directory_holds_or_breaks,
    directory_of_one_dotdot,
};
