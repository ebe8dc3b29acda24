//! Extended attributes of an inode: in short form, as they stand in the inode itself, and in the leaves of a hashed tree.
#![tactic(auto)]

mod apart;
mod attr_leaf;
mod attribute;
mod entry;
mod fill;
mod header;
mod put;
mod read;
mod short;
mod short_check;
mod short_entry;
mod short_fault;

pub use attr_leaf::AttrLeaf;
pub use attribute::{hash_with_value, size_with_value};
pub use short::{ShortAttrs, list};
pub use short_entry::{ShortAttr, ShortAttrEntries};
pub use short_fault::AttrShortFault;
