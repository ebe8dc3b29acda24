use crate::bytes::Bytes;

/// The value of an attribute.
#[derive(Debug, Drop, PartialEq, Eq)]
pub enum Value {
    /// It stands beside the name.
    Here(Bytes),
    /// It has blocks of its own in the attribute fork, from this file block on, and so many bytes.
    Remote { block: u32, length: u32 },
}

/// An extended attribute of an inode (`xfs_attr_leaf_entry` and the name that it leads to). Its flags are those of its entry
/// without the lowest bit, which says only where the value stands.
#[derive(Debug, Drop, PartialEq, Eq)]
pub struct Attribute {
    pub flags: u8,
    pub name: Bytes,
    pub value: Value,
}
