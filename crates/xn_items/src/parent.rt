use xn_bytes::Name;

/// A parent of an inode: a directory with its generation, and the name of an entry there that names the inode
/// (`struct xfs_parent_rec` of `xfs_da_format.h`, with the name of its attribute).
#[derive(Debug, Drop)]
pub struct ParentRec {
    /// The directory's inode number.
    pub dir: u64,
    /// The generation that the directory had as the entry was made.
    pub generation: u32,
    pub name: Name,
}
