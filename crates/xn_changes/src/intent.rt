use xn_items::ParentRec;

/// A change of an inode's parent records that is to be made: an attribute intent of parent pointers (`struct
/// xfs_attri_log_format` of Linux's `xfs_log_format.h`).
#[derive(Debug, Drop)]
pub struct Intent {
    /// By which its end is known.
    pub id: u64,
    /// The inode whose records change.
    pub ino: u64,
    /// That inode's generation.
    pub generation: u32,
    pub act: Act,
}

/// What an intent changes.
#[derive(Debug, Drop)]
pub enum Act {
    /// The record is to stand there.
    Set(ParentRec),
    /// The record is to go.
    Remove(ParentRec),
    /// One is to go, and another to stand there.
    Replace { old: ParentRec, new: ParentRec },
}
