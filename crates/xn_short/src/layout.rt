//! Places in the bytes of a form: those of its head, and those of an entry, counted from the entry's first byte.

/// The parent's inode number, behind the two counts.
pub(crate) const PARENT: usize = 2;

/// The position of an entry, behind its name's length.
pub(crate) const POSITION: usize = 1;

/// The name of an entry. Its kind follows it, in one byte, and then its inode number.
pub(crate) const NAME: usize = 3;
