//! Places in a block, and those in a region, counted from the region's first byte.

pub(crate) const BLOCK: usize = 4096;

/// The magic number of a block of block form, `XDB3`, and that of another data block, `XDD3`.
pub(crate) const BLOCK_FORM_MAGIC: u32 = 0x5844_4233;

pub(crate) const DATA_MAGIC: u32 = 0x5844_4433;

pub(crate) const CHECKSUM: usize = 4;

pub(crate) const PLACE: usize = 8;

pub(crate) const UUID: usize = 24;

pub(crate) const OWNER: usize = 40;

/// The three pairs that name the greatest free regions: a place and a length, of two bytes each.
pub(crate) const FIRST_PAIR: usize = 48;

pub(crate) const SECOND_PAIR: usize = 52;

pub(crate) const THIRD_PAIR: usize = 56;

/// The regions begin here.
pub(crate) const HEADER: usize = 64;

/// In block form the count of the leaf entries, and that of the stale ones among them, end the block.
pub(crate) const LEAF_COUNT: usize = 4088;

pub(crate) const STALE_COUNT: usize = 4092;

/// A leaf entry: hash and address, of four bytes each.
pub(crate) const LEAF_ENTRY: usize = 8;

/// A free region begins with these two bytes, and no entry does.
pub(crate) const FREE_TAG: u16 = 0xffff;

/// The length of a free region, behind its tag.
pub(crate) const FREE_SIZE: usize = 2;

/// The least length of a free region, and that of an entry, whose name then has no bytes.
pub(crate) const LEAST_FREE: usize = 8;

pub(crate) const LEAST_ENTRY: usize = 16;

/// The length of an entry's name, behind its inode number. The name follows it, and then its kind, in one byte.
pub(crate) const NAME_LENGTH: usize = 8;

pub(crate) const NAME: usize = 9;
