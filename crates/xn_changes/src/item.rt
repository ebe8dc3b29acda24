use crate::{Intent, MapWords, Regions};
use xn_bytes::Bytes;

/// What a transaction says of one object.
#[derive(Debug, Drop)]
pub enum Item {
    Buffer(BufferItem),
    Inode(InodeItem),
    Intent(Intent),
    /// The intent with this id is carried out (`struct xfs_attrd_log_format`).
    Done { id: u64 },
}

/// Changes of a block (`struct xfs_buf_log_format`).
#[derive(Debug, Drop)]
pub struct BufferItem {
    /// Bit 1 cancels; bits 11 to 15 are what kind of block it is.
    pub flags: u16,
    /// How many sectors the buffer has.
    pub length: u16,
    /// Its first sector on the device.
    pub sector: u64,
    /// A bit for each 128 bytes, the lowest bit of the first word for the first of them.
    pub map: MapWords,
    /// The new bytes of the pieces whose bits are set.
    pub regions: Regions,
}

/// Changes of an inode (`struct xfs_inode_log_format`).
#[derive(Debug, Drop)]
pub struct InodeItem {
    /// What is logged: core 1, data fork local 2 or extents 4, attribute fork local 0x40 or extents 0x80.
    pub fields: u32,
    pub number: u64,
    /// The first sector of the block in which it stands, as the writer says. It is not looked at.
    pub sector: u64,
    /// How many sectors that has, as the writer says. It is not looked at.
    pub length: u32,
    /// Where in them the inode begins, in bytes, as the writer says. It is not looked at.
    pub offset: u32,
    /// The core as the log has it (`struct xfs_log_dinode`): 176 bytes.
    pub core: Bytes,
    /// The front of the data fork.
    pub data_fork: Option<Bytes>,
    /// The front of the attribute fork.
    pub attr_fork: Option<Bytes>,
}
