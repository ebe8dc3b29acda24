//! The superblock's fields as they stand, before any of them is known to be accepted.

ghost use Rattle.std.specs.Prelude.{◌≡◌, ◌+◌, ◌≤◌, length, slice_range};
ghost use Rattle.xn_bytes.specs.Superblock.{geometry_of, has_feature};
ghost use Rattle.xn_inode.specs.Fields.{geometry_from};

use xn_bytes::{u8_at, u32_at, u64_at};

/// Sizes in blocks, numbers of blocks and inodes, and the two uuids of a superblock (`struct xfs_dsb`).
#[derive(Clone, Copy, Debug)]
pub(crate) struct Fields {
    pub data_blocks: u64,
    pub ag_blocks: u32,
    pub ag_count: u32,
    pub ag_block_log: u8,
    pub log_start: u64,
    pub log_blocks: u32,
    pub root: u64,
    pub sparse: bool,
    pub uuid: [u8; 16],
    pub meta_uuid: [u8; 16],
    pub own_inodes: [u64; 5],
}

/// The bits of the incompatible features.
pub(crate) const FTYPE: u32 = 1;

pub(crate) const SPARSE_INODES: u32 = 2;

pub(crate) const META_UUID: u32 = 4;

pub(crate) const PARENT: u32 = 128;

impl Fields {
    pub fn read(sector: &[u8]) -> Fields
        requires { 512 ≤ length sector.now }
        ensures { geometry_from result ≡ geometry_of sector.now }
    {
        let meta_uuid_at = if feature(sector, META_UUID) { 248 } else { 32 };
        Fields {
            data_blocks: u64_at(sector, 8),
            ag_blocks: u32_at(sector, 84),
            ag_count: u32_at(sector, 88),
            ag_block_log: u8_at(sector, 124),
            log_start: u64_at(sector, 48),
            log_blocks: u32_at(sector, 96),
            root: u64_at(sector, 56),
            sparse: feature(sector, SPARSE_INODES),
            uuid: uuid_at(sector, 32),
            meta_uuid: uuid_at(sector, meta_uuid_at),
            own_inodes: [
                u64_at(sector, 64),
                u64_at(sector, 72),
                u64_at(sector, 160),
                u64_at(sector, 168),
                u64_at(sector, 232),
            ],
        }
    }
}

/// Whether an incompatible feature is set.
pub(crate) fn feature(sector: &[u8], bit: u32) -> bool
    requires { 512 ≤ length sector.now }
    ensures { result ≡ has_feature sector.now bit }
{
    u32_at(sector, 216) & bit == bit
}

fn uuid_at(bytes: &[u8], at: usize) -> [u8; 16]
    requires { at + 16 ≤ length bytes.now }
    ensures { result ≡ slice_range bytes.now at (at + 16) }
{
    let mut uuid = [0; 16];
    uuid.copy_from_slice(&bytes[at..at + 16]);
    uuid
}
