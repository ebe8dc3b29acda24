ghost use Rattle.std.specs.Prelude.{◌≡◌, length, drop};
ghost use Rattle.xn_datree.specs.Headers.{HeaderHolds};

use xn_bytes::{put_u16, put_u32, put_u64, u16_at, u32_at, u64_at};

/// The part of a block's first 56 bytes that all leaves and nodes of a tree share: the file blocks on the right and on the
/// left on its level, 0 at the ends; the magic number; the first sector of its place; the filesystem's uuid; and the inode
/// (`struct xfs_da3_blkinfo` of `xfs_da_format.h`).
#[derive(Clone, Copy, Debug, PartialEq, Eq)]
pub struct TreeHeader {
    pub forw: u32,
    pub back: u32,
    pub magic: u16,
    pub place: u64,
    pub uuid: [u8; 16],
    pub owner: u64,
}

impl TreeHeader {
    /// Reads the header of a block of 4,096 bytes.
    pub fn read(block: &[u8]) -> TreeHeader
        requires { length block.now ≡ 4096 }
        ensures { HeaderHolds block.now result }
    {
        let mut uuid = [0; 16];
        uuid.copy_from_slice(&block[32..48]);
        TreeHeader {
            forw: u32_at(block, 0),
            back: u32_at(block, 4),
            magic: u16_at(block, 8),
            place: u64_at(block, 16),
            uuid,
            owner: u64_at(block, 48),
        }
    }
}
