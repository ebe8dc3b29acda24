//! Inodes (`struct xfs_dinode` of `xfs_format.h`) with an attribute fork that has no attribute.

ghost use Rattle.std.specs.Prelude.{◌≡◌, ◌+◌, ◌-◌, ◌^◌, ◌<◌, ◌≤◌, length};
ghost use Rattle.xn_bytes.specs.Checksum.{HasChecksum};
ghost use Rattle.xn_make.specs.Images.{IsShortDirectory, IsEmptyFile, IsSmallDirectory, IsSmallRegular, IsBlockDirectoryInode};
ghost use Rattle.xn_make.specs.SpelledInodes.{IsInodeSpelled, extent_bytes};

use crate::UUID;
use crate::pieces::put_bytes;
use xn_bytes::{put_checksum, put_u16, put_u32, put_u64};

/// How many bytes the data fork of an inode has that was made here.
pub const DATA_FORK: usize = 192;

/// Where an inode's forks begin.
const FORKS: usize = 176;

/// The format of a fork that holds its bytes in the inode.
const LOCAL: u8 = 1;

/// The format of a fork that holds a list of extents.
const EXTENTS: u8 = 2;

/// The mode bits of a directory, and of a regular file.
const DIRECTORY: u16 = 0o040_000;

const REGULAR: u16 = 0o100_000;

/// The inode of generation 1 has this number, and so on.
const FIRST: u64 = 127;

/// An attribute fork with no attribute: its size of four bytes, a count, and padding.
const NO_ATTRIBUTES: [u8; 4] = [0, 4, 0, 0];

/// What the core of an inode says, in the numbers of the format.
#[derive(Clone, Copy, Debug)]
struct CoreNumbers {
    number: u64,
    mode: u16,
    format: u8,
    links: u32,
    size: u64,
    block_count: u64,
    extent_count: u32,
    generation: u32,
}

/// The inode of a directory with this number: so many links, this short form in its data fork, and an attribute fork
/// with no attribute.
pub fn directory_inode(number: u64, links: u32, form: &[u8]) -> [u8; 512]
    requires { length form.now ≤ DATA_FORK }
    ensures { IsSmallDirectory result number links form.now }
{
    short_directory(number, 1, links, form)
}

/// The same with a generation.
pub fn short_directory(number: u64, generation: u32, links: u32, form: &[u8]) -> [u8; 512]
    requires { length form.now ≤ DATA_FORK }
    ensures { IsShortDirectory result number generation links form.now }
{
    let core = CoreNumbers {
        number,
        mode: DIRECTORY,
        format: LOCAL,
        links,
        size: form.len() as u64,
        block_count: 0,
        extent_count: 0,
        generation,
    };
    inode(core, form)
}

/// The inode of a directory with this number in block form: its one block is this one.
pub fn directory_in_block(number: u64, block: u64) -> [u8; 512]
    requires number { FIRST ≤ number }
    requires generation { number < 2 ^ 32 }
    requires block { block < 2 ^ 43 }
    ensures { IsBlockDirectoryInode result number block }
{
    let core = CoreNumbers {
        number,
        mode: DIRECTORY,
        format: EXTENTS,
        links: 2,
        size: 4096,
        block_count: 1,
        extent_count: 1,
        generation: (number - FIRST) as u32,
    };
    inode(core, &one_extent(block))
}

/// The inode of a regular file with this number: one link, and no blocks.
pub fn regular_inode(number: u64) -> [u8; 512]
    requires number { FIRST ≤ number }
    requires generation { number < 2 ^ 32 }
    ensures { IsSmallRegular result number }
{
    empty_file(number, (number - FIRST) as u32, 1)
}

/// The same with a generation and so many links.
pub fn empty_file(number: u64, generation: u32, links: u32) -> [u8; 512]
    ensures { IsEmptyFile result number generation links }
{
    let core = CoreNumbers {
        number,
        mode: REGULAR,
        format: EXTENTS,
        links,
        size: 0,
        block_count: 0,
        extent_count: 0,
        generation,
    };
    inode(core, &[])
}

/// The extent that maps file block 0 to a block (`xfs_bmbt_rec`).
fn one_extent(block: u64) -> [u8; 16]
    requires { block < 2 ^ 43 }
    ensures { result ≡ extent_bytes block }
{
    let mut extent = [0; 16];
    put_u64(&mut extent, 8, (block << 21) + 1);
    extent
}

/// An inode with this core and data fork, and its checksum.
fn inode(core: CoreNumbers, fork: &[u8]) -> [u8; 512]
    requires { length fork.now ≤ DATA_FORK }
    ensures spelled { IsInodeSpelled result core fork.now }
    ensures checksum { HasChecksum result 100 }
{
    let mut inode = [0; 512];
    put_bytes(&mut inode, FORKS + DATA_FORK, &NO_ATTRIBUTES);
    put_bytes(&mut inode, FORKS, fork);
    put_bytes(&mut inode, 0, b"IN");
    put_u16(&mut inode, 2, core.mode);
    inode[4] = 3;
    inode[5] = core.format;
    put_u32(&mut inode, 16, core.links);
    put_u64(&mut inode, 56, core.size);
    put_u64(&mut inode, 64, core.block_count);
    put_u32(&mut inode, 76, core.extent_count);
    inode[82] = (DATA_FORK / 8) as u8;
    inode[83] = LOCAL;
    put_u32(&mut inode, 92, core.generation);
    put_u64(&mut inode, 152, core.number);
    put_bytes(&mut inode, 160, &UUID);
    put_checksum(&mut inode, 100);
    inode
}
