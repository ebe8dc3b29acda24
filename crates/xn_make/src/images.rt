//! Whole images.

ghost use Rattle.std.specs.Prelude.{◌≡◌, ◌+◌, ◌*◌, ◌^◌, ◌<◌, ◌≤◌, IfOk, length};
ghost use Rattle.xn_make.specs.Images.{IsSmallImage, IsBlockImage, HasInodes, HasFiles, IsRootBlock, IsBlank};

use crate::blocks::{Named, block_directory};
use crate::inodes::{DATA_FORK, directory_in_block, directory_inode, regular_inode};
use crate::pieces::{put_bytes, put_sector};
use crate::superblocks::superblock;
use crate::{DIRECTORY_BLOCK, ROOT, ROOT_SECTOR, SECTORS};
use std::alloc::Global;
use xn_bytes::{Kind, Memory};

/// The regular files that the root directory in block form names.
const FILES: [Named<'static>; 11] = [
    Named {
        name: b"entry-0001",
        ino: 144,
        kind: Kind::Reg,
    },
    Named {
        name: b"entry-0002",
        ino: 145,
        kind: Kind::Reg,
    },
    Named {
        name: b"entry-0003",
        ino: 146,
        kind: Kind::Reg,
    },
    Named {
        name: b"entry-0004",
        ino: 147,
        kind: Kind::Reg,
    },
    Named {
        name: b"entry-0005",
        ino: 148,
        kind: Kind::Reg,
    },
    Named {
        name: b"entry-0006",
        ino: 149,
        kind: Kind::Reg,
    },
    Named {
        name: b"entry-0007",
        ino: 150,
        kind: Kind::Reg,
    },
    Named {
        name: b"entry-0008",
        ino: 151,
        kind: Kind::Reg,
    },
    Named {
        name: b"entry-0009",
        ino: 152,
        kind: Kind::Reg,
    },
    Named {
        name: b"entry-0010",
        ino: 153,
        kind: Kind::Reg,
    },
    Named {
        name: b"entry-0011",
        ino: 154,
        kind: Kind::Reg,
    },
];

/// A directory in short form with no entries, and parent 128.
pub const EMPTY: [u8; 6] = [0, 0, 0, 0, 0, 128];

/// The number of a directory that no entry names.
const DETACHED: u64 = 129;

/// The first block of the log of a small image.
const LOG_START: u32 = 64;

/// How many bytes a block has.
const BLOCK: usize = 4096;

/// The whole image, its root directory with this short form. Fails only for want of memory.
pub fn image(alloc: Global, form: &[u8]) -> Result<Vec<u8>, Memory>
    requires { length form.now ≤ DATA_FORK }
    ensures { IfOk result (λ image. IsSmallImage image.items form.now) }
{
    let mut image = blank(alloc, SECTORS as usize)?;
    fill(&mut image, form);
    Ok(image)
}

/// The whole image whose root directory is in block form, in block 40, and names the regular files 144 to 154
/// `entry-0001` to `entry-0011`. Inode 129 is an empty directory without a link, which no entry names. Fails only for want of memory.
pub fn block_image(alloc: Global) -> Result<Vec<u8>, Memory>
    ensures { IfOk result (λ image. IsBlockImage image.items) }
{
    let block = block_directory(alloc, DIRECTORY_BLOCK, ROOT, ROOT, &FILES)?;
    let mut image = blank(alloc, SECTORS as usize)?;
    fill_with_block(&mut image, &block);
    Ok(image)
}

/// Puts what isn't zeros into a blank image whose root directory has this block.
fn fill_with_block(image: &mut [u8], block: &[u8])
    requires block { IsRootBlock block.now }
    requires blank { IsBlank image.old SECTORS }
    ensures made { IsBlockImage image.new }
    ensures length { length image.new ≡ length image.old }
{
    put_sector(image, 0, &superblock(LOG_START));
    put_inodes(image);
    put_bytes(image, BLOCK * DIRECTORY_BLOCK as usize, block);
}

/// Puts the inodes of an image whose root directory is in block form.
fn put_inodes(image: &mut [u8])
    requires { length image.old ≡ 512 * SECTORS }
    ensures made { HasInodes image.old image.new }
    ensures length { length image.new ≡ length image.old }
{
    let root = directory_in_block(ROOT, DIRECTORY_BLOCK);
    put_sector(image, ROOT_SECTOR as usize, &root);
    put_sector(
        image,
        DETACHED as usize,
        &directory_inode(DETACHED, 0, &EMPTY),
    );
    put_files(image);
}

/// Puts the inodes of the regular files 144 to 154.
fn put_files(image: &mut [u8])
    requires { length image.old ≡ 512 * SECTORS }
    ensures made { HasFiles 155 image.old image.new }
    ensures length { length image.new ≡ length image.old }
{
    for number in 144..155 {
        put_sector(image, number as usize, &regular_inode(number));
    }
}

/// Puts the sectors that are not zeros into a blank image.
fn fill(image: &mut [u8], form: &[u8])
    requires form { length form.now ≤ DATA_FORK }
    requires blank { IsBlank image.old SECTORS }
    ensures made { IsSmallImage image.new form.now }
    ensures length { length image.new ≡ length image.old }
{
    put_sector(image, 0, &superblock(LOG_START));
    put_sector(image, ROOT_SECTOR as usize, &directory_inode(ROOT, 2, form));
}

/// So many sectors of zeros.
pub fn blank(alloc: Global, sectors: usize) -> Result<Vec<u8>, Memory>
    requires { 512 * sectors < 2 ^ 63 }
    ensures { IfOk result (λ image. IsBlank image.items sectors) }
{
    Ok(vec![in alloc; 0; 512 * sectors]?)
}
