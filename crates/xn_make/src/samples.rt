//! The sample image, and its manifest.

ghost use Rattle.std.specs.Prelude.{◌≡◌, ◌+◌, ◌*◌, ◌/◌, ◌%◌, ◌<◌, ◌≤◌, IfOk, length};
ghost use Rattle.xn_make.specs.Samples.{HasSampleInodes, HasSoundInodes, IsSampleImage, IsSampleInode, sample_manifest, sample_sectors};
ghost use Rattle.xn_make.specs.Images.{IsBlank, image_geometry};

use crate::images::{EMPTY, blank};
use crate::inodes::{empty_file, short_directory};
use crate::pieces::put_sector;
use crate::superblocks::superblock;
use crate::{LOG_BLOCKS, ROOT, ROOT_SECTOR};
use std::alloc::Global;
use xn_bytes::Memory;
use xn_text::Manifest;

/// The first block of the pool. Those in front of it are for the superblock and the inodes.
const POOL_START: u32 = 512;

/// How many inodes a chunk of a manifest has.
const CHUNK: u32 = 64;

/// An image with so many inodes from 128 on and a pool of so many blocks, and its manifest. The first quarter of the inodes
/// are empty directories, whose parent is the root, and the rest empty regular files; but for the root none has a link, and
/// none has a block. The pool begins at block 512, and the log, all zeros, has the 512 blocks behind it. Fails only for want
/// of memory.
pub fn sample(alloc: Global, inodes: u32, pool: u32) -> Result<(Vec<u8>, Manifest), Memory>
    requires some { 64 ≤ inodes }
    requires fit { inodes ≤ 3_968 }
    requires chunks { inodes % 64 ≡ 0 }
    requires pool { 1 ≤ pool }
    requires pool_fits { pool ≤ 65_536 }
    ensures image { IfOk result (λ made. IsSampleImage made.0.items inodes pool) }
    ensures manifest { IfOk result (λ made. made.1 ≡ sample_manifest inodes pool) }
    ensures sound { IfOk result (λ made. HasSoundInodes (image_geometry (512 + pool)) made.0.items made.1) }
{
    let image = image(alloc, inodes, pool)?;
    let manifest = manifest(alloc, inodes, pool)?;
    Ok((image, manifest))
}

/// The image.
fn image(alloc: Global, inodes: u32, pool: u32) -> Result<Vec<u8>, Memory>
    requires fit { inodes ≤ 3_968 }
    requires pool_fits { pool ≤ 65_536 }
    ensures { IfOk result (λ image. IsSampleImage image.items inodes pool) }
{
    let blocks = POOL_START + pool + LOG_BLOCKS;
    let mut image = blank(alloc, 8 * blocks as usize)?;
    fill(&mut image, inodes, pool);
    Ok(image)
}

/// Puts the sectors that are not zeros into a blank image.
fn fill(image: &mut [u8], inodes: u32, pool: u32)
    requires fit { inodes ≤ 3_968 }
    requires pool_fits { pool ≤ 65_536 }
    requires blank { IsBlank image.old (sample_sectors pool) }
    ensures made { IsSampleImage image.new inodes pool }
    ensures length { length image.new ≡ length image.old }
{
    put_sector(image, 0, &superblock(POOL_START + pool));
    put_inodes(image, inodes);
}

/// Puts the inodes.
fn put_inodes(image: &mut [u8], inodes: u32)
    requires { 512 * (128 + inodes) ≤ length image.old }
    ensures { HasSampleInodes inodes inodes image.old image.new }
{
    for place in 0..inodes {
        let sector = ROOT_SECTOR as usize + place as usize;
        put_sector(image, sector, &inode(inodes, place));
    }
}

/// The inode at a place, counted from that of the root.
fn inode(inodes: u32, place: u32) -> [u8; 512]
    requires { place < inodes }
    ensures { IsSampleInode result inodes place }
{
    let number = ROOT + u64::from(place);
    if place < inodes / 4 {
        let links = if place == 0 { 2 } else { 0 };
        short_directory(number, place + 1, links, &EMPTY)
    } else {
        empty_file(number, place + 1, 0)
    }
}

/// The manifest.
fn manifest(alloc: Global, inodes: u32, pool: u32) -> Result<Manifest, Memory>
    requires fit { inodes ≤ 3_968 }
    requires pool { 1 ≤ pool }
    requires pool_fits { pool ≤ 65_536 }
    ensures { IfOk result (λ manifest. manifest ≡ sample_manifest inodes pool) }
{
    let mut chunks = Vec::new(alloc);
    for place in 0..inodes / CHUNK {
        chunks.push((ROOT + u64::from(CHUNK * place), 0))?;
    }
    let runs = vec![in alloc; (u64::from(POOL_START), u64::from(pool))]?;
    Ok(Manifest::new(chunks, runs))
}
