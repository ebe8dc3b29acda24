//! Rule 2: what the manifest names stands in its place.

ghost use Rattle.std.specs.Prelude.{◌≡◌, ◌↔◌, ◌^◌, ◌<◌, ◌≤◌, false, All, IfOk, IsTrue, MatchOption};
ghost use Rattle.xn_meaning.specs.Manifests.{HasPlaces, has_bit};
ghost use Rattle.xn_check.specs.Places.{AreStarts, ChunkIsPlaced, IsPlaced, IsPoolFor};

use std::alloc::Global;
use xn_bytes::Memory;
use xn_inode::Super;
use xn_pool::{Pool, PoolFault};
use xn_text::Manifest;

/// How many inodes a chunk has.
const CHUNK_INODES: u64 = 64;

/// The pool of a manifest, of which every block is free; None where rule 2 is broken: a listed inode or a block of the pool is out
/// of range, in the log or in the first block of a group, or a block of the pool holds a listed inode.
pub fn pool_of(alloc: Global, geometry: &Super, manifest: &Manifest) -> Result<Option<Pool>, Memory>
    ensures { IfOk result (λ found. MatchOption found (¬ HasPlaces geometry.now manifest.now) (IsPoolFor geometry.now manifest.now)) }
{
    let pool = match Pool::new(alloc, geometry, manifest.runs()) {
        Ok(pool) => pool,
        Err(PoolFault::Range { .. }) => return Ok(None),
        Err(PoolFault::Memory) => return Err(Memory),
    };
    if are_placed(geometry, &pool, manifest.chunks()) {
        Ok(Some(pool))
    } else {
        Ok(None)
    }
}

/// Whether all inodes of some chunks stand where they may, and in no free block of the pool.
fn are_placed(geometry: &Super, pool: &Pool, chunks: &[(u64, u64)]) -> bool
    requires { AreStarts chunks.now }
    ensures { IsTrue result ↔ All (ChunkIsPlaced geometry.now pool.now) chunks.now }
{
    for chunk in chunks {
        if !chunk_is_placed(geometry, pool, *chunk) {
            return false;
        }
    }
    true
}

/// Whether the inodes that a chunk lists do.
fn chunk_is_placed(geometry: &Super, pool: &Pool, chunk: (u64, u64)) -> bool
    requires { chunk.0 ≤ 2 ^ 56 }
    ensures { IsTrue result ↔ ChunkIsPlaced geometry.now pool.now chunk }
{
    let (start, mask) = chunk;
    for k in 0..CHUNK_INODES {
        if is_in_use(mask, k) && !is_placed(geometry, pool, start + k) {
            return false;
        }
    }
    true
}

/// Whether the inode at a place of a chunk is in use, by the chunk's mask.
fn is_in_use(mask: u64, k: u64) -> bool
    requires { k < 64 }
    ensures { IsTrue result ↔ (has_bit mask k ≡ false) }
{
    mask >> k & 1 == 0
}

/// Whether an inode does.
fn is_placed(geometry: &Super, pool: &Pool, ino: u64) -> bool
    ensures { IsTrue result ↔ IsPlaced geometry.now pool.now ino }
{
    let block = ino / 8;
    geometry.is_home(block) && !pool.is_free(block)
}
