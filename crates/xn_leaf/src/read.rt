//! Whether a block is a leaf, and which entries it has.

ghost use Rattle.std.specs.Prelude.{◌≡◌, ◌⊎◌, ◌↔◌, ◌≤◌, length, IsTrue, IfOk, count_by, filter};
ghost use Rattle.std.specs.List.Sorted.{IsNonDecreasingBy};
ghost use Rattle.xn_bytes.specs.Numbers.{number_at};
ghost use Rattle.xn_bytes.specs.DataBlock.{leaves_at};
ghost use Rattle.xn_bytes.specs.HashedTree.{IsDirLeaf, dir_leaf_ends, dir_leaves, is_live, is_stale, leaf_magic, single_leaf_magic};
ghost use Rattle.xn_leaf.specs.Placed.{HasCounts};

use crate::entry::{HashAt, entry_in};
use std::alloc::{AllocError, Global};
use xn_bytes::{has_checksum, u16_at};

pub(crate) const MAGIC: usize = 8;

pub(crate) const CHECKSUM: usize = 12;

pub(crate) const COUNT: usize = 56;

pub(crate) const STALE: usize = 58;

pub(crate) const LEAF: u16 = 0x3dff;

pub(crate) const SINGLE_LEAF: u16 = 0x3df1;

const MOST_ENTRIES: usize = 504;

/// Whether a block is a leaf of a directory, of either kind.
pub(crate) fn is_leaf(block: &[u8]) -> bool
    requires { length block.now ≡ 4096 }
    ensures { IsTrue result ↔ IsDirLeaf block.now }
{
    has_magic(block) && has_checksum(block, CHECKSUM) && has_counts(block) && is_rising(block)
}

fn has_magic(block: &[u8]) -> bool
    requires { length block.now ≡ 4096 }
    ensures { IsTrue result ↔ ((number_at 2 8 block.now ≡ single_leaf_magic) ⊎ (number_at 2 8 block.now ≡ leaf_magic)) }
{
    let magic = u16_at(block, MAGIC);
    magic == SINGLE_LEAF || magic == LEAF
}

/// How many entries a leaf says that it has, stale ones counted.
pub(crate) fn count_in(block: &[u8]) -> usize
    requires { length block.now ≡ 4096 }
    ensures count { result ≡ number_at 2 56 block.now }
    ensures fits { result ≤ 0xffff }
{
    usize::from(u16_at(block, COUNT))
}

/// Whether there is place for the entries, and the count of stale ones is right.
fn has_counts(block: &[u8]) -> bool
    requires { length block.now ≡ 4096 }
    ensures { IsTrue result ↔ HasCounts block.now }
{
    let count = count_in(block);
    count <= MOST_ENTRIES && usize::from(u16_at(block, STALE)) == stale_among(block, count)
}

/// How many of the first entries are stale.
fn stale_among(block: &[u8], count: usize) -> usize
    requires size { length block.now ≡ 4096 }
    requires few { count ≤ 504 }
    ensures { result ≡ count_by is_stale (leaves_at count 64 block.now) }
{
    let mut stale = 0;
    for index in 0..count {
        if entry_in(block, index).address == 0 {
            stale += 1;
        }
    }
    stale
}

/// Whether the hashes of the entries don't fall.
fn is_rising(block: &[u8]) -> bool
    requires size { length block.now ≡ 4096 }
    requires few { number_at 2 56 block.now ≤ 504 }
    ensures { IsTrue result ↔ IsNonDecreasingBy (λ leaf. leaf.hash) (dir_leaves block.now) }
{
    let mut least = 0;
    for index in 0..count_in(block) {
        let entry = entry_in(block, index);
        if entry.hash < least {
            return false;
        }
        least = entry.hash;
    }
    true
}

/// The entries of a leaf that are not stale, in order.
pub(crate) fn live_entries(alloc: Global, block: &[u8]) -> Result<Vec<HashAt>, AllocError>
    requires size { length block.now ≡ 4096 }
    requires few { number_at 2 56 block.now ≤ 504 }
    ensures { IfOk result (λ entries. entries.items ≡ filter is_live (dir_leaves block.now)) }
{
    let mut entries = Vec::new(alloc);
    for index in 0..count_in(block) {
        let entry = entry_in(block, index);
        if entry.address != 0 {
            entries.push(entry)?;
        }
    }
    Ok(entries)
}

/// The first and the last hash, stale entries counted; None where there is no entry.
pub(crate) fn ends_of(block: &[u8]) -> Option<(u32, u32)>
    requires size { length block.now ≡ 4096 }
    requires few { number_at 2 56 block.now ≤ 504 }
    ensures { result ≡ dir_leaf_ends block.now }
{
    let count = count_in(block);
    if count == 0 {
        return None;
    }
    Some((entry_in(block, 0).hash, entry_in(block, count - 1).hash))
}
