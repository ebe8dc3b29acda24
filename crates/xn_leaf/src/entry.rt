//! One leaf entry, in its place.

ghost use Rattle.std.specs.Prelude.{◌≡◌, ◌+◌, ◌*◌, ◌≤◌, length, slice_range};
ghost use Rattle.xn_bytes.specs.DataBlock.{leaf_at};
ghost use Rattle.xn_leaf.specs.Placed.{PutsLeaf};

use std::marker::Model;
use xn_bytes::{put_u32, u32_at};

pub(crate) const FIRST_ENTRY: usize = 64;

pub(crate) const ENTRY_BYTES: usize = 8;

/// A leaf entry of a directory (`xfs_dir2_leaf_entry`): the hash of a name, and where its data entry stands, in units of
/// 8 bytes of the directory's data. One that is stale has address 0.
#[derive(Clone, Copy, Debug, PartialEq, Eq)]
pub struct HashAt {
    pub hash: u32,
    pub address: u32,
}

impl Model for HashAt {
    ghost use Rattle.std.specs.Prelude.{◌<◌, ◌^◌};
    ghost use Rattle.xn_bytes.specs.DataBlock.{LeafEntry};

    ghost Value = { LeafEntry };

    ghost view = { λ leaf. record { hash = leaf.hash; address = leaf.address } };

    ghost inverse = { λ leaf. record { hash = leaf.hash; address = leaf.address } };

    ghost invariant = { λ leaf. (leaf.hash < 2 ^ 32) × (leaf.address < 2 ^ 32) };
}

/// The place of the leaf entry of an index, from 0.
fn place_of(index: usize) -> usize
    requires { index ≤ 512 }
    ensures { result ≡ 64 + 8 * index }
{
    FIRST_ENTRY + ENTRY_BYTES * index
}

/// The leaf entry of an index.
pub(crate) fn entry_in(block: &[u8], index: usize) -> HashAt
    requires size { length block.now ≡ 4096 }
    requires place { 64 + 8 * index + 8 ≤ 4096 }
    ensures { result ≡ leaf_at (64 + 8 * index) block.now }
{
    let at = place_of(index);
    HashAt {
        hash: u32_at(block, at),
        address: u32_at(block, at + 4),
    }
}

/// Puts a leaf entry at the place of an index.
pub(crate) fn put_entry(block: &mut [u8], index: usize, entry: HashAt)
    requires size { length block.old ≡ 4096 }
    requires place { 64 + 8 * index + 8 ≤ 4096 }
    ensures { PutsLeaf index block.old block.new entry }
{
    let at = place_of(index);
    put_u32(block, at, entry.hash);
    put_u32(block, at + 4, entry.address);
}
