//! A leaf written anew.

ghost use Rattle.std.specs.Prelude.{◌≡◌, ◌≢◌, ◌≤◌, All, length};
ghost use Rattle.std.specs.List.Sorted.{IsNonDecreasingBy};
ghost use Rattle.xn_leaf.specs.Placed.{IsFilled, PutsCounts, PutsLeaves};

use crate::entry::{HashAt, put_entry};
use crate::read::{CHECKSUM, COUNT, LEAF, MAGIC, STALE};
use xn_bytes::{put_checksum, put_u16, put_u32};

const PADDING: usize = 60;

/// Makes a block a leaf with these entries.
pub(crate) fn fill(block: &mut [u8], entries: &[HashAt])
    requires size { length block.old ≡ 4096 }
    requires few { length entries.now ≤ 504 }
    requires lawful { All (λ leaf. leaf.address ≢ 0) entries.now }
    requires sorted { IsNonDecreasingBy (λ leaf. leaf.hash) entries.now }
    ensures { IsFilled block.old block.new entries.now }
{
    put_entries(block, entries);
    put_counts(block, entries.len() as u16);
    put_checksum(block, CHECKSUM);
}

/// Puts entries from the place of the first on.
fn put_entries(block: &mut [u8], entries: &[HashAt])
    requires size { length block.old ≡ 4096 }
    requires few { length entries.now ≤ 504 }
    ensures { PutsLeaves block.old block.new entries.now }
{
    for index in 0..entries.len() {
        put_entry(block, index, entries[index]);
    }
}

/// Puts the magic number of a leaf under nodes, and the counts of its entries and of stale ones, none.
fn put_counts(block: &mut [u8], count: u16)
    requires { length block.old ≡ 4096 }
    ensures { PutsCounts count block.old block.new }
{
    put_u16(block, MAGIC, LEAF);
    put_u16(block, COUNT, count);
    put_u16(block, STALE, 0);
    put_u32(block, PADDING, 0);
}
