//! The header of a leaf that is written anew.

ghost use Rattle.std.specs.Prelude.{◌≡◌, ◌+◌, ◌*◌, ◌≤◌, length};
ghost use Rattle.xn_attrleaf.specs.Putting.{PutsCounts, PutsFreeMap, PutsHeader};

use crate::put::put_zeros;
use crate::read::{COUNT, FIRST_USED, LEAF, MAGIC, USED};
use xn_bytes::put_u16;

const MAGIC_PADDING: usize = 10;

/// Whether there are holes between names, in a byte, and a byte 0.
const HOLES: usize = 62;

const FREE_BASE: usize = 64;

const FREE_SIZE: usize = 66;

const FREE_REST: usize = 68;

const HEADER: usize = 80;

const BLOCK_BYTES: u16 = 4096;

/// Puts the header of a leaf with so many entries, whose names begin at a place and have no bytes between them.
pub(crate) fn put_header(block: &mut [u8], count: u16, first: u16)
    requires size { length block.old ≡ 4096 }
    requires room { 80 + 8 * count ≤ first }
    requires first { first ≤ 4096 }
    ensures { PutsHeader count first block.old block.new }
{
    put_u16(block, MAGIC, LEAF);
    put_u16(block, MAGIC_PADDING, 0);
    put_counts(block, count, first);
    put_free_map(block, 80 + 8 * count, first);
}

/// Puts how many entries there are, how many bytes their names take, and where those begin.
fn put_counts(block: &mut [u8], count: u16, first: u16)
    requires size { length block.old ≡ 4096 }
    requires first { first ≤ 4096 }
    ensures { PutsCounts count first block.old block.new }
{
    put_u16(block, COUNT, count);
    put_u16(block, USED, BLOCK_BYTES - first);
    put_u16(block, FIRST_USED, first);
    put_u16(block, HOLES, 0);
}

/// Puts the map of free bytes: those between entries and names alone.
fn put_free_map(block: &mut [u8], base: u16, first: u16)
    requires size { length block.old ≡ 4096 }
    requires order { base ≤ first }
    ensures { PutsFreeMap base first block.old block.new }
{
    put_u16(block, FREE_BASE, base);
    put_u16(block, FREE_SIZE, first - base);
    put_zeros(block, FREE_REST, HEADER);
}
