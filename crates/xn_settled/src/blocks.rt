//! Blocks after items.

ghost use Rattle.std.specs.Prelude.{◌≡◌, ◌+◌, ◌*◌, ◌≤◌, All, IfOk, OnErr, OnOk, drop, flat_map, length, nat_le, take};
ghost use Rattle.xn_bytes.specs.Numbers.{overlaid};
ghost use Rattle.xn_changes.specs.Items.{buffer_kind};
ghost use Rattle.xn_changes.specs.declared.item.BufferItem.{BufferItem};
ghost use Rattle.xn_settled.specs.Blocks.{block_after, checksum_place as checksum_place_of, lsn_place as lsn_place_of, with_pieces};
ghost use Rattle.xn_settled.specs.Spelt.{IsCovered};

use std::alloc::{AllocError, Global};
use xn_bytes::{Bytes, put_checksum, put_u64};
use xn_changes::BufferItem;
use xn_transactions::pieces_in;

/// How many bytes a piece has.
const PIECE: usize = 128;

/// The last kind of block that has its header in the order of data blocks: those of the free index.
const LAST_DATA_KIND: u16 = 12;

/// Makes a block's bytes those after an item of a transaction whose commit stands in the record with that sequence number. Without
/// memory nothing changes.
pub fn lay_block(
    alloc: Global,
    item: &BufferItem,
    lsn: u64,
    block: &mut [u8],
) -> Result<(), AllocError>
    requires item { IsCovered item.now }
    requires length { item.now.length ≡ 8 }
    requires block { length block.old ≡ 4096 }
    ensures value { OnOk result (block.new ≡ block_after item.now lsn block.old) }
    ensures unchanged { OnErr result (block.new ≡ block.old) }
    ensures length { length block.new ≡ length block.old }
{
    let pieces = pieces_in(alloc, item.map.as_slice())?;
    let bytes = join(alloc, item.regions.as_slice())?;
    lay_pieces(&pieces, &bytes, block);
    put_u64(block, lsn_place(item.flags), lsn);
    put_checksum(block, checksum_place(item.flags));
    Ok(())
}

/// Where a block of the kind that the flags say has its sequence number.
fn lsn_place(flags: u16) -> usize
    ensures value { (item : BufferItem) → item.flags ≡ flags → result ≡ lsn_place_of item }
    ensures low { result ≤ 24 }
{
    if is_data(flags) { 16 } else { 24 }
}

/// Where a block of the kind that the flags say has its checksum.
pub(crate) fn checksum_place(flags: u16) -> usize
    ensures value { (item : BufferItem) → item.flags ≡ flags → result ≡ checksum_place_of item }
    ensures low { result ≤ 12 }
{
    if is_data(flags) { 4 } else { 12 }
}

/// Whether the flags say a block of a directory's data or of its free index.
fn is_data(flags: u16) -> bool
    ensures { result ≡ nat_le (buffer_kind flags) 12 }
{
    flags / 2048 % 32 <= LAST_DATA_KIND
}

/// The bytes of regions, one behind the other.
fn join(alloc: Global, regions: &[Bytes]) -> Result<Vec<u8>, AllocError>
    ensures { IfOk result (λ bytes. bytes.items ≡ flat_map (λ region. region) regions.now) }
{
    let mut bytes = Vec::new(alloc);
    for region in regions {
        bytes.extend_from_slice(region.as_slice())?;
    }
    Ok(bytes)
}

/// Replaces the pieces of these numbers by those of the bytes, in order.
fn lay_pieces(pieces: &[usize], bytes: &[u8], block: &mut [u8])
    requires bytes { 128 * length pieces.now ≤ length bytes.now }
    requires within { All (λ piece. 128 * piece + 128 ≤ length block.old) pieces.now }
    ensures value { block.new ≡ with_pieces pieces.now bytes.now block.old }
    ensures length { length block.new ≡ length block.old }
{
    for k in 0..pieces.len() {
        lay_piece(&bytes[PIECE * k..], pieces[k], block);
    }
}

/// Replaces one piece by that at the front of the bytes.
fn lay_piece(bytes: &[u8], piece: usize, block: &mut [u8])
    requires bytes { 128 ≤ length bytes.now }
    requires within { 128 * piece + 128 ≤ length block.old }
    ensures value { block.new ≡ overlaid block.old (128 * piece) (take 128 bytes.now) }
    ensures length { length block.new ≡ length block.old }
{
    let at = PIECE * piece;
    block[at..at + PIECE].copy_from_slice(&bytes[..PIECE]);
}
