//! Items of buffers (`struct xfs_buf_log_format`).

ghost use Rattle.std.specs.Prelude.{◌≡◌, ◌+◌, ◌*◌, ◌^◌, ◌<◌, ◌≤◌, ◌-◌, ◌&&◌, ℕ, List, [], length, true, false, nat_le, IfOk, MatchOption};
ghost use Rattle.xn_changes.specs.Decoded.{bytes_of};
ghost use Rattle.xn_changes.specs.Items.{are_there, buffer_item_in, buffer_kind, buffer_regions, is_cancelled, is_lawful_format, knows_kind, map_in, map_words_said, regions_said, take_buffer, take_cancelled};
ghost use Rattle.xn_transactions.specs.Taking.{Takes, take_changed};

use crate::fault::Refusal;
use crate::numbers::{little_u16_at, little_u64_at};
use crate::pieces::{are_within, cover, pieces_in};
use crate::region::{Region, are_there};
use crate::taken::Taken;
use std::alloc::{AllocError, Global};
use xn_bytes::{Bytes, little_u32_at};
use xn_changes::{BufferItem, Item, MapWords, Regions};

/// Where the map begins in the first region.
const MAP: usize = 20;

const WORD: usize = 4;

const CANCEL: u16 = 2;

/// The number that stands in the flags' upper bits for a directory block, the first kind that is known.
const DIRECTORY_BLOCK: u16 = 10;

/// The same for a leaf of attributes, the last kind that is known.
const ATTRIBUTE_LEAF: u16 = 16;

/// The flags of a buffer's item, with the kind of its block.
#[derive(Clone, Copy)]
struct Flags(u16);

impl Flags {
    fn is_cancelled(self) -> bool
        ensures { result ≡ is_cancelled self.0 }
    {
        self.0 / CANCEL % 2 == 1
    }

    fn knows_kind(self) -> bool
        ensures { result ≡ knows_kind (buffer_kind self.0) }
    {
        let kind = self.0 / 2048 % 32;
        DIRECTORY_BLOCK <= kind && kind <= ATTRIBUTE_LEAF
    }
}

/// The item of a buffer: one that cancels, or new bytes of pieces of the buffer in the regions behind the first.
pub(crate) fn take_buffer(
    alloc: Global,
    first: &[u8],
    rest: &[Region<'_>],
) -> Result<Taken, Refusal>
    ensures { Takes (take_buffer first.now (bytes_of rest.now)) result }
{
    if first.len() < 6 {
        return Err(Refusal::Malformed);
    }
    let flags = Flags(little_u16_at(first, 4));
    if flags.is_cancelled() {
        return take_cancelled(alloc, first);
    }
    if !flags.knows_kind() {
        return Err(Refusal::Foreign);
    }
    take_changed(alloc, first, rest)
}

/// A buffer that cancels: its first region alone, with any map and of any kind.
fn take_cancelled(alloc: Global, first: &[u8]) -> Result<Taken, Refusal>
    ensures { (rest : List (List ℕ)) → Takes (take_cancelled first.now rest) result }
{
    if !is_lawful_format(first) || little_u16_at(first, 2) != 1 {
        return Err(Refusal::Malformed);
    }
    let words = words_in(alloc, first)?;
    Ok(Taken {
        item: Item::Buffer(item_with(first, words, Vec::new(alloc))),
        behind: 0,
    })
}

/// A buffer of which pieces are changed.
fn take_changed(alloc: Global, first: &[u8], rest: &[Region<'_>]) -> Result<Taken, Refusal>
    ensures { Takes (take_changed first.now (bytes_of rest.now)) result }
{
    let Some(regions) = regions_behind(first, rest) else {
        return Err(Refusal::Malformed);
    };
    let words = words_in(alloc, first)?;
    let pieces = pieces_in(alloc, &words)?;
    if !cover(regions, &pieces) || !are_within(little_u16_at(first, 6), &pieces) {
        return Err(Refusal::Malformed);
    }
    let copies = copies_of(alloc, regions)?;
    Ok(Taken {
        item: Item::Buffer(item_with(first, words, copies)),
        behind: regions.len(),
    })
}

/// The regions behind the first, where that has just its fields and its map, and as many regions as it says are there.
fn regions_behind<'r, 'b>(first: &[u8], rest: &'r [Region<'b>]) -> Option<&'r [Region<'b>]>
    ensures { MatchOption result
        ((is_lawful_format first.now && nat_le 1 (regions_said first.now) && are_there (regions_said first.now - 1) (bytes_of rest.now)) ≡ false)
        (λ regions. (is_lawful_format first.now ≡ true) × (nat_le 1 (regions_said first.now) ≡ true) × (are_there (regions_said first.now - 1) (bytes_of rest.now) ≡ true)
        × (bytes_of regions.now ≡ buffer_regions first.now (bytes_of rest.now)) × (length regions.now ≡ regions_said first.now - 1)) }
{
    if !is_lawful_format(first) {
        return None;
    }
    let count = usize::from(little_u16_at(first, 2)).checked_sub(1)?;
    if !are_there(count, rest) {
        return None;
    }
    Some(&rest[..count])
}

/// Whether the first region has just its fields and its map.
fn is_lawful_format(first: &[u8]) -> bool
    ensures value { result ≡ is_lawful_format first.now }
    ensures size { result ≡ true → length first.now ≡ 20 + 4 * map_words_said first.now }
{
    first.len() >= MAP && first.len() == MAP + WORD * little_u32_at(first, 16) as usize
}

/// The words of the map.
fn words_in(alloc: Global, first: &[u8]) -> Result<Vec<u32>, AllocError>
    requires { length first.now ≡ 20 + 4 * map_words_said first.now }
    ensures words { IfOk result (λ words. words.items ≡ map_in first.now) }
    ensures few { IfOk result (λ words. length words.items < 2 ^ 32) }
{
    let count = little_u32_at(first, 16);
    let mut words = Vec::new(alloc);
    for k in 0..count {
        words.push(little_u32_at(first, MAP + WORD * k as usize))?;
    }
    Ok(words)
}

/// Copies of the bytes of regions.
fn copies_of(alloc: Global, regions: &[Region<'_>]) -> Result<Vec<Bytes>, AllocError>
    ensures { IfOk result (λ copies. copies.items ≡ bytes_of regions.now) }
{
    let mut copies = Vec::new(alloc);
    for region in regions {
        copies.push(Bytes::new(Vec::from_slice(alloc, region.bytes())?))?;
    }
    Ok(copies)
}

fn item_with(first: &[u8], words: Vec<u32>, regions: Vec<Bytes>) -> BufferItem
    requires size { 20 ≤ length first.now }
    requires words { words.items ≡ map_in first.now }
    ensures { result ≡ buffer_item_in first.now regions.items }
{
    BufferItem {
        flags: little_u16_at(first, 4),
        length: little_u16_at(first, 6),
        sector: little_u64_at(first, 8),
        map: MapWords::new(words),
        regions: Regions::new(regions),
    }
}
