//! One region of a block.

ghost use Rattle.std.specs.Prelude.{◌≡◌, ◌≢◌, ◌+◌, ◌-◌, ◌≤◌, ◌==◌, ◌&&◌, ◌%◌, Bool, nat_le, length, slice_index, IfOk, MatchResult};
ghost use Rattle.xn_bytes.specs.Entries.{data_entry_length};
ghost use Rattle.xn_bytes.specs.Numbers.{number_at};
ghost use Rattle.xn_bytes.specs.DataBlock.{free_tag, region_size, region_fault};
ghost use Rattle.xn_data.specs.Checks.{FindsFault};

use crate::fault::{DataFault, fault_at};
use crate::layout::{FREE_SIZE, FREE_TAG, LEAST_ENTRY, LEAST_FREE, NAME, NAME_LENGTH};
use xn_bytes::{Kind, u16_at};

/// Whether the region at a place is free.
pub(crate) fn is_free(bytes: &[u8], at: usize) -> bool
    requires { at + 2 ≤ length bytes.now }
    ensures { result ≡ (number_at 2 at bytes.now == free_tag) }
{
    u16_at(bytes, at) == FREE_TAG
}

/// The length that a free region says.
pub(crate) fn free_size(bytes: &[u8], at: usize) -> usize
    requires { at + 4 ≤ length bytes.now }
    ensures { result ≡ number_at 2 (at + 2) bytes.now }
{
    usize::from(u16_at(bytes, at + FREE_SIZE))
}

/// How many bytes the entry of a name takes.
pub(crate) fn entry_size(name_length: u8) -> usize
    ensures { result ≡ data_entry_length name_length }
{
    (12 + usize::from(name_length)).next_multiple_of(8)
}

/// The length of the region at a place, where it stands whole before the end; else why it doesn't. `behind_free` says
/// that a free one ends at the place.
pub(crate) fn check_region(
    bytes: &[u8],
    at: usize,
    end: usize,
    behind_free: bool,
) -> Result<usize, DataFault>
    requires within { at + 8 ≤ end }
    requires size { end ≤ length bytes.now }
    ensures fault { FindsFault (region_fault behind_free at end bytes.now) result }
    ensures length { IfOk result (λ size. size ≡ region_size at bytes.now) }
{
    if is_free(bytes, at) {
        check_free(bytes, at, end, behind_free)
    } else {
        check_entry(bytes, at, end)
    }
}

#[tactic(auto, unfolding(xn_bytes::specs::DataBlock::region_fault))]
fn check_free(bytes: &[u8], at: usize, end: usize, behind_free: bool) -> Result<usize, DataFault>
    requires within { at + 8 ≤ end }
    requires size { end ≤ length bytes.now }
    requires free { number_at 2 at bytes.now ≡ free_tag }
    ensures fault { FindsFault (region_fault behind_free at end bytes.now) result }
    ensures length { IfOk result (λ size. size ≡ region_size at bytes.now) }
{
    if behind_free {
        return Err(fault_at(at));
    }
    let size = free_size(bytes, at);
    if !is_free_size(size) || end - at < size {
        return Err(fault_at(at + FREE_SIZE));
    }
    check_own_place(bytes, at, size)
}

/// Whether a free region may have that length.
fn is_free_size(size: usize) -> bool
    ensures { result ≡ (nat_le 8 size && (size % 8 == 0)) }
{
    LEAST_FREE <= size && size % 8 == 0
}

#[tactic(auto, unfolding(xn_bytes::specs::DataBlock::region_fault))]
pub(crate) fn check_entry(bytes: &[u8], at: usize, end: usize) -> Result<usize, DataFault>
    requires within { at + 8 ≤ end }
    requires size { end ≤ length bytes.now }
    requires used { number_at 2 at bytes.now ≢ free_tag }
    ensures fault { (behind_free : Bool) → FindsFault (region_fault behind_free at end bytes.now) result }
    ensures length { IfOk result (λ size. size ≡ region_size at bytes.now) }
{
    if end < at + LEAST_ENTRY {
        return Err(fault_at(at));
    }
    let size = entry_size(bytes[at + NAME_LENGTH]);
    if end < at + size {
        return Err(fault_at(at + NAME_LENGTH));
    }
    let kind = at + NAME + usize::from(bytes[at + NAME_LENGTH]);
    if Kind::from_number(bytes[kind]).is_none() {
        return Err(fault_at(kind));
    }
    check_own_place(bytes, at, size)
}

/// The length of a region that ends with its own place.
fn check_own_place(bytes: &[u8], at: usize, size: usize) -> Result<usize, DataFault>
    requires some { 2 ≤ size }
    requires within { at + size ≤ length bytes.now }
    ensures { MatchResult result
        (λ found. (found ≡ size) × (number_at 2 (at + size - 2) bytes.now ≡ at))
        (λ fault. (fault.at ≡ at + size - 2) × (number_at 2 (at + size - 2) bytes.now ≢ at)) }
{
    let place = at + size - 2;
    if usize::from(u16_at(bytes, place)) == at {
        Ok(size)
    } else {
        Err(fault_at(place))
    }
}
