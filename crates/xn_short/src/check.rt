//! Whether bytes are a short form, and where they first fail.

ghost use Rattle.std.specs.Prelude.{◌≡◌, ◌+◌, ◌≤◌, ◌<◌, ◌^◌, nat_le, if◌then◌else◌, length, drop, slice_index, IfOk, IfErr, Some};
ghost use Rattle.xn_bytes.specs.Entries.{data_entry_length};
ghost use Rattle.xn_bytes.specs.Numbers.{number_at};
ghost use Rattle.xn_bytes.specs.ShortDirectory.{short_fault, entry_fault, entries_end, first_position, end_limit, entry_size, width_in, fits_position};
ghost use Rattle.xn_short.specs.Widths.{byte_count};
ghost use Rattle.xn_short.specs.Checks.{FindsFault, FindsEnd, wide_count_in, counts_wrong};

use crate::fault::ShortFault;
use crate::layout::{NAME, PARENT, POSITION};
use crate::width::NumberWidth;
use xn_bytes::{Kind, u16_at};

/// The least position that an entry can have: dot and dotdot stand before it in a data block.
const FIRST_POSITION: u64 = 96;

/// The size of a directory's block.
const BLOCK: u64 = 4096;

/// The size of an entry in the table at a block's end, which has one for each name, dot and dotdot included.
const TABLE_ENTRY: u64 = 8;

/// The size of the counts behind that table.
const TABLE_COUNTS: u64 = 8;

fn fault_at(at: usize) -> ShortFault
    ensures { result.at ≡ at }
{
    ShortFault { at: at as u64 }
}

/// Whether the bytes are a short form; where they are none, the first place at which they fail.
pub(crate) fn check(bytes: &[u8]) -> Result<(), ShortFault>
    ensures { FindsFault (short_fault bytes.now) result }
{
    let width = width_of(bytes)?;
    if is_wide_count_wrong(bytes, width) {
        return Err(fault_at(1));
    }
    let end = end_of_entries(bytes, width)?;
    if end < bytes.len() {
        return Err(fault_at(end));
    }
    Ok(())
}

// The width of the inode numbers, once the bytes reach the end of the parent.
#[tactic(auto, unfolding(xn_bytes::specs::ShortDirectory::short_fault))]
fn width_of(bytes: &[u8]) -> Result<NumberWidth, ShortFault>
    ensures width { IfOk result (λ width. byte_count width ≡ width_in bytes.now) }
    ensures within { IfOk result (λ width. 2 + byte_count width ≤ length bytes.now) }
    ensures fault { IfErr result (λ fault. short_fault bytes.now ≡ Some fault.at) }
{
    if bytes.len() < 2 {
        return Err(fault_at(bytes.len()));
    }
    let width = NumberWidth::for_wide_numbers(bytes[1]);
    if bytes.len() < PARENT + width.bytes() {
        return Err(fault_at(bytes.len()));
    }
    Ok(width)
}

// Whether all the entries' bytes are there, and the count of wide inode numbers is not theirs.
fn is_wide_count_wrong(bytes: &[u8], width: NumberWidth) -> bool
    requires width { byte_count width ≡ width_in bytes.now }
    requires within { 2 + byte_count width ≤ length bytes.now }
    ensures { result ≡ counts_wrong bytes.now }
{
    match wide_count(bytes, width) {
        Some(count) => count != usize::from(bytes[1]),
        None => false,
    }
}

// How many inode numbers need eight bytes, the parent's included, where all the entries' bytes are there.
fn wide_count(bytes: &[u8], width: NumberWidth) -> Option<usize>
    requires width { byte_count width ≡ width_in bytes.now }
    requires within { 2 + byte_count width ≤ length bytes.now }
    ensures { result ≡ wide_count_in bytes.now }
{
    let count = bytes[0];
    let mut wide = wide_at(bytes, PARENT, width);
    let mut at = PARENT + width.bytes();
    for _ in 0..count {
        let number = at + NAME + 1 + usize::from(*bytes.get(at)?);
        at = number + width.bytes();
        if bytes.len() < at {
            return None;
        }
        wide += wide_at(bytes, number, width);
    }
    Some(wide)
}

// One where the inode number at a place needs eight bytes.
fn wide_at(bytes: &[u8], at: usize, width: NumberWidth) -> usize
    requires { at + byte_count width ≤ length bytes.now }
    ensures { result ≡ (if nat_le (2 ^ 32) (number_at (byte_count width) at bytes.now) then 1 else 0) }
{
    usize::from(width.number_at(bytes, at) > u64::from(u32::MAX))
}

// The place where the entries end.
fn end_of_entries(bytes: &[u8], width: NumberWidth) -> Result<usize, ShortFault>
    requires { 2 + byte_count width ≤ length bytes.now }
    ensures { FindsEnd (entries_end (slice_index bytes.now 0) (byte_count width) first_position (end_limit (slice_index bytes.now 0)) (2 + byte_count width) (drop (2 + byte_count width) bytes.now)) result }
{
    let count = bytes[0];
    let limit = end_limit(count);
    let mut least = FIRST_POSITION;
    let mut at = PARENT + width.bytes();
    for _ in 0..count {
        check_entry(&bytes[at..], at, width, least, limit)?;
        least = end_in_block(&bytes[at..]);
        at += NAME + 1 + usize::from(bytes[at]) + width.bytes();
    }
    Ok(at)
}

// Where the last entry has to end in a block, so that the table has place behind it.
fn end_limit(count: u8) -> u64
    ensures { result ≡ end_limit count }
{
    BLOCK - (TABLE_ENTRY * (u64::from(count) + 2) + TABLE_COUNTS)
}

// How many bytes the entry of a name takes in a data block.
fn block_length(name_length: u8) -> u64
    ensures { result ≡ data_entry_length name_length }
{
    (12 + u64::from(name_length)).next_multiple_of(8)
}

// Where the entry at the front would end in a data block.
fn end_in_block(rest: &[u8]) -> u64
    requires { 3 ≤ length rest.now }
    ensures { result ≡ number_at 2 1 rest.now + data_entry_length (slice_index rest.now 0) }
{
    u64::from(u16_at(rest, POSITION)) + block_length(rest[0])
}

// The entry at the front of `rest`, which begins at the place `at`.
#[tactic(auto, unfolding(xn_bytes::specs::ShortDirectory::entry_fault))]
fn check_entry(
    rest: &[u8],
    at: usize,
    width: NumberWidth,
    least: u64,
    limit: u64,
) -> Result<(), ShortFault>
    requires { at + length rest.now < 2 ^ 63 }
    ensures { FindsFault (entry_fault (byte_count width) least limit at rest.now) result }
{
    let missing = fault_at(at + rest.len());
    if rest.len() < NAME {
        return Err(missing);
    }
    if !is_position(rest, least, limit) {
        return Err(fault_at(at + POSITION));
    }
    let kind_place = NAME + usize::from(rest[0]);
    if rest.len() < kind_place + 1 {
        return Err(missing);
    }
    if Kind::from_number(rest[kind_place]).is_none() {
        return Err(fault_at(at + kind_place));
    }
    if rest.len() < kind_place + 1 + width.bytes() {
        return Err(missing);
    }
    Ok(())
}

// Whether the position of the entry at the front may stand there.
fn is_position(rest: &[u8], least: u64, limit: u64) -> bool
    requires { 3 ≤ length rest.now }
    ensures { result ≡ fits_position least limit (slice_index rest.now 0) (number_at 2 1 rest.now) }
{
    let position = u64::from(u16_at(rest, POSITION));
    least <= position && position % 8 == 0 && end_in_block(rest) <= limit
}
