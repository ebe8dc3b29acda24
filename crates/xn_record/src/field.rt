//! Fields of a header: those that are there, and those that are right.

ghost use Rattle.std.specs.Prelude.{◌≡◌, ◌==◌, ◌+◌, ◌<◌, ◌≤◌, Option, ℕ, OnOk, length};
ghost use Rattle.xn_bytes.specs.Numbers.{number_at};
ghost use Rattle.xn_log.specs.Records.{body_sectors, count_in, cycle_in, length_in, lsn_of};
ghost use Rattle.xn_log.specs.RecordFaults.{is_cycle, is_length, unless};
ghost use Rattle.xn_record.specs.Checks.{IsField, IsReached, IsRightAt, Passes};

use crate::fault::RecFault;
use xn_bytes::{u32_at, u64_at};

pub(crate) const SECTOR: usize = 512;

/// How many bytes a stamp has, and the word that it stands for.
pub(crate) const STAMP: usize = 4;

/// Where the words stand in the header that the stamps stand for.
pub(crate) const CYCLE_WORDS: usize = 44;

pub(crate) const MAGIC: u32 = 0xfeed_babe;

pub(crate) const VERSION: u32 = 2;

/// The format of items that Linux writes on machines whose lowest byte comes first.
pub(crate) const FORMAT: u32 = 1;

/// How many bytes the log's buffers have.
pub(crate) const SIZE: u32 = 32768;

const GREATEST_CYCLE: u32 = 4_000_000_000;

const GREATEST_LENGTH: u32 = 32768;

/// How often the writer had gone round the ring.
pub(crate) fn cycle_in(bytes: &[u8]) -> u32
    requires { 8 ≤ length bytes.now }
    ensures { result ≡ cycle_in bytes.now }
{
    u32_at(bytes, 4)
}

/// How many bytes of the body are used.
pub(crate) fn length_in(bytes: &[u8]) -> u32
    requires { 16 ≤ length bytes.now }
    ensures { result ≡ length_in bytes.now }
{
    u32_at(bytes, 12)
}

/// How many operations the body has.
pub(crate) fn count_in(bytes: &[u8]) -> u32
    requires { 44 ≤ length bytes.now }
    ensures { result ≡ count_in bytes.now }
{
    u32_at(bytes, 40)
}

/// How many sectors a body of so many bytes takes.
pub(crate) fn body_sectors(length: u32) -> u32
    requires { length ≤ 32768 }
    ensures { result ≡ body_sectors length }
{
    length.div_ceil(512)
}

/// The sequence number of a record: its cycle above its ring sector.
pub(crate) fn lsn_of(cycle: u32, sector: u32) -> u64
    ensures { result ≡ lsn_of cycle sector }
{
    u64::from(cycle) * (1 << 32) + u64::from(sector)
}

/// Whether a cycle is in range.
pub(crate) fn is_cycle(cycle: u32) -> bool
    ensures { result ≡ is_cycle cycle }
{
    1 <= cycle && cycle <= GREATEST_CYCLE
}

/// Whether the length of a body is in range, and its record not longer than the ring.
pub(crate) fn is_length(length: u32, ring_sectors: u32) -> bool
    ensures { result ≡ is_length ring_sectors length }
{
    1 <= length && length <= GREATEST_LENGTH && 1 + body_sectors(length) <= ring_sectors
}

/// The place of the first byte that is missing, unless the bytes reach this place.
pub(crate) fn reach(bytes: &[u8], end: u32) -> Result<(), RecFault>
    ensures { IsReached end bytes.now result }
{
    let length = bytes.len();
    if length < end as usize {
        return Err(RecFault::Bad { at: length as u32 });
    }
    Ok(())
}

/// The number of four bytes at a place.
pub(crate) fn u32_field(bytes: &[u8], at: u32) -> Result<u32, RecFault>
    requires { at < 65536 }
    ensures { IsField 4 at bytes.now result }
{
    reach(bytes, at + 4)?;
    Ok(u32_at(bytes, at as usize))
}

/// The number of eight bytes at a place.
pub(crate) fn u64_field(bytes: &[u8], at: u32) -> Result<u64, RecFault>
    requires { at < 65536 }
    ensures { IsField 8 at bytes.now result }
{
    reach(bytes, at + 8)?;
    Ok(u64_at(bytes, at as usize))
}

/// Refuses the bytes at the place of a field that is wrong.
pub(crate) fn right_at(is_right: bool, at: u32) -> Result<(), RecFault>
    ensures { IsRightAt is_right at result }
{
    if is_right {
        Ok(())
    } else {
        Err(RecFault::Bad { at })
    }
}

/// Refuses the bytes where the four at a place are missing or another number than this.
pub(crate) fn expect_u32(bytes: &[u8], at: u32, number: u32) -> Result<(), RecFault>
    requires { at < 65536 }
    ensures passes { (behind : Option ℕ) → Passes (unless 4 at (number_at 4 at bytes.now == number) bytes.now behind) behind result }
    ensures there { OnOk result (at + 4 ≤ length bytes.now) }
{
    let found = u32_field(bytes, at)?;
    right_at(found == number, at)
}
