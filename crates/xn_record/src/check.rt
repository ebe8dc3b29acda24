//! The first place at which bytes are no intact record.

ghost use Rattle.std.specs.Prelude.{◌≡◌, ◌≤◌, ◌==◌, ◌||◌, ℕ, Option, None, OnOk, IsTrue, true, length, bytes_eq, replicate};
ghost use Rattle.xn_log.specs.Records.{are_whole, body_of, body_sectors, count_in, cycle_in, greatest_cycle, length_in, lsn_in, lsn_of, stamp_of, uuid_in};
ghost use Rattle.xn_log.specs.RecordFaults.{body_end_fault, is_cycle, is_length, is_whole, record_fault, stamps_fault, unless, unless_checksum};
ghost use Rattle.xn_record.specs.Checks.{HasBody, IsStart, Passes, end_fault, start_fault};

use crate::body::are_whole;
use crate::checksum::has_checksum;
use crate::fault::RecFault;
use crate::field::{
    FORMAT, MAGIC, SECTOR, SIZE, VERSION, body_sectors, cycle_in, expect_u32, is_cycle, is_length,
    length_in, lsn_of, reach, right_at, u32_field, u64_field,
};

/// Tells the first place at which the bytes from a sector of a ring on are no intact record of the filesystem with this uuid.
pub(crate) fn check_record(
    bytes: &[u8],
    sector: u32,
    ring_sectors: u32,
    uuid: &[u8; 16],
) -> Result<(), RecFault>
    ensures passes { Passes (record_fault ring_sectors sector uuid.now bytes.now) None result }
    ensures body { OnOk result (HasBody bytes.now) }
    ensures whole { OnOk result (IsTrue (are_whole (count_in bytes.now) (body_of bytes.now))) }
{
    check_start(bytes, sector, ring_sectors)?;
    check_checksum(bytes)?;
    check_end(bytes, uuid)?;
    check_stamps(bytes, sector, ring_sectors)?;
    check_body(bytes)
}

/// The fields up to the sequence number.
fn check_start(bytes: &[u8], sector: u32, ring_sectors: u32) -> Result<(), RecFault>
    ensures passes { (behind : Option ℕ) → Passes (start_fault ring_sectors sector bytes.now behind) behind result }
    ensures start { OnOk result (IsStart bytes.now) }
{
    expect_u32(bytes, 0, MAGIC)?;
    check_cycle(bytes)?;
    expect_u32(bytes, 8, VERSION)?;
    check_length(bytes, ring_sectors)?;
    check_lsn(bytes, sector)
}

/// The cycle, which has to be in range.
fn check_cycle(bytes: &[u8]) -> Result<(), RecFault>
    ensures passes { (behind : Option ℕ) → Passes (unless 4 4 (is_cycle (cycle_in bytes.now)) bytes.now behind) behind result }
    ensures there { OnOk result (8 ≤ length bytes.now) }
    ensures right { OnOk result (is_cycle (cycle_in bytes.now) ≡ true) }
{
    let cycle = u32_field(bytes, 4)?;
    right_at(is_cycle(cycle), 4)
}

/// The length, which has to be in range, and the record not longer than the ring.
fn check_length(bytes: &[u8], ring_sectors: u32) -> Result<(), RecFault>
    ensures passes { (behind : Option ℕ) → Passes (unless 4 12 (is_length ring_sectors (length_in bytes.now)) bytes.now behind) behind result }
    ensures there { OnOk result (16 ≤ length bytes.now) }
    ensures right { OnOk result (is_length ring_sectors (length_in bytes.now) ≡ true) }
{
    let length = u32_field(bytes, 12)?;
    right_at(is_length(length, ring_sectors), 12)
}

/// The sequence number, which has to be that of the cycle and the sector.
fn check_lsn(bytes: &[u8], sector: u32) -> Result<(), RecFault>
    requires { 8 ≤ length bytes.now }
    ensures { (behind : Option ℕ) → Passes (unless 8 16 (lsn_in bytes.now == lsn_of (cycle_in bytes.now) sector) bytes.now behind) behind result }
{
    let lsn = u64_field(bytes, 16)?;
    right_at(lsn == lsn_of(cycle_in(bytes), sector), 16)
}

/// The checksum, which can be compared only where all sectors are there.
fn check_checksum(bytes: &[u8]) -> Result<(), RecFault>
    requires { IsStart bytes.now }
    ensures { (behind : Option ℕ) → Passes (unless_checksum bytes.now behind) behind result }
{
    if is_whole(bytes) {
        right_at(has_checksum(bytes), 32)
    } else {
        Ok(())
    }
}

/// Whether all sectors of the record are there.
fn is_whole(bytes: &[u8]) -> bool
    requires { IsStart bytes.now }
    ensures { result ≡ is_whole bytes.now }
{
    SECTOR * (1 + body_sectors(length_in(bytes)) as usize) <= bytes.len()
}

/// The fields behind the cycle words.
fn check_end(bytes: &[u8], uuid: &[u8; 16]) -> Result<(), RecFault>
    ensures { (behind : Option ℕ) → Passes (end_fault uuid.now bytes.now behind) behind result }
{
    expect_u32(bytes, 300, FORMAT)?;
    check_uuid(bytes, uuid)?;
    expect_u32(bytes, 320, SIZE)
}

/// The uuid, which has to be the filesystem's or zeros.
fn check_uuid(bytes: &[u8], uuid: &[u8; 16]) -> Result<(), RecFault>
    ensures { (behind : Option ℕ) → Passes (unless 16 304 (bytes_eq (uuid_in bytes.now) uuid.now || bytes_eq (uuid_in bytes.now) (replicate 16 0)) bytes.now behind) behind result }
{
    reach(bytes, 320)?;
    let own = &bytes[304..320];
    right_at(own == uuid.as_slice() || own == [0; 16].as_slice(), 304)
}

/// The stamp of each body sector.
fn check_stamps(bytes: &[u8], sector: u32, ring_sectors: u32) -> Result<(), RecFault>
    requires { IsStart bytes.now }
    ensures { Passes (stamps_fault ring_sectors sector bytes.now 0 (body_sectors (length_in bytes.now))) (body_end_fault bytes.now) result }
{
    let cycle = cycle_in(bytes);
    for index in 0..body_sectors(length_in(bytes)) {
        let stamp = stamp_of(ring_sectors, sector, cycle, index);
        expect_u32(bytes, 512 + 512 * index, stamp)?;
    }
    Ok(())
}

/// The stamp of a body sector: the record's cycle, or one more past the ring's end.
pub(crate) fn stamp_of(ring_sectors: u32, sector: u32, cycle: u32, index: u32) -> u32
    requires { cycle ≤ greatest_cycle }
    ensures { result ≡ stamp_of ring_sectors sector cycle index }
{
    if u64::from(sector) + 1 + u64::from(index) < u64::from(ring_sectors) {
        cycle
    } else {
        cycle + 1
    }
}

/// The operations, which have to stand whole in a body that is there.
fn check_body(bytes: &[u8]) -> Result<(), RecFault>
    requires { IsStart bytes.now }
    ensures passes { Passes (body_end_fault bytes.now) None result }
    ensures body { OnOk result (HasBody bytes.now) }
    ensures whole { OnOk result (IsTrue (are_whole (count_in bytes.now) (body_of bytes.now))) }
{
    let length = length_in(bytes);
    reach(bytes, 512 * (1 + body_sectors(length)))?;
    right_at(are_whole(bytes), 512 + length)
}
