//! What a record says, where the bytes begin with an intact one.

ghost use Rattle.xn_log.specs.Records.{outline_in, record_in};
ghost use Rattle.xn_log.specs.RecordFaults.{record_fault};
ghost use Rattle.xn_record.specs.Answers.{IsRead, IsReadUnlessMemory};

use crate::body::holds_unmount;
use crate::check::check_record;
use crate::fault::RecFault;
use crate::field::{body_sectors, cycle_in, length_in};
use crate::operations::operations_of;
use std::alloc::Global;
use xn_bytes::{u32_at, u64_at};
use xn_log::{Outline, Record};

/// What the ring has to know of the record that the bytes begin with. They are those from a sector of a ring of so many on, as
/// many as the record takes at least, and the uuid is the filesystem's.
///
/// Where no intact record begins there, the first place that is wrong is told. No memory is taken.
pub fn outline(
    bytes: &[u8],
    sector: u32,
    ring_sectors: u32,
    uuid: &[u8; 16],
) -> Result<Outline, RecFault>
    ensures { IsRead (record_fault ring_sectors sector uuid.now bytes.now) (outline_in sector bytes.now) result }
{
    check_record(bytes, sector, ring_sectors, uuid)?;
    Ok(Outline {
        cycle: cycle_in(bytes),
        sector,
        sectors: 1 + body_sectors(length_in(bytes)),
        tail: u64_at(bytes, 24),
        is_unmount: holds_unmount(bytes),
    })
}

/// The record that the bytes begin with. They are those from a sector of a ring of so many on, as many as the record takes at
/// least, and the uuid is the filesystem's.
///
/// Where no intact record begins there, the first place that is wrong is told.
pub fn decode(
    alloc: Global,
    bytes: &[u8],
    sector: u32,
    ring_sectors: u32,
    uuid: &[u8; 16],
) -> Result<Record, RecFault>
    ensures { IsReadUnlessMemory (record_fault ring_sectors sector uuid.now bytes.now) (record_in sector bytes.now) result }
{
    check_record(bytes, sector, ring_sectors, uuid)?;
    Ok(Record {
        cycle: cycle_in(bytes),
        sector,
        tail: u64_at(bytes, 24),
        previous: u32_at(bytes, 36),
        ops: operations_of(alloc, bytes)?,
    })
}
