//! Pieces of a record, put behind the bytes before. Where memory runs out, the bytes are of no use.

ghost use Rattle.std.specs.Prelude.{◌≡◌, ◌+◌, ◌*◌, ◌≤◌, ◌<◌, ◌++◌, OnOk, length, replicate};
ghost use Rattle.byteorder.specs.Endian.{big_bytes};
ghost use Rattle.xn_log.specs.Records.{greatest_cycle, stamp_of};
ghost use Rattle.xn_log.specs.Spelled.{first_words, greatest_spelled, operation_spelling, operations_spelling, stamped_from};

use crate::check::stamp_of;
use crate::field::{SECTOR, STAMP};
use xn_bytes::Memory;
use xn_log::{Op, Record};

/// The operations of a record as its body, filled up to whole sectors with zeros.
#[derive(Debug, Drop)]
pub(crate) struct PaddedBody {
    pub(crate) bytes: Vec<u8>,
    /// How many bytes are used.
    pub(crate) length: u32,
}

pub(crate) fn append_u32(bytes: &mut Vec<u8>, number: u32) -> Result<(), Memory>
    ensures { OnOk result (bytes.new.items ≡ bytes.old.items ++ big_bytes 4 number) }
{
    bytes.extend_from_slice(&number.to_be_bytes())?;
    Ok(())
}

pub(crate) fn append_u64(bytes: &mut Vec<u8>, number: u64) -> Result<(), Memory>
    ensures { OnOk result (bytes.new.items ≡ bytes.old.items ++ big_bytes 8 number) }
{
    bytes.extend_from_slice(&number.to_be_bytes())?;
    Ok(())
}

pub(crate) fn append_zeros(bytes: &mut Vec<u8>, count: usize) -> Result<(), Memory>
    requires { count ≤ 65536 }
    ensures { OnOk result (bytes.new.items ≡ bytes.old.items ++ replicate count 0) }
{
    bytes.resize(bytes.len() + count, 0)?;
    Ok(())
}

/// Operations, one behind the other.
pub(crate) fn append_operations(bytes: &mut Vec<u8>, ops: &[Op]) -> Result<(), Memory>
    requires { length (operations_spelling ops.now) ≤ greatest_spelled }
    ensures { OnOk result (bytes.new.items ≡ bytes.old.items ++ operations_spelling ops.now) }
{
    for op in ops {
        append_operation(bytes, op)?;
    }
    Ok(())
}

fn append_operation(bytes: &mut Vec<u8>, op: &Op) -> Result<(), Memory>
    requires { length op.now.bytes ≤ greatest_spelled }
    ensures { OnOk result (bytes.new.items ≡ bytes.old.items ++ operation_spelling op.now) }
{
    append_u32(bytes, op.tid)?;
    append_u32(bytes, op.bytes.as_slice().len() as u32)?;
    bytes.extend_from_slice(&[op.client, op.flags, 0, 0])?;
    bytes.extend_from_slice(op.bytes.as_slice())?;
    Ok(())
}

/// The first word of each sector of a body, for which a stamp will stand.
pub(crate) fn append_first_words(
    bytes: &mut Vec<u8>,
    body: &[u8],
    sectors: usize,
) -> Result<(), Memory>
    requires few { sectors ≤ 64 }
    requires whole { length body.now ≡ 512 * sectors }
    ensures { OnOk result (bytes.new.items ≡ bytes.old.items ++ first_words body.now 0 sectors) }
{
    for index in 0..sectors {
        bytes.extend_from_slice(&body[SECTOR * index..SECTOR * index + STAMP])?;
    }
    Ok(())
}

/// Each sector of a body, with its stamp in place of its first word.
pub(crate) fn append_stamped(
    bytes: &mut Vec<u8>,
    body: &[u8],
    sectors: u32,
    record: &Record,
    ring_sectors: u32,
) -> Result<(), Memory>
    requires few { sectors ≤ 64 }
    requires whole { length body.now ≡ 512 * sectors }
    requires cycle { «record».now.cycle ≤ greatest_cycle }
    ensures { OnOk result (bytes.new.items ≡ bytes.old.items ++ stamped_from (stamp_of ring_sectors «record».now.sector «record».now.cycle) body.now 0 sectors) }
{
    for index in 0..sectors {
        append_u32(
            bytes,
            stamp_of(ring_sectors, record.sector, record.cycle, index),
        )?;
        let at = SECTOR * index as usize;
        bytes.extend_from_slice(&body[at + STAMP..at + SECTOR])?;
    }
    Ok(())
}
