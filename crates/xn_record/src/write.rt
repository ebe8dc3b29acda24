//! The bytes of a record that is written.

ghost use Rattle.std.specs.Prelude.{◌≡◌, ◌+◌, ◌*◌, ◌≤◌, ◌<◌, ◌++◌, IfOk, OnOk, length, replicate, take};
ghost use Rattle.xn_log.specs.Spelled.{IsSpellable, cycle_words, greatest_spelled, header_behind, header_front, operations_spelling, record_spelling};
ghost use Rattle.xn_record.specs.Writing.{IsBodyOf, header_without_checksum, with_checksum};

use crate::append::{
    PaddedBody, append_first_words, append_operations, append_stamped, append_u32, append_u64,
    append_zeros,
};
use crate::checksum::{CHECKSUM, COVERED, checksum_of};
use crate::field::{FORMAT, MAGIC, SECTOR, SIZE, STAMP, VERSION, body_sectors, lsn_of};
use std::alloc::Global;
use xn_bytes::{Memory, put_little_u32};
use xn_log::{Op, Record};

/// How many bytes the cycle words have together.
const CYCLE_WORDS_LENGTH: usize = 256;

/// How many bytes of a header's sector are free behind its last field and the four bytes that its checksum covers with it.
const FREE: usize = 188;

/// The bytes of a record, which is written to a ring of so many sectors of the filesystem with this uuid: whole sectors, its
/// header's first.
pub fn encode(
    alloc: Global,
    record: &Record,
    ring_sectors: u32,
    uuid: &[u8; 16],
) -> Result<Vec<u8>, Memory>
    requires { IsSpellable ring_sectors «record».now }
    ensures { IfOk result (λ bytes. bytes.items ≡ record_spelling ring_sectors uuid.now «record».now) }
{
    let body = padded_body(alloc, record.ops.as_slice())?;
    let mut bytes = header_of(alloc, record, &body, uuid)?;
    let sectors = body_sectors(body.length);
    append_stamped(&mut bytes, &body.bytes, sectors, record, ring_sectors)?;
    put_checksum(bytes.as_mut_slice(), body.length as usize);
    Ok(bytes)
}

/// The operations as a body, filled up to whole sectors.
fn padded_body(alloc: Global, ops: &[Op]) -> Result<PaddedBody, Memory>
    requires { length (operations_spelling ops.now) ≤ greatest_spelled }
    ensures { IfOk result (λ body. IsBodyOf ops.now body) }
{
    let mut bytes = Vec::new(alloc);
    append_operations(&mut bytes, ops)?;
    let length = bytes.len() as u32;
    let padding = SECTOR * body_sectors(length) as usize - bytes.len();
    append_zeros(&mut bytes, padding)?;
    Ok(PaddedBody { bytes, length })
}

/// The header of a record with this body, with zeros in place of its checksum.
fn header_of(
    alloc: Global,
    record: &Record,
    body: &PaddedBody,
    uuid: &[u8; 16],
) -> Result<Vec<u8>, Memory>
    requires most { length (operations_spelling «record».now.ops) ≤ greatest_spelled }
    requires body { IsBodyOf «record».now.ops body.now }
    ensures { IfOk result (λ header. header.items ≡ header_without_checksum uuid.now «record».now) }
{
    let mut header = Vec::with_capacity(alloc, SECTOR + body.bytes.len())?;
    append_front(&mut header, record, body.length)?;
    append_zeros(&mut header, 4)?;
    append_behind(&mut header, record, body, uuid)?;
    append_zeros(&mut header, FREE)?;
    Ok(header)
}

/// The fields of a header before its checksum.
fn append_front(bytes: &mut Vec<u8>, record: &Record, used: u32) -> Result<(), Memory>
    requires { used ≡ length (operations_spelling «record».now.ops) }
    ensures { OnOk result (bytes.new.items ≡ bytes.old.items ++ header_front «record».now) }
{
    append_u32(bytes, MAGIC)?;
    append_u32(bytes, record.cycle)?;
    append_u32(bytes, VERSION)?;
    append_u32(bytes, used)?;
    append_u64(bytes, lsn_of(record.cycle, record.sector))?;
    append_u64(bytes, record.tail)
}

/// The fields of a header behind its checksum.
fn append_behind(
    bytes: &mut Vec<u8>,
    record: &Record,
    body: &PaddedBody,
    uuid: &[u8; 16],
) -> Result<(), Memory>
    requires most { length (operations_spelling «record».now.ops) ≤ greatest_spelled }
    requires body { IsBodyOf «record».now.ops body.now }
    ensures { OnOk result (bytes.new.items ≡ bytes.old.items ++ header_behind uuid.now «record».now) }
{
    append_u32(bytes, record.previous)?;
    append_u32(bytes, record.ops.as_slice().len() as u32)?;
    append_cycle_words(bytes, body, record.ops.as_slice())?;
    append_u32(bytes, FORMAT)?;
    bytes.extend_from_slice(uuid)?;
    append_u32(bytes, SIZE)
}

/// The words that the stamps stand for, and zeros behind them.
fn append_cycle_words(bytes: &mut Vec<u8>, body: &PaddedBody, ops: &[Op]) -> Result<(), Memory>
    requires most { length (operations_spelling ops.now) ≤ greatest_spelled }
    requires body { IsBodyOf ops.now body.now }
    ensures { OnOk result (bytes.new.items ≡ bytes.old.items ++ cycle_words (operations_spelling ops.now)) }
{
    let sectors = body_sectors(body.length) as usize;
    append_first_words(bytes, &body.bytes, sectors)?;
    append_zeros(bytes, CYCLE_WORDS_LENGTH - STAMP * sectors)
}

/// Puts the checksum in its place, where zeros are. So many bytes behind the header's sector are covered.
fn put_checksum(bytes: &mut [u8], used: usize)
    requires { 512 + used ≤ length bytes.old }
    ensures value { bytes.new ≡ with_checksum bytes.old used }
    ensures length { length bytes.new ≡ length bytes.old }
{
    let record = &bytes[..];
    let checksum = checksum_of(&record[..COVERED], &record[SECTOR..SECTOR + used]);
    put_little_u32(bytes, CHECKSUM, checksum);
}
