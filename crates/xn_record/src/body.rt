//! The body of a record, read where it stands: the words that the stamps stand for are read from the header.

ghost use Rattle.std.specs.Prelude.{◌≡◌, ◌+◌, ◌<◌, ◌≤◌, ◌==◌, true, slice_index};
ghost use Rattle.xn_bytes.specs.Numbers.{number_at};
ghost use Rattle.xn_log.specs.Records.{are_whole, body_of, count_in, has_flag, holds_unmount, is_unmount, length_in, log_client, operation_in, unmount_flag};
ghost use Rattle.xn_record.specs.Bodies.{operation_end, standing_at};
ghost use Rattle.xn_record.specs.Checks.{HasBody};

use crate::field::{CYCLE_WORDS, SECTOR, STAMP, count_in, length_in};
use xn_bytes::u32_at;

/// How many bytes the header of an operation has.
const HEADER: usize = 12;

/// The log itself as the writer of an operation.
const LOG_CLIENT: u8 = 0xaa;

/// The flag of the unmount operation.
const UNMOUNT: u8 = 32;

/// Whether as many operations as the header says stand whole in the body.
pub(crate) fn are_whole(bytes: &[u8]) -> bool
    requires { HasBody bytes.now }
    ensures { result ≡ are_whole (count_in bytes.now) (body_of bytes.now) }
{
    let mut place = 0;
    for _ in 0..count_in(bytes) {
        match operation_end(bytes, place) {
            Some(end) => place = end,
            None => return false,
        }
    }
    true
}

/// Where the operation at a place of the body ends, if it stands whole.
fn operation_end(bytes: &[u8], place: usize) -> Option<usize>
    requires body { HasBody bytes.now }
    requires within { place ≤ length_in bytes.now }
    ensures { result ≡ operation_end (body_of bytes.now) place }
{
    let left = length_in(bytes) as usize - place;
    if left < HEADER {
        return None;
    }
    let size = HEADER + body_u32(bytes, place + 4) as usize;
    if size <= left {
        Some(place + size)
    } else {
        None
    }
}

/// Whether the body holds just the unmount operation.
pub(crate) fn holds_unmount(bytes: &[u8]) -> bool
    requires { HasBody bytes.now }
    ensures { result ≡ holds_unmount bytes.now }
{
    if count_in(bytes) != 1 {
        return false;
    }
    is_first_whole(bytes) && is_unmount(bytes)
}

/// Whether the first operation stands whole.
fn is_first_whole(bytes: &[u8]) -> bool
    requires { HasBody bytes.now }
    ensures whole { result ≡ are_whole 1 (body_of bytes.now) }
    ensures header { result ≡ true → 12 ≤ length_in bytes.now }
{
    operation_end(bytes, 0).is_some()
}

/// Whether the first operation is the unmount operation.
fn is_unmount(bytes: &[u8]) -> bool
    requires body { HasBody bytes.now }
    requires header { 12 ≤ length_in bytes.now }
    ensures { result ≡ is_unmount (operation_in (body_of bytes.now)) }
{
    let client = body_byte(bytes, 8);
    let flags = body_byte(bytes, 9);
    is_of_log(client) && has_unmount(flags)
}

fn is_of_log(client: u8) -> bool
    ensures { result ≡ (client == log_client) }
{
    client == LOG_CLIENT
}

fn has_unmount(flags: u8) -> bool
    ensures { result ≡ has_flag flags unmount_flag }
{
    flags / UNMOUNT % 2 == 1
}

/// The number of four bytes at a place of the body.
fn body_u32(bytes: &[u8], place: usize) -> u32
    requires body { HasBody bytes.now }
    requires within { place + 4 ≤ length_in bytes.now }
    ensures { result ≡ number_at 4 place (body_of bytes.now) }
{
    let word = [
        body_byte(bytes, place),
        body_byte(bytes, place + 1),
        body_byte(bytes, place + 2),
        body_byte(bytes, place + 3),
    ];
    u32_at(&word, 0)
}

/// The byte at a place of the body.
fn body_byte(bytes: &[u8], place: usize) -> u8
    requires body { HasBody bytes.now }
    requires within { place < length_in bytes.now }
    ensures { result ≡ slice_index (body_of bytes.now) place }
{
    bytes[standing_at(place)]
}

/// Where the byte at a place of the body stands: in the header's cycle words, or in its sector.
fn standing_at(place: usize) -> usize
    requires { place < 32768 }
    ensures { result ≡ standing_at place }
{
    if place % SECTOR < STAMP {
        CYCLE_WORDS + STAMP * (place / SECTOR) + place % SECTOR
    } else {
        SECTOR + place
    }
}
