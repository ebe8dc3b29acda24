ghost use Rattle.std.specs.Prelude.{◌≡◌, ◌≤◌, ◌↔◌, ℕ, List, length, take, IsTrue};
ghost use Rattle.std.specs.Option.{SomeIff};
ghost use Rattle.xn_log.specs.Records.{IsIntact, record_sectors, lsn_of};
ghost use Rattle.xn_record.specs.Headers.{IsHeader, HasMarks, HasRanges, HasPlace};

use crate::field::{
    FORMAT, MAGIC, SIZE, VERSION, body_sectors, cycle_in, is_cycle, is_length, length_in, lsn_of,
};
use xn_bytes::{u32_at, u64_at};

/// How many sectors the record takes that may begin with this header sector, at a sector of a ring of so many: what its fields
/// say of themselves has to be right. Nothing behind the first sector is looked at, and no uuid.
pub fn sectors_of(header: &[u8], sector: u32, ring_sectors: u32) -> Option<u32>
    requires { 512 ≤ length header.now }
    ensures exact { SomeIff result (IsHeader ring_sectors sector header.now) (record_sectors header.now) }
    ensures intact { (uuid bytes : List ℕ) → take 512 bytes ≡ take 512 header.now → IsIntact ring_sectors sector uuid bytes → result ≡ Some (record_sectors bytes) }
{
    if is_header(header, sector, ring_sectors) {
        Some(1 + body_sectors(length_in(header)))
    } else {
        None
    }
}

/// Whether what the fields say of themselves is right.
fn is_header(header: &[u8], sector: u32, ring_sectors: u32) -> bool
    requires { 512 ≤ length header.now }
    ensures { IsTrue result ↔ IsHeader ring_sectors sector header.now }
{
    has_marks(header) && has_ranges(header, ring_sectors) && has_place(header, sector)
}

/// Whether the fields that are the same in each header are right.
fn has_marks(header: &[u8]) -> bool
    requires { 512 ≤ length header.now }
    ensures { IsTrue result ↔ HasMarks header.now }
{
    u32_at(header, 0) == MAGIC
        && u32_at(header, 8) == VERSION
        && u32_at(header, 300) == FORMAT
        && u32_at(header, 320) == SIZE
}

/// Whether the cycle and the length are in range.
fn has_ranges(header: &[u8], ring_sectors: u32) -> bool
    requires { 512 ≤ length header.now }
    ensures { IsTrue result ↔ HasRanges ring_sectors header.now }
{
    is_cycle(cycle_in(header)) && is_length(length_in(header), ring_sectors)
}

/// Whether the sequence number is that of a record at this sector.
fn has_place(header: &[u8], sector: u32) -> bool
    requires { 512 ≤ length header.now }
    ensures { IsTrue result ↔ HasPlace sector header.now }
{
    u64_at(header, 16) == lsn_of(cycle_in(header), sector)
}
