//! The checksum of a record: over its header's fields and the used bytes of its body, as they stand.

ghost use Rattle.std.specs.Prelude.{◌≡◌, ◌++◌, length, replicate};
ghost use Rattle.xn_bytes.specs.Checksum.{crc32c};
ghost use Rattle.xn_bytes.specs.Numbers.{overlaid};
ghost use Rattle.xn_log.specs.Records.{record_checksum};
ghost use Rattle.xn_log.specs.RecordFaults.{has_record_checksum};
ghost use Rattle.xn_record.specs.Checks.{HasBody};

use crate::body::holds_unmount;
use crate::field::{SECTOR, length_in};
use xn_bytes::{Crc, little_u32_at};

/// How many bytes of the header are covered.
pub(crate) const COVERED: usize = 328;

/// Where the checksum stands, which counts as zeros.
pub(crate) const CHECKSUM: usize = 32;

/// Whether the stored checksum is right. One of 0 is, where the record holds just the unmount operation: mkfs writes such a
/// record.
pub(crate) fn has_checksum(bytes: &[u8]) -> bool
    requires { HasBody bytes.now }
    ensures { result ≡ has_record_checksum bytes.now }
{
    let stored = little_u32_at(bytes, CHECKSUM);
    stored == record_checksum(bytes) || (stored == 0 && holds_unmount(bytes))
}

/// The checksum that the record should have.
fn record_checksum(bytes: &[u8]) -> u32
    requires { HasBody bytes.now }
    ensures { result ≡ record_checksum bytes.now }
{
    let body = &bytes[SECTOR..SECTOR + length_in(bytes) as usize];
    checksum_of(&bytes[..COVERED], body)
}

/// The checksum of the covered bytes of a header, whose own checksum counts as zeros, and of the used bytes of a body.
pub(crate) fn checksum_of(header: &[u8], body: &[u8]) -> u32
    requires { length header.now ≡ 328 }
    ensures { result ≡ crc32c (overlaid header.now 32 (replicate 4 0) ++ body.now) }
{
    let mut crc = Crc::start();
    crc.add(&header[..CHECKSUM]);
    crc.add(&[0; 4]);
    crc.add(&header[CHECKSUM + 4..]);
    crc.add(body);
    crc.end()
}
