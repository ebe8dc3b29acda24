//! Little-endian numbers at places in the bytes of items.

ghost use Rattle.std.specs.Prelude.{◌≡◌, ◌+◌, ◌≤◌, length};
ghost use Rattle.xn_bytes.specs.Numbers.{little_number_at};

use byteorder::{ByteOrder, LittleEndian};

/// The little-endian number of two bytes at a place.
#[tactic(auto, unfolding(xn_bytes::specs::Numbers::little_number_at))]
pub(crate) fn little_u16_at(bytes: &[u8], at: usize) -> u16
    requires { at + 2 ≤ length bytes.now }
    ensures { result ≡ little_number_at 2 at bytes.now }
{
    LittleEndian::read_u16(&bytes[at..])
}

/// The little-endian number of eight bytes at a place.
#[tactic(auto, unfolding(xn_bytes::specs::Numbers::little_number_at))]
pub(crate) fn little_u64_at(bytes: &[u8], at: usize) -> u64
    requires { at + 8 ≤ length bytes.now }
    ensures { result ≡ little_number_at 8 at bytes.now }
{
    LittleEndian::read_u64(&bytes[at..])
}
