//! Numbers at places in the bytes of disk structures.

ghost use Rattle.std.specs.Prelude.{◌≡◌, ◌+◌, ◌≤◌, length};
ghost use Rattle.xn_bytes.specs.Numbers.{number_at, little_number_at, overlaid};
ghost use Rattle.byteorder.specs.Endian.{big_bytes, little_bytes};

use byteorder::{BigEndian, ByteOrder, LittleEndian};

/// The byte at a place.
#[tactic(auto, using(crate::proofs::NumberLemmas::one_byte))]
pub fn u8_at(bytes: &[u8], at: usize) -> u8
    requires { at + 1 ≤ length bytes.now }
    ensures { result ≡ number_at 1 at bytes.now }
{
    bytes[at]
}

/// The big-endian number of two bytes at a place.
#[tactic(auto, unfolding(crate::specs::Numbers::number_at))]
pub fn u16_at(bytes: &[u8], at: usize) -> u16
    requires { at + 2 ≤ length bytes.now }
    ensures { result ≡ number_at 2 at bytes.now }
{
    BigEndian::read_u16(&bytes[at..])
}

/// The big-endian number of four bytes at a place.
#[tactic(auto, unfolding(crate::specs::Numbers::number_at))]
pub fn u32_at(bytes: &[u8], at: usize) -> u32
    requires { at + 4 ≤ length bytes.now }
    ensures { result ≡ number_at 4 at bytes.now }
{
    BigEndian::read_u32(&bytes[at..])
}

/// The big-endian number of eight bytes at a place.
#[tactic(auto, unfolding(crate::specs::Numbers::number_at))]
pub fn u64_at(bytes: &[u8], at: usize) -> u64
    requires { at + 8 ≤ length bytes.now }
    ensures { result ≡ number_at 8 at bytes.now }
{
    BigEndian::read_u64(&bytes[at..])
}

/// The little-endian number of four bytes at a place.
#[tactic(auto, unfolding(crate::specs::Numbers::little_number_at))]
pub fn little_u32_at(bytes: &[u8], at: usize) -> u32
    requires { at + 4 ≤ length bytes.now }
    ensures { result ≡ little_number_at 4 at bytes.now }
{
    LittleEndian::read_u32(&bytes[at..])
}

/// Puts two bytes, the highest first, at a place.
pub fn put_u16(bytes: &mut [u8], at: usize, number: u16)
    requires { at + 2 ≤ length bytes.old }
    ensures value { bytes.new ≡ overlaid bytes.old at (big_bytes 2 number) }
    ensures length { length bytes.new ≡ length bytes.old }
{
    BigEndian::write_u16(&mut bytes[at..], number);
}

/// Puts four bytes, the highest first, at a place.
pub fn put_u32(bytes: &mut [u8], at: usize, number: u32)
    requires { at + 4 ≤ length bytes.old }
    ensures value { bytes.new ≡ overlaid bytes.old at (big_bytes 4 number) }
    ensures length { length bytes.new ≡ length bytes.old }
{
    BigEndian::write_u32(&mut bytes[at..], number);
}

/// Puts eight bytes, the highest first, at a place.
pub fn put_u64(bytes: &mut [u8], at: usize, number: u64)
    requires { at + 8 ≤ length bytes.old }
    ensures value { bytes.new ≡ overlaid bytes.old at (big_bytes 8 number) }
    ensures length { length bytes.new ≡ length bytes.old }
{
    BigEndian::write_u64(&mut bytes[at..], number);
}

/// Puts four bytes, the lowest first, at a place.
pub fn put_little_u32(bytes: &mut [u8], at: usize, number: u32)
    requires { at + 4 ≤ length bytes.old }
    ensures value { bytes.new ≡ overlaid bytes.old at (little_bytes 4 number) }
    ensures length { length bytes.new ≡ length bytes.old }
{
    LittleEndian::write_u32(&mut bytes[at..], number);
}
