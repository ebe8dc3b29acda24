ghost use Rattle.std.specs.Prelude.{◌≡◌, ◌+◌, ◌<◌, ◌≤◌, ◌↔◌, ◌++◌, ℕ, List, [], length, IsTrue, bit_xor};
ghost use Rattle.xn_bytes.specs.Checksum.{byte_step, register_after, register_of, crc32c, checksum_with, HasChecksum};
ghost use Rattle.xn_bytes.specs.Numbers.{overlaid};
ghost use Rattle.byteorder.specs.Endian.{little_bytes};

use crate::numbers::{little_u32_at, put_little_u32};
use crate::tables::{
    after_8, after_16, after_24, after_32, after_40, after_48, after_56, after_64,
};
use std::marker::Model;

/// The CRC32c of bytes that are added in any pieces. Contracts see its register.
#[derive(Debug, Drop)]
pub struct Crc {
    register: u32,
}

impl Model for Crc {
    ghost Value = { ℕ };

    ghost view = { λ c. c.register };
}

impl Crc {
    /// No bytes yet.
    pub fn start() -> Crc
        ensures { result ≡ register_of [] }
    {
        Crc {
            register: 0xffff_ffff,
        }
    }

    /// More bytes, behind those before.
    pub fn add(&mut self, bytes: &[u8])
        ensures after { self.new ≡ register_after self.old bytes.now }
        ensures pieces { (before : List ℕ) → self.old ≡ register_of before → self.new ≡ register_of (before ++ bytes.now) }
    {
        let (register, rest) = after_eights(self.register, bytes);
        self.register = after_bytes(register, rest);
    }

    /// The checksum of all bytes added.
    pub fn end(self) -> u32
        ensures value { result ≡ bit_xor self 0xffff_ffff }
        ensures all { (bytes : List ℕ) → self ≡ register_of bytes → result ≡ crc32c bytes }
    {
        self.register ^ 0xffff_ffff
    }
}

/// Goes over eight bytes at a time, and answers the register and the fewer than eight bytes that are left.
fn after_eights(register: u32, bytes: &[u8]) -> (u32, &[u8])
    ensures same { register_after result.0 result.1.now ≡ register_after register bytes.now }
    ensures few { length result.1.now < 8 }
{
    let mut register = register;
    let mut rest = bytes;
    while rest.len() >= 8 {
        let (eight, after) = rest.split_at(8);
        register = after_eight(register, eight);
        rest = after;
    }
    (register, rest)
}

/// The register after eight bytes, each looked up by itself.
fn after_eight(register: u32, eight: &[u8]) -> u32
    requires { length eight.now ≡ 8 }
    ensures { result ≡ register_after register eight.now }
{
    let low = register.to_le_bytes();
    after_64(low[0] ^ eight[0])
        ^ after_56(low[1] ^ eight[1])
        ^ after_48(low[2] ^ eight[2])
        ^ after_40(low[3] ^ eight[3])
        ^ after_32(eight[4])
        ^ after_24(eight[5])
        ^ after_16(eight[6])
        ^ after_8(eight[7])
}

fn after_bytes(register: u32, bytes: &[u8]) -> u32
    ensures { result ≡ register_after register bytes.now }
{
    let mut register = register;
    for byte in bytes {
        register = after_byte(register, *byte);
    }
    register
}

#[tactic(auto, using(crate::proofs::Registers::byte_step_looked_up))]
fn after_byte(register: u32, byte: u8) -> u32
    ensures { result ≡ byte_step register byte }
{
    let low = (register & 0xff) as u8;
    after_8(low ^ byte) ^ (register >> 8)
}

/// The checksum of an object whose own checksum stands at a place, and counts as zeros.
pub fn checksum_of(bytes: &[u8], at: usize) -> u32
    requires { at + 4 ≤ length bytes.now }
    ensures { result ≡ checksum_with bytes.now at }
{
    let mut crc = Crc::start();
    crc.add(&bytes[..at]);
    crc.add(&[0; 4]);
    crc.add(&bytes[at + 4..]);
    crc.end()
}

/// Whether the checksum that stands at a place, lowest byte first, is right.
pub fn has_checksum(bytes: &[u8], at: usize) -> bool
    requires { at + 4 ≤ length bytes.now }
    ensures { IsTrue result ↔ HasChecksum bytes.now at }
{
    little_u32_at(bytes, at) == checksum_of(bytes, at)
}

/// Puts the right checksum at its place, lowest byte first.
pub fn put_checksum(bytes: &mut [u8], at: usize)
    requires { at + 4 ≤ length bytes.old }
    ensures value { bytes.new ≡ overlaid bytes.old at (little_bytes 4 (checksum_with bytes.old at)) }
    ensures right { HasChecksum bytes.new at }
    ensures length { length bytes.new ≡ length bytes.old }
{
    let checksum = checksum_of(bytes, at);
    put_little_u32(bytes, at, checksum);
}
