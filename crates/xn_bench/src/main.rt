//! Checksums a buffer of as many MiB as its word says, in pieces of 4,096 bytes, and prints the checksum.
#![tactic(auto)]

use anyhow::{Context, Result};
use std::env;
use xn_bytes::Crc;

const PIECE: usize = 4096;

const PIECES_PER_MEBIBYTE: u64 = 256;

fn piece() -> [u8; PIECE] {
    let mut bytes = [0; PIECE];
    for (k, byte) in bytes.iter_mut().enumerate() {
        *byte = ((k * 31 + 7) % 251) as u8;
    }
    bytes
}

fn checksum_of_mebibytes(count: u32) -> u32 {
    let piece = piece();
    let mut crc = Crc::start();
    for _ in 0..u64::from(count) * PIECES_PER_MEBIBYTE {
        crc.add(&piece);
    }
    crc.end()
}

fn main(rt: HostRuntime) -> Result<()> {
    let count = match env::args(&rt)?.nth(1) {
        Some(word) => word.as_str().parse::<u32>().context("how many MiB")?,
        None => 1,
    };
    println!(rt; "{:08x}", checksum_of_mebibytes(count))?;
    Ok(())
}
