ghost use Rattle.std.specs.Prelude.{◌≡◌, ◌<◌, ◌≤◌, ◌^◌, ◌+◌};
ghost use Rattle.xn_make.specs.Images.{IsImageSuperblock};
ghost use Rattle.xn_make.specs.SpelledSuperblocks.{block_bits};

use crate::pieces::put_bytes;
use crate::{LOG_BLOCKS, ROOT, UUID};
use xn_bytes::{put_checksum, put_u16, put_u32, put_u64};

/// Sector 0 of an image of one group (`struct xfs_dsb` of `xfs_format.h`), with so many blocks in front of the log, which
/// has the last 512.
pub fn superblock(log_start: u32) -> [u8; 512]
    requires some { 0 < log_start }
    requires few { log_start ≤ 2 ^ 30 }
    ensures { IsImageSuperblock result log_start }
{
    let blocks = log_start + LOG_BLOCKS;
    let mut sector = [0; 512];
    put_bytes(&mut sector, 0, b"XFSB");
    put_u32(&mut sector, 4, 4096);
    put_u64(&mut sector, 8, u64::from(blocks));
    put_bytes(&mut sector, 32, &UUID);
    put_u64(&mut sector, 48, u64::from(log_start));
    put_u64(&mut sector, 56, ROOT);
    put_u32(&mut sector, 84, blocks);
    put_u32(&mut sector, 88, 1);
    put_u32(&mut sector, 96, LOG_BLOCKS);
    put_u16(&mut sector, 100, 5);
    put_u16(&mut sector, 102, 512);
    put_u16(&mut sector, 104, 512);
    put_u16(&mut sector, 106, 8);
    sector[123] = 3;
    sector[124] = bits_of(blocks);
    put_u32(&mut sector, 216, 0x81);
    put_checksum(&mut sector, 224);
    sector
}

/// The least number of bits that tell so many blocks from each other.
fn bits_of(blocks: u32) -> u8
    requires { 0 < blocks }
    ensures { result ≡ block_bits blocks }
{
    (32 - (blocks - 1).leading_zeros()) as u8
}
