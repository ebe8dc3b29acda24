//! The accepted fields of a superblock, each a test of its own.

ghost use Rattle.std.specs.Prelude.{◌≡◌, ◌*◌, ◌+◌, ◌-◌, ◌/◌, ◌%◌, ◌≤◌, ◌<◌, ◌↔◌, ◌^◌, length, IsTrue};
ghost use Rattle.xn_bytes.specs.Superblock.{HasMagic, HasRightChecksum, HasVersion, HasBlockSize, HasSectorSize, HasInodeSize, HasGroups, HasDirectoryBlocks, HasLog, HasIncompat, HasReadOnlyCompat, HasRoot, HasLength};
ghost use Rattle.xn_inode.specs.Fields.{geometry_from, HasGroupSize, HasGroupCount};

use crate::fields::{FTYPE, Fields, PARENT, feature};
use xn_bytes::{has_checksum, u8_at, u16_at, u32_at};

/// `XFSB`
const MAGIC: u32 = 0x5846_5342;

/// The bit of the version field that stands for names without regard to case.
const CASE_FOLDING: u16 = 0x4000;

/// The incompatible features that may be set.
const INCOMPAT_KNOWN: u32 = 0xef;

pub(crate) fn has_magic(sector: &[u8], sectors: u64) -> bool
    ensures { IsTrue result ↔ HasMagic sector.now sectors }
{
    sectors >= 1 && sector.len() >= 512 && u32_at(sector, 0) == MAGIC
}

pub(crate) fn has_right_checksum(sector: &[u8]) -> bool
    requires { 512 ≤ length sector.now }
    ensures { IsTrue result ↔ HasRightChecksum sector.now }
{
    has_checksum(&sector[..512], 224)
}

pub(crate) fn has_version(sector: &[u8]) -> bool
    requires { 512 ≤ length sector.now }
    ensures { IsTrue result ↔ HasVersion sector.now }
{
    let version = u16_at(sector, 100);
    version % 16 == 5 && version / CASE_FOLDING % 2 == 0
}

pub(crate) fn has_block_size(sector: &[u8]) -> bool
    requires { 512 ≤ length sector.now }
    ensures { IsTrue result ↔ HasBlockSize sector.now }
{
    u32_at(sector, 4) == 4096
}

pub(crate) fn has_sector_size(sector: &[u8]) -> bool
    requires { 512 ≤ length sector.now }
    ensures { IsTrue result ↔ HasSectorSize sector.now }
{
    u16_at(sector, 102) == 512
}

pub(crate) fn has_inode_size(sector: &[u8]) -> bool
    requires { 512 ≤ length sector.now }
    ensures { IsTrue result ↔ HasInodeSize sector.now }
{
    u16_at(sector, 104) == 512 && u16_at(sector, 106) == 8 && u8_at(sector, 123) == 3
}

pub(crate) fn has_groups(fields: &Fields) -> bool
    ensures { IsTrue result ↔ HasGroups (geometry_from fields.now) }
{
    has_group_size(fields) && has_group_count(fields)
}

pub(crate) fn has_directory_blocks(sector: &[u8]) -> bool
    requires { 512 ≤ length sector.now }
    ensures { IsTrue result ↔ HasDirectoryBlocks sector.now }
{
    u8_at(sector, 192) == 0
}

pub(crate) fn has_incompat(sector: &[u8]) -> bool
    requires { 512 ≤ length sector.now }
    ensures { IsTrue result ↔ HasIncompat sector.now }
{
    let incompat = u32_at(sector, 216);
    incompat & INCOMPAT_KNOWN == incompat && feature(sector, FTYPE) && feature(sector, PARENT)
}

pub(crate) fn has_read_only_compat(sector: &[u8]) -> bool
    requires { 512 ≤ length sector.now }
    ensures { IsTrue result ↔ HasReadOnlyCompat sector.now }
{
    u32_at(sector, 212) < 16 && u32_at(sector, 220) < 2
}

pub(crate) fn has_length(fields: &Fields, sectors: u64) -> bool
    requires { fields.now.data_blocks < 2 ^ 48 }
    ensures { IsTrue result ↔ HasLength (geometry_from fields.now) sectors }
{
    8 * fields.data_blocks <= sectors
}

fn has_group_size(fields: &Fields) -> bool
    ensures { IsTrue result ↔ HasGroupSize (geometry_from fields.now) }
{
    fields.ag_blocks >= 64
        && fields.ag_block_log <= 31
        && {
            let most = 1u64 << fields.ag_block_log;
            let blocks = u64::from(fields.ag_blocks);
            blocks <= most && most < 2 * blocks
        }
}

fn has_group_count(fields: &Fields) -> bool
    ensures { IsTrue result ↔ HasGroupCount (geometry_from fields.now) }
{
    let count = u64::from(fields.ag_count);
    let blocks = u64::from(fields.ag_blocks);
    count >= 1
        && (count - 1) * blocks < fields.data_blocks
        && fields.data_blocks <= count * blocks
        && fields.data_blocks < 1 << 48
}

pub(crate) fn has_log(sector: &[u8], fields: &Fields) -> bool
    requires sector { 512 ≤ length sector.now }
    requires groups { HasGroups (geometry_from fields.now) }
    ensures { IsTrue result ↔ HasLog sector.now (geometry_from fields.now) }
{
    let sector_size = u16_at(sector, 194);
    fields.has_log_place() && (sector_size == 0 || sector_size == 512)
}

pub(crate) fn has_root(fields: &Fields) -> bool
    requires { HasGroups (geometry_from fields.now) }
    ensures { IsTrue result ↔ HasRoot (geometry_from fields.now) }
{
    fields.is_block(fields.root / 8)
}
