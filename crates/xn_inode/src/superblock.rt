ghost use Rattle.std.specs.Prelude.{◌≡◌, ◌+◌, ◌*◌, ◌^◌, ◌<◌, ◌≤◌, ◌↔◌, ℕ, IsTrue, MatchResult, MatchOption, length};
ghost use Rattle.xn_bytes.specs.Superblock.{IsSuperblock, FirstFieldBroken, geometry_of, sector_of_block, sector_of_inode, IsBlock, IsInode, IsOwnInode};
ghost use Rattle.xn_bytes.specs.Blocks.{IsHome};

use crate::accepted;
use crate::fields::Fields;
use std::marker::Model;

const SECTORS_PER_BLOCK: u64 = 8;

const INODES_PER_BLOCK: u64 = 8;

/// The first field of a superblock that is not accepted, from 1 to 13.
#[derive(Clone, Copy, Debug, PartialEq, Eq)]
pub struct GeomFault {
    pub field: u8,
}

/// An accepted superblock (`struct xfs_dsb`). Contracts see its geometry.
#[derive(Clone, Copy, Debug)]
pub struct Super {
    fields: Fields,
}

impl Model for Super {
    ghost use Rattle.xn_bytes.specs.Superblock.{Geometry, IsGeometry};
    ghost use Rattle.xn_inode.specs.Fields.{geometry_from, fields_from};

    ghost Value = { Geometry };

    ghost view = { λ s. geometry_from s.fields };

    ghost invariant = { λ s. IsGeometry (geometry_from s.fields) };

    ghost inverse = { λ g. record { fields = fields_from g } };
}

impl Super {
    /// Reads sector 0 of an image of so many sectors, or names the least field that is not accepted.
    pub fn read(sector: &[u8], sectors: u64) -> Result<Super, GeomFault>
        ensures { MatchResult result
            (λ s. IsSuperblock sector.now sectors × (s ≡ geometry_of sector.now))
            (λ fault. FirstFieldBroken sector.now sectors fault.field) }
    {
        match broken_field(sector, sectors) {
            Some(field) => Err(GeomFault { field }),
            None => Ok(Super {
                fields: Fields::read(sector),
            }),
        }
    }

    /// The root directory's inode number.
    pub fn root(&self) -> u64
        ensures { result ≡ self.now.root }
    {
        self.fields.root
    }

    /// The first sector of the log, which is a ring of sectors of 512 bytes.
    pub fn first_log_sector(&self) -> u64
        ensures { result ≡ sector_of_block self.now self.now.log_start }
    {
        self.fields.linear(self.fields.log_start) * SECTORS_PER_BLOCK
    }

    /// How many sectors the log has.
    pub fn log_sectors(&self) -> u32
        ensures { result ≡ 8 * self.now.log_blocks }
    {
        8 * self.fields.log_blocks
    }

    /// How many groups there are.
    pub fn agcount(&self) -> u32
        ensures { result ≡ self.now.ag_count }
    {
        self.fields.ag_count
    }

    /// How many blocks a group has; the last one may have fewer.
    pub fn agblocks(&self) -> u32
        ensures { result ≡ self.now.ag_blocks }
    {
        self.fields.ag_blocks
    }

    /// How many bits a block number has for the block within its group.
    pub fn agblklog(&self) -> u8
        ensures { result ≡ self.now.ag_block_log }
    {
        self.fields.ag_block_log
    }

    /// How many bits an inode number has for the inode within its block: 3, for 8 inodes in a block.
    pub fn inopblog(&self) -> u8
        ensures { result ≡ 3 }
    {
        3
    }

    /// The uuid at 32, which the log carries.
    pub fn uuid(&self) -> &[u8; 16]
        ensures { result.now ≡ self.now.uuid }
    {
        &self.fields.uuid
    }

    /// The uuid that metadata carry: the one at 248 where META_UUID is set, else the one at 32.
    pub fn meta_uuid(&self) -> &[u8; 16]
        ensures { result.now ≡ self.now.meta_uuid }
    {
        &self.fields.meta_uuid
    }

    /// Whether chunks of inodes may have holes (SPINODES).
    pub fn sparse(&self) -> bool
        ensures { result ≡ self.now.sparse }
    {
        self.fields.sparse
    }

    /// Whether a number is that of a block in range.
    pub fn is_block(&self, number: u64) -> bool
        ensures { IsTrue result ↔ IsBlock self.now number }
    {
        self.fields.is_block(number)
    }

    /// Whether a number is that of an inode in range.
    pub fn is_inode(&self, number: u64) -> bool
        ensures { IsTrue result ↔ IsInode self.now number }
    {
        self.fields.is_block(number / INODES_PER_BLOCK)
    }

    /// Whether a number is that of one of the superblock's own inodes: bitmap, summary, or a quota's.
    pub fn own_inode(&self, number: u64) -> bool
        ensures { IsTrue result ↔ IsOwnInode self.now number }
    {
        number != 0 && number != u64::MAX && self.fields.own_inodes.contains(&number)
    }

    /// Whether a fork may map a block: in range, outside the log, and not the first block of its group.
    pub fn is_home(&self, block: u64) -> bool
        ensures { IsTrue result ↔ IsHome self.now block }
    {
        self.fields.is_home(block)
    }

    /// Whether a fork may map each of so many blocks from one on.
    pub fn is_home_run(&self, block: u64, count: u64) -> bool
        requires { block + count < 2 ^ 64 }
        ensures { IsTrue result ↔ ((k : ℕ) → k < count → IsHome self.now (block + k)) }
    {
        count == 0
            || (self.fields.is_run_of_group(block, count)
                && self.fields.is_run_outside_log(block, count))
    }

    /// The first of a block's 8 sectors.
    pub fn sector_of_block(&self, block: u64) -> u64
        requires { IsBlock self.now block }
        ensures value { result ≡ sector_of_block self.now block }
        ensures within { result + 8 ≤ 8 * self.now.data_blocks }
    {
        self.fields.linear(block) * SECTORS_PER_BLOCK
    }

    /// The sector of an inode.
    pub fn sector_of_inode(&self, number: u64) -> u64
        requires { IsInode self.now number }
        ensures value { result ≡ sector_of_inode self.now number }
        ensures within { result + 1 ≤ 8 * self.now.data_blocks }
    {
        self.sector_of_block(number / INODES_PER_BLOCK) + number % INODES_PER_BLOCK
    }
}

/// The least field that is not accepted.
fn broken_field(sector: &[u8], sectors: u64) -> Option<u8>
    ensures { MatchOption result (IsSuperblock sector.now sectors) (λ field. FirstFieldBroken sector.now sectors field) }
{
    if !accepted::has_magic(sector, sectors) {
        return Some(1);
    }
    let fields = Fields::read(sector);
    if !accepted::has_right_checksum(sector) {
        Some(2)
    } else if !accepted::has_version(sector) {
        Some(3)
    } else if !accepted::has_block_size(sector) {
        Some(4)
    } else if !accepted::has_sector_size(sector) {
        Some(5)
    } else if !accepted::has_inode_size(sector) {
        Some(6)
    } else if !accepted::has_groups(&fields) {
        Some(7)
    } else if !accepted::has_directory_blocks(sector) {
        Some(8)
    } else if !accepted::has_log(sector, &fields) {
        Some(9)
    } else if !accepted::has_incompat(sector) {
        Some(10)
    } else if !accepted::has_read_only_compat(sector) {
        Some(11)
    } else if !accepted::has_root(&fields) {
        Some(12)
    } else if !accepted::has_length(&fields, sectors) {
        Some(13)
    } else {
        None
    }
}
