//! Items of inodes (`struct xfs_inode_log_format`).

ghost use Rattle.std.specs.Prelude.{◌≡◌, ◌≤◌, ◌==◌, bit_and, length, IfOk};
ghost use Rattle.xn_changes.specs.Decoded.{bytes_of};
ghost use Rattle.xn_changes.specs.Items.{fields_in, fork_at, has_attribute_fork, has_core, has_data_fork, inode_item_in, inode_regions, is_lawful_inode, known_fields, take_inode};
ghost use Rattle.xn_transactions.specs.Taking.{Takes};

use crate::fault::Refusal;
use crate::numbers::{little_u16_at, little_u64_at};
use crate::region::{Region, are_there, bytes_at, region_at};
use crate::taken::Taken;
use std::alloc::{AllocError, Global};
use xn_bytes::{Bytes, little_u32_at};
use xn_changes::{InodeItem, Item};

/// How many bytes the first region has.
const FORMAT: usize = 56;

/// How many bytes the core has in the log.
const CORE: usize = 176;

const CORE_LOGGED: u32 = 1;

const DATA_LOCAL: u32 = 2;

const DATA_EXTENTS: u32 = 4;

const ATTRIBUTES_LOCAL: u32 = 0x40;

const ATTRIBUTES_EXTENTS: u32 = 0x80;

/// The parts of an inode that are logged, of which items here have no others.
const KNOWN: u32 = CORE_LOGGED | DATA_LOCAL | DATA_EXTENTS | ATTRIBUTES_LOCAL | ATTRIBUTES_EXTENTS;

/// Which parts of an inode are logged.
#[derive(Clone, Copy)]
struct Fields(u32);

impl Fields {
    fn are_known(self) -> bool
        ensures { result ≡ (bit_and self.0 known_fields == self.0) }
    {
        self.0 & KNOWN == self.0
    }

    fn has_core(self) -> bool
        ensures { result ≡ has_core self.0 }
    {
        self.0 / CORE_LOGGED % 2 == 1
    }

    fn has_data_fork(self) -> bool
        ensures { result ≡ has_data_fork self.0 }
    {
        self.0 / DATA_LOCAL % 2 == 1 || self.0 / DATA_EXTENTS % 2 == 1
    }

    fn has_attribute_fork(self) -> bool
        ensures { result ≡ has_attribute_fork self.0 }
    {
        self.0 / ATTRIBUTES_LOCAL % 2 == 1 || self.0 / ATTRIBUTES_EXTENTS % 2 == 1
    }

    /// How many regions stand behind the first: the core and the forks.
    fn regions(self) -> usize
        ensures { result ≡ inode_regions self.0 }
    {
        1 + usize::from(self.has_data_fork()) + usize::from(self.has_attribute_fork())
    }
}

/// The item of an inode: what of it is logged, the core, and behind it the forks that are.
pub(crate) fn take_inode(alloc: Global, first: &[u8], rest: &[Region<'_>]) -> Result<Taken, Refusal>
    ensures { Takes (take_inode first.now (bytes_of rest.now)) result }
{
    if first.len() < 8 {
        return Err(Refusal::Malformed);
    }
    let fields = Fields(little_u32_at(first, 4));
    if !fields.are_known() {
        return Err(Refusal::Foreign);
    }
    if !is_lawful_inode(first, fields, rest) {
        return Err(Refusal::Malformed);
    }
    let item = inode_item_in(alloc, first, fields, rest)?;
    Ok(Taken {
        item: Item::Inode(item),
        behind: fields.regions(),
    })
}

fn is_lawful_inode(first: &[u8], fields: Fields, rest: &[Region<'_>]) -> bool
    requires there { 8 ≤ length first.now }
    requires fields { fields.0 ≡ fields_in first.now }
    ensures { result ≡ is_lawful_inode first.now (bytes_of rest.now) }
{
    first.len() == FORMAT
        && fields.has_core()
        && usize::from(little_u16_at(first, 2)) == 1 + fields.regions()
        && are_there(fields.regions(), rest)
        && region_at(rest, 0).len() == CORE
}

fn inode_item_in(
    alloc: Global,
    first: &[u8],
    fields: Fields,
    rest: &[Region<'_>],
) -> Result<InodeItem, AllocError>
    requires size { length first.now ≡ 56 }
    requires fields { fields.0 ≡ fields_in first.now }
    ensures { IfOk result (λ item. item ≡ inode_item_in first.now (bytes_of rest.now)) }
{
    let has_data_fork = fields.has_data_fork();
    let behind_data = 1 + usize::from(has_data_fork);
    Ok(InodeItem {
        fields: fields.0,
        number: little_u64_at(first, 16),
        sector: little_u64_at(first, 40),
        length: little_u32_at(first, 48),
        offset: little_u32_at(first, 52),
        core: bytes_at(alloc, rest, 0)?,
        data_fork: fork_at(alloc, has_data_fork, rest, 1)?,
        attr_fork: fork_at(alloc, fields.has_attribute_fork(), rest, behind_data)?,
    })
}

/// The bytes of a fork, where it is logged: the region at a place.
fn fork_at(
    alloc: Global,
    logged: bool,
    rest: &[Region<'_>],
    k: usize,
) -> Result<Option<Bytes>, AllocError>
    ensures { IfOk result (λ fork. fork ≡ fork_at logged k (bytes_of rest.now)) }
{
    if !logged {
        return Ok(None);
    }
    Ok(Some(bytes_at(alloc, rest, k)?))
}
