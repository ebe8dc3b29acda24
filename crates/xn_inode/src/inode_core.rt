ghost use Rattle.std.specs.Prelude.{◌≡◌, ◌+◌, ◌*◌, ◌≤◌, ◌<◌, ◌↔◌, IsTrue, MatchResult, MatchOption, length, slice_range};
ghost use Rattle.xn_bytes.specs.Superblock.{OrElse};
ghost use Rattle.xn_bytes.specs.Inode.{HasCore, HasForks, HasBothForks, CoreHolds, data_fork_end, data_fork_of, attr_fork_of, IsListFormat};
ghost use Rattle.xn_bytes.specs.Kinds.{kind_of_mode};
ghost use Rattle.xn_bytes.specs.Numbers.{number_at};

use crate::superblock::Super;
use std::marker::Model;
use xn_bytes::{Kind, has_checksum, u8_at, u16_at, u32_at, u64_at};

/// The formats of a fork that this project reads: the bytes themselves, or a list of extents.
pub const LOCAL_FORMAT: u8 = 1;

pub const EXTENTS_FORMAT: u8 = 2;

/// `IN`
const MAGIC: u16 = 0x494e;

/// Where the core ends and the forks begin.
const CORE_BYTES: usize = 176;

/// Which rule of the checker an inode's bytes break: 10, of the core, or 11, of mode and forks.
#[derive(Clone, Copy, Debug, PartialEq, Eq)]
pub struct CoreFault {
    pub rule: u8,
}

/// The core of an inode (`struct xfs_dinode`). Contracts see its fields.
#[derive(Clone, Copy, Debug)]
pub struct Core {
    kind: Kind,
    permissions: u16,
    nlink: u32,
    size: u64,
    nblocks: u64,
    generation: u32,
    fork_offset: u8,
    data_format: u8,
    attr_format: u8,
    large_counts: bool,
    data_extents: u64,
    attr_extents: u64,
}

impl Model for Core {
    ghost use Rattle.xn_bytes.specs.Inode.{CoreFields};

    ghost Value = { CoreFields };

    ghost view = { λ c. record { kind = c.kind; permissions = c.permissions; nlink = c.nlink; size = c.size; nblocks = c.nblocks; generation = c.generation; fork_offset = c.fork_offset; data_format = c.data_format; attr_format = c.attr_format; large_counts = c.large_counts; data_extents = c.data_extents; attr_extents = c.attr_extents } };

    ghost inverse = { λ c. record { kind = c.kind; permissions = c.permissions; nlink = c.nlink; size = c.size; nblocks = c.nblocks; generation = c.generation; fork_offset = c.fork_offset; data_format = c.data_format; attr_format = c.attr_format; large_counts = c.large_counts; data_extents = c.data_extents; attr_extents = c.attr_extents } };
}

impl Core {
    /// Reads the core at the front of an inode's bytes, which are as many as an inode has, or names the rule that
    /// they break. Whether an attribute fork has to be there is left to the caller, who knows the root.
    pub fn read(bytes: &[u8], number: u64, uuid: &[u8; 16]) -> Result<Core, CoreFault>
        ensures { MatchResult result
            (λ core. HasCore bytes.now number uuid.now × HasForks bytes.now × CoreHolds bytes.now core)
            (λ fault. OrElse fault.rule 10 (HasCore bytes.now number uuid.now) (OrElse fault.rule 11 (HasForks bytes.now) ⊥)) }
    {
        if !has_core(bytes, number, uuid) {
            return Err(CoreFault { rule: 10 });
        }
        match kind_with_forks(bytes) {
            Some(kind) => Ok(core_with_kind(bytes, kind)),
            None => Err(CoreFault { rule: 11 }),
        }
    }

    /// The core of an inode of which rules 10 and 11 hold, the attribute fork's presence included: it is there but for the
    /// root, which may be without.
    pub fn of_inode(geometry: &Super, ino: u64, inode: &[u8]) -> Result<Core, CoreFault>
        ensures { MatchResult result
            (λ core. HasCore inode.now ino geometry.now.meta_uuid × HasBothForks geometry.now inode.now ino × CoreHolds inode.now core)
            (λ fault. OrElse fault.rule 10 (HasCore inode.now ino geometry.now.meta_uuid) (OrElse fault.rule 11 (HasBothForks geometry.now inode.now ino) ⊥)) }
    {
        let core = Core::read(inode, ino, geometry.meta_uuid())?;
        if ino != geometry.root() && core.fork_offset == 0 {
            return Err(CoreFault { rule: 11 });
        }
        Ok(core)
    }

    /// The bytes of the data fork of the inode whose core this is.
    pub fn data_fork<'a>(&self, inode: &'a [u8]) -> &'a [u8]
        requires core { CoreHolds inode.now self.now }
        requires forks { HasForks inode.now }
        ensures { result.now ≡ data_fork_of inode.now }
    {
        &inode[CORE_BYTES..self.data_fork_end(inode)]
    }

    /// The bytes of the attribute fork, none where it isn't there.
    pub fn attr_fork<'a>(&self, inode: &'a [u8]) -> &'a [u8]
        requires core { CoreHolds inode.now self.now }
        requires forks { HasForks inode.now }
        ensures { result.now ≡ attr_fork_of inode.now }
    {
        &inode[self.data_fork_end(inode)..]
    }

    fn data_fork_end(&self, inode: &[u8]) -> usize
        requires core { CoreHolds inode.now self.now }
        requires forks { HasForks inode.now }
        ensures value { result ≡ data_fork_end inode.now }
        ensures within { (176 ≤ result) × (result ≤ length inode.now) }
    {
        if self.fork_offset == 0 {
            inode.len()
        } else {
            CORE_BYTES + 8 * usize::from(self.fork_offset)
        }
    }

    pub fn kind(&self) -> Kind
        ensures { result ≡ self.now.kind }
    {
        self.kind
    }

    /// The link count.
    pub fn nlink(&self) -> u32
        ensures { result ≡ self.now.nlink }
    {
        self.nlink
    }

    /// The size in bytes.
    pub fn size(&self) -> u64
        ensures { result ≡ self.now.size }
    {
        self.size
    }

    /// How many blocks both forks map.
    pub fn nblocks(&self) -> u64
        ensures { result ≡ self.now.nblocks }
    {
        self.nblocks
    }

    pub fn generation(&self) -> u32
        ensures { result ≡ self.now.generation }
    {
        self.generation
    }

    /// Where the attribute fork begins, in units of 8 bytes from 176 on; 0 where there is none.
    pub fn forkoff(&self) -> u8
        ensures { result ≡ self.now.fork_offset }
    {
        self.fork_offset
    }

    /// The data fork's format: 0 device, 1 local, 2 extents, 3 tree.
    pub fn data_format(&self) -> u8
        ensures { result ≡ self.now.data_format }
    {
        self.data_format
    }

    /// The attribute fork's format, numbered likewise.
    pub fn attr_format(&self) -> u8
        ensures { result ≡ self.now.attr_format }
    {
        self.attr_format
    }

    /// How many extents the data fork has.
    pub fn data_extents(&self) -> u64
        ensures { result ≡ self.now.data_extents }
    {
        self.data_extents
    }

    /// How many extents the attribute fork has.
    pub fn attr_extents(&self) -> u64
        ensures { result ≡ self.now.attr_extents }
    {
        self.attr_extents
    }
}

/// Rule 10: magic, version 3, checksum, own number and uuid.
fn has_core(bytes: &[u8], number: u64, uuid: &[u8; 16]) -> bool
    ensures { IsTrue result ↔ HasCore bytes.now number uuid.now }
{
    bytes.len() >= CORE_BYTES
        && has_mark(bytes)
        && has_checksum(bytes, 100)
        && has_owner(bytes, number, uuid)
}

fn has_mark(bytes: &[u8]) -> bool
    requires { CORE_BYTES ≤ length bytes.now }
    ensures { IsTrue result ↔ ((number_at 2 0 bytes.now ≡ 0x494e) × (number_at 1 4 bytes.now ≡ 3)) }
{
    u16_at(bytes, 0) == MAGIC && u8_at(bytes, 4) == 3
}

fn has_owner(bytes: &[u8], number: u64, uuid: &[u8; 16]) -> bool
    requires { CORE_BYTES ≤ length bytes.now }
    ensures { IsTrue result ↔ ((number_at 8 152 bytes.now ≡ number) × (slice_range bytes.now 160 176 ≡ uuid.now)) }
{
    u64_at(bytes, 152) == number && bytes[160..176] == uuid[..]
}

/// Rule 11, but for whether an attribute fork has to be there: the kind, where the mode has one and the forks are right.
fn kind_with_forks(bytes: &[u8]) -> Option<Kind>
    requires { CORE_BYTES ≤ length bytes.now }
    ensures { MatchOption result (¬ HasForks bytes.now)
        (λ kind. HasForks bytes.now × (kind_of_mode (number_at 2 2 bytes.now) ≡ Some kind)) }
{
    let kind = Kind::from_mode(u16_at(bytes, 2))?;
    let offset = usize::from(u8_at(bytes, 82));
    let fits = CORE_BYTES + 8 * offset < bytes.len();
    let directory = kind != Kind::Dir || is_list_format(u8_at(bytes, 5));
    let attribute = offset == 0 || is_list_format(u8_at(bytes, 83));
    if fits && directory && attribute {
        Some(kind)
    } else {
        None
    }
}

fn is_list_format(format: u8) -> bool
    ensures { IsTrue result ↔ IsListFormat format }
{
    format == LOCAL_FORMAT || format == EXTENTS_FORMAT
}

/// The core's fields.
fn core_with_kind(bytes: &[u8], kind: Kind) -> Core
    requires whole { CORE_BYTES ≤ length bytes.now }
    requires kind { kind_of_mode (number_at 2 2 bytes.now) ≡ Some kind }
    ensures { CoreHolds bytes.now result }
{
    let large_counts = u64_at(bytes, 120) / 16 % 2 == 1;
    Core {
        kind,
        permissions: u16_at(bytes, 2) % 4096,
        nlink: u32_at(bytes, 16),
        size: u64_at(bytes, 56),
        nblocks: u64_at(bytes, 64),
        generation: u32_at(bytes, 92),
        fork_offset: u8_at(bytes, 82),
        data_format: u8_at(bytes, 5),
        attr_format: u8_at(bytes, 83),
        large_counts,
        data_extents: if large_counts {
            u64_at(bytes, 24)
        } else {
            u64::from(u32_at(bytes, 76))
        },
        attr_extents: if large_counts {
            u64::from(u32_at(bytes, 76))
        } else {
            u64::from(u16_at(bytes, 80))
        },
    }
}
