//! Free-index blocks.

ghost use Rattle.std.specs.Prelude.{◌≡◌, ◌+◌, ◌*◌, ◌<◌, ◌%◌, ◌≤◌, ◌↔◌, IsTrue, length, None, Some, IfOk, IfErr, IsOkAnd, MatchResult};
ghost use Rattle.xn_bytes.specs.Numbers.{number_at};
ghost use Rattle.xn_bytes.specs.HashedTree.{FreeForm, FreeHolds, best_at, bests_at, bests_of, free_fault, free_index_magic, used_among};

use crate::bests::best_in;
use std::marker::Model;
use xn_bytes::{has_checksum, u32_at, u64_at};

/// `XDF3`
const FREE_MAGIC: u32 = 0x5844_4633;

const CHECKSUM: usize = 4;

const PLACE: usize = 8;

const UUID: usize = 24;

const OWNER: usize = 40;

const FIRST: usize = 48;

const VALID: usize = 52;

const USED: usize = 56;

const FIRST_BEST: usize = 64;

/// How many data blocks a free-index block has bests of.
const MOST_BESTS: u32 = 2016;

/// The best of a data block that isn't mapped.
const NO_BEST: u16 = 0xffff;

/// Bytes are no free-index block. `at` is the place of the first field that is wrong.
#[derive(Clone, Copy, Debug, PartialEq, Eq)]
pub struct FreeFault {
    pub at: u64,
}

/// A free-index block of a directory in node form (`xfs_dir3_free`), in its 4,096 bytes: the bests of 2,016 data blocks.
/// Contracts see what it holds.
#[derive(Debug, Drop)]
pub struct FreeIndex<'a> {
    bytes: &'a [u8],
}

impl<'a> Model for FreeIndex<'a> {
    ghost use Rattle.xn_bytes.specs.HashedTree.{FreeForm, FreeHolds, free_in};

    ghost Value = { FreeForm };

    ghost view = { λ s. free_in s.bytes.now };

    ghost invariant = { λ s. FreeHolds s.bytes.now (free_in s.bytes.now) };
}

impl<'a> FreeIndex<'a> {
    /// The free-index block that stands in the bytes. Where none does, the error has the first place at which they fail: the
    /// magic number, the checksum, the first data block, the count of valid bests, and that of used ones. Place, uuid and
    /// owner are for the caller to compare. Takes no memory.
    pub fn read(bytes: &'a [u8]) -> Result<FreeIndex<'a>, FreeFault>
        requires size { length bytes.now ≡ 4096 }
        // What is read stands there.
        ensures found { IfOk result (λ index. FreeHolds bytes.now index) }
        // What stands there is read, and only one thing does.
        ensures only { (form : FreeForm) → FreeHolds bytes.now form → IsOkAnd result (λ index. index ≡ form) }
        // Which fault it is.
        ensures exact { MatchResult result (λ _. free_fault bytes.now ≡ None) (λ fault. free_fault bytes.now ≡ Some fault.at) }
    {
        match fault_in(bytes) {
            None => Ok(FreeIndex { bytes }),
            Some(at) => Err(FreeFault { at }),
        }
    }

    /// The best of a slot: None exactly where the data block has none, or past the valid ones.
    pub fn best(&self, slot: u64) -> Option<u16>
        ensures { result ≡ best_at self.now.bests slot }
    {
        if slot >= u64::from(u32_at(self.bytes, VALID)) {
            return None;
        }
        let best = best_in(self.bytes, FIRST_BEST, slot as usize);
        if best == NO_BEST { None } else { Some(best) }
    }

    /// How many data blocks have a best here.
    #[tactic(auto, unfolding(xn_bytes::specs::HashedTree::free_in))]
    pub fn used(&self) -> u64
        ensures { result ≡ used_among self.now.bests }
    {
        u64::from(u32_at(self.bytes, USED))
    }

    /// The block's number among the free-index blocks of its directory.
    #[tactic(auto, unfolding(xn_bytes::specs::HashedTree::free_in))]
    pub fn index(&self) -> u64
        ensures { result ≡ self.now.index }
    {
        u64::from(u32_at(self.bytes, FIRST) / MOST_BESTS)
    }

    /// The block's place on the device that it claims, as its first sector.
    #[tactic(auto, unfolding(xn_bytes::specs::HashedTree::free_in))]
    pub fn place(&self) -> u64
        ensures { result ≡ self.now.place }
    {
        u64_at(self.bytes, PLACE)
    }

    /// The uuid of the filesystem that the block claims, 16 bytes.
    #[tactic(auto, unfolding(xn_bytes::specs::HashedTree::free_in))]
    pub fn uuid(&self) -> &'a [u8]
        ensures { result.now ≡ self.now.uuid }
    {
        &self.bytes[UUID..OWNER]
    }

    /// The inode of the directory that the block claims.
    #[tactic(auto, unfolding(xn_bytes::specs::HashedTree::free_in))]
    pub fn owner(&self) -> u64
        ensures { result ≡ self.now.owner }
    {
        u64_at(self.bytes, OWNER)
    }
}

/// The first place at which bytes fail to be a free-index block.
#[tactic(auto, unfolding(xn_bytes::specs::HashedTree::free_fault))]
fn fault_in(bytes: &[u8]) -> Option<u64>
    requires { length bytes.now ≡ 4096 }
    ensures { result ≡ free_fault bytes.now }
{
    if u32_at(bytes, 0) != FREE_MAGIC {
        return Some(0);
    }
    if !has_checksum(bytes, CHECKSUM) {
        return Some(CHECKSUM as u64);
    }
    if u32_at(bytes, FIRST) % MOST_BESTS != 0 {
        return Some(FIRST as u64);
    }
    let valid = u32_at(bytes, VALID);
    if valid > MOST_BESTS {
        return Some(VALID as u64);
    }
    if u32_at(bytes, USED) != used_in(bytes, valid) {
        return Some(USED as u64);
    }
    None
}

/// How many of the first bests are those of data blocks.
fn used_in(bytes: &[u8], valid: u32) -> u32
    requires size { length bytes.now ≡ 4096 }
    requires few { valid ≤ 2016 }
    ensures { result ≡ used_among (bests_at valid 64 bytes.now) }
{
    let mut used = 0;
    for slot in 0..valid {
        if best_in(bytes, FIRST_BEST, slot as usize) != NO_BEST {
            used += 1;
        }
    }
    used
}
