ghost use Rattle.std.specs.Prelude.{◌≡◌, ◌↔◌, ◌+◌, ◌*◌, ◌≤◌, ℕ, List, length, IsTrue, MatchResult};
ghost use Rattle.xn_bytes.specs.Numbers.{number_at};
ghost use Rattle.xn_bytes.specs.HashedTree.{LeafTailHolds, single_leaf_magic};
ghost use Rattle.xn_datree.specs.Leaves.{IsLeafFault};
ghost use Rattle.xn_leaf.specs.Tails.{HasTail};

use crate::bests::bests_in;
use crate::entry::{ENTRY_BYTES, FIRST_ENTRY};
use crate::read::{CHECKSUM, MAGIC, SINGLE_LEAF, count_in};
use std::alloc::Global;
use xn_bytes::{has_checksum, u16_at, u32_at};
use xn_datree::LeafFault;

const TAIL: usize = 4092;

/// What stands behind the entries of the single leaf of a directory in leaf form (`xfs_dir2_leaf_tail`): the best of each
/// data block from 0 on, which is the length of its greatest free region or 0xffff where it isn't mapped, and their count.
#[derive(Clone, Copy, Debug, PartialEq, Eq)]
pub struct LeafTail;

impl LeafTail {
    /// The bests of the single leaf. Its entries are read as those of every leaf.
    pub fn bests(alloc: Global, block: &[u8]) -> Result<Vec<u16>, LeafFault>
        requires { length block.now ≡ 4096 }
        ensures { MatchResult result (λ bests. LeafTailHolds block.now bests.items) (IsLeafFault 18 ((bests : List ℕ) → ¬ LeafTailHolds block.now bests)) }
    {
        if !has_tail(block) {
            return Err(LeafFault::Bad { rule: 18 });
        }
        let count = tail_count(block);
        let Ok(bests) = bests_in(alloc, block, TAIL - 2 * count, count) else {
            return Err(LeafFault::Memory);
        };
        Ok(bests)
    }
}

/// Whether a block is the single leaf, with place for the bests that it says it has.
fn has_tail(block: &[u8]) -> bool
    requires { length block.now ≡ 4096 }
    ensures { IsTrue result ↔ HasTail block.now }
{
    u16_at(block, MAGIC) == SINGLE_LEAF && has_checksum(block, CHECKSUM) && are_apart(block)
}

/// Whether entries and bests don't meet.
fn are_apart(block: &[u8]) -> bool
    requires { length block.now ≡ 4096 }
    ensures { IsTrue result ↔ (64 + 8 * number_at 2 56 block.now + 2 * number_at 4 4092 block.now + 4 ≤ 4096) }
{
    FIRST_ENTRY + ENTRY_BYTES * count_in(block) + 2 * tail_count(block) <= TAIL
}

fn tail_count(block: &[u8]) -> usize
    requires { length block.now ≡ 4096 }
    ensures count { result ≡ number_at 4 4092 block.now }
    ensures fits { result ≤ 0xffffffff }
{
    u32_at(block, TAIL) as usize
}
