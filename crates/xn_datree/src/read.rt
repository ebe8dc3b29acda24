//! One block of a tree, read for a walk or a descent.

ghost use Rattle.std.specs.Prelude.{◌≡◌, ◌≢◌, ◌⊎◌, ◌+◌, ◌≤◌, ℕ, All, Option, Some, length, IfErr, IfOk, IfSome, IsSome, MatchOption};
ghost use Rattle.xn_bytes.specs.Superblock.{IsBlock};
ghost use Rattle.xn_bytes.specs.Extents.{mapped};
ghost use Rattle.xn_bytes.specs.Trees.{AreBlocks, Held as Holding, Stands, StandsAlone, bytes_at};
ghost use Rattle.xn_inode.specs.Frames.{StoreStays};
ghost use Rattle.xn_datree.specs.Held.{held_of};
ghost use Rattle.xn_datree.specs.Forks.{tree_fork, tree_of, IsVisitFault};

use crate::fork::Fork;
use crate::held::{Held, held_in, level_of};
use crate::leaf::Leaf;
use crate::trail::Trail;
use crate::visit::{Visit, are_tree_blocks, is_asked, is_beside, is_own};
use std::alloc::Global;
use xn_bytes::Memory;
use xn_inode::{ForkFault, Store, Super};

pub(crate) const BLOCK_BYTES: usize = 4096;

/// What the block of a visit holds, where it stands whatever stands before it.
pub(crate) fn stands_alone<L: Leaf>(
    alloc: Global,
    geometry: &Super,
    fork: &Fork,
    visit: Visit,
    block: u64,
    bytes: &[u8],
) -> Result<Option<Held<L::Entry>>, Memory>
    requires size { length bytes.now ≡ 4096 }
    requires there { mapped fork.now.extents visit.file_block ≡ Some block }
    requires place { IsBlock geometry.now block }
    ensures { IfOk result (λ found. MatchOption found
        ((held : Holding L.Entry) → ¬ StandsAlone L.Holds L.ends (tree_fork geometry.now fork.now) bytes.now visit held)
        (λ held. StandsAlone L.Holds L.ends (tree_fork geometry.now fork.now) bytes.now visit (held_of held))) }
{
    if !is_own(geometry, fork.owner, block, bytes) {
        return Ok(None);
    }
    let Some(held) = held_in::<L>(alloc, bytes)? else {
        return Ok(None);
    };
    if is_asked(bytes, held.ends, visit.asked) && are_tree_blocks(fork, &held.children) {
        Ok(Some(held))
    } else {
        Ok(None)
    }
}

/// Reads the block of a visit, and answers what it holds where it stands behind those that were met.
pub(crate) fn read_visit<L: Leaf, S: Store>(
    alloc: Global,
    store: &mut S,
    fork: &Fork,
    trail: &Trail,
    visit: Visit,
    bytes: &mut [u8; BLOCK_BYTES],
) -> Result<Held<L::Entry>, ForkFault>
    requires whole { S.IsWhole store.old }
    requires blocks { AreBlocks (S.shape store.old) fork.now.extents }
    ensures alone { IfOk result (λ held. StandsAlone L.Holds L.ends (tree_fork (S.shape store.old) fork.now) bytes.new visit (held_of held)) }
    ensures new { IfOk result (λ _. All (λ one. one.file_block ≢ visit.file_block) trail.now) }
    ensures fetched { (S.fetches store.new ≤ S.fetches store.old) ⊎ ((IsSome (mapped fork.now.extents visit.file_block)) × All (λ one. one.file_block ≢ visit.file_block) trail.now) }
    ensures stands { IfOk result (λ held. IfSome (S.image store.old) (λ x. Stands (tree_of L.Holds L.ends (S.shape store.old) fork.now x) trail.now visit (held_of held))) }
    ensures bytes { IfOk result (λ _. IfSome (S.image store.old) (λ x. bytes.new ≡ bytes_at (tree_of L.Holds L.ends (S.shape store.old) fork.now x) visit.file_block)) }
    ensures fault { IfErr result (IsVisitFault S.Store (λ x. (held : Holding L.Entry) → ¬ Stands (tree_of L.Holds L.ends (S.shape store.old) fork.now x) trail.now visit held) fork.now visit.file_block store.old store.new) }
    ensures stays { StoreStays S.Store store.old store.new }
    ensures fetches { S.fetches store.new ≤ S.fetches store.old + 1 }
{
    let Some(block) = fork.extents.block_at(visit.file_block) else {
        return Err(fork.broken(0));
    };
    if !trail.is_new(visit.file_block) {
        return Err(fork.broken(block));
    }
    store.block(block, bytes)?;
    let Ok(found) = stands_alone::<L>(alloc, store.geometry(), fork, visit, block, bytes) else {
        return Err(ForkFault::Memory);
    };
    let Some(held) = found else {
        return Err(fork.broken(block));
    };
    let left = trail.left_on(level_of(bytes));
    if is_beside(bytes, visit.file_block, held.ends, left) {
        Ok(held)
    } else {
        Err(fork.broken(block))
    }
}
