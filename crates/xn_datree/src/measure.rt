//! What a change of a tree asks before it begins: how many blocks a path has, and whether a leaf has room.

ghost use Rattle.std.specs.Prelude.{◌≡◌, ◌↔◌, ◌+◌, ◌≤◌, ℕ, List, IsTrue, IfErr, IfOk, IfSome, sum_by};
ghost use Rattle.xn_bytes.specs.Trees.{AreBlocks, FailsFor, Held as Holding, IsLeafFor, IsTree, bytes_at, levels_of_tree};
ghost use Rattle.xn_inode.specs.Frames.{StoreStays};
ghost use Rattle.xn_datree.specs.Forks.{tree_of, IsTreeFault, IsVisitFault};

use crate::find::{descend, read_alone};
use crate::fork::Fork;
use crate::held::level_of;
use crate::leaf::Leaf;
use crate::read::BLOCK_BYTES;
use crate::visit::root_visit;
use crate::walk::Tree;
use std::alloc::Global;
use xn_inode::{ForkFault, Store};

impl<L: Leaf> Tree<L> {
    /// How many blocks a path from the root has, the leaf included: 5 at most. Broken comes only of a fork whose tree fails its rule, with
    /// the root's block.
    pub fn levels<S: Store>(alloc: Global, store: &mut S, fork: &Fork) -> Result<u64, ForkFault>
        requires whole { S.IsWhole store.old }
        requires blocks { AreBlocks (S.shape store.old) fork.now.extents }
        ensures levels { IfOk result (λ levels. IfSome (S.image store.old) (λ x. levels ≡ levels_of_tree (tree_of L.Holds L.ends (S.shape store.old) fork.now x))) }
        ensures few { IfOk result (λ levels. levels ≤ 5) }
        ensures fault { IfErr result (IsVisitFault S.Store (λ x. (helds : List (Holding L.Entry)) → ¬ IsTree (tree_of L.Holds L.ends (S.shape store.old) fork.now x) helds) fork.now fork.now.root store.old store.new) }
        ensures stays { StoreStays S.Store store.old store.new }
        ensures fetches { S.fetches store.new ≤ S.fetches store.old + 1 }
    {
        let mut bytes = [0; BLOCK_BYTES];
        read_alone::<L, S>(alloc, store, fork, root_visit(fork), &mut bytes)?;
        Ok(u64::from(level_of(&bytes)) + 1)
    }

    /// Whether an entry of this size, in bytes, still goes into the leaf to which the descent to a hash leads. Broken comes
    /// only of a fork whose tree fails its rule, with the first block that fails on the way of the hash; what lies beside it is
    /// not looked at.
    pub fn fits<S: Store>(
        alloc: Global,
        store: &mut S,
        fork: &Fork,
        hash: u32,
        size: u64,
    ) -> Result<bool, ForkFault>
        requires whole { S.IsWhole store.old }
        requires blocks { AreBlocks (S.shape store.old) fork.now.extents }
        ensures fits { IfOk result (λ fits. IfSome (S.image store.old) (λ x. (leaf : ℕ) (entries : List L.Entry)
            → IsLeafFor (tree_of L.Holds L.ends (S.shape store.old) fork.now x) hash leaf
            → L.Holds (bytes_at (tree_of L.Holds L.ends (S.shape store.old) fork.now x) leaf) entries
            → (IsTrue fits ↔ sum_by L.size entries + size ≤ L.CAPACITY))) }
        ensures fault { IfErr result (IsTreeFault S.Store (λ x. FailsFor (tree_of L.Holds L.ends (S.shape store.old) fork.now x) hash) fork.now store.old store.new) }
        ensures stays { StoreStays S.Store store.old store.new }
        ensures fetches { S.fetches store.new ≤ S.fetches store.old + 5 }
        ensures path { IfSome (S.image store.old) (λ x. S.fetches store.new ≤ S.fetches store.old + levels_of_tree (tree_of L.Holds L.ends (S.shape store.old) fork.now x)) }
    {
        let mut bytes = [0; BLOCK_BYTES];
        let (_, held) = descend::<L, S>(alloc, store, fork, hash, &mut bytes)?;
        Ok(has_room::<L>(&held.entries, size))
    }
}

/// Whether one more entry, of this size, goes into a leaf with these.
fn has_room<L: Leaf>(entries: &[L::Entry], size: u64) -> bool
    ensures { IsTrue result ↔ sum_by L.size entries.now + size ≤ L.CAPACITY }
{
    let mut room = L::CAPACITY;
    for entry in entries {
        let Some(rest) = room.checked_sub(L::size_of(entry)) else {
            return false;
        };
        room = rest;
    }
    size <= room
}
