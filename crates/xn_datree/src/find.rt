//! The entries of one hash: the descent to the first leaf that can have them, and its right siblings as long as they go on.

ghost use Rattle.std.specs.Prelude.{◌≡◌, ◌≢◌, ◌↔◌, ◌++◌, ◌==◌, ◌⊎◌, ◌<◌, ◌≤◌, ◌+◌, ◌*◌, ◌∷◌, [], All, ℕ, List, IsSome, IsTrue, IfErr, IfOk, IfSome, OnOk, Option, Some, None, filter, length, sum_by};
ghost use Rattle.xn_bytes.specs.Costs.{mapped_count};
ghost use Rattle.xn_bytes.specs.Extents.{mapped};
ghost use Rattle.xn_bytes.specs.HashedTree.{Child as HeldChild};
ghost use Rattle.xn_bytes.specs.Trees.{AreBlocks, FailsFor, Held as Holding, IsLeafFor, IsTree, Stands, StandsAlone, TreeHolds, bytes_at, child_for, leaves_to, level_in, levels_of_tree};
ghost use Rattle.xn_inode.specs.Frames.{StoreStays};
ghost use Rattle.xn_datree.specs.Finding.{ComesDown, FollowsFrom, IsNoLeaf};
ghost use Rattle.xn_datree.specs.Held.{held_of};
ghost use Rattle.xn_datree.specs.Forks.{tree_fork, tree_of, IsTreeFault, IsVisitFault};

use crate::fork::Fork;
use crate::held::{Held, level_of};
use crate::leaf::Leaf;
use crate::node::Child;
use crate::read::{BLOCK_BYTES, read_visit, stands_alone};
use crate::trail::Trail;
use crate::visit::{Met, Visit, root_visit, visit_to};
use crate::walk::{Tree, met_in};
use std::alloc::{AllocError, Global};
use xn_inode::{ForkFault, Store};

/// Reads the block of a visit, and answers what it holds where it stands, whatever stands before it.
pub(crate) fn read_alone<L: Leaf, S: Store>(
    alloc: Global,
    store: &mut S,
    fork: &Fork,
    visit: Visit,
    bytes: &mut [u8; BLOCK_BYTES],
) -> Result<Held<L::Entry>, ForkFault>
    requires whole { S.IsWhole store.old }
    requires blocks { AreBlocks (S.shape store.old) fork.now.extents }
    ensures alone { IfOk result (λ held. StandsAlone L.Holds L.ends (tree_fork (S.shape store.old) fork.now) bytes.new visit (held_of held)) }
    ensures bytes { IfOk result (λ _. IfSome (S.image store.old) (λ x. bytes.new ≡ bytes_at (tree_of L.Holds L.ends (S.shape store.old) fork.now x) visit.file_block)) }
    ensures fault { IfErr result (IsVisitFault S.Store (λ x. (held : Holding L.Entry) → ¬ StandsAlone L.Holds L.ends (tree_fork (S.shape store.old) fork.now) (bytes_at (tree_of L.Holds L.ends (S.shape store.old) fork.now x) visit.file_block) visit held) fork.now visit.file_block store.old store.new) }
    ensures stays { StoreStays S.Store store.old store.new }
    ensures fetches { S.fetches store.new ≤ S.fetches store.old + 1 }
{
    let Some(block) = fork.extents.block_at(visit.file_block) else {
        return Err(fork.broken(0));
    };
    store.block(block, bytes)?;
    let Ok(found) = stands_alone::<L>(alloc, store.geometry(), fork, visit, block, bytes) else {
        return Err(ForkFault::Memory);
    };
    match found {
        Some(held) => Ok(held),
        None => Err(fork.broken(block)),
    }
}

/// The child to which the descent to a hash leads: the first whose greatest hash is not below it, else the last. None of a
/// leaf.
fn child_to(children: &[Child], hash: u32) -> Option<Child>
    ensures none { (result ≡ None) ↔ (children.now ≡ []) }
    ensures child { (child : HeldChild) (others : List HeldChild) → children.now ≡ child ∷ others → result ≡ Some (child_for hash child others) }
{
    let (first, others) = children.split_first()?;
    Some(child_among(*first, others, hash))
}

fn child_among(first: Child, others: &[Child], hash: u32) -> Child
    ensures { result ≡ child_for hash first others.now }
{
    let mut taken = first;
    for next in others {
        if hash <= taken.hash {
            return taken;
        }
        taken = *next;
    }
    taken
}

/// The entries with a hash go behind those that were found.
fn take_with_hash<L: Leaf>(
    found: &mut Vec<L::Entry>,
    entries: Vec<L::Entry>,
    hash: u32,
) -> Result<(), AllocError>
    ensures { OnOk result (found.new.items ≡ found.old.items ++ filter (λ entry. L.hash entry == hash) entries.items) }
{
    for entry in entries {
        if L::hash_of(&entry) == hash {
            found.push(entry)?;
        }
    }
    Ok(())
}

/// Descends from the root to the leaf for a hash; its visit, and what it holds.
pub(crate) fn descend<L: Leaf, S: Store>(
    alloc: Global,
    store: &mut S,
    fork: &Fork,
    hash: u32,
    bytes: &mut [u8; BLOCK_BYTES],
) -> Result<(Visit, Held<L::Entry>), ForkFault>
    requires whole { S.IsWhole store.old }
    requires blocks { AreBlocks (S.shape store.old) fork.now.extents }
    ensures leaf { IfOk result (λ leaf. IfSome (S.image store.old) (λ x. (helds : List (Holding L.Entry)) → IsTree (tree_of L.Holds L.ends (S.shape store.old) fork.now x) helds → ComesDown (tree_of L.Holds L.ends (S.shape store.old) fork.now x) L.hash hash helds bytes.new leaf.0.file_block (held_of leaf.1))) }
    ensures path { IfOk result (λ leaf. IfSome (S.image store.old) (λ x. (other : ℕ) → IsLeafFor (tree_of L.Holds L.ends (S.shape store.old) fork.now x) hash other → other ≡ leaf.0.file_block)) }
    ensures flat { IfOk result (λ _. level_in bytes.new ≡ 0) }
    ensures alone { IfOk result (λ leaf. StandsAlone L.Holds L.ends (tree_fork (S.shape store.old) fork.now) bytes.new leaf.0 (held_of leaf.1)) }
    ensures bytes { IfOk result (λ leaf. IfSome (S.image store.old) (λ x. bytes.new ≡ bytes_at (tree_of L.Holds L.ends (S.shape store.old) fork.now x) leaf.0.file_block)) }
    ensures fault { IfErr result (IsTreeFault S.Store (λ x. FailsFor (tree_of L.Holds L.ends (S.shape store.old) fork.now x) hash) fork.now store.old store.new) }
    ensures stays { StoreStays S.Store store.old store.new }
    ensures fetches { S.fetches store.new ≤ S.fetches store.old + 5 }
    ensures levels { IfSome (S.image store.old) (λ x. S.fetches store.new ≤ S.fetches store.old + levels_of_tree (tree_of L.Holds L.ends (S.shape store.old) fork.now x)) }
    ensures leads { IfOk result (λ leaf. IfSome (S.image store.old) (λ x. FollowsFrom (tree_of L.Holds L.ends (S.shape store.old) fork.now x) hash bytes.new leaf.0 (held_of leaf.1))) }
    ensures there { IfOk result (λ leaf. IsSome (mapped fork.now.extents leaf.0.file_block)) }
{
    let mut visit = root_visit(fork);
    let mut held = read_alone::<L, S>(alloc, store, fork, visit, bytes)?;
    while let Some(child) = child_to(&held.children, hash) {
        visit = visit_to(level_of(bytes), child);
        held = read_alone::<L, S>(alloc, store, fork, visit, bytes)?;
    }
    Ok((visit, held))
}

impl<L: Leaf> Tree<L> {
    /// The entries with a hash, from left to right: those of the leaf to which the descent leads, and of its right siblings
    /// until one is the last or has a greater hash, a fetch each. Broken comes only of a fork whose tree fails its rule, with
    /// the first block that fails on this way; what lies beside it is not looked at. Even a broken tree is left after as
    /// many fetches as the fork maps blocks, and 5.
    pub fn find_all<S: Store>(
        alloc: Global,
        store: &mut S,
        fork: &Fork,
        hash: u32,
    ) -> Result<Vec<L::Entry>, ForkFault>
        requires whole { S.IsWhole store.old }
        requires blocks { AreBlocks (S.shape store.old) fork.now.extents }
        ensures found { IfOk result (λ found. IfSome (S.image store.old) (λ x. (entries : List L.Entry) → TreeHolds (tree_of L.Holds L.ends (S.shape store.old) fork.now x) entries → found.items ≡ filter (λ entry. L.hash entry == hash) entries)) }
        ensures of_hash { IfOk result (λ found. All (λ entry. L.hash entry ≡ hash) found.items) }
        ensures fault { IfErr result (IsTreeFault S.Store (λ x. FailsFor (tree_of L.Holds L.ends (S.shape store.old) fork.now x) hash) fork.now store.old store.new) }
        ensures stays { StoreStays S.Store store.old store.new }
        ensures fetches { IfSome (S.image store.old) (λ x. (helds : List (Holding L.Entry)) → IsTree (tree_of L.Holds L.ends (S.shape store.old) fork.now x) helds → S.fetches store.new ≤ S.fetches store.old + levels_of_tree (tree_of L.Holds L.ends (S.shape store.old) fork.now x) + leaves_to hash helds) }
        ensures most { S.fetches store.new ≤ S.fetches store.old + 5 + mapped_count fork.now.extents }
        ensures room { IfOk result (λ found. sum_by L.size found.items ≤ L.CAPACITY * (1 + mapped_count fork.now.extents)) }
    {
        let mut bytes = [0; BLOCK_BYTES];
        let mut found = Vec::new(alloc);
        let (visit, held) = descend::<L, S>(alloc, store, fork, hash, &mut bytes)?;
        let mut left = met_in(&bytes, visit, held.ends);
        take_with_hash::<L>(&mut found, held.entries, hash)?;
        let mut trail = Trail::new(alloc);
        for _ in 0..u64::MAX {
            if is_last_for(left, hash) {
                return Ok(found);
            }
            trail.meet(left)?;
            let visit = right_of(left);
            let held = read_leaf::<L, S>(alloc, store, fork, &trail, visit, &mut bytes)?;
            left = met_in(&bytes, visit, held.ends);
            take_with_hash::<L>(&mut found, held.entries, hash)?;
        }
        Err(ForkFault::Memory)
    }
}

/// Whether nothing of a hash can be behind a leaf: it has none on its right, or ends with a greater hash.
fn is_last_for(left: Met, hash: u32) -> bool
    ensures { IsTrue result ↔ ((left.right ≡ 0) ⊎ (hash < left.last)) }
{
    left.right == 0 || hash < left.last
}

/// Of the block on the right nothing is asked but where it is.
fn right_of(left: Met) -> Visit
    ensures { result ≡ record { file_block = left.right; asked = None } }
{
    Visit {
        file_block: u64::from(left.right),
        asked: None,
    }
}

/// Reads a leaf that stands behind those that were met.
fn read_leaf<L: Leaf, S: Store>(
    alloc: Global,
    store: &mut S,
    fork: &Fork,
    trail: &Trail,
    visit: Visit,
    bytes: &mut [u8; BLOCK_BYTES],
) -> Result<Held<L::Entry>, ForkFault>
    requires whole { S.IsWhole store.old }
    requires blocks { AreBlocks (S.shape store.old) fork.now.extents }
    ensures flat { IfOk result (λ _. level_in bytes.new ≡ 0) }
    ensures stands { IfOk result (λ held. IfSome (S.image store.old) (λ x. Stands (tree_of L.Holds L.ends (S.shape store.old) fork.now x) trail.now visit (held_of held))) }
    ensures bytes { IfOk result (λ _. IfSome (S.image store.old) (λ x. bytes.new ≡ bytes_at (tree_of L.Holds L.ends (S.shape store.old) fork.now x) visit.file_block)) }
    ensures there { IfOk result (λ _. IsSome (mapped fork.now.extents visit.file_block)) }
    ensures new { IfOk result (λ _. All (λ one. one.file_block ≢ visit.file_block) trail.now) }
    ensures alone { IfOk result (λ held. StandsAlone L.Holds L.ends (tree_fork (S.shape store.old) fork.now) bytes.new visit (held_of held)) }
    ensures fault { IfErr result (IsVisitFault S.Store (λ x. IsNoLeaf (tree_of L.Holds L.ends (S.shape store.old) fork.now x) trail.now visit) fork.now visit.file_block store.old store.new) }
    ensures stays { StoreStays S.Store store.old store.new }
    ensures fetches { S.fetches store.new ≤ S.fetches store.old + 1 }
{
    let held = read_visit::<L, S>(alloc, store, fork, trail, visit, bytes)?;
    if level_of(bytes) == 0 {
        Ok(held)
    } else {
        Err(fork.broken(fork.extents.block_at(visit.file_block).unwrap_or(0)))
    }
}
