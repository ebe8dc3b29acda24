//! The list of a directory in leaf or node form: rules 17 to 21.

ghost use Rattle.std.specs.Prelude.{◌≡◌, ◌≢◌, ◌+◌, ◌≤◌, ℕ, true, AllPairs, IfOk, IfErr, IfSome, IsSortedBy, List, MatchResult, map};
ghost use Rattle.xn_bytes.specs.Trees.{AreBlocks};
ghost use Rattle.xn_bytes.specs.Directory.{HasNames};
ghost use Rattle.xn_bytes.specs.DirectoryForms.{IsLeafForm};
ghost use Rattle.xn_bytes.specs.LeafForms.{HoldsHashed};
ghost use Rattle.xn_bytes.specs.DirectoryRules.{BreaksHashed};
ghost use Rattle.xn_bytes.specs.Costs.{mapped_count};
ghost use Rattle.xn_inode.specs.Frames.{StoreStays};
ghost use Rattle.xn_inode.specs.Faults.{IsRule};
ghost use Rattle.xn_dir.specs.Compare.{comes_before};
ghost use Rattle.xn_dir.specs.Faults.{IsHashedFault};
ghost use Rattle.xn_dir.specs.Hashed.{IsDirFork, dir_fork};
ghost use Rattle.xn_dir.specs.Listings.{entry_of, name_of};
ghost use Rattle.xn_dir.specs.Indexed.{FetchesIndex, IsIndexed, IsMisindexed};
ghost use Rattle.xn_dir.specs.Repeats.{HaveHashes};

use crate::bests::{Best, are_leaf_bests, has_free_indexes};
use crate::compare::{are_same, in_order};
use crate::gather::{Gathered, gather};
use crate::leaves::{is_leaf_form, read_single_leaf};
use crate::listing::{Listed, check_once_among};
use crate::sizes::LEAF_FILE_BLOCK;
use std::alloc::Global;
use xn_datree::{Fork, Tree};
use xn_inode::{ForkFault, Store};
use xn_leaf::{DirLeaf, HashAt};

/// The entries of a directory in leaf or node form, with their names. It reads no block twice.
pub(crate) fn list<S: Store>(
    alloc: Global,
    store: &mut S,
    fork: &Fork,
) -> Result<Vec<Listed>, ForkFault>
    requires whole { S.IsWhole store.old }
    requires blocks { AreBlocks (S.shape store.old) fork.now.extents }
    requires fork { IsDirFork fork.now }
    ensures holds { IfOk result (λ listed. IfSome (S.image store.old) (λ x. (dotdot : ℕ) × HoldsHashed (dir_fork (S.shape store.old) fork.now x) (map entry_of listed.items) dotdot)) }
    ensures names { IfOk result (λ listed. HasNames (map entry_of listed.items)) }
    ensures fault { IfErr result (IsHashedFault S.Store (λ x. BreaksHashed (dir_fork (S.shape store.old) fork.now x)) store.old store.new) }
    ensures stays { StoreStays S.Store store.old store.new }
    ensures fetches { S.fetches store.new ≤ S.fetches store.old + mapped_count fork.now.extents }
{
    let Gathered {
        listed,
        are_names,
        leaves,
        bests,
    } = gather(alloc, store, fork)?;
    let wanted = in_order(leaves);
    check_index(alloc, store, fork, &wanted, &bests)?;
    check_names(alloc, &listed, are_names, &wanted)?;
    Ok(listed)
}

/// Rule 21: each entry has a name, and each name stands once. Their leaf entries are among these.
fn check_names(
    alloc: Global,
    listed: &[Listed],
    are_names: bool,
    leaves: &[HashAt],
) -> Result<(), ForkFault>
    requires sorted { IsSortedBy comes_before leaves.now }
    requires among { are_names ≡ true → HaveHashes leaves.now (map name_of listed.now) }
    ensures { MatchResult result
        (λ _. (are_names ≡ true) × AllPairs (λ a b. a ≢ b) (map name_of listed.now))
        (IsRule 21 ((are_names ≡ true) × AllPairs (λ a b. a ≢ b) (map name_of listed.now))) }
{
    if are_names {
        check_once_among(alloc, listed, leaves)
    } else {
        Err(ForkFault::of_rule(21))
    }
}

/// Rules 18 to 20, by what the data blocks ask for.
fn check_index<S: Store>(
    alloc: Global,
    store: &mut S,
    fork: &Fork,
    leaves: &[HashAt],
    bests: &[Best],
) -> Result<(), ForkFault>
    requires whole { S.IsWhole store.old }
    requires blocks { AreBlocks (S.shape store.old) fork.now.extents }
    requires fork { IsDirFork fork.now }
    requires sorted { IsSortedBy comes_before leaves.now }
    ensures right { IfOk result (λ _. IfSome (S.image store.old) (λ x. IsIndexed (dir_fork (S.shape store.old) fork.now x) leaves.now bests.now)) }
    ensures fault { IfErr result (IsHashedFault S.Store (λ x. IsMisindexed (dir_fork (S.shape store.old) fork.now x) leaves.now bests.now) store.old store.new) }
    ensures stays { StoreStays S.Store store.old store.new }
    ensures fetches { FetchesIndex fork.now.extents (S.fetches store.old) (S.fetches store.new) }
{
    if is_leaf_form(&fork.extents) {
        check_leaf_form(alloc, store, fork, leaves, bests)
    } else {
        check_node_form(alloc, store, fork, leaves, bests)
    }
}

/// The same in leaf form.
fn check_leaf_form<S: Store>(
    alloc: Global,
    store: &mut S,
    fork: &Fork,
    leaves: &[HashAt],
    bests: &[Best],
) -> Result<(), ForkFault>
    requires whole { S.IsWhole store.old }
    requires blocks { AreBlocks (S.shape store.old) fork.now.extents }
    requires sorted { IsSortedBy comes_before leaves.now }
    requires leaf_form { IsLeafForm fork.now.extents }
    ensures right { IfOk result (λ _. IfSome (S.image store.old) (λ x. IsIndexed (dir_fork (S.shape store.old) fork.now x) leaves.now bests.now)) }
    ensures fault { IfErr result (IsHashedFault S.Store (λ x. IsMisindexed (dir_fork (S.shape store.old) fork.now x) leaves.now bests.now) store.old store.new) }
    ensures stays { StoreStays S.Store store.old store.new }
    ensures fetches { FetchesIndex fork.now.extents (S.fetches store.old) (S.fetches store.new) }
{
    let leaf = read_single_leaf(alloc, store, fork)?;
    let last = fork.extents.last_mapped(LEAF_FILE_BLOCK).unwrap_or(0);
    let are_right = are_leaf_bests(last, bests, &leaf.bests);
    if !are_same(leaves, leaf.live) {
        Err(ForkFault::of_rule(19))
    } else if !are_right {
        Err(ForkFault::of_rule(20))
    } else {
        Ok(())
    }
}

/// The same in node form.
fn check_node_form<S: Store>(
    alloc: Global,
    store: &mut S,
    fork: &Fork,
    leaves: &[HashAt],
    bests: &[Best],
) -> Result<(), ForkFault>
    requires whole { S.IsWhole store.old }
    requires blocks { AreBlocks (S.shape store.old) fork.now.extents }
    requires fork { IsDirFork fork.now }
    requires sorted { IsSortedBy comes_before leaves.now }
    requires node_form { ¬ IsLeafForm fork.now.extents }
    ensures right { IfOk result (λ _. IfSome (S.image store.old) (λ x. IsIndexed (dir_fork (S.shape store.old) fork.now x) leaves.now bests.now)) }
    ensures fault { IfErr result (IsHashedFault S.Store (λ x. IsMisindexed (dir_fork (S.shape store.old) fork.now x) leaves.now bests.now) store.old store.new) }
    ensures stays { StoreStays S.Store store.old store.new }
    ensures fetches { FetchesIndex fork.now.extents (S.fetches store.old) (S.fetches store.new) }
{
    let live = Tree::<DirLeaf>::walk(alloc, store, fork)?;
    if !are_same(leaves, live) {
        return Err(ForkFault::of_rule(19));
    }
    if !has_free_indexes(store, fork.owner, &fork.extents, bests)? {
        return Err(ForkFault::of_rule(20));
    }
    Ok(())
}
