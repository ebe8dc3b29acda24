//! Rule 18 of leaf and node form: the leaf entries, in the single leaf or in the leaves of a tree.

ghost use Rattle.std.specs.Prelude.{◌≡◌, ◌↔◌, ◌+◌, ◌*◌, ◌≤◌, ◌==◌, ℕ, IsTrue, IfOk, IfErr, IfSome, List, Some, filter, length};
ghost use Rattle.xn_bytes.specs.Blocks.{block_of};
ghost use Rattle.xn_bytes.specs.Extents.{mapped};
ghost use Rattle.xn_bytes.specs.DataBlock.{LeafEntry};
ghost use Rattle.xn_bytes.specs.HashedTree.{leaf_file_block};
ghost use Rattle.xn_bytes.specs.Trees.{AreBlocks};
ghost use Rattle.xn_bytes.specs.DirectoryForms.{IsLeafForm};
ghost use Rattle.xn_bytes.specs.LeafForms.{BreaksLeaves, HasLeaves};
ghost use Rattle.xn_bytes.specs.DirectoryRules.{FailsLeaves};
ghost use Rattle.xn_bytes.specs.Costs.{IsHashCost, mapped_count};
ghost use Rattle.xn_inode.specs.Frames.{StoreStays};
ghost use Rattle.xn_dir.specs.Faults.{IsHashedFault};
ghost use Rattle.xn_dir.specs.Hashed.{IsDirFork, dir_fork};
ghost use Rattle.xn_dir.specs.SingleLeaves.{IsLeafRead};

use crate::single_leaf::{SingleLeaf, single_leaf};
use crate::sizes::{BLOCK_BYTES, LEAF_FILE_BLOCK};
use std::alloc::{AllocError, Global};
use xn_datree::{Fork, Tree};
use xn_inode::{Extents, ForkFault, Store};
use xn_leaf::{DirLeaf, HashAt};

/// Whether a directory that is in leaf or node form is in leaf form: nothing is mapped behind the single leaf.
pub(crate) fn is_leaf_form(extents: &Extents) -> bool
    ensures { IsTrue result ↔ IsLeafForm extents.now }
{
    extents.end() == LEAF_FILE_BLOCK + 1
}

/// The leaf entries with a hash, stale ones left out.
pub(crate) fn with_hash<S: Store>(
    alloc: Global,
    store: &mut S,
    fork: &Fork,
    hash: u32,
) -> Result<Vec<HashAt>, ForkFault>
    requires whole { S.IsWhole store.old }
    requires blocks { AreBlocks (S.shape store.old) fork.now.extents }
    requires fork { IsDirFork fork.now }
    ensures found { IfOk result (λ found. IfSome (S.image store.old) (λ x. (live : List LeafEntry) → HasLeaves (dir_fork (S.shape store.old) fork.now x) live → found.items ≡ filter (λ leaf. leaf.hash == hash) live)) }
    ensures fault { IfErr result (IsHashedFault S.Store (λ x rule block. (rule ≡ 18) × FailsLeaves (dir_fork (S.shape store.old) fork.now x) block) store.old store.new) }
    ensures stays { StoreStays S.Store store.old store.new }
    ensures fetches { IfOk result (λ found. IfSome (S.image store.old) (λ x. (cost : ℕ) → IsHashCost (dir_fork (S.shape store.old) fork.now x) hash cost → S.fetches store.new + length found.items ≤ S.fetches store.old + cost)) }
    ensures failed { IfErr result (λ _. IfSome (S.image store.old) (λ x. (cost : ℕ) → IsHashCost (dir_fork (S.shape store.old) fork.now x) hash cost → S.fetches store.new ≤ S.fetches store.old + cost)) }
    ensures most { S.fetches store.new ≤ S.fetches store.old + 5 + mapped_count fork.now.extents }
    ensures few { IfOk result (λ found. length found.items ≤ 504 * (1 + mapped_count fork.now.extents)) }
{
    if is_leaf_form(&fork.extents) {
        let leaf = read_single_leaf(alloc, store, fork)?;
        Ok(those_with_hash(alloc, &leaf.live, hash)?)
    } else {
        Tree::<DirLeaf>::find_all(alloc, store, fork, hash)
    }
}

/// Those of leaf entries that have a hash.
fn those_with_hash(alloc: Global, leaves: &[HashAt], hash: u32) -> Result<Vec<HashAt>, AllocError>
    ensures { IfOk result (λ found. found.items ≡ filter (λ leaf. leaf.hash == hash) leaves.now) }
{
    let mut found = Vec::new(alloc);
    for leaf in leaves {
        if has_hash(*leaf, hash) {
            found.push(*leaf)?;
        }
    }
    Ok(found)
}

fn has_hash(leaf: HashAt, hash: u32) -> bool
    ensures { result ≡ (leaf.hash == hash) }
{
    leaf.hash == hash
}

/// Reads the single leaf of leaf form.
pub(crate) fn read_single_leaf<S: Store>(
    alloc: Global,
    store: &mut S,
    fork: &Fork,
) -> Result<SingleLeaf, ForkFault>
    requires whole { S.IsWhole store.old }
    requires blocks { AreBlocks (S.shape store.old) fork.now.extents }
    requires leaf_form { IsLeafForm fork.now.extents }
    ensures few { IfOk result (λ leaf. length leaf.live.items ≤ 504) }
    ensures holds { IfOk result (λ leaf. IfSome (S.image store.old) (λ x. (block : ℕ) × (mapped fork.now.extents leaf_file_block ≡ Some block) × IsLeafRead (S.shape store.old) fork.now.owner block (block_of (S.shape store.old) x block) leaf)) }
    ensures fault { IfErr result (IsHashedFault S.Store (λ x rule block. (rule ≡ 18) × BreaksLeaves (dir_fork (S.shape store.old) fork.now x) block) store.old store.new) }
    ensures stays { StoreStays S.Store store.old store.new }
    ensures fetches { S.fetches store.new ≤ S.fetches store.old + 1 }
{
    let Some(block) = fork.extents.block_at(LEAF_FILE_BLOCK) else {
        return Err(ForkFault::of_rule(18));
    };
    let mut bytes = [0; BLOCK_BYTES];
    store.block(block, &mut bytes)?;
    match single_leaf(alloc, store.geometry(), fork.owner, block, &bytes) {
        Ok(Some(leaf)) => Ok(leaf),
        Ok(None) => Err(ForkFault::Broken { rule: 18, block }),
        Err(_) => Err(ForkFault::Memory),
    }
}
