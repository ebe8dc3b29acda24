//! Directories in leaf and node form: data blocks, of which the entries are found by the leaf entries of their hashes.

ghost use Rattle.std.specs.Prelude.{◌≡◌, ◌+◌, ◌*◌, ◌/◌, ◌%◌, ◌<◌, ◌≤◌, ℕ, All, Contains, IfOk, IfErr, IfSome, List, MatchOption, None, Some, false, length};
ghost use Rattle.xn_bytes.specs.Entries as held;
ghost use Rattle.xn_bytes.specs.Trees.{AreBlocks};
ghost use Rattle.xn_bytes.specs.DataBlock.{DataForm, LeafEntry, entries_among};
ghost use Rattle.xn_bytes.specs.Hashes.{name_hash_of};
ghost use Rattle.xn_bytes.specs.Superblock.{IsBlock};
ghost use Rattle.xn_bytes.specs.Costs.{IsHashCost, hash_most};
ghost use Rattle.xn_bytes.specs.DirectoryForms.{HasDots, IsDataBlockOf};
ghost use Rattle.xn_bytes.specs.LeafForms.{HoldsHashed};
ghost use Rattle.xn_bytes.specs.DirectoryRules.{FailsData, FailsHashed};
ghost use Rattle.xn_bytes.specs.HashedTree.{leaf_file_block};
ghost use Rattle.xn_inode.specs.Frames.{StoreStays};
ghost use Rattle.xn_dir.specs.Faults.{IsHashedFault};
ghost use Rattle.xn_dir.specs.Finding.{Finds, named};
ghost use Rattle.xn_dir.specs.Hashed.{BreaksAtLeaf, HasDotdotFirst, IsDirFork, LeadsElsewhere, StandsIn, dir_fork};

use crate::data::{data_block, take_dots};
use crate::entry::Entry;
use crate::index::standing_at;
use crate::leaves::with_hash;
use crate::sizes::BLOCK_BYTES;
use std::alloc::Global;
use xn_bytes::{Name, name_hash};
use xn_data::DataEntry;
use xn_datree::Fork;
use xn_inode::{ForkFault, Store, Super};
use xn_leaf::HashAt;

/// Addresses count 8 bytes each, 512 a data block.
const ADDRESSES: u64 = 512;

/// The entry of a name in a directory in leaf or node form. What lies beside the way is not looked at.
pub(crate) fn lookup<S: Store>(
    alloc: Global,
    store: &mut S,
    fork: &Fork,
    name: &Name,
) -> Result<Option<Entry>, ForkFault>
    requires whole { S.IsWhole store.old }
    requires blocks { AreBlocks (S.shape store.old) fork.now.extents }
    requires fork { IsDirFork fork.now }
    ensures there { IfOk result (λ found. IfSome found (λ entry. IfSome (S.image store.old) (λ x. StandsIn (dir_fork (S.shape store.old) fork.now x) (named name.now entry)))) }
    ensures found { IfOk result (λ found. IfSome (S.image store.old) (λ x. (entries : List held.Entry) (dotdot : ℕ) → HoldsHashed (dir_fork (S.shape store.old) fork.now x) entries dotdot → Finds name.now entries found)) }
    ensures fault { IfErr result (IsHashedFault S.Store (λ x. FailsHashed (dir_fork (S.shape store.old) fork.now x)) store.old store.new) }
    ensures stays { StoreStays S.Store store.old store.new }
    ensures fetches { IfSome (S.image store.old) (λ x. (cost : ℕ) → IsHashCost (dir_fork (S.shape store.old) fork.now x) (name_hash_of name.now) cost → S.fetches store.new ≤ S.fetches store.old + cost) }
    ensures most { S.fetches store.new ≤ S.fetches store.old + hash_most fork.now.extents }
{
    let leaves = with_hash(alloc, store, fork, name_hash(name.bytes()))?;
    find_among(store, fork, &leaves, name)
}

/// The dotdot of a directory in leaf or node form: rule 17 of its first data block.
pub(crate) fn parent<S: Store>(store: &mut S, fork: &Fork) -> Result<u64, ForkFault>
    requires whole { S.IsWhole store.old }
    requires blocks { AreBlocks (S.shape store.old) fork.now.extents }
    ensures dotdot { IfOk result (λ dotdot. IfSome (S.image store.old) (λ x. HasDotdotFirst (dir_fork (S.shape store.old) fork.now x) dotdot)) }
    ensures fault { IfErr result (IsHashedFault S.Store (λ x rule block. (rule ≡ 17) × FailsData (dir_fork (S.shape store.old) fork.now x) 0 block) store.old store.new) }
    ensures stays { StoreStays S.Store store.old store.new }
    ensures fetches { S.fetches store.new ≤ S.fetches store.old + 1 }
{
    let Some(block) = fork.extents.block_at(0) else {
        return Err(ForkFault::of_rule(17));
    };
    let mut bytes = [0; BLOCK_BYTES];
    store.block(block, &mut bytes)?;
    match dotdot_in(store.geometry(), fork.owner, block, &bytes) {
        Some(dotdot) => Ok(dotdot),
        None => Err(ForkFault::Broken { rule: 17, block }),
    }
}

/// The dotdot of the first data block that stands in these bytes; None where none does.
fn dotdot_in(geometry: &Super, dir: u64, block: u64, bytes: &[u8]) -> Option<u64>
    requires size { length bytes.now ≡ 4096 }
    requires place { IsBlock geometry.now block }
    ensures { MatchOption result
        ((form : DataForm) (front : List held.Entry) (dotdot : ℕ) → IsDataBlockOf geometry.now dir false block bytes.now form → ¬ HasDots (entries_among form.regions) front dotdot)
        (λ dotdot. (form : DataForm) × (front : List held.Entry) × IsDataBlockOf geometry.now dir false block bytes.now form × HasDots (entries_among form.regions) front dotdot) }
{
    let held = data_block(geometry, dir, block, bytes)?;
    take_dots(&mut held.entries())
}

/// The entry of a name among those to which leaf entries lead.
pub(crate) fn find_among<S: Store>(
    store: &mut S,
    fork: &Fork,
    leaves: &[HashAt],
    name: &Name,
) -> Result<Option<Entry>, ForkFault>
    requires whole { S.IsWhole store.old }
    requires blocks { AreBlocks (S.shape store.old) fork.now.extents }
    ensures there { IfOk result (λ found. IfSome found (λ entry. IfSome (S.image store.old) (λ x. StandsIn (dir_fork (S.shape store.old) fork.now x) (named name.now entry)))) }
    ensures none { IfOk result (λ found. found ≡ None → IfSome (S.image store.old) (λ x. All (LeadsElsewhere (dir_fork (S.shape store.old) fork.now x) name.now) leaves.now)) }
    ensures fault { IfErr result (IsHashedFault S.Store (λ x rule block. (leaf : LeafEntry) × Contains leaves.now leaf × BreaksAtLeaf (dir_fork (S.shape store.old) fork.now x) leaf rule block) store.old store.new) }
    ensures stays { StoreStays S.Store store.old store.new }
    ensures fetches { S.fetches store.new ≤ S.fetches store.old + length leaves.now }
{
    for leaf in leaves {
        if let Some(entry) = follow(store, fork, *leaf, name)? {
            return Ok(Some(entry));
        }
    }
    Ok(None)
}

/// The entry to which a leaf entry leads, where it has the name.
fn follow<S: Store>(
    store: &mut S,
    fork: &Fork,
    leaf: HashAt,
    name: &Name,
) -> Result<Option<Entry>, ForkFault>
    requires whole { S.IsWhole store.old }
    requires blocks { AreBlocks (S.shape store.old) fork.now.extents }
    ensures there { IfOk result (λ found. IfSome found (λ entry. IfSome (S.image store.old) (λ x. StandsIn (dir_fork (S.shape store.old) fork.now x) (named name.now entry)))) }
    ensures none { IfOk result (λ found. found ≡ None → IfSome (S.image store.old) (λ x. LeadsElsewhere (dir_fork (S.shape store.old) fork.now x) name.now leaf)) }
    ensures fault { IfErr result (IsHashedFault S.Store (λ x. BreaksAtLeaf (dir_fork (S.shape store.old) fork.now x) leaf) store.old store.new) }
    ensures stays { StoreStays S.Store store.old store.new }
    ensures fetches { S.fetches store.new ≤ S.fetches store.old + 1 }
{
    let number = number_of(leaf);
    let Some(block) = fork.extents.block_at(number) else {
        return Err(ForkFault::of_rule(19));
    };
    let mut bytes = [0; BLOCK_BYTES];
    store.block(block, &mut bytes)?;
    let Some(held) = data_block(store.geometry(), fork.owner, block, &bytes) else {
        return Err(ForkFault::Broken { rule: 17, block });
    };
    let Some(entry) = standing_at(&held, place_of(leaf)) else {
        return Err(ForkFault::of_rule(19));
    };
    if entry.name == name.bytes() {
        Ok(Some(placed_entry(number, &entry)))
    } else {
        Ok(None)
    }
}

/// The number of the data block of a leaf entry's address.
fn number_of(leaf: HashAt) -> u64
    ensures number { result ≡ leaf.address / 512 }
    ensures small { result < leaf_file_block }
{
    u64::from(leaf.address) / ADDRESSES
}

/// The place in this block.
fn place_of(leaf: HashAt) -> u64
    ensures { result ≡ leaf.address % 512 * 8 }
{
    u64::from(leaf.address) % ADDRESSES * 8
}

/// An entry of a data block, by its position in the directory's data.
fn placed_entry(number: u64, entry: &DataEntry<'_>) -> Entry
    requires number { number < leaf_file_block }
    requires position { entry.now.position < 4096 }
    ensures { result ≡ record { ino = entry.now.ino; kind = entry.now.kind; position = 4096 * number + entry.now.position } }
{
    Entry {
        ino: entry.ino,
        kind: entry.kind,
        position: BLOCK_BYTES as u64 * number + entry.position,
    }
}
