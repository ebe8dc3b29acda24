//! Rule 17: the data blocks of a directory in leaf or node form, and what the rules behind it need of them.

ghost use Rattle.std.specs.Prelude.{◌≡◌, ◌+◌, ◌++◌, ◌*◌, ◌<◌, ◌≤◌, ℕ, List, [], All, IfErr, IfOk, IfSome, MatchResult, OnOk, Some, flat_map, map, false, true};
ghost use Rattle.xn_bytes.specs.Extents.{mapped};
ghost use Rattle.xn_bytes.specs.Trees.{AreBlocks};
ghost use Rattle.xn_bytes.specs.Names.{IsName};
ghost use Rattle.xn_bytes.specs.Entries.{Entry};
ghost use Rattle.xn_bytes.specs.DataBlock.{DataForm, DataHolds};
ghost use Rattle.xn_bytes.specs.HashedTree.{leaf_file_block};
ghost use Rattle.xn_bytes.specs.DirectoryForms.{leaf_of as hash_and_address};
ghost use Rattle.xn_bytes.specs.DirectoryRules.{BreaksData, FailsData};
ghost use Rattle.xn_bytes.specs.LeafForms.{HasData, IsPlaced, Placed, all_entries, entries_placed, placed_in, with_first};
ghost use Rattle.xn_data.specs.Viewed.{entry_of as read_as};
ghost use Rattle.xn_inode.specs.Frames.{StoreStays};
ghost use Rattle.xn_inode.specs.declared.fork_fault.ForkFault.TheVariants.{Memory};
ghost use Rattle.xn_inode.specs.Faults.{IsRule};
ghost use Rattle.xn_dir.specs.Faults.{IsHashedFault};
ghost use Rattle.xn_dir.specs.Gathering.{Adds, FetchesBelow, FetchesData, Gathers, GathersBelow, Lists};
ghost use Rattle.xn_dir.specs.Hashed.{dir_fork};
ghost use Rattle.xn_dir.specs.Listings.{entry_of, name_of};
ghost use Rattle.xn_dir.specs.Repeats.{HaveHashes};

use crate::bests::Best;
use crate::data::{data_block, take_dots};
use crate::listing::{Listed, entry_to_list};
use crate::sizes::{BLOCK_BYTES, LEAF_FILE_BLOCK};
use std::alloc::{AllocError, Global};
use xn_bytes::name_hash;
use xn_data::{DataBlock, DataEntries, DataEntry};
use xn_datree::Fork;
use xn_inode::{ForkFault, Store};
use xn_leaf::HashAt;

/// What the data blocks of a directory in leaf or node form were read to hold.
#[derive(Drop)]
pub(crate) struct Gathered {
    /// The entries but dot and dotdot, as far as each has a name.
    pub(crate) listed: Vec<Listed>,
    /// Whether each of them has a name.
    pub(crate) are_names: bool,
    /// The leaf entries that the entries ask for, those of dot and dotdot among them.
    pub(crate) leaves: Vec<HashAt>,
    /// The bests of the data blocks.
    pub(crate) bests: Vec<Best>,
}

/// Reads all data blocks in the order of their numbers. It reads none twice.
pub(crate) fn gather<S: Store>(
    alloc: Global,
    store: &mut S,
    fork: &Fork,
) -> Result<Gathered, ForkFault>
    requires whole { S.IsWhole store.old }
    requires blocks { AreBlocks (S.shape store.old) fork.now.extents }
    ensures holds { IfOk result (λ gathered. IfSome (S.image store.old) (λ x. (first : DataForm) × (others : List Placed) × (front : List Entry) × (dotdot : ℕ) × HasData (dir_fork (S.shape store.old) fork.now x) first others front dotdot × Gathers gathered (front ++ flat_map entries_placed others) (all_entries first others) (with_first first others))) }
    ensures names { IfOk result (λ gathered. gathered.are_names ≡ true → All (λ entry. IsName entry.name) (map entry_of gathered.listed.items)) }
    ensures hashes { IfOk result (λ gathered. gathered.are_names ≡ true → HaveHashes gathered.leaves.items (map name_of gathered.listed.items)) }
    ensures fault { IfErr result (IsHashedFault S.Store (λ x rule block. (rule ≡ 17) × BreaksData (dir_fork (S.shape store.old) fork.now x) block) store.old store.new) }
    ensures stays { StoreStays S.Store store.old store.new }
    ensures fetches { FetchesData fork.now.extents (S.fetches store.old) (S.fetches store.new) }
{
    let mut gathered = gather_first(alloc, store, fork)?;
    let mut from = 1;
    while let Some((number, block)) = fork.extents.next_mapped(from, LEAF_FILE_BLOCK) {
        gather_next(alloc, store, fork, number, block, &mut gathered)?;
        from = number + 1;
    }
    Ok(gathered)
}

/// Reads the first data block, with dot and dotdot in front.
fn gather_first<S: Store>(alloc: Global, store: &mut S, fork: &Fork) -> Result<Gathered, ForkFault>
    requires whole { S.IsWhole store.old }
    requires blocks { AreBlocks (S.shape store.old) fork.now.extents }
    ensures holds { IfOk result (GathersBelow (S.shape store.old) fork.now (S.image store.old) 1) }
    ensures fault { IfErr result (IsHashedFault S.Store (λ x rule block. (rule ≡ 17) × FailsData (dir_fork (S.shape store.old) fork.now x) 0 block) store.old store.new) }
    ensures stays { StoreStays S.Store store.old store.new }
    ensures fetches { FetchesBelow fork.now.extents 1 (S.fetches store.old) (S.fetches store.new) }
{
    let Some(block) = fork.extents.block_at(0) else {
        return Err(no_data_block(0));
    };
    let mut bytes = [0; BLOCK_BYTES];
    store.block(block, &mut bytes)?;
    let Some(held) = data_block(store.geometry(), fork.owner, block, &bytes) else {
        return Err(no_data_block(block));
    };
    let mut entries = held.entries();
    let Some(_) = take_dots(&mut entries) else {
        return Err(no_data_block(block));
    };
    let mut gathered = nothing(alloc);
    add(alloc, &mut gathered, 0, &held, entries)?;
    Ok(gathered)
}

/// Reads another data block, which goes behind those that were read.
fn gather_next<S: Store>(
    alloc: Global,
    store: &mut S,
    fork: &Fork,
    number: u64,
    block: u64,
    gathered: &mut Gathered,
) -> Result<(), ForkFault>
    requires whole { S.IsWhole store.old }
    requires blocks { AreBlocks (S.shape store.old) fork.now.extents }
    requires number { number < leaf_file_block }
    requires there { mapped fork.now.extents number ≡ Some block }
    ensures holds { OnOk result ((form : DataForm) × Adds gathered.old gathered.new (record { number = number; form = form }) (entries_placed (record { number = number; form = form })) × IfSome (S.image store.old) (λ x. IsPlaced (dir_fork (S.shape store.old) fork.now x) (record { number = number; form = form }))) }
    ensures fault { IfErr result (IsHashedFault S.Store (λ x rule named. (rule ≡ 17) × FailsData (dir_fork (S.shape store.old) fork.now x) number named) store.old store.new) }
    ensures stays { StoreStays S.Store store.old store.new }
    ensures fetches { S.fetches store.new ≤ S.fetches store.old + 1 }
{
    let mut bytes = [0; BLOCK_BYTES];
    store.block(block, &mut bytes)?;
    let Some(held) = data_block(store.geometry(), fork.owner, block, &bytes) else {
        return Err(no_data_block(block));
    };
    add(alloc, gathered, number, &held, held.entries())
}

/// Rule 17 is broken at a block, 0 where none is mapped.
fn no_data_block(block: u64) -> ForkFault
    ensures { result ≡ ForkFault.Broken 17 block }
{
    ForkFault::Broken { rule: 17, block }
}

/// What was gathered of no data block.
fn nothing(alloc: Global) -> Gathered
    ensures { Gathers result [] [] [] }
{
    Gathered {
        listed: Vec::new(alloc),
        are_names: true,
        leaves: Vec::new(alloc),
        bests: Vec::new(alloc),
    }
}

/// Adds what a data block holds, and lists these of its entries.
fn add(
    alloc: Global,
    gathered: &mut Gathered,
    number: u64,
    held: &DataBlock<'_>,
    listed: DataEntries<'_>,
) -> Result<(), ForkFault>
    requires number { number < leaf_file_block }
    requires holds { (bytes : List ℕ) × DataHolds bytes held.now }
    requires listed { All (λ entry. entry.position < 4096) listed }
    ensures holds { OnOk result (Adds gathered.old gathered.new (record { number = number; form = held.now }) (map (placed_in number) listed.entry)) }
    ensures fault { IfErr result (λ fault. fault ≡ Memory) }
{
    if gathered.are_names {
        gathered.are_names = add_listed(alloc, &mut gathered.listed, number, listed)?;
    }
    add_leaves(&mut gathered.leaves, number, held.entries())?;
    gathered.bests.push(Best {
        number,
        best: held.largest_free() as u16,
    })?;
    Ok(())
}

/// Lists the entries of a data block, as long as each has a name, and answers whether all have one.
fn add_listed(
    alloc: Global,
    listed: &mut Vec<Listed>,
    number: u64,
    entries: DataEntries<'_>,
) -> Result<bool, ForkFault>
    requires number { number < leaf_file_block }
    requires placed { All (λ entry. entry.position < 4096) entries }
    ensures lists { IfOk result (λ are_names. Lists listed.old.items listed.new.items are_names (map (placed_in number) entries.entry)) }
    ensures fault { IfErr result (λ fault. fault ≡ Memory) }
{
    for entry in entries {
        match listed_at(alloc, number, &entry) {
            Ok(one) => listed.push(one)?,
            Err(fault) => return not_listed(fault),
        }
    }
    Ok(true)
}

/// An entry of a data block, to be listed.
fn listed_at(alloc: Global, number: u64, entry: &DataEntry<'_>) -> Result<Listed, ForkFault>
    requires number { number < leaf_file_block }
    requires position { entry.now.position < 4096 }
    ensures { MatchResult result
        (λ listed. (entry_of listed ≡ placed_in number (read_as entry.now)) × IsName entry.now.name.now)
        (IsRule 21 (IsName entry.now.name.now)) }
{
    entry_to_list(
        alloc,
        entry.name,
        entry.ino,
        entry.kind,
        position_in(number, entry.position),
    )
}

/// What is answered for an entry that is not listed: that it has no name, unless memory ran out.
fn not_listed(fault: ForkFault) -> Result<bool, ForkFault>
    ensures { (name : List ℕ) → IsRule 21 (IsName name) fault → MatchResult result (λ are_names. (are_names ≡ false) × ¬ IsName name) (λ fault. fault ≡ Memory) }
{
    match fault {
        ForkFault::Broken { .. } => Ok(false),
        other => Err(other),
    }
}

/// A position in the directory's data, by the place in a data block.
fn position_in(number: u64, place: u64) -> u64
    requires number { number < leaf_file_block }
    requires place { place < 4096 }
    ensures { result ≡ 4096 * number + place }
{
    BLOCK_BYTES as u64 * number + place
}

/// Adds the leaf entries of a data block's entries.
fn add_leaves(
    leaves: &mut Vec<HashAt>,
    number: u64,
    entries: DataEntries<'_>,
) -> Result<(), AllocError>
    requires number { number < leaf_file_block }
    requires placed { All (λ entry. entry.position < 4096) entries }
    ensures { OnOk result (leaves.new.items ≡ leaves.old.items ++ map hash_and_address (map (placed_in number) entries.entry)) }
{
    for entry in entries {
        leaves.push(leaf_of(number, &entry))?;
    }
    Ok(())
}

/// The leaf entry of an entry of a data block.
fn leaf_of(number: u64, entry: &DataEntry<'_>) -> HashAt
    requires number { number < leaf_file_block }
    requires position { entry.now.position < 4096 }
    ensures { result ≡ hash_and_address (placed_in number (read_as entry.now)) }
{
    HashAt {
        hash: name_hash(entry.name),
        address: (position_in(number, entry.position) / 8) as u32,
    }
}
