//! Rule 20: the bests of data blocks, behind the single leaf's entries or in free-index blocks.

ghost use Rattle.std.specs.Prelude.{◌≡◌, ◌↔◌, ◌+◌, ◌/◌, ◌≤◌, ℕ, List, All, IsTrue, IsSome, IfErr, IfOk, IfSome, Some, length, map, nat_lt, slice_get, unwrap_or};
ghost use Rattle.xn_bytes.specs.Causes.{Rose};
ghost use Rattle.xn_bytes.specs.Superblock.{IsBlock};
ghost use Rattle.xn_bytes.specs.Blocks.{block_of};
ghost use Rattle.xn_bytes.specs.Extents.{mapped};
ghost use Rattle.xn_bytes.specs.Trees.{AreBlocks};
ghost use Rattle.xn_bytes.specs.HashedTree.{best_at, free_file_block, no_best};
ghost use Rattle.xn_bytes.specs.DirectoryForms.{IsGreatestData};
ghost use Rattle.xn_bytes.specs.LeafForms.{AreData, DirFork, HasFreeIndexes, HasLeafBests, Placed};
ghost use Rattle.xn_inode.specs.Frames.{StoreStays};
ghost use Rattle.xn_inode.specs.declared.store.StoreFault.TheVariants.{Read};
ghost use Rattle.xn_inode.specs.declared.fork_fault.ForkFault.TheVariants.{Memory};
ghost use Rattle.xn_dir.specs.Blocks.{fork_over};
ghost use Rattle.xn_dir.specs.Bests.{AreNoted, AreRising, FetchesFree, HasNoted, IsNotedIndex, IsOwnFree, noted as noted_of, noted_at, noted_for};

use crate::sizes::{BLOCK_BYTES, FREE_FILE_BLOCK};
use xn_bytes::u32_at;
use xn_inode::{Extents, Store, StoreFault, Super};
use xn_leaf::FreeIndex;

/// The best of a number that has no data block.
const NO_BEST: u16 = 0xffff;

/// How many data blocks a free-index block has bests of.
const BESTS: u64 = 2016;

/// The place in a free-index block of its first number.
const FIRST: usize = 48;

/// The best of a data block, with the block's number in the file.
#[derive(Clone, Copy, Debug, PartialEq, Eq)]
pub(crate) struct Best {
    pub(crate) number: u64,
    pub(crate) best: u16,
}

/// What is noted of a number.
fn best_of(noted: &[Best], number: u64) -> Option<u16>
    ensures { AreRising noted.now → result ≡ noted_for number noted.now }
{
    let best = noted.get(place(noted, number))?;
    if best.number == number {
        Some(best.best)
    } else {
        None
    }
}

/// The index of the first that is not below a number, or past the last.
fn place(noted: &[Best], number: u64) -> usize
    ensures { AreRising noted.now → noted_for number noted.now ≡ noted_at number (slice_get noted.now result) }
{
    noted.partition_point(
        |best: &Best| -> bool
            ensures { result ≡ nat_lt best.now.number number }
        { best.number < number },
    )
}

/// Whether the bests that stand behind the entries of the single leaf are those of all numbers from 0 to the last.
pub(crate) fn are_leaf_bests(last: u64, noted: &[Best], bests: &[u16]) -> bool
    ensures { AreRising noted.now → IsTrue result ↔ AreNoted last noted.now bests.now }
{
    if bests.is_empty() || bests.len() as u64 - 1 != last {
        return false;
    }
    for number in 0..bests.len() {
        if bests[number] != tail_best(noted, number as u64) {
            return false;
        }
    }
    true
}

/// The best of a number as the single leaf has it.
fn tail_best(noted: &[Best], number: u64) -> u16
    ensures { AreRising noted.now → result ≡ unwrap_or (noted_for number noted.now) no_best }
{
    best_of(noted, number).unwrap_or(NO_BEST)
}

/// Whether each free-index block that is mapped is right, and that of each data block is mapped. It reads none twice.
pub(crate) fn has_free_indexes<S: Store>(
    store: &mut S,
    dir: u64,
    extents: &Extents,
    noted: &[Best],
) -> Result<bool, StoreFault>
    requires whole { S.IsWhole store.old }
    requires blocks { AreBlocks (S.shape store.old) extents.now }
    ensures right { IfOk result (λ right. IfSome (S.image store.old) (λ x. (data_blocks : List Placed) → AreData (fork_over (S.shape store.old) dir extents.now x) data_blocks → map noted_of data_blocks ≡ noted.now → IsTrue right ↔ HasFreeIndexes (fork_over (S.shape store.old) dir extents.now x) data_blocks)) }
    ensures cause { IfErr result (λ fault. fault ≡ Read → Rose (S.faults store.old) (S.faults store.new)) }
    ensures stays { StoreStays S.Store store.old store.new }
    ensures fetches { FetchesFree extents.now (S.fetches store.old) (S.fetches store.new) }
{
    if !are_mapped(extents, noted) {
        return Ok(false);
    }
    are_free_indexes(store, dir, extents, noted)
}

/// Whether the free-index block of each data block is mapped.
fn are_mapped(extents: &Extents, noted: &[Best]) -> bool
    ensures { IsTrue result ↔ All (λ best. IsSome (mapped extents.now (free_file_block + best.number / 2016))) noted.now }
{
    noted.iter().all(|best| extents
        .block_at(FREE_FILE_BLOCK + best.number / BESTS)
        .is_some())
}

/// Whether each free-index block that is mapped is right.
fn are_free_indexes<S: Store>(
    store: &mut S,
    dir: u64,
    extents: &Extents,
    noted: &[Best],
) -> Result<bool, StoreFault>
    requires whole { S.IsWhole store.old }
    requires blocks { AreBlocks (S.shape store.old) extents.now }
    ensures right { IfOk result (λ right. IfSome (S.image store.old) (λ x. AreRising noted.now → IsTrue right ↔ ((index block : ℕ) → mapped extents.now (free_file_block + index) ≡ Some block → IsNotedIndex (S.shape store.old) dir noted.now index block (block_of (S.shape store.old) x block)))) }
    ensures cause { IfErr result (λ fault. fault ≡ Read → Rose (S.faults store.old) (S.faults store.new)) }
    ensures stays { StoreStays S.Store store.old store.new }
    ensures fetches { FetchesFree extents.now (S.fetches store.old) (S.fetches store.new) }
{
    let end = extents.end();
    let mut from = FREE_FILE_BLOCK;
    while let Some((file_block, block)) = extents.next_mapped(from, end) {
        if !is_free_index(store, dir, block, file_block - FREE_FILE_BLOCK, noted)? {
            return Ok(false);
        }
        from = file_block + 1;
    }
    Ok(true)
}

/// Whether a block is the free-index block of an index.
fn is_free_index<S: Store>(
    store: &mut S,
    dir: u64,
    block: u64,
    index: u64,
    noted: &[Best],
) -> Result<bool, StoreFault>
    requires whole { S.IsWhole store.old }
    requires place { IsBlock (S.shape store.old) block }
    ensures right { IfOk result (λ right. IfSome (S.image store.old) (λ x. AreRising noted.now → IsTrue right ↔ IsNotedIndex (S.shape store.old) dir noted.now index block (block_of (S.shape store.old) x block))) }
    ensures cause { IfErr result (λ fault. fault ≡ Read → Rose (S.faults store.old) (S.faults store.new)) }
    ensures stays { StoreStays S.Store store.old store.new }
    ensures fetches { S.fetches store.new ≤ S.fetches store.old + 1 }
{
    let mut bytes = [0; BLOCK_BYTES];
    store.block(block, &mut bytes)?;
    Ok(is_index_in(store.geometry(), dir, block, &bytes, index, noted))
}

/// Whether bytes are the free-index block of an index.
fn is_index_in(
    geometry: &Super,
    dir: u64,
    block: u64,
    bytes: &[u8],
    index: u64,
    noted: &[Best],
) -> bool
    requires size { length bytes.now ≡ 4096 }
    requires place { IsBlock geometry.now block }
    ensures { AreRising noted.now → IsTrue result ↔ IsNotedIndex geometry.now dir noted.now index block bytes.now }
{
    let Ok(free) = FreeIndex::read(bytes) else {
        return false;
    };
    is_own(geometry, dir, block, &free)
        && free.index() == index
        && has_noted(&free, u32_at(bytes, FIRST), noted)
}

/// Whether a free-index block is in the place that it names, with the filesystem's uuid and its owner.
fn is_own(geometry: &Super, dir: u64, block: u64, free: &FreeIndex<'_>) -> bool
    requires place { IsBlock geometry.now block }
    ensures { IsTrue result ↔ IsOwnFree geometry.now dir block free.now }
{
    free.place() == geometry.sector_of_block(block)
        && free.owner() == dir
        && free.uuid() == geometry.meta_uuid().as_slice()
}

/// Whether the bests of a free-index block are what is noted of as many numbers from the first on.
fn has_noted(free: &FreeIndex<'_>, first: u32, noted: &[Best]) -> bool
    ensures { AreRising noted.now → IsTrue result ↔ HasNoted first noted.now free.now.bests }
{
    for slot in 0..BESTS {
        if !is_noted(free, slot, noted, u64::from(first) + slot) {
            return false;
        }
    }
    true
}

/// Whether the best of a slot is what is noted of a number.
fn is_noted(free: &FreeIndex<'_>, slot: u64, noted: &[Best], number: u64) -> bool
    ensures { AreRising noted.now → IsTrue result ↔ (best_at free.now.bests slot ≡ noted_for number noted.now) }
{
    free.best(slot) == best_of(noted, number)
}
