//! The leaf entries of a directory in block form, against its entries.

ghost use Rattle.std.specs.Prelude.{◌≡◌, ◌↔◌, ℕ, List, Contains, None, Some, IsTrue, IfSome, MatchOption, IfOk, IfErr};
ghost use Rattle.xn_bytes.specs.Entries as held;
ghost use Rattle.xn_bytes.specs.DataBlock.{entries_among};
ghost use Rattle.xn_bytes.specs.DirectoryForms.{AreSorted, HasTail, HasDots, IsIndexOf, leaf_of};
ghost use Rattle.xn_data.specs.Standing.{ArePlaced};
ghost use Rattle.xn_data.specs.Viewed.{entry_of};
ghost use Rattle.xn_dir.specs.Faults.{IsIndexFault};
ghost use Rattle.xn_dir.specs.Finding.{HasPlace, AllMiss, Finds};

use crate::entry::Entry;
use xn_bytes::{Name, name_hash};
use xn_data::{DataBlock, DataEntry};
use xn_inode::ForkFault;

/// Rule 18: whether the leaf entries are sorted by hash, and as many of them are stale as the block says.
pub(crate) fn has_tail(first: &DataBlock<'_>) -> bool
    ensures { IsTrue result ↔ HasTail first.now }
{
    let mut least = 0;
    let mut stale = first.stale();
    for (hash, address) in first.tail() {
        if hash < least {
            return false;
        }
        least = hash;
        if address == 0 {
            if stale == 0 {
                return false;
            }
            stale -= 1;
        }
    }
    stale == 0
}

/// Rule 19: whether the leaf entries that are not stale are those of the entries.
pub(crate) fn is_indexed(first: &DataBlock<'_>) -> bool
    requires tail { HasTail first.now }
    requires placed { ArePlaced 64 4096 (entries_among first.now.regions) }
    ensures { IsTrue result ↔ IsIndexOf first.now.leaves (entries_among first.now.regions) }
{
    let mut live = first.leaf_count() - first.stale() as usize;
    for entry in first.entries() {
        if live == 0 || !has_leaf(first, &entry) {
            return false;
        }
        live -= 1;
    }
    live == 0
}

/// Whether an entry's leaf entry is among the block's.
fn has_leaf(first: &DataBlock<'_>, entry: &DataEntry<'_>) -> bool
    requires sorted { AreSorted first.now.leaves }
    ensures { IsTrue result ↔ Contains first.now.leaves (leaf_of (entry_of entry.now)) }
{
    for (_, address) in first.tail_with_hash(name_hash(entry.name)) {
        if u64::from(address) == entry.position / 8 {
            return true;
        }
    }
    false
}

/// The entry of a name, by the leaf entries of its hash. Where one of them leads to no entry, a rule is broken; of rule 18
/// the block is named.
pub(crate) fn find(
    first: &DataBlock<'_>,
    block: u64,
    name: &Name,
) -> Result<Option<Entry>, ForkFault>
    requires placed { ArePlaced 64 4096 (entries_among first.now.regions) }
    ensures there { IfOk result (λ found. IfSome found (λ entry. (entries : List held.Entry) (dotdot : ℕ) → HasDots (entries_among first.now.regions) entries dotdot → Finds name.now entries (Some entry))) }
    ensures none { IfOk result (λ found. found ≡ None → AreSorted first.now.leaves → AllMiss name.now first.now) }
    ensures fault { IfErr result (IsIndexFault block first.now) }
{
    for (_, address) in first.tail_with_hash(name_hash(name.bytes())) {
        if address == 0 {
            continue;
        }
        let Some(entry) = standing_at(first, u64::from(address) * 8) else {
            return Err(index_fault(first, block));
        };
        if entry.name == name.bytes() {
            return Ok(Some(Entry {
                ino: entry.ino,
                kind: entry.kind,
                position: entry.position,
            }));
        }
    }
    Ok(None)
}

/// The entry that stands in a place of the block. It goes over the entries, since bytes within one can look like another.
pub(crate) fn standing_at<'a>(first: &DataBlock<'a>, position: u64) -> Option<DataEntry<'a>>
    ensures { MatchOption result
        (¬ HasPlace (entries_among first.now.regions) position)
        (λ entry. Contains (entries_among first.now.regions) (entry_of entry) × (entry.position ≡ position)) }
{
    for entry in first.entries() {
        if entry.position == position {
            return Some(entry);
        }
    }
    None
}

/// Which rule leaf entries break that are not those of the entries.
fn index_fault(first: &DataBlock<'_>, block: u64) -> ForkFault
    requires { ¬ IsIndexOf first.now.leaves (entries_among first.now.regions) }
    ensures { IsIndexFault block first.now result }
{
    if has_tail(first) {
        ForkFault::of_rule(19)
    } else {
        ForkFault::Broken { rule: 18, block }
    }
}
