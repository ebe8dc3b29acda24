//! Directories in block form: one block holds the entries, and behind them the leaf entries by which they are found.

ghost use Rattle.std.specs.Prelude.{◌≡◌, ◌↔◌, ℕ, List, All, None, Some, IsTrue, IfSome, IfOk, IfErr, MatchOption, MatchResult, length, map};
ghost use Rattle.xn_bytes.specs.Names.{IsName};
ghost use Rattle.xn_bytes.specs.Superblock.{IsBlock, sector_of_block};
ghost use Rattle.xn_bytes.specs.Entries as held;
ghost use Rattle.xn_bytes.specs.DataBlock.{DataForm, DataHolds, entries_among};
ghost use Rattle.xn_bytes.specs.Directory.{HasNames};
ghost use Rattle.xn_bytes.specs.DirectoryForms.{AreSorted, HasDots, HoldsFirst, HasTail, IsIndexOf};
ghost use Rattle.xn_data.specs.Standing.{ArePlaced};
ghost use Rattle.xn_inode.specs.Faults.{IsRule};
ghost use Rattle.xn_dir.specs.Faults.{IsFirstFault};
ghost use Rattle.xn_dir.specs.Listings.{entry_of};
ghost use Rattle.xn_dir.specs.Finding.{AllMiss, StandsInFirst};

use crate::data::{is_own, take_dots};
use crate::entry::Entry;
use crate::index::{find, has_tail, is_indexed};
use crate::listing::{Listed, check_once, entry_to_list};
use std::alloc::Global;
use xn_bytes::Name;
use xn_data::{DataBlock, DataEntries};
use xn_inode::{ForkFault, Super};

/// The first block of a directory in block form: what it holds, its entries behind dot and dotdot, and the dotdot.
#[derive(Debug, Drop)]
struct FirstBlock<'a> {
    held: DataBlock<'a>,
    entries: DataEntries<'a>,
    dotdot: u64,
}

/// The entries of a directory in block form, with their names.
pub(crate) fn list(
    alloc: Global,
    geometry: &Super,
    dir: u64,
    block: u64,
    bytes: &[u8],
) -> Result<Vec<Listed>, ForkFault>
    requires size { length bytes.now ≡ 4096 }
    requires place { IsBlock geometry.now block }
    ensures holds { IfOk result (λ listed. (form : DataForm) × (dotdot : ℕ) × HoldsFirst geometry.now dir block bytes.now form (map entry_of listed.items) dotdot × HasTail form × IsIndexOf form.leaves (entries_among form.regions)) }
    ensures names { IfOk result (λ listed. HasNames (map entry_of listed.items)) }
    ensures fault { IfErr result (IsFirstFault geometry.now dir block bytes.now) }
{
    let first = first_block(geometry, dir, block, bytes)?;
    if !has_tail(&first.held) {
        return Err(ForkFault::Broken { rule: 18, block });
    }
    if !is_indexed(&first.held) {
        return Err(ForkFault::of_rule(19));
    }
    let listed = entries_of(alloc, first.entries)?;
    check_once(alloc, &listed)?;
    Ok(listed)
}

/// The entry of a name in a directory in block form.
pub(crate) fn lookup(
    geometry: &Super,
    dir: u64,
    block: u64,
    bytes: &[u8],
    name: &Name,
) -> Result<Option<Entry>, ForkFault>
    requires size { length bytes.now ≡ 4096 }
    requires place { IsBlock geometry.now block }
    ensures stands { IfOk result (λ found. StandsInFirst geometry.now dir block bytes.now name.now found) }
    ensures none { IfOk result (λ found. found ≡ None → (form : DataForm) → DataHolds bytes.now form → AreSorted form.leaves → AllMiss name.now form) }
    ensures fault { IfErr result (IsFirstFault geometry.now dir block bytes.now) }
{
    let first = first_block(geometry, dir, block, bytes)?;
    find(&first.held, block, name)
}

/// The dotdot of a directory in block form.
pub(crate) fn parent(geometry: &Super, dir: u64, block: u64, bytes: &[u8]) -> Result<u64, ForkFault>
    requires size { length bytes.now ≡ 4096 }
    requires place { IsBlock geometry.now block }
    ensures holds { IfOk result (λ dotdot. (form : DataForm) × (entries : List held.Entry) × HoldsFirst geometry.now dir block bytes.now form entries dotdot) }
    ensures fault { IfErr result (IsFirstFault geometry.now dir block bytes.now) }
{
    Ok(first_block(geometry, dir, block, bytes)?.dotdot)
}

/// Rule 17: the data block of the directory, with dot and dotdot in front.
fn first_block<'a>(
    geometry: &Super,
    dir: u64,
    block: u64,
    bytes: &'a [u8],
) -> Result<FirstBlock<'a>, ForkFault>
    requires size { length bytes.now ≡ 4096 }
    requires place { IsBlock geometry.now block }
    ensures holds { IfOk result (λ first. HoldsFirst geometry.now dir block bytes.now first.held first.entries first.dotdot) }
    ensures placed { IfOk result (λ first. ArePlaced 64 4096 (entries_among first.held.regions)) }
    ensures only { IfOk result (λ first. (form : DataForm) → DataHolds bytes.now form → first.held ≡ form) }
    ensures fault { IfErr result (IsFirstFault geometry.now dir block bytes.now) }
{
    let broken = ForkFault::Broken { rule: 17, block };
    let held = match DataBlock::read(bytes) {
        Ok(held) => held,
        Err(_) => return Err(broken),
    };
    if !is_own(geometry, dir, true, block, &held) {
        return Err(broken);
    }
    let mut entries = held.entries();
    match take_dots(&mut entries) {
        Some(dotdot) => Ok(FirstBlock {
            held,
            entries,
            dotdot,
        }),
        None => Err(broken),
    }
}

/// The entries with their names, of which each has one.
fn entries_of(alloc: Global, entries: DataEntries<'_>) -> Result<Vec<Listed>, ForkFault>
    ensures { MatchResult result
        (λ listed. (map entry_of listed.items ≡ entries.entry) × All (λ entry. IsName entry.name) entries.entry)
        (IsRule 21 (All (λ entry. IsName entry.name) entries.entry)) }
{
    let mut listed = Vec::new(alloc);
    for entry in entries {
        let entry = entry_to_list(alloc, entry.name, entry.ino, entry.kind, entry.position)?;
        listed.push(entry)?;
    }
    Ok(listed)
}
