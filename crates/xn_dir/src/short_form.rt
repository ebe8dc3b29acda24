//! Directories in short form: the entries stand in the inode.

ghost use Rattle.std.specs.Prelude.{◌≡◌, ℕ, List, All, Some, IfSome, IfOk, IfErr, MatchResult, map};
ghost use Rattle.xn_bytes.specs.Names.{IsName};
ghost use Rattle.xn_bytes.specs.Inode.{HasForks, CoreHolds, local_format};
ghost use Rattle.xn_bytes.specs.Numbers.{number_at};
ghost use Rattle.xn_bytes.specs.Entries as held;
ghost use Rattle.xn_bytes.specs.ShortDirectory.{ShortForm, ShortHolds};
ghost use Rattle.xn_bytes.specs.Directory.{HasShortSize, short_bytes_of, HasNames};
ghost use Rattle.xn_bytes.specs.DirectoryForms.{HoldsShort};
ghost use Rattle.xn_inode.specs.Faults.{IsRule};
ghost use Rattle.xn_dir.specs.Faults.{IsShortFault};
ghost use Rattle.xn_dir.specs.Listings.{entry_of};
ghost use Rattle.xn_dir.specs.Finding.{Finds};

use crate::entry::Entry;
use crate::listing::{Listed, check_once, entry_to_list};
use std::alloc::Global;
use xn_bytes::Name;
use xn_inode::{Core, ForkFault};
use xn_short::Short;

/// The entries of a directory in short form, with their names.
pub(crate) fn list(alloc: Global, core: &Core, inode: &[u8]) -> Result<Vec<Listed>, ForkFault>
    requires core { CoreHolds inode.now core.now }
    requires forks { HasForks inode.now }
    requires form { number_at 1 5 inode.now ≡ local_format }
    ensures holds { IfOk result (λ listed. (dotdot : ℕ) × HoldsShort inode.now (map entry_of listed.items) dotdot) }
    ensures names { IfOk result (λ listed. HasNames (map entry_of listed.items)) }
    ensures fault { IfErr result (IsShortFault inode.now) }
{
    let short = short_of(core, inode)?;
    let listed = entries_of(alloc, &short)?;
    check_once(alloc, &listed)?;
    Ok(listed)
}

/// The entry of a name in a directory in short form.
pub(crate) fn lookup(core: &Core, inode: &[u8], name: &Name) -> Result<Option<Entry>, ForkFault>
    requires core { CoreHolds inode.now core.now }
    requires forks { HasForks inode.now }
    ensures stands { IfOk result (λ found. (form : ShortForm) × HasShortSize inode.now × ShortHolds (short_bytes_of inode.now) form × Finds name.now form.entries found) }
    ensures fault { IfErr result (IsShortFault inode.now) }
{
    let short = short_of(core, inode)?;
    match short.find(name.bytes()) {
        Some(entry) => Ok(Some(Entry {
            ino: entry.ino,
            kind: entry.kind,
            position: entry.position,
        })),
        None => Ok(None),
    }
}

/// The dotdot of a directory in short form.
pub(crate) fn parent(core: &Core, inode: &[u8]) -> Result<u64, ForkFault>
    requires core { CoreHolds inode.now core.now }
    requires forks { HasForks inode.now }
    requires form { number_at 1 5 inode.now ≡ local_format }
    ensures holds { IfOk result (λ dotdot. (entries : List held.Entry) × HoldsShort inode.now entries dotdot) }
    ensures fault { IfErr result (IsShortFault inode.now) }
{
    Ok(short_of(core, inode)?.parent())
}

/// Rules 15 and 16: the form that the inode's bytes spell.
fn short_of<'a>(core: &Core, inode: &'a [u8]) -> Result<Short<'a>, ForkFault>
    requires core { CoreHolds inode.now core.now }
    requires forks { HasForks inode.now }
    ensures form { IfOk result (λ short. HasShortSize inode.now × ShortHolds (short_bytes_of inode.now) short) }
    ensures fault { IfErr result (IsShortFault inode.now) }
{
    let fork = core.data_fork(inode);
    let size = core.size();
    if size > fork.len() as u64 {
        return Err(ForkFault::of_rule(15));
    }
    match Short::read(&fork[..size as usize]) {
        Ok(short) => Ok(short),
        Err(_) => Err(ForkFault::of_rule(16)),
    }
}

/// The entries with their names, of which each has one.
fn entries_of(alloc: Global, short: &Short<'_>) -> Result<Vec<Listed>, ForkFault>
    ensures { MatchResult result
        (λ listed. (map entry_of listed.items ≡ short.now.entries) × All (λ entry. IsName entry.name) short.now.entries)
        (IsRule 21 (All (λ entry. IsName entry.name) short.now.entries)) }
{
    let mut listed = Vec::new(alloc);
    for entry in short.entries() {
        let entry = entry_to_list(alloc, entry.name, entry.ino, entry.kind, entry.position)?;
        listed.push(entry)?;
    }
    Ok(listed)
}
