//! Entries with their names, as a listing has them.

ghost use Rattle.std.specs.Prelude.{◌≡◌, ◌≢◌, ◌∷◌, ◌↔◌, ◌==◌, IsTrue, IfOk, IsPermutation, IsSortedBy, List, OnOk, AllPairs, MatchResult, filter, length, map};
ghost use Rattle.std.specs.List.{AllAdjacentBelow, list_any};
ghost use Rattle.std.specs.List.Sorted.{IsNonDecreasing};
ghost use Rattle.std.specs.Ordering.{nat_cmp};
ghost use Rattle.std.specs.Cmp.Lexicographic.{slice_cmp};
ghost use Rattle.std.specs.declared.cmp.Ordering.TheVariants.{Less};
ghost use Rattle.xn_bytes.specs.Names.{IsName};
ghost use Rattle.xn_bytes.specs.Hashes.{name_hash_of};
ghost use Rattle.xn_bytes.specs.Directory.{HasNames};
ghost use Rattle.xn_bytes.specs.Entries.{Entry};
ghost use Rattle.xn_inode.specs.Faults.{IsRule};
ghost use Rattle.xn_dir.specs.Listings.{entry_of, name_of, AreSorted};
ghost use Rattle.xn_dir.specs.Compare.{comes_before};
ghost use Rattle.xn_dir.specs.Repeats.{AreRepeated, HaveHashes, has_hash_among, hash_of};

use std::alloc::{AllocError, Global};
use std::cmp::Ordering;
use xn_bytes::{Kind, Name, NameFault, name_hash};
use xn_inode::ForkFault;
use xn_leaf::HashAt;

/// An entry of a directory, with its name.
#[derive(Debug, Drop)]
pub struct Listed {
    pub name: Name,
    /// The inode that the name stands for.
    pub ino: u64,
    pub kind: Kind,
    /// The byte position in the directory's data, a multiple of 8.
    pub position: u64,
}

/// An entry as it was read in place, to be listed. Rule 21 is broken where its name is none.
pub(crate) fn entry_to_list(
    alloc: Global,
    name: &[u8],
    ino: u64,
    kind: Kind,
    position: u64,
) -> Result<Listed, ForkFault>
    ensures { MatchResult result
        (λ listed. (entry_of listed ≡ record { name = name.now; ino = ino; kind = kind; position = position }) × IsName name.now)
        (IsRule 21 (IsName name.now)) }
{
    match Name::read(alloc, name) {
        Ok(name) => Ok(Listed {
            name,
            ino,
            kind,
            position,
        }),
        Err(NameFault::Memory) => Err(ForkFault::Memory),
        Err(_) => Err(ForkFault::of_rule(21)),
    }
}

/// Rule 21: each name stands once.
pub(crate) fn check_once(alloc: Global, listed: &[Listed]) -> Result<(), ForkFault>
    ensures { MatchResult result
        (λ _. AllPairs (λ a b. a ≢ b) (map name_of listed.now))
        (IsRule 21 (AllPairs (λ a b. a ≢ b) (map name_of listed.now))) }
{
    if rise(&in_order(names_of(alloc, listed)?)?) {
        Ok(())
    } else {
        Err(ForkFault::of_rule(21))
    }
}

/// The same by leaf entries in order, with those of the names among them. So the names of one hash alone are compared, and
/// the others are not even sorted.
pub(crate) fn check_once_among(
    alloc: Global,
    listed: &[Listed],
    leaves: &[HashAt],
) -> Result<(), ForkFault>
    requires sorted { IsSortedBy comes_before leaves.now }
    requires among { HaveHashes leaves.now (map name_of listed.now) }
    ensures { MatchResult result
        (λ _. AllPairs (λ a b. a ≢ b) (map name_of listed.now))
        (IsRule 21 (AllPairs (λ a b. a ≢ b) (map name_of listed.now))) }
{
    let repeated = repeated_hashes(alloc, leaves)?;
    if rise(&in_order(names_among(alloc, listed, &repeated)?)?) {
        Ok(())
    } else {
        Err(ForkFault::of_rule(21))
    }
}

/// The hashes that more than one leaf entry has, in order.
fn repeated_hashes(alloc: Global, leaves: &[HashAt]) -> Result<Vec<u32>, AllocError>
    requires { IsSortedBy comes_before leaves.now }
    ensures rising { IfOk result (λ repeated. IsNonDecreasing repeated.items) }
    ensures all { IfOk result (λ repeated. AreRepeated (map hash_of leaves.now) repeated.items) }
{
    let mut repeated = Vec::new(alloc);
    for next in 1..leaves.len() {
        let leaf = leaves[next];
        let before = leaves[next - 1];
        if leaf.hash == before.hash {
            repeated.push(leaf.hash)?;
        }
    }
    Ok(repeated)
}

/// A name with its hash.
#[derive(Clone, Copy, Debug)]
struct HashedName<'a> {
    hash: u32,
    name: &'a [u8],
}

/// The names whose hashes are among these, which are in order.
fn names_among<'a>(
    alloc: Global,
    listed: &'a [Listed],
    hashes: &[u32],
) -> Result<Vec<HashedName<'a>>, AllocError>
    requires { IsNonDecreasing hashes.now }
    ensures { IfOk result (λ names. map (λ name. name.hash ∷ name.name.now) names.items ≡ map (λ entry. name_hash_of (name_of entry) ∷ name_of entry) (filter (has_hash_among hashes.now) listed.now)) }
{
    let mut names = Vec::new(alloc);
    for entry in listed {
        let name = entry.name.bytes();
        let hash = name_hash(name);
        if is_among(hash, hashes) {
            names.push(HashedName { hash, name })?;
        }
    }
    Ok(names)
}

/// Whether a hash is one of these, which are in order.
fn is_among(hash: u32, hashes: &[u32]) -> bool
    requires { IsNonDecreasing hashes.now }
    ensures { result ≡ list_any (λ other. other == hash) hashes.now }
{
    hashes.binary_search(&hash).is_ok()
}

fn names_of(alloc: Global, listed: &[Listed]) -> Result<Vec<HashedName<'_>>, AllocError>
    ensures { IfOk result (λ names. map (λ name. name.hash ∷ name.name.now) names.items ≡ map (λ entry. name_hash_of (name_of entry) ∷ name_of entry) listed.now) }
{
    let mut names = Vec::with_capacity(alloc, listed.len())?;
    for entry in listed {
        let name = entry.name.bytes();
        let hash = name_hash(name);
        names.push(HashedName { hash, name })?;
    }
    Ok(names)
}

/// Names by their hashes, and those of one hash by their bytes.
fn in_order(names: Vec<HashedName<'_>>) -> Result<Vec<HashedName<'_>>, AllocError>
    ensures same { IfOk result (λ sorted. IsPermutation (map (λ name. name.hash ∷ name.name.now) names.entry.items) (map (λ name. name.hash ∷ name.name.now) sorted.items)) }
    ensures sorted { IfOk result (λ sorted. AreSorted (map (λ name. name.hash ∷ name.name.now) sorted.items)) }
{
    let mut names = names;
    names.sort_by(|name, other| compare(name, other))?;
    Ok(names)
}

fn compare(name: &HashedName<'_>, other: &HashedName<'_>) -> Ordering
    ensures { result ≡ slice_cmp nat_cmp (name.now.hash ∷ name.now.name.now) (other.now.hash ∷ other.now.name.now) }
{
    match name.hash.cmp(&other.hash) {
        Ordering::Equal => name.name.cmp(other.name),
        unequal => unequal,
    }
}

/// Whether each name comes before the next.
fn rise(names: &[HashedName<'_>]) -> bool
    ensures { IsTrue result ↔ AllAdjacentBelow (λ a b. slice_cmp nat_cmp (a.hash ∷ a.name.now) (b.hash ∷ b.name.now) ≡ Less) names.now (length names.now) }
{
    for next in 1..names.len() {
        if !compare(&names[next - 1], &names[next]).is_lt() {
            return false;
        }
    }
    true
}
