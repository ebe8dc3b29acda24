//! Entries in order: by the number of the inode that they name, then by that of the directory, then by the bytes of the name.

ghost use Rattle.std.specs.Prelude.{◌≡◌, ◌==◌, IsPermutation, map, filter};
ghost use Rattle.std.specs.List.Sorted.{IsNonDecreasingBy};
ghost use Rattle.xn_rules.specs.Namings.{naming as naming_inode};
ghost use Rattle.xn_names.specs.Names.{naming_of, naming_cmp, IsInOrder, IsByPlace};

use crate::entry::Naming;
use std::cmp::Ordering;
use xn_near::{count_below, count_up_to};

/// The entries in order. It takes no memory. They take no more memory for it.
pub fn in_order(namings: Vec<Naming>) -> Vec<Naming>
    ensures same { IsPermutation namings.items result.items }
    ensures sorted { IsInOrder result.items }
    ensures by_inode { IsNonDecreasingBy (λ n. n.ino) result.items }
{
    let mut sorted = namings;
    sorted.sort_unstable_by(|naming, other| compare(naming, other));
    sorted
}

/// The entries that name an inode, which stand one behind the other.
pub fn naming(namings: &[Naming], ino: u64) -> &[Naming]
    requires { IsNonDecreasingBy (λ n. n.ino) namings.now }
    ensures are { result.now ≡ filter (λ n. n.ino == ino) namings.now }
    ensures viewed { map naming_of result.now ≡ naming_inode ino (map naming_of namings.now) }
    ensures placed { IsInOrder namings.now → IsByPlace result.now }
{
    let mut near = 0;
    naming_near(namings, ino, &mut near)
}

/// The same, sought first at the place `near`. From then on that is the place behind them, where those that name the next inode stand.
pub fn naming_near<'a>(namings: &'a [Naming], ino: u64, near: &mut usize) -> &'a [Naming]
    requires { IsNonDecreasingBy (λ n. n.ino) namings.now }
    ensures are { result.now ≡ filter (λ n. n.ino == ino) namings.now }
    ensures viewed { map naming_of result.now ≡ naming_inode ino (map naming_of namings.now) }
    ensures placed { IsInOrder namings.now → IsByPlace result.now }
{
    let start = count_below(namings, ino, *near);
    let from = &namings[start..];
    let count = count_up_to(from, ino);
    *near = start + count;
    &from[..count]
}

fn compare(naming: &Naming, other: &Naming) -> Ordering
    ensures { result ≡ naming_cmp naming.now other.now }
{
    naming
        .ino
        .cmp(&other.ino)
        .then(naming.dir.cmp(&other.dir))
        .then(naming.name.bytes().cmp(other.name.bytes()))
}
