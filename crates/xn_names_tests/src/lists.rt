//! Lists of entries, and of parent records, with what the functions on them require.

ghost use Rattle.std.specs.Prelude.{ℕ, List, [], ◌≡◌, ◌↔◌, ◌==◌, ◌&&◌, ◌<◌, ◌%◌, IsTrue, IfOk, All, count_by, length, map};
ghost use Rattle.std.specs.List.{AllAdjacentBelow};
ghost use Rattle.std.specs.List.Sorted.{IsNonDecreasingBy};
ghost use Rattle.xn_rules.specs.Namings.{standing_in, Leads};
ghost use Rattle.xn_rules.specs.NameRules.{is_directory};
ghost use Rattle.xn_names.specs.Names.{naming_of, IsInOrder};

use std::alloc::Global;
use xn_bytes::{Kind, Name, NameFault};
use xn_inode::Super;
use xn_items::ParentRec;
use xn_names::{Naming, are_records, has_directory_links, has_place, in_order, naming};

/// Entries in order, of which each row has the directory, the inode, its kind and the name. A directory's generation is what its
/// number leaves over 1,000.
pub fn listed(alloc: Global, rows: &[(u64, u64, Kind, &str)]) -> Result<Vec<Naming>, NameFault>
    ensures sorted { IfOk result (λ namings. IsInOrder namings.items) }
    ensures by_inode { IfOk result (λ namings. IsNonDecreasingBy (λ n. n.ino) namings.items) }
    ensures generations { IfOk result (λ namings. All (λ n. n.generation ≡ n.dir % 1000) namings.items) }
{
    let mut namings = Vec::new(alloc);
    for (dir, ino, kind, name) in rows {
        let entry = Naming {
            dir: *dir,
            generation: (*dir % 1000) as u32,
            ino: *ino,
            kind: *kind,
            name: Name::read(alloc, name.as_bytes())?,
        };
        namings.push(entry).map_err(|_| NameFault::Memory)?;
    }
    Ok(in_order(namings))
}

/// Whether parents are the records that the entries of an inode ask for, where their directories rise.
pub fn told(namings: &[Naming], ino: u64, parents: &[ParentRec]) -> Option<bool>
    requires sorted { IsInOrder namings.now }
    requires by_inode { IsNonDecreasingBy (λ n. n.ino) namings.now }
    requires generations { All (λ n. n.generation ≡ n.dir % 1000) namings.now }
{
    if !directories_rise(parents) {
        return None;
    }
    Some(are_records(naming(namings, ino), parents))
}

fn directories_rise(parents: &[ParentRec]) -> bool
    ensures { IsTrue result → AllAdjacentBelow (λ a b. a.dir < b.dir) parents.now (length parents.now) }
{
    for next in 1..parents.len() {
        if parents[next - 1].dir >= parents[next].dir {
            return false;
        }
    }
    true
}

/// Whether a directory has so many links as it is to have.
pub fn links_are_right(geometry: &Super, namings: &[Naming], dir: u64, nlink: u32) -> bool
    requires { IsNonDecreasingBy (λ n. n.ino) namings.now }
{
    has_directory_links(geometry, namings, dir, subdirectories(namings, dir), nlink)
}

fn subdirectories(namings: &[Naming], dir: u64) -> u64
    ensures { result ≡ count_by (λ n. (n.dir == dir) && is_directory n.kind) namings.now }
{
    namings
        .iter()
        .filter(|naming| naming.dir == dir && is_dir(naming.kind))
        .count() as u64
}

fn is_dir(kind: Kind) -> bool
    ensures { result ≡ is_directory kind }
{
    match kind {
        Kind::Dir => true,
        Kind::Reg | Kind::Chr | Kind::Blk | Kind::Fifo | Kind::Sock | Kind::Lnk => false,
    }
}

/// Whether a directory has a place in the tree, where all entries stand in the root.
pub fn placed_under_root(geometry: &Super, namings: &[Naming], dir: u64) -> Option<bool>
    requires { IsNonDecreasingBy (λ n. n.ino) namings.now }
{
    let root = geometry.root();
    if !all_stand_in(namings, root) {
        return None;
    }
    let is_empty = has_no_entry(namings, root, dir);
    let is_reached = is_reached(namings, root, dir);
    Some(has_place(geometry, namings, dir, is_empty, is_reached))
}

fn all_stand_in(namings: &[Naming], dir: u64) -> bool
    ensures { IsTrue result ↔ All (λ n. n.dir ≡ dir) namings.now }
{
    namings.iter().all(|naming| naming.dir == dir)
}

fn has_no_entry(namings: &[Naming], root: u64, dir: u64) -> bool
    requires { All (λ n. n.dir ≡ root) namings.now }
    ensures { IsTrue result ↔ (standing_in dir (map naming_of namings.now) ≡ []) }
{
    if dir != root {
        return true;
    }
    namings.is_empty()
}

fn is_reached(namings: &[Naming], root: u64, dir: u64) -> bool
    requires by_inode { IsNonDecreasingBy (λ n. n.ino) namings.now }
    requires in_root { All (λ n. n.dir ≡ root) namings.now }
    ensures { IsTrue result ↔ ((path : List ℕ) × Leads (map naming_of namings.now) root path dir) }
{
    if dir == root {
        return true;
    }
    !naming(namings, dir).is_empty()
}
