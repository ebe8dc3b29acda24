//! The rules between inodes, of one inode. Each holds where it is not looked at.

ghost use Rattle.std.specs.Prelude.{◌≡◌, ◌<◌, ℕ, All, List, MatchBool, MatchOption, length, map};
ghost use Rattle.std.specs.List.{AllAdjacentBelow};
ghost use Rattle.xn_bytes.specs.Superblock.{Geometry};
ghost use Rattle.xn_rules.specs.Namings.{Naming, naming};
ghost use Rattle.xn_meaning.specs.Manifests.{IsLive, Manifest};
ghost use Rattle.xn_rules.specs.NameRules.{BreaksDots, BreaksEntries, BreaksRecords, BreaksRule, BreaksTree, Stands};
ghost use Rattle.xn_facts.specs.Facts.{IsFirst, NodeHolds};
ghost use Rattle.xn_names.specs.Names.{IsByPlace, naming_of};
ghost use Rattle.xn_check.specs.Known.{AreSearched, BreaksBetween, BreaksTwelve, HasItsGeneration, IsWholeAmong, NamesHold, WholeIs, meant};
ghost use Rattle.xn_check.specs.Known.{HoldsBetween, HoldsDots, HoldsEntries, HoldsRecords, HoldsTree, HoldsTwelve};

use crate::names::{Names, Near};
use xn_bytes::Kind;
use xn_census::Whole;
use xn_facts::{Broken, Node, lesser};
use xn_inode::Super;
use xn_names::{
    Naming as Entry, are_records, has_directory_links, has_dotdot, has_links, has_place,
    naming_near,
};
use xn_near::count_below;

/// The least rule that an inode breaks, by itself or against the entries of all; where it breaks none, it stands. What is said of it
/// is sought first at the places `near`, which are those behind it from then on.
pub(crate) fn broken_rule(
    geometry: &Super,
    names: &Names,
    node: &Node,
    near: &mut Near,
) -> Option<Broken>
    requires { AreSearched names.now }
    ensures { (m : Manifest) (image : List ℕ) → NamesHold geometry.now m image names.now → IsLive geometry.now m node.now.ino → NodeHolds geometry.now image node.now
        → MatchOption result (Stands geometry.now m image (meant names.now) node.now.ino)
        (IsFirst (BreaksRule geometry.now m image (meant names.now) node.now.ino)) }
{
    let between = broken_between(geometry, names, node, near);
    lesser(node.broken, between)
}

/// The least of the rules between inodes that it breaks, or all of them hold: the table of these rules, in their order.
fn broken_between(geometry: &Super, names: &Names, node: &Node, near: &mut Near) -> Option<Broken>
    requires { AreSearched names.now }
    ensures { (m : Manifest) (image : List ℕ) → NamesHold geometry.now m image names.now → IsLive geometry.now m node.now.ino → NodeHolds geometry.now image node.now
        → MatchOption result (HoldsBetween geometry.now m image (meant names.now) node.now.ino)
        (IsFirst (BreaksBetween geometry.now m image (meant names.now) node.now.ino)) }
{
    let whole = whole_of(&names.wholes, node.ino, &mut near.wholes);
    let named = naming_near(&names.namings, node.ino, &mut near.namings);
    if !links_are_right(geometry, names, node, whole, named) {
        return of_rule(12);
    }
    if !entries_are_right(whole) {
        return of_rule(21);
    }
    if !dots_are_right(geometry, names, whole) {
        return of_rule(22);
    }
    if !place_is_right(geometry, names, whole) {
        return of_rule(23);
    }
    if !records_are_right(named, node) {
        return of_rule(27);
    }
    None
}

/// A rule that names no block.
fn of_rule(rule: u8) -> Option<Broken>
    ensures { MatchOption result ⊥ (λ broken. (broken.rule ≡ rule) × (broken.block ≡ 0)) }
{
    Some(Broken { rule, block: 0 })
}

/// What was found of a directory. It is sought first at the place `near`.
fn whole_of(wholes: &[Whole], dir: u64, near: &mut usize) -> Option<Whole>
    requires { AllAdjacentBelow (λ a b. a.dir < b.dir) wholes.now (length wholes.now) }
    ensures { IsWholeAmong wholes.now dir result }
{
    let at = count_below(wholes, dir, *near);
    *near = at;
    match wholes.get(at) {
        Some(whole) if whole.dir == dir => {
            *near = at + 1;
            Some(*whole)
        }
        _ => None,
    }
}

/// Rule 12: the links of a directory are 2 and one for each directory in it, or none where it is detached; those of another inode are
/// as many as the entries that name it, these.
fn links_are_right(
    geometry: &Super,
    names: &Names,
    node: &Node,
    whole: Option<Whole>,
    named: &[Entry],
) -> bool
    requires searched { AreSearched names.now }
    requires named { map naming_of named.now ≡ naming node.now.ino (meant names.now) }
    ensures { (m : Manifest) (image : List ℕ) → WholeIs geometry.now m image (meant names.now) node.now.ino whole → NodeHolds geometry.now image node.now
        → MatchBool result (HoldsTwelve geometry.now m image (meant names.now) node.now.ino)
        (BreaksTwelve geometry.now m image (meant names.now) node.now.ino) }
{
    let Some(known) = node.known else {
        return true;
    };
    if known.kind != Kind::Dir {
        return has_links(named, known.nlink);
    }
    match whole {
        Some(whole) if whole.is_right => {
            has_directory_links(
                geometry,
                &names.namings,
                node.ino,
                whole.subdirectories,
                known.nlink,
            )
        }
        _ => true,
    }
}

/// Rule 21: the entries of a directory name live inodes, each as one of its kind.
fn entries_are_right(whole: Option<Whole>) -> bool
    ensures { (g : Geometry) (m : Manifest) (image : List ℕ) (namings : List Naming) (dir : ℕ) → WholeIs g m image namings dir whole
        → MatchBool result (HoldsEntries g m image dir) (BreaksEntries g m image dir) }
{
    match whole {
        Some(whole) => whole.is_right,
        None => true,
    }
}

/// Rule 22: dot is the directory, and dotdot that in which an entry names it.
fn dots_are_right(geometry: &Super, names: &Names, whole: Option<Whole>) -> bool
    requires { AreSearched names.now }
    ensures { (m : Manifest) (image : List ℕ) (dir : ℕ) → WholeIs geometry.now m image (meant names.now) dir whole
        → MatchBool result (HoldsDots geometry.now m image (meant names.now) dir) (BreaksDots geometry.now m image (meant names.now) dir) }
{
    match whole {
        Some(whole) if whole.is_right => {
            whole.has_dot && has_dotdot(geometry, &names.namings, whole.dir, whole.dotdot)
        }
        _ => true,
    }
}

/// Rule 23: one entry names a directory, and entries lead to it from the root; or it is detached, and empty. No entry names the root.
fn place_is_right(geometry: &Super, names: &Names, whole: Option<Whole>) -> bool
    requires { AreSearched names.now }
    ensures { (m : Manifest) (image : List ℕ) (dir : ℕ) → NamesHold geometry.now m image names.now → WholeIs geometry.now m image (meant names.now) dir whole
        → MatchBool result (HoldsTree geometry.now m image (meant names.now) dir) (BreaksTree geometry.now m image (meant names.now) dir) }
{
    match whole {
        Some(whole) if whole.is_right => {
            let is_reached = names.reached.has(whole.dir);
            has_place(
                geometry,
                &names.namings,
                whole.dir,
                whole.is_empty,
                is_reached,
            )
        }
        _ => true,
    }
}

/// Rule 27: the parent records of an inode are those that the entries ask for which name it, these.
fn records_are_right(named: &[Entry], node: &Node) -> bool
    requires { IsByPlace named.now }
    ensures { (g : Geometry) (image : List ℕ) (namings : List Naming) → map naming_of named.now ≡ naming node.now.ino namings
        → All (HasItsGeneration g image) named.now → NodeHolds g image node.now
        → MatchBool result (HoldsRecords g image namings node.now.ino) (BreaksRecords g image namings node.now.ino) }
{
    match &node.parents {
        Some(parents) => are_records(named, parents),
        None => true,
    }
}
