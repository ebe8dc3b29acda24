//! The entries of whole directories.

ghost use Rattle.std.specs.Prelude.{◌≡◌, ◌<◌, if◌then◌else◌, List, [], ◌∷◌, ◌++◌, IfOk, OnOk, count_by, length, map};
ghost use Rattle.std.specs.List.{AllAdjacentBelow};
ghost use Rattle.xn_rules.specs.NameRules.{is_directory};
ghost use Rattle.xn_census.specs.SortedOut.{IsWholeOf, SortsOut, lists_directory, named_in, steps_in};

use crate::census::Held;
use crate::entries::are_right;
use std::alloc::{AllocError, Global};
use xn_bytes::Kind;
use xn_dir::Listed;
use xn_facts::{Contents, Node};
use xn_names::Naming;
use xn_near::Numbered;
use xn_reach::Step;

/// What is said of a directory that holds entries with names.
#[derive(Clone, Copy, Debug, PartialEq, Eq)]
pub struct Whole {
    pub dir: u64,
    pub dotdot: u64,
    /// Whether dot, where it stands in a block, is the directory itself.
    pub has_dot: bool,
    /// Whether each entry names a live inode, and as one of its kind: rule 21.
    pub is_right: bool,
    /// How many entries are directories.
    pub subdirectories: u64,
    /// Whether there are no entries.
    pub is_empty: bool,
}

/// Directories have the numbers of their inodes.
impl Numbered for Whole {
    ghost number_of = { λ whole. whole.dir };

    fn number(&self) -> u64 {
        self.dir
    }
}

/// Directories, and the entries of those of which rule 21 holds.
#[derive(Debug, Drop)]
pub struct SortedOut {
    pub wholes: Vec<Whole>,
    /// One directory behind the other.
    pub namings: Vec<Naming>,
    /// From the directory of each entry that is a directory to that one.
    pub steps: Vec<Step>,
}

/// Takes the entries out of directories. The nodes are those of all live inodes, which rise.
pub fn sort_out(alloc: Global, nodes: &[Node], helds: Vec<Held>) -> Result<SortedOut, AllocError>
    requires { AllAdjacentBelow (λ a b. a.ino < b.ino) nodes.now (length nodes.now) }
    ensures { IfOk result (SortsOut nodes.now helds.items) }
{
    // Most inodes are named by one entry.
    let mut out = SortedOut {
        wholes: Vec::new(alloc),
        namings: Vec::with_capacity(alloc, nodes.len())?,
        steps: Vec::new(alloc),
    };
    for held in helds {
        add_held(nodes, held, &mut out)?;
    }
    Ok(out)
}

/// Adds one directory.
fn add_held(nodes: &[Node], held: Held, out: &mut SortedOut) -> Result<(), AllocError>
    requires { AllAdjacentBelow (λ a b. a.ino < b.ino) nodes.now (length nodes.now) }
    ensures { OnOk result ((helds : List Held) → SortsOut nodes.now helds out.old → SortsOut nodes.now (helds ++ held ∷ []) out.new) }
{
    let whole = whole_of(nodes, &held);
    out.wholes.push(whole)?;
    take_entries(held, whole.is_right, &mut out.namings, &mut out.steps)?;
    Ok(())
}

/// What is said of a directory.
fn whole_of(nodes: &[Node], held: &Held) -> Whole
    requires { AllAdjacentBelow (λ a b. a.ino < b.ino) nodes.now (length nodes.now) }
    ensures { IsWholeOf nodes.now held.now result }
{
    Whole {
        dir: held.dir,
        dotdot: held.contents.dotdot,
        has_dot: held.contents.has_dot,
        is_right: are_right(nodes, &held.contents.entries),
        subdirectories: count_directories(&held.contents.entries),
        is_empty: held.contents.entries.is_empty(),
    }
}

/// How many entries are directories.
fn count_directories(entries: &[Listed]) -> u64
    ensures { result ≡ count_by (λ listed. is_directory listed.kind) entries.now }
{
    entries
        .iter()
        .filter(|entry| matches!(entry.kind, Kind::Dir))
        .count() as u64
}

/// Takes the entries of a directory, where they are right.
fn take_entries(
    held: Held,
    are_right: bool,
    namings: &mut Vec<Naming>,
    steps: &mut Vec<Step>,
) -> Result<(), AllocError>
    ensures namings { OnOk result (namings.new.items ≡ namings.old.items ++ (if are_right then map (named_in held) held.contents.entries.items else [])) }
    ensures steps { OnOk result (steps.new.items ≡ steps.old.items ++ (if are_right then steps_in held held.contents.entries.items else [])) }
{
    if !are_right {
        return Ok(());
    }
    let Held {
        dir,
        generation,
        contents,
    } = held;
    let Contents {
        entries,
        dotdot: _,
        has_dot: _,
    } = contents;
    for entry in entries {
        add_step(dir, &entry, steps)?;
        namings.push(Naming {
            dir,
            generation,
            ino: entry.ino,
            kind: entry.kind,
            name: entry.name,
        })?;
    }
    Ok(())
}

/// Adds the step to the inode that an entry names, if that is a directory.
fn add_step(dir: u64, entry: &Listed, steps: &mut Vec<Step>) -> Result<(), AllocError>
    ensures { OnOk result (steps.new.items ≡ steps.old.items ++ (if lists_directory entry.now then record { from = dir; to = entry.now.ino } ∷ [] else [])) }
{
    if matches!(entry.kind, Kind::Dir) {
        steps.push(Step {
            from: dir,
            to: entry.ino,
        })?;
    }
    Ok(())
}
