//! The rules from 5 on, over what was found of an image's live inodes.

ghost use Rattle.std.specs.Prelude.{◌≡◌, ◌≢◌, ◌↔◌, ℕ, Contains, IfErr, IfOk, IsTrue, List, map};
ghost use Rattle.std.specs.List.Sorted.{IsNonDecreasingBy};
ghost use Rattle.xn_meaning.specs.Manifests.{Manifest};
ghost use Rattle.xn_bytes.specs.Extents.{Run};
ghost use Rattle.xn_rules.specs.Sound.{MapOnce};
ghost use Rattle.xn_reach.specs.Steps.{Leads};
ghost use Rattle.xn_check.specs.Judged.{AreNamesOf, IsFound, IsSortedOut, Judges};
ghost use Rattle.xn_check.specs.Known.{AreSearched};
ghost use Rattle.xn_check.specs.declared.fault.CheckFault.TheVariants.{Memory, Read};

use crate::fault::CheckFault;
use crate::first::first_broken;
use crate::names::Names;
use crate::whole_image::root_is_right;
use std::alloc::Global;
use xn_bytes::Memory as OutOfMemory;
use xn_census::SortedOut;
use xn_facts::Node;
use xn_inode::Super;
use xn_names::in_order;
use xn_reach::{Reached, Step};

/// How many entries there are, where all rules from 5 on hold; else the first that is broken. The nodes are those of the live inodes.
/// Whether rule 9 holds, of the runs of all their forks, is known.
pub(crate) fn judge(
    alloc: Global,
    geometry: &Super,
    nodes: &[Node],
    out: SortedOut,
    is_mapped_once: bool,
) -> Result<u64, CheckFault>
    requires { IsSortedOut out }
    ensures judges { (m : Manifest) (image : List ℕ) (runs : List Run) → IsFound geometry.now m image (map (λ node. node.ino) nodes.now) nodes.now out
        → (IsTrue is_mapped_once ↔ MapOnce (map (λ node. node.ino) nodes.now) runs)
        → Judges geometry.now m image (map (λ node. node.ino) nodes.now) out runs result }
    ensures reads_nothing { IfErr result (λ fault. fault ≢ Read) }
{
    let entries = out.namings.len() as u64;
    if !root_is_right(geometry, nodes, entries) {
        return Err(CheckFault::of_image(5));
    }
    if !is_mapped_once {
        return Err(CheckFault::of_image(9));
    }
    let names = names_of(alloc, geometry, out)?;
    match first_broken(geometry, &names, nodes) {
        Some((inode, broken)) => Err(CheckFault::Broken {
            rule: broken.rule,
            inode,
            block: broken.block,
        }),
        None => Ok(entries),
    }
}

/// Entries in order, and what they lead to from the root.
fn names_of(alloc: Global, geometry: &Super, out: SortedOut) -> Result<Names, CheckFault>
    requires { IsSortedOut out }
    ensures searched { IfOk result AreSearched }
    ensures names { IfOk result (AreNamesOf geometry.now out) }
    ensures memory { IfErr result (λ fault. fault ≡ Memory) }
{
    let SortedOut {
        wholes,
        namings,
        steps,
    } = out;
    let reached = reached_by(alloc, geometry, steps)?;
    Ok(Names {
        wholes,
        namings: in_order(namings),
        reached,
    })
}

/// What steps lead to from the root. They are dropped here, before entries are sorted.
fn reached_by(alloc: Global, geometry: &Super, steps: Vec<Step>) -> Result<Reached, OutOfMemory>
    requires { IsNonDecreasingBy (λ step. step.from) steps.items }
    ensures { IfOk result (λ reached. (number : ℕ) → Contains reached number
        ↔ ((path : List ℕ) × Leads steps.items geometry.now.root path number)) }
{
    Reached::from(alloc, &steps, geometry.root())
}
