//! The checker: whether all rules hold of an image, or which is broken first.

ghost use Rattle.std.specs.Prelude.{◌≡◌, ◌↔◌, ℕ, Contains, IfErr, IfOk, IfSome};
ghost use Rattle.xn_bytes.specs.Causes.{Rose};
ghost use Rattle.xn_machine.specs.Frames.{MachineStays};
ghost use Rattle.xn_meaning.specs.Manifests.{HasPlaces, InPool};
ghost use Rattle.xn_replay.specs.Overlay.{shown};
ghost use Rattle.xn_replay.specs.Viewed.{IsSeen};
ghost use Rattle.xn_check.specs.Checked.{Checks, FreesRest};
ghost use Rattle.xn_check.specs.Examined.{IsExamined, Refuses};
ghost use Rattle.xn_check.specs.declared.fault.CheckFault.TheVariants.{Read};

use crate::examine::{Examined, examine};
use crate::fault::CheckFault;
use crate::mark::mark_mapped;
use std::alloc::Global;
use xn_machine::Machine;
use xn_replay::{Seen, View};
use xn_text::{Manifest, Summary};

/// Checks the image that a machine shows through a view, of which rules 1 and 2 hold: a summary where all rules from 5 on hold, else
/// the first that is broken. The view is as it was made, with the manifest's pool of which every block is free. Where the image is
/// accepted, each block of the pool that is mapped is used from then on.
///
/// It reads each block with live inodes once, the inode of a directory twice more, and each block of their forks once, of a directory
/// the first one three times. It takes time as n log n and memory as n, in inodes and entries.
pub fn check<M: Machine>(
    alloc: Global,
    machine: &mut M,
    view: &mut View,
    manifest: &Manifest,
) -> Result<Summary, CheckFault>
    requires seen { IsSeen view.old (M.image machine.old) (M.sector_count machine.old) (M.read_faults machine.old) (M.reads machine.old) }
    requires places { HasPlaces view.old.shape manifest.now }
    requires pool { (block : ℕ) → Contains view.old.blocks block ↔ InPool manifest.now block }
    requires all_free { view.old.free ≡ view.old.blocks }
    ensures checks { IfSome (M.image machine.old) (λ x. Checks view.old.shape manifest.now (shown x view.old.kept) result) }
    ensures free { IfOk result (λ _. IfSome (M.image machine.old) (λ x. FreesRest view.old.shape manifest.now (shown x view.old.kept) view.new.free)) }
    ensures others { view.new ≡ record view.old { free = view.new.free } }
    ensures cause { IfErr result (λ fault. fault ≡ Read → Rose (M.read_faults machine.old) (M.read_faults machine.new)) }
    ensures stays { MachineStays M.Machine machine.old machine.new }
{
    let examined = examine_seen(alloc, machine, view, manifest)?;
    // Its runs end below 2^56, so that no block of the pool is near the greatest number.
    let _runs = manifest.runs();
    mark_mapped(view, &examined.runs);
    Ok(Summary {
        inodes: examined.inodes,
        directories: examined.directories,
        entries: examined.entries,
        pending: 0,
        free: view.free_count(),
    })
}

/// The same, of the machine seen through the view, whose free blocks stay.
fn examine_seen<M: Machine>(
    alloc: Global,
    machine: &mut M,
    view: &mut View,
    manifest: &Manifest,
) -> Result<Examined, CheckFault>
    requires seen { IsSeen view.old (M.image machine.old) (M.sector_count machine.old) (M.read_faults machine.old) (M.reads machine.old) }
    requires places { HasPlaces view.old.shape manifest.now }
    ensures examined { IfOk result (λ examined. IfSome (M.image machine.old) (λ x. IsExamined view.old.shape manifest.now (shown x view.old.kept) examined)) }
    ensures refuses { IfErr result (λ fault. IfSome (M.image machine.old) (λ x. Refuses view.old.shape manifest.now (shown x view.old.kept) fault)) }
    ensures cause { IfErr result (λ fault. fault ≡ Read → Rose (M.read_faults machine.old) (M.read_faults machine.new)) }
    ensures stays { MachineStays M.Machine machine.old machine.new }
    ensures view { view.new ≡ view.old }
{
    let mut seen = Seen { view, machine };
    examine(alloc, &mut seen, manifest)
}
