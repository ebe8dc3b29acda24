//! What the forks of an inode map.

ghost use Rattle.std.specs.Prelude.{◌≡◌, ◌↔◌, ◌++◌, IsTrue, MatchResult, OnOk, map};
ghost use Rattle.xn_bytes.specs.declared.kind.Kind.TheVariants.{Dir};
ghost use Rattle.xn_bytes.specs.DirectoryForms.{HasForkLists, IsExtentList};
ghost use Rattle.xn_bytes.specs.Extents.{runs_in};
ghost use Rattle.xn_bytes.specs.Inode.{CoreHolds, HasForks};
ghost use Rattle.xn_inode.specs.Faults.{IsRule};
ghost use Rattle.xn_rules.specs.InodeRules.{blocks_in};
ghost use Rattle.xn_facts.specs.Facts.{AreForkRuns, mapped_of};

use crate::facts::Run;
use std::alloc::{AllocError, Global};
use xn_bytes::Kind;
use xn_inode::{Core, EXTENTS_FORMAT, Extents, ForkFault, Super};

/// What the forks of an inode map whose core this is: a directory's data fork, then the attribute fork. Rule 13 is broken where one
/// of them is no such list.
pub(crate) fn fork_runs(
    alloc: Global,
    geometry: &Super,
    core: &Core,
    inode: &[u8],
) -> Result<Vec<Run>, ForkFault>
    requires core { CoreHolds inode.now core.now }
    requires forks { HasForks inode.now }
    ensures { MatchResult result
        (λ runs. HasForkLists geometry.now inode.now × AreForkRuns inode.now (map mapped_of runs.items))
        (IsRule 13 (HasForkLists geometry.now inode.now)) }
{
    let mut runs = Vec::new(alloc);
    if is_of_directory(core) && core.data_format() == EXTENTS_FORMAT {
        add_fork(
            alloc,
            geometry,
            core.data_fork(inode),
            core.data_extents(),
            &mut runs,
        )?;
    }
    if core.forkoff() != 0 && core.attr_format() == EXTENTS_FORMAT {
        add_fork(
            alloc,
            geometry,
            core.attr_fork(inode),
            core.attr_extents(),
            &mut runs,
        )?;
    }
    Ok(runs)
}

/// Whether this is the core of a directory.
pub(crate) fn is_of_directory(core: &Core) -> bool
    ensures { IsTrue result ↔ (core.now.kind ≡ Dir) }
{
    core.kind() == Kind::Dir
}

/// Adds the runs of a fork.
fn add_fork(
    alloc: Global,
    geometry: &Super,
    fork: &[u8],
    count: u64,
    runs: &mut Vec<Run>,
) -> Result<(), ForkFault>
    ensures { MatchResult result
        (λ _. IsExtentList geometry.now count fork.now × (map mapped_of runs.new.items ≡ map mapped_of runs.old.items ++ runs_in count fork.now))
        (IsRule 13 (IsExtentList geometry.now count fork.now)) }
{
    let extents = Extents::of_fork(alloc, geometry, fork, count)?;
    add_runs(&extents, runs)?;
    Ok(())
}

/// Adds runs behind others.
fn add_runs(extents: &Extents, runs: &mut Vec<Run>) -> Result<(), AllocError>
    ensures { OnOk result (map mapped_of runs.new.items ≡ map mapped_of runs.old.items ++ extents.now) }
{
    for at in 0..extents.count() {
        let (file_block, block, count) = extents.run(at);
        runs.push(Run {
            file_block,
            block,
            count,
        })?;
    }
    Ok(())
}

/// Whether runs map so many blocks together.
pub(crate) fn map_as_many(runs: &[Run], blocks: u64) -> bool
    ensures { IsTrue result ↔ (blocks ≡ blocks_in (map mapped_of runs.now)) }
{
    let mut left = blocks;
    for run in runs {
        match left.checked_sub(run.count) {
            Some(rest) => left = rest,
            None => return false,
        }
    }
    left == 0
}
