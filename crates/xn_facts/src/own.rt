//! What the bytes of an inode say of it, whatever its blocks hold.

ghost use Rattle.std.specs.Prelude.{◌≡◌, ◌+◌, IfErr, IfOk, MatchOption, MatchResult, map};
ghost use Rattle.xn_bytes.specs.Inode.{CoreHolds, HasForks};
ghost use Rattle.xn_bytes.specs.DirectoryForms.{HasForkLists};
ghost use Rattle.xn_inode.specs.declared.store.StoreFault.TheVariants.{Memory};
ghost use Rattle.xn_facts.specs.Facts.{AreForkRuns, IsFirstOf, mapped_of};
ghost use Rattle.xn_facts.specs.Owned.{BreaksCount, HasFields, IsCoreVerdict, OwnHolds};

use crate::facts::{Broken, Known, Run};
use crate::runs::{fork_runs, is_of_directory, map_as_many};
use std::alloc::Global;
use xn_inode::{Core, CoreFault, ForkFault, StoreFault, Super};

/// Rule 14: the count of blocks in a directory's core is that of the blocks that its forks map.
const BLOCK_COUNT: u8 = 14;

/// What the bytes of an inode say.
#[derive(Debug, Drop)]
pub(crate) struct Own {
    /// Where rules 10 and 11 hold.
    pub(crate) known: Option<Known>,
    /// What the forks map, where rule 13 holds too; nothing else.
    pub(crate) runs: Vec<Run>,
    /// Rule 14, where it is looked at and broken.
    pub(crate) broken: Option<Broken>,
}

/// What these bytes of an inode, and the verdict on its core, say of it.
pub(crate) fn own_of(
    alloc: Global,
    geometry: &Super,
    ino: u64,
    core: &Result<Core, CoreFault>,
    inode: &[u8],
) -> Result<Own, StoreFault>
    requires core { IsCoreVerdict geometry.now ino inode.now core.now }
    ensures own { IfOk result (OwnHolds geometry.now inode.now ino) }
    ensures memory { IfErr result (λ fault. fault ≡ Memory) }
{
    let Ok(core) = core else {
        return Ok(Own {
            known: None,
            runs: Vec::new(alloc),
            broken: None,
        });
    };
    let known = Some(known_of(core));
    match listed_runs(alloc, geometry, core, inode)? {
        Some(runs) => {
            let broken = broken_count(core, &runs);
            Ok(Own {
                known,
                runs,
                broken,
            })
        }
        None => Ok(Own {
            known,
            runs: Vec::new(alloc),
            broken: None,
        }),
    }
}

/// What is kept of a core.
fn known_of(core: &Core) -> Known
    ensures { HasFields core.now result }
{
    Known {
        kind: core.kind(),
        nlink: core.nlink(),
        generation: core.generation(),
    }
}

/// What the forks map, where rule 13 holds.
fn listed_runs(
    alloc: Global,
    geometry: &Super,
    core: &Core,
    inode: &[u8],
) -> Result<Option<Vec<Run>>, StoreFault>
    requires core { CoreHolds inode.now core.now }
    requires forks { HasForks inode.now }
    ensures runs { IfOk result (λ listed. MatchOption listed (¬ HasForkLists geometry.now inode.now)
        (λ runs. HasForkLists geometry.now inode.now × AreForkRuns inode.now (map mapped_of runs.items))) }
    ensures memory { IfErr result (λ fault. fault ≡ Memory) }
{
    match fork_runs(alloc, geometry, core, inode) {
        Ok(runs) => Ok(Some(runs)),
        Err(ForkFault::Broken { .. }) => Ok(None),
        Err(_) => Err(StoreFault::Memory),
    }
}

/// Rule 14, where this is the core of a directory whose forks map the runs, and it is broken.
fn broken_count(core: &Core, runs: &[Run]) -> Option<Broken>
    ensures { IsFirstOf (BreaksCount core.now (map mapped_of runs.now)) result }
{
    if is_of_directory(core) && !map_as_many(runs, core.nblocks()) {
        Some(Broken {
            rule: BLOCK_COUNT,
            block: 0,
        })
    } else {
        None
    }
}
