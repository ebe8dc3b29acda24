//! The form of a directory, by its inode.

ghost use Rattle.std.specs.Prelude.{◌≡◌, ◌≢◌, ◌↔◌, IsTrue, ℕ, List, IfOk, IfErr, MatchResult};
ghost use Rattle.xn_bytes.specs.Numbers.{number_at};
ghost use Rattle.xn_bytes.specs.Inode.{HasCore, HasForks, HasBothForks, CoreHolds, extents_format, attr_fork_of};
ghost use Rattle.xn_bytes.specs.Extents.{runs_in};
ghost use Rattle.xn_bytes.specs.DirectoryForms.{IsExtentList, AreHome, attr_extents_of};
ghost use Rattle.xn_dir.specs.Inodes.{IsSoundInode, IsOfForm, IsOnlyBlock};
ghost use Rattle.xn_inode.specs.Faults.{IsRule};
ghost use Rattle.xn_dir.specs.Faults.{IsFormFault};

use std::alloc::Global;
use xn_inode::{Core, EXTENTS_FORMAT, ExtentFault, Extents, ForkFault, LOCAL_FORMAT, Super};

/// The forms of a directory.
#[derive(Clone, Copy, Debug, PartialEq, Eq)]
pub(crate) enum Form {
    /// The entries stand in the inode.
    Short,
    /// They stand in one block, with the leaf entries behind them.
    Block { block: u64 },
    /// Leaf or node form: they stand in data blocks, and the leaf entries in other blocks.
    Hashed,
}

/// Core and form of a directory, by its inode's bytes.
pub(crate) fn form_of(
    alloc: Global,
    geometry: &Super,
    dir: u64,
    inode: &[u8],
) -> Result<(Core, Form), ForkFault>
    ensures sound { IfOk result (λ found. IsSoundInode geometry.now dir inode.now found.0) }
    ensures form { IfOk result (λ found. IsOfForm inode.now found.1) }
    ensures fault { IfErr result (IsFormFault geometry.now dir inode.now) }
{
    let core = Core::of_inode(geometry, dir, inode)?;
    core.check_attr_list(alloc, geometry, inode)?;
    let format = core.data_format();
    if format == LOCAL_FORMAT {
        return Ok((core, Form::Short));
    }
    if format != EXTENTS_FORMAT {
        return Err(ForkFault::of_rule(11));
    }
    let extents = Extents::of_fork(alloc, geometry, core.data_fork(inode), core.data_extents())?;
    match only_block(&extents) {
        Some(block) => Ok((core, Form::Block { block })),
        None => Ok((core, Form::Hashed)),
    }
}

/// The block of file block 0, where no other is mapped.
fn only_block(extents: &Extents) -> Option<u64>
    ensures { IsOnlyBlock extents.now result }
{
    if extents.count() != 1 {
        return None;
    }
    let (file_block, block, count) = extents.run(0);
    if file_block == 0 && count == 1 {
        Some(block)
    } else {
        None
    }
}
