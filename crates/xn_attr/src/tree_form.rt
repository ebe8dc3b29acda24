//! Attributes in blocks: the fork that has their tree.

ghost use Rattle.std.specs.Prelude.{◌≡◌, IfOk, IfErr};
ghost use Rattle.xn_bytes.specs.Trees.{AreBlocks};
ghost use Rattle.xn_attr.specs.Inodes.{IsForkOf, IsOfForm, IsSoundInode};
ghost use Rattle.xn_attr.specs.declared.form.Form.TheVariants as forms;
ghost use Rattle.xn_inode.specs.declared.fork_fault.ForkFault.TheVariants.{Memory};

use std::alloc::Global;
use xn_datree::Fork;
use xn_inode::{Core, Extents, ForkFault, Super};

pub(crate) const EXTENT_BYTES: u64 = 16;

/// The attribute fork of an inode that has a tree.
pub(crate) fn tree_fork(
    alloc: Global,
    geometry: &Super,
    ino: u64,
    core: &Core,
    inode: &[u8],
) -> Result<Fork, ForkFault>
    requires sound { IsSoundInode geometry.now ino inode.now core.now }
    requires form { IsOfForm inode.now forms.Tree }
    ensures fork { IfOk result (IsForkOf ino inode.now) }
    ensures blocks { IfOk result (λ fork. AreBlocks geometry.now fork.extents) }
    ensures fault { IfErr result (λ fault. fault ≡ Memory) }
{
    let bytes = core.attr_fork(inode);
    let extents = Extents::of_fork(alloc, geometry, bytes, core.attr_extents())?;
    Ok(Fork {
        owner: ino,
        attribute: true,
        extents,
        root: 0,
        room: bytes.len() as u64 / EXTENT_BYTES,
    })
}
