//! The data fork of a directory in leaf or node form, by its inode.

ghost use Rattle.std.specs.Prelude.{◌≡◌, ◌↔◌, IsTrue, IfOk, IfErr};
ghost use Rattle.xn_bytes.specs.Trees.{AreBlocks};
ghost use Rattle.xn_bytes.specs.DirectoryForms.{HasBlocksSize};
ghost use Rattle.xn_dir.specs.Inodes.{IsOfForm, IsSoundInode};
ghost use Rattle.xn_inode.specs.Faults.{IsRule};
ghost use Rattle.xn_dir.specs.Hashed.{HasSize, IsForkOf};
ghost use Rattle.xn_dir.specs.declared.form.Form.TheVariants as forms;

use crate::sizes::{BLOCK_BYTES, LEAF_FILE_BLOCK};
use std::alloc::Global;
use xn_datree::Fork;
use xn_inode::{Core, Extents, ForkFault, Super};

const EXTENT_BYTES: u64 = 16;

/// The data fork of a directory in leaf or node form, once its size is right: rule 15.
pub(crate) fn hashed_fork(
    alloc: Global,
    geometry: &Super,
    dir: u64,
    core: &Core,
    inode: &[u8],
) -> Result<Fork, ForkFault>
    requires sound { IsSoundInode geometry.now dir inode.now core.now }
    requires form { IsOfForm inode.now forms.Hashed }
    ensures fork { IfOk result (IsForkOf dir inode.now) }
    ensures size { IfOk result (λ _. HasBlocksSize inode.now) }
    ensures blocks { IfOk result (λ fork. AreBlocks geometry.now fork.extents) }
    ensures fault { IfErr result (IsRule 15 (HasBlocksSize inode.now)) }
{
    let bytes = core.data_fork(inode);
    let extents = Extents::of_fork(alloc, geometry, bytes, core.data_extents())?;
    if !has_size(&extents, core.size()) {
        return Err(ForkFault::of_rule(15));
    }
    Ok(Fork {
        owner: dir,
        attribute: false,
        extents,
        root: LEAF_FILE_BLOCK,
        room: bytes.len() as u64 / EXTENT_BYTES,
    })
}

/// Whether a size reaches to the end of the greatest mapped data block.
fn has_size(extents: &Extents, size: u64) -> bool
    ensures { IsTrue result ↔ HasSize extents.now size }
{
    match extents.last_mapped(LEAF_FILE_BLOCK) {
        Some(last) => size == BLOCK_BYTES as u64 * (last + 1),
        None => false,
    }
}
