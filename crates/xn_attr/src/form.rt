//! The form of an inode's attributes, by its bytes.

ghost use Rattle.std.specs.Prelude.{◌≡◌, IfOk, IfErr};
ghost use Rattle.xn_bytes.specs.DirectoryForms.{HasForkLists};
ghost use Rattle.xn_bytes.specs.Inode.{CoreHolds, HasForks};
ghost use Rattle.xn_inode.specs.Faults.{IsRule};
ghost use Rattle.xn_attr.specs.Inodes.{IsFormBy, IsOfForm};

use std::alloc::Global;
use xn_inode::{Core, ForkFault, LOCAL_FORMAT, Super};

/// The forms of an inode's attributes.
#[derive(Clone, Copy, Debug, PartialEq, Eq)]
pub(crate) enum Form {
    /// There is no attribute fork.
    Absent,
    /// They stand in the inode.
    Short,
    /// The fork is a list of no extents, and there are none.
    Empty,
    /// They stand in blocks: in one leaf, or in a tree.
    Tree,
}

/// Rule 13 of an inode of which rules 10 and 11 hold, and the form of its attributes.
pub(crate) fn form_of(
    alloc: Global,
    geometry: &Super,
    core: &Core,
    inode: &[u8],
) -> Result<Form, ForkFault>
    requires core { CoreHolds inode.now core.now }
    requires forks { HasForks inode.now }
    ensures lists { IfOk result (λ _. HasForkLists geometry.now inode.now) }
    ensures form { IfOk result (IsOfForm inode.now) }
    ensures fault { IfErr result (IsRule 13 (HasForkLists geometry.now inode.now)) }
{
    core.check_fork_lists(alloc, geometry, inode)?;
    Ok(form_by(core))
}

fn form_by(core: &Core) -> Form
    ensures { IsFormBy core.now result }
{
    if core.forkoff() == 0 {
        Form::Absent
    } else if core.attr_format() == LOCAL_FORMAT {
        Form::Short
    } else if core.attr_extents() == 0 {
        Form::Empty
    } else {
        Form::Tree
    }
}
