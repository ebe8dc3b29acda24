//! Rule 13: the lists of extents of an inode's forks.

ghost use Rattle.std.specs.Prelude.{◌≡◌, ◌≢◌, MatchResult};
ghost use Rattle.xn_bytes.specs.Inode.{HasForks, CoreHolds};
ghost use Rattle.xn_bytes.specs.Extents.{runs_in};
ghost use Rattle.xn_bytes.specs.DirectoryForms.{IsExtentList, HasAttrList, HasDataList, HasForkLists};
ghost use Rattle.xn_inode.specs.Faults.{IsRule};

use crate::extents::{ExtentFault, Extents};
use crate::fork_fault::ForkFault;
use crate::inode_core::{Core, EXTENTS_FORMAT};
use crate::superblock::Super;
use std::alloc::Global;
use xn_bytes::Kind;

impl Extents {
    /// The extents of a fork, by its bytes and the count that the core has. Rule 13 is broken where they are no such list, or map a
    /// block that a fork may not map.
    pub fn of_fork(
        alloc: Global,
        geometry: &Super,
        fork: &[u8],
        count: u64,
    ) -> Result<Extents, ForkFault>
        ensures { MatchResult result
            (λ extents. IsExtentList geometry.now count fork.now × (extents ≡ runs_in count fork.now))
            (IsRule 13 (IsExtentList geometry.now count fork.now)) }
    {
        let extents = match Extents::read(alloc, fork, count) {
            Ok(extents) => extents,
            Err(ExtentFault::Bad { .. }) => return Err(ForkFault::of_rule(13)),
            Err(ExtentFault::Memory) => return Err(ForkFault::Memory),
        };
        if !extents.are_home(geometry) {
            return Err(ForkFault::of_rule(13));
        }
        Ok(extents)
    }
}

impl Core {
    /// Rule 13 of the inode whose core this is: the lists of extents of its forks. The data fork is looked at only where it is a
    /// directory's.
    pub fn check_fork_lists(
        &self,
        alloc: Global,
        geometry: &Super,
        inode: &[u8],
    ) -> Result<(), ForkFault>
        requires core { CoreHolds inode.now self.now }
        requires forks { HasForks inode.now }
        ensures { MatchResult result (λ _. HasForkLists geometry.now inode.now) (IsRule 13 (HasForkLists geometry.now inode.now)) }
    {
        if self.kind() == Kind::Dir {
            self.check_data_list(alloc, geometry, inode)?;
        }
        self.check_attr_list(alloc, geometry, inode)
    }

    /// Rule 13 of the data fork, where it is a list of extents.
    fn check_data_list(
        &self,
        alloc: Global,
        geometry: &Super,
        inode: &[u8],
    ) -> Result<(), ForkFault>
        requires core { CoreHolds inode.now self.now }
        requires forks { HasForks inode.now }
        ensures { MatchResult result (λ _. HasDataList geometry.now inode.now) (IsRule 13 (HasDataList geometry.now inode.now)) }
    {
        if self.data_format() == EXTENTS_FORMAT {
            Extents::of_fork(alloc, geometry, self.data_fork(inode), self.data_extents())?;
        }
        Ok(())
    }

    /// Rule 13 of the attribute fork of the inode whose core this is, where it is there and a list of extents.
    pub fn check_attr_list(
        &self,
        alloc: Global,
        geometry: &Super,
        inode: &[u8],
    ) -> Result<(), ForkFault>
        requires core { CoreHolds inode.now self.now }
        requires forks { HasForks inode.now }
        ensures { MatchResult result (λ _. HasAttrList geometry.now inode.now) (IsRule 13 (HasAttrList geometry.now inode.now)) }
    {
        if self.forkoff() != 0 && self.attr_format() == EXTENTS_FORMAT {
            Extents::of_fork(alloc, geometry, self.attr_fork(inode), self.attr_extents())?;
        }
        Ok(())
    }
}
