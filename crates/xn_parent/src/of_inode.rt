//! The parents of an inode of a store.

ghost use Rattle.std.specs.Prelude.{◌≡◌, ◌+◌, ◌≤◌, ℕ, IfOk, IfErr, IfSome, map};
ghost use Rattle.xn_bytes.specs.AttributeRoom.{IsAttrCost};
ghost use Rattle.xn_bytes.specs.Blocks.{block_of};
ghost use Rattle.xn_bytes.specs.Inode.{CoreHolds, HasBothForks, HasCore, inode_of};
ghost use Rattle.xn_bytes.specs.ParentRecords.{ListsParents};
ghost use Rattle.xn_bytes.specs.Superblock.{IsInode};
ghost use Rattle.xn_inode.specs.Frames.{StoreStays};
ghost use Rattle.xn_attr.specs.Costs.{list_most};
ghost use Rattle.xn_items.specs.Viewed.{record_of};
ghost use Rattle.xn_parent.specs.Faults.{IsParentsFault};

use crate::listed::parents_in;
use std::alloc::Global;
use xn_attr::Attr;
use xn_inode::{Core, ForkFault, Store};
use xn_items::ParentRec;

/// The parents of this inode, by the number of the directory, then by the bytes of the name. It reads the inode, and each block
/// of the attributes' tree, if there is one, once.
pub fn parents<S: Store>(
    alloc: Global,
    store: &mut S,
    ino: u64,
) -> Result<Vec<ParentRec>, ForkFault>
    requires whole { S.IsWhole store.old }
    requires place { IsInode (S.shape store.old) ino }
    ensures listed { IfOk result (λ parents. IfSome (S.image store.old) (λ x. ListsParents (S.shape store.old) x ino (map record_of parents.items))) }
    ensures fault { IfErr result (IsParentsFault S.Store ino store.old store.new) }
    ensures stays { StoreStays S.Store store.old store.new }
    ensures reads { IfOk result (λ _. IfSome (S.image store.old) (λ x. (cost : ℕ) × IsAttrCost (S.shape store.old) ino (inode_of (S.shape store.old) x ino) (block_of (S.shape store.old) x) cost × (S.fetches store.new ≤ S.fetches store.old + cost))) }
    ensures most { IfSome (S.image store.old) (λ x. S.fetches store.new ≤ S.fetches store.old + list_most (inode_of (S.shape store.old) x ino)) }
{
    let attributes = Attr::list(alloc, store, ino)?;
    parents_in(alloc, &attributes)
}

/// The same of an inode whose bytes are at hand, with the core that they spell, of which rules 10 and 11 hold. It reads each block
/// of the attributes' tree, if there is one, once.
pub fn parents_in_inode<S: Store>(
    alloc: Global,
    store: &mut S,
    ino: u64,
    core: &Core,
    inode: &[u8],
) -> Result<Vec<ParentRec>, ForkFault>
    requires whole { S.IsWhole store.old }
    requires place { IsInode (S.shape store.old) ino }
    requires bytes { IfSome (S.image store.old) (λ x. inode.now ≡ inode_of (S.shape store.old) x ino) }
    requires core { CoreHolds inode.now core.now }
    requires rule_ten { HasCore inode.now ino (S.shape store.old).meta_uuid }
    requires rule_eleven { HasBothForks (S.shape store.old) inode.now ino }
    ensures listed { IfOk result (λ parents. IfSome (S.image store.old) (λ x. ListsParents (S.shape store.old) x ino (map record_of parents.items))) }
    ensures fault { IfErr result (IsParentsFault S.Store ino store.old store.new) }
    ensures stays { StoreStays S.Store store.old store.new }
    ensures reads { IfOk result (λ _. IfSome (S.image store.old) (λ x. (cost : ℕ) × IsAttrCost (S.shape store.old) ino (inode_of (S.shape store.old) x ino) (block_of (S.shape store.old) x) cost × (S.fetches store.new + 1 ≤ S.fetches store.old + cost))) }
    ensures most { IfSome (S.image store.old) (λ x. S.fetches store.new + 1 ≤ S.fetches store.old + list_most (inode_of (S.shape store.old) x ino)) }
{
    let attributes = Attr::list_in(alloc, store, ino, core, inode)?;
    parents_in(alloc, &attributes)
}
