//! The facts of an inode of a store.

ghost use Rattle.std.specs.Prelude.{◌≡◌, ◌↔◌, IsTrue, IfErr, IfOk, IfSome, OnOk, MatchResult, map};
ghost use Rattle.std.specs.Result.{result_ok, result_err};
ghost use Rattle.xn_bytes.specs.Causes.{Rose};
ghost use Rattle.xn_bytes.specs.Inode.{CoreHolds, HasBothForks, HasCore, inode_of};
ghost use Rattle.xn_bytes.specs.ParentRecords.{ListsParents, ParentsBreak};
ghost use Rattle.xn_bytes.specs.Superblock.{IsInode};
ghost use Rattle.xn_inode.specs.Frames.{StoreStays};
ghost use Rattle.xn_inode.specs.declared.store.StoreFault.TheVariants.{Read};
ghost use Rattle.xn_items.specs.Viewed.{record_of};
ghost use Rattle.xn_rules.specs.InodeRules.{IsOfDirectory};
ghost use Rattle.xn_facts.specs.Blocks.{IsAtHand};
ghost use Rattle.xn_facts.specs.Owned.{IsCoreVerdict};
ghost use Rattle.xn_facts.specs.Facts.{FactsHold};
ghost use Rattle.xn_facts.specs.Seen.{AreSeenParents, IsSeenDirectory};

use crate::contents::contents_of;
use crate::facts::{Broken, Contents, Facts, Node, lesser};
use crate::inodes::InodeBlock;
use crate::own::own_of;
use std::alloc::Global;
use xn_bytes::{Kind, u16_at};
use xn_inode::{Core, CoreFault, Store, StoreFault};
use xn_items::ParentRec;
use xn_parent::parents_in_inode;

const INODE_BYTES: usize = 512;

/// What the rules on one inode and its blocks say of this inode. It reads the inode's block, if that isn't the one at hand, of a
/// directory the inode twice, and each block of its forks once, of a directory the first one three times.
pub fn facts_of<S: Store>(
    alloc: Global,
    store: &mut S,
    at_hand: &mut InodeBlock,
    ino: u64,
) -> Result<Facts, StoreFault>
    requires whole { S.IsWhole store.old }
    requires place { IsInode (S.shape store.old) ino }
    requires held { IfSome (S.image store.old) (λ x. IsAtHand (S.shape store.old) x at_hand.old) }
    ensures held { OnOk result (IfSome (S.image store.new) (λ x. IsAtHand (S.shape store.new) x at_hand.new)) }
    ensures number { IfOk result (λ facts. facts.node.ino ≡ ino) }
    ensures facts { IfOk result (λ facts. IfSome (S.image store.old) (λ x. FactsHold (S.shape store.old) x facts)) }
    ensures cause { IfErr result (λ fault. fault ≡ Read → Rose (S.faults store.old) (S.faults store.new)) }
    ensures stays { StoreStays S.Store store.old store.new }
{
    let mut inode = [0; INODE_BYTES];
    at_hand.inode(store, ino, &mut inode)?;
    let is_directory = is_directory(&inode);
    let core = Core::of_inode(store.geometry(), ino, &inode);
    let own = own_of(alloc, store.geometry(), ino, &core, &inode)?;
    let (contents, of_directory) = directory_of(alloc, store, ino, &inode)?;
    let (parents, of_parents) = records_of(alloc, store, ino, &core, &inode)?;
    let broken = lesser(of_directory, lesser(own.broken, of_parents));
    let node = Node {
        ino,
        is_directory,
        known: own.known,
        parents,
        broken,
    };
    Ok(Facts {
        node,
        contents,
        runs: own.runs,
    })
}

/// What an inode, whose bytes are at hand, holds as a directory, or the first of the rules on directories that it breaks; neither
/// where it is none.
fn directory_of<S: Store>(
    alloc: Global,
    store: &mut S,
    ino: u64,
    inode: &[u8; INODE_BYTES],
) -> Result<(Option<Contents>, Option<Broken>), StoreFault>
    requires whole { S.IsWhole store.old }
    requires place { IsInode (S.shape store.old) ino }
    requires bytes { IfSome (S.image store.old) (λ x. inode.now ≡ inode_of (S.shape store.old) x ino) }
    ensures found { IfOk result (λ found. IfSome (S.image store.old) (λ x. IsSeenDirectory (S.shape store.old) x ino found.0 found.1)) }
    ensures cause { IfErr result (λ fault. fault ≡ Read → Rose (S.faults store.old) (S.faults store.new)) }
    ensures stays { StoreStays S.Store store.old store.new }
{
    if is_directory(inode) {
        let verdict = contents_of(alloc, store, ino, inode)?;
        Ok(both(verdict))
    } else {
        Ok((None, None))
    }
}

/// The parent records of an inode, or the first of the rules on them that it breaks.
fn records_of<S: Store>(
    alloc: Global,
    store: &mut S,
    ino: u64,
    core: &Result<Core, CoreFault>,
    inode: &[u8],
) -> Result<(Option<Vec<ParentRec>>, Option<Broken>), StoreFault>
    requires whole { S.IsWhole store.old }
    requires place { IsInode (S.shape store.old) ino }
    requires bytes { IfSome (S.image store.old) (λ x. inode.now ≡ inode_of (S.shape store.old) x ino) }
    requires core { IsCoreVerdict (S.shape store.old) ino inode.now core.now }
    ensures found { IfOk result (λ found. IfSome (S.image store.old) (λ x. AreSeenParents (S.shape store.old) x ino found.0 found.1)) }
    ensures cause { IfErr result (λ fault. fault ≡ Read → Rose (S.faults store.old) (S.faults store.new)) }
    ensures stays { StoreStays S.Store store.old store.new }
{
    match core {
        Ok(core) => {
            let verdict = parents_of(alloc, store, ino, core, inode)?;
            Ok(both(verdict))
        }
        Err(fault) => Ok((None, Some(Broken::of_core(*fault)))),
    }
}

/// A verdict as what is there of the two.
fn both<T>(verdict: Result<T, Broken>) -> (Option<T>, Option<Broken>)
    ensures value { result.0 ≡ result_ok verdict }
    ensures broken { result.1 ≡ result_err verdict }
{
    match verdict {
        Ok(value) => (Some(value), None),
        Err(broken) => (None, Some(broken)),
    }
}

/// The parent records of an inode, or the rule that it breaks.
fn parents_of<S: Store>(
    alloc: Global,
    store: &mut S,
    ino: u64,
    core: &Core,
    inode: &[u8],
) -> Result<Result<Vec<ParentRec>, Broken>, StoreFault>
    requires whole { S.IsWhole store.old }
    requires place { IsInode (S.shape store.old) ino }
    requires bytes { IfSome (S.image store.old) (λ x. inode.now ≡ inode_of (S.shape store.old) x ino) }
    requires core { CoreHolds inode.now core.now }
    requires rule_ten { HasCore inode.now ino (S.shape store.old).meta_uuid }
    requires rule_eleven { HasBothForks (S.shape store.old) inode.now ino }
    ensures verdict { IfOk result (λ verdict. IfSome (S.image store.old) (λ x. MatchResult verdict
        (λ parents. ListsParents (S.shape store.old) x ino (map record_of parents.items))
        (λ broken. ParentsBreak (S.shape store.old) x ino broken.rule broken.block))) }
    ensures cause { IfErr result (λ fault. fault ≡ Read → Rose (S.faults store.old) (S.faults store.new)) }
    ensures stays { StoreStays S.Store store.old store.new }
{
    match parents_in_inode(alloc, store, ino, core, inode) {
        Ok(parents) => Ok(Ok(parents)),
        Err(fault) => Ok(Err(Broken::of_fault(fault)?)),
    }
}

/// Whether the mode is a directory's.
fn is_directory(inode: &[u8; INODE_BYTES]) -> bool
    ensures { IsTrue result ↔ IsOfDirectory inode.now }
{
    Kind::from_mode(u16_at(inode, 2)) == Some(Kind::Dir)
}
