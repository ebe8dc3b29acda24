//! What a directory holds, or the rule that it breaks.

ghost use Rattle.std.specs.Prelude.{◌≡◌, ◌↔◌, IsTrue, IfOk, IfErr, IfSome, MatchResult};
ghost use Rattle.xn_bytes.specs.Causes.{Rose};
ghost use Rattle.xn_bytes.specs.DirectoryRules.{DirBreaks, HasInode};
ghost use Rattle.xn_bytes.specs.Inode.{inode_of};
ghost use Rattle.xn_bytes.specs.DirectoryHolds.{HasDotdot};
ghost use Rattle.xn_bytes.specs.Superblock.{IsBlock, IsInode};
ghost use Rattle.xn_dir.specs.Faults.{IsFaultOf};
ghost use Rattle.xn_inode.specs.Frames.{StoreStays};
ghost use Rattle.xn_inode.specs.declared.fork_fault.ForkFault.TheVariants as fork;
ghost use Rattle.xn_inode.specs.declared.store.StoreFault.TheVariants.{Read, Memory};
ghost use Rattle.xn_rules.specs.InodeRules.{IsOfDirectory};
ghost use Rattle.xn_rules.specs.NameRules.{HasDot};
ghost use Rattle.xn_facts.specs.Facts.{AreContents, IsFirstBlock};

use crate::facts::{Broken, Contents};
use std::alloc::Global;
use xn_bytes::u64_at;
use xn_dir::Dir;
use xn_inode::{Core, EXTENTS_FORMAT, Extents, ForkFault, Store, StoreFault, Super};

const BLOCK_BYTES: usize = 4096;

/// Where the inode of dot stands in a directory's first block, of which dot is the first entry.
const DOT: usize = 64;

/// What the directory of this inode, whose bytes are at hand, holds; else the first of the rules 10, 11, 13 and 15 to 21 that it
/// breaks, of 21 as far as it speaks of names. It reads the inode twice and each block once, the first one three times.
pub(crate) fn contents_of<S: Store>(
    alloc: Global,
    store: &mut S,
    dir: u64,
    inode: &[u8],
) -> Result<Result<Contents, Broken>, StoreFault>
    requires whole { S.IsWhole store.old }
    requires place { IsInode (S.shape store.old) dir }
    requires bytes { IfSome (S.image store.old) (λ x. inode.now ≡ inode_of (S.shape store.old) x dir) }
    requires directory { IsOfDirectory inode.now }
    ensures verdict { IfOk result (λ verdict. IfSome (S.image store.old) (λ x. MatchResult verdict (AreContents (S.shape store.old) x dir) (λ broken. DirBreaks (S.shape store.old) x dir broken.rule broken.block))) }
    ensures cause { IfErr result (λ fault. fault ≡ Read → Rose (S.faults store.old) (S.faults store.new)) }
    ensures stays { StoreStays S.Store store.old store.new }
{
    match read_contents(alloc, store, dir, inode) {
        Ok(contents) => Ok(Ok(contents)),
        Err(fault) => Ok(Err(Broken::of_fault(fault)?)),
    }
}

/// The same, with what fails as a fault of the fork.
fn read_contents<S: Store>(
    alloc: Global,
    store: &mut S,
    dir: u64,
    inode: &[u8],
) -> Result<Contents, ForkFault>
    requires whole { S.IsWhole store.old }
    requires place { IsInode (S.shape store.old) dir }
    requires bytes { IfSome (S.image store.old) (λ x. inode.now ≡ inode_of (S.shape store.old) x dir) }
    requires directory { IsOfDirectory inode.now }
    ensures contents { IfOk result (λ contents. IfSome (S.image store.old) (λ x. AreContents (S.shape store.old) x dir contents)) }
    ensures fault { IfErr result (IsFaultOf S.Store dir store.old store.new) }
    ensures stays { StoreStays S.Store store.old store.new }
{
    let entries = Dir::list(alloc, store, dir)?;
    let dotdot = dotdot_of(alloc, store, dir)?;
    let has_dot = has_dot(alloc, store, dir, inode)?;
    Ok(Contents {
        entries,
        dotdot,
        has_dot,
    })
}

/// The dotdot of a directory whose entries were read.
fn dotdot_of<S: Store>(alloc: Global, store: &mut S, dir: u64) -> Result<u64, StoreFault>
    requires whole { S.IsWhole store.old }
    requires place { IsInode (S.shape store.old) dir }
    requires directory { IfSome (S.image store.old) (λ x. IsOfDirectory (inode_of (S.shape store.old) x dir)) }
    ensures dotdot { IfOk result (λ dotdot. IfSome (S.image store.old) (λ x. HasDotdot (S.shape store.old) x dir dotdot)) }
    ensures cause { IfErr result (λ fault. fault ≡ Read → Rose (S.faults store.old) (S.faults store.new)) }
    ensures stays { StoreStays S.Store store.old store.new }
{
    match Dir::parent(alloc, store, dir) {
        Ok(dotdot) => Ok(dotdot),
        Err(fault) => Err(without_rule(fault)),
    }
}

/// Whether dot, where it stands in a block, is the directory itself, of which rules 10, 11 and 13 hold.
fn has_dot<S: Store>(
    alloc: Global,
    store: &mut S,
    dir: u64,
    inode: &[u8],
) -> Result<bool, StoreFault>
    requires whole { S.IsWhole store.old }
    requires bytes { IfSome (S.image store.old) (λ x. inode.now ≡ inode_of (S.shape store.old) x dir) }
    ensures dot { IfOk result (λ has_dot. IfSome (S.image store.old) (λ x. IsTrue has_dot ↔ HasDot (S.shape store.old) x dir)) }
    ensures cause { IfErr result (λ fault. fault ≡ Read → Rose (S.faults store.old) (S.faults store.new)) }
    ensures stays { StoreStays S.Store store.old store.new }
{
    let Some(block) = first_block(alloc, store.geometry(), dir, inode)? else {
        return Ok(true);
    };
    let mut bytes = [0; BLOCK_BYTES];
    store.block(block, &mut bytes)?;
    Ok(u64_at(&bytes, DOT) == dir)
}

/// The first data block of a directory of which rules 10, 11 and 13 hold, where it has blocks.
fn first_block(
    alloc: Global,
    geometry: &Super,
    dir: u64,
    inode: &[u8],
) -> Result<Option<u64>, StoreFault>
    ensures block { IfOk result (IsFirstBlock inode.now) }
    ensures place { IfOk result (λ found. IfSome found (IsBlock geometry.now)) }
    ensures memory { IfErr result (λ fault. fault ≡ Memory) }
{
    let Ok(core) = Core::of_inode(geometry, dir, inode) else {
        return Err(StoreFault::Memory);
    };
    if core.data_format() != EXTENTS_FORMAT {
        return Ok(None);
    }
    match Extents::of_fork(alloc, geometry, core.data_fork(inode), core.data_extents()) {
        Ok(extents) => Ok(extents.block_at(0)),
        Err(fault) => Err(without_rule(fault)),
    }
}

/// The fault of a second look at what was found to break no rule. Where no image is told, the two looks may differ; there is no
/// word of its own for that.
fn without_rule(fault: ForkFault) -> StoreFault
    ensures { result ≡ Read → fault ≡ fork.Read }
{
    match fault {
        ForkFault::Read => StoreFault::Read,
        ForkFault::Memory | ForkFault::Broken { .. } => StoreFault::Memory,
    }
}
