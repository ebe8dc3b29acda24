//! `parents`: the entries that name an inode, by its parent records.

ghost use Rattle.std.specs.Prelude.{◌≡◌, ◌+◌, ◌≤◌, IfOk, IfSome, map};
ghost use Rattle.xn_bytes.specs.Inode.{inode_of};
ghost use Rattle.xn_meaning.specs.Manifests.{HasPlaces, IsLive};
ghost use Rattle.xn_meaning.specs.Reading.{ParentsEnd};
ghost use Rattle.xn_inode.specs.Frames.{StoreStays};
ghost use Rattle.xn_attr.specs.Costs.{list_most};
ghost use Rattle.xn_ns.specs.Ends.{Answered};
ghost use Rattle.xn_ns.specs.Lines.{parent_line};

use crate::fault::{SeeFault, of_inode};
use crate::sight::is_live;
use std::alloc::{AllocError, Global};
use xn_inode::Store;
use xn_items::ParentRec;
use xn_meaning::Errno;
use xn_text::{Manifest, ParentLine, ParentLines, Reply};

/// What `parents` of an inode answers: its parent records, by the number of the directory and then by the bytes of the name;
/// `ENOENT` where it is not live. It reads the inode where it is live, and each block of its attribute fork's tree, if there is
/// one, once.
pub fn parents<S: Store>(
    alloc: Global,
    store: &mut S,
    manifest: &Manifest,
    ino: u64,
) -> Result<Reply, SeeFault>
    requires whole { S.IsWhole store.old }
    requires places { HasPlaces (S.shape store.old) manifest.now }
    ensures answered { Answered (ParentsEnd (S.shape store.old) manifest.now ino) (S.image store.old) (S.faults store.old) (S.faults store.new) result }
    ensures stays { StoreStays S.Store store.old store.new }
    ensures fetches { IfSome (S.image store.old) (λ x. S.fetches store.new ≤ S.fetches store.old + list_most (inode_of (S.shape store.old) x ino)) }
    ensures looks { ¬ IsLive (S.shape store.old) manifest.now ino → S.fetches store.new ≡ S.fetches store.old }
{
    if !is_live(store.geometry(), manifest, ino) {
        return Ok(Reply::Error(Errno::ENOENT));
    }
    match xn_parent::parents(alloc, store, ino) {
        Ok(records) => Ok(Reply::Parents(ParentLines::new(lines_of(alloc, records)?))),
        Err(fault) => Err(of_inode(fault, ino)),
    }
}

/// A line for each parent, in their order.
fn lines_of(alloc: Global, parents: Vec<ParentRec>) -> Result<Vec<ParentLine>, AllocError>
    ensures { IfOk result (λ lines. lines.items ≡ map parent_line parents.items) }
{
    parents.into_iter().map(into_line).collect(alloc)
}

fn into_line(parent: ParentRec) -> ParentLine
    ensures { result ≡ parent_line parent }
{
    ParentLine {
        dir: parent.dir,
        generation: parent.generation,
        name: parent.name,
    }
}
