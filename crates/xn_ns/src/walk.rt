//! `resolve`: the walk of a path from the root.

ghost use Rattle.std.specs.Prelude.{◌≡◌, ◌+◌, ◌*◌, ◌≤◌, ℕ, List, IfOk, IfSome, MatchResult, length};
ghost use Rattle.xn_bytes.specs.Names.{IsName, IsNameFault};
ghost use Rattle.xn_meaning.specs.NameSpace.{part_error};
ghost use Rattle.xn_bytes.specs.Hashes.{name_hash_of};
ghost use Rattle.xn_meaning.specs.Manifests.{HasPlaces, IsLive};
ghost use Rattle.xn_meaning.specs.Paths.{parts_of};
ghost use Rattle.xn_meaning.specs.Reading.{ResolveEnds, TakesInImage, TakesPart};
ghost use Rattle.xn_bytes.specs.Superblock.{IsInode};
ghost use Rattle.xn_bytes.specs.Inode.{inode_of};
ghost use Rattle.xn_inode.specs.Frames.{StoreStays};
ghost use Rattle.xn_dir.specs.Inodes.{IsDirectory};
ghost use Rattle.xn_ns.specs.Costs.{CostsAtMost, LookUpCostsAtMost, StepCostsAtMost};
ghost use Rattle.xn_ns.specs.Ends.{Answered};
ghost use Rattle.xn_ns.specs.Steps.{IsTaken, WalkEnds, place_of};

use crate::fault::{SeeFault, of_inode};
use crate::parts::first_part;
use crate::sight::{Sight, is_live, look_at};
use std::alloc::Global;
use xn_bytes::{Kind, Name, NameFault};
use xn_dir::Dir;
use xn_inode::Store;
use xn_meaning::Errno;
use xn_text::{Manifest, Reply};

/// Where a walk is: an inode, and its kind by the entry that led there.
#[derive(Clone, Copy, Debug, PartialEq, Eq)]
pub(crate) struct Place {
    pub(crate) ino: u64,
    pub(crate) kind: Kind,
}

/// What comes of one part of a path.
#[derive(Clone, Copy, Debug, PartialEq, Eq)]
pub(crate) enum Step {
    /// The walk goes on from there.
    Goes(Place),
    /// It ends with a refusal.
    Refused(Errno),
}

/// What `resolve` of a path answers: the inode to which its parts lead from the root, and its kind. A part behind what is
/// no directory is `ENOTDIR`; one that is no name `ENAMETOOLONG` or `EINVAL`; one that no entry has `ENOENT`. Empty parts
/// are passed over. For each part it reads the directory's inode and what a look-up in its form needs. Where the root is not
/// live, the image breaks rule 5, and nothing is read.
pub fn resolve<S: Store>(
    alloc: Global,
    store: &mut S,
    manifest: &Manifest,
    path: &[u8],
) -> Result<Reply, SeeFault>
    requires whole { S.IsWhole store.old }
    requires places { HasPlaces (S.shape store.old) manifest.now }
    ensures answered { Answered (ResolveEnds (S.shape store.old) manifest.now path.now) (S.image store.old) (S.faults store.old) (S.faults store.new) result }
    ensures stays { StoreStays S.Store store.old store.new }
    ensures fetches { IfSome (S.image store.old) (λ x. (most : ℕ) → CostsAtMost (S.shape store.old) manifest.now x path.now most → S.fetches store.new ≤ S.fetches store.old + (1 + most) * length (parts_of path.now)) }
    ensures looks { ¬ IsLive (S.shape store.old) manifest.now (S.shape store.old).root → S.fetches store.new ≡ S.fetches store.old }
{
    let root = store.geometry().root();
    if !is_live(store.geometry(), manifest, root) {
        return Err(SeeFault::Broken {
            rule: 5,
            inode: 0,
            block: 0,
        });
    }
    walk_from_root(alloc, store, manifest, path)
}

/// The walk of a path from the root.
fn walk_from_root<S: Store>(
    alloc: Global,
    store: &mut S,
    manifest: &Manifest,
    path: &[u8],
) -> Result<Reply, SeeFault>
    requires whole { S.IsWhole store.old }
    requires places { HasPlaces (S.shape store.old) manifest.now }
    ensures answered { Answered (WalkEnds (S.shape store.old) manifest.now path.now) (S.image store.old) (S.faults store.old) (S.faults store.new) result }
    ensures stays { StoreStays S.Store store.old store.new }
    ensures fetches { IfSome (S.image store.old) (λ x. (most : ℕ) → CostsAtMost (S.shape store.old) manifest.now x path.now most → S.fetches store.new ≤ S.fetches store.old + (1 + most) * length (parts_of path.now)) }
{
    let mut here = Place {
        ino: store.geometry().root(),
        kind: Kind::Dir,
    };
    let mut rest = path;
    while let Some((part, behind)) = first_part(rest) {
        match take_part(alloc, store, manifest, here, part)? {
            Step::Goes(place) => here = place,
            Step::Refused(error) => return Ok(Reply::Error(error)),
        }
        rest = behind;
    }
    Ok(Reply::Entry {
        ino: here.ino,
        kind: here.kind,
    })
}

/// One part of a path, from a place.
fn take_part<S: Store>(
    alloc: Global,
    store: &mut S,
    manifest: &Manifest,
    here: Place,
    part: &[u8],
) -> Result<Step, SeeFault>
    requires whole { S.IsWhole store.old }
    requires places { HasPlaces (S.shape store.old) manifest.now }
    ensures taken { IsTaken (λ x. TakesInImage (S.shape store.old) manifest.now x (place_of here) part.now) (S.image store.old) (S.faults store.old) (S.faults store.new) result }
    ensures stays { StoreStays S.Store store.old store.new }
    ensures fetches { IfSome (S.image store.old) (λ x. (most : ℕ) → StepCostsAtMost (S.shape store.old) manifest.now x (place_of here) part.now most → S.fetches store.new ≤ S.fetches store.old + (1 + most)) }
{
    if here.kind != Kind::Dir {
        return Ok(Step::Refused(Errno::ENOTDIR));
    }
    match look_at(store, manifest, here.ino)? {
        Sight::Gone | Sight::Other => Ok(Step::Refused(Errno::ENOTDIR)),
        Sight::Broken { rule } => Err(SeeFault::Broken {
            rule,
            inode: here.ino,
            block: 0,
        }),
        Sight::Detached | Sight::Attached => take_part_in(alloc, store, here.ino, part),
    }
}

/// One part of a path, from a directory.
fn take_part_in<S: Store>(
    alloc: Global,
    store: &mut S,
    dir: u64,
    part: &[u8],
) -> Result<Step, SeeFault>
    requires whole { S.IsWhole store.old }
    requires place { IsInode (S.shape store.old) dir }
    requires directory { IfSome (S.image store.old) (λ x. IsDirectory (inode_of (S.shape store.old) x dir)) }
    ensures taken { IsTaken (λ x. TakesPart (S.shape store.old) x dir part.now) (S.image store.old) (S.faults store.old) (S.faults store.new) result }
    ensures stays { StoreStays S.Store store.old store.new }
    ensures fetches { IfSome (S.image store.old) (λ x. (most : ℕ) → LookUpCostsAtMost (S.shape store.old) x dir (name_hash_of part.now) most → S.fetches store.new ≤ S.fetches store.old + most) }
{
    let name = match Name::read(alloc, part) {
        Ok(name) => name,
        Err(fault) => return refused(fault),
    };
    match Dir::lookup(alloc, store, dir, &name) {
        Ok(Some(entry)) => Ok(Step::Goes(Place {
            ino: entry.ino,
            kind: entry.kind,
        })),
        Ok(None) => Ok(Step::Refused(Errno::ENOENT)),
        Err(fault) => Err(of_inode(fault, dir)),
    }
}

/// What comes of a part that is no name, by the cause for which it is none.
fn refused(fault: NameFault) -> Result<Step, SeeFault>
    ensures { (part : List ℕ) → IsNameFault part fault → MatchResult result (λ step. ¬ IsName part × (step ≡ Step.Refused (part_error part))) (λ error. error ≡ SeeFault.Memory) }
{
    match fault {
        NameFault::Memory => Err(SeeFault::Memory),
        NameFault::Long => Ok(Step::Refused(Errno::ENAMETOOLONG)),
        NameFault::Empty | NameFault::Byte { .. } | NameFault::Dots => {
            Ok(Step::Refused(Errno::EINVAL))
        }
    }
}
