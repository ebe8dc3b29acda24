//! `list`: the entries of a directory, sorted by name.

ghost use Rattle.std.specs.Prelude.{◌≡◌, ◌+◌, ◌≤◌, IfOk, IfSome, map};
ghost use Rattle.xn_meaning.specs.Manifests.{HasPlaces};
ghost use Rattle.xn_meaning.specs.Reading.{ListEnds, ListsDirectory, IsAttached};
ghost use Rattle.xn_bytes.specs.Superblock.{IsInode};
ghost use Rattle.xn_bytes.specs.Inode.{inode_of};
ghost use Rattle.xn_bytes.specs.Directory.{HasNames};
ghost use Rattle.xn_bytes.specs.Costs.{list_cost};
ghost use Rattle.xn_inode.specs.Frames.{StoreStays};
ghost use Rattle.xn_dir.specs.Inodes.{IsDirectory};
ghost use Rattle.xn_dir.specs.Listings.{entry_of};
ghost use Rattle.xn_text.specs.Viewed.{line_of};
ghost use Rattle.xn_ns.specs.Ends.{Answered};
ghost use Rattle.xn_ns.specs.Lines.{AreLinesOf, listed_line};

use crate::fault::{SeeFault, of_inode};
use crate::sight::{Sight, look_at};
use std::alloc::{AllocError, Global};
use xn_dir::{Dir, Listed};
use xn_inode::Store;
use xn_meaning::Errno;
use xn_text::{Lines, ListLine, Manifest, Reply};

/// What `list` of an inode answers: the entries of a directory, sorted by the bytes of their names; `ENOENT` where the
/// inode is not live, or a directory that no entry names; `ENOTDIR` where it is none. It reads the inode where it is live
/// and, where it is the root's or that of a directory with a link, what the directory's form needs; else nothing more.
pub fn list<S: Store>(
    alloc: Global,
    store: &mut S,
    manifest: &Manifest,
    ino: u64,
) -> Result<Reply, SeeFault>
    requires whole { S.IsWhole store.old }
    requires places { HasPlaces (S.shape store.old) manifest.now }
    ensures answered { Answered (ListEnds (S.shape store.old) manifest.now ino) (S.image store.old) (S.faults store.old) (S.faults store.new) result }
    ensures stays { StoreStays S.Store store.old store.new }
    ensures fetches { IfSome (S.image store.old) (λ x. S.fetches store.new ≤ S.fetches store.old + 1 + list_cost (inode_of (S.shape store.old) x ino)) }
    ensures looks { IfSome (S.image store.old) (λ x. ¬ IsAttached (S.shape store.old) manifest.now (inode_of (S.shape store.old) x ino) ino → S.fetches store.new ≤ S.fetches store.old + 1) }
{
    match look_at(store, manifest, ino)? {
        Sight::Gone | Sight::Detached => Ok(Reply::Error(Errno::ENOENT)),
        Sight::Broken { rule } => Err(SeeFault::Broken {
            rule,
            inode: ino,
            block: 0,
        }),
        Sight::Other => Ok(Reply::Error(Errno::ENOTDIR)),
        Sight::Attached => list_directory(alloc, store, ino),
    }
}

/// The list of a directory.
fn list_directory<S: Store>(alloc: Global, store: &mut S, dir: u64) -> Result<Reply, SeeFault>
    requires whole { S.IsWhole store.old }
    requires place { IsInode (S.shape store.old) dir }
    requires directory { IfSome (S.image store.old) (λ x. IsDirectory (inode_of (S.shape store.old) x dir)) }
    ensures answered { Answered (ListsDirectory (S.shape store.old) dir) (S.image store.old) (S.faults store.old) (S.faults store.new) result }
    ensures stays { StoreStays S.Store store.old store.new }
    ensures fetches { IfSome (S.image store.old) (λ x. S.fetches store.new ≤ S.fetches store.old + list_cost (inode_of (S.shape store.old) x dir)) }
{
    match Dir::list(alloc, store, dir) {
        Ok(listed) => Ok(Reply::List(Lines::new(sorted_lines(alloc, listed)?))),
        Err(fault) => Err(of_inode(fault, dir)),
    }
}

/// The lines of entries, sorted by the bytes of their names.
fn sorted_lines(alloc: Global, listed: Vec<Listed>) -> Result<Vec<ListLine>, AllocError>
    requires { HasNames (map entry_of listed.items) }
    ensures { IfOk result (λ lines. AreLinesOf (map entry_of listed.items) (map line_of lines.items)) }
{
    let mut lines = lines_of(alloc, listed)?;
    // Numbers are sorted fastest. The second sort finds all in place whose first bytes differ.
    lines.sort_by_cached_key(|line| front_of(line.name.bytes()))?;
    lines.sort_by(|line, other| line.name.bytes().cmp(other.name.bytes()))?;
    Ok(lines)
}

/// The first bytes of a name as a number, zeros behind a name that has fewer.
fn front_of(name: &[u8]) -> u64 {
    let mut bytes = [0; 8];
    let len = name.len().min(8);
    bytes[..len].copy_from_slice(&name[..len]);
    u64::from_be_bytes(bytes)
}

/// A line for each entry, in their order.
fn lines_of(alloc: Global, listed: Vec<Listed>) -> Result<Vec<ListLine>, AllocError>
    ensures { IfOk result (λ lines. lines.items ≡ map listed_line listed.items) }
{
    listed.into_iter().map(into_line).collect(alloc)
}

fn into_line(entry: Listed) -> ListLine
    ensures { result ≡ listed_line entry }
{
    ListLine {
        ino: entry.ino,
        kind: entry.kind,
        name: entry.name,
    }
}
