//! The text of a directory.

ghost use Rattle.std.specs.Prelude.{◌≡◌, IfSome};
ghost use Rattle.xn_bytes.specs.Superblock.{IsInode};
ghost use Rattle.xn_bytes.specs.Inode.{inode_of};
ghost use Rattle.xn_inode.specs.Frames.{StoreStays};
ghost use Rattle.xn_dir.specs.Inodes.{IsDirectory};

use crate::ending::Ending;
use crate::home::{home_of, is_directory};
use std::alloc::{AllocError, Global};
use xn_bytes::{Memory, escape, name_hash};
use xn_dir::{Dir, Listed};
use xn_inode::{ForkFault, Store};
use xn_machine::Machine;
use xn_replay::Seen;

/// The text of a directory of the machine's image, and how the run ends with it.
pub fn answer<M: Machine>(
    alloc: Global,
    machine: &mut M,
    ino: u64,
) -> Result<(Ending, Vec<u8>), AllocError> {
    let mut text = Vec::new(alloc);
    let Some(mut view) = home_of(alloc, machine) else {
        text.extend_from_slice(b"no superblock\n")?;
        return Ok((Ending::Broken, text));
    };
    let mut seen = Seen {
        view: &mut view,
        machine,
    };
    let ending = match show_inode(alloc, &mut seen, ino, &mut text) {
        Ok(ending) => ending,
        Err(fault) => push_fault(alloc, fault, &mut text)?,
    };
    Ok((ending, text))
}

/// Appends the text of an inode that is a directory's, or `no directory`.
fn show_inode<S: Store>(
    alloc: Global,
    store: &mut S,
    ino: u64,
    text: &mut Vec<u8>,
) -> Result<Ending, ForkFault>
    requires { S.IsWhole store.old }
{
    if store.geometry().is_inode(ino) && is_directory(store, ino)? {
        return show_directory(alloc, store, ino, text);
    }
    text.extend_from_slice(b"no directory\n")?;
    Ok(Ending::Failed)
}

/// Appends the text of a directory.
fn show_directory<S: Store>(
    alloc: Global,
    store: &mut S,
    dir: u64,
    text: &mut Vec<u8>,
) -> Result<Ending, ForkFault>
    requires whole { S.IsWhole store.old }
    requires place { IsInode (S.shape store.old) dir }
    requires directory { IfSome (S.image store.old) (λ x. IsDirectory (inode_of (S.shape store.old) x dir)) }
{
    let listed = Dir::list(alloc, store, dir)?;
    let parent = Dir::parent(alloc, store, dir)?;
    push_entries(alloc, parent, &listed, text)?;
    match first_lost(alloc, store, dir, &listed)? {
        None => {
            let count = listed.len();
            text.extend_from_slice(format!(in alloc; "looked up {count}\n")?.as_bytes())?;
            Ok(Ending::Shown)
        }
        Some(entry) => {
            push_lost(entry, text)?;
            Ok(Ending::Failed)
        }
    }
}

/// The first entry whose name is not found as it is listed.
fn first_lost<'l, S: Store>(
    alloc: Global,
    store: &mut S,
    dir: u64,
    listed: &'l [Listed],
) -> Result<Option<&'l Listed>, ForkFault>
    requires whole { S.IsWhole store.old }
    requires place { IsInode (S.shape store.old) dir }
    requires directory { IfSome (S.image store.old) (λ x. IsDirectory (inode_of (S.shape store.old) x dir)) }
{
    for entry in listed {
        if !is_found(alloc, store, dir, entry)? {
            return Ok(Some(entry));
        }
    }
    Ok(None)
}

/// Whether a name is found with the inode, kind and position that are listed.
fn is_found<S: Store>(
    alloc: Global,
    store: &mut S,
    dir: u64,
    entry: &Listed,
) -> Result<bool, ForkFault>
    requires whole { S.IsWhole store.old }
    requires place { IsInode (S.shape store.old) dir }
    requires directory { IfSome (S.image store.old) (λ x. IsDirectory (inode_of (S.shape store.old) x dir)) }
    ensures stays { StoreStays S.Store store.old store.new }
{
    match Dir::lookup(alloc, store, dir, &entry.name)? {
        Some(found) => Ok(
            found.ino == entry.ino && found.kind == entry.kind && found.position == entry.position,
        ),
        None => Ok(false),
    }
}

/// Appends the parent's line, and one for each entry.
fn push_entries(
    alloc: Global,
    parent: u64,
    listed: &[Listed],
    text: &mut Vec<u8>,
) -> Result<(), ForkFault> {
    text.extend_from_slice(format!(in alloc; "parent {parent}\n")?.as_bytes())?;
    for entry in listed {
        push_entry(alloc, entry, text).map_err(|_| ForkFault::Memory)?;
    }
    Ok(())
}

/// Appends `POSITION HASH INO KIND NAME`.
fn push_entry(alloc: Global, entry: &Listed, text: &mut Vec<u8>) -> Result<(), Memory> {
    let position = entry.position;
    let hash = name_hash(entry.name.bytes());
    let ino = entry.ino;
    let kind = entry.kind.word();
    let front = format!(in alloc; "{position} 0x{hash:08x} {ino} {kind} ")?;
    text.extend_from_slice(front.as_bytes())?;
    escape(entry.name.bytes(), text)?;
    text.push(b'\n')?;
    Ok(())
}

/// Appends the line of a name that is not found as it is listed.
fn push_lost(entry: &Listed, text: &mut Vec<u8>) -> Result<(), ForkFault> {
    text.extend_from_slice(b"lookup of ")?;
    escape(entry.name.bytes(), text).map_err(|_| ForkFault::Memory)?;
    text.extend_from_slice(b" differs\n")?;
    Ok(())
}

/// Appends why a directory can't be shown.
fn push_fault(alloc: Global, fault: ForkFault, text: &mut Vec<u8>) -> Result<Ending, AllocError> {
    let (ending, line) = match fault {
        ForkFault::Read => (Ending::Fault, format!(in alloc; "read fault\n")?),
        ForkFault::Memory => (Ending::Fault, format!(in alloc; "no memory\n")?),
        ForkFault::Broken { rule, block } => (
            Ending::Broken,
            format!(in alloc; "broken rule {rule} block {block}\n")?,
        ),
    };
    text.extend_from_slice(line.as_bytes())?;
    Ok(ending)
}
