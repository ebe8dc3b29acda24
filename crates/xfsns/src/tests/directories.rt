//! Directories of whole images, read through a view over a machine in memory: what no answer of the program tells.

ghost use Rattle.std.specs.Prelude.{◌≡◌, true, IfOk, IfSome};
ghost use Rattle.xn_bytes.specs.Superblock.{IsInode};
ghost use Rattle.xn_bytes.specs.Inode.{inode_of};
ghost use Rattle.xn_inode.specs.Frames.{StoreStays};
ghost use Rattle.xn_dir.specs.Inodes.{IsDirectory};
ghost use Rattle.xn_replay.specs.Viewed.{IsSeen};

use super::{Answer, Asked, check_rows, forks};
use std::alloc::Global;
use std::test::Fail;
use xn_bytes::{Kind, Name, escape, u16_at, unescape};
use xn_dir::{Dir, Listed};
use xn_inode::{Store, StoreFault, Super};
use xn_machine::{Machine, MemMachine};
use xn_make::ROOT;
use xn_pool::Pool;
use xn_replay::{Seen, View};
use xn_rows::Row;

/// As many calls as the answers may take: one for the superblock, one for the inode's mode, and two for the answer.
pub(super) const CALLS: u64 = 4;

/// Calls of `Dir` on the root, and what they give. `list` tells of each entry its position, inode, kind and name.
const DIRECTORY_CALLS: &str = r"
list | block | 0 96 144 reg entry-0001 / 120 145 reg entry-0002 / 144 146 reg entry-0003 / 168 147 reg entry-0004 / 192 148 reg entry-0005 / 216 149 reg entry-0006 / 240 150 reg entry-0007 / 264 151 reg entry-0008 / 288 152 reg entry-0009 / 312 153 reg entry-0010 / 336 154 reg entry-0011
parent | block | 0 Ok(128)
lookup entry-0003 | block | 0 Ok(Some(Entry { ino: 146, kind: Reg, position: 144 }))
lookup none | block | 0 Ok(None)

# names of one hash, 0x30c1, in block form and in short form
list | block:'aA','`'c1 | 0 96 144 reg aA / 112 145 reg `\c1
parent | block:'aA','`'c1 | 0 Ok(128)
lookup aA | block:'aA','`'c1 | 0 Ok(Some(Entry { ino: 144, kind: Reg, position: 96 }))
lookup `\c1 | block:'aA','`'c1 | 0 Ok(Some(Entry { ino: 145, kind: Reg, position: 112 }))
list | short:0200_00000080_020060'aA'01_00000090_020070'`'c101_00000091 | 0 96 144 reg aA / 112 145 reg `\c1
parent | short:0200_00000080_020060'aA'01_00000090_020070'`'c101_00000091 | 0 Ok(128)
lookup aA | short:0200_00000080_020060'aA'01_00000090_020070'`'c101_00000091 | 0 Ok(Some(Entry { ino: 144, kind: Reg, position: 96 }))
lookup `\c1 | short:0200_00000080_020060'aA'01_00000090_020070'`'c101_00000091 | 0 Ok(Some(Entry { ino: 145, kind: Reg, position: 112 }))

# what is no name or stands twice is no matter of the parent
parent | block:'a/b','c' | 0 Ok(128)
parent | block:'c','..' | 0 Ok(128)
parent | block:'c',00 | 0 Ok(128)
parent | block:'a','a' | 0 Ok(128)

# broken inodes: the version, the own number, the uuid; the fork offset, the formats of the forks
parent | block inode:128 4=02 | 0 Err(Broken { rule: 10, block: 0 })
parent | block inode:128 159=81 | 0 Err(Broken { rule: 10, block: 0 })
parent | block inode:128 160=01 | 0 Err(Broken { rule: 10, block: 0 })
parent | block inode:128 82=2a | 0 Err(Broken { rule: 11, block: 0 })
parent | block inode:128 5=03 | 0 Err(Broken { rule: 11, block: 0 })
parent | block inode:128 83=03 | 0 Err(Broken { rule: 11, block: 0 })
# the extent's flag, block and count, and the inode's size
parent | block inode:128 176=80 | 0 Err(Broken { rule: 13, block: 0 })
parent | block inode:128 188=00000001 | 0 Err(Broken { rule: 13, block: 0 })
parent | block inode:128 188=08000001 | 0 Err(Broken { rule: 13, block: 0 })
parent | block inode:128 188=47e00001 | 0 Err(Broken { rule: 13, block: 0 })
parent | block inode:128 188=48000001 | 0 Err(Broken { rule: 13, block: 0 })
parent | block inode:128 188=05000000 | 0 Err(Broken { rule: 13, block: 0 })
parent | block inode:128 62=20 | 0 Err(Broken { rule: 15, block: 0 })
parent | block inode:128 62=00 | 0 Err(Broken { rule: 15, block: 0 })
";

/// The view of the home sectors, for which the superblock is read.
fn home_of<M: Machine>(alloc: Global, machine: &mut M) -> Result<View, Fail>
    ensures { IfOk result (λ view. IsSeen view (M.image machine.new) (M.sector_count machine.new) (M.read_faults machine.new) (M.reads machine.new)) }
{
    let sectors = machine.sectors();
    if sectors == 0 {
        return Err(Fail::from("there is no sector"));
    }
    let mut sector = [0; 512];
    machine.read(0, &mut sector).ok().ok_or("reading failed")?;
    let geometry = Super::read(&sector, sectors)
        .ok()
        .ok_or("the superblock is not accepted")?;
    let pool = Pool::new(alloc, &geometry, &[]).ok().ok_or("no pool")?;
    Ok(View::home(alloc, &geometry, pool))
}

/// Whether an inode is that of a directory, by its mode.
fn is_directory<S: Store>(store: &mut S, number: u64) -> Result<bool, StoreFault>
    requires whole { S.IsWhole store.old }
    requires place { IsInode (S.shape store.old) number }
    ensures directory { IfOk result (λ found. found ≡ true → IfSome (S.image store.old) (λ x. IsDirectory (inode_of (S.shape store.old) x number))) }
    ensures stays { StoreStays S.Store store.old store.new }
{
    let mut inode = [0; 512];
    store.inode(number, &mut inode)?;
    Ok(Kind::from_mode(u16_at(&inode, 2)) == Some(Kind::Dir))
}

/// Makes a call of a row on the root, and tells what it gives.
fn call<S: Store>(alloc: Global, store: &mut S, words: &[String]) -> Result<String, Fail>
    requires whole { S.IsWhole store.old }
    requires place { IsInode (S.shape store.old) ROOT }
{
    if !is_directory(store, ROOT).ok().ok_or("reading failed")? {
        return Err(Fail::from("the root is no directory"));
    }
    match words {
        [word] if word.as_str() == "list" => {
            let listed = Dir::list(alloc, store, ROOT).ok().ok_or("no list")?;
            Ok(listing(alloc, &listed)?)
        }
        [word] if word.as_str() == "parent" => {
            let parent = Dir::parent(alloc, store, ROOT);
            Ok(format!(in alloc; "{parent:?}\n")?)
        }
        [word, text] if word.as_str() == "lookup" => {
            let name = name_of(alloc, text)?;
            let found = Dir::lookup(alloc, store, ROOT, &name);
            Ok(format!(in alloc; "{found:?}\n")?)
        }
        _ => forks::call(alloc, store, words),
    }
}

fn name_of(alloc: Global, text: &str) -> Result<Name, Fail> {
    let bytes = unescape(alloc, text.as_bytes())?;
    Ok(Name::read(alloc, &bytes)?)
}

/// A line for each entry.
fn listing(alloc: Global, entries: &[Listed]) -> Result<String, Fail> {
    let mut text = Vec::new(alloc);
    for entry in entries {
        let (position, ino, kind) = (entry.position, entry.ino, entry.kind.word());
        let front = format!(in alloc; "{position} {ino} {kind} ")?;
        text.extend_from_slice(front.as_bytes())?;
        escape(entry.name.bytes(), &mut text)?;
        text.push(b'\n')?;
    }
    Ok(String::from_utf8(text).ok().ok_or("names as text")?)
}

/// The same over a row's image, of which so many calls of the machine succeed.
pub(super) fn ask_root(alloc: Global, row: &Row<'_>, calls: u64) -> Result<Answer, Fail> {
    let image = row.image(alloc)?;
    let mut machine = MemMachine::new(alloc, image, row.fails(alloc)?, None, calls, 0)?;
    let mut view = home_of(alloc, &mut machine)?;
    if !view.geometry().is_inode(ROOT) {
        return Err(Fail::from("the root is out of range"));
    }
    let mut seen = Seen {
        view: &mut view,
        machine: &mut machine,
    };
    let told = call(alloc, &mut seen, &row.words(alloc)?)?;
    Ok(Answer { status: 0, told })
}

#[test]
fn calls_on_the_root(rt: HostRuntime) {
    check_rows(&rt, Asked::Root, "calls", DIRECTORY_CALLS);
}
