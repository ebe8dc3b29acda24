ghost use Rattle.std.specs.Prelude.{◌≡◌, length, IfOk};
ghost use Rattle.xn_bytes.specs.Superblock.{IsBlock};
ghost use Rattle.xn_inode.specs.Frames.{StoreStays};
ghost use Rattle.xn_meaning.specs.Manifests.{ArePoolRuns};
ghost use Rattle.xn_replay.specs.Viewed.{IsSeen};

use std::alloc::Global;
use std::test::Fail;
use xn_inode::{Store, StoreFault, Super};
use xn_machine::{Machine, MemMachine};
use xn_make::{ROOT, directory_inode};
use xn_pool::{Pool, PoolFault};
use xn_replay::{Seen, View};

/// The block of the root directory's inode.
const ROOT_BLOCK: u64 = 16;

/// A block of zeros, and the last of its inodes.
const BLOCK: u64 = 20;

const INODE: u64 = 167;

/// A small image whose listed calls fail.
fn machine_failing(alloc: Global, fails: &[u64]) -> Result<MemMachine, Fail> {
    let image = xn_make::image(alloc, b"")?;
    Ok(MemMachine::new(alloc, image, fails.to_vec(alloc)?, None, 10, 0)?)
}

/// The view of the home sectors, for which the superblock is read, with a pool of these runs.
fn home_of<M: Machine>(alloc: Global, machine: &mut M, runs: &[(u64, u64)]) -> Result<View, Fail>
    requires { ArePoolRuns 0 runs.now }
    ensures { IfOk result (λ view. IsSeen view (M.image machine.new) (M.sector_count machine.new) (M.read_faults machine.new) (M.reads machine.new)) }
{
    let sectors = machine.sectors();
    if sectors == 0 {
        return Err(Fail::from("there is no sector"));
    }
    let mut sector = [0; 512];
    machine.read(0, &mut sector).ok().ok_or("reading failed")?;
    let geometry = Super::read(&sector, sectors)
        .ok()
        .ok_or("the superblock is not accepted")?;
    let pool = Pool::new(alloc, &geometry, runs)
        .ok()
        .ok_or("no pool is made of the runs")?;
    Ok(View::home(alloc, &geometry, pool))
}

/// Reads a block twice, as anything may that is over a store.
fn twice<S: Store>(store: &mut S, block: u64, into: &mut [u8]) -> Result<(), StoreFault>
    requires whole { S.IsWhole store.old }
    requires place { IsBlock (S.shape store.old) block }
    requires size { length into.old ≡ 4096 }
    ensures { StoreStays S.Store store.old store.new }
{
    store.block(block, into)?;
    store.block(block, into)
}

/// What such a call leaves of the machine and the view is known behind it.
fn twice_over<M: Machine>(
    view: &mut View,
    machine: &mut M,
    block: u64,
    into: &mut [u8],
) -> Result<(), StoreFault>
    requires whole { IsSeen view.old (M.image machine.old) (M.sector_count machine.old) (M.read_faults machine.old) (M.reads machine.old) }
    requires place { IsBlock view.old.shape block }
    requires size { length into.old ≡ 4096 }
    ensures view { view.new ≡ view.old }
    ensures image { M.image machine.new ≡ M.image machine.old }
    ensures told { M.told machine.new ≡ M.told machine.old }
    ensures length { M.sector_count machine.new ≡ M.sector_count machine.old }
{
    let mut seen = Seen { view, machine };
    twice(&mut seen, block, into)
}

/// Copies a block, as anything may that is over a store.
fn copy<S: Store>(store: &mut S, from: u64, to: u64, block: &mut [u8]) -> Result<(), StoreFault>
    requires whole { S.IsWhole store.old }
    requires source { IsBlock (S.shape store.old) from }
    requires place { IsBlock (S.shape store.old) to }
    requires size { length block.old ≡ 4096 }
    ensures only_called { S.OnlyCalled store.old store.new }
    ensures references { S.references store.new ≡ S.references store.old }
{
    store.block(from, block)?;
    store.put_block(to, block)
}

/// The machine stays, though the view may keep more.
fn copy_over<M: Machine>(
    view: &mut View,
    machine: &mut M,
    from: u64,
    to: u64,
    block: &mut [u8],
) -> Result<(), StoreFault>
    requires whole { IsSeen view.old (M.image machine.old) (M.sector_count machine.old) (M.read_faults machine.old) (M.reads machine.old) }
    requires source { IsBlock view.old.shape from }
    requires place { IsBlock view.old.shape to }
    requires size { length block.old ≡ 4096 }
    ensures image { M.image machine.new ≡ M.image machine.old }
    ensures told { M.told machine.new ≡ M.told machine.old }
    ensures length { M.sector_count machine.new ≡ M.sector_count machine.old }
{
    let mut seen = Seen { view, machine };
    copy(&mut seen, from, to, block)
}

/// Takes a block, if one is free, as anything may that is over a store.
fn taken<S: Store>(store: &mut S, near: Option<u64>) -> Option<Result<u64, StoreFault>>
    requires { S.IsWhole store.old }
    ensures { S.IsWhole store.new }
{
    if store.free_blocks() == 0 {
        return None;
    }
    Some(store.take_block(near))
}

#[test]
fn reads_the_home_sectors(rt: HostRuntime) -> Result<(), Fail> {
    let alloc = rt.alloc();
    let mut machine = machine_failing(alloc, &[3])?;
    let mut view = home_of(alloc, &mut machine, &[])?;
    assert!(rt; view.geometry().is_block(ROOT_BLOCK));
    let mut block = [1; 4096];
    let mut seen = Seen {
        view: &mut view,
        machine: &mut machine,
    };
    assert_eq!(rt; seen.block(ROOT_BLOCK, &mut block), Ok(()));
    let mut wanted = [0; 4096];
    wanted[..512].copy_from_slice(&directory_inode(ROOT, 2, b""));
    assert_eq!(rt; block.as_slice(), wanted.as_slice());
    assert_eq!(rt; seen.block(ROOT_BLOCK, &mut block), Err(StoreFault::Read));
    Ok(())
}

#[test]
fn a_generic_call_only_reads(rt: HostRuntime) -> Result<(), Fail> {
    let alloc = rt.alloc();
    let mut machine = machine_failing(alloc, &[])?;
    let mut view = home_of(alloc, &mut machine, &[])?;
    assert!(rt; view.geometry().is_block(ROOT_BLOCK));
    let mut block = [1; 4096];
    assert_eq!(rt;
        twice_over(&mut view, &mut machine, ROOT_BLOCK, &mut block),
        Ok(())
    );
    Ok(())
}

#[test]
fn a_put_block_shows_in_its_inodes(rt: HostRuntime) -> Result<(), Fail> {
    let alloc = rt.alloc();
    let mut machine = machine_failing(alloc, &[2])?;
    let mut view = home_of(alloc, &mut machine, &[])?;
    assert!(rt; view.geometry().is_block(BLOCK) && view.geometry().is_inode(INODE));
    let mut block = [1; 4096];
    let mut inode = [1; 512];
    let mut seen = Seen {
        view: &mut view,
        machine: &mut machine,
    };
    assert_eq!(rt; seen.put_block(BLOCK, &[7; 4096]), Ok(()));
    assert_eq!(rt; seen.block(BLOCK, &mut block), Ok(()));
    assert_eq!(rt; seen.inode(INODE, &mut inode), Ok(()));
    assert_eq!(rt; block.as_slice(), [7; 4096].as_slice());
    assert_eq!(rt; inode.as_slice(), [7; 512].as_slice());
    let home = xn_make::image(alloc, b"")?;
    assert_eq!(rt; machine.image(), home.as_slice());
    Ok(())
}

#[test]
fn a_put_inode_shows_in_its_block(rt: HostRuntime) -> Result<(), Fail> {
    let alloc = rt.alloc();
    let mut machine = machine_failing(alloc, &[3])?;
    let mut view = home_of(alloc, &mut machine, &[])?;
    assert!(rt; view.geometry().is_block(BLOCK) && view.geometry().is_inode(INODE));
    let mut block = [1; 4096];
    let mut seen = Seen {
        view: &mut view,
        machine: &mut machine,
    };
    assert_eq!(rt; seen.put_inode(INODE, &[5; 512]), Ok(()));
    assert_eq!(rt; seen.block(BLOCK, &mut block), Ok(()));
    let mut wanted = [0; 4096];
    wanted[3584..].copy_from_slice(&[5; 512]);
    assert_eq!(rt; block.as_slice(), wanted.as_slice());
    Ok(())
}

#[test]
fn takes_and_gives_blocks(rt: HostRuntime) -> Result<(), Fail> {
    let alloc = rt.alloc();
    let mut machine = machine_failing(alloc, &[])?;
    let mut view = home_of(alloc, &mut machine, &[(20, 2), (40, 3)])?;
    view.mark_used(42);
    view.mark_used(30);
    assert_eq!(rt; view.free_count(), 4);
    let mut seen = Seen {
        view: &mut view,
        machine: &mut machine,
    };
    assert_eq!(rt; taken(&mut seen, None), Some(Ok(20)));
    assert_eq!(rt; taken(&mut seen, Some(41)), Some(Ok(41)));
    assert_eq!(rt; taken(&mut seen, Some(42)), Some(Ok(21)));
    assert_eq!(rt; taken(&mut seen, Some(30)), Some(Ok(40)));
    assert_eq!(rt; taken(&mut seen, Some(20)), None);
    assert_eq!(rt; seen.give_block(30), Ok(()));
    assert_eq!(rt; seen.free_blocks(), 0);
    assert_eq!(rt; seen.give_block(42), Ok(()));
    assert_eq!(rt; seen.give_block(21), Ok(()));
    assert_eq!(rt; seen.free_blocks(), 2);
    assert_eq!(rt; taken(&mut seen, Some(42)), Some(Ok(42)));
    assert_eq!(rt; taken(&mut seen, None), Some(Ok(21)));
    Ok(())
}

#[test]
fn a_pool_has_no_block_of_the_log(rt: HostRuntime) -> Result<(), Fail> {
    let alloc = rt.alloc();
    let mut machine = machine_failing(alloc, &[])?;
    let view = home_of(alloc, &mut machine, &[(1, 63)])?;
    assert_eq!(rt; view.free_count(), 63);
    let geometry = view.geometry();
    assert_eq!(rt;
        Pool::new(alloc, geometry, &[(1, 2), (62, 3), (70, 1)]).err(),
        Some(PoolFault::Range { at: 1 })
    );
    assert_eq!(rt;
        Pool::new(alloc, geometry, &[(0, 1)]).err(),
        Some(PoolFault::Range { at: 0 })
    );
    Ok(())
}
