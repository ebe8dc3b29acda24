//! What has to be known of an image before a directory of it is read.

ghost use Rattle.std.specs.Prelude.{◌≡◌, IsTrue, IfOk, IfSome};
ghost use Rattle.xn_bytes.specs.Superblock.{IsInode};
ghost use Rattle.xn_bytes.specs.Inode.{inode_of};
ghost use Rattle.xn_inode.specs.Frames.{StoreStays};
ghost use Rattle.xn_replay.specs.Viewed.{IsSeen};
ghost use Rattle.xn_dir.specs.Inodes.{IsDirectory};

use std::alloc::Global;
use xn_bytes::Kind;
use xn_inode::{Core, Store, StoreFault, Super};
use xn_machine::Machine;
use xn_pool::Pool;
use xn_replay::View;

/// The view of the home sectors; None where the superblock can't be read or is not accepted, or memory ran out.
pub fn home_of<M: Machine>(alloc: Global, machine: &mut M) -> Option<View>
    ensures { IfSome result (λ view. IsSeen view (M.image machine.new) (M.sector_count machine.new) (M.read_faults machine.new) (M.reads machine.new)) }
{
    let sectors = machine.sectors();
    if sectors == 0 {
        return None;
    }
    let mut sector = [0; 512];
    machine.read(0, &mut sector).ok()?;
    let geometry = Super::read(&sector, sectors).ok()?;
    let pool = Pool::new(alloc, &geometry, &[]).ok()?;
    Some(View::home(alloc, &geometry, pool))
}

/// Whether an inode in range is a directory's, by its mode. Its core has to be sound.
pub fn is_directory<S: Store>(store: &mut S, ino: u64) -> Result<bool, StoreFault>
    requires whole { S.IsWhole store.old }
    requires place { IsInode (S.shape store.old) ino }
    ensures directory { IfOk result (λ is. IsTrue is → IfSome (S.image store.old) (λ x. IsDirectory (inode_of (S.shape store.old) x ino))) }
    ensures stays { StoreStays S.Store store.old store.new }
{
    let mut inode = [0; 512];
    store.inode(ino, &mut inode)?;
    Ok(has_directory(&inode, ino, store.geometry().meta_uuid()))
}

/// Whether the bytes of an inode are a directory's.
fn has_directory(inode: &[u8], ino: u64, uuid: &[u8; 16]) -> bool
    ensures { IsTrue result → IsDirectory inode.now }
{
    match Core::read(inode, ino, uuid) {
        Ok(core) => core.kind() == Kind::Dir,
        Err(_) => false,
    }
}
