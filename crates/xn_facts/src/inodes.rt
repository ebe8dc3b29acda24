//! Inodes read by their blocks.

ghost use Rattle.std.specs.Prelude.{◌≡◌, ◌*◌, ◌+◌, ◌<◌, IfErr, IfSome, OnOk, slice_range};
ghost use Rattle.xn_bytes.specs.Blocks.{block_of};
ghost use Rattle.xn_bytes.specs.Causes.{Rose};
ghost use Rattle.xn_bytes.specs.Inode.{inode_of};
ghost use Rattle.xn_bytes.specs.Superblock.{IsBlock, IsInode};
ghost use Rattle.xn_inode.specs.Frames.{StoreStays};
ghost use Rattle.xn_inode.specs.declared.store.StoreFault.TheVariants.{Read};
ghost use Rattle.xn_facts.specs.Blocks.{IsAtHand};

use std::marker::Model;
use xn_inode::{Store, StoreFault};

const BLOCK_BYTES: usize = 4096;

const INODE_BYTES: usize = 512;

/// How many inodes a block has.
const INODES: u64 = 8;

/// The block that was read last, so that inodes which come in order are read a block at a time.
#[derive(Debug, Drop)]
pub struct InodeBlock {
    block: Option<u64>,
    bytes: [u8; BLOCK_BYTES],
}

impl Model for InodeBlock {
    ghost use Rattle.xn_facts.specs.Blocks.{AtHand};

    ghost Value = { AtHand };

    ghost view = { λ b. record { block = b.block; bytes = b.bytes } };
}

impl InodeBlock {
    /// None was read yet.
    pub fn none() -> InodeBlock
        ensures { result.block ≡ None }
    {
        InodeBlock {
            block: None,
            bytes: [0; BLOCK_BYTES],
        }
    }

    /// Fills the slice with an inode. It reads the inode's block, if that isn't the one that was read last.
    pub fn inode<S: Store>(
        &mut self,
        store: &mut S,
        ino: u64,
        inode: &mut [u8; INODE_BYTES],
    ) -> Result<(), StoreFault>
        requires whole { S.IsWhole store.old }
        requires place { IsInode (S.shape store.old) ino }
        requires held { IfSome (S.image store.old) (λ x. IsAtHand (S.shape store.old) x self.old) }
        ensures bytes { OnOk result (IfSome (S.image store.old) (λ x. inode.new ≡ inode_of (S.shape store.old) x ino)) }
        ensures held { OnOk result (IfSome (S.image store.new) (λ x. IsAtHand (S.shape store.new) x self.new)) }
        ensures cause { IfErr result (λ fault. fault ≡ Read → Rose (S.faults store.old) (S.faults store.new)) }
        ensures stays { StoreStays S.Store store.old store.new }
    {
        self.hold(store, ino / INODES)?;
        copy_inode(&self.bytes, ino % INODES, inode);
        Ok(())
    }

    /// Reads a block, if it isn't the one that was read last.
    fn hold<S: Store>(&mut self, store: &mut S, block: u64) -> Result<(), StoreFault>
        requires whole { S.IsWhole store.old }
        requires place { IsBlock (S.shape store.old) block }
        requires held { IfSome (S.image store.old) (λ x. IsAtHand (S.shape store.old) x self.old) }
        ensures bytes { OnOk result (IfSome (S.image store.old) (λ x. self.new.bytes ≡ block_of (S.shape store.old) x block)) }
        ensures block { OnOk result (self.new.block ≡ Some block) }
        ensures cause { IfErr result (λ fault. fault ≡ Read → Rose (S.faults store.old) (S.faults store.new)) }
        ensures stays { StoreStays S.Store store.old store.new }
    {
        if self.block == Some(block) {
            return Ok(());
        }
        self.block = None;
        store.block(block, &mut self.bytes)?;
        self.block = Some(block);
        Ok(())
    }
}

/// Copies an inode of a block.
fn copy_inode(block: &[u8; BLOCK_BYTES], index: u64, inode: &mut [u8; INODE_BYTES])
    requires { index < 8 }
    ensures { inode.new ≡ slice_range block.now (512 * index) (512 * index + 512) }
{
    let at = INODE_BYTES * index as usize;
    inode.copy_from_slice(&block[at..at + INODE_BYTES]);
}
