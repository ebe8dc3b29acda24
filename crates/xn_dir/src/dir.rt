//! The calls on a directory of a store.

ghost use Rattle.std.specs.Prelude.{◌≡◌, ◌+◌, ◌*◌, ◌≤◌, ℕ, List, IfSome, IfOk, IfErr, map};
ghost use Rattle.xn_bytes.specs.Superblock.{IsBlock, IsInode};
ghost use Rattle.xn_bytes.specs.Blocks.{block_of};
ghost use Rattle.xn_bytes.specs.Inode.{inode_of};
ghost use Rattle.xn_bytes.specs.Directory.{HasNames};
ghost use Rattle.xn_bytes.specs.DirectoryHolds.{DirHolds, HasDotdot};
ghost use Rattle.xn_bytes.specs.Hashes.{name_hash_of};
ghost use Rattle.xn_bytes.specs.Costs.{HasHashReach, HasLookUpCost, list_cost, look_up_most};
ghost use Rattle.xn_bytes.specs.DirectoryForms.{HasBlocksSize};
ghost use Rattle.xn_bytes.specs.DirectoryRules.{HasInode};
ghost use Rattle.xn_inode.specs.Frames.{StoreStays};
ghost use Rattle.xn_dir.specs.Inodes.{IsDirectory, IsSoundInode, IsOfForm};
ghost use Rattle.xn_dir.specs.Faults.{IsFaultOf, IsSeenFaultOf};
ghost use Rattle.xn_dir.specs.Listings.{entry_of};
ghost use Rattle.xn_dir.specs.Finding.{FindsOver, StandsOver};
ghost use Rattle.xn_dir.specs.declared.form.Form.TheVariants as forms;

use crate::entry::Entry;
use crate::form::{Form, form_of};
use crate::hashed_fork::hashed_fork;
use crate::listing::Listed;
use crate::sizes::BLOCK_BYTES;
use crate::{block_form, hashed_form, hashed_list, short_form};
use std::alloc::Global;
use xn_bytes::Name;
use xn_inode::{Core, ForkFault, Store};

const INODE_BYTES: usize = 512;

/// A directory of a store: a map from name to entry, whichever form it is kept in.
pub struct Dir;

impl Dir {
    /// What a name stands for in the directory of this inode; None where no entry has the name. In the forms with blocks it
    /// is found by the hash of the name, so None rests on the leaf entries: it is sure where they are those of the entries.
    /// An entry that is found always stands there. It reads the inode; in block form the block; in leaf and node form the
    /// path to the leaf, further leaves as long as they end with the hash, and a data block for each leaf entry with it:
    /// with k leaf entries of the hash, stale ones counted, the inode, the levels and 2 k blocks at most. Where leaves or
    /// tree are broken, it is left after so many reads as the number of mapped blocks says.
    pub fn lookup<S: Store>(
        alloc: Global,
        store: &mut S,
        dir: u64,
        name: &Name,
    ) -> Result<Option<Entry>, ForkFault>
        requires whole { S.IsWhole store.old }
        requires place { IsInode (S.shape store.old) dir }
        requires directory { IfSome (S.image store.old) (λ x. IsDirectory (inode_of (S.shape store.old) x dir)) }
        ensures stands { IfOk result (λ found. IfSome (S.image store.old) (λ x. StandsOver (S.shape store.old) x dir name.now found)) }
        ensures found { IfOk result (λ found. IfSome (S.image store.old) (λ x. FindsOver (S.shape store.old) x dir name.now found)) }
        ensures inode { IfOk result (λ _. IfSome (S.image store.old) (λ x. HasInode (S.shape store.old) (inode_of (S.shape store.old) x dir) dir)) }
        ensures fault { IfErr result (IsSeenFaultOf S.Store dir store.old store.new) }
        ensures stays { StoreStays S.Store store.old store.new }
        ensures fetches { IfSome (S.image store.old) (λ x. (cost : ℕ) → HasLookUpCost (S.shape store.old) x dir (name_hash_of name.now) cost → S.fetches store.new ≤ S.fetches store.old + cost) }
        ensures reach { IfSome (S.image store.old) (λ x. (levels count : ℕ) → HasHashReach (S.shape store.old) x dir (name_hash_of name.now) levels count → S.fetches store.new ≤ S.fetches store.old + 1 + levels + 2 * count) }
        ensures most { IfSome (S.image store.old) (λ x. S.fetches store.new ≤ S.fetches store.old + look_up_most (inode_of (S.shape store.old) x dir)) }
    {
        let mut inode = [0; INODE_BYTES];
        let (core, form) = read_form(alloc, store, dir, &mut inode)?;
        match form {
            Form::Short => short_form::lookup(&core, &inode, name),
            Form::Block { block } => {
                let mut bytes = [0; BLOCK_BYTES];
                read_block(store, dir, &inode, &core, block, &mut bytes)?;
                block_form::lookup(store.geometry(), dir, block, &bytes, name)
            }
            Form::Hashed => {
                let fork = hashed_fork(alloc, store.geometry(), dir, &core, &inode)?;
                hashed_form::lookup(alloc, store, &fork, name)
            }
        }
    }

    /// The entries of the directory of this inode in rising position, without dot and dotdot. It reads the inode and, but
    /// for the short form, each block that is mapped once.
    pub fn list<S: Store>(alloc: Global, store: &mut S, dir: u64) -> Result<Vec<Listed>, ForkFault>
        requires whole { S.IsWhole store.old }
        requires place { IsInode (S.shape store.old) dir }
        requires directory { IfSome (S.image store.old) (λ x. IsDirectory (inode_of (S.shape store.old) x dir)) }
        ensures holds { IfOk result (λ listed. IfSome (S.image store.old) (λ x. (dotdot : ℕ) × DirHolds (S.shape store.old) x dir (map entry_of listed.items) dotdot)) }
        ensures names { IfOk result (λ listed. HasNames (map entry_of listed.items)) }
        ensures inode { IfOk result (λ _. IfSome (S.image store.old) (λ x. HasInode (S.shape store.old) (inode_of (S.shape store.old) x dir) dir)) }
        ensures fault { IfErr result (IsFaultOf S.Store dir store.old store.new) }
        ensures stays { StoreStays S.Store store.old store.new }
        ensures fetches { IfSome (S.image store.old) (λ x. S.fetches store.new ≤ S.fetches store.old + list_cost (inode_of (S.shape store.old) x dir)) }
    {
        let mut inode = [0; INODE_BYTES];
        let (core, form) = read_form(alloc, store, dir, &mut inode)?;
        match form {
            Form::Short => short_form::list(alloc, &core, &inode),
            Form::Block { block } => {
                let mut bytes = [0; BLOCK_BYTES];
                read_block(store, dir, &inode, &core, block, &mut bytes)?;
                block_form::list(alloc, store.geometry(), dir, block, &bytes)
            }
            Form::Hashed => {
                let fork = hashed_fork(alloc, store.geometry(), dir, &core, &inode)?;
                hashed_list::list(alloc, store, &fork)
            }
        }
    }

    /// The inode that the directory of this inode has as its dotdot. It reads the inode and, but for the short
    /// form, the first block.
    pub fn parent<S: Store>(alloc: Global, store: &mut S, dir: u64) -> Result<u64, ForkFault>
        requires whole { S.IsWhole store.old }
        requires place { IsInode (S.shape store.old) dir }
        requires directory { IfSome (S.image store.old) (λ x. IsDirectory (inode_of (S.shape store.old) x dir)) }
        ensures parent { IfOk result (λ dotdot. IfSome (S.image store.old) (λ x. HasDotdot (S.shape store.old) x dir dotdot)) }
        ensures inode { IfOk result (λ _. IfSome (S.image store.old) (λ x. HasInode (S.shape store.old) (inode_of (S.shape store.old) x dir) dir)) }
        ensures fault { IfErr result (IsSeenFaultOf S.Store dir store.old store.new) }
        ensures stays { StoreStays S.Store store.old store.new }
        ensures fetches { S.fetches store.new ≤ S.fetches store.old + 2 }
    {
        let mut inode = [0; INODE_BYTES];
        let (core, form) = read_form(alloc, store, dir, &mut inode)?;
        match form {
            Form::Short => short_form::parent(&core, &inode),
            Form::Block { block } => {
                let mut bytes = [0; BLOCK_BYTES];
                read_block(store, dir, &inode, &core, block, &mut bytes)?;
                block_form::parent(store.geometry(), dir, block, &bytes)
            }
            Form::Hashed => {
                let fork = hashed_fork(alloc, store.geometry(), dir, &core, &inode)?;
                hashed_form::parent(store, &fork)
            }
        }
    }
}

/// Reads the inode of a directory: rules 10, 11 and 13, and its form.
fn read_form<S: Store>(
    alloc: Global,
    store: &mut S,
    dir: u64,
    inode: &mut [u8; INODE_BYTES],
) -> Result<(Core, Form), ForkFault>
    requires whole { S.IsWhole store.old }
    requires place { IsInode (S.shape store.old) dir }
    requires directory { IfSome (S.image store.old) (λ x. IsDirectory (inode_of (S.shape store.old) x dir)) }
    ensures bytes { IfOk result (λ _. IfSome (S.image store.old) (λ x. inode.new ≡ inode_of (S.shape store.old) x dir)) }
    ensures sound { IfOk result (λ found. IsSoundInode (S.shape store.old) dir inode.new found.0) }
    ensures form { IfOk result (λ found. IsOfForm inode.new found.1) }
    ensures inode { IfOk result (λ _. IfSome (S.image store.old) (λ x. HasInode (S.shape store.old) (inode_of (S.shape store.old) x dir) dir)) }
    ensures fault { IfErr result (IsFaultOf S.Store dir store.old store.new) }
    ensures seen { IfErr result (IsSeenFaultOf S.Store dir store.old store.new) }
    ensures stays { StoreStays S.Store store.old store.new }
    ensures fetches { S.fetches store.new ≤ S.fetches store.old + 1 }
{
    store.inode(dir, inode)?;
    form_of(alloc, store.geometry(), dir, inode)
}

/// Reads the block of a directory in block form, once its size is right: rule 15.
fn read_block<S: Store>(
    store: &mut S,
    dir: u64,
    inode: &[u8; INODE_BYTES],
    core: &Core,
    block: u64,
    bytes: &mut [u8; BLOCK_BYTES],
) -> Result<(), ForkFault>
    requires whole { S.IsWhole store.old }
    requires inode { IfSome (S.image store.old) (λ x. inode.now ≡ inode_of (S.shape store.old) x dir) }
    requires sound { IsSoundInode (S.shape store.old) dir inode.now core.now }
    requires form { IsOfForm inode.now (forms.Block block) }
    ensures bytes { IfOk result (λ _. IfSome (S.image store.old) (λ x. bytes.new ≡ block_of (S.shape store.old) x block)) }
    ensures place { IfOk result (λ _. IsBlock (S.shape store.new) block) }
    ensures size { IfOk result (λ _. HasBlocksSize inode.now) }
    ensures fault { IfErr result (IsFaultOf S.Store dir store.old store.new) }
    ensures seen { IfErr result (IsSeenFaultOf S.Store dir store.old store.new) }
    ensures stays { StoreStays S.Store store.old store.new }
    ensures fetches { S.fetches store.new ≤ S.fetches store.old + 1 }
{
    if core.size() != BLOCK_BYTES as u64 {
        return Err(ForkFault::of_rule(15));
    }
    store.block(block, bytes)?;
    Ok(())
}
