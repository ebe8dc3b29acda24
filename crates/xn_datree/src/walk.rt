//! A whole tree, read from its root: each node before its children, and these from left to right.

ghost use Rattle.std.specs.Prelude.{◌≡◌, ◌++◌, ◌+◌, ◌≤◌, ◌∷◌, [], All, List, IfErr, IfOk, IfSome, OnOk, length, map};
ghost use Rattle.xn_bytes.specs.Trees.{AreBlocks, BreaksAt, Held as Holding, IsTree, TreeHolds, met_with, visit_to};
ghost use Rattle.xn_inode.specs.Frames.{StoreStays};
ghost use Rattle.xn_datree.specs.Forks.{tree_of, FetchesBlocks, IsTreeFault};

use crate::fork::Fork;
use crate::held::level_of;
use crate::leaf::Leaf;
use crate::node::Child;
use crate::read::{BLOCK_BYTES, read_visit};
use crate::trail::Trail;
use crate::visit::{Met, Visit, root_visit, visit_to};
use std::alloc::{AllocError, Global};
use std::collections::VecDeque;
use std::marker::PhantomData;
use xn_bytes::u32_at;
use xn_inode::{ForkFault, Store};

const RIGHT: usize = 0;

/// The hashed tree of a fork, with leaves of one kind.
pub struct Tree<L: Leaf> {
    leaves: PhantomData<L>,
}

impl<L: Leaf> Tree<L> {
    /// All entries of the tree from left to right, with one fetch for each of its blocks. Broken comes exactly where the tree
    /// fails its rule, with the first block that fails; the last block of a level is asked for its right sibling only where
    /// no block fails otherwise. There is at most one fetch for each mapped block that the tree can have, also where it
    /// is broken.
    pub fn walk<S: Store>(
        alloc: Global,
        store: &mut S,
        fork: &Fork,
    ) -> Result<Vec<L::Entry>, ForkFault>
        requires whole { S.IsWhole store.old }
        requires blocks { AreBlocks (S.shape store.old) fork.now.extents }
        ensures holds { IfOk result (λ entries. IfSome (S.image store.old) (λ x. TreeHolds (tree_of L.Holds L.ends (S.shape store.old) fork.now x) entries.items)) }
        ensures fault { IfErr result (IsTreeFault S.Store (λ x. BreaksAt (tree_of L.Holds L.ends (S.shape store.old) fork.now x)) fork.now store.old store.new) }
        ensures stays { StoreStays S.Store store.old store.new }
        ensures fetches { IfOk result (λ _. IfSome (S.image store.old) (λ x. (helds : List (Holding L.Entry)) × IsTree (tree_of L.Holds L.ends (S.shape store.old) fork.now x) helds × (S.fetches store.new ≤ S.fetches store.old + length helds))) }
        ensures once { FetchesBlocks fork.now (S.fetches store.old) (S.fetches store.new) }
    {
        let mut trail = Trail::new(alloc);
        let mut agenda = VecDeque::new(alloc);
        agenda.push_back(root_visit(fork))?;
        let mut entries = Vec::new(alloc);
        let mut bytes = [0; BLOCK_BYTES];
        while let Some(visit) = agenda.pop_front() {
            let mut held = read_visit::<L, S>(alloc, store, fork, &trail, visit, &mut bytes)?;
            trail.meet(met_in(&bytes, visit, held.ends))?;
            ask_for_children(&mut agenda, level_of(&bytes), &held.children)?;
            entries.append(&mut held.entries)?;
        }
        match trail.open_end() {
            Some(last) => Err(fork.broken(fork.extents.block_at(last.file_block).unwrap_or(0))),
            None => Ok(entries),
        }
    }
}

/// What is met with a block of these bytes, by its last hash.
pub(crate) fn met_in(bytes: &[u8], visit: Visit, ends: Option<(u32, u32)>) -> Met
    requires { length bytes.now ≡ 4096 }
    ensures { result ≡ met_with bytes.now visit ends }
{
    Met {
        file_block: visit.file_block,
        level: level_of(bytes),
        right: u32_at(bytes, RIGHT),
        last: ends.map_or(0, |(_, last)| last),
    }
}

/// The children of a node are read before what else is to be read.
fn ask_for_children(
    agenda: &mut VecDeque<Visit>,
    level: u16,
    children: &[Child],
) -> Result<(), AllocError>
    ensures { OnOk result (agenda.new.items ≡ map (visit_to level) children.now ++ agenda.old.items) }
{
    for at in (0..children.len()).rev() {
        let child = children[at];
        agenda.push_front(visit_to(level, child))?;
    }
    Ok(())
}
