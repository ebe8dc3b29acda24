//! All live inodes, one behind the other.

ghost use Rattle.std.specs.Prelude.{◌≡◌, ℕ, List, [], ◌∷◌, ◌++◌, All, IfErr, IfOk, IfSome, MatchOption, OnOk, map};
ghost use Rattle.xn_bytes.specs.Causes.{Rose};
ghost use Rattle.xn_bytes.specs.Superblock.{Geometry, IsInode};
ghost use Rattle.xn_facts.specs.Blocks.{IsAtHand};
ghost use Rattle.xn_facts.specs.Facts.{FactsHold};
ghost use Rattle.xn_inode.specs.Frames.{StoreStays};
ghost use Rattle.xn_inode.specs.declared.store.StoreFault.TheVariants.{Read};
ghost use Rattle.xn_census.specs.Added.{IsKept, IsWithHeld};
ghost use Rattle.xn_census.specs.Census.{AreAmong, CensusHolds};

use std::alloc::Global;
use xn_bytes::Memory;
use xn_facts::{Contents, Facts, InodeBlock, Known, Node, Run, facts_of};
use xn_inode::{Store, StoreFault};
use xn_items::ParentRec;

/// A directory with what it holds.
#[derive(Debug, Drop)]
pub struct Held {
    pub dir: u64,
    pub generation: u32,
    pub contents: Contents,
}

/// What was found of some inodes.
#[derive(Debug, Drop)]
pub struct Census {
    /// Of each inode, in order.
    pub nodes: Vec<Node>,
    /// Of each directory that breaks none of the rules on its own blocks, in order.
    pub held: Vec<Held>,
    /// What the forks of all map.
    pub runs: Vec<Run>,
}

/// What is found of these inodes, each by itself.
pub fn take_census<S: Store>(
    alloc: Global,
    store: &mut S,
    inodes: &[u64],
) -> Result<Census, StoreFault>
    requires whole { S.IsWhole store.old }
    requires places { All (IsInode (S.shape store.old)) inodes.now }
    ensures inodes_are { IfOk result (λ census. map (λ node. node.ino) census.nodes.items ≡ inodes.now) }
    ensures among { IfOk result (λ census. AreAmong inodes.now census.held.items) }
    ensures holds { IfOk result (λ census. IfSome (S.image store.old) (λ x. CensusHolds (S.shape store.old) x inodes.now census)) }
    ensures cause { IfErr result (λ fault. fault ≡ Read → Rose (S.faults store.old) (S.faults store.new)) }
    ensures stays { StoreStays S.Store store.old store.new }
{
    let mut census = Census {
        nodes: Vec::new(alloc),
        held: Vec::new(alloc),
        runs: Vec::new(alloc),
    };
    let mut at_hand = InodeBlock::none();
    for ino in inodes {
        add_inode(alloc, store, &mut at_hand, *ino, &mut census)?;
    }
    Ok(census)
}

/// Adds what is found of one inode.
fn add_inode<S: Store>(
    alloc: Global,
    store: &mut S,
    at_hand: &mut InodeBlock,
    ino: u64,
    census: &mut Census,
) -> Result<(), StoreFault>
    requires whole { S.IsWhole store.old }
    requires place { IsInode (S.shape store.old) ino }
    requires held { IfSome (S.image store.old) (λ x. IsAtHand (S.shape store.old) x at_hand.old) }
    ensures held { OnOk result (IfSome (S.image store.new) (λ x. IsAtHand (S.shape store.new) x at_hand.new)) }
    ensures inodes_are { OnOk result (map (λ node. node.ino) census.new.nodes.items ≡ map (λ node. node.ino) census.old.nodes.items ++ ino ∷ []) }
    ensures among { OnOk result ((inodes : List ℕ) → AreAmong inodes census.old.held.items → AreAmong (inodes ++ ino ∷ []) census.new.held.items) }
    ensures adds { OnOk result (IfSome (S.image store.old) (λ x. (inodes : List ℕ) → CensusHolds (S.shape store.old) x inodes census.old → CensusHolds (S.shape store.old) x (inodes ++ ino ∷ []) census.new)) }
    ensures cause { IfErr result (λ fault. fault ≡ Read → Rose (S.faults store.old) (S.faults store.new)) }
    ensures stays { StoreStays S.Store store.old store.new }
{
    let facts = facts_of(alloc, store, at_hand, ino)?;
    match add_facts(facts, census) {
        Ok(()) => Ok(()),
        Err(Memory) => Err(StoreFault::Memory),
    }
}

/// Adds the facts of an inode.
fn add_facts(facts: Facts, census: &mut Census) -> Result<(), Memory>
    ensures inodes_are { OnOk result (map (λ node. node.ino) census.new.nodes.items ≡ map (λ node. node.ino) census.old.nodes.items ++ facts.node.ino ∷ []) }
    ensures among { OnOk result ((inodes : List ℕ) → AreAmong inodes census.old.held.items → AreAmong (inodes ++ facts.node.ino ∷ []) census.new.held.items) }
    ensures adds { OnOk result ((g : Geometry) (image : List ℕ) (inodes : List ℕ) → FactsHold g image facts → CensusHolds g image inodes census.old → CensusHolds g image (inodes ++ facts.node.ino ∷ []) census.new) }
{
    let Facts {
        node,
        contents,
        mut runs,
    } = facts;
    add_contents(node.ino, node.known, contents, &mut census.held)?;
    census.runs.append(&mut runs)?;
    census.nodes.push(kept(node))?;
    Ok(())
}

/// Adds what an inode holds, if it holds anything. That is said of none of which nothing is known; where no image is told, it may
/// be, and there is no word of its own for that.
fn add_contents(
    ino: u64,
    known: Option<Known>,
    contents: Option<Contents>,
    held: &mut Vec<Held>,
) -> Result<(), Memory>
    ensures { OnOk result (IsWithHeld ino known contents held.old.items held.new.items) }
{
    let Some(contents) = contents else {
        return Ok(());
    };
    let Some(known) = known else {
        return Err(Memory);
    };
    held.push(Held {
        dir: ino,
        generation: known.generation,
        contents,
    })?;
    Ok(())
}

/// What is kept of an inode, with no more memory than it needs.
fn kept(node: Node) -> Node
    ensures { IsKept node result }
{
    let Node {
        ino,
        is_directory,
        known,
        parents,
        broken,
    } = node;
    Node {
        ino,
        is_directory,
        known,
        parents: shrunk(parents),
        broken,
    }
}

/// The same records, with no more memory than they need.
fn shrunk(records: Option<Vec<ParentRec>>) -> Option<Vec<ParentRec>>
    ensures { MatchOption records (result ≡ None) (λ old. MatchOption result ⊥ (λ new. new.items ≡ old.items)) }
{
    let Some(mut records) = records else {
        return None;
    };
    records.shrink_to_fit();
    Some(records)
}
