//! What a block of a tree holds, be it a leaf or a node.

ghost use Rattle.std.specs.Prelude.{◌≡◌, ◌≢◌, ◌↔◌, ℕ, List, length, IsTrue, Option, IfOk, MatchOption};
ghost use Rattle.xn_bytes.specs.HashedTree.{Child as HeldChild, node_magic, single_leaf_magic};
ghost use Rattle.xn_bytes.specs.Trees.{Held as Holding, HoldsBlock, IsNode, ends_of_children, level_in, magic_in};
ghost use Rattle.xn_datree.specs.Held.{held_of, HoldsNode};

use crate::leaf::{Leaf, LeafFault};
use crate::node::{Child, LEVEL, node_in};
use std::alloc::{AllocError, Global};
use xn_bytes::{Memory, u16_at};

const MAGIC: usize = 8;

const NODE: u16 = 0x3ebe;

const SINGLE_LEAF: u16 = 0x3df1;

/// A leaf holds its entries, and a node its children. The first and the last hash, stale entries counted; None in a leaf
/// without entries.
#[derive(Drop)]
pub(crate) struct Held<E: Drop> {
    pub(crate) entries: Vec<E>,
    pub(crate) children: Vec<Child>,
    pub(crate) ends: Option<(u32, u32)>,
}

/// The level of a block: that which a node says, and 0 of a leaf.
pub(crate) fn level_of(block: &[u8]) -> u16
    requires { length block.now ≡ 4096 }
    ensures { result ≡ level_in block.now }
{
    if u16_at(block, MAGIC) == NODE {
        u16_at(block, LEVEL)
    } else {
        0
    }
}

/// What a block holds; None where it is none of a tree.
pub(crate) fn held_in<L: Leaf>(
    alloc: Global,
    block: &[u8],
) -> Result<Option<Held<L::Entry>>, Memory>
    requires { length block.now ≡ 4096 }
    ensures { IfOk result (λ found. MatchOption found
        ((held : Holding L.Entry) → ¬ HoldsBlock L.Holds L.ends block.now held)
        (λ held. HoldsBlock L.Holds L.ends block.now (held_of held))) }
{
    match u16_at(block, MAGIC) {
        NODE => Ok(node_held(alloc, block)?),
        SINGLE_LEAF => Ok(None),
        _ => leaf_held::<L>(alloc, block),
    }
}

/// The same of a block that begins as a node.
fn node_held<E: Drop>(alloc: Global, block: &[u8]) -> Result<Option<Held<E>>, AllocError>
    requires size { length block.now ≡ 4096 }
    requires magic { magic_in block.now ≡ node_magic }
    ensures { IfOk result (λ found. MatchOption found ((children : List HeldChild) → ¬ IsNode block.now children) (λ held. HoldsNode block.now (held_of held))) }
{
    let Some(children) = node_in(alloc, block)? else {
        return Ok(None);
    };
    let ends = ends_of(&children);
    Ok(Some(Held {
        entries: Vec::new(alloc),
        children,
        ends,
    }))
}

/// The hashes of the first and the last child.
fn ends_of(children: &[Child]) -> Option<(u32, u32)>
    ensures { result ≡ ends_of_children children.now }
{
    match children {
        [] => None,
        [only] => Some((only.hash, only.hash)),
        [first, .., last] => Some((first.hash, last.hash)),
    }
}

/// The same of a block that begins neither as a node nor as the single leaf of leaf form.
fn leaf_held<L: Leaf>(alloc: Global, block: &[u8]) -> Result<Option<Held<L::Entry>>, Memory>
    requires size { length block.now ≡ 4096 }
    requires no_node { magic_in block.now ≢ node_magic }
    requires no_single { magic_in block.now ≢ single_leaf_magic }
    ensures { IfOk result (λ found. MatchOption found
        ((held : Holding L.Entry) → ¬ HoldsBlock L.Holds L.ends block.now held)
        (λ held. HoldsBlock L.Holds L.ends block.now (held_of held))) }
{
    match L::entries(alloc, block) {
        Ok(entries) => Ok(Some(Held {
            entries,
            children: Vec::new(alloc),
            ends: L::bounds(block),
        })),
        Err(LeafFault::Bad { .. }) => Ok(None),
        Err(LeafFault::Memory) => Err(Memory),
    }
}
