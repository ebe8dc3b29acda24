//! Nodes: blocks of a tree that hold the greatest hash under each child, and its file block.

ghost use Rattle.std.specs.Prelude.{◌≡◌, ◌+◌, ◌*◌, ◌≤◌, ◌↔◌, ℕ, List, length, IsTrue, IfOk, MatchOption};
ghost use Rattle.std.specs.List.Sorted.{IsNonDecreasingBy};
ghost use Rattle.xn_bytes.specs.HashedTree.{Child as HeldChild, children_at, node_magic};
ghost use Rattle.xn_bytes.specs.Trees.{IsNode, magic_in};
ghost use Rattle.xn_datree.specs.Nodes.{HasCounts};

use std::alloc::{AllocError, Global};
use std::marker::Model;
use xn_bytes::{has_checksum, u16_at, u32_at};

pub(crate) const COUNT: usize = 56;

pub(crate) const LEVEL: usize = 58;

const CHECKSUM: usize = 12;

const FIRST_CHILD: usize = 64;

const CHILD_BYTES: usize = 8;

const MOST_CHILDREN: usize = 504;

/// An entry of a node: the greatest hash under a child, and the child's file block.
#[derive(Clone, Copy, Debug, PartialEq, Eq)]
pub(crate) struct Child {
    pub(crate) hash: u32,
    pub(crate) file_block: u32,
}

impl Model for Child {
    ghost use Rattle.std.specs.Prelude.{◌<◌, ◌^◌};
    ghost use Rattle.xn_bytes.specs.HashedTree.{Child as HeldChild};

    ghost Value = { HeldChild };

    ghost view = { λ c. record { hash = c.hash; file_block = c.file_block } };

    ghost inverse = { λ c. record { hash = c.hash; file_block = c.file_block } };

    ghost invariant = { λ c. (c.hash < 2 ^ 32) × (c.file_block < 2 ^ 32) };
}

/// The children of a node, by a block's bytes that begin as a node; None where they are none.
pub(crate) fn node_in(alloc: Global, block: &[u8]) -> Result<Option<Vec<Child>>, AllocError>
    requires size { length block.now ≡ 4096 }
    requires magic { magic_in block.now ≡ node_magic }
    ensures { IfOk result (λ found. MatchOption found ((children : List HeldChild) → ¬ IsNode block.now children) (λ children. IsNode block.now children.items)) }
{
    if !has_counts(block) || !has_checksum(block, CHECKSUM) {
        return Ok(None);
    }
    let children = children_in(alloc, block, usize::from(u16_at(block, COUNT)))?;
    if is_sorted(&children) {
        Ok(Some(children))
    } else {
        Ok(None)
    }
}

/// Whether the count of children and the level are those of a node.
fn has_counts(block: &[u8]) -> bool
    requires { length block.now ≡ 4096 }
    ensures { IsTrue result ↔ HasCounts block.now }
{
    let count = usize::from(u16_at(block, COUNT));
    1 <= count && count <= MOST_CHILDREN && 1 <= u16_at(block, LEVEL)
}

fn is_sorted(children: &[Child]) -> bool
    ensures { IsTrue result ↔ IsNonDecreasingBy (λ child. child.hash) children.now }
{
    let mut least = 0;
    for child in children {
        if child.hash < least {
            return false;
        }
        least = child.hash;
    }
    true
}

/// So many entries of a node, as they stand.
fn children_in(alloc: Global, block: &[u8], count: usize) -> Result<Vec<Child>, AllocError>
    requires { 64 + 8 * count ≤ length block.now }
    ensures { IfOk result (λ children. children.items ≡ children_at count 64 block.now) }
{
    let mut children = Vec::new(alloc);
    for index in 0..count {
        let at = FIRST_CHILD + CHILD_BYTES * index;
        children.push(Child {
            hash: u32_at(block, at),
            file_block: u32_at(block, at + 4),
        })?;
    }
    Ok(children)
}
