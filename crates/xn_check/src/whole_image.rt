//! The rules of the whole image: 5, of the root and of how many entries there are, and 9, of blocks that are mapped.

ghost use Rattle.std.specs.Prelude.{◌≡◌, ◌↔◌, ℕ, ◌/◌, ◌<◌, All, Any, IfOk, IsTrue, List, length, map};
ghost use Rattle.std.specs.List.{AllAdjacentBelow};
ghost use Rattle.std.specs.List.Sorted.{IsNonDecreasing};
ghost use Rattle.xn_meaning.specs.Manifests.{Manifest};
ghost use Rattle.xn_rules.specs.Namings.{AreLive, Naming};
ghost use Rattle.xn_rules.specs.Sound.{HasRightRoot, MapOnce};
ghost use Rattle.xn_facts.specs.Facts.{NodeHolds, mapped_of};
ghost use Rattle.xn_check.specs.Spanned.{span_of};

use std::alloc::{AllocError, Global};
use xn_apart::{Span, are_apart, are_clear, in_order};
use xn_facts::{Node, Run};
use xn_inode::Super;

/// The greatest number of entries that a name space may have.
const MOST_ENTRIES: u64 = 4_194_304;

/// How many inodes a block holds.
const BLOCK_INODES: u64 = 8;

/// Rule 5: the root is live and a directory, and there are not too many entries. The nodes are those of all live inodes.
pub(crate) fn root_is_right(geometry: &Super, nodes: &[Node], entries: u64) -> bool
    ensures { (m : Manifest) (image : List ℕ) (namings : List Naming) → AreLive geometry.now m (map (λ node. node.ino) nodes.now)
        → All (NodeHolds geometry.now image) nodes.now → entries ≡ length namings → (IsTrue result ↔ HasRightRoot geometry.now m image namings) }
{
    entries <= MOST_ENTRIES && has_directory(nodes, geometry.root())
}

/// Whether an inode is among the nodes, and a directory.
fn has_directory(nodes: &[Node], ino: u64) -> bool
    ensures { IsTrue result ↔ Any (λ node. (node.ino ≡ ino) × IsTrue node.is_directory) nodes.now }
{
    nodes
        .iter()
        .any(|node| node.ino == ino && node.is_directory)
}

/// Rule 9: no block is mapped twice, and none in which a live inode stands.
pub(crate) fn runs_are_right(alloc: Global, runs: &[Run], live: &[u64]) -> Result<bool, AllocError>
    requires { AllAdjacentBelow (λ a b. a < b) live.now (length live.now) }
    ensures { IfOk result (λ right. IsTrue right ↔ MapOnce live.now (map mapped_of runs.now)) }
{
    let spans = in_order(spans_of(alloc, runs)?);
    let blocks = blocks_of(alloc, live)?;
    Ok(are_apart(&spans) && are_clear(&spans, &blocks))
}

/// What runs map, whichever blocks of a file it is.
fn spans_of(alloc: Global, runs: &[Run]) -> Result<Vec<Span>, AllocError>
    ensures { IfOk result (λ spans. spans.items ≡ map span_of runs.now) }
{
    let mut spans = Vec::new(alloc);
    for run in runs {
        spans.push(Span {
            block: run.block,
            count: run.count,
        })?;
    }
    Ok(spans)
}

/// The blocks in which inodes stand, which rise; as often as inodes do.
fn blocks_of(alloc: Global, inodes: &[u64]) -> Result<Vec<u64>, AllocError>
    requires { AllAdjacentBelow (λ a b. a < b) inodes.now (length inodes.now) }
    ensures blocks { IfOk result (λ blocks. blocks.items ≡ map (λ ino. ino / 8) inodes.now) }
    ensures rising { IfOk result (λ blocks. IsNonDecreasing blocks.items) }
{
    let mut blocks = Vec::new(alloc);
    for ino in inodes {
        blocks.push(*ino / BLOCK_INODES)?;
    }
    Ok(blocks)
}
