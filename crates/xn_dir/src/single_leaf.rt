//! The single leaf of a directory in leaf form.

ghost use Rattle.std.specs.Prelude.{◌≡◌, ◌↔◌, ℕ, IsTrue, IfOk, List, MatchOption, length};
ghost use Rattle.xn_bytes.specs.Superblock.{IsBlock};
ghost use Rattle.xn_bytes.specs.DataBlock.{LeafEntry};
ghost use Rattle.xn_bytes.specs.HashedTree.{DirLeafHolds, LeafTailHolds};
ghost use Rattle.xn_bytes.specs.LeafForms.{IsSingleLeaf};
ghost use Rattle.xn_dir.specs.SingleLeaves.{HasLeafHeader, IsLeafRead};

use std::alloc::Global;
use xn_bytes::Memory;
use xn_datree::{Leaf, LeafFault, TreeHeader};
use xn_inode::Super;
use xn_leaf::{DirLeaf, HashAt, LeafTail};

/// The magic number of the single leaf of leaf form.
const SINGLE_LEAF: u16 = 0x3df1;

/// What the single leaf holds: its leaf entries, the stale ones left out, and the bests of all data blocks.
#[derive(Drop)]
pub(crate) struct SingleLeaf {
    pub(crate) live: Vec<HashAt>,
    pub(crate) bests: Vec<u16>,
}

/// The single leaf that stands in these bytes; None where none does.
pub(crate) fn single_leaf(
    alloc: Global,
    geometry: &Super,
    dir: u64,
    block: u64,
    bytes: &[u8],
) -> Result<Option<SingleLeaf>, Memory>
    requires size { length bytes.now ≡ 4096 }
    requires place { IsBlock geometry.now block }
    ensures { IfOk result (λ found. MatchOption found
        ((live : List LeafEntry) → ¬ IsSingleLeaf geometry.now dir block bytes.now live)
        (IsLeafRead geometry.now dir block bytes.now)) }
{
    if !has_leaf_header(geometry, dir, block, bytes) {
        return Ok(None);
    }
    let live = match DirLeaf::entries(alloc, bytes) {
        Ok(live) => live,
        Err(LeafFault::Bad { .. }) => return Ok(None),
        Err(LeafFault::Memory) => return Err(Memory),
    };
    match LeafTail::bests(alloc, bytes) {
        Ok(bests) => Ok(Some(SingleLeaf { live, bests })),
        Err(LeafFault::Bad { .. }) => Ok(None),
        Err(LeafFault::Memory) => Err(Memory),
    }
}

/// Whether a block is the single leaf by its header: the magic number, no siblings, its place, the filesystem's uuid and
/// its owner.
fn has_leaf_header(geometry: &Super, dir: u64, block: u64, bytes: &[u8]) -> bool
    requires size { length bytes.now ≡ 4096 }
    requires place { IsBlock geometry.now block }
    ensures { IsTrue result ↔ HasLeafHeader geometry.now dir block bytes.now }
{
    let header = TreeHeader::read(bytes);
    has_no_siblings(&header)
        && header.magic == SINGLE_LEAF
        && header.place == geometry.sector_of_block(block)
        && header.owner == dir
        && header.uuid == *geometry.meta_uuid()
}

fn has_no_siblings(header: &TreeHeader) -> bool
    ensures { IsTrue result ↔ ((header.now.forw ≡ 0) × (header.now.back ≡ 0)) }
{
    header.forw == 0 && header.back == 0
}
