use crate::entry::HashAt;
use crate::fill::fill;
use crate::read::{ends_of, is_leaf, live_entries};
use std::alloc::Global;
use xn_bytes::Memory;
use xn_datree::{Leaf, LeafFault};

/// A leaf of a directory (`xfs_dir3_leaf`): its entries by hash, stale ones among them. Both the single leaf of leaf form and
/// a leaf of node form are read; the latter is written.
#[derive(Clone, Copy, Debug, PartialEq, Eq)]
pub struct DirLeaf;

impl Leaf for DirLeaf {
    ghost use Rattle.std.specs.Prelude.{◌≢◌};
    ghost use Rattle.xn_bytes.specs.HashedTree.{DirLeafHolds, dir_leaf_ends};
    ghost use Rattle.xn_leaf.specs.Laws.{one_list, all_live, all_sorted, few_bytes, between_ends, no_ends, eight, same_entry, same_body};

    type Entry = HashAt;

    const CAPACITY: u64 = 4032;

    ghost CAPACITY = { 4032 };

    ghost rule = { 18 };

    ghost Holds = { DirLeafHolds };

    ghost ends = { dir_leaf_ends };

    ghost hash = { λ leaf. leaf.hash };

    ghost size = { λ leaf. 8 };

    ghost IsLawful = { λ leaf. leaf.address ≢ 0 };

    ghost holds_once = { one_list };

    ghost are_lawful = { all_live };

    ghost are_sorted = { all_sorted };

    ghost fit = { few_bytes };

    ghost within_ends = { between_ends };

    ghost none_without_ends = { no_ends };

    ghost some_size = { eight };

    ghost equal_is_same = { same_entry };

    ghost by_body = { same_body };

    fn entries(alloc: Global, block: &[u8]) -> Result<Vec<HashAt>, LeafFault> {
        if !is_leaf(block) {
            return Err(LeafFault::Bad { rule: 18 });
        }
        live_entries(alloc, block).map_err(|_| LeafFault::Memory)
    }

    fn bounds(block: &[u8]) -> Option<(u32, u32)> {
        ends_of(block)
    }

    fn hash_of(entry: &HashAt) -> u32 {
        entry.hash
    }

    fn size_of(_entry: &HashAt) -> u64 {
        8
    }

    fn fill(block: &mut [u8], entries: &[HashAt]) {
        fill(block, entries);
    }

    fn copy(_alloc: Global, entry: &HashAt) -> Result<HashAt, Memory> {
        Ok(*entry)
    }
}
