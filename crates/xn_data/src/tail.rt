ghost use Rattle.std.specs.Prelude.{◌≡◌, ◌+◌, ◌*◌, ◌≤◌, ◌==◌, length, filter, All, Contains};
ghost use Rattle.std.specs.Iterator.{YieldsFirstBy, item_count};
ghost use Rattle.std.specs.List.Sorted.{IsNonDecreasingBy};
ghost use Rattle.xn_bytes.specs.DataBlock.{leaves_at};
ghost use Rattle.xn_data.specs.Searching.{Rise, Parts, Leads};
ghost use Rattle.xn_data.specs.Viewed.{leaf_of};

use crate::layout::LEAF_ENTRY;
use std::marker::Model;
use xn_bytes::u32_at;

/// The leaf entries at the end of a block of block form, each with the hash of a name and the address of its entry: the
/// byte position in the directory's data, divided by 8, and 0 for a stale one. Contracts see the list of those that are
/// left.
#[derive(Debug, Drop)]
pub struct Tail<'a> {
    bytes: &'a [u8],
    at: usize,
    left: usize,
}

impl<'a> Model for Tail<'a> {
    ghost use Rattle.std.specs.Prelude.{◌+◌, ◌*◌, ◌≤◌, List, length};
    ghost use Rattle.xn_bytes.specs.DataBlock.{LeafEntry, leaves_at};

    ghost Value = { List LeafEntry };

    ghost view = { λ s. leaves_at s.left s.at s.bytes.now };

    ghost invariant = { λ s. s.at + 8 * s.left ≤ length s.bytes.now };
}

impl<'a> Tail<'a> {
    /// So many leaf entries from a place on.
    pub(crate) fn new(bytes: &'a [u8], at: usize, left: usize) -> Tail<'a>
        requires { at + 8 * left ≤ length bytes.now }
        ensures { result ≡ leaves_at left at bytes.now }
    {
        Tail { bytes, at, left }
    }

    /// Those with a hash, of leaf entries in rising order of their hashes.
    pub(crate) fn with_hash(&self, hash: u32) -> Tail<'a>
        ensures rising { IsNonDecreasingBy (λ leaf. leaf.hash) self.now → result ≡ filter (λ leaf. leaf.hash == hash) self.now }
        ensures always { All (λ leaf. (leaf.hash ≡ hash) × Contains self.now leaf) result }
    {
        let first = first_with_hash(self.bytes, self.at, self.left, hash);
        let at = self.at + LEAF_ENTRY * first;
        let left = count_with_hash(self.bytes, at, self.left - first, hash);
        Tail::new(self.bytes, at, left)
    }
}

impl<'a> Iterator for Tail<'a> {
    type Item = (u32, u32);

    ghost next_gives = { YieldsFirstBy leaf_of (λ s. s) };

    ghost remaining = { item_count (λ s. s) };

    #[tactic(auto, unfolding(xn_bytes::specs::DataBlock::leaves_at))]
    fn next(&mut self) -> Option<(u32, u32)> {
        if self.left == 0 {
            return None;
        }
        let leaf = (u32_at(self.bytes, self.at), u32_at(self.bytes, self.at + 4));
        self.at += LEAF_ENTRY;
        self.left -= 1;
        Some(leaf)
    }
}

/// The index of the first of so many leaf entries whose hash is not less, by a binary search.
fn first_with_hash(bytes: &[u8], at: usize, count: usize, hash: u32) -> usize
    requires { at + 8 * count ≤ length bytes.now }
    ensures within { result ≤ count }
    ensures parts { Rise count at bytes.now → Parts hash count at bytes.now result }
{
    let mut low = 0;
    let mut high = count;
    while low < high {
        let middle = low + (high - low) / 2;
        if u32_at(bytes, at + LEAF_ENTRY * middle) < hash {
            low = middle + 1;
        } else {
            high = middle;
        }
    }
    low
}

/// How many leaf entries have a hash, from the first on.
fn count_with_hash(bytes: &[u8], at: usize, count: usize, hash: u32) -> usize
    requires { at + 8 * count ≤ length bytes.now }
    ensures { Leads hash count at bytes.now result }
{
    for index in 0..count {
        if u32_at(bytes, at + LEAF_ENTRY * index) != hash {
            return index;
        }
    }
    count
}
