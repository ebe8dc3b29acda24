//! A set of positions: a bit for each, and above the bits words by which the least one is found in a few steps.

ghost use Rattle.std.specs.Prelude.{◌≡◌, ℕ, ◌+◌, ◌*◌, ◌^◌, ◌<◌, ◌≤◌, length, true, false, IfOk, Some, Contains, replicate, slice_get, slice_set};
ghost use Rattle.xn_pool.specs.Trees.{IsFirstTrue, level_below};

use crate::marks::{WORD_BITS, clear, fill, first_of, is_marked, set};
use std::alloc::{AllocError, Global};
use std::marker::Model;

/// A set of positions below a length, which contracts see as a flag for each. The least position of the set is found, and a
/// position is put in and taken out, in as many steps as there are levels, of which each has 64 times the words of the one above.
#[derive(Drop)]
pub struct Bits {
    // The words of all levels, from the root down to the leaves. The leaves have a bit for each position; above them the
    // bit at place `p`, counted through all words, says whether word `p + 1` has a bit.
    words: Vec<u64>,
    first_leaf: usize,
    count: u64,
}

impl Model for Bits {
    ghost use Rattle.std.specs.Prelude.{List, Bool};
    ghost use Rattle.xn_pool.specs.Trees.{IsTree, flags_of};

    ghost Value = { List Bool };

    ghost view = { λ b. flags_of b.words.items b.first_leaf b.count };

    ghost invariant = { λ b. IsTree b.words.items b.first_leaf b.count };
}

impl Bits {
    /// All positions below a length. It takes all the memory that the set ever needs: little more than a bit for each.
    pub fn full(alloc: Global, count: u64) -> Result<Bits, AllocError>
        requires { count ≤ 2 ^ 56 }
        ensures { IfOk result (λ bits. bits ≡ replicate count true) }
    {
        let first_leaf = first_leaf_of(count);
        let leaves = count.div_ceil(WORD_BITS as u64) as usize;
        let mut words = vec![in alloc; 0; first_leaf + leaves]?;
        for leaf in 0..leaves {
            let left = count - (WORD_BITS * leaf) as u64;
            fill(
                &mut words,
                first_leaf + leaf,
                left.min(WORD_BITS as u64) as u32,
            );
        }
        Ok(Bits {
            words,
            first_leaf,
            count,
        })
    }

    /// Whether a position is in the set.
    pub fn has(&self, position: u64) -> bool
        requires { position < length self.now }
        ensures { slice_get self.now position ≡ Some result }
    {
        is_marked(&self.words, WORD_BITS * self.first_leaf + position as usize)
    }

    /// Puts a position into the set.
    pub fn put(&mut self, position: u64)
        requires { position < length self.old }
        ensures { self.new ≡ slice_set self.old position true }
    {
        let place = WORD_BITS * self.first_leaf + position as usize;
        set(&mut self.words, place);
    }

    /// Takes a position out of the set.
    pub fn remove(&mut self, position: u64)
        requires { position < length self.old }
        ensures { self.new ≡ slice_set self.old position false }
    {
        let place = WORD_BITS * self.first_leaf + position as usize;
        clear(&mut self.words, place);
    }

    /// The least position of the set.
    pub fn least(&self) -> u64
        requires { Contains self.now true }
        ensures { IsFirstTrue self.now result }
    {
        let mut start = 0;
        let mut word = 0;
        while start < self.first_leaf {
            word = first_of(&self.words, word) + 1;
            start = WORD_BITS * start + 1;
        }
        (first_of(&self.words, word) - WORD_BITS * self.first_leaf) as u64
    }
}

/// Which word is the first leaf, where the leaves have so many positions: the first of the first level that has room for them.
fn first_leaf_of(count: u64) -> usize
    requires { count ≤ 2 ^ 56 }
    ensures level { (levels : ℕ) × (result ≡ level_below levels 0) }
    ensures room { count ≤ 64 * (63 * result + 1) }
    ensures small { 63 * result ≤ count }
{
    let mut first = 0;
    while count as usize > WORD_BITS * ((WORD_BITS - 1) * first + 1) {
        first = WORD_BITS * first + 1;
    }
    first
}
