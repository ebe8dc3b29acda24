//! The three pairs in a block's header that name its greatest free regions.

ghost use Rattle.std.specs.Prelude.{◌≡◌, ◌+◌, ◌≤◌, length, [], ◌∷◌};
ghost use Rattle.xn_bytes.specs.DataBlock.{pair_at};
ghost use Rattle.xn_data.specs.Checks.{FindsFault};
ghost use Rattle.xn_data.specs.Weighing.{pair_of, pairs_of, weighed, pairs_weighed, pair_verdict, verdict};

use crate::fault::{DataFault, fault_at};
use crate::layout::{FIRST_PAIR, SECOND_PAIR, THIRD_PAIR};
use xn_bytes::u16_at;

/// A pair, and what is known of it after some of the free regions: the length of the greatest, and whether the pair names
/// one of that length. Without any the greatest counts as 0, which the place 0 names.
#[derive(Clone, Copy, Debug)]
pub(crate) struct Pair {
    pub(crate) place: usize,
    pub(crate) size: usize,
    pub(crate) greatest: usize,
    pub(crate) is_named: bool,
}

impl Pair {
    /// The pair at a place, before any region.
    fn at(bytes: &[u8], at: usize) -> Pair
        requires { at + 4 ≤ length bytes.now }
        ensures { result ≡ pair_of (pair_at at bytes.now) }
    {
        let place = usize::from(u16_at(bytes, at));
        Pair {
            place,
            size: usize::from(u16_at(bytes, at + 2)),
            greatest: 0,
            is_named: place == 0,
        }
    }

    /// One more free region.
    fn weigh(&mut self, place: usize, size: usize)
        ensures { self.new ≡ weighed self.old (record { place = place; size = size }) }
    {
        let is_here = place == self.place;
        self.is_named = if self.greatest < size {
            is_here
        } else {
            self.is_named || (is_here && size == self.greatest)
        };
        self.greatest = self.greatest.max(size);
    }

    /// After all regions, whether the pair is right; it stands at the place `at`.
    fn check(&self, at: usize) -> Result<(), DataFault>
        requires { at + 2 ≤ 4096 }
        ensures { FindsFault (pair_verdict at self.now) result }
    {
        if !self.is_named {
            return Err(fault_at(at));
        }
        if self.size != self.greatest {
            return Err(fault_at(at + 2));
        }
        Ok(())
    }
}

/// The three pairs. The second counts no region that the first names, and the third none that either names.
#[derive(Clone, Copy, Debug)]
pub(crate) struct BestPairs {
    pub(crate) first: Pair,
    pub(crate) second: Pair,
    pub(crate) third: Pair,
}

impl BestPairs {
    /// The pairs of a header, before any region.
    pub(crate) fn in_header(bytes: &[u8]) -> BestPairs
        requires { length bytes.now ≡ 4096 }
        ensures { result ≡ pairs_of bytes.now }
    {
        BestPairs {
            first: Pair::at(bytes, FIRST_PAIR),
            second: Pair::at(bytes, SECOND_PAIR),
            third: Pair::at(bytes, THIRD_PAIR),
        }
    }

    /// One more free region.
    pub(crate) fn weigh(&mut self, place: usize, size: usize)
        ensures { self.new ≡ pairs_weighed self.old (record { place = place; size = size } ∷ []) }
    {
        self.first.weigh(place, size);
        if place != self.first.place {
            self.second.weigh(place, size);
            if place != self.second.place {
                self.third.weigh(place, size);
            }
        }
    }

    /// After all regions, whether the pairs are right.
    pub(crate) fn check(&self) -> Result<(), DataFault>
        ensures { FindsFault (verdict self.now) result }
    {
        self.first.check(FIRST_PAIR)?;
        self.second.check(SECOND_PAIR)?;
        self.third.check(THIRD_PAIR)
    }
}
