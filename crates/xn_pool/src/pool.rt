ghost use Rattle.std.specs.Prelude.{◌≡◌, ◌≢◌, ◌⊎◌, ◌<◌, ◌↔◌, ◌==◌, not, [], length, All, Contains, IfOk, IsTrue, MatchOption, MatchResult, Some, filter, slice_get, true};
ghost use Rattle.xn_inode.specs.Stores.{AreFree, IsGiven, IsLeast, IsTaken};
ghost use Rattle.xn_meaning.specs.Manifests.{ArePoolRuns};
ghost use Rattle.xn_pool.specs.Blocks.{AreRising, blocks_of};
ghost use Rattle.xn_pool.specs.Pools.{IsFirstForeign, IsHomeRun, IsPoolOf, selected};
ghost use Rattle.xn_pool.specs.Faults.{NotMade};

use crate::bits::Bits;
use crate::fault::PoolFault;
use crate::runs::Runs;
use std::alloc::{AllocError, Global};
use std::marker::Model;
use xn_inode::Super;

/// The pool of an image: a set of blocks, of which some are free. Contracts see the list of all its blocks and that of the free
/// ones, both rising. It takes memory when it is made, little more than a bit for each block and 16 bytes for each run, and
/// none later. The steps of every other call grow with the logarithm of the number of blocks alone.
#[derive(Drop)]
pub struct Pool {
    runs: Runs,
    // The positions of the free blocks among all blocks.
    bits: Bits,
    free: u64,
}

impl Model for Pool {
    ghost use Rattle.xn_pool.specs.Pools.{AreFlagged, PoolState, selected};

    ghost Value = { PoolState };

    ghost view = { λ p. record { blocks = p.runs; free = selected p.runs p.bits } };

    ghost invariant = { λ p. AreFlagged p.runs p.bits p.free };
}

impl Pool {
    /// The blocks of runs, all free. Each run is its first block and how many it has; each begins behind the one before it.
    pub fn new(alloc: Global, geometry: &Super, runs: &[(u64, u64)]) -> Result<Pool, PoolFault>
        requires { ArePoolRuns 0 runs.now }
        ensures { MatchResult result (IsPoolOf geometry.now runs.now) (NotMade geometry.now runs.now) }
    {
        if let Some(at) = first_foreign(geometry, runs) {
            return Err(PoolFault::Range { at });
        }
        Ok(Pool::of_runs(alloc, runs)?)
    }

    /// The blocks of runs, wherever they lie.
    fn of_runs(alloc: Global, runs: &[(u64, u64)]) -> Result<Pool, AllocError>
        requires { ArePoolRuns 0 runs.now }
        ensures blocks { IfOk result (λ pool. pool ≡ record { blocks = blocks_of runs.now; free = blocks_of runs.now }) }
        ensures rising { IfOk result (λ pool. AreRising 0 pool.blocks) }
    {
        let runs = Runs::new(alloc, runs)?;
        let free = runs.count();
        let bits = Bits::full(alloc, free)?;
        Ok(Pool { runs, bits, free })
    }

    /// How many blocks are free.
    pub fn free_count(&self) -> u64
        ensures count { result ≡ length self.now.free }
        ensures set { AreFree self.now.blocks self.now.free }
    {
        self.free
    }

    /// Whether a block is free.
    pub fn is_free(&self, block: u64) -> bool
        ensures { IsTrue result ↔ Contains self.now.free block }
    {
        free_position(&self.runs, &self.bits, block).is_some()
    }

    /// Makes a block not free, if it is free.
    pub fn mark_used(&mut self, block: u64)
        ensures free { self.new.free ≡ filter (λ other. not (other == block)) self.old.free }
        ensures blocks { self.new.blocks ≡ self.old.blocks }
    {
        if let Some(position) = free_position(&self.runs, &self.bits, block) {
            self.bits.remove(position);
            self.free -= 1;
        }
    }

    /// Takes a free block: `near` where that is free, else the least.
    pub fn take(&mut self, near: Option<u64>) -> u64
        requires { self.old.free ≢ [] }
        ensures taken { IsTaken near self.old.free self.new.free result }
        ensures blocks { self.new.blocks ≡ self.old.blocks }
    {
        let block = self.choice(near);
        self.mark_used(block);
        block
    }

    /// The block that is taken.
    fn choice(&self, near: Option<u64>) -> u64
        requires { self.now.free ≢ [] }
        ensures { MatchOption near (IsLeast self.now.free result) (λ wanted. ((result ≡ wanted) × Contains self.now.free wanted) ⊎ (¬ Contains self.now.free wanted × IsLeast self.now.free result)) }
    {
        match near {
            Some(wanted) if self.is_free(wanted) => wanted,
            _ => self.least(),
        }
    }

    /// The least of the free blocks.
    fn least(&self) -> u64
        requires { self.now.free ≢ [] }
        ensures { IsLeast self.now.free result }
    {
        self.runs.block_at(self.bits.least())
    }

    /// Makes a block of the pool free. It has no effect on another block.
    pub fn give(&mut self, block: u64)
        ensures given { IsGiven self.old.blocks self.old.free self.new.free block }
        ensures blocks { self.new.blocks ≡ self.old.blocks }
    {
        if let Some(position) = self.runs.position_of(block) {
            if !self.bits.has(position) {
                self.bits.put(position);
                self.free += 1;
            }
        }
    }
}

/// The position of a block, if it is free.
fn free_position(runs: &Runs, bits: &Bits, block: u64) -> Option<u64>
    requires long { length bits.now ≡ length runs.now }
    requires rising { AreRising 0 runs.now }
    ensures { MatchOption result
        (Contains (selected runs.now bits.now) block → ⊥)
        (λ position. (slice_get runs.now position ≡ Some block) × (slice_get bits.now position ≡ Some true)) }
{
    let position = runs.position_of(block)?;
    if bits.has(position) {
        Some(position)
    } else {
        None
    }
}

/// The number of the first run that has a block which no fork may map.
fn first_foreign(geometry: &Super, runs: &[(u64, u64)]) -> Option<u64>
    requires { ArePoolRuns 0 runs.now }
    ensures { MatchOption result (All (IsHomeRun geometry.now) runs.now) (IsFirstForeign geometry.now runs.now) }
{
    for (at, &(block, count)) in runs.iter().enumerate() {
        if !geometry.is_home_run(block, count) {
            return Some(at as u64);
        }
    }
    None
}

#[cfg(test)]
mod tests {
    use super::*;
    use std::process::Abort;
    use std::test::Fail;

    fn taken(rt: &impl Abort, pool: &mut Pool, near: Option<u64>) -> u64 {
        assert!(rt; pool.free_count() > 0);
        pool.take(near)
    }

    #[test]
    fn takes_and_gives(rt: HostRuntime) -> Result<(), Fail> {
        let mut pool = Pool::of_runs(rt.alloc(), &[(10, 70), (100, 5000)])?;
        assert_eq!(rt; pool.free_count(), 5070);
        assert!(rt;
            pool.is_free(79) && !pool.is_free(80) && pool.is_free(5099) && !pool.is_free(5100)
        );
        assert_eq!(rt; taken(&rt, &mut pool, None), 10);
        assert_eq!(rt; taken(&rt, &mut pool, Some(10)), 11);
        assert_eq!(rt; taken(&rt, &mut pool, Some(5099)), 5099);
        assert_eq!(rt; taken(&rt, &mut pool, Some(90)), 12);
        for block in 13..4300 {
            pool.mark_used(block);
        }
        assert_eq!(rt; pool.free_count(), 799);
        assert_eq!(rt; taken(&rt, &mut pool, None), 4300);
        pool.give(70);
        pool.give(70);
        pool.give(90);
        assert_eq!(rt; pool.free_count(), 799);
        assert_eq!(rt; taken(&rt, &mut pool, None), 70);
        assert_eq!(rt; taken(&rt, &mut pool, None), 4301);
        Ok(())
    }
}
