//! Blocks in runs, and their positions among all blocks of the runs.

ghost use Rattle.std.specs.Prelude.{◌≡◌, ◌+◌, ◌^◌, ◌<◌, ◌≤◌, IfOk, MatchOption, Some, Contains, drop, length, nat_le, slice_get};
ghost use Rattle.xn_meaning.specs.Manifests.{ArePoolRuns};
ghost use Rattle.xn_pool.specs.Blocks.{AreRising, blocks_of};
ghost use Rattle.xn_pool.specs.Starts.{IsSplit, position_of_first};
ghost use Rattle.std.specs.List.Sorted.{IsNonDecreasingBy};

use std::alloc::{AllocError, Global};
use std::marker::Model;

/// Where a run starts: its first block, and how many blocks the runs before it have.
#[derive(Clone, Copy, Debug)]
struct Start {
    block: u64,
    position: u64,
}

/// Blocks in runs that rise and don't overlap, of which contracts see the list. A block and its position in that list are found
/// from each other by halves. Each run takes 16 bytes.
#[derive(Drop)]
pub struct Runs {
    starts: Vec<Start>,
    count: u64,
}

impl Model for Runs {
    ghost use Rattle.std.specs.Prelude.{List, ℕ, ◌≤◌, ◌^◌};
    ghost use Rattle.xn_pool.specs.Starts.{AreStarts, blocks_from};

    ghost Value = { List ℕ };

    ghost view = { λ r. blocks_from r.starts.items r.count };

    ghost invariant = { λ r. AreStarts 0 0 r.starts.items r.count × (r.count ≤ 2 ^ 56) };
}

impl Runs {
    /// Holds runs, each of which is its first block and how many it has.
    pub fn new(alloc: Global, runs: &[(u64, u64)]) -> Result<Runs, AllocError>
        requires { ArePoolRuns 0 runs.now }
        ensures { IfOk result (λ r. r ≡ blocks_of runs.now) }
    {
        let mut starts = Vec::with_capacity(alloc, runs.len())?;
        let mut count = 0;
        for &(block, blocks) in runs {
            starts.push(Start {
                block,
                position: count,
            })?;
            count += blocks;
        }
        Ok(Runs { starts, count })
    }

    /// How many blocks there are.
    pub fn count(&self) -> u64
        ensures count { result ≡ length self.now }
        ensures few { result ≤ 2 ^ 56 }
        ensures rising { AreRising 0 self.now }
    {
        self.count
    }

    /// The position of a block, if it is one of the runs'.
    pub fn position_of(&self, block: u64) -> Option<u64>
        ensures { MatchOption result (Contains self.now block → ⊥) (λ position. slice_get self.now position ≡ Some block) }
    {
        let next = started_by_block(&self.starts, block);
        let start = self.starts[next.checked_sub(1)?];
        let offset = block - start.block;
        if offset < position_at(&self.starts, next, self.count) - start.position {
            Some(start.position + offset)
        } else {
            None
        }
    }

    /// The block at a position.
    pub fn block_at(&self, position: u64) -> u64
        requires { position < length self.now }
        ensures { slice_get self.now position ≡ Some result }
    {
        let next = started_by_position(&self.starts, position);
        let start = self.starts[next - 1];
        start.block + (position - start.position)
    }
}

/// The position of the first block of a run, or behind the last one how many blocks there are.
fn position_at(starts: &[Start], run: usize, count: u64) -> u64
    ensures { result ≡ position_of_first (drop run starts.now) count }
{
    match starts.get(run) {
        Some(start) => start.position,
        None => count,
    }
}

/// How many runs start at a block or before it.
fn started_by_block(starts: &[Start], block: u64) -> usize
    requires { IsNonDecreasingBy (λ s. s.block) starts.now }
    ensures { IsSplit (λ s. s.block) starts.now block result }
{
    starts.partition_point(
        |start: &Start| -> bool
            ensures { result ≡ nat_le start.now.block block }
        { start.block <= block },
    )
}

/// How many runs start at a position or before it.
fn started_by_position(starts: &[Start], position: u64) -> usize
    requires { IsNonDecreasingBy (λ s. s.position) starts.now }
    ensures { IsSplit (λ s. s.position) starts.now position result }
{
    starts.partition_point(
        |start: &Start| -> bool
            ensures { result ≡ nat_le start.now.position position }
        { start.position <= position },
    )
}
