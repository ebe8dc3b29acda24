//! Lists of extents: which blocks of the image hold the blocks of a file.

ghost use Rattle.std.specs.Prelude.{◌≡◌, ◌+◌, ◌-◌, ◌*◌, ◌^◌, ◌≤◌, ◌<◌, ◌↔◌, ℕ, IsSome, IsTrue, MatchOption, MatchResult, None, Option, Some, drop, length, slice_get, nat_le, nat_lt};
ghost use Rattle.xn_bytes.specs.Extents.{Run, AreRecords, AreRuns, IsFirstBad, IsRecord, run_in, runs_in, end_of_run, mapped};
ghost use Rattle.xn_bytes.specs.DirectoryForms.{AreHome};
ghost use Rattle.xn_bytes.specs.Trees.{AreBlocks};
ghost use Rattle.xn_inode.specs.declared.extents.ExtentFault.TheVariants.{Memory};
ghost use Rattle.xn_inode.specs.Lists.{IsLastMapped, IsLastRun, IsNextMapped, IsPlace, NotRead};

use crate::superblock::Super;
use std::alloc::{AllocError, AllocFailed, Global};
use std::marker::Model;
use xn_bytes::u64_at;

/// So many bytes has a record: two big-endian words of 8 bytes.
const RECORD_BYTES: usize = 16;

/// A run of blocks.
#[derive(Clone, Copy, Debug, PartialEq, Eq)]
struct Extent {
    file_block: u64,
    block: u64,
    count: u64,
}

impl Model for Extent {
    ghost use Rattle.std.specs.Prelude.{◌<◌, ◌^◌};
    ghost use Rattle.xn_bytes.specs.Extents.{Run};

    ghost Value = { Run };

    ghost view = { λ e. record { file_block = e.file_block; block = e.block; count = e.count } };

    ghost invariant = { λ e. (e.file_block < 2 ^ 54) × (e.block < 2 ^ 52) × (e.count < 2 ^ 21) };

    ghost inverse = { λ r. record { file_block = r.file_block; block = r.block; count = r.count } };
}

impl Extent {
    fn holds(&self, file_block: u64) -> bool
        ensures { IsTrue result ↔ ((self.now.file_block ≤ file_block) × (file_block < end_of_run self.now)) }
    {
        self.file_block <= file_block && file_block < self.end()
    }

    /// The file block behind the run.
    fn end(&self) -> u64
        ensures { result ≡ end_of_run self.now }
    {
        self.file_block + self.count
    }
}

/// A list of extents in the order of their file blocks, which don't overlap. Each record on disk is an
/// `xfs_bmbt_rec` of Linux's `xfs_format.h`: 128 bits with a flag, 54 bits of the file block, 52 of the block and
/// 21 of the count. Contracts see the runs.
#[derive(Drop)]
pub struct Extents {
    runs: Vec<Extent>,
}

impl Model for Extents {
    ghost use Rattle.std.specs.Prelude.{List};
    ghost use Rattle.xn_bytes.specs.Extents.{Run, AreRuns};

    ghost Value = { List Run };

    ghost view = { λ e. e.runs.items };

    ghost invariant = { λ e. AreRuns 0 e.runs.items };
}

/// Why a list of extents was not read.
#[derive(Clone, Copy, Debug, PartialEq, Eq)]
pub enum ExtentFault {
    /// The record of this number, from 0, is none: cut off, flagged, empty, or before the end of the one before.
    Bad { at: u64 },
    /// Memory ran out.
    Memory,
}

impl From<AllocError> for ExtentFault {
    ghost from_gives = { λ _ fault. fault ≡ Memory };

    fn from(_: AllocError) -> ExtentFault {
        ExtentFault::Memory
    }
}

impl<T: Drop> From<AllocFailed<T>> for ExtentFault {
    ghost from_gives = { λ _ fault. fault ≡ Memory };

    fn from(_: AllocFailed<T>) -> ExtentFault {
        ExtentFault::Memory
    }
}

impl Extents {
    /// Reads so many records from the front of the bytes.
    pub fn read(alloc: Global, bytes: &[u8], count: u64) -> Result<Extents, ExtentFault>
        ensures { MatchResult result
            (λ extents. AreRecords count 0 bytes.now × (extents ≡ runs_in count bytes.now))
            (λ fault. NotRead count bytes.now fault) }
    {
        let mut runs = Vec::new(alloc);
        let mut rest = bytes;
        let mut least = 0;
        for at in 0..count {
            if !is_record(rest, least) {
                return Err(ExtentFault::Bad { at });
            }
            let run = read_run(rest);
            least = run.end();
            runs.push(run)?;
            rest = after_record(rest);
        }
        Ok(Extents { runs })
    }

    /// The block that a file block is mapped to, if one is.
    pub fn block_at(&self, file_block: u64) -> Option<u64>
        ensures { result ≡ mapped self.now file_block }
    {
        let at = self.place(file_block);
        let run = self.runs.get(at)?;
        if run.holds(file_block) {
            Some(run.block + (file_block - run.file_block))
        } else {
            None
        }
    }

    /// The least file block from one on and below a limit that is mapped, and the block that it is mapped to.
    pub fn next_mapped(&self, from: u64, limit: u64) -> Option<(u64, u64)>
        ensures { MatchOption result
            ((file_block : ℕ) → from ≤ file_block → file_block < limit → mapped self.now file_block ≡ None)
            (λ next. IsNextMapped self.now from limit next.0 next.1) }
    {
        let run = self.runs.get(self.place(from))?;
        let file_block = run.file_block.max(from);
        if file_block < limit {
            Some((file_block, run.block + (file_block - run.file_block)))
        } else {
            None
        }
    }

    /// The greatest file block below a limit that is mapped.
    pub fn last_mapped(&self, limit: u64) -> Option<u64>
        ensures { MatchOption result
            ((file_block : ℕ) → file_block < limit → mapped self.now file_block ≡ None)
            (λ last. IsLastMapped self.now limit last) }
    {
        let run = self.last_run(limit)?;
        Some(run.end().min(limit) - 1)
    }

    /// The file block behind the last that is mapped, 0 where none is.
    pub fn end(&self) -> u64
        ensures behind { (file_block : ℕ) → result ≤ file_block → mapped self.now file_block ≡ None }
        ensures last { 0 < result → IsSome (mapped self.now (result - 1)) }
    {
        match self.runs.last() {
            Some(run) => run.end(),
            None => 0,
        }
    }

    /// Whether each block of the runs is one that a fork may map: one of the device, none of the log, and no group's first.
    pub fn are_home(&self, geometry: &Super) -> bool
        ensures home { IsTrue result ↔ AreHome geometry.now self.now }
        ensures blocks { IsTrue result → AreBlocks geometry.now self.now }
    {
        for at in 0..self.count() {
            let (_, block, count) = self.run(at);
            if !geometry.is_home_run(block, count) {
                return false;
            }
        }
        true
    }

    /// The index of the first run that ends behind a file block, or past the last.
    fn place(&self, file_block: u64) -> usize
        ensures { IsPlace self.now file_block result }
    {
        self.runs.partition_point(
            |run: &Extent| -> bool
                ensures { result ≡ nat_le (end_of_run run.now) file_block }
            { run.end() <= file_block },
        )
    }

    /// The last run that begins below a limit.
    fn last_run(&self, limit: u64) -> Option<Extent>
        ensures { MatchOption result
            ((file_block : ℕ) → file_block < limit → mapped self.now file_block ≡ None)
            (IsLastRun self.now limit) }
    {
        let count = self.runs.partition_point(
            |run: &Extent| -> bool
                ensures { result ≡ nat_lt run.now.file_block limit }
            { run.file_block < limit },
        );
        let at = count.checked_sub(1)?;
        Some(self.runs[at])
    }

    /// How many records there are.
    pub fn count(&self) -> u64
        ensures count { result ≡ length self.now }
        ensures lawful { AreRuns 0 self.now }
    {
        self.runs.len() as u64
    }

    /// File block, block and count of a record.
    pub fn run(&self, at: u64) -> (u64, u64, u64)
        requires { at < length self.now }
        ensures run { slice_get self.now at ≡ Some (record { file_block = result.0; block = result.1; count = result.2 }) }
        ensures fits { (result.0 < 2 ^ 54) × (result.1 < 2 ^ 52) × (result.2 < 2 ^ 21) }
    {
        let run = self.runs[at as usize];
        (run.file_block, run.block, run.count)
    }
}

/// Whether the record at the front is whole, unflagged, not empty, and at or behind the file block `least`.
fn is_record(bytes: &[u8], least: u64) -> bool
    ensures { IsTrue result ↔ IsRecord least bytes.now }
{
    bytes.len() >= RECORD_BYTES
        && {
            let run = read_run(bytes);
            u64_at(bytes, 0) >> 63 == 0 && run.count > 0 && least <= run.file_block
        }
}

/// The bytes behind the record at the front.
fn after_record(bytes: &[u8]) -> &[u8]
    requires { 16 ≤ length bytes.now }
    ensures { result.now ≡ drop 16 bytes.now }
{
    &bytes[RECORD_BYTES..]
}

/// The run of the record at the front.
fn read_run(bytes: &[u8]) -> Extent
    requires { 16 ≤ length bytes.now }
    ensures { result ≡ run_in bytes.now }
{
    let high = u64_at(bytes, 0);
    let low = u64_at(bytes, 8);
    Extent {
        file_block: high / (1 << 9) % (1 << 54),
        block: high % (1 << 9) * (1 << 43) + low / (1 << 21),
        count: low % (1 << 21),
    }
}
