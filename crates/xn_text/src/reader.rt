//! A manifest's text, read a line at a time.

ghost use Rattle.std.specs.Prelude.{◌≡◌, ◌≢◌, ◌<◌, ◌++◌, ◌∷◌, [], IfErr, IfOk, IfSome, List, MatchOption, OnOk, length, ℕ};
ghost use Rattle.xn_meaning.specs.Manifests.{IsFirstBadLine, IsTextOf, Manifest as Said, header_line, lines_in, manifest_lines};
ghost use Rattle.xn_text.specs.Reading.{IsBadChunk, IsBadNext, IsBadRun, IsManifestFault, with_chunk, with_run};
ghost use Rattle.xn_text.specs.declared.reader.LineFault.TheVariants.{Bad, Memory};

use crate::Manifest;
use crate::entry::{read_chunk, read_run};
use crate::parts::first_line;
use std::alloc::{AllocFailed, Global};
use std::marker::Model;

/// The first line of a manifest.
pub(crate) const HEADER: &[u8] = b"xfsns-manifest 1";

/// The greatest inode that a chunk may start with, and the greatest block behind a run.
const LIMIT: u64 = 1 << 56;

/// The greatest number of blocks that a pool may have.
const MOST_POOL_BLOCKS: u64 = 16_777_216;

/// Why a manifest was not read.
#[derive(Clone, Copy, Debug, PartialEq, Eq)]
pub enum ManifestFault {
    /// The first line that is outside the grammar, counted from 1. A text without lines lacks the first one.
    Line { number: u64 },
    /// Memory ran out.
    Memory,
}

/// Why a line was not taken.
#[derive(Clone, Copy, Debug)]
enum LineFault {
    /// No manifest goes on with it.
    Bad,
    /// Memory ran out.
    Memory,
}

impl<T: Drop> From<AllocFailed<T>> for LineFault {
    ghost from_gives = { λ _ fault. fault ≡ Memory };

    fn from(_: AllocFailed<T>) -> LineFault {
        LineFault::Memory
    }
}

/// What the lines of a manifest that were read so far say. Contracts see the manifest that has these lines alone.
#[derive(Debug, Drop)]
struct ManifestReader {
    chunks: Vec<(u64, u64)>,
    runs: Vec<(u64, u64)>,
    /// The inode behind the last chunk.
    next_inode: u64,
    /// The block behind the last run.
    next_block: u64,
    /// How many blocks the runs have together.
    pool_blocks: u64,
}

impl Model for ManifestReader {
    ghost use Rattle.xn_meaning.specs.Manifests.{Manifest as Said};

    ghost Value = { Said };

    ghost use Rattle.xn_text.specs.Reader.{read_so_far, IsReader};

    ghost view = { read_so_far };

    ghost invariant = { IsReader };
}

impl ManifestReader {
    /// The header alone is read.
    fn new(alloc: Global) -> ManifestReader
        ensures { manifest_lines result ≡ header_line ∷ [] }
    {
        ManifestReader {
            chunks: Vec::new(alloc),
            runs: Vec::new(alloc),
            next_inode: 0,
            next_block: 0,
            pool_blocks: 0,
        }
    }

    /// Takes the next line.
    fn take(&mut self, line: &[u8]) -> Result<(), LineFault>
        ensures ok { OnOk result (manifest_lines self.new ≡ manifest_lines self.old ++ line.now ∷ []) }
        ensures err { IfErr result (λ fault. fault ≡ Bad → IsBadNext self.old line.now) }
    {
        if let Some((block, count)) = read_run(line) {
            return self.take_run(block, count);
        }
        if !self.runs.is_empty() {
            return Err(LineFault::Bad);
        }
        match read_chunk(line) {
            Some((start, mask)) => self.take_chunk(start, mask),
            None => Err(LineFault::Bad),
        }
    }

    fn take_chunk(&mut self, start: u64, mask: u64) -> Result<(), LineFault>
        requires { self.old.runs ≡ [] }
        ensures ok { OnOk result (self.new ≡ with_chunk self.old (start, mask)) }
        ensures err { IfErr result (λ fault. fault ≡ Bad → IsBadChunk self.old (start, mask)) }
    {
        if start < self.next_inode || start > LIMIT {
            return Err(LineFault::Bad);
        }
        self.chunks.push((start, mask))?;
        self.next_inode = start + 64;
        Ok(())
    }

    fn take_run(&mut self, block: u64, count: u64) -> Result<(), LineFault>
        ensures ok { OnOk result (self.new ≡ with_run self.old (block, count)) }
        ensures err { IfErr result (λ fault. fault ≡ Bad → IsBadRun self.old (block, count)) }
    {
        if block < self.next_block
            || count == 0
            || count > MOST_POOL_BLOCKS - self.pool_blocks
            || block > LIMIT - count
        {
            return Err(LineFault::Bad);
        }
        self.runs.push((block, count))?;
        self.next_block = block + count;
        self.pool_blocks += count;
        Ok(())
    }

    /// The manifest whose lines were read.
    fn finish(self) -> Manifest
        ensures { result ≡ self }
    {
        let ManifestReader { chunks, runs, .. } = self;
        Manifest::new(chunks, runs)
    }
}

impl Manifest {
    /// Reads the text of a manifest: the header, a line for each chunk, and a line for each run of the pool. The last line may
    /// lack its newline.
    pub fn read(alloc: Global, text: &[u8]) -> Result<Manifest, ManifestFault>
        ensures ok { IfOk result (IsTextOf text.now) }
        ensures err { IfErr result (IsManifestFault text.now) }
    {
        let Some(mut rest) = behind_header(text) else {
            return Err(ManifestFault::Line { number: 1 });
        };
        let mut reader = ManifestReader::new(alloc);
        let mut number = 1;
        while let Some((line, behind)) = first_line(rest) {
            number += 1;
            match reader.take(line) {
                Ok(()) => rest = behind,
                Err(LineFault::Bad) => return Err(ManifestFault::Line { number }),
                Err(LineFault::Memory) => return Err(ManifestFault::Memory),
            }
        }
        Ok(reader.finish())
    }
}

/// What stands behind the header; None where the first line is another.
fn behind_header(text: &[u8]) -> Option<&[u8]>
    ensures lines { MatchOption result
        ((lines : List (List ℕ)) → lines_in text.now ≢ header_line ∷ lines)
        (λ rest. lines_in text.now ≡ header_line ∷ lines_in rest.now) }
    ensures shorter { IfSome result (λ rest. length rest.now < length text.now) }
{
    let (line, rest) = first_line(text)?;
    if line == HEADER { Some(rest) } else { None }
}

/// What `read` answers is the only answer: a text is that of one manifest at most, one that is a manifest's has no first line
/// outside the grammar, and another has one at most.
pub fn one_reading()
    ensures one { (text : List ℕ) (m n : Said) → IsTextOf text m → IsTextOf text n → m ≡ n }
    ensures or_none { (text : List ℕ) (m : Said) (number : ℕ) → IsTextOf text m → ¬ IsFirstBadLine text number }
    ensures first { (text : List ℕ) (m n : ℕ) → IsFirstBadLine text m → IsFirstBadLine text n → m ≡ n }
{}
