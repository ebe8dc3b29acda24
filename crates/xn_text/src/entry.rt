//! The lines of a manifest behind its header.

ghost use Rattle.std.specs.Prelude.{◌≡◌, ◌≢◌, ◌<◌, ◌^◌, ℕ, MatchOption};
ghost use Rattle.xn_meaning.specs.Manifests.{chunk_line, pool_line};
ghost use Rattle.xn_text.specs.Numbers.{AreSmall};

use crate::number::{read_decimal, read_mask};
use crate::parts::two_words;

/// Reads `chunk START MASK`.
pub(crate) fn read_chunk(line: &[u8]) -> Option<(u64, u64)>
    ensures { MatchOption result
        ((chunk : ℕ × ℕ) → AreSmall chunk → line.now ≢ chunk_line chunk)
        (λ chunk. line.now ≡ chunk_line chunk) }
{
    let (start, mask) = two_words(line, b"chunk ")?;
    let start = read_decimal(start)?;
    let mask = read_mask(mask)?;
    Some((start, mask))
}

/// Reads `pool BLOCK COUNT`.
pub(crate) fn read_run(line: &[u8]) -> Option<(u64, u64)>
    ensures { MatchOption result
        ((run : ℕ × ℕ) → AreSmall run → line.now ≢ pool_line run)
        (λ run. line.now ≡ pool_line run) }
{
    let (block, count) = two_words(line, b"pool ")?;
    let block = read_decimal(block)?;
    let count = read_decimal(count)?;
    Some((block, count))
}
