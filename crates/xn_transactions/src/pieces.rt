//! The pieces of a buffer, by their numbers, that its item changes, and whether regions cover them.

ghost use Rattle.std.specs.Prelude.{◌≡◌, ◌+◌, ◌*◌, ◌/◌, ◌^◌, ◌<◌, ◌≤◌, ◌++◌, length, drop, true, false, IfOk, OnOk, MatchOption};
ghost use Rattle.xn_changes.specs.Decoded.{bytes_of};
ghost use Rattle.xn_changes.specs.Items.{are_neighbours, are_within, count_up, cover, piece_size, pieces_in, pieces_of_word};
ghost use Rattle.xn_transactions.specs.Pieces.{covers};

use crate::region::Region;
use std::alloc::{AllocError, Global};

/// How many bytes a piece has.
const PIECE: usize = 128;

/// How many pieces a word of the map speaks of.
const WORD: usize = 32;

/// How many pieces a sector has.
const PIECES_OF_SECTOR: usize = 4;

/// The numbers of the pieces whose bits are set in the words of a map, rising.
pub fn pieces_in(alloc: Global, words: &[u32]) -> Result<Vec<usize>, AllocError>
    requires { length words.now < 2 ^ 32 }
    ensures { IfOk result (λ pieces. pieces.items ≡ pieces_in words.now) }
{
    let mut pieces = Vec::new(alloc);
    for (k, word) in words.iter().enumerate() {
        push_pieces(&mut pieces, WORD * k, *word)?;
    }
    Ok(pieces)
}

/// Adds the numbers of the pieces whose bits are set in a word, of which the lowest bit is that of the piece with the number `from`.
fn push_pieces(pieces: &mut Vec<usize>, from: usize, word: u32) -> Result<(), AllocError>
    requires { from + 32 < 2 ^ 64 }
    ensures { OnOk result (pieces.new.items ≡ pieces.old.items ++ pieces_of_word from 32 word) }
{
    let mut bits = word;
    for piece in from..from + WORD {
        if bits % 2 == 1 {
            pieces.push(piece)?;
        }
        bits /= 2;
    }
    Ok(())
}

/// Whether each region covers pieces that are neighbours, one at least, and all together cover these in order.
pub(crate) fn cover(regions: &[Region<'_>], pieces: &[usize]) -> bool
    ensures { result ≡ cover (bytes_of regions.now) pieces.now }
{
    let mut left = pieces;
    for region in regions {
        match behind_region(region.bytes(), left) {
            Some(behind) => left = behind,
            None => return false,
        }
    }
    left.is_empty()
}

/// The pieces behind those that a region covers, if it covers the first of them.
fn behind_region<'p>(region: &[u8], pieces: &'p [usize]) -> Option<&'p [usize]>
    ensures { MatchOption result
        (covers region.now pieces.now ≡ false)
        (λ behind. (covers region.now pieces.now ≡ true) × (behind.now ≡ drop (length region.now / piece_size) pieces.now)) }
{
    let count = region.len() / PIECE;
    if region.len() % PIECE != 0 || region.is_empty() || !are_neighbours(count, pieces) {
        return None;
    }
    Some(&pieces[count..])
}

/// Whether so many at the front are there, and neighbours.
fn are_neighbours(count: usize, pieces: &[usize]) -> bool
    ensures value { result ≡ are_neighbours count pieces.now }
    ensures there { result ≡ true → count ≤ length pieces.now }
{
    let Some(first) = pieces.first() else {
        return false;
    };
    count <= pieces.len() && count_up(*first, &pieces[..count])
}

/// Whether the numbers count up by one, from this one on.
fn count_up(from: usize, pieces: &[usize]) -> bool
    ensures { result ≡ count_up from pieces.now }
{
    for (k, piece) in pieces.iter().enumerate() {
        if piece.checked_sub(from) != Some(k) {
            return false;
        }
    }
    true
}

/// Whether no piece is past a buffer of so many sectors.
pub(crate) fn are_within(sectors: u16, pieces: &[usize]) -> bool
    ensures { result ≡ are_within sectors pieces.now }
{
    let end = PIECES_OF_SECTOR * usize::from(sectors);
    !pieces.iter().any(|piece| end <= *piece)
}
