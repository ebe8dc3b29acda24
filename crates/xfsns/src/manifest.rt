//! The manifest, read to its end before anything else.

ghost use Rattle.std.specs.Prelude.{◌≡◌, ◌<◌, ◌≤◌, [], IfOk, IfErr, IfSome, OnErr, MatchOption, length};
ghost use Rattle.xn_bytes.specs.Causes.{Rose};
ghost use Rattle.xn_meaning.specs.Manifests.{most_bytes};
ghost use Rattle.xfsns.specs.Manifest.{FoundIn, IsReadBy, HasTaken};
ghost use Rattle.xfsns.specs.declared.answer.Fault.TheVariants as faults;

use crate::answer::Fault;
use std::alloc::Global;
use xn_machine::{Failed, Source};
use xn_text::{Manifest, ManifestFault};

/// The greatest number of bytes that a manifest may have.
const MOST_BYTES: usize = 1_048_576;

/// How many bytes are asked for at a time.
const PIECE: usize = 4096;

/// What was found where the manifest is to be.
#[derive(Debug, Drop)]
pub enum Found {
    Manifest(Manifest),
    /// Its text is outside the grammar; this is the number of the first such line.
    Outside { line: u64 },
    /// It has more bytes than a manifest may have.
    Long,
}

/// Reads the manifest to its end, or until it has too many bytes.
pub fn read_manifest<F: Source>(alloc: Global, source: &mut F) -> Result<Found, Fault>
    ensures found { IfOk result (FoundIn (F.left source.old)) }
    ensures read { IfOk result (λ found. IsReadBy found (F.left source.new)) }
    ensures later { F.faults source.old ≤ F.faults source.new }
    ensures cause { IfErr result (λ fault. fault ≡ faults.Read → Rose (F.faults source.old) (F.faults source.new)) }
{
    let Some(text) = read_to_end(alloc, source)? else {
        return Ok(Found::Long);
    };
    match Manifest::read(alloc, &text) {
        Ok(manifest) => Ok(Found::Manifest(manifest)),
        Err(ManifestFault::Line { number }) => Ok(Found::Outside { line: number }),
        Err(ManifestFault::Memory) => Err(Fault::Memory),
    }
}

/// The bytes of a source that has at most as many as a manifest may have; None where it has more.
fn read_to_end<F: Source>(alloc: Global, source: &mut F) -> Result<Option<Vec<u8>>, Fault>
    ensures text { IfOk result (λ found. IfSome (F.left source.old) (λ left. MatchOption found (most_bytes < length left) (λ text. (length left ≤ most_bytes) × (text.items ≡ left)))) }
    ensures read { IfOk result (λ found. IfSome found (λ text. IfSome (F.left source.new) (λ left. left ≡ []))) }
    ensures later { F.faults source.old ≤ F.faults source.new }
    ensures cause { IfErr result (λ fault. fault ≡ faults.Read → Rose (F.faults source.old) (F.faults source.new)) }
{
    let mut text = Vec::new(alloc);
    let mut piece = [0; PIECE];
    while text.len() <= MOST_BYTES {
        let count = take_some(source, &mut piece)?;
        if count == 0 {
            return Ok(Some(text));
        }
        text.extend_from_slice(&piece[..count])?;
    }
    Ok(None)
}

/// Takes the next bytes of a source, some as long as any are left.
fn take_some<F: Source>(source: &mut F, piece: &mut [u8]) -> Result<usize, Failed>
    requires { 0 < length piece.old }
    ensures count { IfOk result (λ count. count ≤ length piece.new) }
    ensures taken { IfOk result (λ count. HasTaken (F.left source.old) (F.left source.new) count piece.new) }
    ensures later { F.faults source.old ≤ F.faults source.new }
    ensures cause { OnErr result (Rose (F.faults source.old) (F.faults source.new)) }
{
    source.read(piece)
}
