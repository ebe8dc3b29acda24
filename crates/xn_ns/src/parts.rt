//! The parts of a path, one after the other.

ghost use Rattle.std.specs.Prelude.{◌≡◌, ◌∷◌, ◌<◌, ◌==◌, not, [], IfSome, MatchOption, length, position};
ghost use Rattle.xn_meaning.specs.Paths.{parts_of, slash};

use memchr::memchr;

/// The first part of a path, and what stands behind it; None where the path has no parts. Parts stand between slashes, and
/// empty ones are none.
pub(crate) fn first_part(path: &[u8]) -> Option<(&[u8], &[u8])>
    ensures parts { MatchOption result (parts_of path.now ≡ []) (λ found. parts_of path.now ≡ found.0.now ∷ parts_of found.1.now) }
    ensures shorter { IfSome result (λ found. length found.1.now < length path.now) }
{
    let start = first_no_slash(path)?;
    let (_, rest) = path.split_at(start);
    match memchr(b'/', rest) {
        Some(at) => Some(rest.split_at(at)),
        None => Some((rest, &[])),
    }
}

/// Where the slashes in front of a path end; None where it has nothing behind them.
fn first_no_slash(path: &[u8]) -> Option<usize>
    ensures { result ≡ position (λ byte. not (byte == slash)) path.now }
{
    path.iter().position(|byte| *byte != b'/')
}
