//! The parts of a text: its lines, and the words of a line.

ghost use Rattle.std.specs.Prelude.{◌≡◌, ◌<◌, ◌∷◌, ◌++◌, [], IfSome, List, MatchOption, length, ℕ};
ghost use Rattle.xn_meaning.specs.Manifests.{lines_in};
ghost use Rattle.xn_meaning.specs.Replies.{space};
ghost use Rattle.xn_text.specs.Parts.{AreWords, AreTheWords};

use memchr::memchr;

/// The first line of a text and what stands behind its end; None where the text is empty.
pub(crate) fn first_line(text: &[u8]) -> Option<(&[u8], &[u8])>
    ensures lines { MatchOption result (lines_in text.now ≡ []) (λ found. lines_in text.now ≡ found.0.now ∷ lines_in found.1.now) }
    ensures shorter { IfSome result (λ found. length found.1.now < length text.now) }
{
    if text.is_empty() {
        return None;
    }
    match memchr(b'\n', text) {
        Some(at) => Some((&text[..at], &text[at + 1..])),
        None => Some((text, &[])),
    }
}

/// The two words of a line behind its front, which the first space there parts.
pub(crate) fn two_words<'a>(line: &'a [u8], front: &[u8]) -> Option<(&'a str, &'a str)>
    ensures found { IfSome result (λ words. line.now ≡ front.now ++ words.0.now ++ space ∷ words.1.now) }
    // Words of ASCII, the first without a space, are found.
    ensures only { (first second : List ℕ) → AreWords first second → line.now ≡ front.now ++ first ++ space ∷ second → AreTheWords first second result }
{
    let words = line.strip_prefix(front)?;
    str::from_utf8(words).ok()?.split_once(' ')
}
