ghost use Rattle.std.specs.Prelude.{◌≡◌, ◌≢◌, ◌<◌, ℕ, List, [], ◌∷◌, ◌++◌, All, IfOk, IfErr, IfSome, IfNone, MatchResult};
ghost use Rattle.xn_bytes.specs.Escapes.{hex_digit, escaped_byte, escaped, IsFirstBad, IsEscapeFault};
ghost use Rattle.xn_bytes.specs.declared.escaped_text.EscapeFault.TheVariants as faults;

use crate::escapes::is_plain;
use std::alloc::Global;

/// Why bytes were not read from a text.
#[derive(Clone, Copy, Debug, PartialEq, Eq)]
pub enum EscapeFault {
    /// The first place from which no escaped text goes on: no byte's text stands there.
    Bad { at: u64 },
    /// Memory ran out.
    Memory,
}

/// The bytes of which this is the text, as `escape` appends it, or the first place where it is none.
pub fn unescape(alloc: Global, text: &[u8]) -> Result<Vec<u8>, EscapeFault>
    // What is read has this text.
    ensures found { IfOk result (λ bytes. text.now ≡ escaped bytes.items) }
    ensures bytes { IfOk result (λ bytes. All (λ byte. byte < 256) bytes.items) }
    // The text of bytes is read as these, unless memory runs out.
    ensures only { (bytes : List ℕ) → All (λ byte. byte < 256) bytes → text.now ≡ escaped bytes → MatchResult result (λ v. v.items ≡ bytes) (λ fault. fault ≡ faults.Memory) }
    // Which place it is.
    ensures exact { IfErr result (IsEscapeFault text.now) }
{
    read_all(alloc, text)
}

/// A text has one first bad place at most, so `unescape` can name no other.
pub fn one_bad_place()
    ensures { (text : List ℕ) (m n : ℕ) → IsFirstBad text m → IsFirstBad text n → m ≡ n }
{}

fn read_all(alloc: Global, text: &[u8]) -> Result<Vec<u8>, EscapeFault>
    ensures found { IfOk result (λ bytes. text.now ≡ escaped bytes.items) }
    ensures bytes { IfOk result (λ bytes. All (λ byte. byte < 256) bytes.items) }
    ensures exact { IfErr result (IsEscapeFault text.now) }
{
    let mut bytes = Vec::new(alloc);
    let mut rest = text;
    while !rest.is_empty() {
        match byte_at_front(rest) {
            Some((byte, after)) => {
                if bytes.push(byte).is_err() {
                    return Err(EscapeFault::Memory);
                }
                rest = after;
            }
            None => return Err(EscapeFault::Bad {
                at: (text.len() - rest.len()) as u64,
            }),
        }
    }
    Ok(bytes)
}

/// The byte whose text stands at the front, and what follows it.
fn byte_at_front(text: &[u8]) -> Option<(u8, &[u8])>
    ensures found { IfSome result (λ found. text.now ≡ escaped_byte found.0 ++ found.1.now) }
    ensures none { IfNone result ((byte : ℕ) (rest : List ℕ) → byte < 256 → text.now ≢ escaped_byte byte ++ rest) }
{
    match text {
        [byte, rest @ ..] if is_plain(*byte) => Some((*byte, rest)),
        [b'\\', high, low, rest @ ..] => {
            let byte = byte_of(*high, *low)?;
            Some((byte, rest))
        }
        _ => None,
    }
}

/// The byte whose text is `\` with these two digits.
fn byte_of(high: u8, low: u8) -> Option<u8>
    ensures found { IfSome result (λ byte. escaped_byte byte ≡ 0x5c ∷ high ∷ low ∷ []) }
    ensures none { IfNone result ((byte : ℕ) → byte < 256 → escaped_byte byte ≢ 0x5c ∷ high ∷ low ∷ []) }
{
    let high = value(high)?;
    let low = value(low)?;
    let byte = high * 16 + low;
    if is_plain(byte) { None } else { Some(byte) }
}

/// The number that a hexadecimal digit stands for.
fn value(digit: u8) -> Option<u8>
    ensures found { IfSome result (λ n. (n < 16) × (hex_digit n ≡ digit)) }
    ensures none { IfNone result ((n : ℕ) → n < 16 → hex_digit n ≢ digit) }
{
    match digit {
        b'0'..=b'9' => Some(digit - b'0'),
        b'a'..=b'f' => Some(digit - b'a' + 10),
        _ => None,
    }
}
