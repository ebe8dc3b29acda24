ghost use Rattle.std.specs.Prelude.{◌≡◌, ◌≢◌, ◌<◌, ◌^◌, ◌↔◌, ℕ, IfNone, IfSome, IsTrue, MatchOption, decimal};
ghost use Rattle.xn_bytes.specs.Escapes.{hex_digit};
ghost use Rattle.xn_meaning.specs.Manifests.{hex_digits};
ghost use Rattle.xn_text.specs.Numbers.{HasPlainFront};

/// How many hexadecimal digits a mask has.
const MASK_DIGITS: usize = 16;

/// Reads a decimal number below 2^64 without sign or leading zero.
pub(crate) fn read_decimal(text: &str) -> Option<u64>
    ensures { MatchOption result
        ((n : ℕ) → n < 2 ^ 64 → text.now ≢ decimal n)
        (λ n. text.now ≡ decimal n) }
{
    if !has_plain_front(text.as_bytes()) {
        return None;
    }
    text.parse().ok()
}

/// Whether a number, if it is one, has no sign and no leading zero.
fn has_plain_front(text: &[u8]) -> bool
    ensures { IsTrue result ↔ HasPlainFront text.now }
{
    match text.first() {
        Some(b'+') => false,
        Some(b'0') => text.len() == 1,
        _ => true,
    }
}

/// Reads a mask of 64 bits: exactly 16 hexadecimal digits in lower case.
pub(crate) fn read_mask(text: &str) -> Option<u64>
    ensures { MatchOption result
        ((mask : ℕ) → mask < 2 ^ 64 → text.now ≢ hex_digits 16 mask)
        (λ mask. text.now ≡ hex_digits 16 mask) }
{
    let digits = text.as_bytes();
    if digits.len() != MASK_DIGITS {
        return None;
    }
    let mut mask = 0;
    for digit in digits {
        mask = mask * 16 + u64::from(digit_value(*digit)?);
    }
    Some(mask)
}

/// The number that a hexadecimal digit stands for.
fn digit_value(digit: u8) -> Option<u8>
    ensures found { IfSome result (λ n. (n < 16) × (hex_digit n ≡ digit)) }
    ensures none { IfNone result ((n : ℕ) → n < 16 → hex_digit n ≢ digit) }
{
    match digit {
        b'0'..=b'9' => Some(digit - b'0'),
        b'a'..=b'f' => Some(digit - b'a' + 10),
        _ => None,
    }
}
