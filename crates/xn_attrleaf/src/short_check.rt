//! Whether a fork begins with attributes in short form, and where it first fails.

ghost use Rattle.std.specs.Prelude.{◌≡◌, ◌+◌, length, None, Some, MatchResult};
ghost use Rattle.xn_bytes.specs.ShortAttributes.{short_attributes_fault};
ghost use Rattle.xn_attrleaf.specs.ShortChecks.{end_in, front_end};

use crate::short_fault::AttrShortFault;
use xn_bytes::u16_at;

/// The count of the attributes, behind the total size in two bytes.
const COUNT: usize = 2;

/// The attributes, behind the count and a byte that is free.
pub(crate) const ATTRIBUTES: usize = 4;

/// The name of an attribute, behind its length, the value's length and the flags. The value follows it.
pub(crate) const NAME: usize = 3;

fn fault_at(at: usize) -> AttrShortFault
    ensures { result.at ≡ at }
{
    AttrShortFault { at: at as u64 }
}

/// Whether the fork begins with attributes in short form; where it doesn't, the first place at which it fails.
pub(crate) fn check(fork: &[u8]) -> Result<(), AttrShortFault>
    ensures { MatchResult result (λ _. short_attributes_fault fork.now ≡ None) (λ fault. short_attributes_fault fork.now ≡ Some fault.at) }
{
    let Some(end) = end_of_attributes(fork) else {
        return Err(fault_at(fork.len()));
    };
    if end != usize::from(u16_at(fork, 0)) {
        return Err(fault_at(0));
    }
    Ok(())
}

// The place where the attributes end, if their bytes are all there.
fn end_of_attributes(fork: &[u8]) -> Option<usize>
    ensures { result ≡ end_in fork.now }
{
    if fork.len() < ATTRIBUTES {
        return None;
    }
    let mut at = ATTRIBUTES;
    let count = fork[COUNT];
    for _ in 0..count {
        at += size_of_front(&fork[at..])?;
    }
    Some(at)
}

/// How many bytes the attribute at the front takes, if they are all there.
fn size_of_front(rest: &[u8]) -> Option<usize>
    ensures { result ≡ front_end rest.now }
{
    if rest.len() < NAME {
        return None;
    }
    let size = NAME + usize::from(rest[0]) + usize::from(rest[1]);
    if rest.len() < size {
        return None;
    }
    Some(size)
}
