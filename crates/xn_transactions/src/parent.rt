//! The parent records of an intent, each a name and a value in regions of their own.

ghost use Rattle.std.specs.Prelude.{◌^◌, ◌<◌};
ghost use Rattle.xn_transactions.specs.Taking.{Says, parent_said};

use crate::fault::Refusal;
use std::alloc::Global;
use xn_bytes::{Name, NameFault, u32_at, u64_at};
use xn_items::ParentRec;

/// The bytes of a parent record's value: the directory's number, and its generation behind it.
pub(crate) const VALUE: usize = 12;

const GENERATION: usize = 8;

/// The parent record with a name of so many bytes, whose region is filled up to a multiple of 4, and with a value.
pub(crate) fn parent_in(
    alloc: Global,
    length: usize,
    name: &[u8],
    value: &[u8],
) -> Result<ParentRec, Refusal>
    requires { length < 2 ^ 32 }
    ensures { Says (parent_said length name.now value.now) result }
{
    if name.len() != (length + 3) / 4 * 4 || value.len() != VALUE {
        return Err(Refusal::Malformed);
    }
    match Name::read(alloc, &name[..length]) {
        Ok(name) => Ok(ParentRec {
            dir: u64_at(value, 0),
            generation: u32_at(value, GENERATION),
            name,
        }),
        Err(NameFault::Memory) => Err(Refusal::Memory),
        Err(_) => Err(Refusal::Malformed),
    }
}
