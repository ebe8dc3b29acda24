//! Attributes as parent records.

ghost use Rattle.std.specs.Prelude.{◌≡◌, All, MatchResult, map};
ghost use Rattle.xn_bytes.specs.ParentRecords.{IsRecord, parents_among, record_in};
ghost use Rattle.xn_inode.specs.Faults.{IsRule};
ghost use Rattle.xn_items.specs.Viewed.{record_of};

use crate::flags::{is_incomplete, is_parent};
use std::alloc::Global;
use xn_bytes::{Attribute, Name, NameFault, Value, u32_at, u64_at};
use xn_inode::ForkFault;
use xn_items::ParentRec;

/// Rule 26: parent records are well formed, and none stands twice.
pub(crate) const RULE: u8 = 26;

/// The bytes of a parent record's value: the directory's number, and its generation behind it.
const VALUE_BYTES: usize = 12;

const GENERATION: usize = 8;

/// The parent records among attributes, in their order. Rule 26 is broken where one is not well formed.
pub(crate) fn records_among(
    alloc: Global,
    attributes: &[Attribute],
) -> Result<Vec<ParentRec>, ForkFault>
    ensures { MatchResult result
        (λ parents. All IsRecord (parents_among attributes.now) × (map record_of parents.items ≡ map record_in (parents_among attributes.now)))
        (IsRule 26 (All IsRecord (parents_among attributes.now))) }
{
    let mut parents = Vec::new(alloc);
    for attribute in attributes {
        if is_parent(attribute.flags) {
            parents.push(record_in(alloc, attribute)?)?;
        }
    }
    Ok(parents)
}

/// The record that an attribute with the parent flag spells. Rule 26 is broken where it is not well formed.
fn record_in(alloc: Global, attribute: &Attribute) -> Result<ParentRec, ForkFault>
    ensures { MatchResult result
        (λ parent. IsRecord attribute.now × (record_of parent ≡ record_in attribute.now))
        (IsRule 26 (IsRecord attribute.now)) }
{
    let Value::Here(value) = &attribute.value else {
        return Err(ForkFault::of_rule(RULE));
    };
    let value = value.as_slice();
    if value.len() != VALUE_BYTES || is_incomplete(attribute.flags) {
        return Err(ForkFault::of_rule(RULE));
    }
    match Name::read(alloc, attribute.name.as_slice()) {
        Ok(name) => Ok(ParentRec {
            dir: u64_at(value, 0),
            generation: u32_at(value, GENERATION),
            name,
        }),
        Err(NameFault::Memory) => Err(ForkFault::Memory),
        Err(_) => Err(ForkFault::of_rule(RULE)),
    }
}
