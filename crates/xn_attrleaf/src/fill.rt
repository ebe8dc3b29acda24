//! A leaf written anew.

ghost use Rattle.std.specs.Prelude.{◌≡◌, ◌+◌, ◌*◌, ◌%◌, ◌≤◌, All, length, sum_by};
ghost use Rattle.std.specs.List.Sorted.{IsNonDecreasingBy};
ghost use Rattle.xn_bytes.specs.Attributes.{attribute_hash};
ghost use Rattle.xn_bytes.specs.AttributeLeaves.{attribute_size, value_size};
ghost use Rattle.xn_attrleaf.specs.Filled.{FitsValue, IsFilled, IsLawfulAttribute};
ghost use Rattle.xn_attrleaf.specs.Putting.{PutsAttribute, PutsAttributes, TellsFree, local_bit, name_bytes};

use crate::attribute::hash_of;
use crate::entry::{BLOCK, EntryAt, local_size, remote_size};
use crate::header::put_header;
use crate::put::{put_entry, put_name};
use crate::read::CHECKSUM;
use xn_bytes::{Attribute, Value, put_checksum};

/// The bit of an entry's flags that says that the value stands beside the name.
const LOCAL: u8 = 1;

/// Makes a block a leaf with these attributes. Entries stand in order; their names stand from the end of the block downwards.
/// What lies between them stays.
pub(crate) fn fill(block: &mut [u8], attributes: &[Attribute])
    requires size { length block.old ≡ 4096 }
    requires lawful { All IsLawfulAttribute attributes.now }
    requires sorted { IsNonDecreasingBy attribute_hash attributes.now }
    requires fits { sum_by attribute_size attributes.now ≤ 4016 }
    ensures filled { IsFilled block.old block.new attributes.now }
    ensures free { TellsFree block.new }
{
    let first = put_attributes(block, attributes);
    put_header(block, attributes.len() as u16, first as u16);
    put_checksum(block, CHECKSUM);
}

/// Puts entries and names behind the header, and answers where the names begin.
fn put_attributes(block: &mut [u8], attributes: &[Attribute]) -> usize
    requires size { length block.old ≡ 4096 }
    requires lawful { All IsLawfulAttribute attributes.now }
    requires fits { sum_by attribute_size attributes.now ≤ 4016 }
    ensures puts { PutsAttributes block.old block.new attributes.now }
    ensures first { result + sum_by name_bytes attributes.now ≡ 4096 }
{
    let mut end = BLOCK;
    for index in 0..attributes.len() {
        end = put_attribute(block, index, end, &attributes[index]);
    }
    end
}

/// Puts an attribute's entry at the place of an index, and its name so that it ends at a place. Answers where the name begins.
fn put_attribute(block: &mut [u8], index: usize, end: usize, attribute: &Attribute) -> usize
    requires size { length block.old ≡ 4096 }
    requires lawful { IsLawfulAttribute attribute.now }
    requires room { 80 + 8 * index + 8 + name_bytes attribute.now ≤ end }
    requires end { end ≤ 4096 }
    ensures { PutsAttribute index result end block.old block.new attribute.now }
{
    let place = end - value_size(attribute.name.as_slice().len(), &attribute.value);
    let entry = EntryAt {
        hash: hash_of(attribute),
        place: place as u16,
        flags: entry_flags(attribute),
    };
    put_entry(block, index, entry);
    put_name(block, place, end, attribute);
    place
}

/// The flags of an attribute's entry.
fn entry_flags(attribute: &Attribute) -> u8
    requires { attribute.now.flags % 2 ≡ 0 }
    ensures { result ≡ attribute.now.flags + local_bit attribute.now.value }
{
    match attribute.value {
        Value::Here(_) => attribute.flags + LOCAL,
        Value::Remote { .. } => attribute.flags,
    }
}

/// How many bytes a name of this length and its value take.
fn value_size(name: usize, value: &Value) -> usize
    requires name { name ≤ 255 }
    requires value { FitsValue value.now }
    ensures { result ≡ value_size name value.now }
{
    match value {
        Value::Here(value) => local_size(name, value.as_slice().len()),
        Value::Remote { .. } => remote_size(name),
    }
}
