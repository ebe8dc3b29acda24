//! Attributes: their hashes and sizes, and those that stand in a leaf.

ghost use Rattle.std.specs.Prelude.{◌≡◌, ◌+◌, IfOk, length, min};
ghost use Rattle.xn_bytes.specs.Attributes.{attribute_hash};
ghost use Rattle.xn_bytes.specs.AttributeLeaves.{attribute_at, local_size, remote_size, value_at};
ghost use Rattle.xn_attrleaf.specs.Entries.{IsInside, with_value_here};
ghost use Rattle.xn_attrleaf.specs.Sizes.{leaf_size};

use crate::entry::{ENTRY_BYTES, EntryAt, is_local, local_size, name_in, remote_size, value_in};
use std::alloc::{AllocError, Global};
use xn_bytes::{Attribute, Bytes, Value, name_hash, parent_hash, u32_at, u64_at};

/// The flag of a parent record.
const PARENT: u8 = 8;

/// How many bytes the value of a parent record has.
const PARENT_VALUE: usize = 12;

/// Where an attribute has no place in a leaf, this size stands for its own.
const TOO_LARGE: usize = 4017;

/// The hash of an attribute whose value stands beside its name.
pub fn hash_with_value(flags: u8, name: &[u8], value: &[u8]) -> u32
    ensures { result ≡ attribute_hash (with_value_here flags name.now value.now) }
{
    if flags / PARENT % 2 == 1 && value.len() == PARENT_VALUE {
        parent_hash(name, u64_at(value, 0))
    } else {
        name_hash(name)
    }
}

/// The hash of the attribute of an entry. Nothing is copied.
pub(crate) fn hash_in(block: &[u8], entry: EntryAt) -> u32
    requires size { length block.now ≡ 4096 }
    requires inside { IsInside block.now entry }
    ensures { result ≡ attribute_hash (attribute_at block.now entry) }
{
    let name = name_in(block, entry);
    if is_local(entry.flags) {
        hash_with_value(entry.flags, name, value_in(block, entry))
    } else {
        name_hash(name)
    }
}

/// The hash of an attribute, by which it is found.
pub(crate) fn hash_of(attribute: &Attribute) -> u32
    ensures { result ≡ attribute_hash attribute.now }
{
    let name = attribute.name.as_slice();
    match &attribute.value {
        Value::Here(value) => hash_with_value(attribute.flags, name, value.as_slice()),
        Value::Remote { .. } => name_hash(name),
    }
}

/// How many bytes of a leaf an attribute takes, or 4017 where it takes more than a leaf has.
pub(crate) fn size_of(attribute: &Attribute) -> u64
    ensures { result ≡ leaf_size attribute.now }
{
    let name = attribute.name.as_slice().len();
    let size = match &attribute.value {
        Value::Here(value) => size_with_value(name, value.as_slice().len()),
        Value::Remote { .. } => size_remote(name),
    };
    size as u64
}

/// How many bytes of a leaf an attribute takes whose value stands beside its name, by the lengths of both; or 4017 where it
/// takes more than a leaf has.
pub fn size_with_value(name: usize, value: usize) -> usize
    ensures { result ≡ min (8 + local_size name value) 4017 }
{
    if name >= TOO_LARGE || value >= TOO_LARGE {
        return TOO_LARGE;
    }
    usize::min(ENTRY_BYTES + local_size(name, value), TOO_LARGE)
}

fn size_remote(name: usize) -> usize
    ensures { result ≡ min (8 + remote_size name) 4017 }
{
    if name >= TOO_LARGE {
        return TOO_LARGE;
    }
    usize::min(ENTRY_BYTES + remote_size(name), TOO_LARGE)
}

/// The attribute of an entry.
pub(crate) fn attribute_in(
    alloc: Global,
    block: &[u8],
    entry: EntryAt,
) -> Result<Attribute, AllocError>
    requires size { length block.now ≡ 4096 }
    requires inside { IsInside block.now entry }
    ensures { IfOk result (λ attribute. attribute ≡ attribute_at block.now entry) }
{
    Ok(Attribute {
        flags: entry.flags - entry.flags % 2,
        name: bytes_of(alloc, name_in(block, entry))?,
        value: value_of(alloc, block, entry)?,
    })
}

/// The value of an entry.
fn value_of(alloc: Global, block: &[u8], entry: EntryAt) -> Result<Value, AllocError>
    requires size { length block.now ≡ 4096 }
    requires inside { IsInside block.now entry }
    ensures { IfOk result (λ value. value ≡ value_at block.now entry) }
{
    if is_local(entry.flags) {
        return Ok(Value::Here(bytes_of(alloc, value_in(block, entry))?));
    }
    let place = usize::from(entry.place);
    Ok(Value::Remote {
        block: u32_at(block, place),
        length: u32_at(block, place + 4),
    })
}

/// The same attribute once more.
pub(crate) fn copy_of(alloc: Global, attribute: &Attribute) -> Result<Attribute, AllocError>
    ensures { IfOk result (λ copy. copy ≡ attribute.now) }
{
    Ok(Attribute {
        flags: attribute.flags,
        name: bytes_of(alloc, attribute.name.as_slice())?,
        value: copy_of_value(alloc, &attribute.value)?,
    })
}

fn copy_of_value(alloc: Global, value: &Value) -> Result<Value, AllocError>
    ensures { IfOk result (λ copy. copy ≡ value.now) }
{
    match value {
        Value::Here(bytes) => Ok(Value::Here(bytes_of(alloc, bytes.as_slice())?)),
        Value::Remote { block, length } => Ok(Value::Remote {
            block: *block,
            length: *length,
        }),
    }
}

fn bytes_of(alloc: Global, bytes: &[u8]) -> Result<Bytes, AllocError>
    ensures { IfOk result (λ copy. copy ≡ bytes.now) }
{
    Ok(Bytes::new(bytes.to_vec(alloc)?))
}
