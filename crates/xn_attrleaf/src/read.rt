//! Whether a block is a leaf of an attribute fork, and which attributes it has.

ghost use Rattle.std.specs.Prelude.{◌≡◌, ◌↔◌, ◌≤◌, All, IfOk, IsTrue, length, map, sum_by};
ghost use Rattle.std.specs.List.Sorted.{IsNonDecreasingBy};
ghost use Rattle.xn_bytes.specs.Numbers.{number_at};
ghost use Rattle.xn_bytes.specs.Attributes.{attribute_hash};
ghost use Rattle.xn_bytes.specs.AttributeLeaves.{IsAttrLeaf, IsWithin, attr_entries, attr_leaf_ends, attr_leaf_magic, attribute_at, name_size};
ghost use Rattle.xn_attrleaf.specs.Entries.{HasPlaces, HasRoom, IsFramed, IsIndexed};

use crate::apart::are_apart;
use crate::attribute::{attribute_in, hash_in};
use crate::entry::{BLOCK, ENTRY_BYTES, EntryAt, FIRST_ENTRY, entry_in, has_head, name_size};
use std::alloc::{AllocError, Global};
use xn_bytes::{Attribute, has_checksum, u16_at};

pub(crate) const MAGIC: usize = 8;

pub(crate) const CHECKSUM: usize = 12;

pub(crate) const COUNT: usize = 56;

pub(crate) const USED: usize = 58;

pub(crate) const FIRST_USED: usize = 60;

pub(crate) const LEAF: u16 = 0x3bee;

/// Whether a block is a leaf of an attribute fork.
pub(crate) fn is_leaf(block: &[u8]) -> bool
    requires { length block.now ≡ 4096 }
    ensures { IsTrue result ↔ IsAttrLeaf block.now }
{
    is_framed(block) && is_filled(block) && is_indexed(block)
}

/// Whether the header is that of such a leaf, and the checksum is right.
fn is_framed(block: &[u8]) -> bool
    requires { length block.now ≡ 4096 }
    ensures { IsTrue result ↔ IsFramed block.now }
{
    has_magic(block) && has_checksum(block, CHECKSUM) && has_room(block)
}

/// Whether the names have their place, and the header says how many bytes they take.
fn is_filled(block: &[u8]) -> bool
    requires size { length block.now ≡ 4096 }
    requires few { number_at 2 56 block.now ≤ 502 }
    ensures { IsTrue result ↔ HasPlaces block.now }
{
    are_within(block) && bytes_used(block) == usize::from(u16_at(block, USED))
}

/// Whether the entries are those of the names, in order, and the names lie apart.
fn is_indexed(block: &[u8]) -> bool
    requires size { length block.now ≡ 4096 }
    requires few { number_at 2 56 block.now ≤ 502 }
    requires within { All (IsWithin block.now) (attr_entries block.now) }
    ensures { IsTrue result ↔ IsIndexed block.now }
{
    is_rising(block) && are_hashed(block) && are_apart(block)
}

fn has_magic(block: &[u8]) -> bool
    requires { length block.now ≡ 4096 }
    ensures { IsTrue result ↔ (number_at 2 8 block.now ≡ attr_leaf_magic) }
{
    u16_at(block, MAGIC) == LEAF
}

/// How many entries a leaf says that it has.
pub(crate) fn count_in(block: &[u8]) -> usize
    requires { length block.now ≡ 4096 }
    ensures count { result ≡ number_at 2 56 block.now }
    ensures fits { result ≤ 0xffff }
{
    usize::from(u16_at(block, COUNT))
}

/// The least place at which the leaf says that a name stands.
fn first_used(block: &[u8]) -> usize
    requires { length block.now ≡ 4096 }
    ensures { result ≡ number_at 2 60 block.now }
{
    usize::from(u16_at(block, FIRST_USED))
}

/// Whether the entries have their place before the names.
fn has_room(block: &[u8]) -> bool
    requires { length block.now ≡ 4096 }
    ensures { IsTrue result ↔ HasRoom block.now }
{
    let end = FIRST_ENTRY + ENTRY_BYTES * count_in(block);
    end <= first_used(block) && end <= BLOCK
}

/// Whether each name lies between the least place and the end.
fn are_within(block: &[u8]) -> bool
    requires size { length block.now ≡ 4096 }
    requires few { number_at 2 56 block.now ≤ 502 }
    ensures { IsTrue result ↔ All (IsWithin block.now) (attr_entries block.now) }
{
    for index in 0..count_in(block) {
        if !is_within(block, entry_in(block, index)) {
            return false;
        }
    }
    true
}

fn is_within(block: &[u8], entry: EntryAt) -> bool
    requires { length block.now ≡ 4096 }
    ensures { IsTrue result ↔ IsWithin block.now entry }
{
    let place = usize::from(entry.place);
    first_used(block) <= place && has_head(entry) && place + name_size(block, entry) <= BLOCK
}

/// Whether the hashes of the entries don't fall.
fn is_rising(block: &[u8]) -> bool
    requires size { length block.now ≡ 4096 }
    requires few { number_at 2 56 block.now ≤ 502 }
    ensures { IsTrue result ↔ IsNonDecreasingBy (λ entry. entry.hash) (attr_entries block.now) }
{
    let mut least = 0;
    for index in 0..count_in(block) {
        let entry = entry_in(block, index);
        if entry.hash < least {
            return false;
        }
        least = entry.hash;
    }
    true
}

/// How many bytes the names take.
fn bytes_used(block: &[u8]) -> usize
    requires size { length block.now ≡ 4096 }
    requires few { number_at 2 56 block.now ≤ 502 }
    requires within { All (IsWithin block.now) (attr_entries block.now) }
    ensures { result ≡ sum_by (name_size block.now) (attr_entries block.now) }
{
    let mut used = 0;
    for index in 0..count_in(block) {
        used += name_size(block, entry_in(block, index));
    }
    used
}

/// Whether each entry has the hash of its attribute.
fn are_hashed(block: &[u8]) -> bool
    requires size { length block.now ≡ 4096 }
    requires few { number_at 2 56 block.now ≤ 502 }
    requires within { All (IsWithin block.now) (attr_entries block.now) }
    ensures { IsTrue result ↔ All (λ entry. entry.hash ≡ attribute_hash (attribute_at block.now entry)) (attr_entries block.now) }
{
    for index in 0..count_in(block) {
        let entry = entry_in(block, index);
        if entry.hash != hash_in(block, entry) {
            return false;
        }
    }
    true
}

/// The attributes of a leaf, in order.
pub(crate) fn attributes_of(alloc: Global, block: &[u8]) -> Result<Vec<Attribute>, AllocError>
    requires size { length block.now ≡ 4096 }
    requires few { number_at 2 56 block.now ≤ 502 }
    requires within { All (IsWithin block.now) (attr_entries block.now) }
    ensures { IfOk result (λ attributes. attributes.items ≡ map (attribute_at block.now) (attr_entries block.now)) }
{
    let count = count_in(block);
    let mut attributes = Vec::with_capacity(alloc, count)?;
    for index in 0..count {
        attributes.push(attribute_in(alloc, block, entry_in(block, index))?)?;
    }
    Ok(attributes)
}

/// The first and the last hash; None where there is no entry.
pub(crate) fn ends_of(block: &[u8]) -> Option<(u32, u32)>
    requires size { length block.now ≡ 4096 }
    requires few { number_at 2 56 block.now ≤ 502 }
    ensures { result ≡ attr_leaf_ends block.now }
{
    let count = count_in(block);
    if count == 0 {
        return None;
    }
    Some((entry_in(block, 0).hash, entry_in(block, count - 1).hash))
}
