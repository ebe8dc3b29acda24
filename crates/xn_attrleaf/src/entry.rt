//! One entry of a leaf in its place, and the name and the value to which it leads.

ghost use Rattle.std.specs.Prelude.{◌≡◌, ◌+◌, ◌*◌, ◌≤◌, ◌↔◌, length, IsTrue, true};
ghost use Rattle.xn_bytes.specs.declared.attribute.Value.TheVariants.{Here};
ghost use Rattle.xn_bytes.specs.Attributes.{is_local};
ghost use Rattle.xn_bytes.specs.AttributeLeaves.{attr_entry_at, rounded, local_size, remote_size, name_place, name_length, name_size, value_at, value_length, attribute_at};
ghost use Rattle.xn_attrleaf.specs.Entries.{HasHead, IsInside};

use std::marker::Model;
use xn_bytes::{u8_at, u16_at, u32_at};

pub(crate) const BLOCK: usize = 4096;

pub(crate) const FIRST_ENTRY: usize = 80;

pub(crate) const ENTRY_BYTES: usize = 8;

/// An entry of a leaf of an attribute fork (`xfs_attr_leaf_entry`): the hash of an attribute, the byte place of its name, and
/// its flags with the bit that says where the value stands.
#[derive(Clone, Copy, Debug, PartialEq, Eq)]
pub(crate) struct EntryAt {
    pub hash: u32,
    pub place: u16,
    pub flags: u8,
}

impl Model for EntryAt {
    ghost use Rattle.std.specs.Prelude.{◌<◌, ◌^◌};
    ghost use Rattle.xn_bytes.specs.AttributeLeaves.{AttrEntry};

    ghost Value = { AttrEntry };

    ghost view = { λ entry. record { hash = entry.hash; place = entry.place; flags = entry.flags } };

    ghost inverse = { λ entry. record { hash = entry.hash; place = entry.place; flags = entry.flags } };

    ghost invariant = { λ entry. (entry.hash < 2 ^ 32) × (entry.place < 2 ^ 16) × (entry.flags < 256) };
}

/// The place of the entry of an index, from 0.
pub(crate) fn place_of(index: usize) -> usize
    requires { index ≤ 502 }
    ensures { result ≡ 80 + 8 * index }
{
    FIRST_ENTRY + ENTRY_BYTES * index
}

/// The entry of an index.
pub(crate) fn entry_in(block: &[u8], index: usize) -> EntryAt
    requires size { length block.now ≡ 4096 }
    requires place { 80 + 8 * index + 8 ≤ 4096 }
    ensures { result ≡ attr_entry_at (80 + 8 * index) block.now }
{
    let at = place_of(index);
    EntryAt {
        hash: u32_at(block, at),
        place: u16_at(block, at + 4),
        flags: u8_at(block, at + 6),
    }
}

/// Whether the value stands beside the name.
pub(crate) fn is_local(flags: u8) -> bool
    ensures { result ≡ is_local flags }
{
    flags % 2 == 1
}

/// Rounded up to a multiple of 4, as names lie in a leaf.
fn rounded(size: usize) -> usize
    requires { size ≤ 0x30000 }
    ensures { result ≡ rounded size }
{
    (size + 3) / 4 * 4
}

/// How many bytes a name takes with its value beside it, by their lengths.
pub(crate) fn local_size(name: usize, value: usize) -> usize
    requires name { name ≤ 0xffff }
    requires value { value ≤ 0xffff }
    ensures { result ≡ local_size name value }
{
    rounded(3 + name + value)
}

/// How many bytes a name takes whose value stands elsewhere, by its length.
pub(crate) fn remote_size(name: usize) -> usize
    requires { name ≤ 0xffff }
    ensures { result ≡ remote_size name }
{
    rounded(11 + name)
}

/// Whether the lengths of name and value, and a value's block, lie in the leaf.
pub(crate) fn has_head(entry: EntryAt) -> bool
    ensures { IsTrue result ↔ HasHead entry }
{
    let head = if is_local(entry.flags) { 4 } else { 12 };
    usize::from(entry.place) + head <= BLOCK
}

/// How many bytes the name has.
fn name_length(block: &[u8], entry: EntryAt) -> usize
    requires size { length block.now ≡ 4096 }
    requires head { HasHead entry }
    ensures length { result ≡ name_length block.now entry }
    ensures fits { result ≤ 255 }
{
    let behind = if is_local(entry.flags) { 2 } else { 8 };
    usize::from(u8_at(block, usize::from(entry.place) + behind))
}

/// How many bytes the value has, where it stands beside the name.
fn value_length(block: &[u8], entry: EntryAt) -> usize
    requires size { length block.now ≡ 4096 }
    requires head { HasHead entry }
    ensures length { result ≡ value_length block.now entry }
    ensures fits { result ≤ 0xffff }
{
    usize::from(u16_at(block, usize::from(entry.place)))
}

/// How many bytes name and value take in the leaf.
pub(crate) fn name_size(block: &[u8], entry: EntryAt) -> usize
    requires size { length block.now ≡ 4096 }
    requires head { HasHead entry }
    ensures size { result ≡ name_size block.now entry }
    ensures fits { result ≤ 0x30003 }
{
    let name = name_length(block, entry);
    if is_local(entry.flags) {
        local_size(name, value_length(block, entry))
    } else {
        remote_size(name)
    }
}

/// The place behind the name, where the value begins that stands beside it.
fn name_end(block: &[u8], entry: EntryAt) -> usize
    requires size { length block.now ≡ 4096 }
    requires inside { IsInside block.now entry }
    ensures { result ≡ name_place entry + name_length block.now entry }
{
    name_place(entry) + name_length(block, entry)
}

/// The place of the name.
fn name_place(entry: EntryAt) -> usize
    ensures { result ≡ name_place entry }
{
    usize::from(entry.place) + if is_local(entry.flags) { 3 } else { 9 }
}

/// The name of an entry.
pub(crate) fn name_in(block: &[u8], entry: EntryAt) -> &[u8]
    requires size { length block.now ≡ 4096 }
    requires inside { IsInside block.now entry }
    ensures { result.now ≡ (attribute_at block.now entry).name }
{
    &block[name_place(entry)..name_end(block, entry)]
}

/// The value of an entry, where it stands beside the name.
pub(crate) fn value_in(block: &[u8], entry: EntryAt) -> &[u8]
    requires size { length block.now ≡ 4096 }
    requires inside { IsInside block.now entry }
    requires local { is_local entry.flags ≡ true }
    ensures { value_at block.now entry ≡ Here result.now }
{
    let from = name_end(block, entry);
    &block[from..from + value_length(block, entry)]
}
