//! Leaves of a tree as changes lay them out.

ghost use Rattle.std.specs.Prelude.{◌≢◌, ◌↔◌, ◌≤◌, All, IsTrue, sum_by};
ghost use Rattle.std.specs.List.Sorted.{IsNonDecreasingBy};
ghost use Rattle.xn_attrleaf.specs.Filled.{FitsValue, IsLawfulAttribute};

use crate::RowFault;
use crate::pieces::BLOCK;
use std::alloc::{AllocError, Global};
use xn_attrleaf::AttrLeaf;
use xn_bytes::{Attribute, Value};
use xn_datree::Leaf as _;
use xn_leaf::{DirLeaf, HashAt};
use xn_make::Leaf;

/// The bytes of a leaf of a directory with this header, in which these leaf entries stand in order, and none is stale.
pub fn fill_leaf(
    alloc: Global,
    header: &[u8; 64],
    leaves: &[Leaf],
) -> Result<[u8; BLOCK], RowFault> {
    let entries = entries_of(alloc, leaves)?;
    if !are_live(&entries) {
        return Err(RowFault::Number);
    }
    filled::<DirLeaf>(header, &entries)
}

/// The bytes of a leaf of attributes with this header, in which these stand in order.
pub fn fill_attributes(
    header: &[u8; 64],
    attributes: &[Attribute],
) -> Result<[u8; BLOCK], RowFault> {
    if !are_lawful(attributes) {
        return Err(RowFault::Bytes);
    }
    filled::<AttrLeaf>(header, attributes)
}

/// The bytes of a leaf with this header and these entries.
fn filled<L: xn_datree::Leaf>(
    header: &[u8; 64],
    entries: &[L::Entry],
) -> Result<[u8; BLOCK], RowFault>
    requires { All L.IsLawful entries.now }
{
    if !are_rising::<L>(entries) || !fit::<L>(entries) {
        return Err(RowFault::Number);
    }
    let mut block = [0; BLOCK];
    block[..64].copy_from_slice(header);
    L::fill(&mut block, entries);
    Ok(block)
}

fn entries_of(alloc: Global, leaves: &[Leaf]) -> Result<Vec<HashAt>, AllocError> {
    leaves.iter().map(|leaf| entry_of(*leaf)).collect(alloc)
}

fn entry_of(leaf: Leaf) -> HashAt {
    HashAt {
        hash: leaf.hash,
        address: leaf.address,
    }
}

fn are_live(entries: &[HashAt]) -> bool
    ensures { IsTrue result ↔ All (λ entry. entry.address ≢ 0) entries.now }
{
    entries.iter().all(|entry| entry.address != 0)
}

fn are_lawful(attributes: &[Attribute]) -> bool
    ensures { IsTrue result ↔ All IsLawfulAttribute attributes.now }
{
    attributes.iter().all(|attribute| is_lawful(attribute))
}

fn is_lawful(attribute: &Attribute) -> bool
    ensures { IsTrue result ↔ IsLawfulAttribute attribute.now }
{
    attribute.flags % 2 == 0
        && attribute.name.as_slice().len() <= 255
        && has_field(&attribute.value)
}

/// Whether the length of a value has its field.
fn has_field(value: &Value) -> bool
    ensures { IsTrue result ↔ FitsValue value.now }
{
    match value {
        Value::Here(bytes) => bytes.as_slice().len() <= 65_535,
        Value::Remote { .. } => true,
    }
}

fn are_rising<L: xn_datree::Leaf>(entries: &[L::Entry]) -> bool
    ensures { IsTrue result → IsNonDecreasingBy L.hash entries.now }
{
    let mut least = 0;
    for entry in entries {
        let hash = L::hash_of(entry);
        if hash < least {
            return false;
        }
        least = hash;
    }
    true
}

/// Whether a leaf has room for entries.
fn fit<L: xn_datree::Leaf>(entries: &[L::Entry]) -> bool
    ensures { IsTrue result ↔ sum_by L.size entries.now ≤ L.CAPACITY }
{
    let mut room = L::CAPACITY;
    for entry in entries {
        let Some(rest) = room.checked_sub(L::size_of(entry)) else {
            return false;
        };
        room = rest;
    }
    true
}
