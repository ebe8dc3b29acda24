//! The attribute fork of an inode as one leaf or as a tree, laid out from its attributes. These are parted by `,`. Of each
//! stand its flags, its name and its value, parted by `/`; where the value has blocks of its own, the first of these and its
//! length stand for it.

use crate::RowFault;
use crate::filled::fill_attributes;
use crate::fork::{ATTRIBUTES, Fork};
use crate::hashed::{NODE, header, link, put_hashed};
use crate::pieces::Piece;
use crate::spelling::bytes;
use std::alloc::Global;
use xn_attrleaf::AttrLeaf;
use xn_bytes::{Attribute, Bytes, Value};
use xn_datree::Leaf as _;
use xn_make::Leaf;

/// Twenty parent records: of the directory 128 with generation 7, of 133 with generation 1, and of 4,294,967,424 with generation
/// 4,294,967,295; `auk` is the name of two. And an attribute whose value of 4,096 bytes stands elsewhere.
const TWENTY: &str =
    "8/'auk'/0000000000000080_00000007,8/'booby'/0000000000000080_00000007,8/'coot'/0000000000000080_00000007,\
8/'dove'/0000000000000080_00000007,8/'egret'/0000000000000080_00000007,8/'finch'/0000000000000080_00000007,\
8/'goose'/0000000000000080_00000007,8/'heron'/0000000000000080_00000007,8/'ibis'/0000000000000080_00000007,\
8/'jay'/0000000000000080_00000007,8/'kite'/0000000000000085_00000001,8/'lark'/0000000000000085_00000001,\
8/'moa'/0000000000000085_00000001,8/'nene'/0000000000000085_00000001,8/'owl'/0000000100000080_ffffffff,\
8/'pipit'/0000000100000080_ffffffff,8/'quail'/0000000100000080_ffffffff,8/'rail'/0000000100000080_ffffffff,\
8/'swan'/0000000100000080_ffffffff,8/'auk'/0000000000000085_00000001,0/'xy'/5/4096";

/// The magic number of a leaf.
const LEAF: u16 = 0x3bee;

/// Puts the attributes of an inode, spelled as its number, the most attributes that are put into a leaf, and the attributes.
pub fn put_attributes(alloc: Global, image: &mut [u8], spelled: &str) -> Result<(), RowFault> {
    let (owner, rest) = spelled.split_once(':').ok_or(RowFault::Word)?;
    let (most, spelled) = rest.split_once(':').ok_or(RowFault::Word)?;
    let owner = owner.parse()?;
    let mut attributes = attributes_of(alloc, spelled)?;
    attributes.sort_by_key(|attribute| AttrLeaf::hash_of(attribute))?;
    let mut fork = Fork::new(alloc);
    put_tree(alloc, image, &mut fork, owner, &attributes, most.parse()?)?;
    fork.put_attributes(alloc, image, owner)
}

/// The attributes that a list spells, or those for which its name stands.
fn attributes_of(alloc: Global, list: &str) -> Result<Vec<Attribute>, RowFault> {
    let list = if list == "twenty" { TWENTY } else { list };
    let mut attributes = Vec::new(alloc);
    if !list.is_empty() {
        for spelled in list.split(',') {
            attributes.push(attribute_of(alloc, spelled)?)?;
        }
    }
    Ok(attributes)
}

fn attribute_of(alloc: Global, spelled: &str) -> Result<Attribute, RowFault> {
    let (flags, rest) = spelled.split_once('/').ok_or(RowFault::Word)?;
    let (name, value) = rest.split_once('/').ok_or(RowFault::Word)?;
    Ok(Attribute {
        flags: flags.parse()?,
        name: Bytes::new(bytes(alloc, name)?),
        value: value_of(alloc, value)?,
    })
}

fn value_of(alloc: Global, spelled: &str) -> Result<Value, RowFault> {
    match spelled.split_once('/') {
        Some((block, length)) => Ok(Value::Remote {
            block: block.parse()?,
            length: length.parse()?,
        }),
        None => Ok(Value::Here(Bytes::new(bytes(alloc, spelled)?))),
    }
}

/// Puts the tree, with at most so many attributes in a leaf. One leaf is a tree by itself.
fn put_tree(
    alloc: Global,
    image: &mut [u8],
    fork: &mut Fork,
    owner: u32,
    attributes: &[Attribute],
    most: u16,
) -> Result<(), RowFault> {
    let root = fork.map(ATTRIBUTES, 0)?;
    if attributes.len() <= usize::from(most) {
        return put_leaf(image, owner, root, attributes);
    }
    let children = put_leaves(alloc, image, fork, owner, attributes, most)?;
    link(image, ATTRIBUTES, &children)?;
    let count = children.len().try_into()?;
    let header = header(u64::from(owner), root, NODE, count, 1);
    put_hashed(alloc, image, root, &header, &children)
}

/// Puts the leaves below the root, and gives the entries of their parent, which have the form of leaf entries.
fn put_leaves(
    alloc: Global,
    image: &mut [u8],
    fork: &mut Fork,
    owner: u32,
    attributes: &[Attribute],
    most: u16,
) -> Result<Vec<Leaf>, RowFault> {
    let mut children = Vec::new(alloc);
    for (index, attributes) in attributes.chunks(usize::from(most.max(1))).enumerate() {
        let number = u16::try_from(index)?
            .checked_add(1)
            .ok_or(RowFault::Number)?;
        let block = fork.map(ATTRIBUTES, number)?;
        put_leaf(image, owner, block, attributes)?;
        let last = attributes.last().ok_or(RowFault::Number)?;
        children.push(Leaf {
            hash: AttrLeaf::hash_of(last),
            address: ATTRIBUTES.file_block(number),
        })?;
    }
    Ok(children)
}

fn put_leaf(
    image: &mut [u8],
    owner: u32,
    block: u32,
    attributes: &[Attribute],
) -> Result<(), RowFault> {
    let header = header(u64::from(owner), block, LEAF, 0, 0);
    let leaf = fill_attributes(&header, attributes)?;
    Piece::hashed(block).put(image, 0, &leaf)
}
