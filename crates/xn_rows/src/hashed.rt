//! Leaves and nodes of a root in leaf or node form, laid out; nodes of attribute forks too.

use crate::RowFault;
use crate::filled::fill_leaf;
use crate::fork::{Fork, Start, TREE};
use crate::pieces::{BLOCK, Piece};
use std::alloc::Global;
use xn_bytes::{put_u16, put_u64};
use xn_make::{Leaf, ROOT, UUID, push_leaves};

/// Magic numbers: of the single leaf of leaf form, of a leaf of a tree, and of a node.
const SINGLE_LEAF: u16 = 0x3df1;

const LEAF: u16 = 0x3dff;

pub const NODE: u16 = 0x3ebe;

/// Puts the single leaf of leaf form, with these bests behind the leaf entries.
pub fn put_single_leaf(
    alloc: Global,
    image: &mut [u8],
    fork: &mut Fork,
    leaves: &[Leaf],
    bests: &[u16],
) -> Result<(), RowFault> {
    let block = fork.map(TREE, 0)?;
    put_leaf(alloc, image, block, SINGLE_LEAF, leaves)?;
    let mut tail = bests_as_bytes(alloc, bests)?;
    tail.extend_from_slice(&u32::try_from(bests.len())?.to_be_bytes())?;
    let place = BLOCK.checked_sub(tail.len()).ok_or(RowFault::Place)?;
    Piece::hashed(block).put(image, place, &tail)
}

/// Puts the tree of node form, with at most so many leaf entries in a leaf, and leaves from a start on. One leaf is a tree by
/// itself.
pub fn put_tree(
    alloc: Global,
    image: &mut [u8],
    fork: &mut Fork,
    start: Start,
    leaves: &[Leaf],
    most: u16,
) -> Result<(), RowFault> {
    let root = fork.map(TREE, 0)?;
    if leaves.len() <= usize::from(most) {
        return put_leaf(alloc, image, root, LEAF, leaves);
    }
    let children = put_leaves(alloc, image, fork, start, leaves, most)?;
    link(image, start, &children)?;
    let header = header(ROOT, root, NODE, children.len().try_into()?, 1);
    put_hashed(alloc, image, root, &header, &children)
}

/// Puts the leaves below the root of a tree, and gives the entries of their parent, which have the form of leaf entries: the
/// greatest hash, and the file block.
fn put_leaves(
    alloc: Global,
    image: &mut [u8],
    fork: &mut Fork,
    start: Start,
    leaves: &[Leaf],
    most: u16,
) -> Result<Vec<Leaf>, RowFault> {
    let mut children = Vec::new(alloc);
    for (number, leaves) in leaves.chunks(usize::from(most.max(1))).enumerate() {
        let number = u16::try_from(number)?;
        let block = fork.map(start, number)?;
        put_leaf(alloc, image, block, LEAF, leaves)?;
        let last = leaves.last().ok_or(RowFault::Number)?;
        children.push(Leaf {
            hash: last.hash,
            address: start.file_block(number),
        })?;
    }
    Ok(children)
}

/// Makes siblings of the leaves that a node's entries name.
pub fn link(image: &mut [u8], start: Start, children: &[Leaf]) -> Result<(), RowFault> {
    for (left, right) in children.iter().zip(children.iter().skip(1)) {
        let (from, to) = (start.block_of(left.address), start.block_of(right.address));
        Piece::hashed(from).put(image, 0, &right.address.to_be_bytes())?;
        Piece::hashed(to).put(image, 4, &left.address.to_be_bytes())?;
    }
    Ok(())
}

/// Puts a leaf. One of a tree without stale entries is laid out by the call that lays out leaves for changes.
fn put_leaf(
    alloc: Global,
    image: &mut [u8],
    block: u32,
    magic: u16,
    leaves: &[Leaf],
) -> Result<(), RowFault> {
    let stale = leaves.iter().filter(|leaf| leaf.address == 0).count();
    let header = header(
        ROOT,
        block,
        magic,
        leaves.len().try_into()?,
        stale.try_into()?,
    );
    if magic == LEAF && stale == 0 {
        let bytes = fill_leaf(alloc, &header, leaves)?;
        Piece::hashed(block).put(image, 0, &bytes)
    } else {
        put_hashed(alloc, image, block, &header, leaves)
    }
}

/// Puts a leaf or a node: its header, and its entries.
pub fn put_hashed(
    alloc: Global,
    image: &mut [u8],
    block: u32,
    header: &[u8; 64],
    entries: &[Leaf],
) -> Result<(), RowFault> {
    let mut bytes = Vec::from_slice(alloc, header)?;
    push_leaves(&mut bytes, entries)?;
    Piece::hashed(block).put(image, 0, &bytes)
}

/// The header of an inode's block without siblings, but for its checksum. Behind the count of entries a leaf has that of stale ones,
/// and a node its level.
pub fn header(owner: u64, block: u32, magic: u16, count: u16, behind: u16) -> [u8; 64] {
    let mut header = [0; 64];
    put_u16(&mut header, 8, magic);
    put_u64(&mut header, 16, 8 * u64::from(block));
    header[32..48].copy_from_slice(&UUID);
    put_u64(&mut header, 48, owner);
    put_u16(&mut header, 56, count);
    put_u16(&mut header, 58, behind);
    header
}

/// Bests as they stand on the device.
pub fn bests_as_bytes(alloc: Global, bests: &[u16]) -> Result<Vec<u8>, RowFault> {
    let mut bytes = Vec::new(alloc);
    for best in bests {
        bytes.extend_from_slice(&best.to_be_bytes())?;
    }
    Ok(bytes)
}
