//! The root in node form, with so many data blocks that are full: in each stand 14 names of 255 bytes, and in the first dot
//! and dotdot before them. A name is its number, from 0 on, in five digits, and 250 times `x`; each names the file 131.

use crate::RowFault;
use crate::area::Area;
use crate::fork::{END, Fork, MANY_DATA, MANY_LEAVES};
use crate::hashed::put_tree;
use crate::pieces::{BLOCK, Piece, put_file};
use crate::trees::put_free_indexes;
use std::alloc::Global;
use xn_bytes::Kind;
use xn_make::{Leaf, ROOT};

/// How many names stand in a data block.
const NAMES: u32 = 14;

/// What all names stand for.
const FILE: u32 = 131;

/// As many leaf entries as a leaf has room for.
const LEAF_ENTRIES: u16 = 504;

/// Makes an image greater, and puts a root of so many full data blocks.
pub fn put_full(alloc: Global, image: &mut Vec<u8>, blocks: &str) -> Result<(), RowFault> {
    make_room(image)?;
    let mut fork = Fork::new(alloc);
    let mut leaves = Vec::new(alloc);
    let mut bests = Vec::new(alloc);
    for number in 0..blocks.parse::<u16>()? {
        let block = fork.map(MANY_DATA, number)?;
        let mut area = area_of(alloc, number, &mut leaves)?;
        bests.push(area.close(block)?)?;
        Piece::data(block).put(image, 0, area.bytes())?;
    }
    leaves.sort_by_key(|leaf| leaf.hash)?;
    put_tree(alloc, image, &mut fork, MANY_LEAVES, &leaves, LEAF_ENTRIES)?;
    put_free_indexes(alloc, image, &mut fork, &bests)?;
    fork.put_inode(alloc, image, bests.len().try_into()?)?;
    put_file(image, FILE)
}

/// Lengthens an image of one group to all blocks for which there is room, which its superblock then says.
fn make_room(image: &mut Vec<u8>) -> Result<(), RowFault> {
    image.resize(BLOCK * END as usize, 0)?;
    let superblock = Piece::read("super")?;
    superblock.put(image, 8, &u64::from(END).to_be_bytes())?;
    superblock.put(image, 84, &END.to_be_bytes())?;
    superblock.put(image, 124, &[12])
}

/// The entries of the data block of a number, whose leaf entries go behind others.
fn area_of(alloc: Global, number: u16, leaves: &mut Vec<Leaf>) -> Result<Area, RowFault> {
    let mut area = Area::new(alloc, number)?;
    if number == 0 {
        for name in [&b"."[..], b".."] {
            leaves.push(area.add(name, ROOT, Kind::Dir)?)?;
        }
    }
    let first = NAMES * u32::from(number);
    for number in first..first + NAMES {
        leaves.push(area.add(&name_of(number), u64::from(FILE), Kind::Reg)?)?;
    }
    Ok(area)
}

fn name_of(number: u32) -> [u8; 255] {
    let mut name = [b'x'; 255];
    for (place, unit) in [10_000, 1000, 100, 10, 1].into_iter().enumerate() {
        name[place] = b'0' + (number / unit % 10) as u8;
    }
    name
}
