//! The root in leaf or node form, laid out from the names of its files. Those of a data block are parted by `,`, and data
//! blocks by `/`; one without names isn't mapped. The files have the numbers from 131 on. A name behind `-` was taken away:
//! its place is free, and its leaf entry stale.

use crate::RowFault;
use crate::area::Area;
use crate::fork::{DATA, FREE, Fork, LEAVES};
use crate::hashed::{bests_as_bytes, put_single_leaf, put_tree};
use crate::pieces::{Piece, put_file};
use crate::spelling::bytes;
use std::alloc::Global;
use xn_bytes::{Kind, put_u32, put_u64};
use xn_make::{Leaf, ROOT, UUID};

/// The number of the first file.
const FIRST_FILE: u32 = 131;

/// The best of a data block that isn't mapped.
const NO_BEST: u16 = 0xffff;

/// How many data blocks a free-index block has bests of.
const BESTS: u16 = 2016;

/// What is known of the data blocks that were laid out.
#[derive(Debug, Drop)]
struct Index {
    leaves: Vec<Leaf>,
    /// The best of each data block from 0 on.
    bests: Vec<u16>,
    next_file: u32,
}

/// Puts a root in leaf form that has these names.
pub fn put_leaf_form(alloc: Global, image: &mut [u8], names: &str) -> Result<(), RowFault> {
    let mut fork = Fork::new(alloc);
    let index = put_data(alloc, image, &mut fork, names)?;
    put_single_leaf(alloc, image, &mut fork, &index.leaves, &index.bests)?;
    fork.put_inode(alloc, image, index.bests.len().try_into()?)
}

/// Puts a root in node form, spelled as the number of leaf entries in a leaf, and its names.
pub fn put_node_form(alloc: Global, image: &mut [u8], spelled: &str) -> Result<(), RowFault> {
    let (most, names) = spelled.split_once(':').ok_or(RowFault::Word)?;
    let mut fork = Fork::new(alloc);
    let index = put_data(alloc, image, &mut fork, names)?;
    put_tree(
        alloc,
        image,
        &mut fork,
        LEAVES,
        &index.leaves,
        most.parse()?,
    )?;
    put_free_indexes(alloc, image, &mut fork, &index.bests)?;
    fork.put_inode(alloc, image, index.bests.len().try_into()?)
}

/// Puts the data blocks, and gives what is known of them, the leaf entries sorted.
fn put_data(
    alloc: Global,
    image: &mut [u8],
    fork: &mut Fork,
    names: &str,
) -> Result<Index, RowFault> {
    let mut index = Index {
        leaves: Vec::new(alloc),
        bests: Vec::new(alloc),
        next_file: FIRST_FILE,
    };
    for (number, names) in names.split('/').enumerate() {
        let number = u16::try_from(number)?;
        if names.is_empty() {
            index.bests.push(NO_BEST)?;
        } else {
            let block = fork.map(DATA, number)?;
            let mut area = index.lay_out(alloc, number, names)?;
            index.bests.push(area.close(block)?)?;
            Piece::data(block).put(image, 0, area.bytes())?;
        }
    }
    put_files(image, index.next_file)?;
    index.leaves.sort_by_key(|leaf| leaf.hash)?;
    Ok(index)
}

impl Index {
    /// Lays out a data block's entries.
    fn lay_out(&mut self, alloc: Global, number: u16, names: &str) -> Result<Area, RowFault> {
        let mut area = Area::new(alloc, number)?;
        if number == 0 {
            for name in [&b"."[..], b".."] {
                self.leaves.push(area.add(name, ROOT, Kind::Dir)?)?;
            }
        }
        for name in names.split(',') {
            self.lay_out_name(alloc, &mut area, name)?;
        }
        Ok(area)
    }

    fn lay_out_name(
        &mut self,
        alloc: Global,
        area: &mut Area,
        spelled: &str,
    ) -> Result<(), RowFault> {
        let leaf = if let Some(gone) = spelled.strip_prefix('-') {
            area.leave_free(&bytes(alloc, gone)?)?
        } else {
            let file = self.next_file;
            self.next_file = file.checked_add(1).ok_or(RowFault::Number)?;
            area.add(&bytes(alloc, spelled)?, u64::from(file), Kind::Reg)?
        };
        self.leaves.push(leaf)?;
        Ok(())
    }
}

/// Puts the inodes of the files below a number.
fn put_files(image: &mut [u8], end: u32) -> Result<(), RowFault> {
    for number in FIRST_FILE..end {
        put_file(image, number)?;
    }
    Ok(())
}

/// Puts the free-index blocks with these bests, those of all data blocks from 0 on.
pub fn put_free_indexes(
    alloc: Global,
    image: &mut [u8],
    fork: &mut Fork,
    bests: &[u16],
) -> Result<(), RowFault> {
    for (index, bests) in bests.chunks(usize::from(BESTS)).enumerate() {
        let index = u16::try_from(index)?;
        let block = fork.map(FREE, index)?;
        let piece = Piece::data(block);
        let first = u32::from(BESTS) * u32::from(index);
        piece.put(image, 0, &free_header(block, first, bests)?)?;
        piece.put(image, 64, &bests_as_bytes(alloc, bests)?)?;
    }
    Ok(())
}

/// The header of a free-index block with the bests of the data blocks from this one on, but for its checksum.
fn free_header(block: u32, first: u32, bests: &[u16]) -> Result<[u8; 64], RowFault> {
    let used = bests.iter().filter(|best| **best != NO_BEST).count();
    let mut header = [0; 64];
    header[..4].copy_from_slice(b"XDF3");
    put_u64(&mut header, 8, 8 * u64::from(block));
    header[24..40].copy_from_slice(&UUID);
    put_u64(&mut header, 40, ROOT);
    put_u32(&mut header, 48, first);
    put_u32(&mut header, 52, bests.len().try_into()?);
    put_u32(&mut header, 56, used.try_into()?);
    Ok(header)
}
