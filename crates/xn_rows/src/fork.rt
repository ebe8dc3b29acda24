//! The data fork of a root in leaf or node form, and the attribute fork of an inode: which blocks it has.

use crate::RowFault;
use crate::pieces::Piece;
use std::alloc::Global;
use xn_make::{DATA_FORK, ROOT, directory_in_block};

/// A file block and the block that it is mapped to, with as many behind them as there is room for.
#[derive(Clone, Copy, Debug)]
pub struct Start {
    file_block: u32,
    block: u32,
    room: u16,
    /// Whether blocks side by side have one extent.
    are_joined: bool,
}

/// The format of a fork that holds a list of extents.
const EXTENTS: u8 = 2;

/// Data block 0.
pub const DATA: Start = Start {
    file_block: 0,
    block: 40,
    room: 7,
    are_joined: false,
};

/// The same with room for many.
pub const MANY_DATA: Start = Start {
    file_block: 0,
    block: 576,
    room: 2400,
    are_joined: true,
};

/// The single leaf, or the root of the tree.
pub const TREE: Start = Start {
    file_block: 8_388_608,
    block: 48,
    room: 1,
    are_joined: false,
};

/// The first leaf below the root of a tree.
pub const LEAVES: Start = Start {
    file_block: 8_388_609,
    block: 49,
    room: 7,
    are_joined: false,
};

/// The same with room for many.
pub const MANY_LEAVES: Start = Start {
    file_block: 8_388_609,
    block: 2976,
    room: 96,
    are_joined: true,
};

/// The first free-index block.
pub const FREE: Start = Start {
    file_block: 16_777_216,
    block: 56,
    room: 7,
    are_joined: false,
};

/// The root of an attribute fork, and the leaves below it.
pub const ATTRIBUTES: Start = Start {
    file_block: 0,
    block: 24,
    room: 16,
    are_joined: true,
};

/// The block behind those for which there is room.
pub const END: u32 = 3072;

/// Blocks side by side that are mapped to blocks side by side.
#[derive(Clone, Copy, Debug)]
struct Extent {
    file_block: u32,
    block: u32,
    count: u32,
}

impl Start {
    /// The file block of this number from here on.
    pub fn file_block(self, number: u16) -> u32 {
        self.file_block.wrapping_add(u32::from(number))
    }

    /// The block to which a file block is mapped.
    pub fn block_of(self, file_block: u32) -> u32 {
        file_block
            .wrapping_sub(self.file_block)
            .wrapping_add(self.block)
    }
}

/// The extents of a fork.
#[derive(Debug, Drop)]
pub struct Fork {
    extents: Vec<Extent>,
    /// How many blocks are mapped.
    blocks: u64,
}

impl Fork {
    /// No blocks.
    pub fn new(alloc: Global) -> Fork {
        Fork {
            extents: Vec::new(alloc),
            blocks: 0,
        }
    }

    /// Maps the block of this number from a start on, and gives its number on the device.
    pub fn map(&mut self, start: Start, number: u16) -> Result<u32, RowFault> {
        if number >= start.room {
            return Err(RowFault::Number);
        }
        let file_block = start.file_block(number);
        let block = start.block_of(file_block);
        match self.extents.last_mut() {
            Some(last) if start.are_joined && number > 0 => {
                last.count = last.count.checked_add(1).ok_or(RowFault::Number)?;
            }
            _ => self.extents.push(Extent {
                file_block,
                block,
                count: 1,
            })?,
        }
        self.blocks = self.blocks.checked_add(1).ok_or(RowFault::Number)?;
        Ok(block)
    }

    /// Puts the root's inode, with the size of so many data blocks.
    pub fn put_inode(
        &self,
        alloc: Global,
        image: &mut [u8],
        data_blocks: u16,
    ) -> Result<(), RowFault> {
        let records = self.records(alloc)?;
        if records.len() > DATA_FORK {
            return Err(RowFault::Bytes);
        }
        let count = u32::try_from(self.extents.len())?;
        let inode = Piece::inode(128);
        inode.put(image, 0, &directory_in_block(ROOT, 40))?;
        inode.put(image, 56, &(4096 * u64::from(data_blocks)).to_be_bytes())?;
        inode.put(image, 64, &self.blocks.to_be_bytes())?;
        inode.put(image, 76, &count.to_be_bytes())?;
        inode.put(image, 176, &records)
    }

    /// Has the attribute fork of an inode have these extents.
    pub fn put_attributes(
        &self,
        alloc: Global,
        image: &mut [u8],
        owner: u32,
    ) -> Result<(), RowFault> {
        let records = self.records(alloc)?;
        let count = u16::try_from(self.extents.len())?;
        let inode = Piece::inode(owner);
        inode.put(image, 80, &count.to_be_bytes())?;
        inode.put(image, 83, &[EXTENTS])?;
        inode.put(image, 176 + DATA_FORK, &records)
    }

    /// The extents as they stand on the device.
    fn records(&self, alloc: Global) -> Result<Vec<u8>, RowFault> {
        let mut records = Vec::new(alloc);
        for extent in &self.extents {
            let (front, back) = halves_of(*extent);
            records.extend_from_slice(&front.to_be_bytes())?;
            records.extend_from_slice(&back.to_be_bytes())?;
        }
        Ok(records)
    }
}

/// The two halves of a record.
fn halves_of(extent: Extent) -> (u64, u64) {
    let front = 512 * u64::from(extent.file_block);
    let back = 0x20_0000 * u64::from(extent.block) + u64::from(extent.count);
    (front, back)
}
