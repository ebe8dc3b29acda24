//! A data block of a directory in leaf or node form (`XDD3`), laid out.

use crate::RowFault;
use crate::pieces::{BLOCK, put};
use std::alloc::Global;
use xn_bytes::{Kind, name_hash, put_u64};
use xn_make::{Gap, Leaf, Named, ROOT, UUID, push_entry, push_gap};

/// How many bytes the header has.
const HEADER: usize = 64;

/// Regions side by side, from the header on.
#[derive(Debug, Drop)]
pub struct Area {
    /// The number of the block in the file.
    number: u16,
    bytes: Vec<u8>,
    gaps: Vec<Gap>,
}

impl Area {
    /// No regions.
    pub fn new(alloc: Global, number: u16) -> Result<Area, RowFault> {
        Ok(Area {
            number,
            bytes: vec![in alloc; 0; HEADER]?,
            gaps: Vec::new(alloc),
        })
    }

    /// Puts an entry behind the others, and gives its leaf entry.
    pub fn add(&mut self, name: &[u8], ino: u64, kind: Kind) -> Result<Leaf, RowFault> {
        if name.len() > 255 {
            return Err(RowFault::Bytes);
        }
        let place = u16::try_from(self.bytes.len())?;
        push_entry(&mut self.bytes, place, &Named { name, ino, kind })?;
        Ok(Leaf {
            hash: name_hash(name),
            address: 512 * u32::from(self.number) + u32::from(place / 8),
        })
    }

    /// Leaves free what an entry with this name takes, and gives the stale leaf entry that is left of it.
    pub fn leave_free(&mut self, name: &[u8]) -> Result<Leaf, RowFault> {
        if name.len() > 255 {
            return Err(RowFault::Bytes);
        }
        self.add_gap((name.len() + 19) / 8 * 8)?;
        Ok(Leaf {
            hash: name_hash(name),
            address: 0,
        })
    }

    fn add_gap(&mut self, size: usize) -> Result<(), RowFault> {
        let gap = Gap {
            place: self.bytes.len().try_into()?,
            size: size.try_into()?,
        };
        if gap.size < 8 {
            return Err(RowFault::Bytes);
        }
        push_gap(&mut self.bytes, gap)?;
        self.gaps.push(gap)?;
        Ok(())
    }

    /// Leaves the rest of the block free, puts the header, and gives the best.
    pub fn close(&mut self, block: u32) -> Result<u16, RowFault> {
        let rest = BLOCK.checked_sub(self.bytes.len()).ok_or(RowFault::Bytes)?;
        if rest > 0 {
            self.add_gap(rest)?;
        }
        self.gaps.sort_by_key(|gap| u16::MAX - gap.size)?;
        put(&mut self.bytes, 0, &header(block))?;
        for (gap, at) in self.gaps.iter().zip([48, 52, 56]) {
            put(&mut self.bytes, at, &gap.place.to_be_bytes())?;
            put(&mut self.bytes, at + 2, &gap.size.to_be_bytes())?;
        }
        Ok(self.gaps.first().map_or(0, |gap| gap.size))
    }

    /// What was laid out.
    pub fn bytes(&self) -> &[u8] {
        &self.bytes
    }
}

/// The header of the root's data block, without its checksum and its pairs.
fn header(block: u32) -> [u8; HEADER] {
    let mut header = [0; HEADER];
    header[..4].copy_from_slice(b"XDD3");
    put_u64(&mut header, 8, 8 * u64::from(block));
    header[24..40].copy_from_slice(&UUID);
    put_u64(&mut header, 40, ROOT);
    header
}
