//! What is found as the sectors of the log are looked at, one after the other.

ghost use Rattle.std.specs.Prelude.{◌≡◌, ℕ, ◌+◌, ◌*◌, ◌≤◌, List, [], OnOk, length};
ghost use Rattle.xn_log.specs.Ring.{ring_sectors_of};
ghost use Rattle.xn_ring.specs.Scans.{AreMarks, AreOutlines, HavePlaces, IsWindow};

use std::alloc::Global;
use xn_bytes::{Memory, u32_at};
use xn_log::Outline;
use xn_record::outline;

/// With what the header of a record begins.
const MAGIC: u32 = 0xfeed_babe;

const SECTOR: usize = 512;

/// The sectors of a ring that begin with the magic of records, and the outlines of its intact records, each in rising order.
#[derive(Debug, Drop)]
pub(crate) struct Found {
    pub marks: Vec<u32>,
    pub outlines: Vec<Outline>,
}

impl Found {
    ghost use Rattle.xn_ring.specs.Scans.{IsNoted, IsPiece};

    /// Nothing, as before any sector was looked at. It takes no memory.
    pub fn new(alloc: Global) -> Found
        ensures marks { result.marks.items ≡ [] }
        ensures outlines { result.outlines.items ≡ [] }
    {
        Found {
            marks: Vec::new(alloc),
            outlines: Vec::new(alloc),
        }
    }

    /// Looks at so many sectors of the ring from one on. The bytes are the ring's from there on, with 64 sectors more: as many as
    /// the last record may take behind its header.
    pub fn note_piece(
        &mut self,
        bytes: &[u8],
        start: u32,
        count: u32,
        ring_sectors: u32,
        uuid: &[u8; 16],
    ) -> Result<(), Memory>
        requires room { 512 * (count + 64) ≤ length bytes.now }
        requires within { start + count ≤ ring_sectors }
        ensures noted { OnOk result ((ring : List ℕ) → ring_sectors_of ring ≡ ring_sectors → IsPiece ring start count bytes.now
            → IsNoted uuid.now ring start self.old → IsNoted uuid.now ring (start + count) self.new) }
        ensures places { OnOk result (HavePlaces ring_sectors start self.old.outlines.items → HavePlaces ring_sectors (start + count) self.new.outlines.items) }
    {
        for k in 0..count {
            let from = &bytes[SECTOR * k as usize..];
            note_mark(from, start + k, &mut self.marks)?;
            note_record(from, start + k, ring_sectors, uuid, &mut self.outlines)?;
        }
        Ok(())
    }
}

/// Adds a sector to the marks where it begins with the magic of records. The bytes are the ring's from that sector on.
fn note_mark(bytes: &[u8], sector: u32, marks: &mut Vec<u32>) -> Result<(), Memory>
    requires { 4 ≤ length bytes.now }
    ensures { OnOk result ((ring : List ℕ) → IsWindow ring sector bytes.now → AreMarks ring sector marks.old.items → AreMarks ring (sector + 1) marks.new.items) }
{
    if u32_at(bytes, 0) != MAGIC {
        return Ok(());
    }
    marks.push(sector)?;
    Ok(())
}

/// Adds the outline of the intact record that begins at a sector, if one does. The bytes are the ring's from that sector on.
fn note_record(
    bytes: &[u8],
    sector: u32,
    ring_sectors: u32,
    uuid: &[u8; 16],
    outlines: &mut Vec<Outline>,
) -> Result<(), Memory>
    ensures outlined { OnOk result ((ring : List ℕ) → ring_sectors_of ring ≡ ring_sectors → IsWindow ring sector bytes.now
        → AreOutlines uuid.now ring sector outlines.old.items → AreOutlines uuid.now ring (sector + 1) outlines.new.items) }
    ensures places { OnOk result (HavePlaces ring_sectors sector outlines.old.items → HavePlaces ring_sectors (sector + 1) outlines.new.items) }
{
    let Ok(record) = outline(bytes, sector, ring_sectors, uuid) else {
        return Ok(());
    };
    outlines.push(record)?;
    Ok(())
}
