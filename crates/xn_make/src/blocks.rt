//! The block of a directory in block form (`XDB3`).

ghost use Rattle.std.specs.Prelude.{◌≡◌, ◌+◌, ◌-◌, ◌*◌, ◌^◌, ◌<◌, ◌≤◌, ◌++◌, length, map, All, IfOk, OnOk};
ghost use Rattle.xn_bytes.specs.Checksum.{HasChecksum};
ghost use Rattle.xn_make.specs.Directories.{CanStand, Fit, IsDirectoryBlock, all_entries, gap_behind, total_length};
ghost use Rattle.xn_make.specs.SpelledBlocks.{IsBlockSpelled, behind_header, header_bytes};
ghost use Rattle.xn_make.specs.Laid.{leaf_entry, gap_of, HasAdded, IsClosed};

use crate::UUID;
use crate::layout::{Gap, HEADER, LEAVES_END, Layout, Leaf, push_gap, push_leaves};
use crate::pieces::put_bytes;
use std::alloc::Global;
use xn_bytes::{Kind, Memory, put_checksum, put_u16, put_u32, put_u64};

/// `XDB3`.
const BLOCK_FORM: u32 = 0x5844_4233;

/// An entry that a directory is to hold: a name of at most 255 bytes, the inode that it names, and that one's kind.
#[derive(Clone, Copy, Debug)]
pub struct Named<'a> {
    pub name: &'a [u8],
    pub ino: u64,
    pub kind: Kind,
}

/// The 4,096 bytes of the block of a directory in block form: header, `.` and `..`, the entries in the order that is
/// given, one free region, and the leaf entries by hash. `block` is the number of the block in the image's one group, and
/// `number` that of the directory's inode. Fails only for want of memory.
pub fn block_directory(
    alloc: Global,
    block: u64,
    number: u64,
    parent: u64,
    entries: &[Named<'_>],
) -> Result<Vec<u8>, Memory>
    requires block { block < 2 ^ 32 }
    requires number { number < 2 ^ 56 }
    requires parent { parent < 2 ^ 56 }
    requires entries { All CanStand entries.now }
    requires fit { Fit entries.now }
    ensures { IfOk result (λ bytes. IsDirectoryBlock bytes.items (8 * block) number (all_entries number parent entries.now) (gap_behind entries.now)) }
{
    let mut layout = Layout {
        area: Vec::new(alloc),
        leaves: Vec::new(alloc),
    };
    layout.add(&directory(b".", number))?;
    layout.add(&directory(b"..", parent))?;
    add_all(&mut layout, entries)?;
    layout.leaves.sort_by_key(|leaf| leaf.hash)?;
    close(alloc, &layout, 8 * block, number)
}

/// A name of a directory.
fn directory(name: &[u8], ino: u64) -> Named<'_>
    ensures name { result.name.now ≡ name.now }
    ensures ino { result.ino ≡ ino }
    ensures kind { result.kind ≡ Kind.Dir }
{
    Named {
        name,
        ino,
        kind: Kind::Dir,
    }
}

/// Puts entries behind those of a layout.
fn add_all(layout: &mut Layout, entries: &[Named<'_>]) -> Result<(), Memory>
    requires entries { All CanStand entries.now }
    requires room { length layout.old.area.items + total_length entries.now ≤ 4096 }
    ensures { OnOk result (HasAdded layout.old layout.new entries.now) }
{
    for entry in entries {
        layout.add(entry)?;
    }
    Ok(())
}

/// The block of a layout, whose leaf entries are sorted.
fn close(alloc: Global, layout: &Layout, sector: u64, owner: u64) -> Result<Vec<u8>, Memory>
    requires { 64 + length layout.now.area.items + 8 + 8 * length layout.now.leaves.items ≤ 4088 }
    ensures { IfOk result (λ bytes. IsClosed bytes.items layout.now sector owner) }
{
    let place = HEADER + layout.area.len();
    let end = LEAVES_END - 8 * layout.leaves.len();
    let gap = Gap {
        place: place as u16,
        size: (end - place) as u16,
    };
    let mut bytes = Vec::from_slice(alloc, &header(sector, owner, gap))?;
    push_behind(&mut bytes, layout, gap)?;
    put_checksum(&mut bytes, 4);
    Ok(bytes)
}

/// Puts what stands behind the header: entries, the free region, leaf entries, their count, and that of stale ones.
fn push_behind(bytes: &mut Vec<u8>, layout: &Layout, gap: Gap) -> Result<(), Memory>
    requires gap { 8 ≤ gap.size }
    requires leaves { length layout.now.leaves.items < 2 ^ 32 }
    ensures { OnOk result (bytes.new.items ≡ bytes.old.items ++ behind_header layout.now.area.items (gap_of gap) (map leaf_entry layout.now.leaves.items)) }
{
    bytes.extend_from_slice(&layout.area)?;
    push_gap(bytes, gap)?;
    push_leaves(bytes, &layout.leaves)?;
    bytes.extend_from_slice(&(layout.leaves.len() as u32).to_be_bytes())?;
    bytes.extend_from_slice(&0u32.to_be_bytes())?;
    Ok(())
}

/// The header (`xfs_dir3_data_hdr`), without its checksum. The first pair names the free region.
fn header(sector: u64, owner: u64, gap: Gap) -> [u8; 64]
    ensures { result ≡ header_bytes sector owner (gap_of gap) }
{
    let mut header = [0; 64];
    put_u32(&mut header, 0, BLOCK_FORM);
    put_u64(&mut header, 8, sector);
    put_bytes(&mut header, 24, &UUID);
    put_u64(&mut header, 40, owner);
    put_u16(&mut header, 48, gap.place);
    put_u16(&mut header, 50, gap.size);
    header
}
