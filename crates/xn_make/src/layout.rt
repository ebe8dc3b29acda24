//! The regions and the leaf entries of a directory's block, as they are laid out.

ghost use Rattle.std.specs.Prelude.{◌≡◌, ◌+◌, ◌*◌, ◌/◌, ◌≤◌, ◌++◌, ◌∷◌, [], length, map, replicate, OnOk};
ghost use Rattle.xn_bytes.specs.Entries.{data_entry_length};
ghost use Rattle.xn_make.specs.Directories.{entry_at};
ghost use Rattle.xn_make.specs.SpelledBlocks.{entry_bytes, gap_bytes, leaves_bytes};
ghost use Rattle.xn_make.specs.Laid.{leaf_entry, gap_of, leaf_at};

use crate::blocks::Named;
use xn_bytes::{Memory, name_hash};

/// Where the regions begin, behind the header.
pub const HEADER: usize = 64;

/// Where the leaf entries end.
pub const LEAVES_END: usize = 4088;

/// A leaf entry: the hash of a name, and the entry's position in units of 8 bytes.
#[derive(Clone, Copy, Debug)]
pub struct Leaf {
    pub hash: u32,
    pub address: u32,
}

/// A free region: its position and its length in bytes.
#[derive(Clone, Copy, Debug)]
pub struct Gap {
    pub place: u16,
    pub size: u16,
}

/// Entries side by side, as they stand behind the header, and the leaf entry of each.
#[derive(Debug, Drop)]
pub struct Layout {
    pub area: Vec<u8>,
    pub leaves: Vec<Leaf>,
}

impl Layout {
    /// Puts an entry behind the others.
    pub fn add(&mut self, named: &Named<'_>) -> Result<(), Memory>
        requires name { length named.now.name.now ≤ 255 }
        requires room { length self.old.area.items + data_entry_length (length named.now.name.now) ≤ 4096 }
        ensures area { OnOk result (self.new.area.items ≡ self.old.area.items ++ entry_bytes (entry_at (64 + length self.old.area.items) named.now)) }
        ensures leaves { OnOk result (self.new.leaves.items ≡ self.old.leaves.items ++ leaf_at (64 + length self.old.area.items) named.now.name.now ∷ []) }
    {
        let position = HEADER + self.area.len();
        push_entry(&mut self.area, position as u16, named)?;
        self.leaves.push(Leaf {
            hash: name_hash(named.name),
            address: (position / 8) as u32,
        })?;
        Ok(())
    }
}

/// Puts an entry (`xfs_dir2_data_entry`) with its own position behind bytes.
pub fn push_entry(bytes: &mut Vec<u8>, position: u16, named: &Named<'_>) -> Result<(), Memory>
    requires { length named.now.name.now ≤ 255 }
    ensures { OnOk result (bytes.new.items ≡ bytes.old.items ++ entry_bytes (entry_at position named.now)) }
{
    let used = 12 + named.name.len();
    let whole = (used + 7) / 8 * 8;
    bytes.extend_from_slice(&named.ino.to_be_bytes())?;
    bytes.push(named.name.len() as u8)?;
    bytes.extend_from_slice(named.name)?;
    bytes.push(named.kind.number())?;
    push_zeros(bytes, whole - used)?;
    bytes.extend_from_slice(&position.to_be_bytes())?;
    Ok(())
}

/// Puts a free region (`xfs_dir2_data_unused`) behind bytes.
pub fn push_gap(bytes: &mut Vec<u8>, gap: Gap) -> Result<(), Memory>
    requires { 8 ≤ gap.size }
    ensures { OnOk result (bytes.new.items ≡ bytes.old.items ++ gap_bytes (gap_of gap)) }
{
    bytes.extend_from_slice(&[0xff, 0xff])?;
    bytes.extend_from_slice(&gap.size.to_be_bytes())?;
    push_zeros(bytes, usize::from(gap.size) - 6)?;
    bytes.extend_from_slice(&gap.place.to_be_bytes())?;
    Ok(())
}

/// Puts leaf entries (`xfs_dir2_leaf_entry`) behind bytes.
pub fn push_leaves(bytes: &mut Vec<u8>, leaves: &[Leaf]) -> Result<(), Memory>
    ensures { OnOk result (bytes.new.items ≡ bytes.old.items ++ leaves_bytes (map leaf_entry leaves.now)) }
{
    for leaf in leaves {
        bytes.extend_from_slice(&leaf.hash.to_be_bytes())?;
        bytes.extend_from_slice(&leaf.address.to_be_bytes())?;
    }
    Ok(())
}

fn push_zeros(bytes: &mut Vec<u8>, count: usize) -> Result<(), Memory>
    ensures { OnOk result (bytes.new.items ≡ bytes.old.items ++ replicate count 0) }
{
    for done in 0..count {
        bytes.push(0)?;
    }
    Ok(())
}
