//! A data block of a directory, of either kind.

ghost use Rattle.std.specs.Prelude.{◌≡◌, ◌↔◌, ℕ, List, false, IsTrue, MatchOption, length};
ghost use Rattle.xn_bytes.specs.Superblock.{IsBlock, sector_of_block};
ghost use Rattle.xn_bytes.specs.Entries as held;
ghost use Rattle.xn_bytes.specs.DataBlock.{DataForm};
ghost use Rattle.xn_bytes.specs.DirectoryForms.{HasDots, IsDataBlockOf};
ghost use Rattle.xn_dir.specs.FirstBlocks.{IsDots, IsOwn};

use xn_bytes::Kind;
use xn_data::{DataBlock, DataEntries, DataEntry};
use xn_inode::Super;

/// The data block of a directory in leaf or node form that stands in these bytes; None where none does.
pub(crate) fn data_block<'a>(
    geometry: &Super,
    dir: u64,
    block: u64,
    bytes: &'a [u8],
) -> Option<DataBlock<'a>>
    requires size { length bytes.now ≡ 4096 }
    requires place { IsBlock geometry.now block }
    ensures { MatchOption result
        ((form : DataForm) → ¬ IsDataBlockOf geometry.now dir false block bytes.now form)
        (λ held. IsDataBlockOf geometry.now dir false block bytes.now held) }
{
    let Ok(held) = DataBlock::read(bytes) else {
        return None;
    };
    if is_own(geometry, dir, false, block, &held) {
        Some(held)
    } else {
        None
    }
}

/// Whether a data block is of this kind, in the place that it names, with the filesystem's uuid and its owner.
pub(crate) fn is_own(
    geometry: &Super,
    dir: u64,
    is_block_form: bool,
    block: u64,
    found: &DataBlock<'_>,
) -> bool
    requires place { IsBlock geometry.now block }
    ensures { IsTrue result ↔ IsOwn geometry.now dir is_block_form block found.now }
{
    found.is_block_form() == is_block_form
        && found.place() == geometry.sector_of_block(block)
        && found.owner() == dir
        && found.uuid() == geometry.meta_uuid().as_slice()
}

/// Takes dot and dotdot from the front of the entries, and answers dotdot's inode.
pub(crate) fn take_dots(entries: &mut DataEntries<'_>) -> Option<u64>
    ensures { MatchOption result
        ((others : List held.Entry) (dotdot : ℕ) → ¬ HasDots entries.old others dotdot)
        (λ dotdot. HasDots entries.old entries.new dotdot) }
{
    let dot = entries.next()?;
    let parent = entries.next()?;
    if is_dots(&dot, b".", 64) && is_dots(&parent, b"..", 80) {
        Some(parent.ino)
    } else {
        None
    }
}

/// Whether an entry of kind directory has this name and stands there.
fn is_dots(entry: &DataEntry<'_>, name: &[u8], position: u64) -> bool
    ensures { IsTrue result ↔ IsDots entry.now.name.now entry.now.kind entry.now.position name.now position }
{
    entry.name == name && entry.kind == Kind::Dir && entry.position == position
}
