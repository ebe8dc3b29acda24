//! The told lines that are no replies.

ghost use Rattle.std.specs.Prelude.{◌≡◌, [], ◌∷◌, ◌++◌, IfOk, codes, decimal};
ghost use Rattle.xn_meaning.specs.Replies as texts;
ghost use Rattle.xn_text.specs.Viewed.{summary_of};

use std::alloc::Global;
use xn_bytes::Memory;

/// Told to words that are none of the forms: `usage`.
pub fn usage_line(alloc: Global) -> Result<Vec<u8>, Memory>
    ensures { IfOk result (λ text. text.items ≡ texts.usage_line) }
{
    Ok(Vec::from_slice(alloc, b"usage\n")?)
}

/// The rule that an image breaks, the inode that breaks it and the block: `image rule R inode I block B`.
pub fn image_line(alloc: Global, rule: u8, inode: u64, block: u64) -> Result<Vec<u8>, Memory>
    ensures { IfOk result (λ text. text.items ≡ texts.image_line rule inode block) }
{
    let text = format!(in alloc; "image rule {rule} inode {inode} block {block}\n")?;
    Ok(text.into_bytes())
}

/// The first line of a manifest that is outside its grammar: `manifest line L`.
pub fn manifest_line(alloc: Global, number: u64) -> Result<Vec<u8>, Memory>
    ensures { IfOk result (λ text. text.items ≡ texts.manifest_line number) }
{
    let text = format!(in alloc; "manifest line {number}\n")?;
    Ok(text.into_bytes())
}

/// What is told of an image that is accepted.
#[derive(Clone, Copy, Debug, PartialEq, Eq)]
pub struct Summary {
    /// How many inodes are live, the detached ones too, and how many of them are directories.
    pub inodes: u64,
    pub directories: u64,
    pub entries: u64,
    /// How many changes of parent records are pending.
    pub pending: u64,
    /// How many blocks of the pool are free.
    pub free: u64,
}

/// A summary: `ok inodes I directories D entries E pending P free F`.
pub fn summary_line(alloc: Global, summary: &Summary) -> Result<Vec<u8>, Memory>
    ensures { IfOk result (λ text. text.items ≡ texts.summary_line (summary_of summary.now)) }
{
    let mut text = names_text(alloc, summary)?;
    let room = room_text(alloc, summary)?;
    text.extend_from_slice(&room)?;
    Ok(text)
}

/// What a summary says of inodes and entries.
fn names_text(alloc: Global, summary: &Summary) -> Result<Vec<u8>, Memory>
    ensures { IfOk result (λ text. text.items ≡ codes "ok inodes " ++ decimal summary.now.inodes ++ codes " directories " ++ decimal summary.now.directories ++ codes " entries " ++ decimal summary.now.entries) }
{
    let Summary {
        inodes,
        directories,
        entries,
        ..
    } = *summary;
    let text = format!(in alloc; "ok inodes {inodes} directories {directories} entries {entries}")?;
    Ok(text.into_bytes())
}

/// And of what is pending and free.
fn room_text(alloc: Global, summary: &Summary) -> Result<Vec<u8>, Memory>
    ensures { IfOk result (λ text. text.items ≡ codes " pending " ++ decimal summary.now.pending ++ codes " free " ++ decimal summary.now.free ++ texts.newline ∷ []) }
{
    let Summary { pending, free, .. } = *summary;
    let text = format!(in alloc; " pending {pending} free {free}\n")?;
    Ok(text.into_bytes())
}
