//! Manifests as text.

use crate::RowFault;
use crate::spelling::bytes;
use crate::words::spelled;
use std::alloc::Global;

/// The inodes in blocks 8 to 63 of the first group, all of them in use, and no pool.
const ALL: &str = "xfsns-manifest 1
chunk 64 0000000000000000
chunk 128 0000000000000000
chunk 192 0000000000000000
chunk 256 0000000000000000
chunk 320 0000000000000000
chunk 384 0000000000000000
chunk 448 0000000000000000
";

/// The text of the manifest that the words of an image spell: of the first that is one, or else of the one that lists all
/// inodes in blocks 8 to 63 and has no pool.
pub fn manifest(alloc: Global, words: &str) -> Result<Vec<u8>, RowFault> {
    for word in words.split_whitespace() {
        if let Some(("manifest", text)) = word.split_once(':') {
            return text_of(alloc, text);
        }
    }
    Ok(Vec::from_slice(alloc, ALL.as_bytes())?)
}

/// The bytes that a word spells, where `_` stands for a space, and `/` for a newline.
fn text_of(alloc: Global, word: &str) -> Result<Vec<u8>, RowFault> {
    let mut text = String::new(alloc);
    for letter in spelled(alloc, word)?.chars() {
        text.push(match letter {
            '_' => ' ',
            '/' => '\n',
            _ => letter,
        })?;
    }
    bytes(alloc, &text)
}
