//! Bytes as text.

use crate::RowFault;
use std::alloc::Global;

/// The bytes that a text spells: hexadecimal digits, and between `'` text. `_` is skipped.
pub fn bytes(alloc: Global, text: &str) -> Result<Vec<u8>, RowFault> {
    let mut bytes = Vec::new(alloc);
    let mut is_text = false;
    for piece in text.split('\'') {
        if is_text {
            bytes.extend_from_slice(piece.as_bytes())?;
        } else {
            push_digits(alloc, &mut bytes, piece)?;
        }
        is_text = !is_text;
    }
    Ok(bytes)
}

fn push_digits(alloc: Global, bytes: &mut Vec<u8>, digits: &str) -> Result<(), RowFault> {
    for group in digits.split('_') {
        let group = hex::decode(alloc, group)?;
        bytes.extend_from_slice(&group)?;
    }
    Ok(())
}
