//! Words of the program.

use crate::RowFault;
use std::alloc::Global;

/// The words that a field spells.
pub fn words_of(alloc: Global, field: &str) -> Result<Vec<String>, RowFault> {
    let mut words = Vec::new(alloc);
    for word in field.split_whitespace() {
        words.push(spelled(alloc, word)?)?;
    }
    Ok(words)
}

/// A word with what its braces stand for.
pub fn spelled(alloc: Global, text: &str) -> Result<String, RowFault> {
    let mut word = String::new(alloc);
    for piece in text.split('{') {
        match piece.split_once('}') {
            Some((braces, rest)) => {
                push_braces(&mut word, braces)?;
                word.push_str(rest)?;
            }
            None => word.push_str(piece)?,
        }
    }
    Ok(word)
}

/// Puts what stands for `{braces}` behind a word.
fn push_braces(word: &mut String, braces: &str) -> Result<(), RowFault> {
    match braces {
        "" => Ok(()),
        "_" => Ok(word.push_str(" ")?),
        _ => {
            let (text, count) = braces.split_once('*').ok_or(RowFault::Braces)?;
            push_times(word, text, count.parse()?)
        }
    }
}

fn push_times(word: &mut String, text: &str, count: u16) -> Result<(), RowFault> {
    for _ in 0..count {
        word.push_str(text)?;
    }
    Ok(())
}
