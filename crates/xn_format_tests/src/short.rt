//! Short forms as rows of text: a name, the form's bytes, and what is told of them. Blank lines, and those that begin with `#`,
//! are no rows.
//!
//! With a name the entry is told that it finds, and else the form: its parent and its entries, or the place of its fault.
//! Entries are position, inode, kind and name. The bytes are spelled in words of at most eight.

use std::alloc::Global;
use std::test::Fail;
use xn_short::{Short, ShortEntry};

const ROWS: &str = r"
# parent 128; the file `a`, inode 131, position 96; with a wide inode number; no entry
| 01 00 00000080 01 0060 61 01 00000083 | 128 / 96 131 Reg a
| 01 01 0000000000000080 01 0060 61 01 0000000100000083 | 128 / 96 4294967427 Reg a
| 00 00 00000080 | 128
a | 01 01 0000000000000080 01 0060 61 01 0000000100000083 | 96 4294967427 Reg a
a | 00 00 00000080 | none

# whole names: the file `ab`, inode 131, position 96; the directory `a`, inode 132, position 112
a | 02 00 00000080 02 0060 6162 01 00000083 01 0070 61 02 00000084 | 112 132 Dir a
ab | 02 00 00000080 02 0060 6162 01 00000083 01 0070 61 02 00000084 | 96 131 Reg ab
b | 02 00 00000080 02 0060 6162 01 00000083 01 0070 61 02 00000084 | none
abc | 02 00 00000080 02 0060 6162 01 00000083 01 0070 61 02 00000084 | none

# cut off
| | fault 0
| 01 | fault 1
| 01 00 | fault 2
| 01 00 00 | fault 3
| 01 00 0000 | fault 4
| 01 00 000000 | fault 5
| 01 00 00000080 | fault 6
| 01 00 00000080 01 | fault 7
| 01 00 00000080 01 00 | fault 8
| 01 00 00000080 01 0060 | fault 9
| 01 00 00000080 01 0060 61 | fault 10
| 01 00 00000080 01 0060 61 01 | fault 11
| 01 00 00000080 01 0060 61 01 00 | fault 12
| 01 00 00000080 01 0060 61 01 0000 | fault 13
| 01 00 00000080 01 0060 61 01 000000 | fault 14
# a byte behind the last entry
| 01 00 00000080 01 0060 61 01 00000083 00 | fault 15
# a position in the entry before
| 02 00 00000080 02 0060 6162 01 00000083 01 0068 61 02 00000084 | fault 17
# the last position, and one behind it
| 01 00 00000080 01 0fd0 61 01 00000083 | 128 / 4048 131 Reg a
| 01 00 00000080 01 0fd8 61 01 00000083 | fault 7
# kinds that are none
| 01 00 00000080 01 0060 61 00 00000083 | fault 10
| 01 00 00000080 01 0060 61 08 00000083 | fault 10
# positions before the first, and between two
| 01 00 00000080 01 0058 61 01 00000083 | fault 7
| 01 00 00000080 01 0061 61 01 00000083 | fault 7
# wide numbers, of which there are none
| 01 01 00000080 01 0060 61 01 00000083 | fault 11

# no number is wide, which comes before the kind and the position, and behind the end
| 01 01 0000000000000080 01 0060 61 01 0000000000000083 | fault 1
| 01 01 0000000000000080 01 0060 61 09 0000000000000083 | fault 1
| 01 01 0000000000000080 01 0061 61 01 0000000000000083 | fault 1
| 01 01 0000000000000080 01 0061 61 01 00000000000000 | fault 11
";

/// What is told of the row that a line is, and what it wants.
fn told(alloc: Global, line: &str) -> Result<(String, &str), Fail> {
    let (name, rest) = line.split_once('|').ok_or("a name")?;
    let (spelled, wanted) = rest.split_once('|').ok_or("bytes")?;
    let bytes = bytes(alloc, spelled)?;
    let told = match Short::read(&bytes) {
        Err(fault) => format!(in alloc; "fault {}", fault.at)?,
        Ok(short) if name.trim().is_empty() => form_told(alloc, &short)?,
        Ok(short) => match short.find(name.trim().as_bytes()) {
            Some(entry) => entry_told(alloc, &entry)?,
            None => String::from_str(alloc, "none")?,
        },
    };
    Ok((told, wanted.trim()))
}

/// The bytes that words of hexadecimal digits spell.
pub(crate) fn bytes(alloc: Global, spelled: &str) -> Result<Vec<u8>, Fail> {
    let mut bytes = Vec::new(alloc);
    for word in spelled.split_whitespace() {
        if word.len() % 2 != 0 || word.len() > 16 {
            return Err(Fail::from("digits"));
        }
        let number = u64::from_str_radix(word, 16)?;
        bytes.extend_from_slice(&number.to_be_bytes()[8 - word.len() / 2..])?;
    }
    Ok(bytes)
}

fn form_told(alloc: Global, short: &Short<'_>) -> Result<String, Fail> {
    let mut told = format!(in alloc; "{}", short.parent())?;
    for entry in short.entries() {
        told.push_str(" / ")?;
        told.push_str(&entry_told(alloc, &entry)?)?;
    }
    Ok(told)
}

fn entry_told(alloc: Global, entry: &ShortEntry<'_>) -> Result<String, Fail> {
    let name = str::from_utf8(entry.name).ok().ok_or("a text")?;
    let (position, ino, kind) = (entry.position, entry.ino, entry.kind);
    Ok(format!(in alloc; "{position} {ino} {kind:?} {name}")?)
}

#[test]
fn short_forms(rt: HostRuntime) {
    for line in ROWS.lines() {
        if line.is_empty() || line.starts_with('#') {
            continue;
        }
        match told(rt.alloc(), line) {
            Ok((told, wanted)) => assert_eq!(rt; told.as_str(), wanted, "{line}"),
            Err(_) => panic!(rt; "no row: {line}"),
        }
    }
}
