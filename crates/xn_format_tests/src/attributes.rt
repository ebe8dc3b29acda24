//! Attributes in short form as rows of text: a fork's bytes, and what is told of them. Blank lines, and those that begin with
//! `#`, are no rows. Of a form its size is told, and of each attribute the flags, the name and the bytes of its value; else the
//! place of the fault. The bytes are spelled in words of at most eight.

use crate::short::bytes;
use std::alloc::Global;
use std::test::Fail;
use xn_attrleaf::{ShortAttr, ShortAttrs};

const ROWS: &str = r"
# the parent record `a` under inode 128 of generation 7, and free bytes behind it
0014 01 00 01 0c 08 61 0000000000000080 00000007 | 20 / 8 a [0, 0, 0, 0, 0, 0, 0, 128, 0, 0, 0, 7]
0014 01 ff 01 0c 08 61 0000000000000080 00000007 55aa | 20 / 8 a [0, 0, 0, 0, 0, 0, 0, 128, 0, 0, 0, 7]
# no attribute; two, one of them with the lowest bit of its flags set; names and values of no bytes
0004 00 00 | 4
0010 02 00 01 02 02 62 0506 02 01 83 6364 07 | 16 / 2 b [5, 6] / 130 cd [7]
000a 02 00 00 00 00 00 00 04 | 10 / 0  [] / 4  []
# the total one more and one less, which comes behind bytes that are missing
0015 01 00 01 0c 08 61 0000000000000080 00000007 | fault 0
0013 01 00 01 0c 08 61 0000000000000080 00000007 | fault 0
0015 01 00 01 0c 08 61 0000000000000080 000000 | fault 19
# a count past the end, and one too few
0014 02 00 01 0c 08 61 0000000000000080 00000007 | fault 20
0014 00 00 01 0c 08 61 0000000000000080 00000007 | fault 0
# cut off
| fault 0
0004 | fault 2
0004 00 | fault 3
0014 01 00 01 0c | fault 6
0014 01 00 01 0c 08 | fault 7
";

/// What is told of the row that a line is, and what it wants.
fn told(alloc: Global, line: &str) -> Result<(String, &str), Fail> {
    let (spelled, wanted) = line.split_once('|').ok_or("bytes")?;
    let fork = bytes(alloc, spelled)?;
    let told = match ShortAttrs::read(&fork) {
        Err(fault) => format!(in alloc; "fault {}", fault.at)?,
        Ok(short) => form_told(alloc, &short)?,
    };
    Ok((told, wanted.trim()))
}

fn form_told(alloc: Global, short: &ShortAttrs<'_>) -> Result<String, Fail> {
    let mut told = format!(in alloc; "{}", short.size())?;
    for attribute in short.entries() {
        told.push_str(" / ")?;
        told.push_str(&attribute_told(alloc, &attribute)?)?;
    }
    Ok(told)
}

fn attribute_told(alloc: Global, attribute: &ShortAttr<'_>) -> Result<String, Fail> {
    let name = str::from_utf8(attribute.name).ok().ok_or("a text")?;
    let (flags, value) = (attribute.flags, attribute.value);
    Ok(format!(in alloc; "{flags} {name} {value:?}")?)
}

#[test]
fn short_attributes(rt: HostRuntime) {
    for line in ROWS.lines() {
        if line.is_empty() || line.starts_with('#') {
            continue;
        }
        match told(rt.alloc(), line) {
            Ok((told, wanted)) => assert_eq!(rt; told.as_str(), wanted, "{line}"),
            Err(_) => panic!(rt; "no row: {line}"),
        }
    }
}
