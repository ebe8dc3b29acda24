use std::alloc::Global;
use std::test::Fail;
use xn_bytes::Bytes;
use xn_log::{Op, Ops, Record};

/// The text, in which `{00*8}` is 8 times `00`.
pub fn expanded(alloc: Global, text: &str) -> Result<String, Fail> {
    let mut all = String::new(alloc);
    let (front, mut left) = text.split_once('{').unwrap_or((text, ""));
    all.push_str(front)?;
    for _ in 0..text.len() {
        if left.is_empty() {
            break;
        }
        let (repeated, behind) = left.split_once('}').ok_or("a brace ends")?;
        let (piece, count) = repeated.split_once('*').ok_or("a count")?;
        for _ in 0..count.parse::<u16>().ok().ok_or("a number")? {
            all.push_str(piece)?;
        }
        let (plain, rest) = behind.split_once('{').unwrap_or((behind, ""));
        all.push_str(plain)?;
        left = rest;
    }
    Ok(all)
}

/// The records that words spell.
pub fn records(alloc: Global, words: &str) -> Result<Vec<Record>, Fail> {
    let mut records = Vec::new(alloc);
    for text in words.split('@') {
        let text = text.trim();
        if !text.is_empty() {
            records.push(record(alloc, text)?)?;
        }
    }
    Ok(records)
}

fn record(alloc: Global, text: &str) -> Result<Record, Fail> {
    let (stamp, words) = text.split_once(' ').unwrap_or((text, ""));
    let (cycle, sector) = stamp.split_once('.').ok_or("cycle and sector")?;
    let mut ops = Vec::new(alloc);
    for word in words.split_whitespace() {
        ops.push(operation(alloc, word)?)?;
    }
    Ok(Record {
        cycle: cycle.parse::<u32>().ok().ok_or("a cycle")?,
        sector: sector.parse::<u32>().ok().ok_or("a sector")?,
        tail: 0,
        previous: 0,
        ops: Ops::new(ops),
    })
}

fn operation(alloc: Global, word: &str) -> Result<Op, Fail> {
    let (tid, rest) = word.split_once(':').ok_or("a transaction")?;
    let (flags, digits) = rest.split_once(':').ok_or("flags")?;
    Ok(Op {
        tid: tid.parse::<u32>().ok().ok_or("a number")?,
        client: 0x69,
        flags: flags_of(flags),
        bytes: Bytes::new(bytes(alloc, digits)?),
    })
}

fn flags_of(flags: &str) -> u8 {
    let mut all = 0;
    for flag in flags.bytes() {
        all |= match flag {
            b's' => 1,
            b'c' => 2,
            b'>' => 4,
            b'<' => 8,
            _ => 0,
        };
    }
    all
}

fn bytes(alloc: Global, digits: &str) -> Result<Vec<u8>, Fail> {
    let mut all = String::new(alloc);
    for piece in digits.split('_') {
        all.push_str(piece)?;
    }
    Ok(hex::decode(alloc, all.as_str())?)
}
