//! Logs that are scanned. A row is `WORDS | ANSWER`. The log of 4,096 sectors is zeros, but for the records below that words name,
//! and changes `SECTOR+PLACE=BYTES`, in order. A word `fail:N` says which call of the machine fails, of which the first reads
//! the superblock. The records were written by another program.

ghost use Rattle.std.specs.Prelude.{◌≡◌, ◌%◌, length};

use crate::machine::scan;
use std::alloc::Global;
use std::test::*;
use xn_machine::MemMachine;
use xn_ring::{Ring, RingFault};
use xn_rows::{RowFault, bytes};

/// Where the log begins in the image, and how many bytes it has.
const LOG: usize = 512 * 512;

const LOG_BYTES: usize = 4096 * 512;

/// Each line has a name, the sector at which the record begins, and its bytes that aren't zeros.
const RECORDS: &str = "
unmount 2 0=feedbabe00000001000000020000000c00000001000000020000000100000002075caf02 40=00000001b0c0d0d0 300=00000001000102030405060708090a0b0c0d0e0f00008000 512=00000001 520=aa200000
first 10 0=feedbabe000000010000000200000200000000010000000a000000010000000adca5ffdc 40=0000000100000007 300=00000001000102030405060708090a0b0c0d0e0f00008000 512=00000001000001f469000000
second 12 0=feedbabe000000010000000200000400000000010000000c000000010000000a8adad878 40=0000000100000007 300=00000001000102030405060708090a0b0c0d0e0f00008000 512=00000001000003f469000000 1024=00000001
third 15 0=feedbabe000000010000000200000200000000010000000f000000010000000cf63c03dd 40=0000000100000007 300=00000001000102030405060708090a0b0c0d0e0f00008000 512=00000001000001f469000000
apart 20 0=feedbabe0000000100000002000002000000000100000014000000010000000a32426985 40=0000000100000007 300=00000001000102030405060708090a0b0c0d0e0f00008000 512=00000001000001f469000000
wrapped 4094 0=feedbabe0000000100000002000006000000000100000ffe0000000100000ffe0835e41f 40=0000000100000007 300=00000001000102030405060708090a0b0c0d0e0f00008000 512=00000001000005f469000000 1024=00000002 1536=00000002
behind 2 0=feedbabe00000002000000020000020000000002000000020000000100000ffeb79abb8d 40=0000000100000007 300=00000001000102030405060708090a0b0c0d0e0f00008000 512=00000002000001f469000000
clean 4 0=feedbabe00000002000000020000000c00000002000000040000000200000004f9ff5825 40=00000001b0c0d0d0 300=00000001000102030405060708090a0b0c0d0e0f00008000 512=00000002 520=aa200000
last 4094 0=feedbabe0000000100000002000002000000000100000ffe0000000100000ffe89ea9374 40=0000000100000007 300=00000001000102030405060708090a0b0c0d0e0f00008000 512=00000001000001f469000000
old 100 0=feedbabe00000001000000020000000c000000010000006400000001000000644a4d8b29 40=00000001b0c0d0d0 300=00000001000102030405060708090a0b0c0d0e0f00008000 512=00000001 520=aa200000
across 1022 0=feedbabe00000001000000020000060000000001000003fe00000001000003feffdff020 40=0000000100000007 300=00000001000102030405060708090a0b0c0d0e0f00008000 512=00000001000005f469000000 1024=00000001 1536=00000001
other 17 0=feedbabe00000001000000020000020000000001000000110000000100000014040583ed 40=0000000100000007 300=00000001000102030405060708090a0b0c0d0e0f00008000 512=00000001000001f469000000
left1 200 0=feedbabe00000001000000020000060000000001000000c8000000010000012c28af498e 40=0000000100000007 300=00000001000102030405060708090a0b0c0d0e0f00008000 512=00000001000005f469000000 1024=00000001 1536=00000001
left2 204 0=feedbabe00000001000000020000060000000001000000cc000000010000012c4b86c718 40=0000000100000007 300=00000001000102030405060708090a0b0c0d0e0f00008000 512=00000001000005f469000000 1024=00000001 1536=00000001
right1 300 0=feedbabe000000010000000200000600000000010000012c00000001000000c8f4f3e5d3 40=0000000100000007 300=00000001000102030405060708090a0b0c0d0e0f00008000 512=00000001000005f469000000 1024=00000001 1536=00000001
right2 304 0=feedbabe000000010000000200000600000000010000013000000001000000c8ceb67b3c 40=0000000100000007 300=00000001000102030405060708090a0b0c0d0e0f00008000 512=00000001000005f469000000 1024=00000001 1536=00000001
right3 308 0=feedbabe000000010000000200000200000000010000013400000001000001304574337e 40=0000000100000007 300=00000001000102030405060708090a0b0c0d0e0f00008000 512=00000001000001f469000000
";

const ROWS: &str = "
# no record, and one of cycle 0
 | none
unmount 2+4=00000000 2+16=00000000 | none
unmount 2+511=01 | head 1 next 1/4 free 4094 live marks 2
unmount 2+40=00000002 | none

# the unmount operation alone, and the later of two, not the one further back
unmount | head 1 next 1/4 free 4094 live marks 2
old clean | head 2 next 2/6 free 4094 live marks 4 100
old clean 4+8=00000001 | head 1 next 1/102 free 4094 live marks 4 100

# live records: from the tail of the head on
first | head 1 next 1/12 free 4094 live 10 marks 10
first second | head 1 next 1/15 free 4091 live 10 12 marks 10 12
first second third | head 1 next 1/17 free 4091 live 12 15 marks 10 12 15
unmount first second | head 1 next 1/15 free 4091 live 10 12 marks 2 10 12
first second third 30+0=feedbabe | head 1 next 1/17 free 4091 live 12 15 marks 10 12 15 30

# a torn record before the last one, and the last one torn
first second third 13+8=01 | head 1 next 1/12 free 4094 live 10 marks 10 12 15
first second third 12+0=00000000 | head 1 next 1/12 free 4094 live 10 marks 10 15
first second third 16+20=01 | head 1 next 1/15 free 4091 live 10 12 marks 10 12 15
unmount first second third 10+4=00000002 | head 1 next 1/17 free 4091 live 12 15 marks 2 10 12 15
unmount second | head 1 next 1/4 free 4094 live marks 2 12

# a gap before the last one, and a tail that is later than it
first second apart | head 1 next 1/15 free 4091 live 10 12 marks 10 12 20
first second third other | head 1 next 1/17 free 4091 live 12 15 marks 10 12 15 17
first second third other apart | head 1 next 1/17 free 4091 live 12 15 marks 10 12 15 17 20

# two chains, of which each record has its tail in the other one, and a record behind one of them
left1 left2 right1 right2 | none
left1 left2 right1 right2 unmount | head 1 next 1/4 free 4094 live marks 2 200 204 300 304
left1 left2 right1 right2 right3 | head 1 next 1/310 free 4090 live 304 308 marks 200 204 300 304 308

# round the end of the ring
last | head 1 next 2/0 free 4094 live 4094 marks 4094
wrapped | head 1 next 2/2 free 4092 live 4094 marks 4094
wrapped 0+0=00000001 | none
wrapped behind | head 2 next 2/4 free 4090 live 4094 2 marks 2 4094
wrapped behind clean | head 2 next 2/6 free 4094 live marks 2 4 4094
wrapped 0+100=01 behind | none

# a record that stands in two of the pieces that are read
across | head 1 next 1/1026 free 4092 live 1022 marks 1022
across 1025+7=01 | none

# reading that fails: a piece, the front behind the last piece, a live record
fail:2 first | read
fail:6 first | read
fail:7 first | read
fail:8 first | head 1 next 1/12 free 4094 live 10 marks 10
fail:7 unmount | head 1 next 1/4 free 4094 live marks 2
";

/// Changes bytes of the log, from a place in one of its sectors on: `PLACE=BYTES`.
fn put(alloc: Global, image: &mut [u8], sector: u16, word: &str) -> Result<(), RowFault> {
    let (place, spelled) = word.split_once('=').ok_or(RowFault::Word)?;
    let place: u16 = place.parse()?;
    let piece = bytes(alloc, spelled)?;
    for (byte, k) in piece.iter().zip(0_u16..65_535) {
        let at = 512 * usize::from(sector) + usize::from(place) + usize::from(k);
        if let Some(target) = image.get_mut(LOG + at % LOG_BYTES) {
            *target = *byte;
        }
    }
    Ok(())
}

/// Puts a record of the table.
fn put_record(alloc: Global, image: &mut [u8], name: &str) -> Result<(), RowFault> {
    for line in RECORDS.lines() {
        let mut words = line.split_whitespace();
        if words.next() != Some(name) {
            continue;
        }
        let sector: u16 = words.next().ok_or(RowFault::Fields)?.parse()?;
        for word in words {
            put(alloc, image, sector, word)?;
        }
        return Ok(());
    }
    Err(RowFault::Word)
}

fn whole_sectors(mut image: Vec<u8>) -> Vec<u8>
    ensures { length result.items % 512 ≡ 0 }
{
    let length = image.len() / 512 * 512;
    image.truncate(length);
    image
}

/// A machine with the log that words spell.
fn machine_of(alloc: Global, words: &str) -> Result<MemMachine, RowFault> {
    let mut image = xn_make::image(alloc, b"").map_err(|_| RowFault::Memory)?;
    let mut fails = Vec::new(alloc);
    for word in words.split_whitespace() {
        if let Some(call) = word.strip_prefix("fail:") {
            fails.push(call.parse()?)?;
        } else if let Some((sector, change)) = word.split_once('+') {
            put(alloc, &mut image, sector.parse()?, change)?;
        } else {
            put_record(alloc, &mut image, word)?;
        }
    }
    Ok(MemMachine::new(alloc, whole_sectors(image), fails, None, 10, 0)?)
}

/// What is answered of a ring.
fn told(alloc: Global, ring: &Ring) -> Result<String, RowFault> {
    let mut text = format!(in alloc;
        "head {} next {}/{} free {} live",
        ring.head_cycle(),
        ring.next_cycle(),
        ring.next_sector(),
        ring.free_sectors()
    )?;
    for record in ring.live() {
        text.push_str(format!(in alloc; " {}", record.sector)?.as_str())?;
    }
    text.push_str(" marks")?;
    for mark in ring.marks() {
        text.push_str(format!(in alloc; " {mark}")?.as_str())?;
    }
    Ok(text)
}

/// What is told of the log that words spell.
fn answer(alloc: Global, words: &str) -> Result<String, RowFault> {
    let mut machine = machine_of(alloc, words)?;
    match scan(alloc, &mut machine).ok_or(RowFault::Word)? {
        Ok(ring) => told(alloc, &ring),
        Err(RingFault::Read) => Ok(String::from_str(alloc, "read")?),
        Err(RingFault::NoRecord) => Ok(String::from_str(alloc, "none")?),
        Err(RingFault::Memory) => Err(RowFault::Memory),
    }
}

#[test]
fn logs_are_scanned(rt: HostRuntime) -> Result<(), Fail> {
    for line in ROWS.lines() {
        if line.is_empty() || line.starts_with('#') {
            continue;
        }
        let (words, wanted) = line.split_once('|').ok_or("a row has no answer")?;
        let told = answer(rt.alloc(), words)?;
        assert_eq!(rt; told.as_str(), wanted.trim(), "at {line}");
    }
    Ok(())
}
