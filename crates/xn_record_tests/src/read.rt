//! Bytes that are read as records. A row is `LENGTH SECTOR RING | PIECES | ANSWER`: so many bytes from this sector on, of a ring
//! of so many sectors. They are zeros, but for the pieces, in order: `PLACE=BYTES`, or the name of a record below. The checksums
//! are those of another program.

use std::alloc::Global;
use std::test::*;
use xn_record::{RecFault, decode, outline, sectors_of};
use xn_rows::{RowFault, bytes};

const UUID: [u8; 16] = [0, 1, 2, 3, 4, 5, 6, 7, 8, 9, 10, 11, 12, 13, 14, 15];

/// At sector 4,094 of 4,096, of cycle 5, with 1,536 bytes of operations: the header of the second one stands across a stamp.
const WRAP: &str =
    "0=feedbabe 4=00000005 8=00000002 12=00000600 16=0000000500000ffe 24=0000000400000009 32=d68fe512 36=0000004d 40=00000002 44=00000007 48=000003f8 52=44460000 300=00000001 304=000102030405060708090a0b0c0d0e0f 320=00008000 512=00000005 516=000001f069000000 524=1122 1019=33 1020=00000007 1024=00000006 1028=69040000 1535=45 1536=00000006 2047=55";

/// At sector 2, of cycle 1, with the unmount operation alone, which has no bytes of its own.
const UNMOUNT: &str =
    "0=feedbabe 4=00000001 8=00000002 12=0000000c 16=0000000100000002 24=0000000100000002 32=075caf02 40=00000001 44=b0c0d0d0 300=00000001 304=000102030405060708090a0b0c0d0e0f 320=00008000 512=00000001 516=00000000aa200000";

const ROWS: &str = "
2048 4094 4096 | wrap | ok cycle 5 sectors 4 tail 17179869193 previous 77 unmount false / 7 105 0 496 / 7 105 4 1016
2560 4094 4096 | wrap 2048=ff | ok cycle 5 sectors 4 tail 17179869193 previous 77 unmount false / 7 105 0 496 / 7 105 4 1016
1024 2 4096 | unmount | ok cycle 1 sectors 2 tail 4294967298 previous 0 unmount true / 2965426384 170 32 0
1024 2 4 | unmount | ok cycle 1 sectors 2 tail 4294967298 previous 0 unmount true / 2965426384 170 32 0

# each field of a header that is wrong, and the place of the least
2048 4094 4096 | wrap 0=feedbabf 4=00000000 | bad 0
2048 4094 4096 | wrap 4=00000000 8=00000001 | bad 4
2048 4094 4096 | wrap 4=ee6b2801 | bad 4
2048 4094 4096 | wrap 4=ee6b2800 | bad 16
2048 4094 4096 | wrap 8=00000001 12=00000000 | bad 8
2048 4094 4096 | wrap 12=00000000 | bad 12
2048 4094 4096 | wrap 12=00008001 | bad 12
2048 4094 3 | wrap | bad 12
1024 2 1 | unmount | bad 12
2048 4094 4096 | wrap 16=0000000500000ffd | bad 16
2048 4093 4096 | wrap | bad 16
2048 4094 4096 | wrap 16=0000000600000ffe | bad 16
2048 4094 4096 | wrap 24=0000000400000008 | bad 32
2048 4094 4096 | wrap 32=d68fe513 | bad 32
2048 4094 4096 | wrap 32=00000000 | bad 32
2048 4094 4096 | wrap 300=00000002 | bad 32
2048 4094 4096 | wrap 300=00000002 32=5253b8b1 | bad 300
2048 4094 4096 | wrap 304=01010101010101010101010101010101 32=c4084a60 | bad 304
2048 4094 4096 | wrap 320=00000000 32=ad9c7e37 | bad 320
2048 4094 4096 | wrap 304=00000000000000000000000000000000 32=a883f0ef | ok cycle 5 sectors 4 tail 17179869193 previous 77 unmount false / 7 105 0 496 / 7 105 4 1016

# what no checksum covers: the rest of the header's sector
2048 4094 4096 | wrap 328=ff 511=ff | ok cycle 5 sectors 4 tail 17179869193 previous 77 unmount false / 7 105 0 496 / 7 105 4 1016

# one byte of the body, a word behind a stamp, and more operations than there are
2048 4094 4096 | wrap 2047=54 | bad 32
2048 4094 4096 | wrap 48=000003f9 | bad 32
2048 4094 4096 | wrap 40=00000003 32=03c25a02 | bad 2048

# a body sector as it was before, and with the checksum made right
2048 4094 4096 | wrap 512=00000004 | bad 32
2048 4094 4096 | wrap 1024=00000005 | bad 32
2048 4094 4096 | wrap 1536=00000005 | bad 32
2048 4094 4096 | wrap 512=00000004 32=3da57060 | bad 512
2048 4094 4096 | wrap 1024=00000004 32=665189ca | bad 1024
2048 4094 4096 | wrap 1536=00000004 32=437e9e81 | bad 1536
2048 4094 4098 | wrap | bad 1024

# bytes that end too early
0 4094 4096 | 0=fe | bad 0
3 4094 4096 | 0=feedba | bad 3
512 4094 4096 | wrap | bad 512
1024 4094 4096 | wrap | bad 1024
1536 4094 4096 | wrap | bad 1536
2047 4094 4096 | wrap | bad 2047
511 4094 4096 | wrap | bad 511
322 4094 4096 | wrap | bad 322

# a checksum of 0 passes for the unmount operation alone
1024 2 4096 | unmount 32=00000000 | ok cycle 1 sectors 2 tail 4294967298 previous 0 unmount true / 2965426384 170 32 0
1024 2 4096 | unmount 32=00000000 520=69 | bad 32
1024 2 4096 | unmount 32=00000000 521=10 | bad 32
1024 2 4096 | unmount 32=e6438b99 520=69 | ok cycle 1 sectors 2 tail 4294967298 previous 0 unmount false / 2965426384 105 32 0
";

/// The bytes of a row's pieces, of which those past the end are left out.
fn pieces(alloc: Global, length: usize, words: &str) -> Result<Vec<u8>, RowFault> {
    let mut all = Vec::new(alloc);
    for word in words.split_whitespace() {
        match word {
            "wrap" => put_all(alloc, &mut all, WRAP)?,
            "unmount" => put_all(alloc, &mut all, UNMOUNT)?,
            _ => put(alloc, &mut all, word)?,
        }
    }
    all.resize(length, 0)?;
    Ok(all)
}

fn put_all(alloc: Global, all: &mut Vec<u8>, words: &str) -> Result<(), RowFault> {
    for word in words.split_whitespace() {
        put(alloc, all, word)?;
    }
    Ok(())
}

/// Puts a piece `PLACE=BYTES`, behind as many zeros as it needs.
fn put(alloc: Global, all: &mut Vec<u8>, word: &str) -> Result<(), RowFault> {
    let (place, spelled) = word.split_once('=').ok_or(RowFault::Word)?;
    let place: u16 = place.parse()?;
    let piece = bytes(alloc, spelled)?;
    for (byte, at) in piece.iter().zip(usize::from(place)..) {
        put_byte(all, at, *byte)?;
    }
    Ok(())
}

fn put_byte(all: &mut Vec<u8>, at: usize, byte: u8) -> Result<(), RowFault> {
    if at >= all.len() && at < 65_536 {
        all.resize(at + 1, 0)?;
    }
    if let Some(place) = all.get_mut(at) {
        *place = byte;
    }
    Ok(())
}

/// What is answered of bytes.
fn told(alloc: Global, bytes: &[u8], sector: u32, ring: u32) -> Result<String, RowFault> {
    let record = match decode(alloc, bytes, sector, ring, &UUID) {
        Ok(record) => record,
        Err(RecFault::Bad { at }) => return Ok(format!(in alloc; "bad {at}")?),
        Err(RecFault::Memory) => return Err(RowFault::Memory),
    };
    let outline = outline(bytes, sector, ring, &UUID).map_err(|_| RowFault::Word)?;
    let mut text = format!(in alloc;
        "ok cycle {} sectors {} tail {} previous {} unmount {}",
        outline.cycle, outline.sectors, outline.tail, record.previous, outline.is_unmount
    )?;
    for op in record.ops.as_slice() {
        let length = op.bytes.as_slice().len();
        text.push_str(format!(in alloc;
            " / {} {} {} {length}",
            op.tid, op.client, op.flags
        )?.as_str())?;
    }
    Ok(text)
}

/// What is answered of a row, with what was wanted, if the line is one.
fn found(alloc: Global, line: &str) -> Result<Option<(String, &str)>, RowFault> {
    let Some((numbers, rest)) = line.split_once('|') else {
        return Ok(None);
    };
    let (words, answer) = rest.split_once('|').ok_or(RowFault::Fields)?;
    let mut numbers = numbers.split_whitespace();
    let length: u16 = numbers.next().ok_or(RowFault::Fields)?.parse()?;
    let sector: u32 = numbers.next().ok_or(RowFault::Fields)?.parse()?;
    let ring: u32 = numbers.next().ok_or(RowFault::Fields)?.parse()?;
    let bytes = pieces(alloc, usize::from(length), words)?;
    Ok(Some((told(alloc, &bytes, sector, ring)?, answer.trim())))
}

#[test]
fn records_are_read(rt: HostRuntime) -> Result<(), Fail> {
    for line in ROWS.lines() {
        if let Some((told, wanted)) = found(rt.alloc(), line)? {
            assert_eq!(rt; told.as_str(), wanted, "at {line}");
        }
    }
    Ok(())
}

#[test]
fn a_header_tells_how_many_sectors_there_are(rt: HostRuntime) -> Result<(), Fail> {
    let alloc = rt.alloc();
    for (length, words, sector, wanted) in [
        (512, "wrap", 4094, Some(4)),
        (512, "wrap 32=00000000", 4094, Some(4)),
        (512, "wrap", 4093, None),
        (1024, "unmount", 2, Some(2)),
        (512, "unmount 12=00000201", 2, Some(3)),
        (512, "unmount 12=00000000", 2, None),
        (512, "unmount 300=00000000", 2, None),
    ] {
        let header = pieces(alloc, length, words)?;
        if header.len() >= 512 {
            assert_eq!(rt; sectors_of(&header, sector, 4096), wanted, "at {words}");
        }
    }
    Ok(())
}
