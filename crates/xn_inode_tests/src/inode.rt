//! Superblocks, places, cores and extents as rows of text: two numbers, what is read, and what is told of it. Blank lines, and
//! those that begin with `#`, are no rows.
//!
//! What is read is words `PLACE=DIGITS`, which put bytes at a place, in an accepted sector. Its checksum is then right, but for
//! what stands behind `unsummed`. Extents are spelled whole, eight bytes a word.

ghost use Rattle.std.specs.Prelude.{◌+◌, ◌≤◌, IfOk};

use std::alloc::Global;
use std::process::Abort;
use std::test::Fail;
use xn_bytes::put_checksum;
use xn_inode::{Core, Extents, Super};

/// One group of 576 blocks, with the log in its last 512.
const SUPERBLOCK: &str = "0=58465342 4=00001000 8=0000000000000240 \
32=0001020304050607 40=08090a0b0c0d0e0f 48=0000000000000040 56=0000000000000080 \
84=00000240 88=00000001 96=00000200 100=0005 102=0200 104=0200 106=0008 123=03 124=0a \
216=00000081 248=1011121314151617 256=18191a1b1c1d1e1f";

/// The root directory, inode 128, with 192 bytes of data fork.
const DIRECTORY: &str = "0=494e 2=41ed 4=03 5=01 16=00000002 56=000000000000000f \
64=0000000000000003 82=18 83=01 92=00000001 152=0000000000000080 \
160=0001020304050607 168=08090a0b0c0d0e0f 176=07";

const UUID: [u8; 16] = [0, 1, 2, 3, 4, 5, 6, 7, 8, 9, 10, 11, 12, 13, 14, 15];

/// The image's sectors and the sector's bytes; the field that is not accepted, or the root, the log's first sector and length,
/// the groups and their blocks, the bits of a group's blocks and of a block's inodes, whether inodes are sparse, and the uuids.
const SUPERBLOCKS: &str = r"
4608 512 | | 128 512 4096 1 576 10 3 false [0, 1, 2, 3, 4, 5, 6, 7, 8, 9, 10, 11, 12, 13, 14, 15] [0, 1, 2, 3, 4, 5, 6, 7, 8, 9, 10, 11, 12, 13, 14, 15]
# META_UUID, SPINODES
4608 512 | 216=00000085 | 128 512 4096 1 576 10 3 false [0, 1, 2, 3, 4, 5, 6, 7, 8, 9, 10, 11, 12, 13, 14, 15] [16, 17, 18, 19, 20, 21, 22, 23, 24, 25, 26, 27, 28, 29, 30, 31]
4608 512 | 216=00000083 | 128 512 4096 1 576 10 3 true [0, 1, 2, 3, 4, 5, 6, 7, 8, 9, 10, 11, 12, 13, 14, 15] [0, 1, 2, 3, 4, 5, 6, 7, 8, 9, 10, 11, 12, 13, 14, 15]
# no sectors, a short sector, a short image, the checksum
0 512 | | field 1
4608 511 | | field 1
4607 512 | | field 13
4608 512 | unsummed 500=01 | field 2
# the magic
4608 512 | 0=58465341 | field 1
# case folding, version 4
4608 512 | 100=4005 | field 3
4608 512 | 100=0004 | field 3
# the sizes of blocks, sectors and inodes
4608 512 | 4=00000800 | field 4
4608 512 | 102=0400 | field 5
4608 512 | 104=0400 | field 6
# no groups, small groups
4608 512 | 88=00000000 | field 7
4608 512 | 84=0000003f | field 7
# more data blocks than groups hold, no data blocks
4608 512 | 8=0000000000000241 | field 7
4608 512 | 8=0000000000000000 | field 7
# one bit more than a group's blocks need
4608 512 | 124=0b | field 7
# directory blocks
4608 512 | 192=01 | field 8
# no log, a short log, a log past its group, the log's sector size
4608 512 | 48=0000000000000000 | field 9
4608 512 | 96=000001ff | field 9
4608 512 | 96=00000201 | field 9
4608 512 | 194=1000 | field 9
# NEEDSREPAIR, no PARENT, no FTYPE, an unknown feature
4608 512 | 216=00000091 | field 10
4608 512 | 216=00000001 | field 10
4608 512 | 216=00000080 | field 10
4608 512 | 216=00000181 | field 10
# an unknown read-only feature, a feature of the log
4608 512 | 212=00000010 | field 11
4608 512 | 220=00000002 | field 11
# the root
4608 512 | 56=0000000000001200 | field 12
";

/// The image's sectors and a number; its sector as that of a block and of an inode, where it is one, and whether it is one of
/// the superblock's own inodes.
const PLACES: &str = r"
# two groups of 4,000 blocks
64000 4112 | 14=1f40 54=0bb8 86=0fa0 91=02 124=0c | Some(32128) Some(4112) false
64000 32896 | 14=1f40 54=0bb8 86=0fa0 91=02 124=0c | None Some(32128) false
64000 32899 | 14=1f40 54=0bb8 86=0fa0 91=02 124=0c | None Some(32131) false
64000 3999 | 14=1f40 54=0bb8 86=0fa0 91=02 124=0c | Some(31992) Some(3999) false
64000 4000 | 14=1f40 54=0bb8 86=0fa0 91=02 124=0c | None Some(4000) false
64000 4096 | 14=1f40 54=0bb8 86=0fa0 91=02 124=0c | Some(32000) Some(4096) false
64000 8192 | 14=1f40 54=0bb8 86=0fa0 91=02 124=0c | None Some(8192) false

# an own inode at each of its places, and the two numbers that name none
4608 129 | 64=0000000000000081 | Some(1032) Some(129) true
4608 129 | 72=0000000000000081 | Some(1032) Some(129) true
4608 129 | 160=0000000000000081 | Some(1032) Some(129) true
4608 129 | 168=0000000000000081 | Some(1032) Some(129) true
4608 129 | 232=0000000000000081 | Some(1032) Some(129) true
4608 0 | 64=0000000000000000 | Some(0) Some(0) false
4608 0 | 72=0000000000000000 | Some(0) Some(0) false
4608 0 | 160=0000000000000000 | Some(0) Some(0) false
4608 0 | 168=0000000000000000 | Some(0) Some(0) false
4608 0 | 232=0000000000000000 | Some(0) Some(0) false
4608 18446744073709551615 | 64=ffffffffffffffff | None None false
4608 18446744073709551615 | 72=ffffffffffffffff | None None false
4608 18446744073709551615 | 160=ffffffffffffffff | None None false
4608 18446744073709551615 | 168=ffffffffffffffff | None None false
4608 18446744073709551615 | 232=ffffffffffffffff | None None false
";

/// The inode's number and bytes; the rule that it breaks, or its kind, links, size, blocks and generation, the fork offset, the
/// formats and the extents of the data fork and of the attribute fork, and the length of the data fork.
const CORES: &str = r"
128 512 | | Dir 2 15 3 1 24 1 1 0 0 Some(192)
# one fork
128 512 | 82=00 | Dir 2 15 3 1 0 1 1 0 0 Some(336)
# extents are counted in other places with large counts
128 512 | 24=0000000100000001 76=00010002 80=0003 120=0000000000000000 | Dir 2 15 3 1 24 1 1 65538 3 Some(192)
128 512 | 24=0000000100000001 76=00010002 80=0003 120=0000000000000010 | Dir 2 15 3 1 24 1 1 4294967297 65538 Some(192)
# the magic, the version, the number, the uuid
128 512 | 0=494f | rule 10
128 512 | 4=02 | rule 10
128 512 | 152=0000000000000081 | rule 10
128 512 | 168=0000000000000000 | rule 10
# a short core, the checksum
128 175 | | rule 10
128 512 | unsummed 500=01 | rule 10
# no kind, no bytes for the attribute fork
128 512 | 2=0000 | rule 11
128 512 | 82=2a | rule 11
# a directory's data fork is a tree, the attribute fork is one
128 512 | 5=03 | rule 11
128 512 | 83=03 | rule 11
# a regular file's data fork may be a tree
128 512 | 2=81a4 5=03 | Reg 2 15 3 1 24 3 1 0 0 Some(192)
";

/// How many records are read, and a file block; the record that is none, or how many there are, the first, and where the file
/// block is mapped.
const EXTENTS: &str = r"
# file block 8,388,608 at block 100, one block
1 8388608 | 0000000100000000 000000000c800001 | 1 (8388608, 100, 1) Some(100)
1 8388609 | 0000000100000000 000000000c800001 | 1 (8388608, 100, 1) None
1 8388607 | 0000000100000000 000000000c800001 | 1 (8388608, 100, 1) None
# two in order
2 8388609 | 0000000100000000 000000000c800001 0000000100000200 000000000c800001 | 2 (8388608, 100, 1) Some(100)
# cut off
2 0 | 0000000100000000 000000000c800001 | Bad { at: 1 }
# flagged, empty, the same twice
2 0 | 8000000100000000 000000000c800001 0000000100000000 000000000c800001 | Bad { at: 0 }
2 0 | 0000000100000000 000000000c800000 0000000100000000 000000000c800001 | Bad { at: 0 }
2 0 | 0000000100000000 000000000c800001 0000000100000000 000000000c800001 | Bad { at: 1 }
";

/// What the rows of a table are read as.
#[derive(Clone, Copy, Debug)]
enum Read {
    Superblock,
    Place,
    Core,
    Extents,
}

/// Compares each row with what is told, and names the first that differs or is none.
fn check_rows<R: Abort + AllocGlobal>(rt: &R, read: Read, rows: &str) {
    for line in rows.lines() {
        if line.is_empty() || line.starts_with('#') {
            continue;
        }
        match told(rt.alloc(), read, line) {
            Ok((told, wanted)) => assert_eq!(rt; told.as_str(), wanted, "{read:?}: {line}"),
            Err(_) => panic!(rt; "{read:?}, no row: {line}"),
        }
    }
}

/// What is told of a row, and what it wants.
fn told(alloc: Global, read: Read, line: &str) -> Result<(String, &str), Fail> {
    let (numbers, rest) = line.split_once('|').ok_or("numbers")?;
    let (words, wanted) = rest.split_once('|').ok_or("words")?;
    let (first, second) = numbers.trim().split_once(' ').ok_or("two numbers")?;
    let (first, second) = (first.parse()?, second.parse()?);
    let told = match read {
        Read::Superblock => superblock(alloc, first, second, words)?,
        Read::Place => place(alloc, first, second, words)?,
        Read::Core => core(alloc, first, second, words)?,
        Read::Extents => extents(alloc, first, second, words)?,
    };
    Ok((told, wanted.trim()))
}

/// The number that hexadecimal digits spell, and how many bytes.
fn spelled(digits: &str) -> Result<(u64, usize), Fail>
    ensures { IfOk result (λ spelled. spelled.1 ≤ 8) }
{
    if digits.len() % 2 != 0 || digits.len() > 16 {
        return Err(Fail::from("digits"));
    }
    Ok((u64::from_str_radix(digits, 16)?, digits.len() / 2))
}

fn put_word(bytes: &mut [u8; 512], word: &str) -> Result<(), Fail> {
    let (place, digits) = word.split_once('=').ok_or("a place")?;
    let (number, width) = spelled(digits)?;
    let place = place.parse::<u16>()? as usize;
    if place + width > 512 {
        return Err(Fail::from("a place"));
    }
    bytes[place..place + width].copy_from_slice(&number.to_be_bytes()[8 - width..]);
    Ok(())
}

fn put_words(bytes: &mut [u8; 512], words: &str) -> Result<(), Fail> {
    for word in words.split_whitespace() {
        put_word(bytes, word)?;
    }
    Ok(())
}

/// The sector that words change, with its checksum at a place.
fn changed(own: &str, words: &str, checksum_place: usize) -> Result<[u8; 512], Fail>
    requires { checksum_place + 4 ≤ 512 }
{
    let (words, unsummed) = words.split_once("unsummed").unwrap_or((words, ""));
    let mut bytes = [0; 512];
    put_words(&mut bytes, own)?;
    put_words(&mut bytes, words)?;
    put_checksum(&mut bytes, checksum_place);
    put_words(&mut bytes, unsummed)?;
    Ok(bytes)
}

/// The first bytes.
fn front(bytes: &[u8; 512], count: u64) -> Result<&[u8], Fail> {
    if count > 512 {
        return Err(Fail::from("a length"));
    }
    Ok(&bytes[..count as usize])
}

fn superblock(alloc: Global, sectors: u64, length: u64, words: &str) -> Result<String, Fail> {
    let sector = changed(SUPERBLOCK, words, 224)?;
    match Super::read(front(&sector, length)?, sectors) {
        Ok(accepted) => superblock_told(alloc, &accepted),
        Err(fault) => Ok(format!(in alloc; "field {}", fault.field)?),
    }
}

fn superblock_told(alloc: Global, accepted: &Super) -> Result<String, Fail> {
    Ok(format!(in alloc;
        "{} {} {} {} {} {} {} {} {:?} {:?}",
        accepted.root(),
        accepted.first_log_sector(),
        accepted.log_sectors(),
        accepted.agcount(),
        accepted.agblocks(),
        accepted.agblklog(),
        accepted.inopblog(),
        accepted.sparse(),
        accepted.uuid(),
        accepted.meta_uuid(),
    )?)
}

fn place(alloc: Global, sectors: u64, number: u64, words: &str) -> Result<String, Fail> {
    let sector = changed(SUPERBLOCK, words, 224)?;
    let accepted = Super::read(&sector, sectors).ok().ok_or("accepted")?;
    let mut block = None;
    if accepted.is_block(number) {
        block = Some(accepted.sector_of_block(number));
    }
    let mut inode = None;
    if accepted.is_inode(number) {
        inode = Some(accepted.sector_of_inode(number));
    }
    let is_own = accepted.own_inode(number);
    Ok(format!(in alloc; "{block:?} {inode:?} {is_own}")?)
}

fn core(alloc: Global, number: u64, length: u64, words: &str) -> Result<String, Fail> {
    let inode = changed(DIRECTORY, words, 100)?;
    let inode = front(&inode, length)?;
    let core = match Core::read(inode, number, &UUID) {
        Ok(core) => core,
        Err(fault) => return Ok(format!(in alloc; "rule {}", fault.rule)?),
    };
    let fork = core.data_fork(inode);
    // `None` where it isn't what stands behind the core
    let length = inode[176..].strip_prefix(fork).map(|_| fork.len());
    let told = core_told(alloc, &core)?;
    Ok(format!(in alloc; "{told} {length:?}")?)
}

fn core_told(alloc: Global, core: &Core) -> Result<String, Fail> {
    Ok(format!(in alloc;
        "{:?} {} {} {} {} {} {} {} {} {}",
        core.kind(),
        core.nlink(),
        core.size(),
        core.nblocks(),
        core.generation(),
        core.forkoff(),
        core.data_format(),
        core.attr_format(),
        core.data_extents(),
        core.attr_extents(),
    )?)
}

fn extents(alloc: Global, count: u64, file_block: u64, words: &str) -> Result<String, Fail> {
    let mut records = Vec::new(alloc);
    for word in words.split_whitespace() {
        records.extend_from_slice(&spelled(word)?.0.to_be_bytes())?;
    }
    let extents = match Extents::read(alloc, &records, count) {
        Ok(extents) => extents,
        Err(fault) => return Ok(format!(in alloc; "{fault:?}")?),
    };
    let count = extents.count();
    if count == 0 {
        return Err(Fail::from("no extents"));
    }
    let (first, block) = (extents.run(0), extents.block_at(file_block));
    Ok(format!(in alloc; "{count} {first:?} {block:?}")?)
}

#[test]
fn superblocks(rt: HostRuntime) {
    check_rows(&rt, Read::Superblock, SUPERBLOCKS);
}

#[test]
fn places(rt: HostRuntime) {
    check_rows(&rt, Read::Place, PLACES);
}

#[test]
fn cores(rt: HostRuntime) {
    check_rows(&rt, Read::Core, CORES);
}

#[test]
fn lists_of_extents(rt: HostRuntime) {
    check_rows(&rt, Read::Extents, EXTENTS);
}

/// File blocks 8,388,608 and 8,388,610, each mapped to block 100.
const TWO_RECORDS: [u64; 4] = [0x1_0000_0000, 0xc80_0001, 0x1_0000_0400, 0xc80_0001];

#[test]
fn mapped_around(rt: HostRuntime) -> Result<(), Fail> {
    let mut bytes = [0; 32];
    bytes[..8].copy_from_slice(&TWO_RECORDS[0].to_be_bytes());
    bytes[8..16].copy_from_slice(&TWO_RECORDS[1].to_be_bytes());
    bytes[16..24].copy_from_slice(&TWO_RECORDS[2].to_be_bytes());
    bytes[24..].copy_from_slice(&TWO_RECORDS[3].to_be_bytes());
    let extents = Extents::read(rt.alloc(), &bytes, 2)
        .ok()
        .ok_or("two records with a gap")?;
    assert_eq!(rt; extents.next_mapped(0, 8_388_609), Some((8_388_608, 100)));
    assert_eq!(rt; extents.next_mapped(0, 8_388_608), None);
    assert_eq!(rt;
        extents.next_mapped(8_388_609, u64::MAX),
        Some((8_388_610, 100))
    );
    assert_eq!(rt; extents.last_mapped(8_388_608), None);
    assert_eq!(rt; extents.last_mapped(8_388_610), Some(8_388_608));
    assert_eq!(rt; extents.end(), 8_388_611);
    Ok(())
}

#[test]
fn none_mapped(rt: HostRuntime) -> Result<(), Fail> {
    let extents = Extents::read(rt.alloc(), &[], 0).ok().ok_or("no records")?;
    assert_eq!(rt; extents.next_mapped(0, u64::MAX), None);
    assert_eq!(rt; extents.last_mapped(u64::MAX), None);
    assert_eq!(rt; extents.end(), 0);
    Ok(())
}
