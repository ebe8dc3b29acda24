//! Blocks of directory entries as rows of text: what is asked of a block, its changes, and what is told. Blank lines, and those
//! that begin with `#`, are no rows.
//!
//! Blocks and changes are words `PLACE=BYTES`, which put bytes at a place: hexadecimal digits, at most 16, or text between `'`.
//! The checksum is then right, but for what stands behind `unsummed`.

ghost use Rattle.std.specs.Prelude.{◌≡◌, length};

use std::alloc::Global;
use std::process::Abort;
use std::test::Fail;
use xn_bytes::put_checksum;
use xn_data::{DataBlock, DataEntry};

/// Root 128 in block form, with eleven names, which stand for the inodes 144 to 154.
const BLOCK: &str = "0=58444233 8=0000000000001080 40=0000000000000080 48=0168 50=0e28 \
64=0000000000000080 72=01 73='.' 74=02 78=0040 \
80=0000000000000080 88=02 89='..' 91=02 94=0050 \
96=0000000000000090 104=0a 105='entry-0001' 115=01 118=0060 \
120=0000000000000091 128=0a 129='entry-0002' 139=01 142=0078 \
144=0000000000000092 152=0a 153='entry-0003' 163=01 166=0090 \
168=0000000000000093 176=0a 177='entry-0004' 187=01 190=00a8 \
192=0000000000000094 200=0a 201='entry-0005' 211=01 214=00c0 \
216=0000000000000095 224=0a 225='entry-0006' 235=01 238=00d8 \
240=0000000000000096 248=0a 249='entry-0007' 259=01 262=00f0 \
264=0000000000000097 272=0a 273='entry-0008' 283=01 286=0108 \
288=0000000000000098 296=0a 297='entry-0009' 307=01 310=0120 \
312=0000000000000099 320=0a 321='entry-0010' 331=01 334=0138 \
336=000000000000009a 344=0a 345='entry-0011' 355=01 358=0150 \
360=ffff0e28 3982=0168 \
3984=0000002e00000008 3992=0000172e0000000a \
4000=38e5d34800000027 4008=38e5d3490000002a 4016=38e5d3c000000021 4024=38e5d3c100000024 \
4032=38e5d3c90000000c 4040=38e5d3ca0000000f 4048=38e5d3cb00000012 4056=38e5d3cc00000015 \
4064=38e5d3cd00000018 4072=38e5d3ce0000001b 4080=38e5d3cf0000001e 4088=0000000d";

/// Free regions of 64, 64 and 3,856 bytes, each with an entry behind it.
const PLAIN: &str = "0=58444433 48=00e0 50=0f10 52=0040 54=0040 56=0090 58=0040 \
64=ffff0040 126=0040 \
128=0000000000000083 136=01 137='a' 138=01 142=0080 \
144=ffff0040 206=0090 \
208=0000000000000084 216=01 217='b' 218=02 222=00d0 \
224=ffff0f10 4078=00e0 \
4080=0000000000000085 4088=01 4089='c' 4090=03 4094=0ff0";

/// Rows of the block in block form. `read` tells whether it is block form, its place, uuid and owner, the stale leaf entries, the
/// greatest free region, the count of leaf entries, and each entry: position, inode, kind and name.
const BLOCK_ROWS: &str = r"
read | | true 4224 [0, 0, 0, 0, 0, 0, 0, 0, 0, 0, 0, 0, 0, 0, 0, 0] 128 0 3624 13 / 64 128 Dir . / 80 128 Dir .. / 96 144 Reg entry-0001 / 120 145 Reg entry-0002 / 144 146 Reg entry-0003 / 168 147 Reg entry-0004 / 192 148 Reg entry-0005 / 216 149 Reg entry-0006 / 240 150 Reg entry-0007 / 264 151 Reg entry-0008 / 288 152 Reg entry-0009 / 312 153 Reg entry-0010 / 336 154 Reg entry-0011

# the leaf entries of a hash: each name's, and one that no name has
hash:0000002e | | 46 8
hash:0000172e | | 5934 10
hash:38e5d348 | | 954585928 39
hash:38e5d349 | | 954585929 42
hash:38e5d3c0 | | 954586048 33
hash:38e5d3c1 | | 954586049 36
hash:38e5d3c9 | | 954586057 12
hash:38e5d3ca | | 954586058 15
hash:38e5d3cb | | 954586059 18
hash:38e5d3cc | | 954586060 21
hash:38e5d3cd | | 954586061 24
hash:38e5d3ce | | 954586062 27
hash:38e5d3cf | | 954586063 30
hash:0000172f | |
# the entry at a position, within it, and in the free region behind it
at:0150 | | 336 154 Reg entry-0011
at:0158 | | none
at:0168 | | none

# the magic, the checksum, the count of leaf entries
read | 0=0000 | fault 0
read | unsummed 16=0000000000000001 | fault 4
read | 4090=01f8 | fault 4088
# an entry's place, a free region's length and place, an entry's kind
read | 118=0068 | fault 118
read | 362=0000 | fault 362
read | 362=0004 | fault 362
read | 362=0e24 | fault 362
read | 362=0e30 | fault 362
read | 3982=0170 | fault 3982
read | 115=0000 | fault 115
read | 115=0800 | fault 115
# the pairs of the header
read | 48=0170 | fault 48
read | 50=0e20 | fault 50
read | 52=0168 | fault 52
read | 54=0008 | fault 54
read | 56=0168 | fault 56
read | 58=0008 | fault 58
";

/// Rows of the other block.
const PLAIN_ROWS: &str = r"
read | | false 0 [0, 0, 0, 0, 0, 0, 0, 0, 0, 0, 0, 0, 0, 0, 0, 0] 0 0 3856 0 / 128 131 Reg a / 208 132 Dir b / 4080 133 Chr c
# regions of equal length in the other order
read | 52=0090 56=0040 | false 0 [0, 0, 0, 0, 0, 0, 0, 0, 0, 0, 0, 0, 0, 0, 0, 0] 0 0 3856 0 / 128 131 Reg a / 208 132 Dir b / 4080 133 Chr c

# two free regions that touch
read | 64=ffff0020 94=0040 96=ffff0020 126=0060 | fault 96
# a name of 5 bytes in the last 16, and no place for an entry
read | 4088=0563 | fault 4088
read | 224=ffff0f18 4086=00e0 | fault 4088
# a region that is named twice, and one that is not the greatest
read | 56=0040 | fault 56
read | 48=0040 | fault 48
";

/// What is told of the row that a line is, and what it wants.
fn told<'a>(alloc: Global, own: &str, line: &'a str) -> Result<(String, &'a str), Fail> {
    let (asked, rest) = line.split_once('|').ok_or("a question")?;
    let (changes, wanted) = rest.split_once('|').ok_or("changes")?;
    let bytes = changed(own, changes)?;
    let told = match DataBlock::read(&bytes) {
        Ok(block) => answer(alloc, &block, asked.trim())?,
        Err(fault) => format!(in alloc; "fault {}", fault.at)?,
    };
    Ok((told, wanted.trim()))
}

fn put_word(bytes: &mut [u8; 4096], word: &str) -> Result<(), Fail> {
    let (place, spelled) = word.split_once('=').ok_or("a place")?;
    let place = place.parse::<u16>()? as usize;
    if let Some((_, text)) = spelled.split_once('\'') {
        return put(
            bytes,
            place,
            text.strip_suffix('\'').ok_or("a text")?.as_bytes(),
        );
    }
    if spelled.len() % 2 != 0 || spelled.len() > 16 {
        return Err(Fail::from("digits"));
    }
    let number = u64::from_str_radix(spelled, 16)?.to_be_bytes();
    put(bytes, place, &number[8 - spelled.len() / 2..])
}

fn put(bytes: &mut [u8], place: usize, new: &[u8]) -> Result<(), Fail>
    ensures { length bytes.new ≡ length bytes.old }
{
    let end = place.checked_add(new.len()).ok_or("a place")?;
    if end > bytes.len() {
        return Err(Fail::from("a place"));
    }
    bytes[place..end].copy_from_slice(new);
    Ok(())
}

fn put_words(bytes: &mut [u8; 4096], words: &str) -> Result<(), Fail> {
    for word in words.split_whitespace() {
        put_word(bytes, word)?;
    }
    Ok(())
}

/// The block that words change.
fn changed(own: &str, changes: &str) -> Result<[u8; 4096], Fail> {
    let (changes, unsummed) = changes.split_once("unsummed").unwrap_or((changes, ""));
    let mut bytes = [0; 4096];
    put_words(&mut bytes, own)?;
    put_words(&mut bytes, changes)?;
    put_checksum(&mut bytes, 4);
    put_words(&mut bytes, unsummed)?;
    Ok(bytes)
}

fn answer(alloc: Global, block: &DataBlock<'_>, asked: &str) -> Result<String, Fail> {
    if asked == "read" {
        return block_told(alloc, block);
    }
    let (call, digits) = asked.split_once(':').ok_or("a question")?;
    let number = u32::from_str_radix(digits, 16)?;
    match call {
        "hash" => leaves_told(alloc, block, number),
        "at" => match block.entry_at(u64::from(number)) {
            Some(entry) => entry_told(alloc, &entry),
            None => Ok(String::from_str(alloc, "none")?),
        },
        _ => Err(Fail::from("a question")),
    }
}

fn leaves_told(alloc: Global, block: &DataBlock<'_>, hash: u32) -> Result<String, Fail> {
    let mut told = String::new(alloc);
    for (hash, address) in block.tail_with_hash(hash) {
        told.push_str(&format!(in alloc; "{hash} {address}")?)?;
    }
    Ok(told)
}

fn block_told(alloc: Global, block: &DataBlock<'_>) -> Result<String, Fail> {
    let mut told = format!(in alloc;
        "{} {} {:?} {} {} {} {}",
        block.is_block_form(),
        block.place(),
        block.uuid(),
        block.owner(),
        block.stale(),
        block.largest_free(),
        block.tail().count(),
    )?;
    for entry in block.entries() {
        told.push_str(" / ")?;
        told.push_str(&entry_told(alloc, &entry)?)?;
    }
    Ok(told)
}

fn entry_told(alloc: Global, entry: &DataEntry<'_>) -> Result<String, Fail> {
    let name = str::from_utf8(entry.name).ok().ok_or("a text")?;
    let (position, ino, kind) = (entry.position, entry.ino, entry.kind);
    Ok(format!(in alloc; "{position} {ino} {kind:?} {name}")?)
}

/// Compares each row with what is told, and names the first that differs or is none.
fn check_rows<R: Abort + AllocGlobal>(rt: &R, own: &str, rows: &str) {
    for line in rows.lines() {
        if line.is_empty() || line.starts_with('#') {
            continue;
        }
        match told(rt.alloc(), own, line) {
            Ok((told, wanted)) => assert_eq!(rt; told.as_str(), wanted, "{line}"),
            Err(_) => panic!(rt; "no row: {line}"),
        }
    }
}

#[test]
fn block_form(rt: HostRuntime) {
    check_rows(&rt, BLOCK, BLOCK_ROWS);
}

#[test]
fn plain_form(rt: HostRuntime) {
    check_rows(&rt, PLAIN, PLAIN_ROWS);
}
