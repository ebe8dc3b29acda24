//! Lines of words and replies as rows of text: what is given, and what is read or told. Blank lines, and those that begin with
//! `#`, are no rows.

use std::alloc::Global;
use std::test::Fail;
use xn_bytes::{Kind, Name};
use xn_meaning::Errno;
use xn_text::{
    Lines, ListLine, Manifest, ManifestFault, ParentLine, ParentLines, Reply, Words, WordsFault,
    image_line, manifest_line, usage_line,
};

/// Words, in which `{}` is nothing and `{_}` a space, and what they are read as: `usage`, `check`, the number of a list or of parents, or a path's
/// bytes.
const WORDS: &str = r"
| usage
list | usage
apply IMAGE | usage
--help | usage
list -h MANIFEST 128 | usage
list -- IMAGE MANIFEST 128 | usage
list -- MANIFEST 128 | usage
list - MANIFEST 128 | usage
list IMAGE MANIFEST | usage
list IMAGE MANIFEST 128 128 | usage
lists IMAGE MANIFEST 128 | usage
list {} MANIFEST 128 | usage
list IMAGE -MANIFEST 128 | usage
list IMAGE MANIFEST {} | usage
list IMAGE MANIFEST 0128 | usage
list IMAGE MANIFEST +128 | usage
list IMAGE MANIFEST 18446744073709551616 | usage
resolve IMAGE MANIFEST | usage
check IMAGE MANIFEST | check
check IMAGE | usage
check IMAGE MANIFEST 128 | usage
check IMAGE {} | usage
check -IMAGE MANIFEST | usage
checks IMAGE MANIFEST | usage
resolve IMAGE MANIFEST / / | usage
resolve IMAGE MANIFEST -x | usage
resolve IMAGE MANIFEST {} | usage
resolve IMAGE MANIFEST a\zz | usage
resolve IMAGE MANIFEST a\5C | usage
resolve IMAGE MANIFEST a\ | usage
resolve IMAGE MANIFEST a\2fb | usage
resolve IMAGE MANIFEST a{_}b | usage
parents | usage
parent IMAGE MANIFEST 128 | usage
Parents IMAGE MANIFEST 128 | usage
parents IMAGE MANIFEST | usage
parents IMAGE MANIFEST 128 128 | usage
parents -- IMAGE MANIFEST 128 | usage
parents {} MANIFEST 128 | usage
parents IMAGE -MANIFEST 128 | usage
parents IMAGE MANIFEST {} | usage
parents IMAGE MANIFEST /a | usage
parents IMAGE MANIFEST 0128 | usage
parents IMAGE MANIFEST +128 | usage
parents IMAGE MANIFEST 128{_} | usage
parents IMAGE MANIFEST 18446744073709551616 | usage

list IMAGE MANIFEST 0 | list 0
list IMAGE MANIFEST 128 | list 128
list IMAGE MANIFEST 18446744073709551615 | list 18446744073709551615

parents IMAGE MANIFEST 0 | parents 0
parents IMAGE MANIFEST 128 | parents 128
parents list resolve 131 | parents 131
parents IMAGE MANIFEST 18446744073709551615 | parents 18446744073709551615

resolve IMAGE MANIFEST / | [47]
resolve IMAGE MANIFEST // | [47, 47]
resolve IMAGE MANIFEST /home/f042 | [47, 104, 111, 109, 101, 47, 102, 48, 52, 50]
resolve IMAGE MANIFEST a\5cb | [97, 92, 98]
resolve IMAGE MANIFEST `\c1\00 | [96, 193, 0]
";

/// Each error, and the line that tells it.
const ERRORS: &str = r"
EPERM | > error 1 EPERM
ENOENT | > error 2 ENOENT
EBUSY | > error 16 EBUSY
EEXIST | > error 17 EEXIST
ENOTDIR | > error 20 ENOTDIR
EISDIR | > error 21 EISDIR
EINVAL | > error 22 EINVAL
EFBIG | > error 27 EFBIG
ENOSPC | > error 28 ENOSPC
ENAMETOOLONG | > error 36 ENAMETOOLONG
ENOTEMPTY | > error 39 ENOTEMPTY
";

/// A directory, its generation and the bytes of a name, and the line that tells them.
const PARENTS: &str = r"
128 1 97 | 128 1 a
0 0 102 48 52 50 | 0 0 f042
4294967428 4294967295 98 32 | 4294967428 4294967295 b\20
18446744073709551615 305419896 96 193 255 | 18446744073709551615 305419896 `\c1\ff
131 7 92 33 126 127 | 131 7 \5c!~\7f
131 7 195 169 10 1 | 131 7 \c3\a9\0a\01
";

/// Texts of manifests, in which `/` is a newline, `_` a space, `^` a carriage return and `~` the byte 0xff, and what they are read
/// as: the chunks and the runs, or the first line that is outside the grammar.
const MANIFESTS: &str = r"
 | line 1
/ | line 1
_ | line 1
xfsns-manifest 1 | [] []
xfsns-manifest 1/ | [] []
xfsns-manifest 1_ | line 1
_xfsns-manifest 1/ | line 1
xfsns-manifest__1/ | line 1
xfsns-manifest 1^/ | line 1
xfsns-manifest/ | line 1
xfsns-manifest 2/ | line 1
Xfsns-manifest 1/ | line 1
/xfsns-manifest 1/ | line 1
chunk 128 0000000000000000/ | line 1
xfsns-manifest 1/xfsns-manifest 1/ | line 2

xfsns-manifest 1/chunk 128 0000000000000000/pool 512 64/ | [(128, 0)] [(512, 64)]
xfsns-manifest 1/chunk 128 0000000000000000/pool 512 64 | [(128, 0)] [(512, 64)]
xfsns-manifest 1/chunk 128 0000000000000000/ | [(128, 0)] []
xfsns-manifest 1/pool 512 64/ | [] [(512, 64)]
xfsns-manifest 1/pool 512 64/chunk 128 0000000000000000/ | line 3
xfsns-manifest 1/chunk 128 0000000000000000/pool 512 64/chunk 192 0000000000000000/ | line 4
xfsns-manifest 1/chunk 128 0000000000000000/xfsns-manifest 1/ | line 3

xfsns-manifest 1/chunk 128 0000000000000000/chunk 192 0000000000000000/ | [(128, 0), (192, 0)] []
xfsns-manifest 1/chunk 129 0000000000000000/chunk 193 0000000000000000/ | [(129, 0), (193, 0)] []
xfsns-manifest 1/chunk 128 0000000000000000/chunk 191 0000000000000000/ | line 3
xfsns-manifest 1/chunk 128 0000000000000000/chunk 128 0000000000000000/ | line 3
xfsns-manifest 1/chunk 192 0000000000000000/chunk 128 0000000000000000/ | line 3
xfsns-manifest 1/chunk 72057594037927936 0000000000000000/ | [(72057594037927936, 0)] []
xfsns-manifest 1/chunk 72057594037927937 0000000000000000/ | line 2
xfsns-manifest 1/chunk 18446744073709551615 0000000000000000/ | line 2
xfsns-manifest 1/chunk 72057594037927936 0000000000000000/chunk 72057594037928000 0000000000000000/ | line 3

xfsns-manifest 1/chunk 0 0123456789abcdef/ | [(0, 81985529216486895)] []
xfsns-manifest 1/chunk 0 ffffffffffffffff/ | [(0, 18446744073709551615)] []
xfsns-manifest 1/chunk 0 8000000000000001/ | [(0, 9223372036854775809)] []
xfsns-manifest 1/chunk 0 000000000000000/ | line 2
xfsns-manifest 1/chunk 0 00000000000000000/ | line 2
xfsns-manifest 1/chunk 0 0123456789abcdeF/ | line 2
xfsns-manifest 1/chunk 0 000000000000000g/ | line 2
xfsns-manifest 1/chunk 0 000000000000000:/ | line 2
xfsns-manifest 1/chunk 0 +00000000000000f/ | line 2
xfsns-manifest 1/chunk 0 0x00000000000000/ | line 2

xfsns-manifest 1/chunk 0128 0000000000000000/ | line 2
xfsns-manifest 1/chunk 00 0000000000000000/ | line 2
xfsns-manifest 1/chunk +128 0000000000000000/ | line 2
xfsns-manifest 1/chunk -128 0000000000000000/ | line 2
xfsns-manifest 1/chunk 18446744073709551616 0000000000000000/ | line 2
xfsns-manifest 1/chunk 12a 0000000000000000/ | line 2
xfsns-manifest 1/pool 0512 64/ | line 2
xfsns-manifest 1/pool 512 064/ | line 2
xfsns-manifest 1/pool 512 +64/ | line 2
xfsns-manifest 1/pool 18446744073709551616 1/ | line 2
xfsns-manifest 1/pool 512 18446744073709551616/ | line 2

xfsns-manifest 1/chunk__128 0000000000000000/ | line 2
xfsns-manifest 1/chunk 128__0000000000000000/ | line 2
xfsns-manifest 1/chunk 128 0000000000000000_/ | line 2
xfsns-manifest 1/_chunk 128 0000000000000000/ | line 2
xfsns-manifest 1/chunk 128/ | line 2
xfsns-manifest 1/chunk/ | line 2
xfsns-manifest 1/chunk_ | line 2
xfsns-manifest 1/Chunk 128 0000000000000000/ | line 2
xfsns-manifest 1/pool__512 64/ | line 2
xfsns-manifest 1/pool 512__64/ | line 2
xfsns-manifest 1/pool 512 64_/ | line 2
xfsns-manifest 1/pool 512 64 1/ | line 2
xfsns-manifest 1/pool 512/ | line 2
xfsns-manifest 1/pool/ | line 2

xfsns-manifest 1// | line 2
xfsns-manifest 1//chunk 128 0000000000000000/ | line 2
xfsns-manifest 1/chunk 128 0000000000000000// | line 3
xfsns-manifest 1/chunk 128 0000000000000000//pool 512 64/ | line 3
xfsns-manifest 1/chunk 128 0000000000000000^/ | line 2
xfsns-manifest 1/pool 512 64^/ | line 2
xfsns-manifest 1/chünk 128 0000000000000000/ | line 2
xfsns-manifest 1/chunk 128 000000000000000~/ | line 2
xfsns-manifest 1/pool 512 64/~ | line 3
~ | line 1

xfsns-manifest 1/pool 512 0/ | line 2
xfsns-manifest 1/pool 0 1/ | [] [(0, 1)]
xfsns-manifest 1/pool 512 64/pool 576 1/ | [] [(512, 64), (576, 1)]
xfsns-manifest 1/pool 512 64/pool 575 1/ | line 3
xfsns-manifest 1/pool 512 64/pool 512 64/ | line 3
xfsns-manifest 1/pool 512 64/pool 0 1/ | line 3
xfsns-manifest 1/pool 72057594037927935 1/ | [] [(72057594037927935, 1)]
xfsns-manifest 1/pool 72057594021150720 16777216/ | [] [(72057594021150720, 16777216)]
xfsns-manifest 1/pool 72057594037927935 2/ | line 2
xfsns-manifest 1/pool 72057594037927936 1/ | line 2
xfsns-manifest 1/pool 18446744073709551615 1/ | line 2
xfsns-manifest 1/pool 0 18446744073709551615/ | line 2
xfsns-manifest 1/pool 0 16777216/ | [] [(0, 16777216)]
xfsns-manifest 1/pool 0 16777217/ | line 2
xfsns-manifest 1/pool 0 16777215/pool 16777215 1/ | [] [(0, 16777215), (16777215, 1)]
xfsns-manifest 1/pool 0 16777215/pool 16777215 2/ | line 3
xfsns-manifest 1/pool 0 16777216/pool 16777216 1/ | line 3
";

/// A chunk's mask, and the inodes of 128 to 191 that it lists of those next to its ends and in its middle.
const MASKS: &str = r"
0000000000000000 | 128 129 159 160 190 191
ffffffffffffffff |
0000000000000001 | 129 159 160 190 191
8000000000000000 | 128 129 159 160 190
0000000100000000 | 128 129 159 190 191
fffffffffffffffe | 128
7fffffffffffffff | 191
";

const ERRNOS: [Errno; 11] = [
    Errno::EPERM,
    Errno::ENOENT,
    Errno::EBUSY,
    Errno::EEXIST,
    Errno::ENOTDIR,
    Errno::EISDIR,
    Errno::EINVAL,
    Errno::EFBIG,
    Errno::ENOSPC,
    Errno::ENAMETOOLONG,
    Errno::ENOTEMPTY,
];

/// The word that a row spells.
fn word_of(alloc: Global, spelled: &str) -> Result<String, Fail> {
    match spelled.split_once('{') {
        Some((front, rest)) => {
            let (braces, back) = rest.split_once('}').ok_or("braces")?;
            let space = if braces.is_empty() { "" } else { " " };
            Ok(format!(in alloc; "{front}{space}{back}")?)
        }
        None => Ok(String::from_str(alloc, spelled)?),
    }
}

/// What the words of a row are read as, and what it wants.
fn told(alloc: Global, line: &str) -> Result<(String, &str), Fail> {
    let (spelled, wanted) = line.split_once('|').ok_or("words")?;
    let mut words = Vec::new(alloc);
    for word in spelled.split_whitespace() {
        words.push(word_of(alloc, word)?)?;
    }
    let told = match Words::read(alloc, &words) {
        Ok(Words::List { ino }) => format!(in alloc; "list {ino}")?,
        Ok(Words::Parents { ino }) => format!(in alloc; "parents {ino}")?,
        Ok(Words::Resolve { path }) => format!(in alloc; "{:?}", path.as_slice())?,
        Ok(Words::Check) => String::from_str(alloc, "check")?,
        Err(WordsFault::Usage) => String::from_str(alloc, "usage")?,
        Err(WordsFault::Memory) => return Err(Fail::from("there is memory")),
    };
    Ok((told, wanted.trim()))
}

#[test]
fn reads_words(rt: HostRuntime) {
    for line in WORDS.lines() {
        if line.is_empty() {
            continue;
        }
        match told(rt.alloc(), line) {
            Ok((told, wanted)) => assert_eq!(rt; told.as_str(), wanted, "{line}"),
            Err(_) => panic!(rt; "no row: {line}"),
        }
    }
}

/// The bytes that a reply appends to others.
fn text_of(alloc: Global, reply: &Reply) -> Result<String, Fail> {
    let mut out = Vec::from_slice(alloc, b"> ")?;
    reply.write(alloc, &mut out).ok().ok_or("there is memory")?;
    Ok(String::from_utf8(out).ok().ok_or("it is text")?)
}

fn line(alloc: Global, ino: u64, kind: Kind, name: &[u8]) -> Result<ListLine, Fail> {
    let name = Name::read(alloc, name).ok().ok_or("it is a name")?;
    Ok(ListLine { ino, kind, name })
}

#[test]
fn replies(rt: HostRuntime) -> Result<(), Fail> {
    let alloc = rt.alloc();
    let mut lines = Vec::new(alloc);
    lines.push(line(alloc, 131, Kind::Reg, b"a")?)?;
    lines.push(line(alloc, 4_294_967_428, Kind::Dir, b"b ")?)?;
    let list = Reply::List(Lines::new(lines));
    let none = Reply::List(Lines::new(Vec::new(alloc)));
    let (ino, kind) = (146, Kind::Reg);
    assert_eq!(rt; text_of(alloc, &Reply::Ok)?.as_str(), "> ok\n");
    assert_eq!(rt;
        text_of(alloc, &Reply::Entry { ino, kind })?.as_str(),
        "> ok 146 reg\n"
    );
    assert_eq!(rt; text_of(alloc, &none)?.as_str(), "> ok 0\n");
    assert_eq!(rt;
        text_of(alloc, &list)?.as_str(),
        "> ok 2\n131 reg a\n4294967428 dir b\\20\n"
    );
    Ok(())
}

/// The parent that a row spells.
fn parent_of(alloc: Global, spelled: &str) -> Result<ParentLine, Fail> {
    let mut words = spelled.split_whitespace();
    let dir = words.next().ok_or("directory")?;
    let generation = words.next().ok_or("generation")?;
    let mut bytes = Vec::new(alloc);
    for word in words {
        bytes.push(word.parse().ok().ok_or("a byte")?)?;
    }
    Ok(ParentLine {
        dir: dir.parse().ok().ok_or("a directory's number")?,
        generation: generation.parse().ok().ok_or("a generation")?,
        name: Name::read(alloc, &bytes).ok().ok_or("it is a name")?,
    })
}

#[test]
fn parents(rt: HostRuntime) -> Result<(), Fail> {
    let alloc = rt.alloc();
    let mut lines = Vec::new(alloc);
    let mut wanted = String::from_str(alloc, "> ok 6\n")?;
    for row in PARENTS.lines().skip(1) {
        let (spelled, told) = row.split_once(" | ").ok_or("a line")?;
        lines.push(parent_of(alloc, spelled)?)?;
        wanted.push_str(told)?;
        wanted.push('\n')?;
    }
    let parents = Reply::Parents(ParentLines::new(lines));
    let none = Reply::Parents(ParentLines::new(Vec::new(alloc)));
    assert_eq!(rt; text_of(alloc, &parents)?, wanted);
    assert_eq!(rt; text_of(alloc, &none)?.as_str(), "> ok 0\n");
    Ok(())
}

#[test]
fn errors(rt: HostRuntime) -> Result<(), Fail> {
    let alloc = rt.alloc();
    assert_eq!(rt; ERRORS.lines().count(), 1 + ERRNOS.len());
    for (error, row) in ERRNOS.iter().zip(ERRORS.lines().skip(1)) {
        let text = text_of(alloc, &Reply::Error(*error))?;
        let told = format!(in alloc; "{error:?} | {text}")?;
        let wanted = format!(in alloc; "{row}\n")?;
        assert_eq!(rt; told, wanted);
    }
    Ok(())
}

#[test]
fn other_lines(rt: HostRuntime) -> Result<(), Fail> {
    let usage = usage_line(rt.alloc()).ok().ok_or("there is memory")?;
    assert_eq!(rt; usage.as_slice(), b"usage\n".as_slice());
    let image = image_line(rt.alloc(), 24, 144, 0)
        .ok()
        .ok_or("there is memory")?;
    assert_eq!(rt;
        image.as_slice(),
        b"image rule 24 inode 144 block 0\n".as_slice()
    );
    let manifest = manifest_line(rt.alloc(), 18_446_744_073_709_551_615)
        .ok()
        .ok_or("there is memory")?;
    assert_eq!(rt;
        manifest.as_slice(),
        b"manifest line 18446744073709551615\n".as_slice()
    );
    Ok(())
}

/// The bytes that a row spells.
fn bytes_of(alloc: Global, spelled: &str) -> Result<Vec<u8>, Fail> {
    let mut bytes = Vec::new(alloc);
    for byte in spelled.bytes() {
        bytes.push(match byte {
            b'/' => b'\n',
            b'_' => b' ',
            b'^' => b'\r',
            b'~' => 0xff,
            other => other,
        })?;
    }
    Ok(bytes)
}

/// What the text of a manifest is read as.
fn manifest_told(alloc: Global, text: &[u8]) -> Result<String, Fail> {
    match Manifest::read(alloc, text) {
        Ok(manifest) => { Ok(format!(in alloc; "{:?} {:?}", manifest.chunks(), manifest.runs())?) }
        Err(ManifestFault::Line { number }) => Ok(format!(in alloc; "line {number}")?),
        Err(ManifestFault::Memory) => Err(Fail::from("there is memory")),
    }
}

#[test]
fn reads_manifests(rt: HostRuntime) -> Result<(), Fail> {
    let alloc = rt.alloc();
    for row in MANIFESTS.lines() {
        if row.is_empty() {
            continue;
        }
        let (spelled, wanted) = row.split_once(" | ").ok_or("a text")?;
        let told = manifest_told(alloc, &bytes_of(alloc, spelled)?)?;
        assert_eq!(rt; told.as_str(), wanted, "{spelled}");
    }
    Ok(())
}

/// What is written of a manifest that was read of a text, behind a byte; nothing where it was not.
fn written(alloc: Global, text: &[u8]) -> Result<Option<Vec<u8>>, Fail> {
    let Ok(manifest) = Manifest::read(alloc, text) else {
        return Ok(None);
    };
    let mut out = Vec::from_slice(alloc, b">")?;
    manifest
        .write(alloc, &mut out)
        .ok()
        .ok_or("there is memory")?;
    Ok(Some(out))
}

#[test]
fn writes_manifests(rt: HostRuntime) -> Result<(), Fail> {
    let alloc = rt.alloc();
    let mut count = 0usize;
    for row in MANIFESTS.lines() {
        let Some((spelled, _)) = row.split_once("/ | [") else {
            continue;
        };
        let mut text = bytes_of(alloc, spelled)?;
        text.push(b'\n')?;
        let out = written(alloc, &text)?.ok_or("a manifest")?;
        assert_eq!(rt;
            out.split_first(),
            Some((&b'>', text.as_slice())),
            "{spelled}"
        );
        count = count.saturating_add(1);
    }
    assert_eq!(rt; count, 16);
    Ok(())
}

#[test]
fn lists_inodes(rt: HostRuntime) -> Result<(), Fail> {
    let alloc = rt.alloc();
    for row in MASKS.lines().skip(1) {
        let (mask, wanted) = row.split_once(" |").ok_or("a mask")?;
        let text = format!(in alloc;
            "xfsns-manifest 1\nchunk 0 {mask}\nchunk 128 {mask}\nchunk 256 {mask}\n"
        )?;
        let manifest = Manifest::read(alloc, text.as_bytes())
            .ok()
            .ok_or("a manifest")?;
        let mut listed = String::new(alloc);
        for number in [128, 129, 159, 160, 190, 191] {
            if manifest.holds(number) {
                let told = format!(in alloc; " {number}")?;
                listed.push_str(&told)?;
            }
        }
        assert_eq!(rt; listed.as_str(), wanted);
        assert!(rt; !manifest.holds(64) && !manifest.holds(127) && !manifest.holds(192));
        assert!(rt; !manifest.holds(320) && !manifest.holds(u64::MAX));
    }
    Ok(())
}
