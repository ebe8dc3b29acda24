use std::test::Fail;
use xn_bytes::has_checksum;
use xn_rows::{Row, RowFault, bytes, image, manifest};

#[test]
fn a_row(rt: HostRuntime) -> Result<(), Fail> {
    let alloc = rt.alloc();
    let line = "list {} a{_}b{x*3} | none sectors:9 fails:3 fails:12 | 2 ok 1 / 131 reg a";
    let row = Row::read(line)?.ok_or("a row")?;
    let words = row.words(alloc)?;
    for (word, wanted) in words.iter().zip(["list", "", "a bxxx"]) {
        assert_eq!(rt; word.as_str(), wanted);
    }
    assert_eq!(rt; words.len(), 3);
    assert_eq!(rt; row.image(alloc)?.len(), 0);
    assert_eq!(rt; row.fails(alloc)?.as_slice(), [3, 12].as_slice());
    assert_eq!(rt; row.status()?, 2);
    assert_eq!(rt; row.told(alloc)?.as_str(), "ok 1\n131 reg a\n");
    assert!(rt; Row::read("# none")?.is_none());
    assert!(rt; Row::read(" ")?.is_none());
    assert_eq!(rt; Row::read("list | none").err(), Some(RowFault::Fields));
    Ok(())
}

/// A manifest that is spelled, and the one that lists the inodes in blocks 8 to 63.
#[test]
fn manifests(rt: HostRuntime) -> Result<(), Fail> {
    let alloc = rt.alloc();
    let line = "list | block manifest:'xfsns-manifest_1/pool_{1*3}'2f5f0d'/' 19=00 | 0";
    let row = Row::read(line)?.ok_or("a row")?;
    assert_eq!(rt;
        row.manifest(alloc)?.as_slice(),
        b"xfsns-manifest 1\npool 111/_\r\n".as_slice()
    );
    assert_eq!(rt; row.image(alloc)?.len(), 512 * 4608);
    let text = manifest(alloc, "block fails:3")?;
    assert!(rt; text.starts_with(b"xfsns-manifest 1\nchunk 64 0000000000000000\nchunk 128 "));
    assert!(rt; text.ends_with(b"\nchunk 448 0000000000000000\n"));
    Ok(())
}

/// Bytes at a place of an inode and behind it; only the first has its checksum made right.
#[test]
fn changes_of_an_image(rt: HostRuntime) -> Result<(), Fail> {
    let alloc = rt.alloc();
    let image = image(
        alloc,
        "block inode:144 19=05 raw:74240 19=0'7'_ff sectors:200",
    )
    .err()
    .ok_or("a digit is no byte")?;
    assert_eq!(rt; image, RowFault::Bytes);
    let image = xn_rows::image(
        alloc,
        "block inode:144 19=05 raw:74240 19='7'_ff sectors:200",
    )?;
    assert_eq!(rt; image.len(), 512 * 200);
    for (inode, byte, is_right) in [(144, 5, true), (145, b'7', false), (146, 1, true)] {
        let bytes = image.get(512 * inode..512 * inode + 512).ok_or("an inode")?;
        assert_eq!(rt; bytes.get(19), Some(&byte));
        assert_eq!(rt; has_checksum(bytes, 100), is_right);
    }
    Ok(())
}

/// What stands in the root's blocks: in the first data block, from 163,840 on, the pairs, the free region of `three`, and the
/// entry of `four`; in the leaf, from 196,608 on, the magic number, the counts, and the leaf entries of `four` and `three`.
const LEAF_PIECES: [(usize, &[u8]); 7] = [
    (163_888, &[0, 168, 15, 88, 0, 128, 0, 24, 0, 0, 0, 0]),
    (163_968, &[0xff, 0xff, 0, 24]),
    (163_992, b"\0\0\0\0\0\0\0\x85\x04four\x01\0\x98"),
    (196_616, &[0x3d, 0xf1]),
    (196_664, &[0, 8, 0, 1]),
    (196_720, &[12, 219, 250, 242, 0, 0, 0, 19]),
    (196_728, &[77, 28, 178, 226, 0, 0, 0, 0]),
];

#[test]
fn leaf_form(rt: HostRuntime) -> Result<(), Fail> {
    let image = xn_rows::image(rt.alloc(), "leaf")?;
    for (place, wanted) in LEAF_PIECES {
        let found = image.get(place..).ok_or("a place of the image")?;
        assert!(rt; found.starts_with(wanted), "at {place}");
    }
    Ok(())
}

/// The checksums of leaves and of free-index blocks are right, before and behind a change.
#[test]
fn checksums_of_trees(rt: HostRuntime) -> Result<(), Fail> {
    let alloc = rt.alloc();
    for words in [
        "node",
        "node hashed:48 64=00 hashed:50 4095=07 free:56 70=01",
    ] {
        let image = xn_rows::image(alloc, words)?;
        for (block, at) in [(41, 4), (48, 12), (49, 12), (50, 12), (51, 12), (56, 4)] {
            let bytes = image
                .get(4096 * block..4096 * block + 4096)
                .ok_or("a block")?;
            assert!(rt; has_checksum(bytes, at), "block {block} of {words}");
        }
    }
    Ok(())
}

#[test]
fn words_of_no_image(rt: HostRuntime) {
    let cases = [
        ("", RowFault::Word),
        ("blocks", RowFault::Word),
        ("block:61", RowFault::Word),
        ("block inode:x", RowFault::Number),
        ("block inode:4608 0=00", RowFault::Place),
        ("block raw:2359296 0=00", RowFault::Place),
        ("block sector:5", RowFault::Word),
        ("block file:1", RowFault::Number),
        ("node:'a'", RowFault::Word),
        ("node:x:'a'", RowFault::Number),
        ("leaf:'a'/2", RowFault::Bytes),
        ("leaf:'a'///////'b'", RowFault::Number),
        ("leaf hashed:576 0=00", RowFault::Place),
    ];
    for (words, fault) in cases {
        assert_eq!(rt; image(rt.alloc(), words).err(), Some(fault), "{words}");
    }
}
