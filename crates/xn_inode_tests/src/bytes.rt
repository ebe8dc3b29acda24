use std::test::Fail;
use xn_bytes::{
    Bytes, Crc, EscapeFault, Kind, Name, NameFault, escape, has_checksum, name_hash, parent_hash,
    put_checksum, put_little_u32, put_u16, put_u32, put_u64, unescape,
};

#[test]
fn checksum_in_pieces(rt: HostRuntime) {
    let message = b"123456789";
    for cut in 0..10 {
        let mut crc = Crc::start();
        crc.add(&message[..cut]);
        crc.add(&message[cut..]);
        assert_eq!(rt; crc.end(), 0xe306_9283, "cut at {cut}");
    }
}

#[test]
fn names(rt: HostRuntime) -> Result<(), Fail> {
    let alloc = rt.alloc();
    let long = vec![in alloc; b'n'; 256]?;
    assert_eq!(rt;
        Name::read(alloc, &long[..255])
            .ok()
            .ok_or("255 bytes are a name")?
            .bytes(),
        &long[..255]
    );
    let faults: [(&[u8], NameFault); 7] = [
        (b"", NameFault::Empty),
        (&long, NameFault::Long),
        (b"/", NameFault::Byte { at: 0 }),
        (b"a/b\0", NameFault::Byte { at: 1 }),
        (b"ab\0/", NameFault::Byte { at: 2 }),
        (b".", NameFault::Dots),
        (b"..", NameFault::Dots),
    ];
    for (bytes, fault) in faults {
        assert!(rt; Name::read(alloc, bytes).err() == Some(fault), "{bytes:?}");
    }
    assert!(rt; Name::read(alloc, b"...").is_ok());
    Ok(())
}

#[test]
fn escapes(rt: HostRuntime) -> Result<(), Fail> {
    let cases: [(&[u8], &[u8]); 5] = [
        (b"", b""),
        (b"\x60\xc1", b"`\\c1"),
        (b"a b", b"a\\20b"),
        (b"\\~\x7f!", b"\\5c~\\7f!"),
        (b"/\0\n", b"/\\00\\0a"),
    ];
    for (bytes, text) in cases {
        let mut out = Vec::from_slice(rt.alloc(), b"> ")?;
        escape(bytes, &mut out).ok().ok_or("there is memory")?;
        assert_eq!(rt; &out[..2], b"> ".as_slice());
        assert_eq!(rt; &out[2..], text);
    }
    Ok(())
}

#[test]
fn escaped_texts(rt: HostRuntime) -> Result<(), Fail> {
    let alloc = rt.alloc();
    let bad: [(&[u8], u64); 9] = [
        (b"\\61", 0),
        (b"a\\zz", 1),
        (b"\\5C", 0),
        (b"ab\\", 2),
        (b"\\0", 0),
        (b"\\00\\0g", 3),
        (b"a b", 1),
        (b"~\x7f", 1),
        (b"\\5c\\2", 3),
    ];
    for (text, at) in bad {
        assert!(rt;
            unescape(alloc, text).err() == Some(EscapeFault::Bad { at }),
            "{text:?}"
        );
    }
    for byte in 0u8..=255 {
        let mut text = Vec::new(alloc);
        escape(&[byte], &mut text).ok().ok_or("there is memory")?;
        let bytes = unescape(alloc, &text).ok().ok_or("it is a text")?;
        assert_eq!(rt; bytes.as_slice(), [byte].as_slice());
    }
    let bytes = unescape(alloc, b"a\\5c\\00~").ok().ok_or("it is a text")?;
    assert_eq!(rt; bytes.as_slice(), b"a\\\0~".as_slice());
    Ok(())
}

#[test]
fn bytes_give_back_what_they_are(rt: HostRuntime) -> Result<(), Fail> {
    let bytes = Bytes::new(Vec::from_slice(rt.alloc(), b"ab")?);
    assert_eq!(rt; bytes.as_slice(), b"ab".as_slice());
    assert_eq!(rt; bytes.into_vec().as_slice(), b"ab".as_slice());
    Ok(())
}

#[test]
fn kinds(rt: HostRuntime) {
    let words = ["reg", "dir", "chr", "blk", "fifo", "sock", "lnk"];
    let modes = [
        0o100644, 0o040755, 0o020000, 0o060000, 0o010000, 0o140000, 0o120777,
    ];
    for number in 1u8..8 {
        let kind = Kind::from_number(number).expect(&rt, "a kind");
        assert_eq!(rt; kind.number(), number);
        assert!(rt; Kind::from_mode(modes[usize::from(number) - 1]) == Some(kind));
        assert_eq!(rt; kind.word(), words[usize::from(number) - 1]);
    }
    assert!(rt; Kind::from_number(0).is_none() && Kind::from_number(8).is_none());
    assert!(rt; Kind::from_mode(0).is_none());
}

#[test]
fn hashes(rt: HostRuntime) {
    let cases: [(&[u8], u32); 8] = [
        (b"", 0),
        (b".", 0x2e),
        (b"..", 0x172e),
        (b"abc", 0x0018_7163),
        (b"abcd", 0x0c38_b1e4),
        (b"abcde", 0x1c58_f263),
        (b"\x61\x41", 0x30c1),
        (b"\x60\xc1", 0x30c1),
    ];
    for (name, hash) in cases {
        assert_eq!(rt; name_hash(name), hash, "{name:?}");
    }
    assert_eq!(rt; parent_hash(b"abcd", 0x1_0000_0080), 0x0c38_b165);
}

#[test]
fn numbers_are_put_where_they_are_read(rt: HostRuntime) {
    let mut bytes = [0xeeu8; 20];
    put_u16(&mut bytes, 1, 0x0102);
    put_u32(&mut bytes, 3, 0x0304_0506);
    put_u64(&mut bytes, 7, 0x0708_090a_0b0c_0d0e);
    put_little_u32(&mut bytes, 15, 0x1211_100f);
    assert_eq!(rt;
        bytes.as_slice(),
        b"\xee\x01\x02\x03\x04\x05\x06\x07\x08\x09\x0a\x0b\x0c\x0d\x0e\x0f\x10\x11\x12\xee".as_slice()
    );
}

#[test]
fn put_checksum_is_right(rt: HostRuntime) {
    let mut bytes = *b"12345....6789";
    put_checksum(&mut bytes, 5);
    assert!(rt; has_checksum(&bytes, 5));
    assert_eq!(rt; &bytes[..5], b"12345".as_slice());
    assert_eq!(rt; &bytes[9..], b"6789".as_slice());
    bytes[12] = 0;
    assert!(rt; !has_checksum(&bytes, 5));
}
