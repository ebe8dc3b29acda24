//! A block after an item whose map has the pieces 0 and 3 in its first word.

use std::test::Fail;
use xn_bytes::{Bytes, has_checksum, u64_at};
use xn_changes::{BufferItem, MapWords, Regions};
use xn_settled::lay_block;

fn block(flags: u16, rt: &HostRuntime) -> Result<[u8; 4096], Fail> {
    let alloc = rt.alloc();
    let first = Bytes::new(vec![in alloc; 1; 128]?);
    let second = Bytes::new(vec![in alloc; 2; 128]?);
    let item = BufferItem {
        flags,
        length: 8,
        sector: 96,
        map: MapWords::new(vec![in alloc; 9]?),
        regions: Regions::new(vec![in alloc; first, second]?),
    };
    let mut block = [0xee; 4096];
    lay_block(alloc, &item, 0x0000_0003_0000_0004, &mut block)?;
    Ok(block)
}

#[test]
fn pieces_are_replaced(rt: HostRuntime) -> Result<(), Fail> {
    let block = block(10 << 11, &rt)?;
    for (at, wanted) in [
        (24, 1),
        (127, 1),
        (128, 0xee),
        (383, 0xee),
        (384, 2),
        (511, 2),
        (512, 0xee),
    ] {
        assert_eq!(rt; block[at], wanted, "{at}");
    }
    Ok(())
}

#[test]
fn header_by_kind(rt: HostRuntime) -> Result<(), Fail> {
    for (kind, lsn, checksum) in [
        (10, 16, 4),
        (11, 16, 4),
        (12, 16, 4),
        (13, 24, 12),
        (14, 24, 12),
        (15, 24, 12),
        (16, 24, 12),
    ] {
        let block = block(kind << 11, &rt)?;
        assert_eq!(rt; u64_at(&block, lsn), 0x0000_0003_0000_0004, "{kind}");
        assert!(rt; has_checksum(&block, checksum), "{kind}");
        assert_eq!(rt; block[lsn + 8], 1, "{kind}");
    }
    Ok(())
}
