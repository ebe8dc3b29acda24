//! A record that is written.

use std::test::*;
use xn_bytes::Bytes;
use xn_log::{Op, Ops, Record};
use xn_record::{decode, encode};

const UUID: [u8; 16] = [0, 1, 2, 3, 4, 5, 6, 7, 8, 9, 10, 11, 12, 13, 14, 15];

#[test]
fn an_unmount_record_is_written(rt: HostRuntime) -> Result<(), Fail> {
    let alloc = rt.alloc();
    let op = Op {
        tid: 0xb0c0_d0d0,
        client: 0xaa,
        flags: 32,
        bytes: Bytes::new(Vec::new(alloc)),
    };
    let record = Record {
        cycle: 1,
        sector: 2,
        tail: 0x1_0000_0002,
        previous: 0,
        ops: Ops::new(vec![in alloc; op]?),
    };
    let bytes = encode(alloc, &record, 4096, &UUID)?;
    assert_eq!(rt; bytes.len(), 1024);
    assert_eq!(rt;
        bytes.get(32..36),
        Some([0x07, 0x5c, 0xaf, 0x02].as_slice())
    );
    let read = decode(alloc, &bytes, 2, 4096, &UUID).map_err(|_| "no record")?;
    assert_eq!(rt; read.tail, record.tail);
    assert_eq!(rt; read.ops.as_slice().len(), 1);
    Ok(())
}
