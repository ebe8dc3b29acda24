ghost use Rattle.std.specs.Prelude.{◌≡◌, ◌+◌, ◌*◌, ◌≤◌, length};

use std::test::*;
use xn_bytes::{put_checksum, put_u16, put_u32, put_u64};
use xn_datree::{Leaf, LeafFault};
use xn_leaf::{DirLeaf, FreeFault, FreeIndex, HashAt, LeafTail};

const UUID: [u8; 16] = [0, 1, 2, 3, 4, 5, 6, 7, 8, 9, 10, 11, 12, 13, 14, 15];

/// Two entries and two stale ones.
const ENTRIES: [(u32, u32); 4] = [(5, 8), (7, 0), (9, 20), (12, 0)];

/// A block with a tree header, and these entries without a count of stale ones and without a checksum.
fn leaf(magic: u16, entries: &[(u32, u32)]) -> [u8; 4096]
    requires { length entries.now ≤ 504 }
{
    let mut block = [0; 4096];
    put_u32(&mut block, 0, 8_388_610);
    put_u32(&mut block, 4, 8_388_612);
    put_u16(&mut block, 8, magic);
    put_u64(&mut block, 16, 4224);
    block[32..48].copy_from_slice(&UUID);
    put_u64(&mut block, 48, 128);
    put_u16(&mut block, 56, entries.len() as u16);
    for (index, (hash, address)) in entries.iter().enumerate() {
        put_u32(&mut block, 64 + 8 * index, *hash);
        put_u32(&mut block, 68 + 8 * index, *address);
    }
    block
}

/// The block with a number of two bytes at a place, and the right checksum.
fn with(mut block: [u8; 4096], place: usize, number: u16) -> [u8; 4096]
    requires { place ≤ 4094 }
{
    put_u16(&mut block, place, number);
    put_checksum(&mut block, 12);
    block
}

fn is_bad(rt: HostRuntime, block: &[u8; 4096]) -> bool {
    DirLeaf::entries(rt.alloc(), block) == Err(LeafFault::Bad { rule: 18 })
}

#[test]
fn stale_entries_are_left_out(rt: HostRuntime) -> Result<(), Fail> {
    let live = [
        HashAt {
            hash: 5,
            address: 8,
        },
        HashAt {
            hash: 9,
            address: 20,
        },
    ];
    for magic in [0x3dff, 0x3df1] {
        let block = with(leaf(magic, &ENTRIES), 58, 2);
        let Ok(entries) = DirLeaf::entries(rt.alloc(), &block) else {
            return Err("no leaf".into());
        };
        assert_eq!(rt; entries.as_slice(), live.as_slice());
        assert_eq!(rt; DirLeaf::bounds(&block), Some((5, 12)));
    }
    Ok(())
}

#[test]
fn faults(rt: HostRuntime) {
    let block = with(leaf(0x3dff, &ENTRIES), 58, 2);
    assert!(rt; !is_bad(rt, &block));
    // no leaf; two stale ones that are counted as one; too many; hashes that fall
    for (place, number) in [(8, 0x3ebe), (58, 1), (56, 505), (74, 4)] {
        assert!(rt; is_bad(rt, &with(block, place, number)));
    }
    let mut unsummed = block;
    put_u64(&mut unsummed, 24, 1);
    assert!(rt; is_bad(rt, &unsummed));
}

#[test]
fn a_filled_leaf_is_read(rt: HostRuntime) -> Result<(), Fail> {
    let last = HashAt {
        hash: 0xffff_ffff,
        address: 0xffff_fffe,
    };
    let entries = [
        HashAt {
            hash: 1,
            address: 300,
        },
        HashAt {
            hash: 1,
            address: 8,
        },
        last,
    ];
    let old = leaf(0x3df1, &ENTRIES);
    let mut block = old;
    DirLeaf::fill(&mut block, &entries);
    let Ok(read) = DirLeaf::entries(rt.alloc(), &block) else {
        return Err("no leaf".into());
    };
    assert_eq!(rt; read.as_slice(), entries.as_slice());
    assert_eq!(rt; DirLeaf::bounds(&block), Some((1, 0xffff_ffff)));
    assert_eq!(rt; DirLeaf::copy(rt.alloc(), &last), Ok(last));
    assert_eq!(rt; DirLeaf::hash_of(&last), 0xffff_ffff);
    assert_eq!(rt; DirLeaf::size_of(&last), 8);
    assert_eq!(rt; &block[..8], &old[..8]);
    assert_eq!(rt; &block[8..10], [0x3d, 0xff].as_slice());
    assert_eq!(rt; &block[16..56], &old[16..56]);
    Ok(())
}

#[test]
fn bests_of_the_single_leaf(rt: HostRuntime) -> Result<(), Fail> {
    let mut block = leaf(0x3df1, &ENTRIES);
    put_u32(&mut block, 4092, 3);
    put_u16(&mut block, 4086, 0);
    put_u16(&mut block, 4088, 0xffff);
    let block = with(block, 4090, 4016);
    let Ok(bests) = LeafTail::bests(rt.alloc(), &block) else {
        return Err("no single leaf".into());
    };
    assert_eq!(rt; bests.as_slice(), [0, 0xffff, 4016].as_slice());
    // 1,998 bests reach the entries' end at 96, and one more doesn't stand behind it
    assert!(rt; LeafTail::bests(rt.alloc(), &with(block, 4094, 1998)).is_ok());
    let bad = Err(LeafFault::Bad { rule: 18 });
    assert_eq!(rt; LeafTail::bests(rt.alloc(), &with(block, 4094, 1999)), bad);
    assert_eq!(rt; LeafTail::bests(rt.alloc(), &with(block, 8, 0x3dff)), bad);
    Ok(())
}

/// The free-index block of the data blocks from 2,016 on, with bests of the first and the third one.
fn free_index() -> [u8; 4096] {
    let mut block = [0; 4096];
    put_u32(&mut block, 0, 0x5844_4633);
    put_u64(&mut block, 8, 4232);
    block[24..40].copy_from_slice(&UUID);
    put_u64(&mut block, 40, 128);
    put_u32(&mut block, 48, 2016);
    put_u32(&mut block, 52, 3);
    put_u32(&mut block, 56, 2);
    put_u16(&mut block, 64, 4032);
    put_u16(&mut block, 66, 0xffff);
    put_u16(&mut block, 68, 0);
    put_checksum(&mut block, 4);
    block
}

#[test]
fn free_index_is_read(rt: HostRuntime) -> Result<(), Fail> {
    let block = free_index();
    let index = FreeIndex::read(&block).ok().ok_or("a free-index block")?;
    assert_eq!(rt; index.index(), 1);
    assert_eq!(rt; index.used(), 2);
    assert_eq!(rt; (index.owner(), index.place()), (128, 4232));
    assert_eq!(rt; index.uuid(), UUID.as_slice());
    let bests = [Some(4032), None, Some(0), None];
    for (slot, best) in bests.iter().enumerate() {
        assert_eq!(rt; index.best(slot as u64), *best);
    }
    Ok(())
}

#[test]
fn faults_of_free_indexes(rt: HostRuntime) {
    for (place, number, at) in [
        (0, 0x5844_4433, 0),
        (48, 2017, 48),
        (52, 2017, 52),
        (56, 3, 56),
    ] {
        let mut block = free_index();
        put_u32(&mut block, place, number);
        put_checksum(&mut block, 4);
        assert_eq!(rt; FreeIndex::read(&block).err(), Some(FreeFault { at }));
    }
    let mut unsummed = free_index();
    put_u64(&mut unsummed, 16, 1);
    assert_eq!(rt; FreeIndex::read(&unsummed).err(), Some(FreeFault { at: 4 }));
}
