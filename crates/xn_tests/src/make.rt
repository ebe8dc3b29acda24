use std::process::Abort;
use std::test::Fail;
use xn_bytes::{has_checksum, u8_at, u16_at, u32_at, u64_at};
use xn_make::{block_image, directory_in_block, image, regular_inode, sample};

/// Where the root directory's block begins and ends.
const START: usize = 163_840;

const END: usize = 167_936;

/// What stands in the block of a root directory that names the files 144 to 154: `.` at 64, `..` at 80, `entry-0001` to
/// `entry-0011` at 96 to 336, a free region of 3,624 bytes at 360, and 13 leaf entries from 3,984 on.
const PIECES: [(usize, &[u8]); 13] = [
    (0, b"XDB3"),
    (8, &[0, 0, 0, 0, 0, 0, 1, 0x40]),
    (40, &[0, 0, 0, 0, 0, 0, 0, 0x80]),
    (48, &[1, 0x68, 0x0e, 0x28, 0, 0, 0, 0, 0, 0, 0, 0]),
    (64, b"\0\0\0\0\0\0\0\x80\x01.\x02\0\0\0\0\x40"),
    (80, b"\0\0\0\0\0\0\0\x80\x02..\x02\0\0\0\x50"),
    (96, b"\0\0\0\0\0\0\0\x90\x0aentry-0001\x01\0\0\0\x60"),
    (336, b"\0\0\0\0\0\0\0\x9a\x0aentry-0011\x01\0\0\x01\x50"),
    (360, &[0xff, 0xff, 0x0e, 0x28]),
    (3982, &[1, 0x68]),
    (3984, &[0, 0, 0, 0x2e, 0, 0, 0, 8]),
    (3992, &[0, 0, 0x17, 0x2e, 0, 0, 0, 10]),
    (4088, &[0, 0, 0, 13, 0, 0, 0, 0]),
];

fn stands(block: &[u8], at: usize, wanted: &[u8]) -> bool {
    at <= block.len() && block[at..].starts_with(wanted)
}

fn is_signed(block: &[u8]) -> bool {
    block.len() == 4096 && has_checksum(block, 4)
}

fn check_block(rt: &impl Abort, block: &[u8]) {
    assert!(rt; is_signed(block));
    for (at, wanted) in PIECES {
        assert!(rt; stands(block, at, wanted), "at {at}");
    }
}

#[test]
fn root_in_block_form(rt: HostRuntime) -> Result<(), Fail> {
    let image = block_image(rt.alloc())?;
    check_block(&rt, image.get(START..END).ok_or("a block")?);
    Ok(())
}

/// The root's inode maps file block 0 to block 40; that of a file has its generation.
#[test]
fn inodes(rt: HostRuntime) {
    let root = directory_in_block(128, 40);
    assert_eq!(rt; u64_at(&root, 56), 4096);
    assert_eq!(rt; u64_at(&root, 64), 1);
    assert_eq!(rt; u32_at(&root, 76), 1);
    assert_eq!(rt; u64_at(&root, 176), 0);
    assert_eq!(rt; u64_at(&root, 184), 0x0500_0001);
    let file = regular_inode(146);
    assert_eq!(rt; u16_at(&file, 2), 0x8000);
    assert_eq!(rt; u8_at(&file, 5), 2);
    assert_eq!(rt; u32_at(&file, 92), 19);
    assert_eq!(rt; u64_at(&file, 152), 146);
}

/// What stands in the sample of 64 inodes and a pool of 64 blocks. Of the superblock: the blocks, the log's first, the root,
/// those of the group, the groups, the log's blocks, and the bits of a block's number. Of inode 128: magic number, mode, version
/// and format, links, size, and generation; its form, and its attributes. The last directory is 143, and 144 a file. Behind the
/// inodes, and in the log, stand zeros.
const SAMPLE_PIECES: [(usize, &[u8]); 16] = [
    (8, &[0, 0, 0, 0, 0, 0, 0x04, 0x40]),
    (48, &[0, 0, 0, 0, 0, 0, 0x02, 0x40]),
    (56, &[0, 0, 0, 0, 0, 0, 0, 128]),
    (84, &[0, 0, 0x04, 0x40, 0, 0, 0, 1]),
    (96, &[0, 0, 0x02, 0]),
    (123, &[3, 11]),
    (65_536, b"IN\x40\x00\x03\x01"),
    (65_552, &[0, 0, 0, 2]),
    (65_592, &[0, 0, 0, 0, 0, 0, 0, 6]),
    (65_628, &[0, 0, 0, 1]),
    (65_712, &[0, 0, 0, 0, 0, 128]),
    (65_904, &[0, 4, 0, 0]),
    (73_216, b"IN\x40\x00\x03\x01"),
    (73_728, b"IN\x80\x00\x03\x02"),
    (73_820, &[0, 0, 0, 17]),
    (98_304, &[0; 512]),
];

#[test]
fn a_sample(rt: HostRuntime) -> Result<(), Fail> {
    let alloc = rt.alloc();
    let (image, manifest) = sample(alloc, 64, 64)?;
    assert_eq!(rt; image.len(), 4096 * 1088);
    for (at, wanted) in SAMPLE_PIECES {
        assert!(rt; stands(&image, at, wanted), "at {at}");
    }
    let log = image.get(4096 * 576..).ok_or("the log")?;
    assert!(rt; log.iter().all(|byte| *byte == 0));
    let mut text = Vec::new(alloc);
    manifest.write(alloc, &mut text)?;
    assert_eq!(rt;
        text.as_slice(),
        b"xfsns-manifest 1\nchunk 128 0000000000000000\npool 512 64\n".as_slice()
    );
    Ok(())
}

/// The first and the last directory, and the first and the last file.
#[test]
fn inodes_of_a_sample(rt: HostRuntime) -> Result<(), Fail> {
    let (image, _) = sample(rt.alloc(), 64, 64)?;
    for (place, generation) in [(128, 1), (143, 16), (144, 17), (191, 64)] {
        let inode = image.get(512 * place..512 * place + 512);
        let inode = inode.ok_or("an inode")?;
        assert!(rt; has_checksum(inode, 100), "inode {place}");
        assert_eq!(rt; u64_at(inode, 152), place as u64);
        assert_eq!(rt; u32_at(inode, 92), generation);
    }
    Ok(())
}
