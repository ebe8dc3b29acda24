//! The manifest: its text, what it lists, and what it costs to read it.

use super::{Asked, check_rows};
use crate::xfsns;
use std::alloc::Global;
use std::test::Fail;
use xn_machine::{MemMachine, MemSource};
use xn_meaning::Status;

/// As many calls of the machine as an answer takes here, and more.
const CALLS: u64 = 8;

const ROOM: u64 = 256;

const ROWS: &str = r"
# the text is looked at before the image, and the words before the text
list IMAGE MANIFEST 128 | block manifest: | 3 manifest line 1
list IMAGE MANIFEST 128 | none manifest: | 3 manifest line 1
list IMAGE MANIFEST 128 | none | 2 image rule 1 inode 0 block 0
list IMAGE MANIFEST | block manifest: | 1 usage
check IMAGE MANIFEST | block manifest: | 3 manifest line 1
check IMAGE MANIFEST | none manifest: | 3 manifest line 1
check IMAGE MANIFEST | none | 2 image rule 1 inode 0 block 0
check IMAGE | block manifest: | 1 usage
resolve IMAGE MANIFEST / | block manifest:'xfsns-manifest_1/pool_1_0/' | 3 manifest line 2
parents IMAGE MANIFEST 128 | block manifest:'xfsns-manifest_1/chunk_128_0000000000000000/pool_520_1/chunk_192_0000000000000000/' | 3 manifest line 4
list IMAGE MANIFEST 128 | short:0100_00000080_010060'a'01_00000083 manifest:'xfsns-manifest_1/chunk_128_0000000000000000' | 0 ok 1 / 131 reg a

# an inode is live where it is listed
list IMAGE MANIFEST 128 | block manifest:'xfsns-manifest_1/' | 0 error 2 ENOENT
list IMAGE MANIFEST 128 | block manifest:'xfsns-manifest_1/chunk_128_0000000000000001/' | 0 error 2 ENOENT
list IMAGE MANIFEST 128 | block manifest:'xfsns-manifest_1/chunk_64_0000000000000000/' | 0 error 2 ENOENT
list IMAGE MANIFEST 144 | block manifest:'xfsns-manifest_1/chunk_128_0000000000010000/' | 0 error 2 ENOENT
list IMAGE MANIFEST 144 | block manifest:'xfsns-manifest_1/chunk_128_fffffffffffeffff/' | 0 error 20 ENOTDIR
parents IMAGE MANIFEST 144 | block manifest:'xfsns-manifest_1/chunk_128_0000000000010000/' | 0 error 2 ENOENT
parents IMAGE MANIFEST 144 | block manifest:'xfsns-manifest_1/chunk_128_fffffffffffeffff/' | 0 ok 0
resolve IMAGE MANIFEST /entry-0001/x | block manifest:'xfsns-manifest_1/chunk_128_fffffffffffffffe/' | 0 error 20 ENOTDIR
resolve IMAGE MANIFEST /entry-0001 | block manifest:'xfsns-manifest_1/chunk_128_fffffffffffffffe/' | 0 ok 144 reg

# the root has to be
resolve IMAGE MANIFEST / | block manifest:'xfsns-manifest_1/' | 2 image rule 5 inode 0 block 0
resolve IMAGE MANIFEST /a | block manifest:'xfsns-manifest_1/chunk_128_0000000000000001/' | 2 image rule 5 inode 0 block 0
resolve IMAGE MANIFEST / | block manifest:'xfsns-manifest_1/chunk_128_fffffffffffffffe/' | 0 ok 128 dir

# inodes of block 0, in the log (blocks 64 to 575) and behind the image (576 blocks), and on both sides of it
parents IMAGE MANIFEST 144 | block manifest:'xfsns-manifest_1/chunk_0_fffffffffffffffe/' | 2 image rule 2 inode 0 block 0
parents IMAGE MANIFEST 144 | block manifest:'xfsns-manifest_1/chunk_7_fffffffffffffffe/' | 2 image rule 2 inode 0 block 0
parents IMAGE MANIFEST 144 | block manifest:'xfsns-manifest_1/chunk_8_fffffffffffffffe/' | 0 error 2 ENOENT
parents IMAGE MANIFEST 144 | block manifest:'xfsns-manifest_1/chunk_448_0000000000000000/' | 0 error 2 ENOENT
parents IMAGE MANIFEST 144 | block manifest:'xfsns-manifest_1/chunk_449_7fffffffffffffff/' | 2 image rule 2 inode 0 block 0
parents IMAGE MANIFEST 144 | block manifest:'xfsns-manifest_1/chunk_449_8000000000000000/' | 0 error 2 ENOENT
parents IMAGE MANIFEST 144 | block manifest:'xfsns-manifest_1/chunk_4607_fffffffffffffffe/' | 2 image rule 2 inode 0 block 0
parents IMAGE MANIFEST 144 | block manifest:'xfsns-manifest_1/chunk_4608_fffffffffffffffe/' | 2 image rule 2 inode 0 block 0
parents IMAGE MANIFEST 144 | block manifest:'xfsns-manifest_1/chunk_72057594037927936_fffffffffffffffe/' | 2 image rule 2 inode 0 block 0
parents IMAGE MANIFEST 144 | block manifest:'xfsns-manifest_1/chunk_72057594037927936_ffffffffffffffff/' | 0 error 2 ENOENT

# blocks of the pool likewise, and none that holds a listed inode
list IMAGE MANIFEST 129 | block manifest:'xfsns-manifest_1/pool_0_1/' | 2 image rule 2 inode 0 block 0
check IMAGE MANIFEST | block manifest:'xfsns-manifest_1/pool_0_1/' | 2 image rule 2 inode 0 block 0
list IMAGE MANIFEST 129 | block manifest:'xfsns-manifest_1/chunk_128_0000000000000000/pool_16_1/' | 2 image rule 2 inode 0 block 0
list IMAGE MANIFEST 129 | block manifest:'xfsns-manifest_1/chunk_128_0000000000000000/pool_1_15/pool_24_40/' | 0 error 2 ENOENT
list IMAGE MANIFEST 129 | block manifest:'xfsns-manifest_1/chunk_128_0000000000000000/pool_1_16/' | 2 image rule 2 inode 0 block 0
list IMAGE MANIFEST 129 | block manifest:'xfsns-manifest_1/chunk_128_0000000000000000/pool_23_1/' | 2 image rule 2 inode 0 block 0
list IMAGE MANIFEST 129 | block manifest:'xfsns-manifest_1/chunk_128_ffffffffffffff01/pool_17_47/' | 0 error 2 ENOENT
list IMAGE MANIFEST 129 | block manifest:'xfsns-manifest_1/chunk_128_0000000000000000/pool_24_41/' | 2 image rule 2 inode 0 block 0
list IMAGE MANIFEST 129 | block manifest:'xfsns-manifest_1/pool_63_1/pool_64_1/' | 2 image rule 2 inode 0 block 0
list IMAGE MANIFEST 129 | block manifest:'xfsns-manifest_1/pool_576_1/' | 2 image rule 2 inode 0 block 0
";

#[test]
fn manifests_say_what_is_live(rt: HostRuntime) {
    check_rows(&rt, Asked::Program, "manifests", ROWS);
}

/// The status of `parents one.img MANIFEST 144` over an empty image, with this manifest, of whose reads these fail. Nothing may be
/// told of a manifest that was not read.
fn status_with(alloc: Global, text: Vec<u8>, fails: &[u64]) -> Result<(Status, bool), Fail> {
    let mut words = Vec::new(alloc);
    for word in ["parents", "one.img", "MANIFEST", "144"] {
        words.push(String::from_str(alloc, word)?)?;
    }
    let image = xn_rows::image(alloc, "block")?;
    let mut machine = MemMachine::new(alloc, image, Vec::new(alloc), None, CALLS, ROOM)?;
    let mut manifest = MemSource::new(text, Vec::from_slice(alloc, fails)?);
    let mut script = MemSource::new(Vec::new(alloc), Vec::new(alloc));
    let status = xfsns(alloc, &words, &mut machine, &mut manifest, &mut script);
    Ok((status, machine.told().is_empty()))
}

#[test]
fn reads_the_manifest_to_its_end(rt: HostRuntime) -> Result<(), Fail> {
    let alloc = rt.alloc();
    // The text comes in one piece, and the second read shows its end.
    let text = xn_rows::manifest(alloc, "block")?;
    let first = status_with(alloc, text.clone()?, &[1])?;
    let second = status_with(alloc, text.clone()?, &[2])?;
    let third = status_with(alloc, text, &[3])?;
    assert_eq!(rt; first, (Status::ReadFault, true));
    assert_eq!(rt; second, (Status::ReadFault, true));
    assert_eq!(rt; third, (Status::Done, false));
    Ok(())
}

#[test]
fn refuses_a_manifest_of_too_many_bytes(rt: HostRuntime) -> Result<(), Fail> {
    let alloc = rt.alloc();
    let most = vec![in alloc; b'x'; 1_048_576]?;
    let more = vec![in alloc; b'x'; 1_048_577]?;
    let whole = status_with(alloc, most, &[])?;
    let long = status_with(alloc, more, &[])?;
    assert_eq!(rt; whole, (Status::Manifest, false));
    assert_eq!(rt; long, (Status::Long, true));
    Ok(())
}
