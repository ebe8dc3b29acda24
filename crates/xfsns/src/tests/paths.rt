//! `resolve`: walks of paths, and where they end.

use super::{Asked, check_rows};

/// Paths of one part or of none, in a root in block form.
const PART_ROWS: &str = r"
resolve IMAGE MANIFEST /entry-0003 | block | 0 ok 146 reg
resolve IMAGE MANIFEST // | block | 0 ok 128 dir
resolve IMAGE MANIFEST /none | block | 0 error 2 ENOENT
resolve IMAGE MANIFEST /entry-0003/x | block | 0 error 20 ENOTDIR
resolve IMAGE MANIFEST / | block | 0 ok 128 dir
resolve IMAGE MANIFEST entry-0003 | block | 0 ok 146 reg
resolve IMAGE MANIFEST /entry-0003/ | block | 0 ok 146 reg
resolve IMAGE MANIFEST entry-0003/// | block | 0 ok 146 reg
resolve IMAGE MANIFEST //entry-0011// | block | 0 ok 154 reg
resolve IMAGE MANIFEST /entry-000 | block | 0 error 2 ENOENT

# parts that are no names
resolve IMAGE MANIFEST /. | block | 0 error 22 EINVAL
resolve IMAGE MANIFEST /.. | block | 0 error 22 EINVAL
resolve IMAGE MANIFEST .. | block | 0 error 22 EINVAL
resolve IMAGE MANIFEST /../entry-0003 | block | 0 error 22 EINVAL
resolve IMAGE MANIFEST /./entry-0003 | block | 0 error 22 EINVAL
resolve IMAGE MANIFEST /a\00 | block | 0 error 22 EINVAL
resolve IMAGE MANIFEST /entry-0003/.. | block | 0 error 20 ENOTDIR
resolve IMAGE MANIFEST /none/.. | block | 0 error 2 ENOENT
resolve IMAGE MANIFEST /... | block | 0 error 2 ENOENT

# long parts; at the end a byte 0 as the last of 255 and of 256 bytes
resolve IMAGE MANIFEST {n*255} | block | 0 error 2 ENOENT
resolve IMAGE MANIFEST {n*256} | block | 0 error 36 ENAMETOOLONG
resolve IMAGE MANIFEST /{n*255} | block | 0 error 2 ENOENT
resolve IMAGE MANIFEST /{n*256} | block | 0 error 36 ENAMETOOLONG
resolve IMAGE MANIFEST {n*255}/x | block | 0 error 2 ENOENT
resolve IMAGE MANIFEST {n*254}\00 | block | 0 error 22 EINVAL
resolve IMAGE MANIFEST {n*255}\00 | block | 0 error 36 ENAMETOOLONG
";

/// Paths through directories.
const TREE_ROWS: &str = r"
# through directories
resolve IMAGE MANIFEST /sub | tree | 0 ok 129 dir
resolve IMAGE MANIFEST /sub/f | tree | 0 ok 144 reg
resolve IMAGE MANIFEST sub//deep/ | tree | 0 ok 131 dir
resolve IMAGE MANIFEST /sub/deep/end | tree | 0 ok 144 reg
resolve IMAGE MANIFEST /file | tree | 0 ok 144 reg
resolve IMAGE MANIFEST /sub/end | tree | 0 error 2 ENOENT
resolve IMAGE MANIFEST /deep | tree | 0 error 2 ENOENT
resolve IMAGE MANIFEST /file/f | tree | 0 error 20 ENOTDIR
resolve IMAGE MANIFEST /sub/.. | tree | 0 error 22 EINVAL
resolve IMAGE MANIFEST /sub/deep/../f | tree | 0 error 22 EINVAL
resolve IMAGE MANIFEST /sub/./f | tree | 0 error 22 EINVAL

# entries that say of no directory that it is one: of a file, of an inode behind the image, and of one of zeros
resolve IMAGE MANIFEST /odd | tree | 0 ok 145 dir
resolve IMAGE MANIFEST /odd/f | tree | 0 error 20 ENOTDIR
resolve IMAGE MANIFEST /odd/.. | tree | 0 error 20 ENOTDIR
resolve IMAGE MANIFEST /gone/f | tree | 0 error 20 ENOTDIR
resolve IMAGE MANIFEST /bad | tree | 0 ok 130 dir
resolve IMAGE MANIFEST /bad/f | tree | 2 image rule 10 inode 130 block 0
resolve IMAGE MANIFEST /bad/.. | tree | 2 image rule 10 inode 130 block 0

# `sub` without an attribute fork
resolve IMAGE MANIFEST /sub | tree inode:129 82=00 | 0 ok 129 dir
resolve IMAGE MANIFEST /sub/.. | tree inode:129 82=00 | 2 image rule 11 inode 129 block 0
# one byte of its form too few
resolve IMAGE MANIFEST /sub/f | tree inode:129 63=1a | 2 image rule 16 inode 129 block 0
resolve IMAGE MANIFEST /sub/.. | tree inode:129 63=1a | 0 error 22 EINVAL
resolve IMAGE MANIFEST /file | tree inode:129 63=1a | 0 ok 144 reg
# its form in no block
resolve IMAGE MANIFEST /sub/f | tree inode:129 5=02 | 2 image rule 15 inode 129 block 0
resolve IMAGE MANIFEST /sub/.. | tree inode:129 5=02 | 0 error 22 EINVAL
# no link
resolve IMAGE MANIFEST /sub/f | tree inode:129 19=00 | 0 ok 144 reg
# the root with a file's mode
resolve IMAGE MANIFEST /sub | tree inode:128 2=80 | 0 error 20 ENOTDIR
resolve IMAGE MANIFEST / | tree inode:128 2=80 | 0 ok 128 dir

# the demonstration's image
resolve IMAGE MANIFEST /caf\c3\a9/menu | demo | 0 ok 134 reg
resolve IMAGE MANIFEST /file\20one | demo | 0 ok 132 reg
resolve IMAGE MANIFEST /file\20one/menu | demo | 0 error 20 ENOTDIR
resolve IMAGE MANIFEST /caf\c3\a9/.. | demo | 0 error 22 EINVAL
";

/// A root that is broken, or read by its hashes.
const ROOT_ROWS: &str = r"
# an entry of the root's block that names another place than its own
resolve IMAGE MANIFEST /none | block data:40 118=0068 | 2 image rule 17 inode 128 block 40
resolve IMAGE MANIFEST /.. | block data:40 118=0068 | 0 error 22 EINVAL
resolve IMAGE MANIFEST / | block data:40 118=0068 | 0 ok 128 dir
# a leaf entry that names no entry
resolve IMAGE MANIFEST /entry-0011 | block data:40 4012=0000002d | 2 image rule 19 inode 128 block 0
# two blocks in the root's extent
resolve IMAGE MANIFEST /entry-0003 | block inode:128 191=02 | 2 image rule 15 inode 128 block 0
resolve IMAGE MANIFEST / | block inode:128 191=02 | 0 ok 128 dir

# names of one hash, 0x30c1, in block form and in short form
resolve IMAGE MANIFEST /aA | block:'aA','`'c1 | 0 ok 144 reg
resolve IMAGE MANIFEST /`\c1 | block:'aA','`'c1 | 0 ok 145 reg
resolve IMAGE MANIFEST /aA | short:0200_00000080_020060'aA'01_00000090_020070'`'c101_00000091 | 0 ok 144 reg
resolve IMAGE MANIFEST /`\c1 | short:0200_00000080_020060'aA'01_00000090_020070'`'c101_00000091 | 0 ok 145 reg

# a root that is broken: the version, the own number, the uuid
resolve IMAGE MANIFEST /none | block inode:128 4=02 | 2 image rule 10 inode 128 block 0
resolve IMAGE MANIFEST /none | block inode:128 159=81 | 2 image rule 10 inode 128 block 0
resolve IMAGE MANIFEST /none | block inode:128 160=01 | 2 image rule 10 inode 128 block 0
# the fork offset, the formats of the forks
resolve IMAGE MANIFEST /none | block inode:128 82=2a | 2 image rule 11 inode 128 block 0
resolve IMAGE MANIFEST /none | block inode:128 5=03 | 2 image rule 11 inode 128 block 0
resolve IMAGE MANIFEST /none | block inode:128 83=03 | 2 image rule 11 inode 128 block 0
# the flag of the extent; its block is 0, the first and the last of the log, the one behind the image; no block
resolve IMAGE MANIFEST /none | block inode:128 176=80 | 2 image rule 13 inode 128 block 0
resolve IMAGE MANIFEST /none | block inode:128 188=00000001 | 2 image rule 13 inode 128 block 0
resolve IMAGE MANIFEST /none | block inode:128 188=08000001 | 2 image rule 13 inode 128 block 0
resolve IMAGE MANIFEST /none | block inode:128 188=47e00001 | 2 image rule 13 inode 128 block 0
resolve IMAGE MANIFEST /none | block inode:128 188=48000001 | 2 image rule 13 inode 128 block 0
resolve IMAGE MANIFEST /none | block inode:128 188=05000000 | 2 image rule 13 inode 128 block 0
# the size
resolve IMAGE MANIFEST /none | block inode:128 62=20 | 2 image rule 15 inode 128 block 0
resolve IMAGE MANIFEST /none | block inode:128 62=00 | 2 image rule 15 inode 128 block 0

# a wrong checksum of the root's inode, and of its block
resolve IMAGE MANIFEST /none | block raw:65628 0=ff | 2 image rule 10 inode 128 block 0
resolve IMAGE MANIFEST /entry-0003 | block raw:0 65600='x' 164000='x' | 2 image rule 10 inode 128 block 0
resolve IMAGE MANIFEST /none | block raw:163856 0=ff | 2 image rule 17 inode 128 block 40
resolve IMAGE MANIFEST /none | block raw:164000 0='x' | 2 image rule 17 inode 128 block 40
resolve IMAGE MANIFEST / | block raw:164000 0='x' | 0 ok 128 dir

# a superblock that is refused
resolve IMAGE MANIFEST /.. | none | 2 image rule 1 inode 0 block 0
resolve IMAGE MANIFEST / | none | 2 image rule 1 inode 0 block 0
";

#[test]
fn parts_of_paths(rt: HostRuntime) {
    check_rows(&rt, Asked::Program, "parts", PART_ROWS);
}

#[test]
fn paths_through_directories(rt: HostRuntime) {
    check_rows(&rt, Asked::Program, "directories", TREE_ROWS);
}

#[test]
fn paths_from_broken_roots(rt: HostRuntime) {
    check_rows(&rt, Asked::Program, "roots", ROOT_ROWS);
}
