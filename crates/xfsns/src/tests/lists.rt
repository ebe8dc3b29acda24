//! `list`: its replies and its refusals.

use super::{Asked, check_rows};

/// A root in short form.
const SHORT_ROWS: &str = r"
# one entry, a wide inode number, none, and two in the other order
list IMAGE MANIFEST 128 | short:0100_00000080_010060'a'01_00000083 | 0 ok 1 / 131 reg a
list IMAGE MANIFEST 128 | short:0101_0000000000000080_010060'a'01_0000000100000083 | 0 ok 1 / 4294967427 reg a
list IMAGE MANIFEST 128 | short:0000_00000080 | 0 ok 0
list IMAGE MANIFEST 128 | short:0200_00000080_020060'b'2002_00000084_010070'a'07_00000083 | 0 ok 2 / 131 lnk a / 132 dir b\20
list IMAGE MANIFEST 128 | demo | 0 ok 3 / 131 reg a / 133 dir caf\c3\a9 / 132 reg file\20one
list IMAGE MANIFEST 133 | demo | 0 ok 1 / 134 reg menu

# broken inodes: the magic, a mode of no kind, the format, the fork offset, the attribute fork's format
list IMAGE MANIFEST 128 | short:0100_00000080_010060'a'01_00000083 inode:128 0=4a | 2 image rule 10 inode 128 block 0
list IMAGE MANIFEST 128 | short:0100_00000080_010060'a'01_00000083 inode:128 2=00 | 2 image rule 11 inode 128 block 0
list IMAGE MANIFEST 128 | short:0100_00000080_010060'a'01_00000083 inode:128 5=03 | 2 image rule 11 inode 128 block 0
list IMAGE MANIFEST 128 | short:0100_00000080_010060'a'01_00000083 inode:128 82=2a | 2 image rule 11 inode 128 block 0
list IMAGE MANIFEST 128 | short:0100_00000080_010060'a'01_00000083 inode:128 83=03 | 2 image rule 11 inode 128 block 0
# the size past the fork and one byte more, the name's kind, the name `/`
list IMAGE MANIFEST 128 | short:0100_00000080_010060'a'01_00000083 inode:128 63=c1 | 2 image rule 15 inode 128 block 0
list IMAGE MANIFEST 128 | short:0100_00000080_010060'a'01_00000083 inode:128 63=10 | 2 image rule 16 inode 128 block 0
list IMAGE MANIFEST 128 | short:0100_00000080_010060'a'01_00000083 inode:128 186=09 | 2 image rule 16 inode 128 block 0
list IMAGE MANIFEST 128 | short:0100_00000080_010060'a'01_00000083 inode:128 185='/' | 2 image rule 21 inode 128 block 0

# a name that stands twice
list IMAGE MANIFEST 128 | short:0200_00000080_010060'a'01_00000084_010070'a'07_00000083 | 2 image rule 21 inode 128 block 0
# names of one hash, 0x30c1
list IMAGE MANIFEST 128 | short:0200_00000080_020060'aA'01_00000090_020070'`'c101_00000091 | 0 ok 2 / 145 reg `\c1 / 144 reg aA
";

/// A root in block form, its inode and its block.
const BLOCK_ROWS: &str = r"
# a name that stands twice, or is none
list IMAGE MANIFEST 128 | block:'a','a' | 2 image rule 21 inode 128 block 0
list IMAGE MANIFEST 128 | block:'a/b','c' | 2 image rule 21 inode 128 block 0
list IMAGE MANIFEST 128 | block:'c','..' | 2 image rule 21 inode 128 block 0
list IMAGE MANIFEST 128 | block:'c',00 | 2 image rule 21 inode 128 block 0
# names of one hash, 0x30c1
list IMAGE MANIFEST 128 | block:'aA','`'c1 | 0 ok 2 / 145 reg `\c1 / 144 reg aA

# a place in an entry that is not its own
list IMAGE MANIFEST 128 | block data:40 118=0068 | 2 image rule 17 inode 128 block 40
# free regions that touch
list IMAGE MANIFEST 128 | block data:40 48=01880e0801680020 362=0020 390=0168ffff0e08 3982=0188 | 2 image rule 17 inode 128 block 40
# the length in a pair of the header
list IMAGE MANIFEST 128 | block data:40 50=0e20 | 2 image rule 17 inode 128 block 40
# the other magic number, with a free region up to the end
list IMAGE MANIFEST 128 | block data:40 0='XDD3' 50=0e98 362=0e98 4094=0168 | 2 image rule 17 inode 128 block 40
# another owner, another block's place, another uuid
list IMAGE MANIFEST 128 | block data:40 47=81 | 2 image rule 17 inode 128 block 40
list IMAGE MANIFEST 128 | block data:40 14=0148 | 2 image rule 17 inode 128 block 40
list IMAGE MANIFEST 128 | block data:40 24=01 | 2 image rule 17 inode 128 block 40
# leaf entries in the other order, and a stale one too many
list IMAGE MANIFEST 128 | block data:40 3984=0000172e0000000a0000002e00000008 | 2 image rule 18 inode 128 block 40
list IMAGE MANIFEST 128 | block data:40 4092=00000001 | 2 image rule 18 inode 128 block 40
# a leaf entry of a free region, one of another entry, and a stale one that is an entry's
list IMAGE MANIFEST 128 | block data:40 4012=0000002d | 2 image rule 19 inode 128 block 0
list IMAGE MANIFEST 128 | block data:40 4012=00000027 | 2 image rule 19 inode 128 block 0
list IMAGE MANIFEST 128 | block data:40 4012=00000000 4092=00000001 | 2 image rule 19 inode 128 block 0

# broken inodes: the version, the own number, the uuid
list IMAGE MANIFEST 128 | block inode:128 4=02 | 2 image rule 10 inode 128 block 0
list IMAGE MANIFEST 128 | block inode:128 159=81 | 2 image rule 10 inode 128 block 0
list IMAGE MANIFEST 128 | block inode:128 160=01 | 2 image rule 10 inode 128 block 0
# the fork offset, the formats of the forks
list IMAGE MANIFEST 128 | block inode:128 82=2a | 2 image rule 11 inode 128 block 0
list IMAGE MANIFEST 128 | block inode:128 5=03 | 2 image rule 11 inode 128 block 0
list IMAGE MANIFEST 128 | block inode:128 83=03 | 2 image rule 11 inode 128 block 0
# the flag of the extent; its block is 0, the first and the last of the log, the one behind the image; no block
list IMAGE MANIFEST 128 | block inode:128 176=80 | 2 image rule 13 inode 128 block 0
list IMAGE MANIFEST 128 | block inode:128 188=00000001 | 2 image rule 13 inode 128 block 0
list IMAGE MANIFEST 128 | block inode:128 188=08000001 | 2 image rule 13 inode 128 block 0
list IMAGE MANIFEST 128 | block inode:128 188=47e00001 | 2 image rule 13 inode 128 block 0
list IMAGE MANIFEST 128 | block inode:128 188=48000001 | 2 image rule 13 inode 128 block 0
list IMAGE MANIFEST 128 | block inode:128 188=05000000 | 2 image rule 13 inode 128 block 0
# the size
list IMAGE MANIFEST 128 | block inode:128 62=20 | 2 image rule 15 inode 128 block 0
list IMAGE MANIFEST 128 | block inode:128 62=00 | 2 image rule 15 inode 128 block 0

# wrong checksums: the root's inode, and its block
list IMAGE MANIFEST 128 | block raw:65628 0=ff | 2 image rule 10 inode 128 block 0
list IMAGE MANIFEST 128 | block raw:163856 0=ff | 2 image rule 17 inode 128 block 40
list IMAGE MANIFEST 128 | block raw:164000 0='x' | 2 image rule 17 inode 128 block 40
list IMAGE MANIFEST 128 | block raw:0 65600='x' 164000='x' | 2 image rule 10 inode 128 block 0
list IMAGE MANIFEST 128 | block raw:0 10='x' 65600='x' 164000='x' | 2 image rule 1 inode 0 block 0
";

/// Which inodes are listed, and what comes first of two causes.
const CAUSE_ROWS: &str = r"
list IMAGE MANIFEST 128 | block | 0 ok 11 / 144 reg entry-0001 / 145 reg entry-0002 / 146 reg entry-0003 / 147 reg entry-0004 / 148 reg entry-0005 / 149 reg entry-0006 / 150 reg entry-0007 / 151 reg entry-0008 / 152 reg entry-0009 / 153 reg entry-0010 / 154 reg entry-0011
list IMAGE MANIFEST 146 | block | 0 error 20 ENOTDIR
list IMAGE MANIFEST 129 | block | 0 error 2 ENOENT
list IMAGE MANIFEST 4608 | block | 0 error 2 ENOENT
list IMAGE MANIFEST 18446744073709551615 | block | 0 error 2 ENOENT
list IMAGE MANIFEST 130 | block | 2 image rule 10 inode 130 block 0
# the same where it is the superblock's own, the bitmap's
list IMAGE MANIFEST 130 | block super 71=82 | 0 error 2 ENOENT

# superblocks that are refused: none, without parent pointers, one sector too few, a wrong checksum. No inode
# has the large number, which comes behind.
list IMAGE MANIFEST 128 | none | 2 image rule 1 inode 0 block 0
list IMAGE MANIFEST 18446744073709551615 | none | 2 image rule 1 inode 0 block 0
list IMAGE MANIFEST 18446744073709551615 | block super 219=01 | 2 image rule 1 inode 0 block 0
list IMAGE MANIFEST 18446744073709551615 | block sectors:4607 | 2 image rule 1 inode 0 block 0
list IMAGE MANIFEST 18446744073709551615 | block raw:0 10='x' | 2 image rule 1 inode 0 block 0

# two causes of a file: it has no links; it has no attribute fork
list IMAGE MANIFEST 144 | block inode:144 19=00 | 0 error 20 ENOTDIR
list IMAGE MANIFEST 144 | block inode:144 82=00 | 2 image rule 11 inode 144 block 0

# two causes of a directory that has no link: with one, with one and no attribute fork, with no attribute fork alone
list IMAGE MANIFEST 129 | block inode:129 19=01 | 0 ok 0
list IMAGE MANIFEST 129 | block inode:129 19=01 82=00 | 2 image rule 11 inode 129 block 0
list IMAGE MANIFEST 129 | block inode:129 82=00 | 2 image rule 11 inode 129 block 0
# another version and no attribute fork, a form of too few bytes, in no block, in no block with a link
list IMAGE MANIFEST 129 | block inode:129 4=02 82=00 | 2 image rule 10 inode 129 block 0
list IMAGE MANIFEST 129 | block inode:129 63=05 | 0 error 2 ENOENT
list IMAGE MANIFEST 129 | block inode:129 5=02 | 0 error 2 ENOENT
list IMAGE MANIFEST 129 | block inode:129 5=02 19=01 | 2 image rule 15 inode 129 block 0

# two causes of the root: its extent has two blocks, and is flagged; two blocks, and the inode has the size of one
list IMAGE MANIFEST 128 | block inode:128 176=80 191=02 | 2 image rule 13 inode 128 block 0
list IMAGE MANIFEST 128 | block inode:128 191=02 | 2 image rule 15 inode 128 block 0
# no link and no attribute fork
list IMAGE MANIFEST 128 | block inode:128 19=00 82=00 | 0 ok 11 / 144 reg entry-0001 / 145 reg entry-0002 / 146 reg entry-0003 / 147 reg entry-0004 / 148 reg entry-0005 / 149 reg entry-0006 / 150 reg entry-0007 / 151 reg entry-0008 / 152 reg entry-0009 / 153 reg entry-0010 / 154 reg entry-0011
";

#[test]
fn roots_in_short_form(rt: HostRuntime) {
    check_rows(&rt, Asked::Program, "short form", SHORT_ROWS);
}

#[test]
fn roots_in_block_form(rt: HostRuntime) {
    check_rows(&rt, Asked::Program, "block form", BLOCK_ROWS);
}

#[test]
fn inodes_and_causes(rt: HostRuntime) {
    check_rows(&rt, Asked::Program, "causes", CAUSE_ROWS);
}
