//! `check`: images that are accepted, and which rule is told of one that is not. Most have a root in short form with the file `a` or
//! the directory `d` (129), and the inodes 128 and 129; what is wrong is put behind.

use super::{Asked, check_rows};

/// As many calls as a check takes here, and more. Of the sample each block of inodes is read once, and then each directory twice.
pub(super) const CALLS: u64 = 192;

/// Images that are accepted.
const SOUND_ROWS: &str = r"
check IMAGE MANIFEST | sample manifest:'xfsns-manifest_1/chunk_128_0000000000000000/pool_512_64/' | 0 ok inodes 64 directories 16 entries 0 pending 0 free 64
# of it each of 8 blocks of inodes is read once and each directory twice, behind the superblock; the 42nd call tells the reply
check IMAGE MANIFEST | sample manifest:'xfsns-manifest_1/chunk_128_0000000000000000/pool_512_64/' fails:41 | 4
check IMAGE MANIFEST | sample manifest:'xfsns-manifest_1/chunk_128_0000000000000000/pool_512_64/' fails:42 | 6
# the root alone, also without attribute fork; a file and a directory that it names
check IMAGE MANIFEST | short:0000_00000080 manifest:'xfsns-manifest_1/chunk_128_fffffffffffffffe/' | 0 ok inodes 1 directories 1 entries 0 pending 0 free 0
check IMAGE MANIFEST | short:0000_00000080 inode:128 82=00 manifest:'xfsns-manifest_1/chunk_128_fffffffffffffffe/' | 0 ok inodes 1 directories 1 entries 0 pending 0 free 0
check IMAGE MANIFEST | short:0100_00000080_010060'a'01_00000081 file:129 inode:129 368=00140100_010c08'a'0000000000000080_00000001 manifest:'xfsns-manifest_1/chunk_128_fffffffffffffffc/' | 0 ok inodes 2 directories 1 entries 1 pending 0 free 0
check IMAGE MANIFEST | short:0100_00000080_010060'd'02_00000081 inode:128 16=00000003 dir:129:2:0000_00000080 inode:129 368=00140100_010c08'd'0000000000000080_00000001 manifest:'xfsns-manifest_1/chunk_128_fffffffffffffffc/' | 0 ok inodes 2 directories 2 entries 1 pending 0 free 0
# the root in block, leaf and node form
check IMAGE MANIFEST | block:'a','b' inode:144 368=00140100_010c08'a'0000000000000080_00000001 inode:145 368=00140100_010c08'b'0000000000000080_00000001 manifest:'xfsns-manifest_1/chunk_128_fffffffffffcfffe/' | 0 ok inodes 3 directories 1 entries 2 pending 0 free 0
check IMAGE MANIFEST | leaf:'a'/'b' inode:131 368=00140100_010c08'a'0000000000000080_00000001 inode:132 368=00140100_010c08'b'0000000000000080_00000001 manifest:'xfsns-manifest_1/chunk_128_ffffffffffffffe6/' | 0 ok inodes 3 directories 1 entries 2 pending 0 free 0
check IMAGE MANIFEST | node:2:'a'/'b' inode:131 368=00140100_010c08'a'0000000000000080_00000001 inode:132 368=00140100_010c08'b'0000000000000080_00000001 manifest:'xfsns-manifest_1/chunk_128_ffffffffffffffe6/' | 0 ok inodes 3 directories 1 entries 2 pending 0 free 0
# detached: a file, a directory with any dotdot
check IMAGE MANIFEST | short:0000_00000080 file:129 inode:129 16=00000000 manifest:'xfsns-manifest_1/chunk_128_fffffffffffffffc/' | 0 ok inodes 2 directories 1 entries 0 pending 0 free 0
check IMAGE MANIFEST | short:0000_00000080 dir:129:0:0000_00ffffff manifest:'xfsns-manifest_1/chunk_128_fffffffffffffffc/' | 0 ok inodes 2 directories 2 entries 0 pending 0 free 0
# two links of a file, whose records stand in another order; a directory in a directory, with a link of the same file
check IMAGE MANIFEST | short:0200_00000080_010060'a'01_00000081_010070'b'01_00000081 file:129 inode:129 16=00000002 368=00240200_010c08'b'0000000000000080_00000001_010c08'a'0000000000000080_00000001 manifest:'xfsns-manifest_1/chunk_128_fffffffffffffffc/' | 0 ok inodes 2 directories 1 entries 2 pending 0 free 0
check IMAGE MANIFEST | short:0200_00000080_010060'a'01_00000083_010070'd'02_00000081 inode:128 16=00000003 dir:129:3:0200_00000080_010060'a'01_00000083_010070'e'02_00000082 inode:129 368=00140100_010c08'd'0000000000000080_00000001 dir:130:2:0000_00000081 inode:130 368=00140100_010c08'e'0000000000000081_00000001 file:131 inode:131 16=00000002 368=00240200_010c08'a'0000000000000080_00000001_010c08'a'0000000000000081_00000001 manifest:'xfsns-manifest_1/chunk_128_fffffffffffffff0/' | 0 ok inodes 4 directories 3 entries 4 pending 0 free 0
# kinds that are neither; of what is no directory the data fork, its list and the count of blocks are not looked at
check IMAGE MANIFEST | short:0200_00000080_010060'c'03_00000081_010070'l'07_00000082 file:129 inode:129 2=21a4 5=00 368=00140100_010c08'c'0000000000000080_00000001 file:130 inode:130 2=a1ff 5=01 368=00140100_010c08'l'0000000000000080_00000001 manifest:'xfsns-manifest_1/chunk_128_fffffffffffffff8/' | 0 ok inodes 3 directories 1 entries 2 pending 0 free 0
check IMAGE MANIFEST | short:0100_00000080_010060'a'01_00000081 file:129 inode:129 368=00140100_010c08'a'0000000000000080_00000001 5=03 64=0000000000000005 76=00000002 176=ff manifest:'xfsns-manifest_1/chunk_128_fffffffffffffffc/' | 0 ok inodes 2 directories 1 entries 1 pending 0 free 0
# the generation of a directory; an attribute that is no record, and one fork of records in a leaf
check IMAGE MANIFEST | short:0100_00000080_010060'a'01_00000081 file:129 inode:129 368=00140100_010c08'a'0000000000000080_fffffffe inode:128 92=fffffffe manifest:'xfsns-manifest_1/chunk_128_fffffffffffffffc/' | 0 ok inodes 2 directories 1 entries 1 pending 0 free 0
check IMAGE MANIFEST | short:0100_00000080_010060'a'01_00000081 file:129 inode:129 368=00190200_010c08'a'0000000000000080_00000001_010100_62_63 manifest:'xfsns-manifest_1/chunk_128_fffffffffffffffc/' | 0 ok inodes 2 directories 1 entries 1 pending 0 free 0
check IMAGE MANIFEST | short:0100_00000080_010060'a'01_00000081 file:129 inode:129 attributes:129:8:8/'a'/000000000000008000000001 manifest:'xfsns-manifest_1/chunk_128_fffffffffffffffc/' | 0 ok inodes 2 directories 1 entries 1 pending 0 free 0
# of a directory the block of its attribute fork is counted
check IMAGE MANIFEST | short:0100_00000080_010060'd'02_00000081 inode:128 16=00000003 dir:129:2:0000_00000080 inode:129 64=0000000000000001 attributes:129:8:8/'d'/000000000000008000000001 manifest:'xfsns-manifest_1/chunk_128_fffffffffffffffc/' | 0 ok inodes 2 directories 2 entries 1 pending 0 free 0
# blocks of the pool that forks map are not free: that of the leaf, and that of the root
check IMAGE MANIFEST | short:0100_00000080_010060'a'01_00000081 file:129 inode:129 attributes:129:8:8/'a'/000000000000008000000001 manifest:'xfsns-manifest_1/chunk_128_fffffffffffffffc/pool_17_7/pool_24_1/pool_25_1/' | 0 ok inodes 2 directories 1 entries 1 pending 0 free 8
check IMAGE MANIFEST | block:'a','b' inode:144 368=00140100_010c08'a'0000000000000080_00000001 inode:145 368=00140100_010c08'b'0000000000000080_00000001 manifest:'xfsns-manifest_1/chunk_128_fffffffffffcfffe/pool_24_20/' | 0 ok inodes 3 directories 1 entries 2 pending 0 free 19
# the superblock's own inodes are not live, and may be anything
check IMAGE MANIFEST | short:0000_00000080 super 64=0000000000000081 manifest:'xfsns-manifest_1/chunk_128_fffffffffffffffc/' | 0 ok inodes 1 directories 1 entries 0 pending 0 free 0
";

/// Rules of the whole image, the least of which is told.
const IMAGE_ROWS: &str = r"
# 1: the superblock; 2: a block of the pool in which a listed inode stands, in the log, and a listed inode there
check IMAGE MANIFEST | short:0000_00000080 super 0=00 manifest:'xfsns-manifest_1/chunk_128_fffffffffffffffe/' | 2 image rule 1 inode 0 block 0
check IMAGE MANIFEST | sample manifest:'xfsns-manifest_1/chunk_128_0000000000000000/pool_16_1/' | 2 image rule 2 inode 0 block 0
check IMAGE MANIFEST | sample manifest:'xfsns-manifest_1/chunk_128_0000000000000000/pool_23_1/' | 2 image rule 2 inode 0 block 0
check IMAGE MANIFEST | sample manifest:'xfsns-manifest_1/chunk_128_0000000000000000/pool_512_65/' | 2 image rule 2 inode 0 block 0
check IMAGE MANIFEST | short:0000_00000080 manifest:'xfsns-manifest_1/chunk_128_fffffffffffffffe/chunk_512_fffffffffffffffe/' | 2 image rule 2 inode 0 block 0
check IMAGE MANIFEST | short:0000_00000080 manifest:'xfsns-manifest_1/chunk_128_fffffffffffffffe/pool_17_47/' | 0 ok inodes 1 directories 1 entries 0 pending 0 free 47
# 5: the root is not listed, is one of the superblock's own, is a file, or has no kind
check IMAGE MANIFEST | short:0000_00000080 manifest:'xfsns-manifest_1/' | 2 image rule 5 inode 0 block 0
check IMAGE MANIFEST | short:0000_00000080 super 64=0000000000000080 manifest:'xfsns-manifest_1/chunk_128_fffffffffffffffe/' | 2 image rule 5 inode 0 block 0
check IMAGE MANIFEST | short:0000_00000080 inode:128 2=81a4 manifest:'xfsns-manifest_1/chunk_128_fffffffffffffffe/' | 2 image rule 5 inode 0 block 0
check IMAGE MANIFEST | short:0000_00000080 inode:128 2=01ed manifest:'xfsns-manifest_1/chunk_128_fffffffffffffffe/' | 2 image rule 5 inode 0 block 0
# 9: a block that an attribute fork maps twice, and one in which a live inode stands; the one behind its inodes
check IMAGE MANIFEST | short:0100_00000080_010060'a'01_00000081 file:129 inode:129 attributes:129:8:8/'a'/000000000000008000000001 80=0002 368=0000000000000000_0000000003000001_0000000000000200_0000000003000001 manifest:'xfsns-manifest_1/chunk_128_fffffffffffffffc/' | 2 image rule 9 inode 0 block 0
check IMAGE MANIFEST | short:0100_00000080_010060'a'01_00000081 file:129 inode:129 attributes:129:8:8/'a'/000000000000008000000001 80=0002 368=0000000000000000_0000000003000001_0000000000000200_0000000002000001 manifest:'xfsns-manifest_1/chunk_128_fffffffffffffffc/' | 2 image rule 9 inode 0 block 0
check IMAGE MANIFEST | short:0100_00000080_010060'a'01_00000081 file:129 inode:129 attributes:129:8:8/'a'/000000000000008000000001 80=0002 368=0000000000000000_0000000003000001_0000000000000200_0000000002200001 manifest:'xfsns-manifest_1/chunk_128_fffffffffffffffc/' | 0 ok inodes 2 directories 1 entries 1 pending 0 free 0
check IMAGE MANIFEST | short:0100_00000080_010060'a'01_00000081 file:129 inode:129 attributes:129:8:8/'a'/000000000000008000000001 80=0002 368=0000000000000000_0000000003000001_0000000000000200_0000000001e00002 manifest:'xfsns-manifest_1/chunk_128_fffffffffffffffc/' | 2 image rule 9 inode 0 block 0
check IMAGE MANIFEST | short:0100_00000080_010060'a'01_00000081 file:129 inode:129 attributes:129:8:8/'a'/000000000000008000000001 80=0002 368=0000000000000000_0000000003000001_0000000000000200_0000000001e00001 manifest:'xfsns-manifest_1/chunk_128_fffffffffffffffc/' | 0 ok inodes 2 directories 1 entries 1 pending 0 free 0
# a block that one maps is the root's, and the one before it; no block of a file's data
check IMAGE MANIFEST | block:'a','b' attributes:144:8:8/'a'/000000000000008000000001 inode:144 376=0000000003000011 inode:145 368=00140100_010c08'b'0000000000000080_00000001 manifest:'xfsns-manifest_1/chunk_128_fffffffffffcfffe/' | 2 image rule 9 inode 0 block 0
check IMAGE MANIFEST | block:'a','b' attributes:144:8:8/'a'/000000000000008000000001 inode:144 376=0000000003000010 inode:145 368=00140100_010c08'b'0000000000000080_00000001 manifest:'xfsns-manifest_1/chunk_128_fffffffffffcfffe/' | 0 ok inodes 3 directories 1 entries 2 pending 0 free 0
check IMAGE MANIFEST | short:0100_00000080_010060'a'01_00000081 file:129 inode:129 368=00140100_010c08'a'0000000000000080_00000001 76=00000001 176=0000000000000000_0000000002000001 manifest:'xfsns-manifest_1/chunk_128_fffffffffffffffc/' | 0 ok inodes 2 directories 1 entries 1 pending 0 free 0
# also where the blocks' contents, links and records are wrong, and that of an inode without a name
check IMAGE MANIFEST | block:'a','b' attributes:144:8:8/'a'/000000000000008000000001 inode:144 376=0000000003000011 inode:145 368=00140100_010c08'b'0000000000000080_00000001 data:40 0=00 manifest:'xfsns-manifest_1/chunk_128_fffffffffffcfffe/' | 2 image rule 9 inode 0 block 0
check IMAGE MANIFEST | short:0000_00000080 file:129 inode:129 16=00000000 attributes:129:8:8/'a'/000000000000008000000001 80=0002 368=0000000000000000_0000000003000001_0000000000000200_0000000003000001 manifest:'xfsns-manifest_1/chunk_128_fffffffffffffffc/' | 2 image rule 9 inode 0 block 0
# not of an inode of which 10, 11 or 13 is broken
check IMAGE MANIFEST | short:0100_00000080_010060'a'01_00000081 file:129 inode:129 attributes:129:8:8/'a'/000000000000008000000001 80=0002 368=0000000000000000_0000000003000001_0000000000000200_0000000003000001 4=02 manifest:'xfsns-manifest_1/chunk_128_fffffffffffffffc/' | 2 image rule 10 inode 129 block 0
check IMAGE MANIFEST | short:0000_00000080 file:129 inode:129 16=00000000 attributes:129:8:8/'a'/000000000000008000000001 80=0002 368=0000000000000000_0000000003000001_0000000000000200_0000000003000001 2=01a4 manifest:'xfsns-manifest_1/chunk_128_fffffffffffffffc/' | 2 image rule 11 inode 129 block 0
check IMAGE MANIFEST | short:0100_00000080_010060'a'01_00000081 file:129 inode:129 attributes:129:8:8/'a'/000000000000008000000001 80=0002 368=0000000000000000_0000000003000001_0000000000000200_8000000003000001 manifest:'xfsns-manifest_1/chunk_128_fffffffffffffffc/' | 2 image rule 13 inode 129 block 0
# 2 before 5, 5 before 9, and 9 before those of inodes
check IMAGE MANIFEST | short:0000_00000080 manifest:'xfsns-manifest_1/pool_64_1/' | 2 image rule 2 inode 0 block 0
check IMAGE MANIFEST | short:0000_00000080 file:129 inode:129 16=00000000 attributes:129:8:8/'a'/000000000000008000000001 80=0002 368=0000000000000000_0000000003000001_0000000000000200_0000000003000001 manifest:'xfsns-manifest_1/chunk_128_fffffffffffffffd/' | 2 image rule 5 inode 0 block 0
check IMAGE MANIFEST | short:0000_00000080 file:129 inode:129 16=00000000 attributes:129:8:8/'a'/000000000000008000000001 80=0002 368=0000000000000000_0000000003000001_0000000000000200_0000000003000001 inode:128 4=02 manifest:'xfsns-manifest_1/chunk_128_fffffffffffffffc/' | 2 image rule 9 inode 0 block 0
check IMAGE MANIFEST | short:0000_00000080 inode:128 2=81a4 4=02 manifest:'xfsns-manifest_1/chunk_128_fffffffffffffffe/' | 2 image rule 5 inode 0 block 0
";

/// Rules that an inode breaks by itself, each of them alone.
const ALONE_ROWS: &str = r"
# 10: magic, version, checksum, own number, uuid; of the root, of a directory, of a file with a name and without; zeros
check IMAGE MANIFEST | short:0100_00000080_010060'a'01_00000081 file:129 inode:129 368=00140100_010c08'a'0000000000000080_00000001 0=494f manifest:'xfsns-manifest_1/chunk_128_fffffffffffffffc/' | 2 image rule 10 inode 129 block 0
check IMAGE MANIFEST | short:0100_00000080_010060'd'02_00000081 inode:128 16=00000003 dir:129:2:0000_00000080 inode:129 368=00140100_010c08'd'0000000000000080_00000001 4=02 manifest:'xfsns-manifest_1/chunk_128_fffffffffffffffc/' | 2 image rule 10 inode 129 block 0
check IMAGE MANIFEST | short:0000_00000080 file:129 inode:129 16=00000000 raw:66048 100=00000000 manifest:'xfsns-manifest_1/chunk_128_fffffffffffffffc/' | 2 image rule 10 inode 129 block 0
check IMAGE MANIFEST | short:0000_00000080 inode:128 159=81 manifest:'xfsns-manifest_1/chunk_128_fffffffffffffffe/' | 2 image rule 10 inode 128 block 0
check IMAGE MANIFEST | short:0000_00000080 dir:129:0:0000_00000080 inode:129 175=00 manifest:'xfsns-manifest_1/chunk_128_fffffffffffffffc/' | 2 image rule 10 inode 129 block 0
check IMAGE MANIFEST | short:0000_00000080 manifest:'xfsns-manifest_1/chunk_128_fffffffffffffffc/' | 2 image rule 10 inode 129 block 0
# 11: no kind, no attribute fork, one behind the inode, formats
check IMAGE MANIFEST | short:0000_00000080 file:129 inode:129 16=00000000 2=01a4 manifest:'xfsns-manifest_1/chunk_128_fffffffffffffffc/' | 2 image rule 11 inode 129 block 0
check IMAGE MANIFEST | short:0100_00000080_010060'a'01_00000081 file:129 inode:129 368=00140100_010c08'a'0000000000000080_00000001 82=00 manifest:'xfsns-manifest_1/chunk_128_fffffffffffffffc/' | 2 image rule 11 inode 129 block 0
check IMAGE MANIFEST | short:0100_00000080_010060'd'02_00000081 inode:128 16=00000003 dir:129:2:0000_00000080 inode:129 368=00140100_010c08'd'0000000000000080_00000001 82=2a manifest:'xfsns-manifest_1/chunk_128_fffffffffffffffc/' | 2 image rule 11 inode 129 block 0
check IMAGE MANIFEST | short:0100_00000080_010060'a'01_00000081 file:129 inode:129 368=00140100_010c08'a'0000000000000080_00000001 83=03 manifest:'xfsns-manifest_1/chunk_128_fffffffffffffffc/' | 2 image rule 11 inode 129 block 0
check IMAGE MANIFEST | short:0100_00000080_010060'd'02_00000081 inode:128 16=00000003 dir:129:2:0000_00000080 inode:129 368=00140100_010c08'd'0000000000000080_00000001 5=03 manifest:'xfsns-manifest_1/chunk_128_fffffffffffffffc/' | 2 image rule 11 inode 129 block 0
# 13: in the log, in block 0, unwritten; of a directory's data fork; two that overlap in the file
check IMAGE MANIFEST | short:0100_00000080_010060'a'01_00000081 file:129 inode:129 attributes:129:8:8/'a'/000000000000008000000001 376=0000000008000001 manifest:'xfsns-manifest_1/chunk_128_fffffffffffffffc/' | 2 image rule 13 inode 129 block 0
check IMAGE MANIFEST | short:0100_00000080_010060'a'01_00000081 file:129 inode:129 attributes:129:8:8/'a'/000000000000008000000001 376=0000000000000001 manifest:'xfsns-manifest_1/chunk_128_fffffffffffffffc/' | 2 image rule 13 inode 129 block 0
check IMAGE MANIFEST | short:0100_00000080_010060'a'01_00000081 file:129 inode:129 attributes:129:8:8/'a'/000000000000008000000001 368=80 manifest:'xfsns-manifest_1/chunk_128_fffffffffffffffc/' | 2 image rule 13 inode 129 block 0
check IMAGE MANIFEST | block:'a','b' inode:144 16=00000000 inode:145 16=00000000 inode:128 188=08000001 manifest:'xfsns-manifest_1/chunk_128_fffffffffffcfffe/' | 2 image rule 13 inode 128 block 0
check IMAGE MANIFEST | short:0100_00000080_010060'a'01_00000081 file:129 inode:129 attributes:129:8:8/'a'/000000000000008000000001 80=0002 368=0000000000000000_0000000003000002_0000000000000200_0000000003400001 manifest:'xfsns-manifest_1/chunk_128_fffffffffffffffc/' | 2 image rule 13 inode 129 block 0
# 14: a block in short form, none in block form, not that of the attribute fork
check IMAGE MANIFEST | short:0100_00000080_010060'd'02_00000081 inode:128 16=00000003 dir:129:2:0000_00000080 inode:129 368=00140100_010c08'd'0000000000000080_00000001 64=0000000000000001 manifest:'xfsns-manifest_1/chunk_128_fffffffffffffffc/' | 2 image rule 14 inode 129 block 0
check IMAGE MANIFEST | block:'a','b' inode:144 368=00140100_010c08'a'0000000000000080_00000001 inode:145 368=00140100_010c08'b'0000000000000080_00000001 inode:128 64=0000000000000000 manifest:'xfsns-manifest_1/chunk_128_fffffffffffcfffe/' | 2 image rule 14 inode 128 block 0
check IMAGE MANIFEST | short:0100_00000080_010060'd'02_00000081 inode:128 16=00000003 dir:129:2:0000_00000080 inode:129 attributes:129:8:8/'d'/000000000000008000000001 manifest:'xfsns-manifest_1/chunk_128_fffffffffffffffc/' | 2 image rule 14 inode 129 block 0
# 15: more than the fork has, more than the blocks; 16: more entries than there are, a byte behind the last
check IMAGE MANIFEST | short:0100_00000080_010060'd'02_00000081 inode:128 16=00000003 dir:129:2:0000_00000080 inode:129 368=00140100_010c08'd'0000000000000080_00000001 56=00000000000000c1 manifest:'xfsns-manifest_1/chunk_128_fffffffffffffffc/' | 2 image rule 15 inode 129 block 0
check IMAGE MANIFEST | block:'a','b' inode:144 16=00000000 inode:145 16=00000000 inode:128 56=0000000000002000 manifest:'xfsns-manifest_1/chunk_128_fffffffffffcfffe/' | 2 image rule 15 inode 128 block 0
check IMAGE MANIFEST | short:0100_00000080_010060'd'02_00000081 inode:128 16=00000003 dir:129:2:0000_00000080 inode:129 368=00140100_010c08'd'0000000000000080_00000001 176=01 manifest:'xfsns-manifest_1/chunk_128_fffffffffffffffc/' | 2 image rule 16 inode 129 block 0
check IMAGE MANIFEST | short:0100_00000080_010060'd'02_00000081 inode:128 16=00000003 dir:129:2:0000_00000080 inode:129 368=00140100_010c08'd'0000000000000080_00000001 56=0000000000000007 manifest:'xfsns-manifest_1/chunk_128_fffffffffffffffc/' | 2 image rule 16 inode 129 block 0
# 17 to 20, in blocks: headers, dot's name, hashes, bests
check IMAGE MANIFEST | block:'a','b' inode:144 16=00000000 inode:145 16=00000000 data:40 0=58444433 manifest:'xfsns-manifest_1/chunk_128_fffffffffffcfffe/' | 2 image rule 17 inode 128 block 40
check IMAGE MANIFEST | block:'a','b' inode:144 16=00000000 inode:145 16=00000000 data:40 73='x' manifest:'xfsns-manifest_1/chunk_128_fffffffffffcfffe/' | 2 image rule 17 inode 128 block 40
check IMAGE MANIFEST | leaf:'a'/'b' inode:131 16=00000000 inode:132 16=00000000 data:41 40=0000000000000081 manifest:'xfsns-manifest_1/chunk_128_ffffffffffffffe6/' | 2 image rule 17 inode 128 block 41
check IMAGE MANIFEST | block:'a','b' inode:144 16=00000000 inode:145 16=00000000 data:40 4092=00000001 manifest:'xfsns-manifest_1/chunk_128_fffffffffffcfffe/' | 2 image rule 18 inode 128 block 40
check IMAGE MANIFEST | leaf:'a'/'b' inode:131 16=00000000 inode:132 16=00000000 hashed:48 8=3dff manifest:'xfsns-manifest_1/chunk_128_ffffffffffffffe6/' | 2 image rule 18 inode 128 block 48
check IMAGE MANIFEST | node:2:'a'/'b' inode:131 16=00000000 inode:132 16=00000000 hashed:50 8=3df1 manifest:'xfsns-manifest_1/chunk_128_ffffffffffffffe6/' | 2 image rule 18 inode 128 block 50
check IMAGE MANIFEST | block:'a','b' inode:144 16=00000000 inode:145 16=00000000 data:40 4076=00000060 manifest:'xfsns-manifest_1/chunk_128_fffffffffffcfffe/' | 2 image rule 19 inode 128 block 0
check IMAGE MANIFEST | leaf:'a'/'b' inode:131 16=00000000 inode:132 16=00000000 hashed:48 76=00000008 manifest:'xfsns-manifest_1/chunk_128_ffffffffffffffe6/' | 2 image rule 19 inode 128 block 0
check IMAGE MANIFEST | leaf:'a'/'b' inode:131 16=00000000 inode:132 16=00000000 hashed:48 4088=0f40 manifest:'xfsns-manifest_1/chunk_128_ffffffffffffffe6/' | 2 image rule 20 inode 128 block 0
check IMAGE MANIFEST | node:2:'a'/'b' inode:131 16=00000000 inode:132 16=00000000 free:56 64=0f40 manifest:'xfsns-manifest_1/chunk_128_ffffffffffffffe6/' | 2 image rule 20 inode 128 block 0
# 21, the names: one twice, in short and in block form, and one with a slash
check IMAGE MANIFEST | short:0200_00000080_010060'a'01_00000081_010070'a'01_00000081 file:129 inode:129 16=00000000 manifest:'xfsns-manifest_1/chunk_128_fffffffffffffffc/' | 2 image rule 21 inode 128 block 0
check IMAGE MANIFEST | short:0100_00000080_030060'a/b'01_00000081 file:129 inode:129 16=00000000 manifest:'xfsns-manifest_1/chunk_128_fffffffffffffffc/' | 2 image rule 21 inode 128 block 0
check IMAGE MANIFEST | block:'a','a' inode:144 16=00000000 inode:145 16=00000000 manifest:'xfsns-manifest_1/chunk_128_fffffffffffcfffe/' | 2 image rule 21 inode 128 block 0
# 24 and 25: a fork's size and count, a leaf's magic and a hash; 26: a value of 11 bytes, a name that none is, one left unended, one twice
check IMAGE MANIFEST | short:0100_00000080_010060'a'01_00000081 file:129 inode:129 368=00140100_010c08'a'0000000000000080_00000001 369=15 manifest:'xfsns-manifest_1/chunk_128_fffffffffffffffc/' | 2 image rule 24 inode 129 block 0
check IMAGE MANIFEST | short:0100_00000080_010060'd'02_00000081 inode:128 16=00000003 dir:129:2:0000_00000080 inode:129 368=00140100_010c08'd'0000000000000080_00000001 370=02 manifest:'xfsns-manifest_1/chunk_128_fffffffffffffffc/' | 2 image rule 24 inode 129 block 0
check IMAGE MANIFEST | short:0100_00000080_010060'a'01_00000081 file:129 inode:129 attributes:129:8:8/'a'/000000000000008000000001 hashed:24 8=3bed manifest:'xfsns-manifest_1/chunk_128_fffffffffffffffc/' | 2 image rule 25 inode 129 block 24
check IMAGE MANIFEST | short:0100_00000080_010060'd'02_00000081 inode:128 16=00000003 dir:129:2:0000_00000080 inode:129 64=0000000000000001 attributes:129:8:8/'d'/000000000000008000000001 hashed:24 80=00000001 manifest:'xfsns-manifest_1/chunk_128_fffffffffffffffc/' | 2 image rule 25 inode 129 block 24
check IMAGE MANIFEST | short:0100_00000080_010060'a'01_00000081 file:129 inode:129 368=00130100_010b08'a'0000000000000080_000000 manifest:'xfsns-manifest_1/chunk_128_fffffffffffffffc/' | 2 image rule 26 inode 129 block 0
check IMAGE MANIFEST | short:0000_00000080 file:129 inode:129 16=00000000 368=00150100_020c08'..'0000000000000080_00000001 manifest:'xfsns-manifest_1/chunk_128_fffffffffffffffc/' | 2 image rule 26 inode 129 block 0
check IMAGE MANIFEST | short:0100_00000080_010060'a'01_00000081 file:129 inode:129 368=00140100_010c88'a'0000000000000080_00000001 manifest:'xfsns-manifest_1/chunk_128_fffffffffffffffc/' | 2 image rule 26 inode 129 block 0
check IMAGE MANIFEST | short:0100_00000080_010060'a'01_00000081 file:129 inode:129 368=00240200_010c08'a'0000000000000080_00000001_010c08'a'0000000000000080_00000001 manifest:'xfsns-manifest_1/chunk_128_fffffffffffffffc/' | 2 image rule 26 inode 129 block 0
";

/// Rules between inodes, each of them broken alone, but where two are said.
const BETWEEN_ROWS: &str = r"
# 12: of a file one link more, one less, and without a name; of the root with a directory, of one without, and detached; of the root alone
check IMAGE MANIFEST | short:0100_00000080_010060'a'01_00000081 file:129 inode:129 368=00140100_010c08'a'0000000000000080_00000001 16=00000002 manifest:'xfsns-manifest_1/chunk_128_fffffffffffffffc/' | 2 image rule 12 inode 129 block 0
check IMAGE MANIFEST | short:0100_00000080_010060'a'01_00000081 file:129 inode:129 368=00140100_010c08'a'0000000000000080_00000001 16=00000000 manifest:'xfsns-manifest_1/chunk_128_fffffffffffffffc/' | 2 image rule 12 inode 129 block 0
check IMAGE MANIFEST | short:0000_00000080 file:129 inode:129 16=00000000 16=00000001 manifest:'xfsns-manifest_1/chunk_128_fffffffffffffffc/' | 2 image rule 12 inode 129 block 0
check IMAGE MANIFEST | short:0100_00000080_010060'd'02_00000081 inode:128 16=00000003 dir:129:2:0000_00000080 inode:129 368=00140100_010c08'd'0000000000000080_00000001 inode:128 16=00000002 manifest:'xfsns-manifest_1/chunk_128_fffffffffffffffc/' | 2 image rule 12 inode 128 block 0
check IMAGE MANIFEST | short:0100_00000080_010060'd'02_00000081 inode:128 16=00000003 dir:129:2:0000_00000080 inode:129 368=00140100_010c08'd'0000000000000080_00000001 16=00000003 manifest:'xfsns-manifest_1/chunk_128_fffffffffffffffc/' | 2 image rule 12 inode 129 block 0
check IMAGE MANIFEST | short:0100_00000080_010060'd'02_00000081 inode:128 16=00000003 dir:129:2:0000_00000080 inode:129 368=00140100_010c08'd'0000000000000080_00000001 16=00000000 manifest:'xfsns-manifest_1/chunk_128_fffffffffffffffc/' | 2 image rule 12 inode 129 block 0
check IMAGE MANIFEST | short:0000_00000080 dir:129:2:0000_00000080 manifest:'xfsns-manifest_1/chunk_128_fffffffffffffffc/' | 2 image rule 12 inode 129 block 0
check IMAGE MANIFEST | short:0000_00000080 inode:128 16=00000000 manifest:'xfsns-manifest_1/chunk_128_fffffffffffffffe/' | 2 image rule 12 inode 128 block 0
# 21: an inode that is not listed, is the superblock's own, or is of another kind
check IMAGE MANIFEST | short:0100_00000080_010060'a'01_00000081 manifest:'xfsns-manifest_1/chunk_128_fffffffffffffffe/' | 2 image rule 21 inode 128 block 0
check IMAGE MANIFEST | short:0100_00000080_010060'a'01_00000081 super 232=0000000000000081 manifest:'xfsns-manifest_1/chunk_128_fffffffffffffffc/' | 2 image rule 21 inode 128 block 0
check IMAGE MANIFEST | short:0100_00000080_010060'a'02_00000081 inode:128 16=00000003 file:129 inode:129 16=00000000 manifest:'xfsns-manifest_1/chunk_128_fffffffffffffffc/' | 2 image rule 21 inode 128 block 0
check IMAGE MANIFEST | short:0100_00000080_010060'a'01_00000081 dir:129:0:0000_00000080 manifest:'xfsns-manifest_1/chunk_128_fffffffffffffffc/' | 2 image rule 21 inode 128 block 0
# not the kind of an inode of which 10 or 11 is broken
check IMAGE MANIFEST | short:0100_00000080_010060'a'02_00000081 inode:128 16=00000003 manifest:'xfsns-manifest_1/chunk_128_fffffffffffffffc/' | 2 image rule 10 inode 129 block 0
check IMAGE MANIFEST | short:0100_00000080_010060'a'02_00000081 inode:128 16=00000003 file:129 inode:129 82=00 manifest:'xfsns-manifest_1/chunk_128_fffffffffffffffc/' | 2 image rule 11 inode 129 block 0
# 22: dot in block form; dotdot of the root in block and in short form, of a directory in the root and of one below
check IMAGE MANIFEST | block:'a','b' inode:144 368=00140100_010c08'a'0000000000000080_00000001 inode:145 368=00140100_010c08'b'0000000000000080_00000001 data:40 71=90 manifest:'xfsns-manifest_1/chunk_128_fffffffffffcfffe/' | 2 image rule 22 inode 128 block 0
check IMAGE MANIFEST | block:'a','b' inode:144 368=00140100_010c08'a'0000000000000080_00000001 inode:145 368=00140100_010c08'b'0000000000000080_00000001 data:40 87=90 manifest:'xfsns-manifest_1/chunk_128_fffffffffffcfffe/' | 2 image rule 22 inode 128 block 0
check IMAGE MANIFEST | short:0000_00000081 manifest:'xfsns-manifest_1/chunk_128_fffffffffffffffe/' | 2 image rule 22 inode 128 block 0
check IMAGE MANIFEST | short:0100_00000080_010060'd'02_00000081 inode:128 16=00000003 dir:129:2:0000_00000080 inode:129 368=00140100_010c08'd'0000000000000080_00000001 181=81 manifest:'xfsns-manifest_1/chunk_128_fffffffffffffffc/' | 2 image rule 22 inode 129 block 0
check IMAGE MANIFEST | short:0200_00000080_010060'a'01_00000083_010070'd'02_00000081 inode:128 16=00000003 dir:129:3:0200_00000080_010060'a'01_00000083_010070'e'02_00000082 inode:129 368=00140100_010c08'd'0000000000000080_00000001 dir:130:2:0000_00000081 inode:130 368=00140100_010c08'e'0000000000000081_00000001 file:131 inode:131 16=00000002 368=00240200_010c08'a'0000000000000080_00000001_010c08'a'0000000000000081_00000001 inode:130 181=80 manifest:'xfsns-manifest_1/chunk_128_fffffffffffffff0/' | 2 image rule 22 inode 130 block 0
# 23: an entry for the root; one for a directory in itself; two for one directory, in one and in two; a detached one with a file
check IMAGE MANIFEST | short:0100_00000080_010060'r'02_00000080 inode:128 16=00000003 368=00140100_010c08'r'0000000000000080_00000001 manifest:'xfsns-manifest_1/chunk_128_fffffffffffffffe/' | 2 image rule 23 inode 128 block 0
check IMAGE MANIFEST | short:0000_00000080 dir:129:3:0100_00000081_010060's'02_00000081 inode:129 368=00140100_010c08's'0000000000000081_00000001 manifest:'xfsns-manifest_1/chunk_128_fffffffffffffffc/' | 2 image rule 23 inode 129 block 0
check IMAGE MANIFEST | short:0200_00000080_010060'd'02_00000081_010070'e'02_00000081 inode:128 16=00000004 dir:129:2:0000_00000080 inode:129 368=00240200_010c08'd'0000000000000080_00000001_010c08'e'0000000000000080_00000001 manifest:'xfsns-manifest_1/chunk_128_fffffffffffffffc/' | 2 image rule 23 inode 129 block 0
check IMAGE MANIFEST | short:0200_00000080_010060'd'02_00000081_010070'e'02_00000082 inode:128 16=00000004 dir:129:2:0000_00000080 inode:129 368=00240200_010c08'd'0000000000000080_00000001_010c08'f'0000000000000082_00000001 dir:130:3:0100_00000080_010060'f'02_00000081 inode:130 368=00140100_010c08'e'0000000000000080_00000001 manifest:'xfsns-manifest_1/chunk_128_fffffffffffffff8/' | 2 image rule 23 inode 129 block 0
check IMAGE MANIFEST | short:0000_00000080 dir:129:0:0100_00000080_010060'f'01_00000082 file:130 inode:130 368=00140100_010c08'f'0000000000000081_00000001 manifest:'xfsns-manifest_1/chunk_128_fffffffffffffff8/' | 2 image rule 23 inode 129 block 0
# of two, as always, the least is told: a directory in a detached one, and a loop of two, to which nothing leads
check IMAGE MANIFEST | short:0000_00000080 dir:129:2:0000_00000082 inode:129 368=00140100_010c08'd'0000000000000082_00000001 dir:130:0:0100_00000080_010060'd'02_00000081 manifest:'xfsns-manifest_1/chunk_128_fffffffffffffff8/' | 2 image rule 23 inode 129 block 0
check IMAGE MANIFEST | short:0000_00000080 dir:129:3:0100_00000082_010060'x'02_00000082 inode:129 368=00140100_010c08'y'0000000000000082_00000001 dir:130:3:0100_00000081_010060'y'02_00000081 inode:130 368=00140100_010c08'x'0000000000000081_00000001 manifest:'xfsns-manifest_1/chunk_128_fffffffffffffff8/' | 2 image rule 23 inode 129 block 0
# a loop to which an entry leads: its directory is named twice
check IMAGE MANIFEST | short:0100_00000080_010060'd'02_00000082 inode:128 16=00000003 dir:129:3:0100_00000082_010060'x'02_00000082 inode:129 368=00140100_010c08'y'0000000000000082_00000001 dir:130:3:0100_00000081_010060'y'02_00000081 inode:130 368=00140100_010c08'x'0000000000000081_00000001 inode:130 368=00240200_010c08'x'0000000000000081_00000001_010c08'd'0000000000000080_00000001 manifest:'xfsns-manifest_1/chunk_128_fffffffffffffff8/' | 2 image rule 23 inode 130 block 0
# 27: a record without entry, of a file, a directory and the root; an entry without record; another generation, name, directory; one too many
check IMAGE MANIFEST | short:0000_00000080 file:129 inode:129 16=00000000 368=00140100_010c08'a'0000000000000080_00000001 manifest:'xfsns-manifest_1/chunk_128_fffffffffffffffc/' | 2 image rule 27 inode 129 block 0
check IMAGE MANIFEST | short:0000_00000080 dir:129:0:0000_00000080 inode:129 368=00140100_010c08'a'0000000000000080_00000001 manifest:'xfsns-manifest_1/chunk_128_fffffffffffffffc/' | 2 image rule 27 inode 129 block 0
check IMAGE MANIFEST | short:0000_00000080 inode:128 368=00140100_010c08'a'0000000000000080_00000001 manifest:'xfsns-manifest_1/chunk_128_fffffffffffffffe/' | 2 image rule 27 inode 128 block 0
check IMAGE MANIFEST | short:0100_00000080_010060'a'01_00000081 file:129 inode:129 4=03 manifest:'xfsns-manifest_1/chunk_128_fffffffffffffffc/' | 2 image rule 27 inode 129 block 0
check IMAGE MANIFEST | short:0100_00000080_010060'd'02_00000081 inode:128 16=00000003 dir:129:2:0000_00000080 inode:129 4=03 manifest:'xfsns-manifest_1/chunk_128_fffffffffffffffc/' | 2 image rule 27 inode 129 block 0
check IMAGE MANIFEST | short:0100_00000080_010060'a'01_00000081 file:129 inode:129 368=00140100_010c08'a'0000000000000080_00000002 manifest:'xfsns-manifest_1/chunk_128_fffffffffffffffc/' | 2 image rule 27 inode 129 block 0
check IMAGE MANIFEST | short:0100_00000080_010060'a'01_00000081 file:129 inode:129 368=00140100_010c08'b'0000000000000080_00000001 manifest:'xfsns-manifest_1/chunk_128_fffffffffffffffc/' | 2 image rule 27 inode 129 block 0
check IMAGE MANIFEST | short:0100_00000080_010060'a'01_00000081 file:129 inode:129 368=00140100_010c08'a'0000000000000081_00000001 manifest:'xfsns-manifest_1/chunk_128_fffffffffffffffc/' | 2 image rule 27 inode 129 block 0
check IMAGE MANIFEST | short:0100_00000080_010060'a'01_00000081 file:129 inode:129 368=00240200_010c08'a'0000000000000080_00000001_010c08'a'0000000000000080_00000002 manifest:'xfsns-manifest_1/chunk_128_fffffffffffffffc/' | 2 image rule 27 inode 129 block 0
check IMAGE MANIFEST | short:0100_00000080_010060'a'01_00000081 file:129 inode:129 attributes:129:8:8/'a'/000000000000008000000002 manifest:'xfsns-manifest_1/chunk_128_fffffffffffffffc/' | 2 image rule 27 inode 129 block 0
";

/// Of two that are broken the least inode, and of that the least rule; and a rule that is not looked at where one that it needs is broken.
const PAIR_ROWS: &str = r"
# two inodes, the least of which breaks the greater rule
check IMAGE MANIFEST | short:0100_00000080_010060'a'01_00000081 file:129 manifest:'xfsns-manifest_1/chunk_128_fffffffffffffff8/' | 2 image rule 27 inode 129 block 0
check IMAGE MANIFEST | short:0100_00000080_010060'd'02_00000081 inode:128 16=00000003 dir:129:2:0000_00000080 inode:129 368=00140100_010c08'd'0000000000000080_00000001 181=81 inode:128 16=00000004 manifest:'xfsns-manifest_1/chunk_128_fffffffffffffffc/' | 2 image rule 12 inode 128 block 0
check IMAGE MANIFEST | short:0100_00000080_010060'a'01_00000081 file:129 inode:129 368=00140100_010c08'a'0000000000000080_00000001 369=15 inode:128 64=0000000000000001 manifest:'xfsns-manifest_1/chunk_128_fffffffffffffffc/' | 2 image rule 14 inode 128 block 0
# 12 and another of a file: 12 where its core and forks are right
check IMAGE MANIFEST | short:0100_00000080_010060'a'01_00000081 file:129 inode:129 16=00000002 manifest:'xfsns-manifest_1/chunk_128_fffffffffffffffc/' | 2 image rule 12 inode 129 block 0
check IMAGE MANIFEST | short:0100_00000080_010060'a'01_00000081 file:129 inode:129 368=00140100_010c08'a'0000000000000080_00000001 16=00000002 369=15 manifest:'xfsns-manifest_1/chunk_128_fffffffffffffffc/' | 2 image rule 12 inode 129 block 0
check IMAGE MANIFEST | short:0100_00000080_010060'a'01_00000081 file:129 inode:129 attributes:129:8:8/'a'/000000000000008000000001 376=0000000008000001 16=00000002 manifest:'xfsns-manifest_1/chunk_128_fffffffffffffffc/' | 2 image rule 12 inode 129 block 0
check IMAGE MANIFEST | short:0100_00000080_010060'a'01_00000081 file:129 inode:129 368=00140100_010c08'a'0000000000000080_00000001 16=00000002 82=00 manifest:'xfsns-manifest_1/chunk_128_fffffffffffffffc/' | 2 image rule 11 inode 129 block 0
check IMAGE MANIFEST | short:0100_00000080_010060'a'01_00000081 file:129 inode:129 368=00140100_010c08'a'0000000000000080_00000001 16=00000002 4=02 manifest:'xfsns-manifest_1/chunk_128_fffffffffffffffc/' | 2 image rule 10 inode 129 block 0
# of a directory 12 only where it is whole; 14 before 16, 22 before 23 and 27, 21 before 24
check IMAGE MANIFEST | short:0100_00000080_010060'd'02_00000081 inode:128 16=00000003 dir:129:2:0000_00000080 inode:129 368=00140100_010c08'd'0000000000000080_00000001 16=00000003 176=01 manifest:'xfsns-manifest_1/chunk_128_fffffffffffffffc/' | 2 image rule 16 inode 129 block 0
check IMAGE MANIFEST | short:0100_00000080_010060'd'02_00000081 inode:128 16=00000003 dir:129:2:0000_00000080 inode:129 368=00140100_010c08'd'0000000000000080_00000001 16=00000003 64=0000000000000001 manifest:'xfsns-manifest_1/chunk_128_fffffffffffffffc/' | 2 image rule 12 inode 129 block 0
check IMAGE MANIFEST | short:0100_00000080_010060'd'02_00000081 inode:128 16=00000003 dir:129:2:0000_00000080 inode:129 368=00140100_010c08'd'0000000000000080_00000001 16=00000003 64=0000000000000001 176=01 manifest:'xfsns-manifest_1/chunk_128_fffffffffffffffc/' | 2 image rule 14 inode 129 block 0
check IMAGE MANIFEST | block:'a','b' inode:144 368=00140100_010c08'a'0000000000000080_00000001 inode:145 368=00140100_010c08'b'0000000000000080_00000001 inode:128 16=00000003 188=08000001 64=0000000000000000 manifest:'xfsns-manifest_1/chunk_128_fffffffffffcfffe/' | 2 image rule 13 inode 128 block 0
check IMAGE MANIFEST | short:0100_00000080_010060'a'01_00000081 inode:128 16=00000005 369=05 manifest:'xfsns-manifest_1/chunk_128_fffffffffffffffe/' | 2 image rule 21 inode 128 block 0
check IMAGE MANIFEST | short:0000_00000080 dir:129:3:0100_00000080_010060's'02_00000081 manifest:'xfsns-manifest_1/chunk_128_fffffffffffffffc/' | 2 image rule 22 inode 129 block 0
check IMAGE MANIFEST | short:0000_00000080 dir:129:3:0100_00000081_010060's'02_00000081 manifest:'xfsns-manifest_1/chunk_128_fffffffffffffffc/' | 2 image rule 23 inode 129 block 0
# a directory that is not whole has no entries: what it names has no name
check IMAGE MANIFEST | short:0000_00000080 file:129 inode:129 368=00140100_010c08'f'0000000000000082_00000001 dir:130:0:0100_00000080_010060'f'01_00000081 inode:130 176=02 manifest:'xfsns-manifest_1/chunk_128_fffffffffffffff8/' | 2 image rule 12 inode 129 block 0
check IMAGE MANIFEST | short:0000_00000080 file:129 inode:129 16=00000000 368=00140100_010c08'f'0000000000000082_00000001 dir:130:0:0100_00000080_010060'f'01_00000081 inode:130 176=02 manifest:'xfsns-manifest_1/chunk_128_fffffffffffffff8/' | 2 image rule 27 inode 129 block 0
check IMAGE MANIFEST | short:0000_00000080 file:129 inode:129 16=00000000 dir:130:0:0100_00000080_010060'f'01_00000081 inode:130 176=02 manifest:'xfsns-manifest_1/chunk_128_fffffffffffffff8/' | 2 image rule 16 inode 130 block 0
# and one of which 21 is broken has none, and its other rules are not told
check IMAGE MANIFEST | short:0200_00000081_010060'a'01_00000081_010070'b'01_00000082 inode:128 16=00000009 file:129 inode:129 16=00000000 manifest:'xfsns-manifest_1/chunk_128_fffffffffffffffc/' | 2 image rule 21 inode 128 block 0
";

#[test]
fn accepts_sound_images(rt: HostRuntime) {
    check_rows(&rt, Asked::Checker, "sound", SOUND_ROWS);
}

#[test]
fn tells_rules_of_the_image_first(rt: HostRuntime) {
    check_rows(&rt, Asked::Checker, "image", IMAGE_ROWS);
}

#[test]
fn tells_what_an_inode_breaks(rt: HostRuntime) {
    check_rows(&rt, Asked::Checker, "alone", ALONE_ROWS);
}

#[test]
fn tells_what_entries_break(rt: HostRuntime) {
    check_rows(&rt, Asked::Checker, "between", BETWEEN_ROWS);
}

#[test]
fn tells_the_least(rt: HostRuntime) {
    check_rows(&rt, Asked::Checker, "pair", PAIR_ROWS);
}
