//! `parents`: the records of attribute forks in short form, in one leaf and in a tree, and which rule is told of one that is
//! broken. How a fork in blocks is laid out stands at `xn_rows`.

use super::{Asked, check_rows};

/// Short forms: that of inode 144 begins at 368.
const SHORT_ROWS: &str = r"
parents IMAGE MANIFEST 144 | block inode:144 368=00140100_010c08'a'0000000000000080_00000007 | 0 ok 1 / 128 7 a
parents IMAGE MANIFEST 144 | block | 0 ok 0
# no count: whatever stands behind; the byte behind the count is free, and so is the lowest bit of the flags
parents IMAGE MANIFEST 144 | block inode:144 368=00040000_010c08 | 0 ok 0
parents IMAGE MANIFEST 144 | block inode:144 368=001401ff_010c08'a'0000000000000080_00000007 | 0 ok 1 / 128 7 a
parents IMAGE MANIFEST 144 | block inode:144 368=00140100_010c09'a'0000000000000080_00000007 | 0 ok 1 / 128 7 a
# by directory, then by name, then by generation; bytes are told as names are
parents IMAGE MANIFEST 144 | block inode:144 368=00550500_020c086220_0000000100000080_ffffffff_010c0861_0000000000000080_00000007_010c0861_0000000000000080_00000006_010c08ff_0000000000000080_00000000_010c085c_0000000000000080_00000009 | 0 ok 5 / 128 9 \5c / 128 6 a / 128 7 a / 128 0 \ff / 4294967424 4294967295 b\20
# other attributes, also without name or value, are no records
parents IMAGE MANIFEST 144 | block inode:144 368=00240400_010c08'a'0000000000000080_00000007_020302_6162_78797a_010000_63_000100_ff | 0 ok 1 / 128 7 a
# an attribute left in the middle of a change is no matter where it is no record
parents IMAGE MANIFEST 144 | block inode:144 368=00180200_010c08'a'0000000000000080_00000007_010080'c' | 0 ok 1 / 128 7 a
# the total size is one off, either way; more are counted than there are, and fewer
parents IMAGE MANIFEST 144 | block inode:144 368=00150100_010c08'a'0000000000000080_00000007 | 2 image rule 24 inode 144 block 0
parents IMAGE MANIFEST 144 | block inode:144 368=00130100_010c08'a'0000000000000080_00000007 | 2 image rule 24 inode 144 block 0
parents IMAGE MANIFEST 144 | block inode:144 368=00140200_010c08'a'0000000000000080_00000007 | 2 image rule 24 inode 144 block 0
parents IMAGE MANIFEST 144 | block inode:144 368=00140000_010c08'a'0000000000000080_00000007 | 2 image rule 24 inode 144 block 0
parents IMAGE MANIFEST 144 | block inode:144 368=00030000 | 2 image rule 24 inode 144 block 0
parents IMAGE MANIFEST 144 | block inode:144 368=0400ff00 | 2 image rule 24 inode 144 block 0
# a name and a value that end with the fork, and one byte past it, whatever the total size; a second attribute for which one byte is left
parents IMAGE MANIFEST 144 | block inode:144 368=00900100_890000 | 0 ok 0
parents IMAGE MANIFEST 144 | block inode:144 368=00900100_8a0000 | 2 image rule 24 inode 144 block 0
parents IMAGE MANIFEST 144 | block inode:144 368=00910100_8a0000 | 2 image rule 24 inode 144 block 0
parents IMAGE MANIFEST 144 | block inode:144 368=00900100_008900 | 0 ok 0
parents IMAGE MANIFEST 144 | block inode:144 368=00910100_008a00 | 2 image rule 24 inode 144 block 0
parents IMAGE MANIFEST 144 | block inode:144 368=01920100_ff8c00 | 2 image rule 24 inode 144 block 0
parents IMAGE MANIFEST 144 | block inode:144 368=00920200_880000 | 2 image rule 24 inode 144 block 0
# to the last byte of the fork: a name of 125 bytes, and one of 126
parents IMAGE MANIFEST 144 | block inode:144 368=00900100_7d0c08_6161616161616161616161616161616161616161616161616161616161616161616161616161616161616161616161616161616161616161616161616161616161616161616161616161616161616161616161616161616161616161616161616161616161616161616161616161616161616161616161616161616161_0000000000000080_00000007 | 0 ok 1 / 128 7 aaaaaaaaaaaaaaaaaaaaaaaaaaaaaaaaaaaaaaaaaaaaaaaaaaaaaaaaaaaaaaaaaaaaaaaaaaaaaaaaaaaaaaaaaaaaaaaaaaaaaaaaaaaaaaaaaaaaaaaaaaaaa
parents IMAGE MANIFEST 144 | block inode:144 368=00910100_7e0c08_616161616161616161616161616161616161616161616161616161616161616161616161616161616161616161616161616161616161616161616161616161616161616161616161616161616161616161616161616161616161616161616161616161616161616161616161616161616161616161616161616161616161_0000000000000080_000000 | 2 image rule 24 inode 144 block 0
# a fork of eight bytes
parents IMAGE MANIFEST 144 | block inode:144 82=29 504=00040000 | 0 ok 0
parents IMAGE MANIFEST 144 | block inode:144 82=29 504=00080100_010000'a' | 0 ok 0
parents IMAGE MANIFEST 144 | block inode:144 82=29 504=00080100_020000'a' | 2 image rule 24 inode 144 block 0
";

/// Records that aren't well formed, in short form, in a leaf and in a tree.
const RECORD_ROWS: &str = r"
# one that is
parents IMAGE MANIFEST 144 | block inode:144 368=00140100_010c08_61_000000000000008000000007 | 0 ok 1 / 128 7 a
parents IMAGE MANIFEST 144 | block attributes:144:64:8/61/000000000000008000000007 | 0 ok 1 / 128 7 a
# 11 bytes of value, and 13, and none
parents IMAGE MANIFEST 144 | block inode:144 368=00130100_010b08_61_0000000000000080000000 | 2 image rule 26 inode 144 block 0
parents IMAGE MANIFEST 144 | block attributes:144:64:8/61/0000000000000080000000 | 2 image rule 26 inode 144 block 0
parents IMAGE MANIFEST 144 | block attributes:144:64:8/'a'/00000000000000800000000700 | 2 image rule 26 inode 144 block 0
parents IMAGE MANIFEST 144 | block inode:144 368=00150100_010d08'a'00000000000000800000000700 | 2 image rule 26 inode 144 block 0
parents IMAGE MANIFEST 144 | block attributes:144:64:8/'a'/ | 2 image rule 26 inode 144 block 0
parents IMAGE MANIFEST 144 | block inode:144 368=00080100_010008'a' | 2 image rule 26 inode 144 block 0
# a value that stands elsewhere
parents IMAGE MANIFEST 144 | block attributes:144:64:8/'a'/1/12 | 2 image rule 26 inode 144 block 0
# one left in the middle of a change
parents IMAGE MANIFEST 144 | block inode:144 368=00140100_010c88_61_000000000000008000000007 | 2 image rule 26 inode 144 block 0
parents IMAGE MANIFEST 144 | block attributes:144:64:136/61/000000000000008000000007 | 2 image rule 26 inode 144 block 0
# names that no entry has
parents IMAGE MANIFEST 144 | block inode:144 368=00150100_020c08_2e2e_000000000000008000000007 | 2 image rule 26 inode 144 block 0
parents IMAGE MANIFEST 144 | block attributes:144:64:8/2e2e/000000000000008000000007 | 2 image rule 26 inode 144 block 0
parents IMAGE MANIFEST 144 | block attributes:144:64:8/2e/000000000000008000000007 | 2 image rule 26 inode 144 block 0
parents IMAGE MANIFEST 144 | block inode:144 368=00140100_010c08_2e_000000000000008000000007 | 2 image rule 26 inode 144 block 0
parents IMAGE MANIFEST 144 | block attributes:144:64:8//000000000000008000000007 | 2 image rule 26 inode 144 block 0
parents IMAGE MANIFEST 144 | block inode:144 368=00130100_000c08__000000000000008000000007 | 2 image rule 26 inode 144 block 0
parents IMAGE MANIFEST 144 | block attributes:144:64:8/612f62/000000000000008000000007 | 2 image rule 26 inode 144 block 0
parents IMAGE MANIFEST 144 | block inode:144 368=00160100_030c08_612f62_000000000000008000000007 | 2 image rule 26 inode 144 block 0
parents IMAGE MANIFEST 144 | block attributes:144:64:8/6100/000000000000008000000007 | 2 image rule 26 inode 144 block 0
parents IMAGE MANIFEST 144 | block inode:144 368=00150100_020c08_6100_000000000000008000000007 | 2 image rule 26 inode 144 block 0
# with more flags it is a record too, and without the parent flag it is none
parents IMAGE MANIFEST 144 | block attributes:144:64:26/'a'/000000000000008000000007 | 0 ok 1 / 128 7 a
parents IMAGE MANIFEST 144 | block attributes:144:64:118/'a'/000000000000008000000007 | 0 ok 0
parents IMAGE MANIFEST 144 | block attributes:144:64:128/'..'/000000000000008000000007 | 0 ok 0
# the same twice; another generation, directory or name
parents IMAGE MANIFEST 144 | block attributes:144:64:8/'a'/000000000000008000000007,8/'a'/000000000000008000000007 | 2 image rule 26 inode 144 block 0
parents IMAGE MANIFEST 144 | block inode:144 368=00240200_010c08'a'0000000000000080_00000007_010c08'a'0000000000000080_00000007 | 2 image rule 26 inode 144 block 0
parents IMAGE MANIFEST 144 | block attributes:144:64:8/'a'/000000000000008000000007,8/'a'/0000000000000080_00000008 | 0 ok 2 / 128 7 a / 128 8 a
parents IMAGE MANIFEST 144 | block attributes:144:64:8/'a'/000000000000008000000007,8/'a'/0000000000000081_00000007 | 0 ok 2 / 128 7 a / 129 7 a
parents IMAGE MANIFEST 144 | block attributes:144:64:8/'a'/000000000000008000000007,8/'b'/000000000000008000000007 | 0 ok 2 / 128 7 a / 128 7 b
parents IMAGE MANIFEST 144 | block attributes:144:1:8/'a'/000000000000008000000007,8/'a'/000000000000008000000007 | 2 image rule 26 inode 144 block 0
# names of one hash, in one leaf and in two
parents IMAGE MANIFEST 144 | block attributes:144:64:8/'Raven'/000000000000008000000007,8/'ravel'/000000000000008000000007 | 0 ok 2 / 128 7 Raven / 128 7 ravel
parents IMAGE MANIFEST 144 | block attributes:144:1:8/'Raven'/000000000000008000000007,8/'ravel'/000000000000008000000007 | 0 ok 2 / 128 7 Raven / 128 7 ravel
# the form is looked at before its records
parents IMAGE MANIFEST 144 | block attributes:144:64:8/'..'/000000000000008000000007 hashed:24 58=0010 | 2 image rule 25 inode 144 block 24
parents IMAGE MANIFEST 144 | block inode:144 368=00160100_020c08'..'000000000000008000000007 | 2 image rule 24 inode 144 block 0
";

/// A leaf of twenty records and an attribute of two bytes whose value stands elsewhere. The entries stand from 80 on.
const LEAF_ROWS: &str = r"
parents IMAGE MANIFEST 144 | block attributes:144:64:twenty | 0 ok 20 / 128 7 auk / 128 7 booby / 128 7 coot / 128 7 dove / 128 7 egret / 128 7 finch / 128 7 goose / 128 7 heron / 128 7 ibis / 128 7 jay / 133 1 auk / 133 1 kite / 133 1 lark / 133 1 moa / 133 1 nene / 4294967424 4294967295 owl / 4294967424 4294967295 pipit / 4294967424 4294967295 quail / 4294967424 4294967295 rail / 4294967424 4294967295 swan
parents IMAGE MANIFEST 144 | block attributes:144:64: | 0 ok 0
# 416 bytes are used, the least name is at 3680: these, four more and four fewer
parents IMAGE MANIFEST 144 | block attributes:144:64:twenty hashed:24 58=01a0 | 0 ok 20 / 128 7 auk / 128 7 booby / 128 7 coot / 128 7 dove / 128 7 egret / 128 7 finch / 128 7 goose / 128 7 heron / 128 7 ibis / 128 7 jay / 133 1 auk / 133 1 kite / 133 1 lark / 133 1 moa / 133 1 nene / 4294967424 4294967295 owl / 4294967424 4294967295 pipit / 4294967424 4294967295 quail / 4294967424 4294967295 rail / 4294967424 4294967295 swan
parents IMAGE MANIFEST 144 | block attributes:144:64:twenty hashed:24 58=01a4 | 2 image rule 25 inode 144 block 24
parents IMAGE MANIFEST 144 | block attributes:144:64:twenty hashed:24 58=019c | 2 image rule 25 inode 144 block 24
# the least place that is used: above a name, at the least name, below it, within the entries, at their end
parents IMAGE MANIFEST 144 | block attributes:144:64:twenty hashed:24 60=0e64 | 2 image rule 25 inode 144 block 24
parents IMAGE MANIFEST 144 | block attributes:144:64:twenty hashed:24 60=0e61 | 2 image rule 25 inode 144 block 24
parents IMAGE MANIFEST 144 | block attributes:144:64:twenty hashed:24 60=0e5c | 0 ok 20 / 128 7 auk / 128 7 booby / 128 7 coot / 128 7 dove / 128 7 egret / 128 7 finch / 128 7 goose / 128 7 heron / 128 7 ibis / 128 7 jay / 133 1 auk / 133 1 kite / 133 1 lark / 133 1 moa / 133 1 nene / 4294967424 4294967295 owl / 4294967424 4294967295 pipit / 4294967424 4294967295 quail / 4294967424 4294967295 rail / 4294967424 4294967295 swan
parents IMAGE MANIFEST 144 | block attributes:144:64:twenty hashed:24 60=00f8 | 0 ok 20 / 128 7 auk / 128 7 booby / 128 7 coot / 128 7 dove / 128 7 egret / 128 7 finch / 128 7 goose / 128 7 heron / 128 7 ibis / 128 7 jay / 133 1 auk / 133 1 kite / 133 1 lark / 133 1 moa / 133 1 nene / 4294967424 4294967295 owl / 4294967424 4294967295 pipit / 4294967424 4294967295 quail / 4294967424 4294967295 rail / 4294967424 4294967295 swan
parents IMAGE MANIFEST 144 | block attributes:144:64:twenty hashed:24 60=00f7 | 2 image rule 25 inode 144 block 24
parents IMAGE MANIFEST 144 | block attributes:144:64:twenty hashed:24 60=0000 | 2 image rule 25 inode 144 block 24
# the magic number, that of a leaf of a directory, and of the single leaf of one; the checksum
parents IMAGE MANIFEST 144 | block attributes:144:64:twenty hashed:24 8=3bed | 2 image rule 25 inode 144 block 24
parents IMAGE MANIFEST 144 | block attributes:144:64:twenty hashed:24 8=3dff | 2 image rule 25 inode 144 block 24
parents IMAGE MANIFEST 144 | block attributes:144:64:twenty hashed:24 8=3df1 | 2 image rule 25 inode 144 block 24
parents IMAGE MANIFEST 144 | block attributes:144:64:twenty hashed:24 8=3ebe | 2 image rule 25 inode 144 block 24
parents IMAGE MANIFEST 144 | block attributes:144:64:twenty raw:98304 12=00000000 | 2 image rule 25 inode 144 block 24
parents IMAGE MANIFEST 144 | block attributes:144:64:twenty raw:98304 100=ff | 2 image rule 25 inode 144 block 24
# place, uuid, owner; siblings of the one leaf
parents IMAGE MANIFEST 144 | block attributes:144:64:twenty hashed:24 16=00000000000000c8 | 2 image rule 25 inode 144 block 24
parents IMAGE MANIFEST 144 | block attributes:144:64:twenty hashed:24 32=01 | 2 image rule 25 inode 144 block 24
parents IMAGE MANIFEST 144 | block attributes:144:64:twenty hashed:24 48=0000000000000080 | 2 image rule 25 inode 144 block 24
parents IMAGE MANIFEST 144 | block attributes:144:64:twenty hashed:24 0=00000001 | 2 image rule 25 inode 144 block 24
parents IMAGE MANIFEST 144 | block attributes:144:64:twenty hashed:24 4=00000001 | 2 image rule 25 inode 144 block 24
# whether there are holes, the map of free bytes, the byte behind flags, and the bytes between are not looked at
parents IMAGE MANIFEST 144 | block attributes:144:64:twenty hashed:24 62=01ff 64=ffffffff_ffffffff_ffffffff 87=ff 1000=ff | 0 ok 20 / 128 7 auk / 128 7 booby / 128 7 coot / 128 7 dove / 128 7 egret / 128 7 finch / 128 7 goose / 128 7 heron / 128 7 ibis / 128 7 jay / 133 1 auk / 133 1 kite / 133 1 lark / 133 1 moa / 133 1 nene / 4294967424 4294967295 owl / 4294967424 4294967295 pipit / 4294967424 4294967295 quail / 4294967424 4294967295 rail / 4294967424 4294967295 swan
# one fewer is counted, and one more
parents IMAGE MANIFEST 144 | block attributes:144:64:twenty hashed:24 56=0014 | 2 image rule 25 inode 144 block 24
parents IMAGE MANIFEST 144 | block attributes:144:64:twenty hashed:24 56=0016 | 2 image rule 25 inode 144 block 24
parents IMAGE MANIFEST 144 | block attributes:144:64:twenty hashed:24 56=0000 | 2 image rule 25 inode 144 block 24
parents IMAGE MANIFEST 144 | block attributes:144:64:twenty hashed:24 56=ffff | 2 image rule 25 inode 144 block 24
# none is counted, and none is used
parents IMAGE MANIFEST 144 | block attributes:144:64:twenty hashed:24 56=0000_0000 | 0 ok 0
# entries out of order
parents IMAGE MANIFEST 144 | block attributes:144:64:twenty hashed:24 80=00187a6b_0fdc_0900_00003c79_0ff0_0000 | 2 image rule 25 inode 144 block 24
parents IMAGE MANIFEST 144 | block attributes:144:64:twenty hashed:24 72=00003c79_0ff0_0000_8cbcb768_0e60_0900 | 2 image rule 25 inode 144 block 24
# a hash that isn't the name's, of an attribute and of a record; that of a record without the directory's number
parents IMAGE MANIFEST 144 | block attributes:144:64:twenty hashed:24 80=00003c7a | 2 image rule 25 inode 144 block 24
parents IMAGE MANIFEST 144 | block attributes:144:64:twenty hashed:24 80=00003c78 | 2 image rule 25 inode 144 block 24
parents IMAGE MANIFEST 144 | block attributes:144:64:8/'a'/000000000000008000000007 hashed:24 80=000000e1 | 0 ok 1 / 128 7 a
parents IMAGE MANIFEST 144 | block attributes:144:64:8/'a'/000000000000008000000007 hashed:24 80=00000061 | 2 image rule 25 inode 144 block 24
parents IMAGE MANIFEST 144 | block attributes:144:64:8/'a'/000000000000008000000007 hashed:24 80=000000e0 | 2 image rule 25 inode 144 block 24
# the number's upper half counts too
parents IMAGE MANIFEST 144 | block attributes:144:64:8/'a'/0000000100000080_00000007 hashed:24 80=000000e0 | 0 ok 1 / 4294967424 7 a
parents IMAGE MANIFEST 144 | block attributes:144:64:8/'a'/0000000100000080_00000007 hashed:24 80=000000e1 | 2 image rule 25 inode 144 block 24
# a user attribute with such a value is hashed by its name, and a record of another length too
parents IMAGE MANIFEST 144 | block attributes:144:64:0/'a'/000000000000008000000007 hashed:24 80=00000061 | 0 ok 0
parents IMAGE MANIFEST 144 | block attributes:144:64:0/'a'/000000000000008000000007 hashed:24 80=000000e1 | 2 image rule 25 inode 144 block 24
parents IMAGE MANIFEST 144 | block attributes:144:64:8/'a'/0000000000000080000000 hashed:24 80=000000e1 | 2 image rule 25 inode 144 block 24
# names that lie over each other: two entries of one name, and one that begins within another
parents IMAGE MANIFEST 144 | block attributes:144:64:8/'a'/000000000000008000000007,8/'a'/000000000000008000000007 hashed:24 88=000000e1_0ff0_0900 | 2 image rule 25 inode 144 block 24
parents IMAGE MANIFEST 144 | block attributes:144:64:8/'a'/000000000000008000000007,8/'a'/000000000000008000000007 hashed:24 88=000000e1_0fe0_0900 | 2 image rule 26 inode 144 block 0
parents IMAGE MANIFEST 144 | block attributes:144:64:8/'a'/000000000000008000000007,8/'a'/000000000000008000000007 hashed:24 60=0fdc 88=000000e1_0fe4_0900 4068=000c_01_'a'000000000000008000000007 | 2 image rule 25 inode 144 block 24
# the other way round they lie apart, and with bytes between
parents IMAGE MANIFEST 144 | block attributes:144:64:8/'a'/000000000000008000000007,8/'a'/000000000000008000000007 hashed:24 80=000000e1_0fe0_0900_000000e1_0ff0_0900 | 2 image rule 26 inode 144 block 0
parents IMAGE MANIFEST 144 | block attributes:144:64:8/'a'/000000000000008000000007,8/'a'/000000000000008000000007 hashed:24 60=0fdc 88=000000e1_0fdc_0900 4060=000c_01_'a'000000000000008000000007 | 2 image rule 26 inode 144 block 0
# a name at the end of the block, and past it; one that ends past it by its length, by its value's, by both
parents IMAGE MANIFEST 144 | block attributes:144:64:8/'a'/000000000000008000000007 hashed:24 84=0ff4 | 2 image rule 25 inode 144 block 24
parents IMAGE MANIFEST 144 | block attributes:144:64:8/'a'/000000000000008000000007 hashed:24 84=0fff | 2 image rule 25 inode 144 block 24
parents IMAGE MANIFEST 144 | block attributes:144:64:8/'a'/000000000000008000000007 hashed:24 84=1000 | 2 image rule 25 inode 144 block 24
parents IMAGE MANIFEST 144 | block attributes:144:64:8/'a'/000000000000008000000007 hashed:24 84=ffff | 2 image rule 25 inode 144 block 24
parents IMAGE MANIFEST 144 | block attributes:144:64:8/'a'/000000000000008000000007 hashed:24 4082=02 | 2 image rule 25 inode 144 block 24
parents IMAGE MANIFEST 144 | block attributes:144:64:8/'a'/000000000000008000000007 hashed:24 4080=000d | 2 image rule 25 inode 144 block 24
parents IMAGE MANIFEST 144 | block attributes:144:64:8/'a'/000000000000008000000007 hashed:24 4080=ffff | 2 image rule 25 inode 144 block 24
parents IMAGE MANIFEST 144 | block attributes:144:64:8/'a'/000000000000008000000007 hashed:24 4080=ffff_ff | 2 image rule 25 inode 144 block 24
# the bit that says where the value stands, off and on
parents IMAGE MANIFEST 144 | block attributes:144:64:8/'a'/000000000000008000000007 hashed:24 86=08 | 2 image rule 25 inode 144 block 24
parents IMAGE MANIFEST 144 | block attributes:144:64:0/'a'/1/12 hashed:24 86=01 | 2 image rule 25 inode 144 block 24
";

/// A tree of a node and three leaves, in blocks 24 to 27.
const NODE_ROWS: &str = r"
parents IMAGE MANIFEST 144 | block attributes:144:8:twenty | 0 ok 20 / 128 7 auk / 128 7 booby / 128 7 coot / 128 7 dove / 128 7 egret / 128 7 finch / 128 7 goose / 128 7 heron / 128 7 ibis / 128 7 jay / 133 1 auk / 133 1 kite / 133 1 lark / 133 1 moa / 133 1 nene / 4294967424 4294967295 owl / 4294967424 4294967295 pipit / 4294967424 4294967295 quail / 4294967424 4294967295 rail / 4294967424 4294967295 swan
parents IMAGE MANIFEST 144 | block attributes:144:3:twenty | 0 ok 20 / 128 7 auk / 128 7 booby / 128 7 coot / 128 7 dove / 128 7 egret / 128 7 finch / 128 7 goose / 128 7 heron / 128 7 ibis / 128 7 jay / 133 1 auk / 133 1 kite / 133 1 lark / 133 1 moa / 133 1 nene / 4294967424 4294967295 owl / 4294967424 4294967295 pipit / 4294967424 4294967295 quail / 4294967424 4294967295 rail / 4294967424 4294967295 swan
# the greatest hash of a child one off, either way; the node's hashes out of order
parents IMAGE MANIFEST 144 | block attributes:144:8:twenty hashed:24 64=0c9bfbe6 | 2 image rule 25 inode 144 block 25
parents IMAGE MANIFEST 144 | block attributes:144:8:twenty hashed:24 64=0c9bfbe4 | 2 image rule 25 inode 144 block 25
parents IMAGE MANIFEST 144 | block attributes:144:8:twenty hashed:24 72=1eb87469 | 2 image rule 25 inode 144 block 26
parents IMAGE MANIFEST 144 | block attributes:144:8:twenty hashed:24 80=8cbcb769 | 2 image rule 25 inode 144 block 27
parents IMAGE MANIFEST 144 | block attributes:144:8:twenty hashed:24 72=00000000 | 2 image rule 25 inode 144 block 24
parents IMAGE MANIFEST 144 | block attributes:144:8:twenty hashed:24 64=ffffffff | 2 image rule 25 inode 144 block 24
# leaves in another order
parents IMAGE MANIFEST 144 | block attributes:144:8:twenty hashed:24 64=0c9bfbe5_00000002_1eb8746a_00000001 | 2 image rule 25 inode 144 block 26
# a leaf without entries, which may be the root alone
parents IMAGE MANIFEST 144 | block attributes:144:8:twenty hashed:26 56=0000_0000 | 2 image rule 25 inode 144 block 26
parents IMAGE MANIFEST 144 | block attributes:144:8:twenty hashed:27 56=0000_0000 | 2 image rule 25 inode 144 block 27
parents IMAGE MANIFEST 144 | block attributes:144:0: | 0 ok 0
# siblings: on the left and on the right, of the first and of the last, and of the root
parents IMAGE MANIFEST 144 | block attributes:144:8:twenty hashed:25 0=00000003 | 2 image rule 25 inode 144 block 26
parents IMAGE MANIFEST 144 | block attributes:144:8:twenty hashed:25 0=00000000 | 2 image rule 25 inode 144 block 26
parents IMAGE MANIFEST 144 | block attributes:144:8:twenty hashed:26 4=00000003 | 2 image rule 25 inode 144 block 26
parents IMAGE MANIFEST 144 | block attributes:144:8:twenty hashed:26 4=00000000 | 2 image rule 25 inode 144 block 26
parents IMAGE MANIFEST 144 | block attributes:144:8:twenty hashed:26 0=00000001 | 2 image rule 25 inode 144 block 27
parents IMAGE MANIFEST 144 | block attributes:144:8:twenty hashed:27 0=00000001 | 2 image rule 25 inode 144 block 27
parents IMAGE MANIFEST 144 | block attributes:144:8:twenty hashed:25 4=00000002 | 2 image rule 25 inode 144 block 25
parents IMAGE MANIFEST 144 | block attributes:144:8:twenty hashed:24 0=00000001 | 2 image rule 25 inode 144 block 24
parents IMAGE MANIFEST 144 | block attributes:144:8:twenty hashed:24 4=00000001 | 2 image rule 25 inode 144 block 24
# the level: of a root that is too high, of one that is none, and of one whose children are leaves
parents IMAGE MANIFEST 144 | block attributes:144:8:twenty hashed:24 58=0005 | 2 image rule 25 inode 144 block 24
parents IMAGE MANIFEST 144 | block attributes:144:8:twenty hashed:24 58=0000 | 2 image rule 25 inode 144 block 24
parents IMAGE MANIFEST 144 | block attributes:144:8:twenty hashed:24 58=0002 | 2 image rule 25 inode 144 block 25
parents IMAGE MANIFEST 144 | block attributes:144:8:twenty hashed:24 58=0004 | 2 image rule 25 inode 144 block 25
# no child, two, and more than a node has room for
parents IMAGE MANIFEST 144 | block attributes:144:8:twenty hashed:24 56=0000 | 2 image rule 25 inode 144 block 24
parents IMAGE MANIFEST 144 | block attributes:144:8:twenty hashed:24 56=0002 | 2 image rule 25 inode 144 block 26
parents IMAGE MANIFEST 144 | block attributes:144:8:twenty hashed:24 56=01f9 | 2 image rule 25 inode 144 block 24
# a child that isn't mapped, one that stands twice, and the root as a child
parents IMAGE MANIFEST 144 | block attributes:144:8:twenty hashed:24 76=00000009 | 2 image rule 25 inode 144 block 24
parents IMAGE MANIFEST 144 | block attributes:144:8:twenty hashed:24 84=00000001 | 2 image rule 25 inode 144 block 25
parents IMAGE MANIFEST 144 | block attributes:144:8:twenty hashed:24 68=00000000 | 2 image rule 25 inode 144 block 24
# magic, checksum, place, uuid and owner of the node and of a leaf
parents IMAGE MANIFEST 144 | block attributes:144:8:twenty hashed:24 8=3ebf | 2 image rule 25 inode 144 block 24
parents IMAGE MANIFEST 144 | block attributes:144:8:twenty raw:98304 12=00000000 | 2 image rule 25 inode 144 block 24
parents IMAGE MANIFEST 144 | block attributes:144:8:twenty hashed:24 16=00000000000000c8 | 2 image rule 25 inode 144 block 24
parents IMAGE MANIFEST 144 | block attributes:144:8:twenty hashed:24 32=01 | 2 image rule 25 inode 144 block 24
parents IMAGE MANIFEST 144 | block attributes:144:8:twenty hashed:24 48=0000000000000091 | 2 image rule 25 inode 144 block 24
parents IMAGE MANIFEST 144 | block attributes:144:8:twenty hashed:26 8=3ebe | 2 image rule 25 inode 144 block 26
parents IMAGE MANIFEST 144 | block attributes:144:8:twenty hashed:26 8=3df1 | 2 image rule 25 inode 144 block 26
parents IMAGE MANIFEST 144 | block attributes:144:8:twenty raw:106496 12=00000000 | 2 image rule 25 inode 144 block 26
parents IMAGE MANIFEST 144 | block attributes:144:8:twenty hashed:26 16=00000000000000c8 | 2 image rule 25 inode 144 block 26
parents IMAGE MANIFEST 144 | block attributes:144:8:twenty hashed:26 32=01 | 2 image rule 25 inode 144 block 26
parents IMAGE MANIFEST 144 | block attributes:144:8:twenty hashed:26 48=0000000000000091 | 2 image rule 25 inode 144 block 26
# a leaf that is none: used bytes, a hash, an entry's place
parents IMAGE MANIFEST 144 | block attributes:144:8:twenty hashed:26 58=00a4 | 2 image rule 25 inode 144 block 26
parents IMAGE MANIFEST 144 | block attributes:144:8:twenty hashed:26 80=0d38b472 | 2 image rule 25 inode 144 block 26
parents IMAGE MANIFEST 144 | block attributes:144:8:twenty hashed:26 84=0000 | 2 image rule 25 inode 144 block 26
# of two that fail the first in the order of the walk
parents IMAGE MANIFEST 144 | block attributes:144:8:twenty hashed:25 58=0000 hashed:27 58=0000 | 2 image rule 25 inode 144 block 25
parents IMAGE MANIFEST 144 | block attributes:144:8:twenty hashed:27 58=0000 hashed:26 58=0000 | 2 image rule 25 inode 144 block 26
parents IMAGE MANIFEST 144 | block attributes:144:8:twenty hashed:24 0=00000001 hashed:27 58=0000 | 2 image rule 25 inode 144 block 27
# two levels of nodes: the root, in block 36 one with six leaves, in block 37 one with five
parents IMAGE MANIFEST 144 | block attributes:144:2:twenty inode:144 380=0300000e hashed:24 56=0002_0002_00000000_0d9879ee_0000000c_8cbcb768_0000000d hashed:36 0=0000000d_00000000_3ebe 16=0000000000000120 32=000102030405060708090a0b0c0d0e0f_0000000000000090_0006_0001 64=00187a6b_00000001_001ab079_00000002_001bfb6d_00000003_0c9bfbe5_00000004_0d3c3472_00000005_0d9879ee_00000006 hashed:37 0=00000000_0000000c_3ebe 16=0000000000000128 32=000102030405060708090a0b0c0d0e0f_0000000000000090_0005_0001 64=0e58746d_00000007_1eb8746a_00000008_5cfcb272_00000009_7dfbf963_0000000a_8cbcb768_0000000b | 0 ok 20 / 128 7 auk / 128 7 booby / 128 7 coot / 128 7 dove / 128 7 egret / 128 7 finch / 128 7 goose / 128 7 heron / 128 7 ibis / 128 7 jay / 133 1 auk / 133 1 kite / 133 1 lark / 133 1 moa / 133 1 nene / 4294967424 4294967295 owl / 4294967424 4294967295 pipit / 4294967424 4294967295 quail / 4294967424 4294967295 rail / 4294967424 4294967295 swan
parents IMAGE MANIFEST 144 | block attributes:144:2:twenty inode:144 380=0300000e hashed:24 56=0002_0002_00000000_0d9879ee_0000000c_8cbcb768_0000000d hashed:36 0=0000000d_00000000_3ebe 16=0000000000000120 32=000102030405060708090a0b0c0d0e0f_0000000000000090_0006_0001 64=00187a6b_00000001_001ab079_00000002_001bfb6d_00000003_0c9bfbe5_00000004_0d3c3472_00000005_0d9879ee_00000006 hashed:37 0=00000000_0000000c_3ebe 16=0000000000000128 32=000102030405060708090a0b0c0d0e0f_0000000000000090_0005_0001 64=0e58746d_00000007_1eb8746a_00000008_5cfcb272_00000009_7dfbf963_0000000a_8cbcb768_0000000b hashed:30 58=0000 | 2 image rule 25 inode 144 block 30
parents IMAGE MANIFEST 144 | block attributes:144:2:twenty inode:144 380=0300000e hashed:24 56=0002_0002_00000000_0d9879ee_0000000c_8cbcb768_0000000d hashed:36 0=0000000d_00000000_3ebe 16=0000000000000120 32=000102030405060708090a0b0c0d0e0f_0000000000000090_0006_0001 64=00187a6b_00000001_001ab079_00000002_001bfb6d_00000003_0c9bfbe5_00000004_0d3c3472_00000005_0d9879ee_00000006 hashed:37 0=00000000_0000000c_3ebe 16=0000000000000128 32=000102030405060708090a0b0c0d0e0f_0000000000000090_0005_0001 64=0e58746d_00000007_1eb8746a_00000008_5cfcb272_00000009_7dfbf963_0000000a_8cbcb768_0000000b hashed:36 64=00187a6c | 2 image rule 25 inode 144 block 25
parents IMAGE MANIFEST 144 | block attributes:144:2:twenty inode:144 380=0300000e hashed:24 56=0002_0002_00000000_0d9879ee_0000000c_8cbcb768_0000000d hashed:36 0=0000000d_00000000_3ebe 16=0000000000000120 32=000102030405060708090a0b0c0d0e0f_0000000000000090_0006_0001 64=00187a6b_00000001_001ab079_00000002_001bfb6d_00000003_0c9bfbe5_00000004_0d3c3472_00000005_0d9879ee_00000006 hashed:37 0=00000000_0000000c_3ebe 16=0000000000000128 32=000102030405060708090a0b0c0d0e0f_0000000000000090_0005_0001 64=0e58746d_00000007_1eb8746a_00000008_5cfcb272_00000009_7dfbf963_0000000a_8cbcb768_0000000b hashed:24 64=0d9879ef | 2 image rule 25 inode 144 block 36
parents IMAGE MANIFEST 144 | block attributes:144:2:twenty inode:144 380=0300000e hashed:24 56=0002_0002_00000000_0d9879ee_0000000c_8cbcb768_0000000d hashed:36 0=0000000d_00000000_3ebe 16=0000000000000120 32=000102030405060708090a0b0c0d0e0f_0000000000000090_0006_0001 64=00187a6b_00000001_001ab079_00000002_001bfb6d_00000003_0c9bfbe5_00000004_0d3c3472_00000005_0d9879ee_00000006 hashed:37 0=00000000_0000000c_3ebe 16=0000000000000128 32=000102030405060708090a0b0c0d0e0f_0000000000000090_0005_0001 64=0e58746d_00000007_1eb8746a_00000008_5cfcb272_00000009_7dfbf963_0000000a_8cbcb768_0000000b hashed:36 0=00000000 | 2 image rule 25 inode 144 block 37
parents IMAGE MANIFEST 144 | block attributes:144:2:twenty inode:144 380=0300000e hashed:24 56=0002_0002_00000000_0d9879ee_0000000c_8cbcb768_0000000d hashed:36 0=0000000d_00000000_3ebe 16=0000000000000120 32=000102030405060708090a0b0c0d0e0f_0000000000000090_0006_0001 64=00187a6b_00000001_001ab079_00000002_001bfb6d_00000003_0c9bfbe5_00000004_0d3c3472_00000005_0d9879ee_00000006 hashed:37 0=00000000_0000000c_3ebe 16=0000000000000128 32=000102030405060708090a0b0c0d0e0f_0000000000000090_0005_0001 64=0e58746d_00000007_1eb8746a_00000008_5cfcb272_00000009_7dfbf963_0000000a_8cbcb768_0000000b hashed:37 4=0000000b | 2 image rule 25 inode 144 block 37
parents IMAGE MANIFEST 144 | block attributes:144:2:twenty inode:144 380=0300000e hashed:24 56=0002_0002_00000000_0d9879ee_0000000c_8cbcb768_0000000d hashed:36 0=0000000d_00000000_3ebe 16=0000000000000120 32=000102030405060708090a0b0c0d0e0f_0000000000000090_0006_0001 64=00187a6b_00000001_001ab079_00000002_001bfb6d_00000003_0c9bfbe5_00000004_0d3c3472_00000005_0d9879ee_00000006 hashed:37 0=00000000_0000000c_3ebe 16=0000000000000128 32=000102030405060708090a0b0c0d0e0f_0000000000000090_0005_0001 64=0e58746d_00000007_1eb8746a_00000008_5cfcb272_00000009_7dfbf963_0000000a_8cbcb768_0000000b hashed:37 0=0000000c | 2 image rule 25 inode 144 block 37
parents IMAGE MANIFEST 144 | block attributes:144:2:twenty inode:144 380=0300000e hashed:24 56=0002_0002_00000000_0d9879ee_0000000c_8cbcb768_0000000d hashed:36 0=0000000d_00000000_3ebe 16=0000000000000120 32=000102030405060708090a0b0c0d0e0f_0000000000000090_0006_0001 64=00187a6b_00000001_001ab079_00000002_001bfb6d_00000003_0c9bfbe5_00000004_0d3c3472_00000005_0d9879ee_00000006 hashed:37 0=00000000_0000000c_3ebe 16=0000000000000128 32=000102030405060708090a0b0c0d0e0f_0000000000000090_0005_0001 64=0e58746d_00000007_1eb8746a_00000008_5cfcb272_00000009_7dfbf963_0000000a_8cbcb768_0000000b hashed:37 58=0002 | 2 image rule 25 inode 144 block 37
parents IMAGE MANIFEST 144 | block attributes:144:2:twenty inode:144 380=0300000e hashed:24 56=0002_0002_00000000_0d9879ee_0000000c_8cbcb768_0000000d hashed:36 0=0000000d_00000000_3ebe 16=0000000000000120 32=000102030405060708090a0b0c0d0e0f_0000000000000090_0006_0001 64=00187a6b_00000001_001ab079_00000002_001bfb6d_00000003_0c9bfbe5_00000004_0d3c3472_00000005_0d9879ee_00000006 hashed:37 0=00000000_0000000c_3ebe 16=0000000000000128 32=000102030405060708090a0b0c0d0e0f_0000000000000090_0005_0001 64=0e58746d_00000007_1eb8746a_00000008_5cfcb272_00000009_7dfbf963_0000000a_8cbcb768_0000000b hashed:30 0=00000000 | 2 image rule 25 inode 144 block 31
parents IMAGE MANIFEST 144 | block attributes:144:2:twenty inode:144 380=0300000e hashed:24 56=0002_0002_00000000_0d9879ee_0000000c_8cbcb768_0000000d hashed:36 0=0000000d_00000000_3ebe 16=0000000000000120 32=000102030405060708090a0b0c0d0e0f_0000000000000090_0006_0001 64=00187a6b_00000001_001ab079_00000002_001bfb6d_00000003_0c9bfbe5_00000004_0d3c3472_00000005_0d9879ee_00000006 hashed:37 0=00000000_0000000c_3ebe 16=0000000000000128 32=000102030405060708090a0b0c0d0e0f_0000000000000090_0005_0001 64=0e58746d_00000007_1eb8746a_00000008_5cfcb272_00000009_7dfbf963_0000000a_8cbcb768_0000000b hashed:31 4=00000000 | 2 image rule 25 inode 144 block 31
parents IMAGE MANIFEST 144 | block attributes:144:2:twenty inode:144 380=0300000e hashed:24 56=0002_0002_00000000_0d9879ee_0000000c_8cbcb768_0000000d hashed:36 0=0000000d_00000000_3ebe 16=0000000000000120 32=000102030405060708090a0b0c0d0e0f_0000000000000090_0006_0001 64=00187a6b_00000001_001ab079_00000002_001bfb6d_00000003_0c9bfbe5_00000004_0d3c3472_00000005_0d9879ee_00000006 hashed:37 0=00000000_0000000c_3ebe 16=0000000000000128 32=000102030405060708090a0b0c0d0e0f_0000000000000090_0005_0001 64=0e58746d_00000007_1eb8746a_00000008_5cfcb272_00000009_7dfbf963_0000000a_8cbcb768_0000000b hashed:35 0=00000001 hashed:37 0=0000000c | 2 image rule 25 inode 144 block 37
parents IMAGE MANIFEST 144 | block attributes:144:2:twenty inode:144 380=0300000e hashed:24 56=0002_0002_00000000_0d9879ee_0000000c_8cbcb768_0000000d hashed:36 0=0000000d_00000000_3ebe 16=0000000000000120 32=000102030405060708090a0b0c0d0e0f_0000000000000090_0006_0001 64=00187a6b_00000001_001ab079_00000002_001bfb6d_00000003_0c9bfbe5_00000004_0d3c3472_00000005_0d9879ee_00000006 hashed:37 0=00000000_0000000c_3ebe 16=0000000000000128 32=000102030405060708090a0b0c0d0e0f_0000000000000090_0005_0001 64=0e58746d_00000007_1eb8746a_00000008_5cfcb272_00000009_7dfbf963_0000000a_8cbcb768_0000000b hashed:35 0=00000001 | 2 image rule 25 inode 144 block 35
# a node that isn't looked at any more, since a leaf before it fails
parents IMAGE MANIFEST 144 | block attributes:144:2:twenty inode:144 380=0300000e hashed:24 56=0002_0002_00000000_0d9879ee_0000000c_8cbcb768_0000000d hashed:36 0=0000000d_00000000_3ebe 16=0000000000000120 32=000102030405060708090a0b0c0d0e0f_0000000000000090_0006_0001 64=00187a6b_00000001_001ab079_00000002_001bfb6d_00000003_0c9bfbe5_00000004_0d3c3472_00000005_0d9879ee_00000006 hashed:37 0=00000000_0000000c_3ebe 16=0000000000000128 32=000102030405060708090a0b0c0d0e0f_0000000000000090_0005_0001 64=0e58746d_00000007_1eb8746a_00000008_5cfcb272_00000009_7dfbf963_0000000a_8cbcb768_0000000b hashed:30 58=0000 hashed:37 58=0002 | 2 image rule 25 inode 144 block 30
";

/// The inode, and the extents of its fork: the record stands at 368.
const FORK_ROWS: &str = r"
# no attribute fork: only the root may have none; extents format without extents
parents IMAGE MANIFEST 144 | block inode:144 82=00 | 2 image rule 11 inode 144 block 0
parents IMAGE MANIFEST 128 | block inode:128 82=00 | 0 ok 0
parents IMAGE MANIFEST 128 | block | 0 ok 0
parents IMAGE MANIFEST 144 | block inode:144 83=02 | 0 ok 0
parents IMAGE MANIFEST 144 | block inode:144 83=02 368=ffffffff_ffffffff_ffffffff_ffffffff | 0 ok 0
# other formats, a fork that begins at the end, a mode without a kind
parents IMAGE MANIFEST 144 | block inode:144 83=00 | 2 image rule 11 inode 144 block 0
parents IMAGE MANIFEST 144 | block inode:144 83=03 | 2 image rule 11 inode 144 block 0
parents IMAGE MANIFEST 144 | block inode:144 83=04 | 2 image rule 11 inode 144 block 0
parents IMAGE MANIFEST 144 | block inode:144 82=2a | 2 image rule 11 inode 144 block 0
parents IMAGE MANIFEST 144 | block inode:144 2=0000 | 2 image rule 11 inode 144 block 0
parents IMAGE MANIFEST 144 | block inode:144 2=e1a4 | 2 image rule 11 inode 144 block 0
# the core
parents IMAGE MANIFEST 144 | block inode:144 0=0000 | 2 image rule 10 inode 144 block 0
parents IMAGE MANIFEST 144 | block inode:144 4=02 | 2 image rule 10 inode 144 block 0
parents IMAGE MANIFEST 144 | block inode:144 159=91 | 2 image rule 10 inode 144 block 0
parents IMAGE MANIFEST 144 | block inode:144 160=01 | 2 image rule 10 inode 144 block 0
parents IMAGE MANIFEST 144 | block raw:73728 100=00000000 | 2 image rule 10 inode 144 block 0
parents IMAGE MANIFEST 0 | block | 0 error 2 ENOENT
# no inode has this number
parents IMAGE MANIFEST 4608 | block | 0 error 2 ENOENT
parents IMAGE MANIFEST 18446744073709551615 | block | 0 error 2 ENOENT
# the flag, the count, the block: before the group's second, in the log, past the end; more extents than there are, and than there is room for
parents IMAGE MANIFEST 144 | block attributes:144:64:twenty inode:144 368=80 | 2 image rule 13 inode 144 block 0
parents IMAGE MANIFEST 144 | block attributes:144:64:twenty inode:144 380=03000000 | 2 image rule 13 inode 144 block 0
parents IMAGE MANIFEST 144 | block attributes:144:64:twenty inode:144 380=00000001 | 2 image rule 13 inode 144 block 0
parents IMAGE MANIFEST 144 | block attributes:144:64:twenty inode:144 380=08000001 | 2 image rule 13 inode 144 block 0
parents IMAGE MANIFEST 144 | block attributes:144:64:twenty inode:144 380=48000001 | 2 image rule 13 inode 144 block 0
parents IMAGE MANIFEST 144 | block attributes:144:64:twenty inode:144 80=0002 | 2 image rule 13 inode 144 block 0
parents IMAGE MANIFEST 144 | block attributes:144:64:twenty inode:144 80=000a | 2 image rule 13 inode 144 block 0
# with the wide count of extents
parents IMAGE MANIFEST 144 | block attributes:144:64:twenty inode:144 76=00000001 80=0000 127=10 | 0 ok 20 / 128 7 auk / 128 7 booby / 128 7 coot / 128 7 dove / 128 7 egret / 128 7 finch / 128 7 goose / 128 7 heron / 128 7 ibis / 128 7 jay / 133 1 auk / 133 1 kite / 133 1 lark / 133 1 moa / 133 1 nene / 4294967424 4294967295 owl / 4294967424 4294967295 pipit / 4294967424 4294967295 quail / 4294967424 4294967295 rail / 4294967424 4294967295 swan
parents IMAGE MANIFEST 144 | block attributes:144:64:twenty inode:144 76=00000002 80=0000 127=10 | 2 image rule 13 inode 144 block 0
parents IMAGE MANIFEST 144 | block attributes:144:64:twenty inode:144 76=00000000 80=0001 127=10 | 0 ok 0
# the root isn't mapped; a leaf isn't; an extent that maps more; two extents
parents IMAGE MANIFEST 144 | block attributes:144:64:twenty inode:144 368=00000000_00000200 | 2 image rule 25 inode 144 block 0
parents IMAGE MANIFEST 144 | block attributes:144:8:twenty inode:144 380=03000003 | 2 image rule 25 inode 144 block 24
parents IMAGE MANIFEST 144 | block attributes:144:64:twenty inode:144 380=03000028 | 0 ok 20 / 128 7 auk / 128 7 booby / 128 7 coot / 128 7 dove / 128 7 egret / 128 7 finch / 128 7 goose / 128 7 heron / 128 7 ibis / 128 7 jay / 133 1 auk / 133 1 kite / 133 1 lark / 133 1 moa / 133 1 nene / 4294967424 4294967295 owl / 4294967424 4294967295 pipit / 4294967424 4294967295 quail / 4294967424 4294967295 rail / 4294967424 4294967295 swan
parents IMAGE MANIFEST 144 | block attributes:144:8:twenty inode:144 80=0002 380=03000002_00000000_00000400_00000000_03400002 | 0 ok 20 / 128 7 auk / 128 7 booby / 128 7 coot / 128 7 dove / 128 7 egret / 128 7 finch / 128 7 goose / 128 7 heron / 128 7 ibis / 128 7 jay / 133 1 auk / 133 1 kite / 133 1 lark / 133 1 moa / 133 1 nene / 4294967424 4294967295 owl / 4294967424 4294967295 pipit / 4294967424 4294967295 quail / 4294967424 4294967295 rail / 4294967424 4294967295 swan
parents IMAGE MANIFEST 144 | block attributes:144:8:twenty inode:144 80=0002 380=03000002_00000000_00000200_00000000_03400002 | 2 image rule 13 inode 144 block 0
# the data fork of a file isn't looked at; that of a directory is, before the attributes
parents IMAGE MANIFEST 144 | block attributes:144:64:twenty inode:144 5=03 76=ffffffff 176=ff | 0 ok 20 / 128 7 auk / 128 7 booby / 128 7 coot / 128 7 dove / 128 7 egret / 128 7 finch / 128 7 goose / 128 7 heron / 128 7 ibis / 128 7 jay / 133 1 auk / 133 1 kite / 133 1 lark / 133 1 moa / 133 1 nene / 4294967424 4294967295 owl / 4294967424 4294967295 pipit / 4294967424 4294967295 quail / 4294967424 4294967295 rail / 4294967424 4294967295 swan
parents IMAGE MANIFEST 128 | block inode:128 176=80 | 2 image rule 13 inode 128 block 0
parents IMAGE MANIFEST 128 | block inode:128 5=03 | 2 image rule 11 inode 128 block 0
parents IMAGE MANIFEST 128 | block inode:128 176=80 368=00140000 | 2 image rule 13 inode 128 block 0
parents IMAGE MANIFEST 128 | block inode:128 5=05 368=00140100_010c08'a'0000000000000080_00000007 | 2 image rule 11 inode 128 block 0
parents IMAGE MANIFEST 128 | block inode:128 368=00140100_010c08'a'0000000000000080_00000007 | 0 ok 1 / 128 7 a
parents IMAGE MANIFEST 129 | tree inode:129 368=00160100_030c08'sub'0000000000000080_00000001 | 0 ok 1 / 128 1 sub
# the least rule, where two are broken
parents IMAGE MANIFEST 144 | block inode:144 4=02 83=03 | 2 image rule 10 inode 144 block 0
parents IMAGE MANIFEST 144 | block attributes:144:64:twenty inode:144 368=80 2=0000 | 2 image rule 11 inode 144 block 0
parents IMAGE MANIFEST 144 | block attributes:144:64:twenty inode:144 368=80 hashed:24 58=0000 | 2 image rule 13 inode 144 block 0
";

/// Where the outside fails: the superblock is read, the inode, and each block of the fork once, and then the reply is told.
const OUTSIDE_ROWS: &str = r"
parents IMAGE MANIFEST 144 | block fails:1 | 4
parents IMAGE MANIFEST 144 | block fails:2 | 4
parents IMAGE MANIFEST 144 | block fails:3 | 6
parents IMAGE MANIFEST 144 | block fails:4 | 0 ok 0
parents IMAGE MANIFEST 144 | block attributes:144:64:twenty fails:3 | 4
parents IMAGE MANIFEST 144 | block attributes:144:64:twenty fails:4 | 6
parents IMAGE MANIFEST 144 | block attributes:144:64:twenty fails:5 | 0 ok 20 / 128 7 auk / 128 7 booby / 128 7 coot / 128 7 dove / 128 7 egret / 128 7 finch / 128 7 goose / 128 7 heron / 128 7 ibis / 128 7 jay / 133 1 auk / 133 1 kite / 133 1 lark / 133 1 moa / 133 1 nene / 4294967424 4294967295 owl / 4294967424 4294967295 pipit / 4294967424 4294967295 quail / 4294967424 4294967295 rail / 4294967424 4294967295 swan
parents IMAGE MANIFEST 144 | block attributes:144:8:twenty fails:5 | 4
parents IMAGE MANIFEST 144 | block attributes:144:8:twenty fails:6 | 4
parents IMAGE MANIFEST 144 | block attributes:144:8:twenty fails:7 | 6
parents IMAGE MANIFEST 144 | block attributes:144:8:twenty fails:8 | 0 ok 20 / 128 7 auk / 128 7 booby / 128 7 coot / 128 7 dove / 128 7 egret / 128 7 finch / 128 7 goose / 128 7 heron / 128 7 ibis / 128 7 jay / 133 1 auk / 133 1 kite / 133 1 lark / 133 1 moa / 133 1 nene / 4294967424 4294967295 owl / 4294967424 4294967295 pipit / 4294967424 4294967295 quail / 4294967424 4294967295 rail / 4294967424 4294967295 swan
# a broken fork is read up to the block that fails
parents IMAGE MANIFEST 144 | block attributes:144:8:twenty hashed:26 58=0000 fails:5 | 4
parents IMAGE MANIFEST 144 | block attributes:144:8:twenty hashed:26 58=0000 fails:6 | 6
parents IMAGE MANIFEST 144 | block attributes:144:8:twenty hashed:26 58=0000 fails:7 | 2 image rule 25 inode 144 block 26
parents IMAGE MANIFEST 4608 | block fails:1 | 4
parents IMAGE MANIFEST 4608 | block fails:2 | 6
";

#[test]
fn short_forks(rt: HostRuntime) {
    check_rows(&rt, Asked::Program, "short forks", SHORT_ROWS);
}

#[test]
fn records(rt: HostRuntime) {
    check_rows(&rt, Asked::Program, "records", RECORD_ROWS);
}

#[test]
fn leaves(rt: HostRuntime) {
    check_rows(&rt, Asked::Program, "attribute leaves", LEAF_ROWS);
}

#[test]
fn attribute_trees(rt: HostRuntime) {
    check_rows(&rt, Asked::Program, "attribute trees", NODE_ROWS);
}

#[test]
fn forks_of_inodes(rt: HostRuntime) {
    check_rows(&rt, Asked::Program, "forks", FORK_ROWS);
}

#[test]
fn faults_of_the_outside(rt: HostRuntime) {
    check_rows(&rt, Asked::Program, "outside", OUTSIDE_ROWS);
}
