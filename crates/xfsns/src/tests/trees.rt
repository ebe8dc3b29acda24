//! Roots in leaf and in node form: `list` and `resolve`, and which rule is told of one that is broken. The images stand at
//! `xn_rows`, as do the numbers of their blocks.

use super::{Asked, check_rows};

/// Leaf form, and node form with one leaf as the tree, of the same names.
const ONE_LEAF_ROWS: &str = r"
list IMAGE MANIFEST 128 | leaf | 0 ok 5 / 134 reg five / 133 reg four / 131 reg one / 135 reg six / 132 reg two
list IMAGE MANIFEST 128 | single | 0 ok 5 / 134 reg five / 133 reg four / 131 reg one / 135 reg six / 132 reg two
resolve IMAGE MANIFEST /one | leaf | 0 ok 131 reg
resolve IMAGE MANIFEST /two | leaf | 0 ok 132 reg
resolve IMAGE MANIFEST /four | leaf | 0 ok 133 reg
resolve IMAGE MANIFEST /five | leaf | 0 ok 134 reg
resolve IMAGE MANIFEST /six | leaf | 0 ok 135 reg
resolve IMAGE MANIFEST /one | single | 0 ok 131 reg
resolve IMAGE MANIFEST /two | single | 0 ok 132 reg
resolve IMAGE MANIFEST /four | single | 0 ok 133 reg
resolve IMAGE MANIFEST /five | single | 0 ok 134 reg
resolve IMAGE MANIFEST /six | single | 0 ok 135 reg
# one that was taken away, and one with no such hash
resolve IMAGE MANIFEST /three | leaf | 0 error 2 ENOENT
resolve IMAGE MANIFEST /seven | leaf | 0 error 2 ENOENT
resolve IMAGE MANIFEST /three | single | 0 error 2 ENOENT
resolve IMAGE MANIFEST /seven | single | 0 error 2 ENOENT
# behind a file, and what is no name
resolve IMAGE MANIFEST /six/one | leaf | 0 error 20 ENOTDIR
resolve IMAGE MANIFEST /six/one | single | 0 error 20 ENOTDIR
resolve IMAGE MANIFEST /. | leaf | 0 error 22 EINVAL
resolve IMAGE MANIFEST /.. | single | 0 error 22 EINVAL
# a data block that isn't mapped between two; more free regions than a header names
list IMAGE MANIFEST 128 | leaf:'a'//'b' | 0 ok 2 / 131 reg a / 132 reg b
resolve IMAGE MANIFEST /b | leaf:'a'//'b' | 0 ok 132 reg
list IMAGE MANIFEST 128 | leaf:-'gone','a','b','c','d'/-'x','e',-'y','f',-'z','g' | 0 ok 7 / 131 reg a / 132 reg b / 133 reg c / 134 reg d / 135 reg e / 136 reg f / 137 reg g
";

/// Node form with more than one leaf.
const NODE_ROWS: &str = r"
list IMAGE MANIFEST 128 | node | 0 ok 7 / 131 reg Raven / 137 reg heron / 135 reg quail / 134 reg ravel / 132 reg robin / 136 reg snipe / 133 reg stork
resolve IMAGE MANIFEST /quail | node | 0 ok 135 reg
resolve IMAGE MANIFEST /robin | node | 0 ok 132 reg
resolve IMAGE MANIFEST /snipe | node | 0 ok 136 reg
resolve IMAGE MANIFEST /stork | node | 0 ok 133 reg
resolve IMAGE MANIFEST /heron | node | 0 ok 137 reg
# names of one hash, the last of the first leaf and the first of the second
resolve IMAGE MANIFEST /Raven | node | 0 ok 131 reg
resolve IMAGE MANIFEST /ravel | node | 0 ok 134 reg
# one that was taken away; one with a hash between others, and one with a hash behind all
resolve IMAGE MANIFEST /crane | node | 0 error 2 ENOENT
resolve IMAGE MANIFEST /finch | node | 0 error 2 ENOENT
resolve IMAGE MANIFEST /whale | node | 0 error 2 ENOENT
# others with the hash of `heron`, and of `crane`
resolve IMAGE MANIFEST /Herol | node | 0 error 2 ENOENT
resolve IMAGE MANIFEST /Crang | node | 0 error 2 ENOENT
resolve IMAGE MANIFEST /heron/x | node | 0 error 20 ENOTDIR
resolve IMAGE MANIFEST /none/x | node | 0 error 2 ENOENT

# 2,100 data blocks of 14 names, with two levels and two free-index blocks: the superblock, the inode twice, the root, a leaf
# and a data block are read, and the seventh call tells the reply
resolve IMAGE MANIFEST /29399{x*250} | full:2100 fails:8 | 0 ok 131 reg
resolve IMAGE MANIFEST /29399{x*250} | full:2100 fails:7 | 6
resolve IMAGE MANIFEST /00000{x*250} | full:2100 fails:8 | 0 ok 131 reg
resolve IMAGE MANIFEST /29400{x*250} | full:2100 fails:7 | 0 error 2 ENOENT

# four names of one hash, in one leaf and the next; in two leaves by themselves; and each in its own
list IMAGE MANIFEST 128 | node:3:'RavenRaven','Ravenravel'/'ravelRaven','ravelravel' | 0 ok 4 / 131 reg RavenRaven / 132 reg Ravenravel / 133 reg ravelRaven / 134 reg ravelravel
resolve IMAGE MANIFEST /RavenRaven | node:3:'RavenRaven','Ravenravel'/'ravelRaven','ravelravel' | 0 ok 131 reg
resolve IMAGE MANIFEST /ravelravel | node:3:'RavenRaven','Ravenravel'/'ravelRaven','ravelravel' | 0 ok 134 reg
resolve IMAGE MANIFEST /ravelRaven | node:2:'RavenRaven','Ravenravel'/'ravelRaven','ravelravel' | 0 ok 133 reg
resolve IMAGE MANIFEST /ravelravel | node:2:'RavenRaven','Ravenravel'/'ravelRaven','ravelravel' | 0 ok 134 reg
list IMAGE MANIFEST 128 | node:1:'RavenRaven','Ravenravel'/'ravelRaven','ravelravel' | 0 ok 4 / 131 reg RavenRaven / 132 reg Ravenravel / 133 reg ravelRaven / 134 reg ravelravel
resolve IMAGE MANIFEST /RavenRaven | node:1:'RavenRaven','Ravenravel'/'ravelRaven','ravelravel' | 0 ok 131 reg
resolve IMAGE MANIFEST /Ravenravel | node:1:'RavenRaven','Ravenravel'/'ravelRaven','ravelravel' | 0 ok 132 reg
resolve IMAGE MANIFEST /ravelRaven | node:1:'RavenRaven','Ravenravel'/'ravelRaven','ravelravel' | 0 ok 133 reg
resolve IMAGE MANIFEST /ravelravel | node:1:'RavenRaven','Ravenravel'/'ravelRaven','ravelravel' | 0 ok 134 reg
# one that was taken away among them
resolve IMAGE MANIFEST /ravelravel | node:2:'RavenRaven',-'Ravenravel','ravelRaven'/'ravelravel' | 0 ok 133 reg
resolve IMAGE MANIFEST /Ravenravel | node:2:'RavenRaven',-'Ravenravel','ravelRaven'/'ravelravel' | 0 error 2 ENOENT
";

/// The size, data blocks, leaf entries against entries, and names.
const DATA_ROWS: &str = r"
# the size, of one data block too few and too many
list IMAGE MANIFEST 128 | leaf inode:128 62=10 | 2 image rule 15 inode 128 block 0
list IMAGE MANIFEST 128 | node inode:128 62=50 | 2 image rule 15 inode 128 block 0
list IMAGE MANIFEST 128 | single inode:128 62=30 | 2 image rule 15 inode 128 block 0
# no data block at all
list IMAGE MANIFEST 128 | leaf:/ | 2 image rule 15 inode 128 block 0

# a data block: its owner, place, uuid, checksum, magic number, pair, and an entry's own place
list IMAGE MANIFEST 128 | leaf data:41 47=81 | 2 image rule 17 inode 128 block 41
list IMAGE MANIFEST 128 | node data:43 47=81 | 2 image rule 17 inode 128 block 43
list IMAGE MANIFEST 128 | node data:41 15=49 | 2 image rule 17 inode 128 block 41
list IMAGE MANIFEST 128 | single data:41 39=0e | 2 image rule 17 inode 128 block 41
list IMAGE MANIFEST 128 | node raw:176128 200='x' | 2 image rule 17 inode 128 block 43
list IMAGE MANIFEST 128 | leaf data:41 0='XDB3' | 2 image rule 17 inode 128 block 41
list IMAGE MANIFEST 128 | leaf data:40 54=0010 | 2 image rule 17 inode 128 block 40
list IMAGE MANIFEST 128 | node data:43 87=48 | 2 image rule 17 inode 128 block 43
# dot and dotdot: their kinds, and a name of three bytes; the first data block isn't mapped
list IMAGE MANIFEST 128 | leaf data:40 74=01 | 2 image rule 17 inode 128 block 40
list IMAGE MANIFEST 128 | node data:40 91=01 | 2 image rule 17 inode 128 block 40
list IMAGE MANIFEST 128 | single data:40 91=01 | 2 image rule 17 inode 128 block 40
list IMAGE MANIFEST 128 | node data:40 88=03'...'02 | 2 image rule 17 inode 128 block 40
list IMAGE MANIFEST 128 | leaf:/'one','two' | 2 image rule 17 inode 128 block 0
list IMAGE MANIFEST 128 | node:2:/'one','two' | 2 image rule 17 inode 128 block 0
# the least number of two
list IMAGE MANIFEST 128 | node data:43 47=81 data:41 47=81 | 2 image rule 17 inode 128 block 41
list IMAGE MANIFEST 128 | leaf:/'one','two' data:41 47=81 | 2 image rule 17 inode 128 block 0

# a leaf entry: of another entry, of the free region, with another hash, of none, and of dot twice
list IMAGE MANIFEST 128 | node hashed:49 92=0000000f | 2 image rule 19 inode 128 block 0
list IMAGE MANIFEST 128 | node hashed:50 58=0000 92=00000012 | 2 image rule 19 inode 128 block 0
list IMAGE MANIFEST 128 | node hashed:50 72=2df8b4e8 | 2 image rule 19 inode 128 block 0
list IMAGE MANIFEST 128 | node hashed:49 58=0001 92=00000000 | 2 image rule 19 inode 128 block 0
list IMAGE MANIFEST 128 | leaf hashed:48 76=00000008 | 2 image rule 19 inode 128 block 0
list IMAGE MANIFEST 128 | leaf hashed:48 56=0007 58=0000 | 0 ok 5 / 134 reg five / 133 reg four / 131 reg one / 135 reg six / 132 reg two
list IMAGE MANIFEST 128 | leaf hashed:48 56=0006 58=0000 | 2 image rule 19 inode 128 block 0
list IMAGE MANIFEST 128 | single hashed:48 84=0000000e | 2 image rule 19 inode 128 block 0
list IMAGE MANIFEST 128 | single hashed:48 58=0002 84=00000000 | 2 image rule 19 inode 128 block 0

# a name twice, in one data block and in two; names that are none
list IMAGE MANIFEST 128 | leaf:'a','a'/'b' | 2 image rule 21 inode 128 block 0
list IMAGE MANIFEST 128 | leaf:'a'/'a' | 2 image rule 21 inode 128 block 0
list IMAGE MANIFEST 128 | node:2:'a','b'/'a' | 2 image rule 21 inode 128 block 0
list IMAGE MANIFEST 128 | node:2:'a'/'b'//'b' | 2 image rule 21 inode 128 block 0
list IMAGE MANIFEST 128 | leaf:'a'/61_2f_62 | 2 image rule 21 inode 128 block 0
list IMAGE MANIFEST 128 | node:2:'a'/61_00 | 2 image rule 21 inode 128 block 0
list IMAGE MANIFEST 128 | leaf:'a'/'..' | 2 image rule 21 inode 128 block 0
list IMAGE MANIFEST 128 | node:2:'a','.'/'b' | 2 image rule 21 inode 128 block 0
";

/// The single leaf and its bests.
const SINGLE_LEAF_ROWS: &str = r"
# the magic numbers of a leaf of node form, and of a node; its place, uuid and owner; its siblings
list IMAGE MANIFEST 128 | leaf hashed:48 8=3dff | 2 image rule 18 inode 128 block 48
list IMAGE MANIFEST 128 | leaf hashed:48 8=3ebe | 2 image rule 18 inode 128 block 48
list IMAGE MANIFEST 128 | leaf hashed:48 22=0188 | 2 image rule 18 inode 128 block 48
list IMAGE MANIFEST 128 | leaf hashed:48 32=01 | 2 image rule 18 inode 128 block 48
list IMAGE MANIFEST 128 | leaf hashed:48 55=81 | 2 image rule 18 inode 128 block 48
list IMAGE MANIFEST 128 | leaf hashed:48 0=00800001 | 2 image rule 18 inode 128 block 48
list IMAGE MANIFEST 128 | leaf hashed:48 4=00800001 | 2 image rule 18 inode 128 block 48
list IMAGE MANIFEST 128 | leaf raw:196608 2000='x' | 2 image rule 18 inode 128 block 48
# the count of stale entries, too many entries, and entries out of order
list IMAGE MANIFEST 128 | leaf hashed:48 58=0000 | 2 image rule 18 inode 128 block 48
list IMAGE MANIFEST 128 | leaf hashed:48 58=0002 | 2 image rule 18 inode 128 block 48
list IMAGE MANIFEST 128 | leaf hashed:48 56=01f9 | 2 image rule 18 inode 128 block 48
list IMAGE MANIFEST 128 | leaf hashed:48 64=0000172e0000000a0000002e00000008 | 2 image rule 18 inode 128 block 48
# more bests than there is room for
list IMAGE MANIFEST 128 | leaf hashed:48 4092=000007bf | 2 image rule 18 inode 128 block 48
# the leaf isn't mapped: no file block, and another one
list IMAGE MANIFEST 128 | leaf inode:128 79=02 | 2 image rule 18 inode 128 block 0
list IMAGE MANIFEST 128 | leaf inode:128 214=02 | 2 image rule 18 inode 128 block 0

# a best, one too few and one too many, and one of a data block that isn't mapped
list IMAGE MANIFEST 128 | leaf hashed:48 4088=0f50 | 2 image rule 20 inode 128 block 0
list IMAGE MANIFEST 128 | leaf hashed:48 4090=ffff | 2 image rule 20 inode 128 block 0
list IMAGE MANIFEST 128 | leaf hashed:48 4092=00000001 | 2 image rule 20 inode 128 block 0
list IMAGE MANIFEST 128 | leaf hashed:48 4086=0f580fa0ffff00000003 | 2 image rule 20 inode 128 block 0
list IMAGE MANIFEST 128 | leaf:'a'//'b' hashed:48 4088=0010 | 2 image rule 20 inode 128 block 0
list IMAGE MANIFEST 128 | leaf hashed:48 4092=000007be | 2 image rule 20 inode 128 block 0
";

/// Trees, and the first block of each that fails.
const TREE_ROWS: &str = r"
# a root that is a leaf: with the magic number of leaf form, and as the greatest file block
list IMAGE MANIFEST 128 | single hashed:48 8=3df1 | 2 image rule 18 inode 128 block 48
list IMAGE MANIFEST 128 | single inode:128 79=03 | 2 image rule 18 inode 128 block 48
# its siblings, its owner, its count of stale entries; it isn't mapped
list IMAGE MANIFEST 128 | single hashed:48 0=00800001 | 2 image rule 18 inode 128 block 48
list IMAGE MANIFEST 128 | single hashed:48 4=00800001 | 2 image rule 18 inode 128 block 48
list IMAGE MANIFEST 128 | single hashed:48 55=81 | 2 image rule 18 inode 128 block 48
list IMAGE MANIFEST 128 | single hashed:48 58=0000 | 2 image rule 18 inode 128 block 48
list IMAGE MANIFEST 128 | single inode:128 214=02 | 2 image rule 18 inode 128 block 0
# a leaf without entries can be a root, but then its entries are missed
list IMAGE MANIFEST 128 | single hashed:48 56=00000000 | 2 image rule 19 inode 128 block 0

# the greatest hash of a child
list IMAGE MANIFEST 128 | node hashed:48 64=2c3db2ec | 2 image rule 18 inode 128 block 49
list IMAGE MANIFEST 128 | node hashed:48 80=ffffffff | 2 image rule 18 inode 128 block 51
# siblings that don't name each other
list IMAGE MANIFEST 128 | node hashed:49 0=00800003 | 2 image rule 18 inode 128 block 50
list IMAGE MANIFEST 128 | node hashed:50 4=00800003 | 2 image rule 18 inode 128 block 50
list IMAGE MANIFEST 128 | node hashed:50 0=00000000 | 2 image rule 18 inode 128 block 51
# the left sibling of the first, and the right one of the last, on both levels
list IMAGE MANIFEST 128 | node hashed:49 4=00800003 | 2 image rule 18 inode 128 block 49
list IMAGE MANIFEST 128 | node hashed:51 0=00800001 | 2 image rule 18 inode 128 block 51
list IMAGE MANIFEST 128 | node hashed:48 4=00800001 | 2 image rule 18 inode 128 block 48
list IMAGE MANIFEST 128 | node hashed:48 0=00800001 | 2 image rule 18 inode 128 block 48
# the order of hashes: across two leaves, in a leaf, in a node
list IMAGE MANIFEST 128 | node hashed:50 64=2c3db2ea | 2 image rule 18 inode 128 block 50
list IMAGE MANIFEST 128 | node hashed:50 64=2df8b4ea | 2 image rule 18 inode 128 block 50
list IMAGE MANIFEST 128 | node hashed:48 64=3e587764 | 2 image rule 18 inode 128 block 48
# a level: that of the leaves' parent, none, more than the greatest
list IMAGE MANIFEST 128 | node hashed:48 58=0002 | 2 image rule 18 inode 128 block 49
list IMAGE MANIFEST 128 | node hashed:48 58=0000 | 2 image rule 18 inode 128 block 48
list IMAGE MANIFEST 128 | node hashed:48 58=0005 | 2 image rule 18 inode 128 block 48
# a loop: a leaf again, and the root again
list IMAGE MANIFEST 128 | node hashed:48 72=2c3db2eb00800001 | 2 image rule 18 inode 128 block 49
list IMAGE MANIFEST 128 | node hashed:48 84=00800000 | 2 image rule 18 inode 128 block 48
# a child that isn't mapped, by the node and by the fork; one that is a data block, and one a free-index block
list IMAGE MANIFEST 128 | node hashed:48 84=00800004 | 2 image rule 18 inode 128 block 48
list IMAGE MANIFEST 128 | node inode:128 278=08 | 2 image rule 18 inode 128 block 48
list IMAGE MANIFEST 128 | node hashed:48 84=00000001 | 2 image rule 18 inode 128 block 48
list IMAGE MANIFEST 128 | node hashed:48 84=01000000 | 2 image rule 18 inode 128 block 48
# no children, and more than there is room for
list IMAGE MANIFEST 128 | node hashed:48 56=0000 | 2 image rule 18 inode 128 block 48
list IMAGE MANIFEST 128 | node hashed:48 56=01f9 | 2 image rule 18 inode 128 block 48
# the magic number, place, uuid, owner, checksum and count of stale entries of a leaf
list IMAGE MANIFEST 128 | node hashed:50 8=3df1 | 2 image rule 18 inode 128 block 50
list IMAGE MANIFEST 128 | node hashed:50 22=0198 | 2 image rule 18 inode 128 block 50
list IMAGE MANIFEST 128 | node hashed:50 47=00 | 2 image rule 18 inode 128 block 50
list IMAGE MANIFEST 128 | node hashed:50 55=81 | 2 image rule 18 inode 128 block 50
list IMAGE MANIFEST 128 | node raw:204800 3000='x' | 2 image rule 18 inode 128 block 50
list IMAGE MANIFEST 128 | node hashed:50 58=0000 | 2 image rule 18 inode 128 block 50
list IMAGE MANIFEST 128 | node hashed:51 58=0001 | 2 image rule 18 inode 128 block 51
# a leaf without entries under a node
list IMAGE MANIFEST 128 | node hashed:51 56=0000 | 2 image rule 18 inode 128 block 51
";

/// A root of level 2: its tree, and the first block of it that fails.
const DEEP_ROWS: &str = r"
list IMAGE MANIFEST 128 | deep | 0 ok 7 / 131 reg Raven / 137 reg heron / 135 reg quail / 134 reg ravel / 132 reg robin / 136 reg snipe / 133 reg stork
resolve IMAGE MANIFEST /quail | deep | 0 ok 135 reg
resolve IMAGE MANIFEST /Raven | deep | 0 ok 131 reg
resolve IMAGE MANIFEST /ravel | deep | 0 ok 134 reg
resolve IMAGE MANIFEST /robin | deep | 0 ok 132 reg
resolve IMAGE MANIFEST /snipe | deep | 0 ok 136 reg
resolve IMAGE MANIFEST /stork | deep | 0 ok 133 reg
resolve IMAGE MANIFEST /heron | deep | 0 ok 137 reg
resolve IMAGE MANIFEST /crane | deep | 0 error 2 ENOENT
resolve IMAGE MANIFEST /whale | deep | 0 error 2 ENOENT
# nodes that don't name each other, and leaves of two nodes
list IMAGE MANIFEST 128 | deep hashed:54 0=00000000 | 2 image rule 18 inode 128 block 55
list IMAGE MANIFEST 128 | deep hashed:55 4=00800003 | 2 image rule 18 inode 128 block 55
list IMAGE MANIFEST 128 | deep hashed:51 4=00000000 | 2 image rule 18 inode 128 block 51
list IMAGE MANIFEST 128 | deep hashed:50 0=00000000 | 2 image rule 18 inode 128 block 51
# the ends of the second level
list IMAGE MANIFEST 128 | deep hashed:54 4=00800007 | 2 image rule 18 inode 128 block 54
list IMAGE MANIFEST 128 | deep hashed:55 0=00800006 | 2 image rule 18 inode 128 block 55
list IMAGE MANIFEST 128 | deep hashed:53 0=00800001 hashed:55 0=00800006 | 2 image rule 18 inode 128 block 55
# the order across leaves of two nodes
list IMAGE MANIFEST 128 | deep hashed:51 64=2c3db2ea | 2 image rule 18 inode 128 block 51
# the greatest hash of a node, by its parent and by itself; of a leaf
list IMAGE MANIFEST 128 | deep hashed:48 64=2c3db2ec | 2 image rule 18 inode 128 block 54
list IMAGE MANIFEST 128 | deep hashed:54 72=2c3db2ec | 2 image rule 18 inode 128 block 54
list IMAGE MANIFEST 128 | deep hashed:54 64=0000172f | 2 image rule 18 inode 128 block 49
# levels: of a node, of the root, and a leaf in place of a node
list IMAGE MANIFEST 128 | deep hashed:54 58=0002 | 2 image rule 18 inode 128 block 54
list IMAGE MANIFEST 128 | deep hashed:48 58=0003 | 2 image rule 18 inode 128 block 54
list IMAGE MANIFEST 128 | deep hashed:48 68=00800001 | 2 image rule 18 inode 128 block 49
# the root below a node, and a leaf below two nodes
list IMAGE MANIFEST 128 | deep hashed:54 76=00800000 | 2 image rule 18 inode 128 block 48
list IMAGE MANIFEST 128 | deep hashed:55 68=00800002 | 2 image rule 18 inode 128 block 50
# a child that isn't mapped; behind a leaf that fails, and in front of one
list IMAGE MANIFEST 128 | deep hashed:55 68=00800008 | 2 image rule 18 inode 128 block 55
list IMAGE MANIFEST 128 | deep hashed:55 68=00800008 hashed:50 58=0001 | 2 image rule 18 inode 128 block 50
list IMAGE MANIFEST 128 | deep hashed:54 76=00800008 hashed:49 55=81 | 2 image rule 18 inode 128 block 54
";

/// Free-index blocks.
const FREE_ROWS: &str = r"
# a best, a used count, a number of bests, another block's number, and none
list IMAGE MANIFEST 128 | node free:56 64=0f48 | 2 image rule 20 inode 128 block 0
list IMAGE MANIFEST 128 | single free:56 66=0f98 | 2 image rule 20 inode 128 block 0
list IMAGE MANIFEST 128 | node free:56 59=04 | 2 image rule 20 inode 128 block 0
list IMAGE MANIFEST 128 | single free:56 59=01 | 2 image rule 20 inode 128 block 0
list IMAGE MANIFEST 128 | node free:56 55=03 59=02 | 2 image rule 20 inode 128 block 0
list IMAGE MANIFEST 128 | node free:56 52=000007e1 | 2 image rule 20 inode 128 block 0
list IMAGE MANIFEST 128 | node free:56 50=07e0 | 2 image rule 20 inode 128 block 0
list IMAGE MANIFEST 128 | node free:56 51=01 | 2 image rule 20 inode 128 block 0
# a best of a data block that isn't mapped, between others and behind them; none of one that is
list IMAGE MANIFEST 128 | node free:56 59=04 68=0010 | 2 image rule 20 inode 128 block 0
list IMAGE MANIFEST 128 | node free:56 55=05 59=04 72=0010 | 2 image rule 20 inode 128 block 0
list IMAGE MANIFEST 128 | node free:56 59=02 66=ffff | 2 image rule 20 inode 128 block 0
# its magic number, place, uuid, owner and checksum; it isn't mapped, or at another file block
list IMAGE MANIFEST 128 | node free:56 0='XDD3' | 2 image rule 20 inode 128 block 0
list IMAGE MANIFEST 128 | node free:56 14=01c8 | 2 image rule 20 inode 128 block 0
list IMAGE MANIFEST 128 | node free:56 24=01 | 2 image rule 20 inode 128 block 0
list IMAGE MANIFEST 128 | node free:56 47=81 | 2 image rule 20 inode 128 block 0
list IMAGE MANIFEST 128 | node raw:229376 60=01 | 2 image rule 20 inode 128 block 0
list IMAGE MANIFEST 128 | node inode:128 79=07 | 2 image rule 20 inode 128 block 0
list IMAGE MANIFEST 128 | node inode:128 294=02 | 2 image rule 20 inode 128 block 0
# one more that is none, and one more without bests
list IMAGE MANIFEST 128 | single inode:128 79=05 240=00000002000002000000000007200001 | 2 image rule 20 inode 128 block 0
list IMAGE MANIFEST 128 | single inode:128 79=05 240=00000002000002000000000007200001 free:57 0='XDF3' 8=00000000000001c8 24=000102030405060708090a0b0c0d0e0f_0000000000000080_000007e0 | 0 ok 5 / 134 reg five / 133 reg four / 131 reg one / 135 reg six / 132 reg two
# a number too many that has no best
list IMAGE MANIFEST 128 | node free:56 55=05 72=ffff | 0 ok 7 / 131 reg Raven / 137 reg heron / 135 reg quail / 134 reg ravel / 132 reg robin / 136 reg snipe / 133 reg stork
";

/// Two faults, of which the first is told.
const ORDER_ROWS: &str = r"
# an extent and the size; the size and a data block; a data block and a leaf
list IMAGE MANIFEST 128 | node inode:128 176=80 62=50 | 2 image rule 13 inode 128 block 0
list IMAGE MANIFEST 128 | node inode:128 62=50 data:41 47=81 | 2 image rule 15 inode 128 block 0
list IMAGE MANIFEST 128 | leaf data:41 47=81 hashed:48 55=81 | 2 image rule 17 inode 128 block 41
list IMAGE MANIFEST 128 | node data:43 47=81 hashed:48 55=81 | 2 image rule 17 inode 128 block 43
# a leaf and its entries; a leaf entry and a best; a best and a name that stands twice
list IMAGE MANIFEST 128 | leaf hashed:48 58=0000 76=00000008 | 2 image rule 18 inode 128 block 48
list IMAGE MANIFEST 128 | node hashed:49 92=0000000f hashed:51 55=81 | 2 image rule 18 inode 128 block 51
list IMAGE MANIFEST 128 | leaf hashed:48 76=00000008 4088=0f50 | 2 image rule 19 inode 128 block 0
list IMAGE MANIFEST 128 | node hashed:49 92=0000000f free:56 59=04 | 2 image rule 19 inode 128 block 0
list IMAGE MANIFEST 128 | leaf:'a','a'/'b' hashed:48 4088=0f50 | 2 image rule 20 inode 128 block 0
list IMAGE MANIFEST 128 | node:2:'a'/'a' free:56 59=01 | 2 image rule 20 inode 128 block 0
# the first and the last of these
list IMAGE MANIFEST 128 | leaf:'a','a'/'b' data:41 47=81 | 2 image rule 17 inode 128 block 41
list IMAGE MANIFEST 128 | node:2:'a'/'a' hashed:50 47=00 | 2 image rule 18 inode 128 block 50
list IMAGE MANIFEST 128 | node:2:'a'/'a' hashed:50 68=00000000 58=0001 | 2 image rule 19 inode 128 block 0

# two blocks of a tree: leaves from left to right, a node before its children
list IMAGE MANIFEST 128 | node hashed:51 55=81 hashed:50 58=0000 | 2 image rule 18 inode 128 block 50
list IMAGE MANIFEST 128 | node hashed:48 84=00800004 hashed:49 55=81 | 2 image rule 18 inode 128 block 48
list IMAGE MANIFEST 128 | node hashed:48 80=ffffffff hashed:49 0=00800003 | 2 image rule 18 inode 128 block 50
# right siblings of the last blocks are looked at behind all others, the greater level first
list IMAGE MANIFEST 128 | node hashed:48 0=00800001 hashed:51 55=81 | 2 image rule 18 inode 128 block 51
list IMAGE MANIFEST 128 | node hashed:51 0=00800001 hashed:48 0=00800001 | 2 image rule 18 inode 128 block 48
# no link and a leaf that fails; another root that fails
list IMAGE MANIFEST 128 | node inode:128 19=00 hashed:49 55=81 | 2 image rule 18 inode 128 block 49
list IMAGE MANIFEST 128 | node inode:128 4=02 hashed:49 55=81 | 2 image rule 10 inode 128 block 0
";

#[test]
fn one_leaf(rt: HostRuntime) {
    check_rows(&rt, Asked::Program, "one leaf", ONE_LEAF_ROWS);
}

#[test]
fn three_leaves(rt: HostRuntime) {
    check_rows(&rt, Asked::Program, "three leaves", NODE_ROWS);
}

#[test]
fn broken_data_and_names(rt: HostRuntime) {
    check_rows(&rt, Asked::Program, "data", DATA_ROWS);
}

#[test]
fn broken_single_leaves(rt: HostRuntime) {
    check_rows(&rt, Asked::Program, "single leaves", SINGLE_LEAF_ROWS);
}

#[test]
fn broken_trees(rt: HostRuntime) {
    check_rows(&rt, Asked::Program, "trees", TREE_ROWS);
}

#[test]
fn two_levels(rt: HostRuntime) {
    check_rows(&rt, Asked::Program, "two levels", DEEP_ROWS);
}

#[test]
fn broken_free_indexes(rt: HostRuntime) {
    check_rows(&rt, Asked::Program, "free-index blocks", FREE_ROWS);
}

#[test]
fn first_of_two_faults(rt: HostRuntime) {
    check_rows(&rt, Asked::Program, "order", ORDER_ROWS);
}
