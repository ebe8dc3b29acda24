//! Tests as text. A table is one text, a line a row; a row says which words the program is given, over which image, and what
//! it has to answer:
//!
//! ```text
//! # an inode without an attribute fork
//! list IMAGE MANIFEST 129 | tree inode:129 82=00 | 2 image rule 11 inode 129 block 0
//! ```
//!
//! Blank lines, and those that begin with `#`, are none. The three fields are parted by `|`.
//!
//! **The words** are parted by spaces. In a word `{n*255}` is 255 times `n`, `{_}` is a space, and `{}` is nothing, so that
//! `{}` alone is the empty word.
//!
//! **The image** is one that is made, and changes of it, all parted by spaces. Those that are made:
//!
//! | Word | Image |
//! |---|---|
//! | `none` | no sector at all |
//! | `block` | the root, in block form, names the files 144 to 154; inode 129 is an empty directory without a link |
//! | `block:BYTES,BYTES` | the same inodes, but the root names 144 and 145 so |
//! | `short:BYTES` | the root is in short form, with these bytes in its data fork |
//! | `leaf:NAMES` | the root is in leaf form, and has these names |
//! | `node:COUNT:NAMES` | the root is in node form, with at most so many leaf entries in a leaf |
//! | `full:BLOCKS` | the root is in node form, with so many data blocks of 14 names of 255 bytes each |
//! | `sample` | the inodes 128 to 191, none with a name: 16 directories, the first of them the root, and empty files; a pool of 64 blocks from 512 on |
//! | `tree`, `demo` | directories in short form, as [`images`] spells them |
//! | `leaf`, `single`, `node`, `deep` | roots in leaf and in node form, as [`images`] spells them |
//!
//! BYTES are hexadecimal digits, and between `'` text: `0100_'abc'_2f`. `_` is skipped. NAMES are those of files, each spelled
//! as BYTES, which have the numbers from 131 on in this order. Those of a data block are parted by `,`, and data blocks by
//! `/`; one without names isn't mapped. A name behind `-` was taken away: its place is free, and its leaf entry stale; a name
//! that is there stands behind it. Data
//! blocks are the blocks from 40 on, the single leaf or the root of the tree is block 48, the leaves below that are the blocks
//! from 49 on, and the free-index blocks are those from 56 on. Each has an extent of its own, in this order. (Of full data
//! blocks those from 576 on have one extent, and the leaves from block 2,976 on another; their names are `00000` and 250 times
//! `x`, and so on, and stand for the file 131.) The changes, in order:
//!
//! | Word | Change |
//! |---|---|
//! | `dir:NUMBER:LINKS:BYTES` | puts the inode of a directory in short form with so many links, and these bytes in its data fork |
//! | `file:NUMBER` | puts the inode of an empty regular file |
//! | `attributes:NUMBER:COUNT:LIST` | puts the attribute fork of an inode in blocks, with at most so many attributes in a leaf |
//! | `super` | from here on places are those of the superblock |
//! | `inode:NUMBER` | from here on places are those of this inode |
//! | `data:BLOCK` | from here on places are those of this block, one of directory entries |
//! | `hashed:BLOCK` | from here on places are those of this block, a leaf or a node |
//! | `free:BLOCK` | from here on places are those of this block, a free-index block |
//! | `raw:BYTE` | from here on places are counted from this byte of the image |
//! | `PLACE=BYTES` | puts the bytes at a place; but for `raw` the checksum of what was changed is then right |
//! | `sectors:COUNT` | cuts the image to so many sectors |
//! | `fails:CALL` | nothing: the device's call of this number fails, counted from 1 |
//! | `manifest:TEXT` | nothing: the manifest has this text |
//!
//! LIST has attributes parted by `,`, each of which is FLAGS`/`NAME`/`VALUE: the flags as a decimal number, without the bit that
//! says where the value stands, and name and value as BYTES. Where the value has blocks of its own VALUE is BLOCK`/`LENGTH, two
//! decimal numbers. `twenty` is the LIST of twenty parent records and of an attribute with a value elsewhere. The one leaf, or
//! the root of the tree, is block 24, and the leaves below it are the blocks from 25 on; one extent maps all of them.
//!
//! TEXT is BYTES in which `_` between `'` stands for a space, and `/` for a newline, after `{n*255}` is 255 times `n`, as in the
//! words: `manifest:'xfsns-manifest_1/chunk_128_0000000000000000/pool_512_64/'`. Other bytes, `_`, `/` and `=` as they are, are
//! spelled as digits. Without the word the manifest lists all inodes in blocks 8 to 63 and has no pool.
//!
//! **The answer** is the exit status, and the lines that are told, parted by ` / `.
#![tactic(auto)]

mod area;
mod attributes;
mod fault;
mod filled;
mod fork;
mod full;
mod hashed;
mod images;
mod manifests;
mod pieces;
mod row;
mod spelling;
mod trees;
mod words;

pub use fault::RowFault;
pub use images::image;
pub use manifests::manifest;
pub use row::Row;
pub use spelling::bytes;
