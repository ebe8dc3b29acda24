//! Images as words: one that is made, and changes of it.

ghost use Rattle.std.specs.Prelude.{◌≡◌, ◌+◌, ◌*◌, ◌%◌, ◌≤◌, length, IfOk};

use crate::RowFault;
use crate::attributes::put_attributes;
use crate::full::put_full;
use crate::pieces::{Piece, SECTOR, put, put_file};
use crate::spelling::bytes;
use crate::trees::{put_leaf_form, put_node_form};
use std::alloc::Global;
use xn_bytes::Kind;
use xn_make::{
    DATA_FORK, DIRECTORY_BLOCK, Named, ROOT, block_directory, block_image, directory_inode, sample,
};

/// Parent 128: the directory `sub` (129), the file `file` (144); and as directories `odd` (145, a file), `gone` (far behind
/// the image) and `bad` (130, whose inode is zeros). `sub` has the directory `deep` (131), and the file `f` (144). `deep` has
/// the file `end` (144).
const TREE: &str = "short:0500_00000080\
_030060'sub'02_00000081\
_040070'file'01_00000090\
_030080'odd'02_00000091\
_040090'gone'02_00ffffff\
_0300a0'bad'02_00000082 \
dir:129:3:0200_00000080_040060'deep'02_00000083_010070'f'01_00000090 \
dir:131:2:0100_00000081_030060'end'01_00000090 \
file:144 file:145";

/// Parent 128: the files `a` (131) and `file one` (132), and `caf` with two bytes of UTF-8 (133), a directory that has the
/// file `menu` (134).
const DEMO: &str = "short:0300_00000080\
_010060'a'01_00000083\
_080070'file'20'one'01_00000084\
_050088'caf'c3a9_02_00000085 \
inode:128 16=00000003 \
dir:133:2:0100_00000080_040060'menu'01_00000086 \
file:131 file:132 file:134";

/// Leaf form. The hashes in order are those of `.`, `..`, `one`, `six`, `two`, `five`, `four`, and of `three`, which was taken
/// away. `.` stands at 64, `..` at 80, `one` (131) at 96, `two` (132) at 112, a free region of 24 bytes at 128, `four` (133)
/// at 152, and the rest from 168 on is free. In the second block `five` (134) stands at 64 and `six` (135) at 80, and the rest
/// from 96 on is free.
const LEAF: &str = "leaf:'one','two',-'three','four'/'five','six'";

/// The same names in node form, with one leaf as the tree.
const SINGLE: &str = "node:8:'one','two',-'three','four'/'five','six'";

/// Node form with three leaves, in which stand the hashes of `.`, `..`, `quail`, `Raven`; those of `ravel`, which is that of
/// `Raven`, `robin`, `snipe`, and of `crane`, which was taken away; and those of `stork` and `heron`. Data block 2 isn't mapped.
const NODE: &str = "node:4:'Raven','robin',-'crane','stork'/'ravel','quail'//'snipe','heron'";

/// The same names with a root of level 2. The first of two nodes below, in block 54, has two leaves, the last of which ends
/// with `Raven`; that in block 55 has three, the first of which begins with `ravel`.
const DEEP: &str = "node:2:'Raven','robin',-'crane','stork'/'ravel','quail'//'snipe','heron' \
inode:128 71=0c 79=0c 320=0000000100000c00_0000000006c00001_0000000100000e00_0000000006e00001_0000000200000000_0000000007000001 \
hashed:48 56=00020002 64=2c3db2eb_00800006_8cbcb7e8_00800007_0000000000000000_0000000000000000_0000000000000000 \
hashed:54 0=00800007_00000000_3ebe 16=00000000000001b0 32=000102030405060708090a0b0c0d0e0f_0000000000000080_0002_0001 \
64=0000172e_00800001_2c3db2eb_00800002 \
hashed:55 4=00800006_3ebe 16=00000000000001b8 32=000102030405060708090a0b0c0d0e0f_0000000000000080_0003_0001 \
64=2df8b4e9_00800003_3e587763_00800004_8cbcb7e8_00800005";

/// The image that words spell.
pub fn image(alloc: Global, words: &str) -> Result<Vec<u8>, RowFault>
    ensures { IfOk result (λ image. length image.items % 512 ≡ 0) }
{
    let (name, changes) = first_word(words);
    let (made, own_changes) = first_word(spelled_out(name));
    let mut image = made_image(alloc, made)?;
    change(alloc, &mut image, own_changes)?;
    change(alloc, &mut image, changes)?;
    Ok(whole_sectors(image))
}

/// The words for which a name stands, or itself.
fn spelled_out(name: &str) -> &str {
    match name {
        "tree" => TREE,
        "demo" => DEMO,
        "leaf" => LEAF,
        "single" => SINGLE,
        "node" => NODE,
        "deep" => DEEP,
        _ => name,
    }
}

/// The first of the words of a text, and the rest.
fn first_word(words: &str) -> (&str, &str) {
    let words = words.trim();
    words.split_once(' ').unwrap_or((words, ""))
}

/// The image that a word names, with what it spells.
fn made_image(alloc: Global, word: &str) -> Result<Vec<u8>, RowFault> {
    let (form, spelled) = word.split_once(':').unwrap_or((word, ""));
    match form {
        "none" => Ok(Vec::new(alloc)),
        "block" if spelled.is_empty() => Ok(block_image(alloc)?),
        "block" => image_naming(alloc, spelled),
        "short" => {
            let form = fork(alloc, spelled)?;
            Ok(xn_make::image(alloc, &form)?)
        }
        "leaf" => image_in_leaf_form(alloc, spelled),
        "node" => image_in_node_form(alloc, spelled),
        "full" => image_of_full_blocks(alloc, spelled),
        "sample" => sample_image(alloc),
        _ => Err(RowFault::Word),
    }
}

/// The bytes of a data fork.
fn fork(alloc: Global, spelled: &str) -> Result<Vec<u8>, RowFault>
    ensures { IfOk result (λ form. length form.items ≤ DATA_FORK) }
{
    let form = bytes(alloc, spelled)?;
    if form.len() > DATA_FORK {
        return Err(RowFault::Bytes);
    }
    Ok(form)
}

/// The image whose root is in leaf form, and has these names.
fn image_in_leaf_form(alloc: Global, names: &str) -> Result<Vec<u8>, RowFault> {
    let mut image = xn_make::image(alloc, &[])?;
    put_leaf_form(alloc, &mut image, names)?;
    Ok(image)
}

/// The image whose root is in node form, spelled as the number of leaf entries in a leaf, and its names.
fn image_in_node_form(alloc: Global, spelled: &str) -> Result<Vec<u8>, RowFault> {
    let mut image = xn_make::image(alloc, &[])?;
    put_node_form(alloc, &mut image, spelled)?;
    Ok(image)
}

/// The image whose root has so many full data blocks.
fn image_of_full_blocks(alloc: Global, blocks: &str) -> Result<Vec<u8>, RowFault> {
    let mut image = xn_make::image(alloc, &[])?;
    put_full(alloc, &mut image, blocks)?;
    Ok(image)
}

/// The sample image of 64 inodes, with room for a pool of 64 blocks.
fn sample_image(alloc: Global) -> Result<Vec<u8>, RowFault> {
    let (image, _) = sample(alloc, 64, 64)?;
    Ok(image)
}

/// The image whose root is in block form, and names the files 144 and 145 so.
fn image_naming(alloc: Global, names: &str) -> Result<Vec<u8>, RowFault> {
    let (first, second) = names.split_once(',').ok_or(RowFault::Word)?;
    let block = block_naming(alloc, &bytes(alloc, first)?, &bytes(alloc, second)?)?;
    let mut image = block_image(alloc)?;
    put(&mut image, 4096 * DIRECTORY_BLOCK as usize, &block)?;
    Ok(image)
}

#[tactic(auto, unfolding(xn_make::specs::Directories::total_length))]
fn block_naming(alloc: Global, first: &[u8], second: &[u8]) -> Result<Vec<u8>, RowFault> {
    if first.len() > 255 || second.len() > 255 {
        return Err(RowFault::Bytes);
    }
    let entries = [file_named(first, 144), file_named(second, 145)];
    Ok(block_directory(alloc, DIRECTORY_BLOCK, ROOT, ROOT, &entries)?)
}

fn file_named(name: &[u8], ino: u64) -> Named<'_>
    ensures name { result.name.now ≡ name.now }
    ensures number { result.ino ≡ ino }
{
    Named {
        name,
        ino,
        kind: Kind::Reg,
    }
}

/// Makes the changes of an image that words spell.
fn change(alloc: Global, image: &mut Vec<u8>, words: &str) -> Result<(), RowFault> {
    let mut piece = Piece::IMAGE;
    for word in words.split_whitespace() {
        if let Some((place, spelled)) = word.split_once('=') {
            piece.put(image, place.parse()?, &bytes(alloc, spelled)?)?;
        } else if !change_whole(alloc, image, word)? {
            piece = Piece::read(word)?;
        }
    }
    Ok(())
}

/// Makes a change that a word spells with no place, if it is such a word.
fn change_whole(alloc: Global, image: &mut Vec<u8>, word: &str) -> Result<bool, RowFault> {
    match word.split_once(':') {
        Some(("dir", spelled)) => put_directory(alloc, image, spelled)?,
        Some(("file", number)) => put_file(image, number.parse()?)?,
        Some(("attributes", spelled)) => put_attributes(alloc, image, spelled)?,
        Some(("sectors", count)) => image.truncate(SECTOR * count.parse::<u32>()? as usize),
        Some(("fails" | "manifest", _)) => {}
        _ => return Ok(false),
    }
    Ok(true)
}

/// Puts the inode of a directory, spelled as its number, its links and its form.
fn put_directory(alloc: Global, image: &mut [u8], spelled: &str) -> Result<(), RowFault> {
    let (number, rest) = spelled.split_once(':').ok_or(RowFault::Word)?;
    let (links, form) = rest.split_once(':').ok_or(RowFault::Word)?;
    let number = number.parse::<u32>()?;
    let inode = directory_inode(u64::from(number), links.parse()?, &fork(alloc, form)?);
    put(image, SECTOR * number as usize, &inode)
}

/// An image without the bytes behind its last whole sector.
fn whole_sectors(image: Vec<u8>) -> Vec<u8>
    ensures { length result.items % 512 ≡ 0 }
{
    let whole = image.len() / SECTOR * SECTOR;
    let mut image = image;
    image.truncate(whole);
    image
}
