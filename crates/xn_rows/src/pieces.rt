//! Pieces of an image, to which changes go.

ghost use Rattle.std.specs.Prelude.{◌≡◌, ◌+◌, ◌*◌, ◌≤◌, length, IfSome, OnOk, OnErr};
ghost use Rattle.xn_bytes.specs.Numbers.{overlaid};

use crate::RowFault;
use xn_bytes::put_checksum;
use xn_make::regular_inode;

/// How many bytes a sector has, and an inode.
pub const SECTOR: usize = 512;

/// How many bytes a block has.
pub const BLOCK: usize = 4096;

/// A piece of an image, from a byte on. In one with a checksum this stands at a place, and the piece has a length.
#[derive(Clone, Copy, Debug)]
pub struct Piece {
    start: usize,
    sum: Option<Checksum>,
}

/// Where in a piece of this length its checksum stands.
#[derive(Clone, Copy, Debug)]
struct Checksum {
    length: usize,
    at: usize,
    ghost within: { at + 4 ≤ length },
}

impl Piece {
    /// The whole image.
    pub const IMAGE: Piece = Piece {
        start: 0,
        sum: None,
    };

    /// The piece that a word names.
    pub fn read(word: &str) -> Result<Piece, RowFault> {
        let (kind, number) = word.split_once(':').unwrap_or((word, "0"));
        let number = number.parse()?;
        match kind {
            "super" => Ok(summed(number, SECTOR, 224)),
            "inode" => Ok(Piece::inode(number)),
            "data" | "free" => Ok(Piece::data(number)),
            "hashed" => Ok(Piece::hashed(number)),
            "raw" => Ok(Piece {
                start: number as usize,
                sum: None,
            }),
            _ => Err(RowFault::Word),
        }
    }

    /// An inode.
    pub fn inode(number: u32) -> Piece {
        summed(number, SECTOR, 100)
    }

    /// A block of directory entries, or a free-index block.
    pub fn data(number: u32) -> Piece {
        summed(number, BLOCK, 4)
    }

    /// A leaf or a node.
    pub fn hashed(number: u32) -> Piece {
        summed(number, BLOCK, 12)
    }

    /// Puts bytes at a place of the piece, and its checksum.
    pub fn put(self, image: &mut [u8], at: usize, bytes: &[u8]) -> Result<(), RowFault>
        ensures { length image.new ≡ length image.old }
    {
        let place = self.start.checked_add(at).ok_or(RowFault::Place)?;
        put(image, place, bytes)?;
        match self.sum {
            Some(sum) => put_sum(image, self.start, sum),
            None => Ok(()),
        }
    }
}

/// The piece of this number among those of a length, which has its checksum at a place.
fn summed(number: u32, length: usize, at: usize) -> Piece
    requires within { at + 4 ≤ length }
    requires short { length ≤ BLOCK }
{
    Piece {
        start: length * number as usize,
        sum: Some(Checksum { length, at }),
    }
}

/// Puts bytes at a place of an image, if they end within it.
pub fn put(image: &mut [u8], at: usize, bytes: &[u8]) -> Result<(), RowFault>
    ensures value { OnOk result (image.new ≡ overlaid image.old at bytes.now) }
    ensures kept { OnErr result (image.new ≡ image.old) }
    ensures length { length image.new ≡ length image.old }
{
    if image.len() < bytes.len() || image.len() - bytes.len() < at {
        return Err(RowFault::Place);
    }
    image[at..at + bytes.len()].copy_from_slice(bytes);
    Ok(())
}

/// Puts the inode of an empty regular file.
pub fn put_file(image: &mut [u8], number: u32) -> Result<(), RowFault> {
    if number < 128 {
        return Err(RowFault::Number);
    }
    let inode = regular_inode(u64::from(number));
    put(image, SECTOR * number as usize, &inode)
}

fn put_sum(image: &mut [u8], start: usize, sum: Checksum) -> Result<(), RowFault>
    ensures { length image.new ≡ length image.old }
{
    if image.len() < sum.length || image.len() - sum.length < start {
        return Err(RowFault::Place);
    }
    put_checksum(&mut image[start..start + sum.length], sum.at);
    Ok(())
}
