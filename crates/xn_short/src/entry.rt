ghost use Rattle.std.specs.Prelude.{◌≡◌, drop};
ghost use Rattle.std.specs.Iterator.{YieldsFirstBy, item_count};
ghost use Rattle.xn_bytes.specs.ShortDirectory.{entry_in, entry_size, entries_in};
ghost use Rattle.xn_short.specs.Widths.{byte_count};
ghost use Rattle.xn_short.specs.Whole.{IsWhole, AreWhole};
ghost use Rattle.xn_short.specs.Viewed.{entry_of};

use crate::layout::{NAME, POSITION};
use crate::width::NumberWidth;
use std::marker::Model;
use xn_bytes::{Kind, u16_at};

/// An entry of a directory in short form, with its name in place.
#[derive(Clone, Copy, Debug, PartialEq, Eq)]
pub struct ShortEntry<'a> {
    /// The name's bytes, where they stand in the form.
    pub name: &'a [u8],
    /// The inode that the name stands for.
    pub ino: u64,
    pub kind: Kind,
    /// The byte position that the entry would have in the directory's first data block, a multiple of 8.
    pub position: u64,
}

/// The entries of a directory in short form, in order. Contracts see the list of those that are left.
#[derive(Debug, Drop)]
pub struct ShortEntries<'a> {
    left: u8,
    width: NumberWidth,
    rest: &'a [u8],
}

impl<'a> Model for ShortEntries<'a> {
    ghost use Rattle.std.specs.Prelude.{List};
    ghost use Rattle.xn_bytes.specs.Entries.{Entry};
    ghost use Rattle.xn_bytes.specs.ShortDirectory.{entries_in};
    ghost use Rattle.xn_short.specs.Widths.{byte_count};
    ghost use Rattle.xn_short.specs.Whole.{AreWhole};

    ghost Value = { List Entry };

    ghost view = { λ s. entries_in s.left (byte_count s.width) s.rest.now };

    ghost invariant = { λ s. AreWhole s.left (byte_count s.width) s.rest.now };
}

impl<'a> ShortEntries<'a> {
    /// The entries at the front of `rest`.
    pub(crate) fn new(left: u8, width: NumberWidth, rest: &'a [u8]) -> ShortEntries<'a>
        requires { AreWhole left (byte_count width) rest.now }
        ensures { result ≡ entries_in left (byte_count width) rest.now }
    {
        ShortEntries { left, width, rest }
    }
}

impl<'a> Iterator for ShortEntries<'a> {
    type Item = ShortEntry<'a>;

    ghost next_gives = { YieldsFirstBy entry_of (λ s. s) };

    ghost remaining = { item_count (λ s. s) };

    #[tactic(auto, unfolding(xn_bytes::specs::ShortDirectory::entries_in))]
    fn next(&mut self) -> Option<ShortEntry<'a>> {
        if self.left == 0 {
            return None;
        }
        let (entry, rest) = read_entry(self.width, self.rest);
        self.left -= 1;
        self.rest = rest;
        Some(entry)
    }
}

// The entry at the front, and the bytes behind it.
fn read_entry(width: NumberWidth, bytes: &[u8]) -> (ShortEntry<'_>, &[u8])
    requires { IsWhole (byte_count width) bytes.now }
    ensures entry { entry_of result.0 ≡ entry_in (byte_count width) bytes.now }
    ensures rest { result.1.now ≡ drop (entry_size (byte_count width) bytes.now) bytes.now }
{
    let name_end = NAME + usize::from(bytes[0]);
    let entry = ShortEntry {
        name: &bytes[NAME..name_end],
        ino: width.number_at(bytes, name_end + 1),
        kind: Kind::from_number(bytes[name_end]).unwrap_or(Kind::Reg),
        position: u64::from(u16_at(bytes, POSITION)),
    };
    (entry, &bytes[name_end + 1 + width.bytes()..])
}
