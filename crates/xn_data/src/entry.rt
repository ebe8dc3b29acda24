ghost use Rattle.std.specs.Prelude.{◌≡◌, ◌+◌, ◌≤◌, true, false, length, slice_index, MatchOption};
ghost use Rattle.std.specs.Iterator.{YieldsFirstBy, item_count};
ghost use Rattle.xn_bytes.specs.Entries.{Entry, data_entry_length};
ghost use Rattle.xn_bytes.specs.DataBlock.{EntryStands, entry_at, entries_among, regions_at, most_regions};
ghost use Rattle.xn_data.specs.Standing.{StandFrom};
ghost use Rattle.xn_data.specs.Viewed.{entry_of};

use crate::layout::{HEADER, LEAST_ENTRY, NAME, NAME_LENGTH};
use crate::region::{check_entry, entry_size, free_size, is_free};
use std::marker::Model;
use xn_bytes::{Kind, u64_at};

/// An entry of a directory in a data block, with its name in place.
#[derive(Clone, Copy, Debug, PartialEq, Eq)]
pub struct DataEntry<'a> {
    /// The name's bytes, where they stand in the block.
    pub name: &'a [u8],
    /// The inode that the name stands for.
    pub ino: u64,
    pub kind: Kind,
    /// The byte position in the block, a multiple of 8.
    pub position: u64,
}

/// The entries of a data block, in rising position. Contracts see the list of those that are left.
#[derive(Debug, Drop)]
pub struct DataEntries<'a> {
    bytes: &'a [u8],
    at: usize,
    end: usize,
}

// A region at the place where the iterator stands is an entry: free ones are passed at once, and no two of them touch.
impl<'a> Model for DataEntries<'a> {
    ghost use Rattle.std.specs.Prelude.{List, true};
    ghost use Rattle.xn_bytes.specs.Entries.{Entry};
    ghost use Rattle.xn_bytes.specs.DataBlock.{entries_among, regions_at, most_regions};
    ghost use Rattle.xn_data.specs.Standing.{StandFrom};

    ghost Value = { List Entry };

    ghost view = { λ s. entries_among (regions_at most_regions s.at s.end s.bytes.now) };

    ghost invariant = { λ s. StandFrom true s.at s.end s.bytes.now };
}

impl<'a> DataEntries<'a> {
    /// The entries from a place to the end.
    pub(crate) fn new(bytes: &'a [u8], at: usize, end: usize) -> DataEntries<'a>
        requires { StandFrom false at end bytes.now }
        ensures { result ≡ entries_among (regions_at most_regions at end bytes.now) }
    {
        DataEntries {
            bytes,
            at: past_free(bytes, at, end),
            end,
        }
    }
}

impl<'a> Iterator for DataEntries<'a> {
    type Item = DataEntry<'a>;

    ghost next_gives = { YieldsFirstBy entry_of (λ s. s) };

    ghost remaining = { item_count (λ s. s) };

    fn next(&mut self) -> Option<DataEntry<'a>> {
        if self.end <= self.at {
            return None;
        }
        let entry = read_entry(self.bytes, self.at);
        let behind = self.at + entry_size(self.bytes[self.at + NAME_LENGTH]);
        self.at = past_free(self.bytes, behind, self.end);
        Some(entry)
    }
}

/// The place behind the free region at a place, or the same where none begins there.
fn past_free(bytes: &[u8], at: usize, end: usize) -> usize
    requires { StandFrom false at end bytes.now }
    ensures stand { StandFrom true result end bytes.now }
    ensures entries { entries_among (regions_at most_regions result end bytes.now) ≡ entries_among (regions_at most_regions at end bytes.now) }
{
    if at < end && is_free(bytes, at) {
        at + free_size(bytes, at)
    } else {
        at
    }
}

/// The entry at a place.
fn read_entry(bytes: &[u8], at: usize) -> DataEntry<'_>
    requires { at + data_entry_length (slice_index bytes.now (at + 8)) ≤ length bytes.now }
    ensures { entry_of result ≡ entry_at at bytes.now }
{
    let name = at + NAME;
    let name_end = name + usize::from(bytes[at + NAME_LENGTH]);
    DataEntry {
        name: &bytes[name..name_end],
        ino: u64_at(bytes, at),
        kind: Kind::from_number(bytes[name_end]).unwrap_or(Kind::Reg),
        position: at as u64,
    }
}

/// The entry that stands at a position, if one does. Looks at that place alone.
pub(crate) fn entry_in_place(bytes: &[u8], end: usize, position: u64) -> Option<DataEntry<'_>>
    requires { end ≤ length bytes.now }
    ensures { MatchOption result
        ((entry : Entry) → entry.position ≡ position → 64 ≤ position → EntryStands end bytes.now entry → ⊥)
        (λ found. (found.position ≡ position) × (64 ≤ position) × EntryStands end bytes.now (entry_of found)) }
{
    let at = position as usize;
    if at < HEADER || end < LEAST_ENTRY || end - LEAST_ENTRY < at {
        return None;
    }
    if is_free(bytes, at) {
        return None;
    }
    match check_entry(bytes, at, end) {
        Ok(_) => Some(read_entry(bytes, at)),
        Err(_) => None,
    }
}
