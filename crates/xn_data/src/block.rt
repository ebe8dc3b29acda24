ghost use Rattle.std.specs.Prelude.{◌≡◌, ◌<◌, ◌≤◌, ◌==◌, length, None, Some, All, Contains, filter, IfOk, IfErr, IfSome, IsOkAnd, IsSomeAnd, MatchResult};
ghost use Rattle.std.specs.List.Sorted.{IsNonDecreasingBy};
ghost use Rattle.xn_bytes.specs.Entries.{Entry};
ghost use Rattle.xn_bytes.specs.DataBlock.{DataForm, DataHolds, block_size, data_fault, entries_among, gaps_among, greatest, header_size};
ghost use Rattle.xn_data.specs.Standing.{ArePlaced};
ghost use Rattle.xn_data.specs.Viewed.{entry_of};

use crate::check::{check, end_of_regions, is_block_form, leaf_count};
use crate::entry::{DataEntries, DataEntry, entry_in_place};
use crate::fault::DataFault;
use crate::layout::{FIRST_PAIR, HEADER, OWNER, PLACE, STALE_COUNT, UUID};
use crate::tail::Tail;
use std::marker::Model;
use xn_bytes::{u16_at, u32_at, u64_at};

/// A data block of a directory, in its 4,096 bytes. Contracts see what it holds.
///
/// A header of 64 bytes: magic number `XDB3` (block form, where the directory has this block alone) or `XDD3`, checksum,
/// the place on the device, the filesystem's uuid, the directory's inode, and three pairs that name the greatest free
/// regions. Behind it entries and free regions stand side by side. Each ends with its own place in the block, and no two
/// free ones touch. In block form the leaf entries end the block: one for each name, stale ones besides, and two counts.
#[derive(Debug, Drop)]
pub struct DataBlock<'a> {
    bytes: &'a [u8],
}

impl<'a> Model for DataBlock<'a> {
    ghost use Rattle.xn_bytes.specs.DataBlock.{DataForm, DataHolds, data_in};

    ghost Value = { DataForm };

    ghost view = { λ s. data_in s.bytes.now };

    ghost invariant = { λ s. DataHolds s.bytes.now (data_in s.bytes.now) };
}

impl<'a> DataBlock<'a> {
    /// The data block that stands in the bytes. Where none does, the error has the first place at which they fail: the
    /// magic number, the checksum, a count of leaf entries that leaves no place for the header, the regions one after the
    /// other, and then the pairs. Place, uuid, owner and the leaf entries are for the caller to compare. Takes no memory.
    pub fn read(bytes: &'a [u8]) -> Result<DataBlock<'a>, DataFault>
        requires size { length bytes.now ≡ 4096 }
        // What is read stands there.
        ensures found { IfOk result (λ block. DataHolds bytes.now block) }
        // What stands there is read, and only one thing does.
        ensures only { (form : DataForm) → DataHolds bytes.now form → IsOkAnd result (λ block. block ≡ form) }
        // Which fault it is.
        ensures exact { MatchResult result (λ _. data_fault bytes.now ≡ None) (λ fault. data_fault bytes.now ≡ Some fault.at) }
        ensures within { IfErr result (λ fault. fault.at < 4096) }
    {
        check(bytes)?;
        Ok(DataBlock { bytes })
    }

    #[tactic(auto, unfolding(xn_bytes::specs::DataBlock::data_in))]
    pub fn is_block_form(&self) -> bool
        ensures { result ≡ self.now.is_block_form }
    {
        is_block_form(self.bytes)
    }

    /// The block's place on the device that it claims, as its first sector.
    #[tactic(auto, unfolding(xn_bytes::specs::DataBlock::data_in))]
    pub fn place(&self) -> u64
        ensures { result ≡ self.now.place }
    {
        u64_at(self.bytes, PLACE)
    }

    /// The uuid of the filesystem that the block claims, 16 bytes.
    #[tactic(auto, unfolding(xn_bytes::specs::DataBlock::data_in))]
    pub fn uuid(&self) -> &'a [u8]
        ensures { result.now ≡ self.now.uuid }
    {
        &self.bytes[UUID..OWNER]
    }

    /// The inode of the directory that the block claims.
    #[tactic(auto, unfolding(xn_bytes::specs::DataBlock::data_in))]
    pub fn owner(&self) -> u64
        ensures { result ≡ self.now.owner }
    {
        u64_at(self.bytes, OWNER)
    }

    /// How many of the leaf entries are stale, by the block's count; 0 where it isn't of block form.
    #[tactic(auto, unfolding(xn_bytes::specs::DataBlock::data_in))]
    pub fn stale(&self) -> u32
        ensures { result ≡ self.now.stale }
    {
        if !is_block_form(self.bytes) {
            return 0;
        }
        u32_at(self.bytes, STALE_COUNT)
    }

    /// The entries in rising position, at most 252.
    pub fn entries(&self) -> DataEntries<'a>
        ensures entries { result ≡ entries_among self.now.regions }
        ensures placed { ArePlaced header_size block_size (entries_among self.now.regions) }
        ensures few { length result ≤ 252 }
    {
        DataEntries::new(self.bytes, HEADER, end_of_regions(self.bytes))
    }

    /// The length of the greatest free region in bytes, 0 where there is none.
    pub fn largest_free(&self) -> u64
        ensures { result ≡ greatest (gaps_among self.now.regions) }
    {
        u64::from(u16_at(self.bytes, FIRST_PAIR + 2))
    }

    /// The leaf entries of block form, as they stand, at most 503; none in another block.
    pub fn tail(&self) -> Tail<'a>
        ensures leaves { result ≡ self.now.leaves }
        ensures few { length result ≤ 503 }
    {
        let count = if is_block_form(self.bytes) {
            leaf_count(self.bytes)
        } else {
            0
        };
        Tail::new(self.bytes, end_of_regions(self.bytes), count)
    }

    /// How many leaf entries there are, stale ones counted; 0 where the block isn't of block form.
    #[tactic(auto, using(xn_bytes::proofs::LeafEntries::count_leaves), unfolding(xn_bytes::specs::DataBlock::data_in))]
    pub fn leaf_count(&self) -> usize
        ensures { result ≡ length self.now.leaves }
    {
        if is_block_form(self.bytes) {
            leaf_count(self.bytes)
        } else {
            0
        }
    }

    /// The leaf entries of a hash, by a binary search. Where they don't stand in rising order some may be left out.
    pub fn tail_with_hash(&self, hash: u32) -> Tail<'a>
        ensures rising { IsNonDecreasingBy (λ leaf. leaf.hash) self.now.leaves → result ≡ filter (λ leaf. leaf.hash == hash) self.now.leaves }
        ensures always { All (λ leaf. (leaf.hash ≡ hash) × Contains self.now.leaves leaf) result }
    {
        self.tail().with_hash(hash)
    }

    /// The entry at a position. It looks at that place alone: where no entry stands, there may be bytes that look like
    /// one.
    pub fn entry_at(&self, position: u64) -> Option<DataEntry<'a>>
        ensures there { (entry : Entry) → Contains (entries_among self.now.regions) entry → entry.position ≡ position → IsSomeAnd result (λ found. entry_of found ≡ entry) }
        ensures position { IfSome result (λ found. found.position ≡ position) }
    {
        entry_in_place(self.bytes, end_of_regions(self.bytes), position)
    }
}
