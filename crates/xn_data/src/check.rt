//! Whether bytes are a data block, and where they first fail.

ghost use Rattle.std.specs.Prelude.{◌≡◌, ◌+◌, ◌*◌, ◌%◌, ◌≤◌, ◌==◌, ◌||◌, length, false};
ghost use Rattle.xn_bytes.specs.DataBlock.{data_fault, has_block_form, data_magic, area_end, leaf_count, most_regions, header_size, regions_fault, regions_at, gaps_among, first_fault};
ghost use Rattle.xn_bytes.specs.Numbers.{number_at};
ghost use Rattle.xn_data.specs.Checks.{FindsFault};
ghost use Rattle.xn_data.specs.Weighing.{pairs_of, pairs_weighed, verdict};

use crate::fault::{DataFault, fault_at};
use crate::layout::{
    BLOCK, BLOCK_FORM_MAGIC, CHECKSUM, DATA_MAGIC, HEADER, LEAF_COUNT, LEAF_ENTRY,
};
use crate::pairs::BestPairs;
use crate::region::{check_region, is_free};
use xn_bytes::{has_checksum, u32_at};

/// Whether the bytes are a data block; where they are none, the first place at which they fail.
#[tactic(auto, unfolding(xn_bytes::specs::DataBlock::data_fault))]
pub(crate) fn check(bytes: &[u8]) -> Result<(), DataFault>
    requires size { length bytes.now ≡ 4096 }
    ensures { FindsFault (data_fault bytes.now) result }
{
    if !has_magic(bytes) {
        return Err(fault_at(0));
    }
    if !has_checksum(bytes, CHECKSUM) {
        return Err(fault_at(CHECKSUM));
    }
    let end = end_of_regions(bytes);
    if end < HEADER {
        return Err(fault_at(LEAF_COUNT));
    }
    check_regions(bytes, end)
}

/// Whether the block is of block form, by its magic number.
pub(crate) fn is_block_form(bytes: &[u8]) -> bool
    requires size { length bytes.now ≡ 4096 }
    ensures { result ≡ has_block_form bytes.now }
{
    u32_at(bytes, 0) == BLOCK_FORM_MAGIC
}

fn has_magic(bytes: &[u8]) -> bool
    requires size { length bytes.now ≡ 4096 }
    ensures { result ≡ (has_block_form bytes.now || (number_at 4 0 bytes.now == data_magic)) }
{
    is_block_form(bytes) || u32_at(bytes, 0) == DATA_MAGIC
}

/// How many leaf entries a block of block form has.
pub(crate) fn leaf_count(bytes: &[u8]) -> usize
    requires size { length bytes.now ≡ 4096 }
    ensures count { result ≡ leaf_count bytes.now }
    ensures fits { result ≤ 0xffffffff }
{
    u32_at(bytes, LEAF_COUNT) as usize
}

/// Where the regions end. Leaf entries that are more than the block has place for leave none.
pub(crate) fn end_of_regions(bytes: &[u8]) -> usize
    requires size { length bytes.now ≡ 4096 }
    ensures value { result ≡ area_end bytes.now }
    ensures within { result ≤ 4096 }
    ensures step { result % 8 ≡ 0 }
{
    if !is_block_form(bytes) {
        return BLOCK;
    }
    LEAF_COUNT.saturating_sub(LEAF_ENTRY * leaf_count(bytes))
}

/// Goes over the regions, and then compares the pairs that name the greatest free ones.
fn check_regions(bytes: &[u8], end: usize) -> Result<(), DataFault>
    requires size { length bytes.now ≡ 4096 }
    requires room { 64 ≤ end }
    requires within { end ≤ 4096 }
    requires step { end % 8 ≡ 0 }
    ensures { FindsFault (first_fault
        (regions_fault most_regions false header_size end bytes.now)
        (verdict (pairs_weighed (pairs_of bytes.now) (gaps_among (regions_at most_regions header_size end bytes.now))))) result }
{
    let mut pairs = BestPairs::in_header(bytes);
    let mut at = HEADER;
    let mut behind_free = false;
    while at < end {
        let size = check_region(bytes, at, end, behind_free)?;
        behind_free = is_free(bytes, at);
        if behind_free {
            pairs.weigh(at, size);
        }
        at += size;
    }
    pairs.check()
}
