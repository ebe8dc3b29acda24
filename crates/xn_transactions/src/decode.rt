//! What committed transactions hold.

ghost use Rattle.std.specs.Prelude.{◌≡◌, MatchResult, Ok};
ghost use Rattle.xn_changes.specs.Decoded.{decoded_all, is_transaction_header, items_behind_header, items_of};
ghost use Rattle.xn_transactions.specs.Decoding.{IsCommitted};
ghost use Rattle.xn_transactions.specs.Faults.{IsFirstFault};
ghost use Rattle.xn_transactions.specs.Placing.{ArePlaced};

use crate::fault::ItemFault;
use crate::joining::{are_joined, regions_in};
use crate::placed::{PlacedItems, items_in};
use crate::region::Region;
use crate::whole::Whole;
use std::alloc::Global;
use xn_bytes::little_u32_at;
use xn_changes::{Committed, Items, Place, Places, Transaction};

/// `TRAN`, by which a transaction's header is known.
const MAGIC: u32 = 0x5452414e;

/// How many bytes a transaction's header has.
const HEADER: usize = 16;

/// The type that stands in each transaction's header.
const TYPE: u32 = 40;

/// What transactions hold, or the first item, in order of the commits, that is none.
pub(crate) fn decode_all(alloc: Global, wholes: &[Whole<'_>]) -> Result<Vec<Committed>, ItemFault>
    ensures { MatchResult result
        (λ committed. decoded_all wholes.now ≡ Ok committed.items)
        (IsFirstFault (decoded_all wholes.now)) }
{
    let mut committed = Vec::new(alloc);
    for whole in wholes {
        committed.push(decode(alloc, whole)?)?;
    }
    Ok(committed)
}

/// What one transaction holds, or the first item that is none.
fn decode(alloc: Global, whole: &Whole<'_>) -> Result<Committed, ItemFault>
    ensures { MatchResult result
        (IsCommitted whole.now)
        (IsFirstFault (items_of whole.now)) }
{
    let PlacedItems { places, items } = items_of(alloc, whole)?;
    let commit = whole.commit();
    Ok(Committed {
        lsn: commit.place.lsn,
        places: Places::new(places),
        transaction: Transaction {
            tid: commit.op.tid,
            items: Items::new(items),
        },
    })
}

/// The items of a transaction, or the first that is none. A transaction whose regions don't go on as they say counts as a malformed
/// item.
fn items_of(alloc: Global, whole: &Whole<'_>) -> Result<PlacedItems, ItemFault>
    ensures { MatchResult result
        (ArePlaced (items_of whole.now))
        (IsFirstFault (items_of whole.now)) }
{
    let place = whole.place_behind_start();
    if !are_joined(whole.parts()) {
        return Err(ItemFault::Malformed { at: place });
    }
    let regions = regions_in(alloc, whole.parts())?;
    items_behind_header(alloc, place, &regions)
}

/// The items of regions, of which the first has to be a transaction's header: else a malformed item begins at the place.
fn items_behind_header(
    alloc: Global,
    place: Place,
    regions: &[Region<'_>],
) -> Result<PlacedItems, ItemFault>
    ensures { MatchResult result
        (ArePlaced (items_behind_header place regions.now))
        (IsFirstFault (items_behind_header place regions.now)) }
{
    match regions.split_first() {
        Some((header, rest)) if is_header(header.bytes()) => items_in(alloc, rest),
        _ => Err(ItemFault::Malformed { at: place }),
    }
}

/// Whether bytes are a transaction's header. Its other numbers are not looked at.
fn is_header(bytes: &[u8]) -> bool
    ensures { result ≡ is_transaction_header bytes.now }
{
    bytes.len() == HEADER && little_u32_at(bytes, 0) == MAGIC && little_u32_at(bytes, 4) == TYPE
}
