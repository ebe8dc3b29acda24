//! The items of a transaction, each with the place where it begins.

ghost use Rattle.std.specs.Prelude.{◌≤◌, ℕ, List, length, Result, MatchResult};
ghost use Rattle.xn_changes.specs.Decoded.{ItemFault as FirstFault, PlacedItem, bytes_of, items_in, then_items};
ghost use Rattle.xn_changes.specs.Items.{take_item};
ghost use Rattle.xn_transactions.specs.Faults.{IsFirstFault};
ghost use Rattle.xn_transactions.specs.Placing.{ArePlaced, IsTaken};

use crate::fault::ItemFault;
use crate::item::take_item;
use crate::region::Region;
use crate::taken::Taken;
use std::alloc::Global;
use xn_changes::{Item, Place};

/// Items, and where each begins.
#[derive(Debug, Drop)]
pub(crate) struct PlacedItems {
    pub(crate) places: Vec<Place>,
    pub(crate) items: Vec<Item>,
}

/// The items in regions, or the first that is none.
pub(crate) fn items_in(alloc: Global, regions: &[Region<'_>]) -> Result<PlacedItems, ItemFault>
    ensures { MatchResult result
        (ArePlaced (items_in (length regions.now) regions.now))
        (IsFirstFault (items_in (length regions.now) regions.now)) }
{
    let mut places = Vec::new(alloc);
    let mut items = Vec::new(alloc);
    let mut at = 0;
    while at < regions.len() {
        let first = &regions[at];
        let Taken { item, behind } = take_placed(alloc, first, &regions[at + 1..])?;
        places.push(first.place())?;
        items.push(item)?;
        at += 1 + behind;
    }
    Ok(PlacedItems { places, items })
}

/// The item that begins with a region, of those that stand behind it.
fn take_placed(alloc: Global, first: &Region<'_>, rest: &[Region<'_>]) -> Result<Taken, ItemFault>
    ensures { MatchResult result
        (λ taken. IsTaken (take_item first.now.bytes (bytes_of rest.now)) taken × (taken.behind ≤ length rest.now))
        (λ fault. (next : ℕ → Result (List PlacedItem) FirstFault) → IsFirstFault (then_items first.now.place (take_item first.now.bytes (bytes_of rest.now)) next) fault) }
{
    match take_item(alloc, first.bytes(), rest) {
        Ok(taken) => Ok(taken),
        Err(refusal) => Err(refusal.at(first.place())),
    }
}
