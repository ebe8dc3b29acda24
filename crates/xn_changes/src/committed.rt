ghost use Rattle.std.specs.Prelude.{◌≡◌, List};
ghost use Rattle.xn_changes.specs.declared.committed.Place.{Place};
ghost use Rattle.xn_changes.specs.declared.item.Item.{Item};

use crate::Item;
use std::marker::Model;

/// Where an operation stands in the log.
#[derive(Clone, Copy, Debug, PartialEq, Eq)]
pub struct Place {
    /// The sequence number of its record.
    pub lsn: u64,
    /// Its number in that record, counted from 0.
    pub op: u32,
}

/// A transaction: what changes together.
#[derive(Debug, Drop)]
pub struct Transaction {
    pub tid: u32,
    pub items: Items,
}

/// A transaction that the log holds whole.
#[derive(Debug, Drop)]
pub struct Committed {
    /// The sequence number of the record with its commit.
    pub lsn: u64,
    /// Where each item begins.
    pub places: Places,
    pub transaction: Transaction,
}

/// Items, in order. Contracts see their list.
#[derive(Debug, Drop)]
pub struct Items {
    items: Vec<Item>,
}

impl Model for Items {
    ghost Value = { List Item };

    ghost view = { λ i. i.items.items };
}

impl Items {
    /// These items. It takes no memory.
    pub fn new(items: Vec<Item>) -> Items
        ensures { result ≡ items.items }
    {
        Items { items }
    }

    pub fn as_slice(&self) -> &[Item]
        ensures { result.now ≡ self.now }
    {
        &self.items
    }
}

/// Places, in order. Contracts see their list.
#[derive(Debug, Drop)]
pub struct Places {
    places: Vec<Place>,
}

impl Model for Places {
    ghost Value = { List Place };

    ghost view = { λ p. p.places.items };
}

impl Places {
    /// These places. It takes no memory.
    pub fn new(places: Vec<Place>) -> Places
        ensures { result ≡ places.items }
    {
        Places { places }
    }

    pub fn as_slice(&self) -> &[Place]
        ensures { result.now ≡ self.now }
    {
        &self.places
    }
}
