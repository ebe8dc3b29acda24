//! What the live records of a log change: the items of the transactions that were committed. The definitions of `specs/` say which
//! transactions those are and which items they hold; the contracts of the crates that carry them out cite them.
#![tactic(auto)]

mod committed;
mod intent;
mod item;
mod lists;

pub use committed::{Committed, Items, Place, Places, Transaction};
pub use intent::{Act, Intent};
pub use item::{BufferItem, InodeItem, Item};
pub use lists::{MapWords, Regions};
