//! Searches among what rises by a number, where it is expected first.
#![tactic(auto)]

mod search;

pub use search::{Numbered, count_below, count_up_to};
