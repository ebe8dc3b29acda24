//! What is there of all live inodes: what is kept of each, the entries of the directories, and the runs that their forks map.
#![tactic(auto)]

mod census;
mod entries;
mod sorted_out;

pub use census::{Census, Held, take_census};
pub use sorted_out::{SortedOut, Whole, sort_out};
