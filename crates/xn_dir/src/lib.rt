//! Directories of a store: a map from name to entry, whichever form the directory is kept in.
#![tactic(auto)]

mod bests;
mod block_form;
mod compare;
mod data;
mod dir;
mod entry;
mod form;
mod gather;
mod hashed_fork;
mod hashed_form;
mod hashed_list;
mod index;
mod leaves;
mod listing;
mod short_form;
mod single_leaf;
mod sizes;

pub use dir::Dir;
pub use entry::Entry;
pub use listing::Listed;
