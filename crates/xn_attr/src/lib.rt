//! Extended attributes of the inodes of a store, whichever form they are kept in.
#![tactic(auto)]

mod attr;
mod form;
mod search;
mod short_form;
mod tree_form;

pub use attr::Attr;
