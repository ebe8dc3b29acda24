//! The settled image as a store: the home sectors of a machine, with what differs from them laid over.
#![tactic(auto)]

mod fill;
mod seen;
mod view;

pub use seen::Seen;
pub use view::View;
