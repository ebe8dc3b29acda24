//! Which numbers steps lead to from one of them.
#![tactic(auto)]

mod meeting;
mod reached;
mod step;

pub use reached::Reached;
pub use step::{Step, in_order};
