//! The checker: which rules an image breaks.
#![tactic(auto)]

mod checker;
mod examine;
mod fault;
mod first;
mod judge;
mod mark;
mod names;
mod places;
mod rules;
mod whole_image;

pub use checker::check;
pub use fault::CheckFault;
pub use places::pool_of;
