//! Spans of blocks: whether they lie apart, and whether numbers lie in none of them.
#![tactic(auto)]

mod apart;
mod clear;
mod laws;
mod span;

pub use apart::{are_apart, in_order};
pub use clear::are_clear;
pub use laws::apart_without_shared;
pub use span::Span;
