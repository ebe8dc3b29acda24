//! The pool of an image: the blocks from which new ones are taken, and which of them are free.
#![tactic(auto)]

mod bits;
mod fault;
mod marks;
mod pool;
mod runs;

pub use fault::PoolFault;
pub use pool::Pool;
