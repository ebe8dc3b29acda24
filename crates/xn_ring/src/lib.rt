//! The ring of the log: its head, its live records, and where the next record goes.
#![tactic(auto)]

mod chain;
mod fault;
mod found;
mod head;
mod label;
mod laws;
mod live;
mod reading;
mod ring;
mod scan;

pub use fault::RingFault;
pub use laws::accepted_superblocks_have_a_ring;
pub use ring::Ring;
