//! What stands in the log of an image: records in a ring of sectors, and in each record operations. The definitions of `specs/` say
//! which records are intact, which of them is the head and which are live; the contracts of the crates that read the log cite them.
#![tactic(auto)]

mod operation;
mod outline;
mod record;

pub use operation::{Op, Ops};
pub use outline::Outline;
pub use record::Record;
