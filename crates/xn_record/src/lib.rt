//! Records of the log, as bytes: which bytes begin with an intact record, what it says, and the bytes of a record that is written.
#![tactic(auto)]

mod append;
mod body;
mod check;
mod checksum;
mod fault;
mod field;
mod laws;
mod operations;
mod read;
mod sectors;
mod write;

pub use fault::RecFault;
pub use laws::{intact_records_have_no_fault, only_the_front_counts, spelled_records_are_intact};
pub use read::{decode, outline};
pub use sectors::sectors_of;
pub use write::encode;
