//! The outside: the device and the output as one trait, sources of bytes as another, and their forms in memory.
#![tactic(auto)]

mod machine;
mod memory;
mod memory_source;
mod source;

pub use machine::{Failed, Machine};
pub use memory::MemMachine;
pub use memory_source::MemSource;
pub use source::Source;
