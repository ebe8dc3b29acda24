//! Tests of the ring of the log. They stand here and not in `xn_ring`, so that this isn't proved a second time for them.
#![tactic(auto)]

pub mod machine;
#[cfg(test)]
mod scan;
