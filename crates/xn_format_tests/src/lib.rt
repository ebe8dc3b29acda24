//! Tests of the crates that read short forms and blocks, a module each. They stand here and not in their crates, so that these
//! aren't proved a second time for them; and in a crate of their own, so that they are proved beside the other tests.
#![tactic(auto)]

#[cfg(test)]
mod attributes;
#[cfg(test)]
mod data;
#[cfg(test)]
mod leaf;
#[cfg(test)]
mod short;
