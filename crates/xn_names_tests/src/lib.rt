//! Tests of the entries of all directories, of which the expected answers are written by hand. They stand here and not in
//! `xn_names`, so that this isn't proved a second time for them. What the tested functions require is made by `lists`.
#![tactic(auto)]

pub mod lists;
#[cfg(test)]
mod names;
