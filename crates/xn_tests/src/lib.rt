//! Tests of the machine, of made images and rows, and of words and replies, a module each. They stand here and not in their
//! crates, so that these aren't proved a second time for them.
#![tactic(auto)]

#[cfg(test)]
mod machine;
#[cfg(test)]
mod make;
#[cfg(test)]
mod rows;
#[cfg(test)]
mod text;
