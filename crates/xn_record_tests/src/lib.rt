//! Tests of the records of the log, read and written. They stand here and not in `xn_record`, so that this isn't proved a second
//! time for them.
#![tactic(auto)]

#[cfg(test)]
mod read;
#[cfg(test)]
mod written;
