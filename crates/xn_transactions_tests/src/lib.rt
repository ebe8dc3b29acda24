//! Tests of the items of committed transactions, as text: a row a line. They stand here and not in `xn_transactions`, so that this
//! isn't proved a second time for them.
//!
//! ```text
//! @1.2 7:s: 7::4e41525428000000{00*8} 7::47120100000000000100000000000000 7:c: | 1.2 7, 1.2.2 done 1
//! ```
//!
//! Blank lines, and those that begin with `#`, are none. `{00*8}` is 8 times `00`. In front of `|` stand records and their
//! operations, parted by spaces: `@CYCLE.SECTOR` begins a record, and `TID:FLAGS:BYTES` is an operation. FLAGS are `s` (start), `c`
//! (commit), `>` (continue) and `<` (was continued), BYTES hexadecimal digits, of which `_` is skipped.
//!
//! Behind `|` stands what is decoded: the transactions, parted by ` / `, each with its record and number, and its items, each with the
//! place where it begins (cycle, sector and number of the operation); `none` where there is none; or the fault.
#![tactic(auto)]

#[cfg(test)]
mod row;
#[cfg(test)]
mod table;
#[cfg(test)]
mod told;
