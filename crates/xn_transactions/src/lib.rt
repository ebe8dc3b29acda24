//! The items of the transactions that the live records of a log commit: operations are put together to transactions, their regions
//! to items.
#![tactic(auto)]

ghost use Rattle.std.specs.Prelude.{◌≡◌, MatchResult, Ok};
ghost use Rattle.xn_changes.specs.Decoded.{decoded_in};
ghost use Rattle.xn_transactions.specs.Faults.{IsFirstFault};

mod buffer;
mod decode;
mod done;
mod fault;
mod inode;
mod intent;
mod item;
mod joining;
mod live;
mod numbers;
mod parent;
mod pieces;
mod placed;
mod region;
mod taken;
mod walk;
mod whole;

pub use fault::ItemFault;
pub use pieces::pieces_in;
use std::alloc::Global;
use xn_changes::Committed;
use xn_log::Record;

/// What the live records say, from the oldest to the newest: the transactions that they commit with their items, in order of the
/// commits, or the first item, in that order, that is none.
pub fn decode_items(alloc: Global, records: &[Record]) -> Result<Vec<Committed>, ItemFault>
    ensures { MatchResult result
        (λ committed. decoded_in records.now ≡ Ok committed.items)
        (IsFirstFault (decoded_in records.now)) }
{
    let wholes = walk::committed_in(alloc, records)?;
    decode::decode_all(alloc, &wholes)
}
