//! The walk over the operations of live records, which finds the transactions that they commit.

ghost use Rattle.std.specs.Prelude.{◌≡◌, ◌++◌, [], ◌∷◌, List, true, false, OnOk, IfOk, option_to_list, if◌then◌else◌};
ghost use Rattle.xn_changes.specs.Transactions.{LiveOp as PlacedOp, commits, committed_in, operations_of_record, starts, whole_by, whole_of};
ghost use Rattle.xn_log.specs.Records.{lsn_of};
ghost use Rattle.xn_transactions.specs.Viewed.{live_of};
ghost use Rattle.xn_transactions.specs.Walking.{HasWalked};

use crate::live::LiveOp;
use crate::whole::{Started, Whole};
use std::alloc::Global;
use std::collections::BTreeMap;
use xn_bytes::Memory;
use xn_changes::Place;
use xn_log::Record;

/// What the operations so far have started and committed.
#[derive(Drop)]
struct Walk<'a> {
    /// What was started and isn't committed yet, by the transaction's number.
    started: BTreeMap<u32, Started<'a>>,
    /// What was committed, in order.
    wholes: Vec<Whole<'a>>,
}

/// The transactions that the live records commit, in order of their commits.
pub(crate) fn committed_in(alloc: Global, records: &[Record]) -> Result<Vec<Whole<'_>>, Memory>
    ensures { IfOk result (λ wholes. wholes.items ≡ committed_in records.now) }
{
    let mut walk = Walk {
        started: BTreeMap::new(alloc),
        wholes: Vec::new(alloc),
    };
    for record in records {
        walk.take_record(alloc, record)?;
    }
    Ok(walk.wholes)
}

impl<'a> Walk<'a> {
    /// Takes the operations of the next record.
    fn take_record(&mut self, alloc: Global, next: &'a Record) -> Result<(), Memory>
        ensures { (done : List PlacedOp) → HasWalked self.old done → OnOk result (HasWalked self.new (done ++ operations_of_record next.entry.now)) }
    {
        let lsn = lsn_of(next.cycle, next.sector);
        for (k, op) in next.ops.as_slice().iter().enumerate() {
            let place = Place {
                lsn,
                op: number_of(k)?,
            };
            self.take(alloc, LiveOp { place, op })?;
        }
        Ok(())
    }

    /// Takes the next operation.
    fn take(&mut self, alloc: Global, live: LiveOp<'a>) -> Result<(), Memory>
        ensures { (done : List PlacedOp) → HasWalked self.old done → OnOk result (HasWalked self.new (done ++ live_of live.entry ∷ [])) }
    {
        if live.commits() {
            self.commit(alloc, live)
        } else if live.starts() {
            self.start(alloc, live)
        } else {
            self.add(live)
        }
    }

    /// Takes an operation that commits its transaction, which is whole where it was started, or is started by the same operation.
    fn commit(&mut self, alloc: Global, commit: LiveOp<'a>) -> Result<(), Memory>
        requires { commits (live_of commit) ≡ true }
        ensures { (done : List PlacedOp) → HasWalked self.old done → OnOk result (HasWalked self.new (done ++ live_of commit.entry ∷ [])) }
    {
        let started = self.started.remove(&commit.op.tid);
        if let Some(whole) = whole_of(alloc, started, commit) {
            self.wholes.push(whole)?;
        }
        Ok(())
    }

    /// Takes an operation that starts its transaction anew.
    fn start(&mut self, alloc: Global, start: LiveOp<'a>) -> Result<(), Memory>
        requires starts { starts (live_of start) ≡ true }
        requires commits_not { commits (live_of start) ≡ false }
        ensures { (done : List PlacedOp) → HasWalked self.old done → OnOk result (HasWalked self.new (done ++ live_of start.entry ∷ [])) }
    {
        let tid = start.op.tid;
        self.started.insert(tid, Started::by(alloc, start))?;
        Ok(())
    }

    /// Takes an operation with a region of its transaction, which is passed over where that was not started.
    fn add(&mut self, part: LiveOp<'a>) -> Result<(), Memory>
        requires starts_not { starts (live_of part) ≡ false }
        requires commits_not { commits (live_of part) ≡ false }
        ensures { (done : List PlacedOp) → HasWalked self.old done → OnOk result (HasWalked self.new (done ++ live_of part.entry ∷ [])) }
    {
        if let Some(started) = self.started.get_mut(&part.op.tid) {
            started.add(part)?;
        }
        Ok(())
    }
}

/// What a commit makes whole of what was started, or of itself, if it starts its transaction too.
fn whole_of<'a>(
    alloc: Global,
    started: Option<Started<'a>>,
    commit: LiveOp<'a>,
) -> Option<Whole<'a>>
    ensures { option_to_list result ≡ (if starts (live_of commit.entry) then whole_by (live_of commit.entry) (record { start = live_of commit.entry; parts = [] }) ∷ [] else whole_of (live_of commit.entry) started.entry) }
{
    if commit.starts() {
        return Some(Started::by(alloc, commit).committed_by(commit));
    }
    match started {
        Some(started) => Some(started.committed_by(commit)),
        None => None,
    }
}

/// The sequence number of a record.
fn lsn_of(cycle: u32, sector: u32) -> u64
    ensures { result ≡ lsn_of cycle sector }
{
    (u64::from(cycle) << 32) + u64::from(sector)
}

/// The number of an operation in its record, which is to fit its place.
fn number_of(k: usize) -> Result<u32, Memory>
    ensures { IfOk result (λ number. number ≡ k) }
{
    u32::try_from(k).map_err(|_| Memory)
}
