//! Transactions as they stand in the log: from their start on, and whole where a commit ends them.

ghost use Rattle.std.specs.Prelude.{◌≡◌, [], OnOk, map};
ghost use Rattle.xn_changes.specs.Decoded.{place_behind_start};
ghost use Rattle.xn_changes.specs.Transactions.{whole_by, with_part};
ghost use Rattle.xn_transactions.specs.Viewed.{live_of};

use crate::live::LiveOp;
use std::alloc::{AllocError, Global};
use std::marker::Model;
use xn_changes::Place;

/// A transaction that was started: the operation that starts it, and those behind it.
#[derive(Debug, Drop)]
pub(crate) struct Started<'a> {
    start: LiveOp<'a>,
    parts: Vec<LiveOp<'a>>,
}

impl<'a> Model for Started<'a> {
    ghost use Rattle.std.specs.Prelude.{map};
    ghost use Rattle.xn_changes.specs.Transactions.{Started as StartedOps};
    ghost use Rattle.xn_transactions.specs.Viewed.{live_of};

    ghost Value = { StartedOps };

    ghost view = { λ s. record { start = live_of s.start; parts = map live_of s.parts.items } };
}

impl<'a> Started<'a> {
    /// What an operation starts. It takes no memory.
    pub(crate) fn by(alloc: Global, start: LiveOp<'a>) -> Started<'a>
        ensures { result ≡ record { start = live_of start.entry; parts = [] } }
    {
        Started {
            start,
            parts: Vec::new(alloc),
        }
    }

    /// Adds an operation behind the others.
    pub(crate) fn add(&mut self, part: LiveOp<'a>) -> Result<(), AllocError>
        ensures { OnOk result (self.new ≡ with_part (live_of part.entry) self.old) }
    {
        self.parts.push(part)?;
        Ok(())
    }

    /// The transaction that a commit makes of it. It takes no memory.
    pub(crate) fn committed_by(self, commit: LiveOp<'a>) -> Whole<'a>
        ensures { result ≡ whole_by (live_of commit.entry) self.entry }
    {
        Whole {
            started: self,
            commit,
        }
    }
}

/// A transaction that was committed: its start, the operations with its regions, and its commit.
#[derive(Debug, Drop)]
pub(crate) struct Whole<'a> {
    started: Started<'a>,
    commit: LiveOp<'a>,
}

impl<'a> Model for Whole<'a> {
    ghost use Rattle.xn_changes.specs.Transactions.{Whole as WholeOps, whole_by};
    ghost use Rattle.xn_transactions.specs.Viewed.{live_of};

    ghost Value = { WholeOps };

    ghost view = { λ w. whole_by (live_of w.commit) w.started };
}

impl<'a> Whole<'a> {
    /// The operations behind its start and before its commit.
    pub(crate) fn parts(&self) -> &[LiveOp<'a>]
        ensures { map live_of result.now ≡ self.now.parts }
    {
        &self.started.parts
    }

    pub(crate) fn commit(&self) -> LiveOp<'a>
        ensures { live_of result ≡ self.now.commit }
    {
        self.commit
    }

    /// Where the first operation behind its start stands.
    pub(crate) fn place_behind_start(&self) -> Place
        ensures { result ≡ place_behind_start self.now }
    {
        match self.started.parts.first() {
            Some(part) => part.place,
            None => self.commit.place,
        }
    }
}
