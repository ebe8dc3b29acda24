//! Operations of live records, and what their flags say.

ghost use Rattle.std.specs.Prelude.{◌≡◌};
ghost use Rattle.xn_changes.specs.Transactions.{commits, continues, starts, was_continued};
ghost use Rattle.xn_transactions.specs.Viewed.{live_of};

use xn_changes::Place;
use xn_log::Op;

const START: u8 = 1;

const COMMIT: u8 = 2;

const CONTINUE: u8 = 4;

const WAS_CONTINUED: u8 = 8;

/// An operation of a live record, and where it stands.
#[derive(Clone, Copy, Debug)]
pub(crate) struct LiveOp<'a> {
    pub(crate) place: Place,
    pub(crate) op: &'a Op,
}

impl<'a> LiveOp<'a> {
    /// Whether it starts its transaction anew.
    pub(crate) fn starts(&self) -> bool
        ensures { result ≡ starts (live_of self.now) }
    {
        self.op.flags / START % 2 == 1
    }

    /// Whether it commits its transaction.
    pub(crate) fn commits(&self) -> bool
        ensures { result ≡ commits (live_of self.now) }
    {
        self.op.flags / COMMIT % 2 == 1
    }

    /// Whether its region goes on in the next operation of its transaction.
    pub(crate) fn continues(&self) -> bool
        ensures { result ≡ continues (live_of self.now) }
    {
        self.op.flags / CONTINUE % 2 == 1
    }

    /// Whether it goes on with the region of the operation before.
    pub(crate) fn was_continued(&self) -> bool
        ensures { result ≡ was_continued (live_of self.now) }
    {
        self.op.flags / WAS_CONTINUED % 2 == 1
    }
}
