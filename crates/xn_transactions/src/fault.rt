ghost use Rattle.std.specs.Prelude.{◌≡◌};
ghost use Rattle.xn_transactions.specs.Faults.{fault_at};
ghost use Rattle.xn_transactions.specs.declared.fault.Refusal.TheVariants as refusal;
ghost use Rattle.xn_transactions.specs.declared.fault.ItemFault.TheVariants as fault;

use std::alloc::{AllocError, AllocFailed};
use xn_bytes::Memory as OutOfMemory;
use xn_changes::Place;

/// Why the live records were not decoded.
#[derive(Clone, Copy, Debug, PartialEq, Eq)]
pub enum ItemFault {
    /// The item that begins at this place is of a kind or a form that is not known.
    Foreign { at: Place },
    /// The item that begins at this place is not as the format says. A transaction without a header, or one whose regions don't go
    /// on as they say, counts as an item that begins behind its start.
    Malformed { at: Place },
    /// Memory ran out. A record with more operations than a place can number counts as one that is too large.
    Memory,
}

impl From<AllocError> for ItemFault {
    ghost from_gives = { λ _ given. given ≡ fault.Memory };

    fn from(_: AllocError) -> ItemFault {
        ItemFault::Memory
    }
}

impl<T: Drop> From<AllocFailed<T>> for ItemFault {
    ghost from_gives = { λ _ given. given ≡ fault.Memory };

    fn from(_: AllocFailed<T>) -> ItemFault {
        ItemFault::Memory
    }
}

impl From<OutOfMemory> for ItemFault {
    ghost from_gives = { λ _ given. given ≡ fault.Memory };

    fn from(_: OutOfMemory) -> ItemFault {
        ItemFault::Memory
    }
}

/// Why no item was taken from regions.
#[derive(Clone, Copy, Debug, PartialEq, Eq)]
pub(crate) enum Refusal {
    /// The item's kind or form is not known.
    Foreign,
    /// The item is not as the format says.
    Malformed,
    /// Memory ran out.
    Memory,
}

impl Refusal {
    /// The fault of an item that begins at a place.
    pub(crate) fn at(self, place: Place) -> ItemFault
        ensures { result ≡ fault_at place self }
    {
        match self {
            Refusal::Foreign => ItemFault::Foreign { at: place },
            Refusal::Malformed => ItemFault::Malformed { at: place },
            Refusal::Memory => ItemFault::Memory,
        }
    }
}

impl From<AllocError> for Refusal {
    ghost from_gives = { λ _ given. given ≡ refusal.Memory };

    fn from(_: AllocError) -> Refusal {
        Refusal::Memory
    }
}

impl<T: Drop> From<AllocFailed<T>> for Refusal {
    ghost from_gives = { λ _ given. given ≡ refusal.Memory };

    fn from(_: AllocFailed<T>) -> Refusal {
        Refusal::Memory
    }
}
