ghost use Rattle.std.specs.Prelude.{◌≡◌};
ghost use Rattle.xn_ring.specs.declared.fault.RingFault.TheVariants.{Memory, Read};

use std::alloc::{AllocError, AllocFailed};
use xn_bytes::Memory;
use xn_machine::Failed;
use xn_record::RecFault;

/// Why no head of the log was found.
#[derive(Clone, Copy, Debug, PartialEq, Eq)]
pub enum RingFault {
    /// Reading failed. It comes only where the machine's count of read faults rose.
    Read,
    /// Memory ran out.
    Memory,
    /// The log has no head: none of its records ends a run from its tail, and none holds just the unmount operation.
    NoRecord,
}

impl From<Failed> for RingFault {
    ghost from_gives = { λ _ fault. fault ≡ Read };

    fn from(_: Failed) -> RingFault {
        RingFault::Read
    }
}

impl From<Memory> for RingFault {
    ghost from_gives = { λ _ fault. fault ≡ Memory };

    fn from(_: Memory) -> RingFault {
        RingFault::Memory
    }
}

impl From<AllocError> for RingFault {
    ghost from_gives = { λ _ fault. fault ≡ Memory };

    fn from(_: AllocError) -> RingFault {
        RingFault::Memory
    }
}

impl<T: Drop> From<AllocFailed<T>> for RingFault {
    ghost from_gives = { λ _ fault. fault ≡ Memory };

    fn from(_: AllocFailed<T>) -> RingFault {
        RingFault::Memory
    }
}

impl From<RecFault> for RingFault {
    ghost use Rattle.xn_ring.specs.Places.{fault_of_record};

    ghost from_gives = { λ bad fault. fault ≡ fault_of_record bad };

    fn from(fault: RecFault) -> RingFault {
        match fault {
            RecFault::Bad { .. } => RingFault::NoRecord,
            RecFault::Memory => RingFault::Memory,
        }
    }
}
