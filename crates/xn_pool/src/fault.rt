ghost use Rattle.std.specs.Prelude.{◌≡◌};
ghost use Rattle.xn_pool.specs.declared.fault.PoolFault.TheVariants.{Memory};

use std::alloc::{AllocError, AllocFailed};

/// Why no pool was made.
#[derive(Clone, Copy, Debug, PartialEq, Eq)]
pub enum PoolFault {
    /// The run of this number, from 0, is the first with a block that no fork may map: one outside the image, of the log, or
    /// the first of a group.
    Range { at: u64 },
    /// Memory ran out.
    Memory,
}

impl From<AllocError> for PoolFault {
    ghost from_gives = { λ _ fault. fault ≡ Memory };

    fn from(_: AllocError) -> PoolFault {
        PoolFault::Memory
    }
}

impl<T: Drop> From<AllocFailed<T>> for PoolFault {
    ghost from_gives = { λ _ fault. fault ≡ Memory };

    fn from(_: AllocFailed<T>) -> PoolFault {
        PoolFault::Memory
    }
}
