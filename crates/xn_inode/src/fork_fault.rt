ghost use Rattle.std.specs.Prelude.{◌≡◌};
ghost use Rattle.xn_inode.specs.Faults.{fork_fault_of};
ghost use Rattle.xn_inode.specs.declared.fork_fault.ForkFault.TheVariants.{Memory, Broken};

use crate::inode_core::CoreFault;
use crate::store::StoreFault;
use std::alloc::{AllocError, AllocFailed};

/// Why a fork of an inode, or what stands in its blocks, was not read or changed.
#[derive(Clone, Copy, Debug, PartialEq, Eq)]
pub enum ForkFault {
    /// Reading failed. It comes only where the store's count of faults rose.
    Read,
    /// Memory ran out.
    Memory,
    /// The inode breaks this rule of the checker. Rules of blocks name the block by its number on the device, all
    /// others block 0.
    Broken { rule: u8, block: u64 },
}

impl ForkFault {
    /// A rule that an inode breaks, of those that name no block.
    pub fn of_rule(rule: u8) -> ForkFault
        ensures { result ≡ Broken rule 0 }
    {
        ForkFault::Broken { rule, block: 0 }
    }
}

impl From<CoreFault> for ForkFault {
    ghost from_gives = { λ core fault. fault ≡ Broken core.rule 0 };

    fn from(fault: CoreFault) -> ForkFault {
        ForkFault::of_rule(fault.rule)
    }
}

impl From<StoreFault> for ForkFault {
    ghost from_gives = { λ store fault. fault ≡ fork_fault_of store };

    fn from(fault: StoreFault) -> ForkFault {
        match fault {
            StoreFault::Read => ForkFault::Read,
            StoreFault::Memory => ForkFault::Memory,
        }
    }
}

impl From<AllocError> for ForkFault {
    ghost from_gives = { λ _ fault. fault ≡ Memory };

    fn from(_: AllocError) -> ForkFault {
        ForkFault::Memory
    }
}

impl<T: Drop> From<AllocFailed<T>> for ForkFault {
    ghost from_gives = { λ _ fault. fault ≡ Memory };

    fn from(_: AllocFailed<T>) -> ForkFault {
        ForkFault::Memory
    }
}
