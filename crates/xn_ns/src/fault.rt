ghost use Rattle.std.specs.Prelude.{◌≡◌};
ghost use Rattle.xn_ns.specs.Ends.{see_fault_of, see_fault_in};
ghost use Rattle.xn_ns.specs.declared.fault.SeeFault.TheVariants.{Memory};

use std::alloc::{AllocError, AllocFailed};
use xn_inode::{ForkFault, StoreFault};

/// Why a reading command has no reply.
#[derive(Clone, Copy, Debug, PartialEq, Eq)]
pub enum SeeFault {
    /// Reading failed. It comes only where the store's count of faults rose.
    Read,
    /// Memory ran out.
    Memory,
    /// An inode that was looked at breaks this rule of the checker. Rules of blocks name the block by its number on the
    /// device, all others block 0.
    Broken { rule: u8, inode: u64, block: u64 },
}

impl From<StoreFault> for SeeFault {
    ghost from_gives = { λ store fault. fault ≡ see_fault_of store };

    fn from(fault: StoreFault) -> SeeFault {
        match fault {
            StoreFault::Read => SeeFault::Read,
            StoreFault::Memory => SeeFault::Memory,
        }
    }
}

impl From<AllocError> for SeeFault {
    ghost from_gives = { λ _ fault. fault ≡ Memory };

    fn from(_: AllocError) -> SeeFault {
        SeeFault::Memory
    }
}

impl<T: Drop> From<AllocFailed<T>> for SeeFault {
    ghost from_gives = { λ _ fault. fault ≡ Memory };

    fn from(_: AllocFailed<T>) -> SeeFault {
        SeeFault::Memory
    }
}

/// A fault of an inode's fork, as one of the command that looked at it.
pub(crate) fn of_inode(fault: ForkFault, ino: u64) -> SeeFault
    ensures { result ≡ see_fault_in ino fault }
{
    match fault {
        ForkFault::Read => SeeFault::Read,
        ForkFault::Memory => SeeFault::Memory,
        ForkFault::Broken { rule, block } => SeeFault::Broken {
            rule,
            inode: ino,
            block,
        },
    }
}
