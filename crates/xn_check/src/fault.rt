//! Why an image was not accepted.

ghost use Rattle.std.specs.Prelude.{◌≡◌};
ghost use Rattle.xn_check.specs.Checked.{check_fault_of};
ghost use Rattle.xn_check.specs.declared.fault.CheckFault.TheVariants.{Broken, Memory};

use std::alloc::AllocError;
use xn_bytes::Memory as OutOfMemory;
use xn_inode::StoreFault;

/// Why an image was not accepted.
#[derive(Clone, Copy, Debug, PartialEq, Eq)]
pub enum CheckFault {
    /// A rule is broken: that of the least inode, and of that one the least. Rules of the whole image are told with inode 0.
    Broken { rule: u8, inode: u64, block: u64 },
    /// Reading failed.
    Read,
    /// Memory ran out.
    Memory,
}

impl CheckFault {
    /// A rule of the whole image, which is about no inode.
    pub(crate) fn of_image(rule: u8) -> CheckFault
        ensures { result ≡ Broken rule 0 0 }
    {
        CheckFault::Broken {
            rule,
            inode: 0,
            block: 0,
        }
    }
}

impl From<StoreFault> for CheckFault {
    ghost from_gives = { λ store fault. fault ≡ check_fault_of store };

    fn from(fault: StoreFault) -> CheckFault {
        match fault {
            StoreFault::Read => CheckFault::Read,
            StoreFault::Memory => CheckFault::Memory,
        }
    }
}

impl From<AllocError> for CheckFault {
    ghost from_gives = { λ _ fault. fault ≡ Memory };

    fn from(_: AllocError) -> CheckFault {
        CheckFault::Memory
    }
}

impl From<OutOfMemory> for CheckFault {
    ghost from_gives = { λ _ fault. fault ≡ Memory };

    fn from(_: OutOfMemory) -> CheckFault {
        CheckFault::Memory
    }
}
