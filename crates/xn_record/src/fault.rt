ghost use Rattle.std.specs.Prelude.{◌≡◌};
ghost use Rattle.xn_record.specs.declared.fault.RecFault.TheVariants.{Memory};

use xn_bytes::Memory;

/// Why bytes were not read as a record.
#[derive(Clone, Copy, Debug, PartialEq, Eq)]
pub enum RecFault {
    /// They begin with no intact record: the byte place of the first field that is wrong, or of the first byte that is missing.
    Bad { at: u32 },
    /// Memory ran out.
    Memory,
}

impl From<Memory> for RecFault {
    ghost from_gives = { λ _ fault. fault ≡ Memory };

    fn from(_: Memory) -> RecFault {
        RecFault::Memory
    }
}
