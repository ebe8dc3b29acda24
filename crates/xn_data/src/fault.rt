ghost use Rattle.std.specs.Prelude.{◌≡◌};

/// Bytes are no data block. `at` is the place of the first field that is wrong, below 4,096.
#[derive(Clone, Copy, Debug, PartialEq, Eq)]
pub struct DataFault {
    pub at: u64,
}

pub(crate) fn fault_at(at: usize) -> DataFault
    ensures { result.at ≡ at }
{
    DataFault { at: at as u64 }
}
