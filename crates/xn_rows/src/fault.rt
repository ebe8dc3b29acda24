use hex::FromHexError;
use std::alloc::{AllocError, AllocFailed};
use std::num::{ParseIntError, TryFromIntError};
use xn_bytes::Memory;

/// Why a row is not read.
#[derive(Clone, Copy, Debug, PartialEq, Eq)]
pub enum RowFault {
    /// There are not three fields.
    Fields,
    /// A word in braces is none.
    Braces,
    /// A number is none, or too large.
    Number,
    /// Bytes are none, or too many.
    Bytes,
    /// A word of the image is none.
    Word,
    /// A place is past the end.
    Place,
    /// Memory ran out.
    Memory,
}

impl From<ParseIntError> for RowFault {
    fn from(_: ParseIntError) -> RowFault {
        RowFault::Number
    }
}

impl From<TryFromIntError> for RowFault {
    fn from(_: TryFromIntError) -> RowFault {
        RowFault::Number
    }
}

impl From<FromHexError> for RowFault {
    fn from(_: FromHexError) -> RowFault {
        RowFault::Bytes
    }
}

impl From<AllocError> for RowFault {
    fn from(_: AllocError) -> RowFault {
        RowFault::Memory
    }
}

impl<T: Drop> From<AllocFailed<T>> for RowFault {
    fn from(_: AllocFailed<T>) -> RowFault {
        RowFault::Memory
    }
}

impl From<Memory> for RowFault {
    fn from(_: Memory) -> RowFault {
        RowFault::Memory
    }
}
