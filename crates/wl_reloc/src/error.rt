//! Why a relocation has no value.

use thiserror::Error;

/// Why a relocation has no value.
#[derive(Clone, Copy, Debug, PartialEq, Eq, Error)]
pub enum RelocError {
    /// The relocation's number, or that of its symbol, is past the end of its list.
    #[error("OutOfRange")]
    OutOfRange,
    /// The output doesn't have it: 4294967295 stands in its list, or no function does.
    #[error("Removed")]
    Removed,
    /// The symbol is of a kind that the relocation's type doesn't take.
    #[error("WrongKind")]
    WrongKind,
    /// The function has no slot in the table.
    #[error("NoSlot")]
    NoSlot,
    /// No global holds its address or its slot.
    #[error("NoGot")]
    NoGot,
    /// Its address has no value under that type.
    #[error("Unsupported")]
    Unsupported,
    /// The value is below -2147483648 or above 2147483647, or an address lies before the data
    /// of the thread from which it counts.
    #[error("Range")]
    Range,
}
