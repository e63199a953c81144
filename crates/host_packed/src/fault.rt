//! Why a packed file isn't unpacked.
use std::alloc::{AllocError, AllocFailed};

/// Why a packed file isn't unpacked.
#[derive(Clone, Copy, Debug, PartialEq, Eq, Drop)]
pub enum PackFault {
    /// It is truncated, or breaks the rules of its format.
    Broken,
    /// It is packed, or locked, in a way that isn't unpacked here.
    Unknown,
    /// The checksum is another one.
    Checksum,
    /// It has more bytes than are wanted.
    TooLong,
    /// Memory ran out.
    Memory,
}

impl From<AllocError> for PackFault {
    fn from(_e: AllocError) -> PackFault {
        PackFault::Memory
    }
}

impl<T: Drop> From<AllocFailed<T>> for PackFault {
    fn from(_e: AllocFailed<T>) -> PackFault {
        PackFault::Memory
    }
}
