//! Why a talk ends before its end.

use thiserror::Error;

/// Why a line is refused.
#[derive(Clone, Copy, Debug, PartialEq, Eq, Error)]
pub enum ReplyRefusal {
    /// It has more than 1,000 bytes.
    #[error("it has more than 1000 bytes")]
    Long,
    /// It asks for nothing.
    #[error("MOMENT LINE WAY is wanted, as 0 atn pull, or until MOMENT, or end MOMENT, with one space between two words")]
    Words,
    /// A change comes too early; this is the first moment at which it may come, in microseconds.
    #[error("it comes too early, {0} is the first moment at which the host may change a line")]
    Early(u64),
    /// What it asks for is over; the talk has come to this moment, in microseconds.
    #[error("its moment is over, the talk has come to {0}")]
    Over(u64),
}

/// Why a talk ended before its end.
#[derive(Clone, Copy, Debug, PartialEq, Eq, Error)]
pub enum ReplyFault {
    /// The line with this number, counted from 1, is refused, and why.
    #[error("line {0} refused: {1}")]
    Line(u64, ReplyRefusal),
    /// The reader failed, or was interrupted.
    #[error("reading failed")]
    Reading,
    /// The writer failed, was interrupted, or took no byte.
    #[error("writing failed")]
    Writing,
}
