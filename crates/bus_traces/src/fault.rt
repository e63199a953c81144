//! Why a trace isn't read on.

use thiserror::Error;

/// What is wrong with a line of a trace.
#[derive(Clone, Copy, Debug, PartialEq, Eq, Error)]
pub enum Flaw {
    /// It has more bytes than a line of a trace may have, 1,000, or a word of a VCD 64.
    #[error("it is too long")]
    Long,
    /// It is no event.
    #[error("MOMENT WHO LINE WAY is wanted, as 20 8 data pull")]
    Event,
    /// Its moment comes before one that came before it.
    #[error("its moment comes before that of the change before")]
    Early,
    /// Its moment is above 1,000,000,000,000,000 microseconds, or none.
    #[error("a moment is a number, at most 1000000000000000 microseconds")]
    Moment,
    /// A timescale that isn't one.
    #[error("a timescale is 1, 10 or 100 and one of s, ms, us, ns, ps, fs")]
    Timescale,
    /// A scope below 16 others, or one that ends and never began.
    #[error("its scopes don't nest, or more than 16 deep")]
    Scope,
    /// A declaration that isn't one.
    #[error("$var TYPE SIZE CODE NAME $end is wanted, with a code of at most 8 bytes")]
    Variable,
    /// More than 64 variables.
    #[error("it declares more than 64 variables")]
    Many,
    /// No variables for the three lines.
    #[error("variables called atn, clk and data are wanted, or three of one bit")]
    Lines,
    /// A word of the header that begins no section.
    #[error("a section of a VCD's header is wanted, as $timescale")]
    Header,
    /// A change that isn't one.
    #[error("a change is 0, 1, x or z and a variable's code")]
    Change,
    /// The code of no variable.
    #[error("no variable has this code")]
    Unknown,
    /// The file ends in a section.
    #[error("the file ends before the section's $end")]
    Cut,
}

/// Why there is no next line.
#[derive(Clone, Copy, Debug, PartialEq, Eq, Error)]
pub enum LineFault {
    /// The reader failed, or was interrupted.
    #[error("reading failed")]
    Reading,
    /// The line has more than 1,000 bytes.
    #[error("it is too long")]
    Long,
}

/// Why a trace can't be read on.
#[derive(Clone, Copy, Debug, PartialEq, Eq, Error)]
pub enum TraceFault {
    /// The reader failed, or was interrupted.
    #[error("reading failed")]
    Reading,
    /// A line, by its number from 1 on, and what is wrong with it.
    #[error("line {0}: {1}")]
    Line(u64, Flaw),
}
