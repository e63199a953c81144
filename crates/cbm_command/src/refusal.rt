ghost use Rattle.std.specs.Prelude.{◌≡◌};
ghost use Rattle.cbm_command.specs.Refusals.{refusal_number};

use thiserror::Error;

/// Why a text is refused: the first fault from left to right, after its length.
#[derive(Clone, Copy, Debug, PartialEq, Eq, Error)]
pub enum Refusal {
    /// 30: a byte or a piece that may not stand there.
    #[error("a byte or a piece that may not stand there")]
    Syntax,
    /// 31: a command's first byte names none.
    #[error("no such command")]
    UnknownCommand,
    /// 32: more than 58 bytes.
    #[error("more than 58 bytes")]
    LongText,
    /// 33: a pattern if a name is written.
    #[error("a pattern where a name is written")]
    WildName,
    /// 34: an empty name or pattern, or no name at all.
    #[error("no name")]
    NoName,
    /// 70: a direct channel, which this drive has none of.
    #[error("no direct channel")]
    NoChannel,
    /// 74: a drive's digit from 1 to 9.
    #[error("no such drive")]
    DriveNotReady,
}

impl Refusal {
    /// The number that the status shows.
    pub fn number(self) -> u8
        ensures { result ≡ refusal_number self }
    {
        match self {
            Refusal::Syntax => 30,
            Refusal::UnknownCommand => 31,
            Refusal::LongText => 32,
            Refusal::WildName => 33,
            Refusal::NoName => 34,
            Refusal::NoChannel => 70,
            Refusal::DriveNotReady => 74,
        }
    }
}
