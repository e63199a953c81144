use crate::name::Name;
use crate::names::Names;

/// What a command asks for.
#[derive(Debug, Drop)]
pub enum Command {
    /// A new directory under a name, and with an id the whole disk formatted.
    New(Name, Option<[u8; 2]>),
    /// The files that match one of the patterns are cleared.
    Scratch(Names),
    /// The new name, and the old one.
    Rename(Name, Name),
    /// The new name, and one to four files whose bytes it gets.
    Copy(Name, Names),
    Validate,
    Initialize,
    /// A channel 0 to 15, a record from 1 on and a position in it from 1 on.
    Position(u8, u16, u8),
}
