//! The bytes of an attention.

ghost use Rattle.std.specs.Prelude.{◌≡◌};
ghost use Rattle.cbm_host.specs.AttentionBytes.{first_command, other_commands};

/// The bytes of an attention that are still to be sent: at least one.
#[derive(Clone, Copy, Drop)]
pub(crate) enum Commands {
    One(u8),
    Two(u8, u8),
    Three(u8, u8, u8),
}

impl Commands {
    /// The next byte.
    pub(crate) fn first(self) -> u8
        ensures { result ≡ first_command self }
    {
        match self {
            Commands::One(byte) | Commands::Two(byte, _) | Commands::Three(byte, _, _) => byte,
        }
    }

    /// The bytes after the next one.
    pub(crate) fn rest(self) -> Option<Commands>
        ensures { result ≡ other_commands self }
    {
        match self {
            Commands::One(_) => None,
            Commands::Two(_, second) => Some(Commands::One(second)),
            Commands::Three(_, second, third) => Some(Commands::Two(second, third)),
        }
    }
}
