//! What may happen to a drive under two hosts.

/// Who makes a change.
#[derive(Clone, Copy, Debug, PartialEq, Eq, Drop)]
pub(crate) enum Move {
    /// Both hosts.
    Both,
    /// The host as it is, alone.
    Strays,
    /// The tidy host, alone.
    Tidies,
    /// Another drive.
    Hears,
}
