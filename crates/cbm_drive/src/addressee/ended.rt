//! What a pull of ATN ends.

/// What a pull of ATN completes, with its channel: the name of an OPEN, or the bytes sent to a channel.
#[derive(Clone, Copy, Debug, PartialEq, Eq, Drop)]
pub enum Ended {
    /// The name of an OPEN.
    Name(u8),
    /// Bytes.
    Bytes(u8),
}
