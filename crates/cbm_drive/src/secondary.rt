//! Secondary addresses.
ghost use Rattle.std.specs.Prelude.{◌≡◌, ◌≤◌, IfSome};
ghost use Rattle.cbm_drive.specs.Addressing.{secondary_of, channel_named};

use cbm_iec::attention::{CLOSE, DATA, OPEN};

/// What a byte in attention asks of a drive that listens or talks, and on which channel, 0 to 15.
#[derive(Clone, Copy, Debug, PartialEq, Eq, Drop)]
pub enum Secondary {
    /// Bytes come or go.
    Data(u8),
    /// CLOSE.
    Close(u8),
    /// OPEN: its name comes next.
    Open(u8),
}

impl Secondary {
    /// What the byte asks, None if it is no secondary address.
    pub fn of(byte: u8) -> Option<Secondary>
        ensures value { result ≡ secondary_of byte }
        ensures channel { IfSome result (λ s. channel_named s ≤ 15) }
    {
        let channel = byte % 16;
        match byte - channel {
            DATA => Some(Secondary::Data(channel)),
            CLOSE => Some(Secondary::Close(channel)),
            OPEN => Some(Secondary::Open(channel)),
            _ => None,
        }
    }
}
