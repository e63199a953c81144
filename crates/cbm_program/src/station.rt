use cbm_drive::{Channels, Pace};

/// A drive that is switched off, and has no disk in it.
#[derive(Drop)]
pub(crate) struct Station {
    /// Its number on the bus, 8 to 11.
    pub device: u8,
    /// The pace that it keeps on the bus.
    pub pace: Pace,
    /// Memory for its channels.
    pub channels: Channels,
}
