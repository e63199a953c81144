//! The bytes in attention.

/// LISTEN, to be joined with a device number.
pub const LISTEN: u8 = 0x20;

/// UNLISTEN: no drive listens any more.
pub const UNLISTEN: u8 = 0x3f;

/// TALK, to be joined with a device number.
pub const TALK: u8 = 0x40;

/// UNTALK: no drive talks any more.
pub const UNTALK: u8 = 0x5f;

/// The secondary address for bytes, to be joined with a channel.
pub const DATA: u8 = 0x60;

/// The secondary address of CLOSE, to be joined with a channel.
pub const CLOSE: u8 = 0xe0;

/// The secondary address of OPEN, to be joined with a channel.
pub const OPEN: u8 = 0xf0;
