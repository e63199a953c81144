//! What a drive keeps to on the bus: its times, in microseconds, and its device number.

/// The device numbers of a drive, first and last.
pub const DEVICES: (u8, u8) = (8, 11);

/// The slowest reaction of a drive, in microseconds; the fastest is 1.
pub const SLOWEST_REACTION: u8 = 60;

/// EOI: a listener's pulse begins this many microseconds, and its reaction, after DATA was first free on the wire.
pub const EOI_WAIT: u64 = 200;

/// EOI: how long a listener's pulse pulls DATA.
pub const EOI_PULSE: u8 = 60;

/// The same at a KERNAL's pace.
pub const KERNAL_EOI_PULSE: u8 = 80;

/// How long a talker holds CLOCK after the turnaround, before it offers its first byte, in microseconds.
pub const LEAD: u64 = 80;

/// How long a talker holds CLOCK after the accept of a byte, before it offers the next one, in microseconds.
pub const NEXT_BYTE: u64 = 100;

/// How long each half of a talker's bit lasts: CLOCK pulled, then CLOCK free.
pub const HALF_BIT: u8 = 60;

/// The same at a KERNAL's pace.
pub const KERNAL_HALF_BIT: u8 = 80;

/// How long a talker that has nothing to say holds CLOCK, at a KERNAL's pace, before it lets go of both lines, in
/// microseconds.
pub const MUTE: u64 = 80;
