//! How far the host's part of a piece has come.

/// A frame of the host, as far as its bits were read: to whom it goes, whether its end is signalled, and the bits,
/// the last one at the top.
#[derive(Clone, Copy, Drop)]
pub struct Frame {
    pub attention: bool,
    pub eoi: bool,
    pub byte: u8,
    pub count: u8,
}

/// How far the host's part of the piece under way has come. All moments are in microseconds.
#[derive(Clone, Copy, Drop)]
pub enum Phase {
    /// Nobody hears or talks.
    Open,
    /// ATN was pulled; whether CLOCK is to be pulled in the same moment, and DATA to be freed.
    Pulling(bool, bool),
    /// In attention, between frames.
    Attention,
    /// A drive listens, between frames.
    Listening,
    /// CLOCK is free: when DATA is free on the wire, and when the pulse of those who hear has ended there.
    Ready(Frame, u64, u64),
    /// CLOCK was pulled then; when DATA was set for the bit.
    Setting(Frame, u64, Option<u64>),
    /// CLOCK was freed with a bit then.
    Showing(Frame, u64),
    /// CLOCK was pulled after the eighth bit then, at which DATA is to be freed.
    Freeing(Frame, u64),
    /// ATN was freed with neither listener nor talker: CLOCK is to be freed.
    Leaving,
    /// DATA was pulled for a turnaround, and ATN is to be freed in the same moment.
    Turning,
    /// ATN was freed to a talker: CLOCK is to be freed.
    Turned,
    /// The talker answers then, and leads.
    Leading(u64),
    /// The talker answers then, with nothing to say.
    Silent(u64),
    /// There was nothing to say, and the host has freed DATA.
    Over,
    /// The talker offers a byte, last or not, and frees CLOCK then.
    Offered(bool, u64),
    /// For the last byte the host has freed DATA, then pulled it.
    Marking(u64),
    Marked(u64),
    /// The talker's bits run from that moment: whether the byte is the last, the bits and how many they are.
    Sending(bool, u64, u8, u8),
    /// All bits are due or shown: DATA is to be pulled.
    Waiting(bool, u64, u8),
    /// The last byte was taken.
    Taken,
}

impl Phase {
    /// Whether the piece is one of a drive that talks, which a pull of ATN may cut.
    pub fn is_talk(&self) -> bool {
        match self {
            Phase::Turned | Phase::Leading(_) | Phase::Silent(_) | Phase::Over => true,
            Phase::Offered(_, _) | Phase::Marking(_) | Phase::Marked(_) => true,
            Phase::Sending(_, _, _, _) | Phase::Waiting(_, _, _) | Phase::Taken => true,
            _ => false,
        }
    }
}
