//! What the bus is about: who says something, and how far it is.

use cbm_iec::{Change, Line};

/// How many bits a byte has.
const BITS: u8 = 8;

/// A talker pulls CLOCK with each bit, and once after them.
const PULLS: u8 = 9;

/// What the bus is about.
#[derive(Clone, Copy, Debug, PartialEq, Eq, Drop)]
pub enum Phase {
    /// No drive listens or talks on: none heeds CLOCK or DATA.
    Rest,
    /// ATN was pulled, and CLOCK wasn't freed since.
    Called,
    /// The host sends: CLOCK is pulled, and the next byte isn't begun.
    Between,
    /// CLOCK is free, and the bits aren't begun.
    Ready,
    /// Bits of the host: how many, and the byte with them at its top.
    Bits { count: u8, byte: u8 },
    /// ATN was freed to a talker.
    Turn,
    /// The talker pulled CLOCK at that moment. If it frees DATA with that it has something to say.
    Answered(u64),
    /// The talker's byte: how often it pulled CLOCK since it offered it, and whether the host answered EOI.
    Talk { pulls: u8, last: bool },
}

impl Phase {
    /// Before the talker's first byte, and between two.
    pub const LEADS: Phase = Phase::Talk {
        pulls: PULLS,
        last: false,
    };

    /// After a change of CLOCK by the host, while DATA is pulled or free. In a byte it begins the bits, or gives one.
    pub fn clocked(self, low: bool, data_low: bool) -> Phase {
        match self {
            Phase::Ready if low => Phase::Bits { count: 0, byte: 0 },
            Phase::Bits { count, .. } if low && count >= BITS => Phase::Between,
            Phase::Bits { count, byte } if !low && count < BITS => Phase::Bits {
                count: count + 1,
                byte: byte / 2 + if data_low { 0 } else { 128 },
            },
            Phase::Called | Phase::Between if !low => Phase::Ready,
            phase => phase,
        }
    }

    /// The byte that a change of CLOCK by the host completes: its pull after the eighth bit.
    pub fn byte(self, low: bool) -> Option<u8> {
        match self {
            Phase::Bits { count, byte } if low && count >= BITS => Some(byte),
            _ => None,
        }
    }

    /// After a change of DATA by the host: its answer to EOI, or its accept, after which a talker with nothing left to say
    /// heeds nothing.
    pub fn answered(self, low: bool) -> Phase {
        match self {
            Phase::Talk { pulls: 0, .. } if low => Phase::Talk {
                pulls: 0,
                last: true,
            },
            Phase::Talk { pulls, last: true } if low && pulls >= PULLS => Phase::Rest,
            phase => phase,
        }
    }

    /// Before the next event: a talker that freed no DATA with its answer has nothing to say, and heeds nothing.
    pub fn settled(self, next: Change, is_talkers: bool) -> Phase {
        match self {
            Phase::Answered(moment)
                if !(is_talkers && next.line == Line::Data && next.moment == moment) => {
                Phase::Rest
            }
            phase => phase,
        }
    }

    /// After a change of the talker's.
    pub fn told(self, change: Change) -> Phase {
        let low = change.way.is_pull();
        match (self, change.line) {
            (Phase::Turn, Line::Clock) if low => Phase::Answered(change.moment),
            (Phase::Turn, Line::Data) if !low => Phase::Rest,
            (Phase::Answered(_), Line::Data) => Phase::LEADS,
            (Phase::Talk { pulls, .. }, Line::Clock) if !low && pulls >= PULLS => Phase::Talk {
                pulls: 0,
                last: false,
            },
            (Phase::Talk { pulls, last }, Line::Clock) if low => Phase::Talk {
                pulls: pulls.saturating_add(1),
                last,
            },
            (phase, _) => phase,
        }
    }
}
