//! What a drive does on the wires, and what only they can say: which bytes it has.

use crate::hands::holds;
use arrayvec::ArrayVec;
use cbm_iec::{Held, Line, Lines, Mouth, Pace, Party, Port, Role, Side};

/// Moments from here on are none: 2^50 microseconds.
pub const LIMIT: u64 = 1 << 50;

/// The present moment, and the wires then.
#[derive(Clone, Copy, Debug, PartialEq, Eq, Drop)]
pub struct Now {
    pub moment: u64,
    pub wires: Lines,
    /// A talker that pulls CLOCK goes on to say a byte.
    pub says: bool,
}

/// A drive of the bus.
#[derive(Clone, Copy, Debug, PartialEq, Eq, Drop)]
pub struct Drive {
    port: Port,
}

/// The drives of the bus, in the caller's order of ties.
pub type Drives = ArrayVec<Drive, 4>;

impl Default for Drive {
    fn default() -> Drive {
        Drive::new(Party {
            device: 0,
            reaction: 0,
            pace: Pace::Profile,
        })
    }
}

/// What a talker says, as the wires show it: a bit that begins is 1 if DATA is free. If CLOCK stays free, the byte
/// is the last, and the host is to answer.
fn heard(mouth: Mouth, wires: Lines) -> Mouth {
    match mouth {
        Mouth::Sending {
            half: 0,
            last: false,
            byte,
            ..
        } if !wires.clock_low => Mouth::EoiOffered(byte),
        Mouth::Sending {
            at,
            byte,
            last,
            half,
            ..
        } if half % 2 == 0 => Mouth::Sending {
            at,
            byte,
            last,
            left: u8::from(!wires.data_low),
            half,
        },
        mouth => mouth,
    }
}

fn heard_by(side: Side, wires: Lines) -> Side {
    match side {
        Side::Speaking(mouth) => Side::Speaking(heard(mouth, wires)),
        side => side,
    }
}

impl Drive {
    /// A drive as it is switched on.
    pub fn new(party: Party) -> Drive {
        Drive {
            port: Port::new(party),
        }
    }

    pub fn device(&self) -> u8 {
        self.port.party.device
    }

    /// Which lines it means to hold.
    pub fn own(&self) -> Held {
        self.port.own
    }

    /// When its next reaction is due.
    pub fn next_due(&self) -> Option<u64> {
        self.port.next_due()
    }

    pub fn is_listener(&self) -> bool {
        self.port.role == Role::Listener
    }

    pub fn is_talker(&self) -> bool {
        self.port.role == Role::Talker
    }

    /// It talks: CLOCK is its own up to ATN's next pull.
    pub fn is_talking(&self) -> bool {
        match self.port.side {
            Side::Hearing(_) => false,
            Side::Speaking(Mouth::Turned | Mouth::Answering(_) | Mouth::Over) => false,
            Side::Speaking(_) => true,
        }
    }

    /// The others hold these lines from this moment on.
    pub fn hear(&mut self, moment: u64, others: Lines) {
        if others != self.port.others && moment < LIMIT {
            self.port.line(moment, others);
        }
    }

    /// The byte that there is to say, as far as it is known: if a talker is to answer, whether there is one.
    fn peek(&self, now: Now) -> Option<(u8, bool)> {
        match (self.port.side, self.port.party.pace) {
            (Side::Speaking(Mouth::Answering(_)), Pace::Profile) if !now.wires.clock_low => None,
            (Side::Speaking(Mouth::Answering(_)), Pace::Kernal) if !now.says => None,
            _ => Some((0, false)),
        }
    }

    /// The reaction that is due at this moment happens, as the wires show it. False if none is due.
    pub fn react(&mut self, now: Now) -> bool {
        if self.next_due() != Some(now.moment) {
            return false;
        }
        self.port.side = heard_by(self.port.side, now.wires);
        if self.next_due() != Some(now.moment) {
            return false;
        }
        let peek = self.peek(now);
        if now.moment >= LIMIT || self.port.party.device >= 31 {
            return false;
        }
        self.port.due(now.moment, peek);
        true
    }

    /// Whether it holds a line after the reaction that is due at this moment, if there is one.
    pub fn is_to_hold(&self, now: Now, line: Line) -> bool {
        let mut drive = *self;
        drive.react(now);
        holds(drive.own(), line)
    }
}
