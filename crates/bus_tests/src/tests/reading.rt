//! A reading of a trace: how far a session has come with it, and what each drive owes.

use crate::tests::phase::Phase;
use crate::tests::plays::is_low;
use cbm_iec::*;
use std::alloc::Global;
use std::process::Abort;

/// A drive on the bus.
#[derive(Clone, Copy, Drop)]
pub struct Seat {
    pub party: Party,
    pub role: Role,
    pub own: Held,
}

impl Seat {
    pub fn reaction(&self) -> u64 {
        self.party.reaction as u64
    }
}

/// A change that a drive owes, and the act that counts with it. The drive is told by its place in the order of ties.
#[derive(Clone, Copy, Drop)]
pub struct Owed {
    pub place: usize,
    pub change: Change,
    pub act: Option<Act>,
}

/// How far a session has come with a trace.
#[derive(Drop)]
pub struct Reading {
    pub phase: Phase,
    pub host: Held,
    pub seats: Vec<Seat>,
    pub owed: Vec<Owed>,
    pub acts: Vec<(u8, Act)>,
    /// The last event's moment, and its rank: 0 is the host, after it the drives in the order of ties.
    pub last: u64,
    pub rank: usize,
    /// ATN's last pull, its release, and the first and the last accept of the last byte that the host sent after that
    /// pull.
    pub pulled: u64,
    pub released: Option<u64>,
    pub accepted: Option<u64>,
    pub answered: Option<u64>,
    /// Between pieces no pull of ATN comes before.
    pub since: u64,
}

/// Adds to a list; want of memory ends the test.
pub fn add<T: Drop>(rt: &impl Abort, list: &mut Vec<T>, item: T) {
    list.push(item).ok().expect(rt, "memory");
}

/// A later moment.
pub fn after(moment: u64, wait: u64) -> u64 {
    moment.wrapping_add(wait)
}

/// How long half of a talker's bit lasts, and a listener's pulse.
pub fn beat(pace: Pace) -> u64 {
    match pace {
        Pace::Profile => 60,
        Pace::Kernal => 80,
    }
}

/// How long after the first bit all eight have ended.
pub fn eight_bits(pace: Pace) -> u64 {
    beat(pace).wrapping_mul(16)
}

/// Whether a moment is so much after another, if there is one.
pub fn is_after(moment: u64, wait: u64, earlier: Option<u64>) -> bool {
    match earlier {
        Some(earlier) => after(earlier, wait) <= moment,
        None => true,
    }
}

/// No line is pulled.
pub const FREE: Held = Held {
    clock_low: false,
    data_low: false,
};

/// The lines that a party holds after a change of its own.
pub fn held_after(held: Held, change: Change) -> Held {
    let low = is_low(change.way);
    match change.line {
        Line::Atn => held,
        Line::Clock => Held {
            clock_low: low,
            ..held
        },
        Line::Data => Held {
            data_low: low,
            ..held
        },
    }
}

/// What an attention byte does to the role of a drive.
pub fn role_after(device: u8, byte: u8, role: Role) -> Role {
    let wide = byte as u32;
    if wide == 0x20 + device as u32 {
        return Role::Listener;
    }
    if wide == 0x40 + device as u32 {
        return Role::Talker;
    }
    match role {
        Role::Listener if byte == 0x3f => Role::Absent,
        Role::Talker if 0x40 <= byte && byte <= 0x5f => Role::Absent,
        role => role,
    }
}

impl Reading {
    /// From rest: all lines free, no roles, nothing owed; the drives in the order of ties.
    pub fn at_rest(rt: &impl Abort, alloc: Global, parties: &[Party]) -> Reading {
        let mut seats = Vec::new(alloc);
        for party in parties {
            add(
                rt,
                &mut seats,
                Seat {
                    party: *party,
                    role: Role::Absent,
                    own: FREE,
                },
            );
        }
        Reading {
            phase: Phase::Open,
            host: FREE,
            seats,
            owed: Vec::new(alloc),
            acts: Vec::new(alloc),
            last: 0,
            rank: 0,
            pulled: 0,
            released: None,
            accepted: None,
            answered: None,
            since: 0,
        }
    }

    /// The same reading once more, if a trace may go on in two ways.
    pub fn copy(&self, rt: &impl Abort) -> Reading {
        Reading {
            phase: self.phase,
            host: self.host,
            seats: self.seats.clone().ok().expect(rt, "memory"),
            owed: self.owed.clone().ok().expect(rt, "memory"),
            acts: self.acts.clone().ok().expect(rt, "memory"),
            last: self.last,
            rank: self.rank,
            pulled: self.pulled,
            released: self.released,
            accepted: self.accepted,
            answered: self.answered,
            since: self.since,
        }
    }

    /// Where the next change that is owed stands in the list: by moment, then by the order of ties.
    pub fn first_owed(&self) -> Option<(usize, Owed)> {
        let mut first: Option<(usize, Owed)> = None;
        for (index, owed) in self.owed.iter().enumerate() {
            first = match first {
                Some((at, other)) if other.change.moment < owed.change.moment => Some((at, other)),
                Some((at, other))
                    if other.change.moment == owed.change.moment && other.place <= owed.place => {
                    Some((at, other))
                }
                _ => Some((index, *owed)),
            }
        }
        first
    }

    /// When a drive owes its next change.
    pub fn next_owed(&self) -> Option<u64> {
        match self.first_owed() {
            Some((_, owed)) => Some(owed.change.moment),
            None => None,
        }
    }

    /// No drive owes a change.
    pub fn is_clear(&self) -> bool {
        self.owed.is_empty()
    }

    pub fn owe(
        &mut self,
        rt: &impl Abort,
        place: usize,
        moment: u64,
        line: Line,
        way: Way,
        act: Option<Act>,
    ) {
        add(
            rt,
            &mut self.owed,
            Owed {
                place,
                change: Change { moment, line, way },
                act,
            },
        );
    }

    /// An act that counts for each drive.
    pub fn count_each(&mut self, rt: &impl Abort, act: Act) {
        for seat in &self.seats {
            add(rt, &mut self.acts, (seat.party.device, act));
        }
    }

    /// The drives that hear a frame of the host: in attention all, else the listeners.
    pub fn hearers(&self, rt: &impl Abort, alloc: Global, attention: bool) -> Vec<(usize, u64)> {
        let mut hearers = Vec::new(alloc);
        for (place, seat) in self.seats.iter().enumerate() {
            if attention || seat.role == Role::Listener {
                add(rt, &mut hearers, (place, seat.reaction()));
            }
        }
        hearers
    }

    /// The first drive with a role, and its reaction.
    pub fn first_with(&self, role: Role) -> Option<(usize, u64)> {
        for (place, seat) in self.seats.iter().enumerate() {
            if seat.role == role {
                return Some((place, seat.reaction()));
            }
        }
        None
    }

    /// The pace of the drive at a place.
    pub fn pace_at(&self, place: usize) -> Pace {
        self.seats
            .get(place)
            .map_or(Pace::Profile, |seat| seat.party.pace)
    }

    /// The pace of the drive that talks.
    pub fn talk_pace(&self) -> Pace {
        let (place, _) = self.first_with(Role::Talker).unwrap_or((0, 0));
        self.pace_at(place)
    }

    /// How long after its first bit a byte of the talker is to be accepted at the latest.
    pub fn latest(&self) -> u64 {
        after(eight_bits(self.talk_pace()), 1000)
    }

    pub fn has(&self, role: Role) -> bool {
        self.first_with(role).is_some()
    }

    /// Every drive is of a KERNAL's pace.
    fn is_of_kernal(&self) -> bool {
        for seat in &self.seats {
            if seat.party.pace == Pace::Profile {
                return false;
            }
        }
        true
    }

    /// From ATN's release to its next pull.
    pub fn pull_pause(&self) -> u64 {
        if self.is_of_kernal() { 61 } else { 100 }
    }

    /// From ATN's release to CLOCK's, with a talker.
    pub fn turn(&self) -> u64 {
        match self.talk_pace() {
            Pace::Profile => 20,
            Pace::Kernal => 15,
        }
    }

    /// Whether the host may change ATN, so far as the accepts of its last byte go.
    pub fn is_accepted(&self, moment: u64) -> bool {
        let several = self.seats.len() > 1 && !self.is_of_kernal();
        let gap = if several { 60 } else { 20 };
        self.accepted.is_some()
            && is_after(moment, gap, self.accepted)
            && is_after(moment, 1, self.answered)
    }

    /// When the host's next change comes at the latest.
    pub fn host_due(&self) -> Option<u64> {
        match self.phase {
            Phase::Pulling(_, _) => Some(self.pulled),
            Phase::Ready(frame, wire, _) if !frame.eoi => Some(after(wire, 199)),
            Phase::Freeing(_, end) => Some(end),
            Phase::Turning => self.released,
            Phase::Waiting(_, first, _) => Some(after(first, self.latest())),
            _ => None,
        }
    }

    /// The session may have no further change of the host up to that moment.
    pub fn is_quiet(&self, moment: u64) -> bool {
        match self.host_due() {
            Some(due) => moment < due,
            None => true,
        }
    }

    /// A drive owes a change at that moment or before.
    pub fn owes(&self, moment: u64) -> bool {
        match self.next_owed() {
            Some(due) => due <= moment,
            None => false,
        }
    }
}
