//! A drive on the bus, as a session has it.

ghost use Rattle.std.specs.Prelude.{◌≡◌, ◌+◌, ◌≤◌, ◌<◌, length, false};
ghost use Rattle.cbm_session.specs.Seats as spec;
ghost use Rattle.cbm_session.specs.Frames as frames;
ghost use Rattle.cbm_session.specs.Pieces as pieces;
ghost use Rattle.bus_judge.specs.Views.{IsSum, seat_of, seats_of, after_change};

use arrayvec::ArrayVec;
use cbm_iec::{Change, Held, Line, Pace, Party, Role, Way};

/// A drive: its device and reaction, its role, and the lines that it holds.
#[derive(Clone, Copy, Debug, PartialEq, Eq, Drop)]
pub struct Seat {
    pub party: Party,
    pub role: Role,
    pub own: Held,
}

/// The drives of a bus, in the caller's order of ties.
pub type Seats = ArrayVec<Seat, 4>;

/// The lines that a party holds.
pub fn lines(clock_low: bool, data_low: bool) -> Held
    ensures { result ≡ spec.lines clock_low data_low }
{
    Held {
        clock_low,
        data_low,
    }
}

/// A later moment; the greatest number if it would be above.
pub fn after(moment: u64, wait: u64) -> u64
    ensures { IsSum (moment + wait) result }
{
    moment.checked_add(wait).unwrap_or(u64::MAX)
}

impl Default for Seat {
    fn default() -> Seat {
        Seat::of(Party {
            device: 0,
            reaction: 0,
            pace: Pace::Profile,
        })
    }
}

impl Seat {
    /// A drive at rest.
    pub fn of(party: Party) -> Seat
        ensures { seat_of result ≡ record { party = party; role = Role.Absent; own = spec.lines false false } }
    {
        Seat {
            party,
            role: Role::Absent,
            own: lines(false, false),
        }
    }

    pub fn device(&self) -> u8
        ensures { result ≡ spec.device (seat_of self.now) }
    {
        self.party.device
    }

    pub fn reaction(&self) -> u64
        ensures value { result ≡ spec.reaction (seat_of self.now) }
        ensures small { result < 256 }
    {
        self.party.reaction as u64
    }

    /// How long after the wait for EOI its pulse has ended.
    pub fn lasting(&self) -> u64
        ensures { result ≡ frames.lasting (seat_of self.now) }
    {
        self.party.pace.eoi_pulse() as u64 + self.reaction()
    }

    pub fn is_listener(&self) -> bool
        ensures { result ≡ spec.is_listener self.now.role }
    {
        match self.role {
            Role::Listener => true,
            Role::Absent | Role::Talker => false,
        }
    }

    pub fn is_talker(&self) -> bool
        ensures { result ≡ spec.is_talker self.now.role }
    {
        match self.role {
            Role::Talker => true,
            Role::Absent | Role::Listener => false,
        }
    }

    /// The same drive with these lines.
    pub fn holding(self, own: Held) -> Seat
        ensures { seat_of result ≡ pieces.seat_with self.role own (seat_of self) }
    {
        Seat { own, ..self }
    }

    /// The role that a byte in attention makes of it; it holds DATA.
    pub fn obeying(self, byte: u8) -> Seat
        requires { self.party.device < 31 }
        ensures { seat_of result ≡ pieces.obeying byte (seat_of self) }
    {
        Seat {
            role: self.role.after(self.party.device, byte),
            own: lines(false, true),
            ..self
        }
    }

    /// After attention a listener holds DATA, a talker these lines, and the others nothing.
    pub fn standing(self, talking: Held) -> Seat
        ensures { seat_of result ≡ pieces.standing talking (seat_of self) }
    {
        match self.role {
            Role::Absent => self.holding(lines(false, false)),
            Role::Listener => self.holding(lines(false, true)),
            Role::Talker => self.holding(talking),
        }
    }
}

/// The lines that a party holds after a change of its own.
pub fn held_after(held: Held, change: Change) -> Held
    ensures { result ≡ after_change held change }
{
    let low = match change.way {
        Way::Pull => true,
        Way::Free => false,
    };
    match change.line {
        Line::Atn => held,
        Line::Clock => held.with_clock(low),
        Line::Data => held.with_data(low),
    }
}

/// Those that listen.
pub fn listeners(seats: &[Seat]) -> Seats
    requires { length seats.now ≤ 4 }
    ensures { seats_of result.items ≡ spec.listeners (seats_of seats.now) }
{
    let mut found = Seats::new();
    for seat in seats {
        if seat.is_listener() {
            found.push(*seat);
        }
    }
    found
}

pub fn has_listener(seats: &[Seat]) -> bool
    ensures { result ≡ spec.has_listener (seats_of seats.now) }
{
    match seats {
        [] => false,
        [first, rest @ ..] => first.is_listener() || has_listener(rest),
    }
}

pub fn has_talker(seats: &[Seat]) -> bool
    ensures { result ≡ spec.has_talker (seats_of seats.now) }
{
    match seats {
        [] => false,
        [first, rest @ ..] => first.is_talker() || has_talker(rest),
    }
}

/// The drive that talks; of none a party that isn't there.
pub fn talker_of(seats: &[Seat]) -> Party
    ensures { result ≡ spec.talker_of (seats_of seats.now) }
{
    match seats {
        [] => Party {
            device: 0,
            reaction: 0,
            pace: Pace::Profile,
        },
        [first, ..] if first.is_talker() => first.party,
        [_, rest @ ..] => talker_of(rest),
    }
}

/// A KERNAL's pace if each of these drives keeps it.
pub fn bus_pace(seats: &[Seat]) -> Pace
    ensures { result ≡ spec.bus_pace (seats_of seats.now) }
{
    match seats {
        [] => Pace::Kernal,
        [first, rest @ ..] => match first.party.pace {
            Pace::Profile => Pace::Profile,
            Pace::Kernal => bus_pace(rest),
        },
    }
}

/// The greatest reaction.
pub fn slowest(seats: &[Seat]) -> u64
    ensures value { result ≡ spec.slowest (seats_of seats.now) }
    ensures small { result < 256 }
{
    match seats {
        [] => 0,
        [only] => only.reaction(),
        [first, rest @ ..] => first.reaction().max(slowest(rest)),
    }
}

/// The least reaction.
pub fn fastest(seats: &[Seat]) -> u64
    ensures { result ≡ spec.fastest (seats_of seats.now) }
{
    match seats {
        [] => 0,
        [only] => only.reaction(),
        [first, rest @ ..] => first.reaction().min(fastest(rest)),
    }
}

/// How long after the fastest the slowest reacts.
pub fn spread(seats: &[Seat]) -> u64
    ensures value { result ≡ spec.spread (seats_of seats.now) }
    ensures small { result < 256 }
{
    slowest(seats).saturating_sub(fastest(seats))
}

/// How long after the wait for EOI the last pulse has ended.
pub fn longest(seats: &[Seat]) -> u64
    ensures { result ≡ frames.longest_lasting (seats_of seats.now) }
{
    match seats {
        [] => 0,
        [only] => only.lasting(),
        [first, rest @ ..] => first.lasting().max(longest(rest)),
    }
}
