//! Which lines each party pulls, and so the wires.

ghost use Rattle.std.specs.Prelude.{◌≡◌, ◌≤◌, length, map, None, false};
ghost use Rattle.bus_wires.specs.Cable.{low, holds, with_held, any_pulls, wire_low, seat_after, parties_after, parties_of, parties_at_rest};

use arrayvec::ArrayVec;
use cbm_iec::{Change, Event, Held, Line, Lines, Party, Who};

/// A drive, and the lines that it pulls.
#[derive(Clone, Copy, Debug, PartialEq, Eq, Drop)]
pub struct Seat {
    pub device: u8,
    pub held: Held,
}

/// The drives of a bus, in the caller's order of ties.
pub type Seats = ArrayVec<Seat, 4>;

/// Which lines each party pulls.
#[derive(Drop)]
pub struct Hands {
    pub host: Lines,
    pub seats: Seats,
}

/// Whether a line is pulled, of three.
pub fn low(lines: Lines, line: Line) -> bool
    ensures { result ≡ low line lines }
{
    match line {
        Line::Atn => lines.atn_low,
        Line::Clock => lines.clock_low,
        Line::Data => lines.data_low,
    }
}

/// Whether a drive that holds these pulls a line.
pub fn holds(held: Held, line: Line) -> bool
    ensures { result ≡ holds line held }
{
    match line {
        Line::Atn => false,
        Line::Clock => held.clock_low,
        Line::Data => held.data_low,
    }
}

impl Default for Seat {
    fn default() -> Seat {
        Seat::free(0)
    }
}

impl Seat {
    /// A drive that pulls nothing.
    pub fn free(device: u8) -> Seat
        ensures { result ≡ record { device = device; held = record { clock_low = false; data_low = false } } }
    {
        Seat {
            device,
            held: Held::FREE,
        }
    }

    fn with(self, line: Line, is_low: bool) -> Seat
        ensures { result ≡ record { device = self.device; held = with_held line is_low self.held } }
    {
        let held = match line {
            Line::Atn => self.held,
            Line::Clock => self.held.with_clock(is_low),
            Line::Data => self.held.with_data(is_low),
        };
        Seat {
            device: self.device,
            held,
        }
    }

    /// The drive after a change of the one with that device number.
    fn after(self, device: u8, change: Change) -> Seat
        ensures { result ≡ seat_after device change self }
    {
        if self.device == device {
            return self.with(change.line, change.way.is_pull());
        }
        self
    }
}

/// Whether one of these drives pulls a line.
fn any_pulls(seats: &[Seat], line: Line) -> bool
    ensures { result ≡ any_pulls line seats.now }
{
    match seats {
        [] => false,
        [seat, rest @ ..] => holds(seat.held, line) || any_pulls(rest, line),
    }
}

fn all_after(seats: &[Seat], device: u8, change: Change) -> Seats
    requires { length seats.now ≤ 4 }
    ensures { result.items ≡ map (λ s. seat_after device change s) seats.now }
{
    let mut found = Seats::new();
    for seat in seats {
        found.push(seat.after(device, change));
    }
    found
}

fn all_free(parties: &[Party]) -> Seats
    requires { length parties.now ≤ 4 }
    ensures { result.items ≡ (parties_at_rest parties.now).drives }
{
    let mut seats = Seats::new();
    for party in parties {
        seats.push(Seat::free(party.device));
    }
    seats
}

impl Hands {
    /// Nobody pulls a line.
    pub fn free(parties: &[Party]) -> Hands
        requires { length parties.now ≤ 4 }
        ensures { parties_of result ≡ parties_at_rest parties.now }
    {
        Hands {
            host: Lines::FREE,
            seats: all_free(parties),
        }
    }

    /// Whether a line is pulled on the wire.
    pub fn wire(&self, line: Line) -> bool
        ensures { result ≡ wire_low line (parties_of self.now) }
    {
        low(self.host, line) || any_pulls(&self.seats, line)
    }

    /// Whether a drive pulls a line.
    pub fn any_drive(&self, line: Line) -> bool {
        any_pulls(&self.seats, line)
    }

    /// What a drive holds, by its place.
    pub fn held(&self, place: usize) -> Held {
        self.seats.get(place).map_or(Held::FREE, |seat| seat.held)
    }

    /// Which lines all parties but a drive pull.
    pub fn others(&self, device: u8) -> Lines {
        let mut lines = self.host;
        for seat in &self.seats {
            if seat.device != device {
                lines.clock_low = lines.clock_low || seat.held.clock_low;
                lines.data_low = lines.data_low || seat.held.data_low;
            }
        }
        lines
    }

    /// Whether a party but that drive pulls a line.
    pub fn is_shared(&self, device: u8, line: Line) -> bool {
        low(self.others(device), line)
    }

    /// Who pulls a line: the host, or the first drive that does.
    pub fn puller(&self, line: Line) -> Who {
        if low(self.host, line) {
            return Who::Host;
        }
        for seat in &self.seats {
            if holds(seat.held, line) {
                return Who::Drive(seat.device);
            }
        }
        Who::Host
    }

    /// A party changes a line.
    pub fn change(&mut self, event: Event)
        ensures { parties_of self.new ≡ parties_after event (parties_of self.old) }
    {
        match event.who {
            Who::Host => self.host = self.host.after(event.change),
            Who::Drive(device) => self.seats = all_after(&self.seats, device, event.change),
        }
    }
}
