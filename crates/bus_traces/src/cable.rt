//! The cable: a line is pulled as long as any party pulls it.
ghost use Rattle.std.specs.Prelude.{◌≡◌, ◌<◌};
ghost use Rattle.bus_traces.specs.Cables.{seat_number, pulling, is_low, after};

use cbm_iec::{Event, Line, Way, Who};

/// How many seats there are: 31 for drives, by their numbers, and the host's.
const SEATS: usize = 32;

/// Which parties pull which lines: each has a seat in each line.
#[derive(Clone, Copy, Debug, PartialEq, Eq, Drop)]
pub(crate) struct Cable {
    atn_seats: [bool; SEATS],
    clock_seats: [bool; SEATS],
    data_seats: [bool; SEATS],
}

/// The seat of a party: a drive's number, which is at most 30, or 31.
fn seat_of(who: Who) -> usize
    ensures seat { result ≡ seat_number who }
    ensures within { result < 32 }
{
    match who {
        Who::Host => 31,
        Who::Drive(device) => usize::from(device) % 31,
    }
}

impl Cable {
    /// All lines are free.
    pub(crate) fn free() -> Cable {
        Cable {
            atn_seats: [false; SEATS],
            clock_seats: [false; SEATS],
            data_seats: [false; SEATS],
        }
    }

    fn pulling(&self, line: Line) -> &[bool]
        ensures { result.now ≡ pulling line self.now }
    {
        match line {
            Line::Atn => &self.atn_seats,
            Line::Clock => &self.clock_seats,
            Line::Data => &self.data_seats,
        }
    }

    /// Whether a line is pulled on the cable.
    pub(crate) fn is_low(&self, line: Line) -> bool
        ensures { result ≡ is_low line self.now }
    {
        self.pulling(line).iter().any(|pulls| *pulls)
    }

    /// A party changes a line.
    pub(crate) fn change(&mut self, event: Event)
        ensures { self.new ≡ after event self.old }
    {
        let seat = seat_of(event.who);
        let pulls = match event.change.way {
            Way::Pull => true,
            Way::Free => false,
        };
        match event.change.line {
            Line::Atn => self.atn_seats[seat] = pulls,
            Line::Clock => self.clock_seats[seat] = pulls,
            Line::Data => self.data_seats[seat] = pulls,
        }
    }
}
