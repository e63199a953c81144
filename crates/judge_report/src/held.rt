//! What each party holds of the lines.

use bus_traces::Told;
use cbm_iec::{Change, Line, Way, Who};

/// The number of the host among the parties of a trace, after the numbers of drives.
const HOST: u32 = 31;

/// What each party holds of the lines: a bit for each, by its number.
#[derive(Clone, Copy, Drop)]
pub struct Held {
    atn: u32,
    clock: u32,
    data: u32,
}

/// Who changed a line, and how. If the wires alone are known, they count as the host's.
pub fn change_of(told: Told) -> (Who, Change) {
    match told {
        Told::Party(event) => (event.who, event.change),
        Told::Wire(change) => (Who::Host, change),
    }
}

/// The bit of a party.
fn bit_of(who: Who) -> u32 {
    let number = match who {
        Who::Host => HOST,
        Who::Drive(device) => u32::from(device),
    };
    1u32.wrapping_shl(number)
}

/// The parties that hold a line, after a change of one of them.
fn changed(parties: u32, bit: u32, way: Way) -> u32 {
    match way {
        Way::Pull => parties | bit,
        Way::Free => parties & !bit,
    }
}

impl Held {
    /// All lines are free.
    pub fn none() -> Held {
        Held {
            atn: 0,
            clock: 0,
            data: 0,
        }
    }

    /// Whether a change begins a session: the host pulls ATN while all lines are free.
    pub fn begins(&self, told: Told) -> bool {
        let (who, change) = change_of(told);
        let is_free = self.atn | self.clock | self.data == 0;
        is_free && who == Who::Host && change.line == Line::Atn && change.way == Way::Pull
    }

    /// A party changes what it holds.
    pub fn take(&mut self, told: Told) {
        let (who, change) = change_of(told);
        let bit = bit_of(who);
        match change.line {
            Line::Atn => self.atn = changed(self.atn, bit, change.way),
            Line::Clock => self.clock = changed(self.clock, bit, change.way),
            Line::Data => self.data = changed(self.data, bit, change.way),
        }
    }
}
