//! The wires as they were read, moment by moment.

use arrayvec::ArrayVec;
use cbm_iec::Lines;

/// How many changes may be known ahead.
pub const AHEAD: usize = 16;

/// The wires from a moment on.
#[derive(Clone, Copy, Debug, PartialEq, Eq, Drop)]
pub struct Look {
    pub moment: u64,
    pub wires: Lines,
}

/// What was read of the moments to come.
pub type Looks = ArrayVec<Look, AHEAD>;

impl Default for Look {
    fn default() -> Look {
        Look {
            moment: 0,
            wires: Lines::FREE,
        }
    }
}

/// Whether a talker that has pulled CLOCK leads with a byte, as the wires show later: once CLOCK is free it is pulled again,
/// or the host answers EOI. If ATN is pulled before CLOCK is free, DATA tells: a talker that leads has freed it.
pub fn says_a_byte(wires: Lines, ahead: &[Look]) -> bool {
    let (mut was, mut offered) = (wires, false);
    for (place, look) in ahead.iter().enumerate() {
        let next = ahead.get(place.saturating_add(1));
        if next.map(|next| next.moment) == Some(look.moment) {
            continue;
        }
        let now = look.wires;
        if now.atn_low {
            return !offered && !now.data_low;
        }
        if offered && (now.clock_low || now.data_low && !was.data_low) {
            return true;
        }
        offered = offered || !now.clock_low;
        was = now;
    }
    false
}
