//! The changes of drives for which the host waits before its next change.

use crate::step::Mark;
use cbm_iec::Act;

/// Those since the host's last change: when they were due, and when they came, in microseconds.
#[derive(Clone, Copy, Debug, PartialEq, Eq, Drop)]
pub struct Waited {
    first_due: u64,
    first_came: u64,
    last_due: u64,
    last_came: u64,
    /// The host goes on by the first of them, as after the accept of a byte, and else by the last.
    is_first: bool,
    /// They are the listeners' pulses for EOI.
    pub is_pulse: bool,
}

impl Waited {
    /// A change that was due at a moment and came at another one, after those that are known.
    pub fn after(known: Option<Waited>, due: u64, came: u64, is_pulse: bool) -> Waited {
        match known {
            None => Waited {
                first_due: due,
                first_came: came,
                last_due: due,
                last_came: came,
                is_first: false,
                is_pulse,
            },
            Some(known) => Waited {
                first_due: known.first_due.min(due),
                first_came: known.first_came.min(came),
                last_due: known.last_due.max(due),
                last_came: known.last_came.max(came),
                is_first: false,
                is_pulse,
            },
        }
    }

    /// How much later than the session the trace is from these changes on.
    pub fn lag(self) -> u64 {
        if self.is_first {
            self.first_came.saturating_sub(self.first_due)
        } else {
            self.last_came.saturating_sub(self.last_due)
        }
    }
}

/// The same changes, with the act that the last of them completes.
pub fn completed(waited: Option<Waited>, mark: Mark) -> Option<Waited> {
    let is_first = matches!(mark, Mark::For(_, Act::Attention(_) | Act::Heard(_, _)));
    match waited {
        None => None,
        Some(waited) => Some(Waited { is_first, ..waited }),
    }
}
