//! What is told the events on a bus as they come.

use crate::half::Half;
use cbm_iec::Event;

/// What is told each event on the bus, the host's and a drive's, as it comes. No event comes before the last one's moment.
pub trait Watches {
    /// A party changed a line.
    fn event(&mut self, event: Event);

    /// A drive said half of a bit, whose changes `Half::changes` gives.
    fn half(&mut self, half: Half);
}

/// Nobody watches.
#[derive(Clone, Copy, Debug, PartialEq, Eq, Drop)]
pub struct Unwatched;

impl Watches for Unwatched {
    fn event(&mut self, _event: Event) {}

    fn half(&mut self, _half: Half) {}
}
