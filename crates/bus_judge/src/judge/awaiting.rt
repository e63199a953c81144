//! Whether an event would be taken, what is due next, and where the session stands: the judge stays as it is.

use crate::fits::cut_fits;
use crate::guess::{beginning, guesses};
use crate::judge::{Judge, LIMIT};
use crate::same::same_event;
use crate::seat::talker_of;
use crate::step::{Step, Steps};
use crate::trying::{is_cut, tried};
use crate::whole::{Point, Whole};
use cbm_iec::{Event, Line, Way};

/// Whether a piece begins with an event.
fn begins(point: &Point, event: Event) -> bool {
    match beginning(point, event) {
        Some(whole) => is_tried(point, &whole, &[], event),
        None => false,
    }
}

/// Whether a piece fits, and has those that were seen and then the event.
fn is_tried(point: &Point, whole: &Whole, seen: &[Step], event: Event) -> bool {
    let mut list = Steps::new();
    tried(point, whole, seen, event, &mut list).is_ok()
}

/// Whether an event pulls ATN.
pub(crate) fn pulls_atn(event: Event) -> bool {
    event.change.line == Line::Atn && event.change.way == Way::Pull
}

impl Judge {
    /// The change that is due next in the piece under way.
    pub(crate) fn due(&self) -> Option<Step> {
        self.next_step()
    }

    /// Whether `see` would take the event.
    pub(crate) fn awaits(&self, event: Event) -> bool {
        let moment = event.change.moment;
        if self.breach.is_some() || moment >= LIMIT || moment < self.last {
            return false;
        }
        match self.next_step() {
            Some(due) if due.moment() < moment => false,
            Some(due) if same_event(due.event, event) => true,
            _ => self.awaits_otherwise(event),
        }
    }

    /// The same, if the event isn't the next step of the piece that was guessed.
    fn awaits_otherwise(&self, event: Event) -> bool {
        let (Some(whole), Some(seen)) = (self.whole, self.steps.get(..self.seen)) else {
            return begins(&self.point, event);
        };
        let guessed = guesses(&self.point, &whole, self.counts, event);
        for guess in guessed.iter().flatten() {
            if is_tried(&self.point, guess, seen, event) {
                return true;
            }
        }
        if self.seen >= self.steps.len() {
            return match self.point.after(&whole) {
                Ok(point) => begins(&point, event),
                Err(_) => false,
            };
        }
        pulls_atn(event) && whole.is_talk() && self.may_be_cut(&whole, event.change.moment)
    }

    fn may_be_cut(&self, whole: &Whole, cut: u64) -> bool {
        is_cut(&self.steps, self.seen, cut)
            && cut_fits(&self.point, whole, &self.steps, cut).is_ok()
    }

    /// Whether the host waits for the next change of that drive: it doesn't for the answer to ATN's pull, nor until a
    /// drive without a role has let go of DATA.
    pub(crate) fn waits_for(&self, device: u8) -> bool {
        match self.whole {
            Some(Whole::Command(_) | Whole::Byte { .. } | Whole::Talk { .. }) => true,
            Some(Whole::ToTalker { .. } | Whole::Nothing { .. }) => {
                talker_of(&self.point.seats).device == device
            }
            _ => false,
        }
    }

    /// Whether DATA's next pull by a drive begins a pulse for EOI: CLOCK is free for a byte, and its bits aren't begun.
    pub(crate) fn may_pulse(&self) -> bool {
        match self.whole {
            Some(Whole::Byte { .. }) => self.counts.host_clocks == 1,
            _ => false,
        }
    }
}
