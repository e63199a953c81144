//! Why an event is refused, or a change that is due: who broke the session, and which rule.

use crate::bound::{Bound, Broken, Limit, Since};
use crate::breach::{Breach, Cause};
use crate::fits::fits;
use crate::frame::{LATEST_ACCEPT, LATEST_START};
use crate::guess::beginning;
use crate::judge::{Judge, LIMIT};
use crate::seat::{listeners, talker_of};
use crate::step::Step;
use crate::whole::Whole;
use cbm_iec::{Event, Who};

/// A cause by words, if it is counted from a change that didn't come yet.
pub(crate) fn told(cause: Cause) -> Cause {
    match cause {
        Cause::Bound(broken) if broken.reference >= LIMIT => Cause::Unasked,
        cause => cause,
    }
}

/// The event is what broke the session.
pub(crate) fn breach_of(event: Event, cause: Cause) -> Breach {
    Breach {
        who: event.who,
        change: event.change,
        cause,
    }
}

/// The same change of the same party, at any moment.
pub(crate) fn is_like(event: Event, other: Event) -> bool {
    event.who == other.who
        && event.change.line == other.change.line
        && event.change.way == other.change.way
}

impl Judge {
    /// The change that is due next is missing.
    pub(crate) fn owed(&self) -> Breach {
        self.missing(self.next_step().unwrap_or(Step::default()))
    }

    /// Why an event is refused inside a piece: of the host by the bound of what it might begin, of a drive by when it
    /// is due.
    pub(crate) fn refused(&self, whole: &Whole, event: Event, cause: Cause) -> Breach {
        let cause = told(cause);
        if cause != Cause::Unasked {
            return breach_of(event, cause);
        }
        if let Who::Drive(_) = event.who {
            return breach_of(event, self.moved(event));
        }
        let Ok(point) = self.point.after(whole) else {
            return breach_of(event, cause);
        };
        match beginning(&point, event) {
            Some(next) => {
                let cause = fits(&point, &next).err().unwrap_or(Cause::Unasked);
                breach_of(event, told(cause))
            }
            None => breach_of(event, Cause::Unasked),
        }
    }

    /// A change that the piece under way has at another moment.
    fn moved(&self, event: Event) -> Cause {
        for step in self.steps.iter().skip(self.seen) {
            if is_like(step.event, event) && step.moment() < LIMIT {
                return Cause::Moved(step.moment());
            }
        }
        Cause::Unasked
    }

    /// A change was due before this event.
    pub(crate) fn overdue(&self, event: Event, due: Step) -> Breach {
        match due.event.who {
            Who::Drive(_) if is_like(due.event, event) => {
                breach_of(event, Cause::Moved(due.moment()))
            }
            Who::Host if event.who == Who::Host => {
                if is_like(due.event, event)
                    && let Some(broken) = self.bound_of(event.change.moment)
                {
                    return breach_of(event, Cause::Bound(broken));
                }
                self.missing(due)
            }
            _ => self.missing(due),
        }
    }

    /// A change that is due is missing.
    fn missing(&self, due: Step) -> Breach {
        match (due.event.who, self.bound_of(due.moment())) {
            (Who::Host, Some(broken)) => breach_of(due.event, Cause::LeftOut(broken)),
            _ => breach_of(due.event, Cause::Missing),
        }
    }

    /// The bound by which the host's next change is due, with the moment of that change.
    fn bound_of(&self, moment: u64) -> Option<Broken> {
        let (bound, since, reference, most) = match &self.whole? {
            Whole::PullPiece { at } => (Bound::Together, Since::Pull, *at, 0),
            Whole::Command(frame) if self.counts.host_clocks == 1 => {
                let wire = frame.wire(&self.point.seats);
                (Bound::Start, Since::Wire, wire, LATEST_START)
            }
            Whole::Byte { frame, .. } if self.counts.host_clocks == 1 => {
                let wire = frame.wire(&listeners(&self.point.seats));
                (Bound::Start, Since::Wire, wire, LATEST_START)
            }
            Whole::Command(frame) => (Bound::Together, Since::ClockPull, frame.end(), 0),
            Whole::Byte { frame, .. } => (Bound::Together, Since::ClockPull, frame.end(), 0),
            Whole::Nothing { at, .. } => (Bound::Together, Since::DataPull, *at, 0),
            Whole::Talk { frame, .. } => {
                let end = frame.end(talker_of(&self.point.seats));
                (Bound::Accept, Since::EighthBit, end, LATEST_ACCEPT)
            }
            _ => return None,
        };
        Some(Broken {
            bound,
            since,
            reference,
            moment,
            limit: Limit::Most(most),
        })
    }
}
