//! Which change that came is taken next, whether one is still to come before it, and what broke the session.

ghost use Rattle.std.specs.Prelude.{◌≡◌};

use crate::breach::{Breach, Cause};
use crate::judge::awaiting::pulls_atn;
use crate::judge::refusal::{breach_of, is_like};
use crate::judge::scene::{Due, Scene};
use crate::step::Step;
use crate::varied::range::range_at;
use crate::varied::waited::Waited;
use crate::varied::{VariedJudge, moved};
use cbm_iec::{Change, Event, Line, Way, Who};

impl VariedJudge {
    /// How much later than the session the trace is from the changes on that the host waited for.
    fn lag_now(&self) -> u64 {
        match self.waited {
            None => self.lag,
            Some(waited) => waited.lag().max(self.lag),
        }
    }

    /// Whether a change begins the first pulse for EOI.
    fn begins_pulses(&self, event: Event) -> bool {
        let is_pulse = match self.waited {
            None => false,
            Some(waited) => waited.is_pulse,
        };
        event.change.line == Line::Data
            && event.change.way == Way::Pull
            && self.judge.may_pulse()
            && !is_pulse
    }

    /// How much later than the session the trace is at the changes from which one is counted: of a drive the host's
    /// last, and at a pulse for EOI the last release of DATA; of the host those that it waited for, and at a pull of
    /// ATN that comes in place of a drive's change as much as may be.
    pub(crate) fn base(&self, event: Event, due: u64) -> u64 {
        match event.who {
            Who::Host => event.change.moment.saturating_sub(due),
            Who::Drive(_) if self.begins_pulses(event) => self.lag_now(),
            Who::Drive(_) => self.lag,
        }
    }

    /// The changes that the next one waits for, with a change that is due at a moment.
    pub(crate) fn waited_with(&self, event: Event, due: u64) -> Option<Waited> {
        let came = event.change.moment;
        match event.who {
            Who::Host => None,
            Who::Drive(_) if self.begins_pulses(event) => {
                Some(Waited::after(None, due, came, true))
            }
            Who::Drive(device) if self.judge.waits_for(device) => {
                let is_pulse = match self.waited {
                    None => false,
                    Some(waited) => waited.is_pulse,
                };
                Some(Waited::after(self.waited, due, came, is_pulse))
            }
            Who::Drive(_) => self.waited,
        }
    }

    /// Whether a change that is due at a moment may be the second of the reaction whose first was taken last.
    fn is_second(&self, event: Event, due: u64) -> bool {
        match self.taken {
            None => false,
            Some((who, moment)) => who == event.who && moment == due,
        }
    }

    /// Whether a change that is due at a moment comes before one that is due at another. At one moment the second change of a reaction does:
    /// another drive's may go on with another session alone.
    fn is_before(&self, event: Event, due: u64, other: u64) -> bool {
        due < other || due == other && self.is_second(event, due)
    }

    /// The place of the change that came, goes on with the session and is due first, and when it is due.
    pub(crate) fn ready(&self) -> Option<(usize, u64)> {
        let mut found: Option<(usize, u64)> = None;
        for (place, come) in self.waiting.iter().enumerate() {
            let is_next = !self
                .waiting
                .iter()
                .take(place)
                .any(|it| it.event.who == come.event.who);
            if is_next && let Some(due) = self.due_of(come.event) {
                found = match found {
                    Some((_, first)) if !self.is_before(come.event, due, first) => found,
                    _ => Some((place, due)),
                };
            }
        }
        found
    }

    fn due_of(&self, event: Event) -> Option<u64> {
        match event.who {
            Who::Host => self.host_due(event),
            Who::Drive(device) => self.drive_due(event, device),
        }
    }

    /// A change of the host counts from those that it waited for. A pull of ATN may come in place of a change of a drive.
    fn host_due(&self, event: Event) -> Option<u64> {
        let due = event.change.moment.checked_sub(self.lag_now())?;
        if self.judge.awaits(moved(event, due)) {
            return Some(due);
        }
        let next = self.judge.due()?;
        let moment = next.moment();
        if pulls_atn(event)
            && event.change.moment <= self.latest(next)?
            && moment < due
            && self.judge.awaits(moved(event, moment))
        {
            return Some(moment);
        }
        None
    }

    /// A change of a drive comes when it is due, or up to its range later.
    fn drive_due(&self, event: Event, device: u8) -> Option<u64> {
        let base = self.base(event, 0);
        let earliest = event.change.moment.checked_sub(base)?;
        for more in 0..=range_at(device, &self.ranges) {
            let due = earliest.checked_sub(more)?;
            if self.judge.awaits(moved(event, due)) {
                return Some(due);
            }
        }
        None
    }

    /// When a change of a drive comes at the latest; None of a change of the host.
    fn latest(&self, step: Step) -> Option<u64> {
        match step.event.who {
            Who::Host => None,
            Who::Drive(device) => {
                let earliest = step.moment().checked_add(self.base(step.event, 0))?;
                earliest.checked_add(range_at(device, &self.ranges))
            }
        }
    }

    /// Whether the change of a drive that is due next may still come at a moment, or after it.
    pub(crate) fn is_patient(&self, moment: u64) -> bool {
        match self.judge.due() {
            None => false,
            Some(step) => self.latest(step).is_some_and(|latest| moment <= latest),
        }
    }

    /// The first change that waits, and comes before the one that is due next may.
    pub(crate) fn too_soon(&self) -> Option<Event> {
        let due = self.judge.due()?.moment();
        for come in self.waiting.iter() {
            let moment = come.event.change.moment;
            if moment < due.saturating_add(self.lag_of(come.event)) {
                return Some(come.event);
            }
        }
        None
    }

    /// What broke the session by a moment: the drive that is late, or the first change that doesn't go on with it.
    pub(crate) fn broken(&mut self, event: Event, moment: u64) -> Breach {
        if let Some(step) = self.judge.due()
            && let Some(latest) = self.latest(step)
            && latest < moment
        {
            return self.late(step, latest);
        }
        let lag = self.lag_of(event);
        let due = event.change.moment.saturating_sub(lag);
        match self.judge.see(moved(event, due)) {
            Ok(_) => breach_of(event, Cause::Unasked),
            Err(breach) => self.shown(breach, lag),
        }
    }

    /// Brings a change that came into the session. If one of a drive may still come before it, that one does.
    pub(crate) fn settle(&mut self, moment: u64) -> Result<(), Breach> {
        if let Some((place, due)) = self.ready()
            && let Some(come) = self.waiting.pop_at(place)
        {
            self.take(come.event, due)?;
            return Ok(());
        }
        if let Some(step) = self.judge.due()
            && let Some(latest) = self.latest(step)
            && moment < latest
        {
            self.take(moved(step.event, latest), step.moment())?;
            return Ok(());
        }
        match self.waiting.first() {
            None => Ok(()),
            Some(come) => {
                let event = come.event;
                Err(self.broken(event, moment.saturating_add(1)))
            }
        }
    }

    /// The trace ends at a moment, and no change waits.
    pub(crate) fn end_quietly(&mut self, moment: u64) -> Result<(), Breach>
        ensures { self.new.waiting ≡ self.old.waiting }
    {
        let Some(step) = self.judge.due() else {
            return self.judge.end(moment);
        };
        if let Some(latest) = self.latest(step) {
            if moment < latest {
                return Ok(());
            }
            return Err(self.late(step, latest));
        }
        let lag = self.lag_now();
        if moment < step.moment().saturating_add(lag) {
            return Ok(());
        }
        match self.judge.end(moment) {
            Ok(()) => Ok(()),
            Err(breach) => Err(self.shown(breach, lag)),
        }
    }

    /// The drive's change that is due didn't come in time.
    fn late(&self, step: Step, latest: u64) -> Breach {
        let first = step.moment().saturating_add(self.lag_of(step.event));
        for come in self.waiting.iter() {
            if is_like(step.event, come.event) {
                return breach_of(come.event, Cause::Within(first, latest));
            }
        }
        breach_of(moved(step.event, latest), Cause::Awaited(first))
    }

    /// A breach of the session as one of the trace.
    pub(crate) fn shown(&self, breach: Breach, lag: u64) -> Breach {
        let moment = breach.change.moment.saturating_add(lag);
        Breach {
            who: breach.who,
            change: Change {
                moment,
                ..breach.change
            },
            cause: self.shown_cause(breach, lag),
        }
    }

    fn shown_cause(&self, breach: Breach, lag: u64) -> Cause {
        match breach.cause {
            Cause::Moved(due) => {
                let first = due.saturating_add(lag);
                Cause::Within(first, first.saturating_add(self.range_of(breach.who)))
            }
            Cause::Backwards(last) => Cause::Backwards(last.saturating_add(lag)),
            cause => cause,
        }
    }

    /// How much later than the session the trace is where a change is due.
    fn lag_of(&self, event: Event) -> u64 {
        match event.who {
            Who::Host => self.lag_now(),
            Who::Drive(_) => self.base(event, 0),
        }
    }

    /// Where the session stands that was seen so far, by the trace's moments.
    pub fn scene(&self) -> Scene {
        let scene = self.judge.scene();
        let Some(due) = scene.next else {
            return scene;
        };
        let lag = self.lag_of(due.event);
        let moment = due.event.change.moment.saturating_add(lag);
        let next = Due {
            event: moved(due.event, moment),
            is_known: due.is_known,
            latest: moment.saturating_add(self.range_of(due.event.who)),
        };
        Scene {
            turn: scene.turn,
            bit: scene.bit,
            next: Some(next),
        }
    }

    /// How much later than its least time a party may react.
    fn range_of(&self, who: Who) -> u64 {
        match who {
            Who::Host => 0,
            Who::Drive(device) => range_at(device, &self.ranges),
        }
    }
}
