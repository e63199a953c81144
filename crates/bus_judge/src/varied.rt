//! The judge of drives whose reactions vary. It judges the session of the quickest drives: each change of a drive may come
//! later by up to its range, and what the host does after it is counted from it.

ghost use Rattle.std.specs.Prelude.{true, ◌≡◌, ◌∷◌, ◌++◌, [], List, IfSome, IfOk, OnOk};
ghost use Rattle.bus_judge.specs.Varied.{VariedStands, BeginsVaried, ComesLater, Timed, timed, IsOneMore, IsTakenOut};
ghost use Rattle.bus_judge.specs.declared.varied.range.Range.{Range as OwnRange};
ghost use Rattle.cbm_iec.specs.Ports.{change_at};
ghost use Rattle.cbm_iec.specs.declared.party.Party.{Party as ThisParty};

mod looking;
pub(crate) mod range;
mod waited;

use crate::breach::{Breach, Cause};
use crate::drives::NotABus;
use crate::judge::Judge;
use crate::judge::refusal::breach_of;
use crate::step::{Mark, Step};
pub use crate::varied::range::Range;
use crate::varied::range::{Ranges, check_ranges, range_at, widest};
use crate::varied::waited::{Waited, completed};
use arrayvec::ArrayVec;
use cbm_iec::{Change, Event, Party, Who};

/// How many changes may wait for one that is due before them.
const MOST: usize = 32;

/// A change that came, and whose place in the session isn't known.
#[derive(Clone, Copy, Debug, PartialEq, Eq, Drop)]
pub struct Come {
    pub event: Event,
}

/// ATN's pull at moment 0: the blank of a list.
impl Default for Come {
    fn default() -> Come {
        Come {
            event: Step::default().event,
        }
    }
}

type Waiting = ArrayVec<Come, MOST>;

/// A change of the trace that was taken.
#[derive(Clone, Copy, Debug, PartialEq, Eq, Drop)]
pub struct Taken {
    /// The change, as the trace has it.
    pub event: Event,
    /// Which act it completes.
    pub mark: Mark,
    /// When the session of the quickest drives has it, in microseconds.
    pub due: u64,
}

/// Judges a trace event by event, of drives whose reactions are within ranges.
#[derive(Drop)]
pub struct VariedJudge {
    judge: Judge,
    ranges: Ranges,
    /// How much later than the session of the quickest drives the trace is.
    lag: u64,
    /// The changes of drives since then for which the next change waits.
    waited: Option<Waited>,
    waiting: Waiting,
    /// Whose change was taken last, and when it was due.
    taken: Option<(Who, u64)>,
    /// The last change that came, and when a drive's last came.
    last: u64,
    last_of_drive: Option<u64>,
}

/// The event as it is at another moment.
fn moved(event: Event, moment: u64) -> Event
    ensures { result ≡ record { who = event.who; change = change_at moment event.change.line event.change.way } }
{
    Event {
        who: event.who,
        change: Change {
            moment,
            ..event.change
        },
    }
}

impl VariedJudge {
    /// A judge of the traces of these drives, in the order of ties, as they react in their least time, and of how much
    /// longer they may take. All lines are free, and nothing was seen. Errors: the drives are no bus, or one may take more
    /// than 60.
    pub fn new(parties: &[Party], ranges: &[Range]) -> Result<VariedJudge, NotABus>
        ensures { IfOk result (λ judge. VariedStands parties.now ranges.now judge []) }
    {
        check_ranges(parties, ranges)?;
        let judge = Judge::new(parties)?;
        let mut own = Ranges::new();
        if own.try_extend_from_slice(ranges).is_err() {
            return Err(NotABus::Count);
        }
        Ok(VariedJudge {
            judge,
            ranges: own,
            lag: 0,
            waited: None,
            waiting: Waiting::new(),
            taken: None,
            last: 0,
            last_of_drive: None,
        })
    }

    /// Whether a change comes within its range, if the trace is `next` later than the session from it on.
    fn is_in_range(&self, who: Who, due: u64, moment: u64, next: u64) -> bool
        ensures { result ≡ true → ComesLater self.now.ranges.items self.now.lag who due moment next }
    {
        let (Some(more), Some(earliest)) = (next.checked_sub(self.lag), due.checked_add(next))
        else {
            return false;
        };
        let Some(late) = moment.checked_sub(earliest) else {
            return false;
        };
        let range = match who {
            Who::Host => 0,
            Who::Drive(device) => range_at(device, &self.ranges),
        };
        more <= widest(&self.ranges) && late <= range
    }

    /// Takes a change as one that is due at a moment.
    fn take(&mut self, event: Event, due: u64) -> Result<Taken, Breach>
        ensures stands { (bs : List ThisParty) → (rs : List OwnRange) → (trail : List Timed) → VariedStands bs rs self.old trail → IfOk result (λ taken. VariedStands bs rs self.new (trail ++ timed taken ∷ [])) }
        ensures begins { (bs : List ThisParty) → (rs : List OwnRange) → (trail : List Timed) → VariedStands bs rs self.old trail → IfOk result (λ taken. BeginsVaried bs rs (trail ++ timed taken ∷ [])) }
        ensures event { IfOk result (λ taken. taken.event ≡ event) }
        ensures waiting { OnOk result (self.new.waiting ≡ self.old.waiting) }
    {
        let lag = self.base(event, due);
        if !self.is_in_range(event.who, due, event.change.moment, lag) {
            return Err(breach_of(event, Cause::Unasked));
        }
        let waited = self.waited_with(event, due);
        let mark = match self.judge.see(moved(event, due)) {
            Ok(mark) => mark,
            Err(breach) => return Err(self.shown(breach, lag)),
        };
        self.lag = lag;
        self.waited = completed(waited, mark);
        self.taken = Some((event.who, due));
        Ok(Taken { event, mark, due })
    }

    /// When the last change came that was heard, in microseconds.
    pub fn moment(&self) -> u64
        ensures { result ≡ self.now.last }
    {
        self.last
    }

    /// The next change of the trace; `next` takes it, once those of its moment were heard. Error: it comes before one that came, or at the moment of a drive's if it is the
    /// host's; or too many wait.
    pub fn hear(&mut self, event: Event) -> Result<(), Breach>
        ensures stands { (bs : List ThisParty) → (rs : List OwnRange) → (trail : List Timed) → VariedStands bs rs self.old trail → VariedStands bs rs self.new trail }
        ensures waiting { OnOk result (self.new.waiting.items ≡ self.old.waiting.items ++ (record { event = event }) ∷ []) }
    {
        if let Some(last) = self.comes_before(event) {
            return Err(breach_of(event, Cause::Backwards(last)));
        }
        if self.waiting.try_push(Come { event }).is_err() {
            return Err(breach_of(event, Cause::Unasked));
        }
        self.last = event.change.moment;
        if event.who != Who::Host {
            self.last_of_drive = Some(self.last);
        }
        Ok(())
    }

    /// The moment of a change that came, and before which the event comes, or at which the host may not.
    fn comes_before(&self, event: Event) -> Option<u64> {
        let moment = event.change.moment;
        if moment < self.last {
            return Some(self.last);
        }
        let drives = self.last_of_drive?;
        (event.who == Who::Host && moment <= drives).then_some(drives)
    }

    /// The next change that goes on with the session, in its order; None if none does yet. Error: what broke the session.
    pub fn next(&mut self) -> Result<Option<Taken>, Breach>
        ensures stands { (bs : List ThisParty) → (rs : List OwnRange) → (trail : List Timed) → VariedStands bs rs self.old trail → IfOk result (IsOneMore bs rs self.new trail) }
        ensures taken { IfOk result (IsTakenOut self.old.waiting.items self.new.waiting.items) }
    {
        let Some((place, due)) = self.ready() else {
            return self.wait();
        };
        match self.waiting.pop_at(place) {
            None => Ok(None),
            Some(come) => match self.take(come.event, due) {
                Ok(taken) => Ok(Some(taken)),
                Err(breach) => Err(breach),
            },
        }
    }

    /// Nothing that came goes on with the session.
    fn wait(&mut self) -> Result<Option<Taken>, Breach>
        ensures { IfOk result (λ taken. (taken ≡ None) × (self.new ≡ self.old)) }
    {
        if let Some(event) = self.too_soon() {
            return Err(self.broken(event, 0));
        }
        match self.waiting.first() {
            None => Ok(None),
            Some(_) if self.is_patient(self.last) => Ok(None),
            Some(come) => {
                let event = come.event;
                Err(self.broken(event, self.last))
            }
        }
    }

    /// The trace ends at a moment: nothing else came up to it. Error: a change was due by then, or one that came doesn't go
    /// on with the session.
    pub fn end(&mut self, moment: u64) -> Result<(), Breach>
        ensures { OnOk result (self.new.waiting.items ≡ []) }
    {
        for _ in 0..2 * MOST {
            if self.waiting.is_empty() {
                return self.end_quietly(moment);
            }
            self.settle(moment)?;
        }
        Err(breach_of(Come::default().event, Cause::Unasked))
    }
}
