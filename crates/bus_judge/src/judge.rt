//! The judge: it keeps one piece under way, that fits and begins with the events that were seen, put off as far as may
//! be, and what stands before it.

ghost use Rattle.std.specs.Prelude.{◌≡◌, ◌≤◌, ℕ, [], ◌∷◌, ◌++◌, List, IsErr, Some, None, length, slice_get, true, false, IfOk, OnOk};
ghost use Rattle.cbm_iec.specs.declared.party.Party.{Party as ThisParty};
ghost use Rattle.cbm_iec.specs.declared.event.Who.TheVariants.{Drive};
ghost use Rattle.cbm_session.specs.Sessions.{IsBus, Unlike};
ghost use Rattle.cbm_session.specs.Steps.{Step as Seen};
ghost use Rattle.bus_judge.specs.Judging.{JudgeStands, IsTooSoon, NoneBegins, IsBusy, Awaits, and_then, BeginsSo, JudgeRests, IsQuietTo, InTime};
ghost use Rattle.bus_judge.specs.Views.{whole_of};
ghost use Rattle.bus_judge.specs.declared.step.Mark.{Mark as OwnMark};

pub(crate) mod awaiting;
mod guessing;
pub(crate) mod refusal;
pub(crate) mod scene;
mod scenes;

use crate::breach::{Breach, Cause};
use crate::drives::{NotABus, check_drives};
use crate::fits::fits;
use crate::guess::{Counts, offer};
use crate::judge::refusal::breach_of;
pub use crate::judge::scene::{Due, Scene, Turn};
use crate::parts::steps_of;
use crate::same::same_event;
use crate::step::{Mark, Step, Steps, Unmade};
use crate::whole::{Point, Whole};
use cbm_iec::{Event, Party};

/// Moments from here on are refused: 2^50 microseconds, which is 35 years.
pub(crate) const LIMIT: u64 = 1 << 50;

/// Judges a trace event by event.
#[derive(Drop)]
pub struct Judge {
    point: Point,
    /// The piece under way, its steps, and how many of them were seen.
    whole: Option<Whole>,
    steps: Steps,
    seen: usize,
    counts: Counts,
    /// The last event's moment.
    last: u64,
    breach: Option<Breach>,
}

impl Judge {
    /// A judge of the traces of these drives, in the order of ties: one to four, of unlike devices 8 to 11 and reactions
    /// of 1 to 60. All lines are free, and nothing was seen.
    pub fn new(parties: &[Party]) -> Result<Judge, NotABus>
        ensures { IfOk result (λ judge. JudgeStands parties.now judge []) }
    {
        check_drives(parties)?;
        Ok(Judge {
            point: Point::rest(parties),
            whole: None,
            steps: Steps::new(),
            seen: 0,
            counts: Counts::default(),
            last: 0,
            breach: None,
        })
    }

    /// What broke the session, if it is broken.
    pub fn breach(&self) -> Option<Breach> {
        self.breach
    }

    /// The next step of the piece under way.
    fn next_step(&self) -> Option<Step>
        ensures { result ≡ slice_get self.now.steps.items self.now.seen }
    {
        self.steps.get(self.seen).copied()
    }

    /// The next event of the trace. Answers which act it completes; or what broke the session, from then on.
    pub fn see(&mut self, event: Event) -> Result<Mark, Breach>
        ensures stands { (bs : List ThisParty) → (done : List Seen) → JudgeStands bs self.old done → IfOk result (λ mark. JudgeStands bs self.new (and_then done event mark)) }
        ensures begins { (bs : List ThisParty) → (done : List Seen) → JudgeStands bs self.old done → IfOk result (λ mark. BeginsSo bs (and_then done event mark)) }
        ensures busy { OnOk result (IsBusy self.new) }
        ensures too_soon { (bs : List ThisParty) → (front : List Seen) → (s : Seen) → (back : List Seen) → IsBus bs → JudgeStands bs self.old (front ++ s ∷ back)
            → IsTooSoon s event → IsErr result × NoneBegins bs (front ++ s ∷ back) event }
        ensures stranger { (bs : List ThisParty) → (done : List Seen) → (d : ℕ) → JudgeStands bs self.old done → event.who ≡ Drive d → Unlike d bs
            → IsErr result × NoneBegins bs done event }
    {
        if let Some(breach) = self.breach {
            return Err(breach);
        }
        match self.go_on(event) {
            Ok(mark) => Ok(mark),
            Err(breach) => {
                self.breach = Some(breach);
                Err(breach)
            }
        }
    }

    /// The trace ends at a moment: nothing else came up to it. Answers whether a change was due by then; if none was, the host
    /// has kept the timing, and no drive was late.
    pub fn end(&mut self, moment: u64) -> Result<(), Breach>
        ensures { (bs : List ThisParty) → (done : List Seen) → IsBus bs → JudgeStands bs self.old done → IsBusy self.old → OnOk result (InTime bs done moment) }
    {
        if let Some(breach) = self.breach {
            return Err(breach);
        }
        if self.is_quiet(moment) {
            return Ok(());
        }
        let breach = self.owed();
        self.breach = Some(breach);
        Err(breach)
    }

    /// Whether the piece under way has nothing more up to a moment.
    fn is_quiet(&self, moment: u64) -> bool
        ensures { result ≡ true → IsQuietTo self.now moment }
    {
        match (self.next_step(), self.whole) {
            (Some(due), _) => moment < due.moment(),
            (None, Some(whole)) => !goes_on_talking(&whole),
            (None, None) => true,
        }
    }

    fn go_on(&mut self, event: Event) -> Result<Mark, Breach>
        ensures stands { (bs : List ThisParty) → (done : List Seen) → JudgeStands bs self.old done → IfOk result (λ mark. JudgeStands bs self.new (and_then done event mark)) }
        ensures busy { OnOk result (IsBusy self.new) }
    {
        let mark = self.find(event)?;
        self.advance(event)?;
        Ok(mark)
    }

    /// Finds a piece whose next step the event is.
    fn find(&mut self, event: Event) -> Result<Mark, Breach>
        ensures stands { (bs : List ThisParty) → (done : List Seen) → JudgeStands bs self.old done → OnOk result (JudgeStands bs self.new done) }
        ensures awaits { IfOk result (λ mark. Awaits self.new event mark) }
    {
        let moment = event.change.moment;
        if moment >= LIMIT {
            return Err(breach_of(event, Cause::Far));
        }
        if moment < self.last {
            return Err(breach_of(event, Cause::Backwards(self.last)));
        }
        match self.next_step() {
            Some(due) if due.moment() < moment => Err(self.overdue(event, due)),
            Some(due) if same_event(due.event, event) => Ok(due.mark),
            _ => self.otherwise(event),
        }
    }

    /// The event was the next step.
    fn advance(&mut self, event: Event) -> Result<(), Breach>
        ensures stands { (bs : List ThisParty) → (done : List Seen) → (mark : OwnMark) → JudgeStands bs self.old done → Awaits self.old event mark
            → OnOk result (JudgeStands bs self.new (and_then done event mark)) }
        ensures busy { OnOk result (IsBusy self.new) }
    {
        if self.whole.is_none() || self.seen >= self.steps.len() {
            return Err(breach_of(event, Cause::Unasked));
        }
        self.seen += 1;
        self.last = event.change.moment;
        self.counts.count(event);
        if self.seen < self.steps.len() {
            return Ok(());
        }
        self.come(event)
    }

    /// All steps of the piece have come. If the talker goes on, its next frame is under way at once.
    fn come(&mut self, event: Event) -> Result<(), Breach>
        requires { length self.old.steps.items ≤ self.old.seen }
        ensures stands { (bs : List ThisParty) → (done : List Seen) → JudgeStands bs self.old done → OnOk result (JudgeStands bs self.new done) }
        ensures busy { OnOk result (IsBusy self.new) }
    {
        let Some(whole) = self.whole else {
            return Err(breach_of(event, Cause::Unasked));
        };
        if !goes_on_talking(&whole) {
            return Ok(());
        }
        match self.pass(&whole) {
            Ok(()) => self.lead(event),
            Err(_) => Err(breach_of(event, Cause::Far)),
        }
    }

    /// The piece under way is over.
    fn pass(&mut self, whole: &Whole) -> Result<(), Unmade>
        requires under_way { self.old.whole ≡ Some whole.now }
        requires over { length self.old.steps.items ≤ self.old.seen }
        ensures stands { (bs : List ThisParty) → (done : List Seen) → JudgeStands bs self.old done → OnOk result (JudgeStands bs self.new done) }
        ensures cleared { OnOk result ((self.new.whole ≡ None) × (self.new.steps.items ≡ []) × (self.new.seen ≡ 0)) }
    {
        self.point = self.point.after(whole)?;
        self.clear();
        Ok(())
    }

    /// No piece is under way.
    fn clear(&mut self)
        ensures point { self.new.point ≡ self.old.point }
        ensures whole { self.new.whole ≡ None }
        ensures steps { self.new.steps.items ≡ [] }
        ensures seen { self.new.seen ≡ 0 }
    {
        self.whole = None;
        self.steps.clear();
        self.seen = 0;
        self.counts = Counts::default();
    }

    /// The talker's next frame is under way.
    fn lead(&mut self, event: Event) -> Result<(), Breach>
        requires cleared { (self.old.whole ≡ None) × (self.old.steps.items ≡ []) × (self.old.seen ≡ 0) }
        ensures stands { (bs : List ThisParty) → (done : List Seen) → JudgeStands bs self.old done → OnOk result (JudgeStands bs self.new done) }
        ensures busy { OnOk result (IsBusy self.new) }
    {
        let Some(next) = offer(&self.point) else {
            return Err(breach_of(event, Cause::Far));
        };
        let mut list = Steps::new();
        let made = steps_of(&self.point, &next, &mut list);
        match (fits(&self.point, &next), made) {
            (Ok(()), Ok(())) => {
                self.steps = list;
                self.whole = Some(next);
                Ok(())
            }
            _ => Err(breach_of(event, Cause::Far)),
        }
    }
}

/// Whether a frame of the talker follows a piece.
fn goes_on_talking(whole: &Whole) -> bool
    ensures { result ≡ false → JudgeRests (whole_of whole.now) }
{
    match whole {
        Whole::ToTalker { .. } => true,
        Whole::Talk { frame, .. } => !frame.is_last(),
        _ => false,
    }
}
