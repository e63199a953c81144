//! An event with the act that counts with it, and the joining of lists of them.

ghost use Rattle.std.specs.Prelude.{◌≡◌, ◌++◌, ◌∷◌, [], ◌+◌, IfOk, OnOk, length};
ghost use Rattle.cbm_session.specs.Steps as spec;
ghost use Rattle.bus_judge.specs.Views.{step_mark, step_of, steps_shown};

use arrayvec::ArrayVec;
use cbm_iec::{Act, Change, Event, Line, Way, Who};

/// Which act counts with an event, and for whom.
#[derive(Clone, Copy, Debug, Default, PartialEq, Eq, Drop)]
pub enum Mark {
    /// None.
    #[default]
    Plain,
    /// This act for each drive.
    ForEach(Act),
    /// This act for the drive with that device number.
    For(u8, Act),
}

/// An event, and the act that counts with it.
#[derive(Clone, Copy, Debug, PartialEq, Eq, Drop)]
pub struct Step {
    /// What is seen on the wires.
    pub event: Event,
    /// What counts with it.
    pub mark: Mark,
}

/// A change of the host at moment 0: the blank of a list of steps.
impl Default for Step {
    fn default() -> Step {
        Step::host(0, Line::Atn, Way::Pull)
    }
}

/// The greatest number of events of a piece.
pub const MOST: usize = 48;

/// Why the steps of a piece aren't made: there are more than a piece has, or a moment is too great.
#[derive(Clone, Copy, Debug, PartialEq, Eq, Drop)]
pub enum Unmade {
    Full,
    Far,
}

/// The steps of a piece, or of a part of it.
pub type Steps = ArrayVec<Step, MOST>;

impl Step {
    fn plain(who: Who, moment: u64, line: Line, way: Way) -> Step
        ensures { step_of result ≡ record { event = spec.event_of who moment line way; mark = spec.Plain } }
    {
        Step {
            event: Event {
                who,
                change: Change { moment, line, way },
            },
            mark: Mark::Plain,
        }
    }

    /// A change of the host.
    pub fn host(moment: u64, line: Line, way: Way) -> Step
        ensures { step_of result ≡ spec.host moment line way }
    {
        Step::plain(Who::Host, moment, line, way)
    }

    /// A change of the drive with a device number.
    pub fn drive(device: u8, moment: u64, line: Line, way: Way) -> Step
        ensures { step_of result ≡ spec.drive device moment line way }
    {
        Step::plain(Who::Drive(device), moment, line, way)
    }

    /// The same, and with it an act counts for each drive.
    pub fn for_each(self, act: Act) -> Step
        ensures { step_of result ≡ spec.for_each act (step_of self) }
    {
        Step {
            event: self.event,
            mark: Mark::ForEach(act),
        }
    }

    /// The same, and with it an act counts for one drive.
    pub fn for_one(self, device: u8, act: Act) -> Step
        ensures { step_of result ≡ spec.for_one device act (step_of self) }
    {
        Step {
            event: self.event,
            mark: Mark::For(device, act),
        }
    }

    /// When it is, in microseconds.
    pub fn moment(&self) -> u64
        ensures { result ≡ spec.moment_of (step_of self.now) }
    {
        self.event.change.moment
    }
}

/// A later moment.
pub fn later(moment: u64, wait: u64) -> Result<u64, Unmade>
    ensures { IfOk result (λ t. t ≡ moment + wait) }
{
    match moment.checked_add(wait) {
        Some(sum) => Ok(sum),
        None => Err(Unmade::Far),
    }
}

/// Adds a step.
pub fn put(steps: &mut Steps, step: Step) -> Result<(), Unmade>
    ensures { OnOk result (steps_shown steps.new.items ≡ steps_shown steps.old.items ++ step_of step ∷ []) }
{
    match steps.try_push(step) {
        Ok(()) => Ok(()),
        Err(_) => Err(Unmade::Full),
    }
}

/// Adds steps.
pub fn put_all(steps: &mut Steps, more: &[Step]) -> Result<(), Unmade>
    ensures { OnOk result (steps_shown steps.new.items ≡ steps_shown steps.old.items ++ steps_shown more.now) }
{
    match steps.try_extend_from_slice(more) {
        Ok(()) => Ok(()),
        Err(_) => Err(Unmade::Full),
    }
}

/// Joins two lists of steps by moments, after what is in a third: at one moment the first list's come before the
/// second's.
pub fn join(first: &[Step], second: &[Step], joined: &mut Steps) -> Result<(), Unmade>
    ensures { OnOk result (steps_shown joined.new.items ≡ steps_shown joined.old.items ++ spec.merge (steps_shown first.now) (steps_shown second.now)) }
{
    match (first, second) {
        ([], _) => put_all(joined, second),
        ([step, rest @ ..], []) => {
            put(joined, *step)?;
            join(rest, second, joined)
        }
        ([step, rest @ ..], [other, ..]) if step.moment() <= other.moment() => {
            put(joined, *step)?;
            join(rest, second, joined)
        }
        (_, [other, rest @ ..]) => {
            put(joined, *other)?;
            join(first, rest, joined)
        }
    }
}
