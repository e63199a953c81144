//! Another piece in place of the one under way, or the next one: of which the event is the next step.

ghost use Rattle.std.specs.Prelude.{◌≡◌, List, Some, IfOk, OnOk, OnErr};
ghost use Rattle.cbm_iec.specs.declared.party.Party.{Party as ThisParty};
ghost use Rattle.cbm_session.specs.Steps.{Step as Seen};
ghost use Rattle.bus_judge.specs.Judging.{JudgeStands, IsBusy, Awaits};

use crate::breach::{Breach, Cause};
use crate::fits::cut_fits;
use crate::guess::{beginning, guesses};
use crate::judge::Judge;
use crate::judge::refusal::{breach_of, told};
use crate::step::{Mark, Steps};
use crate::trying::{is_cut, tried};
use crate::whole::Whole;
use cbm_iec::{Event, Line, Way};

impl Judge {
    /// The event isn't the next step of the piece that was guessed: finds one of which it is.
    pub(crate) fn otherwise(&mut self, event: Event) -> Result<Mark, Breach>
        ensures stands { (bs : List ThisParty) → (done : List Seen) → JudgeStands bs self.old done → OnOk result (JudgeStands bs self.new done) }
        ensures awaits { IfOk result (λ mark. Awaits self.new event mark) }
        ensures busy { OnOk result (IsBusy self.new) }
    {
        let Some(whole) = self.whole else {
            return self.begin(event);
        };
        let [first, second] = guesses(&self.point, &whole, self.counts, event);
        let cause = match self.adopt(&first, event) {
            Ok(mark) => return Ok(mark),
            Err(cause) => cause,
        };
        let other = match self.adopt(&second, event) {
            Ok(mark) => return Ok(mark),
            Err(other) => other,
        };
        if self.seen >= self.steps.len() {
            return match self.pass(&whole) {
                Ok(()) => self.begin(event),
                Err(_) => Err(breach_of(event, Cause::Far)),
            };
        }
        if event.change.line == Line::Atn && event.change.way == Way::Pull && whole.is_talk() {
            return self.cut(&whole, event);
        }
        let cause = if cause == Cause::Unasked {
            other
        } else {
            cause
        };
        Err(self.refused(&whole, event, cause))
    }

    /// Takes a guess in place of the piece under way, if it fits, and its steps are those that were seen and then the
    /// event.
    fn adopt(&mut self, guess: &Option<Whole>, event: Event) -> Result<Mark, Cause>
        ensures stands { (bs : List ThisParty) → (done : List Seen) → JudgeStands bs self.old done → OnOk result (JudgeStands bs self.new done) }
        ensures awaits { IfOk result (λ mark. Awaits self.new event mark) }
        ensures busy { OnOk result (IsBusy self.new) }
        ensures unchanged { OnErr result (self.new ≡ self.old) }
    {
        let Some(whole) = guess else {
            return Err(Cause::Unasked);
        };
        let Some(seen) = self.steps.get(..self.seen) else {
            return Err(Cause::Unasked);
        };
        let mut list = Steps::new();
        let mark = tried(&self.point, whole, seen, event, &mut list)?;
        self.steps = list;
        self.whole = Some(*whole);
        Ok(mark)
    }

    /// A piece begins with the event.
    fn begin(&mut self, event: Event) -> Result<Mark, Breach>
        ensures stands { (bs : List ThisParty) → (done : List Seen) → JudgeStands bs self.old done → OnOk result (JudgeStands bs self.new done) }
        ensures awaits { IfOk result (λ mark. Awaits self.new event mark) }
        ensures busy { OnOk result (IsBusy self.new) }
    {
        let guess = beginning(&self.point, event);
        match self.adopt(&guess, event) {
            Ok(mark) => Ok(mark),
            Err(cause) => Err(breach_of(event, told(cause))),
        }
    }

    /// ATN's pull cuts the piece under way.
    fn cut(&mut self, whole: &Whole, event: Event) -> Result<Mark, Breach>
        requires { self.old.whole ≡ Some whole.now }
        ensures stands { (bs : List ThisParty) → (done : List Seen) → JudgeStands bs self.old done → OnOk result (JudgeStands bs self.new done) }
        ensures awaits { IfOk result (λ mark. Awaits self.new event mark) }
        ensures busy { OnOk result (IsBusy self.new) }
    {
        let cut = event.change.moment;
        if !is_cut(&self.steps, self.seen, cut) {
            return Err(breach_of(event, Cause::Unasked));
        }
        if let Err(cause) = cut_fits(&self.point, whole, &self.steps, cut) {
            return Err(breach_of(event, told(cause)));
        }
        match self.point.after_cut(whole, cut) {
            Ok(point) => {
                self.point = point;
                self.clear();
                self.begin(event)
            }
            Err(_) => Err(breach_of(event, Cause::Far)),
        }
    }
}
