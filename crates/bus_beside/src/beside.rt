//! Whether the trace of a host lies beside that of a tidy one.

ghost use Rattle.std.specs.Prelude.{◌≡◌, ◌∷◌, true, IfSome};
ghost use Rattle.cbm_session.specs.Playing.{drive_events};
ghost use Rattle.bus_beside.specs.Courses.{pending_event};

use crate::amiss::Amiss;
use crate::answer::Answer;
use crate::drives::LIMIT;
use crate::plays::{MOST, Plays};
use crate::seat::Seat;
use cbm_iec::{Change, Event, Machine, Who};
use std::marker::Model;

/// Looks at a trace event by event, beside that of a tidy host with the same drives: whether each change of the one that
/// the other lacks, or has elsewhere, is one that no drive heeds.
#[derive(Drop)]
pub struct Beside<D: Machine, const N: usize> {
    plays: Plays<D, N>,
    /// An event that a drive showed with the last one.
    second: Option<Event>,
}

impl<D: Machine, const N: usize> Model for Beside<D, N> {
    ghost use Rattle.bus_beside.specs.Courses.{Sides};

    ghost Value = { Sides D };

    ghost view = { λ b. record { course = b.plays; second = b.second } };
}

/// The events of an answer: the first one, and the second, if there is one.
fn events_of(answer: &Answer) -> Option<(Event, Option<Event>)>
    ensures { IfSome result (λ r. drive_events answer.now.device answer.now.changes.items ≡ r.0 ∷ pending_event r.1) }
{
    let who = Who::Drive(answer.device);
    match answer.changes.as_slice() {
        [] => None,
        [change] => Some((
            Event {
                who,
                change: *change,
            },
            None,
        )),
        [change, second, ..] => {
            let second = Event {
                who,
                change: *second,
            };
            Some((
                Event {
                    who,
                    change: *change,
                },
                Some(second),
            ))
        }
    }
}

/// The same event.
fn same_event(one: Event, other: Event) -> bool
    ensures { result ≡ true → one ≡ other }
{
    one == other
}

impl<D: Machine, const N: usize> Beside<D, N> {
    ghost use Rattle.std.specs.Prelude.{◌≡◌, ℕ, List, [], ◌∷◌, Some, None, OnOk};
    ghost use Rattle.cbm_iec.specs.declared.event.Event.{Event as ThisEvent};
    ghost use Rattle.cbm_iec.specs.declared.party.Party.{Party};
    ghost use Rattle.cbm_session.specs.Playing.{host_event};
    ghost use Rattle.bus_beside.specs.Courses.{AreSwitchedOn, HaveSeen, SeesOn, LiesBeside, host_events};
    ghost use Rattle.bus_beside.specs.Seats.{failed_in_all};

    /// Drives that are switched on, in the order in which they answer at equal moments. Nothing was seen.
    pub fn new(seats: [Seat<D>; N]) -> Beside<D, N>
        ensures { (bs : List Party) (ms : ℕ → D.State) → AreSwitchedOn _ D.State D.stands D.step D.says seats bs ms →
            HaveSeen _ D.State D.stands D.step D.says D.failures (failed_in_all D.failures seats) bs ms result [] [] }
    {
        Beside {
            plays: Plays::new(seats),
            second: None,
        }
    }

    /// The host's next change in the trace, and the tidy host's changes that come with it. What both make is made at once.
    pub fn host(&mut self, change: Change, tidied: &[Change]) -> Result<(), Amiss>
        ensures { OnOk result (SeesOn _ D.State D.stands D.step D.says D.failures self.old self.new (host_event change ∷ []) (host_events tidied.now)) }
    {
        if self.second.is_some() {
            return Err(Amiss::Event);
        }
        if !self.plays.host(change, tidied, false) {
            return Err(Amiss::Host);
        }
        Ok(())
    }

    /// A drive's next change in both traces.
    pub fn drive(&mut self, event: Event) -> Result<(), Amiss>
        ensures { OnOk result (SeesOn _ D.State D.stands D.step D.says D.failures self.old self.new (event ∷ []) (event ∷ [])) }
    {
        match self.second {
            Some(second) => self.second(event, second),
            None => self.first(event),
        }
    }

    /// The event that is pending.
    fn second(&mut self, event: Event, second: Event) -> Result<(), Amiss>
        requires { self.old.second ≡ Some second }
        ensures { OnOk result (SeesOn _ D.State D.stands D.step D.says D.failures self.old self.new (event ∷ []) (event ∷ [])) }
    {
        if !same_event(second, event) {
            return Err(Amiss::Event);
        }
        self.second = None;
        Ok(())
    }

    /// An event that a reaction begins with.
    fn first(&mut self, event: Event) -> Result<(), Amiss>
        requires { self.old.second ≡ None }
        ensures { OnOk result (SeesOn _ D.State D.stands D.step D.says D.failures self.old self.new (event ∷ []) (event ∷ [])) }
    {
        if event.change.moment >= LIMIT {
            return Err(Amiss::Event);
        }
        let Some(answer) = self.plays.next_shown(event.change.moment + 1, MOST)? else {
            return Err(Amiss::Event);
        };
        let Some((first, second)) = events_of(&answer) else {
            return Err(Amiss::Event);
        };
        if !same_event(first, event) {
            return Err(Amiss::Event);
        }
        self.second = second;
        Ok(())
    }

    /// Both traces end at a moment: nothing more came up to it. So the one lies beside the other.
    pub fn end(&mut self, moment: u64) -> Result<(), Amiss>
        ensures { OnOk result (LiesBeside _ D.State D.stands D.step D.says D.failures self.old self.new moment) }
    {
        if self.second.is_some() || !self.plays.end(moment) {
            return Err(Amiss::Event);
        }
        Ok(())
    }
}
