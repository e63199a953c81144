//! Changes of a host played one at a time.

use crate::bus::Bus;
use crate::drives::Answer;
use crate::fault::PlayFault;
use crate::half::Half;
use cbm_iec::{Change, Event, Machine, Who};
use std::marker::Model;

/// Plays a host's changes on a bus one at a time, and gives the events one by one; it takes no memory.
///
/// A change is offered, and `next` is asked for events up to a moment: the reactions that are due before the change, the
/// change itself, and what comes of it. What a call promises of the states that the machines represent holds if none of them
/// failed in it (`Unfailed`).
#[derive(Drop)]
pub struct Player {
    waiting: Option<Change>,
    second: Option<Event>,
    from: u64,
    taken: usize,
}

impl Model for Player {
    ghost use Rattle.std.specs.Prelude.{◌≤◌, ◌^◌};
    ghost use Rattle.cbm_drive.specs.Players.{Turns, IsWaitingFrom, IsGivenBefore};

    ghost Value = { Turns };

    ghost view = { λ p. record { waiting = p.waiting; second = p.second; from = p.from; taken = p.taken } };

    ghost invariant = { λ p. IsWaitingFrom p.from p.waiting × (p.from ≤ 2 ^ 59) × IsGivenBefore p.from p.second };
}

impl Player {
    ghost use Rattle.std.specs.Prelude.{◌≡◌, ◌+◌, ◌<◌, ◌≤◌, ◌^◌, ℕ, List, is_some, ◌&&◌, None, Some, Ok, Err, IfSome, IsSome};
    ghost use Rattle.cbm_session.specs.Playing.{at_rest, IsKept};
    ghost use Rattle.cbm_session.specs.Sessions.{IsBus};
    ghost use Rattle.cbm_session.specs.Timing.{HostKeeps};
    ghost use Rattle.cbm_iec.specs.declared.party.Party.{Party};
    ghost use Rattle.cbm_drive.specs.Halves.{has_nothing, half_alone, IsHalfEvent};
    ghost use Rattle.cbm_drive.specs.Reactions.{AreAtMoment};
    ghost use Rattle.cbm_drive.specs.Seats.{AreLater, AreCarried};
    ghost use Rattle.cbm_drive.specs.Players.{at_start, change_taken, nothing_left, IsTurnTo, IsDrivesTurn, IsHostDone, IsNextEvent, IsLastEvent, IsWaitingFrom, IsAfter};
    ghost use Rattle.cbm_drive.specs.Turning.{NextIsGiven, OneIsGiven, LastIsGiven, HalfIsGiven, IsFirstGiven};
    ghost use Rattle.cbm_drive.specs.declared.fault.PlayFault.TheVariants.{Backwards};

    /// Before the first change.
    pub fn new() -> Player
        ensures { result ≡ at_start }
    {
        Player {
            waiting: None,
            second: None,
            from: 0,
            taken: 0,
        }
    }

    /// Whether a change is pending.
    pub fn waits(&self) -> bool
        ensures { result ≡ is_some self.now.waiting }
    {
        self.waiting.is_some()
    }

    /// Takes the host's next change. Error: it comes before the last one, or not after the last reaction that was given; the
    /// fault has the number of changes that were taken, and the player is as it was.
    pub fn offer(&mut self, change: Change) -> Result<(), PlayFault>
        requires none { self.old.waiting ≡ None }
        requires moment { change.moment < 2 ^ 59 }
        ensures fault { change.moment < self.old.from →
            (result ≡ Err (Backwards self.old.taken)) × (self.new ≡ self.old) }
        ensures taken { self.old.from ≤ change.moment → (result ≡ Ok tt) × (self.new ≡ change_taken change self.old) }
    {
        if change.moment < self.from {
            return Err(PlayFault::Backwards(self.taken));
        }
        self.take(change);
        Ok(())
    }

    /// As `offer`, of a change that comes in order.
    #[inline(always)]
    pub(crate) fn take(&mut self, change: Change)
        requires from { self.old.from ≤ change.moment }
        requires moment { change.moment < 2 ^ 59 }
        ensures { self.new ≡ change_taken change self.old }
    {
        self.waiting = Some(change);
        self.taken = self.taken.saturating_add(1);
    }

    /// The event that is still to be given.
    #[inline(always)]
    pub(crate) fn second(&mut self) -> Option<Event>
        ensures event { result ≡ self.old.second }
        ensures player { self.new ≡ nothing_left self.old }
    {
        self.second.take()
    }

    /// The next event at a moment or before it. A change pending for that moment or before comes, before reactions of its own
    /// moment, or a drive's comes before it. None if none comes by then, and then the player and the drives are as they were.
    #[inline(always)]
    pub fn next<D: Machine, const N: usize>(
        &mut self,
        bus: &mut Bus<D, N>,
        upto: u64,
    ) -> Option<Event>
        requires { upto < 2 ^ 59 }
        ensures gives { NextIsGiven _ D.State D.stands D.step D.says D.failures D.shows N self.old self.new bus.old bus.new upto
            result }
        ensures event { IsNextEvent self.old self.new bus.old bus.new (upto + 1) result }
        ensures comes { IfSome self.old.waiting (λ c. c.moment ≤ upto → IsSome result) }
        ensures carried { AreCarried D.lasting D.failures bus.old.drives bus.new.drives }
    {
        if let Some(event) = self.second {
            if event.change.moment > upto {
                return None;
            }
            self.second = None;
            return Some(event);
        }
        match self.waiting {
            Some(change) if change.moment <= upto => self.turn(bus, change),
            _ => self.reaction(bus, upto),
        }
    }

    /// The quick way of `next` if a drive alone on the bus says half of a bit, up to a moment, and no change is pending: its changes
    /// come at once, CLOCK's and then DATA's, if that changes. None if anything else comes, or nothing, and then the
    /// player and the drive are as they were.
    #[inline(always)]
    pub fn half<D: Machine, const N: usize>(
        &mut self,
        bus: &mut Bus<D, N>,
        upto: u64,
    ) -> Option<Half>
        requires { upto < 2 ^ 59 }
        ensures comes { is_some result ≡ (has_nothing self.old && half_alone (upto + 1) bus.old.drives) }
        ensures gives { HalfIsGiven _ D.State D.stands D.step D.says D.shows self.old self.new bus.old bus.new result }
        ensures half { IsHalfEvent self.old self.new bus.old bus.new upto result }
        ensures carried { AreCarried D.lasting D.failures bus.old.drives bus.new.drives }
    {
        if self.waiting.is_some() || self.second.is_some() {
            return None;
        }
        let half = bus.half(upto + 1)?;
        self.from = half.moment + 1;
        Some(half)
    }

    /// The next event up to a moment, as `next` gives it, at the end: if no other comes by then, the reactions that change no
    /// line happen too, so that nothing is due any more. The host changes nothing more up to that moment.
    pub fn finish<D: Machine, const N: usize>(
        &mut self,
        bus: &mut Bus<D, N>,
        upto: u64,
    ) -> Option<Event>
        requires done { IsHostDone self.old (upto + 1) }
        requires upto { upto < 2 ^ 59 }
        ensures gives { LastIsGiven _ D.State D.stands D.step D.says D.failures D.shows N self.old self.new bus.old bus.new upto
            result }
        ensures event { IsLastEvent self.old self.new bus.old bus.new (upto + 1) result }
        ensures carried { AreCarried D.lasting D.failures bus.old.drives bus.new.drives }
    {
        if let Some(event) = self.second.take() {
            return Some(event);
        }
        match bus.first_shown(upto + 1) {
            Some((moment, answer)) => self.give(moment, &answer),
            None => {
                self.from = upto + 1;
                None
            }
        }
    }

    /// A law, and nothing is done: if the drives were at rest and the host keeps the bus's timing, the events that were
    /// given are, up to any moment before the next reaction is due, a beginning of a session in which each byte talked is
    /// the machine's answer, and no reaction is late.
    pub fn keeps<D: Machine, const N: usize>(&self, bus: &Bus<D, N>)
        ensures { (bs : List Party) (ms : ℕ → D.State) (es : List Event) (end : ℕ) → IsBus bs → self.now.second ≡ None →
            (a : IsAfter _ D.State D.stands D.step D.says self.now bus.now 0 (at_rest D.State D.step D.says ms bs) es) →
            AreLater end bus.now.drives → HostKeeps bs es end → IsKept D.State D.step D.says bs ms es end a.stations }
    {}

    /// The pending change, or what a drive shows before it.
    #[inline(always)]
    fn turn<D: Machine, const N: usize>(
        &mut self,
        bus: &mut Bus<D, N>,
        change: Change,
    ) -> Option<Event>
        requires { IsTurnTo self.old change }
        ensures gives { OneIsGiven _ D.State D.stands D.step D.says D.failures D.shows N self.old self.new bus.old bus.new change.moment
            result }
        ensures event { IsNextEvent self.old self.new bus.old bus.new change.moment result }
        ensures comes { IsSome result }
        ensures carried { AreCarried D.lasting D.failures bus.old.drives bus.new.drives }
    {
        if let Some((moment, answer)) = bus.first_shown(change.moment) {
            return self.give(moment, &answer);
        }
        bus.line(change);
        self.waiting = None;
        self.from = change.moment;
        Some(Event {
            who: Who::Host,
            change,
        })
    }

    /// What a drive shows at a moment or before it, if no change is pending up to there.
    #[inline(always)]
    fn reaction<D: Machine, const N: usize>(
        &mut self,
        bus: &mut Bus<D, N>,
        upto: u64,
    ) -> Option<Event>
        requires turn { IsDrivesTurn self.old (upto + 1) }
        requires upto { upto < 2 ^ 59 }
        ensures gives { NextIsGiven _ D.State D.stands D.step D.says D.failures D.shows N self.old self.new bus.old bus.new upto
            result }
        ensures event { IsNextEvent self.old self.new bus.old bus.new (upto + 1) result }
        ensures carried { AreCarried D.lasting D.failures bus.old.drives bus.new.drives }
    {
        if !bus.shows_before(upto + 1) {
            return None;
        }
        let (moment, answer) = bus.first_shown(upto + 1)?;
        self.give(moment, &answer)
    }

    /// The first change of a reaction; the second one is still to be given.
    #[inline(always)]
    fn give(&mut self, moment: u64, answer: &Answer) -> Option<Event>
        requires second { self.old.second ≡ None }
        requires waiting { IsWaitingFrom (moment + 1) self.old.waiting }
        requires moment { moment < 2 ^ 59 }
        requires moments { AreAtMoment moment answer.now.changes.items }
        ensures { IsFirstGiven self.old self.new moment answer.now result }
    {
        let who = Who::Drive(answer.device);
        self.from = moment + 1;
        match answer.changes.as_slice() {
            [] => None,
            [change] => Some(Event {
                who,
                change: *change,
            }),
            [change, second, ..] => {
                self.second = Some(Event {
                    who,
                    change: *second,
                });
                Some(Event {
                    who,
                    change: *change,
                })
            }
        }
    }
}
