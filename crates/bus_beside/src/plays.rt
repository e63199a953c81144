//! Two plays side by side, under the host as it is and under a tidy one.

ghost use Rattle.std.specs.Prelude.{◌≡◌, true};

use crate::amiss::Amiss;
use crate::answer::Answer;
use crate::drives::{LIMIT, all_from, all_later, first_due, go_each, react};
use crate::moves::Move;
use crate::seat::Seat;
use cbm_iec::{Change, Machine};
use std::marker::Model;

/// How many reactions that show nothing may come one after the other: drives have none to make that often.
pub(crate) const MOST: u8 = 100;

/// The same change.
fn same_change(one: Change, other: Change) -> bool
    ensures { result ≡ true → one ≡ other }
{
    one == other
}

/// Drives under both hosts, and for each host a moment before which it changes nothing more.
#[derive(Drop)]
pub(crate) struct Plays<D: Machine, const N: usize> {
    seats: [Seat<D>; N],
    from: u64,
    tidy_from: u64,
}

impl<D: Machine, const N: usize> Model for Plays<D, N> {
    ghost use Rattle.bus_beside.specs.Courses.{Course};

    ghost Value = { Course D };

    ghost view = { λ p. record { seats = p.seats; from = p.from; tidy_from = p.tidy_from } };
}

impl<D: Machine, const N: usize> Plays<D, N> {
    ghost use Rattle.std.specs.Prelude.{◌≡◌, true, [], ◌∷◌, if◌then◌else◌, IfOk, IfSome};
    ghost use Rattle.cbm_session.specs.Playing.{host_event, drive_events};
    ghost use Rattle.bus_beside.specs.Courses.{events_shown, host_events, HaveCome, GoOnBeside, EndsBeside};
    ghost use Rattle.bus_beside.specs.Seats.{GoesUnfailed};

    /// Drives that are switched on.
    pub(crate) fn new(seats: [Seat<D>; N]) -> Plays<D, N>
        ensures seats { result.seats ≡ seats }
        ensures from { result.from ≡ 0 }
        ensures tidy_from { result.tidy_from ≡ 0 }
    {
        Plays {
            seats,
            from: 0,
            tidy_from: 0,
        }
    }

    /// A change comes so, if it may and nothing is due before it.
    fn come(&mut self, go: Move, change: Change) -> bool
        ensures come { result ≡ true → GoesUnfailed D.failures self.old.seats self.new.seats (HaveCome _ D.State D.stands D.step D.says go change self.old.seats self.new.seats) }
        ensures from { self.new.from ≡ self.old.from }
        ensures tidy_from { self.new.tidy_from ≡ self.old.tidy_from }
    {
        if change.moment >= LIMIT || !all_from(self.seats.as_slice(), change.moment) {
            return false;
        }
        go_each(self.seats.as_mut_slice(), go, change)
    }

    /// Both hosts make a change.
    fn both(&mut self, change: Change) -> bool
        ensures { result ≡ true → GoOnBeside _ D.State D.stands D.step D.says D.failures self.old self.new (host_event change ∷ []) (host_event change ∷ []) }
    {
        if change.moment < self.from || change.moment < self.tidy_from {
            return false;
        }
        if !self.come(Move::Both, change) {
            return false;
        }
        self.from = change.moment;
        self.tidy_from = change.moment;
        true
    }

    /// The host as it is makes a change alone.
    fn strays(&mut self, change: Change) -> bool
        ensures { result ≡ true → GoOnBeside _ D.State D.stands D.step D.says D.failures self.old self.new (host_event change ∷ []) [] }
    {
        if change.moment < self.from || !self.come(Move::Strays, change) {
            return false;
        }
        self.from = change.moment;
        true
    }

    /// The tidy host makes a change alone.
    fn tidies(&mut self, change: Change) -> bool
        ensures { result ≡ true → GoOnBeside _ D.State D.stands D.step D.says D.failures self.old self.new [] (host_event change ∷ []) }
    {
        if change.moment < self.tidy_from || !self.come(Move::Tidies, change) {
            return false;
        }
        self.tidy_from = change.moment;
        true
    }

    /// The reaction of the drive at a place, which is due first.
    fn react(&mut self, place: usize, moment: u64) -> Option<Answer>
        ensures { IfSome result (λ a. GoOnBeside _ D.State D.stands D.step D.says D.failures self.old self.new (drive_events a.device a.changes.items) (drive_events a.device a.changes.items)) }
    {
        if moment >= LIMIT {
            return None;
        }
        let answer = react(self.seats.as_mut_slice(), place, moment)?;
        self.from = moment + 1;
        self.tidy_from = moment + 1;
        Some(answer)
    }

    /// The first reaction before a limit that shows something; those before it, which show nothing, happen.
    pub(crate) fn next_shown(&mut self, limit: u64, fuel: u8) -> Result<Option<Answer>, Amiss>
        ensures { IfOk result (λ o. GoOnBeside _ D.State D.stands D.step D.says D.failures self.old self.new (events_shown o) (events_shown o)) }
    {
        let Some((place, moment)) = first_due(self.seats.as_slice()) else {
            return Ok(None);
        };
        if moment >= limit {
            return Ok(None);
        }
        let Some(answer) = self.react(place, moment) else {
            return Err(Amiss::Drive);
        };
        if !answer.changes.is_empty() {
            return Ok(Some(answer));
        }
        if fuel == 0 {
            return Err(Amiss::Drive);
        }
        self.next_shown(limit, fuel - 1)
    }

    /// What is due before a limit happens. It shows nothing, or this is false.
    fn settle(&mut self, limit: u64) -> bool
        ensures { result ≡ true → GoOnBeside _ D.State D.stands D.step D.says D.failures self.old self.new [] [] }
    {
        match self.next_shown(limit, MOST) {
            Ok(None) => true,
            _ => false,
        }
    }

    /// The host as it is makes a change, or has made it already, and the tidy one these. What both make comes at once.
    pub(crate) fn host(&mut self, change: Change, tidied: &[Change], is_made: bool) -> bool
        ensures { result ≡ true → GoOnBeside _ D.State D.stands D.step D.says D.failures self.old self.new (if is_made then [] else (host_event change ∷ [])) (host_events tidied.now) }
    {
        let Some((first, rest)) = tidied.split_first() else {
            return is_made || self.late(change);
        };
        if !self.settle(first.moment) {
            return false;
        }
        if !is_made && same_change(*first, change) {
            if !self.both(change) {
                return false;
            }
            return self.host(change, rest, true);
        }
        if !self.tidies(*first) {
            return false;
        }
        self.host(change, rest, is_made)
    }

    /// The host as it is makes a change alone, once what is due before it has happened.
    fn late(&mut self, change: Change) -> bool
        ensures { result ≡ true → GoOnBeside _ D.State D.stands D.step D.says D.failures self.old self.new (host_event change ∷ []) [] }
    {
        if !self.settle(change.moment) {
            return false;
        }
        self.strays(change)
    }

    /// All is over up to a moment.
    pub(crate) fn end(&mut self, moment: u64) -> bool
        ensures { result ≡ true → EndsBeside _ D.State D.stands D.step D.says D.failures self.old self.new moment }
    {
        if moment >= LIMIT || !self.settle(moment + 1) || self.from > moment + 1 {
            return false;
        }
        all_later(self.seats.as_slice(), moment)
    }
}
