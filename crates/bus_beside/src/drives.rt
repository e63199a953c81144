//! All drives under both hosts.

ghost use Rattle.std.specs.Prelude.{◌≡◌, ◌<◌, ◌≤◌, ◌^◌, List, IfSome, true};
ghost use Rattle.cbm_session.specs.Playing.{Station};
ghost use Rattle.bus_beside.specs.Moves.{HaveGone};
ghost use Rattle.bus_beside.specs.Reactions.{HaveAllHeard, HaveNothingBefore, HaveNothingUpto, HaveReacted};
ghost use Rattle.bus_beside.specs.Seats.{Sit, GoesUnfailed};

use crate::answer::Answer;
use crate::moves::Move;
use crate::seat::Seat;
use cbm_iec::{Change, Machine};

/// Moments from here on are refused: 2^58 microseconds.
pub(crate) const LIMIT: u64 = 1 << 58;

/// A change comes so for each of these drives, if it may.
pub(crate) fn go_each<D: Machine>(seats: &mut [Seat<D>], go: Move, change: Change) -> bool
    requires { change.moment < 2 ^ 60 }
    ensures { result ≡ true → GoesUnfailed D.failures seats.old seats.new (HaveGone _ D.State D.stands D.step D.says go change seats.old seats.new) }
{
    let Some((first, rest)) = seats.split_first_mut() else {
        return true;
    };
    first.go(go, change) && go_each(rest, go, change)
}

/// Each of these drives hears another one's changes.
pub(crate) fn hear_each<D: Machine>(seats: &mut [Seat<D>], changes: &[Change]) -> bool
    ensures { result ≡ true → GoesUnfailed D.failures seats.old seats.new (HaveAllHeard _ D.State D.stands D.step D.says changes.now seats.old seats.new) }
{
    let Some((change, more)) = changes.split_first() else {
        return true;
    };
    if change.moment >= LIMIT {
        return false;
    }
    go_each(seats, Move::Hears, *change) && hear_each(seats, more)
}

/// Nothing is due to these drives before a moment.
pub(crate) fn all_from<D: Machine>(seats: &[Seat<D>], moment: u64) -> bool
    ensures { result ≡ true → HaveNothingBefore _ D.State D.stands D.step D.says moment seats.now }
{
    match seats.split_first() {
        Some((first, rest)) => first.is_from(moment) && all_from(rest, moment),
        None => true,
    }
}

/// Nothing is due to these drives at a moment or before it.
pub(crate) fn all_later<D: Machine>(seats: &[Seat<D>], moment: u64) -> bool
    ensures { result ≡ true → HaveNothingUpto _ D.State D.stands D.step D.says moment seats.now }
{
    match seats.split_first() {
        Some((first, rest)) => first.is_later(moment) && all_later(rest, moment),
        None => true,
    }
}

/// The drive whose reaction is due first, by its place, and when: of several at one moment the one that is listed first.
pub(crate) fn first_due<D: Machine>(seats: &[Seat<D>]) -> Option<(usize, u64)> {
    let mut first = None;
    for (place, seat) in seats.iter().enumerate() {
        first = match (first, seat.next_due()) {
            (Some((_, before)), Some(moment)) if moment < before => Some((place, moment)),
            (None, Some(moment)) => Some((place, moment)),
            _ => first,
        };
    }
    first
}

/// The reaction of the drive at a place, which is due at a moment and is the first of all: it shows the same under both
/// hosts, and the others hear it.
pub(crate) fn react<D: Machine>(seats: &mut [Seat<D>], place: usize, moment: u64) -> Option<Answer>
    requires { moment < 2 ^ 60 }
    ensures { IfSome result (λ a. GoesUnfailed D.failures seats.old seats.new ((ss ts : List (Station D.State)) → Sit _ D.State D.stands seats.old ss ts
        → HaveReacted _ D.State D.stands D.step D.says moment a.device a.changes.items seats.new ss ts)) }
{
    if place >= seats.len() {
        return None;
    }
    let (front, rest) = seats.split_at_mut(place);
    let (seat, back) = rest.split_first_mut()?;
    if !all_later(front, moment) || !all_from(back, moment) {
        return None;
    }
    let answer = seat.react(moment)?;
    if hear_each(front, &answer.changes) && hear_each(back, &answer.changes) {
        return Some(answer);
    }
    None
}
