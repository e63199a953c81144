//! What the drives on a cable do: they see changes, and one of them reacts.

ghost use Rattle.std.specs.Prelude.{◌≡◌, ◌↔◌, ◌+◌, ◌<◌, ◌≤◌, ◌^◌, true, List, [], ◌∷◌, ◌++◌, length, map, IfSome, IsSome, MatchOption};
ghost use Rattle.std.specs.List.{AllZip};
ghost use Rattle.cbm_iec.specs.Changes.{lines_after};
ghost use Rattle.cbm_drive.specs.Seats.{Seated, own_of, IsFirstDue, AreIdle, AreResting, AreCarried};
ghost use Rattle.cbm_drive.specs.Recorded.{IsToldBy};
ghost use Rattle.cbm_drive.specs.Turning.{TellsEach, OthersHear, OthersGoOn, ReactionIsMade, ChangeIsTold};
ghost use Rattle.cbm_drive.specs.Progress.{AreKept, IsNearer};
ghost use Rattle.cbm_drive.specs.Reactions.{AreAtMoment};

use crate::drive::Drive;
use crate::wires::Wires;
use arrayvec::ArrayVec;
use cbm_iec::{Change, Lines, Machine};

/// What a drive did if its reaction was due: at most one change of CLOCK, then one of DATA.
#[derive(Drop)]
pub struct Answer {
    /// The lines that it changed, in that order; none if it holds the same as before.
    pub changes: ArrayVec<Change, 2>,
    /// Its device number.
    pub device: u8,
}

/// Tells each of these drives that the others changed a line at this moment, and what is held now (`each`: whatever the
/// machines represent).
pub(crate) fn tell_each<D: Machine>(drives: &mut [Drive<D>], moment: u64, wires: &Wires)
    requires { moment < 2 ^ 60 }
    ensures told { TellsEach _ D.State D.stands D.step D.says D.failures moment wires.now drives.old drives.new }
    ensures own { map own_of drives.new ≡ map own_of drives.old }
    ensures kept { AreKept moment drives.old drives.new }
    ensures each { AllZip (λ x y. IsToldBy D.shows moment wires.now x y) drives.old drives.new }
    ensures carried { AreCarried D.lasting D.failures drives.old drives.new }
{
    let Some((first, rest)) = drives.split_first_mut() else {
        return;
    };
    let others = wires.without(first.own());
    first.line(moment, others);
    tell_each(rest, moment, wires);
}

/// The reaction that is due first among those before a drive and its own, which comes after theirs of the same moment.
#[inline(always)]
fn or_sooner<D: Machine>(
    first: Option<(usize, u64)>,
    place: usize,
    drive: &Drive<D>,
) -> Option<(usize, u64)>
    ensures bound { IfSome first (λ f. f.0 < place) → IfSome result (λ f. f.0 ≤ place) }
    ensures first { (xs : List (Seated D)) → place ≡ length xs → MatchOption first (AreIdle xs) (IsFirstDue xs) →
        MatchOption result (AreIdle (xs ++ drive.now ∷ [])) (IsFirstDue (xs ++ drive.now ∷ [])) }
{
    let Some(moment) = drive.next_due() else {
        return first;
    };
    match first {
        Some((_, before)) if before <= moment => first,
        _ => Some((place, moment)),
    }
}

/// The drive whose reaction is due first, by its place, and when: of several at one moment the one that is listed first.
#[inline(always)]
pub(crate) fn first_due<D: Machine>(drives: &[Drive<D>]) -> Option<(usize, u64)>
    ensures bound { IfSome result (λ f. f.0 < length drives.now) }
    ensures first { MatchOption result (AreIdle drives.now) (IsFirstDue drives.now) }
{
    let mut first = None;
    for (place, drive) in drives.iter().enumerate() {
        first = or_sooner(first, place, drive);
    }
    first
}

/// Whether each of these drives is as it was switched on.
pub(crate) fn all_rest<D: Machine>(drives: &[Drive<D>]) -> bool
    ensures { (result ≡ true) ↔ AreResting drives.now }
{
    match drives.split_first() {
        Some((first, rest)) => first.at_rest() && all_rest(rest),
        None => true,
    }
}

/// As `tell_each`, of drives of which there may be none: a drive alone on the cable has no other.
#[inline(always)]
fn tell_others<D: Machine>(drives: &mut [Drive<D>], moment: u64, wires: &Wires)
    requires { moment < 2 ^ 60 }
    ensures told { TellsEach _ D.State D.stands D.step D.says D.failures moment wires.now drives.old drives.new }
    ensures own { map own_of drives.new ≡ map own_of drives.old }
    ensures kept { AreKept moment drives.old drives.new }
    ensures carried { AreCarried D.lasting D.failures drives.old drives.new }
{
    if drives.is_empty() {
        return;
    }
    tell_each(drives, moment, wires);
}

/// The drives listed before and after one that changed these lines see each change.
fn hear_each<D: Machine>(
    front: &mut [Drive<D>],
    back: &mut [Drive<D>],
    wires: Wires,
    moment: u64,
    changes: &[Change],
)
    requires moment { moment < 2 ^ 60 }
    requires clocks { wires.clocks + length changes.now < 2 ^ 60 }
    requires datas { wires.datas + length changes.now < 2 ^ 60 }
    ensures heard { OthersHear _ D.State D.stands D.step D.says D.failures moment front.old back.old front.new back.new
        wires changes.now }
    ensures others { OthersGoOn D.lasting D.failures moment front.old back.old front.new back.new }
{
    let Some((change, more)) = changes.split_first() else {
        return;
    };
    let wires = wires.after(change.line, change.way);
    tell_others(front, moment, &wires);
    tell_others(back, moment, &wires);
    hear_each(front, back, wires, moment, more);
}

/// As `hear_each`, of drives of which there may be none: a drive alone on the cable has no other.
#[inline(always)]
fn hear_others<D: Machine>(
    front: &mut [Drive<D>],
    back: &mut [Drive<D>],
    wires: Wires,
    moment: u64,
    changes: &[Change],
)
    requires moment { moment < 2 ^ 60 }
    requires clocks { wires.clocks + length changes.now < 2 ^ 60 }
    requires datas { wires.datas + length changes.now < 2 ^ 60 }
    ensures heard { OthersHear _ D.State D.stands D.step D.says D.failures moment front.old back.old front.new back.new
        wires changes.now }
    ensures others { OthersGoOn D.lasting D.failures moment front.old back.old front.new back.new }
{
    if front.is_empty() && back.is_empty() {
        return;
    }
    hear_each(front, back, wires, moment, changes);
}

/// The reaction of the drive at a place, which is due at this moment: all others see each line that it changes, with
/// what is held then.
#[inline(always)]
pub(crate) fn react<D: Machine>(
    drives: &mut [Drive<D>],
    host: Lines,
    place: usize,
    moment: u64,
) -> Option<Answer>
    requires place { place < length drives.old }
    requires few { length drives.old < 2 ^ 16 }
    requires moment { moment < 2 ^ 60 }
    ensures made { ReactionIsMade _ D.State D.stands D.step D.says D.failures D.shows (length drives.old) host place
        moment drives.old drives.new result }
    ensures moments { IfSome result (λ a. AreAtMoment moment a.changes.items) }
    ensures some { IsSome result }
    ensures nearer { IsFirstDue drives.old (place, moment) → IsNearer moment drives.old drives.new }
    ensures same { length drives.new ≡ length drives.old }
    ensures carried { AreCarried D.lasting D.failures drives.old drives.new }
{
    let wires = Wires::of(host, drives);
    let (front, rest) = drives.split_at_mut(place);
    let (drive, back) = rest.split_first_mut()?;
    let device = drive.device();
    let changes = drive.due(moment);
    hear_others(front, back, wires, moment, &changes);
    Some(Answer { device, changes })
}

/// The host, which holds these lines, changes one of them: each drive sees it, with what all others hold then. Answers
/// what the host holds then.
pub(crate) fn tell_all<D: Machine>(drives: &mut [Drive<D>], host: Lines, change: Change) -> Lines
    requires { change.moment < 2 ^ 60 }
    ensures host { result ≡ lines_after host change.line change.way }
    ensures tells { ChangeIsTold _ D.State D.stands D.step D.says D.failures D.shows (length drives.old) host result
        change drives.old drives.new }
    ensures kept { AreKept change.moment drives.old drives.new }
    ensures same { length drives.new ≡ length drives.old }
    ensures carried { AreCarried D.lasting D.failures drives.old drives.new }
{
    let now = host.after(change);
    let wires = Wires::of(now, drives);
    tell_each(drives, change.moment, &wires);
    now
}
