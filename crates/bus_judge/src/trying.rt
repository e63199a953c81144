//! A piece that is tried: whether it fits, and begins with the steps that were seen.

ghost use Rattle.std.specs.Prelude.{◌≡◌, [], Some, length, take, slice_get, true, IfSome, IfOk, OnOk};
ghost use Rattle.cbm_session.specs.Pieces.{before};
ghost use Rattle.bus_judge.specs.Judging.{IsPieceUnderWay};
ghost use Rattle.bus_judge.specs.Views.{point_of, steps_shown};

use crate::breach::Cause;
use crate::fits::fits;
use crate::parts::steps_of;
use crate::same::{same_event, same_step};
use crate::step::{Mark, Step, Steps};
use crate::whole::{Point, Whole};
use cbm_iec::Event;

/// The step after those that were seen, if a list begins with them.
fn next_after(seen: &[Step], list: &[Step]) -> Option<Step>
    ensures front { IfSome result (λ s. take (length seen.now) list.now ≡ seen.now) }
    ensures next { IfSome result (λ s. slice_get list.now (length seen.now) ≡ Some s) }
{
    if list.len() <= seen.len() {
        return None;
    }
    for i in 0..seen.len() {
        if !same_step(seen[i], list[i]) {
            return None;
        }
    }
    Some(list[seen.len()])
}

/// Makes the steps of a piece that fits, and that begins with those that were seen and then this event; and says what
/// counts with it.
pub fn tried(
    point: &Point,
    whole: &Whole,
    seen: &[Step],
    event: Event,
    list: &mut Steps,
) -> Result<Mark, Cause>
    requires { list.old.items ≡ [] }
    ensures fits { OnOk result (IsPieceUnderWay (point_of point.now) (Some whole.now) list.new.items) }
    ensures front { OnOk result (take (length seen.now) list.new.items ≡ seen.now) }
    ensures next { IfOk result (λ mark. slice_get list.new.items (length seen.now) ≡ Some (record { event = event; mark = mark })) }
{
    if steps_of(point, whole, list).is_err() {
        return Err(Cause::Far);
    }
    let Some(step) = next_after(seen, list) else {
        return Err(Cause::Unasked);
    };
    fits(point, whole)?;
    if same_event(step.event, event) {
        Ok(step.mark)
    } else {
        Err(Cause::Unasked)
    }
}

/// Whether exactly so many of the first steps come before a moment, and no other.
pub fn is_cut(steps: &[Step], seen: usize, cut: u64) -> bool
    ensures { result ≡ true → before cut (steps_shown steps.now) ≡ steps_shown (take seen steps.now) }
{
    match steps {
        [] => seen == 0,
        [step, rest @ ..] if seen > 0 => step.moment() < cut && is_cut(rest, seen - 1, cut),
        [step, rest @ ..] => cut <= step.moment() && is_cut(rest, 0, cut),
    }
}
