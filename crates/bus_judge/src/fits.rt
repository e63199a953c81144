//! The bounds of a piece: whether it fits where a session stands.

ghost use Rattle.std.specs.Prelude.{◌≡◌, ◌+◌, ◌≤◌, true, length, map, OnOk};
ghost use Rattle.cbm_iec.specs.Profile as profile;
ghost use Rattle.cbm_session.specs.Bits.{CellFits, CellsFit};
ghost use Rattle.cbm_session.specs.Frames.{StartFits, SentFits, ToldFits};
ghost use Rattle.cbm_session.specs.Pieces as spec;
ghost use Rattle.cbm_session.specs.Seats as drives;
ghost use Rattle.bus_judge.specs.Views.{bit_cell_of, sent_of, told_of, seats_of, bus_place_of, point_of, whole_of, steps_shown};

use crate::bound::{Bound, Broken, Limit, Since};
use crate::breach::Cause;
use crate::frame::{Cell, LATEST_ACCEPT, LATEST_START, Sent, Told};
use crate::parts::silent_end;
use crate::seat::{Seat, bus_pace, has_listener, has_talker, listeners, spread, talker_of};
use crate::step::Step;
use crate::whole::{Place, Point, Whole};
use cbm_iec::{EOI_WAIT, Pace, Party};

/// Pauses of the host, in microseconds: before a byte, before an attention, and within a bit.
const PAUSE: u64 = 100;

const KERNAL_PULL_PAUSE: u64 = 61;

const SETTLE: u64 = 20;

/// From the first accept to ATN's change, with several drives.
const SETTLE_ALL: u64 = 60;

/// From ATN's release to CLOCK's, with a talker of a KERNAL's pace.
const KERNAL_TURN: u64 = 15;

/// The pulse of the host that asks for the last byte.
pub const HOST_PULSE: u64 = 60;

/// A change comes so much after another, or later.
fn least(bound: Bound, since: Since, reference: u64, wait: u64, moment: u64) -> Result<(), Cause>
    ensures { OnOk result (reference + wait ≤ moment) }
{
    if wait <= moment && reference <= moment - wait {
        return Ok(());
    }
    Err(Cause::Bound(Broken {
        bound,
        since,
        reference,
        moment,
        limit: Limit::Least(wait),
    }))
}

/// A change comes so much after another, or sooner.
fn most(bound: Bound, since: Since, reference: u64, wait: u64, moment: u64) -> Result<(), Cause>
    ensures { OnOk result (moment ≤ reference + wait) }
{
    if moment.saturating_sub(wait) <= reference {
        return Ok(());
    }
    Err(Cause::Bound(Broken {
        bound,
        since,
        reference,
        moment,
        limit: Limit::Most(wait),
    }))
}

/// The same if there was such a change.
fn least_if(
    bound: Bound,
    since: Since,
    reference: Option<u64>,
    wait: u64,
    moment: u64,
) -> Result<(), Cause>
    ensures { OnOk result (spec.AtLeast wait reference moment) }
{
    match reference {
        None => Ok(()),
        Some(reference) => least(bound, since, reference, wait, moment),
    }
}

fn asked(holds: bool) -> Result<(), Cause>
    ensures { OnOk result (holds ≡ true) }
{
    if holds { Ok(()) } else { Err(Cause::Unasked) }
}

/// From the first accept of a byte, by those that heard it, to the next change of ATN.
fn gap(hearers: &[Seat], seats: &[Seat]) -> u64
    ensures { result ≡ spec.gap (seats_of hearers.now) (seats_of seats.now) }
{
    match bus_pace(seats) {
        Pace::Profile => profile_gap(seats),
        Pace::Kernal => SETTLE.max(spread(hearers) + 1),
    }
}

/// The same if a drive keeps to the profile.
fn profile_gap(seats: &[Seat]) -> u64
    ensures { result ≡ spec.profile_gap (seats_of seats.now) }
{
    match seats {
        [] | [_] => SETTLE,
        _ => SETTLE_ALL,
    }
}

/// From ATN's release to its next pull.
fn pull_pause(seats: &[Seat]) -> u64
    ensures { result ≡ profile.pull_pause (drives.bus_pace (seats_of seats.now)) }
{
    match bus_pace(seats) {
        Pace::Profile => PAUSE,
        Pace::Kernal => KERNAL_PULL_PAUSE,
    }
}

/// From ATN's release to CLOCK's, to a talker of that pace.
fn turn_settle(pace: Pace) -> u64
    ensures { result ≡ profile.turn_settle pace }
{
    match pace {
        Pace::Profile => SETTLE,
        Pace::Kernal => KERNAL_TURN,
    }
}

fn may_release(point: &Point, listens: bool, talks: bool, at: u64) -> Result<(), Cause>
    ensures { OnOk result (spec.MayRelease (point_of point.now) listens talks at) }
{
    asked(point.place == Place::Commanding(true))?;
    asked(has_listener(&point.seats) == listens)?;
    asked(has_talker(&point.seats) == talks)?;
    let gap = gap(&point.seats, &point.seats);
    least(Bound::Release, Since::Accept, point.accepted, gap, at)
}

fn pull_fits(point: &Point, at: u64) -> Result<(), Cause>
    ensures { OnOk result (spec.PullFits (point_of point.now) at (point_of point.now).place) }
{
    let bound = Bound::Attention;
    let pause = pull_pause(&point.seats);
    match point.place {
        Place::Open => {
            least_if(bound, Since::Release, point.released, pause, at)?;
            least(bound, Since::Event, point.since, 0, at)
        }
        Place::Listening => {
            least_if(bound, Since::Release, point.released, pause, at)?;
            let gap = gap(&listeners(&point.seats), &point.seats);
            least(bound, Since::Accept, point.accepted, gap, at)
        }
        Place::Cutting(cut) => asked(at == cut),
        Place::Commanding(_) | Place::Leading(_) => Err(Cause::Unasked),
    }
}

/// CLOCK is freed once it and DATA have settled, and pulled once it has settled again. A bit that changes DATA sets it
/// at the pull or later, another one at the pull.
fn cell_fits(held: bool, pull: u64, cell: &Cell) -> Result<(), Cause>
    ensures { OnOk result (CellFits held pull (bit_cell_of cell.now)) }
{
    asked(pull <= cell.set && (held == cell.bit || cell.set == pull))?;
    least(Bound::Settled, Since::ClockPull, pull, SETTLE, cell.free)?;
    least(
        Bound::Settled,
        Since::DataChange,
        cell.set,
        SETTLE,
        cell.free,
    )?;
    least(Bound::Shown, Since::ClockFree, cell.free, SETTLE, cell.pull)
}

fn cells_fit(held: bool, pull: u64, cells: &[Cell]) -> Result<(), Cause>
    ensures { OnOk result (CellsFit held pull (map bit_cell_of cells.now)) }
{
    match cells {
        [] => Ok(()),
        [cell, rest @ ..] => {
            cell_fits(held, pull, cell)?;
            cells_fit(!cell.bit, cell.pull, rest)
        }
    }
}

fn start_fits(hearers: &[Seat], eoi: bool, frame: &Sent) -> Result<(), Cause>
    ensures { OnOk result (StartFits (seats_of hearers.now) eoi (sent_of frame.now)) }
{
    if eoi {
        let quiet = frame.quiet(hearers);
        return least(Bound::StartAfterPulse, Since::Pulse, quiet, 1, frame.start);
    }
    let wire = frame.wire(hearers);
    least(Bound::Start, Since::Wire, wire, 1, frame.start)?;
    most(Bound::Start, Since::Wire, wire, LATEST_START, frame.start)
}

fn sent_fits(hearers: &[Seat], eoi: bool, frame: &Sent) -> Result<(), Cause>
    ensures { OnOk result (SentFits (seats_of hearers.now) eoi (sent_of frame.now)) }
{
    start_fits(hearers, eoi, frame)?;
    cells_fit(false, frame.start, &frame.cells)
}

fn commanding(place: Place) -> Result<(), Cause>
    ensures { OnOk result (spec.IsCommanding (bus_place_of place)) }
{
    match place {
        Place::Commanding(_) => Ok(()),
        _ => Err(Cause::Unasked),
    }
}

fn command_fits(point: &Point, frame: &Sent) -> Result<(), Cause>
    ensures { OnOk result (spec.Fits (point_of point.now) (spec.Command (sent_of frame.now))) }
{
    commanding(point.place)?;
    let ready = Bound::Ready;
    least(ready, Since::Pull, point.pulled, PAUSE, frame.ready)?;
    least(ready, Since::Accept, point.accepted, PAUSE, frame.ready)?;
    sent_fits(&point.seats, false, frame)
}

fn byte_fits(point: &Point, eoi: bool, frame: &Sent) -> Result<(), Cause>
    ensures { OnOk result (spec.Fits (point_of point.now) (spec.Byte eoi (sent_of frame.now))) }
{
    asked(point.place == Place::Listening)?;
    let ready = Bound::Ready;
    least_if(ready, Since::Release, point.released, PAUSE, frame.ready)?;
    least(ready, Since::Accept, point.accepted, PAUSE, frame.ready)?;
    sent_fits(&listeners(&point.seats), eoi, frame)
}

fn turn_fits(point: &Point, at: u64, clock: u64) -> Result<(), Cause>
    ensures { OnOk result (spec.Fits (point_of point.now) (spec.ToTalker at clock)) }
{
    may_release(point, false, true, at)?;
    let turn = turn_settle(talker_of(&point.seats).pace);
    least(Bound::Turn, Since::Release, at, turn, clock)
}

fn told_fits(talker: Party, at: u64, frame: &Told) -> Result<(), Cause>
    ensures { OnOk result (ToldFits talker at (told_of frame.now)) }
{
    least(Bound::Take, Since::Offer, at, 1, frame.free)?;
    if let Some((pull, again)) = frame.signal {
        least(Bound::Mark, Since::DataFree, frame.free, EOI_WAIT, pull)?;
        least(Bound::Unmark, Since::DataPull, pull, HOST_PULSE, again)?;
    }
    let end = frame.end(talker);
    least(Bound::Accept, Since::EighthBit, end, 1, frame.accept)?;
    most(
        Bound::Accept,
        Since::EighthBit,
        end,
        LATEST_ACCEPT,
        frame.accept,
    )
}

/// Whether a piece fits where a session stands; else which bound it breaks.
pub fn fits(point: &Point, whole: &Whole) -> Result<(), Cause>
    ensures { OnOk result (spec.Fits (point_of point.now) (whole_of whole.now)) }
{
    match whole {
        Whole::PullPiece { at } => pull_fits(point, *at),
        Whole::Command(frame) => command_fits(point, frame),
        Whole::Byte { eoi, frame } => byte_fits(point, *eoi, frame),
        Whole::ToListener { at } => may_release(point, true, false, *at),
        Whole::ToNobody { at, clock } => {
            may_release(point, false, false, *at)?;
            least(Bound::Turn, Since::Release, *at, 0, *clock)
        }
        Whole::ToTalker { at, clock } => turn_fits(point, *at, *clock),
        Whole::Nothing { at, clock, freed } => {
            turn_fits(point, *at, *clock)?;
            let end = silent_end(talker_of(&point.seats), *clock);
            match freed {
                None => Ok(()),
                Some(freed) => least(Bound::Silence, Since::Answer, end, 1, *freed),
            }
        }
        Whole::Talk { at, frame } => {
            asked(point.place == Place::Leading(*at))?;
            told_fits(talker_of(&point.seats), *at, frame)
        }
    }
}

/// From which moment a pull of ATN may cut a piece of a drive that talks.
fn may_cut(point: &Point, whole: &Whole, cut: u64) -> Result<(), Cause>
    ensures { OnOk result (spec.CutFits (point_of point.now) (whole_of whole.now) cut) }
{
    let bound = Bound::Attention;
    match whole {
        Whole::ToTalker { at, .. } => least(bound, Since::Release, *at, 1, cut),
        Whole::Nothing { at, .. } => least(bound, Since::Release, *at, 1, cut),
        Whole::Talk { .. } => least(bound, Since::Event, point.since, 0, cut),
        _ => Err(Cause::Unasked),
    }
}

/// Whether some of these steps isn't before a moment.
fn some_from(at: u64, steps: &[Step]) -> bool
    ensures { result ≡ spec.some_from at (steps_shown steps.now) }
{
    match steps {
        [] => false,
        [step, rest @ ..] => at <= step.moment() || some_from(at, rest),
    }
}

/// Whether a pull of ATN may cut a piece that fits, of which these are the steps.
pub fn cut_fits(point: &Point, whole: &Whole, steps: &[Step], cut: u64) -> Result<(), Cause>
    ensures may { OnOk result (spec.CutFits (point_of point.now) (whole_of whole.now) cut) }
    ensures some { OnOk result (spec.some_from cut (steps_shown steps.now) ≡ true) }
{
    may_cut(point, whole, cut)?;
    asked(some_from(cut, steps))
}
