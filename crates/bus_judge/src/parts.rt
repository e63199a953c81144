//! The steps of a piece: the host's part and each drive's own, joined by moments.

ghost use Rattle.std.specs.Prelude.{◌≡◌, ◌+◌, ◌++◌, ◌∷◌, [], ◌^◌, ◌<◌, map, if◌then◌else◌, OnOk, IfOk};
ghost use Rattle.cbm_session.specs.Bits as bits;
ghost use Rattle.cbm_session.specs.Frames as frames;
ghost use Rattle.cbm_session.specs.Pieces as spec;
ghost use Rattle.cbm_session.specs.Seats.{at_pace};
ghost use Rattle.cbm_session.specs.Steps as steps;
ghost use Rattle.bus_judge.specs.Views.{IsSum, bit_cell_of, sent_of, told_of, seat_of, seats_of, point_of, whole_of, step_of, steps_shown};

use crate::frame::{Cell, Sent, Told, held_after};
use crate::seat::{Seat, after, listeners, talker_of};
use crate::step::{Step, Steps, Unmade, join, later, put, put_all};
use crate::whole::{Point, Whole};
use Line::*;
use Way::*;
use cbm_iec::{Act, EOI_WAIT, Line, MUTE, Pace, Party, Role, Way};

/// A sum of moments that isn't the greatest number is what it is meant to be.
pub fn exact(sum: u64) -> Result<u64, Unmade>
    ensures { IfOk result (λ t. (t ≡ sum) × (t + 1 < 2 ^ 64)) }
{
    if sum < u64::MAX {
        Ok(sum)
    } else {
        Err(Unmade::Far)
    }
}

fn put_if(is_there: bool, step: Step, list: &mut Steps) -> Result<(), Unmade>
    ensures { OnOk result (steps_shown list.new.items ≡ steps_shown list.old.items ++ (if is_there then step_of step ∷ [] else [])) }
{
    if is_there {
        return put(list, step);
    }
    Ok(())
}

/// DATA for a bit, 1 is DATA free: a change comes only if it changes something.
fn data_for(held: bool, bit: bool, free: Step, pull: Step, list: &mut Steps) -> Result<(), Unmade>
    ensures { OnOk result (steps_shown list.new.items ≡ steps_shown list.old.items ++
        (if bit then bits.where_held held (step_of free) else bits.where_free held (step_of pull))) }
{
    if bit {
        return put_if(held, free, list);
    }
    put_if(!held, pull, list)
}

fn cells_part(held: bool, cells: &[Cell], list: &mut Steps) -> Result<(), Unmade>
    ensures { OnOk result (steps_shown list.new.items ≡ steps_shown list.old.items ++ bits.cells_steps held (map bit_cell_of cells.now)) }
{
    match cells {
        [] => Ok(()),
        [cell, rest @ ..] => {
            let free = Step::host(cell.set, Data, Free);
            let pull = Step::host(cell.set, Data, Pull);
            data_for(held, cell.bit, free, pull, list)?;
            put(list, Step::host(cell.free, Clock, Free))?;
            put(list, Step::host(cell.pull, Clock, Pull))?;
            cells_part(!cell.bit, rest, list)
        }
    }
}

/// The host's part of its frame.
fn sending(frame: &Sent, list: &mut Steps) -> Result<(), Unmade>
    ensures { OnOk result (steps_shown list.new.items ≡ steps_shown list.old.items ++ frames.sending (sent_of frame.now)) }
{
    put(list, Step::host(frame.ready, Clock, Free))?;
    put(list, Step::host(frame.start, Clock, Pull))?;
    cells_part(false, &frame.cells, list)?;
    let freed = Step::host(frame.end(), Data, Free);
    put_if(held_after(false, &frame.cells), freed, list)
}

fn signal_part(signal: Option<(u64, u64)>, list: &mut Steps) -> Result<(), Unmade>
    ensures { OnOk result (steps_shown list.new.items ≡ steps_shown list.old.items ++ frames.signal_steps signal) }
{
    let Some((pull, again)) = signal else {
        return Ok(());
    };
    put(list, Step::host(pull, Data, Pull))?;
    put(list, Step::host(again, Data, Free))
}

/// The host's part of a frame of the talker.
fn taking(talker: Party, frame: &Told, list: &mut Steps) -> Result<(), Unmade>
    ensures { OnOk result (steps_shown list.new.items ≡ steps_shown list.old.items ++ frames.taking talker (told_of frame.now)) }
{
    put(list, Step::host(frame.free, Data, Free))?;
    signal_part(frame.signal, list)?;
    let said = Act::Said(frame.byte()?, frame.is_last());
    let accept = Step::host(frame.accept, Data, Pull);
    put(list, accept.for_one(talker.device, said))
}

fn pulling(point: &Point, at: u64, list: &mut Steps) -> Result<(), Unmade>
    ensures { OnOk result (steps_shown list.new.items ≡ steps_shown list.old.items ++ spec.host_part (point_of point.now) (spec.PullPiece at)) }
{
    put(list, Step::host(at, Atn, Pull).for_each(Act::Pulled))?;
    put_if(!point.host.clock_low, Step::host(at, Clock, Pull), list)?;
    put_if(point.host.data_low, Step::host(at, Data, Free), list)
}

fn released(at: u64) -> Step
    ensures { step_of result ≡ steps.for_each Act.Released (steps.host at Line.Atn Way.Free) }
{
    Step::host(at, Atn, Free).for_each(Act::Released)
}

fn turning(at: u64, clock: u64, list: &mut Steps) -> Result<(), Unmade>
    ensures { OnOk result (steps_shown list.new.items ≡ steps_shown list.old.items ++
        (steps.host at Line.Data Way.Pull ∷ steps.for_each Act.Released (steps.host at Line.Atn Way.Free) ∷ steps.host clock Line.Clock Way.Free ∷ [])) }
{
    put(list, Step::host(at, Data, Pull))?;
    put(list, released(at))?;
    put(list, Step::host(clock, Clock, Free))
}

fn freed_part(freed: Option<u64>, list: &mut Steps) -> Result<(), Unmade>
    ensures { OnOk result (steps_shown list.new.items ≡ steps_shown list.old.items ++ spec.freed_steps freed) }
{
    match freed {
        None => Ok(()),
        Some(freed) => put(list, Step::host(freed, Data, Free)),
    }
}

/// The host's part of a piece.
fn host_part(point: &Point, whole: &Whole, list: &mut Steps) -> Result<(), Unmade>
    ensures { OnOk result (steps_shown list.new.items ≡ steps_shown list.old.items ++ spec.host_part (point_of point.now) (whole_of whole.now)) }
{
    match whole {
        Whole::PullPiece { at } => pulling(point, *at, list),
        Whole::Command(frame) => sending(frame, list),
        Whole::Byte { frame, .. } => sending(frame, list),
        Whole::ToListener { at } => put(list, released(*at)),
        Whole::ToNobody { at, clock } => {
            put(list, released(*at))?;
            put(list, Step::host(*clock, Clock, Free))
        }
        Whole::ToTalker { at, clock } => turning(*at, *clock, list),
        Whole::Nothing { at, clock, freed } => {
            turning(*at, *clock, list)?;
            freed_part(*freed, list)
        }
        Whole::Talk { frame, .. } => taking(talker_of(&point.seats), frame, list),
    }
}

/// A listener's pulse for EOI, counted from T.
fn pulse(wire: u64, eoi: bool, seat: &Seat, list: &mut Steps) -> Result<(), Unmade>
    ensures { OnOk result (steps_shown list.new.items ≡ steps_shown list.old.items ++ frames.pulse wire eoi (seat_of seat.now)) }
{
    if !eoi {
        return Ok(());
    }
    let noted = later(wire, EOI_WAIT)?;
    let from = later(noted, seat.reaction())?;
    let upto = later(noted, seat.lasting())?;
    put(list, Step::drive(seat.device(), from, Data, Pull))?;
    put(list, Step::drive(seat.device(), upto, Data, Free))
}

/// A drive's own part of a frame that it hears.
fn hearing(
    wire: u64,
    eoi: bool,
    act: Act,
    frame: &Sent,
    seat: &Seat,
    list: &mut Steps,
) -> Result<(), Unmade>
    ensures { OnOk result (steps_shown list.new.items ≡ steps_shown list.old.items ++ frames.hearing wire eoi act (sent_of frame.now) (seat_of seat.now)) }
{
    let freed = later(frame.ready, seat.reaction())?;
    put(list, Step::drive(seat.device(), freed, Data, Free))?;
    pulse(wire, eoi, seat, list)?;
    let moment = later(frame.end(), seat.reaction())?;
    let accept = Step::drive(seat.device(), moment, Data, Pull);
    put(list, accept.for_one(seat.device(), act))
}

/// The bits of a talker, from whether it holds DATA.
fn bits_part(
    party: Party,
    at: u64,
    held: bool,
    told: &[bool],
    list: &mut Steps,
) -> Result<(), Unmade>
    ensures { OnOk result (steps_shown list.new.items ≡ steps_shown list.old.items ++ frames.bit_steps party at held told.now) }
{
    let device = party.device;
    let free = Step::drive(device, at, Data, Free);
    put(list, Step::drive(device, at, Clock, Pull))?;
    match told {
        [] => put_if(held, free, list),
        [bit, rest @ ..] => {
            let half = party.pace.half_bit() as u64;
            let shown_at = later(at, half)?;
            let next = later(at, 2 * half)?;
            let pull = Step::drive(device, at, Data, Pull);
            data_for(held, *bit, free, pull, list)?;
            put(list, Step::drive(device, shown_at, Clock, Free))?;
            bits_part(party, next, !*bit, rest, list)
        }
    }
}

/// The talker's part of its frame.
fn telling(party: Party, at: u64, frame: &Told, list: &mut Steps) -> Result<(), Unmade>
    ensures { OnOk result (steps_shown list.new.items ≡ steps_shown list.old.items ++ frames.telling party at (told_of frame.now)) }
{
    put(list, Step::drive(party.device, at, Clock, Free))?;
    let first = exact(frame.first_bit(party))?;
    bits_part(party, first, false, &frame.bits, list)?;
    let freed = later(frame.accept, party.reaction as u64)?;
    let over = Step::drive(party.device, freed, Clock, Free);
    put_if(frame.is_last(), over, list)
}

/// A talker that has nothing to say lets go of DATA; at a KERNAL's pace it holds both lines for a while first.
fn silent_part(pace: Pace, device: u8, moment: u64, list: &mut Steps) -> Result<(), Unmade>
    ensures { OnOk result (steps_shown list.new.items ≡ steps_shown list.old.items ++ spec.silent_part pace device moment) }
{
    match pace {
        Pace::Profile => {
            let freed = Step::drive(device, moment, Data, Free);
            put(list, freed.for_one(device, Act::Silent))
        }
        Pace::Kernal => {
            let end = later(moment, MUTE)?;
            put(list, Step::drive(device, moment, Clock, Pull))?;
            put(list, Step::drive(device, end, Clock, Free))?;
            let freed = Step::drive(device, end, Data, Free);
            put(list, freed.for_one(device, Act::Silent))
        }
    }
}

/// When a talker that has nothing to say has let go of DATA, for a release of CLOCK.
pub fn silent_end(talker: Party, clock: u64) -> u64
    ensures { IsSum (spec.silent_end talker clock) result }
{
    let answer = after(clock, talker.reaction as u64);
    match talker.pace {
        Pace::Profile => answer,
        Pace::Kernal => after(answer, MUTE),
    }
}

/// A drive without a role lets go of DATA at ATN's release.
fn let_go(at: u64, seat: &Seat, list: &mut Steps) -> Result<(), Unmade>
    ensures { OnOk result (steps_shown list.new.items ≡ steps_shown list.old.items ++ spec.let_go at (seat_of seat.now)) }
{
    let moment = later(at, seat.reaction())?;
    put(list, Step::drive(seat.device(), moment, Data, Free))
}

fn answering_pull(at: u64, seat: &Seat, list: &mut Steps) -> Result<(), Unmade>
    ensures { OnOk result (steps_shown list.new.items ≡ steps_shown list.old.items ++
        (bits.where_held seat.now.own.clock_low (steps.drive seat.now.party.device (at + seat.now.party.reaction) Line.Clock Way.Free)
        ++ bits.where_free seat.now.own.data_low (steps.drive seat.now.party.device (at + seat.now.party.reaction) Line.Data Way.Pull))) }
{
    let moment = later(at, seat.reaction())?;
    let free = Step::drive(seat.device(), moment, Clock, Free);
    let pull = Step::drive(seat.device(), moment, Data, Pull);
    put_if(seat.own.clock_low, free, list)?;
    put_if(!seat.own.data_low, pull, list)
}

/// The talker leads: it pulls CLOCK and frees DATA.
fn leading(clock: u64, seat: &Seat, list: &mut Steps) -> Result<(), Unmade>
    ensures { OnOk result (steps_shown list.new.items ≡ steps_shown list.old.items ++
        (steps.drive seat.now.party.device (clock + seat.now.party.reaction) Line.Clock Way.Pull ∷ steps.drive seat.now.party.device (clock + seat.now.party.reaction) Line.Data Way.Free ∷ [])) }
{
    let moment = later(clock, seat.reaction())?;
    put(list, Step::drive(seat.device(), moment, Clock, Pull))?;
    put(list, Step::drive(seat.device(), moment, Data, Free))
}

fn commanded(point: &Point, frame: &Sent, seat: &Seat, list: &mut Steps) -> Result<(), Unmade>
    ensures { OnOk result (steps_shown list.new.items ≡ steps_shown list.old.items ++ spec.own_part (point_of point.now) (spec.Command (sent_of frame.now)) (seat_of seat.now)) }
{
    let act = Act::Attention(frame.byte()?);
    let wire = exact(frame.wire(&point.seats))?;
    hearing(wire, false, act, frame, seat, list)
}

fn heard(
    point: &Point,
    eoi: bool,
    frame: &Sent,
    seat: &Seat,
    list: &mut Steps,
) -> Result<(), Unmade>
    ensures { OnOk result (steps_shown list.new.items ≡ steps_shown list.old.items ++ spec.own_part (point_of point.now) (spec.Byte eoi (sent_of frame.now)) (seat_of seat.now)) }
{
    if !seat.is_listener() {
        return Ok(());
    }
    let act = Act::Heard(frame.byte()?, eoi);
    let wire = exact(frame.wire(&listeners(&point.seats)))?;
    hearing(wire, eoi, act, frame, seat, list)
}

fn talked(point: &Point, at: u64, frame: &Told, seat: &Seat, list: &mut Steps) -> Result<(), Unmade>
    ensures { OnOk result (steps_shown list.new.items ≡ steps_shown list.old.items ++ spec.own_part (point_of point.now) (spec.Talk at (told_of frame.now)) (seat_of seat.now)) }
{
    if !seat.is_talker() {
        return Ok(());
    }
    let party = Party {
        pace: talker_of(&point.seats).pace,
        ..seat.party
    };
    telling(party, at, frame, list)
}

/// A talker's answer if it has nothing to say.
fn silenced(clock: u64, seat: &Seat, list: &mut Steps) -> Result<(), Unmade>
    ensures { OnOk result (steps_shown list.new.items ≡ steps_shown list.old.items ++ spec.silent_part seat.now.party.pace seat.now.party.device (clock + seat.now.party.reaction)) }
{
    let moment = later(clock, seat.reaction())?;
    silent_part(seat.party.pace, seat.device(), moment, list)
}

/// A drive's own part of a piece.
fn own_part(point: &Point, whole: &Whole, seat: &Seat, list: &mut Steps) -> Result<(), Unmade>
    ensures { OnOk result (steps_shown list.new.items ≡ steps_shown list.old.items ++ spec.own_part (point_of point.now) (whole_of whole.now) (seat_of seat.now)) }
{
    match whole {
        Whole::PullPiece { at } => answering_pull(*at, seat, list),
        Whole::Command(frame) => commanded(point, frame, seat, list),
        Whole::Byte { eoi, frame } => heard(point, *eoi, frame, seat, list),
        Whole::ToListener { at } => match seat.role {
            Role::Absent => let_go(*at, seat, list),
            Role::Listener | Role::Talker => Ok(()),
        },
        Whole::ToNobody { at, .. } => let_go(*at, seat, list),
        Whole::ToTalker { at, clock } => match seat.role {
            Role::Absent => let_go(*at, seat, list),
            Role::Listener => Ok(()),
            Role::Talker => leading(*clock, seat, list),
        },
        Whole::Nothing { at, clock, .. } => match seat.role {
            Role::Absent => let_go(*at, seat, list),
            Role::Listener => Ok(()),
            Role::Talker => silenced(*clock, seat, list),
        },
        Whole::Talk { at, frame } => talked(point, *at, frame, seat, list),
    }
}

/// Joins a list and the own parts of these drives, as they are listed, after what is in another.
fn join_parts(
    point: &Point,
    whole: &Whole,
    first: &[Step],
    seats: &[Seat],
    list: &mut Steps,
) -> Result<(), Unmade>
    ensures { OnOk result (steps_shown list.new.items ≡ steps_shown list.old.items ++ steps.merge_all (steps_shown first.now)
        (map (λ s. spec.own_part (point_of point.now) (whole_of whole.now) s) (seats_of seats.now))) }
{
    let [seat, rest @ ..] = seats else {
        return put_all(list, first);
    };
    let mut own = Steps::new();
    own_part(point, whole, seat, &mut own)?;
    if rest.is_empty() {
        return join(first, &own, list);
    }
    let mut others = Steps::new();
    join_parts(point, whole, &own, rest, &mut others)?;
    join(first, &others, list)
}

/// The steps of a piece, after what is in a list: at one moment the host's first, then the drives' as they are listed.
pub fn steps_of(point: &Point, whole: &Whole, list: &mut Steps) -> Result<(), Unmade>
    ensures { OnOk result (steps_shown list.new.items ≡ steps_shown list.old.items ++ spec.steps_of (point_of point.now) (whole_of whole.now)) }
{
    let mut host = Steps::new();
    host_part(point, whole, &mut host)?;
    join_parts(point, whole, &host, &point.seats, list)
}

/// The host's part of a piece, and a drive's own, by itself.
pub fn host_steps(point: &Point, whole: &Whole) -> Result<Steps, Unmade>
    ensures { IfOk result (λ list. steps_shown list.items ≡ spec.host_part (point_of point.now) (whole_of whole.now)) }
{
    let mut list = Steps::new();
    host_part(point, whole, &mut list)?;
    Ok(list)
}

pub fn own_steps(point: &Point, whole: &Whole, seat: &Seat) -> Result<Steps, Unmade>
    ensures { IfOk result (λ list. steps_shown list.items ≡ spec.own_part (point_of point.now) (whole_of whole.now) (seat_of seat.now)) }
{
    let mut list = Steps::new();
    own_part(point, whole, seat, &mut list)?;
    Ok(list)
}
