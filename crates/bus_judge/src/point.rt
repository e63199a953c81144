//! What stands after a piece.

ghost use Rattle.std.specs.Prelude.{◌≡◌, ◌≤◌, false, true, length, map, IfOk};
ghost use Rattle.cbm_session.specs.Seats.{lines};
ghost use Rattle.cbm_session.specs.Pieces as spec;
ghost use Rattle.cbm_session.specs.Sessions as sessions;
ghost use Rattle.bus_judge.specs.Views.{seats_of, bus_place_of, point_of, whole_of, sent_of, told_of, steps_shown};

use crate::frame::{Sent, Told};
use crate::parts::{exact, host_steps, own_steps, silent_end};
use crate::seat::{Seat, Seats, held_after, lines, listeners, talker_of};
use crate::step::{Step, Unmade, later};
use crate::whole::{Place, Point, Whole};
use cbm_iec::{Held, LEAD, NEXT_BYTE, Party, Role};

/// The lines that a party holds after those of these steps that come before a moment.
fn held_before(held: Held, steps: &[Step], at: u64) -> Held
    ensures { result ≡ spec.held_by held (spec.before at (steps_shown steps.now)) }
{
    match steps {
        [] => held,
        [step, rest @ ..] if step.moment() < at => {
            held_before(held_after(held, step.event.change), rest, at)
        }
        [_, rest @ ..] => held_before(held, rest, at),
    }
}

/// The moment after which all drives without a role have let go of DATA too.
fn after_all_of(at: u64, moment: u64, seats: &[Seat]) -> Result<u64, Unmade>
    ensures { IfOk result (λ t. t ≡ spec.after_all_of at moment (seats_of seats.now)) }
{
    let [seat, rest @ ..] = seats else {
        return Ok(moment);
    };
    let afterwards = after_all_of(at, moment, rest)?;
    match seat.role {
        Role::Absent => {
            let freed = later(at, seat.reaction())?;
            Ok(later(freed, 1)?.max(afterwards))
        }
        Role::Listener | Role::Talker => Ok(afterwards),
    }
}

/// Where a frame of the talker leads.
fn told_place(frame: &Told) -> Result<Place, Unmade>
    ensures { IfOk result (λ place. bus_place_of place ≡ spec.told_place (told_of frame.now)) }
{
    if frame.is_last() {
        return Ok(Place::Open);
    }
    let next = later(frame.accept, NEXT_BYTE)?;
    Ok(Place::Leading(next))
}

/// From when ATN may be pulled after it.
fn told_since(talker: Party, frame: &Told) -> Result<u64, Unmade>
    ensures { IfOk result (λ t. t ≡ spec.told_since talker (told_of frame.now)) }
{
    if !frame.is_last() {
        return Ok(frame.accept);
    }
    let freed = later(frame.accept, talker.reaction as u64)?;
    later(freed, 1)
}

fn at_rest(parties: &[Party]) -> Seats
    requires { length parties.now ≤ 4 }
    ensures { seats_of result.items ≡ (sessions.rest parties.now).seats }
{
    let mut seats = Seats::new();
    for party in parties {
        seats.push(Seat::of(*party));
    }
    seats
}

/// The drives after attention: a talker holds these lines.
fn stood(seats: &[Seat], talking: Held) -> Seats
    requires { length seats.now ≤ 4 }
    ensures { seats_of result.items ≡ map (λ s. spec.standing talking s) (seats_of seats.now) }
{
    let mut found = Seats::new();
    for seat in seats {
        found.push(seat.standing(talking));
    }
    found
}

/// The drives after ATN's pull: each holds DATA.
fn attending(seats: &[Seat]) -> Seats
    requires { length seats.now ≤ 4 }
    ensures { seats_of result.items ≡ map (λ s. spec.seat_with s.role (lines false true) s) (seats_of seats.now) }
{
    let mut found = Seats::new();
    for seat in seats {
        found.push(seat.holding(lines(false, true)));
    }
    found
}

/// The drives after a byte in attention.
fn obeyed(seats: &[Seat], byte: u8) -> Result<Seats, Unmade>
    requires { length seats.now ≤ 4 }
    ensures { IfOk result (λ found. seats_of found.items ≡ map (λ s. spec.obeying byte s) (seats_of seats.now)) }
{
    let mut found = Seats::new();
    for seat in seats {
        if seat.device() >= 31 {
            return Err(Unmade::Far);
        }
        found.push(seat.obeying(byte));
    }
    Ok(found)
}

/// The drives where a pull of ATN cuts a piece.
fn cut_short(point: &Point, whole: &Whole, cut: u64, seats: &[Seat]) -> Result<Seats, Unmade>
    requires { length seats.now ≤ 4 }
    ensures { IfOk result (λ found. seats_of found.items ≡
        map (λ s. spec.seat_with s.role (spec.held_by s.own (spec.before cut (spec.own_part (point_of point.now) (whole_of whole.now) s))) s) (seats_of seats.now)) }
{
    let mut found = Seats::new();
    for seat in seats {
        let own = own_steps(point, whole, seat)?;
        found.push(seat.holding(held_before(seat.own, &own, cut)));
    }
    Ok(found)
}

impl Point {
    /// From rest: all lines free, no roles, nothing due; the drives in the caller's order of ties.
    pub fn rest(parties: &[Party]) -> Point
        requires { length parties.now ≤ 4 }
        ensures { point_of result ≡ sessions.rest parties.now }
    {
        Point {
            place: Place::Open,
            seats: at_rest(parties),
            host: lines(false, false),
            pulled: 0,
            released: None,
            accepted: 0,
            since: 0,
        }
    }

    fn after_pull(&self, at: u64) -> Point
        ensures { point_of result ≡ spec.whole_point (point_of self.now) (spec.PullPiece at) }
    {
        Point {
            place: Place::Commanding(false),
            seats: attending(&self.seats),
            host: lines(true, false),
            pulled: at,
            released: None,
            accepted: self.accepted,
            since: at,
        }
    }

    fn after_command(&self, frame: &Sent) -> Result<Point, Unmade>
        ensures { IfOk result (λ p. point_of p ≡ spec.whole_point (point_of self.now) (spec.Command (sent_of frame.now))) }
    {
        Ok(Point {
            place: Place::Commanding(true),
            seats: obeyed(&self.seats, frame.byte()?)?,
            host: lines(true, false),
            pulled: self.pulled,
            released: None,
            accepted: frame.accept(&self.seats)?,
            since: self.since,
        })
    }

    fn after_byte(&self, eoi: bool, frame: &Sent) -> Result<Point, Unmade>
        ensures { IfOk result (λ p. point_of p ≡ spec.whole_point (point_of self.now) (spec.Byte eoi (sent_of frame.now))) }
    {
        let _ = eoi;
        Ok(Point {
            place: Place::Listening,
            seats: stood(&self.seats, lines(false, false)),
            host: lines(true, false),
            pulled: self.pulled,
            released: self.released,
            accepted: frame.accept(&listeners(&self.seats))?,
            since: self.since,
        })
    }

    fn after_release(&self, at: u64) -> Point
        ensures { point_of result ≡ spec.whole_point (point_of self.now) (spec.ToListener at) }
    {
        Point {
            place: Place::Listening,
            seats: stood(&self.seats, lines(false, false)),
            host: lines(true, false),
            pulled: self.pulled,
            released: Some(at),
            accepted: self.accepted,
            since: at,
        }
    }

    fn after_leave(&self, at: u64, clock: u64) -> Point
        ensures { point_of result ≡ spec.whole_point (point_of self.now) (spec.ToNobody at clock) }
    {
        Point {
            place: Place::Open,
            seats: stood(&self.seats, lines(false, false)),
            host: lines(false, false),
            pulled: self.pulled,
            released: Some(at),
            accepted: self.accepted,
            since: clock,
        }
    }

    fn after_lead(&self, at: u64, clock: u64) -> Result<Point, Unmade>
        ensures { IfOk result (λ p. point_of p ≡ spec.whole_point (point_of self.now) (spec.ToTalker at clock)) }
    {
        let talker = talker_of(&self.seats);
        let answer = later(clock, talker.reaction as u64)?;
        Ok(Point {
            place: Place::Leading(later(answer, LEAD)?),
            seats: stood(&self.seats, lines(true, false)),
            host: lines(false, true),
            pulled: self.pulled,
            released: None,
            accepted: self.accepted,
            since: after_all_of(at, later(answer, 1)?, &self.seats)?,
        })
    }

    fn after_nothing(&self, at: u64, clock: u64, freed: Option<u64>) -> Result<Point, Unmade>
        ensures { IfOk result (λ p. point_of p ≡ spec.whole_point (point_of self.now) (spec.Nothing at clock freed)) }
    {
        let end = exact(silent_end(talker_of(&self.seats), clock))?;
        let (afterwards, holds) = match freed {
            None => (later(end, 1)?, true),
            Some(freed) => (freed, false),
        };
        Ok(Point {
            place: Place::Open,
            seats: stood(&self.seats, lines(false, false)),
            host: lines(false, holds),
            pulled: self.pulled,
            released: None,
            accepted: self.accepted,
            since: after_all_of(at, afterwards, &self.seats)?,
        })
    }

    fn after_talk(&self, at: u64, frame: &Told) -> Result<Point, Unmade>
        ensures { IfOk result (λ p. point_of p ≡ spec.whole_point (point_of self.now) (spec.Talk at (told_of frame.now))) }
    {
        let _ = at;
        let place = told_place(frame)?;
        let since = told_since(talker_of(&self.seats), frame)?;
        Ok(Point {
            place,
            seats: stood(&self.seats, lines(!frame.is_last(), false)),
            host: lines(false, true),
            pulled: self.pulled,
            released: None,
            accepted: self.accepted,
            since,
        })
    }

    /// What stands after a piece.
    pub fn after(&self, whole: &Whole) -> Result<Point, Unmade>
        ensures { IfOk result (λ p. point_of p ≡ spec.whole_point (point_of self.now) (whole_of whole.now)) }
    {
        match whole {
            Whole::PullPiece { at } => Ok(self.after_pull(*at)),
            Whole::Command(frame) => self.after_command(frame),
            Whole::Byte { eoi, frame } => self.after_byte(*eoi, frame),
            Whole::ToListener { at } => Ok(self.after_release(*at)),
            Whole::ToNobody { at, clock } => Ok(self.after_leave(*at, *clock)),
            Whole::ToTalker { at, clock } => self.after_lead(*at, *clock),
            Whole::Nothing { at, clock, freed } => self.after_nothing(*at, *clock, *freed),
            Whole::Talk { at, frame } => self.after_talk(*at, frame),
        }
    }

    /// What stands where a pull of ATN cuts a piece.
    pub fn after_cut(&self, whole: &Whole, cut: u64) -> Result<Point, Unmade>
        ensures { IfOk result (λ p. point_of p ≡ spec.point_after (point_of self.now) (spec.Cut (whole_of whole.now) cut)) }
    {
        let part = host_steps(self, whole)?;
        Ok(Point {
            place: Place::Cutting(cut),
            seats: cut_short(self, whole, cut, &self.seats)?,
            host: held_before(self.host, &part, cut),
            pulled: self.pulled,
            released: None,
            accepted: self.accepted,
            since: cut,
        })
    }
}
