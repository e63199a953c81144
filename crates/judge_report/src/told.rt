//! The verdict, as a line or as JSON.

use crate::fault::ReportFault;
use crate::report::written;
use crate::teller::Form;
use bus_judge::{Breach, Cause, Due, Scene, line_name, way_name};
use cbm_iec::Who;
use serde::Serialize;
use std::alloc::Global;
use std::fmt;
use std::io::Write;

/// Where a session was broken.
#[derive(Clone, Copy, Debug, PartialEq, Eq, Drop)]
pub struct Place {
    /// Where it stood.
    pub scene: Scene,
    /// The number of the byte that is under way, from 1 on, since ATN was pulled or freed.
    pub byte: u32,
    /// The last line of the trace that was read, from 1 on.
    pub line: u64,
}

/// As `byte 2 of the host, bit 3; next: host clock free`.
impl fmt::Display for Place {
    fn fmt<W: fmt::Write>(&self, f: &mut fmt::Formatter<W>) -> fmt::Result {
        let (turn, byte) = (self.scene.turn, self.byte);
        if turn.is_byte() {
            write!(f, "byte {byte} {turn}")?;
        } else {
            write!(f, "{turn}")?;
        }
        if let Some(bit) = self.scene.bit {
            write!(f, ", bit {bit}")?;
        }
        match self.scene.next {
            None => Ok(()),
            Some(due) => write!(f, "; next: {due}"),
        }
    }
}

/// A session up to a moment, or where a trace is judged anew, as JSON.
#[derive(Drop, Serialize)]
struct MomentReport {
    verdict: &'static str,
    moment: u64,
}

/// How many breaches a trace has up to a moment, as JSON.
#[derive(Drop, Serialize)]
struct CountReport {
    verdict: &'static str,
    count: u64,
    moment: u64,
}

/// The change that was expected.
#[derive(Drop, Serialize)]
struct DueReport {
    party: &'static str,
    device: Option<u8>,
    line: &'static str,
    change: &'static str,
    from: Option<u64>,
    to: Option<u64>,
}

/// A breach, as JSON.
#[derive(Drop, Serialize)]
struct BreachReport {
    verdict: &'static str,
    moment: u64,
    party: &'static str,
    device: Option<u8>,
    line: &'static str,
    change: &'static str,
    rule: String,
    place: String,
    byte: Option<u32>,
    bit: Option<u8>,
    expected: Option<DueReport>,
    trace_line: u64,
}

fn party_name(who: Who) -> &'static str {
    match who {
        Who::Host => "host",
        Who::Drive(_) => "drive",
    }
}

fn device_of(who: Who) -> Option<u8> {
    match who {
        Who::Host => None,
        Who::Drive(device) => Some(device),
    }
}

/// The host's change may come up to its moment, a drive's from it on.
fn expected(due: Due) -> DueReport {
    let event = due.event;
    let from = due.is_known && event.who != Who::Host;
    DueReport {
        party: party_name(event.who),
        device: device_of(event.who),
        line: line_name(event.change.line),
        change: way_name(event.change.way),
        from: from.then_some(event.change.moment),
        to: due.is_known.then_some(due.latest),
    }
}

fn breach_report(alloc: Global, breach: Breach, place: Place) -> Result<BreachReport, ReportFault> {
    let (cause, turn) = (breach.cause, place.scene.turn);
    Ok(BreachReport {
        verdict: "breach",
        moment: breach.change.moment,
        party: party_name(breach.who),
        device: device_of(breach.who),
        line: line_name(breach.change.line),
        change: way_name(breach.change.way),
        rule: format!(in alloc; "{cause}")?,
        place: format!(in alloc; "{turn}")?,
        byte: turn.is_byte().then_some(place.byte),
        bit: place.scene.bit,
        expected: place.scene.next.map(expected),
        trace_line: place.line,
    })
}

fn put_json<W: Write, T: Serialize>(
    alloc: Global,
    output: &mut W,
    report: &T,
) -> Result<(), ReportFault> {
    match serde_json::to_vec(alloc, report) {
        Ok(text) => {
            written(output.write_all(text.as_slice()))?;
            written(output.write_all(b"\n"))
        }
        Err(_) => Err(ReportFault::NoMemory),
    }
}

/// Prints that the trace is a session up to a moment.
pub fn tell_session<W: Write>(
    alloc: Global,
    output: &mut W,
    form: Form,
    moment: u64,
) -> Result<(), ReportFault> {
    if form == Form::Json {
        let report = MomentReport {
            verdict: "session",
            moment,
        };
        return put_json(alloc, output, &report);
    }
    written(writeln!(output, "a session to {moment} us"))
}

/// Prints that the trace is judged anew from a moment on.
pub fn tell_anew<W: Write>(
    alloc: Global,
    output: &mut W,
    form: Form,
    moment: u64,
) -> Result<(), ReportFault> {
    if form == Form::Json {
        let report = MomentReport {
            verdict: "anew",
            moment,
        };
        return put_json(alloc, output, &report);
    }
    written(writeln!(output, "judged anew from {moment} us on"))
}

/// Prints how many breaches a trace has up to a moment.
pub fn tell_breaches<W: Write>(
    alloc: Global,
    output: &mut W,
    form: Form,
    count: u64,
    moment: u64,
) -> Result<(), ReportFault> {
    if form == Form::Json {
        let report = CountReport {
            verdict: "breaches",
            count,
            moment,
        };
        return put_json(alloc, output, &report);
    }
    let noun = if count == 1 { "breach" } else { "breaches" };
    written(writeln!(output, "{count} {noun} to {moment} us"))
}

/// Prints what broke the session. A change for which no rule has a place is told with what was expected there.
pub fn tell_breach<W: Write>(
    alloc: Global,
    output: &mut W,
    form: Form,
    breach: Breach,
    place: Place,
) -> Result<(), ReportFault> {
    if form == Form::Json {
        return put_json(alloc, output, &breach_report(alloc, breach, place)?);
    }
    if breach.cause == Cause::Unasked {
        return written(writeln!(output, "{breach} ({place})"));
    }
    written(writeln!(output, "{breach}"))
}
