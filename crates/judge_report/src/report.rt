//! A trace, judged as it is asked.

use crate::course::Course;
use crate::fault::ReportFault;
use crate::hearing::Timing;
use crate::held::change_of;
use crate::teller::Form;
use bus_judge::{Range, Verdict};
use bus_traces::{Told, Traces};
use cbm_iec::{Line, Party, Way, Who};
use std::alloc::Global;
use std::io::{self, Read, Write};

pub(crate) fn written(outcome: io::Result<()>) -> Result<(), ReportFault> {
    outcome.map_err(|_| ReportFault::Writing)
}

/// How much of a trace is judged.
#[derive(Clone, Copy, Debug, PartialEq, Eq, Drop)]
pub enum Extent {
    /// Up to the first breach.
    FirstBreach,
    /// All of it: after a breach anew from the next pull of ATN by the host on at which all lines are free.
    All,
}

/// What is asked of a trace.
#[derive(Clone, Copy, Drop)]
pub struct Asked<'a> {
    /// The drives of the bus, in the order of ties, as they always react in their least time.
    pub parties: &'a [Party],
    /// How much longer drives may take; none if each always takes the same time.
    pub ranges: &'a [Range],
    /// How closely the host is to keep the timing.
    pub timing: Timing,
    /// How much of it is judged.
    pub extent: Extent,
    /// How what is said is printed.
    pub form: Form,
}

/// Whether a trace that begins so is a computer's with a KERNAL: it pulls CLOCK when it is switched on.
fn is_of_kernal(first: Told) -> bool {
    let (who, change) = change_of(first);
    who == Who::Host && change.line == Line::Clock && change.way == Way::Pull
}

/// What came of a trace.
#[derive(Clone, Copy, Debug, PartialEq, Eq, Drop)]
pub struct Judged {
    /// Whether it is a session, and else who broke it first.
    pub verdict: Verdict,
    /// It begins as a computer's with a KERNAL, which keeps the timing only loosely.
    pub is_of_kernal: bool,
}

/// Judges a trace as it is asked, as lines or as a VCD: of the parties' own lines, or of the wires alone, whose changes
/// are the host's but for those that a drive owes at their moment. Prints what is asked for: the acts that were
/// completed, one a line, and the verdict, or the verdict alone as an object of JSON. If all of it is judged, each breach is printed
/// as it comes, then from where on it is judged anew, and in the end how many there are, each in a line. If the host is to keep the
/// timing loosely, the trace is judged as a tidy host has it.
///
/// Errors: the drives are no bus, the trace can't be read, or has no change of a line; it has the wires alone, and a drive's
/// reactions vary. Then the verdict isn't printed.
pub fn judge_trace<R: Read + Drop, W: Write>(
    alloc: Global,
    input: R,
    output: &mut W,
    asked: &Asked<'_>,
) -> Result<Judged, ReportFault> {
    let mut course = Course::new(asked)?;
    let mut traces = Traces::new(input);
    let first = traces.next()?.ok_or(ReportFault::Empty)?;
    if let Told::Wire(_) = first
        && !asked.ranges.is_empty()
    {
        return Err(ReportFault::Range);
    }
    let heard = course.hear_all(alloc, first, &mut traces, output);
    course.end_line(output)?;
    heard?;
    Ok(Judged {
        verdict: course.conclude(alloc, traces.moment(), output)?,
        is_of_kernal: is_of_kernal(first),
    })
}
