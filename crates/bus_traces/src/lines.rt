//! Traces as lines.
ghost use Rattle.std.specs.Prelude.{◌≡◌, Some, IfNone, IfOk, IfSome, MatchBool};
ghost use Rattle.std.specs.Io.KnownBytes.{IsAtEnd};
ghost use Rattle.std.specs.Result.{result_ok};
ghost use Rattle.bus_traces.specs.Lines.{source_bytes_left, TakesLine};
ghost use Rattle.bus_traces.specs.Reading.{line_says, EventRead, moment_of_read};

use crate::event::event_of;
use crate::fault::{Flaw, LineFault, TraceFault};
use crate::text::Source;
use arrayvec::ArrayVec;
use cbm_iec::Event;
use std::io::Read;

/// Reads a line without its end, and answers whether there was one. Errors: `Reading`, or `Long` for one of more than 1,000 bytes.
fn next_line<R: Read>(
    source: &mut Source<R>,
    line: &mut ArrayVec<u8, 1000>,
) -> Result<bool, TraceFault>
    ensures { IfOk result (λ found. MatchBool found
        (TakesLine (source_bytes_left R.remaining source.old) (source_bytes_left R.remaining source.new) line.new.items)
        (IsAtEnd (source_bytes_left R.remaining source.old))) }
{
    match source.next_line(line) {
        Ok(found) => Ok(found),
        Err(LineFault::Reading) => Err(TraceFault::Reading),
        Err(LineFault::Long) => Err(source.refused(Flaw::Long)),
    }
}

/// What a line says after a moment: nothing if it is empty or begins with `;`, else an event. Errors: `Event`, `Early`.
fn line_says(line: &[u8], from: u64) -> Result<Option<Event>, Flaw>
    ensures { result_ok result ≡ line_says from line.now }
{
    match line.first() {
        None | Some(b';') => return Ok(None),
        Some(_) => {}
    }
    match event_of(line) {
        None => Err(Flaw::Event),
        Some(event) if event.change.moment < from => Err(Flaw::Early),
        Some(event) => Ok(Some(event)),
    }
}

/// The event of the next line, which doesn't come before a moment, if all of the line waits and says one; else nothing is taken.
#[inline(always)]
fn waiting_event<R: Read>(source: &mut Source<R>, from: u64) -> Option<Event>
    ensures event { IfSome result (λ event.
        EventRead (source_bytes_left R.remaining source.old) (source_bytes_left R.remaining source.new) from (Some event)) }
    ensures none { IfNone result (source.new ≡ source.old) }
{
    let line = source.waiting_line()?;
    let count = line.len();
    match line_says(line, from) {
        Ok(Some(event)) => {
            source.pass_line(count);
            Some(event)
        }
        _ => None,
    }
}

/// The same, line by line. (A function of its own, never inlined: the room for a line is cleared whenever it begins.)
#[inline(never)]
fn event_by_lines<R: Read>(source: &mut Source<R>, from: u64) -> Result<Option<Event>, TraceFault>
    ensures { IfOk result (EventRead (source_bytes_left R.remaining source.old) (source_bytes_left R.remaining source.new) from) }
{
    let mut line = ArrayVec::new();
    'lines: for _ in 0..u64::MAX {
        let number = source.line();
        if !next_line(source, &mut line)? {
            return Ok(None);
        }
        match line_says(line.as_slice(), from) {
            Ok(None) => {}
            Ok(Some(event)) => return Ok(Some(event)),
            Err(flaw) => return Err(TraceFault::Line(number, flaw)),
        }
    }
    Err(source.refused(Flaw::Long))
}

/// The next event, which doesn't come before a moment; None at the end. Errors: `Reading`, or the number of a line and `Long`,
/// `Event` or `Early`.
pub(crate) fn next_event<R: Read>(
    source: &mut Source<R>,
    from: u64,
) -> Result<Option<Event>, TraceFault>
    ensures { IfOk result (EventRead (source_bytes_left R.remaining source.old) (source_bytes_left R.remaining source.new) from) }
{
    match waiting_event(source, from) {
        Some(event) => Ok(Some(event)),
        None => event_by_lines(source, from),
    }
}

/// Reads a trace of lines, event by event, and takes no memory.
#[derive(Drop)]
pub struct EventLines<R> {
    source: Source<R>,
    moment: u64,
}

impl<R: Read> EventLines<R> {
    /// A trace of which nothing was read yet.
    pub fn new(reader: R) -> EventLines<R>
        ensures left { source_bytes_left R.remaining result.source ≡ R.remaining reader }
        ensures moment { result.moment ≡ 0 }
    {
        EventLines {
            source: Source::new(reader),
            moment: 0,
        }
    }

    /// The next event; None at the end. Errors: `Reading`, or the number of a line and `Long`, `Event` or `Early`. After an error
    /// nothing is promised.
    pub fn next(&mut self) -> Result<Option<Event>, TraceFault>
        ensures read { IfOk result (EventRead (source_bytes_left R.remaining self.old.source)
            (source_bytes_left R.remaining self.new.source) self.old.moment) }
        ensures moment { IfOk result (λ read. self.new.moment ≡ moment_of_read self.old.moment read) }
    {
        let read = next_event(&mut self.source, self.moment)?;
        if let Some(event) = read {
            self.moment = event.change.moment;
        }
        Ok(read)
    }
}
