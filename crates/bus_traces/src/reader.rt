//! Traces of either form, read event by event.

use crate::fault::TraceFault;
use crate::lines::next_event;
use crate::text::Source;
use crate::vcd::Dump;
use cbm_iec::{Change, Event};
use std::io::Read;

/// What a trace says next.
#[derive(Clone, Copy, Debug, PartialEq, Eq, Drop)]
pub enum Told {
    /// A party changed a line of its own.
    Party(Event),
    /// A wire of the cable changed; by whom isn't said.
    Wire(Change),
}

/// What a trace is written as.
#[derive(Drop)]
enum Form {
    /// Nothing was read yet.
    Unread,
    /// Lines, and the moment of the last one.
    Lines(u64),
    /// A Value Change Dump.
    Vcd(Dump),
}

/// Reads a trace, as lines or as VCD, event by event. It takes no memory, however long the trace is.
#[derive(Drop)]
pub struct Traces<R> {
    source: Source<R>,
    form: Form,
}

impl<R: Read> Traces<R> {
    /// A trace of which nothing was read yet.
    pub fn new(reader: R) -> Traces<R> {
        Traces {
            source: Source::new(reader),
            form: Form::Unread,
        }
    }

    /// The first byte of the trace, after blanks and the lines with META that sigrok writes before a VCD; it stays. Error: `Reading`.
    fn first_byte(&mut self) -> Result<Option<u8>, TraceFault> {
        for _ in 0..u64::MAX {
            match self.source.skip_blanks()? {
                Some(b'M') => self.source.skip_line()?,
                other => return Ok(other),
            }
        }
        Ok(None)
    }

    /// Finds out how the trace is written: a VCD begins with `$`. (Never inlined: the room for a `Dump` is cleared
    /// whenever the function begins that has it.)
    #[inline(never)]
    fn begin(&mut self) -> Result<(), TraceFault> {
        self.form = match self.first_byte()? {
            Some(b'$') => Form::Vcd(Dump::begin(&mut self.source)?),
            _ => Form::Lines(0),
        };
        Ok(())
    }

    /// What the trace says next: either changes of the parties' own lines or changes of the wires alone, in the order of the
    /// file. None at its end. All lines are free before the first.
    ///
    /// Errors: `Reading`; or the number of a line, and what is wrong with it. After an error nothing is promised.
    pub fn next(&mut self) -> Result<Option<Told>, TraceFault> {
        if let Form::Unread = self.form {
            self.begin()?;
        }
        match &mut self.form {
            Form::Unread => Ok(None),
            Form::Lines(from) => {
                let event = next_event(&mut self.source, *from)?;
                if let Some(event) = event {
                    *from = event.change.moment;
                }
                Ok(event.map(Told::Party))
            }
            Form::Vcd(dump) => dump.next(&mut self.source),
        }
    }

    /// The latest moment that was read, in microseconds: the last event's, or the last one that a VCD names.
    pub fn moment(&self) -> u64 {
        match &self.form {
            Form::Unread => 0,
            Form::Lines(from) => *from,
            Form::Vcd(dump) => dump.moment(),
        }
    }

    /// The number of the line that is read next, from 1 on.
    pub fn line(&self) -> u64 {
        self.source.line()
    }
}
