//! The acts of a session, one a line.

use bus_judge::Mark;
use cbm_iec::{Act, Event, Who};
use std::io::{self, Write};

/// How what is said of a trace is printed.
#[derive(Clone, Copy, Debug, PartialEq, Eq, Drop)]
pub enum Form {
    /// The acts, one a line, and the verdict.
    Acts,
    /// The same; each act begins with its moment in microseconds: when it was completed, or an attention began.
    ActsWithMoments,
    /// The verdict alone, as an object of JSON.
    Json,
}

/// Prints acts as they come: an attention with its bytes in one line, and each other act in a line. A byte that several
/// drives heard stands once.
#[derive(Drop)]
pub struct Teller {
    /// An attention's line was begun.
    attends: bool,
    /// The host changed a line since a byte of its own was printed.
    is_fresh: bool,
    /// How many bytes were completed since ATN was pulled or freed.
    bytes: u32,
    form: Form,
}

fn signal(is_last: bool) -> &'static str {
    if is_last { " eoi" } else { "" }
}

impl Teller {
    /// Nothing was told.
    pub fn new(form: Form) -> Teller {
        Teller {
            attends: false,
            is_fresh: true,
            bytes: 0,
            form,
        }
    }

    /// The number of the byte that isn't completed, from 1 on, since ATN was pulled or freed.
    pub fn byte(&self) -> u32 {
        self.bytes.saturating_add(1)
    }

    /// Counts the byte that an act completes; one that several drives hear counts once.
    fn count(&mut self, mark: Mark) {
        match mark {
            Mark::ForEach(Act::Pulled | Act::Released) => self.bytes = 0,
            Mark::For(_, Act::Said(_, _)) => self.bytes = self.bytes.saturating_add(1),
            Mark::For(_, Act::Attention(_) | Act::Heard(_, _)) if self.is_fresh => {
                self.bytes = self.bytes.saturating_add(1);
            }
            _ => {}
        }
    }

    /// Begins a line: with a moment, if these are told.
    fn begin<W: Write>(&self, output: &mut W, moment: u64) -> io::Result<()> {
        match self.form {
            Form::ActsWithMoments => write!(output, "{moment} us "),
            Form::Acts | Form::Json => Ok(()),
        }
    }

    /// Ends the line that was begun.
    pub fn end_line<W: Write>(&mut self, output: &mut W) -> io::Result<()> {
        if self.attends {
            self.attends = false;
            output.write_all(b"\n")?;
        }
        Ok(())
    }

    /// An event, and the act that it completes.
    pub fn tell<W: Write>(&mut self, output: &mut W, event: Event, mark: Mark) -> io::Result<()> {
        if event.who == Who::Host {
            self.is_fresh = true;
        }
        self.count(mark);
        if self.form == Form::Json {
            if let Mark::For(_, Act::Attention(_) | Act::Heard(_, _)) = mark {
                self.is_fresh = false;
            }
            return Ok(());
        }
        self.print(output, event, mark)
    }

    fn print<W: Write>(&mut self, output: &mut W, event: Event, mark: Mark) -> io::Result<()> {
        match mark {
            Mark::Plain => Ok(()),
            Mark::ForEach(Act::Pulled) => {
                self.end_line(output)?;
                self.attends = true;
                self.begin(output, event.change.moment)?;
                output.write_all(b"attention")
            }
            Mark::ForEach(_) => self.end_line(output),
            Mark::For(device, act) => { self.tell_drive(output, event.change.moment, device, act) }
        }
    }

    fn tell_drive<W: Write>(
        &mut self,
        output: &mut W,
        moment: u64,
        device: u8,
        act: Act,
    ) -> io::Result<()> {
        match act {
            Act::Said(byte, last) => {
                let signal = signal(last);
                self.begin(output, moment)?;
                writeln!(output, "drive {device} {byte:02x}{signal}")
            }
            Act::Silent => {
                self.begin(output, moment)?;
                writeln!(output, "drive {device} has nothing to say")
            }
            _ if !self.is_fresh => Ok(()),
            Act::Attention(byte) => {
                self.is_fresh = false;
                write!(output, " {byte:02x}")
            }
            Act::Heard(byte, eoi) => {
                self.is_fresh = false;
                let signal = signal(eoi);
                self.begin(output, moment)?;
                writeln!(output, "host {byte:02x}{signal}")
            }
            Act::Pulled | Act::Released => Ok(()),
        }
    }
}
