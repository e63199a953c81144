//! A picture of a trace in text: the three wires, with the moments above and the bytes below.
ghost use Rattle.std.specs.Prelude.{◌<◌};

use crate::bytes::{Decoder, Sent};
use crate::picture::row::{Row, WIDEST};
use arrayvec::ArrayVec;
use cbm_iec::{Event, Line};
use itoa::Buffer;
use std::io;
use std::io::Write;

mod row;

/// How wide the rows' names are.
const MARGIN: usize = 5;

/// The fewest columns of a picture, without the names.
const NARROWEST: usize = 20;

/// How many columns the changes of a moment take.
const STEP: usize = 2;

/// The lines, from above.
const LINES: [Line; 3] = [Line::Atn, Line::Clock, Line::Data];

/// The rows of a stretch.
#[derive(Clone, Copy, Debug, Drop)]
struct Rows {
    times: Row,
    wires: [Row; 3],
    bytes: Row,
}

/// Draws a trace, event by event: `-` is free, `_` is pulled, and each moment at which a wire changes takes two columns. It takes
/// no memory, however long the trace is: a stretch is printed when it is as wide as the picture.
#[derive(Drop)]
pub struct Picture<W> {
    writer: W,
    width: usize,
    decoder: Decoder,
    rows: Rows,
    used: usize,
    moment: u64,
    // Which wires changed in the columns of this moment.
    changed: [bool; 3],
}

impl Rows {
    fn empty() -> Rows {
        Rows {
            times: Row::empty(),
            wires: [Row::empty(); 3],
            bytes: Row::empty(),
        }
    }

    fn print<W: Write>(&self, writer: &mut W) -> io::Result<()> {
        let [atn, clock, data] = &self.wires;
        self.times.print(writer, "us   ")?;
        atn.print(writer, "ATN  ")?;
        clock.print(writer, "CLK  ")?;
        data.print(writer, "DATA ")?;
        if !self.bytes.is_empty() {
            self.bytes.print(writer, "     ")?;
        }
        writer.write_all(b"\n")
    }
}

/// The row of a line.
fn place_of(line: Line) -> usize
    ensures { result < 3 }
{
    match line {
        Line::Atn => 0,
        Line::Clock => 1,
        Line::Data => 2,
    }
}

/// How a level is drawn.
fn level(is_low: bool) -> u8 {
    if is_low { b'_' } else { b'-' }
}

/// A byte in hexadecimal, and whether EOI came before it.
fn byte_text(sent: Sent) -> ArrayVec<u8, 8> {
    let digits = b"0123456789abcdef";
    let mut text = ArrayVec::new();
    for place in [sent.byte / 16, sent.byte % 16] {
        let digit = digits.get(usize::from(place)).copied().unwrap_or(b'?');
        let _ = text.try_push(digit);
    }
    if sent.is_last {
        let _ = text.try_extend_from_slice(b" eoi");
    }
    text
}

impl<W: Write> Picture<W> {
    /// Before the first event; so many columns wide, with the rows' names, from 25 to 517.
    pub fn new(writer: W, columns: usize) -> Picture<W> {
        Picture {
            writer,
            width: columns.saturating_sub(MARGIN).clamp(NARROWEST, WIDEST),
            decoder: Decoder::new(),
            rows: Rows::empty(),
            used: 0,
            moment: 0,
            changed: [false; 3],
        }
    }

    /// Draws an event, which doesn't come before the last one.
    pub fn event(&mut self, event: Event) -> io::Result<()> {
        let line = event.change.line;
        let was = self.decoder.is_low(line);
        let sent = self.decoder.event(event);
        let is = self.decoder.is_low(line);
        if was != is {
            self.column(event.change.moment, line, was)?;
            self.edge(line, is);
        }
        if let Some(sent) = sent {
            let text = byte_text(sent);
            let column = self.used.saturating_sub(text.len());
            self.rows.bytes.label(column, text.as_slice(), self.width);
        }
        Ok(())
    }

    /// Whether the columns of the last moment have room for a change of a wire.
    fn goes_on(&self, moment: u64, line: Line) -> bool {
        self.used > 0 && moment == self.moment && !self.changed[place_of(line)]
    }

    /// Begins the columns of a moment, if a wire is about to change that was so.
    fn column(&mut self, moment: u64, line: Line, was: bool) -> io::Result<()> {
        if self.goes_on(moment, line) {
            return Ok(());
        }
        if self.used.saturating_add(STEP) > self.width {
            self.print()?;
        }
        let column = self.used;
        self.used = column.saturating_add(STEP);
        self.moment = moment;
        self.changed = [false; 3];
        let mut buffer = Buffer::new();
        let text = buffer.format(moment).as_bytes();
        self.rows.times.label(column, text, self.width);
        for wire in LINES {
            let is_low = if wire == line {
                was
            } else {
                self.decoder.is_low(wire)
            };
            self.put(wire, column, level(is_low));
            self.put(wire, column.saturating_add(1), level(is_low));
        }
        Ok(())
    }

    /// Draws a character of a wire.
    fn put(&mut self, line: Line, column: usize, byte: u8) {
        self.rows.wires[place_of(line)].put(column, byte);
    }

    /// Draws that a wire changes, in the last columns.
    fn edge(&mut self, line: Line, is_low: bool) {
        let edge = if is_low { b'\\' } else { b'/' };
        let column = self.used.saturating_sub(STEP);
        self.put(line, column, edge);
        self.put(line, column.saturating_add(1), level(is_low));
        self.changed[place_of(line)] = true;
    }

    /// Prints the stretch, and begins the next one.
    fn print(&mut self) -> io::Result<()> {
        let rows = self.rows;
        self.rows = Rows::empty();
        self.used = 0;
        rows.print(&mut self.writer)
    }

    /// Prints what was drawn last, and sends all on.
    pub fn end(&mut self) -> io::Result<()> {
        if self.used > 0 {
            self.print()?;
        }
        self.writer.flush()
    }
}
