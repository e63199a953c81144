//! A row of a picture.

use std::io;
use std::io::Write;

/// The most columns of a picture.
pub(crate) const WIDEST: usize = 512;

/// A row of characters, and how far it is written.
#[derive(Clone, Copy, Debug, Drop)]
pub(crate) struct Row {
    cells: [u8; WIDEST],
    end: usize,
}

impl Row {
    /// A row of spaces.
    pub(crate) fn empty() -> Row {
        Row {
            cells: [b' '; WIDEST],
            end: 0,
        }
    }

    /// Whether nothing is written in it.
    pub(crate) fn is_empty(&self) -> bool {
        self.end == 0
    }

    /// Writes a character into a column; nothing if there is no such column.
    pub(crate) fn put(&mut self, column: usize, byte: u8) {
        if let Some(cell) = self.cells.get_mut(column) {
            *cell = byte;
            self.end = self.end.max(column.saturating_add(1));
        }
    }

    /// Writes a text from a column on, if it stands clear of what is there already and ends before a width.
    pub(crate) fn label(&mut self, column: usize, text: &[u8], width: usize) {
        let is_clear = self.end == 0 || self.end < column;
        if !is_clear || column.saturating_add(text.len()) > width {
            return;
        }
        for (place, byte) in text.iter().enumerate() {
            self.put(column.saturating_add(place), *byte);
        }
    }

    /// Prints the row after its name.
    pub(crate) fn print<W: Write>(&self, writer: &mut W, name: &str) -> io::Result<()> {
        writer.write_all(name.as_bytes())?;
        writer.write_all(self.cells.get(..self.end).unwrap_or(&[]))?;
        writer.write_all(b"\n")
    }
}
