//! A reader that keeps what it read last, so that a refused line can be looked at.
use std::io::{self, Read};

/// How many bytes are kept.
const KEPT: usize = 8192;

/// How many of them stay if more are read.
const STAY: usize = 4096;

/// The first line of a script of line changes.
const LINES: &[u8; 6] = b"lines\n";

/// A reader, and what it read last.
#[derive(Drop)]
pub struct Noted<R> {
    reader: R,
    kept: [u8; KEPT],
    length: usize,
    // How many lines end before what is kept.
    lines: u32,
    is_wires: bool,
    is_begun: bool,
}

/// How many lines end in these bytes.
fn ends_in(bytes: &[u8]) -> u32 {
    let mut count: u32 = 0;
    for byte in bytes {
        if *byte == b'\n' {
            count = count.saturating_add(1);
        }
    }
    count
}

/// How many lines end in the first so many bytes of what is kept.
fn ends_before(kept: &[u8; KEPT], count: usize) -> u32 {
    match kept.get(..count) {
        Some(bytes) => ends_in(bytes),
        None => 0,
    }
}

/// The bytes after so many line feeds.
fn afterwards(bytes: &[u8], lines: u32) -> &[u8] {
    let mut left = lines;
    let mut from: usize = 0;
    for (place, byte) in bytes.iter().enumerate() {
        if left == 0 {
            break;
        }
        if *byte == b'\n' {
            left = left.saturating_sub(1);
            from = place.saturating_add(1);
        }
    }
    bytes.get(from..).unwrap_or(&[])
}

/// The bytes before the first line feed.
fn first_line(bytes: &[u8]) -> &[u8] {
    for (place, byte) in bytes.iter().enumerate() {
        if *byte == b'\n' {
            return bytes.get(..place).unwrap_or(bytes);
        }
    }
    bytes
}

/// What is kept without so many of its first bytes.
fn moved(kept: &[u8; KEPT], gone: usize) -> [u8; KEPT] {
    let mut new = [0; KEPT];
    if gone <= KEPT {
        let count = KEPT - gone;
        new[..count].copy_from_slice(&kept[gone..]);
    }
    new
}

impl<R: Read> Noted<R> {
    /// Nothing was read yet.
    pub fn new(reader: R) -> Noted<R> {
        Noted {
            reader,
            kept: [0; KEPT],
            length: 0,
            lines: 0,
            is_wires: false,
            is_begun: false,
        }
    }

    /// What is kept.
    fn bytes(&self) -> &[u8] {
        self.kept.get(..self.length).unwrap_or(&[])
    }

    /// Forgets what can't be of the line that is read, if there isn't room for so many bytes more.
    fn make_room(&mut self, more: usize) {
        let gone = self.length.saturating_sub(STAY);
        if self.length.saturating_add(more) <= KEPT {
            return;
        }
        let ended = ends_before(&self.kept, gone);
        self.lines = self.lines.saturating_add(ended);
        self.kept = moved(&self.kept, gone);
        self.length = self.length.saturating_sub(gone);
    }

    /// Keeps a byte, if there is room.
    fn keep(&mut self, byte: u8) {
        let length = self.length;
        if length < KEPT {
            self.kept[length] = byte;
            self.length = length + 1;
        }
    }

    /// Keeps what was read.
    fn note(&mut self, bytes: &[u8]) {
        self.make_room(bytes.len());
        for byte in bytes {
            self.keep(*byte);
        }
        if !self.is_begun {
            self.is_begun = true;
            self.is_wires = bytes.starts_with(LINES);
        }
    }

    /// Whether what was read begins as a script of line changes.
    pub fn is_wires(&self) -> bool {
        self.is_wires
    }

    /// The line of a number, from 1 on, if it is one of the last.
    pub fn line(&self, number: u32) -> &[u8] {
        let before = number.saturating_sub(1).saturating_sub(self.lines);
        first_line(afterwards(self.bytes(), before))
    }
}

impl<R: Read> Read for Noted<R> {
    fn read(&mut self, buf: &mut [u8]) -> io::Result<usize> {
        let count = self.reader.read(buf)?;
        self.note(buf.get(..count).unwrap_or(&[]));
        Ok(count)
    }
}
