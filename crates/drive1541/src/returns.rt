//! A reader of lines that may end with a carriage return and a line feed.
use std::io::{self, Read};

/// How many bytes are read at a time.
const BLOCK: usize = 4096;

/// A reader without the carriage returns before a line feed or the end.
#[derive(Drop)]
pub struct Returns<R> {
    reader: R,
    block: [u8; BLOCK],
    start: usize,
    end: usize,
    /// A carriage return was read, and what follows it wasn't.
    waits: bool,
}

impl<R: Read> Returns<R> {
    /// Nothing was read yet.
    pub fn new(reader: R) -> Returns<R> {
        Returns {
            reader,
            block: [0; BLOCK],
            start: 0,
            end: 0,
            waits: false,
        }
    }

    /// Reads on if no byte waits; whether one does.
    fn fill(&mut self) -> io::Result<bool> {
        if self.start >= self.end {
            self.start = 0;
            self.end = 0;
            self.end = self.reader.read(&mut self.block)?.min(BLOCK);
        }
        Ok(self.start < self.end)
    }

    /// The next byte without returns at the ends of lines; None if what was read is used up, or at the end.
    fn next_byte(&mut self) -> Option<u8> {
        for _ in 0..BLOCK {
            let byte = *self.block.get(self.start..self.end)?.first()?;
            if self.waits {
                self.waits = false;
                if byte != b'\n' {
                    return Some(b'\r');
                }
            }
            self.start = self.start.saturating_add(1);
            if byte != b'\r' {
                return Some(byte);
            }
            self.waits = true;
        }
        None
    }

    /// Puts what waits, as much as there is room for, if no carriage return is among it; how many bytes.
    fn put_plain(&mut self, buf: &mut [u8]) -> Option<usize> {
        let waiting = self.block.get(self.start..self.end)?;
        if self.waits || waiting.contains(&b'\r') {
            return None;
        }
        let count = waiting.len().min(buf.len());
        buf[..count].copy_from_slice(&waiting[..count]);
        self.start = self.start.saturating_add(count);
        Some(count)
    }

    /// Puts bytes that were read; how many.
    fn put(&mut self, buf: &mut [u8]) -> usize {
        if let Some(count) = self.put_plain(buf) {
            return count;
        }
        let mut count: usize = 0;
        for place in buf.iter_mut() {
            match self.next_byte() {
                Some(byte) => *place = byte,
                None => return count,
            }
            count = count.saturating_add(1);
        }
        count
    }
}

impl<R: Read> Read for Returns<R> {
    fn read(&mut self, buf: &mut [u8]) -> io::Result<usize> {
        for _ in 0..u64::MAX {
            if buf.is_empty() || !self.fill()? {
                return Ok(0);
            }
            let count = self.put(buf);
            if count > 0 {
                return Ok(count.min(buf.len()));
            }
        }
        Ok(0)
    }
}
