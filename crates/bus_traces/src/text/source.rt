//! The bytes of a reader, its lines, and their numbers.
ghost use Rattle.std.specs.Prelude.{◌≡◌, ◌+◌, ◌<◌, ◌≤◌, ℕ, List, [], ◌∷◌, length, slice_range, IfOk, IfSome, IsErrOf, MatchBool, OnOk};
ghost use Rattle.std.specs.Io.KnownBytes.{Keeps, Consumes, IsAtEnd};

use crate::fault::{Flaw, LineFault, TraceFault};
use arrayvec::ArrayVec;
use memchr::memchr;
use std::io;
use std::io::Read;

const BLOCK: usize = 4096;

/// Gives a reader's bytes one at a time or line by line, and takes no memory.
#[derive(Drop)]
pub struct Source<R> {
    reader: R,
    block: [u8; BLOCK],
    start: usize,
    end: usize,
    line: u64,
    ghost in_order: { start ≤ end },
    ghost in_block: { end ≤ 4096 },
}

/// Whether a byte parts words.
pub(crate) fn is_blank(byte: u8) -> bool {
    matches!(byte, b' ' | b'\t' | b'\n' | b'\r')
}

impl<R: Read> Source<R> {
    ghost use Rattle.bus_traces.specs.Lines.{source_bytes_left, TakesByte, TakesLine, BeginsWithLine, BeginsTooLong};

    /// The bytes of a reader, from which nothing was read yet.
    pub fn new(reader: R) -> Source<R>
        ensures { source_bytes_left R.remaining result ≡ R.remaining reader }
    {
        Source {
            reader,
            block: [0; BLOCK],
            start: 0,
            end: 0,
            line: 1,
        }
    }

    /// Reads on, as no byte waits.
    fn fill(&mut self) -> io::Result<()>
        requires { self.old.end ≤ self.old.start }
        ensures ok { OnOk result (Keeps (source_bytes_left R.remaining self.old) (source_bytes_left R.remaining self.new)) }
        ensures end { OnOk result (self.new.start ≡ self.new.end → IsAtEnd (source_bytes_left R.remaining self.new)) }
    {
        self.start = 0;
        self.end = 0;
        self.end = self.reader.read(&mut self.block)?;
        Ok(())
    }

    /// The byte that comes next, which stays; None at the end. Error: `Reading`.
    pub(crate) fn peek(&mut self) -> Result<Option<u8>, TraceFault> {
        if self.start >= self.end {
            self.fill().map_err(|_| TraceFault::Reading)?;
        }
        if self.start < self.end {
            return Ok(Some(self.block[self.start]));
        }
        Ok(None)
    }

    /// Takes the byte that waits.
    fn take_byte(&mut self) -> u8
        requires { self.old.start < self.old.end }
        ensures { Consumes (source_bytes_left R.remaining self.old) (source_bytes_left R.remaining self.new) (result ∷ []) }
    {
        let byte = self.block[self.start];
        self.start += 1;
        byte
    }

    /// Counts a line that ends.
    fn count(&mut self, byte: u8)
        ensures { source_bytes_left R.remaining self.new ≡ source_bytes_left R.remaining self.old }
    {
        if byte == b'\n' {
            self.line = self.line.saturating_add(1);
        }
    }

    /// Takes the next byte; None at the end. Error: `Reading`.
    pub(crate) fn next(&mut self) -> Result<Option<u8>, TraceFault>
        ensures { IfOk result (TakesByte (source_bytes_left R.remaining self.old) (source_bytes_left R.remaining self.new)) }
    {
        if self.start >= self.end {
            if self.fill().is_err() {
                return Err(TraceFault::Reading);
            }
            if self.start >= self.end {
                return Ok(None);
            }
        }
        let byte = self.take_byte();
        self.count(byte);
        Ok(Some(byte))
    }

    /// Puts the next line, without its end, into `line`, and answers whether there was one. An interrupted read is a fault as any
    /// other. Errors: `Reading`, or `Long` for a line of more than 1,000 bytes. After an error nothing is promised of later lines.
    pub fn next_line(&mut self, line: &mut ArrayVec<u8, 1000>) -> Result<bool, LineFault>
        ensures line { IfOk result (λ found. MatchBool found
            (TakesLine (source_bytes_left R.remaining self.old) (source_bytes_left R.remaining self.new) line.new.items)
            (IsAtEnd (source_bytes_left R.remaining self.old))) }
        ensures long { IsErrOf result LineFault.Long → BeginsTooLong (source_bytes_left R.remaining self.old) }
    {
        line.clear();
        'bytes: loop {
            match self.next() {
                Err(_) => return Err(LineFault::Reading),
                Ok(None) => return Ok(!line.is_empty()),
                Ok(Some(byte)) => {
                    if byte == b'\n' {
                        return Ok(true);
                    }
                    if line.is_full() {
                        return Err(LineFault::Long);
                    }
                    line.push(byte);
                }
            }
        }
    }

    /// The next line, without its end, if all of it waits. It stays.
    #[inline(always)]
    pub(crate) fn waiting_line(&self) -> Option<&[u8]>
        ensures { IfSome result (λ line. BeginsWithLine (slice_range self.now.block self.now.start self.now.end) line.now) }
    {
        let waiting = &self.block[self.start..self.end];
        let count = memchr(b'\n', waiting)?;
        Some(&waiting[..count])
    }

    /// Takes a line of so many bytes, and its end, which wait.
    #[inline(always)]
    pub(crate) fn pass_line(&mut self, count: usize)
        requires { self.old.start + count < self.old.end }
        ensures { (line : List ℕ) → length line ≡ count → BeginsWithLine (slice_range self.old.block self.old.start self.old.end) line →
            TakesLine (source_bytes_left R.remaining self.old) (source_bytes_left R.remaining self.new) line }
    {
        self.start += count + 1;
        self.line = self.line.saturating_add(1);
    }

    /// The byte that comes after blanks and ends of lines, which stays; None at the end. Error: `Reading`.
    pub(crate) fn skip_blanks(&mut self) -> Result<Option<u8>, TraceFault> {
        for _ in 0..u64::MAX {
            match self.peek()? {
                Some(byte) if is_blank(byte) => {
                    self.next()?;
                }
                other => return Ok(other),
            }
        }
        Ok(None)
    }

    /// Takes the rest of a line. Error: `Reading`.
    pub(crate) fn skip_line(&mut self) -> Result<(), TraceFault> {
        for _ in 0..u64::MAX {
            match self.next()? {
                Some(b'\n') | None => break,
                Some(_) => {}
            }
        }
        Ok(())
    }

    /// The number of the line that the next byte stands on, from 1 on.
    pub(crate) fn line(&self) -> u64 {
        self.line
    }

    /// What is wrong with the line that the next byte stands on.
    pub(crate) fn refused(&self, flaw: Flaw) -> TraceFault {
        TraceFault::Line(self.line, flaw)
    }
}
