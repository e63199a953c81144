// A reader and a writer over memory that fail at one call.
ghost use Rattle.std.specs.Prelude.{◌≤◌};

use std::io;
use std::io::{ErrorKind, Read, Write};

/// Gives the bytes up to three at a time, and fails once `calls` calls were made.
#[derive(Drop)]
pub struct FaultyReader<'a> {
    pub bytes: &'a [u8],
    pub calls: u32,
    pub kind: ErrorKind,
}

impl Read for FaultyReader<'_> {
    fn read(&mut self, buf: &mut [u8]) -> io::Result<usize> {
        if self.calls == 0 {
            return Err(io::Error::from(self.kind));
        }
        self.calls -= 1;
        let count = self.bytes.len().min(buf.len()).min(3);
        let (front, rest) = self.bytes.split_at(count);
        buf[..count].copy_from_slice(front);
        self.bytes = rest;
        Ok(count)
    }
}

/// Takes one byte at a time, and fails once `calls` calls were made; with no kind it then takes none.
#[derive(Drop)]
pub struct FaultyWriter {
    pub bytes: Vec<u8>,
    pub calls: u32,
    pub kind: Option<ErrorKind>,
}

impl Write for FaultyWriter {
    fn write(&mut self, buf: &[u8]) -> io::Result<usize> {
        if self.calls == 0 {
            return match self.kind {
                Some(kind) => Err(io::Error::from(kind)),
                None => Ok(0),
            };
        }
        self.calls -= 1;
        let Some(byte) = buf.first() else {
            return Ok(0);
        };
        self.bytes.push(*byte)?;
        Ok(1)
    }

    fn flush(&mut self) -> io::Result<()> {
        Ok(())
    }
}

/// Takes all bytes and keeps none.
#[derive(Drop)]
pub struct Sink;

impl Write for Sink {
    fn write(&mut self, buf: &[u8]) -> io::Result<usize> {
        Ok(buf.len())
    }

    fn flush(&mut self) -> io::Result<()> {
        Ok(())
    }
}
