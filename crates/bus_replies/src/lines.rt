//! The lines of a host, read where they stand.
ghost use Rattle.std.specs.Prelude.{◌≡◌, ◌-◌, ◌<◌, ◌≤◌, length, IfOk, IfSome};
ghost use Rattle.bus_replies.specs.Replies.{IsReplyInRange};

use crate::fault::ReplyRefusal;
use crate::request::{LONGEST, ReplyRequest, request_of};
use std::io;
use std::io::Read;

/// How many bytes are read at a time at most.
const BLOCK: usize = 4096;

/// Gives the requests of a reader's lines. It takes no memory, and copies no line but one whose end wasn't read yet.
#[derive(Drop)]
pub struct LineReader<R> {
    reader: R,
    block: [u8; BLOCK],
    start: usize,
    end: usize,
    ghost in_order: { start ≤ end },
    ghost in_block: { end ≤ 4096 },
}

/// Where the first line in these bytes ends.
fn line_end(bytes: &[u8]) -> Option<usize>
    ensures { IfSome result (λ at. at < length bytes.now) }
{
    bytes.iter().position(|byte| *byte == b'\n')
}

impl<R: Read> LineReader<R> {
    /// A host that has said nothing yet.
    pub fn new(reader: R) -> LineReader<R> {
        LineReader {
            reader,
            block: [0; BLOCK],
            start: 0,
            end: 0,
        }
    }

    /// What was read, and not taken.
    fn waiting(&self) -> &[u8]
        ensures { length result.now ≡ self.now.end - self.now.start }
    {
        &self.block[self.start..self.end]
    }

    /// Takes the next line, if its end was read: what it asks for, or why it is refused.
    pub fn take(&mut self) -> Option<Result<ReplyRequest, ReplyRefusal>>
        ensures { IfSome result (λ asked. IfOk asked IsReplyInRange) }
    {
        let length = line_end(self.waiting())?;
        let line = self.start;
        self.start += length + 1;
        Some(request_of(&self.block[line..line + length]))
    }

    /// Takes the last line if it has no end, as far as it was read.
    pub fn take_rest(&mut self) -> Option<Result<ReplyRequest, ReplyRefusal>>
        ensures { IfSome result (λ asked. IfOk asked IsReplyInRange) }
    {
        if self.start == self.end {
            return None;
        }
        let line = self.start;
        self.start = self.end;
        Some(request_of(&self.block[line..self.end]))
    }

    /// Whether more bytes of a line wait than one may have.
    pub fn is_long(&self) -> bool {
        self.end - self.start > LONGEST
    }

    /// What waits stands at the beginning of the block.
    fn to_front(&mut self) {
        self.block
            .as_mut_slice()
            .copy_within(self.start..self.end, 0);
        self.end -= self.start;
        self.start = 0;
    }

    /// Reads on, and answers whether there was something to read. An interrupted read is a fault as any other.
    pub fn fill(&mut self) -> io::Result<bool> {
        self.to_front();
        let count = self.reader.read(&mut self.block[self.end..])?;
        self.end += count;
        Ok(count > 0)
    }
}
