//! Lines of a host, by the rows of docs/reply.md.

use arrayvec::ArrayVec;
use bus_replies::{LineReader, ReplyRefusal, ReplyRequest, ready_text, request_of};
use cbm_iec::{Change, Line, Way};
use std::io::{self, Read};

/// Lines, and what each of them asks for.
const ASKED: [(&[u8], ReplyRequest); 11] = [
    (b"", ReplyRequest::Nothing),
    (b"\r", ReplyRequest::Nothing),
    (b"; let go", ReplyRequest::Nothing),
    (
        b"0 atn pull",
        ReplyRequest::Change(Change {
            moment: 0,
            line: Line::Atn,
            way: Way::Pull,
        }),
    ),
    (
        b"1000 clock free",
        ReplyRequest::Change(Change {
            moment: 1000,
            line: Line::Clock,
            way: Way::Free,
        }),
    ),
    (
        b"1000 data pull\r",
        ReplyRequest::Change(Change {
            moment: 1000,
            line: Line::Data,
            way: Way::Pull,
        }),
    ),
    (b"until 0", ReplyRequest::Until(0)),
    (b"until 2000", ReplyRequest::Until(2000)),
    (
        b"until 1000000000000000",
        ReplyRequest::Until(1_000_000_000_000_000),
    ),
    (b"end 3000", ReplyRequest::End(3000)),
    (b"end 3000\r", ReplyRequest::End(3000)),
];

/// Lines that ask for nothing.
const REFUSED: [&[u8]; 16] = [
    b" ",
    b"atn pull",
    b"0 atn",
    b"0 reset pull",
    b"0 atn low",
    b"0  atn pull",
    b" 0 atn pull",
    b"0 atn pull ",
    b"0 ATN pull",
    b"0 host atn pull",
    b"-1 atn pull",
    b"until",
    b"until ",
    b"until 1000000000000001",
    b"until 1 2",
    b"ends 3000",
];

#[test]
fn reads_what_is_asked(rt: HostRuntime) {
    for (line, asked) in &ASKED {
        assert!(rt; request_of(line) == Ok(*asked));
    }
    for line in &REFUSED {
        assert!(rt; request_of(line) == Err(ReplyRefusal::Words));
    }
}

#[test]
fn writes_marks(rt: HostRuntime) {
    assert!(rt; ready_text(0, None).as_slice() == b"ready 0\n".as_slice());
    assert!(rt; ready_text(1020, Some(1040)).as_slice() == b"ready 1020 1040\n".as_slice());
}

/// Gives so many bytes of a text at a time.
#[derive(Drop)]
struct Slowly<'a> {
    text: &'a [u8],
    at_once: usize,
}

impl<'a> Read for Slowly<'a> {
    fn read(&mut self, buf: &mut [u8]) -> io::Result<usize> {
        let room = buf.len().min(self.at_once).min(self.text.len());
        let (now, later) = self.text.split_at(room);
        buf[..room].copy_from_slice(now);
        self.text = later;
        Ok(room)
    }
}

/// The moments that a reader's lines ask for, up to the first line that is refused.
fn moments<R: Read + Drop>(reader: R) -> ArrayVec<u64, 8> {
    let mut lines = LineReader::new(reader);
    let mut moments = ArrayVec::new();
    for _ in 0..10_000 {
        let next = match lines.take() {
            Some(next) => next,
            None => match lines.fill() {
                Ok(true) => continue,
                Ok(false) => match lines.take_rest() {
                    Some(rest) => rest,
                    None => return moments,
                },
                Err(_) => return moments,
            },
        };
        if let Ok(ReplyRequest::Until(moment)) = next {
            let _ = moments.try_push(moment);
        }
    }
    moments
}

#[test]
fn reads_lines_in_parts(rt: HostRuntime) {
    let text = b"until 1\nuntil 20\n\nuntil 300\nuntil 4000";
    for at_once in 1..40 {
        let read = moments(Slowly { text, at_once });
        assert!(rt; read.as_slice() == [1, 20, 300, 4000].as_slice());
    }
}
