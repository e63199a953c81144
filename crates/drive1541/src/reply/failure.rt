//! How a talk ended: its exit status, and its line on standard error.

use super::words::Words;
use crate::failure::{tell_changed, tell_too_long};
use crate::reason::{NO_IMAGE, image_words};
use bus_replies::{ReplyFault, ReplyRefusal};
use disk_facts::NotImage;
use std::io;

/// A file of the command line, by its drive's place, or a stream.
#[derive(Clone, Copy, Debug, PartialEq, Eq, Drop)]
pub enum FailedAt {
    /// The image of a drive.
    Image(usize),
    /// Where that goes.
    Out(usize),
    /// Standard input.
    Input,
    /// Standard output.
    Output,
}

/// Why the images weren't saved.
#[derive(Clone, Copy, Debug, PartialEq, Eq, Drop)]
pub enum ReplyFailure {
    /// The host's line with this number is refused, and why.
    Line(u64, ReplyRefusal),
    /// The image of the drive at a place is refused, by its fault's number.
    Image(usize, u8),
    /// The file of the drive at a place is not an image of a 1541's disk, and why.
    Foreign(usize, NotImage),
    /// A file couldn't be read or written, and why, if that is known.
    File(FailedAt, Option<io::ErrorKind>),
    /// The image of the drive at a place has more bytes than any.
    TooLong(usize),
    /// The image of the drive at a place was changed by another program since it was read.
    Changed(usize),
    /// Memory ran out.
    NoMemory,
}

/// The name of a file or a stream.
fn name_of<'a>(place: FailedAt, words: &Words<'a>) -> &'a str {
    match place {
        FailedAt::Image(place) => match words.seats().get(place) {
            Some(seat) => seat.image,
            None => "",
        },
        FailedAt::Out(place) => match words.seats().get(place) {
            Some(seat) => seat.out.unwrap_or(""),
            None => "",
        },
        FailedAt::Input => "input",
        FailedAt::Output => "output",
    }
}

impl ReplyFailure {
    /// The exit status.
    pub fn status(self) -> u8 {
        match self {
            ReplyFailure::Line(..) => 1,
            ReplyFailure::Image(..) | ReplyFailure::Foreign(..) => 2,
            ReplyFailure::File(..) | ReplyFailure::TooLong(_) | ReplyFailure::NoMemory => 3,
            ReplyFailure::Changed(_) => 3,
        }
    }

    /// Prints the line on standard error.
    pub fn tell(self, rt: &impl Eprint, words: &Words<'_>) -> io::Result<()> {
        match self {
            ReplyFailure::Line(line, refusal) => eprintln!(rt; "line {line} refused: {refusal}"),
            ReplyFailure::Image(place, number) => {
                let name = name_of(FailedAt::Image(place), words);
                let why = image_words(number);
                eprintln!(rt; "image refused: {name}: {number}: {why}")
            }
            ReplyFailure::Foreign(place, fault) => {
                let name = name_of(FailedAt::Image(place), words);
                let why = fault.words();
                eprintln!(rt; "image refused: {name}: {NO_IMAGE}: it is {why}")
            }
            ReplyFailure::File(place, Some(kind)) => {
                let name = name_of(place, words);
                eprintln!(rt; "file fault: {name}: {kind}")
            }
            ReplyFailure::File(place, None) => {
                let name = name_of(place, words);
                eprintln!(rt; "file fault: {name}")
            }
            ReplyFailure::TooLong(place) => {
                tell_too_long(rt, name_of(FailedAt::Image(place), words))
            }
            ReplyFailure::Changed(place) => tell_changed(rt, name_of(FailedAt::Out(place), words)),
            ReplyFailure::NoMemory => eprintln!(rt; "no memory"),
        }
    }

    /// What a refused call on a file was.
    pub fn of_file(error: io::Error, place: FailedAt) -> ReplyFailure {
        if error.kind() == io::ErrorKind::OutOfMemory {
            ReplyFailure::NoMemory
        } else {
            ReplyFailure::File(place, Some(error.kind()))
        }
    }

    /// What a talk that ended early was.
    pub fn of_talk(fault: ReplyFault) -> ReplyFailure {
        match fault {
            ReplyFault::Line(line, refusal) => ReplyFailure::Line(line, refusal),
            ReplyFault::Reading => ReplyFailure::File(FailedAt::Input, None),
            ReplyFault::Writing => ReplyFailure::File(FailedAt::Output, None),
        }
    }
}
