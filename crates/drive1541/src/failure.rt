//! How the program ended: its exit status, and its line on standard error.
ghost use Rattle.std.specs.Prelude.{◌≡◌};
ghost use Rattle.drive1541.specs.Failure.{run_exit_status, failure_of, run_status, failure_status};

use crate::arguments::Arguments;
use crate::reason::{NO_IMAGE, Reason, image_words};
use cbm_program::RunFault;
use disk_facts::NotImage;
use host_files::GREATEST_IMAGE;
use std::io;

/// A file of the command line, or standard output.
#[derive(Clone, Copy, Debug, PartialEq, Eq)]
pub enum Stream {
    /// The image that is read.
    Image,
    /// The script.
    Script,
    /// The image that is saved.
    Out,
    /// Standard output.
    Output,
    /// The trace.
    Trace,
}

/// Why OUT wasn't written.
#[derive(Clone, Copy, Debug, PartialEq, Eq)]
pub enum RunFailure {
    /// The line with this number is refused, and why.
    Script(u32, Reason),
    /// The image is refused, by its fault's number.
    Image(u8),
    /// The file is not an image of a 1541's disk, and why.
    Foreign(NotImage),
    /// A file couldn't be read or written, and why, if that is known.
    File(Stream, Option<io::ErrorKind>),
    /// The image has more bytes than any.
    TooLong(Stream),
    /// The image was changed by another program since it was read.
    Changed,
    /// A file that is no trace would be written over by one.
    NoTrace,
    /// Memory ran out.
    NoMemory,
}

/// Prints which file can't be read or written, and why, if that is known.
fn tell_file(rt: &impl Eprint, name: &str, why: Option<io::ErrorKind>) -> io::Result<()> {
    match why {
        Some(kind) => eprintln!(rt; "file fault: {name}: {kind}"),
        None => eprintln!(rt; "file fault: {name}"),
    }
}

/// Prints which image has more bytes than any.
pub fn tell_too_long(rt: &impl Eprint, name: &str) -> io::Result<()> {
    eprintln!(rt;
        "file fault: {name}: it has more than {GREATEST_IMAGE} bytes: too many to be read here"
    )
}

/// Prints which image another program changed.
pub fn tell_changed(rt: &impl Eprint, name: &str) -> io::Result<()> {
    eprintln!(rt; "file fault: {name}: another program changed it meanwhile, so nothing was saved")
}

/// Prints which file isn't written over by a trace.
fn tell_no_trace(rt: &impl Eprint, name: &str) -> io::Result<()> {
    eprintln!(rt; "file fault: {name}: it exists and is not a trace: use another name for --trace")
}

/// The exit status of a program that ended so.
pub fn exit_status(ended: &Result<(), RunFailure>) -> u8
    ensures { result ≡ run_exit_status ended.now }
{
    match ended {
        Ok(()) => 0,
        Err(failure) => failure.status(),
    }
}

impl RunFailure {
    /// The exit status.
    pub fn status(self) -> u8
        ensures { result ≡ failure_status self }
    {
        match self {
            RunFailure::Script(..) => 1,
            RunFailure::Image(_) => 2,
            RunFailure::Foreign(_) => 2,
            RunFailure::File(..) | RunFailure::TooLong(_) | RunFailure::NoMemory => 3,
            RunFailure::Changed | RunFailure::NoTrace => 3,
        }
    }

    /// Prints the line on standard error.
    pub fn tell(self, rt: &impl Eprint, arguments: &Arguments<'_>) -> io::Result<()> {
        match self {
            RunFailure::Script(line, reason) => {
                let words = reason.words();
                eprintln!(rt; "script line {line} refused: {words}")
            }
            RunFailure::Image(number) => {
                let words = image_words(number);
                eprintln!(rt; "image refused: {number}: {words}")
            }
            RunFailure::Foreign(why) => {
                let words = why.words();
                eprintln!(rt; "image refused: {NO_IMAGE}: it is {words}")
            }
            RunFailure::File(stream, why) => tell_file(rt, arguments.name_of(stream), why),
            RunFailure::TooLong(stream) => tell_too_long(rt, arguments.name_of(stream)),
            RunFailure::Changed => tell_changed(rt, arguments.name_of(Stream::Out)),
            RunFailure::NoTrace => tell_no_trace(rt, arguments.name_of(Stream::Trace)),
            RunFailure::NoMemory => eprintln!(rt; "no memory"),
        }
    }

    /// What a refused call on a file was.
    pub fn of_file(error: io::Error, stream: Stream) -> RunFailure {
        if error.kind() == io::ErrorKind::OutOfMemory {
            RunFailure::NoMemory
        } else {
            RunFailure::File(stream, Some(error.kind()))
        }
    }

    /// What a run that ended early was.
    pub fn of_run(fault: RunFault) -> RunFailure
        ensures failure { result ≡ failure_of fault }
        ensures status { failure_status result ≡ run_status fault }
    {
        match fault {
            RunFault::Script(line) => RunFailure::Script(line, Reason::Unknown),
            RunFault::Image(number) => RunFailure::Image(number),
            RunFault::Memory => RunFailure::NoMemory,
            RunFault::Reading => RunFailure::File(Stream::Script, None),
            RunFault::Writing => RunFailure::File(Stream::Output, None),
        }
    }
}
