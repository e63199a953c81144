//! `drive1541 reply`: a bus whose host talks over standard input and standard output.

mod buses;
mod direct_buses;
mod disks;
mod failure;
mod seat;
mod words;

use buses::talk_on;
use clap::error::ErrorKind;
use direct_buses::talk_directly_on;
use disks::{Opened, open_disks, save_disks};
use failure::ReplyFailure;
use std::process::ExitCode;
use words::{Words, parse};

/// Whether the command line asks for a talk: its first word, after the program's own, is `reply`.
pub fn is_asked(words: &[String]) -> bool {
    match words.get(1) {
        Some(word) => word.as_str() == "reply",
        None => false,
    }
}

/// Opens the images, talks, and saves them.
fn carry_out(rt: &HostRuntime, words: &Words<'_>) -> Result<(), ReplyFailure> {
    let Opened { disks, images } = open_disks(rt, words)?;
    let disks = match words.direct() {
        Some(access) => talk_directly_on(rt, disks, words.seats(), access)?,
        None => talk_on(rt, disks, words.seats())?,
    };
    save_disks(rt, &disks, &images, words)
}

// What was asked for, as help is, is no fault.
fn without_words(rt: &HostRuntime, error: &clap::Error) -> ExitCode {
    let _ = error.print(rt);
    if error.kind() == ErrorKind::OutOfMemory {
        return ExitCode::from(3);
    }
    ExitCode::from(u8::from(error.exit_code() != 0))
}

/// Carries out a command line that asks for a talk, and answers the exit status.
pub fn run(rt: &HostRuntime, words: &[String]) -> ExitCode {
    let matches = match parse(rt.alloc(), words.get(2..).unwrap_or(&[])) {
        Ok(matches) => matches,
        Err(error) => return without_words(rt, &error),
    };
    let words = match Words::of(rt.alloc(), &matches) {
        Ok(words) => words,
        Err(fault) => {
            let _ = eprintln!(rt; "error: {fault}");
            return ExitCode::from(1);
        }
    };
    if let Some(name) = words.clash(rt) {
        let _ = eprintln!(rt; "error: {name} belongs to another drive: use another name for OUT");
        return ExitCode::from(1);
    }
    match carry_out(rt, &words) {
        Ok(()) => ExitCode::SUCCESS,
        Err(failure) => {
            let _ = failure.tell(rt, &words);
            ExitCode::from(failure.status())
        }
    }
}
