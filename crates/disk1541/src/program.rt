//! The program: the words of the command line, the command, the exit status.
use crate::lock::lock;
use crate::several::{change_each, images_of};
use crate::tasks::{carry_out, reads_input};
use clap::ArgMatches;
use clap::error::ErrorKind;
use disk_basics::host::{print, read_file};
use disk_basics::{Failure, What, in_memory};
use disk_commands::{flag, verb_of};
use disk_looks::Progress;
use host_files::text_of;
use std::alloc::AllocError;
use std::env::{Env, FillError};
use std::process::ExitCode;

/// The exit status where the command line is at fault.
const COMMAND_LINE: u8 = 64;

/// The most bytes of most words.
const SHORT_WORD: usize = 1024;

/// The most bytes that the system passes in a word, with the 0 after it.
const LONGEST_WORD: usize = 131_072;

/// Carries out the command line, and answers the exit status, also where its sentence can't be written.
pub fn run_program(rt: &HostRuntime) -> ExitCode {
    let progress = Progress::begin(rt);
    let words = match words_of(rt) {
        Ok(words) => words,
        Err(_) => return ended(rt, Failure::new(What::NoMemory)),
    };
    if let Some(text) = disk_commands::topic_of(words.as_slice()) {
        return finished(rt, print(rt, text.as_bytes()));
    }
    let Ok(help) = disk_commands::help_for(rt.alloc(), words.as_slice()) else {
        return ended(rt, Failure::new(What::NoMemory));
    };
    let mut input = Vec::new(rt.alloc());
    let line = match disk_commands::parse(rt.alloc(), words.as_slice(), help.as_str()) {
        Ok(line) => line,
        Err(error) => return without_line(rt, &error, words.as_slice()),
    };
    if let Some(status) = read_input(rt, &line, &mut input) {
        return ExitCode::from(status);
    }
    finished(rt, carried_out(rt, &line, progress, input.as_slice()))
}

/// Reads standard input, if the command puts it on a disk. It is read before the folder is locked: it may take its time, and nobody
/// is to wait for the image meanwhile. Answers the exit status, if it can't be read.
fn read_input(rt: &HostRuntime, line: &ArgMatches<'_>, input: &mut Vec<u8>) -> Option<u8> {
    if !reads_input(line) {
        return None;
    }
    match read_file(rt, "-") {
        Ok(bytes) => {
            *input = bytes;
            None
        }
        Err(failure) => {
            let _ = failure.tell(rt);
            Some(failure.status())
        }
    }
}

// Its bytes, if it was read.
fn given_of<'b>(line: &ArgMatches<'_>, input: &'b [u8]) -> Option<&'b [u8]> {
    if reads_input(line) { Some(input) } else { None }
}

/// Carries out the command line, on one image or on several.
fn carried_out<'a>(
    rt: &HostRuntime,
    line: &ArgMatches<'a>,
    progress: Progress,
    input: &'a [u8],
) -> Result<(), Failure> {
    if let Some((name, words)) = line.subcommand() {
        if let Some(verb) = verb_of(name) {
            let images = in_memory(images_of(rt.alloc(), verb, words))?;
            if images.len() > 1 || !images.is_empty() && flag(words, "recursive") {
                return change_each(rt, verb, words, images.as_slice());
            }
        }
    }
    let others_wait = lock(rt, line);
    let answer = carry_out(rt, line, progress, given_of(line, input));
    drop(others_wait);
    answer
}

/// The exit status of an answer; what went wrong is reported.
fn finished(rt: &HostRuntime, answer: Result<(), Failure>) -> ExitCode {
    match answer {
        Ok(()) => ExitCode::from(0),
        Err(failure) => ended(rt, failure),
    }
}

// Reports what went wrong.
fn ended(rt: &HostRuntime, failure: Failure) -> ExitCode {
    let _ = failure.tell(rt);
    ExitCode::from(failure.status())
}

// What was asked for, as help is, is no fault.
fn without_line(rt: &HostRuntime, error: &clap::Error, words: &[String]) -> ExitCode {
    if error.kind() == ErrorKind::OutOfMemory {
        return ended(rt, Failure::new(What::NoMemory));
    }
    let _ = error.print(rt);
    if error.exit_code() == 0 {
        return ExitCode::from(0);
    }
    if let Some(name) = disk_commands::other_name(words) {
        let _ = eprintln!(rt; "disk1541: that command is called `{name}` here");
    }
    ExitCode::from(COMMAND_LINE)
}

/// A word of the command line that is longer than most are; None where there is none.
fn long_word(rt: &HostRuntime, index: usize) -> Result<Option<String>, AllocError> {
    let mut room = vec![in rt.alloc(); 0u8; LONGEST_WORD]?;
    match rt.arg(index, room.as_mut_slice()) {
        Ok(count) => {
            let word = room.as_slice().get(..count).unwrap_or(&[]);
            Ok(Some(text_of(rt.alloc(), word)?))
        }
        Err(_) => Ok(None),
    }
}

/// A word of the command line; None where there is none.
fn word_of(rt: &HostRuntime, index: usize) -> Result<Option<String>, AllocError> {
    let mut room = [0; SHORT_WORD];
    match rt.arg(index, &mut room) {
        Ok(count) => {
            let word = room.get(..count).unwrap_or(&[]);
            Ok(Some(text_of(rt.alloc(), word)?))
        }
        Err(FillError::TooLong) => long_word(rt, index),
        Err(FillError::NotPresent) => Ok(None),
    }
}

/// The words of the command line, in which bytes that are no text are written as `\xHH`. The one error is want of memory.
fn words_of(rt: &HostRuntime) -> Result<Vec<String>, AllocError> {
    let mut words = Vec::new(rt.alloc());
    for index in 0..usize::MAX {
        let Some(word) = word_of(rt, index)? else {
            break;
        };
        words.push(word)?;
    }
    Ok(words)
}
