//! The program: what it reads, what it runs, and what it saves.
ghost use Rattle.std.specs.Prelude.{◌≤◌};

use crate::arguments::{self, Arguments, is_standard};
use crate::failure::{RunFailure, Stream, exit_status};
use crate::noted::Noted;
use crate::outputs::{Clash, clash_of, require_trace};
use crate::reason::Reason;
use crate::returns::Returns;
use crate::saving::{lock_out, save_image};
use crate::{judge, reply, traced};
use cbm_program::Options;
use clap::error::ErrorKind;
use disk_facts::not_image;
use host_files::{GREATEST_IMAGE, read_file, read_whole};
use std::io::{BufWriter, Write};
use std::process::ExitCode;
use std::rt::Runtime;
use std::{env, fs, io};

/// Carries out the command line, and answers the exit status, also if its line can't be written.
pub fn run_program(rt: &HostRuntime) -> ExitCode {
    let words = match words_of(rt) {
        Ok(words) => words,
        Err(error) => return without_words(rt, &error),
    };
    if let Some(rest) = judge::asked(words.as_slice()) {
        return judge::run(rt, rest);
    }
    if reply::is_asked(words.as_slice()) {
        return reply::run(rt, words.as_slice());
    }
    let arguments = match arguments::parse(rt.alloc(), words.as_slice()) {
        Ok(arguments) => arguments,
        Err(error) => return without_arguments(rt, &error),
    };
    run_arguments(rt, &arguments)
}

/// Carries out the command line, unless two of its arguments name one file.
fn run_arguments(rt: &HostRuntime, arguments: &Arguments<'_>) -> ExitCode {
    if arguments.reads_twice() {
        return without_stream(rt, "error: only one of IMAGE and SCRIPT can be `-`");
    }
    if arguments.writes_twice() {
        return without_stream(
            rt,
            "error: only one of image, trace and picture can go to standard output",
        );
    }
    if let Some(Clash { name, is, word }) = clash_of(rt, arguments) {
        let _ = eprintln!(rt; "error: {name} is {is}: use another name for {word}");
        return ExitCode::from(1);
    }
    let ended = carry_out(rt, arguments);
    if let Err(failure) = &ended {
        let _ = failure.tell(rt, arguments);
    }
    ExitCode::from(exit_status(&ended))
}

// A word that isn't text is refused as one that doesn't parse.
fn without_words(rt: &HostRuntime, error: &io::Error) -> ExitCode {
    if error.kind() == io::ErrorKind::OutOfMemory {
        return without_memory(rt);
    }
    let _ = eprintln!(rt; "error: an argument is not valid UTF-8");
    ExitCode::from(1)
}

// What was asked for, as help or the version is, is no fault.
fn without_arguments(rt: &HostRuntime, error: &clap::Error) -> ExitCode {
    if error.kind() == ErrorKind::OutOfMemory {
        return without_memory(rt);
    }
    let _ = error.print(rt);
    let is_asked = error.exit_code() == 0;
    ExitCode::from(u8::from(!is_asked))
}

// Standard input is read once, and standard output is written for one thing.
fn without_stream(rt: &HostRuntime, line: &str) -> ExitCode {
    let _ = eprintln!(rt; "{line}");
    ExitCode::from(1)
}

// Memory ran out before the command line was read.
fn without_memory(rt: &HostRuntime) -> ExitCode {
    let _ = eprintln!(rt; "no memory");
    ExitCode::from(exit_status(&Err(RunFailure::NoMemory)))
}

/// The words of the command line. The lone word `help` asks for what `--help` does: a script would follow an image.
fn words_of(rt: &HostRuntime) -> io::Result<Vec<String>> {
    let mut words: Vec<String> = env::args(rt)?.collect(rt.alloc())?;
    if let [_, word] = words.as_mut_slice()
        && word.as_str() == "help"
    {
        *word = String::from_str(rt.alloc(), "--help")?;
    }
    Ok(words)
}

/// The image that was read.
fn whole(read: io::Result<Option<Vec<u8>>>) -> Result<Vec<u8>, RunFailure> {
    match read {
        Ok(Some(image)) => Ok(image),
        Ok(None) => Err(RunFailure::TooLong(Stream::Image)),
        Err(error) => Err(RunFailure::of_file(error, Stream::Image)),
    }
}

/// Reads the image, if it isn't longer than any is.
fn read_image<R: Runtime + AllocGlobal>(rt: &R, name: &str) -> Result<Vec<u8>, RunFailure> {
    if is_standard(name) {
        return whole(read_whole(rt.alloc(), rt.reader(), GREATEST_IMAGE));
    }
    match fs::open(rt, name) {
        Ok(file) => whole(read_file(rt.alloc(), file, GREATEST_IMAGE)),
        Err(error) => Err(RunFailure::of_file(error, Stream::Image)),
    }
}

/// Refuses a file that is no image of a 1541's disk. The one error is `Foreign`.
fn require_image(image: &[u8]) -> Result<(), RunFailure> {
    match not_image(image) {
        Some(why) => Err(RunFailure::Foreign(why)),
        None => Ok(()),
    }
}

/// Runs the script on the image, and saves that.
fn run_and_save(
    rt: &HostRuntime,
    image: &[u8],
    arguments: &Arguments<'_>,
    is_locked: bool,
) -> Result<(), RunFailure> {
    require_image(image)?;
    let saved = run_named(rt, image, arguments)?;
    save_image(rt, arguments, image, saved.as_slice(), is_locked)
}

fn carry_out(rt: &HostRuntime, arguments: &Arguments<'_>) -> Result<(), RunFailure> {
    require_trace(rt, arguments)?;
    let others_wait = lock_out(rt, arguments);
    let answer = match read_image(rt, arguments.image) {
        Ok(image) => run_and_save(rt, image.as_slice(), arguments, others_wait.is_some()),
        Err(failure) => Err(failure),
    };
    drop(others_wait);
    answer
}

/// Runs the script of the command line.
fn run_named<R: Runtime + AllocGlobal>(
    rt: &R,
    image: &[u8],
    arguments: &Arguments<'_>,
) -> Result<Vec<u8>, RunFailure> {
    if is_standard(arguments.script) {
        return run_read(rt, rt.reader(), image, arguments);
    }
    match fs::open(rt, arguments.script) {
        Ok(script) => run_read(rt, script, image, arguments),
        Err(error) => Err(RunFailure::of_file(error, Stream::Script)),
    }
}

/// Runs a script, and says why a line is refused.
fn run_read<R: Runtime + AllocGlobal, S: io::Read + Drop>(
    rt: &R,
    script: S,
    image: &[u8],
    arguments: &Arguments<'_>,
) -> Result<Vec<u8>, RunFailure> {
    let mut noted = Noted::new(Returns::new(script));
    let ended = if arguments.prints_aside() {
        run_aside(rt, &mut noted, image, arguments)
    } else {
        run_script(rt, &mut noted, image, arguments)
    };
    match ended {
        Err(RunFailure::Script(line, _)) => {
            let reason = Reason::of(noted.line(line), noted.is_wires());
            Err(RunFailure::Script(line, reason))
        }
        ended => ended,
    }
}

/// How the disk is run.
pub fn options_of(arguments: &Arguments<'_>) -> Options
    ensures first { 8 ≤ result.device }
    ensures last { result.device ≤ 11 }
{
    Options {
        device: arguments.device.clamp(8, 11),
        pace: arguments.pace,
        protected: arguments.is_read_only,
        check: arguments.is_checked,
    }
}

// What was printed before a fault is written too.
fn run_script<R: Runtime + AllocGlobal, S: io::Read>(
    rt: &R,
    script: &mut Noted<S>,
    image: &[u8],
    arguments: &Arguments<'_>,
) -> Result<Vec<u8>, RunFailure> {
    let mut output = BufWriter::new(rt.alloc(), io::writer(rt)).map_err(|_| RunFailure::NoMemory)?;
    let ended = traced::run(rt, script, &mut output, image, arguments);
    output
        .flush()
        .map_err(|_| RunFailure::File(Stream::Output, None))?;
    ended
}

// As standard output has the image, the trace or pictures, what the script prints goes to standard error.
fn run_aside<R: Runtime + AllocGlobal, S: io::Read>(
    rt: &R,
    script: &mut Noted<S>,
    image: &[u8],
    arguments: &Arguments<'_>,
) -> Result<Vec<u8>, RunFailure> {
    let mut output = Vec::new(rt.alloc());
    let ended = traced::run(rt, script, &mut output, image, arguments);
    let text = std::str::from_utf8(output.as_slice()).unwrap_or("");
    let _ = eprint!(rt; "{text}");
    ended
}
