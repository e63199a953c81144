//! `drive1541 judge TRACE`: whether a trace of the bus is a session, and else who broke it.
use crate::arguments::switch;
use crate::returns::Returns;
use cbm_iec::{Pace, Party};
use clap::{Arg, ArgAction, ArgMatches, Command, Error};
use judge_report::{
    Asked, Extent, Form, Judged, Range, ReportFault, Timing, Verdict, judge_trace, seat_of,
};
use std::alloc::{AllocError, Global};
use std::io::{BufReader, BufWriter, Read, Write};
use std::process::ExitCode;
use std::rt::Runtime;
use std::{fs, io};

mod with_disks;

use with_disks::judge_with;

/// What help ends with.
const EXAMPLES: &str = "Examples:
  drive1541 judge bus.vcd --drive 8:20 --drive 9:35
  drive1541 judge board.trace --drive 8:10-40
  drive1541 judge c64.trace --drive 8:20:kernal --loosely
  drive1541 judge c64.trace --drive 8:20:kernal --disk game.d64
  drive1541 judge long.trace --all    every breach, not the first alone

Exit status: 0 a session, 1 the host broke it first, 2 a drive did, 3 the trace can't be read or no
line changes in it, 64 the command line";

/// What help says of `--loosely`.
const LOOSELY: &str = "ignore changes of CLOCK and DATA that no drive looks at, such as a KERNAL's";

/// What help says of `--disk`.
const DISK: &str =
    "the image in a drive as it was switched on, one for each --drive in order: what the drives say is judged, too, loosely";

/// What help says of `--all`.
const ALL: &str = "after a breach, resume at the next pull of ATN at which all lines are free";

/// The word that asks for the judge.
const JUDGE: &str = "judge";

/// The exit statuses: what is said of the trace; or the trace can't be read, or the command line is none.
const SESSION: u8 = 0;

const BY_HOST: u8 = 1;

const BY_DRIVE: u8 = 2;

const UNREAD: u8 = 3;

const UNASKED: u8 = 64;

/// The rest of the command line, if its first word asks for the judge.
pub fn asked(words: &[String]) -> Option<&[String]> {
    match words {
        [_, first, ..] if first.as_str() == JUDGE => words.get(2..),
        _ => None,
    }
}

fn command<'a>(alloc: Global) -> Result<Command<'a>, Error> {
    let trace = Arg::new(alloc, "TRACE")
        .required(true)
        .action(ArgAction::Set)
        .help("the trace, lines or a VCD, `-` for standard input");
    let drive = Arg::new(alloc, "drive")
        .long("drive")
        .value_name("DEVICE:REACTION[-GREATEST][:PACE]")
        .action(ArgAction::Append)
        .default_value("8:20")
        .help(
            "a drive of the bus: its number, 8 to 11, its reaction, 1 to 60, or a range as 10-40, and `profile` or `kernal`",
        );
    let disk = Arg::new(alloc, "disk")
        .long("disk")
        .value_name("IMAGE")
        .action(ArgAction::Append)
        .help(DISK);
    let command = Command::new(alloc, "drive1541 judge")
        .about("Judge a trace of the bus: is it a session, and who broke it")
        .after_help(EXAMPLES)
        .no_binary_name(true)
        .arg(trace)?
        .arg(drive)?
        .arg(disk)?
        .arg(switch(alloc, "loosely", LOOSELY))?
        .arg(switch(alloc, "all", ALL))?
        .arg(switch(
            alloc,
            "moments",
            "print the moment of each act, in microseconds",
        ))?
        .arg(switch(alloc, "json", "print only the verdict, as JSON"))?;
    Ok(command)
}

/// Reads the command line, after `judge`.
fn parse<'a>(alloc: Global, words: &'a [String]) -> Result<ArgMatches<'a>, Error> {
    command(alloc)?.try_get_matches_from(words)
}

/// The drives of the command line, and how much longer those may take that have a range.
#[derive(Drop)]
struct Seats {
    parties: Vec<Party>,
    ranges: Vec<Range>,
}

/// The drives of the command line; None if a word is no drive.
fn seats_of(alloc: Global, matches: &ArgMatches<'_>) -> Result<Option<Seats>, AllocError> {
    let mut parties = Vec::new(alloc);
    let mut ranges = Vec::new(alloc);
    for word in matches.get_strs("drive").unwrap_or(&[]) {
        let Some(seat) = seat_of(word) else {
            return Ok(None);
        };
        parties.push(seat.party)?;
        if seat.range.more > 0 {
            ranges.push(seat.range)?;
        }
    }
    Ok(Some(Seats { parties, ranges }))
}

/// Judges the trace that the rest of the command line names, and answers the exit status.
pub fn run(rt: &HostRuntime, words: &[String]) -> ExitCode {
    let matches = match parse(rt.alloc(), words) {
        Ok(matches) => matches,
        Err(error) => {
            let _ = error.print(rt);
            let status = if error.exit_code() == 0 { 0 } else { UNASKED };
            return ExitCode::from(status);
        }
    };
    let Ok(Some(seats)) = seats_of(rt.alloc(), &matches) else {
        let _ = eprintln!(rt;
            "error: --drive needs DEVICE:REACTION or DEVICE:REACTION:PACE, such as 8:20; REACTION can be a range, such as 10-40"
        );
        return ExitCode::from(UNASKED);
    };
    let name = matches.get_str("TRACE").unwrap_or("");
    let images = matches.get_strs("disk").unwrap_or(&[]);
    if !images.is_empty() {
        return ExitCode::from(judge_disks(rt, name, &matches, &seats, images));
    }
    let asked = Asked {
        parties: seats.parties.as_slice(),
        ranges: seats.ranges.as_slice(),
        timing: timing_of(&matches),
        extent: extent_of(&matches),
        form: form_of(&matches),
    };
    ExitCode::from(judge_named(rt, name, asked))
}

/// Judges the trace with disks in the drives, if the command line asks for nothing else.
fn judge_disks(
    rt: &HostRuntime,
    name: &str,
    matches: &ArgMatches<'_>,
    seats: &Seats,
    images: &[&str],
) -> u8 {
    let is_more = form_of(matches) != Form::Acts || extent_of(matches) != Extent::FirstBreach;
    if is_more || !seats.ranges.is_empty() || images.len() != seats.parties.len() {
        let _ = eprintln!(rt;
            "error: --disk is given once for each --drive, without ranges, --all, --moments and --json"
        );
        return UNASKED;
    }
    judge_with(rt, name, seats.parties.as_slice(), images)
}

fn form_of(matches: &ArgMatches<'_>) -> Form {
    if matches.get_flag("json") {
        Form::Json
    } else if matches.get_flag("moments") {
        Form::ActsWithMoments
    } else {
        Form::Acts
    }
}

fn extent_of(matches: &ArgMatches<'_>) -> Extent {
    if matches.get_flag("all") {
        Extent::All
    } else {
        Extent::FirstBreach
    }
}

fn timing_of(matches: &ArgMatches<'_>) -> Timing {
    if matches.get_flag("loosely") {
        Timing::Loosely
    } else {
        Timing::Kept
    }
}

fn judge_named<R: Runtime + AllocGlobal>(rt: &R, name: &str, asked: Asked<'_>) -> u8 {
    if name == "-" {
        return judge_read(rt, rt.reader(), asked);
    }
    match fs::open(rt, name) {
        Ok(trace) => judge_read(rt, trace, asked),
        Err(error) => {
            let kind = error.kind();
            let _ = eprintln!(rt; "file fault: {name}: {kind}");
            UNREAD
        }
    }
}

fn judge_read<R: Runtime + AllocGlobal, I: io::Read + Drop>(
    rt: &R,
    trace: I,
    asked: Asked<'_>,
) -> u8 {
    match judge_buffered(rt, trace, asked) {
        Ok(Ok(judged)) => {
            hint(rt, judged, asked);
            status_of(judged.verdict)
        }
        Ok(Err(fault)) => {
            let _ = tell_fault(rt, fault);
            status_of_fault(fault)
        }
        Err(error) => {
            let _ = tell_stream(rt, &error);
            UNREAD
        }
    }
}

/// Says how a trace is judged that begins as a computer's, if it was judged otherwise and is no session so.
fn hint(rt: &impl Eprint, judged: Judged, asked: Asked<'_>) {
    let is_kept = asked.timing == Timing::Kept
        || asked.parties.iter().all(|it| it.pace == Pace::Profile);
    if judged.is_of_kernal && is_kept && judged.verdict != Verdict::Session {
        let _ = eprintln!(rt;
            "hint: this looks like the trace of a computer with a KERNAL: use --loosely, and drives such as 8:20:kernal"
        );
    }
}

/// Prints why a trace isn't judged.
fn tell_fault(rt: &impl Eprint, fault: ReportFault) -> io::Result<()> {
    match fault {
        ReportFault::Writing => eprintln!(rt; "file fault: standard output"),
        fault => eprintln!(rt; "error: {fault}"),
    }
}

/// Prints what went wrong at standard output, or as a buffer was made.
fn tell_stream(rt: &impl Eprint, error: &io::Error) -> io::Result<()> {
    match error.kind() {
        io::ErrorKind::OutOfMemory => eprintln!(rt; "no memory"),
        kind => eprintln!(rt; "file fault: standard output: {kind}"),
    }
}

fn judge_buffered<R: Runtime + AllocGlobal, I: io::Read + Drop>(
    rt: &R,
    trace: I,
    asked: Asked<'_>,
) -> io::Result<Result<Judged, ReportFault>> {
    let input = BufReader::new(rt.alloc(), trace)?;
    let mut output = BufWriter::new(rt.alloc(), io::writer(rt))?;
    let judged = judge_trace(rt.alloc(), Returns::new(input), &mut output, &asked);
    output.flush()?;
    Ok(judged)
}

fn status_of(verdict: Verdict) -> u8 {
    match verdict {
        Verdict::Session => SESSION,
        Verdict::Host(_) => BY_HOST,
        Verdict::Drive(_) => BY_DRIVE,
    }
}

fn status_of_fault(fault: ReportFault) -> u8 {
    match fault {
        ReportFault::Drives(_) | ReportFault::Range => UNASKED,
        _ => UNREAD,
    }
}
