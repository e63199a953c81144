//! The words of the command line.
use crate::failure::Stream;
use cbm_direct_desk::Access;
use cbm_program::Pace;
use clap::{Arg, ArgAction, ArgMatches, Command, Error, value_parser};
use std::alloc::Global;

/// The program's version.
const VERSION: &str = "0.4.0";

/// What the command line asks for.
#[derive(Drop)]
pub struct Arguments<'a> {
    /// The file of the disk's image.
    pub image: &'a str,
    /// The file of the script.
    pub script: &'a str,
    /// The file that the image is saved to; None if nothing is saved.
    pub out: Option<&'a str>,
    /// The drive's number, 8 to 11.
    pub device: u8,
    /// The pace that it keeps on the bus.
    pub pace: Pace,
    /// The disk is protected.
    pub is_read_only: bool,
    /// The disk is checked first.
    pub is_checked: bool,
    /// The file that the trace of the bus is written to, if one is asked for.
    pub trace: Option<&'a str>,
    /// The bus is drawn.
    pub is_drawn: bool,
    /// The drive's direct access, if it has it.
    pub direct: Option<Access>,
}

/// The word that means standard input or standard output.
const STANDARD: &str = "-";

/// What help ends with.
const EXAMPLES: &str = "Commands, in place of IMAGE and SCRIPT:
  judge  Judge a trace of the bus: is it a session, and who broke it
  reply  Drives on a bus whose host is a program of your own

Examples:
  drive1541 disk.d64 load.script                print what the requests of a script give
  drive1541 disk.d64 save.script new.d64        save the changed image, too
  drive1541 disk.d64 load.script --draw         draw the lines of the bus
  drive1541 judge bus.vcd --drive 8:20          see `drive1541 judge --help`
  drive1541 reply disk.d64=new.d64              see `drive1541 reply --help`";

/// Whether a name means standard input or standard output.
pub fn is_standard(name: &str) -> bool {
    name == STANDARD
}

impl<'a> Arguments<'a> {
    /// Whether standard input is wanted twice.
    pub fn reads_twice(&self) -> bool {
        is_standard(self.image) && is_standard(self.script)
    }

    /// Whether the image goes to standard output.
    fn prints_image(&self) -> bool {
        self.out.is_some_and(is_standard)
    }

    /// Whether the trace goes to standard output, or a picture of it.
    fn prints_trace(&self) -> bool {
        self.is_drawn || self.trace.is_some_and(is_standard)
    }

    /// Whether standard output has something else than what the script prints, so that this goes elsewhere.
    pub fn prints_aside(&self) -> bool {
        self.prints_image() || self.prints_trace()
    }

    /// Whether standard output is wanted twice.
    pub fn writes_twice(&self) -> bool {
        let is_both = self.is_drawn && self.trace.is_some_and(is_standard);
        is_both || self.prints_image() && self.prints_trace()
    }

    /// Whether the events on the bus are wanted.
    pub fn is_traced(&self) -> bool {
        self.is_drawn || self.trace.is_some()
    }

    /// The word of the command line that names a stream, or `output`.
    pub fn name_of(&self, stream: Stream) -> &'a str {
        match stream {
            Stream::Image => self.image,
            Stream::Script => self.script,
            Stream::Out => self.out.unwrap_or(""),
            Stream::Output => "output",
            Stream::Trace => self.trace.unwrap_or(""),
        }
    }
}

/// A file that the command line names.
fn file<'a>(alloc: Global, name: &'a str, help: &'a str, is_needed: bool) -> Arg<'a> {
    Arg::new(alloc, name)
        .required(is_needed)
        .action(ArgAction::Set)
        .help(help)
}

/// A word that is there or isn't.
pub fn switch<'a>(alloc: Global, name: &'a str, help: &'a str) -> Arg<'a> {
    Arg::new(alloc, name)
        .long(name)
        .action(ArgAction::SetTrue)
        .help(help)
}

/// The word for direct access, `--direct` or `--direct=raw`.
pub fn direct<'a>(alloc: Global, help: &'a str) -> Arg<'a> {
    Arg::new(alloc, "direct")
        .long("direct")
        .value_name("ACCESS")
        .num_args(0..=1)
        .require_equals(true)
        .default_missing_value("guarded")
        .value_parser(["guarded", "raw"].as_slice())
        .help(help)
}

/// The direct access that the command line asks for.
pub fn direct_of(matches: &ArgMatches<'_>) -> Option<Access> {
    match matches.get_str("direct") {
        None => None,
        Some("raw") => Some(Access::Raw),
        Some(_) => Some(Access::Guarded),
    }
}

/// The pace of a word.
fn pace_called(word: Option<&str>) -> Pace {
    match word {
        Some("kernal") => Pace::Kernal,
        _ => Pace::Profile,
    }
}

/// What may stand on the command line.
fn command<'a>(alloc: Global) -> Result<Command<'a>, Error> {
    let device = Arg::new(alloc, "device")
        .long("device")
        .value_name("N")
        .value_parser(value_parser!(u8).range(8..12))
        .default_value("8")
        .help("the drive's number, 8 to 11");
    let pace = Arg::new(alloc, "pace")
        .long("pace")
        .value_name("PACE")
        .value_parser(["profile", "kernal"].as_slice())
        .default_value("profile")
        .help("the drive's times on the bus");
    let trace = Arg::new(alloc, "trace")
        .long("trace")
        .value_name("FILE")
        .action(ArgAction::Set)
        .help(
            "write each change of the bus's lines, as VCD if FILE ends with .vcd; `-` for standard output",
        );
    let command = Command::new(alloc, "drive1541")
        .about("Run a script of requests on a disk image")
        .version(VERSION)
        .after_help(EXAMPLES)
        .arg(file(
            alloc,
            "IMAGE",
            "the disk image, `-` for standard input",
            true,
        ))?
        .arg(file(
            alloc,
            "SCRIPT",
            "the requests, a line each, `-` for standard input",
            true,
        ))?
        .arg(file(
            alloc,
            "OUT",
            "where the image goes, `-` for standard output; without it nothing is saved",
            false,
        ))?
        .arg(device)?
        .arg(pace)?
        .arg(switch(alloc, "read-only", "write-protect the disk"))?
        .arg(switch(alloc, "check", "first print whether the disk is sound"))?
        .arg(direct(
            alloc,
            "let channels read and write single blocks; `raw`: write any, even of files",
        ))?
        .arg(switch(alloc, "dry-run", "save nothing"))?
        .arg(trace)?
        .arg(switch(alloc, "draw", "print a picture of the bus's lines"))?;
    Ok(command)
}

/// Reads the command line.
pub fn parse<'a>(alloc: Global, words: &'a [String]) -> Result<Arguments<'a>, Error> {
    let matches = command(alloc)?.try_get_matches_from(words)?;
    Ok(arguments_of(&matches))
}

/// Where the image goes, if anything is saved.
fn out_of<'a>(matches: &ArgMatches<'a>) -> Option<&'a str> {
    if matches.get_flag("dry-run") {
        return None;
    }
    matches.get_str("OUT")
}

/// What the command line asks for.
fn arguments_of<'a>(matches: &ArgMatches<'a>) -> Arguments<'a> {
    Arguments {
        image: matches.get_str("IMAGE").unwrap_or(""),
        script: matches.get_str("SCRIPT").unwrap_or(""),
        out: out_of(matches),
        device: matches.get_one::<u8>("device").unwrap_or(8),
        pace: pace_called(matches.get_str("pace")),
        is_read_only: matches.get_flag("read-only"),
        is_checked: matches.get_flag("check"),
        trace: matches.get_str("trace"),
        is_drawn: matches.get_flag("draw"),
        direct: direct_of(matches),
    }
}
