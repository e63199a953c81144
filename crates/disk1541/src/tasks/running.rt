//! RUN: the commands of several lines, carried out on one image and saved once.
use super::changes::{Made, Manner, made_by, require_words};
use super::saving::print_plan;
use super::words::words_of;
use crate::reading::charset;
use cbm_shell::ShellFault;
use cbm_shell::texts::Charset;
use clap::ArgMatches;
use clap::error::ErrorKind;
use disk_basics::host::{is_standard, read_file, read_image, replace};
use disk_basics::{Failure, What, WordFault, in_memory, on_disk};
use disk_commands::{Verb, flag, given, verb_of};
use disk_edits::{Desk, Showing, shown_change};
use std::alloc::{AllocError, Global};
use std::rt::Runtime;

/// The exit status of a line that can't be read.
const COMMAND_LINE: u8 = 64;

/// The exit status where memory runs out.
const NO_MEMORY: u8 = 3;

/// The word of a line in place of the image.
const IMAGE: &str = "IMAGE";

/// The lines that are carried out.
#[derive(Clone, Copy)]
struct Script<'a> {
    // The file that has them.
    file: &'a str,
    // The image.
    image: &'a str,
    // Nothing is saved.
    is_dry: bool,
    // What each line changes is told for programs.
    is_json: bool,
}

impl Script<'_> {
    /// How a line's change is shown.
    fn showing(self, charset: Charset) -> Showing {
        Showing {
            charset,
            is_dry: self.is_dry,
            is_json: self.is_json,
        }
    }
}

/// An image that lines change, and what is said in the end.
#[derive(Drop)]
struct Course {
    image: Vec<u8>,
    // For standard output.
    plan: String,
    // For standard error.
    rest: String,
}

/// Adds each line of a text, after a number.
fn add_numbered(
    alloc: Global,
    text: &mut String,
    number: usize,
    lines: &str,
) -> Result<(), AllocError> {
    for line in lines.lines() {
        text.push_str(format!(in alloc; "{number}: {line}\n")?.as_str())?;
    }
    Ok(())
}

/// Adds a line of JSON as the change of a numbered line.
fn add_change(
    alloc: Global,
    text: &mut String,
    number: usize,
    json: &str,
) -> Result<(), AllocError> {
    text.push_str(format!(in alloc; "{{\"line\":{number},\"change\":")?.as_str())?;
    for change in json.lines() {
        text.push_str(change)?;
    }
    text.push_str("}\n")
}

/// What a line changes, as it is shown. Errors: those of `shown_change`.
fn shown_of(
    alloc: Global,
    desk: Desk<'_, '_>,
    made: &Made,
    showing: Showing,
) -> Result<String, ShellFault> {
    match &made.plan {
        Some(plan) => Ok(String::from_str(alloc, plan.as_str())?),
        None => shown_change(alloc, desk, made.image.as_slice(), showing),
    }
}

impl Course {
    /// Adds what a line changes. Errors: those of `shown_change`.
    fn add_shown(
        &mut self,
        alloc: Global,
        script: Script<'_>,
        number: usize,
        made: &Made,
        charset: Charset,
    ) -> Result<(), ShellFault> {
        let desk = Desk {
            image: script.image,
            bytes: self.image.as_slice(),
        };
        let shown = shown_of(alloc, desk, made, script.showing(charset))?;
        if script.is_json {
            return Ok(add_change(alloc, &mut self.plan, number, shown.as_str())?);
        }
        Ok(add_numbered(alloc, &mut self.plan, number, shown.as_str())?)
    }

    /// Adds what is said of a line that is carried out: what VALIDATE does, unless that is shown already, and what stays on the disk.
    fn add_said(&mut self, made: &Made, is_shown: bool) -> Result<(), AllocError> {
        if let Some(plan) = &made.plan
            && !is_shown
        {
            self.plan.push_str(plan.as_str())?;
        }
        if let Some(rest) = &made.rest {
            self.rest.push_str(rest.as_str())?;
        }
        Ok(())
    }
}

/// Whether lines may have a command.
fn is_for_lines(verb: Verb) -> bool {
    match verb {
        Verb::Put | Verb::Copy | Verb::Rename | Verb::Delete | Verb::Undelete => true,
        Verb::Lock | Verb::Unlock | Verb::Title | Verb::Retype => true,
        Verb::Place | Verb::Sort | Verb::Validate | Verb::Art | Verb::Move => true,
        _ => false,
    }
}

/// A flag that a line can't have; none if there is none.
fn wrong_flag(words: &ArgMatches<'_>) -> Option<&'static str> {
    if flag(words, "dry-run") {
        Some("--dry-run")
    } else if flag(words, "json") {
        Some("--json")
    } else {
        None
    }
}

/// Refuses what is no word of a line: another image, files of several images, a dry run, JSON, and standard input.
fn require_line(alloc: Global, words: &ArgMatches<'_>) -> Result<(), Failure> {
    if let [_, other, ..] = words.get_strs("IMAGE").unwrap_or(&[]) {
        return Err(Failure::named(alloc, What::Word(WordFault::LineWord), *other));
    }
    if words.get_strs("only").is_some() {
        return Err(Failure::named(alloc, What::Word(WordFault::LineWord), "--only"));
    }
    if let Some(word) = wrong_flag(words) {
        return Err(Failure::named(alloc, What::Word(WordFault::LineWord), word));
    }
    for file in words.get_strs("FILE").unwrap_or(&[]) {
        if is_standard(*file) {
            return Err(Failure::named(alloc, What::Word(WordFault::LineWord), *file));
        }
    }
    Ok(())
}

/// What a command of a line makes of the image, and the character set of its names.
fn made_of<R: Runtime + AllocGlobal>(
    rt: &R,
    verb: Verb,
    words: &ArgMatches<'_>,
    desk: Desk<'_, '_>,
    script: Script<'_>,
) -> Result<(Made, Charset), Failure> {
    require_line(rt.alloc(), words)?;
    let charset = charset(rt.alloc(), words)?;
    let manner = Manner {
        input: None,
        showing: script.showing(charset),
    };
    require_words(rt.alloc(), verb, words, desk.image, manner)?;
    let made = made_by(rt, verb, words, desk, manner)?;
    Ok((made, charset))
}

/// What a line's command makes of the image. Errors: `Word`, where lines have no such command.
fn made_by_line<R: Runtime + AllocGlobal>(
    rt: &R,
    line: &ArgMatches<'_>,
    desk: Desk<'_, '_>,
    script: Script<'_>,
) -> Result<(Made, Charset), Failure> {
    let Some((name, words)) = line.subcommand() else {
        return Err(Failure::new(What::Told));
    };
    match verb_of(name) {
        Some(verb) if is_for_lines(verb) => made_of(rt, verb, words, desk, script),
        _ => Err(Failure::named(rt.alloc(), What::Word(WordFault::LineCommand), name)),
    }
}

/// Reports words that are no command's. Answers the exit status.
fn refused_words<R: Runtime>(rt: &R, error: &clap::Error) -> u8 {
    if error.kind() == ErrorKind::OutOfMemory {
        return NO_MEMORY;
    }
    let _ = error.print(rt);
    COMMAND_LINE
}

/// Reports what went wrong. Answers the exit status.
fn told(rt: &impl Eprint, failure: Failure) -> u8 {
    let _ = failure.tell(rt);
    failure.status()
}

/// The words of a line as a command line, with a word for the image; none where the line is empty.
fn full_words(alloc: Global, line: &[u8]) -> Result<Vec<String>, Failure> {
    let words = words_of(alloc, line)?;
    in_memory(with_image(alloc, words.as_slice()))
}

/// The same of its words.
fn with_image(alloc: Global, words: &[String]) -> Result<Vec<String>, AllocError> {
    let mut full = Vec::new(alloc);
    for (place, word) in words.iter().enumerate() {
        if place == 0 {
            full.push(String::from_str(alloc, "disk1541")?)?;
        }
        full.push(String::from_str(alloc, word.as_str())?)?;
        if place == 0 {
            full.push(String::from_str(alloc, IMAGE)?)?;
        }
    }
    Ok(full)
}

/// What the words of a line make of an image. Errors: the exit status, where it is refused, as is reported.
fn carry_words<R: Runtime + AllocGlobal>(
    rt: &R,
    script: Script<'_>,
    words: &[String],
    bytes: &[u8],
) -> Result<(Made, Charset), u8> {
    let line = match disk_commands::parse(rt.alloc(), words, "") {
        Ok(line) => line,
        Err(error) => return Err(refused_words(rt, &error)),
    };
    let desk = Desk {
        image: script.image,
        bytes,
    };
    match made_by_line(rt, &line, desk, script) {
        Ok(made) => Ok(made),
        Err(failure) => Err(told(rt, failure)),
    }
}

/// Takes what a line made as the image, and what is said of it.
fn take_made(
    alloc: Global,
    script: Script<'_>,
    number: usize,
    course: &mut Course,
    made: Made,
    charset: Charset,
) -> Result<(), Failure> {
    let is_shown = script.is_dry || script.is_json;
    if is_shown {
        on_disk(
            alloc,
            script.image,
            course.add_shown(alloc, script, number, &made, charset),
        )?;
    }
    if !script.is_dry {
        in_memory(course.add_said(&made, is_shown))?;
    }
    course.image = made.image;
    Ok(())
}

/// Carries out a line on the image so far. Errors: the exit status, where it is refused, as is reported.
fn carry_line<R: Runtime + AllocGlobal>(
    rt: &R,
    script: Script<'_>,
    number: usize,
    line: &[u8],
    course: &mut Course,
) -> Result<(), u8> {
    let words = match full_words(rt.alloc(), line) {
        Ok(words) => words,
        Err(failure) => return Err(told(rt, failure)),
    };
    if words.is_empty() {
        return Ok(());
    }
    let (made, charset) = carry_words(rt, script, words.as_slice(), course.image.as_slice())?;
    match take_made(rt.alloc(), script, number, course, made, charset) {
        Ok(()) => Ok(()),
        Err(failure) => Err(told(rt, failure)),
    }
}

/// Reports which line is refused.
fn tell_line(rt: &impl Eprint, script: Script<'_>, number: usize) {
    let file = if is_standard(script.file) {
        "standard input"
    } else {
        script.file
    };
    let image = script.image;
    let _ = eprintln!(rt;
        "disk1541: line {number} of {file} was refused, so {image} was not changed"
    );
}

/// Carries out all lines. Errors: `Ended`, where one is refused, as is reported.
fn carry_all<R: Runtime + AllocGlobal>(
    rt: &R,
    script: Script<'_>,
    lines: &[u8],
    course: &mut Course,
) -> Result<(), Failure> {
    let mut number: usize = 0;
    for line in lines.split(|byte| *byte == b'\n') {
        number = number.saturating_add(1);
        if let Err(status) = carry_line(rt, script, number, line, course) {
            tell_line(rt, script, number);
            return Err(Failure::new(What::Ended(status)));
        }
    }
    Ok(())
}

/// Saves what the lines made, and says what is to be said; or shows what they would change.
fn finish<R: Runtime + AllocGlobal>(
    rt: &R,
    script: Script<'_>,
    old: &[u8],
    course: &Course,
) -> Result<(), Failure> {
    if !script.is_dry {
        replace(rt, script.image, old, course.image.as_slice())?;
        let rest = course.rest.as_str();
        let _ = eprint!(rt; "{rest}");
    }
    print_plan(rt, script.image, course.plan.as_str(), script.is_dry)
}

/// The lines that are carried out: what standard input gave, where it was read already, or a file's.
fn lines_of<R: Runtime + AllocGlobal>(
    rt: &R,
    script: Script<'_>,
    input: Option<&[u8]>,
) -> Result<Vec<u8>, Failure> {
    match input {
        Some(input) if is_standard(script.file) => in_memory(Vec::from_slice(rt.alloc(), input)),
        _ => read_file(rt, script.file),
    }
}

/// Carries out the commands of a file's lines on an image, and saves it once; where one is refused, nothing is saved. With `--dry-run`
/// it shows what each would change, and saves nothing. Errors: `Word`, where standard input is both; those of `read_file` and of
/// `read_image`; `Ended`, where a line is refused, as is reported; those of `replace`; `Write`; `NoMemory`.
pub fn run_lines<R: Runtime + AllocGlobal>(
    rt: &R,
    words: &ArgMatches<'_>,
    input: Option<&[u8]>,
) -> Result<(), Failure> {
    let script = Script {
        file: given(words, "FILE"),
        image: given(words, "IMAGE"),
        is_dry: flag(words, "dry-run"),
        is_json: flag(words, "json"),
    };
    if is_standard(script.file) && is_standard(script.image) {
        return Err(Failure::new(What::Word(WordFault::Twice)));
    }
    let lines = lines_of(rt, script, input)?;
    let old = read_image(rt, script.image)?;
    let mut course = Course {
        image: in_memory(Vec::from_slice(rt.alloc(), old.as_slice()))?,
        plan: String::new(rt.alloc()),
        rest: String::new(rt.alloc()),
    };
    carry_all(rt, script, lines.as_slice(), &mut course)?;
    finish(rt, script, old.as_slice(), &course)
}
