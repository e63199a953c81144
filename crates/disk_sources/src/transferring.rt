//! TRANSFER: files of another disk or archive onto an image.
mod facts;

use self::facts::{MovedFile, moved_file, transfer_line};
use crate::moving::{Way, with_one};
use crate::origin::{Entries, Origin};
use cbm_shell::texts::Charset;
use cbm_volume::Entry;
use disk_basics::calls::name_text;
use disk_basics::host::{is_standard, print, read_any, read_to_change, replace, require_no_input};
use disk_basics::strays::require_kept;
use disk_basics::{Failure, What, in_memory, petscii};
use disk_facts::{first_meant, is_meant};
use disk_reports::match_line;
use std::alloc::{AllocError, Global};
use std::rt::Runtime;

/// What is transferred.
#[derive(Clone, Copy)]
pub struct Transfer<'a, 'c> {
    /// The disk or the archive that has the files.
    pub from: &'a str,
    /// Patterns of the files; all files where there is none.
    pub patterns: &'c [&'a str],
    /// Files of the image that have the names are replaced.
    pub replaces: bool,
    /// What would be transferred is shown, and nothing is changed.
    pub is_dry: bool,
    /// The files are told for programs.
    pub is_json: bool,
    /// The character set of names.
    pub charset: Charset,
}

/// Whether one of the patterns means the file of an entry, or there is none.
fn is_wanted(entry: &Entry, patterns: &[Vec<u8>]) -> bool {
    if entry.is_empty() {
        return false;
    }
    for pattern in patterns {
        if is_meant(entry, pattern.as_slice()) {
            return true;
        }
    }
    patterns.is_empty()
}

/// The patterns of words, of which each means a file. Errors: `NoFile`, where one means none.
fn patterns_of(
    alloc: Global,
    entries: &[Entry],
    wanted: &Transfer<'_, '_>,
) -> Result<Vec<Vec<u8>>, Failure> {
    let mut patterns = Vec::new(alloc);
    for word in wanted.patterns {
        let pattern = petscii(alloc, wanted.charset, *word)?;
        if first_meant(entries, pattern.as_slice()).is_none() {
            return Err(Failure::named(alloc, What::NoFile, *word));
        }
        in_memory(patterns.push(pattern).map_err(AllocError::from))?;
    }
    Ok(patterns)
}

/// Reports a file that can't be transferred.
fn tell_left<R: Eprint + AllocGlobal>(rt: &R, entry: &Entry, end: &str) -> Result<(), AllocError> {
    let name = name_text(rt.alloc(), Charset::Upper, entry.name())?;
    let name = name.as_str();
    let _ = eprintln!(rt; "disk1541: \"{name}\" can't be transferred{end}");
    Ok(())
}

/// The image with all files that are wanted. The first that can't be transferred is reported. Errors: those of `with_one`.
pub fn with_all<R: Runtime + AllocGlobal>(
    rt: &R,
    way: Way<'_, '_, '_>,
    old: &[u8],
    entries: &[Entry],
    patterns: &[Vec<u8>],
) -> Result<Vec<u8>, Failure> {
    let mut image = in_memory(Vec::from_slice(rt.alloc(), old))?;
    for (number, entry) in entries.iter().enumerate() {
        if is_wanted(entry, patterns) {
            let next = with_one(rt, way, image.as_slice(), entry, number);
            if next.is_err() {
                in_memory(tell_left(rt, entry, ", so no file was"))?;
            }
            image = next?;
        }
    }
    Ok(image)
}

/// The files that could be transferred, and those that couldn't.
#[derive(Drop)]
struct Plan {
    fine: Vec<MovedFile>,
    left: Vec<MovedFile>,
}

impl Plan {
    /// None yet.
    fn new(alloc: Global) -> Plan {
        Plan {
            fine: Vec::new(alloc),
            left: Vec::new(alloc),
        }
    }

    /// The line that says how many they are.
    fn line(&self, alloc: Global) -> Result<String, AllocError> {
        let fine = self.fine.len();
        let left = self.left.len();
        if left == 0 {
            let noun = if fine == 1 { "file" } else { "files" };
            return format!(in alloc; "{fine} {noun} would be transferred\n");
        }
        let all = fine.saturating_add(left);
        format!(in alloc; "{fine} of {all} files could be transferred, so none would be\n")
    }
}

/// Adds the file of an entry.
fn add_file(
    alloc: Global,
    files: &mut Vec<MovedFile>,
    charset: Charset,
    number: usize,
    entry: &Entry,
) -> Result<(), AllocError> {
    let file = moved_file(alloc, charset, number, entry)?;
    files.push(file).map_err(AllocError::from)
}

/// Prints the line of a file that could be transferred, unless programs are told.
fn print_fine<R: Runtime + AllocGlobal>(
    rt: &R,
    wanted: &Transfer<'_, '_>,
    entry: &Entry,
) -> Result<(), Failure> {
    if wanted.is_json {
        return Ok(());
    }
    let line = in_memory(match_line(rt.alloc(), wanted.from, entry, wanted.charset))?;
    print(rt, line.as_bytes())
}

/// Shows a file that could be transferred to an image, which it then has; one that couldn't is reported.
fn show_one<R: Runtime + AllocGlobal>(
    rt: &R,
    wanted: &Transfer<'_, '_>,
    number: usize,
    entry: &Entry,
    next: Result<Vec<u8>, Failure>,
    plan: &mut Plan,
) -> Result<Option<Vec<u8>>, Failure> {
    let alloc = rt.alloc();
    match next {
        Ok(image) => {
            let files = &mut plan.fine;
            in_memory(add_file(alloc, files, wanted.charset, number, entry))?;
            print_fine(rt, wanted, entry)?;
            Ok(Some(image))
        }
        Err(failure) if matches!(failure.what, What::NoMemory) => Err(failure),
        Err(failure) => {
            let files = &mut plan.left;
            in_memory(add_file(alloc, files, wanted.charset, number, entry))?;
            in_memory(tell_left(rt, entry, ""))?;
            let _ = failure.tell(rt);
            Ok(None)
        }
    }
}

/// Prints how many files could be transferred, or for programs which.
fn print_plan<R: Runtime + AllocGlobal>(
    rt: &R,
    to: &str,
    wanted: &Transfer<'_, '_>,
    plan: &Plan,
) -> Result<(), Failure> {
    if wanted.is_json {
        let (fine, left) = (plan.fine.as_slice(), plan.left.as_slice());
        let line = in_memory(transfer_line(rt.alloc(), to, wanted, fine, left))?;
        return print(rt, line.as_slice());
    }
    let line = in_memory(plan.line(rt.alloc()))?;
    print(rt, line.as_bytes())
}

/// Shows which of the files that are wanted could be transferred, each after those before it. Errors: `Told`, where one couldn't.
fn show_all<R: Runtime + AllocGlobal>(
    rt: &R,
    way: Way<'_, '_, '_>,
    old: Vec<u8>,
    entries: &[Entry],
    patterns: &[Vec<u8>],
    wanted: &Transfer<'_, '_>,
) -> Result<(), Failure> {
    let mut plan = Plan::new(rt.alloc());
    let mut image = old;
    for (number, entry) in entries.iter().enumerate() {
        if is_wanted(entry, patterns) {
            let next = with_one(rt, way, image.as_slice(), entry, number);
            if let Some(next) = show_one(rt, wanted, number, entry, next, &mut plan)? {
                image = next;
            }
        }
    }
    print_plan(rt, way.to, wanted, &plan)?;
    if plan.left.is_empty() {
        Ok(())
    } else {
        Err(Failure::new(What::Told))
    }
}

/// The line of JSON for the files that were transferred.
fn done_line(
    alloc: Global,
    to: &str,
    entries: &[Entry],
    patterns: &[Vec<u8>],
    wanted: &Transfer<'_, '_>,
) -> Result<Vec<u8>, AllocError> {
    let mut files = Vec::new(alloc);
    for (number, entry) in entries.iter().enumerate() {
        if is_wanted(entry, patterns) {
            add_file(alloc, &mut files, wanted.charset, number, entry)?;
        }
    }
    transfer_line(alloc, to, wanted, files.as_slice(), &[])
}

/// Prints for programs which files were transferred: on standard error, if standard output has the image.
fn print_done<R: Runtime + AllocGlobal>(rt: &R, to: &str, line: &[u8]) -> Result<(), Failure> {
    if is_standard(to) {
        let text = std::str::from_utf8(line).unwrap_or("");
        let _ = eprint!(rt; "{text}");
        return Ok(());
    }
    print(rt, line)
}

/// Whether a directory has all files that are wanted: it is whole, or patterns say them and each file that is listed can be followed. What
/// it lacks is reported.
fn is_enough(rt: &impl Eprint, found: &Entries, wanted: &Transfer<'_, '_>) -> bool {
    let is_whole = found.end.tell(rt, wanted.from);
    is_whole || found.end.is_unlinked() && !wanted.patterns.is_empty()
}

/// Saves the image with the files, unless that would write over others that aren't listed.
fn save<R: Runtime + AllocGlobal>(rt: &R, to: &str, old: &[u8], new: &[u8]) -> Result<(), Failure> {
    require_kept(rt.alloc(), to, old, new, What::UnlinkedChange)?;
    replace(rt, to, old, new)
}

/// Transfers files from a disk or an archive onto an image, all of them or none, and saves it; or shows what would be transferred. Errors:
/// `Word`, where both are one file; `Read`, `TooLong`, `Foreign`; `Told`, where the directory or a file can't be read, or isn't one that the drive writes, as is reported;
/// `NoFile`; those of `read_to_change`; `Disk`, where a name is there already or the disk refuses a file; `DirectoryFull`; `NoMemory`;
/// those of `replace`.
pub fn transfer_files<R: Runtime + AllocGlobal>(
    rt: &R,
    to: &str,
    wanted: &Transfer<'_, '_>,
) -> Result<(), Failure> {
    require_no_input(rt, wanted.from, to)?;
    let bytes = read_any(rt, wanted.from)?;
    let origin = Origin::open(rt.alloc(), wanted.from, bytes.as_slice())?;
    let found = origin.entries(rt.alloc())?;
    if !is_enough(rt, &found, wanted) {
        return Err(Failure::new(What::Told));
    }
    let entries = found.entries.as_slice();
    let old = read_to_change(rt, to)?;
    let patterns = patterns_of(rt.alloc(), entries, wanted)?;
    let way = Way {
        origin: &origin,
        to,
        replaces: wanted.replaces,
    };
    if wanted.is_dry {
        return show_all(rt, way, old, entries, patterns.as_slice(), wanted);
    }
    let new = with_all(rt, way, old.as_slice(), entries, patterns.as_slice())?;
    save(rt, to, old.as_slice(), new.as_slice())?;
    if wanted.is_json {
        let line = done_line(rt.alloc(), to, entries, patterns.as_slice(), wanted);
        print_done(rt, to, in_memory(line)?.as_slice())?;
    }
    Ok(())
}
