//! What an image shows.
use crate::blocks::add_blocks;
use crate::broken::{add_broken, answer_by};
use crate::deleted::add_deleted;
use crate::find::add_matches;
use crate::flaws::add_all_flaws;
use crate::geos::add_geos_files;
use crate::info::lines_of as info_lines;
use crate::report::{report_line, sum_report, sum_table, table_lines};
use crate::seen::Seen;
use crate::sum::add_sum;
use cbm_shell::ShellFault;
use cbm_shell::texts::Charset;
use cbm_volume::Unsound;
use disk_basics::calls::{check_text, directory, raw_directory};
use disk_basics::odd::odd_slots;
use disk_basics::strays::{Unlinked, strays_on};
use disk_basics::{BreakOff, Disk};
use std::alloc::{AllocError, Global};

/// What is shown.
#[derive(Clone, Copy, PartialEq, Eq)]
pub enum View {
    /// The directory.
    Directory,
    /// The directory as the drive sends it.
    Sent,
    /// The files that were deleted.
    Deleted,
    /// Where the blocks of files lie.
    Blocks,
    /// The files that match.
    Matches,
    /// What the disk is.
    Facts,
    /// Whether it is sound.
    Soundness,
    /// All that is wrong with it.
    Flaws,
    /// A sum of its sectors.
    Sum,
}

/// How images are looked at.
#[derive(Clone, Copy)]
pub struct Look<'p> {
    /// What is shown of them.
    pub view: View,
    /// The character set of names.
    pub charset: Charset,
    /// The files that are meant.
    pub pattern: &'p [u8],
    /// It is shown for programs.
    pub is_json: bool,
    /// It is shown for programs, as a table.
    pub is_csv: bool,
    /// Of folders their images are meant.
    pub is_recursive: bool,
    /// It is one of several images.
    pub is_among: bool,
}

/// What a look at an image came to.
#[derive(Clone, Copy)]
pub enum LookAnswer {
    /// It is as it should be.
    Fine,
    /// It isn't sound.
    Unsound(Unsound),
    /// No file matches.
    NoMatch,
    /// Its files are shown, and 18/0 can't be read.
    Untitled,
    /// Its files are shown up to where the directory breaks off.
    Broken(BreakOff),
    /// It has files to which no link of its directory leads; and whether it is as it should be but for these.
    Unlinked(Unlinked, bool),
    /// What it lacks was reported.
    Told,
}

/// What an image shows.
#[derive(Drop)]
pub struct Shown {
    /// Its lines.
    pub text: Vec<u8>,
    /// What they come to.
    pub answer: LookAnswer,
}

/// Whether a disk is sound, as an answer.
pub fn answer_of(check: &Result<(), Unsound>) -> LookAnswer {
    match check {
        Ok(()) => LookAnswer::Fine,
        Err(unsound) => LookAnswer::Unsound(*unsound),
    }
}

/// How many entries are odd, in words.
pub fn odd_text(alloc: Global, count: usize) -> Result<String, AllocError> {
    let noun = if count == 1 { "entry" } else { "entries" };
    format!(in alloc; "{count} odd {noun}")
}

/// Adds that odd entries are all that is wrong, if they are.
fn add_odd(alloc: Global, text: &mut Vec<u8>, image: &[u8]) -> Result<(), ShellFault> {
    let odd = odd_slots(alloc, image)?.len();
    if odd != 0 {
        text.extend_from_slice(b"; sound but for ")?;
        text.extend_from_slice(odd_text(alloc, odd)?.as_bytes())?;
    }
    Ok(())
}

/// Adds that files aren't listed, if there are such, and the end of the line.
fn add_unlinked(alloc: Global, text: &mut Vec<u8>, seen: Seen<'_>) -> Result<(), AllocError> {
    if let Some(unlinked) = strays_on(alloc, seen.disk, seen.listed)?.count() {
        text.extend_from_slice(format!(in alloc; "; {unlinked}")?.as_bytes())?;
    }
    text.extend_from_slice(b"\n")
}

/// Adds whether the disk is sound.
fn add_check(alloc: Global, text: &mut Vec<u8>, seen: Seen<'_>) -> Result<LookAnswer, ShellFault> {
    let found = seen.disk.check();
    let line = check_text(alloc, &found)?;
    let line = line.as_slice();
    text.extend_from_slice(line.strip_suffix(b"\n").unwrap_or(line))?;
    if found.is_err() {
        add_odd(alloc, text, seen.image)?;
    }
    add_unlinked(alloc, text, seen)?;
    Ok(answer_of(&found))
}

/// Adds the directory, and what GEOS has on the disk.
fn add_directory(
    alloc: Global,
    text: &mut Vec<u8>,
    seen: Seen<'_>,
    look: Look<'_>,
) -> Result<LookAnswer, ShellFault> {
    match directory(alloc, seen.image, look.charset, look.pattern) {
        Ok(lines) => text.extend_from_slice(lines.as_slice())?,
        Err(ShellFault::Refused(_)) => return Ok(add_broken(alloc, text, seen, look)?),
        Err(fault) => return Err(fault),
    }
    add_geos_files(alloc, text, seen.listed.entries.as_slice(), look)?;
    Ok(LookAnswer::Fine)
}

/// Adds what a disk is, and what GEOS has on it.
fn add_facts(
    alloc: Global,
    text: &mut Vec<u8>,
    seen: Seen<'_>,
    look: Look<'_>,
) -> Result<LookAnswer, ShellFault> {
    let lines = info_lines(alloc, look.charset, seen)?;
    text.extend_from_slice(lines.as_slice())?;
    add_geos_files(alloc, text, seen.listed.entries.as_slice(), look)?;
    Ok(answer_by(seen.listed, LookAnswer::Fine))
}

/// Adds lines that are made whole.
fn add_whole(
    text: &mut Vec<u8>,
    lines: Result<Vec<u8>, ShellFault>,
) -> Result<LookAnswer, ShellFault> {
    text.extend_from_slice(lines?.as_slice())?;
    Ok(LookAnswer::Fine)
}

/// Adds what an image shows to people.
fn add_lines(
    alloc: Global,
    text: &mut Vec<u8>,
    seen: Seen<'_>,
    look: Look<'_>,
) -> Result<LookAnswer, ShellFault> {
    match look.view {
        View::Directory => add_directory(alloc, text, seen, look),
        View::Sent => add_whole(text, raw_directory(alloc, seen.image, look.pattern)),
        View::Deleted => add_deleted(alloc, text, seen.image, look),
        View::Blocks => Ok(add_blocks(alloc, text, seen, look)?),
        View::Matches => Ok(add_matches(alloc, text, seen, look)?),
        View::Facts => add_facts(alloc, text, seen, look),
        View::Soundness => add_check(alloc, text, seen),
        View::Flaws => add_all_flaws(alloc, text, seen.image, look),
        // (a sum is made before the disk is opened)
        View::Sum => Ok(LookAnswer::Fine),
    }
}

/// Adds the name of one of several images, where its lines don't have it. The one error is want of memory.
pub fn add_heading(text: &mut Vec<u8>, name: &str, look: Look<'_>) -> Result<(), AllocError> {
    if !look.is_among {
        return Ok(());
    }
    let end: &[u8] = match look.view {
        View::Directory | View::Deleted | View::Blocks | View::Facts | View::Flaws => b":\n",
        View::Soundness => b": ",
        View::Sent | View::Matches | View::Sum => return Ok(()),
    };
    text.extend_from_slice(name.as_bytes())?;
    text.extend_from_slice(end)
}

/// What an image shows to people.
fn people_lines(alloc: Global, seen: Seen<'_>, look: Look<'_>) -> Result<Shown, ShellFault> {
    let mut text = Vec::new(alloc);
    add_heading(&mut text, seen.name, look)?;
    let answer = add_lines(alloc, &mut text, seen, look)?;
    Ok(Shown { text, answer })
}

/// Whether the output itself reports that files aren't listed.
fn says_unlinked(look: Look<'_>) -> bool {
    let is_said = matches!(look.view, View::Soundness | View::Facts | View::Flaws);
    is_said && !look.is_json && !look.is_csv
}

/// What a look comes to at an image with files to which no link of its directory leads.
fn unlinked_answer(look: Look<'_>, answer: LookAnswer, unlinked: Unlinked) -> LookAnswer {
    if says_unlinked(look) {
        return LookAnswer::Told;
    }
    let is_fine = matches!(answer, LookAnswer::Fine) && look.view != View::Soundness;
    LookAnswer::Unlinked(unlinked, is_fine)
}

/// The sum of an image, for which its directory isn't read.
fn sum_lines(alloc: Global, name: &str, image: &[u8], look: Look<'_>) -> Result<Shown, ShellFault> {
    if look.is_json {
        return sum_report(alloc, name, image);
    }
    if look.is_csv {
        return sum_table(alloc, name, image);
    }
    let mut text = Vec::new(alloc);
    let answer = add_sum(alloc, &mut text, name, image)?;
    Ok(Shown { text, answer })
}

/// What an image shows, to people or to programs. Errors: `Image`, `Refused`, `Trouble`, `Memory`; of a sum `Mistaken`.
pub fn lines_of(
    alloc: Global,
    name: &str,
    image: &[u8],
    look: Look<'_>,
) -> Result<Shown, ShellFault> {
    if look.view == View::Sum {
        return sum_lines(alloc, name, image, look);
    }
    let disk = Disk::open(alloc, image)?;
    let listed = disk.listed(alloc)?;
    let seen = Seen {
        name,
        image,
        disk: &disk,
        listed: &listed,
    };
    let Shown { text, answer } = plain_lines_of(alloc, seen, look)?;
    let answer = match strays_on(alloc, &disk, &listed)?.count() {
        Some(unlinked) => unlinked_answer(look, answer, unlinked),
        None => answer,
    };
    Ok(Shown { text, answer })
}

/// The same, with an answer in which files that aren't listed have no part.
fn plain_lines_of(alloc: Global, seen: Seen<'_>, look: Look<'_>) -> Result<Shown, ShellFault> {
    if look.is_json {
        report_line(alloc, seen, look)
    } else if look.is_csv {
        table_lines(alloc, seen, look)
    } else {
        people_lines(alloc, seen, look)
    }
}
