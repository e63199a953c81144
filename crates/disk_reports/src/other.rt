//! What a disk or an archive of another kind shows.
use crate::broken::entry_lines;
use crate::find::match_lines;
use crate::geos::add_geos_files;
use crate::info::other_facts;
use crate::report::{
    Broken, Facts, Files, facts_line, file_lines, files_of, known_line, sum_line, sum_row,
};
use crate::sum::{add_sum_line, digits_of};
use crate::view::{Look, LookAnswer, Shown, View, add_heading};
use cbm_volume::Entry;
use std::alloc::{AllocError, Global};

/// A disk or an archive of another kind, as it is looked at.
#[derive(Drop)]
pub struct OtherKind<'s> {
    /// What it is: `D81 of 80 tracks`.
    pub kind: String,
    /// What is known of it.
    pub facts: Facts,
    /// The entries of its directory, up to where that breaks off.
    pub entries: &'s [Entry],
    /// Where it breaks off.
    pub broken: Option<Broken>,
    /// What its sum is of: its sectors, or an archive's bytes.
    pub summed: &'s [u8],
}

/// The directory: what it is, and its files.
fn directory(
    alloc: Global,
    name: &str,
    other: &OtherKind<'_>,
    look: Look<'_>,
) -> Result<Vec<u8>, AllocError> {
    let kind = other.kind.as_str();
    let mut text = format!(in alloc; "{name}: {kind}\n")?.into_bytes();
    text.extend_from_slice(entry_lines(alloc, other.entries, look)?.as_bytes())?;
    add_geos_files(alloc, &mut text, other.entries, look)?;
    Ok(text)
}

/// What it is, as lines.
fn facts(
    alloc: Global,
    name: &str,
    other: &OtherKind<'_>,
    look: Look<'_>,
) -> Result<Vec<u8>, AllocError> {
    let mut text = Vec::new(alloc);
    add_heading(&mut text, name, look)?;
    let is_whole = other.broken.is_none();
    let count = other.entries.len();
    let lines = other_facts(alloc, look.charset, &other.facts, count, is_whole)?;
    text.extend_from_slice(lines.as_bytes())?;
    add_geos_files(alloc, &mut text, other.entries, look)?;
    Ok(text)
}

/// What it shows to people, but for its sum.
fn people(
    alloc: Global,
    name: &str,
    other: &OtherKind<'_>,
    look: Look<'_>,
) -> Result<Vec<u8>, AllocError> {
    match look.view {
        View::Matches => match_lines(alloc, name, other.entries, look),
        View::Facts => facts(alloc, name, other, look),
        _ => directory(alloc, name, other, look),
    }
}

/// It and its files, as a line of JSON; nothing where a search found none.
fn report<F: Files>(
    alloc: Global,
    name: &str,
    files: &F,
    other: OtherKind<'_>,
    look: Look<'_>,
) -> Result<Vec<u8>, AllocError> {
    let found = files_of(alloc, files, other.entries, look)?;
    if look.view == View::Matches && found.is_empty() && other.broken.is_none() {
        return Ok(Vec::new(alloc));
    }
    known_line(alloc, name, look.charset, other.facts, found, other.broken)
}

/// It, or its files, as lines of a table.
fn table<F: Files>(
    alloc: Global,
    name: &str,
    files: &F,
    other: &OtherKind<'_>,
    look: Look<'_>,
) -> Result<Vec<u8>, AllocError> {
    match look.view {
        View::Facts => facts_line(alloc, name, look.charset, &other.facts),
        _ => file_lines(alloc, name, files, other.entries, look),
    }
}

/// The line of its sum.
fn sum(alloc: Global, name: &str, bytes: &[u8], look: Look<'_>) -> Result<Vec<u8>, AllocError> {
    let sum = digits_of(alloc, bytes)?;
    if look.is_json {
        return sum_line(alloc, name, sum.as_str());
    }
    if look.is_csv {
        return sum_row(alloc, name, sum.as_str());
    }
    let mut text = Vec::new(alloc);
    add_sum_line(&mut text, sum.as_str(), name)?;
    Ok(text)
}

/// Its lines.
fn lines<F: Files>(
    alloc: Global,
    name: &str,
    files: &F,
    other: OtherKind<'_>,
    look: Look<'_>,
) -> Result<Vec<u8>, AllocError> {
    if look.view == View::Sum {
        sum(alloc, name, other.summed, look)
    } else if look.is_json {
        report(alloc, name, files, other, look)
    } else if look.is_csv {
        table(alloc, name, files, &other, look)
    } else {
        people(alloc, name, &other, look)
    }
}

/// What it shows, to people or to programs, if its directory, files that match, its facts or its sum are looked at. A directory
/// that breaks off is `Told`. The one error is want of memory.
pub fn other_lines<F: Files>(
    alloc: Global,
    name: &str,
    files: &F,
    other: OtherKind<'_>,
    look: Look<'_>,
) -> Result<Shown, AllocError> {
    let is_broken = other.broken.is_some() && look.view != View::Sum;
    let text = lines(alloc, name, files, other, look)?;
    let answer = if is_broken {
        LookAnswer::Told
    } else if look.view == View::Matches && text.is_empty() {
        LookAnswer::NoMatch
    } else {
        LookAnswer::Fine
    };
    Ok(Shown { text, answer })
}
