//! What differs between two disks, as lines.
use crate::report::{Changed, Differing, Flags, Lone, Numbers, Report, Texts, Unread};
use std::alloc::{AllocError, Global};

/// What is said in place of a text that isn't known.
const UNKNOWN: &str = "unknown, because track 18, sector 0 is unreadable";

/// Adds a text, or that it isn't known.
fn add_known(alloc: Global, lines: &mut String, text: &Option<String>) -> Result<(), AllocError> {
    let Some(text) = text else {
        return lines.push_str(UNKNOWN);
    };
    let text = text.as_str();
    lines.push_str(format!(in alloc; "\"{text}\"")?.as_str())
}

/// Adds a line of two texts, if they differ.
fn add_texts(
    alloc: Global,
    lines: &mut String,
    name: &str,
    texts: &Option<Texts>,
) -> Result<(), AllocError> {
    let Some(texts) = texts else {
        return Ok(());
    };
    lines.push_str(name)?;
    lines.push_str(": ")?;
    add_known(alloc, lines, &texts.first)?;
    lines.push_str(" | ")?;
    add_known(alloc, lines, &texts.second)?;
    lines.push('\n')
}

/// Adds a line of two numbers, if they differ.
fn add_numbers(
    alloc: Global,
    lines: &mut String,
    name: &str,
    numbers: &Option<Numbers>,
) -> Result<(), AllocError> {
    let Some(Numbers { first, second }) = numbers else {
        return Ok(());
    };
    lines.push_str(format!(in alloc; "{name}: {first} | {second}\n")?.as_str())
}

/// Adds what breaks off, if something does.
fn add_cuts(
    alloc: Global,
    lines: &mut String,
    name: &str,
    texts: &Option<Texts>,
) -> Result<(), AllocError> {
    let Some(texts) = texts else {
        return Ok(());
    };
    add_cut(alloc, lines, name, "first", &texts.first)?;
    add_cut(alloc, lines, name, "second", &texts.second)
}

/// Adds what breaks off on one disk, if something does.
fn add_cut(
    alloc: Global,
    lines: &mut String,
    name: &str,
    side: &str,
    text: &Option<String>,
) -> Result<(), AllocError> {
    let Some(text) = text else {
        return Ok(());
    };
    let text = text.as_str();
    lines.push_str(format!(in alloc;
        "{name}{side}: {text}; what comes before is compared\n"
    )?.as_str())
}

/// Adds the line of a file of one disk alone.
fn add_lone(alloc: Global, lines: &mut String, file: &Lone, side: &str) -> Result<(), AllocError> {
    let name = file.name.as_str();
    let kind = file.kind;
    let blocks = file.blocks;
    let noun = if blocks == 1 { "block" } else { "blocks" };
    lines.push_str(format!(in alloc;
        "\"{name}\": only in the {side} ({kind}, {blocks} {noun})\n"
    )?.as_str())
}

/// Adds the lines of the files of one disk alone.
fn add_lones(
    alloc: Global,
    lines: &mut String,
    files: &[Lone],
    side: &str,
) -> Result<(), AllocError> {
    for file in files {
        add_lone(alloc, lines, file, side)?;
    }
    Ok(())
}

/// Adds the line of what is so of one file alone.
fn add_flags(
    alloc: Global,
    lines: &mut String,
    name: &str,
    word: &str,
    flags: &Option<Flags>,
) -> Result<(), AllocError> {
    let Some(flags) = flags else {
        return Ok(());
    };
    let side = if flags.first { "first" } else { "second" };
    lines.push_str(format!(in alloc; "{name}{word} only in the {side}\n")?.as_str())
}

/// Adds the line of bytes that differ.
fn add_bytes(
    alloc: Global,
    lines: &mut String,
    name: &str,
    file: &Changed,
) -> Result<(), AllocError> {
    let Some(bytes) = &file.bytes else {
        return Ok(());
    };
    let first = bytes.first;
    let second = bytes.second;
    let from = bytes.from;
    lines.push_str(format!(in alloc;
        "{name}bytes: {first} | {second}, different from byte {from} on\n"
    )?.as_str())
}

/// Adds the line of types that differ.
fn add_kinds(
    alloc: Global,
    lines: &mut String,
    name: &str,
    file: &Changed,
) -> Result<(), AllocError> {
    let Some(kinds) = &file.kind else {
        return Ok(());
    };
    let first = kinds.first;
    let second = kinds.second;
    lines.push_str(format!(in alloc; "{name}type: {first} | {second}\n")?.as_str())
}

/// Adds a line of two numbers of a file, if they differ.
fn add_file_numbers(
    alloc: Global,
    lines: &mut String,
    name: &str,
    word: &str,
    numbers: &Option<Numbers>,
) -> Result<(), AllocError> {
    if numbers.is_none() {
        return Ok(());
    }
    lines.push_str(name)?;
    add_numbers(alloc, lines, word, numbers)
}

/// Adds the lines of two files of one name.
fn add_file(alloc: Global, lines: &mut String, file: &Changed) -> Result<(), AllocError> {
    let shown = file.name.as_str();
    let head = format!(in alloc; "\"{shown}\": ")?;
    let name = head.as_str();
    add_bytes(alloc, lines, name, file)?;
    add_kinds(alloc, lines, name, file)?;
    add_flags(alloc, lines, name, "locked", &file.locked)?;
    add_flags(alloc, lines, name, "closed", &file.closed)?;
    add_file_numbers(alloc, lines, name, "blocks", &file.blocks)?;
    add_file_numbers(alloc, lines, name, "record length", &file.record)?;
    add_file_numbers(alloc, lines, name, "place in the directory", &file.place)?;
    add_cuts(alloc, lines, name, &file.cut)
}

/// Adds the lines of all files.
fn add_files(alloc: Global, lines: &mut String, report: &Report<'_>) -> Result<(), AllocError> {
    add_cuts(alloc, lines, "", &report.broken)?;
    add_lones(alloc, lines, report.only_first.as_slice(), "first")?;
    add_lones(alloc, lines, report.only_second.as_slice(), "second")?;
    for file in report.files.as_slice() {
        add_file(alloc, lines, file)?;
    }
    Ok(())
}

/// Adds the line of a track's sectors that differ.
fn add_track(alloc: Global, lines: &mut String, track: &Differing) -> Result<(), AllocError> {
    let number = track.track;
    lines.push_str(format!(in alloc; "track {number}: ")?.as_str())?;
    for (place, sector) in track.sectors.as_slice().iter().enumerate() {
        let comma = if place == 0 { "" } else { ", " };
        lines.push_str(format!(in alloc; "{comma}{sector}")?.as_str())?;
    }
    lines.push('\n')
}

/// How many sectors differ.
fn count_of(tracks: &[Differing]) -> usize {
    let mut count: usize = 0;
    for track in tracks {
        count = count.saturating_add(track.sectors.len());
    }
    count
}

/// Adds a sector that one disk can't read: the first of a track begins a line.
fn add_unread(
    alloc: Global,
    lines: &mut String,
    sector: &Unread,
    is_first: bool,
) -> Result<(), AllocError> {
    let track = sector.track;
    let number = sector.sector;
    let error = sector.error;
    if is_first {
        lines.push_str(format!(in alloc; "track {track}: ")?.as_str())?;
    } else {
        lines.push_str(", ")?;
    }
    lines.push_str(format!(in alloc; "{number} (error {error})")?.as_str())
}

/// Whether a sector is the first of its track, or the last, which of these stands beside it.
fn is_outermost(sector: &Unread, beside: Option<&Unread>) -> bool {
    match beside {
        Some(beside) => beside.track != sector.track,
        None => true,
    }
}

/// Adds the lines of the sectors that one disk can't read, one for each track.
fn add_unreads(
    alloc: Global,
    lines: &mut String,
    sectors: &[Unread],
    side: &str,
) -> Result<(), AllocError> {
    let mut before = None;
    for (place, sector) in sectors.iter().enumerate() {
        add_unread(alloc, lines, sector, is_outermost(sector, before))?;
        if is_outermost(sector, sectors.get(place.saturating_add(1))) {
            lines.push_str(format!(in alloc; " can't be read in the {side}\n")?.as_str())?;
        }
        before = Some(sector);
    }
    Ok(())
}

/// Adds the lines of the sectors.
fn add_sectors(alloc: Global, lines: &mut String, report: &Report<'_>) -> Result<(), AllocError> {
    let count = count_of(report.sectors.as_slice());
    if count != 0 {
        lines.push_str(format!(in alloc; "sectors that differ: {count}\n")?.as_str())?;
    }
    for track in report.sectors.as_slice() {
        add_track(alloc, lines, track)?;
    }
    add_unreads(alloc, lines, report.unreadable.first.as_slice(), "first")?;
    add_unreads(alloc, lines, report.unreadable.second.as_slice(), "second")
}

/// What differs, as lines; where nothing does, a line that says so. The one error is want of memory.
pub fn lines_of(alloc: Global, report: &Report<'_>) -> Result<String, AllocError> {
    let mut lines = String::new(alloc);
    add_numbers(alloc, &mut lines, "tracks", &report.tracks)?;
    add_texts(alloc, &mut lines, "title", &report.title)?;
    add_texts(alloc, &mut lines, "id", &report.id)?;
    add_texts(alloc, &mut lines, "DOS", &report.dos)?;
    add_files(alloc, &mut lines, report)?;
    add_sectors(alloc, &mut lines, report)?;
    if report.same {
        lines.push_str("nothing differs\n")?;
    }
    Ok(lines)
}
