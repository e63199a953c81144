//! INFO: what the disk is.
use crate::report::Facts;
use crate::seen::Seen;
use cbm_shell::texts::Charset;
use cbm_shell::{Info, Listed, ShellFault};
use cbm_volume::{Label, Unsound};
use disk_basics::calls::{name_text, unsound_text};
use disk_basics::odd::odd_slots;
use disk_basics::strays::strays_on;
use disk_facts::{count_files, format_name, more_tracks, unfilled, wide_map};
use std::alloc::{AllocError, Global};

/// The line of the format.
fn add_format(
    alloc: Global,
    text: &mut String,
    image: &[u8],
    tracks: u8,
) -> Result<(), AllocError> {
    let name = format_name(image);
    text.push_str(format!(in alloc; "format       {name}, {tracks} tracks\n")?.as_str())
}

/// The line of half tracks and tracks beyond 35, where a G64 has such.
fn add_more_tracks(alloc: Global, text: &mut String, image: &[u8]) -> Result<(), AllocError> {
    let names = more_tracks(alloc, image)?;
    if names.is_empty() {
        return Ok(());
    }
    text.push_str("more tracks ")?;
    for name in names.as_slice() {
        text.push(' ')?;
        text.push_str(name.as_str())?;
    }
    text.push('\n')
}

/// The line of whose map of tracks 36 to 40 a D64 has, if it has one.
fn add_wide_map(text: &mut String, image: &[u8]) -> Result<(), AllocError> {
    match wide_map(image) {
        Some(map) => add_line(text, "map of 36-40 ", map.name()),
        None => Ok(()),
    }
}

/// A line.
fn add_line(text: &mut String, name: &str, value: &str) -> Result<(), AllocError> {
    text.push_str(name)?;
    text.push_str(value)?;
    text.push('\n')
}

/// A line of what codes show.
fn add_shown(
    alloc: Global,
    text: &mut String,
    charset: Charset,
    name: &str,
    codes: &[u8],
) -> Result<(), AllocError> {
    let codes = name_text(alloc, charset, codes)?;
    add_line(text, name, codes.as_str())
}

/// The lines of the title and the id.
fn add_names(
    alloc: Global,
    text: &mut String,
    charset: Charset,
    label: &Label,
) -> Result<(), AllocError> {
    let [first, second, _, dos, version] = label.mark;
    let title = unfilled(label.title.as_slice());
    add_shown(alloc, text, charset, "title        ", title)?;
    add_shown(alloc, text, charset, "id           ", &[first, second])?;
    add_shown(alloc, text, charset, "DOS          ", &[dos, version])
}

/// The lines of the title, the id and the free blocks.
fn add_label(
    alloc: Global,
    text: &mut String,
    charset: Charset,
    info: &Info,
) -> Result<(), AllocError> {
    let Some(label) = info.label else {
        return text.push_str("title        unknown: track 18, sector 0 can't be read\n");
    };
    let free = info.free.unwrap_or(0);
    add_names(alloc, text, charset, &label)?;
    text.push_str(format!(in alloc; "blocks free  {free}\n")?.as_str())
}

/// The line of how many files there are, up to where the directory breaks off.
fn add_count(
    alloc: Global,
    text: &mut String,
    files: usize,
    is_whole: bool,
) -> Result<(), AllocError> {
    text.push_str(format!(in alloc; "files        {files}")?.as_str())?;
    if !is_whole {
        text.push_str(", up to where the directory breaks off")?;
    }
    text.push('\n')
}

/// The line of how many files an image has.
fn add_files(alloc: Global, text: &mut String, listed: &Listed) -> Result<(), AllocError> {
    let files = count_files(listed.entries.as_slice());
    add_count(alloc, text, files, listed.trouble.is_none())
}

/// What is wrong first.
fn add_unsound(alloc: Global, text: &mut String, unsound: Unsound) -> Result<(), AllocError> {
    let line = unsound_text(alloc, unsound)?;
    text.push_str("no: ")?;
    text.push_str(std::str::from_utf8(line.as_slice()).unwrap_or("\n"))
}

/// The line of the odd entries, if that is all that is wrong.
fn add_odd(alloc: Global, text: &mut String, image: &[u8]) -> Result<(), ShellFault> {
    let count = odd_slots(alloc, image)?.len();
    if count > 0 {
        text.push_str(format!(in alloc; "odd entries  {count}\n")?.as_str())?;
    }
    Ok(())
}

/// The lines of what is wrong.
fn add_faults(
    alloc: Global,
    text: &mut String,
    info: &Info,
    image: &[u8],
) -> Result<(), ShellFault> {
    let count = info.unreadable.len();
    text.push_str(format!(in alloc; "unreadable   {count}\nsound        ")?.as_str())?;
    match info.check {
        Ok(()) => text.push_str("yes\n")?,
        Err(unsound) => {
            add_unsound(alloc, text, unsound)?;
            add_odd(alloc, text, image)?;
        }
    }
    Ok(())
}

/// The line of the files that aren't listed, if there are such.
fn add_unlinked(alloc: Global, text: &mut String, seen: Seen<'_>) -> Result<(), AllocError> {
    if let Some(unlinked) = strays_on(alloc, seen.disk, seen.listed)?.count() {
        text.push_str(format!(in alloc; "not listed   {unlinked}\n")?.as_str())?;
    }
    Ok(())
}

/// The lines of the format.
fn add_formats(
    alloc: Global,
    text: &mut String,
    image: &[u8],
    tracks: u8,
) -> Result<(), AllocError> {
    add_format(alloc, text, image, tracks)?;
    add_more_tracks(alloc, text, image)?;
    add_wide_map(text, image)
}

/// What a disk or an archive of another kind is, as lines. The one error is want of memory.
pub fn other_facts(
    alloc: Global,
    charset: Charset,
    facts: &Facts,
    files: usize,
    is_whole: bool,
) -> Result<String, AllocError> {
    let mut text = String::new(alloc);
    let format = facts.format;
    text.push_str(format!(in alloc; "format       {format}")?.as_str())?;
    if let Some(tracks) = facts.tracks {
        text.push_str(format!(in alloc; ", {tracks} tracks")?.as_str())?;
    }
    text.push('\n')?;
    if let Some(label) = facts.label {
        add_names(alloc, &mut text, charset, &label)?;
    }
    add_count(alloc, &mut text, files, is_whole)?;
    if let Some(count) = facts.unreadable {
        text.push_str(format!(in alloc; "unreadable   {count}\n")?.as_str())?;
    }
    Ok(text)
}

/// What the disk of an image is, as lines. The one error is `Memory`.
pub fn lines_of(alloc: Global, charset: Charset, seen: Seen<'_>) -> Result<Vec<u8>, ShellFault> {
    let info = seen.disk.info(alloc)?;
    let mut text = String::new(alloc);
    add_formats(alloc, &mut text, seen.image, info.tracks)?;
    add_label(alloc, &mut text, charset, &info)?;
    add_files(alloc, &mut text, seen.listed)?;
    add_unlinked(alloc, &mut text, seen)?;
    add_faults(alloc, &mut text, &info, seen.image)?;
    Ok(text.into_bytes())
}
