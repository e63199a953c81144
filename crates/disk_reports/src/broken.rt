//! LIST where the drive refuses it: the title can't be read, the directory breaks off, or the pattern is too long for a command.
use crate::geos::add_geos_files;
use crate::seen::Seen;
use crate::view::{Look, LookAnswer};
use cbm_channel::FileType;
use cbm_shell::Listed;
use cbm_shell::texts::Charset;
use cbm_volume::{Entry, Label};
use disk_basics::BreakOff;
use disk_basics::calls::name_text;
use disk_facts::is_meant;
use std::alloc::{AllocError, Global};

/// What fills a title and an id after their ends.
const FILLER: u8 = 0xa0;

/// How a type is called in a directory.
fn type_word(entry: &Entry, charset: Charset) -> &'static str {
    let is_lower = matches!(charset, Charset::Lower);
    match entry.kind() {
        Some(FileType::Del) if is_lower => "del",
        Some(FileType::Seq) if is_lower => "seq",
        Some(FileType::Prg) if is_lower => "prg",
        Some(FileType::Usr) if is_lower => "usr",
        Some(FileType::Rel) if is_lower => "rel",
        Some(FileType::Del) => "DEL",
        Some(FileType::Seq) => "SEQ",
        Some(FileType::Prg) => "PRG",
        Some(FileType::Usr) => "USR",
        Some(FileType::Rel) => "REL",
        None => "???",
    }
}

/// Adds spaces.
fn add_spaces(text: &mut String, count: usize) -> Result<(), AllocError> {
    for _ in 0..count {
        text.push(' ')?;
    }
    Ok(())
}

/// Adds a file's line, as a directory has it.
fn add_line(
    alloc: Global,
    text: &mut String,
    entry: &Entry,
    charset: Charset,
) -> Result<(), AllocError> {
    let shown = name_text(alloc, charset, entry.name())?;
    let name = shown.as_str();
    let blocks = entry.blocks();
    text.push_str(format!(in alloc; "{blocks:<5}\"{name}\"")?.as_str())?;
    add_spaces(text, 16usize.saturating_sub(entry.name().len()))?;
    text.push(if entry.is_closed() { ' ' } else { '*' })?;
    text.push_str(type_word(entry, charset))?;
    text.push(if entry.is_locked() { '<' } else { ' ' })?;
    text.push_str(" \n")
}

/// The lines of the files that are meant. The one error is want of memory.
pub fn entry_lines(alloc: Global, entries: &[Entry], look: Look<'_>) -> Result<String, AllocError> {
    let mut text = String::new(alloc);
    for entry in entries {
        if is_meant(entry, look.pattern) {
            add_line(alloc, &mut text, entry, look.charset)?;
        }
    }
    Ok(text)
}

/// Codes as a directory has them: what fills a text is a space.
fn spaced(alloc: Global, codes: &[u8]) -> Result<Vec<u8>, AllocError> {
    let mut out = Vec::new(alloc);
    for code in codes {
        out.push(if *code == FILLER { b' ' } else { *code })?;
    }
    Ok(out)
}

/// Adds the line of the title, as a directory has it.
fn add_title(
    alloc: Global,
    text: &mut Vec<u8>,
    label: &Label,
    charset: Charset,
) -> Result<(), AllocError> {
    let title = spaced(alloc, label.title.as_slice())?;
    let mark = spaced(alloc, &label.mark)?;
    let title = name_text(alloc, charset, title.as_slice())?;
    let mark = name_text(alloc, charset, mark.as_slice())?;
    let shown = title.as_str();
    let end = mark.as_str();
    text.extend_from_slice(format!(in alloc; "0 \"{shown}\" {end}\n")?.as_bytes())
}

/// Adds the line of the free blocks, as a directory has it.
fn add_free(
    alloc: Global,
    text: &mut Vec<u8>,
    free: u16,
    charset: Charset,
) -> Result<(), AllocError> {
    let line = match charset {
        Charset::Upper => format!(in alloc; "{free} BLOCKS FREE.             \n")?,
        Charset::Lower => format!(in alloc; "{free} blocks free.             \n")?,
    };
    text.extend_from_slice(line.as_bytes())
}

/// What a look comes to that shows the files of a directory: where that breaks off, or else this.
pub fn answer_by(listed: &Listed, answer: LookAnswer) -> LookAnswer {
    match listed.trouble {
        Some(trouble) => LookAnswer::Broken(BreakOff {
            entries: listed.entries.len(),
            trouble,
        }),
        None => answer,
    }
}

/// Adds the directory of a disk where the drive doesn't list it, or not by a pattern that is too long for a command: the title, if
/// 18/0 can be read, and the files up to where the directory breaks off. The one error is want of memory.
pub fn add_broken(
    alloc: Global,
    text: &mut Vec<u8>,
    seen: Seen<'_>,
    look: Look<'_>,
) -> Result<LookAnswer, AllocError> {
    let entries = seen.listed.entries.as_slice();
    let label = seen.disk.label();
    if let Some(label) = &label {
        add_title(alloc, text, label, look.charset)?;
    }
    let lines = entry_lines(alloc, entries, look)?;
    text.extend_from_slice(lines.as_bytes())?;
    if let Some(free) = seen.disk.free() {
        add_free(alloc, text, free, look.charset)?;
    }
    add_geos_files(alloc, text, entries, look)?;
    let whole = match label {
        Some(_) => LookAnswer::Fine,
        None => LookAnswer::Untitled,
    };
    Ok(answer_by(seen.listed, whole))
}
