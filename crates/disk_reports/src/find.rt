//! FIND: the files that match a pattern.
use crate::broken::answer_by;
use crate::seen::Seen;
use crate::view::{Look, LookAnswer};
use cbm_shell::texts::Charset;
use cbm_volume::Entry;
use disk_basics::calls::name_text;
use disk_facts::{block_noun, is_meant, type_of};
use std::alloc::{AllocError, Global};

/// The line of a file. The one error is want of memory.
pub fn match_line(
    alloc: Global,
    image: &str,
    entry: &Entry,
    charset: Charset,
) -> Result<String, AllocError> {
    let shown = name_text(alloc, charset, entry.name())?;
    let name = shown.as_str();
    let kind = type_of(entry).unwrap_or("???");
    let blocks = entry.blocks();
    let noun = block_noun(blocks);
    format!(in alloc; "{image}: \"{name}\" {kind}, {blocks} {noun}\n")
}

/// The lines of the files that match. The one error is want of memory.
pub fn match_lines(
    alloc: Global,
    image: &str,
    entries: &[Entry],
    look: Look<'_>,
) -> Result<Vec<u8>, AllocError> {
    let mut text = Vec::new(alloc);
    for entry in entries {
        if is_meant(entry, look.pattern) {
            let line = match_line(alloc, image, entry, look.charset)?;
            text.extend_from_slice(line.as_bytes())?;
        }
    }
    Ok(text)
}

/// Adds a line for each file that matches, up to where the directory breaks off. The one error is want of memory.
pub fn add_matches(
    alloc: Global,
    text: &mut Vec<u8>,
    seen: Seen<'_>,
    look: Look<'_>,
) -> Result<LookAnswer, AllocError> {
    let lines = match_lines(alloc, seen.name, seen.listed.entries.as_slice(), look)?;
    text.extend_from_slice(lines.as_slice())?;
    let answer = if lines.is_empty() {
        LookAnswer::NoMatch
    } else {
        LookAnswer::Fine
    };
    Ok(answer_by(seen.listed, answer))
}
