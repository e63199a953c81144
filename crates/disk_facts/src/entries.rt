//! Entries of a directory.
use cbm_command::matches;
use cbm_volume::{Entry, FileType};

/// What fills a title after its end.
const FILLER: u8 = 0xa0;

/// Codes without the fillers at their end.
pub fn unfilled(codes: &[u8]) -> &[u8] {
    let mut count: usize = 0;
    for (place, code) in codes.iter().enumerate() {
        if *code != FILLER {
            count = place.saturating_add(1);
        }
    }
    codes.get(..count).unwrap_or(codes)
}

/// How the type of a file is called; None where it is none's.
pub fn type_of(entry: &Entry) -> Option<&'static str> {
    match entry.kind()? {
        FileType::Del => Some("del"),
        FileType::Seq => Some("seq"),
        FileType::Prg => Some("prg"),
        FileType::Usr => Some("usr"),
        FileType::Rel => Some("rel"),
    }
}

/// Whether a pattern means the file of an entry.
pub fn is_meant(entry: &Entry, pattern: &[u8]) -> bool {
    !entry.is_empty() && matches(pattern, entry.name())
}

/// The number of the first file that a pattern means; None where it means none.
pub fn number_meant(entries: &[Entry], pattern: &[u8]) -> Option<usize> {
    for (number, entry) in entries.iter().enumerate() {
        if is_meant(entry, pattern) {
            return Some(number);
        }
    }
    None
}

/// The first file that a pattern means; None where it means none.
pub fn first_meant<'e>(entries: &'e [Entry], pattern: &[u8]) -> Option<&'e Entry> {
    entries.get(number_meant(entries, pattern)?)
}

/// How many files are in a directory.
pub fn count_files(entries: &[Entry]) -> usize {
    let mut files: usize = 0;
    for entry in entries {
        if !entry.is_empty() {
            files = files.saturating_add(1);
        }
    }
    files
}

/// Whether an entry is that of a deleted file: it has no type, but a name and a block.
pub fn is_deleted(entry: &Entry) -> bool {
    entry.is_empty() && !entry.first_block().is_end() && !entry.name().is_empty()
}

/// The noun for so many blocks.
pub fn block_noun(count: u16) -> &'static str {
    if count == 1 { "block" } else { "blocks" }
}
