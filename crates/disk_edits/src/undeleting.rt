//! UNDELETE: deleted files given back.
use cbm_command::matches;
use cbm_shell::texts::Charset;
use cbm_volume::{Entry, FileType};
use disk_basics::calls::{entries, name_text};
use disk_basics::changing::undelete;
use disk_basics::host::require_own_map;
use disk_basics::{Failure, What, WordFault, in_memory, on_disk, petscii};
use disk_facts::is_deleted;
use std::alloc::{AllocError, Global};

/// Files that are given back.
#[derive(Clone, Copy)]
pub struct Gone<'a, 'c> {
    /// Their names, or patterns.
    pub names: &'c [&'a str],
    /// Their type.
    pub kind: &'a str,
    /// The character set of names.
    pub charset: Charset,
}

/// Whether a name is a pattern, which may mean several files.
fn is_wild(name: &[u8]) -> bool {
    for code in name {
        if matches!(*code, b'*' | b'?') {
            return true;
        }
    }
    false
}

/// The slots of the deleted files that match: for a pattern all of them, for a name the first.
fn slots_of(alloc: Global, entries: &[Entry], pattern: &[u8]) -> Result<Vec<u8>, AllocError> {
    let mut slots = Vec::new(alloc);
    for (slot, entry) in entries.iter().enumerate() {
        if !is_deleted(entry) || !matches(pattern, entry.name()) {
            continue;
        }
        if let Ok(slot) = u8::try_from(slot) {
            slots.push(slot).map_err(AllocError::from)?;
        }
        if !is_wild(pattern) {
            break;
        }
    }
    Ok(slots)
}

/// The type of a word.
fn kind_of(alloc: Global, word: &str) -> Result<FileType, Failure> {
    match word {
        "prg" => Ok(FileType::Prg),
        "seq" => Ok(FileType::Seq),
        "usr" => Ok(FileType::Usr),
        _ => Err(Failure::named(alloc, What::Word(WordFault::Type), word)),
    }
}

/// The failure of a file that can't be given back, with its name.
fn overwritten(alloc: Global, entry: &Entry, charset: Charset) -> Failure {
    match name_text(alloc, charset, entry.name()) {
        Ok(name) => Failure::named(alloc, What::Overwritten, name.as_str()),
        Err(_) => Failure::new(What::NoMemory),
    }
}

/// The image with the deleted file of a slot given back.
fn with_slot(
    alloc: Global,
    image: &str,
    bytes: &[u8],
    slot: u8,
    kind: FileType,
    charset: Charset,
) -> Result<Vec<u8>, Failure> {
    if let Some(new) = on_disk(alloc, image, undelete(alloc, bytes, slot, kind))? {
        return Ok(new);
    }
    let entries = on_disk(alloc, image, entries(alloc, bytes))?;
    match entries.as_slice().get(usize::from(slot)) {
        Some(entry) => Err(overwritten(alloc, entry, charset)),
        None => Err(Failure::new(What::Overwritten)),
    }
}

/// The image with the deleted files given back that a word means.
fn with_word(
    alloc: Global,
    image: &str,
    bytes: &[u8],
    word: &str,
    kind: FileType,
    charset: Charset,
) -> Result<Vec<u8>, Failure> {
    let pattern = petscii(alloc, charset, word)?;
    let entries = on_disk(alloc, image, entries(alloc, bytes))?;
    let slots = in_memory(slots_of(alloc, entries.as_slice(), pattern.as_slice()))?;
    if slots.is_empty() {
        return Err(Failure::named(alloc, What::NotDeleted, word));
    }
    let mut new = in_memory(Vec::from_slice(alloc, bytes))?;
    for slot in slots.as_slice() {
        new = with_slot(alloc, image, new.as_slice(), *slot, kind, charset)?;
    }
    Ok(new)
}

/// The image with deleted files given back, all of them or none. Errors: `OtherMap`, where Dolphin DOS has its map on the disk; those of
/// `petscii`; `Word`, where the type is none; `NotDeleted`, where no deleted file matches a name; `Overwritten`, where the blocks of one
/// aren't free; `Disk`; `NoMemory`.
pub fn given_back(
    alloc: Global,
    image: &str,
    bytes: &[u8],
    gone: &Gone<'_, '_>,
) -> Result<Vec<u8>, Failure> {
    require_own_map(alloc, image, bytes)?;
    let kind = kind_of(alloc, gone.kind)?;
    let mut new = in_memory(Vec::from_slice(alloc, bytes))?;
    for word in gone.names {
        new = with_word(alloc, image, new.as_slice(), *word, kind, gone.charset)?;
    }
    Ok(new)
}
