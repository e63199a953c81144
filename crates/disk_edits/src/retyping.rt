//! RETYPE: another type for a file, whose blocks stay.
use crate::exact::{Desk, protected};
use cbm_volume::{Entry, FileType};
use disk_basics::calls::entries;
use disk_basics::changing::retype_in_slot;
use disk_basics::{Choice, Failure, What, WordFault, on_disk, petscii, slot_chosen, slot_number};
use disk_facts::number_meant;
use std::alloc::Global;

/// The type that a word gives a file. Errors: `Word`, where a file's bytes can't have it.
fn kind_of(alloc: Global, word: &str) -> Result<FileType, Failure> {
    match word {
        "prg" | "PRG" => Ok(FileType::Prg),
        "seq" | "SEQ" => Ok(FileType::Seq),
        "usr" | "USR" => Ok(FileType::Usr),
        _ => Err(Failure::named(alloc, What::Word(WordFault::PlainType), word)),
    }
}

/// The slot of the file that is said, or of the first one that a pattern means. Errors: those of `slot_chosen`; `NoMatch`.
pub fn slot_said(alloc: Global, entries: &[Entry], choice: Choice<'_>) -> Result<usize, Failure> {
    if !choice.is_pattern() {
        return slot_chosen(alloc, entries, choice);
    }
    let pattern = petscii(alloc, choice.charset, choice.name)?;
    match number_meant(entries, pattern.as_slice()) {
        Some(slot) => Ok(slot),
        None => Err(Failure::new(What::NoMatch)),
    }
}

/// What retyping the file of an entry made of an image. An odd entry stays as it is, which is refused. The one error is `Disk`.
fn require_changed(
    alloc: Global,
    desk: Desk<'_, '_>,
    entry: &Entry,
    kind: FileType,
    new: Vec<u8>,
) -> Result<Vec<u8>, Failure> {
    if new.as_slice() != desk.bytes || entry.kind() == Some(kind) {
        return Ok(new);
    }
    Err(protected(alloc, desk.image))
}

/// The image whose file that is said has another type. Errors: `Word`, where the type is none of a file's bytes; those of
/// `slot_chosen`; `NoMatch`; `RelativeType`; `Disk`, also where the entry is an odd one; `NoMemory`.
pub fn retyped(
    alloc: Global,
    desk: Desk<'_, '_>,
    choice: Choice<'_>,
    word: &str,
) -> Result<Vec<u8>, Failure> {
    let kind = kind_of(alloc, word)?;
    let entries = on_disk(alloc, desk.image, entries(alloc, desk.bytes))?;
    let slot = slot_said(alloc, entries.as_slice(), choice)?;
    let Some(entry) = entries.as_slice().get(slot) else {
        return Err(Failure::named(alloc, What::NoFile, choice.word()));
    };
    if entry.is_relative() {
        return Err(Failure::named(alloc, What::RelativeType, choice.word()));
    }
    let slot = slot_number(alloc, slot, choice.word())?;
    let new = on_disk(
        alloc,
        desk.image,
        retype_in_slot(alloc, desk.bytes, slot, kind),
    )?;
    require_changed(alloc, desk, entry, kind, new)
}
