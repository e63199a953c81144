//! One file of a disk: by its exact name, or by its slot.
use crate::failure::Failure;
use crate::names::petscii;
use crate::what::What;
use crate::word_fault::WordFault;
use cbm_shell::texts::Charset;
use cbm_volume::Entry;
use std::alloc::Global;

/// How one file is said.
#[derive(Clone, Copy)]
pub struct Choice<'a> {
    /// Its name.
    pub name: &'a str,
    /// The number of its slot, as it was typed.
    pub slot: Option<&'a str>,
    /// The name is exact: `*` and `?` are characters of it.
    pub is_exact: bool,
    /// The character set of the name.
    pub charset: Charset,
}

impl<'a> Choice<'a> {
    /// Whether the name is a pattern, as the drive takes it.
    pub fn is_pattern(self) -> bool {
        self.slot.is_none() && !self.is_exact
    }

    /// What was said.
    pub fn word(self) -> &'a str {
        self.slot.unwrap_or(self.name)
    }
}

/// The slot of the first file of exactly this name; None where no file has it.
pub fn slot_named(entries: &[Entry], codes: &[u8]) -> Option<usize> {
    for (slot, entry) in entries.iter().enumerate() {
        if !entry.is_empty() && entry.name() == codes {
            return Some(slot);
        }
    }
    None
}

/// The number of a slot. The one error is `NoFile`, with the word for the file, where no slot has it.
pub fn slot_number(alloc: Global, slot: usize, word: &str) -> Result<u8, Failure> {
    u8::try_from(slot).map_err(|_| Failure::named(alloc, What::NoFile, word))
}

/// The slot of a number, if it has a file.
fn slot_numbered(alloc: Global, entries: &[Entry], word: &str) -> Result<Option<usize>, Failure> {
    let Ok(slot) = word.parse::<u8>() else {
        return Err(Failure::named(alloc, What::Word(WordFault::Slot), word));
    };
    match entries.get(usize::from(slot)) {
        Some(entry) if !entry.is_empty() => Ok(Some(usize::from(slot))),
        _ => Ok(None),
    }
}

/// The slot of the file that is chosen, among these entries. Errors: `Word`, where the name can't be typed or the slot is no
/// number; `NoFile`, where there is none; `NoMemory`.
pub fn slot_chosen(alloc: Global, entries: &[Entry], choice: Choice<'_>) -> Result<usize, Failure> {
    let slot = match choice.slot {
        Some(word) => slot_numbered(alloc, entries, word)?,
        None => {
            let codes = petscii(alloc, choice.charset, choice.name)?;
            slot_named(entries, codes.as_slice())
        }
    };
    match slot {
        Some(slot) => Ok(slot),
        None => Err(Failure::named(alloc, What::NoFile, choice.word())),
    }
}
