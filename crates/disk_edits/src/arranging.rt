//! ART and MOVE: entries at places of the directory that are said.
use crate::exact::{Desk, protected};
use crate::retyping::slot_said;
use cbm_shell::texts::Charset;
use cbm_shell::{Looks, Swap};
use cbm_volume::Entry;
use disk_basics::calls::entries;
use disk_basics::changing::{add_art, swap_entries};
use disk_basics::host::require_own_map;
use disk_basics::odd::odd_slots;
use disk_basics::spare::sixteen;
use disk_basics::{Choice, Failure, What, WordFault, in_memory, on_disk, petscii};
use disk_facts::count_files;
use std::alloc::{AllocError, Global};

/// The most bytes of a name.
const LONGEST: usize = 16;

/// A line of art that is added to a directory.
#[derive(Clone, Copy)]
pub struct Art<'a> {
    /// What it shows.
    pub text: &'a str,
    /// The number of blocks that it shows, as it was typed.
    pub blocks: &'a str,
    /// Its place among the files, from 1 on, as it was typed; the last, where none is said.
    pub place: Option<&'a str>,
    /// The character set of its text.
    pub charset: Charset,
}

/// The number of a place, from 0 on. Errors: `Word`, where no directory has it.
fn place_of(alloc: Global, word: &str) -> Result<usize, Failure> {
    match word.parse::<u8>() {
        Ok(place @ 1..=144) => Ok(usize::from(place).saturating_sub(1)),
        _ => Err(Failure::named(alloc, What::Word(WordFault::Place), word)),
    }
}

/// The slots that have files, but for those that stay.
fn slots_of(alloc: Global, entries: &[Entry], stays: &[usize]) -> Result<Vec<usize>, AllocError> {
    let mut slots = Vec::new(alloc);
    for (slot, entry) in entries.iter().enumerate() {
        if !entry.is_empty() && !stays.contains(&slot) {
            slots.push(slot).map_err(AllocError::from)?;
        }
    }
    Ok(slots)
}

/// Which of these slots one is.
fn number_of(slots: &[usize], slot: usize) -> Option<usize> {
    for (number, other) in slots.iter().enumerate() {
        if *other == slot {
            return Some(number);
        }
    }
    None
}

/// The swap of two of these slots.
fn swap_of(slots: &[usize], one: usize, other: usize) -> Option<Swap> {
    let first = u8::try_from(*slots.get(one)?).ok()?;
    let second = u8::try_from(*slots.get(other)?).ok()?;
    Some(Swap { first, second })
}

/// The swaps of neighbours that bring what stands in one of these slots to another one.
fn shifting(
    alloc: Global,
    slots: &[usize],
    from: usize,
    to: usize,
) -> Result<Vec<Swap>, AllocError> {
    let mut swaps = Vec::new(alloc);
    let mut at = from;
    for _ in 0..slots.len() {
        if at == to {
            break;
        }
        let next = if at < to {
            at.saturating_add(1)
        } else {
            at.saturating_sub(1)
        };
        if let Some(swap) = swap_of(slots, at, next) {
            swaps.push(swap)?;
        }
        at = next;
    }
    Ok(swaps)
}

/// The image whose entry in a slot stands at a place among the files; the others keep their order. Odd entries stay in their slots.
/// Errors: `Word`, where the directory has no such place; `Disk`, also where an odd entry stands in the slot or at the place.
fn shifted(
    alloc: Global,
    desk: Desk<'_, '_>,
    slot: usize,
    place: usize,
    word: &str,
) -> Result<Vec<u8>, Failure> {
    let entries = on_disk(alloc, desk.image, entries(alloc, desk.bytes))?;
    let stays = on_disk(alloc, desk.image, odd_slots(alloc, desk.bytes))?;
    let all = in_memory(slots_of(alloc, entries.as_slice(), &[]))?;
    let Some(target) = all.as_slice().get(place) else {
        return Err(Failure::named(alloc, What::Word(WordFault::Place), word));
    };
    let movable = in_memory(slots_of(alloc, entries.as_slice(), stays.as_slice()))?;
    let slots = movable.as_slice();
    match (number_of(slots, slot), number_of(slots, *target)) {
        (Some(from), Some(to)) => {
            let swaps = in_memory(shifting(alloc, slots, from, to))?;
            on_disk(
                alloc,
                desk.image,
                swap_entries(alloc, desk.bytes, swaps.as_slice()),
            )
        }
        _ => Err(protected(alloc, desk.image)),
    }
}

/// The image whose file that is said stands at a place among the files. Errors: `Word`, where no directory has the place, or this one;
/// those of `slot_chosen`; `NoMatch`; `Disk`, also where an odd entry is in the way; `NoMemory`.
pub fn moved(
    alloc: Global,
    desk: Desk<'_, '_>,
    choice: Choice<'_>,
    word: &str,
) -> Result<Vec<u8>, Failure> {
    let place = place_of(alloc, word)?;
    let entries = on_disk(alloc, desk.image, entries(alloc, desk.bytes))?;
    let slot = slot_said(alloc, entries.as_slice(), choice)?;
    shifted(alloc, desk, slot, place, word)
}

/// The number of blocks that a word shows. Errors: `Word`, where no entry shows that many.
fn blocks_of(alloc: Global, word: &str) -> Result<u16, Failure> {
    match word.parse::<u16>() {
        Ok(blocks) => Ok(blocks),
        Err(_) => Err(Failure::named(alloc, What::Word(WordFault::ShownBlocks), word)),
    }
}

/// The image with a line of art in the first slot that is empty.
fn with_art(alloc: Global, desk: Desk<'_, '_>, art: Art<'_>) -> Result<Vec<u8>, Failure> {
    let name = petscii(alloc, art.charset, art.text)?;
    if name.len() > LONGEST {
        return Err(Failure::named(alloc, What::Word(WordFault::LongName), art.text));
    }
    let looks = Looks {
        name: sixteen(name.as_slice()),
        blocks: blocks_of(alloc, art.blocks)?,
        is_locked: false,
    };
    match on_disk(alloc, desk.image, add_art(alloc, desk.bytes, looks))? {
        Some(new) => Ok(new),
        None => Err(Failure::named(alloc, What::DirectoryFull, desk.image)),
    }
}

/// The slot that has an entry after a change and had none before.
fn fresh_slot(before: &[Entry], after: &[Entry]) -> Option<usize> {
    for (slot, entry) in after.iter().enumerate() {
        let was_empty = match before.get(slot) {
            Some(old) => old.is_empty(),
            None => true,
        };
        if was_empty && !entry.is_empty() {
            return Some(slot);
        }
    }
    None
}

/// The image with a line of art at its place in the directory, without a block. Errors: `OtherMap`, where Dolphin DOS has its map on the
/// disk; `Word`, where its text, its number of blocks or its place can't be; `DirectoryFull`; `Disk`, also where an odd entry is in the
/// way; `NoMemory`.
pub fn adorned(alloc: Global, desk: Desk<'_, '_>, art: Art<'_>) -> Result<Vec<u8>, Failure> {
    let place = match art.place {
        Some(word) => Some(place_of(alloc, word)?),
        None => None,
    };
    require_own_map(alloc, desk.image, desk.bytes)?;
    let before = on_disk(alloc, desk.image, entries(alloc, desk.bytes))?;
    let new = with_art(alloc, desk, art)?;
    let after = on_disk(alloc, desk.image, entries(alloc, new.as_slice()))?;
    let Some(slot) = fresh_slot(before.as_slice(), after.as_slice()) else {
        return Err(Failure::named(alloc, What::DirectoryFull, desk.image));
    };
    let last = count_files(after.as_slice()).saturating_sub(1);
    let desk = Desk {
        image: desk.image,
        bytes: new.as_slice(),
    };
    shifted(
        alloc,
        desk,
        slot,
        place.unwrap_or(last),
        art.place.unwrap_or(""),
    )
}
