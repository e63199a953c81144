//! RENAME, DELETE, COPY, LOCK and UNLOCK of one file that is chosen by its slot or its exact name. The drive's commands can't say
//! every name: the file gets one that they can say, and afterwards its own.
use cbm_channel::{Code, Status};
use cbm_shell::texts::Charset;
use cbm_shell::{DiskChange, ShellFault, geos_of};
use cbm_volume::Entry;
use disk_basics::calls::entries;
use disk_basics::changing::{change, delete_in_slot, lock_in_slot, rename_in_slot};
use disk_basics::host::{joined, require_own_map};
use disk_basics::spare::{has_name, named, sixteen, spare_name, taken, unspared, whole_name};
use disk_basics::{
    Choice, Failure, What, WordFault, on_disk, on_new_name, on_room, petscii, slot_chosen,
    slot_number,
};
use std::alloc::Global;

/// The most bytes of a name.
const LONGEST: usize = 16;

/// What is done with the chosen file.
#[derive(Clone, Copy)]
pub enum Deed<'a> {
    /// It gets this name.
    Rename(&'a str),
    /// A copy of this name is made.
    Copy(&'a str),
    /// It is deleted.
    Delete,
    /// It is locked, or freed.
    Lock(bool),
}

/// A disk and its image's name.
#[derive(Clone, Copy)]
pub struct Desk<'a, 'b> {
    /// The name.
    pub image: &'a str,
    /// The image's bytes.
    pub bytes: &'b [u8],
}

/// The codes of a new name, whatever they are.
fn new_name(alloc: Global, charset: Charset, name: &str) -> Result<Vec<u8>, Failure> {
    let codes = petscii(alloc, charset, name)?;
    if codes.is_empty() {
        return Err(Failure::new(What::Word(WordFault::NoFileName)));
    }
    if codes.len() > LONGEST {
        return Err(Failure::named(alloc, What::Word(WordFault::LongName), name));
    }
    Ok(codes)
}

/// The image after a command of the drive.
fn commanded(alloc: Global, desk: Desk<'_, '_>, parts: &[&[u8]]) -> Result<Vec<u8>, Failure> {
    let text = joined(alloc, parts)?;
    let command = DiskChange::Command(text.as_slice());
    let answer = change(alloc, desk.bytes, &command);
    on_room(alloc, desk.image, desk.bytes, 1, answer)
}

/// The image without the file in a slot.
fn deleted(
    alloc: Global,
    desk: Desk<'_, '_>,
    entries: &[Entry],
    slot: usize,
    word: &str,
) -> Result<Vec<u8>, Failure> {
    if entries.get(slot).is_some_and(Entry::is_locked) {
        return Err(Failure::named(alloc, What::Locked, word));
    }
    on_disk(
        alloc,
        desk.image,
        delete_in_slot(alloc, desk.bytes, slot_number(alloc, slot, word)?),
    )
}

/// The image with a copy of the file of one spare name under another.
fn copied_spare(
    alloc: Global,
    desk: Desk<'_, '_>,
    slot: usize,
    old: &[u8; 3],
    new: &[u8; 3],
) -> Result<Vec<u8>, Failure> {
    let image = named(alloc, desk.image, desk.bytes, slot, old, false)?;
    let there = Desk {
        image: desk.image,
        bytes: image.as_slice(),
    };
    commanded(alloc, there, &[b"C0:", new, b"=", old, b"\r"])
}

/// The image with a copy of the file in a slot.
fn copied(
    alloc: Global,
    desk: Desk<'_, '_>,
    entries: &[Entry],
    slot: usize,
    name: &[u8],
) -> Result<Vec<u8>, Failure> {
    let (Some(entry), Some(old), Some(new)) = (
        entries.get(slot),
        spare_name(entries, 1),
        spare_name(entries, 2),
    ) else {
        return Err(taken(alloc, desk.image));
    };
    if has_name(entries, name) {
        return Err(Failure::named(alloc, What::NameTaken, desk.image));
    }
    let with_both = copied_spare(alloc, desk, slot, &old, &new)?;
    let both = with_both.as_slice();
    let own = whole_name(entry);
    let with_old = named(alloc, desk.image, both, slot, own, entry.is_locked())?;
    unspared(alloc, desk.image, with_old.as_slice(), &new, name, false)
}

/// The refusal of a change that leaves an odd entry as it was.
pub(crate) fn protected(alloc: Global, image: &str) -> Failure {
    let status = Status {
        code: Code::WriteProtected,
        first: 0,
        second: 0,
    };
    Failure::named(alloc, What::Disk(ShellFault::Refused(status)), image)
}

/// Whether the file in a slot is locked.
fn is_locked_in(alloc: Global, image: &[u8], slot: usize) -> Result<bool, ShellFault> {
    let entries = entries(alloc, image)?;
    Ok(entries.as_slice().get(slot).is_some_and(Entry::is_locked))
}

/// The image with the file in a slot locked, or free. An odd entry stays as it is, which is refused.
fn locked(
    alloc: Global,
    desk: Desk<'_, '_>,
    slot: usize,
    is_locked: bool,
    word: &str,
) -> Result<Vec<u8>, Failure> {
    let number = slot_number(alloc, slot, word)?;
    let new = on_disk(
        alloc,
        desk.image,
        lock_in_slot(alloc, desk.bytes, number, is_locked),
    )?;
    if on_disk(alloc, desk.image, is_locked_in(alloc, new.as_slice(), slot))? == is_locked {
        return Ok(new);
    }
    Err(protected(alloc, desk.image))
}

/// Refuses to copy what the drive's COPY doesn't take whole: a relative file, and one of GEOS.
fn require_plain(alloc: Global, entries: &[Entry], slot: usize, word: &str) -> Result<(), Failure> {
    match entries.get(slot) {
        Some(entry) if geos_of(entry).is_some() => Err(Failure::named(alloc, What::GeosCopy, word)),
        Some(entry) if entry.is_relative() => Err(Failure::named(alloc, What::Records, word)),
        _ => Ok(()),
    }
}

/// Refuses to write the BAM of a disk on which another DOS has its map.
fn require_map(alloc: Global, desk: Desk<'_, '_>, deed: Deed<'_>) -> Result<(), Failure> {
    match deed {
        Deed::Copy(_) | Deed::Delete => require_own_map(alloc, desk.image, desk.bytes),
        Deed::Rename(_) | Deed::Lock(_) => Ok(()),
    }
}

/// The image after something was done with the file that is chosen. Errors: `OtherMap`, where the BAM is written and Dolphin DOS has
/// its map on the disk; those of `slot_chosen`; `Word`, where a new name can't be; `Disk`, where the name is there already or the disk
/// refuses it; `Locked`; `Records` and `GeosCopy`; `NoMemory`.
pub fn done_with(
    alloc: Global,
    desk: Desk<'_, '_>,
    choice: Choice<'_>,
    deed: Deed<'_>,
) -> Result<Vec<u8>, Failure> {
    require_map(alloc, desk, deed)?;
    let entries = on_disk(alloc, desk.image, entries(alloc, desk.bytes))?;
    let entries = entries.as_slice();
    let slot = slot_chosen(alloc, entries, choice)?;
    match deed {
        Deed::Rename(word) => {
            let name = new_name(alloc, choice.charset, word)?;
            let slot = slot_number(alloc, slot, choice.word())?;
            let answer = rename_in_slot(alloc, desk.bytes, slot, sixteen(name.as_slice()));
            on_new_name(alloc, desk.image, desk.bytes, answer)
        }
        Deed::Copy(word) => {
            require_plain(alloc, entries, slot, choice.word())?;
            let name = new_name(alloc, choice.charset, word)?;
            copied(alloc, desk, entries, slot, name.as_slice())
        }
        Deed::Delete => deleted(alloc, desk, entries, slot, choice.word()),
        Deed::Lock(is_locked) => locked(alloc, desk, slot, is_locked, choice.word()),
    }
}
