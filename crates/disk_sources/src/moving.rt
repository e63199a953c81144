//! One file of a disk or an archive onto an image, with its name, its type and its lock.
mod geos;

use self::geos::geos_moved;
use crate::origin::{Origin, tell_file};
use cbm_shell::texts::Charset;
use cbm_shell::{Looks, geos_of};
use cbm_volume::Entry;
use disk_basics::calls::{entries, name_text};
use disk_basics::changing::{add_art, delete_in_slot};
use disk_basics::spare::{spare_name, taken, unspared, whole_name};
use disk_basics::{
    Failure, FileKind, What, in_memory, kind_of_entry, on_disk, slot_named, slot_number,
};
use disk_changes::{Stored, tell_empty, with_stored};
use std::alloc::{AllocError, Global};
use std::rt::Runtime;

/// A way from a disk or an archive to an image.
#[derive(Clone, Copy)]
pub struct Way<'a, 'o, 'b> {
    /// The disk or the archive that has the files.
    pub origin: &'o Origin<'b>,
    /// The image's name.
    pub to: &'a str,
    /// Files of the image that have the names are replaced.
    pub replaces: bool,
}

/// A file on its way, and the image's name.
#[derive(Clone, Copy)]
struct Moved<'a, 'b> {
    to: &'a str,
    entry: &'b Entry,
    bytes: &'b [u8],
    replaces: bool,
}

/// The image without the file of a slot that is in the way. Errors: where it isn't to be replaced, or is locked.
fn without(
    alloc: Global,
    old: &[u8],
    slot: usize,
    moved: Moved<'_, '_>,
) -> Result<Vec<u8>, Failure> {
    if !moved.replaces {
        return Err(taken(alloc, moved.to));
    }
    let slot = slot_number(alloc, slot, moved.to)?;
    on_disk(alloc, moved.to, delete_in_slot(alloc, old, slot))
}

/// The image with a file of a kind: under a name that none of these entries has, and then under its own.
fn with_file(
    alloc: Global,
    old: &[u8],
    there: &[Entry],
    kind: FileKind,
    moved: Moved<'_, '_>,
) -> Result<Vec<u8>, Failure> {
    let Some(spare) = spare_name(there, 3) else {
        return Err(taken(alloc, moved.to));
    };
    let file = Stored {
        name: &spare,
        kind,
        record: Some(moved.entry.record_length()),
        replaces: false,
        bytes: moved.bytes,
    };
    let image = with_stored(alloc, moved.to, old, &file)?;
    let own = whole_name(moved.entry);
    let is_locked = moved.entry.is_locked();
    unspared(alloc, moved.to, image.as_slice(), &spare, own, is_locked)
}

/// The image with a file of a kind, in place of the one that has its name, if one does.
fn with_kind(
    alloc: Global,
    old: &[u8],
    kind: FileKind,
    moved: Moved<'_, '_>,
) -> Result<Vec<u8>, Failure> {
    let all = on_disk(alloc, moved.to, entries(alloc, old))?;
    let there = all.as_slice();
    match slot_named(there, moved.entry.name()) {
        Some(slot) => {
            let free = without(alloc, old, slot, moved)?;
            with_file(alloc, free.as_slice(), there, kind, moved)
        }
        None => with_file(alloc, old, there, kind, moved),
    }
}

/// The image with a line of art.
fn with_art(alloc: Global, old: &[u8], moved: Moved<'_, '_>) -> Result<Vec<u8>, Failure> {
    let looks = Looks {
        name: whole_name(moved.entry),
        blocks: moved.entry.blocks(),
        is_locked: moved.entry.is_locked(),
    };
    match on_disk(alloc, moved.to, add_art(alloc, old, looks))? {
        Some(image) => Ok(image),
        None => Err(Failure::named(alloc, What::DirectoryFull, moved.to)),
    }
}

/// Whether an entry is a line of art: a disk has no block for it, an archive no file.
fn is_art(origin: &Origin<'_>, entry: &Entry) -> bool {
    let is_without = entry.first_block().track() == 0 && (origin.is_disk() || entry.blocks() == 0);
    kind_of_entry(entry).is_none() && is_without
}

/// Reports why a file isn't transferred.
pub fn tell_other<R: Runtime + AllocGlobal, T>(
    rt: &R,
    entry: &Entry,
    why: &str,
) -> Result<T, Failure> {
    let name = in_memory(name_text(rt.alloc(), Charset::Upper, entry.name()))?;
    let name = name.as_str();
    let _ = eprintln!(rt; "disk1541: \"{name}\" {why}");
    Err(Failure::new(What::Told))
}

/// The kind of an entry's file. What the drive doesn't write is reported.
fn kind_of<R: Runtime + AllocGlobal>(rt: &R, entry: &Entry) -> Result<FileKind, Failure> {
    if geos_of(entry).is_some() {
        return tell_other(
            rt,
            entry,
            "is a GEOS file: its info block and records would be missing",
        );
    }
    match kind_of_entry(entry) {
        Some(FileKind::Relative) if !matches!(entry.record_length(), 1..=254) => {
            tell_other(
                rt,
                entry,
                "is a relative file with an unknown record length",
            )
        }
        Some(kind) => Ok(kind),
        None => tell_other(
            rt,
            entry,
            "has blocks and a type that the drive never writes",
        ),
    }
}

/// The bytes of an entry's file. What isn't read is reported.
fn bytes_of<R: Runtime + AllocGlobal>(
    rt: &R,
    origin: &Origin<'_>,
    entry: &Entry,
    number: usize,
) -> Result<Vec<u8>, Failure> {
    match origin.file(rt.alloc(), entry, number) {
        Ok(bytes) => Ok(bytes),
        Err(fault) => {
            in_memory(tell_file(rt, entry, fault))?;
            Err(Failure::new(What::Told))
        }
    }
}

/// Reports a file without bytes, to which the drive's CLOSE gives one.
fn tell_empty_file<R: Eprint + AllocGlobal>(
    rt: &R,
    entry: &Entry,
    kind: FileKind,
    bytes: &[u8],
) -> Result<(), AllocError> {
    if bytes.is_empty() {
        let name = name_text(rt.alloc(), Charset::Upper, entry.name())?;
        let name = name.as_str();
        let quoted = format!(in rt.alloc(); "\"{name}\"")?;
        tell_empty(rt, quoted.as_str(), kind, bytes);
    }
    Ok(())
}

/// The image with the file of an entry, by its number, or with a line of art. Errors: `Told`, where the file isn't read, or is none that
/// the drive writes, as is reported; `Disk`, where the name is there already or the disk refuses the file; `DirectoryFull`; `NoMemory`.
pub fn with_one<R: Runtime + AllocGlobal>(
    rt: &R,
    way: Way<'_, '_, '_>,
    old: &[u8],
    entry: &Entry,
    number: usize,
) -> Result<Vec<u8>, Failure> {
    let moved = Moved {
        to: way.to,
        entry,
        bytes: &[],
        replaces: way.replaces,
    };
    if is_art(way.origin, entry) {
        return with_art(rt.alloc(), old, moved);
    }
    if let (Origin::Disk(disk), Some(geos)) = (way.origin, geos_of(entry)) {
        return geos_moved(rt, way.to, old, disk, entry, geos);
    }
    let kind = kind_of(rt, entry)?;
    let bytes = bytes_of(rt, way.origin, entry, number)?;
    let bytes = bytes.as_slice();
    in_memory(tell_empty_file(rt, entry, kind, bytes))?;
    with_kind(rt.alloc(), old, kind, Moved { bytes, ..moved })
}
