//! A file of GEOS onto an image, with its info block and its records: by way of its CVT.
use super::tell_other;
use crate::origin::{FileFault, tell_file};
use cbm_shell::{Geos, geos_of};
use cbm_volume::Entry;
use disk_basics::{Disk, Failure, What, in_memory, on_disk, slot_named};
use disk_changes::with_geos;
use disk_looks::cvt_of;
use std::alloc::Global;
use std::rt::Runtime;

/// Where a CVT has how many blocks its file takes, which counts the info block on a disk that it is put on.
const COUNT: usize = 28;

/// Whether two CVTs are those of one file, but for how many blocks it takes.
fn are_alike(one: &[u8], other: &[u8]) -> bool {
    let after = COUNT + 2;
    one.get(..COUNT) == other.get(..COUNT) && one.get(after..) == other.get(after..)
}

/// The CVT of the file of a name on an image; None where it isn't one of GEOS. Errors: `Disk`, `NoMemory`.
fn cvt_there(
    alloc: Global,
    to: &str,
    image: &[u8],
    name: &[u8],
) -> Result<Option<Vec<u8>>, Failure> {
    let disk = on_disk(alloc, to, Disk::open(alloc, image))?;
    let entries = on_disk(alloc, to, disk.entries(alloc))?;
    let Some(slot) = slot_named(entries.as_slice(), name) else {
        return Ok(None);
    };
    let Some(entry) = entries.as_slice().get(slot) else {
        return Ok(None);
    };
    match geos_of(entry) {
        Some(geos) => Ok(Some(on_disk(alloc, to, cvt_of(alloc, &disk, entry, geos))?)),
        None => Ok(None),
    }
}

/// Refuses an image whose file of GEOS isn't the one that was to come: a record of more than 255 blocks has no place in a CVT.
fn require_alike<R: Runtime + AllocGlobal>(
    rt: &R,
    to: &str,
    image: &[u8],
    entry: &Entry,
    cvt: &[u8],
) -> Result<(), Failure> {
    match cvt_there(rt.alloc(), to, image, entry.name())? {
        Some(there) if are_alike(there.as_slice(), cvt) => Ok(()),
        _ => tell_other(rt, entry, "is a GEOS file that has no CVT form"),
    }
}

/// The image with the file of GEOS of a disk's entry. Errors: `Told`, where it can't be read, or the image has a file of its name, as is
/// reported; `Disk`, where the disk refuses it; `DirectoryFull`; `NoMemory`.
pub fn geos_moved<R: Runtime + AllocGlobal>(
    rt: &R,
    to: &str,
    old: &[u8],
    disk: &Disk,
    entry: &Entry,
    geos: Geos,
) -> Result<Vec<u8>, Failure> {
    let cvt = match cvt_of(rt.alloc(), disk, entry, geos) {
        Ok(cvt) => cvt,
        Err(fault) => {
            in_memory(tell_file(rt, entry, FileFault::Disk(fault)))?;
            return Err(Failure::new(What::Told));
        }
    };
    match with_geos(rt.alloc(), to, old, to, cvt.as_slice()) {
        Ok(new) => {
            require_alike(rt, to, new.as_slice(), entry, cvt.as_slice())?;
            Ok(new)
        }
        Err(failure) if matches!(failure.what, What::GeosThere) => {
            tell_other(
                rt,
                entry,
                "is a GEOS file, and a file of that name already exists: `delete` it and `validate`",
            )
        }
        Err(failure) => Err(failure),
    }
}
