//! GET-ALL: all files out of the image, to a folder of the host.
use crate::progress::Progress;
use crate::salvage::salvaged_entries;
use crate::selection::Selection;
use crate::taking::{Destination, Saves, Source, take};
use cbm_volume::Entry;
use disk_basics::host::path_of;
use disk_basics::strays::unlisted_on;
use disk_basics::{Disk, Failure, What, in_memory, on_disk};
use disk_facts::without_errors;
use std::fs;
use std::path::Path;
use std::rt::Runtime;

/// Makes the folder, if it isn't there. The one error is `Write`.
pub fn make_folder<R: Runtime + AllocGlobal>(rt: &R, folder: &str) -> Result<(), Failure> {
    let path = path_of(rt.alloc(), folder)?;
    match fs::create_dir(rt, path.as_str()) {
        Ok(()) => Ok(()),
        Err(_) if Path::new(path.as_str()).is_dir(rt) => Ok(()),
        Err(error) => Err(Failure::named(rt.alloc(), What::Write(error.kind()), folder)),
    }
}

/// Takes the files of entries out that are selected. Errors: those of `outcome`; `NoMemory`.
fn take_all<R: Runtime + AllocGlobal>(
    rt: &R,
    source: Source<'_>,
    entries: &[Entry],
    place: Destination<'_>,
    selection: &Selection,
    progress: Progress,
) -> Result<(), Failure> {
    let mut saves = Saves::new(rt.alloc());
    let mut are_saved = true;
    let mut done: usize = 0;
    let count = selection.count(entries);
    for entry in entries {
        if entry.is_empty() {
            continue;
        }
        if !selection.has(entry) {
            in_memory(saves.pass_over(rt.alloc(), entry, place.is_cvt))?;
            continue;
        }
        let is_saved = in_memory(take(rt, source, entry, &mut saves, place))?;
        are_saved = are_saved && is_saved;
        done = done.saturating_add(1);
        progress.tell(rt, done, count);
    }
    progress.clear(rt);
    saves.outcome(are_saved)
}

/// Takes the files of a disk out.
fn take_disk<R: Runtime + AllocGlobal>(
    rt: &R,
    source: Source<'_>,
    entries: &[Entry],
    place: Destination<'_>,
    selection: &Selection,
    progress: Progress,
) -> Result<(), Failure> {
    selection.require_files(rt.alloc(), entries)?;
    make_folder(rt, place.folder)?;
    take_all(rt, source, entries, place, selection, progress)
}

/// The bytes of which the disk is: without error bytes where what can be read is taken.
fn opened_bytes<'b>(bytes: &'b [u8], place: Destination<'_>) -> &'b [u8] {
    if place.salvages {
        without_errors(bytes)
    } else {
        bytes
    }
}

/// What taking a disk's files out came to, where it has more than its directory lists, which is reported.
fn require_whole<R: Runtime + AllocGlobal>(
    rt: &R,
    image: &str,
    rest: Option<What>,
    taken: Result<(), Failure>,
) -> Result<(), Failure> {
    let Some(what) = rest else {
        return taken;
    };
    let failure = Failure::named(rt.alloc(), what, image);
    if taken.is_ok() {
        return Err(failure);
    }
    let _ = failure.tell(rt);
    taken
}

/// Takes the files of an image's bytes out that are selected, into a folder. Errors: `Disk`; those of `require_files`; `Write`, where the folder can't be made; those of `outcome`, where a
/// file wasn't saved, as is reported; `Broken` or `Unlinked`, where there are more files than the directory lists; `NoMemory`.
pub fn get_all_from<R: Runtime + AllocGlobal>(
    rt: &R,
    image: &str,
    bytes: &[u8],
    place: Destination<'_>,
    selection: &Selection,
    progress: Progress,
) -> Result<(), Failure> {
    let disk = on_disk(
        rt.alloc(),
        image,
        Disk::open(rt.alloc(), opened_bytes(bytes, place)),
    )?;
    let source = Source {
        disk: &disk,
        image: bytes,
    };
    if place.salvages {
        let entries = on_disk(rt.alloc(), image, salvaged_entries(rt, bytes, &disk))?;
        return take_disk(rt, source, entries.as_slice(), place, selection, progress);
    }
    let listed = in_memory(disk.listed(rt.alloc()))?;
    let rest = in_memory(unlisted_on(rt.alloc(), &disk, &listed))?;
    let taken = take_disk(
        rt,
        source,
        listed.entries.as_slice(),
        place,
        selection,
        progress,
    );
    require_whole(rt, image, rest, taken)
}
