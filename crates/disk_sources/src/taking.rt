//! GET and GET-ALL: files out of a disk or an archive of any kind.
use crate::origin::{Entries, other_entries, other_file, tell_file};
use crate::other::Other;
use cbm_shell::texts::Charset;
use cbm_volume::Entry;
use disk_basics::calls::name_text;
use disk_basics::host::{read_any, require_apart, require_ours};
use disk_basics::{Failure, What, in_memory, petscii, slot_chosen};
use disk_facts::number_meant;
use disk_looks::{
    Destination, OneFile, Progress, Saves, Selection, get_all_from, get_from, is_blank_art,
    make_folder, packed, packed_as, save_as, write_taken,
};
use std::alloc::{AllocError, Global};
use std::path::Path;
use std::rt::Runtime;

/// The number of the file that is chosen.
fn number_of<R: Runtime + AllocGlobal>(
    rt: &R,
    entries: &[Entry],
    taken: &OneFile<'_>,
) -> Result<usize, Failure> {
    if !taken.choice.is_pattern() {
        return slot_chosen(rt.alloc(), entries, taken.choice);
    }
    let pattern = petscii(rt.alloc(), taken.choice.charset, taken.choice.name)?;
    match number_meant(entries, pattern.as_slice()) {
        Some(number) => Ok(number),
        None => Err(Failure::named(rt.alloc(), What::NoFile, taken.choice.name)),
    }
}

/// Takes a file out of a disk or an archive of another kind.
fn get_other<R: Runtime + AllocGlobal>(
    rt: &R,
    other: &Other<'_>,
    taken: &OneFile<'_>,
) -> Result<(), Failure> {
    let found = other_entries(rt.alloc(), other)?;
    let number = number_of(rt, found.entries.as_slice(), taken)?;
    let Some(entry) = found.entries.as_slice().get(number) else {
        return Err(Failure::named(rt.alloc(), What::NoFile, taken.choice.word()));
    };
    match other_file(rt.alloc(), other, entry, number) {
        Ok(file) => {
            let file = in_memory(packed_as(rt, entry, taken.output, file))?;
            write_taken(rt, taken, file.as_slice())
        }
        Err(fault) => {
            in_memory(tell_file(rt, entry, fault))?;
            Err(Failure::new(What::Told))
        }
    }
}

/// Refuses to make a CVT of a file of another kind of disk. The one error is `GeosElsewhere`.
fn require_no_cvt(alloc: Global, image: &str, is_cvt: bool) -> Result<(), Failure> {
    if is_cvt {
        Err(Failure::named(alloc, What::GeosElsewhere, image))
    } else {
        Ok(())
    }
}

/// Takes a file out of an image, also one of another kind. Errors: those of `read_image` and of `petscii`; `Disk`, where the disk
/// has no such file or it can't be read; `NoFile`; `Told`; `Exists`; `Write`.
pub fn get<R: Runtime + AllocGlobal>(
    rt: &R,
    image: &str,
    taken: &OneFile<'_>,
) -> Result<(), Failure> {
    require_apart(rt, image, taken.output)?;
    let bytes = read_any(rt, image)?;
    if let Some(other) = in_memory(Other::of(rt.alloc(), bytes.as_slice()))? {
        require_no_cvt(rt.alloc(), image, taken.is_cvt)?;
        return get_other(rt, &other, taken);
    }
    require_ours(rt.alloc(), image, bytes.as_slice())?;
    get_from(rt, bytes.as_slice(), taken)
}

/// Saves the file of an entry in the folder. Answers whether it was saved. The one error is want of memory.
fn save_one<R: Runtime + AllocGlobal>(
    rt: &R,
    other: &Other<'_>,
    entry: &Entry,
    number: usize,
    saves: &mut Saves,
    place: Destination<'_>,
) -> Result<bool, AllocError> {
    let alloc = rt.alloc();
    let name = saves.names.next(alloc, entry)?;
    if is_blank_art(entry) {
        return Ok(true);
    }
    let file = match other_file(alloc, other, entry, number) {
        Ok(file) => file,
        Err(fault) => {
            tell_file(rt, entry, fault)?;
            return Ok(false);
        }
    };
    let file = packed(alloc, entry, file)?;
    let path = Path::new(place.folder).join(alloc, name.as_str())?;
    let shown = name_text(alloc, Charset::Upper, entry.name())?;
    Ok(save_as(
        rt,
        path.as_path(),
        shown.as_str(),
        file.as_slice(),
        place,
        saves,
    ))
}

/// Saves the files in the folder that are selected. Errors: those of `outcome`; `NoMemory`.
fn save_all<R: Runtime + AllocGlobal>(
    rt: &R,
    other: &Other<'_>,
    found: &Entries,
    place: Destination<'_>,
    selection: &Selection,
) -> Result<(), Failure> {
    let mut saves = Saves::new(rt.alloc());
    let mut are_saved = true;
    for (number, entry) in found.entries.iter().enumerate() {
        if entry.is_empty() {
            continue;
        }
        if selection.has(entry) {
            let is_saved = in_memory(save_one(rt, other, entry, number, &mut saves, place))?;
            are_saved = are_saved && is_saved;
        } else {
            in_memory(saves.pass_over(rt.alloc(), entry, false))?;
        }
    }
    saves.outcome(are_saved)
}

/// Takes the selected files of a disk or an archive of another kind out.
fn get_all_other<R: Runtime + AllocGlobal>(
    rt: &R,
    image: &str,
    other: &Other<'_>,
    place: Destination<'_>,
    selection: &Selection,
) -> Result<(), Failure> {
    let found = other_entries(rt.alloc(), other)?;
    selection.require_files(rt.alloc(), found.entries.as_slice())?;
    make_folder(rt, place.folder)?;
    let saved = save_all(rt, other, &found, place, selection);
    let is_whole = found.end.tell(rt, image);
    if saved.is_ok() && !is_whole {
        return Err(Failure::new(What::Told));
    }
    saved
}

/// Takes the selected files out of an image, also one of another kind, into a folder. Errors: those of `read_image`; `Disk`; those of
/// `require_files`; `Write`, where the
/// folder can't be made; `Told`, where a file wasn't saved, as is reported; `NoMemory`.
pub fn get_all<R: Runtime + AllocGlobal>(
    rt: &R,
    image: &str,
    place: Destination<'_>,
    selection: &Selection,
    progress: Progress,
) -> Result<(), Failure> {
    let bytes = read_any(rt, image)?;
    if let Some(other) = in_memory(Other::of(rt.alloc(), bytes.as_slice()))? {
        require_no_cvt(rt.alloc(), image, place.is_cvt)?;
        return get_all_other(rt, image, &other, place, selection);
    }
    require_ours(rt.alloc(), image, bytes.as_slice())?;
    get_all_from(rt, image, bytes.as_slice(), place, selection, progress)
}
