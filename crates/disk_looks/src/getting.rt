//! GET: a file out of the image, to a file of the host or to standard output.
use crate::cvt::cvt_of;
use crate::geos::tell_geos;
use crate::relative::packed_as;
use crate::salvage::salvaged_entries;
use crate::taking::{Source, bytes_of_entry};
use cbm_shell::{Listed, ShellFault, geos_of};
use cbm_volume::Entry;
use disk_basics::host::{require_new, write};
use disk_basics::{Choice, Disk, Failure, What, in_memory, on_disk, petscii, slot_chosen};
use disk_facts::{first_meant, is_meant, number_meant, without_errors};
use host_files::Sync;
use std::alloc::Global;
use std::rt::Runtime;

/// A file that is taken out.
#[derive(Clone, Copy)]
pub struct OneFile<'a> {
    /// Which it is.
    pub choice: Choice<'a>,
    /// Where it goes.
    pub output: &'a str,
    /// A file that is there is replaced.
    pub replaces: bool,
    /// What can be read of it is taken.
    pub salvages: bool,
    /// It is taken as CVT, as a file of GEOS.
    pub is_cvt: bool,
}

/// What a disk answered to a file that is read. Errors: `Unread`, where what can be read of it may be taken; `Disk`.
fn on_file(
    alloc: Global,
    name: &str,
    answer: Result<Vec<u8>, ShellFault>,
) -> Result<Vec<u8>, Failure> {
    match answer {
        Err(ShellFault::Trouble(trouble)) => {
            Err(Failure::named(alloc, What::Unread(trouble), name))
        }
        _ => on_disk(alloc, name, answer),
    }
}

/// Reports that a pattern means more than one file, of which the first is taken.
fn tell_first(rt: &impl Eprint, entries: &[Entry], pattern: &[u8], word: &str) {
    let mut count: usize = 0;
    for entry in entries {
        if is_meant(entry, pattern) {
            count = count.saturating_add(1);
        }
    }
    if count > 1 {
        let _ = eprintln!(rt; "disk1541: {count} files match {word}: the first is extracted");
    }
}

/// Refuses a file that GEOS keeps in records, unless what can be read is taken; what isn't taken of another file of GEOS is reported.
fn require_all(
    alloc: Global,
    rt: &impl Eprint,
    entry: &Entry,
    taken: &OneFile<'_>,
) -> Result<(), Failure> {
    let word = taken.choice.word();
    match geos_of(entry) {
        Some(geos) if geos.has_records && !taken.salvages => Err(Failure::named(
            alloc,
            What::GeosRecords,
            word,
        )),
        Some(geos) => {
            let _ = tell_geos(rt, word, geos);
            Ok(())
        }
        None => Ok(()),
    }
}

/// The file of this computer for an entry's file.
fn file_for<R: Runtime + AllocGlobal>(
    rt: &R,
    source: Source<'_>,
    entry: &Entry,
    taken: &OneFile<'_>,
) -> Result<Vec<u8>, Failure> {
    let bytes = on_file(
        rt.alloc(),
        taken.choice.word(),
        bytes_of_entry(rt, source, entry, taken.salvages),
    )?;
    in_memory(packed_as(rt, entry, taken.output, bytes))
}

/// Why no file was found: there is none, or the directory breaks off before it.
fn not_found(alloc: Global, listed: &Listed, word: &str) -> Failure {
    match listed.trouble {
        Some(trouble) => Failure::named(alloc, What::Unread(trouble), word),
        None => Failure::named(alloc, What::Disk(ShellFault::NotFound), word),
    }
}

/// The file of this computer for what can be read of the first file that a pattern means, also of one whose entry no link leads to.
fn salvaged_meant<R: Runtime + AllocGlobal>(
    rt: &R,
    source: Source<'_>,
    pattern: &[u8],
    taken: &OneFile<'_>,
) -> Result<Vec<u8>, Failure> {
    let word = taken.choice.word();
    let entries = salvaged_entries(rt, source.image, source.disk);
    let entries = on_disk(rt.alloc(), word, entries)?;
    match first_meant(entries.as_slice(), pattern) {
        Some(entry) => file_for(rt, source, entry, taken),
        None => Err(Failure::named(rt.alloc(), What::Disk(ShellFault::NotFound), word)),
    }
}

/// The file of this computer for the first file that a pattern means.
fn meant<R: Runtime + AllocGlobal>(
    rt: &R,
    source: Source<'_>,
    listed: &Listed,
    taken: &OneFile<'_>,
) -> Result<Vec<u8>, Failure> {
    let word = taken.choice.name;
    let pattern = petscii(rt.alloc(), taken.choice.charset, word)?;
    let pattern = pattern.as_slice();
    let entries = listed.entries.as_slice();
    tell_first(rt, entries, pattern, word);
    let first = first_meant(entries, pattern);
    if let Some(entry) = first {
        require_all(rt.alloc(), rt, entry, taken)?;
    }
    if taken.salvages {
        return salvaged_meant(rt, source, pattern, taken);
    }
    match first {
        Some(entry) => file_for(rt, source, entry, taken),
        None => Err(not_found(rt.alloc(), listed, word)),
    }
}

/// The file of this computer for the file that is chosen by its slot or its exact name.
fn chosen<R: Runtime + AllocGlobal>(
    rt: &R,
    source: Source<'_>,
    listed: &Listed,
    taken: &OneFile<'_>,
) -> Result<Vec<u8>, Failure> {
    let entries = listed.entries.as_slice();
    let slot = slot_chosen(rt.alloc(), entries, taken.choice)?;
    let Some(entry) = entries.get(slot) else {
        return Err(Failure::named(rt.alloc(), What::NoFile, taken.choice.word()));
    };
    require_all(rt.alloc(), rt, entry, taken)?;
    file_for(rt, source, entry, taken)
}

/// The slot of the file that is meant, by its slot, its exact name or a pattern.
fn slot_meant(alloc: Global, entries: &[Entry], choice: Choice<'_>) -> Result<usize, Failure> {
    if !choice.is_pattern() {
        return slot_chosen(alloc, entries, choice);
    }
    let pattern = petscii(alloc, choice.charset, choice.name)?;
    match number_meant(entries, pattern.as_slice()) {
        Some(slot) => Ok(slot),
        None => Err(Failure::named(alloc, What::NoFile, choice.name)),
    }
}

/// The file of GEOS that is meant, as CVT.
fn cvt_meant(
    alloc: Global,
    disk: &Disk,
    listed: &Listed,
    taken: &OneFile<'_>,
) -> Result<Vec<u8>, Failure> {
    let word = taken.choice.word();
    let slot = slot_meant(alloc, listed.entries.as_slice(), taken.choice)?;
    let Some(entry) = listed.entries.as_slice().get(slot) else {
        return Err(Failure::named(alloc, What::NoFile, word));
    };
    match geos_of(entry) {
        Some(geos) => on_disk(alloc, word, cvt_of(alloc, disk, entry, geos)),
        None => Err(Failure::named(alloc, What::NotGeos, word)),
    }
}

/// The file of this computer for the file that is meant. The image is opened once: to decode a G64 takes longer than all else.
fn file_of<R: Runtime + AllocGlobal>(
    rt: &R,
    image: &[u8],
    taken: &OneFile<'_>,
) -> Result<Vec<u8>, Failure> {
    let word = taken.choice.word();
    let plain = if taken.salvages {
        without_errors(image)
    } else {
        image
    };
    let disk = on_disk(rt.alloc(), word, Disk::open(rt.alloc(), plain))?;
    let listed = in_memory(disk.listed(rt.alloc()))?;
    let source = Source { disk: &disk, image };
    if taken.is_cvt {
        return cvt_meant(rt.alloc(), &disk, &listed, taken);
    }
    if taken.choice.is_pattern() {
        meant(rt, source, &listed, taken)
    } else {
        chosen(rt, source, &listed, taken)
    }
}

/// Writes a file that was taken out. One of the host that is there is kept, unless it is to be replaced. Errors: `Exists`, `Write`.
pub fn write_taken<R: Runtime + AllocGlobal>(
    rt: &R,
    taken: &OneFile<'_>,
    file: &[u8],
) -> Result<(), Failure> {
    require_new(rt, taken.output, taken.replaces)?;
    write(rt, taken.output, file, Sync::Later)
}

/// Takes a file out of the bytes of an image. Errors: those of `petscii`; `Disk`, where the disk has no such file or it can't be
/// read; `Exists`; `Write`.
pub fn get_from<R: Runtime + AllocGlobal>(
    rt: &R,
    image: &[u8],
    taken: &OneFile<'_>,
) -> Result<(), Failure> {
    let file = file_of(rt, image, taken)?;
    write_taken(rt, taken, file.as_slice())
}
