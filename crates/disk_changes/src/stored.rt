//! A file's bytes on a disk, as a file of its kind.
use cbm_channel::Code;
use cbm_shell::{DiskChange, Records, ShellFault};
use disk_basics::calls::entries;
use disk_basics::changing::{change, delete_in_slot, put_records};
use disk_basics::host::joined;
use disk_basics::spare::{has_name, taken};
use disk_basics::{Failure, FileKind, What, WordFault, in_memory, on_disk, on_room, slot_named};
use std::alloc::{AllocError, Global};

/// A file that is put on a disk.
#[derive(Clone, Copy)]
pub struct Stored<'b> {
    /// Its name.
    pub name: &'b [u8],
    /// Its kind.
    pub kind: FileKind,
    /// The length of its records, if that is known.
    pub record: Option<u8>,
    /// A file of the disk that has the name is replaced.
    pub replaces: bool,
    /// Its bytes.
    pub bytes: &'b [u8],
}

/// The text of the OPEN that writes a file of bytes. The one error is `NoMemory`.
pub fn open_text(
    alloc: Global,
    name: &[u8],
    replaces: bool,
    end: &[u8],
) -> Result<Vec<u8>, Failure> {
    let start: &[u8] = if replaces { b"@0:" } else { b"0:" };
    joined(alloc, &[start, name, end])
}

/// What a disk answered to so many files that are put, with the reason where the drive's status says less. Errors: `LockedThere`,
/// where a file that is to be replaced is locked; `DirectoryFull`; `Disk`.
pub fn put_answer(
    alloc: Global,
    image: &str,
    old: &[u8],
    files: usize,
    replaces: bool,
    answer: Result<Vec<u8>, ShellFault>,
) -> Result<Vec<u8>, Failure> {
    match answer {
        Err(ShellFault::Refused(status)) if replaces && status.code == Code::FileExists => {
            Err(Failure::named(alloc, What::LockedThere, image))
        }
        _ => on_room(alloc, image, old, files, answer),
    }
}

/// The image with a file of bytes one after another.
fn plain(
    alloc: Global,
    image: &str,
    old: &[u8],
    file: &Stored<'_>,
    end: &[u8],
) -> Result<Vec<u8>, Failure> {
    let text = open_text(alloc, file.name, file.replaces, end)?;
    let put = DiskChange::File(text.as_slice(), file.bytes);
    let answer = answered(alloc, old, file, end, change(alloc, old, &put));
    put_answer(alloc, image, old, 1, file.replaces, answer)
}

/// Whether a disk has no room for the new file.
pub fn is_full(fault: ShellFault) -> bool {
    match fault {
        ShellFault::Refused(status) => status.code == Code::DiskFull,
        _ => false,
    }
}

/// The disk's answer to a new file; if it is full, to one that replaces another.
fn answered(
    alloc: Global,
    old: &[u8],
    file: &Stored<'_>,
    end: &[u8],
    answer: Result<Vec<u8>, ShellFault>,
) -> Result<Vec<u8>, ShellFault> {
    match answer {
        Err(fault) if file.replaces && is_full(fault) => instead(alloc, old, file, end, fault),
        answer => answer,
    }
}

/// What the disk answers where the file that is to be replaced goes first, so that its blocks are free for the new one; the drive keeps both
/// for a while. That it is full, where that can't be done.
fn instead(
    alloc: Global,
    old: &[u8],
    file: &Stored<'_>,
    end: &[u8],
    full: ShellFault,
) -> Result<Vec<u8>, ShellFault> {
    match put_after(alloc, old, file, end) {
        Ok(Some(new)) => Ok(new),
        Err(ShellFault::Memory) => Err(ShellFault::Memory),
        _ => Err(full),
    }
}

/// The image without the first file of this name; None where there is none.
fn freed_of(alloc: Global, old: &[u8], name: &[u8]) -> Result<Option<Vec<u8>>, ShellFault> {
    let entries = entries(alloc, old)?;
    let Some(slot) = slot_named(entries.as_slice(), name) else {
        return Ok(None);
    };
    match u8::try_from(slot) {
        Ok(slot) => Ok(Some(delete_in_slot(alloc, old, slot)?)),
        Err(_) => Ok(None),
    }
}

/// The image with a file in place of the one of its name, which goes first.
fn put_after(
    alloc: Global,
    old: &[u8],
    file: &Stored<'_>,
    end: &[u8],
) -> Result<Option<Vec<u8>>, ShellFault> {
    let Some(freed) = freed_of(alloc, old, file.name)? else {
        return Ok(None);
    };
    let Ok(text) = open_text(alloc, file.name, false, end) else {
        return Err(ShellFault::Memory);
    };
    let put = DiskChange::File(text.as_slice(), file.bytes);
    Ok(Some(change(alloc, freed.as_slice(), &put)?))
}

/// The bytes cut into records; the last one may be shorter.
fn records_of(alloc: Global, bytes: &[u8], length: u8) -> Result<Vec<&[u8]>, AllocError> {
    let mut records = Vec::new(alloc);
    let mut rest = bytes;
    for _ in 0..bytes.len() {
        if rest.is_empty() {
            break;
        }
        let (record, afterwards) = rest.split_at(usize::from(length).min(rest.len()));
        records.push(record)?;
        rest = afterwards;
    }
    Ok(records)
}

/// The image without the files of that name that aren't locked.
fn without(alloc: Global, image: &str, old: &[u8], name: &[u8]) -> Result<Vec<u8>, Failure> {
    let text = joined(alloc, &[b"S0:", name, b"\r"])?;
    let command = DiskChange::Command(text.as_slice());
    on_disk(alloc, image, change(alloc, old, &command))
}

/// Refuses a name that a file has: the drive's OPEN would take a relative file of it, and write over its records.
fn require_free(alloc: Global, image: &str, old: &[u8], name: &[u8]) -> Result<(), Failure> {
    let entries = on_disk(alloc, image, entries(alloc, old))?;
    if has_name(entries.as_slice(), name) {
        return Err(taken(alloc, image));
    }
    Ok(())
}

/// The image with a relative file, where no other one has the name.
fn with_records(
    alloc: Global,
    image: &str,
    old: &[u8],
    file: &Stored<'_>,
    length: u8,
) -> Result<Vec<u8>, Failure> {
    require_free(alloc, image, old, file.name)?;
    let text = joined(alloc, &[b"0:", file.name, b",L,", &[length]])?;
    let records = in_memory(records_of(alloc, file.bytes, length))?;
    let made = Records {
        text: text.as_slice(),
        records: records.as_slice(),
    };
    on_disk(alloc, image, put_records(alloc, old, made))
}

/// The image with a relative file.
fn relative(alloc: Global, image: &str, old: &[u8], file: &Stored<'_>) -> Result<Vec<u8>, Failure> {
    let Some(length @ 1..=254) = file.record else {
        return Err(Failure::new(What::Word(WordFault::Record)));
    };
    if !file.replaces {
        return with_records(alloc, image, old, file, length);
    }
    let freed = without(alloc, image, old, file.name)?;
    with_records(alloc, image, freed.as_slice(), file, length)
}

/// The image with the file on it. Errors: `Disk`, where the drive or the disk refuses it; `Word`, where the length of
/// records isn't known; `NoMemory`.
pub fn with_stored(
    alloc: Global,
    image: &str,
    old: &[u8],
    file: &Stored<'_>,
) -> Result<Vec<u8>, Failure> {
    match file.kind {
        FileKind::Plain(end) => plain(alloc, image, old, file, end),
        FileKind::Relative => relative(alloc, image, old, file),
    }
}
