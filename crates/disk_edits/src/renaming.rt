//! COPY and RENAME: a new name, and the old one.
use cbm_shell::texts::Charset;
use cbm_shell::{DiskChange, geos_of};
use disk_basics::calls::entries;
use disk_basics::changing::change;
use disk_basics::host::{joined, require_own_map};
use disk_basics::{Failure, What, WordFault, file_name, on_disk, on_new_name};
use disk_facts::first_meant;
use std::alloc::Global;

/// Two names of a file.
#[derive(Clone, Copy)]
pub struct Pair<'a> {
    /// The old one.
    pub old: &'a str,
    /// The new one.
    pub new: &'a str,
    /// Their character set.
    pub charset: Charset,
}

/// A name that the drive's commands can express. Errors: those of `file_name`; `Word`, where --exact is the way.
fn plain_name(alloc: Global, charset: Charset, name: &str) -> Result<Vec<u8>, Failure> {
    match file_name(alloc, charset, name) {
        Err(failure) if matches!(failure.what, What::Word(WordFault::Divided)) => Err(
            Failure::named(alloc, What::Word(WordFault::Inexact), name),
        ),
        named => named,
    }
}

/// The drive's command with a letter, a new name and an old one, with its return, as a name may end with one.
fn text_of(alloc: Global, letter: &[u8], pair: &Pair<'_>) -> Result<Vec<u8>, Failure> {
    let old = plain_name(alloc, pair.charset, pair.old)?;
    let new = plain_name(alloc, pair.charset, pair.new)?;
    joined(
        alloc,
        &[letter, new.as_slice(), b"=", old.as_slice(), b"\r"],
    )
}

/// Refuses to copy a file of GEOS or a relative file: the drive's COPY takes bytes one after another.
fn require_plain(alloc: Global, image: &str, bytes: &[u8], pair: &Pair<'_>) -> Result<(), Failure> {
    let old = file_name(alloc, pair.charset, pair.old)?;
    let entries = on_disk(alloc, image, entries(alloc, bytes))?;
    match first_meant(entries.as_slice(), old.as_slice()) {
        Some(entry) if geos_of(entry).is_some() => Err(Failure::named(
            alloc,
            What::GeosCopy,
            pair.old,
        )),
        Some(entry) if entry.is_relative() => Err(Failure::named(alloc, What::Records, pair.old)),
        _ => Ok(()),
    }
}

/// The image with a copy of a file under another name. Errors: those of `file_name`; `OtherMap`, where Dolphin DOS has its map on the
/// disk; `Records`, where it is a relative file, and `GeosCopy`; `Disk`, where the drive or the disk refuses it.
pub fn copied(
    alloc: Global,
    image: &str,
    bytes: &[u8],
    pair: &Pair<'_>,
) -> Result<Vec<u8>, Failure> {
    let text = text_of(alloc, b"C0:", pair)?;
    require_own_map(alloc, image, bytes)?;
    require_plain(alloc, image, bytes, pair)?;
    let command = DiskChange::Command(text.as_slice());
    on_new_name(alloc, image, bytes, change(alloc, bytes, &command))
}

/// The image whose file has another name. Errors: those of `file_name`; `Disk`, where the drive or the disk refuses it.
pub fn renamed(
    alloc: Global,
    image: &str,
    bytes: &[u8],
    pair: &Pair<'_>,
) -> Result<Vec<u8>, Failure> {
    let text = text_of(alloc, b"R0:", pair)?;
    let command = DiskChange::Command(text.as_slice());
    on_new_name(alloc, image, bytes, change(alloc, bytes, &command))
}

/// Refuses two names of which one can't be said. Errors: those of `file_name`.
pub fn require_names(alloc: Global, pair: &Pair<'_>) -> Result<(), Failure> {
    text_of(alloc, b"R0:", pair)?;
    Ok(())
}
