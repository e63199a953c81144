//! Changes of an image by patterns, and of its title.
mod locking;

use self::locking::{identified, locked_all, retitled};
use cbm_shell::texts::Charset;
use cbm_shell::{DiskChange, ShellFault, geos_of};
use cbm_volume::Entry;
use disk_basics::calls::{entries, name_text};
use disk_basics::changing::{change, delete_in_slot};
use disk_basics::host::{joined, require_own_map};
use disk_basics::odd::{odd_slots, put_away};
use disk_basics::{Failure, What, in_memory, on_disk, petscii};
use disk_facts::is_meant;
use std::alloc::{AllocError, Global};

/// What is done with the disk of an image.
#[derive(Clone, Copy)]
pub enum Edit<'a, 'c> {
    /// A change by the drive's own commands.
    Change(DiskChange<'c>),
    /// The files that match the patterns are deleted.
    Delete(&'c [&'a str], Charset),
    /// The files that match the patterns are locked, or freed.
    Lock(&'c [&'a str], Charset, bool),
    /// The disk gets another title, and another id, where one is said.
    Title(&'a str, Option<&'a str>, Charset),
}

/// The drive's command that deletes the files of a pattern, with its return, as a name may end with one.
fn text_of(alloc: Global, charset: Charset, pattern: &str) -> Result<Vec<u8>, Failure> {
    let codes = petscii(alloc, charset, pattern)?;
    joined(alloc, &[b"S0:", codes.as_slice(), b"\r"])
}

/// The slot of the odd entry of exactly this name, on a disk that is sound but for such entries. The one error is `Memory`.
fn odd_slot(alloc: Global, bytes: &[u8], name: &[u8]) -> Result<Option<u8>, ShellFault> {
    match put_away(alloc, bytes) {
        Ok(away) => Ok(away.slot_named(name)),
        Err(ShellFault::Memory) => Err(ShellFault::Memory),
        Err(_) => Ok(None),
    }
}

/// The image without the odd entry of exactly this name. The drive's SCRATCH passes odd entries over. Errors: `NoneDeleted`; `Disk`.
fn deleted_odd(
    alloc: Global,
    image: &str,
    bytes: &[u8],
    charset: Charset,
    word: &str,
) -> Result<Vec<u8>, Failure> {
    let name = petscii(alloc, charset, word)?;
    match on_disk(alloc, image, odd_slot(alloc, bytes, name.as_slice()))? {
        Some(slot) => on_disk(alloc, image, delete_in_slot(alloc, bytes, slot)),
        None => Err(Failure::named(alloc, What::NoneDeleted, word)),
    }
}

/// The image without the files that match. Where none does, or those are locked, the drive changes nothing; that is
/// reported, and the image isn't saved anew.
fn deleted(
    alloc: Global,
    image: &str,
    bytes: &[u8],
    charset: Charset,
    pattern: &str,
) -> Result<Vec<u8>, Failure> {
    let text = text_of(alloc, charset, pattern)?;
    let command = DiskChange::Command(text.as_slice());
    let changed = on_disk(alloc, image, change(alloc, bytes, &command))?;
    if changed.as_slice() == bytes {
        return deleted_odd(alloc, image, bytes, charset, pattern);
    }
    Ok(changed)
}

/// The image without the files that match one of the patterns.
fn deleted_all(
    alloc: Global,
    image: &str,
    bytes: &[u8],
    charset: Charset,
    patterns: &[&str],
) -> Result<Vec<u8>, Failure> {
    let mut new = in_memory(Vec::from_slice(alloc, bytes))?;
    for pattern in patterns {
        new = deleted(alloc, image, new.as_slice(), charset, *pattern)?;
    }
    Ok(new)
}

/// The image with another title, and another id, where one is said.
fn named(
    alloc: Global,
    image: &str,
    bytes: &[u8],
    charset: Charset,
    title: &str,
    id: Option<&str>,
) -> Result<Vec<u8>, Failure> {
    let new = retitled(alloc, image, bytes, charset, title)?;
    match id {
        Some(id) => identified(alloc, image, new.as_slice(), charset, id),
        None => Ok(new),
    }
}

/// The image after an edit. Errors: `OtherMap`, where files are deleted and Dolphin DOS has its map on the disk; `Word`, where a word
/// can't be typed or is too long; `NoneDeleted` or `NoMatch`, where a pattern means no file; `Disk`, where the drive or the disk
/// refuses it; `NoMemory`.
pub fn edited(
    alloc: Global,
    image: &str,
    bytes: &[u8],
    edit: &Edit<'_, '_>,
) -> Result<Vec<u8>, Failure> {
    match edit {
        Edit::Change(made) => on_disk(alloc, image, change(alloc, bytes, made)),
        Edit::Delete(patterns, charset) => {
            require_own_map(alloc, image, bytes)?;
            deleted_all(alloc, image, bytes, *charset, *patterns)
        }
        Edit::Lock(patterns, charset, is_locked) => {
            locked_all(alloc, image, bytes, *charset, *patterns, *is_locked)
        }
        Edit::Title(title, id, charset) => named(alloc, image, bytes, *charset, *title, *id),
    }
}

/// Adds that the blocks of a file that was never closed may stay in use.
fn add_unclosed(alloc: Global, text: &mut String, entry: &Entry) -> Result<(), AllocError> {
    let shown = name_text(alloc, Charset::Upper, entry.name())?;
    let name = shown.as_str();
    text.push_str(format!(in alloc;
        "disk1541: \"{name}\" was deleted; it was never closed, so its blocks may be lost until `validate`\n"
    )?.as_str())
}

/// Adds what GEOS kept of files that were deleted, and stays taken on the disk, and files that were never closed.
fn add_left(alloc: Global, text: &mut String, old: &[u8], new: &[u8]) -> Result<(), ShellFault> {
    let before = entries(alloc, old)?;
    let after = entries(alloc, new)?;
    for (slot, entry) in before.iter().enumerate() {
        let is_gone = after.as_slice().get(slot).is_none_or(Entry::is_empty);
        if is_gone && !entry.is_empty() && !entry.is_closed() {
            add_unclosed(alloc, text, entry)?;
        }
        if is_gone && geos_of(entry).is_some() {
            let shown = name_text(alloc, Charset::Upper, entry.name())?;
            let name = shown.as_str();
            text.push_str(format!(in alloc;
                "disk1541: \"{name}\" was deleted; the blocks of its info and records stay in use until `validate`\n"
            )?.as_str())?;
        }
    }
    Ok(())
}

/// Whether one of the words means an entry.
fn is_meant_by(alloc: Global, entry: &Entry, charset: Charset, words: &[&str]) -> bool {
    for word in words {
        if let Ok(pattern) = petscii(alloc, charset, *word) {
            if is_meant(entry, pattern.as_slice()) {
                return true;
            }
        }
    }
    false
}

/// Adds the odd entries that the words mean: they stay as they are.
fn add_odd(
    alloc: Global,
    text: &mut String,
    new: &[u8],
    charset: Charset,
    words: &[&str],
) -> Result<(), ShellFault> {
    let entries = entries(alloc, new)?;
    for slot in odd_slots(alloc, new)?.as_slice() {
        let Some(entry) = entries.as_slice().get(*slot) else {
            return Ok(());
        };
        if is_meant_by(alloc, entry, charset, words) {
            let shown = name_text(alloc, charset, entry.name())?;
            let name = shown.as_str();
            text.push_str(format!(in alloc;
                "disk1541: \"{name}\" is an odd entry, and was not changed\n"
            )?.as_str())?;
        }
    }
    Ok(())
}

/// What an edit leaves on the disk that its words mean, in lines; if memory runs out, as far as it sufficed.
pub fn rest_of(alloc: Global, old: &[u8], new: &[u8], edit: &Edit<'_, '_>) -> String {
    let mut text = String::new(alloc);
    match edit {
        Edit::Delete(patterns, charset) => {
            let _ = add_left(alloc, &mut text, old, new);
            let _ = add_odd(alloc, &mut text, new, *charset, *patterns);
        }
        Edit::Lock(patterns, charset, _) => {
            let _ = add_odd(alloc, &mut text, new, *charset, *patterns);
        }
        Edit::Change(_) | Edit::Title(..) => {}
    }
    text
}
