//! The files whose rest the lost blocks of a disk may be.
use crate::calls::name_text;
use crate::disk::Disk;
use cbm_medium::Address;
use cbm_shell::texts::Charset;
use cbm_shell::{DiskFlaw, ShellFault, Whose};
use cbm_volume::Entry;
use disk_facts::hex;
use disk_json::Named;
use std::alloc::{AllocError, Global};

/// The file of an entry by its slot and its name. The one error is want of memory.
pub fn named(
    alloc: Global,
    charset: Charset,
    slot: usize,
    entry: &Entry,
) -> Result<Named, AllocError> {
    Ok(Named {
        slot,
        name: name_text(alloc, charset, entry.name())?,
        petscii: hex(alloc, entry.name())?,
    })
}

/// The slot of the file whose chain a flaw breaks: it is followed no further.
fn slot_cut(flaw: &DiskFlaw) -> Option<usize> {
    match (flaw.whose, flaw.what.number) {
        (Whose::File(slot), 3 | 4 | 9) => Some(usize::from(slot)),
        _ => None,
    }
}

/// The files whose chains these flaws break, each once: the flaws of one file follow each other.
fn cut_files(
    alloc: Global,
    charset: Charset,
    entries: &[Entry],
    flaws: &[DiskFlaw],
) -> Result<Vec<Named>, AllocError> {
    let mut files = Vec::new(alloc);
    let mut last = None;
    for flaw in flaws {
        let slot = slot_cut(flaw);
        if let Some(number) = slot
            && slot != last
            && let Some(entry) = entries.get(number)
        {
            let file = named(alloc, charset, number, entry)?;
            files.push(file).map_err(AllocError::from)?;
            last = slot;
        }
    }
    Ok(files)
}

/// The files of a disk with these entries and flaws whose rest its lost blocks may be, since their chains are broken. The one error is
/// want of memory.
pub fn rests_of(
    alloc: Global,
    charset: Charset,
    entries: &[Entry],
    flaws: &[DiskFlaw],
    lost: &[Address],
) -> Result<Vec<Named>, AllocError> {
    if lost.is_empty() {
        return Ok(Vec::new(alloc));
    }
    cut_files(alloc, charset, entries, flaws)
}

/// Those of a disk; none if its directory can't be followed. The one error is `Memory`.
pub fn rests_on(alloc: Global, disk: &Disk, charset: Charset) -> Result<Vec<Named>, ShellFault> {
    let entries = disk.listed(alloc)?.entries;
    let lost = disk.lost(alloc)?;
    match disk.flaws(alloc) {
        Ok(flaws) => Ok(rests_of(
            alloc,
            charset,
            entries.as_slice(),
            flaws.as_slice(),
            lost.as_slice(),
        )?),
        Err(ShellFault::Memory) => Err(ShellFault::Memory),
        Err(_) => Ok(Vec::new(alloc)),
    }
}

/// Adds what lost blocks may be the rest of, and what to do first; nothing if there are no such files. The one error is want of memory.
pub fn add_rests(text: &mut String, start: &str, files: &[Named]) -> Result<(), AllocError> {
    let Some((first, others)) = files.split_first() else {
        return Ok(());
    };
    text.push_str(start)?;
    text.push_str(" may be the rest of \"")?;
    text.push_str(first.name.as_str())?;
    for file in others {
        text.push_str("\", \"")?;
        text.push_str(file.name.as_str())?;
    }
    text.push_str(if others.is_empty() {
        "\", whose chain is broken"
    } else {
        "\", whose chains are broken"
    })?;
    text.push_str(": extract the readable part first, with `get --salvage`\n")
}
