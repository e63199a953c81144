//! PLACE: files laid on other blocks of their disk.
mod facts;

use self::facts::{LaidFile, laid_file, laid_line};
use crate::shown::Showing;
use cbm_medium::Address;
use cbm_shell::texts::Charset;
use cbm_volume::Entry;
use disk_basics::calls::entries;
use disk_basics::host::require_own_map;
use disk_basics::placing::{Head, Laid, add_places, lay};
use disk_basics::{Failure, What, in_memory, on_disk, petscii};
use disk_facts::{is_meant, number_meant};
use std::alloc::{AllocError, Global};

/// Which files are laid elsewhere, and where.
#[derive(Clone, Copy)]
pub struct Placement<'a, 'c> {
    /// Their patterns, in order.
    pub patterns: &'c [&'a str],
    /// The character set of these.
    pub charset: Charset,
    /// Where the first block is looked for.
    pub head: Head,
}

/// An image whose files are laid one after another.
#[derive(Drop)]
pub struct Laying {
    /// The image.
    pub image: Vec<u8>,
    /// Where the next block is looked for.
    head: Head,
    /// The character set of names.
    charset: Charset,
    /// A line for each file: where its blocks lie.
    told: Vec<u8>,
    /// The same for programs.
    files: Vec<LaidFile>,
}

impl Laying {
    /// Adds a file, whose blocks lie at these places.
    fn add(
        &mut self,
        alloc: Global,
        slot: usize,
        entry: &Entry,
        places: &[Address],
    ) -> Result<(), AllocError> {
        add_places(&mut self.told, alloc, self.charset, entry, places)?;
        let file = laid_file(alloc, self.charset, slot, entry, places)?;
        self.files.push(file).map_err(AllocError::from)
    }

    /// Where the blocks lie: a line for each file, or a line of JSON. The one error is want of memory.
    pub fn shown(
        &self,
        alloc: Global,
        image: &str,
        showing: Showing,
    ) -> Result<String, AllocError> {
        if showing.is_json {
            return laid_line(alloc, image, self.files.as_slice(), showing.is_dry);
        }
        String::from_str(
            alloc,
            std::str::from_utf8(self.told.as_slice()).unwrap_or(""),
        )
    }
}

/// Lays the file in a slot. Errors: `RecordsPlace`, `NoPlace`, `Disk`, `NoMemory`.
fn lay_one(
    alloc: Global,
    image: &str,
    laying: &mut Laying,
    slot: usize,
    entry: &Entry,
    word: &str,
) -> Result<(), Failure> {
    if entry.is_relative() {
        return Err(Failure::named(alloc, What::RecordsPlace, word));
    }
    let number = disk_basics::slot_number(alloc, slot, word)?;
    let laid = lay(alloc, laying.image.as_slice(), number, laying.head);
    let Some(
        Laid {
            image: new,
            places,
            head,
        },
    ) = on_disk(alloc, image, laid)?
    else {
        return Err(Failure::named(alloc, What::NoPlace, word));
    };
    in_memory(laying.add(alloc, slot, entry, places.as_slice()))?;
    laying.image = new;
    laying.head = head;
    Ok(())
}

/// Lays the files that a pattern means, in the order of the directory. Errors: `NoFile`, and those of one.
fn lay_meant(alloc: Global, image: &str, laying: &mut Laying, word: &str) -> Result<(), Failure> {
    let pattern = petscii(alloc, laying.charset, word)?;
    let entries = on_disk(alloc, image, entries(alloc, laying.image.as_slice()))?;
    if number_meant(entries.as_slice(), pattern.as_slice()).is_none() {
        return Err(Failure::named(alloc, What::NoFile, word));
    }
    for (slot, entry) in entries.as_slice().iter().enumerate() {
        if is_meant(entry, pattern.as_slice()) {
            lay_one(alloc, image, laying, slot, entry, word)?;
        }
    }
    Ok(())
}

/// The image with all files laid. Errors: `OtherMap`, where Dolphin DOS has its map on the disk; `Word`, if a pattern can't be typed;
/// `NoFile`; `RecordsPlace`; `NoPlace`; `Disk`; `NoMemory`.
pub fn placed(
    alloc: Global,
    image: &str,
    old: &[u8],
    placement: &Placement<'_, '_>,
) -> Result<Laying, Failure> {
    require_own_map(alloc, image, old)?;
    let mut laying = Laying {
        image: in_memory(Vec::from_slice(alloc, old))?,
        head: placement.head,
        charset: placement.charset,
        told: Vec::new(alloc),
        files: Vec::new(alloc),
    };
    for word in placement.patterns {
        lay_meant(alloc, image, &mut laying, *word)?;
    }
    Ok(laying)
}
