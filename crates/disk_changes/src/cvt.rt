//! A CVT put on a disk as the file of GEOS that it is: the entry, the info block, and the blocks of the file.
use crate::stored::{Stored, with_stored};
use cbm_medium::Address;
use cbm_shell::geos_of;
use cbm_shell::parts::entry_of;
use cbm_volume::Entry;
use disk_basics::calls::entries;
use disk_basics::changing::carve;
use disk_basics::spare::has_name;
use disk_basics::{
    Disk, Failure, FileKind, What, in_memory, kind_of_entry, on_disk, slot_named, slot_number,
};
use std::alloc::{AllocError, Global};

/// The bytes of a block without its link.
const BLOCK: usize = 254;

/// Where a CVT says what it is.
const MARK_AT: usize = 30;

/// What it says.
const MARK: &[u8; 28] = b"PRG formatted GEOS file V1.0";

/// The name under which a file is put before it is GEOS's.
const FOR_NOW: &[u8] = b"\x01\x02\x03";

/// The link of a block that is the last, with all its bytes.
const WHOLE: (u8, u8) = (0, 255);

/// A CVT, cut into its parts.
#[derive(Drop)]
pub struct Cvt<'b> {
    entry: Entry,
    info: &'b [u8],
    // Of each record how many blocks it has, and where the last one ends; none of a sequence.
    table: Option<&'b [u8]>,
    bytes: &'b [u8],
}

/// Whether a file is named as a CVT.
pub fn is_cvt_name(file: &str) -> bool {
    match file.rsplit_once('.') {
        Some((_, end)) => end.eq_ignore_ascii_case("cvt"),
        None => false,
    }
}

/// A block of a CVT.
fn block(bytes: &[u8], number: usize) -> &[u8] {
    let begin = number.saturating_mul(BLOCK);
    let end = begin.saturating_add(BLOCK).min(bytes.len());
    bytes.get(begin..end).unwrap_or(&[])
}

/// The entry that stands in a CVT.
fn entry_in(bytes: &[u8]) -> Option<Entry> {
    if bytes.get(MARK_AT..MARK_AT + MARK.len())? != MARK.as_slice() {
        return None;
    }
    let mut entry = [0; 30];
    entry.copy_from_slice(bytes.get(..30)?);
    let entry = entry_of(&entry);
    geos_of(&entry)?;
    Some(entry)
}

/// The parts of a file that is named as a CVT and is one; None of any other.
pub fn cvt_of<'b>(file: &str, bytes: &'b [u8]) -> Option<Cvt<'b>> {
    if is_cvt_name(file) {
        parts_of(bytes)
    } else {
        None
    }
}

/// The parts of a CVT; None of any other bytes.
fn parts_of<'b>(bytes: &'b [u8]) -> Option<Cvt<'b>> {
    let entry = entry_in(bytes)?;
    let has_records = geos_of(&entry)?.has_records;
    let begin = if has_records { 3 * BLOCK } else { 2 * BLOCK };
    Some(Cvt {
        entry,
        info: block(bytes, 1),
        table: if has_records {
            Some(block(bytes, 2))
        } else {
            None
        },
        bytes: bytes.get(begin..).unwrap_or(&[]),
    })
}

/// How many blocks a record has, and how many bytes; None of one that isn't there.
fn record_of(pair: &[u8]) -> Option<(usize, usize)> {
    let [count, last] = pair else {
        return None;
    };
    let blocks = usize::from(*count);
    let whole = blocks.checked_sub(1)?.saturating_mul(BLOCK);
    Some((
        blocks,
        whole.saturating_add(usize::from(*last).checked_sub(1)?),
    ))
}

/// How many blocks its file has.
fn count_of(cvt: &Cvt<'_>) -> usize {
    let Some(table) = cvt.table else {
        return cvt.bytes.len().div_ceil(BLOCK).max(1).saturating_add(1);
    };
    let mut count: usize = 2;
    for pair in table.chunks(2) {
        if let Some((blocks, _)) = record_of(pair) {
            count = count.saturating_add(blocks);
        }
    }
    count
}

/// The blocks of a file, as they are made one after another for the places where they will lie.
#[derive(Drop)]
struct Sheet<'p> {
    places: &'p [Address],
    blocks: Vec<[u8; 256]>,
}

impl<'p> Sheet<'p> {
    /// Where the block of a number will lie; 0/0 behind the last.
    fn place(&self, number: usize) -> (u8, u8) {
        match self.places.get(number) {
            Some(at) => (at.track(), at.sector()),
            None => (0, 0),
        }
    }

    /// Adds a block. The one error is want of memory.
    fn push(&mut self, link: (u8, u8), bytes: &[u8]) -> Result<(), AllocError> {
        let mut block = [0; 256];
        block[0] = link.0;
        block[1] = link.1;
        for (place, byte) in bytes.iter().take(BLOCK).enumerate() {
            if let Some(room) = block.get_mut(place.saturating_add(2)) {
                *room = *byte;
            }
        }
        self.blocks.push(block).map_err(AllocError::from)
    }

    /// Adds the blocks of a chain.
    fn push_chain(&mut self, bytes: &[u8]) -> Result<(), AllocError> {
        let count = bytes.len().div_ceil(BLOCK);
        for (number, part) in bytes.chunks(BLOCK).enumerate() {
            let link = if number.saturating_add(1) < count {
                self.place(self.blocks.len().saturating_add(1))
            } else {
                (
                    0,
                    u8::try_from(part.len().saturating_add(1)).unwrap_or(u8::MAX),
                )
            };
            self.push(link, part)?;
        }
        Ok(())
    }

    /// The list of the places at which records begin, from a block on.
    fn list(&self, alloc: Global, table: &[u8], from: usize) -> Result<Vec<u8>, AllocError> {
        let mut list = Vec::new(alloc);
        let mut next = from;
        for pair in table.chunks(2) {
            let first = match (record_of(pair), pair) {
                (Some((blocks, _)), _) => {
                    let first = self.place(next);
                    next = next.saturating_add(blocks);
                    first
                }
                (None, [_, last]) => (0, *last),
                (None, _) => (0, 0),
            };
            list.extend_from_slice(&[first.0, first.1])?;
        }
        Ok(list)
    }

    /// Adds the list of records, and the records. Answers false where the file ends before them.
    fn push_records(
        &mut self,
        alloc: Global,
        table: &[u8],
        bytes: &[u8],
    ) -> Result<bool, AllocError> {
        let begin = self.blocks.len();
        let list = self.list(alloc, table, begin.saturating_add(1))?;
        self.push(WHOLE, list.as_slice())?;
        let mut rest = bytes;
        for pair in table.chunks(2) {
            if let Some((blocks, length)) = record_of(pair) {
                let Some(record) = rest.get(..length) else {
                    return Ok(false);
                };
                self.push_chain(record)?;
                let taken = blocks.saturating_mul(BLOCK).min(rest.len());
                rest = rest.get(taken..).unwrap_or(&[]);
            }
        }
        Ok(true)
    }
}

/// The blocks of a CVT's file at these places: its info block first. None where the file is cut off.
fn blocks_at(
    alloc: Global,
    cvt: &Cvt<'_>,
    places: &[Address],
) -> Result<Option<Vec<[u8; 256]>>, AllocError> {
    let mut sheet = Sheet {
        places,
        blocks: Vec::new(alloc),
    };
    sheet.push(WHOLE, cvt.info)?;
    let is_whole = match cvt.table {
        Some(table) => sheet.push_records(alloc, table, cvt.bytes)?,
        None => {
            sheet.push_chain(cvt.bytes)?;
            true
        }
    };
    if !is_whole || sheet.blocks.len() != places.len() {
        return Ok(None);
    }
    Ok(Some(sheet.blocks))
}

/// The entry of the file at these places, with this name.
fn entry_at(cvt: &Cvt<'_>, places: &[Address], name: &[u8]) -> Entry {
    let mut bytes = *cvt.entry.bytes();
    if let [info, first, ..] = places {
        bytes[1] = first.track();
        bytes[2] = first.sector();
        bytes[19] = info.track();
        bytes[20] = info.sector();
    }
    for place in 0..16usize {
        if let Some(room) = bytes.get_mut(place.saturating_add(3)) {
            *room = name.get(place).copied().unwrap_or(0xa0);
        }
    }
    let count = u16::try_from(places.len()).unwrap_or(u16::MAX);
    bytes[28] = count.to_le_bytes()[0];
    bytes[29] = count.to_le_bytes()[1];
    entry_of(&bytes)
}

/// The image with as many blocks as a CVT's file has, in a file of a name for now.
fn with_room(
    alloc: Global,
    image: &str,
    old: &[u8],
    cvt: &Cvt<'_>,
    kind: FileKind,
) -> Result<Vec<u8>, Failure> {
    let count = count_of(cvt).saturating_mul(BLOCK);
    let zeros = in_memory(vec![in alloc; 0u8; count])?;
    let stored = Stored {
        name: FOR_NOW,
        kind,
        record: None,
        replaces: false,
        bytes: zeros.as_slice(),
    };
    with_stored(alloc, image, old, &stored)
}

/// The image whose file of a name for now is that of a CVT. Errors: `CutOff`, where the CVT is; `Disk`; `NoMemory`.
fn carved(
    alloc: Global,
    image: &str,
    bytes: &[u8],
    file: &str,
    cvt: &Cvt<'_>,
    name: &[u8],
) -> Result<Vec<u8>, Failure> {
    let disk = on_disk(alloc, image, Disk::open(alloc, bytes))?;
    let entries = on_disk(alloc, image, disk.entries(alloc))?;
    let Some(slot) = slot_named(entries.as_slice(), FOR_NOW) else {
        return Err(Failure::named(alloc, What::NoFile, file));
    };
    let Some(entry) = entries.as_slice().get(slot) else {
        return Err(Failure::named(alloc, What::NoFile, file));
    };
    let places = in_memory(disk.blocks(alloc, entry))?;
    let Some(blocks) = in_memory(blocks_at(alloc, cvt, places.as_slice()))? else {
        return Err(Failure::named(alloc, What::CutOff, file));
    };
    let new = entry_at(cvt, places.as_slice(), name);
    let slot = slot_number(alloc, slot, file)?;
    on_disk(
        alloc,
        image,
        carve(alloc, bytes, slot, &new, blocks.as_slice()),
    )
}

/// The image with the file of GEOS that a CVT is, under this name. Errors: `GeosThere`, where a file has the name; `CutOff`; `Disk`, where
/// the disk refuses it; `DirectoryFull`; `NoMemory`.
pub fn with_cvt(
    alloc: Global,
    image: &str,
    old: &[u8],
    file: &str,
    cvt: &Cvt<'_>,
    name: &[u8],
) -> Result<Vec<u8>, Failure> {
    let Some(kind) = kind_of_entry(&cvt.entry) else {
        return Err(Failure::named(alloc, What::CutOff, file));
    };
    let entries = on_disk(alloc, image, entries(alloc, old))?;
    if has_name(entries.as_slice(), name) {
        return Err(Failure::named(alloc, What::GeosThere, file));
    }
    let roomy = with_room(alloc, image, old, cvt, kind)?;
    carved(alloc, image, roomy.as_slice(), file, cvt, name)
}

/// The name of a CVT's file.
pub fn name_in<'b>(cvt: &'b Cvt<'_>) -> &'b [u8] {
    cvt.entry.name()
}

/// The image with the file of GEOS that these bytes of a CVT are, under the name in them. Errors: `CutOff`, where they are none; those of
/// `with_cvt`.
pub fn with_geos(
    alloc: Global,
    image: &str,
    old: &[u8],
    file: &str,
    cvt: &[u8],
) -> Result<Vec<u8>, Failure> {
    match parts_of(cvt) {
        Some(parts) => with_cvt(alloc, image, old, file, &parts, name_in(&parts)),
        None => Err(Failure::named(alloc, What::CutOff, file)),
    }
}
