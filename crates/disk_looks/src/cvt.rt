//! Files of GEOS as CVT, the form in which GEOS's Convert passes them on: the entry, the info block, and the blocks of the file.
use cbm_medium::Link;
use cbm_shell::parts::entry_of;
use cbm_shell::{Geos, ShellFault};
use cbm_volume::Entry;
use disk_basics::Disk;
use std::alloc::{AllocError, Global};

/// The bytes of a block.
const BLOCK: usize = 254;

/// What a CVT says after the entry.
const MARK: &[u8; 28] = b"PRG formatted GEOS file V1.0";

/// Adds zeros up to a whole number of blocks.
fn fill(file: &mut Vec<u8>) -> Result<(), AllocError> {
    let rest = file.len() % BLOCK;
    if rest != 0 {
        for _ in rest..BLOCK {
            file.push(0)?;
        }
    }
    Ok(())
}

/// An entry with another first block.
fn led_to(entry: &Entry, first: Link) -> Entry {
    let mut bytes = *entry.bytes();
    bytes[1] = first.track();
    bytes[2] = first.sector();
    entry_of(&bytes)
}

/// The first block: the entry without what its disk alone knows, and what a CVT says.
fn head_of(alloc: Global, entry: &Entry) -> Result<Vec<u8>, AllocError> {
    let mut bytes = *entry.bytes();
    for place in [1usize, 2, 19, 20] {
        if let Some(byte) = bytes.get_mut(place) {
            *byte = 0;
        }
    }
    let mut file = Vec::from_slice(alloc, &bytes)?;
    file.extend_from_slice(MARK)?;
    fill(&mut file)?;
    Ok(file)
}

/// The bytes of the chain from a block on.
fn chain(alloc: Global, disk: &Disk, entry: &Entry, first: Link) -> Result<Vec<u8>, ShellFault> {
    disk.file_of(alloc, &led_to(entry, first))
}

/// How many blocks so many bytes are, and where the last block's bytes end, as its link says.
fn size_of(bytes: usize) -> (u8, u8) {
    let full = bytes.saturating_sub(1) / BLOCK;
    let rest = bytes.saturating_sub(full.saturating_mul(BLOCK));
    (
        u8::try_from(full.saturating_add(1)).unwrap_or(u8::MAX),
        u8::try_from(rest.saturating_add(1)).unwrap_or(u8::MAX),
    )
}

/// Adds a record's blocks, and what the table says of it: how many blocks, and where the last one ends; of a record that isn't there what
/// the disk's table says.
fn add_record(
    alloc: Global,
    disk: &Disk,
    entry: &Entry,
    first: Link,
    table: &mut Vec<u8>,
    records: &mut Vec<u8>,
) -> Result<(), ShellFault> {
    let mut size = (first.track(), first.sector());
    if first.track() != 0 {
        fill(records)?;
        let bytes = chain(alloc, disk, entry, first)?;
        size = size_of(bytes.len());
        records.extend_from_slice(bytes.as_slice())?;
    }
    table.push(size.0).map_err(AllocError::from)?;
    table.push(size.1).map_err(AllocError::from)?;
    Ok(())
}

/// Adds the table of a file's records, and the records.
fn add_records(
    alloc: Global,
    disk: &Disk,
    entry: &Entry,
    file: &mut Vec<u8>,
) -> Result<(), ShellFault> {
    let list = chain(alloc, disk, entry, entry.first_block())?;
    let mut table = Vec::new(alloc);
    let mut records = Vec::new(alloc);
    for pair in list
        .as_slice()
        .get(..BLOCK)
        .unwrap_or(list.as_slice())
        .chunks(2)
    {
        if let [track, sector] = pair {
            let first = Link::new(*track, *sector);
            add_record(alloc, disk, entry, first, &mut table, &mut records)?;
        }
    }
    fill(&mut table)?;
    file.extend_from_slice(table.as_slice())?;
    file.extend_from_slice(records.as_slice())?;
    Ok(())
}

/// A file of GEOS as CVT: blocks of 254 bytes, the last of which ends with the file. The first has the entry, the second is the info
/// block; of a file in records a table of them follows, then each record. Errors: `Trouble`, where a chain breaks off; `Memory`.
pub fn cvt_of(
    alloc: Global,
    disk: &Disk,
    entry: &Entry,
    geos: Geos,
) -> Result<Vec<u8>, ShellFault> {
    let mut file = head_of(alloc, entry)?;
    let info = chain(alloc, disk, entry, entry.first_side())?;
    // (it is one block, wherever its link leads)
    file.extend_from_slice(info.as_slice().get(..BLOCK).unwrap_or(info.as_slice()))?;
    fill(&mut file)?;
    if geos.has_records {
        add_records(alloc, disk, entry, &mut file)?;
    } else {
        let bytes = chain(alloc, disk, entry, entry.first_block())?;
        file.extend_from_slice(bytes.as_slice())?;
    }
    Ok(file)
}
