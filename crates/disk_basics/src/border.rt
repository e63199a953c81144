//! The border block of a disk that GEOS formatted.
use crate::disk::Disk;
use cbm_medium::Address;
use cbm_shell::ShellFault;
use cbm_volume::Entry;
use std::alloc::Global;

/// Where 18/0 says that GEOS formatted the disk, and how.
const MARK: usize = 173;

const GEOS: &[u8] = b"GEOS format";

/// Where 18/0 names the border block.
const BORDER: usize = 171;

/// How many entries are in a block.
const ENTRIES: u8 = 8;

/// The bytes of a sector; None where it doesn't read.
fn bytes_at(disk: &Disk, at: Address) -> Option<[u8; 256]> {
    match disk.sector(at) {
        Some(Ok(bytes)) => Some(bytes),
        _ => None,
    }
}

/// The border block that the bytes of 18/0 name.
fn border_of(map: &[u8; 256]) -> Option<Address> {
    let rest = map.get(MARK..)?;
    if !rest.starts_with(GEOS) {
        return None;
    }
    Address::new(*map.get(BORDER)?, *map.get(BORDER.saturating_add(1))?)
}

/// The place of the border block; None where the disk has none.
pub fn border_place(disk: &Disk) -> Option<Address> {
    border_of(&bytes_at(disk, Address::of_map())?)
}

/// Whether an entry of a block isn't empty.
fn has_entries(block: &[u8; 256]) -> bool {
    for number in 0..ENTRIES {
        if !Entry::of(block, number).is_empty() {
            return true;
        }
    }
    false
}

/// Whether files lie in the border block: they are in no directory. Errors: `Image`, `Memory`.
pub fn has_border_files(alloc: Global, image: &[u8]) -> Result<bool, ShellFault> {
    let disk = Disk::open(alloc, image)?;
    let Some(border) = border_place(&disk) else {
        return Ok(false);
    };
    match bytes_at(&disk, border) {
        Some(block) => Ok(has_entries(&block)),
        None => Ok(false),
    }
}
