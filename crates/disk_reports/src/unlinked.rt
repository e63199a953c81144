//! Sectors of track 18 to which no link of the directory leads, for programs.
use disk_basics::strays::Strays;
use serde::Serialize;
use std::alloc::{AllocError, Global};

/// Such a sector, and how many files it has.
#[derive(Drop, Serialize)]
pub struct UnlinkedSector {
    track: u8,
    sector: u8,
    files: usize,
}

/// Such sectors, for programs. The one error is want of memory.
pub fn unlinked_sectors(alloc: Global, strays: &Strays) -> Result<Vec<UnlinkedSector>, AllocError> {
    let mut sectors = Vec::new(alloc);
    for stray in strays.sectors.as_slice() {
        let sector = UnlinkedSector {
            track: stray.at.track(),
            sector: stray.at.sector(),
            files: stray.entries.len(),
        };
        sectors.push(sector).map_err(AllocError::from)?;
    }
    Ok(sectors)
}
