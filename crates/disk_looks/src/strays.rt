//! Entries of a damaged directory that no link leads to.
use cbm_medium::{Address, Link};
use cbm_shell::ShellFault;
use cbm_volume::Entry;
use disk_basics::calls::sector;
use disk_basics::strays::looks_like_entry;
use std::alloc::AllocError;
use std::rt::Runtime;

/// The directory's track.
const TRACK: u8 = 18;

/// How many sectors it has.
const SECTORS: u8 = 19;

/// How many entries are in a sector.
const ENTRIES: u8 = 8;

/// Whether a sector is one of these.
fn is_among(sectors: &[Link], at: Address) -> bool {
    for sector in sectors {
        if *sector == Link::from(at) {
            return true;
        }
    }
    false
}

/// Adds the entries of a sector that look like those of files.
fn add_entries(entries: &mut Vec<Entry>, bytes: &[u8; 256]) -> Result<(), AllocError> {
    for number in 0..ENTRIES {
        let entry = Entry::of(bytes, number);
        if looks_like_entry(&entry) {
            entries.push(entry).map_err(AllocError::from)?;
        }
    }
    Ok(())
}

/// Adds the entries of a sector of track 18 that no link leads to, if it reads, and reports how many they are.
fn add_stray<R: Runtime + AllocGlobal>(
    rt: &R,
    image: &[u8],
    at: Address,
    entries: &mut Vec<Entry>,
) -> Result<(), ShellFault> {
    let before = entries.len();
    if let Some(Ok(bytes)) = sector(rt.alloc(), image, at)? {
        add_entries(entries, &bytes)?;
    }
    let count = entries.len().saturating_sub(before);
    if count != 0 {
        let number = at.sector();
        let _ = eprintln!(rt;
            "disk1541: track 18, sector {number}, which no link of the directory reaches: {count} entries"
        );
    }
    Ok(())
}

/// Adds to the entries of a directory of these sectors what the other sectors of track 18 have that looks like entries of
/// files. Errors: `Image`, `Memory`.
pub fn with_strays<R: Runtime + AllocGlobal>(
    rt: &R,
    image: &[u8],
    sectors: &[Link],
    entries: Vec<Entry>,
) -> Result<Vec<Entry>, ShellFault> {
    let mut entries = entries;
    for number in 1..SECTORS {
        match Address::new(TRACK, number) {
            Some(at) if !is_among(sectors, at) => add_stray(rt, image, at, &mut entries)?,
            _ => {}
        }
    }
    Ok(entries)
}
