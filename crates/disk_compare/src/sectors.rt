//! Which sectors of two disks differ.
use crate::report::{Differing, Unread, Unreads};
use crate::side::Side;
use cbm_medium::{Address, sectors_of};
use std::alloc::{AllocError, Global};

/// The sectors that differ, and those that one disk alone can't read.
#[derive(Drop)]
pub struct Sectors {
    /// Those that both read.
    pub differing: Vec<Differing>,
    /// The others.
    pub unreadable: Unreads,
}

/// Adds a sector that can't be read.
fn add_unread(list: &mut Vec<Unread>, at: Address, error: Option<u8>) -> Result<(), AllocError> {
    let Some(error) = error else {
        return Ok(());
    };
    list.push(Unread {
        track: at.track(),
        sector: at.sector(),
        error,
    })
    .map_err(AllocError::from)
}

/// Adds a sector that one of the disks can't read.
fn add_unreads(
    unreads: &mut Unreads,
    at: Address,
    first: Option<u8>,
    second: Option<u8>,
) -> Result<(), AllocError> {
    if first == second {
        return Ok(());
    }
    add_unread(&mut unreads.first, at, first)?;
    add_unread(&mut unreads.second, at, second)
}

/// Compares a sector.
fn compare_at(
    numbers: &mut Vec<u8>,
    unreads: &mut Unreads,
    first: &Side,
    second: &Side,
    at: Address,
) -> Result<(), AllocError> {
    match (first.error_at(at), second.error_at(at)) {
        (None, None) if first.bytes_at(at) == second.bytes_at(at) => Ok(()),
        (None, None) => numbers.push(at.sector()).map_err(AllocError::from),
        (one, other) => add_unreads(unreads, at, one, other),
    }
}

/// Compares the sectors of a track.
fn compare_on(
    alloc: Global,
    sectors: &mut Sectors,
    first: &Side,
    second: &Side,
    track: u8,
) -> Result<(), AllocError> {
    let mut numbers = Vec::new(alloc);
    for sector in 0..sectors_of(track) {
        if let Some(at) = Address::new(track, sector) {
            compare_at(&mut numbers, &mut sectors.unreadable, first, second, at)?;
        }
    }
    if numbers.is_empty() {
        return Ok(());
    }
    sectors
        .differing
        .push(Differing {
            track,
            sectors: numbers,
        })
        .map_err(AllocError::from)
}

/// Compares the sectors of the tracks that both disks have. The one error is want of memory.
pub fn sectors_in(alloc: Global, first: &Side, second: &Side) -> Result<Sectors, AllocError> {
    let mut sectors = Sectors {
        differing: Vec::new(alloc),
        unreadable: Unreads {
            first: Vec::new(alloc),
            second: Vec::new(alloc),
        },
    };
    let tracks = first.info.tracks.min(second.info.tracks);
    for track in 0..tracks {
        compare_on(alloc, &mut sectors, first, second, track.saturating_add(1))?;
    }
    Ok(sectors)
}
