//! A sector by its numbers.
use cbm_medium::Address;
use serde::Serialize;
use std::alloc::{AllocError, Global};

/// A sector.
#[derive(Clone, Copy, Drop, Serialize)]
pub struct Sector {
    /// Its track.
    pub track: u8,
    /// Its number on the track.
    pub sector: u8,
}

impl Sector {
    /// The sector at a place.
    pub fn at(place: Address) -> Sector {
        Sector {
            track: place.track(),
            sector: place.sector(),
        }
    }
}

/// The sectors at these places. The one error is want of memory.
pub fn sectors_of(alloc: Global, places: &[Address]) -> Result<Vec<Sector>, AllocError> {
    let mut sectors = Vec::new(alloc);
    for place in places {
        sectors.push(Sector::at(*place)).map_err(AllocError::from)?;
    }
    Ok(sectors)
}
