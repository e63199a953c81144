//! The tracks of a G64 as they stand in its file.
use cbm_image::{Kind, kind_of};
use std::alloc::{AllocError, Global};

/// Where the places of tracks stand in the file.
const PLACES: usize = 12;

/// The byte that says how many places there are.
const COUNT: usize = 9;

/// The first place of a track beyond 35.
const BEYOND: usize = 70;

/// The number of four bytes, the low one first.
fn number_at(image: &[u8], at: usize) -> usize {
    let mut number: usize = 0;
    for place in (at..at.saturating_add(4)).rev() {
        let byte = image.get(place).copied().unwrap_or(0);
        number = number.saturating_mul(256).saturating_add(usize::from(byte));
    }
    number
}

/// Where a track stands by its number among half tracks, from 0 on; 0 where the file has none.
fn place_of(image: &[u8], index: usize) -> usize {
    number_at(image, PLACES.saturating_add(index.saturating_mul(4)))
}

/// How many places for tracks a file has.
fn count_of(image: &[u8]) -> usize {
    usize::from(image.get(COUNT).copied().unwrap_or(0))
}

/// The bytes of a track by its number among half tracks, from 0 on; None where the file has none.
pub fn track_at(image: &[u8], index: usize) -> Option<&[u8]> {
    let place = place_of(image, index);
    if index >= count_of(image) || place == 0 {
        return None;
    }
    let low = usize::from(*image.get(place)?);
    let high = usize::from(*image.get(place.checked_add(1)?)?);
    let from = place.checked_add(2)?;
    image.get(from..from.checked_add(low.saturating_add(high.saturating_mul(256)))?)
}

/// The name of a track by its number among half tracks, from 0 on. The one error is want of memory.
pub fn track_name(alloc: Global, index: usize) -> Result<String, AllocError> {
    let whole = index / 2;
    let track = whole.saturating_add(1);
    if index % 2 == 0 {
        format!(in alloc; "{track}")
    } else {
        format!(in alloc; "{track}.5")
    }
}

/// Whether a track is none that the drive's DOS uses, and the file has it.
fn is_more(image: &[u8], index: usize) -> bool {
    (index % 2 == 1 || index >= BEYOND) && place_of(image, index) != 0
}

/// The names of half tracks and of tracks beyond 35 that a G64 has; a D64 has none. The one error
/// is want of memory.
pub fn more_tracks(alloc: Global, image: &[u8]) -> Result<Vec<String>, AllocError> {
    let mut names = Vec::new(alloc);
    if kind_of(image) == Kind::D64 {
        return Ok(names);
    }
    for index in 0..count_of(image) {
        if is_more(image, index) {
            names.push(track_name(alloc, index)?)?;
        }
    }
    Ok(names)
}
