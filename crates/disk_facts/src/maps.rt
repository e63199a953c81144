//! The maps of tracks 36 to 40 that other DOSes keep in 18/0.
use crate::formats::without_errors;
use cbm_image::{Kind, OF_40_TRACKS, kind_of};

/// Where the bytes of 18/0 begin in a D64.
const HEAD: usize = 91_392;

/// Where Dolphin DOS keeps its map of tracks 36 to 40 in a D64: in 18/0.
pub const DOLPHIN: usize = HEAD + 0xac;

/// Where Speed DOS keeps it, and the drive here.
pub const SPEED: usize = HEAD + 0xc0;

/// How many bytes it has: four for each track.
const BYTES: usize = 20;

/// Whose map of tracks 36 to 40 a D64 of 40 tracks has.
#[derive(Clone, Copy, Debug, PartialEq, Eq)]
pub enum WideMap {
    /// Speed DOS's, at $C0 of 18/0, by which the drive here goes.
    Speed,
    /// Dolphin DOS's, at $AC.
    Dolphin,
    /// Both.
    Both,
}

impl WideMap {
    /// How it is called.
    pub fn name(self) -> &'static str {
        match self {
            WideMap::Speed => "Speed DOS, at $C0 of 18/0",
            WideMap::Dolphin => "Dolphin DOS, at $AC of 18/0",
            WideMap::Both => "Speed DOS, at $C0 of 18/0, and Dolphin DOS, at $AC",
        }
    }
}

/// Whether four bytes are the map of a track of 17 sectors: a count, and the bits of so many free ones.
fn is_row(row: &[u8]) -> bool {
    match row {
        [count, first, second, third] => {
            let free = first.count_ones() + second.count_ones() + u32::from(*third);
            *third <= 1 && free == u32::from(*count)
        }
        _ => false,
    }
}

/// Whether a map stands at a place: five rows, not all of them zeros.
fn is_map_at(image: &[u8], place: usize) -> bool {
    let Some(rows) = image.get(place..place.saturating_add(BYTES)) else {
        return false;
    };
    for row in rows.chunks(4) {
        if !is_row(row) {
            return false;
        }
    }
    rows.iter().any(|byte| *byte != 0)
}

/// Whose map of tracks 36 to 40 a D64 of 40 tracks has; None where it has none with a free sector, and for other images.
pub fn wide_map(image: &[u8]) -> Option<WideMap> {
    let image = without_errors(image);
    if kind_of(image) != Kind::D64 || image.len() != OF_40_TRACKS {
        return None;
    }
    match (is_map_at(image, SPEED), is_map_at(image, DOLPHIN)) {
        (true, true) => Some(WideMap::Both),
        (true, false) => Some(WideMap::Speed),
        (false, true) => Some(WideMap::Dolphin),
        (false, false) => None,
    }
}
