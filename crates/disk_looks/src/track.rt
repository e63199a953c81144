//! TRACK: what stands on a track of a G64.
mod facts;

use self::facts::circle_line;
use cbm_image::{Kind, kind_of};
use disk_basics::host::{print, read_to_look};
use disk_basics::{Failure, What, WordFault, in_memory};
use disk_facts::{track_at, track_name};
use disk_views::{circle_of, track_lines};
use std::alloc::{AllocError, Global};
use std::rt::Runtime;

/// The most tracks of a G64.
const TRACKS: usize = 42;

/// A track's number among half tracks, from 0 on, by the word for it: `17` or `17.5`.
fn index_of(alloc: Global, word: &str) -> Result<usize, Failure> {
    let (digits, half) = match word.strip_suffix(".5") {
        Some(digits) => (digits, 1usize),
        None => (word, 0usize),
    };
    match digits.parse::<usize>() {
        Ok(track) if 0 < track && track <= TRACKS => {
            Ok(
                track
                    .saturating_sub(1)
                    .saturating_mul(2)
                    .saturating_add(half),
            )
        }
        _ => Err(Failure::named(alloc, What::Word(WordFault::Track), word)),
    }
}

/// What stands on a track, as it is printed; None where it can't be a track.
fn shown(
    alloc: Global,
    image: &str,
    index: usize,
    bytes: &[u8],
    is_json: bool,
) -> Result<Option<Vec<u8>>, AllocError> {
    let name = track_name(alloc, index)?;
    let Some(circle) = circle_of(alloc, bytes)? else {
        return Ok(None);
    };
    if is_json {
        return Ok(Some(circle_line(alloc, image, name.as_str(), &circle)?));
    }
    Ok(Some(track_lines(alloc, name.as_str(), &circle)?.into_bytes()))
}

/// Prints what stands on a track.
fn print_track<R: Runtime + AllocGlobal>(
    rt: &R,
    image: &str,
    index: usize,
    bytes: &[u8],
    is_json: bool,
) -> Result<(), Failure> {
    match in_memory(shown(rt.alloc(), image, index, bytes, is_json))? {
        Some(text) => print(rt, text.as_slice()),
        None => Err(Failure::named(rt.alloc(), What::NoTrack, image)),
    }
}

/// Shows what stands on a track of an image. Errors: `Word`, where it is no track; those of `read_to_look`; `NoCircles` for
/// a D64; `NoTrack`, where the image has none such; `Write`; `NoMemory`.
pub fn show_track<R: Runtime + AllocGlobal>(
    rt: &R,
    image: &str,
    word: &str,
    is_json: bool,
) -> Result<(), Failure> {
    let index = index_of(rt.alloc(), word)?;
    let bytes = read_to_look(rt, image)?;
    if kind_of(bytes.as_slice()) == Kind::D64 {
        return Err(Failure::named(rt.alloc(), What::NoCircles, image));
    }
    match track_at(bytes.as_slice(), index) {
        Some(track) => print_track(rt, image, index, track, is_json),
        None => Err(Failure::named(rt.alloc(), What::NoTrack, image)),
    }
}
