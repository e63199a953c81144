// What is said of the disk that a step left.

use crate::player::items::{bytes_of, place_of, sector_of, show};
use crate::player::listing::rows_of;
use crate::player::playing::print_check;
use std::alloc::{AllocError, Global};
use test_images::{lost_blocks, put};

/// Where the error bytes of an image of 35 tracks stand.
const ERRORS: usize = 174_848;

/// The bytes that a sector should have, `18/1+$22 = c1`, and those that it has. None if the line can't be read.
pub fn sector(
    alloc: Global,
    image: &[u8],
    rest: &str,
) -> Result<Option<(String, String)>, AllocError> {
    let Some((place, items)) = rest.split_once(" = ") else {
        return Ok(None);
    };
    let (Some(at), Some(bytes)) = (place_of(place), bytes_of(alloc, items)?) else {
        return Ok(None);
    };
    let mut wanted = String::new(alloc);
    show(&mut wanted, bytes.as_slice())?;
    let mut came = String::new(alloc);
    let there = image.get(at..at.wrapping_add(bytes.len())).unwrap_or(&[]);
    show(&mut came, there)?;
    Ok(Some((wanted, came)))
}

/// Where the error byte of `18/1 error 5` stands, and what it is then.
fn error_of(rest: &str) -> Option<(usize, u8)> {
    let (sector, error) = rest.split_once(" error ")?;
    let at = ERRORS.wrapping_add(sector_of(sector)? / 256);
    Some((at, error.parse::<u8>().ok()?))
}

/// Where bytes are to be changed: in a sector, or at `byte 12` of the file.
fn poked_at(place: &str) -> Option<usize> {
    match place.strip_prefix("byte ") {
        Some(number) => number.parse::<usize>().ok(),
        None => place_of(place),
    }
}

/// Changes bytes of an image, `18/1+$22 = c1`, or the error byte of a sector, `18/1 error 5`. None if the line can't be
/// read, or if the image has no such byte.
pub fn poke(alloc: Global, image: &mut Vec<u8>, rest: &str) -> Result<Option<()>, AllocError> {
    if let Some((at, error)) = error_of(rest) {
        let is_there = at < image.len();
        put(image, at, &[error]);
        return Ok(if is_there { Some(()) } else { None });
    }
    let Some((place, items)) = rest.split_once(" = ") else {
        return Ok(None);
    };
    let (Some(at), Some(bytes)) = (poked_at(place), bytes_of(alloc, items)?) else {
        return Ok(None);
    };
    let is_there = at.wrapping_add(bytes.len()) <= image.len();
    put(image, at, bytes.as_slice());
    Ok(if is_there { Some(()) } else { None })
}

/// What a check of the disk says: `sound`, or the number, track and sector of what is wrong.
pub fn check(alloc: Global, image: &[u8]) -> Result<String, AllocError> {
    let printed = print_check(alloc, image)?;
    let text = printed.as_str();
    String::from_str(alloc, text.strip_prefix("check ").unwrap_or(text).trim())
}

/// How many blocks the last line of the directory says are free.
pub fn free(alloc: Global, image: &[u8]) -> Result<String, AllocError> {
    let rows = rows_of(alloc, image)?;
    let last = match rows.as_slice().last() {
        Some(row) => row.as_str(),
        None => "no directory",
    };
    String::from_str(alloc, last.strip_suffix(" BLOCKS FREE.").unwrap_or(last))
}

/// How many blocks are nobody's.
pub fn lost(alloc: Global, image: &[u8]) -> Result<String, AllocError> {
    format!(in alloc; "{}", lost_blocks(image))
}
