// Empty disks, byte by byte.

use crate::bytes::{place, put};
use std::alloc::{AllocError, Global};

/// The map's row of a track when all of it is free but what NEW takes: a count, and a bit for each sector.
fn free_row(track: u8) -> [u8; 4] {
    match track {
        18 => [17, 0xfc, 0xff, 7],
        1..=17 => [21, 0xff, 0xff, 0x1f],
        19..=24 => [19, 0xff, 0xff, 7],
        25..=30 => [18, 0xff, 0xff, 3],
        _ => [17, 0xff, 0xff, 1],
    }
}

/// An empty disk as `N0:TEST,AB` leaves it: the map of the tracks 1 to 35, the label, the directory's first sector, and
/// zeros up to so many bytes (the D64 format; Inside Commodore DOS).
pub fn formatted(alloc: Global, bytes: usize) -> Result<Vec<u8>, AllocError> {
    let mut image = vec![in alloc; 0; bytes]?;
    let head = place(18, 0);
    put(&mut image, head, &[18, 1, 0x41, 0]);
    for track in 1..36u8 {
        put(
            &mut image,
            head.wrapping_add(4 * track as usize),
            &free_row(track),
        );
    }
    put(&mut image, head.wrapping_add(144), &[0xa0; 27]);
    put(&mut image, head.wrapping_add(144), b"TEST");
    put(&mut image, head.wrapping_add(162), b"AB");
    put(&mut image, head.wrapping_add(165), b"2A");
    put(&mut image, place(18, 1), &[0, 0xff]);
    Ok(image)
}

/// The bytes of an empty disk of 35 tracks.
pub fn empty_image(alloc: Global) -> Result<Vec<u8>, AllocError> {
    formatted(alloc, 174_848)
}

/// The bytes of an empty disk of 40 tracks, whose map has the last five from its byte 192 on.
pub fn wide_image(alloc: Global) -> Result<Vec<u8>, AllocError> {
    let mut image = formatted(alloc, 196_608)?;
    let outer = place(18, 0).wrapping_add(192);
    for track in 36..41u8 {
        let at = outer.wrapping_add(4 * (track as usize).wrapping_sub(36));
        put(&mut image, at, &free_row(track));
    }
    Ok(image)
}
