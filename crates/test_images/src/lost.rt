// Blocks that are nobody's.

use crate::bytes::place;

/// The byte of an image at a place, 0 past its end.
fn byte(image: &[u8], at: usize) -> usize {
    image.get(at).copied().unwrap_or(0) as usize
}

/// How many blocks outside track 18 the map counts as free (byte 4 * TRACK of 18/0; from byte 192 on for the tracks 36 to 40).
fn free_blocks(image: &[u8], last_track: u8) -> usize {
    let head = place(18, 0);
    let mut free = 0usize;
    for track in 1..=last_track {
        let row = if track < 36 {
            4 * track as usize
        } else {
            192 + 4 * (track as usize - 36)
        };
        if track != 18 {
            free = free.wrapping_add(byte(image, head.wrapping_add(row)));
        }
    }
    free
}

/// How many blocks the closed entries of a directory sector have (bit 7 of byte 2, and bytes 30 and 31, of each 32).
fn blocks_of(image: &[u8], sector: usize) -> usize {
    let mut blocks = 0usize;
    for entry in 0..8usize {
        let at = sector.wrapping_add(entry.wrapping_mul(32));
        if byte(image, at.wrapping_add(2)) >= 128 {
            blocks = blocks
                .wrapping_add(byte(image, at.wrapping_add(30)))
                .wrapping_add(byte(image, at.wrapping_add(31)).wrapping_mul(256));
        }
    }
    blocks
}

/// How many blocks of a D64 image are neither free nor a closed file's, by its map and by its directory's entries.
pub fn lost_blocks(image: &[u8]) -> usize {
    let (last_track, mut lost): (u8, usize) = if image.len() < 196_608 {
        (35, 664)
    } else {
        (40, 749)
    };
    lost = lost.wrapping_sub(free_blocks(image, last_track));
    let mut sector = 1u8;
    for _ in 0..18u8 {
        let at = place(18, sector);
        lost = lost.wrapping_sub(blocks_of(image, at));
        if byte(image, at) != 18 {
            break;
        }
        sector = image.get(at.wrapping_add(1)).copied().unwrap_or(0);
    }
    lost
}
