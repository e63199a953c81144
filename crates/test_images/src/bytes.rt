// Sectors and bytes of an image.

use cbm_medium::sectors_of;

/// Where a sector's bytes stand in a D64 image.
pub fn place(track: u8, sector: u8) -> usize {
    let mut before = 0usize;
    for t in 1..track {
        before = before.wrapping_add(sectors_of(t) as usize);
    }
    before.wrapping_add(sector as usize).wrapping_mul(256)
}

/// Writes bytes into an image from a place on, those that would stand past its end left out.
pub fn put(image: &mut Vec<u8>, at: usize, bytes: &[u8]) {
    for (i, byte) in bytes.iter().enumerate() {
        if let Some(old) = image.get_mut(at.wrapping_add(i)) {
            *old = *byte;
        }
    }
}

/// Whether these bytes stand in an image from a place on.
pub fn stands(image: &[u8], at: usize, bytes: &[u8]) -> bool {
    image
        .get(at..at.wrapping_add(bytes.len()))
        .is_some_and(|there| there == bytes)
}
