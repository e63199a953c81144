//! Bits of a track, going round.
use cbm_track::Track;

/// How many ones stand before a place, at most a whole turn.
pub fn ones_before(track: &Track, bytes: &[u8], place: u32) -> u32 {
    let bits = track.bits();
    let mut ones: u32 = 0;
    for count in 1..bits {
        if !is_one(bytes, afterwards(bits, place, count)) {
            break;
        }
        ones = count;
    }
    ones
}

/// The place this many bits before another one.
pub fn afterwards(bits: u32, place: u32, count: u32) -> u32 {
    if count <= place {
        place.wrapping_sub(count)
    } else {
        place.wrapping_add(bits).wrapping_sub(count)
    }
}

/// How many bits it is from a place on to another one, going round.
pub fn distance(bits: u32, from: u32, to: u32) -> u32 {
    if from <= to {
        to.wrapping_sub(from)
    } else {
        to.wrapping_add(bits).wrapping_sub(from)
    }
}

/// Whether a bit is a one, the high bit of each byte first.
fn is_one(bytes: &[u8], place: u32) -> bool {
    let Some(byte) = bytes.get(place as usize / 8) else {
        return false;
    };
    byte & (128 >> (place % 8)) != 0
}
