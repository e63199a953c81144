use cbm_track::Track;

/// The bit at a place of a circle, by the place alone.
fn bit(circle: &[u8], place: usize) -> bool {
    if circle.is_empty() {
        return false;
    }
    circle[place / 8 % circle.len()] >> (7 - place % 8) & 1 == 1
}

fn ten_ones(circle: &[u8], place: usize) -> bool {
    for k in 0..10 {
        if place < 1_000_000 && !bit(circle, place + k) {
            return false;
        }
    }
    true
}

/// The next block by the definition: each place is looked at by itself, all the way round.
fn next_block(circle: &[u8], from: u32) -> Option<u32> {
    let bits = 8 * circle.len().min(Track::MAX_BYTES);
    for k in 0..bits {
        let place = from as usize + k;
        if place < 200_000 && !bit(circle, place) && ten_ones(circle, place + 2 * bits - 10) {
            return Some((place % bits) as u32);
        }
    }
    None
}

fn is_clear(circle: &[u8], place: u32, count: u32) -> bool {
    for k in 0..count {
        if ten_ones(circle, place as usize + k as usize) {
            return false;
        }
    }
    true
}

/// The next number of a sequence that looks like chance (xorshift).
fn next_chance(chance: &mut u64) -> u64 {
    *chance ^= *chance << 13;
    *chance ^= *chance >> 7;
    *chance ^= *chance << 17;
    *chance
}

/// Fills a circle with code-like bytes, ones and noise.
fn fill(circle: &mut [u8], chance: &mut u64) {
    for byte in circle.iter_mut() {
        let number = next_chance(chance);
        *byte = match number % 8 {
            0..=2 => 0xff,
            3 => 0xff >> (number / 8 % 8) as u32,
            4 => 0x55,
            5 => !(1 << (number / 8 % 8) as u32),
            _ => (number >> 32 & 0xff) as u8,
        };
    }
}

/// How many bits a circle of so many zero bytes has.
fn bits_of(size: usize) -> Option<u32> {
    Some(Track::from_bytes([0; 7929].get(..size)?)?.bits())
}

#[test]
fn sizes(rt: HostRuntime) {
    for (size, bits) in [
        (0, None),
        (7929, None),
        (1, Some(8)),
        (2, Some(16)),
        (7928, Some(63424)),
    ] {
        assert!(rt; bits_of(size) == bits);
    }
}

/// Circles with the place at which the search begins, and the block that it finds.
const MARKS: [([u8; 4], u32, Option<u32>); 9] = [
    // Nine ones are no sync mark, ten are.
    ([0x7f, 0x80, 0x00, 0x00], 0, None),
    ([0x7f, 0xc0, 0x00, 0x00], 0, None),
    ([0x7f, 0xe0, 0x00, 0x00], 0, Some(11)),
    ([0x7f, 0xf0, 0x00, 0x00], 0, Some(12)),
    // The place itself counts.
    ([0x7f, 0xe0, 0x00, 0x00], 11, Some(11)),
    // The search goes all the way round.
    ([0x7f, 0xe0, 0x00, 0x00], 12, Some(11)),
    // A mark that runs over the end belongs to the block after it.
    ([0xf0, 0x00, 0x00, 0x3f], 0, Some(4)),
    ([0xe0, 0x00, 0x00, 0x3f], 4, None),
    ([0xff, 0xff, 0xff, 0xff], 0, None),
];

/// Whether the search from a place of a circle finds that block.
fn is_found(circle: &[u8], from: u32, block: Option<u32>) -> bool {
    match Track::from_bytes(circle) {
        Some(track) if from < track.bits() => track.next_sync(from) == block,
        _ => false,
    }
}

#[test]
fn sync_marks(rt: HostRuntime) {
    for (bytes, from, block) in MARKS {
        assert!(rt; is_found(&bytes, from, block));
    }
}

#[test]
fn tiny_circles(rt: HostRuntime) {
    for byte in 0..=255u8 {
        for from in 0..8 {
            assert!(rt; is_found(&[byte], from, None));
        }
    }
    assert!(rt; is_found(&[0xff, 0xfe], 0, Some(15)));
}

/// What the searches answer is what the plain program answers.
fn finds(track: &Track, circle: &[u8], place: u32, count: u32) -> bool {
    if place >= track.bits() || count > 1000 {
        return false;
    }
    let found = track.next_sync(place) == next_block(circle, place);
    found && track.is_clear(place, count) == is_clear(circle, place, count)
}

/// Nine bytes from a place on are the bits there.
fn reads(track: &Track, circle: &[u8], place: u32) -> bool {
    let mut out = [0; 9];
    if place < track.bits() {
        track.bytes_at(place, &mut out);
    }
    let mut same = true;
    for k in 0..72 {
        same = bit(&out, k) == bit(circle, place as usize + k) && same;
    }
    same
}

const NEW: [u8; 5] = [0xa5, 0xff, 0x00, 0x5a, 0xc3];

/// The circle with five bytes written at a place.
fn written(mut track: Track, place: u32) -> [u8; 64] {
    let mut bytes = [0; 64];
    if track.bits() >= 40 && place < track.bits() {
        track.overwrite(place, &NEW);
    }
    if track.bits() > 0 {
        track.bytes_at(0, &mut bytes);
    }
    bytes
}

/// Whether the five bytes stand at a place of the new circle, and all else is as it was.
fn is_written(circle: &[u8], new: &[u8; 64], place: usize) -> bool {
    let mut same = circle.len() <= 64 && place < 1000;
    if same {
        for k in 0..8 * circle.len() {
            let at = (place + k) % (8 * circle.len());
            let wanted = if k < 40 {
                bit(&NEW, k)
            } else {
                bit(circle, at)
            };
            same = bit(new, at) == wanted && same;
        }
    }
    same
}

/// One circle, at one place: what the calls answer is what the plain program answers. A place past the circle isn't
/// looked at.
fn is_same(circle: &[u8], place: u32, count: u32) -> bool {
    match Track::from_bytes(circle) {
        Some(track) if place >= track.bits() => true,
        Some(track) => {
            let same = finds(&track, circle, place, count) && reads(&track, circle, place);
            same && is_written(circle, &written(track, place), place as usize)
        }
        None => false,
    }
}

#[test]
fn ten_thousand_circles(rt: HostRuntime) {
    let mut chance = 0x9e37_79b9_7f4a_7c15;
    for _ in 0..12_000 {
        let mut circle = [0; 64];
        fill(&mut circle, &mut chance);
        let size = 6 + (next_chance(&mut chance) % 40) as usize;
        for _ in 0..2 {
            let place = (next_chance(&mut chance) % 368) as u32;
            let count = (next_chance(&mut chance) % 400) as u32;
            assert!(rt; is_same(&circle[..size], place, count));
        }
    }
}
