use super::disks::code_of;
use cbm_medium::Address;
use cbm_sector::{fresh_track, id_of, read_sector, write_sector};
use cbm_track::Track;

const ID: [u8; 2] = [0x41, 0x42];

/// The code that a read answers, 0 if it gives the bytes.
fn read_code(track: &Track, number: u8, sector: u8, id: [u8; 2]) -> u8 {
    match Address::new(number, sector) {
        Some(at) if at.track() <= 35 => code_of(read_sector(track, at, id)),
        _ => 255,
    }
}

/// The code that a write of one byte 256 times answers on track 18.
fn write_code(track: &mut Track, sector: u8, id: [u8; 2], byte: u8) -> u8 {
    match Address::new(18, sector) {
        Some(at) if at.track() <= 35 => code_of(write_sector(track, at, id, &[byte; 256])),
        _ => 255,
    }
}

/// Whether a sector of track 18 holds one byte 256 times.
fn shows(track: &Track, sector: u8, byte: u8) -> bool {
    match Address::new(18, sector) {
        Some(at) if at.track() <= 35 => match read_sector(track, at, ID) {
            Ok(bytes) => bytes == [byte; 256],
            Err(_) => false,
        },
        _ => false,
    }
}

fn bytes_of(track: &Track) -> [u8; 7142] {
    let mut bytes = [0; 7142];
    if track.bits() > 0 {
        track.bytes_at(0, &mut bytes);
    }
    bytes
}

/// Track 18 of a formatted disk.
fn track_18() -> Track {
    fresh_track(18, ID)
}

/// The same circle turned round by some bits, with some bytes changed first.
fn turned(track: &Track, by: u32, damage: &[(usize, u8)]) -> Option<Track> {
    let mut bytes = [0; 7142];
    if track.bits() == 0 {
        return None;
    }
    track.bytes_at(0, &mut bytes);
    for (at, byte) in damage {
        if *at < 7142 {
            bytes[*at] = *byte;
        }
    }
    let changed = Track::from_bytes(&bytes)?;
    if by >= changed.bits() {
        return None;
    }
    changed.bytes_at(by, &mut bytes);
    Track::from_bytes(&bytes)
}

/// Whether all sectors of track 18 hold zeros, but one whose bytes are given.
fn all_show(track: &Track, changed: u8, byte: u8) -> bool {
    let mut all = id_of(track) == Some(ID);
    for sector in 0..19 {
        all = shows(track, sector, if sector == changed { byte } else { 0 }) && all;
    }
    all
}

#[test]
fn a_fresh_track_shows_zeros(rt: HostRuntime) {
    let track = track_18();
    assert!(rt; track.bits() == 57136);
    assert!(rt; all_show(&track, 0, 0));
}

/// The start of track 18 under the id AB, with the header of 18/0: 08 11 00 12 42 41 0f 0f in group code.
const START: [u8; 29] = [
    0xff, 0xff, 0xff, 0xff, 0xff, 0x52, 0x56, 0xb5, 0x29, 0x72, 0x74, 0x9c, 0xb5, 0x55, 0x55, 0x55,
    0x55, 0x55, 0x55, 0x55, 0x55, 0x55, 0x55, 0x55, 0xff, 0xff, 0xff, 0xff, 0xff,
];

#[test]
fn a_header_is_coded(rt: HostRuntime) {
    assert!(rt; bytes_of(&track_18()).starts_with(&START));
}

/// Whether a fresh track has so many bytes, reads that sector, and has no other after it.
fn is_zone(track: u8, bytes: u32, last: u8) -> bool {
    if track == 0 || track > 35 {
        return false;
    }
    let fresh = fresh_track(track, ID);
    let is_long = fresh.bits() / 8 == bytes && fresh.bits() % 8 == 0;
    let is_last = Address::new(track, last.wrapping_add(1)).is_none();
    is_long && is_last && read_code(&fresh, track, last, ID) == 0
}

/// How long a track of each zone is, in bytes, and its last sector.
#[test]
fn zones(rt: HostRuntime) {
    for (track, bytes, last) in [
        (1, 7692, 20),
        (17, 7692, 20),
        (18, 7142, 18),
        (24, 7142, 18),
        (25, 6666, 17),
        (30, 6666, 17),
        (31, 6250, 16),
        (35, 6250, 16),
    ] {
        assert!(rt; is_zone(track, bytes, last));
    }
}

/// Bytes of track 18 that are changed, and what 18/0 and 18/1 answer then.
const DAMAGE: [(&[(usize, u8)], u8, u8); 12] = [
    (&[], 0, 0),
    // A byte of the header has no code.
    (&[(5, 0)], 20, 0),
    // The header's checksum is 7 in place of 17.
    (&[(6, 0x55), (7, 0x75)], 27, 0),
    // No sync mark stands before the data block: the next block is a header.
    (
        &[(24, 0x55), (25, 0x55), (26, 0x55), (27, 0x55), (28, 0x55)],
        20,
        0,
    ),
    // A sync mark inside the data block.
    (&[(100, 0xff), (101, 0xff)], 20, 0),
    // The first five bytes of the data block have no code.
    (&[(29, 0)], 24, 0),
    // The data block begins with 8 in place of 7, so it is a header.
    (&[(29, 0x52), (30, 0x54)], 20, 0),
    // It begins with 6.
    (&[(29, 0x55), (30, 0x94)], 22, 0),
    // A later byte has no code.
    (&[(200, 0)], 24, 0),
    // A byte of the data is $70 in place of 0, so the checksum is wrong.
    (&[(34, 0xba)], 23, 0),
    // The header of 18/1 has no code.
    (&[(367, 0)], 0, 20),
    // The header of 18/0 stands twice, and that of 18/1 not at all.
    (
        &[
            (367, 0x52),
            (368, 0x56),
            (369, 0xb5),
            (370, 0x29),
            (371, 0x72),
        ],
        0,
        20,
    ),
];

/// What 18/0 and 18/1 answer on a damaged track, turned round by some bits.
fn codes_of(track: &Track, by: u32, damage: &[(usize, u8)]) -> [u8; 2] {
    match turned(track, by, damage) {
        Some(damaged) => [
            read_code(&damaged, 18, 0, ID),
            read_code(&damaged, 18, 1, ID),
        ],
        None => [255, 255],
    }
}

#[test]
fn damage_is_answered(rt: HostRuntime) {
    let track = track_18();
    for (damage, first, second) in DAMAGE {
        for by in [0, 1, 3, 40, 57, 1000] {
            assert!(rt; codes_of(&track, by, damage) == [first, second]);
        }
    }
    assert!(rt; read_code(&track, 18, 0, [0x41, 0x43]) == 29);
}

/// What 18/0 answers on a circle of these bytes.
fn code_on(circle: &[u8]) -> u8 {
    match Track::from_bytes(circle) {
        Some(track) => read_code(&track, 18, 0, [0, 0]),
        None => 255,
    }
}

/// What a write answers on a circle of these bytes, and whether it shows an id.
fn write_code_on(circle: &[u8]) -> (u8, bool) {
    match Track::from_bytes(circle) {
        Some(mut track) => {
            let code = write_code(&mut track, 0, [0, 0], 1);
            (code, id_of(&track).is_some())
        }
        None => (255, true),
    }
}

#[test]
fn odd_circles_answer(rt: HostRuntime) {
    assert!(rt; code_on(&[0xff; 100]) == 21);
    assert!(rt; code_on(&[0x55; 100]) == 21);
    assert!(rt; code_on(&[0xfe]) == 21);
    assert!(rt; code_on(&[0xff, 0xfe]) == 20);
    assert!(rt; write_code_on(&[0xff, 0xfe]) == (20, false));
}

/// Only the 2,600 bits of the block differ.
fn is_one_block(before: &[u8], after: &[u8]) -> bool {
    let mut changed = 0u32;
    for (x, y) in before.iter().zip(after) {
        if x != y {
            changed = changed.saturating_add(1);
        }
    }
    changed > 300 && changed <= 326
}

fn is_written(track: &mut Track) -> bool {
    let before = bytes_of(track);
    let code = write_code(track, 7, ID, 0xff);
    code == 0 && all_show(track, 7, 0xff) && is_one_block(&before, &bytes_of(track))
}

fn is_written_turned(by: u32) -> bool {
    match turned(&track_18(), by, &[]) {
        Some(mut track) => is_written(&mut track),
        None => false,
    }
}

#[test]
fn a_write_is_read(rt: HostRuntime) {
    for by in 0..8 {
        assert!(rt; is_written_turned(by));
    }
}
