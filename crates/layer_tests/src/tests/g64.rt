use super::disks::{code_of, format_code, read_code, shows, write_code};
use cbm_g64::{G64Disk, G64Fault};
use cbm_medium::{Address, Medium, sectors_of};
use cbm_sector::read_sector;
use std::alloc::Global;
use std::process::Abort;

const ID: [u8; 2] = [0x41, 0x42];

/// Where the tracks of a new file begin, and how far one is from the next.
const FIRST: usize = 684;

const NEXT: usize = 7930;

/// Where the circle of track 17 begins.
const CIRCLE: usize = FIRST + 16 * NEXT + 2;

/// The number of a refusal, 0 if a call was done.
fn number_of<T: Drop>(answer: Result<T, G64Fault>) -> u8 {
    match answer {
        Ok(_) => 0,
        Err(fault) => fault.number(),
    }
}

/// The number of the fault that refuses an image, 0 if it is taken.
fn refusal(alloc: Global, bytes: &[u8]) -> u8 {
    number_of(G64Disk::from_bytes(alloc, bytes, false))
}

/// The number for the first bytes of an image alone.
fn refusal_of_first(alloc: Global, bytes: &[u8], size: usize) -> u8 {
    match bytes.get(..size) {
        Some(first) => refusal(alloc, first),
        None => 255,
    }
}

/// An image without tracks, in memory that is asked for once.
fn bare(alloc: Global) -> Option<Vec<u8>> {
    let mut bytes = Vec::with_capacity(alloc, 684).ok()?;
    bytes.extend_from_slice(b"GCR-1541\0\x54\xf8\x1e").ok()?;
    bytes.resize(684, 0).ok()?;
    Some(bytes)
}

fn opened(rt: &impl Abort, alloc: Global, bytes: &[u8], protected: bool) -> G64Disk {
    G64Disk::from_bytes(alloc, bytes, protected)
        .ok()
        .expect(rt, "a disk")
}

fn saved(rt: &impl Abort, alloc: Global, disk: &G64Disk) -> Vec<u8> {
    disk.to_bytes(alloc).ok().expect(rt, "an image")
}

/// The image of the sectors of a disk.
fn copied(rt: &impl Abort, alloc: Global, disk: &G64Disk, id: [u8; 2]) -> Vec<u8> {
    G64Disk::from_sectors(alloc, disk, id)
        .ok()
        .expect(rt, "an image")
}

/// The image of a formatted disk.
fn formatted(rt: &impl Abort, alloc: Global) -> Vec<u8> {
    let mut disk = opened(
        rt,
        alloc,
        bare(alloc).expect(rt, "memory").as_slice(),
        false,
    );
    assert!(rt; format_code(&mut disk) == 0);
    saved(rt, alloc, &disk)
}

fn is_saved(rt: &impl Abort, alloc: Global, disk: &G64Disk, image: &[u8]) -> bool {
    saved(rt, alloc, disk).as_slice() == image
}

fn write_changes(bytes: &mut [u8], changes: &[(usize, u8)]) {
    for (at, byte) in changes {
        if *at < bytes.len() {
            bytes[*at] = *byte;
        }
    }
}

/// A copy of bytes with some of them changed.
fn changed(rt: &impl Abort, alloc: Global, bytes: &[u8], changes: &[(usize, u8)]) -> Vec<u8> {
    let mut copy = Vec::from_slice(alloc, bytes).ok().expect(rt, "memory");
    write_changes(copy.as_mut_slice(), changes);
    copy
}

/// The image of a formatted disk without its track 1.
fn without_track_1(rt: &impl Abort, alloc: Global) -> Vec<u8> {
    changed(
        rt,
        alloc,
        formatted(rt, alloc).as_slice(),
        &[(12, 0), (13, 0)],
    )
}

fn stands_at(image: &[u8], at: usize, bytes: &[u8]) -> bool {
    match image.get(at..) {
        Some(rest) => rest.starts_with(bytes),
        None => false,
    }
}

/// How many bytes of two images differ in the track from a place on, and elsewhere.
fn differences(one: &[u8], other: &[u8], from: usize) -> (usize, usize) {
    let mut inside = 0usize;
    let mut outside = 0usize;
    for (place, (x, y)) in one.iter().zip(other).enumerate() {
        if x != y && place >= from && place - from < 7692 {
            inside = inside.saturating_add(1);
        } else if x != y {
            outside = outside.saturating_add(1);
        }
    }
    (inside, outside)
}

/// Whether they differ in the circle of track 17 alone, and there by one block.
fn is_one_block(one: &[u8], other: &[u8]) -> bool {
    let (inside, outside) = differences(one, other, CIRCLE);
    outside == 0 && inside > 300 && inside <= 326
}

#[test]
fn short_files_are_refused(rt: HostRuntime) {
    let front = b"GCR-1541\0\x54\xf8\x1e";
    let mut size = 0;
    for wanted in [1, 1, 1, 1, 1, 1, 1, 1, 2, 3, 4, 4, 5] {
        assert!(rt; refusal_of_first(rt.alloc(), front, size) == wanted);
        size = size.wrapping_add(1);
    }
}

/// Bytes of a formatted image that are changed, and the number of the fault.
const CHANGES: [(&[(usize, u8)], u8); 20] = [
    (&[], 0),
    (&[(0, b'g')], 1),
    (&[(7, b'2')], 1),
    (&[(8, 1)], 2),
    (&[(9, 68)], 3),
    (&[(9, 85)], 3),
    (&[(9, 69)], 0),
    // The greatest size is 7,929, and then 6,000, which is less than a track has.
    (&[(10, 249)], 4),
    (&[(10, 0x70), (11, 0x17)], 6),
    // Track 1 begins inside the tables, past the file, and at its end.
    (&[(12, 0xab), (13, 2)], 5),
    (&[(14, 0x10)], 5),
    (&[(12, 0xd9), (13, 0x3e), (14, 4)], 5),
    // Its length is 0, above the greatest, and so long that it meets the next.
    (&[(FIRST, 0), (FIRST + 1, 0)], 6),
    (&[(FIRST, 0xf9), (FIRST + 1, 0x1e)], 6),
    (&[(FIRST, 0xf8), (FIRST + 1, 0x1e)], 0),
    // Track 2 is where track 1 is, or a byte before its end.
    (&[(20, 0xac), (21, 2)], 8),
    // No track 1: its offset is 0.
    (&[(12, 0), (13, 0)], 0),
    // A fault of the last track comes before one of another kind of the first.
    (
        &[
            (FIRST, 0),
            (FIRST + 1, 0),
            (12 + 8 * 34, 1),
            (13 + 8 * 34, 0),
            (14 + 8 * 34, 0),
        ],
        5,
    ),
    (
        &[
            (20, 0xac),
            (21, 2),
            (FIRST + 34 * NEXT, 0),
            (FIRST + 34 * NEXT + 1, 0),
        ],
        6,
    ),
    // Half tracks, speeds and entries above 35 aren't looked at.
    (&[(16, 1), (352, 9), (300, 7)], 0),
];

/// What nobody wrote is given back if an image is taken, half tracks, speeds and padding too.
fn is_numbered(rt: &impl Abort, alloc: Global, bytes: &[u8], wanted: u8) -> bool {
    if wanted == 0 {
        is_saved(rt, alloc, &opened(rt, alloc, bytes, false), bytes)
    } else {
        refusal(alloc, bytes) == wanted
    }
}

fn try_changes(rt: &impl Abort, alloc: Global, image: &[u8]) {
    for (changes, wanted) in CHANGES {
        let bytes = changed(rt, alloc, image, changes);
        assert!(rt; is_numbered(rt, alloc, bytes.as_slice(), wanted));
    }
}

#[test]
fn faults_are_numbered(rt: HostRuntime) {
    try_changes(&rt, rt.alloc(), formatted(&rt, rt.alloc()).as_slice());
}

/// Offsets of the tracks 1, 2, 18 and 35, then the speeds of 1, 18, 25 and 31.
const TABLES: [(usize, [u8; 4]); 10] = [
    (12, [0xac, 0x02, 0, 0]),
    (16, [0, 0, 0, 0]),
    (20, [0xa6, 0x21, 0, 0]),
    (148, [0x46, 0x11, 2, 0]),
    (284, [0xe0, 0x1f, 4, 0]),
    (292, [0, 0, 0, 0]),
    (348, [3, 0, 0, 0]),
    (484, [2, 0, 0, 0]),
    (540, [1, 0, 0, 0]),
    (588, [0, 0, 0, 0]),
];

fn has_tables(image: &[u8]) -> bool {
    let mut all = image.len() == 278_234;
    for (at, bytes) in TABLES {
        all = stands_at(image, at, &bytes) && all;
    }
    all
}

/// The length of track 1, its first header, and the padding after it.
fn has_first_track(image: &[u8]) -> bool {
    let start = [0x0c, 0x1e, 0xff, 0xff, 0xff, 0xff, 0xff];
    stands_at(image, FIRST, &start) && stands_at(image, FIRST + 2 + 7692, &[0; 236])
}

fn look_at_tables(rt: &impl Abort, image: &[u8]) {
    assert!(rt; has_tables(image), "tables");
    assert!(rt; has_first_track(image), "track 1");
}

#[test]
fn a_new_file_has_its_tables(rt: HostRuntime) {
    look_at_tables(&rt, formatted(&rt, rt.alloc()).as_slice());
}

/// Whether 17/0 reads so from the circle itself.
fn circle_shows(disk: &G64Disk, byte: u8) -> bool {
    match (disk.track(17), Address::new(17, 0)) {
        (Some(track), Some(at)) if at.track() <= 35 => match read_sector(track, at, ID) {
            Ok(bytes) => bytes == [byte; 256],
            Err(_) => false,
        },
        _ => false,
    }
}

fn is_written(disk: &mut G64Disk, byte: u8) -> bool {
    write_code(disk, 17, 0, byte) == 0 && circle_shows(disk, byte) && shows(disk, 17, 0, byte)
}

fn write_on_circle(rt: &impl Abort, alloc: Global, image: &[u8]) -> Vec<u8> {
    let mut disk = opened(rt, alloc, image, false);
    for byte in [0x11, 0xff] {
        assert!(rt; is_written(&mut disk, byte));
    }
    assert!(rt; disk.track(0).is_none() && disk.track(36).is_none());
    saved(rt, alloc, &disk)
}

/// Only bytes of track 17 differ, and at most those of one block.
fn look_at_written(rt: &impl Abort, alloc: Global, old: &[u8], new: &[u8]) {
    assert!(rt; new.len() == 278_234);
    assert!(rt; is_one_block(old, new));
    assert!(rt; shows(&opened(rt, alloc, new, false), 17, 0, 0xff));
}

fn write_and_look(rt: &impl Abort, alloc: Global, image: &[u8]) {
    look_at_written(
        rt,
        alloc,
        image,
        write_on_circle(rt, alloc, image).as_slice(),
    );
}

#[test]
fn a_write_is_read_from_the_circle(rt: HostRuntime) {
    write_and_look(&rt, rt.alloc(), formatted(&rt, rt.alloc()).as_slice());
}

/// Of a disk without track 1: whether it has the track, the codes of a read and a write of 1/0, of a read of 2/0, of
/// a format and of a read of 1/0 after it, and the number of tracks.
fn codes_of_missing(disk: &mut G64Disk) -> [u8; 7] {
    [
        disk.track(1).is_some() as u8,
        read_code(disk, 1, 0),
        write_code(disk, 1, 0, 1),
        read_code(disk, 2, 0),
        code_of(disk.format([1, 2])),
        read_code(disk, 1, 0),
        disk.tracks(),
    ]
}

fn look_at_missing(rt: &impl Abort, disk: &mut G64Disk) {
    assert!(rt; codes_of_missing(disk) == [0, 21, 21, 0, 0, 0, 35]);
    assert!(rt; disk.failures() == 0);
}

#[test]
fn missing_tracks_answer_21(rt: HostRuntime) {
    let alloc = rt.alloc();
    let mut disk = opened(&rt, alloc, without_track_1(&rt, alloc).as_slice(), false);
    look_at_missing(&rt, &mut disk);
}

/// Whether the disk is protected, and the codes of a write and of a format.
fn codes_of_protected(disk: &mut G64Disk) -> [u8; 3] {
    [
        disk.protected() as u8,
        write_code(disk, 1, 0, 1),
        code_of(disk.format([1, 2])),
    ]
}

fn protect(rt: &impl Abort, alloc: Global, image: &[u8]) {
    let mut disk = opened(rt, alloc, image, true);
    assert!(rt; codes_of_protected(&mut disk) == [1, 26, 26]);
    assert!(rt; is_saved(rt, alloc, &disk, image));
}

#[test]
fn a_protected_disk_refuses(rt: HostRuntime) {
    protect(&rt, rt.alloc(), formatted(&rt, rt.alloc()).as_slice());
}

/// Writes each sector, another byte in each.
fn fill(rt: &impl Abort, disk: &mut G64Disk) {
    for track in 1..=35 {
        for sector in 0..sectors_of(track) {
            assert!(rt; write_code(disk, track, sector, track ^ sector) == 0);
        }
    }
}

fn look_at_filled(rt: &impl Abort, disk: &G64Disk) {
    for track in 1..=35 {
        for sector in 0..sectors_of(track) {
            assert!(rt; shows(disk, track, sector, track ^ sector));
        }
    }
}

fn filled(rt: &impl Abort, alloc: Global) -> Vec<u8> {
    let mut disk = opened(rt, alloc, formatted(rt, alloc).as_slice(), false);
    fill(rt, &mut disk);
    copied(rt, alloc, &disk, [0x30, 0x31])
}

fn look_at_copy(rt: &impl Abort, alloc: Global, image: &[u8]) {
    assert!(rt; image.len() == 278_234);
    look_at_filled(rt, &opened(rt, alloc, image, false));
}

#[test]
fn sectors_make_an_image(rt: HostRuntime) {
    look_at_copy(&rt, rt.alloc(), filled(&rt, rt.alloc()).as_slice());
}

/// The numbers of the image without its padding at the end, and of one byte less.
fn numbers_of_cuts(alloc: Global, image: &[u8]) -> [u8; 2] {
    [
        refusal_of_first(alloc, image, 276_556),
        refusal_of_first(alloc, image, 276_555),
    ]
}

// The last track's 6,250 bytes begin at 270,306.
#[test]
fn a_file_may_end_after_its_last_track(rt: HostRuntime) {
    let numbers = numbers_of_cuts(rt.alloc(), formatted(&rt, rt.alloc()).as_slice());
    assert!(rt; numbers == [0, 5]);
}

/// The image with the circle of one track turned round by three bits.
fn turned(alloc: Global, image: &[u8], first: usize, size: usize) -> Option<Vec<u8>> {
    let mut copy = Vec::from_slice(alloc, image).ok()?;
    for k in 0..size {
        let at = first.wrapping_add(k);
        let next = first.wrapping_add(if k.wrapping_add(1) < size {
            k.wrapping_add(1)
        } else {
            0
        });
        let high = image.get(at)? << 3;
        let low = image.get(next)? >> 5;
        if at < copy.len() {
            copy[at] = high | low;
        }
    }
    Some(copy)
}

fn turned_image(rt: &impl Abort, alloc: Global) -> Vec<u8> {
    turned(alloc, formatted(rt, alloc).as_slice(), CIRCLE, 7692).expect(rt, "a turned track")
}

fn write_on_turned(rt: &impl Abort, disk: &mut G64Disk) {
    assert!(rt; write_code(disk, 17, 5, 0xee) == 0);
    for sector in 0..21 {
        assert!(rt; shows(disk, 17, sector, if sector == 5 { 0xee } else { 0 }));
    }
}

fn try_turned(rt: &impl Abort, alloc: Global, image: &[u8]) {
    let mut disk = opened(rt, alloc, image, false);
    write_on_turned(rt, &mut disk);
    assert!(rt; is_one_block(image, saved(rt, alloc, &disk).as_slice()));
}

#[test]
fn a_turned_track_is_written_in_place(rt: HostRuntime) {
    try_turned(&rt, rt.alloc(), turned_image(&rt, rt.alloc()).as_slice());
}

/// The image has no track 1, so no sector of it is found.
fn copy_of_missing(rt: &impl Abort, alloc: Global) -> Vec<u8> {
    let disk = opened(rt, alloc, without_track_1(rt, alloc).as_slice(), false);
    assert!(rt; read_code(&disk, 1, 0) == 21);
    copied(rt, alloc, &disk, ID)
}

#[test]
fn a_sector_that_does_not_read_becomes_zeros(rt: HostRuntime) {
    let alloc = rt.alloc();
    let copy = opened(&rt, alloc, copy_of_missing(&rt, alloc).as_slice(), false);
    assert!(rt; shows(&copy, 1, 0, 0));
}

/// The numbers that a disk's bytes, the format, its bytes after it and a copy answer: 7 or 0.
fn numbers_of_growths(alloc: Global, disk: &mut G64Disk) -> [u8; 4] {
    [
        number_of(disk.to_bytes(alloc)),
        format_code(disk),
        number_of(disk.to_bytes(alloc)),
        number_of(G64Disk::from_sectors(alloc, disk, ID)),
    ]
}

fn is_growth(number: u8) -> bool {
    number == 0 || number == 7
}

fn is_told(alloc: Global, bytes: &[u8]) -> bool {
    match G64Disk::from_bytes(alloc, bytes, false) {
        Ok(mut disk) => {
            let [kept, format, new, copy] = numbers_of_growths(alloc, &mut disk);
            is_growth(kept) && format == 0 && is_growth(new) && is_growth(copy)
        }
        Err(fault) => fault.number() == 7,
    }
}

/// Under `rt try --test --fail-alloc` with 2 to 7 a growth of `from_bytes`, `to_bytes` or
/// `from_sectors` is the one that is refused, and the answer is number 7 or none.
#[test]
fn want_of_memory_is_number_7(rt: HostRuntime) {
    let bytes = bare(rt.alloc()).expect(&rt, "memory");
    assert!(rt; is_told(rt.alloc(), bytes.as_slice()));
}
