use super::disks::{format_code, read_code, write_code};
use cbm_d64::{D64Disk, D64Fault};
use cbm_medium::{Failing, Medium};
use std::alloc::Global;
use std::process::Abort;

/// Where the sector 17/0 stands among the 683, and its error byte after them.
const FIRST: usize = 336;

const ERROR: usize = 174_848 + FIRST;

fn zeros(rt: &impl Abort, alloc: Global, bytes: usize) -> Vec<u8> {
    vec![in alloc; 0; bytes].ok().expect(rt, "memory")
}

fn opened(rt: &impl Abort, alloc: Global, bytes: &[u8], protected: bool) -> D64Disk {
    D64Disk::from_bytes(alloc, bytes, protected)
        .ok()
        .expect(rt, "a disk")
}

/// A disk of 35 tracks of zeros.
fn blank(rt: &impl Abort, alloc: Global, protected: bool) -> D64Disk {
    opened(rt, alloc, zeros(rt, alloc, 174_848).as_slice(), protected)
}

fn saved(rt: &impl Abort, alloc: Global, disk: &D64Disk) -> Vec<u8> {
    disk.to_bytes(alloc).ok().expect(rt, "an image")
}

fn is_saved(rt: &impl Abort, alloc: Global, disk: &D64Disk, image: &[u8]) -> bool {
    saved(rt, alloc, disk).as_slice() == image
}

/// The byte of an image at a place.
fn byte_at(image: &[u8], place: usize) -> u8 {
    match image.get(place) {
        Some(byte) => *byte,
        None => 255,
    }
}

/// The error byte of 17/0, and its last byte.
fn bytes_of(image: &[u8]) -> [u8; 2] {
    [byte_at(image, ERROR), byte_at(image, 256 * FIRST + 255)]
}

fn bytes_saved(rt: &impl Abort, alloc: Global, disk: &D64Disk) -> [u8; 2] {
    bytes_of(saved(rt, alloc, disk).as_slice())
}

/// Whether an image is refused for its size.
fn is_size_refused(alloc: Global, image: &[u8]) -> bool {
    matches!(
        D64Disk::from_bytes(alloc, image, false),
        Err(D64Fault::Size)
    )
}

/// Whether an image is taken as a disk of so many tracks, and given back as long as it is.
fn is_image(rt: &impl Abort, alloc: Global, image: &[u8], tracks: u8) -> bool {
    let disk = opened(rt, alloc, image, false);
    disk.tracks() == tracks && saved(rt, alloc, &disk).len() == image.len()
}

#[test]
fn three_sizes_are_images(rt: HostRuntime) {
    let alloc = rt.alloc();
    for size in [0, 174_847, 174_849, 175_530, 175_532, 196_607, 197_376] {
        assert!(rt; is_size_refused(alloc, zeros(&rt, alloc, size).as_slice()));
    }
    for (size, tracks) in [(174_848, 35), (175_531, 35), (196_608, 40)] {
        assert!(rt; is_image(&rt, alloc, zeros(&rt, alloc, size).as_slice(), tracks));
    }
}

/// What each error byte answers to a read and to a write, and what it is after a write (the D64 format's table).
const ERROR_BYTES: [[u8; 4]; 17] = [
    [0, 0, 0, 0],
    [1, 0, 0, 1],
    [2, 20, 20, 2],
    [3, 21, 21, 3],
    [4, 22, 0, 1],
    [5, 23, 0, 1],
    [6, 24, 0, 1],
    [7, 0, 0, 7],
    [8, 0, 0, 8],
    [9, 27, 27, 9],
    [10, 0, 0, 10],
    [11, 29, 29, 11],
    [12, 0, 0, 12],
    [13, 0, 0, 13],
    [14, 0, 0, 14],
    [15, 0, 0, 15],
    [255, 0, 0, 255],
];

fn with_error(rt: &impl Abort, alloc: Global, byte: u8) -> Vec<u8> {
    let mut image = vec![in alloc; 1; 175_531].ok().expect(rt, "memory");
    for (place, at) in image.as_mut_slice().iter_mut().enumerate() {
        if place <= ERROR {
            *at = if place == ERROR { byte } else { 0 };
        }
    }
    image
}

/// What the error byte answers: the codes of a read, of a read of the sector beside it and of a write, the error byte
/// and the last byte after the write, the code of a format, and both bytes after it.
fn answers(rt: &impl Abort, alloc: Global, disk: &mut D64Disk) -> [u8; 8] {
    let first = read_code(disk, 17, 0);
    let beside = read_code(disk, 17, 1);
    let written = write_code(disk, 17, 0, 7);
    let [after, last] = bytes_saved(rt, alloc, disk);
    let format = format_code(disk);
    let [new, zero] = bytes_saved(rt, alloc, disk);
    [first, beside, written, after, last, format, new, zero]
}

fn try_error_byte(rt: &impl Abort, alloc: Global, image: &[u8], row: [u8; 4]) {
    let mut disk = opened(rt, alloc, image, false);
    assert!(rt; is_saved(rt, alloc, &disk, image));
    let [_, read, write, after] = row;
    let last = if write == 0 { 7 } else { 0 };
    assert!(rt; answers(rt, alloc, &mut disk) == [read, 0, write, after, last, 0, 1, 0]);
}

#[test]
fn error_bytes_are_faults(rt: HostRuntime) {
    for row in ERROR_BYTES {
        let image = with_error(&rt, rt.alloc(), row[0]);
        try_error_byte(&rt, rt.alloc(), image.as_slice(), row);
    }
}

/// Whether the disk is protected, and the codes of two writes and of a format.
fn codes_of_protected(disk: &mut D64Disk) -> [u8; 4] {
    [
        disk.protected() as u8,
        write_code(disk, 17, 0, 7),
        write_code(disk, 1, 0, 7),
        format_code(disk),
    ]
}

fn protect(rt: &impl Abort, alloc: Global, image: &[u8]) {
    let mut disk = opened(rt, alloc, image, true);
    assert!(rt; codes_of_protected(&mut disk) == [1, 26, 26, 26]);
    assert!(rt; is_saved(rt, alloc, &disk, image));
}

#[test]
fn a_protected_disk_refuses(rt: HostRuntime) {
    protect(&rt, rt.alloc(), with_error(&rt, rt.alloc(), 2).as_slice());
}

/// The image of 40 tracks in which a sector is written.
fn written(rt: &impl Abort, alloc: Global, track: u8, sector: u8) -> Vec<u8> {
    let mut disk = opened(rt, alloc, zeros(rt, alloc, 196_608).as_slice(), false);
    assert!(rt; write_code(&mut disk, track, sector, 9) == 0);
    saved(rt, alloc, &disk)
}

/// In which sector of an image the first byte stands that isn't 0 but 9.
fn sector_of_9(image: &[u8]) -> Option<usize> {
    for (place, byte) in image.iter().enumerate() {
        if *byte == 9 {
            return Some(place / 256);
        }
    }
    None
}

#[test]
fn sectors_are_where_the_format_has_them(rt: HostRuntime) {
    for (track, sector, place) in [
        (1, 0, 0),
        (17, 20, 356),
        (18, 0, 357),
        (24, 18, 489),
        (25, 0, 490),
        (30, 17, 597),
        (31, 0, 598),
        (35, 16, 682),
        (36, 0, 683),
        (40, 16, 767),
    ] {
        let image = written(&rt, rt.alloc(), track, sector);
        assert!(rt; sector_of_9(image.as_slice()) == Some(place));
    }
}

/// After how many writes a medium fails, whether it goes on failing, what four writes answer, and how many fail.
const FAILING: [(u32, bool, [u8; 4], u64); 4] = [
    (0, false, [25, 0, 0, 0], 1),
    (1, false, [0, 25, 0, 0], 1),
    (2, true, [0, 0, 25, 25], 2),
    (0, true, [25, 25, 25, 25], 4),
];

fn codes_of_writes<M: Medium>(disk: &mut M) -> [u8; 4] {
    [
        write_code(disk, 17, 0, 1),
        write_code(disk, 17, 0, 1),
        write_code(disk, 17, 0, 1),
        write_code(disk, 17, 0, 1),
    ]
}

/// The failures that are counted, and those of the disk inside.
fn failures_of(disk: Failing<D64Disk>) -> (u64, u64) {
    let all = disk.failures();
    (all, disk.into_inner().failures())
}

#[test]
fn a_failing_medium_refuses_in_time(rt: HostRuntime) {
    for (after, all, codes, failures) in FAILING {
        let mut disk = Failing::new(blank(&rt, rt.alloc(), false), after, all);
        assert!(rt; codes_of_writes(&mut disk) == codes);
        assert!(rt; failures_of(disk) == (failures, 0));
    }
}

#[test]
fn a_failing_medium_refuses_a_format(rt: HostRuntime) {
    for (protected, code, failures) in [(false, 25, 1), (true, 26, 0)] {
        let mut disk = Failing::new(blank(&rt, rt.alloc(), protected), 0, true);
        assert!(rt; format_code(&mut disk) == code);
        assert!(rt; failures_of(disk) == (failures, 0));
    }
}

/// Whether an answer other than the right one is want of memory.
fn is_told(alloc: Global, image: &[u8]) -> bool {
    match D64Disk::from_bytes(alloc, image, false) {
        Ok(disk) => matches!(disk.to_bytes(alloc), Ok(_) | Err(D64Fault::Memory)),
        Err(fault) => fault == D64Fault::Memory,
    }
}

/// Under `rt try --test --fail-alloc 2` and `3` the allocation of `from_bytes` and of `to_bytes` is the one that is
/// refused.
#[test]
fn want_of_memory_is_told_as_such(rt: HostRuntime) {
    let image = zeros(&rt, rt.alloc(), 174_848);
    assert!(rt; is_told(rt.alloc(), image.as_slice()));
}
