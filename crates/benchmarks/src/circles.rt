use crate::disks::{failed, report, stamp, sum_of_all};
use crate::images::{circles, d64, g64};
use cbm_g64::G64Disk;
use cbm_sector::track_bytes;
use std::alloc::Global;
use std::io;
use std::rt::Runtime;
use std::time::Instant;

/// How often each call is timed.
const TIMES: u32 = 10;

/// How often a sector is written.
const WRITES: u32 = 1_000;

/// The bytes of a D64 image.
const IMAGE: usize = 174_848;

/// A G64 image made of zeros, read again, each of its sectors read, one written, and each sector
/// read where the blocks begin inside bytes.
pub fn images(rt: &impl Runtime, alloc: Global) -> io::Result<()> {
    let mut file = made(rt, alloc)?;
    let start = Instant::now(rt)?;
    for _ in 0..TIMES {
        let _disk = g64(alloc, file.as_slice())?;
    }
    report(rt, "G64Disk::from_bytes", &start, TIMES)?;
    let mut disk = g64(alloc, file.as_slice())?;
    let start = Instant::now(rt)?;
    for _ in 0..WRITES {
        stamp(&mut disk, 1);
    }
    report(rt, "G64Disk::write of 18/0", &start, WRITES)?;
    read_all(rt, "G64Disk::read of 683 sectors", &disk)?;
    turn_tracks(file.as_mut_slice());
    let mut turned = g64(alloc, file.as_slice())?;
    let start = Instant::now(rt)?;
    for _ in 0..WRITES {
        stamp(&mut turned, 1);
    }
    report(
        rt,
        "the same write, each track turned by 3 bits",
        &start,
        WRITES,
    )?;
    read_all(rt, "the same reads, each track turned by 3 bits", &turned)
}

/// The time of reading all sectors.
fn read_all(rt: &impl Runtime, name: &str, disk: &G64Disk) -> io::Result<()> {
    let start = Instant::now(rt)?;
    let mut sum = 0u32;
    for _ in 0..TIMES {
        sum = sum.wrapping_add(sum_of_all(disk));
    }
    report(rt, name, &start, TIMES)?;
    if sum == 0 { Err(failed()) } else { Ok(()) }
}

/// Turns each track of a new file by three bits.
pub fn turn_tracks(file: &mut [u8]) {
    for i in 0..35usize {
        let size = track_bytes(i as u8 + 1) as usize;
        let start = 686 + 7930 * i;
        if start + size <= file.len() {
            turn(&mut file[start..start + size]);
        }
    }
}

/// Turns a circle of bytes by three bits.
fn turn(bytes: &mut [u8]) {
    let count = bytes.len();
    let mut first = 0;
    for i in 0..count {
        if i == 0 {
            first = bytes[0];
        }
        let next = if i + 1 < count { bytes[i + 1] } else { first };
        bytes[i] = bytes[i] << 3 | next >> 5;
    }
}

/// The G64 image of a D64 image of zeros, and the time that it takes.
fn made(rt: &impl Runtime, alloc: Global) -> io::Result<Vec<u8>> {
    let image = vec![in alloc; 0; IMAGE]?;
    let disk = d64(alloc, image.as_slice())?;
    let start = Instant::now(rt)?;
    for _ in 0..TIMES {
        let _file = circles(alloc, &disk)?;
    }
    report(rt, "G64Disk::from_sectors", &start, TIMES)?;
    circles(alloc, &disk)
}
