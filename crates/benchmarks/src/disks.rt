ghost use Rattle.std.specs.Prelude.{◌≤◌};

use crate::images::d64;
use cbm_chain::ChainReader;
use cbm_medium::{Address, Geometry, Link, Medium, sectors_of};
use std::alloc::Global;
use std::io;
use std::rt::Runtime;
use std::time::Instant;

/// How often each call is timed.
const TIMES: u32 = 200;

/// The last turn of those that change the disk before they read it.
const TURNS: u8 = 199;

/// The bytes of a D64 image.
const IMAGE: usize = 174_848;

pub fn failed() -> io::Error {
    io::Error::from(io::ErrorKind::Other)
}

/// Prints the time of one of so many turns.
pub fn report(rt: &impl Runtime, name: &str, start: &Instant, turns: u32) -> io::Result<()> {
    let nanos = start.elapsed(rt)?.as_nanos();
    let each = nanos / turns.max(1) as u128;
    eprintln!(rt; "{name}: {each} ns")
}

/// A plain copy of an image's bytes, to compare with.
pub fn copies(rt: &impl Runtime, alloc: Global) -> io::Result<()> {
    let image = vec![in alloc; 1; IMAGE]?;
    let start = Instant::now(rt)?;
    let mut sum = 0usize;
    for _ in 0..TIMES {
        let copy = image.clone()?;
        sum = sum.wrapping_add(copy.len());
    }
    report(rt, "a copy of 174,848 bytes", &start, TIMES)?;
    if sum == 0 { Err(failed()) } else { Ok(()) }
}

/// A D64 image read, given back, and each of its sectors read.
pub fn images(rt: &impl Runtime, alloc: Global) -> io::Result<()> {
    let image = vec![in alloc; 0; IMAGE]?;
    let start = Instant::now(rt)?;
    for _ in 0..TIMES {
        let _disk = d64(alloc, image.as_slice())?;
    }
    report(rt, "D64Disk::from_bytes", &start, TIMES)?;
    let mut disk = d64(alloc, image.as_slice())?;
    let start = Instant::now(rt)?;
    for _ in 0..TIMES {
        if disk.to_bytes(alloc).is_err() {
            return Err(failed());
        }
    }
    report(rt, "D64Disk::to_bytes", &start, TIMES)?;
    let start = Instant::now(rt)?;
    let mut sum = 0u32;
    for turn in 0..=TURNS {
        stamp(&mut disk, turn);
        sum = sum.wrapping_add(sum_of_all(&disk));
    }
    report(
        rt,
        "D64Disk::read of 683 sectors, a write before",
        &start,
        TURNS as u32 + 1,
    )?;
    if sum == 0 { Err(failed()) } else { Ok(()) }
}

/// Fills 18/0, so that each turn reads another disk.
pub fn stamp<M: Medium>(disk: &mut M, byte: u8) {
    let at = Address::of_map();
    if at.track() <= disk.tracks() {
        let _ = disk.write(at, &[byte; 256]);
    }
}

/// The sum of the first bytes of all sectors.
pub fn sum_of_all<M: Medium>(disk: &M) -> u32 {
    let mut sum = 0u32;
    for track in 1..36u8 {
        for sector in 0..sectors_of(track) {
            if let Some(at) = Address::new(track, sector)
                && at.track() <= disk.tracks()
                && let Ok(bytes) = disk.read(at)
            {
                sum = sum.wrapping_add(bytes[0] as u32);
            }
        }
    }
    sum
}

/// A chain of 664 blocks, each linking to the next, read byte by byte.
pub fn chains(rt: &impl Runtime, alloc: Global) -> io::Result<()> {
    let mut image = vec![in alloc; 1; IMAGE]?;
    link_all(&mut image);
    let disk = d64(alloc, image.as_slice())?;
    let start = Instant::now(rt)?;
    let mut count = 0u32;
    for _ in 0..10 {
        count = count.wrapping_add(bytes_of_chain(&disk));
    }
    report(rt, "ChainReader, a byte", &start, count)
}

/// Links each sector of 664 to the next.
fn link_all(image: &mut Vec<u8>) {
    let mut place = 0usize;
    for track in 1..36u8 {
        for sector in 0..sectors_of(track) {
            let next = if sector.wrapping_add(1) < sectors_of(track) {
                (track, sector.wrapping_add(1))
            } else {
                (track.wrapping_add(1), 0)
            };
            let last = place >= 663 * 256;
            if let Some(first) = image.get_mut(place) {
                *first = if last { 0 } else { next.0 };
            }
            if let Some(second) = image.get_mut(place.wrapping_add(1)) {
                *second = if last { 255 } else { next.1 };
            }
            place = place.wrapping_add(256);
        }
    }
}

/// How many bytes the chain from 1/0 has.
fn bytes_of_chain<M: Medium>(disk: &M) -> u32 {
    let geometry = Geometry::of_35();
    if disk.tracks() < geometry.tracks() {
        return 0;
    }
    let Ok(mut reader) = ChainReader::open(disk, geometry, Link::new(1, 0)) else {
        return 0;
    };
    let mut count = 0u32;
    'bytes: for _ in 0..200_000u32 {
        if reader.peek().is_none() {
            return count;
        }
        count = count.wrapping_add(1);
        if reader.taken(disk).is_err() {
            return count;
        }
    }
    count
}
