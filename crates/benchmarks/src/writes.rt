use crate::circles::turn_tracks;
use crate::disks::{failed, report};
use crate::images::{circles, empty, g64};
use cbm_channel::{Channels, Dos};
use cbm_medium::Medium;
use std::alloc::Global;
use std::io;
use std::rt::Runtime;
use std::time::Instant;

/// The bytes of a file of 664 blocks.
const LARGEST: u32 = 168_656;

/// The bytes of a file of 332 blocks, half of a disk.
const HALF: u32 = 84_328;

/// How often a disk of many files is validated.
const VALIDATIONS: u32 = 100;

/// A file of 664 blocks written byte by byte to an empty disk through `Dos`, and scratched: a D64, a G64, and a G64 whose blocks begin inside bytes.
pub fn files(rt: &impl Runtime, alloc: Global) -> io::Result<()> {
    let disk = empty(alloc)?;
    let mut file = circles(alloc, &disk)?;
    write(
        rt,
        alloc,
        "Dos, a byte of a file of 664 blocks written",
        disk,
    )?;
    write(rt, alloc, "the same on a G64", g64(alloc, file.as_slice())?)?;
    turn_tracks(file.as_mut_slice());
    let turned = g64(alloc, file.as_slice())?;
    write(rt, alloc, "the same, each track turned by 3 bits", turned)
}

/// The time of a byte, with OPEN and CLOSE in it; then of the command S.
fn write<M: Medium + Drop>(
    rt: &impl Runtime,
    alloc: Global,
    name: &str,
    medium: M,
) -> io::Result<()> {
    let mut dos = Dos::new(medium, Channels::new(alloc)?);
    let start = Instant::now(rt)?;
    store(&mut dos, b"BIG", LARGEST);
    report(rt, name, &start, LARGEST)?;
    succeeded(&dos, 0)?;
    let start = Instant::now(rt)?;
    command(&mut dos, b"S0:BIG");
    report(rt, "S of that file", &start, 1)?;
    succeeded(&dos, 1)
}

/// A program of so many bytes is written, with OPEN and CLOSE.
pub fn store<M: Medium>(dos: &mut Dos<M>, name: &[u8], bytes: u32) {
    dos.open(1, name);
    for _ in 0..bytes {
        dos.put(1, 65);
    }
    dos.close(1);
}

/// A command is sent.
pub fn command<M: Medium>(dos: &mut Dos<M>, text: &[u8]) {
    dos.open(15, text);
}

/// Whether the drive's status is this one.
pub fn succeeded<M: Medium>(dos: &Dos<M>, code: u8) -> io::Result<()> {
    if dos.status_code() == code {
        Ok(())
    } else {
        Err(failed())
    }
}

/// A disk with 144 files of one block is validated.
pub fn validations(rt: &impl Runtime, alloc: Global) -> io::Result<()> {
    let mut dos = Dos::new(empty(alloc)?, Channels::new(alloc)?);
    for number in 0..144u8 {
        store(&mut dos, &[b'F', 65 + number / 12, 65 + number % 12], 1);
        succeeded(&dos, 0)?;
    }
    let start = Instant::now(rt)?;
    for _ in 0..VALIDATIONS {
        command(&mut dos, b"V0");
    }
    report(rt, "V of a D64 with 144 files", &start, VALIDATIONS)?;
    succeeded(&dos, 0)
}

/// A file of 332 blocks is written, and then copied: the time of a byte of each.
pub fn copies(rt: &impl Runtime, alloc: Global) -> io::Result<()> {
    let mut dos = Dos::new(empty(alloc)?, Channels::new(alloc)?);
    let start = Instant::now(rt)?;
    store(&mut dos, b"HALF", HALF);
    report(
        rt,
        "Dos, a byte of a file of 332 blocks written",
        &start,
        HALF,
    )?;
    succeeded(&dos, 0)?;
    let start = Instant::now(rt)?;
    command(&mut dos, b"C0:COPY=HALF");
    report(rt, "a byte of its copy by C", &start, HALF)?;
    succeeded(&dos, 0)
}
