use crate::disks::{failed, report};
use crate::images::{circles, empty, g64};
use crate::writes::{command, succeeded};
use cbm_channel::{Channels, Dos};
use cbm_medium::Medium;
use std::alloc::Global;
use std::io;
use std::rt::Runtime;
use std::time::Instant;

/// The records of the file: each fills a block, and the disk is full.
const RECORDS: u16 = 658;

/// How often a record is read, and written.
const TIMES: u8 = 100;

/// The bytes of a record.
const LENGTH: u32 = 254;

/// A relative file of 658 records of 254 bytes grows over a whole disk at once; then its first, middle and last records are
/// read and written in place, each with its P: on a D64, and on a G64.
pub fn files(rt: &impl Runtime, alloc: Global) -> io::Result<()> {
    let disk = empty(alloc)?;
    let file = circles(alloc, &disk)?;
    eprintln!(rt; "Records on a D64:")?;
    records(rt, alloc, disk)?;
    eprintln!(rt; "Records on a G64:")?;
    records(rt, alloc, g64(alloc, file.as_slice())?)
}

fn records<M: Medium + Drop>(rt: &impl Runtime, alloc: Global, medium: M) -> io::Result<()> {
    let mut dos = Dos::new(medium, Channels::new(alloc)?);
    dos.open(2, b"REL,L,\xfe");
    succeeded(&dos, 0)?;
    seek(&mut dos, RECORDS);
    succeeded(&dos, 50)?;
    let start = Instant::now(rt)?;
    write(&mut dos, 0);
    report(
        rt,
        "a block of a file that grows to 658",
        &start,
        u32::from(RECORDS),
    )?;
    for (reading, writing, number) in &[
        ("P to record 1", "the same, and 254 bytes put", 1),
        ("P to record 329", "the same, and 254 bytes put", 329),
        ("P to record 658", "the same, and 254 bytes put", RECORDS),
    ] {
        read(rt, &mut dos, reading, *number)?;
        rewrite(rt, &mut dos, writing, *number)?;
    }
    Ok(())
}

/// One record is read, many times: P reads it.
fn read<M: Medium>(rt: &impl Runtime, dos: &mut Dos<M>, name: &str, number: u16) -> io::Result<()> {
    let start = Instant::now(rt)?;
    for _ in 0..TIMES {
        seek(dos, number);
    }
    report(rt, name, &start, u32::from(TIMES))?;
    succeeded(dos, 0)
}

/// One record is written in place, many times.
fn rewrite<M: Medium>(
    rt: &impl Runtime,
    dos: &mut Dos<M>,
    name: &str,
    number: u16,
) -> io::Result<()> {
    let start = Instant::now(rt)?;
    for turn in 0..TIMES {
        seek(dos, number);
        write(dos, turn);
    }
    report(rt, name, &start, u32::from(TIMES))?;
    seek(dos, number);
    if dos.peek(2) == Some((TIMES, false)) {
        Ok(())
    } else {
        Err(failed())
    }
}

/// P to the first byte of a record.
fn seek<M: Medium>(dos: &mut Dos<M>, number: u16) {
    let [low, high] = number.to_le_bytes();
    command(dos, &[b'P', 98, low, high, 1]);
}

/// A whole record is put; it begins with this byte above 0.
fn write<M: Medium>(dos: &mut Dos<M>, turn: u8) {
    dos.listen(2);
    dos.put(2, turn.wrapping_add(1));
    for _ in 1..LENGTH {
        dos.put(2, 65);
    }
    dos.end_put(2);
}
