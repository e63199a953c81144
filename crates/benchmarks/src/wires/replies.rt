//! A host that talks line by line.

use super::drive;
use crate::disks::{failed, report};
use crate::scripts::Nowhere;
use bus_replies::{LineReader, reply};
use cbm_drive::Pace;
use drive_replies::HostedBus;
use std::alloc::Global;
use std::io;
use std::io::Write;
use std::rt::Runtime;
use std::time::Instant;

/// How many lines a host says that lets time go by.
const LINES: u32 = 1_000_000;

/// How often a host pulls ATN, and frees it again.
const PAIRS: u32 = 100_000;

/// Lines of a host that lets time go by.
fn waiting(alloc: Global) -> io::Result<Vec<u8>> {
    let mut text: Vec<u8> = Vec::new(alloc);
    for moment in 0..LINES {
        writeln!(text, "until {moment}")?;
    }
    Ok(text)
}

/// Four lines for each pair: of a host that pulls ATN and frees it again, and waits for each reaction.
fn pulling(alloc: Global) -> io::Result<Vec<u8>> {
    let mut text: Vec<u8> = Vec::new(alloc);
    let mut moment: u64 = 0;
    for _ in 0..PAIRS {
        moment = moment.wrapping_add(1000);
        writeln!(text, "{moment} atn pull")?;
        moment = moment.wrapping_add(500);
        writeln!(text, "until {moment}")?;
        moment = moment.wrapping_add(500);
        writeln!(text, "{moment} atn free")?;
        moment = moment.wrapping_add(500);
        writeln!(text, "until {moment}")?;
    }
    Ok(text)
}

/// Prints the time of a line.
fn answered(
    rt: &impl Runtime,
    alloc: Global,
    name: &str,
    text: &[u8],
    lines: u32,
) -> io::Result<()> {
    let mut bus = HostedBus::new([drive(alloc, 8, 20, Pace::Profile)?]);
    let mut host = LineReader::new(text);
    let start = Instant::now(rt)?;
    let ended = reply(&mut bus, &mut host, &mut Nowhere);
    report(rt, name, &start, lines)?;
    ended.map_err(|_| failed())
}

/// Lines of a host that writes ahead.
pub fn lines(rt: &impl Runtime, alloc: Global) -> io::Result<()> {
    let text = waiting(alloc)?;
    answered(
        rt,
        alloc,
        "a line of a host that waits",
        text.as_slice(),
        LINES,
    )?;
    let text = pulling(alloc)?;
    let name = "a line of a host that changes ATN";
    answered(rt, alloc, name, text.as_slice(), PAIRS * 4)
}
