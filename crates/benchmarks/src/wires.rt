mod replies;

use crate::disks::failed;
use crate::images::empty;
use cbm_channel::{Channels, Dos};
use cbm_d64::D64Disk;
use cbm_drive::Line::*;
use cbm_drive::Way::*;
use cbm_drive::{Bus, Change, Desk, Drive, Line, Pace, Party, Player, Way};
use std::alloc::{AllocError, Global};
use std::io;
use std::mem::size_of;
use std::rt::Runtime;
use std::time::Instant;

/// How many bytes are sent, or taken.
const BYTES: u32 = 20_000;

/// From DATA's release to its pull for a byte of a talker that reacts in 20: eight bits, and 50 more.
const BITS: u64 = 20 + 8 * 120 + 50;

/// The same at a KERNAL's pace.
const SLOW_BITS: u64 = 20 + 8 * 160 + 50;

/// A moment after all that is played.
const END: u64 = 1_000_000_000_000;

/// What a host changes, one after the other.
#[derive(Drop)]
struct Host {
    changes: Vec<Change>,
    now: u64,
}

impl Host {
    fn after(&mut self, wait: u64, line: Line, way: Way) -> Result<(), AllocError> {
        self.now = self.now.wrapping_add(wait);
        let moment = self.now;
        self.changes.push(Change { moment, line, way })?;
        Ok(())
    }

    // A byte, 20 for half a bit.
    fn send(&mut self, byte: u8) -> Result<(), AllocError> {
        self.after(200, Clock, Free)?;
        self.after(80, Clock, Pull)?;
        let mut left = byte;
        let mut low = false;
        for _ in 0..8u8 {
            let is_low = left % 2 == 0;
            if is_low != low {
                self.after(0, Data, if is_low { Pull } else { Free })?;
            }
            low = is_low;
            left /= 2;
            self.after(20, Clock, Free)?;
            self.after(20, Clock, Pull)?;
        }
        if low {
            self.after(0, Data, Free)?;
        }
        Ok(())
    }

    fn attention(&mut self, bytes: &[u8]) -> Result<(), AllocError> {
        self.after(200, Atn, Pull)?;
        self.after(0, Clock, Pull)?;
        for byte in bytes {
            self.send(*byte)?;
        }
        Ok(())
    }

    // LISTEN to these devices with a secondary address, and bytes.
    fn listen(&mut self, devices: &[u8], secondary: u8, bytes: &[u8]) -> Result<(), AllocError> {
        self.attention(devices)?;
        self.send(secondary)?;
        self.after(100, Atn, Free)?;
        for byte in bytes {
            self.send(*byte)?;
        }
        self.attention(&[0x3f])?;
        self.after(100, Atn, Free)?;
        self.after(0, Clock, Free)
    }

    // TALK to drive 8 on channel 0, and the turnaround.
    fn talk(&mut self) -> Result<(), AllocError> {
        self.attention(&[0x48, 0x60])?;
        self.after(100, Data, Pull)?;
        self.after(0, Atn, Free)?;
        self.after(20, Clock, Free)
    }

    // So many bytes are taken, whose bits take so long with the accept.
    fn take(&mut self, bytes: u32, bits: u64) -> Result<(), AllocError> {
        for _ in 0..bytes {
            self.after(120, Data, Free)?;
            self.after(bits, Data, Pull)?;
        }
        Ok(())
    }
}

fn at_start(alloc: Global) -> Host {
    let changes = Vec::new(alloc);
    Host { changes, now: 0 }
}

/// A drive with an empty disk.
pub fn drive(
    alloc: Global,
    device: u8,
    reaction: u8,
    pace: Pace,
) -> io::Result<Drive<Desk<D64Disk>>> {
    if device >= 31 || reaction == 0 {
        return Err(failed());
    }
    let disk = empty(alloc)?;
    Ok(Drive::new(
        Desk::new(Dos::new(disk, Channels::new(alloc)?), device).with_pace(pace),
        Party {
            device,
            reaction,
            pace,
        },
    ))
}

// Prints how many events came in a second.
fn rate(rt: &impl Runtime, name: &str, start: &Instant, events: usize) -> io::Result<()> {
    let nanos = start.elapsed(rt)?.as_nanos().max(1);
    let thousands = events as u128 * 1_000_000 / nanos;
    eprintln!(rt; "{name}: {events} events, {thousands} thousand a second")
}

// These changes played at once.
fn plays<const N: usize>(
    rt: &impl Runtime,
    alloc: Global,
    name: &str,
    bus: &mut Bus<Desk<D64Disk>, N>,
    host: &Host,
) -> io::Result<()> {
    let mut events = Vec::with_capacity(alloc, 2_000_000)?;
    let start = Instant::now(rt)?;
    bus.play(host.changes.as_slice(), END, &mut events)
        .map_err(|_| failed())?;
    rate(rt, name, &start, events.len())
}

// The same, each event as soon as it comes.
fn streams(
    rt: &impl Runtime,
    name: &str,
    bus: &mut Bus<Desk<D64Disk>, 1>,
    host: &Host,
) -> io::Result<()> {
    let mut player = Player::new();
    let mut events = 0usize;
    let start = Instant::now(rt)?;
    for change in host.changes.as_slice() {
        if player.waits() || change.moment > END {
            return Err(failed());
        }
        player.offer(*change).map_err(|_| failed())?;
        for _ in 0..100 {
            if player.next(bus, change.moment).is_none() {
                break;
            }
            events = events.wrapping_add(1);
        }
    }
    rate(rt, name, &start, events)
}

// A file is written, byte by byte, and then read.
fn files(alloc: Global, devices: &[u8], bytes: u32, bits: u64) -> io::Result<(Host, Host)> {
    let mut writing = at_start(alloc);
    writing.listen(devices, 0xf2, b"A,S,W")?;
    let body = vec![in alloc; 0x5a; bytes as usize]?;
    writing.listen(devices, 0x62, body.as_slice())?;
    writing.listen(devices, 0xe2, b"")?;
    let mut reading = at_start(alloc);
    reading.now = writing.now.wrapping_add(1000);
    reading.listen(&[0x28], 0xf0, b"A,S,R")?;
    reading.talk()?;
    reading.take(bytes, bits)?;
    Ok((writing, reading))
}

// A bus with one drive, number 8, of a pace.
fn one(alloc: Global, pace: Pace) -> io::Result<Bus<Desk<D64Disk>, 1>> {
    Ok(Bus::new([drive(alloc, 8, 20, pace)?]))
}

// A bus with four drives of unlike reactions.
fn four(alloc: Global) -> io::Result<Bus<Desk<D64Disk>, 4>> {
    let eight = drive(alloc, 8, 1, Pace::Profile)?;
    let nine = drive(alloc, 9, 20, Pace::Profile)?;
    let ten = drive(alloc, 10, 40, Pace::Profile)?;
    let eleven = drive(alloc, 11, 60, Pace::Profile)?;
    Ok(Bus::new([eight, nine, ten, eleven]))
}

// One drive, all changes at once.
fn one_at_once(rt: &impl Runtime, alloc: Global, writing: &Host, reading: &Host) -> io::Result<()> {
    let mut bus = one(alloc, Pace::Profile)?;
    plays(rt, alloc, "one drive listens", &mut bus, writing)?;
    plays(rt, alloc, "one drive talks", &mut bus, reading)
}

// One drive, each event as soon as it comes.
fn one_by_player(
    rt: &impl Runtime,
    alloc: Global,
    writing: &Host,
    reading: &Host,
) -> io::Result<()> {
    let mut bus = one(alloc, Pace::Profile)?;
    streams(rt, "one drive listens, by a player", &mut bus, writing)?;
    streams(rt, "one drive talks, by a player", &mut bus, reading)
}

// One drive at a KERNAL's pace, the same changes: only the bits of the talker last longer.
fn one_for_kernal(rt: &impl Runtime, alloc: Global) -> io::Result<()> {
    let (writing, reading) = files(alloc, &[0x28], BYTES, SLOW_BITS)?;
    let mut bus = one(alloc, Pace::Kernal)?;
    plays(
        rt,
        alloc,
        "one drive listens at a KERNAL's pace",
        &mut bus,
        &writing,
    )?;
    plays(
        rt,
        alloc,
        "one drive talks at a KERNAL's pace",
        &mut bus,
        &reading,
    )?;
    let mut bus = one(alloc, Pace::Kernal)?;
    streams(
        rt,
        "one drive listens at a KERNAL's pace, by a player",
        &mut bus,
        &writing,
    )?;
    streams(
        rt,
        "one drive talks at a KERNAL's pace, by a player",
        &mut bus,
        &reading,
    )
}

// Four drives, all changes at once.
fn four_at_once(rt: &impl Runtime, alloc: Global) -> io::Result<()> {
    let (writing, reading) = files(alloc, &[0x28, 0x29, 0x2a, 0x2b], BYTES / 4, BITS)?;
    let mut bus = four(alloc)?;
    plays(rt, alloc, "four drives listen", &mut bus, &writing)?;
    plays(rt, alloc, "one of four drives talks", &mut bus, &reading)
}

/// Drives with disks over the wires: events a second, the host's and the drives'.
pub fn drives(rt: &impl Runtime, alloc: Global) -> io::Result<()> {
    let size = size_of::<Drive<Desk<D64Disk>>>();
    eprintln!(rt; "a drive with a D64: {size} bytes, and its image")?;
    let (writing, reading) = files(alloc, &[0x28], BYTES, BITS)?;
    one_at_once(rt, alloc, &writing, &reading)?;
    one_by_player(rt, alloc, &writing, &reading)?;
    one_for_kernal(rt, alloc)?;
    four_at_once(rt, alloc)?;
    replies::lines(rt, alloc)
}
