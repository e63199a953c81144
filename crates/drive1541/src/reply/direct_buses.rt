//! One to four drives with direct access, and the talk with their host. (A bus has one type of machine.)
ghost use Rattle.std.specs.Prelude.{◌≡◌, None};

use super::failure::ReplyFailure;
use super::seat::Seat;
use bus_replies::{LineReader, reply};
use cbm_bus::{Channels, Drive, Party};
use cbm_direct_desk::{Access, DirectDesk, drive_with, into_disk};
use cbm_image::AnyDisk;
use drive_replies::HostedBus;
use std::io;
use std::io::{BufWriter, Write};

/// A drive with direct access and its disk.
type DiskDrive = Drive<DirectDesk<AnyDisk>>;

/// A drive that is switched off, and the disk in it.
#[derive(Drop)]
struct Unit {
    disk: AnyDisk,
    channels: Channels,
    party: Party,
    access: Access,
}

impl Unit {
    /// The drive as it is switched on; its number is below 31, and its reaction above 0.
    fn switch_on(self) -> DiskDrive {
        let Unit {
            disk,
            channels,
            party,
            access,
        } = self;
        let party = Party {
            device: party.device.clamp(8, 11),
            reaction: party.reaction.clamp(1, 60),
            pace: party.pace,
        };
        drive_with(disk, channels, party, access)
    }
}

/// Talks with the host of a bus on which nothing has happened yet.
fn talk<const N: usize>(
    rt: &HostRuntime,
    bus: &mut HostedBus<DirectDesk<AnyDisk>, N>,
) -> Result<(), ReplyFailure>
    requires none { bus.old.player.waiting ≡ None }
    requires start { bus.old.player.from ≡ 0 }
{
    let mut output = BufWriter::new(rt.alloc(), io::writer(rt)).map_err(
        |_| ReplyFailure::NoMemory,
    )?;
    let ended = reply(bus, &mut LineReader::new(rt.reader()), &mut output);
    let _ = output.flush();
    ended.map_err(ReplyFailure::of_talk)
}

/// Adds a drive's disk.
fn add_disk(disks: &mut Vec<AnyDisk>, drive: DiskDrive) -> Result<(), ReplyFailure> {
    disks
        .push(into_disk(drive))
        .map_err(|_| ReplyFailure::NoMemory)
}

// (An array's size must be known where its drives are taken out one by one.)

fn of_one(rt: &HostRuntime, drives: [DiskDrive; 1]) -> Result<Vec<AnyDisk>, ReplyFailure> {
    let mut disks = Vec::new(rt.alloc());
    for drive in drives {
        add_disk(&mut disks, drive)?;
    }
    Ok(disks)
}

fn of_two(rt: &HostRuntime, drives: [DiskDrive; 2]) -> Result<Vec<AnyDisk>, ReplyFailure> {
    let mut disks = Vec::new(rt.alloc());
    for drive in drives {
        add_disk(&mut disks, drive)?;
    }
    Ok(disks)
}

fn of_three(rt: &HostRuntime, drives: [DiskDrive; 3]) -> Result<Vec<AnyDisk>, ReplyFailure> {
    let mut disks = Vec::new(rt.alloc());
    for drive in drives {
        add_disk(&mut disks, drive)?;
    }
    Ok(disks)
}

fn of_four(rt: &HostRuntime, drives: [DiskDrive; 4]) -> Result<Vec<AnyDisk>, ReplyFailure> {
    let mut disks = Vec::new(rt.alloc());
    for drive in drives {
        add_disk(&mut disks, drive)?;
    }
    Ok(disks)
}

// A drive takes some kilobytes of stack each time that it is moved, so these four move it no more than they must.

fn one(rt: &HostRuntime, a: Unit) -> Result<Vec<AnyDisk>, ReplyFailure> {
    let mut bus = HostedBus::new([a.switch_on()]);
    talk(rt, &mut bus)?;
    of_one(rt, bus.into_drives())
}

fn two(rt: &HostRuntime, a: Unit, b: Unit) -> Result<Vec<AnyDisk>, ReplyFailure> {
    let mut bus = HostedBus::new([a.switch_on(), b.switch_on()]);
    talk(rt, &mut bus)?;
    of_two(rt, bus.into_drives())
}

fn three(rt: &HostRuntime, a: Unit, b: Unit, c: Unit) -> Result<Vec<AnyDisk>, ReplyFailure> {
    let mut bus = HostedBus::new([a.switch_on(), b.switch_on(), c.switch_on()]);
    talk(rt, &mut bus)?;
    of_three(rt, bus.into_drives())
}

fn four(
    rt: &HostRuntime,
    a: Unit,
    b: Unit,
    c: Unit,
    d: Unit,
) -> Result<Vec<AnyDisk>, ReplyFailure> {
    let mut bus = HostedBus::new([a.switch_on(), b.switch_on(), c.switch_on(), d.switch_on()]);
    talk(rt, &mut bus)?;
    of_four(rt, bus.into_drives())
}

/// The drives with these disks.
fn units_of(
    rt: &HostRuntime,
    disks: Vec<AnyDisk>,
    seats: &[Seat<'_>],
    access: Access,
) -> Result<Vec<Unit>, ReplyFailure> {
    let mut units = Vec::new(rt.alloc());
    for (disk, seat) in disks.into_iter().zip(seats) {
        let unit = Unit {
            disk,
            channels: Channels::new(rt.alloc()).map_err(|_| ReplyFailure::NoMemory)?,
            party: seat.party,
            access,
        };
        units.push(unit).map_err(|_| ReplyFailure::NoMemory)?;
    }
    Ok(units)
}

/// Talks with the host of the drives with these disks, and gives the disks with what was written to them.
pub fn talk_directly_on(
    rt: &HostRuntime,
    disks: Vec<AnyDisk>,
    seats: &[Seat<'_>],
    access: Access,
) -> Result<Vec<AnyDisk>, ReplyFailure> {
    let mut units = units_of(rt, disks, seats, access)?.into_iter();
    match (units.next(), units.next(), units.next(), units.next()) {
        (Some(a), None, None, None) => one(rt, a),
        (Some(a), Some(b), None, None) => two(rt, a, b),
        (Some(a), Some(b), Some(c), None) => three(rt, a, b, c),
        (Some(a), Some(b), Some(c), Some(d)) => four(rt, a, b, c, d),
        _ => Ok(Vec::new(rt.alloc())),
    }
}
