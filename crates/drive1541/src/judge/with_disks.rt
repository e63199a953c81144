//! `judge --disk`: whether a host keeps the timing loosely, and its drives do what drives with these disks do. That is decided by
//! bus_beside, whose yes is proved.

use super::{
    BY_DRIVE, BY_HOST, SESSION, UNASKED, UNREAD, status_of_fault, tell_fault, tell_stream,
};
use crate::failure::tell_too_long;
use crate::reason::{NO_IMAGE, image_words};
use crate::returns::Returns;
use bus_beside::{Amiss, Loosely, Seat, Unkept};
use bus_judge::{NotABus, line_name, way_name};
use bus_traces::{Told, Traces};
use cbm_bus::{Channels, Desk, Party};
use cbm_iec::{Event, Who};
use cbm_image::{AnyDisk, ImageFault};
use disk_facts::{NotImage, not_image};
use host_files::{GREATEST_IMAGE, read_file};
use judge_report::ReportFault;
use std::alloc::{AllocError, Global};
use std::io::{BufReader, Read};
use std::{fs, io};

/// A drive beside itself under a tidy host.
type DiskSeat = Seat<Desk<AnyDisk>>;

/// What came of a trace.
enum Found {
    /// Up to this moment, in microseconds, the host keeps the timing loosely, and the drives do what they must.
    Kept(u64),
    /// From this event on nothing is known, and why.
    Broken(Event, Unkept),
    /// The trace ends at this moment, and something is due by then.
    Overdue(u64, Unkept),
    /// The trace has the wires alone.
    Wires,
}

/// Why an image isn't opened.
enum Refusal {
    /// Its format has the fault of this number, and that in words.
    Format(u8, &'static str),
    /// It is not an image of a 1541's disk, and why.
    Foreign(NotImage),
    /// Memory ran out.
    Memory,
}

/// The disk of an image.
fn opened(alloc: Global, image: &[u8]) -> Result<AnyDisk, Refusal> {
    if let Some(why) = not_image(image) {
        return Err(Refusal::Foreign(why));
    }
    match AnyDisk::open(alloc, image, false) {
        Ok(disk) => Ok(disk),
        Err(ImageFault::Format(number)) => Err(Refusal::Format(number, image_words(number))),
        Err(ImageFault::Memory) => Err(Refusal::Memory),
    }
}

/// Reads the disk of an image, or says why it can't.
fn read_disk(rt: &HostRuntime, name: &str) -> Option<AnyDisk> {
    let read = fs::open(rt, name).and_then(|file| read_file(rt.alloc(), file, GREATEST_IMAGE));
    let _ = match read {
        Ok(Some(image)) => match opened(rt.alloc(), image.as_slice()) {
            Ok(disk) => return Some(disk),
            Err(Refusal::Format(number, why)) => {
                eprintln!(rt; "image refused: {name}: {number}: {why}")
            }
            Err(Refusal::Foreign(why)) => {
                let what = why.words();
                eprintln!(rt; "image refused: {name}: {NO_IMAGE}: it is {what}")
            }
            Err(Refusal::Memory) => eprintln!(rt; "no memory"),
        },
        Ok(None) => tell_too_long(rt, name),
        Err(error) => {
            let kind = error.kind();
            eprintln!(rt; "file fault: {name}: {kind}")
        }
    };
    None
}

/// A drive with a disk, as it is switched on.
// (A number that isn't 8 to 11 is clamped here for `at_power_up` alone: `Loosely::new` refuses it.)
fn seat(alloc: Global, disk: AnyDisk, party: Party) -> Result<DiskSeat, AllocError> {
    let channels = Channels::new(alloc)?;
    let desk = Desk::at_power_up(disk, channels, party.device.clamp(8, 11));
    Ok(Seat::new(desk.with_pace(party.pace), party))
}

/// Looks at a trace up to its end, or to where nothing is known any more.
fn look<R: Read + Drop, const N: usize>(
    looked: &mut Loosely<Desk<AnyDisk>, N>,
    trace: R,
) -> Result<Found, ReportFault> {
    let mut traces = Traces::new(trace);
    for count in 0..u64::MAX {
        match traces.next()? {
            Some(Told::Party(event)) => {
                if let Err(why) = looked.see(event) {
                    return Ok(Found::Broken(event, why));
                }
            }
            Some(Told::Wire(_)) => return Ok(Found::Wires),
            None if count == 0 => return Err(ReportFault::Empty),
            None => break,
        }
    }
    let moment = traces.moment();
    Ok(match looked.end(moment) {
        Ok(()) => Found::Kept(moment),
        Err(why) => Found::Overdue(moment, why),
    })
}

/// Looks at a trace of one to four drives.
fn look_at<R: Read + Drop>(
    seats: Vec<DiskSeat>,
    parties: &[Party],
    trace: R,
) -> Result<Found, ReportFault> {
    let mut seats = seats.into_iter();
    match (seats.next(), seats.next(), seats.next(), seats.next()) {
        (Some(a), None, None, None) => look(&mut Loosely::new([a], parties)?, trace),
        (Some(a), Some(b), None, None) => look(&mut Loosely::new([a, b], parties)?, trace),
        (Some(a), Some(b), Some(c), None) => look(&mut Loosely::new([a, b, c], parties)?, trace),
        (Some(a), Some(b), Some(c), Some(d)) => look(
            &mut Loosely::new([a, b, c, d], parties)?,
            trace,
        ),
        _ => Err(ReportFault::Drives(NotABus::Count)),
    }
}

/// Why nothing is known any more, in words.
fn words_of(amiss: Amiss) -> &'static str {
    match amiss {
        Amiss::Host => "too soon, or a drive looks at it",
        Amiss::Drive => "a drive acts differently with a tidy host",
        Amiss::Event => "a drive with this disk acts differently",
    }
}

/// The exit status of that.
fn status_of(why: Unkept) -> u8 {
    match why {
        Unkept::Beside(Amiss::Event) => BY_DRIVE,
        Unkept::Beside(_) => BY_HOST,
        Unkept::Tidy(breach) => match breach.who {
            Who::Host => BY_HOST,
            Who::Drive(_) => BY_DRIVE,
        },
    }
}

/// Prints an event, and why nothing is known from it on.
fn tell_event(rt: &impl Print, event: Event, amiss: Amiss) -> io::Result<()> {
    let (moment, why) = (event.change.moment, words_of(amiss));
    let (line, way) = (line_name(event.change.line), way_name(event.change.way));
    match event.who {
        Who::Host => println!(rt; "{moment} us host {line} {way}: {why}"),
        Who::Drive(device) => println!(rt; "{moment} us drive {device} {line} {way}: {why}"),
    }
}

/// Prints what came of a trace, and answers the exit status.
fn tell(rt: &(impl Print + Eprint), found: Found) -> u8 {
    let (told, status) = match found {
        Found::Kept(moment) => (
            println!(rt; "kept loosely to {moment} us, and each byte of a drive is its disk's"),
            SESSION,
        ),
        Found::Broken(event, Unkept::Beside(amiss)) => (
            tell_event(rt, event, amiss),
            status_of(Unkept::Beside(amiss)),
        ),
        Found::Overdue(moment, Unkept::Beside(amiss)) => {
            let why = words_of(amiss);
            (
                println!(rt; "{moment} us, the end: {why}"),
                status_of(Unkept::Beside(amiss)),
            )
        }
        Found::Broken(_, Unkept::Tidy(breach)) | Found::Overdue(_, Unkept::Tidy(breach)) => {
            (println!(rt; "{breach}"), status_of(Unkept::Tidy(breach)))
        }
        Found::Wires => (
            eprintln!(rt; "error: --disk needs a trace of the parties' own lines"),
            UNASKED,
        ),
    };
    match told {
        Ok(()) => status,
        Err(error) => {
            let _ = tell_stream(rt, &error);
            UNREAD
        }
    }
}

/// The drives with the disks of these images; None if one can't be opened, which is said.
fn seats_with(rt: &HostRuntime, parties: &[Party], images: &[&str]) -> Option<Vec<DiskSeat>> {
    let mut seats = Vec::new(rt.alloc());
    for (party, name) in parties.iter().zip(images.iter()) {
        let disk = read_disk(rt, name)?;
        let added = match seat(rt.alloc(), disk, *party) {
            Ok(seat) => seats.push(seat).is_ok(),
            Err(_) => false,
        };
        if !added {
            let _ = eprintln!(rt; "no memory");
            return None;
        }
    }
    Some(seats)
}

/// Looks at a trace that is read so.
fn look_through<R: Read + Drop>(
    rt: &HostRuntime,
    trace: R,
    parties: &[Party],
    seats: Vec<DiskSeat>,
) -> Result<Found, ReportFault> {
    match BufReader::new(rt.alloc(), trace) {
        Ok(input) => look_at(seats, parties, Returns::new(input)),
        Err(_) => Err(ReportFault::NoMemory),
    }
}

/// Looks at the trace of this name under drives with the disks of these images, and answers the exit status.
pub fn judge_with(rt: &HostRuntime, name: &str, parties: &[Party], images: &[&str]) -> u8 {
    let Some(seats) = seats_with(rt, parties, images) else {
        return UNREAD;
    };
    let found = if name == "-" {
        look_through(rt, rt.reader(), parties, seats)
    } else {
        match fs::open(rt, name) {
            Ok(trace) => look_through(rt, trace, parties, seats),
            Err(error) => {
                let kind = error.kind();
                let _ = eprintln!(rt; "file fault: {name}: {kind}");
                return UNREAD;
            }
        }
    };
    match found {
        Ok(found) => tell(rt, found),
        Err(fault) => {
            let _ = tell_fault(rt, fault);
            status_of_fault(fault)
        }
    }
}
