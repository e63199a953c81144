// The status line over the wires: a host that keeps the timing, and a drive with a disk.

use crate::disks::{dos, into_disk, open_code, played, says, switched_on};
use crate::host::Host;
use cbm_channel::Dos;
use cbm_d64::D64Disk;
use cbm_drive::Line::*;
use cbm_drive::Way::*;
use cbm_drive::{Event, Who};
use cbm_volume::Volume;
use std::alloc::Global;
use std::process::Abort;

/// The status after power up.
const POWER_UP: &[u8] = b"73,CBM DOS V2.6 1541,00,00\r";

/// And the one after it.
pub const BOTH: &[u8] = b"73,CBM DOS V2.6 1541,00,00\r00, OK,00,00\r";

/// Whether drive 8 said these bytes.
pub fn is_said(events: &[Event], wanted: &[u8]) -> bool {
    is_said_by(8, events, wanted)
}

/// Whether a drive said these bytes: after its release of CLOCK come eight bits, each to be read when CLOCK is freed.
pub fn is_said_by(device: u8, events: &[Event], wanted: &[u8]) -> bool {
    let (mut low, mut count, mut byte) = (false, 0u8, 0u8);
    let (mut place, mut same) = (0usize, true);
    for event in events {
        match (event.who, event.change.line, event.change.way) {
            (Who::Host, Atn, Free) => count = 0,
            (Who::Drive(who), Data, way) if who == device => low = way == Pull,
            (Who::Drive(who), Clock, Free) if who == device => {
                byte = byte / 2 | if low { 0 } else { 128 };
                count = count.wrapping_add(1) % 9;
                if count == 0 {
                    same = wanted.get(place) == Some(&byte) && same;
                    place = place.wrapping_add(1);
                }
            }
            _ => {}
        }
    }
    same && place == wanted.len()
}

// Whether drive 8, switched on with an empty disk, says this under a host.
fn hears(rt: &impl Abort, alloc: Global, host: &Host, wanted: &[u8]) -> bool {
    let mut bus = switched_on(rt, alloc, 8);
    is_said(played(rt, alloc, &mut bus, host).as_slice(), wanted)
}

/// The status is taken, and again the next one up to the end of its bytes.
pub fn take_both(alloc: Global) -> Host {
    let mut host = Host::new(alloc);
    host.talk(0);
    host.take(27);
    host.untalk();
    host.talk(200);
    host.take(13);
    host
}

#[test]
fn the_status_is_talked_twice(rt: HostRuntime) {
    let mut host = take_both(rt.alloc());
    host.untalk();
    assert!(rt; hears(&rt, rt.alloc(), &host, BOTH));
}

// ATN is pulled after four bits of the first byte: it isn't said, and comes again.
#[test]
fn an_interrupted_byte_comes_again(rt: HostRuntime) {
    let mut host = Host::new(rt.alloc());
    host.talk(0);
    host.after(120, Data, Free);
    host.talk(480);
    host.take(27);
    assert!(rt; hears(&rt, rt.alloc(), &host, POWER_UP));
}

// The disk of drive 8 under a host: it begins empty.
fn disk_after(rt: &impl Abort, alloc: Global, host: &Host) -> D64Disk {
    let mut bus = switched_on(rt, alloc, 8);
    played(rt, alloc, &mut bus, host);
    into_disk(bus)
}

// A file is written, another one begun, and the first one scratched.
fn work(host: &mut Host) {
    host.send(0xf2, b"A,S,W");
    host.send(0x62, b"HELLO");
    host.send(0xe2, b"");
    host.send(0xf3, b"B,S,W");
    host.send(0x63, b"WORLD");
    host.send(0x6f, b"S0:A");
}

// The work, and the second file closed.
fn worked(alloc: Global) -> Host {
    let mut host = Host::new(alloc);
    work(&mut host);
    host.send(0xe3, b"");
    host
}

fn is_done(dos: &mut Dos<D64Disk>) -> bool {
    let is_gone = open_code(dos, b"A") == 62;
    let is_there = open_code(dos, b"B") == 0;
    is_gone && is_there && says(dos, b"WORLD")
}

#[test]
fn files_are_written_and_scratched(rt: HostRuntime) {
    let host = worked(rt.alloc());
    let mut dos = dos(&rt, rt.alloc(), disk_after(&rt, rt.alloc(), &host));
    assert!(rt; is_done(&mut dos));
}

// Whether blocks of a sound disk are in use.
fn is_used(rt: &impl Abort, disk: D64Disk) -> bool {
    let volume = Volume::open(disk);
    assert!(rt; volume.check().is_ok());
    volume.free() != Ok(664)
}

// Whether blocks are in use after a host that gets out of step.
fn is_changed(rt: &impl Abort, alloc: Global, seed: u32) -> bool {
    let mut host = Host::out_of_step(alloc, seed, 1);
    work(&mut host);
    is_used(rt, disk_after(rt, alloc, &host))
}

// Whatever the host does, the disk is sound afterwards.
#[test]
fn hosts_out_of_step_leave_a_sound_disk(rt: HostRuntime) {
    let mut changed = 0u32;
    for seed in 0..100u32 {
        if is_changed(&rt, rt.alloc(), seed) {
            changed = changed.wrapping_add(1);
        }
    }
    // In some of them blocks were claimed.
    assert!(rt; changed > 20);
}
