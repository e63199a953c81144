// Hosts that keep no timing, over a disk with a file: the disk stays sound, and it is the one that the bytes of the bus make without
// any wires.

use crate::disks::{desk, dos, empty_disk, opened, saved};
use crate::host::Host;
use crate::recorder::{KEPT, Recorder};
use arrayvec::ArrayVec;
use cbm_channel::Dos;
use cbm_d64::D64Disk;
use cbm_drive::Line::*;
use cbm_drive::Way::*;
use cbm_drive::{Act, Bus, Desk, Drive, Machine, Pace, Party};
use cbm_volume::Volume;
use std::alloc::Global;
use std::process::Abort;

// A disk with a closed file HELLO of three bytes.
fn with_hello(rt: &impl Abort, alloc: Global, disk: D64Disk) -> D64Disk {
    let mut dos = dos(rt, alloc, disk);
    dos.open(1, b"HELLO");
    dos.put(1, 1);
    dos.put(1, 2);
    dos.put(1, 3);
    dos.close(1);
    dos.into_medium()
}

fn hello(rt: &impl Abort, alloc: Global) -> Vec<u8> {
    saved(rt, alloc, &with_hello(rt, alloc, empty_disk(rt, alloc)))
}

fn desk_with(rt: &impl Abort, alloc: Global, image: &[u8]) -> Desk<D64Disk> {
    desk(rt, alloc, opened(rt, alloc, image), 8)
}

// By chance, waits that matter to a drive of 20 and others.
fn some_wait(host: &mut Host) -> u64 {
    match host.chance() {
        0..4 => 0,
        4..8 => 1,
        8..10 => 19,
        10..14 => 20,
        14..18 => 21,
        18..22 => 60,
        22..26 => 100,
        26..29 => 221,
        29 => 1000,
        _ => host.chance() as u64,
    }
}

// Changes of any kind, at such waits.
fn noise(host: &mut Host, changes: u32) {
    for _ in 0..changes {
        let line = match host.chance() {
            0..4 => Atn,
            4..20 => Clock,
            _ => Data,
        };
        let way = if host.chance() < 16 { Pull } else { Free };
        let wait = some_wait(host);
        host.after(wait, line, way);
    }
}

// What the host is about, by chance.
fn business(host: &mut Host) {
    match host.chance() {
        0..4 => host.send(0x6f, b"S0:H*"),
        4..8 => host.send(0x6f, b"R0:A=HELLO"),
        8..12 => host.send(0x6f, b"C0:B=HELLO"),
        12..16 => {
            host.send(0xf1, b"@:HELLO");
            host.send(0x61, b"X");
            host.send(0xe1, b"");
        }
        16..20 => host.send(0x6f, b"V"),
        20..24 => {
            host.send(0xf3, b"R,L,\x09");
            host.send(0x63, b"XY");
        }
        24..28 => {
            host.send(0xf0, b"HELLO");
            host.attention(200, &[0x48, 0x60]);
            host.after(100, Data, Pull);
            host.after(0, Atn, Free);
            host.after(20, Clock, Free);
            host.take(3);
            host.untalk();
        }
        _ => {
            host.send(0xf4, b"D,S,W");
            host.send(0x64, b"YZ");
        }
    }
}

// What such a host does, by its number: only noise, or something with more or less noise in it.
fn stray(alloc: Global, seed: u32) -> Host {
    let often = match seed % 8 {
        0 => 2,
        1 => 4,
        2 => 8,
        3 => 32,
        4 => 128,
        _ => 1,
    };
    let mut host = Host::out_of_step(alloc, seed.wrapping_mul(2_654_435_761), often);
    if seed % 8 == 7 {
        noise(&mut host, 150);
    } else {
        business(&mut host);
        if host.chance() < 4 {
            noise(&mut host, 20);
            business(&mut host);
        }
    }
    host
}

// The disk that these acts make of another one.
fn without_wires(mut desk: Desk<D64Disk>, acts: &[Option<Act>]) -> D64Disk {
    for act in acts {
        if let Some(act) = *act {
            desk.act(act);
        }
    }
    desk.into_medium()
}

fn says_byte(dos: &mut Dos<D64Disk>, byte: u8, last: bool) -> bool {
    let said = dos.peek(0);
    dos.taken(0);
    said == Some((byte, last))
}

// Whether the file is there with its bytes.
fn is_there(rt: &impl Abort, alloc: Global, disk: D64Disk) -> bool {
    let mut dos = dos(rt, alloc, disk);
    dos.open(0, b"HELLO");
    let is_begun = says_byte(&mut dos, 1, false) && says_byte(&mut dos, 2, false);
    is_begun && says_byte(&mut dos, 3, true)
}

// What became of the disks.
#[derive(Drop)]
struct Ends {
    changed: u32,
    gone: u32,
    told: u32,
}

fn recorder(rt: &impl Abort, alloc: Global, image: &[u8]) -> Recorder<Desk<D64Disk>> {
    let machine = desk_with(rt, alloc, image);
    let acts = ArrayVec::new();
    Recorder { machine, acts }
}

// Drive 8 with this disk, after all that a host does.
fn after(
    rt: &impl Abort,
    alloc: Global,
    recorder: Recorder<Desk<D64Disk>>,
    host: &Host,
) -> Recorder<Desk<D64Disk>> {
    let party = Party {
        device: 8,
        reaction: 20,
        pace: Pace::Profile,
    };
    let mut bus = Bus::new([Drive::new(recorder, party)]);
    let mut events = Vec::new(alloc);
    let changes = host.changes(rt);
    let is_played = bus.play(changes, 1_000_000, &mut events).is_ok();
    assert!(rt; is_played);
    let [drive] = bus.into_drives();
    drive.into_machine()
}

// The disk's image, where it is sound.
fn sound(rt: &impl Abort, alloc: Global, disk: D64Disk) -> Vec<u8> {
    let volume = Volume::open(disk);
    assert!(rt; volume.check().is_ok());
    saved(rt, alloc, &volume.into_medium())
}

fn make(rt: &impl Abort, alloc: Global, image: &[u8], acts: &[Option<Act>]) -> Vec<u8> {
    assert!(rt; acts.len() < KEPT);
    let machine = desk_with(rt, alloc, image);
    saved(rt, alloc, &without_wires(machine, acts))
}

fn count(rt: &impl Abort, alloc: Global, image: &[u8], left: &[u8], ends: &mut Ends) {
    if left != image {
        ends.changed = ends.changed.wrapping_add(1);
        if !is_there(rt, alloc, opened(rt, alloc, left)) {
            ends.gone = ends.gone.wrapping_add(1);
        }
    }
}

fn into_image(rt: &impl Abort, alloc: Global, machine: Desk<D64Disk>) -> Vec<u8> {
    sound(rt, alloc, machine.into_medium())
}

// A host has its way with the disk; then it is sound, and what the acts make of it.
fn endure(rt: &impl Abort, alloc: Global, image: &[u8], seed: u32, ends: &mut Ends) {
    let host = stray(alloc, seed);
    let recorder = recorder(rt, alloc, image);
    let Recorder { machine, acts } = after(rt, alloc, recorder, &host);
    let left = into_image(rt, alloc, machine);
    let wanted = make(rt, alloc, image, acts.as_slice());
    assert!(rt; left.as_slice() == wanted.as_slice(), "{seed}");
    ends.told = ends.told.wrapping_add(acts.len() as u32);
    count(rt, alloc, image, left.as_slice(), ends);
}

// How many hosts each test has.
const HOSTS: u32 = 20_000;

// What becomes of the disks of so many hosts, from a number on, each with one of its own.
fn ends_of(rt: &impl Abort, alloc: Global, image: &[u8], from: u32) -> Ends {
    let mut ends = Ends {
        changed: 0,
        gone: 0,
        told: 0,
    };
    for host in 0..HOSTS {
        endure(rt, alloc, image, from.wrapping_add(host), &mut ends);
    }
    ends
}

// Not in vain: bytes got through, and disks were changed by them.
fn endures(rt: &impl Abort, alloc: Global, from: u32) {
    let ends = ends_of(rt, alloc, hello(rt, alloc).as_slice(), from);
    assert!(rt; ends.changed > HOSTS / 10 && ends.gone > HOSTS / 50);
    assert!(rt; ends.told > 10 * HOSTS);
}

#[test]
fn hosts_from_0_on(rt: HostRuntime) {
    endures(&rt, rt.alloc(), 0);
}

#[test]
fn hosts_from_100_000_on(rt: HostRuntime) {
    endures(&rt, rt.alloc(), 100_000);
}

#[test]
fn hosts_from_200_000_on(rt: HostRuntime) {
    endures(&rt, rt.alloc(), 200_000);
}

#[test]
fn hosts_from_300_000_on(rt: HostRuntime) {
    endures(&rt, rt.alloc(), 300_000);
}

#[test]
fn hosts_from_400_000_on(rt: HostRuntime) {
    endures(&rt, rt.alloc(), 400_000);
}
