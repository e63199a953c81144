// Two drives with disks on one bus, a D64 beside a G64, one as quick and one as slow as drives are: files are written on both and
// read again, and each disk is then as calls leave it.

use crate::cables::BACK;
use crate::disks::{dos, empty_disk, saved};
use crate::host::Host;
use crate::wires::is_said_by;
use cbm_bus::{DiskBus, drive_with, into_disk};
use cbm_channel::{Channels, Dos};
use cbm_d64::D64Disk;
use cbm_drive::{Desk, Drive, Event, Pace, Party, PlayFault};
use cbm_g64::G64Disk;
use cbm_image::AnyDisk;
use cbm_medium::{Address, Medium, sectors_of};
use std::alloc::Global;
use std::process::Abort;

/// Drive 8 has a D64, drive 9 a G64.
type Pair = DiskBus<AnyDisk, 2>;

// A drive with a disk, which takes so many microseconds to react.
fn drive(
    rt: &impl Abort,
    alloc: Global,
    disk: AnyDisk,
    device: u8,
    reaction: u8,
) -> Drive<Desk<AnyDisk>> {
    assert!(rt; device < 31 && reaction > 0);
    let party = Party {
        device,
        reaction,
        pace: Pace::Profile,
    };
    let channels = Channels::new(alloc).ok().expect(rt, "memory");
    drive_with(disk, channels, party)
}

// The empty disk as circles of bits.
fn empty_circles(rt: &impl Abort, alloc: Global) -> G64Disk {
    let disk = empty_disk(rt, alloc);
    assert!(rt; disk.tracks() == 35);
    let image = G64Disk::from_sectors(alloc, &disk, *b"AB").ok();
    let image = image.expect(rt, "an image");
    G64Disk::from_bytes(alloc, image.as_slice(), false)
        .ok()
        .expect(rt, "a disk")
}

// Both drives with empty disks; which one answers first at equal moments is the order in the list.
fn pair(rt: &impl Abort, alloc: Global, first: u8, second: u8) -> Pair {
    let sectors = AnyDisk::D64(empty_disk(rt, alloc));
    let circles = AnyDisk::G64(empty_circles(rt, alloc));
    DiskBus::new([
        drive(rt, alloc, sectors, 8, first),
        drive(rt, alloc, circles, 9, second),
    ])
}

// A file is written on a drive, and closed.
fn write(host: &mut Host, device: u8, name: &[u8], bytes: &[u8]) {
    host.send_to(device, 0xf2, name);
    host.send_to(device, 0x62, bytes);
    host.send_to(device, 0xe2, b"");
}

// It is opened on channel 3, five bytes are read, and it is closed.
fn read(host: &mut Host, device: u8, name: &[u8]) {
    host.send_to(device, 0xf3, name);
    host.talk_to(200, device, 0x63);
    host.take(5);
    host.untalk();
    host.send_to(device, 0xe3, b"");
}

// Files on both drives are written, and then read.
fn work(alloc: Global) -> Host {
    let mut host = Host::patient(alloc);
    write(&mut host, 8, b"A,S,W", b"HELLO");
    write(&mut host, 9, b"B,S,W", b"WORLD");
    read(&mut host, 9, b"B");
    read(&mut host, 8, b"A");
    host
}

// What happens on the bus, up to a second.
fn played(rt: &impl Abort, alloc: Global, bus: &mut Pair, host: &Host) -> Vec<Event> {
    let mut events = Vec::new(alloc);
    let is_played = bus.play(host.changes(rt), 1_000_000, &mut events).is_ok();
    assert!(rt; is_played);
    events
}

fn put_all(dos: &mut Dos<D64Disk>, bytes: &[u8]) {
    for byte in bytes {
        dos.put(2, *byte);
    }
}

// The empty disk after the same file was written by calls.
fn written(rt: &impl Abort, alloc: Global, name: &[u8], bytes: &[u8]) -> D64Disk {
    let mut dos = dos(rt, alloc, empty_disk(rt, alloc));
    dos.open(2, name);
    put_all(&mut dos, bytes);
    dos.close(2);
    dos.into_medium()
}

// Whether both hold the same in a sector.
fn is_same(circles: &AnyDisk, sectors: &D64Disk, at: Address) -> bool {
    if at.track() > 35 || circles.tracks() < 35 || sectors.tracks() < 35 {
        return false;
    }
    match (circles.read(at), sectors.read(at)) {
        (Ok(one), Ok(other)) => one == other,
        _ => false,
    }
}

// Whether both hold the same in each sector of a track.
fn is_same_track(circles: &AnyDisk, sectors: &D64Disk, track: u8) -> bool {
    let mut same = true;
    for sector in 0..sectors_of(track) {
        let at = Address::new(track, sector);
        same = same && at.is_some_and(|at| is_same(circles, sectors, at));
    }
    same
}

fn are_same_sectors(circles: &AnyDisk, sectors: &D64Disk) -> bool {
    let mut same = true;
    for track in 1..=35u8 {
        same = is_same_track(circles, sectors, track) && same;
    }
    same
}

// Whether the disk of drive 8 is that D64, byte for byte.
fn is_image(rt: &impl Abort, alloc: Global, disk: &AnyDisk, wanted: &D64Disk) -> bool {
    let AnyDisk::D64(disk) = disk else {
        return false;
    };
    saved(rt, alloc, disk).as_slice() == saved(rt, alloc, wanted).as_slice()
}

// Both disks after the work are those that calls leave.
fn are_written(rt: &impl Abort, alloc: Global, bus: Pair) -> bool {
    let mut drives = bus.into_drives().into_iter();
    let (Some(first), Some(second)) = (drives.next(), drives.next()) else {
        return false;
    };
    let hello = written(rt, alloc, b"A,S,W", b"HELLO");
    let world = written(rt, alloc, b"B,S,W", b"WORLD");
    is_image(rt, alloc, &into_disk(first), &hello) && are_same_sectors(&into_disk(second), &world)
}

// The reactions of drives 8 and 9: the quickest and the slowest, both ways round, and equal ones, whose changes tie.
const REACTIONS: [(u8, u8); 3] = [(1, 60), (60, 1), (20, 20)];

#[test]
fn a_d64_stands_beside_a_g64(rt: HostRuntime) {
    let host = work(rt.alloc());
    for (first, second) in REACTIONS {
        let mut bus = pair(&rt, rt.alloc(), first, second);
        let events = played(&rt, rt.alloc(), &mut bus, &host);
        assert!(rt; is_said_by(8, events.as_slice(), b"HELLO"));
        assert!(rt; is_said_by(9, events.as_slice(), b"WORLD"));
        assert!(rt; are_written(&rt, rt.alloc(), bus));
    }
}

// A change that goes back in time is told by its place, and nothing is played.
#[test]
fn nothing_of_a_list_out_of_order_is_played(rt: HostRuntime) {
    let mut bus = pair(&rt, rt.alloc(), 20, 20);
    let mut events = Vec::new(rt.alloc());
    let answer = bus.play(&BACK, 9, &mut events);
    assert!(rt; answer == Err(PlayFault::Backwards(1)) && events.as_slice().is_empty());
}
