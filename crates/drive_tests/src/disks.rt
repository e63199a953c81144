// Disks, and drives over them: what their calls promise stays out of the tests.

use crate::host::Host;
use cbm_channel::{Channels, Dos};
use cbm_d64::D64Disk;
use cbm_drive::{Bus, Desk, Drive, Event, Pace, Party};
use std::alloc::Global;
use std::process::Abort;
use test_images::empty_image;

pub fn opened(rt: &impl Abort, alloc: Global, image: &[u8]) -> D64Disk {
    D64Disk::from_bytes(alloc, image, false)
        .ok()
        .expect(rt, "a disk")
}

pub fn empty_disk(rt: &impl Abort, alloc: Global) -> D64Disk {
    let image = empty_image(alloc).ok().expect(rt, "memory");
    opened(rt, alloc, image.as_slice())
}

pub fn saved(rt: &impl Abort, alloc: Global, disk: &D64Disk) -> Vec<u8> {
    disk.to_bytes(alloc).ok().expect(rt, "an image")
}

/// A DOS with a disk, switched on.
pub fn dos(rt: &impl Abort, alloc: Global, disk: D64Disk) -> Dos<D64Disk> {
    Dos::new(disk, Channels::new(alloc).ok().expect(rt, "memory"))
}

/// A machine with a disk, switched on.
pub fn desk(rt: &impl Abort, alloc: Global, disk: D64Disk, device: u8) -> Desk<D64Disk> {
    assert!(rt; device < 31);
    Desk::new(dos(rt, alloc, disk), device)
}

/// The machine with an empty disk on the bus; it reacts in 20.
pub fn switched_on(rt: &impl Abort, alloc: Global, device: u8) -> Bus<Desk<D64Disk>, 1> {
    assert!(rt; device < 31);
    let machine = desk(rt, alloc, empty_disk(rt, alloc), device);
    let party = Party {
        device,
        reaction: 20,
        pace: Pace::Profile,
    };
    Bus::new([Drive::new(machine, party)])
}

/// What happens on the bus under a host, up to a second.
pub fn played(
    rt: &impl Abort,
    alloc: Global,
    bus: &mut Bus<Desk<D64Disk>, 1>,
    host: &Host,
) -> Vec<Event> {
    let mut events = Vec::new(alloc);
    let changes = host.changes(rt);
    let is_played = bus.play(changes, 1_000_000, &mut events).is_ok();
    assert!(rt; is_played);
    events
}

pub fn into_disk(bus: Bus<Desk<D64Disk>, 1>) -> D64Disk {
    let [drive] = bus.into_drives();
    drive.into_machine().into_medium()
}

/// The code that the status shows after an OPEN of a name on channel 2.
pub fn open_code(dos: &mut Dos<D64Disk>, name: &[u8]) -> u8 {
    dos.open(2, name);
    dos.status_code()
}

/// Whether that byte comes next on channel 2; then it is taken.
fn says_byte(dos: &mut Dos<D64Disk>, wanted: u8) -> bool {
    let said = dos.peek(2);
    dos.taken(2);
    match said {
        Some((byte, _)) => byte == wanted,
        None => false,
    }
}

/// Whether channel 2 says those bytes, and then none.
pub fn says(dos: &mut Dos<D64Disk>, wanted: &[u8]) -> bool {
    dos.talk(2);
    let mut same = true;
    for byte in wanted {
        same = says_byte(dos, *byte) && same;
    }
    dos.peek(2).is_none() && same
}
