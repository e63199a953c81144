//! The disk, byte by byte, and drives with it.

use crate::tests::cable::{Drives, FIRST};
use bus_beside::{Loosely, Seat};
use cbm_channel::{Channels, Dos};
use cbm_d64::D64Disk;
use cbm_drive::{Bus, Desk, Drive, Pace, Party};
use std::alloc::Global;
use std::process::Abort;
use test_images::{empty_image, place, put};

/// The device number of the second drive.
const SECOND: u8 = 9;

/// The program HELLO: its load address, and what it is.
pub const HELLO: &[u8] = b"\x01\x08HELLO, BUS\x00\xff\xaa\x55";

/// How many bytes it has.
const LENGTH: u8 = 16;

/// The listing's first line, after the load address: the disk's name and id.
pub const TITLE: &[u8] = b"\x01\x04\x01\x01\x00\x00\x12\"TEST            \" AB 2A\x00";

/// The line of HELLO, which has one block.
pub const LINE: &[u8] = b"\x01\x01\x01\x00   \"HELLO\"            PRG  \x00";

/// The last line, 663 blocks free.
pub const LAST: &[u8] = b"\x01\x01\x97\x02BLOCKS FREE.             \x00\x00\x00";

/// A disk with the program HELLO on track 17, sector 0 (the D64 format; Inside Commodore DOS): in the map one sector of the track
/// is taken, in the directory stand its type, place, name and blocks, and the sector has its bytes after the count of them.
pub fn image_with_hello(rt: &impl Abort, alloc: Global) -> Vec<u8> {
    let mut image = empty_image(alloc).ok().expect(rt, "memory");
    let entry = place(18, 1);
    put(&mut image, place(18, 0).wrapping_add(68), &[20, 0xfe]);
    put(&mut image, entry.wrapping_add(2), &[0x82, 17, 0]);
    put(&mut image, entry.wrapping_add(5), &[0xa0; 16]);
    put(&mut image, entry.wrapping_add(5), b"HELLO");
    put(&mut image, entry.wrapping_add(30), &[1, 0]);
    put(&mut image, place(17, 0), &[0, LENGTH + 1]);
    put(&mut image, place(17, 0).wrapping_add(2), HELLO);
    image
}

/// What a drive with that disk has above its port.
fn desk(rt: &impl Abort, alloc: Global, image: &[u8], party: Party) -> Desk<D64Disk> {
    let disk = D64Disk::from_bytes(alloc, image, false)
        .ok()
        .expect(rt, "a disk");
    let channels = Channels::new(alloc).ok().expect(rt, "memory");
    assert!(rt; party.device < 31);
    Desk::new(Dos::new(disk, channels), party.device).with_pace(party.pace)
}

/// A drive with that disk, switched on.
fn drive(rt: &impl Abort, alloc: Global, image: &[u8], party: Party) -> Drive<Desk<D64Disk>> {
    assert!(rt; party.device < 31 && party.reaction > 0);
    Drive::new(desk(rt, alloc, image, party), party)
}

/// The same for who looks at the trace.
pub fn seat(rt: &impl Abort, alloc: Global, image: &[u8], party: Party) -> Seat<Desk<D64Disk>> {
    Seat::new(desk(rt, alloc, image, party), party)
}

/// Drive 8 alone.
pub fn one(rt: &impl Abort, alloc: Global, image: &[u8], pace: Pace, reaction: u8) -> Drives {
    let party = Party {
        device: FIRST,
        reaction,
        pace,
    };
    let bus = Bus::new([drive(rt, alloc, image, party)]);
    let looked = Loosely::new([seat(rt, alloc, image, party)], &[party]);
    Drives::One(bus, looked.ok().expect(rt, "a bus"))
}

/// Drives 8 and 9, the slower the one the faster the other.
pub fn two(rt: &impl Abort, alloc: Global, image: &[u8], pace: Pace, reaction: u8) -> Drives {
    let first = Party {
        device: FIRST,
        reaction,
        pace,
    };
    let second = Party {
        device: SECOND,
        reaction: 61u8.saturating_sub(reaction),
        pace,
    };
    let bus = Bus::new([
        drive(rt, alloc, image, first),
        drive(rt, alloc, image, second),
    ]);
    let seats = [
        seat(rt, alloc, image, first),
        seat(rt, alloc, image, second),
    ];
    let looked = Loosely::new(seats, &[first, second]);
    Drives::Two(bus, looked.ok().expect(rt, "a bus"))
}
