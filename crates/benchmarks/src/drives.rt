ghost use Rattle.std.specs.Prelude.{◌≤◌};

use crate::disks::{failed, report};
use crate::images::{circles, d64, g64};
use cbm_channel::{Channels, Dos};
use cbm_medium::{Medium, sectors_of};
use cbm_volume::Volume;
use std::alloc::Global;
use std::io;
use std::rt::Runtime;
use std::time::Instant;

/// The bytes of a D64 image.
const IMAGE: usize = 174_848;

/// Where sector 18/0 stands in an image.
const HEAD: usize = 91_392;

/// How often a disk is checked.
const CHECKS: u32 = 100;

/// A file of 664 blocks, read byte by byte through the drive's channel 0.
pub fn files(rt: &impl Runtime, alloc: Global) -> io::Result<()> {
    let mut image = vec![in alloc; 1; IMAGE]?;
    enter_big(&mut image);
    let disk = d64(alloc, image.as_slice())?;
    let mut dos = Dos::new(disk, Channels::new(alloc)?);
    let start = Instant::now(rt)?;
    let mut count = 0u32;
    for _ in 0..10 {
        count = count.wrapping_add(bytes_of_file(&mut dos));
    }
    report(rt, "Dos, a byte of a file of 664 blocks", &start, count)?;
    if count == 1_686_560 {
        Ok(())
    } else {
        Err(failed())
    }
}

/// A full disk that is checked, as a D64 and as a G64.
pub fn checks(rt: &impl Runtime, alloc: Global) -> io::Result<()> {
    let mut image = vec![in alloc; 1; IMAGE]?;
    enter_big(&mut image);
    set(&mut image, HEAD, &[0; 256]);
    set(&mut image, HEAD.wrapping_add(72), &[17, 0xfc, 0xff, 7]);
    let disk = d64(alloc, image.as_slice())?;
    let file = circles(alloc, &disk)?;
    check_often(rt, "Volume::check of a full D64", disk)?;
    let disk = g64(alloc, file.as_slice())?;
    check_often(rt, "Volume::check of a full G64", disk)
}

fn check_often<M: Medium + Drop>(rt: &impl Runtime, name: &str, medium: M) -> io::Result<()> {
    let volume = Volume::open(medium);
    let start = Instant::now(rt)?;
    let mut sound = 0u32;
    for _ in 0..CHECKS {
        if volume.check().is_ok() {
            sound = sound.wrapping_add(1);
        }
    }
    report(rt, name, &start, CHECKS)?;
    if sound == CHECKS {
        Ok(())
    } else {
        Err(failed())
    }
}

/// How many bytes the file has.
fn bytes_of_file<M: Medium>(dos: &mut Dos<M>) -> u32 {
    dos.open(0, b"BIG");
    dos.talk(0);
    let mut count = 0u32;
    'bytes: for _ in 0..200_000u32 {
        if dos.peek(0).is_none() {
            return count;
        }
        count = count.wrapping_add(1);
        dos.taken(0);
    }
    count
}

pub fn set(image: &mut Vec<u8>, at: usize, bytes: &[u8]) {
    for (i, byte) in bytes.iter().enumerate() {
        if let Some(old) = image.get_mut(at.wrapping_add(i)) {
            *old = *byte;
        }
    }
}

/// A closed program BIG in the first slot, over all sectors but those of track 18, in their order.
fn enter_big(image: &mut Vec<u8>) {
    let mut last = 0usize;
    let mut place = 0usize;
    for track in 1..36u8 {
        for sector in 0..sectors_of(track) {
            if track != 18 {
                set(image, last, &[track, sector]);
                last = place;
            }
            if track == 18 && sector == 1 {
                set(image, place, &[0, 255, 0x82, 1, 0, b'B', b'I', b'G']);
                set(image, place.wrapping_add(8), &[0xa0; 13]);
            }
            place = place.wrapping_add(256);
        }
    }
    set(image, last, &[0, 255]);
}
