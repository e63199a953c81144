//! Sessions of a computer with one and two drives: every reaction, every computer, its screen on and off. All goes well if
//! the drives keep the KERNAL's pace.

use crate::tests::cycles::Computer;
use crate::tests::disks::{HELLO, LAST, LINE, TITLE, image_with_hello, one, two};
use crate::tests::host::Host;
use cbm_drive::Pace;
use std::alloc::Global;
use std::process::Abort;

/// The status after power up.
const POWER_UP: &[u8] = b"73,CBM DOS V2.6 1541,00,00\r";

/// The status if all is well.
const OK: &[u8] = b"00, OK,00,00\r";

/// The status after a file was missing.
const NOT_FOUND: &[u8] = b"62,FILE NOT FOUND,00,00\r";

/// The status after a file was there already.
const EXISTS: &[u8] = b"63,FILE EXISTS,00,00\r";

/// A program that is saved, of all kinds of bits.
const SAVED: &[u8] = b"\x00\xc0\x00\xff\x55\xaa\x0f\xf0\x80\x01";

/// What a session was.
#[derive(Drop)]
pub struct Tally {
    /// How many jobs the computer had.
    pub jobs: u32,
    /// The first of them that went wrong, counted from 1.
    pub wrong: Option<u32>,
}

impl Tally {
    pub fn new() -> Tally {
        Tally {
            jobs: 0,
            wrong: None,
        }
    }

    /// One more job, which went right or didn't.
    pub fn add(&mut self, right: bool) {
        self.jobs = self.jobs.wrapping_add(1);
        if !right && self.wrong.is_none() {
            self.wrong = Some(self.jobs);
        }
    }
}

/// Programs: the status, LOAD"$", LOAD, SAVE, and LOAD of what was saved.
pub fn programs(host: &mut Host, device: u8, listing: &[u8], tally: &mut Tally) {
    tally.add(host.reads_status(device, POWER_UP));
    tally.add(host.loads(device, b"$", listing));
    tally.add(host.loads(device, b"HELLO", HELLO));
    tally.add(host.saves(device, b"NEW", SAVED));
    tally.add(host.loads(device, b"NEW", SAVED));
}

/// Files: OPEN, PRINT# of a line and of one byte, CLOSE; OPEN, INPUT# of the line, GET# of what is left, CLOSE; the status.
pub fn files(host: &mut Host, device: u8, tally: &mut Tally) {
    tally.add(host.opens(device, 2, b"OUT,S,W"));
    tally.add(host.prints(device, 2, b"ONE\r"));
    tally.add(host.prints(device, 2, b"2"));
    tally.add(host.prints(device, 2, b"3"));
    tally.add(host.closes(device, 2));
    tally.add(host.opens(device, 3, b"OUT"));
    tally.add(host.inputs(device, 3, b"ONE\r", false));
    tally.add(host.gets(device, 3, b"23"));
    tally.add(host.closes(device, 3));
    tally.add(host.reads_status(device, OK));
}

/// A file that isn't there; the status tells it once.
pub fn missing(host: &mut Host, device: u8, tally: &mut Tally) {
    tally.add(host.misses(device, b"NONE"));
    tally.add(host.reads_status(device, NOT_FOUND));
    tally.add(host.reads_status(device, OK));
}

/// SAVE of a name that is there already: the bus takes it, the status tells that it was refused, and the old file is there.
pub fn refused(host: &mut Host, device: u8, tally: &mut Tally) {
    tally.add(host.saves(device, b"HELLO", SAVED));
    tally.add(host.reads_status(device, EXISTS));
    tally.add(host.loads(device, b"HELLO", HELLO));
}

/// The listing of the disk.
pub fn listing(rt: &impl Abort, alloc: Global) -> Vec<u8> {
    let mut listing = Vec::new(alloc);
    for line in [TITLE, LINE, LAST] {
        for byte in line {
            listing.push(*byte).ok().expect(rt, "memory");
        }
    }
    listing
}

/// A computer, and the disk of its drives.
#[derive(Drop)]
struct Stage {
    alloc: Global,
    computer: Computer,
    image: Vec<u8>,
    listing: Vec<u8>,
}

impl Stage {
    /// A session with one drive or two, which goes well; how many jobs it had.
    fn plays(&self, rt: &impl Abort, reaction: u8, seed: u32, both: bool) -> u32 {
        let image = self.image.as_slice();
        let drives = if both {
            two(rt, self.alloc, image, Pace::Kernal, reaction)
        } else {
            one(rt, self.alloc, image, Pace::Kernal, reaction)
        };
        let device = if both && seed % 2 == 1 { 9 } else { 8 };
        let mut host = Host::new(drives, self.computer, seed);
        let mut tally = Tally::new();
        programs(&mut host, device, self.listing.as_slice(), &mut tally);
        files(&mut host, device, &mut tally);
        missing(&mut host, device, &mut tally);
        refused(&mut host, device, &mut tally);
        let job = tally.wrong.unwrap_or(0);
        assert!(rt; job == 0, "job {job} of seed {seed}, reaction {reaction}");
        let kept = host.keeps_loosely();
        assert!(rt; kept.is_ok(), "seed {seed}, reaction {reaction}: {kept:?}");
        tally.jobs
    }
}

/// How many sessions there are for each reaction, with one drive and with two.
const SEEDS: u32 = 16;

/// Sessions at every reaction, and all goes well.
fn all_goes_well(rt: &impl Abort, alloc: Global, computer: Computer) {
    let stage = Stage {
        alloc,
        computer,
        image: image_with_hello(rt, alloc),
        listing: listing(rt, alloc),
    };
    let mut jobs = 0u32;
    for reaction in 1..=60u8 {
        for seed in 0..SEEDS {
            jobs = jobs.wrapping_add(stage.plays(rt, reaction, seed, false));
            jobs = jobs.wrapping_add(stage.plays(rt, reaction, seed, true));
        }
    }
    assert!(rt; jobs == 60 * SEEDS * 2 * 21);
}

#[test]
fn a_c64_for_pal(rt: HostRuntime) {
    all_goes_well(&rt, rt.alloc(), Computer::Pal);
}

#[test]
fn a_c64_for_pal_in_the_dark(rt: HostRuntime) {
    all_goes_well(&rt, rt.alloc(), Computer::DarkPal);
}

#[test]
fn a_c64_for_ntsc(rt: HostRuntime) {
    all_goes_well(&rt, rt.alloc(), Computer::Ntsc);
}

#[test]
fn a_c64_for_ntsc_in_the_dark(rt: HostRuntime) {
    all_goes_well(&rt, rt.alloc(), Computer::DarkNtsc);
}

#[test]
fn a_vic_20(rt: HostRuntime) {
    all_goes_well(&rt, rt.alloc(), Computer::Vic);
}
