ghost use Rattle.std.specs.Prelude.{◌≡◌};

mod traces;

use crate::disks::{failed, report};
use crate::images::d64;
use crate::writes::{store, succeeded};
use cbm_channel::{Channels, Dos};
use cbm_medium::Medium;
use cbm_program::{Options, Pace, run};
use std::alloc::Global;
use std::io;
use std::rt::Runtime;
use std::time::Instant;
use test_images::empty_image;
pub use traces::Nowhere;

/// How often the short script runs.
const TURNS: u32 = 100;

/// How often a file of 664 blocks is written or read.
const LONG_TURNS: u32 = 3;

/// A program of three bytes is read.
const HELLO: &str = "open 0 HELLO\nget 0 100\nstatus\n";

/// A file of 664 blocks is written, and read.
const WRITING: &str = "open 1 BIG\nfill 1 168656 41\nclose 1\n";

const READING: &str = "open 0 BIG\nget 0 200000\n";

/// A drive of this pace, whose disk may be written.
fn writable(pace: Pace) -> Options
    ensures { result.device ≡ 8 }
{
    Options {
        device: 8,
        pace,
        protected: false,
        check: false,
    }
}

/// The disk that a script leaves of an image, if it prints so many bytes.
fn played(
    alloc: Global,
    pace: Pace,
    image: &[u8],
    script: &str,
    printed: usize,
) -> io::Result<Vec<u8>> {
    let mut out: Vec<u8> = Vec::new(alloc);
    let ended = run(alloc, script.as_bytes(), &mut out, image, &writable(pace));
    if out.len() != printed {
        return Err(failed());
    }
    ended.map_err(|_| failed())
}

/// Prints the time of a script that prints so many bytes.
fn timed(
    rt: &impl Runtime,
    alloc: Global,
    name: &str,
    image: &[u8],
    row: (Pace, &str, usize, u32),
) -> io::Result<()> {
    let (pace, script, printed, turns) = row;
    let start = Instant::now(rt)?;
    for _ in 0..turns {
        let _after = played(alloc, pace, image, script, printed)?;
    }
    report(rt, name, &start, turns)
}

/// Bytes of a file are taken.
fn take<M: Medium>(dos: &mut Dos<M>, name: &[u8], bytes: u32) {
    dos.open(0, name);
    dos.talk(0);
    for _ in 0..bytes {
        dos.taken(0);
    }
}

/// The same file by the DOS's calls, on a disk of its own: written, and read.
fn direct(rt: &impl Runtime, alloc: Global, image: &[u8]) -> io::Result<()> {
    let mut dos = Dos::new(d64(alloc, image)?, Channels::new(alloc)?);
    let start = Instant::now(rt)?;
    store(&mut dos, b"BIG", 168_656);
    report(rt, "664 blocks written by calls", &start, 1)?;
    let start = Instant::now(rt)?;
    take(&mut dos, b"BIG", 168_656);
    report(rt, "664 blocks read by calls", &start, 1)?;
    succeeded(&dos, 0)
}

/// Scripts over the wires, beside the same by the DOS's calls.
pub fn requests(rt: &impl Runtime, alloc: Global) -> io::Result<()> {
    let image = empty_image(alloc)?;
    let hello = played(
        alloc,
        Pace::Profile,
        image.as_slice(),
        "open 1 HELLO\nput 1 \\01\\02\\03\nclose 1\n",
        0,
    )?;
    let row = (Pace::Profile, HELLO, 37, TURNS);
    timed(rt, alloc, "HELLO read by a script", hello.as_slice(), row)?;
    let full = played(alloc, Pace::Profile, image.as_slice(), WRITING, 0)?;
    let row = (Pace::Profile, WRITING, 0, LONG_TURNS);
    timed(
        rt,
        alloc,
        "664 blocks written by a script",
        image.as_slice(),
        row,
    )?;
    let row = (Pace::Profile, READING, 337_323, LONG_TURNS);
    timed(
        rt,
        alloc,
        "664 blocks read by a script",
        full.as_slice(),
        row,
    )?;
    let row = (Pace::Kernal, READING, 337_323, LONG_TURNS);
    timed(
        rt,
        alloc,
        "the same at a KERNAL's pace",
        full.as_slice(),
        row,
    )?;
    traces::events(rt, alloc, full.as_slice())?;
    direct(rt, alloc, image.as_slice())
}
