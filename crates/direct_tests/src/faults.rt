// Scripts whose reader or writer fails, and want of memory.

ghost use Rattle.std.specs.Prelude.{◌≤◌};

use crate::faulty::{FaultyReader, FaultyWriter, Sink};
use cbm_program::{Options, Pace, RunFault, run};
use std::alloc::Global;
use std::io::{ErrorKind, Read, Write};
use std::test::Fail;
use test_images::{empty_image, place, put};

/// A drive whose disk may be written.
const OPEN: Options = Options {
    device: 8,
    pace: Pace::Profile,
    protected: false,
    check: false,
};

/// A script, and what it prints.
type Row = (&'static str, &'static str);

/// One that reads.
const READING: Row = (
    "; one\nopen 0 HELLO\nget 0 2\n\nget 0 9\nget 0 1\nput 15 I\\30\nstatus",
    "get 0 0102\nget 0 03 eoi\nget 0 none\nstatus 00, OK,00,00\n",
);

/// One that writes a file.
const WRITING: Row = (
    "open 1 NEW\nput 1 AB\nclose 1\nopen 0 NEW\nget 0 9\nstatus",
    "get 0 4142 eoi\nstatus 00, OK,00,00\n",
);

/// The image of a disk with a closed program HELLO of the bytes 1, 2 and 3.
fn hello(alloc: Global) -> Result<Vec<u8>, Fail> {
    let mut image = empty_image(alloc)?;
    let entry = place(18, 1);
    put(&mut image, entry.wrapping_add(2), &[0x82, 17, 0]);
    put(&mut image, entry.wrapping_add(5), &[0xa0; 16]);
    put(&mut image, entry.wrapping_add(5), b"HELLO");
    put(&mut image, entry.wrapping_add(30), &[1]);
    put(&mut image, place(18, 0).wrapping_add(68), &[20, 0xfe]);
    put(&mut image, place(17, 0), &[0, 4, 1, 2, 3]);
    Ok(image)
}

/// How a script ends. Nothing is promised here: what `run` ensures would stay in each goal after it.
fn end_of<R: Read + Drop, W: Write>(
    alloc: Global,
    reader: R,
    writer: &mut W,
    image: &[u8],
) -> Option<RunFault> {
    run(alloc, reader, writer, image, &OPEN).err()
}

/// Whether it is told that the next read fails after so many; what was printed is a beginning then.
fn is_read_fault(alloc: Global, image: &[u8], row: Row, calls: u32, kind: ErrorKind) -> bool {
    let (script, text) = row;
    let reader = FaultyReader {
        bytes: script.as_bytes(),
        calls,
        kind,
    };
    let mut out: Vec<u8> = Vec::new(alloc);
    let ended = end_of(alloc, reader, &mut out, image);
    ended == Some(RunFault::Reading) && text.as_bytes().starts_with(out.as_slice())
}

/// The same after each number of reads below this one, up to the first that isn't told.
fn first_untold_read(alloc: Global, row: Row, calls: u32) -> Result<Option<u32>, Fail> {
    let image = hello(alloc)?;
    for kind in [ErrorKind::Interrupted, ErrorKind::Other] {
        for passes in 0..calls {
            if !is_read_fault(alloc, image.as_slice(), row, passes, kind) {
                return Ok(Some(passes));
            }
        }
    }
    Ok(None)
}

#[test]
fn each_read_fails_in_turn(rt: HostRuntime) -> Result<(), Fail> {
    assert!(rt; first_untold_read(rt.alloc(), READING, 23)?.is_none());
    assert!(rt; first_untold_read(rt.alloc(), WRITING, 20)?.is_none());
    Ok(())
}

/// Whether it is told that the next byte isn't written after so many; those are a beginning then.
fn is_write_fault(
    alloc: Global,
    image: &[u8],
    row: Row,
    calls: u32,
    kind: Option<ErrorKind>,
) -> bool {
    let (script, text) = row;
    let mut writer = FaultyWriter {
        bytes: Vec::new(alloc),
        calls,
        kind,
    };
    let ended = end_of(alloc, script.as_bytes(), &mut writer, image);
    ended == Some(RunFault::Writing)
        && writer.bytes.len() == calls as usize
        && text.as_bytes().starts_with(writer.bytes.as_slice())
}

/// The same after each number of bytes below this one, up to the first that isn't told.
fn first_untold_write(alloc: Global, row: Row, calls: u32) -> Result<Option<u32>, Fail> {
    let image = hello(alloc)?;
    for kind in [Some(ErrorKind::Interrupted), Some(ErrorKind::Other), None] {
        for passes in 0..calls {
            if !is_write_fault(alloc, image.as_slice(), row, passes, kind) {
                return Ok(Some(passes));
            }
        }
    }
    Ok(None)
}

#[test]
fn each_write_fails_in_turn(rt: HostRuntime) -> Result<(), Fail> {
    assert!(rt; first_untold_write(rt.alloc(), READING, 55)?.is_none());
    assert!(rt; first_untold_write(rt.alloc(), WRITING, 35)?.is_none());
    Ok(())
}

/// Whether a script ends with the image as it was, or with want of memory.
fn is_whole_or_told(alloc: Global) -> Result<bool, Fail> {
    let image = hello(alloc)?;
    let (script, _) = READING;
    match run(alloc, script.as_bytes(), &mut Sink, image.as_slice(), &OPEN) {
        Ok(saved) => Ok(saved.as_slice() == image.as_slice()),
        Err(fault) => Ok(fault == RunFault::Memory),
    }
}

// The first request for memory is the test's own, the second the disk's, the third that of the image given back.
#[test]
fn want_of_memory_is_told(rt: HostRuntime) -> Result<(), Fail> {
    assert!(rt; is_whole_or_told(rt.alloc())?);
    Ok(())
}

// A transcript's line can't end with a return.
#[test]
fn a_return_is_refused(rt: HostRuntime) -> Result<(), Fail> {
    let image = hello(rt.alloc())?;
    let script = "status\nstatus\r\n".as_bytes();
    assert!(rt;
        end_of(rt.alloc(), script, &mut Sink, image.as_slice()) == Some(RunFault::Script(2))
    );
    Ok(())
}

/// How a script of so many empty lines ends.
fn end_of_lines(alloc: Global, lines: usize) -> Result<Option<RunFault>, Fail> {
    let image = hello(alloc)?;
    let script = vec![in alloc; b'\n'; lines]?;
    Ok(end_of(alloc, script.as_slice(), &mut Sink, image.as_slice()))
}

#[test]
fn a_million_lines_and_one(rt: HostRuntime) -> Result<(), Fail> {
    assert!(rt; end_of_lines(rt.alloc(), 1_000_000)?.is_none());
    assert!(rt; end_of_lines(rt.alloc(), 1_000_001)? == Some(RunFault::Script(1_000_001)));
    Ok(())
}
