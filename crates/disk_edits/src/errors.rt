//! ERRORS: the error bytes of a D64, shown, added or dropped.
use cbm_image::{Kind, OF_35_TRACKS, kind_of};
use cbm_medium::Fault;
use disk_basics::calls::info;
use disk_basics::host::{joined, print, read_image, replace};
use disk_basics::{Failure, What, in_memory, on_disk};
use disk_facts::without_errors;
use disk_json::line;
use serde::Serialize;
use std::alloc::{AllocError, Global};
use std::rt::Runtime;

/// The error byte of a sector that reads.
const FINE: u8 = 1;

/// How many sectors a D64 of 35 tracks has, and how many error bytes.
const SECTORS: usize = 683;

/// What is done with error bytes.
#[derive(Clone, Copy)]
pub enum ErrorDeed {
    /// The sectors that don't read with them are shown, for programs if so.
    Show(bool),
    /// They are added, each of which says that all is well.
    Add,
    /// They are dropped, also those that say more, if so.
    Drop(bool),
}

/// The lines of sectors that don't read with the error bytes.
fn lines_of(alloc: Global, faults: &[Fault]) -> Result<String, AllocError> {
    let mut text = String::new(alloc);
    for fault in faults {
        let track = fault.at.track();
        let sector = fault.at.sector();
        let code = fault.code;
        text.push_str(format!(in alloc; "{track}/{sector}  error {code}\n")?.as_str())?;
    }
    Ok(text)
}

/// A sector that doesn't read, for programs.
#[derive(Clone, Copy, Drop, Serialize)]
struct ErrorFacts {
    track: u8,
    sector: u8,
    error: u8,
}

/// The sectors that don't read with the error bytes, for programs.
#[derive(Drop, Serialize)]
struct ErrorsReport<'a> {
    image: &'a str,
    errors: Vec<ErrorFacts>,
}

/// The sectors that don't read with the error bytes, as a line of JSON.
fn errors_line(alloc: Global, image: &str, faults: &[Fault]) -> Result<Vec<u8>, AllocError> {
    let mut errors = Vec::new(alloc);
    for fault in faults {
        let facts = ErrorFacts {
            track: fault.at.track(),
            sector: fault.at.sector(),
            error: fault.code,
        };
        errors.push(facts).map_err(AllocError::from)?;
    }
    line(alloc, &ErrorsReport { image, errors })
}

/// Shows the sectors of an image that don't read with its error bytes.
fn show<R: Runtime + AllocGlobal>(
    rt: &R,
    image: &str,
    bytes: &[u8],
    is_json: bool,
) -> Result<(), Failure> {
    let info = on_disk(rt.alloc(), image, info(rt.alloc(), bytes))?;
    let faults = info.unreadable.as_slice();
    if is_json {
        let line = in_memory(errors_line(rt.alloc(), image, faults))?;
        return print(rt, line.as_slice());
    }
    let lines = in_memory(lines_of(rt.alloc(), faults))?;
    print(rt, lines.as_bytes())
}

/// How many error bytes say more than that all is well.
fn count_other(errors: &[u8]) -> usize {
    let mut count: usize = 0;
    for byte in errors {
        if *byte != FINE {
            count = count.saturating_add(1);
        }
    }
    count
}

/// Reports error bytes that would be lost, and refuses that, unless it is wanted.
fn require_fine(
    alloc: Global,
    rt: &impl Eprint,
    image: &str,
    errors: &[u8],
    is_lossy: bool,
) -> Result<(), Failure> {
    let count = count_other(errors);
    if count == 0 {
        return Ok(());
    }
    let noun = if count == 1 {
        "error byte"
    } else {
        "error bytes"
    };
    let _ = eprintln!(rt; "disk1541: {image} loses {count} {noun} other than 1 (no error)");
    if is_lossy {
        Ok(())
    } else {
        Err(Failure::named(alloc, What::Lossy, image))
    }
}

/// Saves an image without its error bytes.
fn drop_all<R: Runtime + AllocGlobal>(
    rt: &R,
    image: &str,
    bytes: &[u8],
    is_lossy: bool,
) -> Result<(), Failure> {
    let plain = without_errors(bytes);
    require_fine(
        rt.alloc(),
        rt,
        image,
        bytes.get(plain.len()..).unwrap_or(&[]),
        is_lossy,
    )?;
    replace(rt, image, bytes, plain)
}

/// Saves an image with error bytes, each of which says that all is well.
fn add_all<R: Runtime + AllocGlobal>(rt: &R, image: &str, bytes: &[u8]) -> Result<(), Failure> {
    if kind_of(bytes) != Kind::D64 || bytes.len() != OF_35_TRACKS {
        return Err(Failure::named(rt.alloc(), What::NoErrorRoom, image));
    }
    let new = joined(rt.alloc(), &[bytes, &[FINE; SECTORS]])?;
    replace(rt, image, bytes, new.as_slice())
}

/// Shows the sectors of a D64 that don't read with its error bytes, or saves it with such bytes or without them. Errors: those of
/// `read_image`; `NoErrorBytes` and `HasErrorBytes`, where it has none or has some; `NoErrorRoom`, where it can't; `Lossy`, where bytes
/// that say more would be lost; `Disk`; those of `replace`; `Write`; `NoMemory`.
pub fn error_bytes<R: Runtime + AllocGlobal>(
    rt: &R,
    image: &str,
    deed: ErrorDeed,
) -> Result<(), Failure> {
    let bytes = read_image(rt, image)?;
    let has_some = without_errors(bytes.as_slice()).len() != bytes.len();
    match deed {
        ErrorDeed::Add if has_some => Err(Failure::named(rt.alloc(), What::HasErrorBytes, image)),
        ErrorDeed::Add => add_all(rt, image, bytes.as_slice()),
        _ if !has_some => Err(Failure::named(rt.alloc(), What::NoErrorBytes, image)),
        ErrorDeed::Drop(is_lossy) => drop_all(rt, image, bytes.as_slice(), is_lossy),
        ErrorDeed::Show(is_json) => show(rt, image, bytes.as_slice(), is_json),
    }
}
