//! Files that are written: none may be an input or another output.
use crate::arguments::{Arguments, is_standard};
use crate::failure::RunFailure;
use host_locks::is_same;
use std::fs;
use std::io::{self, ErrorKind, Read};
use std::rt::Files;

/// How a trace begins that is a VCD.
const VCD: &[u8] = b"$comment Serial bus";

/// How many bytes of a file show whether it is a trace.
const ROOM: usize = 64;

/// A file that would be overwritten: its first use, and the argument that names it again.
#[derive(Clone, Copy)]
pub struct Clash<'a> {
    /// Its name.
    pub name: &'a str,
    /// What it is already.
    pub is: &'static str,
    /// The word that names it again.
    pub word: &'static str,
}

/// Whether a file that is written is another one of the command line.
fn meets<R: Files + AllocGlobal>(rt: &R, written: &str, other: Option<&str>) -> bool {
    match other {
        Some(other) => !is_standard(written) && !is_standard(other) && is_same(rt, written, other),
        None => false,
    }
}

/// The other use of the trace's file; None if it has none.
fn trace_clash<R: Files + AllocGlobal>(
    rt: &R,
    arguments: &Arguments<'_>,
    trace: &str,
) -> Option<&'static str> {
    if meets(rt, trace, Some(arguments.image)) {
        return Some("IMAGE");
    }
    if meets(rt, trace, Some(arguments.script)) {
        return Some("SCRIPT");
    }
    if meets(rt, trace, arguments.out) {
        return Some("OUT");
    }
    None
}

/// The first file that would be overwritten although the command line names it for another use. OUT may be IMAGE.
pub fn clash_of<'a, R: Files + AllocGlobal>(
    rt: &R,
    arguments: &Arguments<'a>,
) -> Option<Clash<'a>> {
    if let Some(name) = arguments.out
        && meets(rt, name, Some(arguments.script))
    {
        return Some(Clash {
            name,
            is: "SCRIPT",
            word: "OUT",
        });
    }
    let name = arguments.trace?;
    let is = trace_clash(rt, arguments, name)?;
    Some(Clash {
        name,
        is,
        word: "--trace",
    })
}

/// The bytes from the first on that is no digit.
fn after_digits(bytes: &[u8]) -> &[u8] {
    for (place, byte) in bytes.iter().enumerate() {
        if !byte.is_ascii_digit() {
            return bytes.get(place..).unwrap_or(&[]);
        }
    }
    &[]
}

/// Whether bytes are the beginning of a trace: of a VCD, or of a line, which has a moment and then the host or a drive's number.
fn begins_as_trace(bytes: &[u8]) -> bool {
    if bytes.starts_with(VCD) {
        return true;
    }
    matches!(bytes, [b'0'..=b'9', ..])
        && matches!(after_digits(bytes), [b' ', b'h' | b'0'..=b'9', ..])
}

/// Whether a file is empty, or begins as a trace does.
fn is_trace<R: Files + AllocGlobal>(rt: &R, name: &str) -> io::Result<bool> {
    let mut file = fs::open(rt, name)?;
    let mut room = [0; ROOM];
    let count = file.read(&mut room)?;
    let bytes = room.get(..count).unwrap_or(&[]);
    Ok(bytes.is_empty() || begins_as_trace(bytes))
}

/// Refuses to write a trace over a file that is none. Errors: `NoTrace`; `File`, where it can't be read; `NoMemory`.
pub fn require_trace<R: Files + AllocGlobal>(
    rt: &R,
    arguments: &Arguments<'_>,
) -> Result<(), RunFailure> {
    let Some(name) = arguments.trace else {
        return Ok(());
    };
    match fs::metadata(rt, name) {
        Ok(found) if found.is_file() && !is_standard(name) => {}
        _ => return Ok(()),
    }
    match is_trace(rt, name) {
        Ok(true) => Ok(()),
        Err(error) if error.kind() == ErrorKind::OutOfMemory => Err(RunFailure::NoMemory),
        // What can't be read is no trace that this program wrote.
        Ok(false) | Err(_) => Err(RunFailure::NoTrace),
    }
}
