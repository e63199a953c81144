//! Files on this computer with the head of the emulator PC64: a file's name, and the length of a relative file's records.
use cbm_shell::texts::Charset;
use cbm_volume::Entry;
use disk_basics::calls::name_text;
use disk_basics::is_relative_name;
use std::alloc::{AllocError, Global};
use std::io;
use std::path::Path;

/// What the head begins with.
const BEGINNING: &[u8; 8] = b"C64File\0";

/// How many bytes of the head a name has.
const NAME: usize = 16;

/// The ending of such a file's name.
pub const ENDING: &str = "r00";

/// The bytes of whole records, and what follows the last one in its block.
fn split_records(bytes: &[u8], length: u8) -> (&[u8], &[u8]) {
    match bytes.len().checked_rem(usize::from(length)) {
        Some(rest) => bytes.split_at(bytes.len().saturating_sub(rest)),
        None => (bytes, &[]),
    }
}

/// Adds what follows the last whole record as a record more, filled with zeros; nothing where it is zeros, as the drive leaves it.
fn add_rest(file: &mut Vec<u8>, rest: &[u8], length: u8) -> Result<(), AllocError> {
    if rest.iter().all(|byte| *byte == 0) {
        return Ok(());
    }
    file.extend_from_slice(rest)?;
    for _ in rest.len()..usize::from(length) {
        file.push(0)?;
    }
    Ok(())
}

/// Whether a name has the ending of a file of bytes of PC64: P, S or U, and two digits.
fn is_wrapped_name(file: &str) -> bool {
    match Path::new(file).extension() {
        Some(ending) => matches!(
            ending.as_bytes(),
            [
                b'P' | b'p' | b'S' | b's' | b'U' | b'u',
                b'0'..=b'9',
                b'0'..=b'9'
            ]
        ),
        None => false,
    }
}

/// The head: its beginning, the name in sixteen bytes, a 0, and the length of the records, 0 where it has none.
fn head_of(alloc: Global, entry: &Entry) -> Result<Vec<u8>, AllocError> {
    let mut head = Vec::from_slice(alloc, BEGINNING)?;
    let name = entry.name();
    head.extend_from_slice(name)?;
    for _ in name.len()..NAME {
        head.push(0)?;
    }
    let length = if entry.is_relative() {
        entry.record_length()
    } else {
        0
    };
    head.extend_from_slice(&[0, length])?;
    Ok(head)
}

/// The file of this computer for a relative file of these bytes; those of any other file as they are. The one error is
/// want of memory.
pub fn packed(alloc: Global, entry: &Entry, bytes: Vec<u8>) -> Result<Vec<u8>, AllocError> {
    if !entry.is_relative() {
        return Ok(bytes);
    }
    let length = entry.record_length();
    let (records, rest) = split_records(bytes.as_slice(), length);
    let mut file = head_of(alloc, entry)?;
    file.extend_from_slice(records)?;
    add_rest(&mut file, rest, length)?;
    Ok(file)
}

/// Reports the length of the records of a file that is written without a head.
fn tell_length(rt: &impl Eprint, name: &str, length: u8) -> io::Result<()> {
    eprintln!(rt; "disk1541: {name} has records of {length} bytes; `-o FILE.r00` keeps that length")
}

/// Reports the length of the records of an entry's file, which is written without a head.
fn tell_records<R: Eprint + AllocGlobal>(rt: &R, entry: &Entry) -> Result<(), AllocError> {
    let name = name_text(rt.alloc(), Charset::Upper, entry.name())?;
    let _ = tell_length(rt, name.as_str(), entry.record_length());
    Ok(())
}

/// The file of this computer for a file of bytes: with the head.
fn wrapped(alloc: Global, entry: &Entry, bytes: &[u8]) -> Result<Vec<u8>, AllocError> {
    let mut file = head_of(alloc, entry)?;
    file.extend_from_slice(bytes)?;
    Ok(file)
}

/// The file of this computer for an entry's file of these bytes, which goes to a file of a name: with a head, if that name has PC64's
/// ending for such files. The length of a relative file's records is reported without one. The one error is want of memory.
pub fn packed_as<R: Eprint + AllocGlobal>(
    rt: &R,
    entry: &Entry,
    output: &str,
    bytes: Vec<u8>,
) -> Result<Vec<u8>, AllocError> {
    if is_relative_name(output) {
        return packed(rt.alloc(), entry, bytes);
    }
    if entry.is_relative() {
        tell_records(rt, entry)?;
    } else if is_wrapped_name(output) {
        return wrapped(rt.alloc(), entry, bytes.as_slice());
    }
    Ok(bytes)
}
