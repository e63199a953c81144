//! Calls of a disk that answer plain numbers: what a call promises stays out of the tests.
use cbm_medium::{Address, Fault, Medium};

/// The code of a fault, 0 if a call was done.
pub fn code_of<T: Drop>(answer: Result<T, Fault>) -> u8 {
    answer.err().map_or(0, |fault| fault.code)
}

/// The code that a read answers, 0 if it gives the bytes, and 255 if the disk has no such sector.
pub fn read_code<M: Medium>(disk: &M, track: u8, sector: u8) -> u8 {
    match Address::new(track, sector) {
        Some(at) if at.track() <= disk.tracks() => code_of(disk.read(at)),
        _ => 255,
    }
}

/// The code that a write of one byte 256 times answers.
pub fn write_code<M: Medium>(disk: &mut M, track: u8, sector: u8, byte: u8) -> u8 {
    match Address::new(track, sector) {
        Some(at) if at.track() <= disk.tracks() => code_of(disk.write(at, &[byte; 256])),
        _ => 255,
    }
}

pub fn format_code<M: Medium>(disk: &mut M) -> u8 {
    code_of(disk.format([65, 66]))
}

/// Whether a sector holds one byte 256 times.
pub fn shows<M: Medium>(disk: &M, track: u8, sector: u8, byte: u8) -> bool {
    match Address::new(track, sector) {
        Some(at) if at.track() <= disk.tracks() => match disk.read(at) {
            Ok(bytes) => bytes == [byte; 256],
            Err(_) => false,
        },
        _ => false,
    }
}
