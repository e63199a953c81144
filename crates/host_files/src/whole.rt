//! Reading a file whole, if it isn't longer than it may be.
use std::alloc::Global;
use std::fs::OpenFile;
use std::io::{self, Read};

/// The most bytes of an image: a G64 with its head and tables (684 bytes), and 84 tracks, each of two bytes for its length,
/// 7,928 bytes, and 1,982 bytes of a map of its speeds.
pub const GREATEST_IMAGE: u64 = 833_292;

/// Reads to the end, behind what is there. None if there are more than this many bytes: then one of them more was read, and none is kept.
fn read_on<I: Read + Drop>(mut bytes: Vec<u8>, input: I, most: u64) -> io::Result<Option<Vec<u8>>> {
    let mut input = input.take(most.saturating_add(1));
    let count = input.read_to_end(&mut bytes)?;
    Ok(if count as u64 > most {
        None
    } else {
        Some(bytes)
    })
}

/// Reads to the end. None if there are more than this many bytes: then one of them more was read, and none is kept.
pub fn read_whole<I: Read + Drop>(
    alloc: Global,
    input: I,
    most: u64,
) -> io::Result<Option<Vec<u8>>> {
    read_on(Vec::new(alloc), input, most)
}

/// As `read_whole`, a file: room for as many bytes as it has is made at once.
pub fn read_file<F: Read + OpenFile + Drop>(
    alloc: Global,
    file: F,
    most: u64,
) -> io::Result<Option<Vec<u8>>> {
    let length = file.metadata()?.len().min(most).saturating_add(1);
    let room = usize::try_from(length).unwrap_or(0);
    read_on(Vec::with_capacity(alloc, room)?, file, most)
}
