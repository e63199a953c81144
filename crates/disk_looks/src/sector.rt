//! SECTOR: the bytes of a sector.
use cbm_medium::Address;
use cbm_shell::ShellFault;
use cbm_shell::texts::{Charset, key_of};
use cbm_volume::Trouble;
use disk_basics::calls::sector;
use disk_basics::host::{print, read_to_look};
use disk_basics::{Failure, What, WordFault, in_memory, on_disk};
use disk_facts::hex;
use disk_json::{Sector, line};
use serde::Serialize;
use std::alloc::{AllocError, Global};
use std::rt::Runtime;

/// How many bytes stand in a line.
const WIDTH: usize = 16;

/// A number of the command line.
fn number(alloc: Global, word: &str) -> Result<u8, Failure> {
    match word.parse::<u8>() {
        Ok(number) => Ok(number),
        Err(_) => Err(Failure::named(alloc, What::Word(WordFault::Sector), word)),
    }
}

/// The sector that is meant.
fn address(alloc: Global, track: &str, sector: &str) -> Result<Address, Failure> {
    match Address::new(number(alloc, track)?, number(alloc, sector)?) {
        Some(at) => Ok(at),
        None => Err(Failure::named(alloc, What::Word(WordFault::Sector), sector)),
    }
}

/// The character of a code, a point where no key types it.
fn shown(code: u8) -> char {
    match key_of(Charset::Upper, code) {
        '{' => '.',
        key => key,
    }
}

/// Adds a byte in digits, and what stands after it.
fn add_byte(alloc: Global, text: &mut String, byte: u8, end: &str) -> Result<(), AllocError> {
    let digits = hex(alloc, &[byte])?;
    text.push_str(digits.as_str())?;
    text.push_str(end)
}

/// Adds the bytes of a line in digits.
fn add_digits(alloc: Global, text: &mut String, bytes: &[u8]) -> Result<(), AllocError> {
    for byte in bytes {
        add_byte(alloc, text, *byte, " ")?;
    }
    Ok(())
}

/// Adds a line: where it begins, its bytes, and the characters that they are.
fn add_line(alloc: Global, text: &mut String, place: u8, bytes: &[u8]) -> Result<(), AllocError> {
    add_byte(alloc, text, place, "  ")?;
    add_digits(alloc, text, bytes)?;
    text.push(' ')?;
    for code in bytes {
        text.push(shown(*code))?;
    }
    text.push('\n')
}

/// The lines of a sector.
fn lines_of(alloc: Global, bytes: &[u8; 256]) -> Result<String, AllocError> {
    let mut text = String::new(alloc);
    for line in 0..16u8 {
        let from = WIDTH * usize::from(line);
        add_line(alloc, &mut text, 16 * line, &bytes[from..from + WIDTH])?;
    }
    Ok(text)
}

/// The bytes of a sector, or the code of what stands in their place.
type Reading = Result<[u8; 256], u8>;

/// A sector, for programs.
#[derive(Drop, Serialize)]
struct SectorReport<'a> {
    image: &'a str,
    track: u8,
    sector: u8,
    error: Option<u8>,
    link: Option<Sector>,
    bytes: Option<String>,
}

/// The sector that the first two bytes name; None in the last one of a chain.
fn link_of(bytes: &[u8; 256]) -> Option<Sector> {
    match *bytes {
        [0, ..] => None,
        [track, sector, ..] => Some(Sector { track, sector }),
    }
}

/// A sector as a line of JSON.
fn sector_line(
    alloc: Global,
    image: &str,
    at: Address,
    reading: &Reading,
) -> Result<Vec<u8>, AllocError> {
    let (error, link, bytes) = match reading {
        Ok(bytes) => (None, link_of(bytes), Some(hex(alloc, bytes)?)),
        Err(code) => (Some(*code), None, None),
    };
    let report = SectorReport {
        image,
        track: at.track(),
        sector: at.sector(),
        error,
        link,
        bytes,
    };
    line(alloc, &report)
}

/// The bytes of a sector, or what stands in their place. Errors: `NoTrack`, `Disk`.
fn reading_at(alloc: Global, image: &str, bytes: &[u8], at: Address) -> Result<Reading, Failure> {
    match on_disk(alloc, image, sector(alloc, bytes, at))? {
        Some(reading) => Ok(reading),
        None => Err(Failure::named(alloc, What::NoTrack, image)),
    }
}

/// The failure of a sector that doesn't read.
fn unread(alloc: Global, image: &str, at: Address, code: u8) -> Failure {
    Failure::named(
        alloc,
        What::Disk(ShellFault::Trouble(Trouble {
            code,
            track: at.track(),
            sector: at.sector(),
        })),
        image,
    )
}

/// Prints a sector, for people or for programs.
fn print_reading<R: Runtime + AllocGlobal>(
    rt: &R,
    image: &str,
    at: Address,
    reading: &Reading,
    is_json: bool,
) -> Result<(), Failure> {
    if is_json {
        let line = in_memory(sector_line(rt.alloc(), image, at, reading))?;
        print(rt, line.as_slice())?;
    }
    match reading {
        Err(code) => Err(unread(rt.alloc(), image, at, *code)),
        Ok(_) if is_json => Ok(()),
        Ok(bytes) => {
            let lines = in_memory(lines_of(rt.alloc(), bytes))?;
            print(rt, lines.as_bytes())
        }
    }
}

/// Shows the bytes of a sector. Errors: `Word`, where no disk has such a sector; those of `read_to_look`; `NoTrack`, where
/// this one hasn't; `Disk`, where it doesn't read; `Write`; `NoMemory`.
pub fn show_sector<R: Runtime + AllocGlobal>(
    rt: &R,
    image: &str,
    track: &str,
    sector: &str,
    is_json: bool,
) -> Result<(), Failure> {
    let at = address(rt.alloc(), track, sector)?;
    let bytes = read_to_look(rt, image)?;
    let reading = reading_at(rt.alloc(), image, bytes.as_slice(), at)?;
    print_reading(rt, image, at, &reading, is_json)
}
