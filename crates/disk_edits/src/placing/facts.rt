//! Where the blocks of files lie, for programs.
use crate::shown::text_of;
use cbm_medium::Address;
use cbm_shell::texts::Charset;
use cbm_volume::Entry;
use disk_basics::rests::named;
use disk_json::{Named, Sector, line, sectors_of};
use serde::Serialize;
use std::alloc::{AllocError, Global};

/// A file and where its blocks lie, in order.
#[derive(Drop, Serialize)]
pub struct LaidFile {
    slot: usize,
    name: String,
    petscii: String,
    sectors: Vec<Sector>,
}

/// Where the blocks of files lie.
#[derive(Drop, Serialize)]
struct LaidReport<'a> {
    image: &'a str,
    dry_run: bool,
    files: &'a [LaidFile],
}

/// A file whose blocks lie at these places. The one error is want of memory.
pub fn laid_file(
    alloc: Global,
    charset: Charset,
    slot: usize,
    entry: &Entry,
    places: &[Address],
) -> Result<LaidFile, AllocError> {
    let Named {
        slot,
        name,
        petscii,
    } = named(alloc, charset, slot, entry)?;
    Ok(LaidFile {
        slot,
        name,
        petscii,
        sectors: sectors_of(alloc, places)?,
    })
}

/// Where the blocks of these files lie, as a line of JSON. The one error is want of memory.
pub fn laid_line(
    alloc: Global,
    image: &str,
    files: &[LaidFile],
    dry_run: bool,
) -> Result<String, AllocError> {
    let report = LaidReport {
        image,
        dry_run,
        files,
    };
    text_of(alloc, line(alloc, &report)?.as_slice())
}
