//! Which files are transferred, for programs.
use super::Transfer;
use cbm_shell::texts::Charset;
use cbm_volume::Entry;
use disk_basics::rests::named;
use disk_facts::type_of;
use disk_json::{Named, line};
use serde::Serialize;
use std::alloc::{AllocError, Global};

/// A file that is transferred, or can't be: its slot is that in the disk or the archive that has it.
#[derive(Drop, Serialize)]
pub struct MovedFile {
    slot: usize,
    name: String,
    petscii: String,
    #[serde(rename = "type")]
    kind: Option<&'static str>,
    blocks: u16,
}

/// Which files are transferred, and which can't be.
#[derive(Drop, Serialize)]
struct TransferReport<'a> {
    image: &'a str,
    from: &'a str,
    dry_run: bool,
    files: &'a [MovedFile],
    left: &'a [MovedFile],
}

/// The file of an entry. The one error is want of memory.
pub fn moved_file(
    alloc: Global,
    charset: Charset,
    slot: usize,
    entry: &Entry,
) -> Result<MovedFile, AllocError> {
    let Named {
        slot,
        name,
        petscii,
    } = named(alloc, charset, slot, entry)?;
    Ok(MovedFile {
        slot,
        name,
        petscii,
        kind: type_of(entry),
        blocks: entry.blocks(),
    })
}

/// Which files are transferred to an image, and which can't be, as a line of JSON. The one error is want of memory.
pub fn transfer_line(
    alloc: Global,
    image: &str,
    wanted: &Transfer<'_, '_>,
    files: &[MovedFile],
    left: &[MovedFile],
) -> Result<Vec<u8>, AllocError> {
    let report = TransferReport {
        image,
        from: wanted.from,
        dry_run: wanted.is_dry,
        files,
        left,
    };
    line(alloc, &report)
}
