//! MAP: a picture of the sectors, with the files that they are of.
mod facts;

use self::facts::map_line;
use cbm_shell::ShellFault;
use cbm_shell::texts::Charset;
use cbm_volume::Entry;
use disk_basics::calls::name_text;
use disk_basics::host::{print, read_to_look, require_apart, require_new, write};
use disk_basics::rests::{add_rests, rests_on};
use disk_basics::{Disk, Failure, in_memory, on_disk};
use disk_facts::{type_of, without_errors};
use disk_json::Named;
use disk_views::{Owner, lettered, row_of, svg_of};
use host_files::Sync;
use std::alloc::{AllocError, Global};
use std::rt::Runtime;

/// The sign of a lost sector in the picture.
const LOST: u8 = b'?';

/// How the sectors of a disk are shown.
#[derive(Clone, Copy)]
pub struct Mapping<'a> {
    /// Letters say which file a sector is of.
    pub has_files: bool,
    /// Where the picture goes as SVG.
    pub svg: Option<&'a str>,
    /// A file that is there is replaced.
    pub replaces: bool,
    /// The character set of names.
    pub charset: Charset,
    /// It is shown on a terminal.
    pub is_coloured: bool,
    /// It is shown for programs.
    pub is_json: bool,
}

/// The file of an entry, as an owner of its sectors.
fn owner_of(
    alloc: Global,
    disk: &Disk,
    slot: usize,
    entry: &Entry,
    charset: Charset,
) -> Result<Owner, AllocError> {
    Ok(Owner {
        slot,
        name: name_text(alloc, charset, entry.name())?,
        kind: type_of(entry).unwrap_or("???"),
        sectors: disk.sectors_of(entry),
    })
}

/// Whether an entry's file has sectors.
fn has_sectors(entry: &Entry) -> bool {
    !entry.is_empty() && entry.is_closed() && !entry.first_block().is_end()
}

/// The files of a disk's directory with their sectors, up to where the directory breaks off.
fn owners_on(alloc: Global, disk: &Disk, charset: Charset) -> Result<Vec<Owner>, AllocError> {
    let listed = disk.listed(alloc)?;
    let mut owners = Vec::new(alloc);
    for (slot, entry) in listed.entries.iter().enumerate() {
        if has_sectors(entry) {
            let owner = owner_of(alloc, disk, slot, entry, charset)?;
            owners.push(owner).map_err(AllocError::from)?;
        }
    }
    Ok(owners)
}

/// The files that are shown. Those of an image with error bytes are followed without these. Errors: `Image`, `Memory`.
fn shown_owners(
    alloc: Global,
    image: &[u8],
    disk: &Disk,
    mapping: Mapping<'_>,
) -> Result<Vec<Owner>, ShellFault> {
    if !mapping.has_files && !mapping.is_json && mapping.svg.is_none() {
        return Ok(Vec::new(alloc));
    }
    let plain = without_errors(image);
    if plain.len() == image.len() {
        return Ok(owners_on(alloc, disk, mapping.charset)?);
    }
    let disk = Disk::open(alloc, plain)?;
    Ok(owners_on(alloc, &disk, mapping.charset)?)
}

/// What is shown of an image's sectors.
#[derive(Clone, Copy)]
struct Sketch<'s> {
    // The picture of the sectors.
    picture: &'s str,
    // The files that they are of.
    owners: &'s [Owner],
    // The files whose rest the lost ones may be.
    rests: &'s [Named],
}

/// Whether a sector of a picture is lost.
fn has_lost(picture: &str) -> bool {
    for line in picture.lines() {
        if let Some(row) = row_of(line) {
            if row.signs.iter().any(|sign| *sign == LOST) {
                return true;
            }
        }
    }
    false
}

/// The files whose rest the lost sectors of a picture may be.
fn shown_rests(
    alloc: Global,
    image: &[u8],
    picture: &str,
    charset: Charset,
) -> Result<Vec<Named>, ShellFault> {
    if !has_lost(picture) {
        return Ok(Vec::new(alloc));
    }
    let disk = Disk::open(alloc, image)?;
    rests_on(alloc, &disk, charset)
}

/// The picture as text, and what lost sectors may be.
fn text_of(alloc: Global, sketch: Sketch<'_>, is_coloured: bool) -> Result<String, AllocError> {
    let mut text = lettered(alloc, sketch.picture, sketch.owners, is_coloured)?;
    add_rests(&mut text, "?", sketch.rests)?;
    Ok(text)
}

/// Writes the picture as SVG, or prints it.
fn show<R: Runtime + AllocGlobal>(
    rt: &R,
    sketch: Sketch<'_>,
    mapping: Mapping<'_>,
) -> Result<(), Failure> {
    let Some(output) = mapping.svg else {
        let text = in_memory(text_of(rt.alloc(), sketch, mapping.is_coloured))?;
        return print(rt, text.as_bytes());
    };
    require_new(rt, output, mapping.replaces)?;
    let text = in_memory(svg_of(rt.alloc(), sketch.picture, sketch.owners))?;
    write(rt, output, text.as_bytes(), Sync::Later)
}

/// Shows the sectors of an image of these bytes. The disk is opened once, unless sectors are lost.
fn show_bytes<R: Runtime + AllocGlobal>(
    rt: &R,
    image: &str,
    bytes: &[u8],
    mapping: Mapping<'_>,
) -> Result<(), Failure> {
    let alloc = rt.alloc();
    let disk = on_disk(alloc, image, Disk::open(alloc, bytes))?;
    let owners = on_disk(alloc, image, shown_owners(alloc, bytes, &disk, mapping))?;
    let free = disk.free();
    let picture = on_disk(alloc, image, disk.into_picture(alloc))?;
    let picture = std::str::from_utf8(picture.as_slice()).unwrap_or("");
    let rests = shown_rests(alloc, bytes, picture, mapping.charset);
    let rests = on_disk(alloc, image, rests)?;
    let sketch = Sketch {
        picture,
        owners: owners.as_slice(),
        rests: rests.as_slice(),
    };
    if mapping.is_json {
        let line = in_memory(map_line(alloc, image, free, sketch))?;
        return print(rt, line.as_slice());
    }
    show(rt, sketch, mapping)
}

/// Shows the sectors of an image. Errors: those of `read_to_look`; `Disk`; `Exists`; `Write`; `NoMemory`.
pub fn show_map<R: Runtime + AllocGlobal>(
    rt: &R,
    image: &str,
    mapping: Mapping<'_>,
) -> Result<(), Failure> {
    require_apart(rt, image, mapping.svg.unwrap_or("-"))?;
    let bytes = read_to_look(rt, image)?;
    show_bytes(rt, image, bytes.as_slice(), mapping)
}
