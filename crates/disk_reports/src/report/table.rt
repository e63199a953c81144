//! Images as tables, for programs: a line for each file, or for each image.
use super::facts::Facts;
use super::files::{Files, Size, size_of};
use super::{LabelTexts, files_meant, geos_kind, image_answer, label_of, record_of};
use crate::broken::answer_by;
use crate::seen::Seen;
use crate::sum::sum_text;
use crate::view::{Look, LookAnswer, Shown, View};
use cbm_shell::ShellFault;
use cbm_shell::texts::{Charset, words};
use cbm_volume::{Entry, Unsound};
use csv::WriterBuilder;
use disk_basics::calls::name_text;
use disk_facts::{hex, type_of};
use serde::Serialize;
use std::alloc::{AllocError, Global};

/// The heads of the columns of files.
const FILES: &[u8] =
    b"image,name,petscii,type,closed,locked,blocks,bytes,load,track,sector,record,geos\n";

/// Those of images.
const IMAGES: &[u8] =
    b"image,format,tracks,title,id,dos,free,unreadable,sound,track,sector,number,text\n";

/// Those of sums.
const SUMS: &[u8] = b"image,sha256\n";

/// A file.
#[derive(Drop, Serialize)]
struct FileRow<'a> {
    image: &'a str,
    name: String,
    petscii: String,
    kind: &'static str,
    closed: bool,
    locked: bool,
    blocks: u16,
    bytes: Option<usize>,
    load: Option<u16>,
    track: u8,
    sector: u8,
    record: Option<u8>,
    geos: Option<u8>,
}

/// An image.
#[derive(Drop, Serialize)]
struct ImageRow<'a> {
    image: &'a str,
    format: &'static str,
    tracks: Option<u8>,
    title: Option<String>,
    id: Option<String>,
    dos: Option<String>,
    free: Option<u16>,
    unreadable: Option<usize>,
    sound: Option<bool>,
    track: Option<u8>,
    sector: Option<u8>,
    number: Option<u8>,
    text: Option<&'static str>,
}

/// A sum.
#[derive(Drop, Serialize)]
struct SumRow<'a> {
    image: &'a str,
    sha256: &'a str,
}

/// The heads of the columns of what is looked at.
pub fn heads(view: View) -> &'static [u8] {
    match view {
        View::Sum => SUMS,
        View::Facts | View::Soundness => IMAGES,
        _ => FILES,
    }
}

/// A value as a line of a table.
fn line<T: Serialize>(alloc: Global, value: &T) -> Result<Vec<u8>, AllocError> {
    let mut writer = WriterBuilder::new()
        .has_headers(false)
        .from_writer(Vec::new(alloc));
    if writer.serialize(alloc, value).is_err() {
        return Err(AllocError);
    }
    match writer.into_inner() {
        Ok(line) => Ok(line),
        Err(_) => Err(AllocError),
    }
}

/// The line of a file.
fn file_line(
    alloc: Global,
    image: &str,
    entry: &Entry,
    charset: Charset,
    size: Size,
) -> Result<Vec<u8>, AllocError> {
    let first = entry.first_block();
    let row = FileRow {
        image,
        name: name_text(alloc, charset, entry.name())?,
        petscii: hex(alloc, entry.name())?,
        kind: type_of(entry).unwrap_or("unknown"),
        closed: entry.is_closed(),
        locked: entry.is_locked(),
        blocks: entry.blocks(),
        bytes: size.bytes,
        load: size.load,
        track: first.track(),
        sector: first.sector(),
        record: record_of(entry),
        geos: geos_kind(entry),
    };
    line(alloc, &row)
}

/// The lines of the files that are meant. The one error is want of memory.
pub fn file_lines<F: Files>(
    alloc: Global,
    name: &str,
    disk: &F,
    entries: &[Entry],
    look: Look<'_>,
) -> Result<Vec<u8>, AllocError> {
    let mut text = Vec::new(alloc);
    for (number, entry) in entries.iter().enumerate() {
        if files_meant(entry, look) {
            let size = size_of(alloc, disk, entry, number)?;
            let line = file_line(alloc, name, entry, look.charset, size)?;
            text.extend_from_slice(line.as_slice())?;
        }
    }
    Ok(text)
}

/// What the lines of files come to.
fn files_answer(look: Look<'_>, text: &[u8]) -> LookAnswer {
    if look.view == View::Matches && text.is_empty() {
        LookAnswer::NoMatch
    } else {
        LookAnswer::Fine
    }
}

/// The files of an image.
fn files_table(alloc: Global, seen: Seen<'_>, look: Look<'_>) -> Result<Shown, AllocError> {
    let entries = seen.listed.entries.as_slice();
    let text = file_lines(alloc, seen.name, seen.disk, entries, look)?;
    let answer = answer_by(seen.listed, files_answer(look, text.as_slice()));
    Ok(Shown { text, answer })
}

/// The texts of 18/0, none where it can't be read.
fn texts_of(label: Option<LabelTexts>) -> (Option<String>, Option<String>, Option<String>) {
    match label {
        Some(LabelTexts { title, id, dos }) => (Some(title), Some(id), Some(dos)),
        None => (None, None, None),
    }
}

/// Its track.
fn track_of(flaw: Option<Unsound>) -> Option<u8> {
    let flaw = flaw?;
    Some(flaw.track)
}

/// Its sector.
fn sector_of(flaw: Option<Unsound>) -> Option<u8> {
    let flaw = flaw?;
    Some(flaw.sector)
}

/// Its number.
fn number_of(flaw: Option<Unsound>) -> Option<u8> {
    let flaw = flaw?;
    Some(flaw.number)
}

/// What its number means.
fn text_of(flaw: Option<Unsound>) -> Option<&'static str> {
    let flaw = flaw?;
    Some(std::str::from_utf8(words(flaw.number)).unwrap_or("it is not sound"))
}

/// The line of an image or of another disk or archive. The one error is want of memory.
pub fn facts_line(
    alloc: Global,
    name: &str,
    charset: Charset,
    facts: &Facts,
) -> Result<Vec<u8>, AllocError> {
    let (title, id, dos) = texts_of(label_of(alloc, charset, facts.label)?);
    let flaw = facts.flaw();
    let row = ImageRow {
        image: name,
        format: facts.format,
        tracks: facts.tracks,
        title,
        id,
        dos,
        free: facts.free,
        unreadable: facts.unreadable,
        sound: facts.is_sound(),
        track: track_of(flaw),
        sector: sector_of(flaw),
        number: number_of(flaw),
        text: text_of(flaw),
    };
    line(alloc, &row)
}

/// What an image is.
fn image_table(alloc: Global, seen: Seen<'_>, look: Look<'_>) -> Result<Shown, ShellFault> {
    let info = seen.disk.info(alloc)?;
    let facts = Facts::of_image(alloc, seen, &info)?;
    let text = facts_line(alloc, seen.name, look.charset, &facts)?;
    Ok(Shown {
        text,
        answer: image_answer(look, &info, seen.listed),
    })
}

/// The line of a sum. The one error is want of memory.
pub fn sum_row(alloc: Global, image: &str, sha256: &str) -> Result<Vec<u8>, AllocError> {
    line(alloc, &SumRow { image, sha256 })
}

/// The sum of an image. Errors: `Image`, `Mistaken`, `Memory`.
pub fn sum_table(alloc: Global, name: &str, image: &[u8]) -> Result<Shown, ShellFault> {
    let sum = sum_text(alloc, image)?;
    Ok(Shown {
        text: sum_row(alloc, name, sum.as_str())?,
        answer: LookAnswer::Fine,
    })
}

/// What an image shows to programs: lines of a table. Errors: `Image`, `Trouble`, `Memory`.
pub fn table_lines(alloc: Global, seen: Seen<'_>, look: Look<'_>) -> Result<Shown, ShellFault> {
    match look.view {
        View::Facts | View::Soundness => image_table(alloc, seen, look),
        _ => Ok(files_table(alloc, seen, look)?),
    }
}
