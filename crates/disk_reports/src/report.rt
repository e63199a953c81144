//! Images for programs: as JSON, and as tables.
mod facts;
mod files;
mod table;

use self::files::{Size, size_of};
use crate::broken::answer_by;
use crate::flaws::flaw_report;
use crate::seen::Seen;
use crate::sum::sum_text;
use crate::unlinked::UnlinkedSector;
use crate::view::{Look, LookAnswer, Shown, View, answer_of};
use cbm_shell::texts::{Charset, words};
use cbm_shell::{Geos, Info, Listed, ShellFault, geos_of};
use cbm_volume::{Entry, Label, Unsound};
use disk_basics::BreakOff;
use disk_basics::calls::name_text;
use disk_facts::{WideMap, hex, is_meant, kind_name, type_of, unfilled};
use disk_json::{Sector, line};
pub use facts::Facts;
pub use files::Files;
use serde::Serialize;
use std::alloc::{AllocError, Global};
pub use table::{facts_line, file_lines, heads, sum_row, sum_table, table_lines};

/// What is wrong with a disk first.
#[derive(Drop, Serialize)]
struct Flaw {
    track: u8,
    sector: u8,
    number: u8,
    text: &'static str,
}

/// What GEOS says of a file.
#[derive(Drop, Serialize)]
struct GeosFacts {
    kind: u8,
    text: &'static str,
    records: bool,
}

/// A file of a disk.
#[derive(Drop, Serialize)]
pub struct File {
    slot: usize,
    name: String,
    petscii: String,
    behind: Option<String>,
    #[serde(rename = "type")]
    kind: &'static str,
    closed: bool,
    locked: bool,
    blocks: u16,
    bytes: Option<usize>,
    load: Option<u16>,
    first: Sector,
    record: Option<u8>,
    geos: Option<GeosFacts>,
}

/// What 18/0 says of a disk.
#[derive(Drop, Serialize)]
struct LabelTexts {
    title: String,
    id: String,
    dos: String,
}

/// An image.
#[derive(Drop, Serialize)]
struct Report<'a> {
    image: &'a str,
    format: &'static str,
    tracks: Option<u8>,
    more_tracks: Vec<String>,
    map_36_40: Option<&'static str>,
    label: Option<LabelTexts>,
    free: Option<u16>,
    unreadable: Option<usize>,
    sound: Option<bool>,
    flaw: Option<Flaw>,
    odd: Vec<usize>,
    files: Vec<File>,
    broken: Option<Broken>,
    unlinked: Vec<UnlinkedSector>,
}

/// Where a directory breaks off.
#[derive(Drop, Serialize)]
pub struct Broken {
    /// After how many entries.
    pub entries: usize,
    /// The sector to which a link leads; None where none does.
    pub track: Option<u8>,
    /// Its number on the track.
    pub sector: Option<u8>,
    /// Why it isn't read.
    pub error: Option<u8>,
    /// The same in words.
    pub text: String,
}

/// The sum of an image.
#[derive(Drop, Serialize)]
struct Sum<'a> {
    image: &'a str,
    sha256: &'a str,
}

/// An image that can't be looked at, with the exit status, and why.
#[derive(Drop, Serialize)]
struct Refused<'a> {
    image: &'a str,
    status: u8,
    error: &'a str,
}

/// What GEOS says of a file of its own.
fn geos_facts(geos: Option<Geos>) -> Option<GeosFacts> {
    let geos = geos?;
    Some(GeosFacts {
        kind: geos.kind,
        text: kind_name(geos.kind),
        records: geos.has_records,
    })
}

/// GEOS's type of a file of its own.
fn geos_kind(entry: &Entry) -> Option<u8> {
    let geos = geos_of(entry)?;
    Some(geos.kind)
}

/// The length of the records of a relative file.
fn record_of(entry: &Entry) -> Option<u8> {
    if entry.is_relative() {
        Some(entry.record_length())
    } else {
        None
    }
}

/// What stands behind the end of a name, as `,8,1`; none if nothing does.
fn behind_name(entry: &Entry) -> Option<&[u8]> {
    let from = entry.name().len().saturating_add(4);
    let text = unfilled(entry.bytes().get(from..19)?);
    if text.is_empty() { None } else { Some(text) }
}

/// The same in a character set. The one error is want of memory.
fn behind_text(
    alloc: Global,
    charset: Charset,
    entry: &Entry,
) -> Result<Option<String>, AllocError> {
    match behind_name(entry) {
        Some(codes) => Ok(Some(name_text(alloc, charset, codes)?)),
        None => Ok(None),
    }
}

/// A file, with its name and its size.
fn file_of(
    alloc: Global,
    slot: usize,
    entry: &Entry,
    charset: Charset,
    size: Size,
) -> Result<File, AllocError> {
    let name = name_text(alloc, charset, entry.name())?;
    let petscii = hex(alloc, entry.name())?;
    let first = entry.first_block();
    Ok(File {
        slot,
        name,
        petscii,
        behind: behind_text(alloc, charset, entry)?,
        kind: type_of(entry).unwrap_or("unknown"),
        closed: entry.is_closed(),
        locked: entry.is_locked(),
        blocks: entry.blocks(),
        bytes: size.bytes,
        load: size.load,
        first: Sector {
            track: first.track(),
            sector: first.sector(),
        },
        record: record_of(entry),
        geos: geos_facts(geos_of(entry)),
    })
}

/// Whether the file of an entry is meant.
fn files_meant(entry: &Entry, look: Look<'_>) -> bool {
    is_meant(entry, look.pattern)
}

/// The files that are meant. The one error is want of memory.
pub fn files_of<F: Files>(
    alloc: Global,
    disk: &F,
    entries: &[Entry],
    look: Look<'_>,
) -> Result<Vec<File>, AllocError> {
    let mut files = Vec::new(alloc);
    for (slot, entry) in entries.iter().enumerate() {
        if files_meant(entry, look) {
            let size = size_of(alloc, disk, entry, slot)?;
            let file = file_of(alloc, slot, entry, look.charset, size)?;
            files.push(file).map_err(AllocError::from)?;
        }
    }
    Ok(files)
}

/// Where a directory breaks off.
fn broken_of(alloc: Global, listed: &Listed) -> Result<Option<Broken>, AllocError> {
    let Some(trouble) = listed.trouble else {
        return Ok(None);
    };
    let end = BreakOff {
        entries: listed.entries.len(),
        trouble,
    };
    Ok(Some(Broken {
        entries: end.entries,
        track: Some(trouble.track),
        sector: Some(trouble.sector),
        error: Some(trouble.code),
        text: format!(in alloc; "{end}")?,
    }))
}

/// What 18/0 says of a disk, where it can be read.
fn label_of(
    alloc: Global,
    charset: Charset,
    label: Option<Label>,
) -> Result<Option<LabelTexts>, AllocError> {
    let Some(label) = label else {
        return Ok(None);
    };
    let [first, second, _, dos, version] = label.mark;
    let title = name_text(alloc, charset, unfilled(label.title.as_slice()))?;
    let id = name_text(alloc, charset, &[first, second])?;
    let dos = name_text(alloc, charset, &[dos, version])?;
    Ok(Some(LabelTexts { title, id, dos }))
}

/// What is wrong with a disk first.
fn flaw_of(unsound: Option<Unsound>) -> Option<Flaw> {
    let unsound = unsound?;
    Some(Flaw {
        track: unsound.track,
        sector: unsound.sector,
        number: unsound.number,
        text: std::str::from_utf8(words(unsound.number)).unwrap_or("it is not sound"),
    })
}

/// Whose map of tracks 36 to 40 a D64 has, if it has one.
fn map_word(map: Option<WideMap>) -> Option<&'static str> {
    match map? {
        WideMap::Speed => Some("speed"),
        WideMap::Dolphin => Some("dolphin"),
        WideMap::Both => Some("both"),
    }
}

/// What is known of an image, and what a look at it came to.
#[derive(Drop)]
struct Known {
    facts: Facts,
    files: Vec<File>,
    broken: Option<Broken>,
    answer: LookAnswer,
}

/// What is known of an image.
fn all_known(alloc: Global, seen: Seen<'_>, look: Look<'_>) -> Result<Known, ShellFault> {
    let files = files_of(alloc, seen.disk, seen.listed.entries.as_slice(), look)?;
    let info = seen.disk.info(alloc)?;
    let broken = broken_of(alloc, seen.listed)?;
    let answer = image_answer(look, &info, seen.listed);
    Ok(Known {
        facts: Facts::of_image(alloc, seen, &info)?,
        files,
        broken,
        answer,
    })
}

/// The line of an image or of another disk or archive, with what is known of it. The one error is want of memory.
pub fn known_line(
    alloc: Global,
    name: &str,
    charset: Charset,
    facts: Facts,
    files: Vec<File>,
    broken: Option<Broken>,
) -> Result<Vec<u8>, AllocError> {
    let label = label_of(alloc, charset, facts.label)?;
    let sound = facts.is_sound();
    let flaw = flaw_of(facts.flaw());
    let map_36_40 = map_word(facts.map);
    let report = Report {
        image: name,
        format: facts.format,
        tracks: facts.tracks,
        more_tracks: facts.more_tracks,
        map_36_40,
        label,
        free: facts.free,
        unreadable: facts.unreadable,
        sound,
        flaw,
        odd: facts.odd,
        files,
        broken,
        unlinked: facts.unlinked,
    };
    line(alloc, &report)
}

/// What a look came to.
fn image_answer(look: Look<'_>, info: &Info, listed: &Listed) -> LookAnswer {
    if look.view == View::Soundness {
        answer_of(&info.check)
    } else {
        answer_by(listed, LookAnswer::Fine)
    }
}

/// An image and its files; nothing where a search found none.
fn image_report(alloc: Global, seen: Seen<'_>, look: Look<'_>) -> Result<Shown, ShellFault> {
    let Known {
        facts,
        files,
        broken,
        answer,
    } = all_known(alloc, seen, look)?;
    if look.view == View::Matches && files.is_empty() && broken.is_none() {
        return Ok(Shown {
            text: Vec::new(alloc),
            answer: LookAnswer::NoMatch,
        });
    }
    let text = known_line(alloc, seen.name, look.charset, facts, files, broken)?;
    Ok(Shown { text, answer })
}

/// The line of a sum. The one error is want of memory.
pub fn sum_line(alloc: Global, image: &str, sha256: &str) -> Result<Vec<u8>, AllocError> {
    line(alloc, &Sum { image, sha256 })
}

/// The sum of an image. Errors: `Image`, `Mistaken`, `Memory`.
pub fn sum_report(alloc: Global, name: &str, image: &[u8]) -> Result<Shown, ShellFault> {
    let sum = sum_text(alloc, image)?;
    Ok(Shown {
        text: sum_line(alloc, name, sum.as_str())?,
        answer: LookAnswer::Fine,
    })
}

/// What an image shows to programs: a line of JSON. Errors: `Image`, `Trouble`, `Memory`.
pub fn report_line(alloc: Global, seen: Seen<'_>, look: Look<'_>) -> Result<Shown, ShellFault> {
    match look.view {
        View::Flaws => flaw_report(alloc, seen.name, seen.image, look),
        _ => image_report(alloc, seen, look),
    }
}

/// The line of an image that can't be looked at, and why. The one error is want of memory.
pub fn refusal_line(
    alloc: Global,
    image: &str,
    status: u8,
    error: &str,
) -> Result<Vec<u8>, AllocError> {
    line(
        alloc,
        &Refused {
            image,
            status,
            error,
        },
    )
}
