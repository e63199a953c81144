//! CONVERT: an image in the other format, or of another disk or archive.
mod beyond;

use self::beyond::{tell_lost, tell_unheld};
use crate::moving::Way;
use crate::origin::{Origin, other_entries};
use crate::other::Other;
use crate::transferring::with_all;
use cbm_image::Kind;
use cbm_shell::texts::Charset;
use disk_basics::changing::new_image;
use disk_basics::host::{read_any, require_apart, require_new, require_ours, write};
use disk_basics::spare::sixteen;
use disk_basics::{Failure, What, WordFault, form, format, in_memory, name_of_file};
use disk_changes::{Conversion, convert_from};
use disk_facts::unfilled;
use host_files::Sync;
use std::alloc::Global;
use std::rt::Runtime;

/// How many tracks the disk of an archive's files gets.
const TRACKS: &str = "35";

/// The id of a disk of files that had none.
const ID: [u8; 2] = *b"64";

/// The image of an empty disk with the title and the id of another one; for an archive the title is that of the image's name.
fn blank_for(
    alloc: Global,
    other: &Other<'_>,
    output: &str,
    kind: Kind,
) -> Result<Vec<u8>, Failure> {
    let form = form(alloc, kind, TRACKS)?;
    if let Some(label) = other.label() {
        let [first, second, _, _, _] = label.mark;
        let title = sixteen(unfilled(label.title.as_slice()));
        return in_memory(new_image(alloc, form, title, [first, second]));
    }
    let title = match name_of_file(alloc, Charset::Upper, output) {
        Ok(title) => title,
        Err(failure) if matches!(failure.what, What::NoMemory) => return Err(failure),
        Err(_failure) => Vec::new(alloc),
    };
    in_memory(new_image(alloc, form, sixteen(title.as_slice()), ID))
}

/// A new image with all files of a disk or an archive. Errors: those of `with_all`; `Told`, where the directory breaks off.
fn filled<R: Runtime + AllocGlobal>(
    rt: &R,
    image: &str,
    other: Other<'_>,
    output: &str,
    kind: Kind,
) -> Result<Vec<u8>, Failure> {
    let blank = blank_for(rt.alloc(), &other, output, kind)?;
    let found = other_entries(rt.alloc(), &other)?;
    if !found.end.tell(rt, image) {
        return Err(Failure::new(What::Told));
    }
    let origin = Origin::Other(other);
    let way = Way {
        origin: &origin,
        to: output,
        replaces: false,
    };
    with_all(rt, way, blank.as_slice(), found.entries.as_slice(), &[])
}

/// Makes an image of the sectors up to track 40 of a D64 of another size, if all its files lie there.
fn convert_cut<R: Runtime + AllocGlobal>(
    rt: &R,
    image: &str,
    other: &Other<'_>,
    cut: &Other<'_>,
    wanted: &Conversion<'_>,
    kind: Kind,
) -> Result<(), Failure> {
    if tell_unheld(rt, image, other, cut)? {
        return Err(Failure::new(What::Told));
    }
    require_unlost(rt.alloc(), rt, other, wanted)?;
    if kind == Kind::G64 {
        return convert_from(rt, image, cut.bytes(), wanted, kind);
    }
    write(rt, wanted.output, cut.bytes(), Sync::Before)
}

/// Reports what the new image lacks, and refuses it then, unless that is wanted.
fn require_unlost(
    alloc: Global,
    rt: &impl Eprint,
    other: &Other<'_>,
    wanted: &Conversion<'_>,
) -> Result<(), Failure> {
    if tell_lost(rt, wanted.output, other) && !wanted.is_lossy {
        return Err(Failure::named(alloc, What::Lossy, wanted.output));
    }
    Ok(())
}

/// Refuses a number of tracks for the image of another disk or archive: it has its own, or 35.
fn require_no_tracks(alloc: Global, image: &str, wanted: &Conversion<'_>) -> Result<(), Failure> {
    match wanted.tracks {
        None => Ok(()),
        Some(_) => Err(Failure::named(alloc, What::Word(WordFault::OtherTracks), image)),
    }
}

/// Makes an image of another disk or archive, if nothing is there, and reports what it lacks.
fn convert_other<R: Runtime + AllocGlobal>(
    rt: &R,
    image: &str,
    other: Other<'_>,
    wanted: &Conversion<'_>,
    kind: Kind,
) -> Result<(), Failure> {
    require_no_tracks(rt.alloc(), image, wanted)?;
    require_new(rt, wanted.output, wanted.replaces)?;
    if let Some(cut) = in_memory(other.up_to_40(rt.alloc()))? {
        return convert_cut(rt, image, &other, &cut, wanted, kind);
    }
    require_unlost(rt.alloc(), rt, &other, wanted)?;
    let new = filled(rt, image, other, wanted.output, kind)?;
    write(rt, wanted.output, new.as_slice(), Sync::Before)
}

/// Makes a G64 of a D64, a D64 of a G64, or either of a disk or an archive of another kind: of a D64 of another size its sectors, of
/// other kinds a new disk with their files. Errors: `Word`, where the new image is the old one, no format is said or the image has it already; those of `read_image`;
/// `Exists`; `Disk`; `Lossy`, where the new image would lack something; `Told`, where a file doesn't fit or can't be read, as is
/// reported; `Write`.
pub fn convert_image<R: Runtime + AllocGlobal>(
    rt: &R,
    image: &str,
    wanted: &Conversion<'_>,
) -> Result<(), Failure> {
    require_apart(rt, image, wanted.output)?;
    let kind = format(rt.alloc(), wanted.output, wanted.format)?;
    let bytes = read_any(rt, image)?;
    if let Some(other) = in_memory(Other::of(rt.alloc(), bytes.as_slice()))? {
        return convert_other(rt, image, other, wanted, kind);
    }
    require_ours(rt.alloc(), image, bytes.as_slice())?;
    convert_from(rt, image, bytes.as_slice(), wanted, kind)
}
