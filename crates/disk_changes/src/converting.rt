//! CONVERT: the image in the other format, or with other tracks.
mod losses;
mod tracks;

use self::losses::tell_lost;
use self::tracks::with_tracks;
use cbm_image::{Kind, kind_of};
use disk_basics::calls::convert;
use disk_basics::host::{require_new, write};
use disk_basics::{Failure, What, WordFault, on_disk};
use host_files::Sync;
use std::alloc::Global;
use std::rt::Runtime;

/// An image that is made of another.
#[derive(Clone, Copy)]
pub struct Conversion<'a> {
    /// Where it goes.
    pub output: &'a str,
    /// The word that says its format.
    pub format: Option<&'a str>,
    /// The word that says how many tracks it has.
    pub tracks: Option<&'a str>,
    /// It may lack something.
    pub is_lossy: bool,
    /// An image that is there is replaced.
    pub replaces: bool,
}

/// Writes the new image, unless it lacks something and that isn't wanted.
fn write_converted<R: Runtime + AllocGlobal>(
    rt: &R,
    wanted: &Conversion<'_>,
    new: &[u8],
    is_lossy: bool,
) -> Result<(), Failure> {
    if !wanted.is_lossy && is_lossy {
        return Err(Failure::named(rt.alloc(), What::Lossy, wanted.output));
    }
    write(rt, wanted.output, new, Sync::Before)
}

/// Makes a D64 of the bytes of another one, with 35 tracks or 40.
fn convert_tracks<R: Runtime + AllocGlobal>(
    rt: &R,
    image: &str,
    bytes: &[u8],
    wanted: &Conversion<'_>,
    tracks: &str,
) -> Result<(), Failure> {
    require_new(rt, wanted.output, wanted.replaces)?;
    let (new, is_lossy) = with_tracks(rt, image, bytes, wanted.output, tracks)?;
    write_converted(rt, wanted, new.as_slice(), is_lossy)
}

/// Refuses to make an image in the format that it has.
fn require_other(alloc: Global, image: &str, old: Kind, kind: Kind) -> Result<(), Failure> {
    if old == kind {
        return Err(Failure::named(alloc, What::Word(WordFault::SameFormat), image));
    }
    Ok(())
}

/// A disk of one of the two formats has 35 tracks in the other one.
fn require_35(alloc: Global, tracks: Option<&str>) -> Result<(), Failure> {
    match tracks {
        None | Some("35") => Ok(()),
        Some("40") => Err(Failure::new(What::Word(WordFault::LongG64))),
        Some(word) => Err(Failure::named(alloc, What::Word(WordFault::Tracks), word)),
    }
}

/// Makes a G64 of the bytes of a D64, a D64 of a G64's, or a D64 of a D64 with other tracks, if nothing is there, and reports what it
/// lacks. Errors: those of `with_tracks`; `Word`, where the image has that format already; `Exists`; `Disk`; `Lossy`, where the new image would lack something; `Write`.
pub fn convert_from<R: Runtime + AllocGlobal>(
    rt: &R,
    image: &str,
    bytes: &[u8],
    wanted: &Conversion<'_>,
    kind: Kind,
) -> Result<(), Failure> {
    let old = kind_of(bytes);
    if let (Kind::D64, Kind::D64, Some(tracks)) = (old, kind, wanted.tracks) {
        return convert_tracks(rt, image, bytes, wanted, tracks);
    }
    require_other(rt.alloc(), image, old, kind)?;
    require_35(rt.alloc(), wanted.tracks)?;
    require_new(rt, wanted.output, wanted.replaces)?;
    let new = on_disk(rt.alloc(), image, convert(rt.alloc(), bytes))?;
    let _ = tell_lost(rt, wanted.output, &new.lost, old);
    write_converted(rt, wanted, new.image.as_slice(), !new.lost.is_none())
}
