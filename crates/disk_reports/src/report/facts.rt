//! What is known of a disk or an archive, but for its files.
use crate::seen::Seen;
use crate::unlinked::{UnlinkedSector, unlinked_sectors};
use cbm_shell::{Info, ShellFault};
use cbm_volume::{Label, Unsound};
use disk_basics::odd::odd_slots;
use disk_basics::strays::strays_on;
use disk_facts::{WideMap, format_name, more_tracks, wide_map};
use std::alloc::Global;

/// What is known of a disk or an archive, but for its files. What isn't known is None.
#[derive(Drop)]
pub struct Facts {
    /// What its format is called.
    pub format: &'static str,
    /// How many tracks it has.
    pub tracks: Option<u8>,
    /// The names of half tracks and of tracks beyond 35 that a G64 has.
    pub more_tracks: Vec<String>,
    /// Whose map of tracks 36 to 40 it has.
    pub map: Option<WideMap>,
    /// Its title and its id.
    pub label: Option<Label>,
    /// How many blocks are free.
    pub free: Option<u16>,
    /// How many sectors can't be read.
    pub unreadable: Option<usize>,
    /// Whether it is sound, or what is wrong first.
    pub check: Option<Result<(), Unsound>>,
    /// The slots of its odd entries, if those are all that is wrong.
    pub odd: Vec<usize>,
    /// The sectors that have files to which no link of its directory leads.
    pub unlinked: Vec<UnlinkedSector>,
}

/// The slots of the odd entries of an image, if those are all that is wrong.
fn odd_of(alloc: Global, image: &[u8], info: &Info) -> Result<Vec<usize>, ShellFault> {
    match info.check {
        Ok(()) => Ok(Vec::new(alloc)),
        Err(_) => odd_slots(alloc, image),
    }
}

impl Facts {
    /// What is known of the disk of an image. The one error is `Memory`.
    pub fn of_image(alloc: Global, seen: Seen<'_>, info: &Info) -> Result<Facts, ShellFault> {
        let image = seen.image;
        let odd = odd_of(alloc, image, info)?;
        let unlinked = unlinked_sectors(alloc, &strays_on(alloc, seen.disk, seen.listed)?)?;
        Ok(Facts {
            format: format_name(image),
            tracks: Some(info.tracks),
            more_tracks: more_tracks(alloc, image)?,
            map: wide_map(image),
            label: info.label,
            free: info.free,
            unreadable: Some(info.unreadable.len()),
            check: Some(info.check),
            odd,
            unlinked,
        })
    }

    /// Whether it is sound.
    pub fn is_sound(&self) -> Option<bool> {
        match self.check {
            Some(Ok(())) => Some(true),
            Some(Err(_)) => Some(false),
            None => None,
        }
    }

    /// What is wrong first.
    pub fn flaw(&self) -> Option<Unsound> {
        match self.check {
            Some(Err(unsound)) => Some(unsound),
            _ => None,
        }
    }
}
