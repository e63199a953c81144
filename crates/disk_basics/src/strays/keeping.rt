//! A change keeps the sectors of entries that no link of the directory reaches.
use super::{held_by, strays_on};
use crate::disk::Disk;
use crate::failure::{Failure, on_disk};
use crate::what::What;
use cbm_bam::SectorSet;
use cbm_medium::{Address, sectors_of};
use cbm_shell::ShellFault;
use std::alloc::Global;

/// The most tracks of a disk.
const TRACKS: u8 = 40;

/// Whether a sector is the same on two disks, and taken on the second if it was on the first.
fn is_kept(old: &Disk, new: &Disk, at: Address) -> bool {
    let is_same = match (old.sector(at), new.sector(at)) {
        (Some(Ok(old)), Some(Ok(new))) => old == new,
        _ => true,
    };
    is_same && old.is_taken(at) == new.is_taken(at)
}

/// Whether those sectors of a track are kept that a set has.
fn is_track_kept(old: &Disk, new: &Disk, held: &SectorSet, track: u8) -> bool {
    for sector in 0..sectors_of(track) {
        if let Some(at) = Address::new(track, sector)
            && held.has(at)
            && !is_kept(old, new, at)
        {
            return false;
        }
    }
    true
}

/// Whether the sectors are kept that a set has.
fn are_kept(old: &Disk, new: &Disk, held: &SectorSet) -> bool {
    for track in 1..TRACKS.saturating_add(1) {
        if !is_track_kept(old, new, held, track) {
            return false;
        }
    }
    true
}

/// Whether a change of an image keeps what entries lead to that no link leads to. Errors: `Image`, `Memory`.
fn is_all_kept(alloc: Global, old: &[u8], new: &[u8]) -> Result<bool, ShellFault> {
    let before = Disk::open(alloc, old)?;
    let listed = before.listed(alloc)?;
    let strays = strays_on(alloc, &before, &listed)?;
    if strays.sectors.is_empty() {
        return Ok(true);
    }
    let after = Disk::open(alloc, new)?;
    Ok(are_kept(&before, &after, &held_by(&before, &strays)))
}

/// Refuses a change of an image that would give away or write over blocks of files whose entries no link leads to. Errors: this one,
/// where it would; `Disk`; `NoMemory`.
pub fn require_kept(
    alloc: Global,
    image: &str,
    old: &[u8],
    new: &[u8],
    what: What,
) -> Result<(), Failure> {
    if on_disk(alloc, image, is_all_kept(alloc, old, new))? {
        Ok(())
    } else {
        Err(Failure::named(alloc, what, image))
    }
}
