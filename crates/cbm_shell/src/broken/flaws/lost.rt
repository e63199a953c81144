//! The blocks that nothing uses, and that aren't free.
ghost use Rattle.std.specs.Prelude.{◌≡◌, ◌≤◌, ◌++◌, IfOk, IfErr, OnOk};
ghost use Rattle.cbm_medium.specs.Place.{directory_head, sectors_on};
ghost use Rattle.cbm_bam.specs.Marks.{is_marked};
ghost use Rattle.cbm_bam.specs.Map.{geometry_of};
ghost use Rattle.cbm_directory.specs.Slots.{directory_of};
ghost use Rattle.cbm_shell.specs.Mapping.{free_by};
ghost use Rattle.cbm_shell.specs.Passing.{place_if, places_on, places_in};
ghost use Rattle.cbm_shell.specs.Lost.{lost_at, lost_among, lost_of};

use crate::fault::ShellFault;
use crate::looking::{entries_of, geos_sectors, is_free_at, used_sectors};
use cbm_bam::SectorSet;
use cbm_medium::{Address, Geometry, Medium, sectors_of};
use cbm_volume::{Entry, Volume};
use std::alloc::{AllocError, Global};

/// Whether a sector that reads is in neither set, and isn't free.
fn is_lost<M: Medium>(
    medium: &M,
    geometry: Geometry,
    used: &SectorSet,
    geos: &SectorSet,
    at: Address,
) -> bool
    requires room { geometry ≤ (M.seen medium.now).tracks }
    requires track { at.track ≤ (M.seen medium.now).tracks }
    ensures { let content = (M.seen medium.now).content in
        result ≡ lost_at content (is_marked used.now) (is_marked geos.now) at }
{
    if medium.read(at).is_err() {
        return false;
    }
    !used.has(at) && !geos.has(at) && !is_free_at(medium, geometry, at)
}

/// Adds a sector, if it is lost.
fn add_lost(out: &mut Vec<Address>, is_lost: bool, at: Address) -> Result<(), AllocError>
    ensures { OnOk result (out.new.items ≡ out.old.items ++ place_if is_lost at) }
{
    if is_lost {
        out.push(at).map_err(AllocError::from)?;
    }
    Ok(())
}

/// Adds those of a track.
fn add_track<M: Medium>(
    out: &mut Vec<Address>,
    medium: &M,
    geometry: Geometry,
    used: &SectorSet,
    geos: &SectorSet,
    track: u8,
) -> Result<(), AllocError>
    requires room { geometry ≤ (M.seen medium.now).tracks }
    requires track { track ≤ (M.seen medium.now).tracks }
    ensures { let lost = lost_at (M.seen medium.now).content (is_marked used.now) (is_marked geos.now) in
        OnOk result (out.new.items ≡ out.old.items ++ places_on lost track (sectors_on track)) }
{
    for sector in 0..sectors_of(track) {
        match Address::new(track, sector) {
            Some(at) => add_lost(out, is_lost(medium, geometry, used, geos, at), at)?,
            None => unreachable!(),
        }
    }
    Ok(())
}

/// The sectors of these tracks that are lost.
fn lost_in<M: Medium>(
    alloc: Global,
    medium: &M,
    geometry: Geometry,
    used: &SectorSet,
    geos: &SectorSet,
) -> Result<Vec<Address>, AllocError>
    requires { geometry ≤ (M.seen medium.now).tracks }
    ensures { let lost = lost_at (M.seen medium.now).content (is_marked used.now) (is_marked geos.now) in
        IfOk result (λ v. v.items ≡ places_in lost geometry) }
{
    let mut lost = Vec::new(alloc);
    for track in 0..geometry.tracks() {
        add_track(&mut lost, medium, geometry, used, geos, track + 1)?;
    }
    Ok(lost)
}

/// The sectors that are lost, beside those of these entries.
fn lost_among<M: Medium>(
    alloc: Global,
    medium: &M,
    geometry: Geometry,
    entries: &[Entry],
) -> Result<Vec<Address>, AllocError>
    requires { geometry ≤ (M.seen medium.now).tracks }
    ensures { IfOk result (λ v. v.items ≡ lost_among geometry (M.seen medium.now).content entries.now) }
{
    let used = used_sectors(medium, geometry, entries);
    let geos = geos_sectors(medium, geometry, entries);
    lost_in(alloc, medium, geometry, &used, &geos)
}

/// The blocks that nothing uses and that aren't free, in order of track and sector; none where the directory can't be followed to
/// its end, as then it isn't known what files use. The one error is `Memory`.
pub fn lost_of<M: Medium>(alloc: Global, volume: &Volume<M>) -> Result<Vec<Address>, ShellFault>
    ensures ok { let now = M.seen volume.now in
        IfOk result (λ v. v.items ≡ lost_of now.content (geometry_of now.tracks now.content) (directory_of (geometry_of now.tracks now.content) now.content)) }
    ensures err { IfErr result (λ fault. fault ≡ ShellFault.Memory) }
{
    match entries_of(alloc, volume) {
        Ok(entries) => {
            let lost = lost_among(
                alloc,
                volume.medium(),
                volume.geometry(),
                entries.as_slice(),
            )?;
            Ok(lost)
        }
        Err(ShellFault::Trouble(_)) => Ok(Vec::new(alloc)),
        Err(fault) => Err(fault),
    }
}
