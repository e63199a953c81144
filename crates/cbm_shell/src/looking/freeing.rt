//! The blocks that putting a disk in order gives back.
ghost use Rattle.std.specs.Prelude.{◌≡◌, ◌≤◌, ◌++◌, IfOk, IfErr, OnOk};
ghost use Rattle.cbm_medium.specs.Place.{sectors_on};
ghost use Rattle.cbm_bam.specs.Marks.{is_marked};
ghost use Rattle.cbm_bam.specs.Map.{geometry_of};
ghost use Rattle.cbm_shell.specs.Passing.{place_if, places_on, places_in};
ghost use Rattle.cbm_shell.specs.Freeing.{is_freed, is_any, AreFreed};

use crate::fault::ShellFault;
use crate::looking::geos::geos_sectors;
use crate::looking::mapping::{entries_or_none, is_free_at};
use cbm_bam::SectorSet;
use cbm_medium::{Address, Geometry, Medium, sectors_of};
use cbm_volume::Volume;
use std::alloc::{AllocError, Global};

/// The blocks that a change of a disk gives back.
#[derive(Drop)]
pub struct Freed {
    /// They are free in the new BAM and weren't in the old one; in order of track and sector.
    pub blocks: Vec<Address>,
    /// Whether GEOS uses one of them.
    pub takes_geos: bool,
}

/// Whether the new BAM has a sector as free, and the old one hadn't.
fn is_freed<M: Medium>(old: &M, new: &M, geometry: Geometry, at: Address) -> bool
    requires old { geometry ≤ (M.seen old.now).tracks }
    requires new { geometry ≤ (M.seen new.now).tracks }
    ensures { result ≡ is_freed (M.seen old.now).content (M.seen new.now).content at }
{
    !is_free_at(old, geometry, at) && is_free_at(new, geometry, at)
}

/// Adds a sector that is given back.
fn add_freed<M: Medium>(
    out: &mut Vec<Address>,
    old: &M,
    new: &M,
    geometry: Geometry,
    at: Address,
) -> Result<(), AllocError>
    requires old { geometry ≤ (M.seen old.now).tracks }
    requires new { geometry ≤ (M.seen new.now).tracks }
    ensures { OnOk result (out.new.items
        ≡ out.old.items ++ place_if (is_freed (M.seen old.now).content (M.seen new.now).content at) at) }
{
    if is_freed(old, new, geometry, at) {
        out.push(at).map_err(AllocError::from)?;
    }
    Ok(())
}

/// Adds those of a track.
fn add_freed_on<M: Medium>(
    out: &mut Vec<Address>,
    old: &M,
    new: &M,
    geometry: Geometry,
    track: u8,
) -> Result<(), AllocError>
    requires old { geometry ≤ (M.seen old.now).tracks }
    requires new { geometry ≤ (M.seen new.now).tracks }
    ensures { OnOk result (out.new.items
        ≡ out.old.items ++ places_on (is_freed (M.seen old.now).content (M.seen new.now).content) track (sectors_on track)) }
{
    for sector in 0..sectors_of(track) {
        match Address::new(track, sector) {
            Some(at) => add_freed(out, old, new, geometry, at)?,
            None => unreachable!(),
        }
    }
    Ok(())
}

/// The sectors that are given back.
fn freed_in<M: Medium>(
    alloc: Global,
    old: &M,
    new: &M,
    geometry: Geometry,
) -> Result<Vec<Address>, AllocError>
    requires old { geometry ≤ (M.seen old.now).tracks }
    requires new { geometry ≤ (M.seen new.now).tracks }
    ensures { IfOk result (λ v. v.items ≡ places_in (is_freed (M.seen old.now).content (M.seen new.now).content) geometry) }
{
    let mut freed = Vec::new(alloc);
    for track in 0..geometry.tracks() {
        add_freed_on(&mut freed, old, new, geometry, track + 1)?;
    }
    Ok(freed)
}

/// Whether one of these sectors is in a set.
fn is_any(held: &SectorSet, places: &[Address]) -> bool
    ensures { result ≡ is_any (is_marked held.now) places.now }
{
    let mut rest = places;
    'sectors: while let Some((first, afterwards)) = rest.split_first() {
        if held.has(*first) {
            return true;
        }
        rest = afterwards;
    }
    false
}

/// The blocks that a change of a disk gives back. The one error is `Memory`.
pub(crate) fn freed_by<M: Medium + Drop>(
    alloc: Global,
    old: M,
    new: &M,
) -> Result<Freed, ShellFault>
    requires { (M.seen new.now).tracks ≡ (M.seen old).tracks }
    ensures ok { let old = M.seen old in IfOk result (λ f.
        AreFreed (geometry_of old.tracks old.content) old.content (M.seen new.now).content f.blocks.items f.takes_geos) }
    ensures err { IfErr result (λ fault. fault ≡ ShellFault.Memory) }
{
    let volume = Volume::open(old);
    let geometry = volume.geometry();
    let entries = entries_or_none(alloc, &volume)?;
    let medium = volume.into_medium();
    let held = geos_sectors(&medium, geometry, entries.as_slice());
    let blocks = freed_in(alloc, &medium, new, geometry)?;
    let takes_geos = is_any(&held, blocks.as_slice());
    Ok(Freed { blocks, takes_geos })
}
