//! All that is wrong with a disk.
ghost use Rattle.std.specs.Prelude.{◌≡◌, ◌≤◌, ◌++◌, IfOk};
ghost use Rattle.cbm_bam.specs.Map.{geometry_of};
ghost use Rattle.cbm_shell.specs.Images.{IsChecked};
ghost use Rattle.cbm_shell.specs.Flaws.{chain_flaws, first_flaw, flaws_of};

use super::chains::walk;
use super::files::walk_slots;
use super::findings::Findings;
use super::found::{DiskFlaw, Whose};
use super::headers::add_headers;
use super::map::add_map;
use crate::fault::ShellFault;
use cbm_bam::SectorSet;
use cbm_medium::{Address, Geometry, Link, Medium};
use cbm_volume::Volume;
use std::alloc::Global;

/// What is wrong so far, and after it what is wrong with the chains of the directory and of its files.
fn with_chains<M: Medium>(
    alloc: Global,
    volume: &Volume<M>,
    geometry: Geometry,
    flaws: Vec<DiskFlaw>,
) -> Result<Vec<DiskFlaw>, ShellFault>
    requires same { geometry ≡ geometry_of (M.seen volume.now).tracks (M.seen volume.now).content }
    requires room { geometry ≤ (M.seen volume.now).tracks }
    ensures { IfOk result (λ v. v.items ≡ flaws.items ++ chain_flaws geometry (M.seen volume.now).content) }
{
    let mut found = Findings {
        alloc,
        claimed: SectorSet::new(),
        flaws,
    };
    found.claimed.insert(Address::of_map());
    let first = Link::new(18, 1);
    let way = walk(
        volume.medium(),
        geometry,
        Whose::Directory,
        first,
        &mut found,
    )?;
    walk_slots(volume, geometry, way.blocks.as_slice(), &mut found)?;
    Ok(found.flaws)
}

/// All that is wrong with a disk, gone through from the headers on.
fn walk_disk<M: Medium>(alloc: Global, volume: &Volume<M>) -> Result<Vec<DiskFlaw>, ShellFault>
    ensures { let now = M.seen volume.now in
        IfOk result (λ v. v.items ≡ flaws_of (geometry_of now.tracks now.content) now.content) }
{
    let geometry = volume.geometry();
    let mut flaws = Vec::new(alloc);
    add_headers(volume.medium(), geometry, &mut flaws)?;
    add_map(volume.medium(), geometry, &mut flaws)?;
    with_chains(alloc, volume, geometry, flaws)
}

/// All that is wrong with a disk, in the order in which `check` looks: headers, BAM, directory, files. The errors are `Memory`,
/// and `Trouble` where a side sector that did read doesn't any more.
pub fn flaws_of<M: Medium>(alloc: Global, volume: &Volume<M>) -> Result<Vec<DiskFlaw>, ShellFault>
    ensures all { let now = M.seen volume.now in
        IfOk result (λ v. v.items ≡ flaws_of (geometry_of now.tracks now.content) now.content) }
    ensures first { let now = M.seen volume.now in
        IfOk result (λ v. IsChecked now.tracks now.content (first_flaw v.items)) }
{
    match volume.check() {
        Ok(()) => Ok(Vec::new(alloc)),
        Err(_) => walk_disk(alloc, volume),
    }
}
