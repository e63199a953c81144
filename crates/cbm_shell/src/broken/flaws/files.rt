//! A walk along the files of the directory.
ghost use Rattle.std.specs.Prelude.{◌≡◌, ◌≤◌, ◌*◌, OnOk, length};
ghost use Rattle.cbm_directory.specs.Entries.{is_closed, is_relative};
ghost use Rattle.cbm_bam.specs.Map.{geometry_of};
ghost use Rattle.cbm_volume.specs.check.SlotWalk.{entries_in};
ghost use Rattle.cbm_bam.specs.Marks.{is_marked};
ghost use Rattle.cbm_shell.specs.Flaws.{found_at, relative_walk, file_walk, entry_walk, entries_walk, sector_walk, slots_walk};
ghost use Rattle.cbm_shell.specs.FlawSteps.{HasWalked};

use super::chains::walk;
use super::findings::Findings;
use super::found::{Whose, flawed};
use super::sides::walk_sides;
use crate::fault::ShellFault;
use cbm_medium::{Geometry, Link, Medium};
use cbm_volume::{Entry, Volume};
use std::alloc::AllocError;

/// Follows a relative file: 4 where it has no block.
fn walk_relative<M: Medium>(
    volume: &Volume<M>,
    geometry: Geometry,
    whose: Whose,
    entry: &Entry,
    found: &mut Findings,
) -> Result<(), ShellFault>
    requires same { geometry ≡ geometry_of (M.seen volume.now).tracks (M.seen volume.now).content }
    requires room { geometry ≤ (M.seen volume.now).tracks }
    ensures { let w = relative_walk whose geometry (M.seen volume.now).content (is_marked found.old.claimed) entry.now in
        OnOk result (HasWalked w (is_marked found.new.claimed) found.old.flaws.items found.new.flaws.items) }
{
    let first = entry.first_block();
    if first.is_end() {
        found
            .flaws
            .push(flawed(whose, 0, first, 4))
            .map_err(AllocError::from)?;
        return Ok(());
    }
    let way = walk(volume.medium(), geometry, whose, first, found)?;
    if !way.is_whole {
        return Ok(());
    }
    walk_sides(volume, geometry, whose, entry, found)
}

/// Follows the file of an entry, if it was closed.
fn walk_file<M: Medium>(
    volume: &Volume<M>,
    geometry: Geometry,
    whose: Whose,
    entry: &Entry,
    found: &mut Findings,
) -> Result<(), ShellFault>
    requires same { geometry ≡ geometry_of (M.seen volume.now).tracks (M.seen volume.now).content }
    requires room { geometry ≤ (M.seen volume.now).tracks }
    ensures { let w = file_walk (is_closed entry.now) (is_relative entry.now) whose geometry (M.seen volume.now).content
        (is_marked found.old.claimed) entry.now in
        OnOk result (HasWalked w (is_marked found.new.claimed) found.old.flaws.items found.new.flaws.items) }
{
    if !entry.is_closed() {
        return Ok(());
    }
    if entry.is_relative() {
        return walk_relative(volume, geometry, whose, entry, found);
    }
    walk(volume.medium(), geometry, whose, entry.first_block(), found)?;
    Ok(())
}

/// Looks at an entry in a sector of the directory: 8 where its type is none's, else its file.
fn walk_entry<M: Medium>(
    volume: &Volume<M>,
    geometry: Geometry,
    whose: Whose,
    sector: Link,
    entry: &Entry,
    found: &mut Findings,
) -> Result<(), ShellFault>
    requires same { geometry ≡ geometry_of (M.seen volume.now).tracks (M.seen volume.now).content }
    requires room { geometry ≤ (M.seen volume.now).tracks }
    ensures { let w = entry_walk whose geometry (M.seen volume.now).content (is_marked found.old.claimed) sector entry.now in
        OnOk result (HasWalked w (is_marked found.new.claimed) found.old.flaws.items found.new.flaws.items) }
{
    if entry.kind().is_none() {
        found
            .flaws
            .push(flawed(whose, 0, sector, 8))
            .map_err(AllocError::from)?;
        return Ok(());
    }
    walk_file(volume, geometry, whose, entry, found)
}

/// Looks at the eight entries of a sector of the directory, the first of which is in this slot.
fn walk_entries<M: Medium>(
    volume: &Volume<M>,
    geometry: Geometry,
    slot: u16,
    at: Link,
    sector: &[u8; 256],
    found: &mut Findings,
) -> Result<(), ShellFault>
    requires same { geometry ≡ geometry_of (M.seen volume.now).tracks (M.seen volume.now).content }
    requires room { geometry ≤ (M.seen volume.now).tracks }
    requires slot { slot ≤ 8 * 768 }
    ensures { let w = entries_walk slot geometry (M.seen volume.now).content (is_marked found.old.claimed) at (entries_in sector.now) in
        OnOk result (HasWalked w (is_marked found.new.claimed) found.old.flaws.items found.new.flaws.items) }
{
    for number in 0..8u8 {
        let entry = Entry::of(sector, number);
        let whose = Whose::File(slot + number as u16);
        walk_entry(volume, geometry, whose, at, &entry, found)?;
    }
    Ok(())
}

/// The bytes of the sector that a link names, if the disk has it and it reads.
fn found_at<M: Medium>(medium: &M, geometry: Geometry, at: Link) -> Option<[u8; 256]>
    requires { geometry ≤ (M.seen medium.now).tracks }
    ensures { result ≡ found_at geometry (M.seen medium.now).content at }
{
    let address = at.address(geometry)?;
    medium.read(address).ok()
}

/// Looks at the entries of the sector of the directory that a link names.
fn walk_sector<M: Medium>(
    volume: &Volume<M>,
    geometry: Geometry,
    slot: u16,
    at: Link,
    found: &mut Findings,
) -> Result<(), ShellFault>
    requires same { geometry ≡ geometry_of (M.seen volume.now).tracks (M.seen volume.now).content }
    requires room { geometry ≤ (M.seen volume.now).tracks }
    requires slot { slot ≤ 8 * 768 }
    ensures { let content = (M.seen volume.now).content in
        let w = sector_walk slot geometry content (is_marked found.old.claimed) at (found_at geometry content at) in
        OnOk result (HasWalked w (is_marked found.new.claimed) found.old.flaws.items found.new.flaws.items) }
{
    match found_at(volume.medium(), geometry, at) {
        Some(sector) => walk_entries(volume, geometry, slot, at, &sector, found),
        None => Ok(()),
    }
}

/// Looks at the entries of the directory's sectors, in order.
pub(super) fn walk_slots<M: Medium>(
    volume: &Volume<M>,
    geometry: Geometry,
    sectors: &[Link],
    found: &mut Findings,
) -> Result<(), ShellFault>
    requires same { geometry ≡ geometry_of (M.seen volume.now).tracks (M.seen volume.now).content }
    requires room { geometry ≤ (M.seen volume.now).tracks }
    requires few { length sectors.now ≤ 768 }
    ensures { let w = slots_walk 0 geometry (M.seen volume.now).content (is_marked found.old.claimed) sectors.now in
        OnOk result (HasWalked w (is_marked found.new.claimed) found.old.flaws.items found.new.flaws.items) }
{
    let mut slot = 0;
    for at in sectors {
        walk_sector(volume, geometry, slot, *at, found)?;
        slot += 8;
    }
    Ok(())
}
