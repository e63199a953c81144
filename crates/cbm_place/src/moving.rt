//! A file of a disk, moved to other blocks of it.
ghost use Rattle.std.specs.Prelude.{◌≡◌, ◌≤◌, true, IfOk, IfErr, OnOk, OnErr, length};
ghost use Rattle.cbm_medium.specs.Place.{directory_head};
ghost use Rattle.cbm_bam.specs.Marks.{is_marked, nothing};
ghost use Rattle.cbm_bam.specs.Map.{geometry_of};
ghost use Rattle.cbm_directory.specs.Entries.{EntersLed};
ghost use Rattle.cbm_shell.specs.Mapping.{is_among};
ghost use Rattle.cbm_shell.specs.Undeleting.{IsMapAnew};
ghost use Rattle.cbm_place.specs.Moves.{is_open_to, are_open, entry_at_first, laid_out, taken_places, wiped, IsMovable, IsRoom, IsCarried, IsRelaid};
ghost use Rattle.cbm_place.specs.Placed.{IsNoMovable, IsNotRelaid};
ghost use Rattle.cbm_shell.specs.Remaking.{IsTroubled};

use crate::bam::{Change, taken_sectors};
use crate::chain::{Chain, chain_of, set_of};
use crate::laying::{lay, wipe, write};
use cbm_bam::{SectorSet, anew, read_map};
use cbm_directory::put_slot;
use cbm_medium::{Address, Geometry, Medium, Steady};
use cbm_shell::ShellFault;
use cbm_shell::parts::{entry_of, is_free_at};
use cbm_volume::{Entry, Volume};
use std::alloc::Global;

/// The entry in a slot, if its file can be moved. Errors: `NotFound`, if the slot has no file; `NotClosed`; `Mistaken`, if the file is
/// relative, as its side sectors name its blocks; `Trouble`.
pub(crate) fn movable<M: Medium>(volume: &Volume<M>, slot: u8) -> Result<Entry, ShellFault>
    ensures movable { let now = M.seen volume.now in IfOk result (IsMovable (geometry_of now.tracks now.content) now.content slot) }
    ensures fault { let now = M.seen volume.now in IfErr result (IsNoMovable (geometry_of now.tracks now.content) now.content slot) }
{
    let Some(entry) = volume.slot(slot)? else {
        return Err(ShellFault::NotFound);
    };
    if entry.is_empty() {
        return Err(ShellFault::NotFound);
    }
    if !entry.is_closed() {
        return Err(ShellFault::NotClosed);
    }
    if entry.is_relative() {
        return Err(ShellFault::Mistaken);
    }
    Ok(entry)
}

/// Whether a block may be taken for a file: it is on the disk, free or the file's own, and wasn't named before.
fn is_open<M: Medium>(
    medium: &M,
    geometry: Geometry,
    own: &SectorSet,
    named: &SectorSet,
    at: Address,
) -> bool
    requires { geometry ≤ (M.seen medium.now).tracks }
    ensures { result ≡ is_open_to geometry ((M.seen medium.now).content directory_head) (is_marked own.now) (is_marked named.now) at }
{
    at.track() <= geometry.tracks()
        && (is_free_at(medium, geometry, at) || own.has(at))
        && !named.has(at)
}

/// Whether each of these blocks may be taken for a file, one after another.
fn are_open<M: Medium>(medium: &M, geometry: Geometry, own: &SectorSet, places: &[Address]) -> bool
    requires { geometry ≤ (M.seen medium.now).tracks }
    ensures { result ≡ are_open geometry ((M.seen medium.now).content directory_head) (is_marked own.now) nothing places.now }
{
    let mut named = SectorSet::new();
    let mut left = places;
    'places: while let Some((at, rest)) = left.split_first() {
        if !is_open(medium, geometry, own, &named, *at) {
            return false;
        }
        named.insert(*at);
        left = rest;
    }
    true
}

/// Refuses places that aren't as many as a file's blocks, or of which one may not be taken for it. Errors: `Mistaken`.
fn require_room<M: Medium>(
    medium: &M,
    geometry: Geometry,
    chain: &Chain,
    places: &[Address],
) -> Result<(), ShellFault>
    requires { geometry ≤ (M.seen medium.now).tracks }
    ensures room { OnOk result (IsRoom geometry (M.seen medium.now).content chain.now.places.items places.now) }
    ensures none { OnErr result (IsRoom geometry (M.seen medium.now).content chain.now.places.items places.now → ⊥) }
    ensures fault { IfErr result (λ f. f ≡ ShellFault.Mistaken) }
{
    let own = set_of(chain.places.as_slice());
    if places.len() != chain.places.len() || !are_open(medium, geometry, &own, places) {
        return Err(ShellFault::Mistaken);
    }
    Ok(())
}

/// Writes the BAM anew: each sector is free but these. Errors: `Trouble`.
fn remap<M: Steady>(medium: &mut M, geometry: Geometry, taken: &SectorSet) -> Result<(), ShellFault>
    requires { geometry ≤ (M.seen medium.old).tracks }
    ensures tracks { (M.seen medium.new).tracks ≡ (M.seen medium.old).tracks }
    ensures outside { (M.seen medium.new).outside ≡ (M.seen medium.old).outside }
    ensures mapped { OnOk result (IsMapAnew geometry (M.seen medium.old).content (M.seen medium.new).content (is_marked taken.now)) }
    ensures fault { IfErr result IsTroubled }
{
    let map = read_map(medium, geometry)?;
    write(medium, Address::of_map(), &anew(&map, geometry, taken))
}

/// Claims these places in the BAM. Errors: `Trouble`.
fn claim<M: Steady>(
    medium: &mut M,
    geometry: Geometry,
    places: &[Address],
) -> Result<(), ShellFault>
    requires { geometry ≤ (M.seen medium.old).tracks }
    ensures tracks { (M.seen medium.new).tracks ≡ (M.seen medium.old).tracks }
    ensures outside { (M.seen medium.new).outside ≡ (M.seen medium.old).outside }
    ensures claimed { let old = (M.seen medium.old).content in OnOk result (IsMapAnew geometry old (M.seen medium.new).content
        (is_among (taken_places geometry old nothing (is_among places.now)))) }
    ensures fault { IfErr result IsTroubled }
{
    let change = Change {
        left: SectorSet::new(),
        claimed: set_of(places),
    };
    let taken = taken_sectors(medium, geometry, &change);
    remap(medium, geometry, &taken)
}

/// An entry whose file begins at the first of these places.
fn entry_at_first(entry: &Entry, places: &[Address]) -> Entry
    ensures { result ≡ entry_at_first entry.now places.now }
{
    let mut bytes = *entry.bytes();
    if let Some((first, _)) = places.split_first() {
        bytes[1] = first.track();
        bytes[2] = first.sector();
    }
    entry_of(&bytes)
}

/// Writes a file's blocks to these places, and its entry. Errors: `Trouble`.
fn lead<M: Steady>(
    medium: &mut M,
    geometry: Geometry,
    slot: u8,
    entry: &Entry,
    places: &[Address],
    blocks: &[[u8; 256]],
) -> Result<(), ShellFault>
    requires { geometry ≤ (M.seen medium.old).tracks }
    ensures tracks { (M.seen medium.new).tracks ≡ (M.seen medium.old).tracks }
    ensures outside { (M.seen medium.new).outside ≡ (M.seen medium.old).outside }
    ensures led { OnOk result (EntersLed geometry (laid_out places.now blocks.now (M.seen medium.old).content) (M.seen medium.new).content slot
        (entry_at_first entry.now places.now)) }
    ensures fault { IfErr result IsTroubled }
{
    lay(medium, places, blocks)?;
    put_slot(medium, geometry, slot, &entry_at_first(entry, places))?;
    Ok(())
}

/// Writes zeros to the blocks that a file left, and frees them. Errors: `Trouble`.
fn free<M: Steady>(
    medium: &mut M,
    geometry: Geometry,
    left: &[Address],
    places: &[Address],
) -> Result<(), ShellFault>
    requires { geometry ≤ (M.seen medium.old).tracks }
    ensures tracks { (M.seen medium.new).tracks ≡ (M.seen medium.old).tracks }
    ensures outside { (M.seen medium.new).outside ≡ (M.seen medium.old).outside }
    ensures freed { let wiped = wiped (is_among places.now) left.now (M.seen medium.old).content in
        OnOk result (IsMapAnew geometry wiped (M.seen medium.new).content
        (is_among (taken_places geometry wiped (is_among left.now) (is_among places.now)))) }
    ensures fault { IfErr result IsTroubled }
{
    let change = Change {
        left: set_of(left),
        claimed: set_of(places),
    };
    wipe(medium, left, &change.claimed)?;
    let taken = taken_sectors(medium, geometry, &change);
    remap(medium, geometry, &taken)
}

/// Moves a file's blocks: claims the places, writes, frees. Errors: `Trouble`.
fn carry<M: Steady>(
    medium: &mut M,
    geometry: Geometry,
    slot: u8,
    entry: &Entry,
    chain: &Chain,
    places: &[Address],
) -> Result<(), ShellFault>
    requires { geometry ≤ (M.seen medium.old).tracks }
    ensures tracks { (M.seen medium.new).tracks ≡ (M.seen medium.old).tracks }
    ensures outside { (M.seen medium.new).outside ≡ (M.seen medium.old).outside }
    ensures carried { OnOk result (IsCarried geometry (M.seen medium.old).content (M.seen medium.new).content slot entry.now
        chain.now.places.items chain.now.blocks.items places.now) }
    ensures fault { IfErr result IsTroubled }
{
    claim(medium, geometry, places)?;
    lead(
        medium,
        geometry,
        slot,
        entry,
        places,
        chain.blocks.as_slice(),
    )?;
    free(medium, geometry, chain.places.as_slice(), places)
}

/// The disk with the file of a slot moved to these places. Errors: `NotFound`, if the slot has no file; `NotClosed`; `Mistaken`, if the
/// file is relative, the places aren't as many as its blocks, or one of them isn't free nor the file's own; `Trouble`; `Memory`.
pub(crate) fn moved<M: Steady + Drop>(
    alloc: Global,
    volume: Volume<M>,
    slot: u8,
    places: &[Address],
) -> Result<M, ShellFault>
    ensures tracks { IfOk result (λ after. (M.seen after).tracks ≡ (M.seen volume).tracks) }
    ensures outside { IfOk result (λ after. (M.seen after).outside ≡ (M.seen volume).outside) }
    ensures moved { let old = M.seen volume in IfOk result (λ after.
        IsRelaid (geometry_of old.tracks old.content) old.content (M.seen after).content slot places.now) }
    ensures fault { let old = M.seen volume in
        IfErr result (IsNotRelaid (geometry_of old.tracks old.content) old.content slot places.now) }
{
    let geometry = volume.geometry();
    let entry = movable(&volume, slot)?;
    let chain = chain_of(alloc, volume.medium(), geometry, entry.first_block())?;
    require_room(volume.medium(), geometry, &chain, places)?;
    let mut medium = volume.into_medium();
    carry(&mut medium, geometry, slot, &entry, &chain, places)?;
    Ok(medium)
}
