//! The sectors that odd entries lead to: they are kept as they are.
ghost use Rattle.std.specs.Prelude.{◌≡◌, ◌≤◌, ◌++◌, true, IfOk, IfErr, OnOk};
ghost use Rattle.cbm_medium.specs.Place.{sectors_on, directory_head};
ghost use Rattle.cbm_bam.specs.Marks.{is_marked};
ghost use Rattle.cbm_volume.specs.check.Claims.{fault_at};
ghost use Rattle.cbm_shell.specs.Mapping.{is_among};
ghost use Rattle.cbm_shell.specs.Marking.{with_places};
ghost use Rattle.cbm_shell.specs.Passing.{place_if, places_on, places_in};
ghost use Rattle.cbm_odd.specs.Held.{reach_of, reached_by, is_only_in, held_places, spoilt, are_kept, IsSpoiltAmong, is_same_cell, are_same_cells, IsChangedAmong};

use crate::odd::Odd;
use cbm_bam::SectorSet;
use cbm_medium::{Address, Geometry, Medium, sectors_of};
use cbm_shell::ShellFault;
use cbm_shell::parts::{is_free_at, use_chain, used_sectors};
use cbm_volume::{Entry, Unsound};
use std::alloc::{AllocError, Global};

/// The number of the flaw that a block is in use, but marked free.
const MARKED_FREE: u8 = 2;

/// The number of the flaw that a block is used twice.
const USED_TWICE: u8 = 3;

/// Puts the sectors that an entry leads to into the set.
fn reach_one<M: Medium>(medium: &M, geometry: Geometry, entry: &Entry, reached: &mut SectorSet)
    requires { geometry ≤ (M.seen medium.now).tracks }
    ensures { is_marked reached.new
        ≡ with_places (is_marked reached.old) (reach_of geometry (M.seen medium.now).content entry.now) }
{
    use_chain(medium, geometry, entry.first_block(), reached);
    if entry.is_relative() {
        use_chain(medium, geometry, entry.first_side(), reached);
    }
}

/// Puts the sectors that odd entries lead to into the set.
pub(crate) fn reach_each<M: Medium>(
    medium: &M,
    geometry: Geometry,
    odds: &[Odd],
    reached: &mut SectorSet,
)
    requires { geometry ≤ (M.seen medium.now).tracks }
    ensures { is_marked reached.new
        ≡ with_places (is_marked reached.old) (reached_by geometry (M.seen medium.now).content odds.now) }
{
    for odd in odds {
        reach_one(medium, geometry, &odd.entry, reached);
    }
}

/// The sectors that odd entries lead to.
fn reached_by<M: Medium>(medium: &M, geometry: Geometry, odds: &[Odd]) -> SectorSet
    requires { geometry ≤ (M.seen medium.now).tracks }
    ensures { is_marked result ≡ is_among (reached_by geometry (M.seen medium.now).content odds.now) }
{
    let mut reached = SectorSet::new();
    reach_each(medium, geometry, odds, &mut reached);
    reached
}

/// Whether a sector is in the first set, and not in the other.
fn is_only_in(first: &SectorSet, other: &SectorSet, at: Address) -> bool
    ensures { result ≡ is_only_in (is_marked first.now) (is_marked other.now) at }
{
    first.has(at) && !other.has(at)
}

/// Adds a sector, if it is one of those.
pub(crate) fn add_held(out: &mut Vec<Address>, is_held: bool, at: Address) -> Result<(), AllocError>
    ensures { OnOk result (out.new.items ≡ out.old.items ++ place_if is_held at) }
{
    if is_held {
        out.push(at).map_err(AllocError::from)?;
    }
    Ok(())
}

/// Adds those of a track that are in the first set and not in the other.
fn add_track(
    out: &mut Vec<Address>,
    reached: &SectorSet,
    own: &SectorSet,
    track: u8,
) -> Result<(), AllocError>
    requires { track ≤ 40 }
    ensures { let held = is_only_in (is_marked reached.now) (is_marked own.now) in
        OnOk result (out.new.items ≡ out.old.items ++ places_on held track (sectors_on track)) }
{
    for sector in 0..sectors_of(track) {
        match Address::new(track, sector) {
            Some(at) => add_held(out, is_only_in(reached, own, at), at)?,
            None => unreachable!(),
        }
    }
    Ok(())
}

/// The sectors of these tracks that are in the first set and not in the other.
fn held_in(
    alloc: Global,
    geometry: Geometry,
    reached: &SectorSet,
    own: &SectorSet,
) -> Result<Vec<Address>, AllocError>
    ensures { let held = is_only_in (is_marked reached.now) (is_marked own.now) in
        IfOk result (λ v. v.items ≡ places_in held geometry) }
{
    let mut held = Vec::new(alloc);
    for track in 0..geometry.tracks() {
        add_track(&mut held, reached, own, track + 1)?;
    }
    Ok(held)
}

/// The sectors that odd entries lead to, but those of the BAM and of the directory, which are the drive's.
pub(crate) fn held_places<M: Medium>(
    alloc: Global,
    medium: &M,
    geometry: Geometry,
    odds: &[Odd],
) -> Result<Vec<Address>, AllocError>
    requires { geometry ≤ (M.seen medium.now).tracks }
    ensures { IfOk result (λ v. v.items ≡ held_places geometry (M.seen medium.now).content odds.now) }
{
    let reached = reached_by(medium, geometry, odds);
    let own = used_sectors(medium, geometry, &[]);
    held_in(alloc, geometry, &reached, &own)
}

/// What is wrong with a sector that odd entries lead to, if anything: it is free in the BAM, or a file has got it.
fn spoilt(is_free: bool, is_used: bool) -> Option<u8>
    ensures { result ≡ spoilt is_free is_used }
{
    if is_free {
        return Some(MARKED_FREE);
    }
    if is_used {
        return Some(USED_TWICE);
    }
    None
}

/// The flaw of a number at a sector.
fn unsound_at(number: u8, at: Address) -> Unsound
    ensures { result ≡ fault_at number at }
{
    Unsound {
        number,
        track: at.track(),
        sector: at.sector(),
    }
}

/// Refuses a disk on which one of these sectors is free, or one that its files use and didn't use before. Errors: `Unsound`, with that sector.
pub(crate) fn require_kept<M: Medium>(
    medium: &M,
    geometry: Geometry,
    used: &SectorSet,
    before: &SectorSet,
    held: &[Address],
) -> Result<(), ShellFault>
    requires { geometry ≤ (M.seen medium.now).tracks }
    ensures kept { OnOk result (are_kept ((M.seen medium.now).content directory_head)
        (is_only_in (is_marked used.now) (is_marked before.now)) held.now ≡ true) }
    ensures fault { IfErr result (IsSpoiltAmong ((M.seen medium.now).content directory_head)
        (is_only_in (is_marked used.now) (is_marked before.now)) held.now) }
{
    let mut rest = held;
    'sectors: while let Some((at, more)) = rest.split_first() {
        let is_free = is_free_at(medium, geometry, *at);
        match spoilt(is_free, is_only_in(used, before, *at)) {
            Some(number) => return Err(ShellFault::Unsound(unsound_at(number, *at))),
            None => rest = more,
        }
    }
    Ok(())
}

/// Whether a sector reads on both disks, with the same bytes.
fn is_same<M: Medium>(old: &M, new: &M, at: Address) -> bool
    requires old { at.track ≤ (M.seen old.now).tracks }
    requires new { at.track ≤ (M.seen new.now).tracks }
    ensures { result ≡ is_same_cell ((M.seen old.now).content at) ((M.seen new.now).content at) }
{
    match (old.read(at), new.read(at)) {
        (Ok(old), Ok(new)) => old == new,
        (Ok(_), Err(_)) | (Err(_), Ok(_)) | (Err(_), Err(_)) => false,
    }
}

/// Refuses two disks on which one of these sectors doesn't read, or has other bytes on the one than on the other. Errors: `Unsound`,
/// with that sector as one that is used twice.
pub(crate) fn require_same<M: Medium>(old: &M, new: &M, held: &[Address]) -> Result<(), ShellFault>
    ensures same { OnOk result (are_same_cells (M.seen old.now).content (M.seen new.now).content held.now ≡ true) }
    ensures fault { IfErr result (IsChangedAmong (M.seen old.now) (M.seen new.now) held.now) }
{
    let (most, many) = (old.tracks(), new.tracks());
    let mut rest = held;
    'sectors: while let Some((at, more)) = rest.split_first() {
        if at.track() > most || at.track() > many || !is_same(old, new, *at) {
            return Err(ShellFault::Unsound(unsound_at(USED_TWICE, *at)));
        }
        rest = more;
    }
    Ok(())
}
