//! The BAM's marks of the sectors that odd entries lead to: they are taken while a change is made, so that it gets none of them.
ghost use Rattle.std.specs.Prelude.{◌≡◌, ◌≤◌, ◌++◌, [], IfOk, IfErr, OnOk};
ghost use Rattle.cbm_medium.specs.Place.{sectors_on, directory_head};
ghost use Rattle.cbm_bam.specs.Marks.{is_marked};
ghost use Rattle.cbm_shell.specs.Mapping.{is_among};
ghost use Rattle.cbm_shell.specs.Passing.{place_if, places_on, places_in};
ghost use Rattle.cbm_odd.specs.Marking.{free_among, is_taken_now, taken_now, HasMarksOf, AreHeldClaimed, IsMarkedBy};
ghost use Rattle.cbm_odd.specs.Odd.{IsUnreadable};

use crate::held::add_held;
use cbm_bam::SectorSet;
use cbm_medium::{Address, Geometry, Medium, Steady, sectors_of};
use cbm_shell::ShellFault;
use cbm_shell::parts::{is_free_at, remapped};
use std::alloc::{AllocError, Global};

/// How the BAM of a changed disk has the sectors that odd entries lead to.
#[derive(Clone, Copy, Debug, PartialEq, Eq, Drop)]
pub enum Marks {
    /// As the disk had them before the change.
    AsBefore,
    /// As the change left them: taken.
    AsChanged,
}

/// Those of these sectors that the BAM has as free.
pub(crate) fn free_among<M: Medium>(
    alloc: Global,
    medium: &M,
    geometry: Geometry,
    held: &[Address],
) -> Result<Vec<Address>, AllocError>
    requires { geometry ≤ (M.seen medium.now).tracks }
    ensures { IfOk result (λ v. v.items ≡ free_among ((M.seen medium.now).content directory_head) held.now) }
{
    let mut free = Vec::new(alloc);
    for at in held {
        add_held(&mut free, is_free_at(medium, geometry, *at), *at)?;
    }
    Ok(free)
}

/// These sectors as a set.
fn set_of(places: &[Address]) -> SectorSet
    ensures { is_marked result ≡ is_among places.now }
{
    let mut set = SectorSet::new();
    for at in places {
        set.insert(*at);
    }
    set
}

/// Whether a sector is taken in the BAM or in the first set, and isn't in the second.
fn is_taken_now<M: Medium>(
    medium: &M,
    geometry: Geometry,
    more: &SectorSet,
    less: &SectorSet,
    at: Address,
) -> bool
    requires { geometry ≤ (M.seen medium.now).tracks }
    ensures { result ≡ is_taken_now ((M.seen medium.now).content directory_head) (is_marked more.now) (is_marked less.now) at }
{
    (!is_free_at(medium, geometry, at) || more.has(at)) && !less.has(at)
}

/// Adds those sectors of a track.
fn add_taken<M: Medium>(
    out: &mut Vec<Address>,
    medium: &M,
    geometry: Geometry,
    more: &SectorSet,
    less: &SectorSet,
    track: u8,
) -> Result<(), AllocError>
    requires room { geometry ≤ (M.seen medium.now).tracks }
    requires track { track ≤ 40 }
    ensures { let taken = is_taken_now ((M.seen medium.now).content directory_head) (is_marked more.now) (is_marked less.now) in
        OnOk result (out.new.items ≡ out.old.items ++ places_on taken track (sectors_on track)) }
{
    for sector in 0..sectors_of(track) {
        match Address::new(track, sector) {
            Some(at) => add_held(out, is_taken_now(medium, geometry, more, less, at), at)?,
            None => unreachable!(),
        }
    }
    Ok(())
}

/// The sectors of the disk that are taken in the BAM or in the first set, and aren't in the second.
fn taken_in<M: Medium>(
    alloc: Global,
    medium: &M,
    geometry: Geometry,
    more: &SectorSet,
    less: &SectorSet,
) -> Result<Vec<Address>, AllocError>
    requires { geometry ≤ (M.seen medium.now).tracks }
    ensures { let taken = is_taken_now ((M.seen medium.now).content directory_head) (is_marked more.now) (is_marked less.now) in
        IfOk result (λ v. v.items ≡ places_in taken geometry) }
{
    let mut taken = Vec::new(alloc);
    for track in 0..geometry.tracks() {
        add_taken(&mut taken, medium, geometry, more, less, track + 1)?;
    }
    Ok(taken)
}

/// The sectors that are taken in the BAM or among the first, and aren't among the second.
fn taken_now<M: Medium>(
    alloc: Global,
    medium: &M,
    geometry: Geometry,
    more: &[Address],
    less: &[Address],
) -> Result<SectorSet, AllocError>
    requires { geometry ≤ (M.seen medium.now).tracks }
    ensures { IfOk result (λ set. is_marked set
        ≡ is_among (taken_now geometry (M.seen medium.now).content more.now less.now)) }
{
    let taken = taken_in(alloc, medium, geometry, &set_of(more), &set_of(less))?;
    Ok(set_of(taken.as_slice()))
}

/// The disk whose BAM has the first sectors as taken and the second as free. Errors: `Trouble`, if 18/0 can't be read or written; `Memory`.
fn remarked<M: Steady + Drop>(
    alloc: Global,
    medium: M,
    geometry: Geometry,
    more: &[Address],
    less: &[Address],
) -> Result<M, ShellFault>
    requires { geometry ≤ (M.seen medium).tracks }
    ensures tracks { IfOk result (λ after. (M.seen after).tracks ≡ (M.seen medium).tracks) }
    ensures outside { IfOk result (λ after. (M.seen after).outside ≡ (M.seen medium).outside) }
    ensures marked { IfOk result (λ after. HasMarksOf geometry more.now less.now (M.seen medium).content (M.seen after).content) }
    ensures fault { IfErr result IsUnreadable }
{
    if more.is_empty() && less.is_empty() {
        return Ok(medium);
    }
    let taken = taken_now(alloc, &medium, geometry, more, less)?;
    remapped(medium, geometry, &taken)
}

/// The disk on which these sectors are claimed. Errors: `Trouble`, if 18/0 can't be read or written; `Memory`.
pub(crate) fn claimed<M: Steady + Drop>(
    alloc: Global,
    medium: M,
    geometry: Geometry,
    held: &[Address],
) -> Result<M, ShellFault>
    requires { geometry ≤ (M.seen medium).tracks }
    ensures tracks { IfOk result (λ after. (M.seen after).tracks ≡ (M.seen medium).tracks) }
    ensures outside { IfOk result (λ after. (M.seen after).outside ≡ (M.seen medium).outside) }
    ensures claimed { IfOk result (λ after. AreHeldClaimed geometry held.now (M.seen medium).content (M.seen after).content) }
    ensures fault { IfErr result IsUnreadable }
{
    let free = free_among(alloc, &medium, geometry, held)?;
    remarked(alloc, medium, geometry, free.as_slice(), &[])
}

/// The disk whose BAM has these sectors, which were free, as it is asked for. Errors: `Trouble`, if 18/0 can't be read or written; `Memory`.
pub(crate) fn marked_by<M: Steady + Drop>(
    alloc: Global,
    marks: Marks,
    medium: M,
    geometry: Geometry,
    free: &[Address],
) -> Result<M, ShellFault>
    requires { geometry ≤ (M.seen medium).tracks }
    ensures tracks { IfOk result (λ after. (M.seen after).tracks ≡ (M.seen medium).tracks) }
    ensures outside { IfOk result (λ after. (M.seen after).outside ≡ (M.seen medium).outside) }
    ensures marked { IfOk result (λ after. IsMarkedBy marks geometry free.now (M.seen medium).content (M.seen after).content) }
    ensures fault { IfErr result IsUnreadable }
{
    match marks {
        Marks::AsBefore => remarked(alloc, medium, geometry, &[], free),
        Marks::AsChanged => Ok(medium),
    }
}
