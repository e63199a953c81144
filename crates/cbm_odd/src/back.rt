//! Odd entries put back.
ghost use Rattle.std.specs.Prelude.{◌≡◌, ◌≤◌, None, IfOk, IfErr, OnOk, slice_range};
ghost use Rattle.std.specs.Str.{bytes_eq};
ghost use Rattle.cbm_bam.specs.Map.{geometry_of};
ghost use Rattle.cbm_bam.specs.Marks.{is_marked};
ghost use Rattle.cbm_directory.specs.Slots.{directory_of};
ghost use Rattle.cbm_image.specs.AnyDisks.{any_seen};
ghost use Rattle.cbm_image.specs.Images.{kind_of, image_fault, content_of, outside_of, ChangesSectors};
ghost use Rattle.cbm_odd.specs.Back.{stands_for, protected, StandsIn, IsMissing, IsPutBack, ArePutBack, IsNotBackFrom, files_on, others_on, free_of, LeavesHeld, ChangesHeld, AreBack, IsBackBy, IsBackIn, IsNotBackIn};

use crate::away::{put_entry, require_clear};
use crate::held::{held_places, require_same};
use crate::marking::{Marks, free_among, marked_by};
use crate::odd::{Odd, others_among};
use cbm_bam::SectorSet;
use cbm_channel::{Code, Status};
use cbm_directory::slot;
use cbm_image::{AnyDisk, Kind, kind_of};
use cbm_medium::{Address, Geometry, Medium, Steady};
use cbm_shell::parts::{entries_or_none, saved, used_sectors};
use cbm_shell::{ShellFault, open_disk};
use cbm_volume::{Entry, Volume};
use std::alloc::Global;

/// The refusal of a change that touches an odd entry: it is protected.
fn touched() -> ShellFault
    ensures { result ≡ ShellFault.Refused protected }
{
    ShellFault::Refused(Status {
        code: Code::WriteProtected,
        first: 0,
        second: 0,
    })
}

/// Whether two entries are the same but for their type and their link.
fn is_same_from_name(entry: &Entry, found: &Entry) -> bool
    ensures { result ≡ bytes_eq (slice_range found.now 3 30) (slice_range entry.now 3 30) }
{
    found.bytes()[3..30] == entry.bytes()[3..30]
}

/// Whether what is found in an odd entry's slot still stands for it: only its type and its link are others.
fn stands_for(entry: &Entry, found: &Entry) -> bool
    ensures { result ≡ stands_for entry.now found.now }
{
    !found.is_empty() && is_same_from_name(entry, found)
}

/// Refuses a disk on which nothing stands for an odd entry any more. Errors: `Refused`; `Trouble`.
fn require_standing<M: Medium>(medium: &M, geometry: Geometry, odd: &Odd) -> Result<(), ShellFault>
    requires { geometry ≤ (M.seen medium.now).tracks }
    ensures stands { OnOk result (StandsIn (directory_of geometry (M.seen medium.now).content) odd.now) }
    ensures fault { IfErr result (IsMissing (directory_of geometry (M.seen medium.now).content) odd.now) }
{
    match slot(medium, geometry, odd.slot)? {
        Some(found) if stands_for(&odd.entry, &found) => Ok(()),
        Some(_) | None => Err(touched()),
    }
}

/// Puts an odd entry back. Errors: `Refused`, if nothing stands for it any more; `Trouble`.
fn put_one_back<M: Steady>(medium: &mut M, geometry: Geometry, odd: &Odd) -> Result<(), ShellFault>
    requires { geometry ≤ (M.seen medium.old).tracks }
    ensures tracks { (M.seen medium.new).tracks ≡ (M.seen medium.old).tracks }
    ensures outside { (M.seen medium.new).outside ≡ (M.seen medium.old).outside }
    ensures back { OnOk result (IsPutBack geometry odd.now (M.seen medium.old).content (M.seen medium.new).content) }
    ensures fault { IfErr result (IsMissing (directory_of geometry (M.seen medium.old).content) odd.now) }
{
    require_standing(medium, geometry, odd)?;
    put_entry(medium, geometry, odd.slot, &odd.entry)
}

/// Puts odd entries back, one after another. Errors: those of one.
fn put_each_back<M: Steady>(
    medium: &mut M,
    geometry: Geometry,
    odds: &[Odd],
) -> Result<(), ShellFault>
    requires { geometry ≤ (M.seen medium.old).tracks }
    ensures tracks { (M.seen medium.new).tracks ≡ (M.seen medium.old).tracks }
    ensures outside { (M.seen medium.new).outside ≡ (M.seen medium.old).outside }
    ensures back { OnOk result (ArePutBack geometry odds.now (M.seen medium.old).content (M.seen medium.new).content) }
    ensures fault { IfErr result (IsNotBackFrom geometry odds.now (M.seen medium.old).content) }
{
    for odd in odds {
        put_one_back(medium, geometry, odd)?;
    }
    Ok(())
}

/// The disk with its odd entries, whose BAM has these sectors, which were free, as it is asked for. Errors: those of one; `Trouble`; `Memory`.
fn with_odds<M: Steady + Drop>(
    alloc: Global,
    marks: Marks,
    volume: Volume<M>,
    odds: &[Odd],
    free: &[Address],
) -> Result<M, ShellFault>
    ensures tracks { IfOk result (λ after. (M.seen after).tracks ≡ (M.seen volume).tracks) }
    ensures outside { IfOk result (λ after. (M.seen after).outside ≡ (M.seen volume).outside) }
    ensures back { let old = M.seen volume in IfOk result (λ after.
        AreBack marks (geometry_of old.tracks old.content) free.now odds.now old.content (M.seen after).content) }
    ensures fault { let old = M.seen volume in
        IfErr result (IsNotBackFrom (geometry_of old.tracks old.content) odds.now old.content) }
{
    let geometry = volume.geometry();
    let mut medium = volume.into_medium();
    put_each_back(&mut medium, geometry, odds)?;
    marked_by(alloc, marks, medium, geometry, free)
}

/// The sectors that a disk's directory and closed files use. The one error is `Memory`.
fn files_on<M: Medium>(alloc: Global, volume: &Volume<M>) -> Result<SectorSet, ShellFault>
    ensures files { let now = M.seen volume.now in IfOk result (λ set. is_marked set ≡ files_on now.tracks now.content) }
    ensures fault { IfErr result (λ f. f ≡ ShellFault.Memory) }
{
    let entries = entries_or_none(alloc, volume)?;
    Ok(used_sectors(volume.medium(), volume.geometry(), entries.as_slice()))
}

/// Those that a disk's directory and closed files use without its odd entries. The one error is `Memory`.
fn others_on<M: Medium>(
    alloc: Global,
    volume: &Volume<M>,
    odds: &[Odd],
) -> Result<SectorSet, ShellFault>
    ensures others { let now = M.seen volume.now in
        IfOk result (λ set. is_marked set ≡ others_on now.tracks now.content odds.now) }
    ensures fault { IfErr result (λ f. f ≡ ShellFault.Memory) }
{
    let entries = entries_or_none(alloc, volume)?;
    let others = others_among(alloc, odds, entries.as_slice())?;
    Ok(used_sectors(volume.medium(), volume.geometry(), others.as_slice()))
}

/// Those of the sectors that odd entries lead to which the BAM has as free. The one error is `Memory`.
fn free_of<M: Medium>(
    alloc: Global,
    volume: &Volume<M>,
    odds: &[Odd],
) -> Result<Vec<Address>, ShellFault>
    ensures free { let now = M.seen volume.now in
        IfOk result (λ v. v.items ≡ free_of now.tracks now.content odds.now) }
    ensures fault { IfErr result (λ f. f ≡ ShellFault.Memory) }
{
    let (medium, geometry) = (volume.medium(), volume.geometry());
    let held = held_places(alloc, medium, geometry, odds)?;
    let free = free_among(alloc, medium, geometry, held.as_slice())?;
    Ok(free)
}

/// Refuses a changed disk that isn't clear of the sectors that odd entries led to, or on which one of them has changed. Errors:
/// `Unsound`; `Trouble`; `Memory`.
fn require_left_alone<M: Medium>(
    alloc: Global,
    old: &Volume<M>,
    new: &Volume<M>,
    odds: &[Odd],
) -> Result<(), ShellFault>
    ensures alone { let before = M.seen old.now in let now = M.seen new.now in
        OnOk result (LeavesHeld before.tracks before.content now.tracks now.content odds.now) }
    ensures fault { let before = M.seen old.now in let now = M.seen new.now in
        IfErr result (ChangesHeld before now odds.now) }
{
    let held = held_places(alloc, old.medium(), old.geometry(), odds)?;
    let (used, before) = (files_on(alloc, new)?, others_on(alloc, old, odds)?);
    require_clear(new, &used, &before, held.as_slice())?;
    require_same(old.medium(), new.medium(), held.as_slice())
}

/// The image of a changed disk with its odd entries. Errors: those of its parts.
fn image_with(
    alloc: Global,
    marks: Marks,
    volume: Volume<AnyDisk>,
    kind: Kind,
    odds: &[Odd],
    free: &[Address],
) -> Result<Vec<u8>, ShellFault>
    ensures back { let old = any_seen volume in IfOk result (λ v.
        AreBack marks (geometry_of old.tracks old.content) free.now odds.now old.content (content_of kind v.items)) }
    ensures outside { IfOk result (λ v. outside_of kind v.items ≡ (any_seen volume).outside) }
    ensures opens { IfOk result (λ v. image_fault kind v.items ≡ None) }
    ensures fault { let old = any_seen volume in
        IfErr result (IsNotBackFrom (geometry_of old.tracks old.content) odds.now old.content) }
{
    let disk = with_odds(alloc, marks, volume, odds, free)?;
    saved(alloc, &disk, kind)
}

/// Puts the odd entries of an image of this format back into the changed one.
fn put_back_in(
    alloc: Global,
    kind: Kind,
    image: &[u8],
    odds: &[Odd],
    changed: &[u8],
    marks: Marks,
) -> Result<Vec<u8>, ShellFault>
    requires old { kind_of image.now ≡ kind }
    requires new { kind_of changed.now ≡ kind }
    ensures back { IfOk result (λ v. IsBackBy marks (kind_of image.now) image.now odds.now changed.now v.items) }
    ensures opens { IfOk result (λ v. ChangesSectors changed.now v.items) }
    ensures fault { IfErr result (IsNotBackIn image.now odds.now changed.now) }
{
    let old = open_disk(alloc, image)?;
    let new = open_disk(alloc, changed)?;
    require_left_alone(alloc, &old, &new, odds)?;
    let free = free_of(alloc, &old, odds)?;
    image_with(alloc, marks, new, kind, odds, free.as_slice())
}

/// Puts the odd entries of an image back into the image that was made of it without them. Sectors that they lead to and that were free
/// in the BAM are free again, or stay taken. Errors: `Image`; `Refused`, with WRITE PROTECT ON, if the change touched one of them;
/// `Unsound`, if what is left isn't sound, or the change touched a sector that one leads to; `Mistaken`, if the two images aren't of one
/// format; `Trouble`; `Memory`.
#[inline(never)]
pub fn put_back_by(
    alloc: Global,
    image: &[u8],
    odds: &[Odd],
    changed: &[u8],
    marks: Marks,
) -> Result<Vec<u8>, ShellFault>
    // Each odd entry is in its slot, byte for byte. Each sector that it leads to holds what it held, and no file has got it.
    ensures back { IfOk result (λ v. IsBackBy marks (kind_of image.now) image.now odds.now changed.now v.items) }
    ensures opens { IfOk result (λ v. ChangesSectors changed.now v.items) }
    ensures fault { IfErr result (IsNotBackIn image.now odds.now changed.now) }
{
    let kind = kind_of(image);
    if kind_of(changed) == kind {
        put_back_in(alloc, kind, image, odds, changed, marks)
    } else {
        Err(ShellFault::Mistaken)
    }
}

/// Puts the odd entries of an image back into the image that was made of it without them, and the BAM has the sectors that they lead to
/// as before. Errors: those of `put_back_by`.
pub fn put_back(
    alloc: Global,
    image: &[u8],
    odds: &[Odd],
    changed: &[u8],
) -> Result<Vec<u8>, ShellFault>
    ensures back { IfOk result (λ v. IsBackIn (kind_of image.now) image.now odds.now changed.now v.items) }
    ensures opens { IfOk result (λ v. ChangesSectors changed.now v.items) }
    ensures fault { IfErr result (IsNotBackIn image.now odds.now changed.now) }
{
    put_back_by(alloc, image, odds, changed, Marks::AsBefore)
}
