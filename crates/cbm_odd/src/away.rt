//! Odd entries put away: what is left is a sound disk, which is changed as any other.
ghost use Rattle.std.specs.Prelude.{◌≡◌, ◌≤◌, None, IfOk, IfErr, OnOk};
ghost use Rattle.cbm_bam.specs.Map.{geometry_of};
ghost use Rattle.cbm_bam.specs.Marks.{is_marked, nothing};
ghost use Rattle.cbm_directory.specs.Entries.{EntersLed};
ghost use Rattle.cbm_image.specs.AnyDisks.{any_seen};
ghost use Rattle.cbm_image.specs.Images.{kind_of, image_fault, content_of, outside_of, ChangesSectors};
ghost use Rattle.cbm_shell.specs.Images.{IsSoundImage, IsSoundDisk};
ghost use Rattle.cbm_odd.specs.Away.{away_entry, ArePutAway, IsClearOf, IsUnclear, IsAway, IsNotLeft, IsAwayIn, IsNotAwayIn};
ghost use Rattle.cbm_odd.specs.Odd.{IsUnreadable};

use crate::held::{held_places, require_kept};
use crate::marking::claimed;
use crate::odd::{Odd, odds_of};
use cbm_bam::SectorSet;
use cbm_directory::put_slot;
use cbm_image::{AnyDisk, Kind, kind_of};
use cbm_medium::{Address, Geometry, Medium, Steady};
use cbm_shell::parts::{entry_of, require_sound, saved};
use cbm_shell::{ShellFault, open_disk};
use cbm_volume::{Entry, Volume};
use std::alloc::Global;

/// The type byte of what stands in an odd entry's place: a DEL, closed and locked.
const PLAIN: u8 = 192;

/// An image with its odd entries put away.
#[derive(Drop)]
pub struct Away {
    /// The image, whose disk is sound.
    pub image: Vec<u8>,
    /// What was put away, in order of the slots.
    pub odds: Vec<Odd>,
}

/// What stands in an odd entry's place: a locked DEL of its name, without a block.
fn away_entry(entry: &Entry) -> Entry
    ensures { result ≡ away_entry entry.now }
{
    let mut bytes = *entry.bytes();
    bytes[0] = PLAIN;
    bytes[1] = 0;
    bytes[2] = 0;
    entry_of(&bytes)
}

/// Writes an entry into the slot of an odd one. The one error is `Trouble`.
pub(crate) fn put_entry<M: Steady>(
    medium: &mut M,
    geometry: Geometry,
    slot: u8,
    entry: &Entry,
) -> Result<(), ShellFault>
    requires { geometry ≤ (M.seen medium.old).tracks }
    ensures tracks { (M.seen medium.new).tracks ≡ (M.seen medium.old).tracks }
    ensures outside { (M.seen medium.new).outside ≡ (M.seen medium.old).outside }
    ensures entered { OnOk result (EntersLed geometry (M.seen medium.old).content (M.seen medium.new).content slot entry.now) }
    ensures fault { IfErr result IsUnreadable }
{
    put_slot(medium, geometry, slot, entry)?;
    Ok(())
}

/// Puts odd entries away, one after another. Errors: those of one.
fn put_each_away<M: Steady>(
    medium: &mut M,
    geometry: Geometry,
    odds: &[Odd],
) -> Result<(), ShellFault>
    requires { geometry ≤ (M.seen medium.old).tracks }
    ensures tracks { (M.seen medium.new).tracks ≡ (M.seen medium.old).tracks }
    ensures outside { (M.seen medium.new).outside ≡ (M.seen medium.old).outside }
    ensures away { OnOk result (ArePutAway geometry odds.now (M.seen medium.old).content (M.seen medium.new).content) }
    ensures fault { IfErr result IsUnreadable }
{
    for odd in odds {
        put_entry(medium, geometry, odd.slot, &away_entry(&odd.entry))?;
    }
    Ok(())
}

/// The disk without its odd entries. Errors: those of one.
fn without<M: Steady + Drop>(volume: Volume<M>, odds: &[Odd]) -> Result<M, ShellFault>
    ensures tracks { IfOk result (λ after. (M.seen after).tracks ≡ (M.seen volume).tracks) }
    ensures outside { IfOk result (λ after. (M.seen after).outside ≡ (M.seen volume).outside) }
    ensures away { let old = M.seen volume in IfOk result (λ after.
        ArePutAway (geometry_of old.tracks old.content) odds.now old.content (M.seen after).content) }
    ensures fault { IfErr result IsUnreadable }
{
    let geometry = volume.geometry();
    let mut medium = volume.into_medium();
    put_each_away(&mut medium, geometry, odds)?;
    Ok(medium)
}

/// Refuses a disk that isn't sound, or on which one of these sectors is free, or used and wasn't before. Errors: `Unsound`; `Trouble`;
/// `Memory`.
pub(crate) fn require_clear<M: Medium>(
    volume: &Volume<M>,
    used: &SectorSet,
    before: &SectorSet,
    held: &[Address],
) -> Result<(), ShellFault>
    ensures clear { let now = M.seen volume.now in
        OnOk result (IsClearOf now.tracks now.content (is_marked used.now) (is_marked before.now) held.now) }
    ensures fault { let now = M.seen volume.now in
        IfErr result (IsUnclear now.tracks now.content (is_marked used.now) (is_marked before.now) held.now) }
{
    require_sound(volume)?;
    require_kept(volume.medium(), volume.geometry(), used, before, held)
}

/// The image of a disk, if it is sound and these sectors are taken in its BAM. Errors: `Unsound`; `Trouble`; `Memory`.
fn clear_image(
    alloc: Global,
    disk: AnyDisk,
    kind: Kind,
    held: &[Address],
) -> Result<Vec<u8>, ShellFault>
    ensures clear { let now = any_seen disk in OnOk result (IsClearOf now.tracks now.content nothing nothing held.now) }
    ensures sound { IfOk result (λ v. IsSoundImage kind v.items) }
    ensures content { IfOk result (λ v. content_of kind v.items ≡ (any_seen disk).content) }
    ensures outside { IfOk result (λ v. outside_of kind v.items ≡ (any_seen disk).outside) }
    ensures opens { IfOk result (λ v. image_fault kind v.items ≡ None) }
    ensures fault { let now = any_seen disk in IfErr result (IsUnclear now.tracks now.content nothing nothing held.now) }
{
    let volume = Volume::open(disk);
    let unused = SectorSet::new();
    require_clear(&volume, &unused, &unused, held)?;
    saved(alloc, &volume.into_medium(), kind)
}

/// The image of a disk without its odd entries. Errors: those of its parts.
fn image_without(
    alloc: Global,
    volume: Volume<AnyDisk>,
    kind: Kind,
    odds: &[Odd],
) -> Result<Vec<u8>, ShellFault>
    ensures away { let old = any_seen volume in IfOk result (λ v. IsAway kind old.tracks old.content odds.now v.items) }
    ensures outside { IfOk result (λ v. outside_of kind v.items ≡ (any_seen volume).outside) }
    ensures opens { IfOk result (λ v. image_fault kind v.items ≡ None) }
    ensures fault { let old = any_seen volume in IfErr result (IsNotLeft old.tracks old.content odds.now) }
{
    let geometry = volume.geometry();
    let held = held_places(alloc, volume.medium(), geometry, odds)?;
    let left = without(volume, odds)?;
    let disk = claimed(alloc, left, geometry, held.as_slice())?;
    clear_image(alloc, disk, kind, held.as_slice())
}

/// Puts the odd entries of an image away: in each one's slot there is a locked DEL of its name, without a block. Sectors that they lead
/// to are taken in the BAM, so that a change gets none of them. Nothing else is changed. Errors: `Image`; `Unsound`, with what is wrong
/// first, if more is wrong than entries; `Trouble`; `Memory`.
#[inline(never)]
pub fn put_away(alloc: Global, image: &[u8]) -> Result<Away, ShellFault>
    // What is left is sound, and each sector that the odd entries lead to is taken.
    ensures away { IfOk result (IsAwayIn image.now) }
    ensures opens { IfOk result (λ a. ChangesSectors image.now a.image.items) }
    ensures fault { IfErr result (IsNotAwayIn image.now) }
{
    let volume = open_disk(alloc, image)?;
    let odds = odds_of(alloc, &volume)?;
    let image = image_without(alloc, volume, kind_of(image), odds.as_slice())?;
    Ok(Away { image, odds })
}
