//! Another type: a change of an entry alone.
ghost use Rattle.std.specs.Prelude.{◌≡◌, None, IfOk, IfErr, OnOk};
ghost use Rattle.cbm_bam.specs.Map.{geometry_of};
ghost use Rattle.cbm_image.specs.AnyDisks.{any_seen};
ghost use Rattle.cbm_image.specs.Images.{kind_of, image_fault, content_of, outside_of, ChangesSectors};
ghost use Rattle.cbm_shell.specs.Images.{IsSoundImage};
ghost use Rattle.cbm_slots.specs.Retyping.{retyped_entry, IsPlainFile, IsNoPlainFile, IsRetyped, IsUnretyped, IsUnfit, IsRetypedInSlot, IsNotRetypedInSlot};

use crate::meant::refused;
use cbm_channel::Code;
use cbm_directory::put_slot;
use cbm_image::{AnyDisk, Kind, kind_of};
use cbm_medium::{Medium, Steady};
use cbm_shell::parts::{entry_of, require_sound, saved};
use cbm_shell::{ShellFault, open_disk};
use cbm_volume::{Entry, FileType, Volume};
use std::alloc::Global;

/// An entry with another type.
fn retyped_entry(entry: &Entry, kind: FileType) -> Entry
    ensures { result ≡ retyped_entry kind entry.now }
{
    let mut bytes = *entry.bytes();
    bytes[0] = 16 * (bytes[0] / 16) + kind.number();
    entry_of(&bytes)
}

/// The entry in a slot, if it is that of a file without records. Errors: `NotFound`; `Refused`, if it has records; `Trouble`.
fn plain_entry<M: Medium>(volume: &Volume<M>, slot: u8) -> Result<Entry, ShellFault>
    ensures plain { let now = M.seen volume.now in IfOk result (IsPlainFile (geometry_of now.tracks now.content) now.content slot) }
    ensures fault { let now = M.seen volume.now in IfErr result (IsNoPlainFile (geometry_of now.tracks now.content) now.content slot) }
{
    let Some(entry) = volume.slot(slot)? else {
        return Err(ShellFault::NotFound);
    };
    if entry.is_empty() {
        return Err(ShellFault::NotFound);
    }
    if entry.is_relative() {
        return Err(refused(Code::WrongType));
    }
    Ok(entry)
}

/// The disk on which the file in a slot has another type. Errors: those of `plain_entry`; `Trouble`.
fn retyped<M: Steady + Drop>(volume: Volume<M>, slot: u8, kind: FileType) -> Result<M, ShellFault>
    ensures tracks { IfOk result (λ after. (M.seen after).tracks ≡ (M.seen volume).tracks) }
    ensures outside { IfOk result (λ after. (M.seen after).outside ≡ (M.seen volume).outside) }
    ensures retyped { let old = M.seen volume in IfOk result (λ after.
        IsRetyped (geometry_of old.tracks old.content) slot kind old.content (M.seen after).content) }
    ensures fault { let old = M.seen volume in IfErr result (IsNoPlainFile (geometry_of old.tracks old.content) old.content slot) }
{
    let entry = plain_entry(&volume, slot)?;
    let geometry = volume.geometry();
    let mut medium = volume.into_medium();
    put_slot(&mut medium, geometry, slot, &retyped_entry(&entry, kind))?;
    Ok(medium)
}

/// The image of a disk, if it is sound. Errors: `Unsound`, with what is wrong first; `Memory`.
fn fit_image(alloc: Global, disk: AnyDisk, format: Kind) -> Result<Vec<u8>, ShellFault>
    ensures sound { IfOk result (λ v. IsSoundImage format v.items) }
    ensures content { IfOk result (λ v. content_of format v.items ≡ (any_seen disk).content) }
    ensures outside { IfOk result (λ v. outside_of format v.items ≡ (any_seen disk).outside) }
    ensures opens { IfOk result (λ v. image_fault format v.items ≡ None) }
    ensures fault { let now = any_seen disk in IfErr result (IsUnfit now.tracks now.content) }
{
    let volume = Volume::open(disk);
    require_sound(&volume)?;
    saved(alloc, &volume.into_medium(), format)
}

/// The image on which the file in a slot has another type. Errors: those of `retyped` and of `fit_image`.
fn retyped_image(
    alloc: Global,
    volume: Volume<AnyDisk>,
    format: Kind,
    slot: u8,
    kind: FileType,
) -> Result<Vec<u8>, ShellFault>
    ensures retyped { let old = any_seen volume in IfOk result (λ v.
        IsRetyped (geometry_of old.tracks old.content) slot kind old.content (content_of format v.items)) }
    ensures sound { IfOk result (λ v. IsSoundImage format v.items) }
    ensures outside { IfOk result (λ v. outside_of format v.items ≡ (any_seen volume).outside) }
    ensures opens { IfOk result (λ v. image_fault format v.items ≡ None) }
    ensures fault { let old = any_seen volume in IfErr result (IsUnretyped old.tracks old.content slot kind) }
{
    let disk = retyped(volume, slot, kind)?;
    fit_image(alloc, disk, format)
}

/// Gives the file in a slot of an image another type; whether it is closed and locked, its name, its blocks and all else stay. Errors:
/// `Image`; `Unsound`, with what is wrong first, before the change or after it; `NotFound`, if the slot has no file; `Refused` with
/// FILE TYPE MISMATCH, if its file has records; `Trouble`, if a sector can't be read or written; `Memory`.
pub fn retype(alloc: Global, image: &[u8], slot: u8, kind: FileType) -> Result<Vec<u8>, ShellFault>
    // The entry has the type, and nothing else of the image is changed.
    ensures retyped { IfOk result (λ v. IsRetypedInSlot image.now slot kind v.items) }
    ensures sound { OnOk result (IsSoundImage (kind_of image.now) image.now) }
    ensures stays { IfOk result (λ v. IsSoundImage (kind_of image.now) v.items) }
    ensures opens { IfOk result (λ v. ChangesSectors image.now v.items) }
    ensures fault { IfErr result (IsNotRetypedInSlot image.now slot kind) }
{
    let volume = open_disk(alloc, image)?;
    require_sound(&volume)?;
    retyped_image(alloc, volume, kind_of(image), slot, kind)
}
