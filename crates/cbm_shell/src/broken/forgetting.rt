//! Taking the entry of a file out of the directory of a disk that isn't sound.
ghost use Rattle.std.specs.Prelude.{◌≡◌, ◌≤◌, None, IfOk, IfErr, IfSome, MatchOption, false};
ghost use Rattle.cbm_bam.specs.Map.{geometry_of};
ghost use Rattle.cbm_image.specs.AnyDisks.{any_seen};
ghost use Rattle.cbm_image.specs.Images.{kind_of, image_fault, tracks_of, content_of, outside_of, ChangesSectors};
ghost use Rattle.cbm_directory.specs.EntryChanges.{ClearsLed};
ghost use Rattle.cbm_shell.specs.Images.{IsSoundImage};
ghost use Rattle.cbm_shell.specs.Forgetting.{IsForgotten, IsNotForgotten, IsUncleared};

use crate::fault::ShellFault;
use crate::images::saved;
use crate::looking::open_disk;
use cbm_directory::clear_slot;
use cbm_image::{AnyDisk, Kind, kind_of};
use cbm_medium::Steady;
use cbm_volume::Volume;
use std::alloc::Global;

/// The disk with the entry in a slot cleared. Errors: `Trouble`, where the directory breaks off before, or the medium refuses
/// to be written.
fn cleared<M: Steady + Drop>(volume: Volume<M>, slot: u8) -> Result<M, ShellFault>
    requires { (M.seen volume).protected ≡ false }
    ensures tracks { IfOk result (λ after. (M.seen after).tracks ≡ (M.seen volume).tracks) }
    ensures outside { IfOk result (λ after. (M.seen after).outside ≡ (M.seen volume).outside) }
    ensures cleared { let old = M.seen volume in
        IfOk result (λ after. ClearsLed (geometry_of old.tracks old.content) old.content (M.seen after).content slot) }
    ensures cause { let old = M.seen volume in
        IfErr result (IsUncleared (geometry_of old.tracks old.content) old.content slot) }
{
    let geometry = volume.geometry();
    let mut medium = volume.into_medium();
    clear_slot(&mut medium, geometry, slot)?;
    Ok(medium)
}

/// The image of a disk with the entry in a slot cleared.
fn without_entry(
    alloc: Global,
    volume: Volume<AnyDisk>,
    kind: Kind,
    slot: u8,
) -> Result<Vec<u8>, ShellFault>
    requires { (any_seen volume).protected ≡ false }
    ensures cleared { let old = any_seen volume in IfOk result (λ v.
        ClearsLed (geometry_of old.tracks old.content) old.content (content_of kind v.items) slot) }
    ensures opens { IfOk result (λ v. image_fault kind v.items ≡ None) }
    ensures outside { IfOk result (λ v. outside_of kind v.items ≡ (any_seen volume).outside) }
    ensures cause { let old = any_seen volume in
        IfErr result (IsUncleared (geometry_of old.tracks old.content) old.content slot) }
{
    let disk = cleared(volume, slot)?;
    saved(alloc, &disk, kind)
}

/// Takes the entry in a slot out of the directory of a disk that isn't sound, locked or not: its type byte is 0 then. Its blocks
/// stay taken until the disk is put in order. None where the disk is sound: there the drive's own SCRATCH does it. Errors:
/// `Image`; `Trouble`, where the directory breaks off before the slot, or the medium can't be written; `Memory`.
pub fn forget(alloc: Global, image: &[u8], slot: u8) -> Result<Option<Vec<u8>>, ShellFault>
    // One byte of one entry is changed, and nothing else of the image; nothing at all on a sound disk.
    ensures forgotten { let kind = kind_of image.now in
        let tracks = geometry_of (tracks_of kind image.now) (content_of kind image.now) in
        IfOk result (λ o. MatchOption o (IsSoundImage kind image.now)
        (λ v. IsForgotten tracks (content_of kind image.now) (content_of kind v.items) slot)) }
    // The new image opens again.
    ensures opens { IfOk result (λ o. IfSome o (λ v. ChangesSectors image.now v.items)) }
    // An entry that can't be reached or written refuses it, and nothing else but the image's own fault and want of memory.
    ensures cause { IfErr result (IsNotForgotten image.now slot) }
{
    let volume = open_disk(alloc, image)?;
    match volume.check() {
        Ok(()) => Ok(None),
        Err(_) => {
            let new = without_entry(alloc, volume, kind_of(image), slot)?;
            Ok(Some(new))
        }
    }
}
