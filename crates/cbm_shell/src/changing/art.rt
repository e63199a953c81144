//! How the directory looks: lines of art, which are entries without a block, and names, blocks and locks of files. No command
//! of the drive makes such changes.
ghost use Rattle.std.specs.Prelude.{◌≡◌, ◌≤◌, None, length, IfOk, IfErr, IfSome, IsOk, OnOk, MatchOption};
ghost use Rattle.cbm_medium.specs.Place.{Place};
ghost use Rattle.cbm_medium.specs.Content.{IsWhole};
ghost use Rattle.cbm_bam.specs.Map.{geometry_of};
ghost use Rattle.cbm_image.specs.Images.{kind_of, ChangesSectors};
ghost use Rattle.cbm_shell.specs.Images.{IsSoundImage};
ghost use Rattle.cbm_shell.specs.Editing.{CanBeEdited, HasNoSlot, HasNoSlotIn, IsUnedited, IsUneditedIn};
ghost use Rattle.cbm_shell.specs.Art.{art_entry, dressed_entry, HasEntered, IsDressed, IsDirectoryFull, IsImageFull, HasEnteredIn, IsDressedIn};

use crate::changing::locking::{entry_of, locked_entry};
use crate::changing::require_sound;
use crate::changing::swapping::entry_at;
use crate::fault::ShellFault;
use crate::images::saved;
use crate::looking::open_disk;
use cbm_directory::{empty_slot, put_slot};
use cbm_image::kind_of;
use cbm_medium::{Link, Steady};
use cbm_volume::{Entry, FileType, Volume};
use std::alloc::Global;

/// How an entry looks.
#[derive(Clone, Copy)]
pub struct Looks<'a> {
    /// Its name, of at most sixteen bytes.
    pub name: &'a [u8],
    /// The number of blocks that is shown.
    pub blocks: u16,
    /// Whether it is shown as locked.
    pub is_locked: bool,
}

/// The entry of a line of art.
fn art_entry(looks: Looks<'_>) -> Entry
    requires { length looks.name.now ≤ 16 }
    ensures { result ≡ art_entry looks.entry.name.now looks.entry.blocks looks.entry.is_locked }
{
    let nowhere = Link::new(0, 0);
    let fresh = Entry::fresh(FileType::Del, looks.name, nowhere);
    locked_entry(&fresh.closed(nowhere, looks.blocks), looks.is_locked)
}

/// The disk with an entry in its first empty slot; None where no slot is empty and the directory can't grow. Errors:
/// `Trouble`, where the directory breaks off before, or the medium refuses to be written; never on a sound disk that can be
/// written.
fn entered<M: Steady + Drop>(volume: Volume<M>, entry: &Entry) -> Result<Option<M>, ShellFault>
    ensures tracks { IfOk result (λ o. MatchOption o (Unit {0}) (λ after. (M.seen after).tracks ≡ (M.seen volume).tracks)) }
    ensures outside { IfOk result (λ o. MatchOption o (Unit {0}) (λ after. (M.seen after).outside ≡ (M.seen volume).outside)) }
    ensures enters { let old = M.seen volume in let tracks = geometry_of old.tracks old.content in
        IfOk result (λ o. MatchOption o (IsDirectoryFull tracks old.content)
        (λ after. HasEntered tracks old.content (M.seen after).content entry.now)) }
    ensures never { let old = M.seen volume in CanBeEdited (geometry_of old.tracks old.content) old → IsOk result }
{
    let geometry = volume.geometry();
    let mut medium = volume.into_medium();
    let Some(slot) = empty_slot(&mut medium, geometry)? else {
        return Ok(None);
    };
    put_slot(&mut medium, geometry, slot, entry)?;
    Ok(Some(medium))
}

/// Adds a line of art to the directory of an image; None where no slot is empty and the directory can't grow. Errors:
/// `Image`; `Unsound`, with what is wrong first; `Memory`.
pub fn add_art(alloc: Global, image: &[u8], looks: Looks<'_>) -> Result<Option<Vec<u8>>, ShellFault>
    requires { length looks.name.now ≤ 16 }
    // The first empty slot has the entry, and nothing else of the image is changed, but that the directory has grown
    // where no slot was empty.
    ensures enters { IfOk result (λ o. MatchOption o (IsImageFull image.now) (λ v. HasEnteredIn image.now
        (art_entry looks.entry.name.now looks.entry.blocks looks.entry.is_locked) v.items)) }
    // An image that isn't sound gives no new one; the new image is sound, and opens again.
    ensures sound { OnOk result (IsSoundImage (kind_of image.now) image.now) }
    ensures stays { IfOk result (λ o. IfSome o (λ v. IsSoundImage (kind_of image.now) v.items)) }
    ensures opens { IfOk result (λ o. IfSome o (λ v. ChangesSectors image.now v.items)) }
    ensures fault { IfErr result (IsUneditedIn image.now ⊥) }
{
    let volume = open_disk(alloc, image)?;
    require_sound(&volume)?;
    let Some(disk) = entered(volume, &art_entry(looks))? else {
        return Ok(None);
    };
    Ok(Some(saved(alloc, &disk, kind_of(image))?))
}

/// An entry that looks so.
fn dressed_entry(entry: &Entry, looks: Looks<'_>) -> Entry
    requires { length looks.name.now ≤ 16 }
    ensures { result ≡ dressed_entry looks.entry.name.now looks.entry.blocks looks.entry.is_locked entry.now }
{
    let mut bytes = *locked_entry(&entry.renamed(looks.name), looks.is_locked).bytes();
    bytes[28] = (looks.blocks % 256) as u8;
    bytes[29] = (looks.blocks / 256) as u8;
    entry_of(&bytes)
}

/// The disk on which the entry of a slot looks so. Errors: `NotFound`, where the directory has no such slot; `Trouble`, but never
/// on a sound disk that can be written.
fn dressed<M: Steady + Drop>(volume: Volume<M>, slot: u8, looks: Looks<'_>) -> Result<M, ShellFault>
    requires { length looks.name.now ≤ 16 }
    ensures tracks { IfOk result (λ after. (M.seen after).tracks ≡ (M.seen volume).tracks) }
    ensures outside { IfOk result (λ after. (M.seen after).outside ≡ (M.seen volume).outside) }
    ensures dressed { let old = M.seen volume in IfOk result (λ after. IsDressed (geometry_of old.tracks old.content) slot
        looks.entry.name.now looks.entry.blocks looks.entry.is_locked old.content (M.seen after).content) }
    ensures whole { (p : Place) → IsWhole ((M.seen volume).content p) }
    ensures fault { let old = M.seen volume in let tracks = geometry_of old.tracks old.content in CanBeEdited tracks old →
        IfErr result (IsUnedited old.tracks old.content (HasNoSlot tracks old.content slot)) }
{
    let geometry = volume.geometry();
    let mut medium = volume.into_medium();
    let entry = entry_at(&medium, geometry, slot)?;
    put_slot(&mut medium, geometry, slot, &dressed_entry(&entry, looks))?;
    Ok(medium)
}

/// Lets the entry of a slot look so, by its number from 0 on: name, blocks and lock. Errors: `Image`; `Unsound`, with what is wrong
/// first; `NotFound`, where the directory has no such slot; `Memory`.
pub fn dress(alloc: Global, image: &[u8], slot: u8, looks: Looks<'_>) -> Result<Vec<u8>, ShellFault>
    requires { length looks.name.now ≤ 16 }
    // The entry's name, its number of blocks and its lock are others, and nothing else of the image.
    ensures dressed { IfOk result (λ v.
        IsDressedIn image.now slot looks.entry.name.now looks.entry.blocks looks.entry.is_locked v.items) }
    // An image that isn't sound gives no new one; the new image is sound, and opens again.
    ensures sound { OnOk result (IsSoundImage (kind_of image.now) image.now) }
    ensures stays { IfOk result (λ v. IsSoundImage (kind_of image.now) v.items) }
    ensures opens { IfOk result (λ v. ChangesSectors image.now v.items) }
    ensures fault { IfErr result (IsUneditedIn image.now (HasNoSlotIn image.now slot)) }
{
    let volume = open_disk(alloc, image)?;
    require_sound(&volume)?;
    let disk = dressed(volume, slot, looks)?;
    saved(alloc, &disk, kind_of(image))
}
