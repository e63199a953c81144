//! Entries of the directory in another order, which no command of the drive makes.
ghost use Rattle.std.specs.Prelude.{◌≡◌, ◌≤◌, List, false, Some, None, Ok, IfOk, IfErr, OnOk};
ghost use Rattle.cbm_medium.specs.Place.{Place};
ghost use Rattle.cbm_bam.specs.Map.{geometry_of};
ghost use Rattle.cbm_directory.specs.Slots.{Answers, directory_of};
ghost use Rattle.cbm_image.specs.Images.{kind_of, ChangesSectors};
ghost use Rattle.cbm_shell.specs.Images.{IsSoundImage};
ghost use Rattle.cbm_shell.specs.Editing.{CanBeEdited, IsDirectory, IsNoEntry, IsSameMedium, IsUnedited, IsUneditedIn, KeepsDirectory};
ghost use Rattle.cbm_shell.specs.Swapping.{Swaps, AreSwapped, MissesSlot, MissesSlotIn, AreSwappedIn, MissesOne};

use crate::changing::require_sound;
use crate::fault::ShellFault;
use crate::images::saved;
use crate::looking::open_disk;
use cbm_directory::{put_slot, slot};
use cbm_image::kind_of;
use cbm_medium::{Geometry, Medium, Steady};
use cbm_volume::{Entry, Volume};
use std::alloc::Global;

/// Two slots of the directory whose entries change places, by their numbers from 0 on.
#[derive(Clone, Copy, Debug, PartialEq, Eq)]
pub struct Swap {
    /// The one.
    pub first: u8,
    /// The other.
    pub second: u8,
}

/// The entry of a slot. Errors: `NotFound`, where the directory has no such slot; `Trouble`.
pub(crate) fn entry_at<M: Medium>(
    medium: &M,
    geometry: Geometry,
    number: u8,
) -> Result<Entry, ShellFault>
    requires { geometry ≤ (M.seen medium.now).tracks }
    ensures stands { IfOk result (λ e. Answers (directory_of geometry (M.seen medium.now).content) number (Ok (Some e))) }
    ensures fault { IfErr result (IsNoEntry geometry (M.seen medium.now).content number) }
{
    match slot(medium, geometry, number)? {
        Some(entry) => Ok(entry),
        None => Err(ShellFault::NotFound),
    }
}

/// Lets two entries change places. Errors: `NotFound`; `Trouble`, but never where the directory can be followed and written.
fn swap_two<M: Steady>(medium: &mut M, geometry: Geometry, swap: Swap) -> Result<(), ShellFault>
    requires { geometry ≤ (M.seen medium.old).tracks }
    ensures swaps { OnOk result (Swaps geometry swap (M.seen medium.old).content (M.seen medium.new).content) }
    ensures same { IsSameMedium (M.seen medium.old) (M.seen medium.new) }
    ensures directory { KeepsDirectory result geometry (M.seen medium.old).content (M.seen medium.new).content }
    ensures fault { let old = M.seen medium.old in (sectors : List Place) → IsDirectory geometry old.content sectors →
        old.protected ≡ false → IfErr result (MissesOne geometry old.content swap) }
{
    let first = entry_at(medium, geometry, swap.first)?;
    let second = entry_at(medium, geometry, swap.second)?;
    put_slot(medium, geometry, swap.first, &second)?;
    put_slot(medium, geometry, swap.second, &first)?;
    Ok(())
}

/// Lets entries change places, one pair after the other. Errors: as of two entries.
fn swap_each<M: Steady>(
    medium: &mut M,
    geometry: Geometry,
    swaps: &[Swap],
) -> Result<(), ShellFault>
    requires { geometry ≤ (M.seen medium.old).tracks }
    ensures swapped { OnOk result
        (AreSwapped geometry swaps.now (M.seen medium.old).content (M.seen medium.new).content) }
    ensures same { IsSameMedium (M.seen medium.old) (M.seen medium.new) }
    ensures fault { let old = M.seen medium.old in (sectors : List Place) → IsDirectory geometry old.content sectors →
        old.protected ≡ false → IfErr result (λ f. (f ≡ ShellFault.NotFound) × MissesSlot geometry old.content swaps.now) }
{
    for swap in swaps {
        swap_two(medium, geometry, *swap)?;
    }
    Ok(())
}

/// The disk on which entries have changed places. Errors: `NotFound`; `Trouble`, but never on a sound disk that can be written.
fn swapped<M: Steady + Drop>(volume: Volume<M>, swaps: &[Swap]) -> Result<M, ShellFault>
    ensures swapped { let old = M.seen volume in IfOk result (λ after.
        AreSwapped (geometry_of old.tracks old.content) swaps.now old.content (M.seen after).content) }
    ensures tracks { IfOk result (λ after. (M.seen after).tracks ≡ (M.seen volume).tracks) }
    ensures outside { IfOk result (λ after. (M.seen after).outside ≡ (M.seen volume).outside) }
    ensures fault { let old = M.seen volume in let tracks = geometry_of old.tracks old.content in CanBeEdited tracks old →
        IfErr result (IsUnedited old.tracks old.content (MissesSlot tracks old.content swaps.now)) }
{
    let geometry = volume.geometry();
    let mut medium = volume.into_medium();
    swap_each(&mut medium, geometry, swaps)?;
    Ok(medium)
}

/// Lets entries of an image's directory change places, one pair after the other. Errors: `Image`; `Unsound`, with what is wrong
/// first; `NotFound`, where the directory doesn't have one of the slots; `Memory`.
pub fn swap_entries(alloc: Global, image: &[u8], swaps: &[Swap]) -> Result<Vec<u8>, ShellFault>
    // The entries are those that were there, with all their bytes, and nothing else of the image is changed.
    ensures swapped { IfOk result (λ v. AreSwappedIn image.now swaps.now v.items) }
    ensures sound { OnOk result (IsSoundImage (kind_of image.now) image.now) }
    ensures stays { IfOk result (λ v. IsSoundImage (kind_of image.now) v.items) }
    ensures opens { IfOk result (λ v. ChangesSectors image.now v.items) }
    ensures fault { IfErr result (IsUneditedIn image.now (MissesSlotIn image.now swaps.now)) }
{
    let volume = open_disk(alloc, image)?;
    require_sound(&volume)?;
    let disk = swapped(volume, swaps)?;
    saved(alloc, &disk, kind_of(image))
}
