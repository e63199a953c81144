//! A file of an image, moved to blocks that are named.
ghost use Rattle.std.specs.Prelude.{◌≡◌, IfOk, IfErr, OnOk};
ghost use Rattle.cbm_image.specs.Images.{kind_of, ChangesSectors};
ghost use Rattle.cbm_shell.specs.Images.{IsSoundImage};
ghost use Rattle.cbm_place.specs.Placed.{IsPlacedIn, IsUnplacedIn};

use crate::moving::moved;
use cbm_image::kind_of;
use cbm_medium::Address;
use cbm_shell::parts::{require_sound, saved};
use cbm_shell::{ShellFault, open_disk};
use cbm_volume::Volume;
use std::alloc::Global;

/// Moves the file in a slot of an image: its blocks, in order, lie at these places. Its bytes, its entry but for its first block, and
/// all other files stay. Errors: `Image`; `Unsound`, with what is wrong first; `NotFound`, if the slot has no file; `NotClosed`;
/// `Mistaken`, if the file is relative, the places aren't as many as its blocks, one is named twice, or one is neither free nor the
/// file's own; `Trouble`; `Memory`.
pub fn place(
    alloc: Global,
    image: &[u8],
    slot: u8,
    places: &[Address],
) -> Result<Vec<u8>, ShellFault>
    // The places are claimed, the blocks written, the entry leads to the first, and those that the file left are free. Nothing else is changed.
    ensures placed { IfOk result (λ v. IsPlacedIn image.now slot places.now v.items) }
    ensures sound { OnOk result (IsSoundImage (kind_of image.now) image.now) }
    ensures stays { IfOk result (λ v. IsSoundImage (kind_of image.now) v.items) }
    ensures opens { IfOk result (λ v. ChangesSectors image.now v.items) }
    ensures fault { IfErr result (IsUnplacedIn image.now slot places.now) }
{
    let volume = open_disk(alloc, image)?;
    require_sound(&volume)?;
    let new = Volume::open(moved(alloc, volume, slot, places)?);
    require_sound(&new)?;
    let disk = new.into_medium();
    saved(alloc, &disk, kind_of(image))
}
