//! Another title.
ghost use Rattle.std.specs.Prelude.{◌≡◌, ◌≤◌, false, None, length, IfOk, IfErr, IsOk, OnOk};
ghost use Rattle.cbm_medium.specs.Place.{Place, directory_head};
ghost use Rattle.cbm_medium.specs.Content.{IsWhole, written};
ghost use Rattle.cbm_bam.specs.Map.{geometry_of};
ghost use Rattle.cbm_image.specs.Images.{kind_of, ImageHolds, ChangesSectors};
ghost use Rattle.cbm_shell.specs.Images.{IsSoundImage, OfHeld};
ghost use Rattle.cbm_shell.specs.Editing.{CanBeEdited, IsUneditedIn};
ghost use Rattle.cbm_shell.specs.Remaking.{IsTroubled};
ghost use Rattle.cbm_shell.specs.Locking.{with_title, titled, entitled, IsRetitled};

use crate::changing::require_sound;
use crate::fault::ShellFault;
use crate::images::saved;
use crate::looking::open_disk;
use cbm_file::padded;
use cbm_image::kind_of;
use cbm_medium::{Address, Steady, Trouble};
use cbm_volume::Volume;
use std::alloc::Global;
use std::ops::Range;

/// Where the title stands in 18/0.
const TITLE: Range<usize> = 144..160;

/// Writes a title into the bytes of 18/0.
fn put_title(head: &mut [u8; 256], title: &[u8])
    requires { length title.now ≤ 16 }
    ensures { head.new ≡ with_title title.now head.old }
{
    head[TITLE].copy_from_slice(&padded(title));
}

/// Writes 18/0. Errors: `Trouble`, but never where 18/0 reads and can be written.
pub fn write_head<M: Steady>(medium: &mut M, head: &[u8; 256]) -> Result<(), ShellFault>
    ensures content { OnOk result ((M.seen medium.new).content ≡ written (M.seen medium.old).content directory_head head.now) }
    ensures tracks { (M.seen medium.new).tracks ≡ (M.seen medium.old).tracks }
    ensures outside { (M.seen medium.new).outside ≡ (M.seen medium.old).outside }
    ensures never { let old = M.seen medium.old in
        IsOk (old.content directory_head) → old.protected ≡ false → IsOk result }
    ensures fault { IfErr result IsTroubled }
{
    let _tracks = medium.tracks();
    match medium.write(Address::of_map(), head) {
        Ok(()) => Ok(()),
        Err(fault) => Err(ShellFault::Trouble(Trouble::from(fault))),
    }
}

/// A disk with another title. Errors: `Trouble`, where 18/0 can't be read or written; never on a sound disk that can be written.
fn retitled<M: Steady + Drop>(volume: Volume<M>, title: &[u8]) -> Result<M, ShellFault>
    requires { length title.now ≤ 16 }
    ensures content { IfOk result (λ after. (M.seen after).content ≡ titled title.now (M.seen volume).content) }
    ensures tracks { IfOk result (λ after. (M.seen after).tracks ≡ (M.seen volume).tracks) }
    ensures outside { IfOk result (λ after. (M.seen after).outside ≡ (M.seen volume).outside) }
    ensures whole { (p : Place) → IsWhole ((M.seen volume).content p) }
    ensures never { let old = M.seen volume in CanBeEdited (geometry_of old.tracks old.content) old → IsOk result }
{
    let geometry = volume.geometry();
    let mut medium = volume.into_medium();
    let mut head = cbm_bam::read_map(&medium, geometry)?;
    put_title(&mut head, title);
    write_head(&mut medium, &head)?;
    Ok(medium)
}

/// Gives the disk of an image another title, of at most sixteen bytes. Errors: `Image`; `Unsound`, with what is wrong first;
/// `Memory`.
pub fn retitle(alloc: Global, image: &[u8], title: &[u8]) -> Result<Vec<u8>, ShellFault>
    requires { length title.now ≤ 16 }
    ensures title { IfOk result (λ v. IsRetitled image.now title.now v.items) }
    ensures sound { OnOk result (IsSoundImage (kind_of image.now) image.now) }
    ensures made { OfHeld image.now (λ d. IfOk result (λ v. ImageHolds (kind_of image.now) v.items (entitled title.now d))) }
    ensures opens { IfOk result (λ v. ChangesSectors image.now v.items) }
    ensures fault { IfErr result (IsUneditedIn image.now ⊥) }
{
    let volume = open_disk(alloc, image)?;
    require_sound(&volume)?;
    let disk = retitled(volume, title)?;
    saved(alloc, &disk, kind_of(image))
}
