//! Another id.
ghost use Rattle.std.specs.Prelude.{◌≡◌, ◌≤◌, None, IfOk, IfErr, OnOk};
ghost use Rattle.cbm_medium.specs.Place.{directory_head};
ghost use Rattle.cbm_medium.specs.Content.{written};
ghost use Rattle.cbm_image.specs.Images.{kind_of, ChangesSectors};
ghost use Rattle.cbm_shell.specs.Images.{IsSoundImage};
ghost use Rattle.cbm_shell.specs.Locking.{head_with_mark, marked_as, IsRemarked, IsNotRemarked};
ghost use Rattle.cbm_shell.specs.Remaking.{IsTroubled};

use crate::broken::sound_image;
use crate::changing::locking::write_head;
use crate::changing::require_sound;
use crate::fault::ShellFault;
use crate::looking::open_disk;
use cbm_image::kind_of;
use cbm_medium::Steady;
use cbm_volume::Volume;
use std::alloc::Global;
use std::ops::Range;

/// Where the five bytes stand in 18/0 that a directory shows after the title.
const MARK: Range<usize> = 162..167;

/// Writes these five bytes into the bytes of 18/0.
fn put_mark(head: &mut [u8; 256], mark: &[u8; 5])
    ensures { head.new ≡ head_with_mark mark.now head.old }
{
    head[MARK].copy_from_slice(mark);
}

/// A disk with these five bytes. Errors: `Trouble`, where 18/0 can't be read or written.
fn remarked<M: Steady + Drop>(volume: Volume<M>, mark: &[u8; 5]) -> Result<M, ShellFault>
    ensures content { IfOk result (λ after. (M.seen after).content ≡ marked_as mark.now (M.seen volume).content) }
    ensures tracks { IfOk result (λ after. (M.seen after).tracks ≡ (M.seen volume).tracks) }
    ensures outside { IfOk result (λ after. (M.seen after).outside ≡ (M.seen volume).outside) }
    ensures fault { IfErr result IsTroubled }
{
    let geometry = volume.geometry();
    let mut medium = volume.into_medium();
    let mut head = cbm_bam::read_map(&medium, geometry)?;
    put_mark(&mut head, mark);
    write_head(&mut medium, &head)?;
    Ok(medium)
}

/// Gives the disk of an image other five bytes after its title: the id, a byte, and the two of the DOS. The headers of its
/// sectors keep their id. Errors: `Image`; `Unsound`, with what is wrong first; `Memory`.
pub fn remark(alloc: Global, image: &[u8], mark: &[u8; 5]) -> Result<Vec<u8>, ShellFault>
    // Nothing else of the image is changed.
    ensures mark { IfOk result (λ v. IsRemarked image.now mark.now v.items) }
    ensures was_sound { OnOk result (IsSoundImage (kind_of image.now) image.now) }
    ensures sound { IfOk result (λ v. IsSoundImage (kind_of image.now) v.items) }
    ensures opens { IfOk result (λ v. ChangesSectors image.now v.items) }
    ensures fault { IfErr result (IsNotRemarked image.now mark.now) }
{
    let volume = open_disk(alloc, image)?;
    require_sound(&volume)?;
    let disk = remarked(volume, mark)?;
    sound_image(alloc, disk, kind_of(image))
}
