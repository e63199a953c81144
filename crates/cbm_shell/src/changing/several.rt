//! Several changes of one disk, one after another.
ghost use Rattle.std.specs.Prelude.{◌≡◌, ◌<◌, ◌⊎◌, None, false, length, IfOk, OnOk, MatchResult};
ghost use Rattle.cbm_file.specs.Files.{Disk};
ghost use Rattle.cbm_volume.specs.Holding.{HoldsDisk};
ghost use Rattle.cbm_channel.specs.Going.{IsOutsideKept};
ghost use Rattle.cbm_image.specs.Images.{kind_of, tracks_of, ImageHolds, OpensAgain, KeepsOtherBytes};
ghost use Rattle.cbm_shell.specs.Images.{OrOpenFault, IsSoundDisk, IsSoundImage};
ghost use Rattle.cbm_shell.specs.Several.{any_formats, HoldsAfter, ImageAfter, AreUndone};

use crate::changing::{DiskChange, changed};
use crate::fault::ShellFault;
use crate::images::{opened, saved};
use cbm_channel::Channels;
use cbm_image::kind_of;
use cbm_medium::Steady;
use std::alloc::Global;

/// Makes changes on a disk, one after another. Errors: as of the first change that isn't made; `Memory`.
fn changed_by<M: Steady + Drop>(
    alloc: Global,
    medium: M,
    changes: &[DiskChange<'_>],
) -> Result<M, ShellFault>
    ensures made { let old = M.seen medium in (d : Disk) → HoldsDisk old.tracks old.content d → MatchResult result
        (λ after. HoldsAfter changes.now old.protected old.tracks d (M.seen after))
        (λ fault. (fault ≡ ShellFault.Memory) ⊎ AreUndone changes.now old.protected old.tracks d fault) }
    ensures sound { 0 < length changes.now → OnOk result (IsSoundDisk (M.seen medium).tracks (M.seen medium).content) }
    ensures outside { IfOk result (λ after. IsOutsideKept (any_formats changes.now) (M.seen medium).outside (M.seen after).outside) }
{
    let mut disk = medium;
    for change in changes {
        let channels = Channels::new(alloc)?;
        disk = changed(disk, channels, change)?;
    }
    Ok(disk)
}

/// Makes changes on the disk of an image, one after another, and gives the image as it is then: all of them are made, or none.
/// The image is opened and made anew once. Errors: those of `change`, of the first change that isn't made.
pub fn changes(
    alloc: Global,
    image: &[u8],
    changes: &[DiskChange<'_>],
) -> Result<Vec<u8>, ShellFault>
    ensures made { let kind = kind_of image.now in (d : Disk) → ImageHolds kind image.now d → MatchResult result
        (λ v. ImageAfter changes.now kind (tracks_of kind image.now) d v.items)
        (OrOpenFault image.now (AreUndone changes.now false (tracks_of kind image.now) d)) }
    // A disk that isn't sound is never changed.
    ensures sound { 0 < length changes.now → OnOk result (IsSoundImage (kind_of image.now) image.now) }
    // The new image opens again.
    ensures opens { IfOk result (λ v. OpensAgain image.now v.items) }
    ensures bytes { any_formats changes.now ≡ false → IfOk result (λ v. KeepsOtherBytes image.now v.items) }
{
    let disk = opened(alloc, image)?;
    let disk = changed_by(alloc, disk, changes)?;
    saved(alloc, &disk, kind_of(image))
}
