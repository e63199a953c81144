//! The sound disk of an image, which is changed and saved.
ghost use Rattle.std.specs.Prelude.{◌≡◌, ◌≤◌, false, IfOk, IfErr, MatchResult};
ghost use Rattle.cbm_file.specs.Files.{Disk};
ghost use Rattle.cbm_machine.specs.Codes.{code_number};
ghost use Rattle.cbm_volume.specs.Holding.{HoldsDisk};
ghost use Rattle.cbm_image.specs.Images.{kind_of, ImageHolds};
ghost use Rattle.cbm_shell.specs.Changing.{IsFine};
ghost use Rattle.cbm_device.specs.ImageDisks.{counted_seen, IsDiskOf, IsOpenRefusal};
ghost use Rattle.cbm_device.specs.Looking.{IsAccepted, IsSound};
ghost use Rattle.cbm_device.specs.Making.{IsUnchanged};

use cbm_channel::Status;
use cbm_device::{DeviceRefusal, ImageDisk};
use cbm_image::Kind;
use cbm_shell::parts::require_sound;
use cbm_volume::Volume;
use std::alloc::Global;

/// The first code of a status that reports an error.
const ERRORS: u8 = 20;

/// The disk of an image, if it is sound. Errors: `NoImage`, `Memory`, `Unsound`.
pub(crate) fn sound_disk(alloc: Global, image: &[u8]) -> Result<ImageDisk, DeviceRefusal>
    ensures disk { IfOk result (IsDiskOf image.now false) }
    ensures exact { (d : Disk) → ImageHolds (kind_of image.now) image.now d → IfErr result (IsOpenRefusal image.now) }
    // Of any disk:
    ensures sound { MatchResult result (λ _. IsAccepted image.now × IsSound image.now) (IsUnchanged image.now) }
{
    let volume = Volume::open(ImageDisk::open(alloc, image, false)?);
    match require_sound(&volume) {
        Ok(()) => Ok(volume.into_medium()),
        Err(fault) => Err(DeviceRefusal::from(fault)),
    }
}

/// The status if it reports no error, else the refusal with its number.
pub(crate) fn told(status: Status) -> Result<(), DeviceRefusal>
    ensures { MatchResult result (λ _. IsFine status)
        (λ r. (r ≡ DeviceRefusal.Status (code_number status.code)) × (20 ≤ code_number status.code)) }
{
    let number = status.code.number();
    if number < ERRORS {
        Ok(())
    } else {
        Err(DeviceRefusal::Status(number))
    }
}

/// The image of a disk, in this format. The one error is `Memory`.
pub(crate) fn image_of(
    alloc: Global,
    disk: &ImageDisk,
    kind: Kind,
) -> Result<Vec<u8>, DeviceRefusal>
    ensures ok { let now = counted_seen disk.now in
        (d : Disk) → HoldsDisk now.tracks now.content d → IfOk result (λ v. ImageHolds kind v.items d) }
    ensures err { IfErr result (λ r. r ≡ DeviceRefusal.Memory) }
{
    disk.save(alloc, kind)
}
