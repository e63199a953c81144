//! Changes of an image's disk, as the drive makes them.
ghost use Rattle.std.specs.Prelude.{◌≡◌, false, MatchResult};
ghost use Rattle.cbm_file.specs.Files.{Disk};
ghost use Rattle.cbm_machine.specs.Machines.{start};
ghost use Rattle.cbm_image.specs.Images.{kind_of, tracks_of, ImageHolds};
ghost use Rattle.cbm_shell.specs.Changing.{begun, disk_after_change, IsFine};
ghost use Rattle.cbm_device.specs.Looking.{IsAccepted, IsSound};
ghost use Rattle.cbm_device.specs.Making.{IsUnmade, IsUnchanged};

use crate::image_disk::ImageDisk;
use crate::refusal::DeviceRefusal;
use cbm_channel::Channels;
use cbm_image::kind_of;
use cbm_shell::{DiskChange, changed};
use std::alloc::Global;

/// Makes a change on the disk of an image, and gives the image as it is then, in the same format. Errors: `NoImage`, `Memory`,
/// `Unsound`, the drive's status.
pub fn change(
    alloc: Global,
    image: &[u8],
    change: &DiskChange<'_>,
) -> Result<Vec<u8>, DeviceRefusal>
    ensures made { let kind = kind_of image.now in (d : Disk) → ImageHolds kind image.now d →
        let m = start d false (tracks_of kind image.now) in let after = disk_after_change change.now m in
        MatchResult result (λ v. IsFine after.status × ImageHolds kind v.items after.disk)
        (IsUnmade image.now (begun change.now m) after) }
    // Of any disk: one that isn't sound isn't changed.
    ensures sound { MatchResult result (λ _. IsAccepted image.now × IsSound image.now) (IsUnchanged image.now) }
{
    let disk = ImageDisk::open(alloc, image, false)?;
    let channels = Channels::new(alloc)?;
    match changed(disk, channels, change) {
        Ok(disk) => disk.save(alloc, kind_of(image)),
        Err(fault) => Err(DeviceRefusal::from(fault)),
    }
}
