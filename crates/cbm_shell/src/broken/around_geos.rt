//! Putting a disk in order around what GEOS keeps on it.
ghost use Rattle.std.specs.Prelude.{◌≡◌, ◌≤◌, None, IfOk, IfErr};
ghost use Rattle.cbm_bam.specs.Marks.{is_marked};
ghost use Rattle.cbm_bam.specs.Map.{geometry_of};
ghost use Rattle.cbm_image.specs.Images.{kind_of, ChangesSectors};
ghost use Rattle.cbm_shell.specs.Mapping.{is_among};
ghost use Rattle.cbm_shell.specs.AroundGeos.{held_around, IsMappedAround, IsMappedAroundIn, IsNotMappedAround};
ghost use Rattle.cbm_shell.specs.Remaking.{IsHalted};
ghost use Rattle.cbm_shell.specs.Images.{IsSoundImage};

use super::undeleting::{remapped, sound_image};
use crate::fault::ShellFault;
use crate::looking::{entries_or_none, open_disk, use_all_geos, use_border, used_sectors};
use cbm_bam::SectorSet;
use cbm_image::kind_of;
use cbm_medium::{Geometry, Medium, Steady};
use cbm_volume::{Entry, Volume};
use std::alloc::Global;

/// The sectors of the directory, of the closed files, and of GEOS.
pub fn held_around<M: Medium>(medium: &M, geometry: Geometry, entries: &[Entry]) -> SectorSet
    requires { geometry ≤ (M.seen medium.now).tracks }
    ensures { is_marked result ≡ is_among (held_around geometry (M.seen medium.now).content entries.now) }
{
    let mut held = used_sectors(medium, geometry, entries);
    use_border(medium, geometry, &mut held);
    use_all_geos(medium, geometry, entries, &mut held);
    held
}

/// The disk with its BAM written anew around GEOS. Errors: `Trouble`, where 18/0 can't be read or written; `Memory`.
fn mapped_around<M: Steady + Drop>(alloc: Global, volume: Volume<M>) -> Result<M, ShellFault>
    ensures tracks { IfOk result (λ after. (M.seen after).tracks ≡ (M.seen volume).tracks) }
    ensures outside { IfOk result (λ after. (M.seen after).outside ≡ (M.seen volume).outside) }
    ensures mapped { let now = M.seen volume in IfOk result (λ after.
        IsMappedAround (geometry_of now.tracks now.content) now.content (M.seen after).content) }
    ensures fault { IfErr result IsHalted }
{
    let geometry = volume.geometry();
    let entries = entries_or_none(alloc, &volume)?;
    let held = held_around(volume.medium(), geometry, entries.as_slice());
    remapped(volume.into_medium(), geometry, &held)
}

/// The image with its BAM written anew, in which each block is free but those of the directory, of the closed files and of GEOS:
/// its border block, the info blocks and the records of its files. Errors: `Image`; `Unsound`, where the disk wouldn't be sound;
/// `Trouble`, where 18/0 can't be read; `Memory`.
pub fn map_around_geos(alloc: Global, image: &[u8]) -> Result<Vec<u8>, ShellFault>
    ensures mapped { IfOk result (λ v. IsMappedAroundIn image.now v.items) }
    ensures sound { IfOk result (λ v. IsSoundImage (kind_of image.now) v.items) }
    ensures opens { IfOk result (λ v. ChangesSectors image.now v.items) }
    ensures fault { IfErr result (IsNotMappedAround image.now) }
{
    let volume = open_disk(alloc, image)?;
    let disk = mapped_around(alloc, volume)?;
    sound_image(alloc, disk, kind_of(image))
}
