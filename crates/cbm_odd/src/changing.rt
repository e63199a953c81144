//! Changes of a disk with odd entries.
ghost use Rattle.std.specs.Prelude.{◌≡◌, ◌≤◌, ◌++◌, false, IfOk, IfErr};
ghost use Rattle.cbm_bam.specs.Marks.{is_marked};
ghost use Rattle.cbm_bam.specs.Map.{geometry_of};
ghost use Rattle.cbm_directory.specs.Slots.{directory_of};
ghost use Rattle.cbm_image.specs.Images.{kind_of, OpensAgain, KeepsOtherBytes, ChangesSectors};
ghost use Rattle.cbm_shell.specs.AroundGeos.{held_around};
ghost use Rattle.cbm_shell.specs.Changing.{change_formats};
ghost use Rattle.cbm_shell.specs.Images.{IsSoundImage};
ghost use Rattle.cbm_shell.specs.Mapping.{is_among, entries_shown};
ghost use Rattle.cbm_shell.specs.Undeleting.{IsMapAnew};
ghost use Rattle.cbm_odd.specs.Held.{reached_by};
ghost use Rattle.cbm_odd.specs.Changes.{IsChangedAround, IsNotChangedAround, IsMappedAroundOdd};

use crate::away::put_away;
use crate::back::put_back;
use crate::held::reach_each;
use crate::odd::Odd;
use cbm_bam::SectorSet;
use cbm_image::kind_of;
use cbm_medium::{Geometry, Medium, Steady};
use cbm_shell::parts::{entries_or_none, held_around, remapped, sound_image};
use cbm_shell::{DiskChange, ShellFault, open_disk};
use cbm_volume::{Entry, Volume};
use std::alloc::Global;

/// Makes a change on the disk of an image, around its odd entries. Errors: those of `put_away`; `Refused`, with the drive's status;
/// those of `put_back`.
#[inline(never)]
pub fn change(alloc: Global, image: &[u8], change: &DiskChange<'_>) -> Result<Vec<u8>, ShellFault>
    // The machine makes the change on what is left without the odd entries. Each of them stays, and so does each sector that it leads to.
    ensures made { IfOk result (λ v. IsChangedAround image.now change.now v.items) }
    ensures opens { IfOk result (λ v. OpensAgain image.now v.items) }
    ensures bytes { change_formats change.now ≡ false → IfOk result (λ v. KeepsOtherBytes image.now v.items) }
    ensures fault { IfErr result (IsNotChangedAround image.now change.now) }
{
    let away = put_away(alloc, image)?;
    let changed = cbm_shell::change(alloc, away.image.as_slice(), change)?;
    put_back(alloc, image, away.odds.as_slice(), changed.as_slice())
}

/// The sectors of the directory, of the closed files and of GEOS, and those that odd entries lead to.
fn held_around_odd<M: Medium>(
    medium: &M,
    geometry: Geometry,
    entries: &[Entry],
    odds: &[Odd],
) -> SectorSet
    requires { geometry ≤ (M.seen medium.now).tracks }
    ensures { let content = (M.seen medium.now).content in
        is_marked result ≡ is_among (held_around geometry content entries.now ++ reached_by geometry content odds.now) }
{
    let mut held = held_around(medium, geometry, entries);
    reach_each(medium, geometry, odds, &mut held);
    held
}

/// The disk with its BAM written anew around what is held. Errors: `Trouble`; `Memory`.
fn mapped_around<M: Steady + Drop>(
    alloc: Global,
    volume: Volume<M>,
    odds: &[Odd],
) -> Result<M, ShellFault>
    ensures tracks { IfOk result (λ after. (M.seen after).tracks ≡ (M.seen volume).tracks) }
    ensures outside { IfOk result (λ after. (M.seen after).outside ≡ (M.seen volume).outside) }
    ensures mapped { let old = M.seen volume in let tracks = geometry_of old.tracks old.content in IfOk result (λ after.
        IsMapAnew tracks old.content (M.seen after).content (is_among
        (held_around tracks old.content (entries_shown (directory_of tracks old.content)) ++ reached_by tracks old.content odds.now))) }
{
    let geometry = volume.geometry();
    let entries = entries_or_none(alloc, &volume)?;
    let held = held_around_odd(volume.medium(), geometry, entries.as_slice(), odds);
    remapped(volume.into_medium(), geometry, &held)
}

/// The image, whose odd entries are put away, with its BAM written anew: each block is free but those of the directory, of the closed
/// files and of GEOS, and those that the odd entries lead to. Errors: `Image`; `Unsound`, if the disk wouldn't be sound; `Trouble`,
/// if 18/0 can't be read; `Memory`.
pub fn map_around(alloc: Global, image: &[u8], odds: &[Odd]) -> Result<Vec<u8>, ShellFault>
    ensures mapped { IfOk result (λ v. IsMappedAroundOdd image.now odds.now v.items) }
    ensures sound { IfOk result (λ v. IsSoundImage (kind_of image.now) v.items) }
    ensures opens { IfOk result (λ v. ChangesSectors image.now v.items) }
{
    let volume = open_disk(alloc, image)?;
    let disk = mapped_around(alloc, volume, odds)?;
    sound_image(alloc, disk, kind_of(image))
}
