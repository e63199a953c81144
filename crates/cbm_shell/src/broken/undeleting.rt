//! Giving back a file that was deleted.
ghost use Rattle.std.specs.Prelude.{◌≡◌, ◌≤◌, None, IfOk, IfErr, IfSome, OnOk, MatchBool, MatchOption};
ghost use Rattle.cbm_bam.specs.Marks.{is_marked};
ghost use Rattle.cbm_bam.specs.Map.{geometry_of};
ghost use Rattle.cbm_directory.specs.Entries.{EntersLed};
ghost use Rattle.cbm_image.specs.AnyDisks.{any_seen};
ghost use Rattle.cbm_image.specs.Images.{kind_of, ChangesSectors};
ghost use Rattle.cbm_shell.specs.Mapping.{chain_of, is_among};
ghost use Rattle.cbm_shell.specs.Undeleting.{restored_entry, all_blocks_free, held_with, HasNoDeleted, IsDeleted, IsMapAnew, IsClear, IsInTheWay, IsNotGiven, IsGivenAgain, IsUndeleted, IsNotGivenIn, IsUndeletedIn, IsNotUndeleted};
ghost use Rattle.cbm_shell.specs.Remaking.{IsTroubled, IsHalted, IsNotSaved};
ghost use Rattle.cbm_shell.specs.Images.{IsSaved, IsSoundDisk, IsSoundImage};

use crate::broken::flaws::lost_of;
use crate::changing::locking::{entry_of, write_head};
use crate::changing::require_sound;
use crate::fault::ShellFault;
use crate::images::saved;
use crate::looking::{
    entries_or_none, is_free_at, open_disk, use_all_geos, use_border, use_chain, used_sectors,
};
use cbm_bam::{SectorSet, anew, read_map};
use cbm_directory::put_slot;
use cbm_image::{AnyDisk, Kind, kind_of};
use cbm_medium::{Geometry, Link, Medium, Steady};
use cbm_volume::{Entry, FileType, Volume};
use std::alloc::Global;

/// An entry with a type, closed.
fn restored_entry(entry: &Entry, kind: FileType) -> Entry
    ensures { result ≡ restored_entry kind entry.now }
{
    let mut bytes = *entry.bytes();
    bytes[0] = 128 + kind.number();
    entry_of(&bytes)
}

/// The entry in a slot, if it is that of a deleted file; None where it is another, or the directory ends before. Errors:
/// `Trouble`, where the directory breaks off before.
fn deleted_entry<M: Medium>(volume: &Volume<M>, slot: u8) -> Result<Option<Entry>, ShellFault>
    ensures found { let now = M.seen volume.now in let tracks = geometry_of now.tracks now.content in
        IfOk result (λ o. MatchOption o (HasNoDeleted tracks now.content slot) (λ e. IsDeleted tracks now.content slot e)) }
    ensures fault { IfErr result IsTroubled }
{
    let Some(entry) = volume.slot(slot)? else {
        return Ok(None);
    };
    if entry.is_empty() {
        Ok(Some(entry))
    } else {
        Ok(None)
    }
}

/// Whether the BAM has each block of a chain as free, up to its end or to what cuts it off.
fn is_free_chain<M: Medium>(medium: &M, geometry: Geometry, from: Link) -> bool
    requires { geometry ≤ (M.seen medium.now).tracks }
    ensures { let content = (M.seen medium.now).content in result ≡ all_blocks_free content (chain_of geometry content from) }
{
    let mut link = from;
    let count = geometry.sectors();
    for done in 0..count {
        let Some(at) = link.address(geometry) else {
            return true;
        };
        let Ok(bytes) = medium.read(at) else {
            return true;
        };
        if !is_free_at(medium, geometry, at) {
            return false;
        }
        link = Link::of(&bytes);
    }
    true
}

/// The sectors that are taken on a disk with one chain more.
fn held_sectors<M: Medium>(
    medium: &M,
    geometry: Geometry,
    entries: &[Entry],
    from: Link,
) -> SectorSet
    requires { geometry ≤ (M.seen medium.now).tracks }
    ensures { is_marked result ≡ is_among (held_with geometry (M.seen medium.now).content entries.now from) }
{
    let mut held = used_sectors(medium, geometry, entries);
    use_border(medium, geometry, &mut held);
    use_all_geos(medium, geometry, entries, &mut held);
    use_chain(medium, geometry, from, &mut held);
    held
}

/// The disk with an entry's type set in its slot, closed. Errors: `Trouble`, where the medium refuses to be written.
fn restored<M: Medium + Drop>(
    volume: Volume<M>,
    slot: u8,
    entry: &Entry,
    kind: FileType,
) -> Result<M, ShellFault>
    ensures tracks { IfOk result (λ after. (M.seen after).tracks ≡ (M.seen volume).tracks) }
    ensures outside { IfOk result (λ after. (M.seen after).outside ≡ (M.seen volume).outside) }
    ensures entered { let old = M.seen volume in IfOk result (λ after. EntersLed (geometry_of old.tracks old.content)
        old.content (M.seen after).content slot (restored_entry kind entry.now)) }
    ensures fault { IfErr result IsTroubled }
{
    let geometry = volume.geometry();
    let mut medium = volume.into_medium();
    put_slot(&mut medium, geometry, slot, &restored_entry(entry, kind))?;
    Ok(medium)
}

/// The disk with its BAM written anew, in which each block is free but these. Errors: `Trouble`, where 18/0 can't be read or
/// written.
pub fn remapped<M: Steady + Drop>(
    medium: M,
    geometry: Geometry,
    held: &SectorSet,
) -> Result<M, ShellFault>
    requires { geometry ≤ (M.seen medium).tracks }
    ensures tracks { IfOk result (λ after. (M.seen after).tracks ≡ (M.seen medium).tracks) }
    ensures outside { IfOk result (λ after. (M.seen after).outside ≡ (M.seen medium).outside) }
    ensures mapped { IfOk result (λ after.
        IsMapAnew geometry (M.seen medium).content (M.seen after).content (is_marked held.now)) }
    ensures fault { IfErr result IsTroubled }
{
    let mut medium = medium;
    let map = read_map(&medium, geometry)?;
    write_head(&mut medium, &anew(&map, geometry, held))?;
    Ok(medium)
}

/// The disk with a deleted file given back.
fn given_again<M: Steady + Drop>(
    alloc: Global,
    volume: Volume<M>,
    slot: u8,
    entry: &Entry,
    kind: FileType,
) -> Result<M, ShellFault>
    ensures tracks { IfOk result (λ after. (M.seen after).tracks ≡ (M.seen volume).tracks) }
    ensures outside { IfOk result (λ after. (M.seen after).outside ≡ (M.seen volume).outside) }
    ensures given { let old = M.seen volume in IfOk result (λ after.
        IsGivenAgain (geometry_of old.tracks old.content) old.content (M.seen after).content slot kind entry.now) }
    ensures fault { IfErr result IsHalted }
{
    let geometry = volume.geometry();
    let entries = entries_or_none(alloc, &volume)?;
    let held = held_sectors(
        volume.medium(),
        geometry,
        entries.as_slice(),
        entry.first_block(),
    );
    let disk = restored(volume, slot, entry, kind)?;
    remapped(disk, geometry, &held)
}

/// Whether nothing stands against giving back the file of an entry: each of its blocks is free, and none of the disk is lost.
fn is_clear<M: Medium>(alloc: Global, volume: &Volume<M>, entry: &Entry) -> Result<bool, ShellFault>
    ensures clear { let now = M.seen volume.now in let tracks = geometry_of now.tracks now.content in
        IfOk result (λ b. MatchBool b (IsClear tracks now.content entry.now) (IsInTheWay tracks now.content entry.now)) }
    ensures fault { IfErr result IsHalted }
{
    let geometry = volume.geometry();
    if !is_free_chain(volume.medium(), geometry, entry.first_block()) {
        return Ok(false);
    }
    let lost = lost_of(alloc, volume)?;
    Ok(lost.is_empty())
}

/// The disk with the deleted file in a slot given back; None where there is none, a block of it isn't free any more, or blocks
/// are lost.
fn undeleted<M: Steady + Drop>(
    alloc: Global,
    volume: Volume<M>,
    slot: u8,
    kind: FileType,
) -> Result<Option<M>, ShellFault>
    ensures given { let old = M.seen volume in let tracks = geometry_of old.tracks old.content in
        IfOk result (λ o. MatchOption o (IsNotGiven tracks old.content slot) (λ after.
        ((M.seen after).tracks ≡ old.tracks) × IsUndeleted tracks old.content (M.seen after).content slot kind)) }
    ensures outside { IfOk result (λ o. MatchOption o (Unit {0}) (λ after. (M.seen after).outside ≡ (M.seen volume).outside)) }
    ensures fault { IfErr result IsHalted }
{
    let Some(entry) = deleted_entry(&volume, slot)? else {
        return Ok(None);
    };
    if !is_clear(alloc, &volume, &entry)? {
        return Ok(None);
    }
    let disk = given_again(alloc, volume, slot, &entry, kind)?;
    Ok(Some(disk))
}

/// The image of a disk in the format that it was opened from, if that is sound.
pub fn sound_image(alloc: Global, disk: AnyDisk, kind: Kind) -> Result<Vec<u8>, ShellFault>
    ensures saved { IfOk result (λ v. IsSaved kind v.items (any_seen disk)) }
    ensures sound { let now = any_seen disk in OnOk result (IsSoundDisk now.tracks now.content) }
    ensures image { IfOk result (λ v. IsSoundImage kind v.items) }
    ensures fault { IfErr result (IsNotSaved (any_seen disk)) }
{
    let volume = Volume::open(disk);
    require_sound(&volume)?;
    let disk = volume.into_medium();
    saved(alloc, &disk, kind)
}

/// Gives back the deleted file in a slot of an image, with a type: its entry is closed, and its blocks are taken. None where the
/// slot has no deleted file, a block of it isn't free any more, or the disk has blocks that are lost. Errors: `Image`; `Unsound`,
/// where the disk isn't sound, or wouldn't be; `Trouble`, where the directory breaks off before the slot, or the medium can't be
/// written; `Memory`.
pub fn undelete(
    alloc: Global,
    image: &[u8],
    slot: u8,
    kind: FileType,
) -> Result<Option<Vec<u8>>, ShellFault>
    // The entry has its type, the BAM has its blocks as taken, and nothing else of the image is changed; None has its reason.
    ensures given { IfOk result (λ o. MatchOption o (IsNotGivenIn image.now slot)
        (λ v. IsUndeletedIn image.now v.items slot kind)) }
    ensures sound { IfOk result (λ o. IfSome o (λ v. IsSoundImage (kind_of image.now) v.items)) }
    ensures opens { IfOk result (λ o. IfSome o (λ v. ChangesSectors image.now v.items)) }
    ensures fault { IfErr result (IsNotUndeleted image.now slot kind) }
{
    let volume = open_disk(alloc, image)?;
    require_sound(&volume)?;
    let Some(disk) = undeleted(alloc, volume, slot, kind)? else {
        return Ok(None);
    };
    Ok(Some(sound_image(alloc, disk, kind_of(image))?))
}
