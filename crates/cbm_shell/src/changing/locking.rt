//! Locking files against SCRATCH, and another title: two changes that no command of the drive makes.
ghost use Rattle.std.specs.Prelude.{◌≡◌, ◌<◌, ◌≤◌, None, true, map, IfOk, IfErr, IsOk, OnOk};
ghost use Rattle.cbm_bam.specs.Map.{geometry_of};
ghost use Rattle.cbm_image.specs.Images.{kind_of, ChangesSectors};
ghost use Rattle.cbm_shell.specs.Images.{IsSoundImage};
ghost use Rattle.cbm_shell.specs.Editing.{CanBeEdited, IsSameMedium, IsUneditedIn};
ghost use Rattle.cbm_shell.specs.Locking.{is_other, is_unlike, lock_bit, locked_type, locked_entry, LocksEach, LocksAll, LocksAllIn, LocksOrEnds};

use crate::changing::require_sound;
use crate::fault::ShellFault;
use crate::images::saved;
use crate::looking::open_disk;
use cbm_command::matches;
use cbm_directory::{put_slot, slot};
use cbm_image::kind_of;
use cbm_medium::{Geometry, Steady};
use cbm_volume::{Entry, Volume};
use std::alloc::Global;

mod mark;
mod title;

pub use mark::remark;
pub use title::{retitle, write_head};

/// Whether two answers aren't the same.
fn is_other(first: bool, second: bool) -> bool
    ensures { result ≡ is_other first second }
{
    match (first, second) {
        (true, true) | (false, false) => false,
        (true, false) | (false, true) => true,
    }
}

/// Whether an entry is that of a file whose name matches, and that isn't locked as it shall be.
fn is_unlike(entry: &Entry, pattern: &[u8], is_locked: bool) -> bool
    ensures { result ≡ is_unlike pattern.now is_locked entry.now }
{
    !entry.is_empty() && matches(pattern, entry.name()) && is_other(entry.is_locked(), is_locked)
}

/// The bit of a type byte that says that a file is locked.
fn lock_bit(is_locked: bool) -> u8
    ensures { result ≡ lock_bit is_locked }
{
    if is_locked { 64 } else { 0 }
}

/// A type byte with that bit so.
fn locked_type(byte: u8, is_locked: bool) -> u8
    ensures { result ≡ locked_type is_locked byte }
{
    byte % 64 + 128 * (byte / 128) + lock_bit(is_locked)
}

/// The entry of these thirty bytes.
pub fn entry_of(bytes: &[u8; 30]) -> Entry
    ensures { result ≡ bytes.now }
{
    let mut sector = [0; 256];
    sector[2..32].copy_from_slice(bytes);
    Entry::of(&sector, 0)
}

/// An entry with that bit so.
pub(crate) fn locked_entry(entry: &Entry, is_locked: bool) -> Entry
    ensures { result ≡ locked_entry is_locked entry.now }
{
    let mut bytes = *entry.bytes();
    bytes[0] = locked_type(bytes[0], is_locked);
    entry_of(&bytes)
}

/// Locks or frees the file in a slot, if its name matches; false where the directory ends before the slot. Errors: `Trouble`,
/// but never on a sound disk that can be written.
fn lock_slot<M: Steady>(
    medium: &mut M,
    geometry: Geometry,
    number: u8,
    pattern: &[u8],
    is_locked: bool,
) -> Result<bool, ShellFault>
    requires { geometry ≤ (M.seen medium.old).tracks }
    ensures locks { IfOk result (LocksOrEnds is_locked geometry pattern.now number
        (M.seen medium.old).content (M.seen medium.new).content) }
    ensures few { IfOk result (λ b. b ≡ true → number < 144) }
    ensures same { IsSameMedium (M.seen medium.old) (M.seen medium.new) }
    ensures never { CanBeEdited geometry (M.seen medium.old) → IsOk result }
{
    let Some(entry) = slot(medium, geometry, number)? else {
        return Ok(false);
    };
    if is_unlike(&entry, pattern, is_locked) {
        put_slot(medium, geometry, number, &locked_entry(&entry, is_locked))?;
    }
    Ok(true)
}

/// Locks or frees each file whose name matches. Errors: `Trouble`, but never on a sound disk that can be written.
fn lock_matching<M: Steady>(
    medium: &mut M,
    geometry: Geometry,
    pattern: &[u8],
    is_locked: bool,
) -> Result<(), ShellFault>
    requires { geometry ≤ (M.seen medium.old).tracks }
    ensures locks { OnOk result
        (LocksEach is_locked geometry pattern.now (M.seen medium.old).content (M.seen medium.new).content) }
    ensures same { IsSameMedium (M.seen medium.old) (M.seen medium.new) }
    ensures never { CanBeEdited geometry (M.seen medium.old) → IsOk result }
{
    let mut number = 0;
    'slots: while lock_slot(medium, geometry, number, pattern, is_locked)? {
        number += 1;
    }
    Ok(())
}

/// Locks or frees the files that patterns mean, pattern after pattern. Errors: `Trouble`, but never on a sound disk that can be
/// written.
fn lock_all<M: Steady>(
    medium: &mut M,
    geometry: Geometry,
    patterns: &[&[u8]],
    is_locked: bool,
) -> Result<(), ShellFault>
    requires { geometry ≤ (M.seen medium.old).tracks }
    ensures locks { OnOk result (LocksAll (map (λ r. r.now) patterns.now) is_locked geometry
        (M.seen medium.old).content (M.seen medium.new).content) }
    ensures same { IsSameMedium (M.seen medium.old) (M.seen medium.new) }
    ensures never { CanBeEdited geometry (M.seen medium.old) → IsOk result }
{
    for pattern in patterns {
        lock_matching(medium, geometry, *pattern, is_locked)?;
    }
    Ok(())
}

/// The disk on which the files are locked or freed that patterns mean.
fn all_locked<M: Steady + Drop>(
    volume: Volume<M>,
    patterns: &[&[u8]],
    is_locked: bool,
) -> Result<M, ShellFault>
    ensures locks { let old = M.seen volume in IfOk result (λ after.
        LocksAll (map (λ r. r.now) patterns.now) is_locked (geometry_of old.tracks old.content) old.content (M.seen after).content) }
    ensures tracks { IfOk result (λ after. (M.seen after).tracks ≡ (M.seen volume).tracks) }
    ensures outside { IfOk result (λ after. (M.seen after).outside ≡ (M.seen volume).outside) }
    ensures never { let old = M.seen volume in CanBeEdited (geometry_of old.tracks old.content) old → IsOk result }
{
    let geometry = volume.geometry();
    let mut medium = volume.into_medium();
    lock_all(&mut medium, geometry, patterns, is_locked)?;
    Ok(medium)
}

/// Locks the files of an image against SCRATCH that one of the patterns means, or frees them. The image is opened and made anew
/// once. Errors: `Image`; `Unsound`, with what is wrong first; `Memory`.
pub fn lock(
    alloc: Global,
    image: &[u8],
    patterns: &[&[u8]],
    is_locked: bool,
) -> Result<Vec<u8>, ShellFault>
    // Of each file that matches one bit of its entry is so, and nothing else of the image is changed.
    ensures locks { IfOk result (λ v. LocksAllIn image.now (map (λ r. r.now) patterns.now) is_locked v.items) }
    ensures sound { OnOk result (IsSoundImage (kind_of image.now) image.now) }
    ensures stays { IfOk result (λ v. IsSoundImage (kind_of image.now) v.items) }
    ensures opens { IfOk result (λ v. ChangesSectors image.now v.items) }
    ensures fault { IfErr result (IsUneditedIn image.now ⊥) }
{
    let volume = open_disk(alloc, image)?;
    require_sound(&volume)?;
    let disk = all_locked(volume, patterns, is_locked)?;
    saved(alloc, &disk, kind_of(image))
}
