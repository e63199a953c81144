//! The calls of cbm_shell and cbm_slots that make and change images. What they promise stands there, and isn't said again,
//! so that no caller's proof carries it. A disk that is sound but for its odd entries is changed around them (cbm_odd).
ghost use Rattle.std.specs.Prelude.{◌≤◌, length};

use crate::odd::{change_around, put_away, put_back, validate_around};
use cbm_medium::Address;
use cbm_shell::{DiskChange, Form, Looks, Order, Records, ShellFault, Swap};
use cbm_volume::{Entry, FileType};
use std::alloc::{AllocError, Global};

/// The image after a change. Errors: `Image`, `Unsound`, `Refused`, `Memory`.
pub fn change(alloc: Global, image: &[u8], change: &DiskChange<'_>) -> Result<Vec<u8>, ShellFault> {
    match cbm_shell::change(alloc, image, change) {
        Err(ShellFault::Unsound(_)) => change_around(alloc, image, change),
        made => made,
    }
}

/// The image after several changes. Errors: `Image`, `Unsound`, `Refused`, `Memory`.
pub fn changes(
    alloc: Global,
    image: &[u8],
    changes: &[DiskChange<'_>],
) -> Result<Vec<u8>, ShellFault> {
    match cbm_shell::changes(alloc, image, changes) {
        Err(ShellFault::Unsound(_)) => {
            let away = put_away(alloc, image)?;
            let changed = cbm_shell::changes(alloc, away.image.as_slice(), changes)?;
            put_back(alloc, image, &away, &changed)
        }
        made => made,
    }
}

/// The image with a relative file. Errors: `Image`, `Unsound`, `Refused`, `Memory`.
pub fn put_records(alloc: Global, image: &[u8], file: Records<'_>) -> Result<Vec<u8>, ShellFault> {
    match cbm_shell::put_records(alloc, image, file) {
        Err(ShellFault::Unsound(_)) => {
            let away = put_away(alloc, image)?;
            let changed = cbm_shell::put_records(alloc, away.image.as_slice(), file)?;
            put_back(alloc, image, &away, &changed)
        }
        made => made,
    }
}

/// The image with a line of art in its directory; None where that is full. Errors: `Image`, `Unsound`, `Trouble`, `Memory`.
pub fn add_art(alloc: Global, image: &[u8], looks: Looks<'_>) -> Result<Option<Vec<u8>>, ShellFault>
    requires { length looks.name.now ≤ 16 }
{
    match cbm_shell::add_art(alloc, image, looks) {
        Err(ShellFault::Unsound(_)) => {
            let away = put_away(alloc, image)?;
            match cbm_shell::add_art(alloc, away.image.as_slice(), looks)? {
                Some(changed) => Ok(Some(put_back(alloc, image, &away, &changed)?)),
                None => Ok(None),
            }
        }
        made => made,
    }
}

/// The image whose entry in a slot looks so. Errors: `Image`, `Unsound`, `Trouble`, `Memory`.
pub fn dress(alloc: Global, image: &[u8], slot: u8, looks: Looks<'_>) -> Result<Vec<u8>, ShellFault>
    requires { length looks.name.now ≤ 16 }
{
    match cbm_shell::dress(alloc, image, slot, looks) {
        Err(ShellFault::Unsound(_)) => {
            let away = put_away(alloc, image)?;
            let changed = cbm_shell::dress(alloc, away.image.as_slice(), slot, looks)?;
            put_back(alloc, image, &away, &changed)
        }
        made => made,
    }
}

/// The image without the entry of a slot, whose file is at fault; None where it isn't. Errors: `Image`, `Trouble`, `Memory`.
pub fn forget(alloc: Global, image: &[u8], slot: u8) -> Result<Option<Vec<u8>>, ShellFault> {
    cbm_shell::forget(alloc, image, slot)
}

/// The image with each file locked, or freed, that one of the patterns means. Errors: `Image`, `Unsound`, `Memory`.
pub fn lock(
    alloc: Global,
    image: &[u8],
    patterns: &[&[u8]],
    is_locked: bool,
) -> Result<Vec<u8>, ShellFault> {
    match cbm_shell::lock(alloc, image, patterns, is_locked) {
        Err(ShellFault::Unsound(_)) => {
            let away = put_away(alloc, image)?;
            let changed = cbm_shell::lock(alloc, away.image.as_slice(), patterns, is_locked)?;
            put_back(alloc, image, &away, &changed)
        }
        made => made,
    }
}

/// The image whose file in a slot has another name. Errors: `Image`, `Trouble`, `NotFound`, `Refused` where a file has it,
/// `Unsound`, `Memory`.
pub fn rename_in_slot(
    alloc: Global,
    image: &[u8],
    slot: u8,
    name: &[u8],
) -> Result<Vec<u8>, ShellFault>
    requires { length name.now ≤ 16 }
{
    match cbm_slots::rename(alloc, image, slot, name) {
        Err(ShellFault::Unsound(_)) => {
            let away = put_away(alloc, image)?;
            let changed = cbm_slots::rename(alloc, away.image.as_slice(), slot, name)?;
            put_back(alloc, image, &away, &changed)
        }
        made => made,
    }
}

/// The image with the file in a slot locked, or freed. Errors: `Image`, `Trouble`, `NotFound`, `Unsound`, `Memory`.
pub fn lock_in_slot(
    alloc: Global,
    image: &[u8],
    slot: u8,
    is_locked: bool,
) -> Result<Vec<u8>, ShellFault> {
    match cbm_slots::lock(alloc, image, slot, is_locked) {
        Err(ShellFault::Unsound(_)) => {
            let away = put_away(alloc, image)?;
            let changed = cbm_slots::lock(alloc, away.image.as_slice(), slot, is_locked)?;
            put_back(alloc, image, &away, &changed)
        }
        made => made,
    }
}

/// The image whose file in a slot has another type. Errors: `Image`, `Trouble`, `NotFound`, `Refused` where it has records,
/// `Unsound`, `Memory`.
pub fn retype_in_slot(
    alloc: Global,
    image: &[u8],
    slot: u8,
    kind: FileType,
) -> Result<Vec<u8>, ShellFault> {
    match cbm_slots::retype(alloc, image, slot, kind) {
        Err(ShellFault::Unsound(_)) => {
            let away = put_away(alloc, image)?;
            let changed = cbm_slots::retype(alloc, away.image.as_slice(), slot, kind)?;
            put_back(alloc, image, &away, &changed)
        }
        made => made,
    }
}

/// The image without the file in a slot. Errors: `Image`, `Trouble`, `NotFound`, `Refused`, `Unsound`, `Memory`.
pub fn delete_in_slot(alloc: Global, image: &[u8], slot: u8) -> Result<Vec<u8>, ShellFault> {
    match cbm_slots::delete(alloc, image, slot) {
        Err(ShellFault::Unsound(_)) => delete_around(alloc, image, slot),
        made => made,
    }
}

/// The same on a disk with odd entries; one of these is cleared alone, and what it leads to stays taken.
fn delete_around(alloc: Global, image: &[u8], slot: u8) -> Result<Vec<u8>, ShellFault> {
    let away = put_away(alloc, image)?;
    if away.has_slot(slot) {
        return match cbm_shell::forget(alloc, image, slot)? {
            Some(new) => Ok(new),
            None => Err(ShellFault::NotFound),
        };
    }
    let changed = cbm_slots::delete(alloc, away.image.as_slice(), slot)?;
    put_back(alloc, image, &away, &changed)
}

/// The image whose file in a slot lies at these places. Errors: `Image`, `Unsound`, `NotFound`, `NotClosed`, `Mistaken`, `Trouble`,
/// `Memory`.
pub fn place(
    alloc: Global,
    image: &[u8],
    slot: u8,
    places: &[Address],
) -> Result<Vec<u8>, ShellFault> {
    match cbm_place::place(alloc, image, slot, places) {
        Err(ShellFault::Unsound(_)) => {
            let away = put_away(alloc, image)?;
            let changed = cbm_place::place(alloc, away.image.as_slice(), slot, places)?;
            put_back(alloc, image, &away, &changed)
        }
        made => made,
    }
}

/// The image whose file in a slot has these blocks, as many as before, and this entry. Errors: `Image`, `Unsound`, `NotFound`,
/// `NotClosed`, `Mistaken`, `Trouble`, `Memory`.
pub fn carve(
    alloc: Global,
    image: &[u8],
    slot: u8,
    entry: &Entry,
    blocks: &[[u8; 256]],
) -> Result<Vec<u8>, ShellFault> {
    match cbm_place::carve(alloc, image, slot, entry, blocks) {
        Err(ShellFault::Unsound(_)) => {
            let away = put_away(alloc, image)?;
            let changed = cbm_place::carve(alloc, away.image.as_slice(), slot, entry, blocks)?;
            put_back(alloc, image, &away, &changed)
        }
        made => made,
    }
}

/// The image with another title, of at most sixteen codes. Errors: `Image`, `Trouble`, `Memory`.
pub fn retitle(alloc: Global, image: &[u8], title: &[u8]) -> Result<Vec<u8>, ShellFault>
    requires { length title.now ≤ 16 }
{
    match cbm_shell::retitle(alloc, image, title) {
        Err(ShellFault::Unsound(_)) => {
            let away = put_away(alloc, image)?;
            let changed = cbm_shell::retitle(alloc, away.image.as_slice(), title)?;
            put_back(alloc, image, &away, &changed)
        }
        made => made,
    }
}

/// The image with entries that change places. Errors: `Image`, `Unsound`, `Trouble`, `Memory`.
pub fn swap_entries(alloc: Global, image: &[u8], swaps: &[Swap]) -> Result<Vec<u8>, ShellFault> {
    match cbm_shell::swap_entries(alloc, image, swaps) {
        Err(ShellFault::Unsound(_)) => {
            let away = put_away(alloc, image)?;
            let changed = cbm_shell::swap_entries(alloc, away.image.as_slice(), swaps)?;
            put_back(alloc, image, &away, &changed)
        }
        made => made,
    }
}

/// The image with the deleted file of a slot; None where its blocks aren't free. Errors: `Image`, `Unsound`, `Trouble`,
/// `Memory`.
pub fn undelete(
    alloc: Global,
    image: &[u8],
    slot: u8,
    kind: FileType,
) -> Result<Option<Vec<u8>>, ShellFault> {
    match cbm_shell::undelete(alloc, image, slot, kind) {
        Err(ShellFault::Unsound(_)) => {
            let away = put_away(alloc, image)?;
            match cbm_shell::undelete(alloc, away.image.as_slice(), slot, kind)? {
                Some(changed) => Ok(Some(put_back(alloc, image, &away, &changed)?)),
                None => Ok(None),
            }
        }
        made => made,
    }
}

/// The image put in order, and what that gave back. Errors: `Image`, `Trouble`, `Memory`.
pub fn validate(alloc: Global, image: &[u8]) -> Result<Order, ShellFault> {
    match cbm_shell::check(alloc, image)? {
        Ok(()) => cbm_shell::validate(alloc, image),
        Err(unsound) => validate_around(alloc, image, unsound),
    }
}

/// The image with its BAM written anew, in which each block is free but those of the directory, of closed files and of GEOS.
/// Errors: `Image`, `Unsound`, `Trouble`, `Memory`.
pub fn map_around_geos(alloc: Global, image: &[u8]) -> Result<Vec<u8>, ShellFault> {
    cbm_shell::map_around_geos(alloc, image)
}

/// The image with other five bytes after the title. Errors: `Image`, `Unsound`, `Memory`.
pub fn remark(alloc: Global, image: &[u8], mark: &[u8; 5]) -> Result<Vec<u8>, ShellFault> {
    match cbm_shell::remark(alloc, image, mark) {
        Err(ShellFault::Unsound(_)) => {
            let away = put_away(alloc, image)?;
            let changed = cbm_shell::remark(alloc, away.image.as_slice(), mark)?;
            put_back(alloc, image, &away, &changed)
        }
        made => made,
    }
}

/// The image of an empty disk with a title of at most sixteen codes. The one error is want of memory.
pub fn new_image(
    alloc: Global,
    form: Form,
    title: &[u8],
    id: [u8; 2],
) -> Result<Vec<u8>, AllocError>
    requires { length title.now ≤ 16 }
{
    cbm_shell::new_image(alloc, form, title, id)
}
