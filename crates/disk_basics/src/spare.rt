//! Names that no file has, under which a file stands until it has its own.
ghost use Rattle.std.specs.Prelude.{◌≤◌, length};

use crate::calls::entries;
use crate::changing::dress;
use crate::choice::{slot_named, slot_number};
use crate::failure::{Failure, on_disk};
use crate::what::What;
use cbm_channel::{Code, Status};
use cbm_shell::{Looks, ShellFault};
use cbm_volume::Entry;
use std::alloc::Global;
use std::ops::Range;

/// Where an entry's name stands in its bytes.
const NAME: Range<usize> = 3..19;

/// The most bytes of a name.
const LONGEST: usize = 16;

/// Whether a file has a name.
pub fn has_name(entries: &[Entry], name: &[u8]) -> bool {
    slot_named(entries, name).is_some()
}

/// A name that no file has and that each of the drive's commands can say; None where 288 names are taken.
pub fn spare_name(entries: &[Entry], last: u8) -> Option<[u8; 3]> {
    for first in 1..13u8 {
        for second in 1..13u8 {
            let name = [first, second, last];
            if !has_name(entries, &name) {
                return Some(name);
            }
        }
    }
    None
}

/// A name of at most sixteen bytes; a longer one is none.
pub fn sixteen(name: &[u8]) -> &[u8]
    ensures { length result.now ≤ 16 }
{
    if name.len() > LONGEST {
        return &[];
    }
    name
}

/// The bytes of an entry's name, with what stands after its end.
pub fn whole_name(entry: &Entry) -> &[u8]
    ensures { length result.now ≤ 16 }
{
    sixteen(entry.bytes().get(NAME).unwrap_or(&[]))
}

/// The image whose file in a slot has a name of at most sixteen bytes, and a lock or none. Errors: `NoFile`, where the directory has
/// no such slot; `Disk`.
pub fn named(
    alloc: Global,
    image: &str,
    bytes: &[u8],
    slot: usize,
    name: &[u8],
    is_locked: bool,
) -> Result<Vec<u8>, Failure> {
    let entries = on_disk(alloc, image, entries(alloc, bytes))?;
    let Some(entry) = entries.as_slice().get(slot) else {
        return Err(Failure::named(alloc, What::NoFile, image));
    };
    let looks = Looks {
        name: sixteen(name),
        blocks: entry.blocks(),
        is_locked,
    };
    on_disk(
        alloc,
        image,
        dress(alloc, bytes, slot_number(alloc, slot, image)?, looks),
    )
}

/// The image whose file of a spare name has its own, and a lock or none. Errors: `NoFile`, where no file has the spare name; `Disk`.
pub fn unspared(
    alloc: Global,
    image: &str,
    bytes: &[u8],
    spare: &[u8],
    name: &[u8],
    is_locked: bool,
) -> Result<Vec<u8>, Failure> {
    let all = on_disk(alloc, image, entries(alloc, bytes))?;
    match slot_named(all.as_slice(), spare) {
        Some(slot) => named(alloc, image, bytes, slot, name, is_locked),
        None => Err(Failure::named(alloc, What::NoFile, image)),
    }
}

/// The fault that a name is there already.
pub fn taken(alloc: Global, image: &str) -> Failure {
    Failure::named(
        alloc,
        What::Disk(ShellFault::Refused(Status {
            code: Code::FileExists,
            first: 0,
            second: 0,
        })),
        image,
    )
}
