//! A file of a disk by its number.
ghost use Rattle.std.specs.Prelude.{◌≡◌, ◌⊎◌, slice_get, MatchResult, Ok, Err};
ghost use Rattle.cbm_sources.specs.Sources.{whole, chain_missing, disk_told, disk_file};

use crate::disk::Disk;
use crate::fault::Fault;
use crate::held::{Held, held_from};
use crate::listing::{Listed, listed_of};
use cbm_medium::Trouble;
use std::alloc::Global;

/// The bytes of a chain that isn't broken off.
fn whole(held: Held) -> Result<Vec<u8>, Fault>
    ensures { let told = whole (record { bytes = held.bytes.items; trouble = held.trouble }) in
        MatchResult result (λ v. told ≡ Ok v.items) (λ fault. told ≡ Err fault) }
{
    let Held { bytes, trouble } = held;
    match trouble {
        Some(trouble) => Err(Fault::Chain(trouble)),
        None => Ok(bytes),
    }
}

/// Why there is no file: the directory has no more, or breaks off.
fn missing(trouble: Option<Trouble>) -> Fault
    ensures { result ≡ chain_missing trouble }
{
    match trouble {
        Some(trouble) => Fault::Chain(trouble),
        None => Fault::NoFile,
    }
}

/// The bytes of the file of a number in a directory.
fn file_among(alloc: Global, disk: &Disk, listed: &Listed, number: usize) -> Result<Vec<u8>, Fault>
    ensures { let told = disk_told disk.now listed.now.trouble (slice_get listed.now.entries.items number) in
        MatchResult result (λ v. told ≡ Ok v.items) (λ fault. (fault ≡ Fault.Memory) ⊎ (told ≡ Err fault)) }
{
    let Some(entry) = listed.entries.as_slice().get(number) else {
        return Err(missing(listed.trouble));
    };
    match held_from(alloc, disk, entry.first_block()) {
        Ok(held) => whole(held),
        Err(_) => Err(Fault::Memory),
    }
}

/// The bytes of the file of a number: those of its chain alone, without the side sectors of a relative file.
pub fn disk_file(alloc: Global, disk: &Disk, number: usize) -> Result<Vec<u8>, Fault>
    ensures { MatchResult result (λ v. disk_file disk.now number ≡ Ok v.items)
        (λ fault. (fault ≡ Fault.Memory) ⊎ (disk_file disk.now number ≡ Err fault)) }
{
    match listed_of(alloc, disk) {
        Ok(listed) => file_among(alloc, disk, &listed, number),
        Err(_) => Err(Fault::Memory),
    }
}
