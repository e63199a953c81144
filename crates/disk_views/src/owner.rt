//! The files that sectors are of.
use cbm_bam::SectorSet;
use cbm_medium::Address;
use std::alloc::{AllocError, Global};

/// The letters of files, in their order.
const LETTERS: &[u8; 62] = b"ABCDEFGHIJKLMNOPQRSTUVWXYZabcdefghijklmnopqrstuvwxyz0123456789";

/// The letter of all files after these.
const ONE_MORE: u8 = b'+';

/// A file, and its sectors.
#[derive(Drop)]
pub struct Owner {
    /// Its slot in the directory.
    pub slot: usize,
    /// Its name, as it is shown.
    pub name: String,
    /// How its type is called.
    pub kind: &'static str,
    /// Its sectors: those of its chain, its side sectors, and those of its records where GEOS made it.
    pub sectors: SectorSet,
}

/// The letter of a file by its number, from 0 on.
pub fn letter_of(number: usize) -> u8 {
    match LETTERS.get(number) {
        Some(letter) => *letter,
        None => ONE_MORE,
    }
}

/// The number of the first of the files that has a sector; None where none has it.
pub fn owner_at(owners: &[Owner], track: u8, sector: u8) -> Option<usize> {
    let at = Address::new(track, sector)?;
    for (number, owner) in owners.iter().enumerate() {
        if owner.sectors.has(at) {
            return Some(number);
        }
    }
    None
}

/// The slots of all files that have a sector. The one error is want of memory.
pub fn slots_at(
    alloc: Global,
    owners: &[Owner],
    track: u8,
    sector: u8,
) -> Result<Vec<usize>, AllocError> {
    let mut slots = Vec::new(alloc);
    let Some(at) = Address::new(track, sector) else {
        return Ok(slots);
    };
    for owner in owners {
        if owner.sectors.has(at) {
            slots.push(owner.slot).map_err(AllocError::from)?;
        }
    }
    Ok(slots)
}
