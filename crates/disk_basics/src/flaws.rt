//! The files that have a flaw.
use crate::disk::Disk;
use cbm_medium::Address;
use cbm_shell::{DiskFlaw, ShellFault, Whose};
use std::alloc::{AllocError, Global};

/// The sector of a flaw; None where the link that is wrong names none.
pub fn place_of(flaw: &DiskFlaw) -> Option<Address> {
    Address::new(flaw.what.track, flaw.what.sector)
}

/// Whether putting the disk in order mends a flaw: it is the BAM's alone.
pub fn is_mendable(flaw: &DiskFlaw) -> bool {
    matches!(flaw.what.number, 1 | 2)
}

/// The slots of the files that have a flaw: that of the file that was followed first, then the others that use the block.
/// The one error is `Memory`.
pub fn slots_of(alloc: Global, disk: &Disk, flaw: &DiskFlaw) -> Result<Vec<usize>, ShellFault> {
    let mut slots = Vec::new(alloc);
    let Whose::File(slot) = flaw.whose else {
        return Ok(slots);
    };
    slots.push(slot as usize).map_err(AllocError::from)?;
    if flaw.what.number != 3 {
        return Ok(slots);
    }
    if let Some(at) = place_of(flaw) {
        for user in disk.users(alloc, at)?.as_slice() {
            if *user != slot as usize {
                slots.push(*user).map_err(AllocError::from)?;
            }
        }
    }
    Ok(slots)
}
