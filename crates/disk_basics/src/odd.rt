//! Odd entries: what is wrong with them hinders no change of the rest.
use cbm_bam::SectorSet;
use cbm_channel::{Code, Status};
use cbm_medium::Address;
use cbm_odd::{Marks, Odd};
use cbm_shell::{DiskChange, Freed, Order, ShellFault, file_blocks, flaws_of, open_disk, salvage};
use cbm_volume::Unsound;
use std::alloc::{AllocError, Global};

/// The number of the flaw that a block is in use, but marked free.
const MARKED_FREE: u8 = 2;

/// An image with its odd entries put away.
#[derive(Drop)]
pub struct Away {
    /// The image.
    pub image: Vec<u8>,
    /// What was put away.
    odds: Vec<Odd>,
}

impl Away {
    /// Whether one of the odd entries stands in a slot.
    pub fn has_slot(&self, slot: u8) -> bool {
        self.odds.as_slice().iter().any(|odd| odd.slot == slot)
    }

    /// The slot of an odd entry of exactly this name.
    pub fn slot_named(&self, name: &[u8]) -> Option<u8> {
        for odd in self.odds.as_slice() {
            if odd.entry.name() == name {
                return Some(odd.slot);
            }
        }
        None
    }
}

/// The image with its odd entries put away. Errors: `Image`; `Unsound`, if more is wrong than entries; `Trouble`; `Memory`.
pub fn put_away(alloc: Global, image: &[u8]) -> Result<Away, ShellFault> {
    let cbm_odd::Away { image, odds } = cbm_odd::put_away(alloc, image)?;
    Ok(Away { image, odds })
}

/// The refusal of a change that touches a sector to which an odd entry leads: it is protected.
fn touched(fault: ShellFault) -> ShellFault {
    match fault {
        ShellFault::Unsound(
            Unsound {
                number: _,
                track,
                sector,
            },
        ) => ShellFault::Refused(Status {
            code: Code::WriteProtected,
            first: track,
            second: sector,
        }),
        other => other,
    }
}

/// The changed image with the odd entries of the old one. Errors: `Refused`, with WRITE PROTECT ON, if the change touched one of them, or
/// a sector to which one leads, whose numbers it has then; `Trouble`; `Memory`.
pub fn put_back(
    alloc: Global,
    image: &[u8],
    away: &Away,
    changed: &Vec<u8>,
) -> Result<Vec<u8>, ShellFault> {
    match cbm_odd::put_back(alloc, image, away.odds.as_slice(), changed.as_slice()) {
        Ok(new) => Ok(new),
        Err(fault) => Err(touched(fault)),
    }
}

/// The image after a change around its odd entries. Errors: `Image`; `Unsound`, if more is wrong than entries; `Refused`, also as
/// `put_back` has it; `Trouble`; `Memory`.
pub fn change_around(
    alloc: Global,
    image: &[u8],
    change: &DiskChange<'_>,
) -> Result<Vec<u8>, ShellFault> {
    match cbm_odd::change(alloc, image, change) {
        Ok(new) => Ok(new),
        Err(fault) => match put_away(alloc, image) {
            Ok(_) => Err(touched(fault)),
            Err(_) => Err(fault),
        },
    }
}

/// The slots of the odd entries that hinder no change; none on a sound disk, or if more is wrong. The one error is `Memory`.
pub fn odd_slots(alloc: Global, image: &[u8]) -> Result<Vec<usize>, ShellFault> {
    let mut slots = Vec::new(alloc);
    match put_away(alloc, image) {
        Ok(away) => {
            for odd in away.odds.as_slice() {
                slots.push(usize::from(odd.slot)).map_err(AllocError::from)?;
            }
            Ok(slots)
        }
        Err(ShellFault::Memory) => Err(ShellFault::Memory),
        Err(_) => Ok(slots),
    }
}

/// The sectors that odd entries lead to.
fn held_by(alloc: Global, image: &[u8], away: &Away) -> Result<Vec<SectorSet>, ShellFault> {
    let mut held = Vec::new(alloc);
    for odd in away.odds.as_slice() {
        let blocks = file_blocks(alloc, image, &odd.entry)?;
        held.push(blocks).map_err(AllocError::from)?;
    }
    Ok(held)
}

/// Those of these blocks that no odd entry leads to.
fn freed_beside(
    alloc: Global,
    blocks: &[Address],
    held: &[SectorSet],
) -> Result<Vec<Address>, AllocError> {
    let mut freed = Vec::new(alloc);
    for at in blocks {
        if !held.iter().any(|set| set.has(*at)) {
            freed.push(*at).map_err(AllocError::from)?;
        }
    }
    Ok(freed)
}

/// Whether the chain of an odd entry breaks off or comes back to itself, so that blocks which nothing else uses may be its rest.
fn is_any_cut(alloc: Global, image: &[u8], away: &Away) -> Result<bool, ShellFault> {
    let disk = open_disk(alloc, image)?;
    for odd in away.odds.as_slice() {
        if salvage(alloc, &disk, &odd.entry)?.trouble.is_some() {
            return Ok(true);
        }
    }
    Ok(false)
}

/// The image put in order around its odd entries, and what that gave back; None if GEOS keeps some of these blocks, or if they may be the
/// rest of an odd entry's chain.
fn ordered_around(alloc: Global, image: &[u8], away: &Away) -> Result<Option<Order>, ShellFault> {
    let Order { image: left, freed } = cbm_shell::validate(alloc, away.image.as_slice())?;
    if freed.takes_geos {
        return Ok(None);
    }
    let held = held_by(alloc, image, away)?;
    let blocks = freed_beside(alloc, freed.blocks.as_slice(), held.as_slice())?;
    if !blocks.is_empty() && is_any_cut(alloc, image, away)? {
        return Ok(None);
    }
    let mapped = cbm_odd::map_around(alloc, left.as_slice(), away.odds.as_slice())?;
    let odds = away.odds.as_slice();
    let new = cbm_odd::put_back_by(alloc, image, odds, mapped.as_slice(), Marks::AsChanged)?;
    Ok(Some(Order {
        image: new,
        freed: Freed {
            blocks,
            takes_geos: false,
        },
    }))
}

/// The refusal of a disk with odd entries that isn't put in order: what the drive's VALIDATE meets, or this flaw.
fn refused_order(alloc: Global, image: &[u8], unsound: Unsound) -> ShellFault {
    match cbm_shell::validate(alloc, image) {
        Ok(_) => ShellFault::Unsound(unsound),
        Err(fault) => fault,
    }
}

/// Whether all that is wrong with a disk is that blocks of files are marked free, which the drive's VALIDATE corrects.
fn are_marked_free(alloc: Global, image: &[u8]) -> Result<bool, ShellFault> {
    let disk = open_disk(alloc, image)?;
    let flaws = flaws_of(alloc, &disk)?;
    Ok(
        flaws
            .as_slice()
            .iter()
            .all(|flaw| flaw.what.number == MARKED_FREE),
    )
}

/// The image of an unsound disk put in order: around its odd entries, if those are all that is wrong, else as the drive does it. Errors:
/// `Unsound`, with this flaw, or what the drive meets, if blocks that nothing uses may be GEOS's or the rest of an odd entry's chain;
/// `Trouble`; `Memory`.
pub fn validate_around(alloc: Global, image: &[u8], unsound: Unsound) -> Result<Order, ShellFault> {
    if are_marked_free(alloc, image)? {
        return cbm_shell::validate(alloc, image);
    }
    let away = match put_away(alloc, image) {
        Ok(away) => away,
        Err(ShellFault::Memory) => return Err(ShellFault::Memory),
        Err(_) => return cbm_shell::validate(alloc, image),
    };
    match ordered_around(alloc, image, &away)? {
        Some(order) => Ok(order),
        None => Err(refused_order(alloc, image, unsound)),
    }
}
