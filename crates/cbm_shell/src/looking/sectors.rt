//! Sectors that don't read.
ghost use Rattle.std.specs.Prelude.{◌≡◌, ◌≤◌, ◌++◌, IfOk, OnOk};
ghost use Rattle.cbm_medium.specs.Place.{sectors_on};
ghost use Rattle.cbm_shell.specs.Sectors.{sector_fault, faults_on, faults_in};

use cbm_medium::{Address, Fault, Medium, sectors_of};
use std::alloc::{AllocError, Global};

/// Adds the fault of a sector that doesn't read.
fn add_fault<M: Medium>(medium: &M, at: Address, faults: &mut Vec<Fault>) -> Result<(), AllocError>
    requires { at.track ≤ (M.seen medium.now).tracks }
    ensures { OnOk result (faults.new.items ≡ faults.old.items ++ sector_fault at ((M.seen medium.now).content at)) }
{
    match medium.read(at) {
        Ok(_) => Ok(()),
        Err(fault) => faults.push(fault).map_err(AllocError::from),
    }
}

/// Adds the faults of a track.
fn add_faults<M: Medium>(medium: &M, track: u8, faults: &mut Vec<Fault>) -> Result<(), AllocError>
    requires { track ≤ (M.seen medium.now).tracks }
    ensures { OnOk result (faults.new.items
        ≡ faults.old.items ++ faults_on (M.seen medium.now).content track (sectors_on track)) }
{
    for sector in 0..sectors_of(track) {
        match Address::new(track, sector) {
            Some(at) => add_fault(medium, at, faults)?,
            None => unreachable!(),
        }
    }
    Ok(())
}

/// The faults of all sectors of the first tracks, in order of track and sector.
pub(crate) fn faults_in<M: Medium>(
    alloc: Global,
    medium: &M,
    tracks: u8,
) -> Result<Vec<Fault>, AllocError>
    requires { tracks ≤ (M.seen medium.now).tracks }
    ensures { IfOk result (λ v. v.items ≡ faults_in (M.seen medium.now).content tracks) }
{
    let mut faults = Vec::new(alloc);
    for track in 0..tracks {
        add_faults(medium, track + 1, &mut faults)?;
    }
    Ok(faults)
}
