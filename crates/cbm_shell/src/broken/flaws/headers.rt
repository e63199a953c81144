//! The headers of a disk.
ghost use Rattle.std.specs.Prelude.{◌≡◌, ◌≤◌, ◌++◌, OnOk};
ghost use Rattle.cbm_medium.specs.Place.{sectors_on};
ghost use Rattle.cbm_shell.specs.Flaws.{header_flaw, header_flaws_on, header_flaws};

use super::found::{DiskFlaw, Whose, flawed};
use cbm_medium::{Address, Geometry, Link, Medium, is_of_header, sectors_of};
use std::alloc::AllocError;

/// Adds the fault of a sector's header.
fn add_header<M: Medium>(medium: &M, at: Address, out: &mut Vec<DiskFlaw>) -> Result<(), AllocError>
    requires { at.track ≤ (M.seen medium.now).tracks }
    ensures { OnOk result (out.new.items ≡ out.old.items ++ header_flaw at ((M.seen medium.now).content at)) }
{
    match medium.read(at) {
        Err(fault) if is_of_header(fault.code) => out
            .push(flawed(Whose::Disk, 0, Link::from(at), 5))
            .map_err(AllocError::from),
        _ => Ok(()),
    }
}

/// Adds the faults of the headers of a track.
fn add_track<M: Medium>(medium: &M, track: u8, out: &mut Vec<DiskFlaw>) -> Result<(), AllocError>
    requires { track ≤ (M.seen medium.now).tracks }
    ensures { OnOk result (out.new.items
        ≡ out.old.items ++ header_flaws_on (M.seen medium.now).content track (sectors_on track)) }
{
    for sector in 0..sectors_of(track) {
        match Address::new(track, sector) {
            Some(at) => add_header(medium, at, out)?,
            None => unreachable!(),
        }
    }
    Ok(())
}

/// Adds the faults of all headers, in order of track and sector.
pub(super) fn add_headers<M: Medium>(
    medium: &M,
    geometry: Geometry,
    out: &mut Vec<DiskFlaw>,
) -> Result<(), AllocError>
    requires { geometry ≤ (M.seen medium.now).tracks }
    ensures { OnOk result (out.new.items ≡ out.old.items ++ header_flaws (M.seen medium.now).content geometry) }
{
    for track in 0..geometry.tracks() {
        add_track(medium, track + 1, out)?;
    }
    Ok(())
}
