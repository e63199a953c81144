//! The files that use a sector.
ghost use Rattle.std.specs.Prelude.{◌≡◌, ◌≤◌, ◌++◌, IfOk, IfErr, OnOk};
ghost use Rattle.cbm_bam.specs.Map.{geometry_of};
ghost use Rattle.cbm_directory.specs.Slots.{directory_of};
ghost use Rattle.cbm_shell.specs.Mapping.{entries_shown};
ghost use Rattle.cbm_shell.specs.Users.{slot_if, is_user, users_among, users_of};

use crate::fault::ShellFault;
use crate::looking::{entries_or_none, use_file};
use cbm_bam::SectorSet;
use cbm_medium::{Address, Geometry, Medium};
use cbm_volume::{Entry, Volume};
use std::alloc::{AllocError, Global};

/// Whether the closed file of an entry uses a sector.
fn is_user<M: Medium>(medium: &M, geometry: Geometry, entry: &Entry, at: Address) -> bool
    requires { geometry ≤ (M.seen medium.now).tracks }
    ensures { result ≡ is_user geometry (M.seen medium.now).content at entry.now }
{
    let mut used = SectorSet::new();
    use_file(medium, geometry, entry, &mut used);
    used.has(at)
}

/// Adds the number of a slot, if its file uses the sector.
fn add_slot(out: &mut Vec<usize>, is_user: bool, slot: usize) -> Result<(), AllocError>
    ensures { OnOk result (out.new.items ≡ out.old.items ++ slot_if is_user slot) }
{
    if is_user {
        out.push(slot).map_err(AllocError::from)?;
    }
    Ok(())
}

/// The slots of these entries whose files use a sector.
fn users_among<M: Medium>(
    alloc: Global,
    medium: &M,
    geometry: Geometry,
    entries: &[Entry],
    at: Address,
) -> Result<Vec<usize>, AllocError>
    requires { geometry ≤ (M.seen medium.now).tracks }
    ensures { IfOk result (λ v. v.items ≡ users_among geometry (M.seen medium.now).content at 0 entries.now) }
{
    let mut out = Vec::new(alloc);
    let mut slot = 0;
    for entry in entries {
        add_slot(&mut out, is_user(medium, geometry, entry, at), slot)?;
        slot += 1;
    }
    Ok(out)
}

/// The slots of the directory whose closed files use a sector; none where the directory can't be followed to its end. The one
/// error is `Memory`.
pub fn users_of<M: Medium>(
    alloc: Global,
    volume: &Volume<M>,
    at: Address,
) -> Result<Vec<usize>, ShellFault>
    ensures ok { let now = M.seen volume.now in
        IfOk result (λ v. v.items ≡ users_of (geometry_of now.tracks now.content) now.content at) }
    ensures err { IfErr result (λ fault. fault ≡ ShellFault.Memory) }
{
    let entries = entries_or_none(alloc, volume)?;
    let users = users_among(
        alloc,
        volume.medium(),
        volume.geometry(),
        entries.as_slice(),
        at,
    )?;
    Ok(users)
}
