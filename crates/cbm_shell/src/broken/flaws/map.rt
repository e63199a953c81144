//! The BAM of a disk.
ghost use Rattle.std.specs.Prelude.{◌≡◌, ◌≤◌, ◌++◌, IsOk, OnOk};
ghost use Rattle.cbm_medium.specs.Place.{directory_head};
ghost use Rattle.cbm_bam.specs.Map.{map_of};
ghost use Rattle.cbm_shell.specs.Flaws.{flawed, flaw_if, own_flaw, count_flaw, count_flaws, map_flaws};
ghost use Rattle.cbm_shell.specs.declared.broken.flaws.found.Whose.TheVariants.{Disk};

use super::found::{DiskFlaw, Whose, flawed};
use cbm_bam::{is_counted, is_free, read_map};
use cbm_medium::{Address, Geometry, Link, Medium};
use std::alloc::AllocError;

/// Adds a flaw of the BAM at a place, if it has it.
fn add_if(out: &mut Vec<DiskFlaw>, is_wrong: bool, at: Link, number: u8) -> Result<(), AllocError>
    ensures { OnOk result (out.new.items ≡ out.old.items ++ flaw_if is_wrong (flawed Disk 0 at number)) }
{
    if is_wrong {
        out.push(flawed(Whose::Disk, 0, at, number))
            .map_err(AllocError::from)?;
    }
    Ok(())
}

/// Adds that a track's count isn't the number of its free blocks, if it isn't.
fn add_count<M: Medium>(
    medium: &M,
    geometry: Geometry,
    track: u8,
    out: &mut Vec<DiskFlaw>,
) -> Result<(), AllocError>
    requires room { geometry ≤ (M.seen medium.now).tracks }
    requires track { track ≤ 40 }
    requires map { IsOk ((M.seen medium.now).content directory_head) }
    ensures { OnOk result (out.new.items ≡ out.old.items ++ count_flaw (map_of (M.seen medium.now).content) track) }
{
    let is_wrong = is_counted(medium, geometry, track) != Ok(true);
    add_if(out, is_wrong, Link::new(track, 0), 1)
}

/// Adds the counts that are wrong, in the order of their tracks.
fn add_counts<M: Medium>(
    medium: &M,
    geometry: Geometry,
    out: &mut Vec<DiskFlaw>,
) -> Result<(), AllocError>
    requires room { geometry ≤ (M.seen medium.now).tracks }
    requires map { IsOk ((M.seen medium.now).content directory_head) }
    ensures { OnOk result (out.new.items
        ≡ out.old.items ++ count_flaws (map_of (M.seen medium.now).content) geometry) }
{
    for track in 0..geometry.tracks() {
        add_count(medium, geometry, track + 1, out)?;
    }
    Ok(())
}

/// Adds that 18/0 is free in its own BAM, if it is.
fn add_own<M: Medium>(
    medium: &M,
    geometry: Geometry,
    out: &mut Vec<DiskFlaw>,
) -> Result<(), AllocError>
    requires room { geometry ≤ (M.seen medium.now).tracks }
    requires map { IsOk ((M.seen medium.now).content directory_head) }
    ensures { OnOk result (out.new.items ≡ out.old.items ++ own_flaw (map_of (M.seen medium.now).content)) }
{
    let is_wrong = is_free(medium, geometry, Address::of_map()) != Ok(false);
    add_if(out, is_wrong, Link::from(Address::of_map()), 2)
}

/// Adds what is wrong with the BAM: that 18/0 doesn't read; or else that it is free in itself, and the counts that are wrong.
pub(super) fn add_map<M: Medium>(
    medium: &M,
    geometry: Geometry,
    out: &mut Vec<DiskFlaw>,
) -> Result<(), AllocError>
    requires { geometry ≤ (M.seen medium.now).tracks }
    ensures { OnOk result (out.new.items
        ≡ out.old.items ++ map_flaws geometry ((M.seen medium.now).content directory_head)) }
{
    if read_map(medium, geometry).is_err() {
        return add_if(out, true, Link::from(Address::of_map()), 9);
    }
    add_own(medium, geometry, out)?;
    add_counts(medium, geometry, out)
}
