//! A walk along the side sectors of a relative file.
ghost use Rattle.std.specs.Prelude.{◌≡◌, ◌≤◌, ◌++◌, ◌&&◌, not, IfOk, OnOk};
ghost use Rattle.cbm_directory.specs.Entries.{first_side};
ghost use Rattle.cbm_bam.specs.Map.{geometry_of};
ghost use Rattle.cbm_volume.specs.check.SideLists.{are_records, after_the_first, sides_from};
ghost use Rattle.cbm_bam.specs.Marks.{is_marked};
ghost use Rattle.cbm_shell.specs.Flaws.{among, flawed, flaw_if, sides_walk};
ghost use Rattle.cbm_shell.specs.FlawSteps.{HasWalked, IsWalked};

use super::findings::Findings;
use super::found::{DiskFlaw, Whose, flawed};
use super::steps::step;
use crate::fault::ShellFault;
use cbm_medium::{Geometry, Link, Medium};
use cbm_relfile::side::SIDES;
use cbm_volume::{Entry, Volume};
use std::alloc::AllocError;

/// The error at a relative file's first side sector where they don't list its blocks.
const MISLISTED: u8 = 71;

/// Claims the side sectors that a file's first one lists after itself.
fn walk_listed<M: Medium>(
    medium: &M,
    geometry: Geometry,
    whose: Whose,
    first: &[u8; 256],
    found: &mut Findings,
) -> Result<bool, AllocError>
    requires { geometry ≤ (M.seen medium.now).tracks }
    ensures { let w = among whose geometry (M.seen medium.now).content (is_marked found.old.claimed) (after_the_first first.now) in
        IfOk result (IsWalked w (is_marked found.new.claimed) found.old.flaws.items found.new.flaws.items) }
{
    if first[SIDES] == 0 {
        return Ok(true);
    }
    for number in 1..6usize {
        let at = Link::new(first[SIDES + 2 * number], first[SIDES + 2 * number + 1]);
        if at.is_end() {
            return Ok(true);
        }
        if step(medium, geometry, whose, 0, at, found)?.is_none() {
            return Ok(false);
        }
    }
    Ok(true)
}

/// Claims the side sectors of a relative file.
fn walk_all<M: Medium>(
    medium: &M,
    geometry: Geometry,
    whose: Whose,
    first: Link,
    found: &mut Findings,
) -> Result<bool, AllocError>
    requires { geometry ≤ (M.seen medium.now).tracks }
    ensures { let content = (M.seen medium.now).content in
        let w = among whose geometry content (is_marked found.old.claimed) (sides_from content first) in
        IfOk result (IsWalked w (is_marked found.new.claimed) found.old.flaws.items found.new.flaws.items) }
{
    let Some(bytes) = step(medium, geometry, whose, 0, first, found)? else {
        return Ok(false);
    };
    walk_listed(medium, geometry, whose, &bytes, found)
}

/// Whether the side sectors of a relative file list its blocks. The error is that the first of them doesn't read.
fn has_records<M: Medium>(volume: &Volume<M>, entry: &Entry) -> Result<bool, ShellFault>
    ensures { let now = M.seen volume.now in
        IfOk result (λ b. b ≡ are_records (geometry_of now.tracks now.content) now.content entry.now) }
{
    match volume.open_records(entry) {
        Ok(()) => Ok(true),
        Err(trouble) if trouble.code == MISLISTED => Ok(false),
        Err(trouble) => Err(ShellFault::Trouble(trouble)),
    }
}

/// Adds that the side sectors don't list their file's blocks, if all of them were met and don't.
fn add_mislisted<M: Medium>(
    volume: &Volume<M>,
    whose: Whose,
    entry: &Entry,
    is_whole: bool,
    out: &mut Vec<DiskFlaw>,
) -> Result<(), ShellFault>
    ensures { let now = M.seen volume.now in let tracks = geometry_of now.tracks now.content in
        OnOk result (out.new.items ≡ out.old.items ++ flaw_if (is_whole && not (are_records tracks now.content entry.now))
        (flawed whose 0 (first_side entry.now) 7)) }
{
    if is_whole && !has_records(volume, entry)? {
        out.push(flawed(whose, 0, entry.first_side(), 7))
            .map_err(AllocError::from)?;
    }
    Ok(())
}

/// Claims the side sectors of a relative file, and looks whether they list its blocks.
pub(super) fn walk_sides<M: Medium>(
    volume: &Volume<M>,
    geometry: Geometry,
    whose: Whose,
    entry: &Entry,
    found: &mut Findings,
) -> Result<(), ShellFault>
    requires same { geometry ≡ geometry_of (M.seen volume.now).tracks (M.seen volume.now).content }
    requires room { geometry ≤ (M.seen volume.now).tracks }
    ensures { let w = sides_walk whose geometry (M.seen volume.now).content (is_marked found.old.claimed) entry.now in
        OnOk result (HasWalked w (is_marked found.new.claimed) found.old.flaws.items found.new.flaws.items) }
{
    let is_whole = walk_all(volume.medium(), geometry, whose, entry.first_side(), found)?;
    add_mislisted(volume, whose, entry, is_whole, &mut found.flaws)
}
