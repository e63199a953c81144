//! A sector of a walk along the disk.
ghost use Rattle.std.specs.Prelude.{◌≡◌, ◌≤◌, ◌++◌, ◌∷◌, [], true, false, None, IfOk, OnOk, MatchOption};
ghost use Rattle.cbm_bam.specs.Marks.{is_marked};
ghost use Rattle.cbm_volume.specs.check.Claims.{is_inside, wrong_at};
ghost use Rattle.cbm_shell.specs.Flaws.{part_of, flawed, flaw_if};
ghost use Rattle.cbm_shell.specs.FlawSteps.{IsStep};

use super::findings::Findings;
use super::found::{DiskFlaw, Whose, flawed};
use crate::looking::is_free_at;
use cbm_medium::{Address, Geometry, Link, Medium};
use std::alloc::AllocError;

/// The sector that a link names, where that lies in the part of the disk that is followed.
fn inside(geometry: Geometry, whose: Whose, at: Link) -> Option<Address>
    ensures { MatchOption result (is_inside (part_of whose) geometry at ≡ false)
        (λ a. (a ≡ at) × (is_inside (part_of whose) geometry at ≡ true)) }
{
    let address = at.address(geometry)?;
    if (address.track() == 18) == whose.is_directory() {
        Some(address)
    } else {
        None
    }
}

/// Ends a walk with a flaw.
fn stop(out: &mut Vec<DiskFlaw>, flaw: DiskFlaw) -> Result<Option<[u8; 256]>, AllocError>
    ensures added { OnOk result (out.new.items ≡ out.old.items ++ flaw ∷ []) }
    ensures none { IfOk result (λ o. o ≡ None) }
{
    out.push(flaw).map_err(AllocError::from)?;
    Ok(None)
}

/// Adds that a sector is used and the BAM has it as free, if it does.
fn add_free(out: &mut Vec<DiskFlaw>, is_free: bool, flaw: DiskFlaw) -> Result<(), AllocError>
    ensures { OnOk result (out.new.items ≡ out.old.items ++ flaw_if is_free flaw) }
{
    if is_free {
        out.push(flaw).map_err(AllocError::from)?;
    }
    Ok(())
}

/// Claims the next sector of a walk, unless more than the BAM is against it, and answers its bytes; None where the walk ends
/// there. What is wrong is added.
pub(super) fn step<M: Medium>(
    medium: &M,
    geometry: Geometry,
    whose: Whose,
    before: u16,
    at: Link,
    found: &mut Findings,
) -> Result<Option<[u8; 256]>, AllocError>
    requires { geometry ≤ (M.seen medium.now).tracks }
    ensures { let content = (M.seen medium.now).content in
        IfOk result (IsStep (wrong_at (part_of whose) geometry content (is_marked found.old.claimed) at) (flawed whose before at)
        content at (is_marked found.old.claimed) (is_marked found.new.claimed) found.old.flaws.items found.new.flaws.items) }
{
    let Some(address) = inside(geometry, whose, at) else {
        return stop(&mut found.flaws, flawed(whose, before, at, whose.outside()));
    };
    if found.claimed.has(address) {
        return stop(&mut found.flaws, flawed(whose, before, at, 3));
    }
    let Ok(bytes) = medium.read(address) else {
        return stop(&mut found.flaws, flawed(whose, before, at, 9));
    };
    let is_free = is_free_at(medium, geometry, address);
    add_free(&mut found.flaws, is_free, flawed(whose, before, at, 2))?;
    found.claimed.insert(address);
    Ok(Some(bytes))
}
