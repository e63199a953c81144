// The first empty slot, which takes a new name.

ghost use Rattle.std.specs.Prelude.{◌≡◌, ◌==◌, ◌≤◌, true, IfOk, IfErr};
ghost use Rattle.cbm_medium.specs.Seen.{OnlyContent};
ghost use Rattle.cbm_directory.specs.Entries.{type_byte};
ghost use Rattle.cbm_directory.specs.Slots.{directory_of};
ghost use Rattle.cbm_directory.specs.Empties.{FindsEmpty, TakesSlot, SlotStopped, IsSlotRefused};

use crate::entry::Entry;
use crate::growth::grow;
use crate::slots::{Wanted, find};
use cbm_medium::{Geometry, Medium, Trouble};

/// An empty slot is wanted.
struct AnEmptySlot;

impl Wanted for AnEmptySlot {
    ghost wants = { λ w entry. type_byte entry == 0 };

    fn wants(&self, entry: &Entry) -> bool {
        entry.is_empty()
    }
}

/// The number of the first empty slot, counted from 0; None if none is. An `Err` is what breaks the directory off
/// before one was met.
pub fn first_empty<M: Medium>(medium: &M, geometry: Geometry) -> Result<Option<u8>, Trouble>
    requires { geometry ≤ (M.seen medium.now).tracks }
    ensures { FindsEmpty (directory_of geometry (M.seen medium.now).content) result }
{
    let Some((number, _entry)) = find(medium, geometry, &AnEmptySlot)? else {
        return Ok(None);
    };
    Ok(Some(number))
}

/// The number of the first empty slot; if none is, the directory grows first. None, with nothing changed, if
/// track 18 has no free sector, or the directory has eighteen. An `Err` is what breaks the directory off, or what refused its growth: it leaves the
/// directory as it was, with at most a sector of track 18 claimed, or grown if it breaks off only then.
pub fn empty_slot<M: Medium>(medium: &mut M, geometry: Geometry) -> Result<Option<u8>, Trouble>
    requires { geometry ≤ (M.seen medium.old).tracks }
    ensures taken { IfOk result (TakesSlot geometry (M.seen medium.old).content (M.seen medium.new).content) }
    ensures stopped { IfErr result (SlotStopped geometry (M.seen medium.old).content (M.seen medium.new).content) }
    ensures cause { IfErr result (IsSlotRefused geometry (M.seen medium.old) (M.seen medium.new)) }
    ensures only { OnlyContent geometry result (M.seen medium.old) (M.seen medium.new) }
{
    if let Some(slot) = first_empty(medium, geometry)? {
        return Ok(Some(slot));
    }
    if !grow(medium, geometry)? {
        return Ok(None);
    }
    first_empty(medium, geometry)
}
