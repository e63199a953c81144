// A relative file whose side sectors can't list all its blocks gets more of them, before it grows.

ghost use Rattle.std.specs.Prelude.{◌≡◌, ◌≤◌, ◌<◌, ◌+◌, ◌*◌, Ok, IfOk};
ghost use Rattle.cbm_medium.specs.Seen.{OnlyContent};
ghost use Rattle.cbm_file.specs.Records.{sides_for};
ghost use Rattle.cbm_volume.specs.GrowthSteps.{GrowthGoes, OfSides, OfRoom, OfRoomFor, OfEmpty, OfAllSides};

use crate::records::growing_blocks::{copy_side, copy_sides};
use crate::records::making::miscounted;
use cbm_medium::{Address, Geometry, Medium, Trouble};
use cbm_relfile::{Relative, begin_empty_side};

/// Claims and writes a side sector for a file that has this many: it lists no block, and the file's side sectors don't list
/// it yet.
fn open_empty<M: Medium>(
    medium: &mut M,
    geometry: Geometry,
    file: Relative,
    sides: u8,
) -> Result<Address, Trouble>
    requires tracks { geometry ≤ (M.seen medium.old).tracks }
    requires sides { sides < 6 }
    ensures opened { GrowthGoes result (M.seen medium.old) (M.seen medium.new) geometry
        (OfRoom file sides) (λ t. OfEmpty file sides t) }
    ensures only { OnlyContent geometry result (M.seen medium.old) (M.seen medium.new) }
{
    let Some(side) = begin_empty_side(medium, geometry, file, sides)? else {
        return Err(miscounted());
    };
    Ok(side)
}

/// One side sector more, which lists no block, for a file of this many.
fn add_empty<M: Medium>(
    medium: &mut M,
    geometry: Geometry,
    file: Relative,
    sides: u8,
) -> Result<(), Trouble>
    requires tracks { geometry ≤ (M.seen medium.old).tracks }
    requires sides { (1 ≤ sides) × (sides < 6) }
    ensures added { GrowthGoes result (M.seen medium.old) (M.seen medium.new) geometry
        (OfRoom file sides) (λ x. OfSides file (sides + 1)) }
    ensures only { OnlyContent geometry result (M.seen medium.old) (M.seen medium.new) }
{
    let side = open_empty(medium, geometry, file, sides)?;
    copy_sides(medium, geometry, file, sides, side)?;
    copy_side(medium, geometry, file, sides, 0, side)
}

/// As many side sectors for a file as list all its data blocks, and at least those that it has; answers how many. An
/// `Err` is why a sector isn't written: the file has its records still.
pub(crate) fn add_sides<M: Medium>(
    medium: &mut M,
    geometry: Geometry,
    file: Relative,
    blocks: u16,
    sides: u8,
) -> Result<u8, Trouble>
    requires tracks { geometry ≤ (M.seen medium.old).tracks }
    requires blocks { blocks ≤ 720 }
    requires sides { sides ≤ 6 }
    ensures added { let all = sides_for sides blocks in
        GrowthGoes result (M.seen medium.old) (M.seen medium.new) geometry (OfRoomFor file sides all) (OfAllSides file all) }
    ensures enough { 1 ≤ sides → blocks ≤ 120 * sides →
        (result ≡ Ok sides) × ((M.seen medium.new).content ≡ (M.seen medium.old).content) }
    ensures bound { IfOk result (λ k. (sides ≤ k) × (k ≤ 6)) }
    ensures only { OnlyContent geometry result (M.seen medium.old) (M.seen medium.new) }
{
    // A sound relative file has a side sector.
    if sides == 0 {
        return Err(miscounted());
    }
    let all = ((blocks + 119) / 120) as u8;
    if all <= sides {
        return Ok(sides);
    }
    for number in sides..all {
        add_empty(medium, geometry, file, number)?;
    }
    Ok(all)
}
