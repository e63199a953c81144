// A relative file grows block by block: each new block is full of fresh records, and listed by a side sector.

ghost use Rattle.std.specs.Prelude.{◌≡◌, ◌≤◌, ◌<◌, ◌+◌, ◌-◌, ◌*◌, ℕ, IfOk};
ghost use Rattle.cbm_medium.specs.Place.{Place};
ghost use Rattle.cbm_medium.specs.Seen.{OnlyContent};
ghost use Rattle.cbm_volume.specs.GrowthSteps.{GrowthGoes, GrowsTo, KeepsSide, KeepsEmpty, NamesSide, NameSides, OfEmpty, OfSides, OfLonger, OfGrown, OfSide, OfGrowable, OfSideable};

use crate::records::making::miscounted;
use cbm_medium::{Address, Geometry, Medium, Trouble};
use cbm_relfile::{Relative, begin_side, lengthen, link_side, list_block};

/// One data block more, full of fresh records, for a file of this many full ones, of which this is the last; its side
/// sectors don't list it yet.
pub fn lengthen_file<M: Medium>(
    medium: &mut M,
    geometry: Geometry,
    file: Relative,
    blocks: u16,
    last: Address,
) -> Result<Address, Trouble>
    requires tracks { geometry ≤ (M.seen medium.old).tracks }
    requires last { last.track ≤ geometry }
    requires length { (1 ≤ file.width) × (file.width ≤ 254) }
    requires blocks { (1 ≤ blocks) × (blocks < 720) }
    ensures longer { (s1 : ℕ) → GrowthGoes result (M.seen medium.old) (M.seen medium.new) geometry
        (OfGrowable file blocks s1 last) (λ q. OfLonger file blocks s1 q) }
    ensures bound { IfOk result (λ q. q.track ≤ geometry) }
    ensures only { OnlyContent geometry result (M.seen medium.old) (M.seen medium.new) }
{
    let _tracks = medium.tracks();
    let Some(block) = lengthen(medium, geometry, last, file.length(), blocks)? else {
        return Err(miscounted());
    };
    Ok(block)
}

/// The last data block is listed in a side sector that has room.
pub fn list_last<M: Medium>(
    medium: &mut M,
    geometry: Geometry,
    file: Relative,
    blocks: u16,
    block: Address,
) -> Result<(), Trouble>
    requires tracks { geometry ≤ (M.seen medium.old).tracks }
    requires blocks { blocks < 720 }
    ensures listed { (s1 : ℕ) → blocks < 120 * s1 → GrowthGoes result (M.seen medium.old) (M.seen medium.new) geometry
        (OfLonger file blocks s1 block) (λ x. OfGrown file (blocks + 1) s1 block) }
    ensures only { OnlyContent geometry result (M.seen medium.old) (M.seen medium.new) }
{
    list_block(medium, geometry, file.side(), blocks, block)
}

/// Claims and writes a side sector for a file that has this many full ones: it lists the last data block alone, and the
/// file's side sectors don't list it yet.
pub fn open_side<M: Medium>(
    medium: &mut M,
    geometry: Geometry,
    file: Relative,
    sides: u8,
    block: Address,
) -> Result<Address, Trouble>
    requires tracks { geometry ≤ (M.seen medium.old).tracks }
    requires sides { sides < 6 }
    requires block { block.track ≤ geometry }
    ensures begun { (b1 : ℕ) → GrowthGoes result (M.seen medium.old) (M.seen medium.new) geometry
        (OfSideable file b1 sides block) (λ t. OfSide file b1 sides block t) }
    ensures bound { IfOk result (λ t. t.track ≤ geometry) }
    ensures only { OnlyContent geometry result (M.seen medium.old) (M.seen medium.new) }
{
    let Some(side) = begin_side(medium, geometry, file, sides, block)? else {
        return Err(miscounted());
    };
    Ok(side)
}

/// A new side sector is put into the list of the one of a number, counted from 0, of this many. With the first one's list
/// the file has it.
pub fn copy_side<M: Medium>(
    medium: &mut M,
    geometry: Geometry,
    file: Relative,
    sides: u8,
    number: u8,
    side: Address,
) -> Result<(), Trouble>
    requires tracks { geometry ≤ (M.seen medium.old).tracks }
    requires number { (number < sides) × (sides < 6) }
    ensures copied { (b1 : ℕ) (q : Place) → 0 < number → KeepsSide result (M.seen medium.old) (M.seen medium.new) geometry file b1 sides q side }
    ensures added { (b1 : ℕ) (q : Place) → number ≡ 0 → b1 ≡ 120 * sides → GrowthGoes result (M.seen medium.old) (M.seen medium.new) geometry
        (OfSide file b1 sides q side) (λ x. OfGrown file (b1 + 1) (sides + 1) q) }
    // So it is where the new side sector lists no block.
    ensures copied_empty { 0 < number → KeepsEmpty result (M.seen medium.old) (M.seen medium.new) geometry file sides side }
    ensures added_empty { number ≡ 0 → GrowthGoes result (M.seen medium.old) (M.seen medium.new) geometry
        (OfEmpty file sides side) (λ x. OfSides file (sides + 1)) }
    ensures linked { NamesSide result (M.seen medium.old) (M.seen medium.new) geometry file number sides side }
    ensures only { OnlyContent geometry result (M.seen medium.old) (M.seen medium.new) }
{
    link_side(medium, geometry, file.side(), sides, number, side)
}

/// A new side sector is put into the lists of all side sectors but the first, from the last one down.
pub fn copy_sides<M: Medium>(
    medium: &mut M,
    geometry: Geometry,
    file: Relative,
    sides: u8,
    side: Address,
) -> Result<(), Trouble>
    requires tracks { geometry ≤ (M.seen medium.old).tracks }
    requires sides { sides < 6 }
    ensures copied { (b1 : ℕ) (q : Place) → KeepsSide result (M.seen medium.old) (M.seen medium.new) geometry file b1 sides q side }
    ensures copied_empty { KeepsEmpty result (M.seen medium.old) (M.seen medium.new) geometry file sides side }
    ensures linked { NameSides result (M.seen medium.old) (M.seen medium.new) geometry file sides side }
    ensures only { OnlyContent geometry result (M.seen medium.old) (M.seen medium.new) }
{
    for passed in 1..sides {
        copy_side(medium, geometry, file, sides, sides - passed, side)?;
    }
    Ok(())
}

/// One side sector more for a file of this many full ones, after its last data block, which it lists.
pub fn add_side<M: Medium>(
    medium: &mut M,
    geometry: Geometry,
    file: Relative,
    sides: u8,
    block: Address,
) -> Result<(), Trouble>
    requires tracks { geometry ≤ (M.seen medium.old).tracks }
    requires sides { (1 ≤ sides) × (sides < 6) }
    requires block { block.track ≤ geometry }
    ensures added { (b1 : ℕ) → b1 ≡ 120 * sides → GrowthGoes result (M.seen medium.old) (M.seen medium.new) geometry
        (OfSideable file b1 sides block) (λ x. OfGrown file (b1 + 1) (sides + 1) block) }
    ensures only { OnlyContent geometry result (M.seen medium.old) (M.seen medium.new) }
{
    let side = open_side(medium, geometry, file, sides, block)?;
    copy_sides(medium, geometry, file, sides, side)?;
    copy_side(medium, geometry, file, sides, 0, side)
}

/// How far a relative file reaches: its data blocks, its side sectors, and its last data block.
#[derive(Clone, Copy)]
pub struct Reach {
    pub blocks: u16,
    pub sides: u8,
    pub last: Address,
}

/// One data block more, full of fresh records and listed, with a side sector more if all are full.
pub fn grow_once<M: Medium>(
    medium: &mut M,
    geometry: Geometry,
    file: Relative,
    reach: Reach,
) -> Result<Reach, Trouble>
    requires tracks { geometry ≤ (M.seen medium.old).tracks }
    requires last { reach.last.track ≤ geometry }
    requires length { (1 ≤ file.width) × (file.width ≤ 254) }
    requires blocks { (1 ≤ reach.blocks) × (reach.blocks < 720) }
    requires sides { reach.sides ≤ 6 }
    ensures grown { GrowsTo result (M.seen medium.old) (M.seen medium.new) geometry file reach (reach.blocks + 1) }
    ensures bound { IfOk result
        (λ x. (x.blocks ≡ reach.blocks + 1) × (x.last.track ≤ geometry) × (x.sides ≤ 6)) }
    ensures only { OnlyContent geometry result (M.seen medium.old) (M.seen medium.new) }
{
    let block = lengthen_file(medium, geometry, file, reach.blocks, reach.last)?;
    let blocks = reach.blocks + 1;
    if reach.blocks == 120 * reach.sides as u16 {
        add_side(medium, geometry, file, reach.sides, block)?;
        return Ok(Reach {
            blocks,
            sides: reach.sides + 1,
            last: block,
        });
    }
    list_last(medium, geometry, file, reach.blocks, block)?;
    Ok(Reach {
        blocks,
        sides: reach.sides,
        last: block,
    })
}

/// So many data blocks more, one after another.
pub fn grow_blocks<M: Medium>(
    medium: &mut M,
    geometry: Geometry,
    file: Relative,
    from: Reach,
    count: u16,
) -> Result<Reach, Trouble>
    requires tracks { geometry ≤ (M.seen medium.old).tracks }
    requires last { from.last.track ≤ geometry }
    requires length { (1 ≤ file.width) × (file.width ≤ 254) }
    requires blocks { (1 ≤ from.blocks) × (from.blocks + count ≤ 720) }
    requires sides { from.sides ≤ 6 }
    ensures grown { GrowsTo result (M.seen medium.old) (M.seen medium.new) geometry file from (from.blocks + count) }
    ensures bound { IfOk result (λ x. (x.blocks ≡ from.blocks + count) × (x.sides ≤ 6)) }
    ensures only { OnlyContent geometry result (M.seen medium.old) (M.seen medium.new) }
{
    let mut reach = from;
    for passed in 0..count {
        reach = grow_once(medium, geometry, file, reach)?;
    }
    Ok(reach)
}
