// A relative file grows by a block: it is claimed, written and linked to, and then a side sector lists it.

ghost use Rattle.std.specs.Prelude.{◌≡◌, ◌≢◌, ◌≤◌, ◌<◌, ◌/◌, ◌%◌, ◌+◌, ◌-◌, ◌*◌, ℕ, length, slice_index, Ok, IsOk, OnOk, IfOk, IsOkAnd, IfSome, MatchOption, MatchResult};
ghost use Rattle.cbm_medium.specs.Place.{Has, directory_head};
ghost use Rattle.cbm_medium.specs.Seen.{OnlyContent};
ghost use Rattle.cbm_bam.specs.Map.{IsFull, map_of};
ghost use Rattle.cbm_relfile.specs.Growing.{fresh_place, IsLengthened, IsLengthenStopped, ListsMore, ListsSide, IsNewSide, IsSideBegun, IsBlockListed, IsSideLinked, OfSideAt, ListsBlock, LinksSide};
ghost use Rattle.cbm_relfile.specs.Records.{OfSector};
ghost use Rattle.cbm_relfile.specs.SideSectors.{listed_side};

use crate::growth::fresh::{fresh_from, full_end};
use crate::relative::Relative;
use crate::sectors::read_at;
use crate::side::{BLOCKS, NUMBER, RECORD_LENGTH, SIDES};
use cbm_bam::claim_next;
use cbm_medium::codes::ILLEGAL_LINK;
use cbm_medium::{Address, Geometry, Link, Medium, Trouble};

/// Where in the last of this many full data blocks the first fresh record begins.
fn fresh_place(length: u8, blocks: u16) -> u8
    requires { (1 ≤ length) × (length ≤ 254) }
    ensures value { result ≡ fresh_place length blocks }
    ensures most { result ≤ 254 }
{
    254 - (254 * blocks as u32 % length as u32) as u8
}

/// One data block more for a file of this many full ones, of which this is the last: a block is claimed and filled with
/// fresh records, and then the last one links to it. None if no block is free. An `Err` is why a sector doesn't read or
/// isn't written; a block that was claimed is nobody's then.
pub fn lengthen<M: Medium>(
    medium: &mut M,
    geometry: Geometry,
    last: Address,
    length: u8,
    blocks: u16,
) -> Result<Option<Address>, Trouble>
    requires tracks { geometry ≤ (M.seen medium.old).tracks }
    requires last { last.track ≤ geometry }
    requires length { (1 ≤ length) × (length ≤ 254) }
    requires blocks { (1 ≤ blocks) × (blocks < 65535) }
    ensures lengthened { let old = M.seen medium.old in let new = M.seen medium.new in
        Has geometry last → last.track ≢ 18 → MatchResult result
        (λ o. MatchOption o (IsFull geometry (map_of old.content) × (new.content ≡ old.content))
        (λ q. IsLengthened geometry old.content new.content last length blocks q))
        (λ t. IsLengthenStopped geometry old new last t.code) }
    ensures read { OnOk result (IsOk ((M.seen medium.old).content directory_head)) }
    ensures bound { IfOk result (λ o. IfSome o (λ q. q.track ≤ geometry)) }
    ensures only { OnlyContent geometry result (M.seen medium.old) (M.seen medium.new) }
{
    let sector = medium.read(last)?;
    let Some(block) = claim_next(medium, geometry, last)? else {
        return Ok(None);
    };
    let fresh = fresh_from(&[0; 256], full_end(), 0, length, blocks + 1, blocks);
    medium.write(block, &fresh)?;
    let place = fresh_place(length, blocks);
    let linked = fresh_from(
        &sector,
        Link::from(block),
        place,
        length,
        blocks + 1,
        blocks - 1,
    );
    medium.write(last, &linked)?;
    Ok(Some(block))
}

/// A sector whose bytes are zeros from a place on.
pub fn cut_at(sector: &[u8; 256], place: usize) -> [u8; 256]
    requires { place ≤ 256 }
    ensures whole { length result ≡ 256 }
    ensures front { (i : ℕ) → i < place → slice_index result i ≡ slice_index sector.now i }
    ensures zeros { (i : ℕ) → place ≤ i → slice_index result i ≡ 0 }
{
    let mut new = *sector;
    new[place..].fill(0);
    new
}

/// A side sector that lists a block after this many others; what stood after them is gone.
fn with_block(side: &[u8; 256], number: usize, block: Address) -> [u8; 256]
    requires { number < 120 }
    ensures { ListsMore side.now number block result }
{
    let place = BLOCKS + 2 * number;
    let mut new = cut_at(side, place);
    if new[0] == 0 {
        new[1] = place as u8 + 1;
    }
    new[place] = block.track();
    new[place + 1] = block.sector();
    new
}

/// Lists a block in the side sector of its number, counted from 0, after the blocks that stand there. An `Err` is why a
/// sector doesn't read or isn't written; nothing has changed then.
pub fn list_block<M: Medium>(
    medium: &mut M,
    geometry: Geometry,
    first: Link,
    number: u16,
    block: Address,
) -> Result<(), Trouble>
    requires tracks { geometry ≤ (M.seen medium.old).tracks }
    requires number { number < 720 }
    ensures listed { let old = M.seen medium.old in OfSector geometry old.content first (λ head.
        OfSideAt geometry old.content head (number / 120) (λ at.
        ListsBlock result geometry old (M.seen medium.new) at (number % 120) block)) }
    ensures done { let old = (M.seen medium.old).content in OnOk result (IsOkAnd (old first) (λ head.
        IsBlockListed old (M.seen medium.new).content (listed_side head (number / 120)) (number % 120) block)) }
    ensures only { OnlyContent geometry result (M.seen medium.old) (M.seen medium.new) }
{
    let head = read_at(medium, geometry, first)?;
    let place = SIDES + 2 * (number as usize / 120);
    let at = Link::new(head[place], head[place + 1]);
    let side = read_at(medium, geometry, at)?;
    let Some(address) = at.address(geometry) else {
        return Err(at.trouble(ILLEGAL_LINK));
    };
    medium.write(address, &with_block(&side, number as usize % 120, block))?;
    Ok(())
}

/// A side sector with one more in its list of side sectors, after this many. If the new one is to follow it, it links to
/// that one.
pub fn with_side(side: &[u8; 256], sides: usize, new_side: Address, follows: bool) -> [u8; 256]
    requires { sides < 6 }
    ensures { ListsSide side.now sides new_side follows result }
{
    let mut new = *side;
    if follows {
        new[0] = new_side.track();
        new[1] = new_side.sector();
    }
    let place = SIDES + 2 * sides;
    new[place] = new_side.track();
    new[place + 1] = new_side.sector();
    if sides < 5 {
        new[place + 2] = 0;
        new[place + 3] = 0;
    }
    new
}

/// A new side sector, the one after this many others, that lists one block: byte 17 is the last that is used.
fn last_side(head: &[u8; 256], sides: u8, length: u8, block: Address, side: Address) -> [u8; 256]
    requires { sides < 6 }
    ensures { IsNewSide head.now sides length block side result }
{
    let listed = with_side(head, sides as usize, side, false);
    let mut new = cut_at(&listed, BLOCKS);
    new[0] = 0;
    new[1] = BLOCKS as u8 + 1;
    new[NUMBER] = sides;
    new[RECORD_LENGTH] = length;
    new[BLOCKS] = block.track();
    new[BLOCKS + 1] = block.sector();
    new
}

/// Claims a side sector after a block, for a file that has this many, and writes it: it lists that block alone. None if
/// no block is free. An `Err` is why a sector doesn't read or isn't written; what was claimed is nobody's then.
pub fn begin_side<M: Medium>(
    medium: &mut M,
    geometry: Geometry,
    file: Relative,
    sides: u8,
    block: Address,
) -> Result<Option<Address>, Trouble>
    requires tracks { geometry ≤ (M.seen medium.old).tracks }
    requires sides { sides < 6 }
    requires block { block.track ≤ geometry }
    ensures begun { let old = M.seen medium.old in let new = M.seen medium.new in
        OfSector geometry old.content file.side (λ head. Has geometry block → block.track ≢ 18 → MatchResult result
        (λ o. MatchOption o (IsFull geometry (map_of old.content) × (new.content ≡ old.content))
        (λ t. IsSideBegun geometry old.content new.content head sides file.width block t))
        (λ t. IsLengthenStopped geometry old new file.side t.code)) }
    ensures bound { IfOk result (λ o. IfSome o (λ t. t.track ≤ geometry)) }
    ensures only { OnlyContent geometry result (M.seen medium.old) (M.seen medium.new) }
    ensures reads { OnOk result (IsOk ((M.seen medium.old).content file.side)) }
    ensures read { OnOk result (IsOk ((M.seen medium.old).content directory_head)) }
{
    let head = read_at(medium, geometry, file.side())?;
    let Some(side) = claim_next(medium, geometry, block)? else {
        return Ok(None);
    };
    medium.write(side, &last_side(&head, sides, file.length(), block, side))?;
    Ok(Some(side))
}

/// Puts a new side sector into the list of the side sector of a number, counted from 0, of this many. An `Err` is why a
/// sector doesn't read or isn't written; nothing has changed then.
pub fn link_side<M: Medium>(
    medium: &mut M,
    geometry: Geometry,
    first: Link,
    sides: u8,
    number: u8,
    side: Address,
) -> Result<(), Trouble>
    requires tracks { geometry ≤ (M.seen medium.old).tracks }
    requires number { (number < sides) × (sides < 6) }
    ensures linked { let old = M.seen medium.old in OfSector geometry old.content first (λ head.
        OfSideAt geometry old.content head number (λ at.
        LinksSide result geometry old (M.seen medium.new) at number sides side)) }
    ensures done { let old = (M.seen medium.old).content in OnOk result (IsOkAnd (old first) (λ head.
        IsSideLinked old (M.seen medium.new).content (listed_side head number) number sides side)) }
    ensures only { OnlyContent geometry result (M.seen medium.old) (M.seen medium.new) }
{
    let head = read_at(medium, geometry, first)?;
    let place = SIDES + 2 * number as usize;
    let at = Link::new(head[place], head[place + 1]);
    let bytes = read_at(medium, geometry, at)?;
    let Some(address) = at.address(geometry) else {
        return Err(at.trouble(ILLEGAL_LINK));
    };
    medium.write(
        address,
        &with_side(&bytes, sides as usize, side, number + 1 == sides),
    )?;
    Ok(())
}
