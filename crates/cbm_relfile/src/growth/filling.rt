// The last data block of a file is filled up with fresh records.

ghost use Rattle.std.specs.Prelude.{◌≡◌, ◌≢◌, ◌≤◌, ◌<◌, ◌*◌, ◌-◌, ◌⊎◌, ℕ, List, length, slice_index_or, Ok, Some, true, IsOk, IfOk, IfErr, IsOkAnd, OnOk, OnErr, MatchResult};
ghost use Rattle.cbm_medium.specs.Place.{Place, Has, directory_head, sector_count};
ghost use Rattle.cbm_medium.specs.Links.{link, Chain};
ghost use Rattle.cbm_medium.specs.Met.{IsMetFrom, place_of};
ghost use Rattle.cbm_medium.specs.Seen.{ShowsGround, OnlyContent};
ghost use Rattle.cbm_chain.specs.Data.{chain_bytes};
ghost use Rattle.cbm_relfile.specs.Records.{OfRelative};
ghost use Rattle.cbm_relfile.specs.Counting.{BlocksLeadTo, IsBlockThere};
ghost use Rattle.cbm_relfile.specs.Filling.{IsTailFilled, IsFilledUp, IsFillStopped};
ghost use Rattle.cbm_relfile.specs.Changing.{IsWriteRefused};

use crate::growth::fresh::{fresh_from, full_end};
use crate::relative::Relative;
use crate::sectors::{bytes_of, nth_block};
use cbm_medium::codes::{ENDLESS_CHAIN, ILLEGAL_LINK};
use cbm_medium::{Address, Geometry, Link, Medium, Trouble};

/// The block of a chain with this number, counted from 0, and its bytes. An `Err` is why it isn't there: 66, 71 or the
/// medium's fault.
fn block_there<M: Medium>(
    medium: &M,
    geometry: Geometry,
    first: Link,
    number: u32,
) -> Result<(Address, [u8; 256]), Trouble>
    requires { geometry ≤ (M.seen medium.now).tracks }
    ensures there { (blocks : List Place) → Chain geometry (M.seen medium.now).content first blocks →
        length blocks ≤ sector_count geometry → number < length blocks →
        IsOkAnd result (λ r. r.0 ≡ slice_index_or blocks number directory_head) }
    ensures reads { IfOk result (λ r. (M.seen medium.now).content r.0 ≡ Ok r.1) }
    ensures has { IfOk result (λ r. Has geometry r.0) }
    // The content shows why, or the chain has no such block.
    ensures err { IfErr result (λ t. IsMetFrom geometry (M.seen medium.now).content (λ q. q ≡ first) t ⊎
        ((t.code ≡ 71) × (place_of t ≡ first))) }
    ensures never_26 { IfErr result (λ t. t.code ≢ 26) }
    ensures shown { IfErr result (ShowsGround (M.seen medium.now)) }
    ensures led { IfOk result (λ r. BlocksLeadTo geometry (M.seen medium.now).content first number r.0) }
{
    let Some(at) = nth_block(medium, geometry, first, number)? else {
        return Err(first.trouble(ENDLESS_CHAIN));
    };
    let Some(address) = at.address(geometry) else {
        return Err(at.trouble(ILLEGAL_LINK));
    };
    let bytes = medium.read(address)?;
    Ok((address, bytes))
}

/// Fills up the block before the last one of a file of this many, if fresh records begin in it, from a place of the file
/// on.
fn fill_tail<M: Medium>(
    medium: &mut M,
    geometry: Geometry,
    file: Relative,
    blocks: u16,
    from: u32,
) -> Result<(), Trouble>
    requires tracks { geometry ≤ (M.seen medium.old).tracks }
    requires length { 1 ≤ file.width }
    requires some { 1 ≤ blocks }
    requires begin { 254 * (blocks - 2) ≤ from }
    ensures laid { let old = M.seen medium.old in let new = M.seen medium.new in (xs : List Place) →
        Chain geometry old.content file.first xs → length xs ≤ sector_count geometry → length xs ≡ blocks →
        MatchResult result (λ x. IsTailFilled old.content new.content xs file.width from)
        (λ t. (new.content ≡ old.content) × IsWriteRefused geometry old new t.code) }
    ensures only { OnlyContent geometry result (M.seen medium.old) (M.seen medium.new) }
    // No fresh record begins in the block before, or it is there.
    ensures reads { OnOk result ((254 * (blocks - 1) ≤ from) ⊎
        IsBlockThere geometry (M.seen medium.old).content file.first (blocks - 2)) }
{
    if 254 * (blocks as u32 - 1) <= from {
        return Ok(());
    }
    let number = blocks - 2;
    let (at, sector) = block_there(medium, geometry, file.first(), number as u32)?;
    let place = (from - 254 * number as u32) as u8;
    let next = Link::of(&sector);
    let new = fresh_from(&sector, next, place, file.length(), blocks, number);
    medium.write(at, &new)?;
    Ok(())
}

/// Fills up the last data block of a file of this many with fresh records, which begin after the last whole one, maybe in
/// the block before; then that one is written first. Nothing is written where the last block is full. Answers where the
/// last block is. An `Err` is why a sector isn't written; the block before may be written then.
pub fn fill_up<M: Medium>(
    medium: &mut M,
    geometry: Geometry,
    file: Relative,
    blocks: u16,
) -> Result<Address, Trouble>
    requires tracks { geometry ≤ (M.seen medium.old).tracks }
    requires length { (1 ≤ file.width) × (file.width ≤ 254) }
    requires some { 1 ≤ blocks }
    ensures laid { let old = M.seen medium.old in let new = M.seen medium.new in
        OfRelative geometry old.content file (λ xs sides. length xs ≡ blocks → MatchResult result
        (λ at. (at ≡ slice_index_or xs (blocks - 1) directory_head) × IsFilledUp old.content new.content xs file.width)
        (λ t. IsFillStopped geometry old new xs file.width t.code)) }
    ensures full { let old = M.seen medium.old in OfRelative geometry old.content file (λ xs sides. length xs ≡ blocks →
        length (chain_bytes old.content xs) ≡ 254 * blocks →
        IsOk result × ((M.seen medium.new).content ≡ old.content)) }
    ensures bound { IfOk result (λ at. Has geometry at) }
    ensures only { OnlyContent geometry result (M.seen medium.old) (M.seen medium.new) }
    ensures led { IfOk result (BlocksLeadTo geometry (M.seen medium.old).content file.first (blocks - 1)) }
{
    let number = blocks - 1;
    let (at, sector) = block_there(medium, geometry, file.first(), number as u32)?;
    let used = bytes_of(&sector).len() as u32;
    if used == 254 {
        return Ok(at);
    }
    let begin = 254 * number as u32;
    let length = file.length() as u32;
    let from = (begin + used) / length * length;
    fill_tail(medium, geometry, file, blocks, from)?;
    let place = from.saturating_sub(begin) as u8;
    let new = fresh_from(&sector, full_end(), place, file.length(), blocks, number);
    medium.write(at, &new)?;
    Ok(at)
}
