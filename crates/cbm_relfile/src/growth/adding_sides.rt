// A side sector more for a file whose side sectors can't list all its blocks.

ghost use Rattle.std.specs.Prelude.{◌≡◌, ◌≢◌, ◌≤◌, ◌<◌, find, Some, Ok, IsOk, OnOk, IfOk, IfSome, MatchOption, MatchResult};
ghost use Rattle.cbm_medium.specs.Place.{directory_head};
ghost use Rattle.cbm_medium.specs.Seen.{OnlyContent};
ghost use Rattle.cbm_bam.specs.Map.{IsFull, is_free_in, map_of};
ghost use Rattle.cbm_bam.specs.Orders.{next_order};
ghost use Rattle.cbm_relfile.specs.AddingSides.{IsEmptySide, IsEmptyBegun};
ghost use Rattle.cbm_relfile.specs.Growing.{IsLengthenStopped};
ghost use Rattle.cbm_relfile.specs.Records.{OfSector};

use crate::growth::growing::{cut_at, with_side};
use crate::relative::Relative;
use crate::sectors::read_at;
use crate::side::{BLOCKS, NUMBER, RECORD_LENGTH};
use cbm_bam::claim_next;
use cbm_medium::codes::ILLEGAL_LINK;
use cbm_medium::{Address, Geometry, Medium, Trouble};

/// A new side sector, the one after this many others, that lists no block.
fn empty_side(head: &[u8; 256], sides: u8, length: u8, side: Address) -> [u8; 256]
    requires { sides < 6 }
    ensures { IsEmptySide head.now sides length side result }
{
    let listed = with_side(head, sides as usize, side, false);
    let mut new = cut_at(&listed, BLOCKS);
    new[0] = 0;
    new[1] = BLOCKS as u8 - 1;
    new[NUMBER] = sides;
    new[RECORD_LENGTH] = length;
    new
}

/// Claims a side sector after the first one, for a file that has this many, and writes it: it lists no block. None if no
/// block is free. An `Err` is why a sector doesn't read or isn't written; what was claimed is nobody's then.
pub fn begin_empty_side<M: Medium>(
    medium: &mut M,
    geometry: Geometry,
    file: Relative,
    sides: u8,
) -> Result<Option<Address>, Trouble>
    requires tracks { geometry ≤ (M.seen medium.old).tracks }
    requires sides { sides < 6 }
    ensures begun { let old = M.seen medium.old in let new = M.seen medium.new in
        OfSector geometry old.content file.side (λ head. file.side.track ≢ 18 → MatchResult result
        (λ o. MatchOption o (IsFull geometry (map_of old.content) × (new.content ≡ old.content))
        (λ t. IsEmptyBegun geometry old.content new.content head sides file.width t))
        (λ t. IsLengthenStopped geometry old new file.side t.code)) }
    ensures next { IfOk result (λ o. IfSome o (λ t. find (is_free_in (map_of (M.seen medium.old).content))
        (next_order geometry file.side) ≡ Some t)) }
    ensures bound { IfOk result (λ o. IfSome o (λ t. t.track ≤ geometry)) }
    ensures only { OnlyContent geometry result (M.seen medium.old) (M.seen medium.new) }
    ensures reads { OnOk result (IsOk ((M.seen medium.old).content file.side)) }
    ensures read { OnOk result (IsOk ((M.seen medium.old).content directory_head)) }
{
    let first = file.side();
    let head = read_at(medium, geometry, first)?;
    let Some(at) = first.address(geometry) else {
        return Err(first.trouble(ILLEGAL_LINK));
    };
    let Some(side) = claim_next(medium, geometry, at)? else {
        return Ok(None);
    };
    medium.write(side, &empty_side(&head, sides, file.length(), side))?;
    Ok(Some(side))
}
