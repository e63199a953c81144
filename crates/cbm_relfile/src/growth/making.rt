// A new relative file: one block of fresh records, and one side sector that lists it.

ghost use Rattle.std.specs.Prelude.{◌≡◌, ◌≤◌, IsOk, IfOk, IfErr, IfSome, OnOk};
ghost use Rattle.cbm_medium.specs.Place.{directory_head};
ghost use Rattle.cbm_medium.specs.Seen.{OnlyContent};
ghost use Rattle.cbm_relfile.specs.Making.{one_listed, IsFreshBlock, IsClaimStopped, IsNewRelfile, IsNewStopped, ClaimsTwo};

use crate::growth::fresh::{fresh_from, full_end};
use crate::side::{BLOCKS, RECORD_LENGTH, SIDES};
use cbm_bam::{claim_first, claim_next};
use cbm_medium::{Address, Geometry, Medium, Trouble};

/// The only block of a file, with as many fresh records as it has room for.
fn fresh_block(length: u8) -> [u8; 256]
    requires { 1 ≤ length }
    ensures { IsFreshBlock length result }
{
    fresh_from(&[0; 256], full_end(), 0, length, 1, 0)
}

/// The only side sector of a file, which lists itself and the file's only block.
fn first_side(block: Address, side: Address, length: u8) -> [u8; 256]
    ensures { result ≡ one_listed block side length }
{
    let mut bytes = [0; 256];
    bytes[1] = BLOCKS as u8 + 1;
    bytes[RECORD_LENGTH] = length;
    bytes[SIDES] = side.track();
    bytes[SIDES + 1] = side.sector();
    bytes[BLOCKS] = block.track();
    bytes[BLOCKS + 1] = block.sector();
    bytes
}

/// Claims a block for a new relative file, and its side sector after it. None if fewer than two blocks are free: one
/// may be claimed then. An `Err` is the fault of 18/0, which doesn't read or isn't written; the block may be claimed then.
pub fn claim_two<M: Medium>(
    medium: &mut M,
    geometry: Geometry,
) -> Result<Option<(Address, Address)>, Trouble>
    requires { geometry ≤ (M.seen medium.old).tracks }
    ensures claimed { IfOk result (ClaimsTwo geometry (M.seen medium.old).content (M.seen medium.new).content) }
    ensures read { OnOk result (IsOk ((M.seen medium.old).content directory_head)) }
    ensures bound { IfOk result (λ o. IfSome o (λ r. (r.0.track ≤ geometry) × (r.1.track ≤ geometry))) }
    ensures stopped { IfErr result (λ t. IsClaimStopped geometry (M.seen medium.old) (M.seen medium.new) t.code) }
    ensures only { OnlyContent geometry result (M.seen medium.old) (M.seen medium.new) }
{
    let Some(block) = claim_first(medium, geometry)? else {
        return Ok(None);
    };
    prove!(block.track() <= 40);
    let Some(side) = claim_next(medium, geometry, block)? else {
        return Ok(None);
    };
    Ok(Some((block, side)))
}

/// Writes a block of fresh records, and then the side sector that lists it. An `Err` is why one of them isn't written;
/// the block may be written then.
pub fn write_new<M: Medium>(
    medium: &mut M,
    geometry: Geometry,
    block: Address,
    side: Address,
    length: u8,
) -> Result<(), Trouble>
    requires tracks { geometry ≤ (M.seen medium.old).tracks }
    requires places { (block.track ≤ geometry) × (side.track ≤ geometry) }
    requires length { 1 ≤ length }
    ensures written { OnOk result (IsNewRelfile (M.seen medium.old).content (M.seen medium.new).content block side length) }
    ensures stopped { IfErr result (λ t. IsNewStopped (M.seen medium.old) (M.seen medium.new) block side t.code) }
    ensures only { OnlyContent geometry result (M.seen medium.old) (M.seen medium.new) }
{
    medium.write(block, &fresh_block(length))?;
    medium.write(side, &first_side(block, side, length))?;
    Ok(())
}
