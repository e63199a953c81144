// A record is written in place.

ghost use Rattle.std.specs.Prelude.{◌≡◌, ◌≤◌, ◌<◌, ◌+◌, ◌^◌, None, length, option_map, IfOk, IfNone, IfSome, IsOkAnd, MatchResult};
ghost use Rattle.cbm_medium.specs.Seen.{OnlyContent};
ghost use Rattle.cbm_file.specs.Records.{with_bytes};
ghost use Rattle.cbm_chain.specs.Data.{chain_bytes};
ghost use Rattle.cbm_relfile.specs.Records.{OfRelative, record_in};
ghost use Rattle.cbm_relfile.specs.Changing.{IsChangedIfThere, IsChangeStopped};
ghost use Rattle.cbm_relfile.specs.Missing.{IsRecordMissing};
ghost use Rattle.cbm_relfile.specs.Written.{IsRecordWrite, MissesNext};

use crate::reading::{Record, block_at, joined, next_stretch, stretch};
use crate::relative::Relative;
use crate::sectors::read_at;
use crate::writing::rewrite;
use cbm_medium::codes::WRITE_PROTECT_ON;
use cbm_medium::{Geometry, Medium, Trouble};

/// What stands after the bytes of a record.
const ZEROS: [u8; 254] = [0; 254];

/// A record that keeps what stands before a position, counted from 1; then come these bytes, as far as they fit, and
/// zeros.
fn changed(old: &Record, position: u8, bytes: &[u8]) -> Record
    requires { (1 ≤ position) × (position ≤ length old.now.items) }
    ensures { result.items ≡ with_bytes (length old.now.items) old.now.items position bytes.now }
{
    let before = position as usize - 1;
    let room = (old.len() - before).min(bytes.len());
    let front = joined(&old[..before], &bytes[..room]);
    joined(&front, &ZEROS[..old.len() - front.len()])
}

/// A record that was written in place.
#[derive(Drop)]
pub struct WrittenRecord {
    /// Whether some bytes didn't fit.
    pub cut: bool,
    /// The next record, None if it isn't there; or why it doesn't read.
    pub next: Result<Option<Record>, Trouble>,
}

/// Writes these bytes into the record of a number, counted from 1, from a position on; what stands before stays, and zeros
/// come after them. The next record is read, too, since its block is at hand. None if the record isn't there: nothing is
/// written then. An `Err` is why a sector isn't written; of a record over two blocks the first may be written then.
pub fn write_record<M: Medium>(
    medium: &mut M,
    geometry: Geometry,
    file: Relative,
    number: u32,
    position: u8,
    bytes: &[u8],
) -> Result<Option<WrittenRecord>, Trouble>
    requires tracks { geometry ≤ (M.seen medium.old).tracks }
    requires number { (1 ≤ number) × (number < 2 ^ 24) }
    requires length { (1 ≤ file.width) × (file.width ≤ 254) }
    requires position { (1 ≤ position) × (position ≤ file.width) }
    ensures laid { let old = M.seen medium.old in let new = M.seen medium.new in
        OfRelative geometry old.content file (λ blocks sides. MatchResult result
        (λ o. IsChangedIfThere old.content new.content blocks file.width number position bytes.now
        (option_map (λ r. r.cut) o))
        (λ t. IsChangeStopped geometry old new blocks file.width number position bytes.now t.code)) }
    ensures next { let content = (M.seen medium.old).content in OfRelative geometry content file (λ blocks sides.
        IfOk result (λ o. IfSome o (λ r. IsOkAnd r.next (λ x. option_map (λ y. y.items) x
        ≡ record_in file.width (chain_bytes content blocks) (number + 1))))) }
    ensures write { IsRecordWrite result (M.seen medium.old) (M.seen medium.new) number }
    ensures only { OnlyContent geometry result (M.seen medium.old) (M.seen medium.new) }
    ensures missing { IfOk result (λ o. IfNone o (IsRecordMissing geometry (M.seen medium.old).content file number)) }
    ensures misses_next { MissesNext result geometry (M.seen medium.old).content file number }
{
    let from = (number - 1) * file.length() as u32;
    let Some(at) = block_at(medium, geometry, file, from / 254)? else {
        return Ok(None);
    };
    let sector = read_at(medium, geometry, at)?;
    let place = (from % 254) as usize;
    let Some(old) = stretch(medium, geometry, &sector, place, file.length())? else {
        return Ok(None);
    };
    if medium.protected() {
        return Err(Trouble {
            code: WRITE_PROTECT_ON,
            track: 0,
            sector: 0,
        });
    }
    let next = next_stretch(medium, geometry, &sector, place, file.length());
    let new = changed(&old, position, bytes);
    if !rewrite(medium, geometry, at, &sector, place, &new)? {
        return Ok(None);
    }
    let cut = old.len() - (position as usize - 1) < bytes.len();
    Ok(Some(WrittenRecord { cut, next }))
}
