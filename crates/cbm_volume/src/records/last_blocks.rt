// A relative file that grows: its last data block is filled up with fresh records.

ghost use Rattle.std.specs.Prelude.{◌≡◌, ◌≤◌, ◌*◌, ℕ, length, IfOk};
ghost use Rattle.cbm_medium.specs.Place.{Has};
ghost use Rattle.cbm_medium.specs.Seen.{OnlyContent};
ghost use Rattle.cbm_chain.specs.Data.{chain_bytes};
ghost use Rattle.cbm_volume.specs.Calls.{IsLeftAlone};
ghost use Rattle.cbm_volume.specs.GrowthBegins.{FillsLast};
ghost use Rattle.cbm_volume.specs.Growing.{LeavesAside, OfSized};

use cbm_medium::{Address, Geometry, Medium, Trouble};
use cbm_relfile::{Relative, fill_up};

/// Fills up the last data block of a file of this many with fresh records, which begin after the last whole record, and
/// answers where that block is. Where fresh records begin in the block before, that one is written first. An `Err` is why
/// a block isn't written: the file has its records still.
pub(crate) fn fill_last<M: Medium>(
    medium: &mut M,
    geometry: Geometry,
    file: Relative,
    blocks: u16,
) -> Result<Address, Trouble>
    requires tracks { geometry ≤ (M.seen medium.old).tracks }
    requires length { (1 ≤ file.width) × (file.width ≤ 254) }
    requires some { 1 ≤ blocks }
    ensures filled { FillsLast result (M.seen medium.old) (M.seen medium.new) geometry file blocks }
    ensures full { let old = M.seen medium.old in (n s : ℕ) → OfSized geometry old file n blocks s (λ d uses w rs o.
        length (chain_bytes old.content (o.holds.layout.files n).data_blocks) ≡ 254 * blocks → IsLeftAlone result old (M.seen medium.new)) }
    // All but the file is as it was.
    ensures aside { let old = M.seen medium.old in (n s : ℕ) → OfSized geometry old file n blocks s (λ d uses w rs o.
        LeavesAside n old.content o.holds.layout (M.seen medium.new).content o.holds.layout) }
    ensures bound { IfOk result (λ at. Has geometry at) }
    ensures only { OnlyContent geometry result (M.seen medium.old) (M.seen medium.new) }
{
    // Each sector that reads has 256 bytes.
    let _tracks = medium.tracks();
    fill_up(medium, geometry, file, blocks)
}
