// A relative file begins to grow: its side sectors are in the drive's form, and its last data block is full.

ghost use Rattle.std.specs.Prelude.{◌≡◌, ◌≤◌, ◌*◌, ℕ, IfOk};
ghost use Rattle.cbm_medium.specs.Seen.{OnlyContent};
ghost use Rattle.cbm_volume.specs.GrowthBegins.{BeginsListed, BeginsGrowth, KeepsReady};
ghost use Rattle.cbm_volume.specs.Growing.{OfSized};

use crate::records::adding_sides::add_sides;
use crate::records::growing_blocks::Reach;
use crate::records::last_blocks::fill_last;
use crate::records::relisting::list_anew;
use cbm_medium::{Address, Geometry, Medium, Trouble};
use cbm_relfile::Relative;

/// Brings a file of this many data blocks and side sectors, which can list them all, to where it grows block by block: each
/// side sector lists its next 120 blocks, and the last data block, of which the place is answered, is full. An `Err` is
/// why a sector isn't written: the file has its records still.
fn begin_listed<M: Medium>(
    medium: &mut M,
    geometry: Geometry,
    file: Relative,
    blocks: u16,
    sides: u8,
) -> Result<Address, Trouble>
    requires tracks { geometry ≤ (M.seen medium.old).tracks }
    requires length { (1 ≤ file.width) × (file.width ≤ 254) }
    requires some { 1 ≤ blocks }
    requires sides { sides ≤ 6 }
    ensures begun { BeginsListed result (M.seen medium.old) (M.seen medium.new) geometry file blocks sides }
    ensures ready { let old = M.seen medium.old in (n : ℕ) → OfSized geometry old file n blocks sides (λ d uses w rs o.
        KeepsReady result old (M.seen medium.new) o.holds.layout n blocks) }
    ensures bound { IfOk result (λ at. at.track ≤ geometry) }
    ensures only { OnlyContent geometry result (M.seen medium.old) (M.seen medium.new) }
{
    list_anew(medium, geometry, file, sides)?;
    fill_last(medium, geometry, file, blocks)
}

/// Brings a file of this many data blocks and side sectors to where it grows block by block: it has as many side sectors as
/// list them all, each lists its next 120 blocks, and the last data block is full. A file that this drive wrote is left as
/// it is. An `Err` is why a sector isn't written: the file has its records still.
pub fn begin_growth<M: Medium>(
    medium: &mut M,
    geometry: Geometry,
    file: Relative,
    blocks: u16,
    sides: u8,
) -> Result<Reach, Trouble>
    requires tracks { geometry ≤ (M.seen medium.old).tracks }
    requires length { (1 ≤ file.width) × (file.width ≤ 254) }
    requires blocks { (1 ≤ blocks) × (blocks ≤ 720) }
    requires sides { sides ≤ 6 }
    ensures begun { BeginsGrowth result (M.seen medium.old) (M.seen medium.new) geometry file blocks sides }
    ensures ready { let old = M.seen medium.old in (n : ℕ) → OfSized geometry old file n blocks sides (λ d uses w rs o.
        blocks ≤ 120 * sides → KeepsReady result old (M.seen medium.new) o.holds.layout n blocks) }
    ensures bound { IfOk result (λ x. (x.blocks ≡ blocks) × (x.sides ≤ 6) × (x.last.track ≤ geometry)) }
    ensures only { OnlyContent geometry result (M.seen medium.old) (M.seen medium.new) }
{
    let sides = add_sides(medium, geometry, file, blocks, sides)?;
    let last = begin_listed(medium, geometry, file, blocks, sides)?;
    Ok(Reach {
        blocks,
        sides,
        last,
    })
}
