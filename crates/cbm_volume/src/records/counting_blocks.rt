// A relative file that grew: its entry says how many blocks it has.

ghost use Rattle.std.specs.Prelude.{◌≤◌, ◌==◌, true, IfErr};
ghost use Rattle.cbm_medium.specs.Seen.{OnlyContent};
ghost use Rattle.cbm_volume.specs.BlockCounts.{CountsBlocks, OfHeldLayout, OnlyDirectory};
ghost use Rattle.cbm_volume.specs.Reaches.{KeepsEntries};

use cbm_directory::put_slot;
use cbm_medium::{Geometry, Medium, Trouble};

/// Writes into the entry of a slot that its file has this many blocks; all else of it stays. An `Err` changes nothing: on a
/// sound disk it is 26 on a protected medium, or the medium's own failure.
pub(crate) fn tell_blocks<M: Medium>(
    medium: &mut M,
    geometry: Geometry,
    slot: u8,
    blocks: u16,
) -> Result<(), Trouble>
    requires { geometry ≤ (M.seen medium.old).tracks }
    ensures told { CountsBlocks result (M.seen medium.old) (M.seen medium.new) geometry slot blocks }
    ensures elsewhere { OfHeldLayout geometry (M.seen medium.old)
        (λ l. OnlyDirectory l (M.seen medium.old).content (M.seen medium.new).content) }
    // The entries of all other closed files lead where they led.
    ensures entries { OfHeldLayout geometry (M.seen medium.old)
        (λ l. KeepsEntries l (M.seen medium.old).content (M.seen medium.new).content (λ m. m == slot)) }
    ensures only { OnlyContent geometry result (M.seen medium.old) (M.seen medium.new) }
{
    let Some(entry) = cbm_directory::slot(medium, geometry, slot)? else {
        return Ok(());
    };
    let counted = entry.counted(blocks);
    put_slot(medium, geometry, slot, &counted)
}
