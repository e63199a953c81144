// A record of a relative file that is there is written, where it lies.

ghost use Rattle.std.specs.Prelude.{◌≤◌, ◌<◌, ◌==◌, ◌^◌, None};
ghost use Rattle.cbm_volume.specs.RecordWrites.{PutsRecord};
ghost use Rattle.cbm_volume.specs.RecordFaults.{NoneLacksRecord};
ghost use Rattle.cbm_volume.specs.Calls.{OnlyOnDisk};
ghost use Rattle.cbm_relfile.specs.Written.{IsRecordWrite};

use crate::volume::Volume;
use cbm_medium::{Medium, Trouble};
use cbm_relfile::{Relative, WrittenRecord, write_record};

impl<M: Medium> Volume<M> {
    /// Writes these bytes into the record of a number, counted from 1, of the relative file in a slot, from a position
    /// on; what stands before stays, and zeros come after it. Answers whether some bytes didn't fit, and the next record;
    /// or None if the record isn't there: nothing has changed then. On a sound disk an `Err` says that the medium is
    /// protected (26), with nothing changed, or failed by itself; of a record over two blocks the first may be written
    /// then.
    pub fn write_record(
        &mut self,
        slot: u8,
        number: u32,
        position: u8,
        bytes: &[u8],
    ) -> Result<Option<WrittenRecord>, Trouble>
        requires number { (1 ≤ number) × (number < 2 ^ 24) }
        requires position { 1 ≤ position }
        ensures put { PutsRecord result (M.seen self.old) (M.seen self.new) slot number position bytes.now }
        ensures write { IsRecordWrite result (M.seen self.old) (M.seen self.new) number }
        ensures only { OnlyOnDisk result (M.seen self.old) (M.seen self.new) }
        ensures missing { NoneLacksRecord result (M.seen self.old) slot number position }
    {
        write_in_slot(&mut self.medium, slot, number, position, bytes)
    }
}

/// Writes a record of the relative file in a slot.
fn write_in_slot<M: Medium>(
    medium: &mut M,
    slot: u8,
    number: u32,
    position: u8,
    bytes: &[u8],
) -> Result<Option<WrittenRecord>, Trouble>
    requires number { (1 ≤ number) × (number < 2 ^ 24) }
    requires position { 1 ≤ position }
    ensures put { PutsRecord result (M.seen medium.old) (M.seen medium.new) slot number position bytes.now }
    ensures write { IsRecordWrite result (M.seen medium.old) (M.seen medium.new) number }
    ensures only { OnlyOnDisk result (M.seen medium.old) (M.seen medium.new) }
    ensures missing { NoneLacksRecord result (M.seen medium.old) slot number position }
{
    let geometry = cbm_bam::geometry(medium);
    let Some(entry) = cbm_directory::slot(medium, geometry, slot)? else {
        return Ok(None);
    };
    let length = entry.record_length();
    if length == 0 || length == 255 || length < position {
        return Ok(None);
    }
    let file = Relative::new(entry.first_block(), entry.first_side(), length);
    write_record(medium, geometry, file, number, position, bytes)
}
