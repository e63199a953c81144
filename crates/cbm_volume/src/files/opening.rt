// OPEN of a new file for writing.

ghost use Rattle.std.specs.Prelude.{◌≤◌, length, IfOk, IfSome, MatchOption};
ghost use Rattle.cbm_volume.specs.Beginning.{BeginsNewFile, NewFileLed};
ghost use Rattle.cbm_volume.specs.Calls.{OnlyOnDisk, IsNoneSame};
ghost use Rattle.cbm_volume.specs.Rooms.{FindsNoPlace};

use crate::files::filling::FileWriter;
use crate::volume::Volume;
use cbm_bam::free_bits;
use cbm_chain::ChainWriter;
use cbm_directory::{Entry, empty_slot, put_slot};
use cbm_file::FileType;
use cbm_medium::{Medium, Trouble};

impl<M: Medium> Volume<M> {
    /// OPEN of a new file for writing: the first empty slot takes the name, not closed, and a first block is
    /// claimed; if no slot is empty the directory grows. None if no block is free, or no slot is empty and
    /// track 18 has no free sector: then nothing has changed. An `Err` leaves each slot as it was, with at most a
    /// sector of track 18 and a block less free.
    pub fn begin_write(
        &mut self,
        kind: FileType,
        name: &[u8],
    ) -> Result<Option<FileWriter>, Trouble>
        requires { length name.now ≤ 16 }
        ensures call { BeginsNewFile result (M.seen self.old) (M.seen self.new) kind name.now }
        ensures tracks { IfOk result (λ o. IfSome o (λ w. w.chain.tracks ≤ (M.seen self.old).tracks)) }
        ensures led { IfOk result (λ o. MatchOption o (FindsNoPlace (M.seen self.old))
            (NewFileLed (M.seen self.old) (M.seen self.new) kind name.now)) }
        ensures kept { IsNoneSame result (M.seen self.old) (M.seen self.new) }
        ensures only { OnlyOnDisk result (M.seen self.old) (M.seen self.new) }
    {
        let geometry = self.geometry();
        if free_bits(&self.medium, geometry)? == 0 {
            return Ok(None);
        }
        let Some(slot) = empty_slot(&mut self.medium, geometry)? else {
            return Ok(None);
        };
        let Some(chain) = ChainWriter::begin(&mut self.medium, geometry)? else {
            return Ok(None);
        };
        let entry = Entry::fresh(kind, name, chain.first_block());
        put_slot(&mut self.medium, geometry, slot, &entry)?;
        Ok(Some(FileWriter::of_new(slot, chain)))
    }
}
