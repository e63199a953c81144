// OPEN for appending.

ghost use Rattle.std.specs.Prelude.{◌≡◌, ◌≤◌, ◌==◌, OnOk, OnErr, IfOk};
ghost use Rattle.cbm_volume.specs.Beginning.{BeginsAppending};
ghost use Rattle.cbm_volume.specs.Calls.{OnlyOnDisk, OfDisk, LeavesFiles};
ghost use Rattle.cbm_volume.specs.Led.{ReopensLed, AppendsTo};

use crate::files::filling::FileWriter;
use crate::volume::Volume;
use cbm_chain::ChainWriter;
use cbm_directory::{Entry, put_slot};
use cbm_medium::{Medium, Trouble};

impl<M: Medium> Volume<M> {
    /// OPEN of a closed file for appending: its entry is no longer closed, and the writer stands after its last byte.
    /// An `Err` changes nothing: on a sound disk it is 26 on a protected medium, or the medium's own failure.
    pub fn begin_append(&mut self, slot: u8, entry: &Entry) -> Result<FileWriter, Trouble>
        ensures begun { BeginsAppending result (M.seen self.old) (M.seen self.new) slot entry.now }
        ensures err { OnErr result ((M.seen self.new).content ≡ (M.seen self.old).content) }
        ensures untouched { OfDisk (M.seen self.old) (λ d uses. LeavesFiles (M.seen self.old) (M.seen self.new) (λ m. m == slot)) }
        ensures led { OnOk result (ReopensLed (M.seen self.old) (M.seen self.new) slot entry.now) }
        ensures writer { IfOk result (AppendsTo (M.seen self.old) slot entry.now) }
        ensures tracks { IfOk result (λ w. w.chain.tracks ≤ (M.seen self.old).tracks) }
        ensures only { OnlyOnDisk result (M.seen self.old) (M.seen self.new) }
    {
        let geometry = self.geometry();
        let chain = ChainWriter::after(&self.medium, geometry, entry.first_block())?;
        let reopened = entry.reopened();
        put_slot(&mut self.medium, geometry, slot, &reopened)?;
        Ok(FileWriter {
            slot,
            replaces: false,
            chain,
        })
    }
}
