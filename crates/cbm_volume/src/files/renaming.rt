// RENAME: a slot's entry gets another name.

ghost use Rattle.std.specs.Prelude.{◌≡◌, ◌≤◌, Some, length, OnOk, OnErr};
ghost use Rattle.cbm_volume.specs.Calls.{OnlyOnDisk, OfDisk, IsOneWrite, IsRenamed};
ghost use Rattle.cbm_volume.specs.Led.{RenamesLed};

use crate::volume::Volume;
use cbm_directory::put_slot;
use cbm_medium::{Medium, Trouble};

impl<M: Medium> Volume<M> {
    /// RENAME: the entry of a slot gets another name of at most sixteen bytes, which ends before the first $A0. All
    /// else of its file stays, and channels that read it go on. An `Err` changes nothing: on a sound disk it is 26 on a
    /// protected medium, or the medium's own failure.
    pub fn rename(&mut self, slot: u8, name: &[u8]) -> Result<(), Trouble>
        requires { length name.now ≤ 16 }
        ensures call { let old = M.seen self.old in let new = M.seen self.new in
            OfDisk old (λ d uses. IsOneWrite result old new (λ x. IsRenamed old.tracks new.content d uses slot name.now)) }
        ensures err { OnErr result ((M.seen self.new).content ≡ (M.seen self.old).content) }
        ensures led { OnOk result (RenamesLed (M.seen self.old) (M.seen self.new) slot name.now) }
        ensures only { OnlyOnDisk result (M.seen self.old) (M.seen self.new) }
    {
        let Some(entry) = self.slot(slot)? else {
            return Ok(());
        };
        let geometry = self.geometry();
        let renamed = entry.renamed(name);
        put_slot(&mut self.medium, geometry, slot, &renamed)
    }
}
