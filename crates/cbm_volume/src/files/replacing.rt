// A file is to be replaced: what will replace it begins.

ghost use Rattle.std.specs.Prelude.{◌≡◌, ◌≤◌, OnErr, IfOk, IfSome, MatchOption};
ghost use Rattle.cbm_volume.specs.Beginning.{BeginsReplacement, ReplacementLed};
ghost use Rattle.cbm_volume.specs.Calls.{OnlyOnDisk, IsNoneSame};
ghost use Rattle.cbm_volume.specs.Rooms.{HasNoBlock};

use crate::files::filling::FileWriter;
use crate::volume::Volume;
use cbm_chain::ChainWriter;
use cbm_medium::{Medium, Trouble};

impl<M: Medium> Volume<M> {
    /// OPEN with `@` of a file that is there: a first block is claimed for what will replace it, and the old file stays
    /// until CLOSE. None, with nothing changed, if no block is free. An `Err` changes nothing: the map doesn't read,
    /// or its write is refused.
    pub fn begin_replace(&mut self, slot: u8) -> Result<Option<FileWriter>, Trouble>
        ensures call { BeginsReplacement result (M.seen self.old) (M.seen self.new) slot }
        ensures err { OnErr result ((M.seen self.new).content ≡ (M.seen self.old).content) }
        ensures tracks { IfOk result (λ o. IfSome o (λ w. w.chain.tracks ≤ (M.seen self.old).tracks)) }
        ensures led { IfOk result (λ o. MatchOption o (HasNoBlock (M.seen self.old))
            (ReplacementLed (M.seen self.old) (M.seen self.new) slot)) }
        ensures kept { IsNoneSame result (M.seen self.old) (M.seen self.new) }
        ensures only { OnlyOnDisk result (M.seen self.old) (M.seen self.new) }
    {
        let geometry = self.geometry();
        let Some(chain) = ChainWriter::begin(&mut self.medium, geometry)? else {
            return Ok(None);
        };
        Ok(Some(FileWriter {
            slot,
            replaces: true,
            chain,
        }))
    }
}
