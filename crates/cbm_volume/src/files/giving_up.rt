// A replacement that is given up.

ghost use Rattle.std.specs.Prelude.{◌≤◌, OnOk};
ghost use Rattle.cbm_medium.specs.Seen.{OnlyContent};
ghost use Rattle.cbm_chain.specs.GivenUp.{GivesUpLed};
ghost use Rattle.cbm_volume.specs.Filled.{GivesUpWriting};

use crate::files::filling::FileWriter;
use crate::volume::Volume;
use cbm_medium::{Medium, Trouble};

impl<M: Medium> Volume<M> {
    /// CLOSE of a replacement after the disk was full: the new chain's blocks are given back in one write, and the old
    /// file stays. An `Err`, by 26 on a protected medium or by the medium's own failure, leaves the disk as it was, and
    /// these blocks to nobody.
    pub fn give_up(&mut self, writer: &FileWriter) -> Result<(), Trouble>
        requires { writer.now.chain.tracks ≤ (M.seen self.old).tracks }
        ensures call { GivesUpWriting result (M.seen self.old) (M.seen self.new) writer.now }
        ensures led { OnOk result (GivesUpLed (M.seen self.old).content (M.seen self.new).content writer.now.chain) }
        ensures only { OnlyContent writer.now.chain.tracks result (M.seen self.old) (M.seen self.new) }
    {
        writer.chain.abandon(&mut self.medium)
    }
}
