// A sector that is written: one that is nobody's, or any.

ghost use Rattle.std.specs.Prelude.{◌≡◌, ◌≤◌, ◌⊎◌, true, false, Some, Ok, OnOk, OnErr, IfErr};
ghost use Rattle.cbm_medium.specs.Content.{written};
ghost use Rattle.cbm_medium.specs.Seen.{with_content, write_refusal, HasFailed, OnlyContent};
ghost use Rattle.cbm_bam.specs.Marks.{is_marked};
ghost use Rattle.cbm_volume.specs.Writers.{HoldsNow};
ghost use Rattle.cbm_volume.specs.Calls.{OfDisk};
ghost use Rattle.cbm_volume.specs.Loose.{AreSpared, IsLooseOn, IsNotLoose};

use crate::loose::looking::is_loose;
use crate::volume::Volume;
use cbm_bam::SectorSet;
use cbm_medium::{Address, Medium, Trouble};

impl<M: Medium> Volume<M> {
    /// Writes a sector if the disk is sound, no part of it has the sector, and it isn't spared: so the disk stays what it is, and so do its
    /// channels, if theirs are spared. `Ok(false)`: it isn't so, and nothing has changed. An `Err` is why the medium refused the write, and
    /// changes no sector.
    pub fn write_loose(
        &mut self,
        at: Address,
        bytes: &[u8; 256],
        spared: &SectorSet,
    ) -> Result<bool, Trouble>
        requires { at.track ≤ (M.seen self.old).tracks }
        ensures done { let old = M.seen self.old in result ≡ Ok true →
            IsLooseOn old (is_marked spared.now) at × (M.seen self.new ≡ with_content (written old.content at bytes.now) old) }
        ensures refused { result ≡ Ok false → IsNotLoose (M.seen self.old) (is_marked spared.now) at × (self.new ≡ self.old) }
        ensures holds { let old = M.seen self.old in OfDisk old (λ d uses. AreSpared old.content (is_marked spared.now) uses →
            HoldsNow old.tracks (M.seen self.new).content d uses) }
        ensures err { OnErr result ((M.seen self.new).content ≡ (M.seen self.old).content) }
        ensures cause { IfErr result (λ t. (write_refusal (M.seen self.old) at ≡ Some t.code) ⊎ HasFailed (M.seen self.old) (M.seen self.new)) }
        ensures place { IfErr result (λ t. (t.track ≡ at.track) × (t.sector ≡ at.sector)) }
        ensures only { OnlyContent (M.seen self.old).tracks result (M.seen self.old) (M.seen self.new) }
    {
        if !is_loose(&self.medium, at, spared) {
            return Ok(false);
        }
        self.medium.write(at, bytes)?;
        Ok(true)
    }

    /// Writes a sector, whoever has it: what files and the map say of it may be wrong from then on. An `Err` is why the medium refused the
    /// write, and changes no sector.
    pub fn write_raw(&mut self, at: Address, bytes: &[u8; 256]) -> Result<(), Trouble>
        requires { at.track ≤ (M.seen self.old).tracks }
        ensures done { let old = M.seen self.old in OnOk result (M.seen self.new ≡ with_content (written old.content at bytes.now) old) }
        ensures err { OnErr result ((M.seen self.new).content ≡ (M.seen self.old).content) }
        ensures cause { IfErr result (λ t. (write_refusal (M.seen self.old) at ≡ Some t.code) ⊎ HasFailed (M.seen self.old) (M.seen self.new)) }
        ensures place { IfErr result (λ t. (t.track ≡ at.track) × (t.sector ≡ at.sector)) }
        ensures only { OnlyContent (M.seen self.old).tracks result (M.seen self.old) (M.seen self.new) }
    {
        Ok(self.medium.write(at, bytes)?)
    }
}
