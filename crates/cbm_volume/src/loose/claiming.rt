// A sector that is claimed for nobody.

ghost use Rattle.std.specs.Prelude.{◌≡◌, ◌≤◌, ◌⊎◌, true, false, Ok, OnErr, IfErr};
ghost use Rattle.cbm_medium.specs.Place.{directory_head};
ghost use Rattle.cbm_bam.specs.Map.{map_of, is_free_in, Takes};
ghost use Rattle.cbm_bam.specs.Causes.{HasCause};
ghost use Rattle.cbm_volume.specs.SeenDisks.{seen_tracks};
ghost use Rattle.cbm_volume.specs.Writers.{HoldsNow};
ghost use Rattle.cbm_volume.specs.Calls.{OfDisk, OnlyOnDisk};
ghost use Rattle.cbm_volume.specs.check.WholeDisk.{ClaimsSeen, SeenFault};
ghost use Rattle.cbm_volume.specs.declared.check.unsound.Unsound.{Unsound};
ghost use Rattle.cbm_volume.specs.Loose.{one_fewer_free};

use crate::check::check_disk;
use crate::volume::Volume;
use cbm_medium::{Address, Medium, Trouble};

impl<M: Medium> Volume<M> {
    /// Claims a sector that is free, if the disk is sound: nobody's it stays. `Ok(false)`: it isn't so, and nothing has changed. An `Err` is
    /// why the map refused, and changes nothing.
    pub fn claim_at(&mut self, at: Address) -> Result<bool, Trouble>
        requires { at.track ≤ seen_tracks (M.seen self.old) }
        ensures done { let old = M.seen self.old in result ≡ Ok true → ClaimsSeen old × (is_free_in (map_of old.content) at ≡ true)
            × Takes (seen_tracks old) old.content (M.seen self.new).content at }
        ensures refused { let old = M.seen self.old in result ≡ Ok false → (((u : Unsound) × SeenFault old u) ⊎ (is_free_in (map_of old.content) at ≡ false))
            × (self.new ≡ self.old) }
        ensures holds { let old = M.seen self.old in OfDisk old (λ d uses. result ≡ Ok true →
            HoldsNow old.tracks (M.seen self.new).content (one_fewer_free at.track d) uses) }
        ensures err { OnErr result ((M.seen self.new).content ≡ (M.seen self.old).content) }
        ensures cause { IfErr result (λ t. HasCause (M.seen self.old) (M.seen self.new) directory_head t.code) }
        ensures only { OnlyOnDisk result (M.seen self.old) (M.seen self.new) }
    {
        let Ok(_claimed) = check_disk(&self.medium) else {
            return Ok(false);
        };
        let geometry = self.geometry();
        cbm_bam::claim_at(&mut self.medium, geometry, at)
    }
}
