// A sector that is given back.

ghost use Rattle.std.specs.Prelude.{◌≡◌, ◌≤◌, true, false, Ok, OnErr, OnOk, IfErr};
ghost use Rattle.cbm_medium.specs.Place.{directory_head};
ghost use Rattle.cbm_medium.specs.Seen.{OnlyContent};
ghost use Rattle.cbm_bam.specs.Map.{map_of, is_free_in, with_bit, Remaps};
ghost use Rattle.cbm_bam.specs.Causes.{HasCause};
ghost use Rattle.cbm_bam.specs.Marks.{is_marked};
ghost use Rattle.cbm_volume.specs.SeenDisks.{seen_tracks};
ghost use Rattle.cbm_volume.specs.Writers.{HoldsNow};
ghost use Rattle.cbm_volume.specs.Calls.{OfDisk, OnlyOnDisk};
ghost use Rattle.cbm_volume.specs.Loose.{AreSpared, IsLooseOn, IsNotLoose, one_more_free};

use crate::loose::looking::is_loose;
use crate::volume::Volume;
use cbm_bam::{Release, SectorSet, is_free};
use cbm_medium::{Address, Geometry, Medium, Trouble};

/// Gives a sector back to the map, in one write. An `Err` changes nothing.
fn give<M: Medium>(medium: &mut M, geometry: Geometry, at: Address) -> Result<(), Trouble>
    requires { geometry ≤ (M.seen medium.old).tracks }
    ensures ok { let old = M.seen medium.old in OnOk result (at.track ≤ geometry →
        Remaps geometry old.content (M.seen medium.new).content (with_bit (is_free_in (map_of old.content)) at true)) }
    ensures err { OnErr result ((M.seen medium.new).content ≡ (M.seen medium.old).content) }
    ensures cause { IfErr result (λ t. HasCause (M.seen medium.old) (M.seen medium.new) directory_head t.code) }
    ensures only { OnlyContent geometry result (M.seen medium.old) (M.seen medium.new) }
{
    prove!(geometry.tracks() <= 40);
    let mut release = Release::begin(medium, geometry)?;
    release.give(at);
    release.write(medium, geometry)?;
    Ok(())
}

impl<M: Medium> Volume<M> {
    /// Gives a sector back, if the disk is sound, no part of it has the sector, and it isn't spared; one that is free stays so. `Ok(false)`:
    /// it isn't so, and nothing has changed. An `Err` is why the map refused, and changes nothing.
    pub fn give_at(&mut self, at: Address, spared: &SectorSet) -> Result<bool, Trouble>
        requires { at.track ≤ seen_tracks (M.seen self.old) }
        ensures done { result ≡ Ok true → IsLooseOn (M.seen self.old) (is_marked spared.now) at }
        ensures freed { let old = M.seen self.old in result ≡ Ok true → is_free_in (map_of old.content) at ≡ false →
            Remaps (seen_tracks old) old.content (M.seen self.new).content (with_bit (is_free_in (map_of old.content)) at true) }
        ensures already { result ≡ Ok true → is_free_in (map_of (M.seen self.old).content) at ≡ true → self.new ≡ self.old }
        ensures refused { result ≡ Ok false → IsNotLoose (M.seen self.old) (is_marked spared.now) at × (self.new ≡ self.old) }
        ensures holds { let old = M.seen self.old in OfDisk old (λ d uses. AreSpared old.content (is_marked spared.now) uses → result ≡ Ok true →
            is_free_in (map_of old.content) at ≡ false → HoldsNow old.tracks (M.seen self.new).content (one_more_free at.track d) uses) }
        ensures err { OnErr result ((M.seen self.new).content ≡ (M.seen self.old).content) }
        ensures cause { IfErr result (λ t. HasCause (M.seen self.old) (M.seen self.new) directory_head t.code) }
        ensures only { OnlyOnDisk result (M.seen self.old) (M.seen self.new) }
    {
        if !is_loose(&self.medium, at, spared) {
            return Ok(false);
        }
        let geometry = self.geometry();
        prove!(at.track() <= geometry.tracks());
        if is_free(&self.medium, geometry, at)? {
            return Ok(true);
        }
        give(&mut self.medium, geometry, at)?;
        Ok(true)
    }
}
