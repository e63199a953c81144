// Single sectors, for another layer that carries commands out beside the DOS: those that no part of the disk and no open channel has, and any.

use crate::channel::spare_all;
use crate::dos::Dos;
use cbm_medium::Address;
use cbm_volume::{Medium, SectorSet, Trouble};

impl<M: Medium> Dos<M> {
    ghost use Rattle.std.specs.Prelude.{◌≡◌, ◌≤◌, true, false};
    ghost use Rattle.std.specs.List.{All};
    ghost use Rattle.cbm_medium.specs.Place.{Place};
    ghost use Rattle.cbm_bam.specs.Marks.{is_marked};
    ghost use Rattle.cbm_volume.specs.SeenDisks.{seen_tracks};
    ghost use Rattle.cbm_channel.specs.Loosely.{IsSparedOn, IsOnOne, WritesLoose, WritesRaw, ClaimsAt, GivesAt};

    /// The sectors that open channels have to themselves.
    fn spared(&self) -> SectorSet
        ensures spares { (p : Place) → is_marked result p ≡ false → All (IsSparedOn (M.seen self.now.medium).content p) self.now.channels }
        ensures only { (p : Place) → is_marked result p ≡ true → IsOnOne (M.seen self.now.medium).content p self.now.channels }
    {
        let mut spared = SectorSet::new();
        spare_all(self.channels.as_slice(), &self.volume, &mut spared);
        spared
    }

    /// Writes a sector that is nobody's: on a sound disk it is no part of it, and no open channel has it. `Ok(false)`: it is somebody's, and
    /// nothing has changed. An `Err` is why the medium refused the write, and changes no sector.
    pub fn write_loose(&mut self, at: Address, bytes: &[u8; 256]) -> Result<bool, Trouble>
        requires { at.track ≤ (M.seen self.old.medium).tracks }
        ensures { WritesLoose M.seen at bytes.now result self.old self.new }
    {
        let spared = self.spared();
        self.volume.write_loose(at, bytes, &spared)
    }

    /// Writes a sector, whoever has it: what files, the map and open channels say of it may be wrong from then on. An `Err` is why the medium
    /// refused the write, and changes no sector.
    pub fn write_raw(&mut self, at: Address, bytes: &[u8; 256]) -> Result<(), Trouble>
        requires { at.track ≤ (M.seen self.old.medium).tracks }
        ensures { WritesRaw M.seen at bytes.now result self.old self.new }
    {
        self.volume.write_raw(at, bytes)
    }

    /// Claims a sector that the map has as free, if the disk is sound; it is nobody's then. `Ok(false)`: it isn't so, and nothing has changed.
    /// An `Err` is why the map refused, and changes no sector.
    pub fn claim_at(&mut self, at: Address) -> Result<bool, Trouble>
        requires { at.track ≤ seen_tracks (M.seen self.old.medium) }
        ensures { ClaimsAt M.seen at result self.old self.new }
    {
        self.volume.claim_at(at)
    }

    /// Gives back a sector that is nobody's; one that is free stays so. `Ok(false)`: it is somebody's, and nothing has changed. An `Err` is why
    /// the map refused, and changes no sector.
    pub fn give_at(&mut self, at: Address) -> Result<bool, Trouble>
        requires { at.track ≤ seen_tracks (M.seen self.old.medium) }
        ensures { GivesAt M.seen at result self.old self.new }
    {
        let spared = self.spared();
        self.volume.give_at(at, &spared)
    }
}
