// The calls of the DOS on single sectors.

use crate::access::Access;
use crate::spared::{is_geos_disk, is_spared};
use crate::vouch::Vouch;
use crate::vouched::Vouched;
use cbm_medium::{Address, Medium, Trouble};

impl<M: Medium> Vouched<M> {
    ghost use Rattle.std.specs.Prelude.{◌≡◌, ◌≤◌};
    ghost use Rattle.cbm_volume.specs.SeenDisks.{seen_tracks};
    ghost use Rattle.cbm_channel.specs.Loosely.{ClaimsAt};
    ghost use Rattle.cbm_direct.specs.Spared.{is_spared_by, keeps_geos};
    ghost use Rattle.cbm_direct.specs.Vouching.{KeepsVouch, WritesBy, GivesBy, access_of};

    /// Whether a sector is spared, if not any may be written.
    fn spares(&self, at: Address) -> bool
        ensures { result ≡ is_spared_by (access_of self.now.vouch) (M.seen self.now.dos.medium) at }
    {
        match self.vouch.access() {
            Access::Guarded => is_spared(self.dos.medium(), at),
            Access::Raw => false,
        }
    }

    /// Whether V is refused: GEOS formatted the disk, and not any sector may be written.
    pub fn keeps_geos(&self) -> bool
        ensures { result ≡ keeps_geos (access_of self.now.vouch) (M.seen self.now.dos.medium) }
    {
        match self.vouch.access() {
            Access::Guarded => is_geos_disk(self.dos.medium()),
            Access::Raw => false,
        }
    }

    /// Writes a sector, by the access: one that is nobody's and isn't spared, or any. `Ok(false)`: it isn't so, and nothing has changed.
    pub fn write_at(&mut self, at: Address, bytes: &[u8; 256]) -> Result<bool, Trouble>
        requires { at.track ≤ (M.seen self.old.dos.medium).tracks }
        ensures keeps { KeepsVouch M.seen self.old self.new }
        ensures writes { WritesBy (access_of self.old.vouch) M.seen at bytes.now result self.old.dos self.new.dos }
    {
        if self.spares(at) {
            return Ok(false);
        }
        match self.vouch {
            Vouch::Sound(_) | Vouch::Unsound => self.dos.write_loose(at, bytes),
            Vouch::Unknown => {
                self.dos.write_raw(at, bytes)?;
                Ok(true)
            }
        }
    }

    /// Claims a sector that is free. `Ok(false)`: it isn't, or the disk isn't sound, and nothing has changed.
    pub fn claim_at(&mut self, at: Address) -> Result<bool, Trouble>
        requires { at.track ≤ seen_tracks (M.seen self.old.dos.medium) }
        ensures keeps { KeepsVouch M.seen self.old self.new }
        ensures claims { ClaimsAt M.seen at result self.old.dos self.new.dos }
    {
        self.dos.claim_at(at)
    }

    /// Gives back a sector that is nobody's, and isn't spared unless any may be written. `Ok(false)`: it isn't so, and nothing has changed.
    pub fn give_at(&mut self, at: Address) -> Result<bool, Trouble>
        requires { at.track ≤ seen_tracks (M.seen self.old.dos.medium) }
        ensures keeps { KeepsVouch M.seen self.old self.new }
        ensures gives { GivesBy (access_of self.old.vouch) M.seen at result self.old.dos self.new.dos }
    {
        if self.spares(at) {
            return Ok(false);
        }
        self.dos.give_at(at)
    }
}
