// B-A and B-F: a sector is claimed, or given back.

use crate::asked::Sector;
use crate::direct::DirectDos;
use crate::next_free::next_free;
use cbm_bam::{geometry, is_free};
use cbm_channel::{Code, Status};
use cbm_medium::{Address, Link, Medium};

impl<M: Medium> DirectDos<M> {
    ghost use Rattle.std.specs.Prelude.{◌≡◌, ◌≤◌, SomeIff, IsOk, false};
    ghost use Rattle.cbm_medium.specs.Place.{Place, Has, directory_head};
    ghost use Rattle.cbm_bam.specs.Map.{map_of, is_free_in};
    ghost use Rattle.cbm_volume.specs.SeenDisks.{seen_tracks};
    ghost use Rattle.cbm_channel.specs.Loosely.{ClaimsAt};
    ghost use Rattle.cbm_direct.specs.NextFree.{next_behind};
    ghost use Rattle.cbm_direct.specs.Vouching.{KeepsVouch, GivesBy, access_of};
    ghost use Rattle.cbm_direct.specs.Directs.{DirectAnswers, UnlessProtected, Reports, WasAllocated, IsAllocateAsked, IsFreeAsked, next_status};

    /// B-A: a free sector is claimed. The status is 74 if another drive is named, 66 if there is no such sector, 26 if the disk is protected or
    /// unsound, 65 with the next one that is free if it is taken, or 00.
    pub(super) fn allocate(&mut self, sector: Sector)
        ensures done { IsAllocateAsked M.seen sector self.old self.new }
        ensures keeps { KeepsVouch M.seen self.old.vouched self.new.vouched }
    {
        if sector.drive != 0 {
            self.say(Code::DriveNotReady);
            return;
        }
        match self.place_on_disk(sector.track, sector.sector) {
            None => self.tell_at(Code::WrongLink, sector.track, sector.sector),
            Some(at) => self.allocate_at(at),
        }
    }

    /// B-F: a sector that is nobody's is given back. The status is 74, 66 or 26 as for B-A, 26 if the sector is somebody's or spared, or 00.
    pub(super) fn free(&mut self, sector: Sector)
        ensures done { IsFreeAsked M.seen sector self.old self.new }
        ensures keeps { KeepsVouch M.seen self.old.vouched self.new.vouched }
    {
        if sector.drive != 0 {
            self.say(Code::DriveNotReady);
            return;
        }
        match self.place_on_disk(sector.track, sector.sector) {
            None => self.tell_at(Code::WrongLink, sector.track, sector.sector),
            Some(at) => self.free_at(at),
        }
    }

    /// The sector with these two numbers, None if the disk has none such.
    fn place_on_disk(&self, track: u8, sector: u8) -> Option<Address>
        ensures { let p : Place = record { track = track; sector = sector } in
            SomeIff result (Has (seen_tracks (M.seen self.now.vouched.dos.medium)) p) p }
    {
        Link::new(track, sector).address(geometry(self.vouched.medium()))
    }

    /// The sector is claimed, if the disk isn't protected.
    fn allocate_at(&mut self, at: Address)
        requires { at.track ≤ seen_tracks (M.seen self.old.vouched.dos.medium) }
        ensures done { UnlessProtected M.seen (WasAllocated M.seen at) self.old self.new }
        ensures keeps { KeepsVouch M.seen self.old.vouched self.new.vouched }
    {
        if self.vouched.medium().protected() {
            self.say(Code::WriteProtected);
        } else {
            self.claim(at);
        }
    }

    /// The sector is claimed if it is free, else the next free one is told.
    fn claim(&mut self, at: Address)
        requires { at.track ≤ seen_tracks (M.seen self.old.vouched.dos.medium) }
        ensures done { WasAllocated M.seen at self.old self.new }
        ensures keeps { KeepsVouch M.seen self.old.vouched self.new.vouched }
    {
        let medium = self.vouched.medium();
        match is_free(medium, geometry(medium), at) {
            Err(trouble) => self.tell(Status::from(trouble)),
            Ok(false) => self.tell_next(at),
            Ok(true) => self.take(at),
        }
    }

    /// 65, with the next sector behind one that is free.
    fn tell_next(&mut self, at: Address)
        requires on { at.track ≤ seen_tracks (M.seen self.old.vouched.dos.medium) }
        requires map { IsOk ((M.seen self.old.vouched.dos.medium).content directory_head) }
        ensures done { let now = M.seen self.old.vouched.dos.medium in
            DirectAnswers (next_status (next_behind (is_free_in (map_of now.content)) (seen_tracks now) at)) self.old self.new }
        ensures keeps { KeepsVouch M.seen self.old.vouched self.new.vouched }
    {
        let medium = self.vouched.medium();
        match next_free(medium, geometry(medium), at) {
            None => self.say(Code::NoBlock),
            Some(next) => self.tell_at(Code::NoBlock, next.track(), next.sector()),
        }
    }

    /// A sector that is free is claimed.
    fn take(&mut self, at: Address)
        requires { at.track ≤ seen_tracks (M.seen self.old.vouched.dos.medium) }
        ensures done { Reports at (ClaimsAt M.seen at) self.old self.new }
        ensures keeps { KeepsVouch M.seen self.old.vouched self.new.vouched }
    {
        let claimed = self.vouched.claim_at(at);
        self.report(at, claimed);
    }

    /// The sector is given back, if the disk isn't protected.
    fn free_at(&mut self, at: Address)
        requires { at.track ≤ seen_tracks (M.seen self.old.vouched.dos.medium) }
        ensures done { UnlessProtected M.seen (Reports at (GivesBy (access_of self.old.vouched.vouch) M.seen at)) self.old self.new }
        ensures keeps { KeepsVouch M.seen self.old.vouched self.new.vouched }
    {
        if self.vouched.medium().protected() {
            self.say(Code::WriteProtected);
            return;
        }
        let given = self.vouched.give_at(at);
        self.report(at, given);
    }
}
