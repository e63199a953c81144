// U2 and B-W: a sector gets a channel's buffer.

use crate::asked::Block;
use crate::direct::DirectDos;
use crate::form::Form;
use cbm_channel::{Code, Status};
use cbm_medium::{Address, Medium, Trouble};

impl<M: Medium> DirectDos<M> {
    ghost use Rattle.std.specs.Prelude.{◌≡◌, ◌≤◌, Some, SomeIff};
    ghost use Rattle.cbm_medium.specs.Place.{Place, Has};
    ghost use Rattle.cbm_direct.specs.Buffered.{bytes_of_channel};
    ghost use Rattle.cbm_direct.specs.Vouching.{KeepsVouch, WritesBy, access_of};
    ghost use Rattle.cbm_direct.specs.Directs.{DirectAnswers, IfDrive0, IfHas, UnlessProtected, Reports, IsWriteAsked, sector_asked, result_status, at_sector};

    /// U2 and B-W: a sector gets the channel's buffer, which itself stays as it is. The status is 70 if it has none, 74 if another drive is
    /// named, 66 if there is no such sector, 26 if the disk is protected, or if the sector is somebody's or spared and not any may be written, or 00.
    pub(super) fn write(&mut self, block: Block, form: Form)
        ensures done { IsWriteAsked M.seen (bytes_of_channel form block.channel self.old.buffers) block self.old self.new }
        ensures keeps { KeepsVouch M.seen self.old.vouched self.new.vouched }
    {
        match self.buffers.bytes(block.channel, form) {
            None => self.say(Code::NoChannel),
            Some(bytes) => self.write_block(block, &bytes),
        }
    }

    /// The sector of a command gets these bytes.
    fn write_block(&mut self, block: Block, bytes: &[u8; 256])
        ensures done { IsWriteAsked M.seen (Some bytes.now) block self.old self.new }
        ensures keeps { KeepsVouch M.seen self.old.vouched self.new.vouched }
    {
        if block.drive != 0 {
            self.say(Code::DriveNotReady);
            return;
        }
        match self.place(block.track, block.sector) {
            None => self.tell_at(Code::WrongLink, block.track, block.sector),
            Some(at) => self.write_at(at, bytes),
        }
    }

    /// The sector with these two numbers, None if the medium has none such.
    fn place(&self, track: u8, sector: u8) -> Option<Address>
        ensures { let p : Place = record { track = track; sector = sector } in
            SomeIff result (Has (M.seen self.now.vouched.dos.medium).tracks p) p }
    {
        if let Some(at) = Address::new(track, sector)
            && at.track() <= self.vouched.medium().tracks()
        {
            return Some(at);
        }
        None
    }

    /// Sets a status with a sector's two numbers.
    pub(super) fn tell_at(&mut self, code: Code, track: u8, sector: u8)
        ensures done { DirectAnswers (at_sector code (record { track = track; sector = sector })) self.old self.new }
        ensures keeps { KeepsVouch M.seen self.old.vouched self.new.vouched }
    {
        self.tell(Status {
            code,
            first: track,
            second: sector,
        });
    }

    /// The sector gets these bytes, if the disk isn't protected, and the sector is nobody's and isn't spared, or any may be written.
    fn write_at(&mut self, at: Address, bytes: &[u8; 256])
        requires { at.track ≤ (M.seen self.old.vouched.dos.medium).tracks }
        ensures done { UnlessProtected M.seen (Reports at (WritesBy (access_of self.old.vouched.vouch) M.seen at bytes.now)) self.old self.new }
        ensures keeps { KeepsVouch M.seen self.old.vouched self.new.vouched }
    {
        if self.vouched.medium().protected() {
            self.say(Code::WriteProtected);
            return;
        }
        let written = self.vouched.write_at(at, bytes);
        self.report(at, written);
    }

    /// Reports what became of a sector: 00, 26 with its two numbers if it wasn't allowed, or the medium's fault.
    pub(super) fn report(&mut self, at: Address, outcome: Result<bool, Trouble>)
        ensures done { DirectAnswers (result_status at outcome) self.old self.new }
        ensures keeps { KeepsVouch M.seen self.old.vouched self.new.vouched }
    {
        match outcome {
            Ok(true) => self.say(Code::Fine),
            Ok(false) => self.tell_at(Code::WriteProtected, at.track(), at.sector()),
            Err(trouble) => self.tell(Status::from(trouble)),
        }
    }
}
