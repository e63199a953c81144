// The commands of direct access.

use crate::asked::{Asked, Block};
use crate::direct::DirectDos;
use crate::form::Form;
use crate::memory::Reply;
use cbm_channel::{Code, Status};
use cbm_medium::codes::ILLEGAL_LINK;
use cbm_medium::{Address, Medium, Trouble};

impl<M: Medium> DirectDos<M> {
    ghost use Rattle.std.specs.Prelude.{◌≡◌, Ok, IfOk, IfErr};
    ghost use Rattle.cbm_direct.specs.declared.asked.Asked.TheVariants.{Memory};
    ghost use Rattle.cbm_direct.specs.Vouching.{IsSectorUnread, KeepsVouch};
    ghost use Rattle.cbm_direct.specs.Directs.{WasBlockRead, IsReadAsked, IsSought, IsAskedDone};

    /// Carries a command of direct access out.
    pub fn carry_out(&mut self, asked: Asked)
        ensures carried { IsAskedDone M.seen asked self.old self.new }
        ensures keeps { KeepsVouch M.seen self.old.vouched self.new.vouched }
    {
        match asked {
            Asked::Read(block) => self.read(block, Form::Whole),
            Asked::ReadCounted(block) => self.read(block, Form::Counted),
            Asked::Write(block) => self.write(block, Form::Whole),
            Asked::WriteCounted(block) => self.write(block, Form::Counted),
            Asked::Allocate(sector) => self.allocate(sector),
            Asked::Free(sector) => self.free(sector),
            Asked::Seek(channel, place) => self.seek(channel, place),
            Asked::Memory(address, count) => self.answer(Reply {
                address,
                left: count,
            }),
            Asked::Restart => self.restart(),
            Asked::Nothing => self.say(Code::Fine),
            Asked::Held => self.say(Code::WriteFileOpen),
            Asked::Denied => self.say(Code::WriteProtected),
            Asked::Unread => self.say(Code::Syntax),
        }
    }

    /// U1 and B-R: the channel's buffer gets a sector. The status is 70 if it has none, 74 if another drive is named, why the sector isn't
    /// read, or 00.
    fn read(&mut self, block: Block, form: Form)
        ensures done { IsReadAsked M.seen form block self.old self.new }
        ensures keeps { KeepsVouch M.seen self.old.vouched self.new.vouched }
    {
        if !self.buffers.has(block.channel) {
            self.say(Code::NoChannel);
        } else if block.drive != 0 {
            self.say(Code::DriveNotReady);
        } else {
            self.load(block, form);
        }
    }

    /// The channel's buffer gets a sector.
    fn load(&mut self, block: Block, form: Form)
        ensures done { WasBlockRead M.seen form block self.old self.new }
        ensures keeps { KeepsVouch M.seen self.old.vouched self.new.vouched }
    {
        match self.sector(block.track, block.sector) {
            Ok(bytes) => {
                self.buffers.load(block.channel, &bytes, form);
                self.say(Code::Fine);
            }
            Err(trouble) => self.tell(Status::from(trouble)),
        }
    }

    /// What a sector holds. Errors: 66 if the disk has none such, or the fault that stands there.
    fn sector(&self, track: u8, sector: u8) -> Result<[u8; 256], Trouble>
        ensures ok { IfOk result (λ bytes. (M.seen self.now.vouched.dos.medium).content (record { track = track; sector = sector }) ≡ Ok bytes) }
        ensures err { IfErr result (IsSectorUnread (M.seen self.now.vouched.dos.medium) (record { track = track; sector = sector })) }
    {
        let medium = self.vouched.medium();
        if let Some(at) = Address::new(track, sector)
            && at.track() <= medium.tracks()
        {
            return Ok(medium.read(at)?);
        }
        Err(Trouble {
            code: ILLEGAL_LINK,
            track,
            sector,
        })
    }

    /// B-P: the next byte of the channel's buffer is the one of this place; 70 if it has none.
    fn seek(&mut self, channel: u8, place: u8)
        ensures done { IsSought channel place self.old self.new }
        ensures keeps { KeepsVouch M.seen self.old.vouched self.new.vouched }
    {
        if !self.buffers.has(channel) {
            self.say(Code::NoChannel);
            return;
        }
        self.buffers.seek(channel, place);
        self.say(Code::Fine);
    }

    /// M-R: channel 15 sends these bytes before it tells 00.
    fn answer(&mut self, reply: Reply)
        ensures done { IsAskedDone M.seen (Memory reply.address reply.left) self.old self.new }
        ensures keeps { KeepsVouch M.seen self.old.vouched self.new.vouched }
    {
        self.reply = Some(reply);
        self.say(Code::Fine);
    }
}
