// The disk in the drive: looked at, kept over a new start, and exchanged.

use crate::channels::close_all;
use crate::dos::Dos;
use cbm_machine::{Code, Status, Telling};
use cbm_volume::{Medium, Volume};

impl<M: Medium> Dos<M> {
    ghost use Rattle.std.specs.Prelude.{◌≡◌, None, replicate};
    ghost use Rattle.cbm_channel.specs.declared.channel.Channel.TheVariants.{Closed};
    ghost use Rattle.cbm_machine.specs.declared.code.Code.TheVariants.{PowerUp};
    ghost use Rattle.cbm_machine.specs.Statuses.{plain};
    ghost use Rattle.cbm_file.specs.Files.{Disk};
    ghost use Rattle.cbm_volume.specs.Holding.{HoldsDisk};
    ghost use Rattle.cbm_machine.specs.Machines.{start};
    ghost use Rattle.cbm_channel.specs.Standing.{Stands};
    ghost use Rattle.cbm_channel.specs.Exchanged.{still_telling};

    /// The medium, to look at.
    pub fn medium(&self) -> &M
        ensures { result.now ≡ self.now.medium }
    {
        self.volume.medium()
    }

    /// The drive is switched off and on with its disk: no channel is open, and what was being written isn't closed.
    pub fn restart(&mut self)
        ensures medium { self.new.medium ≡ self.old.medium }
        ensures channels { self.new.channels ≡ replicate 15 Closed }
        ensures told { self.new.told ≡ (record { status = plain PowerUp; told = 0 }) }
        ensures text { self.new.text ≡ None }
        ensures stands { let now = M.seen self.old.medium in (d : Disk) → HoldsDisk now.tracks now.content d →
            Stands M.seen self.new (start d now.protected now.tracks) }
    {
        close_all(&mut self.channels);
        self.telling = Telling::new(Status::plain(Code::PowerUp));
        self.text = None;
    }

    /// Another disk is put in: no channel is open, what was being written isn't closed, and the status stays.
    pub fn insert(&mut self, medium: M)
    where
        M: Drop,
        ensures medium { self.new.medium ≡ medium }
        ensures told { self.new.told ≡ self.old.told }
        ensures channels { self.new.channels ≡ replicate 15 Closed }
        ensures text { self.new.text ≡ None }
        ensures stands { let now = M.seen medium in (d : Disk) → HoldsDisk now.tracks now.content d →
            Stands M.seen self.new (still_telling self.old.told (start d now.protected now.tracks)) }
    {
        close_all(&mut self.channels);
        self.text = None;
        self.volume = Volume::open(medium);
    }
}
