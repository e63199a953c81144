use crate::channel::Channel;
use crate::channels::Channels;
use crate::gathered::Gathered;
use cbm_machine::{Code, Status, Telling};
use cbm_volume::{Medium, Volume};
use std::marker::Model;

// (OPEN and each command are never inlined: in one frame all of them would take stack at once.)

mod beside;
mod closing;
mod copying;
mod exchanging;
mod formatting;
mod loosely;
mod opening;
mod planning;
mod putting;
mod renaming;
mod saving;
mod scratching;
mod talking;
mod validating;

/// The drive's DOS on a medium: files, the listing and the status by sixteen channels, the secondary addresses.
#[derive(Drop)]
pub struct Dos<M: Medium> {
    volume: Volume<M>,
    channels: Vec<Channel>,
    telling: Telling,
    text: Option<Gathered>,
}

impl<M: Medium> Model for Dos<M> {
    ghost use Rattle.cbm_channel.specs.Standing.{Kept, AreFit};

    ghost Value = { Kept M };

    ghost view = { λ d. record { medium = d.volume; channels = d.channels.items; told = d.telling; text = d.text } };

    ghost invariant = { λ d. AreFit (M.seen d.volume).tracks d.channels.items };
}

impl<M: Medium> Dos<M> {
    ghost use Rattle.std.specs.Prelude.{◌≡◌, ◌≤◌, None, replicate};
    ghost use Rattle.cbm_channel.specs.declared.channel.Channel.TheVariants.{Closed};
    ghost use Rattle.cbm_machine.specs.declared.code.Code.TheVariants.{PowerUp};
    ghost use Rattle.cbm_file.specs.Files.{Disk};
    ghost use Rattle.cbm_volume.specs.Holding.{HoldsDisk};
    ghost use Rattle.cbm_machine.specs.Machines.{Machine, start, with_status, say};
    ghost use Rattle.cbm_machine.specs.Codes.{code_number};
    ghost use Rattle.cbm_machine.specs.Statuses.{plain};
    ghost use Rattle.cbm_channel.specs.Standing.{Stands, Leads};

    /// The drive at power up, with no channel open. It reads nothing.
    pub fn new(medium: M, channels: Channels) -> Dos<M>
        ensures medium { result.medium ≡ medium }
        ensures channels { result.channels ≡ replicate 15 Closed }
        ensures told { result.told ≡ (record { status = plain PowerUp; told = 0 }) }
        ensures text { result.text ≡ None }
        ensures stands { (d : Disk) → HoldsDisk (M.seen medium).tracks (M.seen medium).content d
            → Stands M.seen result (start d (M.seen medium).protected (M.seen medium).tracks) }
    {
        Dos {
            volume: Volume::open(medium),
            channels: channels.into_items(),
            telling: Telling::new(Status::plain(Code::PowerUp)),
            text: None,
        }
    }

    /// The disk of files.
    pub(crate) fn volume(&self) -> &Volume<M>
        ensures { result.now ≡ self.now.medium }
    {
        &self.volume
    }

    /// The medium as it is now; channels that are open are dropped.
    pub fn into_medium(self) -> M
        ensures { result ≡ self.medium }
    {
        let Dos { volume, .. } = self;
        volume.into_medium()
    }

    /// The status: its code and two numbers.
    pub fn status(&self) -> Status
        ensures value { result ≡ self.now.told.status }
        ensures status { (m : Machine) → Stands M.seen self.now m → result ≡ m.status }
    {
        self.telling.status()
    }

    /// The number of the status, such as 62 after an OPEN of a file that isn't there.
    pub fn status_code(&self) -> u8
        ensures value { result ≡ code_number self.now.told.status.code }
        ensures code { (m : Machine) → Stands M.seen self.now m → result ≡ code_number m.status.code }
    {
        self.status().code.number()
    }

    /// Sets the status; channel 15 sends it from its beginning.
    fn set(&mut self, status: Status)
        ensures leads { Leads M.seen self.old self.new (with_status status) }
        ensures medium { self.new.medium ≡ self.old.medium }
        ensures channels { self.new.channels ≡ self.old.channels }
        ensures told { self.new.told ≡ (record { status = status; told = 0 }) }
    {
        self.telling = Telling::new(status);
    }

    /// Sets a status whose numbers are 0.
    fn say(&mut self, code: Code)
        ensures leads { Leads M.seen self.old self.new (say code) }
        ensures medium { self.new.medium ≡ self.old.medium }
        ensures channels { self.new.channels ≡ self.old.channels }
        ensures told { self.new.told ≡ (record { status = plain code; told = 0 }) }
    {
        self.set(Status::plain(code));
    }
}
