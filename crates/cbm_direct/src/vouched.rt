//! A drive's DOS of which it is known whether its disk is sound.
use crate::access::Access;
use crate::vouch::Vouch;
use cbm_channel::{Channels, Dos, Status};
use cbm_medium::Medium;
use cbm_volume::Volume;
use std::marker::Model;

mod calls;
mod sectors;

/// A drive's DOS.
///
/// If only sectors that are nobody's may be written, the disk was sound when it was put in, and the medium didn't fail by itself since, it is sound:
/// each value of the type has that.
#[derive(Drop)]
pub struct Vouched<M: Medium> {
    dos: Dos<M>,
    vouch: Vouch,
}

impl<M: Medium> Model for Vouched<M> {
    ghost use Rattle.cbm_direct.specs.Vouching.{Vouching, StandsIfSound};

    ghost Value = { Vouching M };

    ghost view = { λ d. record { dos = d.dos; vouch = d.vouch } };

    ghost invariant = { λ d. StandsIfSound M.seen d.vouch d.dos };
}

impl<M: Medium> Vouched<M> {
    ghost use Rattle.std.specs.Prelude.{◌≡◌, ◌≤◌, ◌<◌, Some, IfSome, sum_by};
    ghost use Rattle.cbm_direct.specs.declared.access.Access.TheVariants.{Guarded};
    ghost use Rattle.cbm_direct.specs.declared.vouch.Vouch.TheVariants.{Sound};
    ghost use Rattle.cbm_machine.specs.Calls.{text_for};
    ghost use Rattle.cbm_channel.specs.Shown.{cost_on};
    ghost use Rattle.cbm_channel.specs.Shown.{shown_by};
    ghost use Rattle.cbm_direct.specs.Vouching.{ShowsDisk, IsSoundSince, KeepsVouch, StandsAtStart, StandsExchanged, access_of};

    /// The drive at power up with this medium. Unless any sector may be written, it looks whether the disk is sound.
    pub fn new(medium: M, channels: Channels, access: Access) -> Vouched<M>
        ensures medium { result.dos.medium ≡ medium }
        ensures stands { StandsAtStart M.seen medium result.dos }
        ensures access { access_of result.vouch ≡ access }
        ensures sound { access ≡ Guarded → ShowsDisk (M.seen medium) → result.vouch ≡ Sound (M.seen medium).failures }
    {
        let volume = Volume::open(medium);
        let vouch = Vouch::of(&volume, access);
        Vouched {
            dos: Dos::new(volume.into_medium(), channels),
            vouch,
        }
    }

    /// The drive is switched off and on with its disk: no channel is open, and what was being written isn't closed.
    pub fn restart(&mut self)
        ensures keeps { KeepsVouch M.seen self.old self.new }
        ensures medium { self.new.dos.medium ≡ self.old.dos.medium }
        ensures stands { StandsAtStart M.seen self.old.dos.medium self.new.dos }
    {
        self.dos.restart();
    }

    /// Another disk is put in: no channel is open, what was being written isn't closed, and the status stays. Unless any sector may be
    /// written, it looks whether the disk is sound.
    pub fn insert(&mut self, medium: M)
    where
        M: Drop,
        ensures medium { self.new.dos.medium ≡ medium }
        ensures told { self.new.dos.told ≡ self.old.dos.told }
        ensures stands { StandsExchanged M.seen medium self.old.dos.told self.new.dos }
        ensures access { access_of self.new.vouch ≡ access_of self.old.vouch }
        ensures sound { access_of self.old.vouch ≡ Guarded → ShowsDisk (M.seen medium) → self.new.vouch ≡ Sound (M.seen medium).failures }
    {
        let volume = Volume::open(medium);
        let vouch = Vouch::of(&volume, self.vouch.access());
        self.dos.insert(volume.into_medium());
        self.vouch = vouch;
    }

    /// The medium, to look at.
    pub fn medium(&self) -> &M
        ensures { result.now ≡ self.now.dos.medium }
    {
        self.dos.medium()
    }

    /// The same, of which it is known that it has a sound disk, if it did when it was put in, and didn't fail by itself since.
    pub fn vouched_medium(&self) -> &M
        ensures medium { result.now ≡ self.now.dos.medium }
        ensures sound { IsSoundSince self.now.vouch (M.seen result.now) }
    {
        self.dos.medium()
    }

    /// The medium as it is now: it has a sound disk if it did when it was put in, and didn't fail by itself since.
    pub fn into_medium(self) -> M
        ensures medium { result ≡ self.dos.medium }
        ensures sound { IsSoundSince self.vouch (M.seen result) }
    {
        let Vouched { dos, .. } = self;
        dos.into_medium()
    }

    /// The status.
    pub fn status(&self) -> Status
        ensures { result ≡ self.now.dos.told.status }
    {
        self.dos.status()
    }

    /// How many of the drive's three buffers the DOS's open channels take.
    pub fn cost(&self) -> usize
        ensures value { result ≡ sum_by cost_on self.now.dos.channels }
        ensures few { result ≤ 30 }
    {
        self.dos.cost()
    }

    /// What was put to channel 15 since its last command.
    pub fn gathered(&self) -> &[u8]
        ensures { result.now ≡ text_for 15 self.now.dos.text }
    {
        self.dos.gathered()
    }

    /// The next byte that a channel of the DOS sends, and whether it is the last; None if it has nothing to send.
    pub fn peek(&self, channel: u8) -> Option<(u8, bool)>
        requires { channel ≤ 15 }
        ensures value { result ≡ shown_by channel self.now.dos }
        ensures byte { IfSome result (λ s. s.0 < 256) }
    {
        self.dos.peek(channel)
    }
}
