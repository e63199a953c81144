//! A drive with direct access.

use crate::access::Access;
use crate::buffers::Buffers;
use crate::memory::Reply;
use crate::vouched::Vouched;
use cbm_channel::{Channels, Code, Status};
use cbm_medium::Medium;
use std::marker::Model;

mod carrying;
mod claiming;
mod opening;
mod sending;
mod writing;

/// A drive's DOS with direct access: channels may have one of three buffers, and its commands read sectors into them.
///
/// If only sectors that are nobody's may be written, the disk was sound when it was put in, and the medium didn't fail by itself since, it is sound:
/// each value of the type has that.
#[derive(Drop)]
pub struct DirectDos<M: Medium> {
    vouched: Vouched<M>,
    buffers: Buffers,
    reply: Option<Reply>,
}

impl<M: Medium> Model for DirectDos<M> {
    ghost use Rattle.cbm_direct.specs.Directs.{Direct};

    ghost Value = { Direct M };

    ghost view = { λ d. record { vouched = d.vouched; buffers = d.buffers; reply = d.reply } };
}

impl<M: Medium> DirectDos<M> {
    ghost use Rattle.std.specs.Prelude.{◌≡◌, None, Some};
    ghost use Rattle.cbm_direct.specs.declared.access.Access.TheVariants.{Guarded};
    ghost use Rattle.cbm_direct.specs.declared.vouch.Vouch.TheVariants.{Sound};
    ghost use Rattle.cbm_machine.specs.Statuses.{plain};
    ghost use Rattle.cbm_direct.specs.Buffered.{three_free};
    ghost use Rattle.cbm_direct.specs.Vouching.{ShowsDisk, IsSoundSince, KeepsVouch, StandsAtStart, StandsExchanged, access_of};
    ghost use Rattle.cbm_direct.specs.Directs.{DirectAnswers, HasStarted};

    /// The drive at power up with this medium: no channel is open. Unless any sector may be written, it looks whether the disk is sound.
    pub fn new(medium: M, channels: Channels, access: Access) -> DirectDos<M>
        ensures medium { result.vouched.dos.medium ≡ medium }
        ensures stands { StandsAtStart M.seen medium result.vouched.dos }
        ensures access { access_of result.vouched.vouch ≡ access }
        ensures sound { access ≡ Guarded → ShowsDisk (M.seen medium) → result.vouched.vouch ≡ Sound (M.seen medium).failures }
        ensures buffers { result.buffers ≡ three_free }
        ensures reply { result.reply ≡ None }
    {
        DirectDos {
            vouched: Vouched::new(medium, channels, access),
            buffers: Buffers::free(),
            reply: None,
        }
    }

    /// The drive is switched off and on with its disk: no channel is open, and what was being written isn't closed.
    pub fn restart(&mut self)
        ensures started { HasStarted M.seen self.old self.new }
        ensures keeps { KeepsVouch M.seen self.old.vouched self.new.vouched }
    {
        self.vouched.restart();
        self.buffers = Buffers::free();
        self.reply = None;
    }

    /// Another disk is put in: no channel is open, what was being written isn't closed, and the status stays. Unless any sector may be
    /// written, it looks whether the disk is sound.
    pub fn insert(&mut self, medium: M)
    where
        M: Drop,
        ensures medium { self.new.vouched.dos.medium ≡ medium }
        ensures told { self.new.vouched.dos.told ≡ self.old.vouched.dos.told }
        ensures stands { StandsExchanged M.seen medium self.old.vouched.dos.told self.new.vouched.dos }
        ensures access { access_of self.new.vouched.vouch ≡ access_of self.old.vouched.vouch }
        ensures sound { access_of self.old.vouched.vouch ≡ Guarded → ShowsDisk (M.seen medium) → self.new.vouched.vouch ≡ Sound (M.seen medium).failures }
        ensures buffers { self.new.buffers ≡ three_free }
        ensures reply { self.new.reply ≡ None }
    {
        self.vouched.insert(medium);
        self.buffers = Buffers::free();
        self.reply = None;
    }

    /// The medium, to look at.
    pub fn medium(&self) -> &M
        ensures { result.now ≡ self.now.vouched.dos.medium }
    {
        self.vouched.medium()
    }

    /// The same, of which it is known that it has a sound disk, if it did when it was put in, and didn't fail by itself since.
    pub fn vouched_medium(&self) -> &M
        ensures medium { result.now ≡ self.now.vouched.dos.medium }
        ensures sound { IsSoundSince self.now.vouched.vouch (M.seen result.now) }
    {
        self.vouched.vouched_medium()
    }

    /// The medium as it is now: it has a sound disk if it did when it was put in, and didn't fail by itself since.
    pub fn into_medium(self) -> M
        ensures medium { result ≡ self.vouched.dos.medium }
        ensures sound { IsSoundSince self.vouched.vouch (M.seen result) }
    {
        let DirectDos { vouched, .. } = self;
        vouched.into_medium()
    }

    /// The status.
    pub fn status(&self) -> Status
        ensures { result ≡ self.now.vouched.dos.told.status }
    {
        self.vouched.status()
    }

    /// Sets the status.
    fn tell(&mut self, status: Status)
        ensures done { DirectAnswers status self.old self.new }
        ensures keeps { KeepsVouch M.seen self.old.vouched self.new.vouched }
    {
        self.vouched.tell(status);
    }

    /// Sets a status whose numbers are 0.
    fn say(&mut self, code: Code)
        ensures done { DirectAnswers (plain code) self.old self.new }
        ensures keeps { KeepsVouch M.seen self.old.vouched self.new.vouched }
    {
        self.tell(Status::plain(code));
    }
}
