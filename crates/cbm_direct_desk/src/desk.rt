//! A drive with direct access, addressed by LISTEN, TALK and secondary addresses.

use cbm_direct::{Access, DirectDos};
use cbm_drive::{Act, Addressee, Channels, Ended, Machine, Pace, Restarts, Secondary, Takes};
use cbm_iec::Role;
use cbm_medium::Medium;
use std::marker::Model;

/// A drive with direct access on the bus: LISTEN, TALK and secondary addresses become its calls.
#[derive(Drop)]
pub struct DirectDesk<M: Medium> {
    dos: DirectDos<M>,
    addressee: Addressee,
}

impl<M: Medium> Model for DirectDesk<M> {
    ghost use Rattle.cbm_direct_desk.specs.DirectDesks.{DirectAddressed};

    ghost Value = { DirectAddressed M };

    ghost view = { λ d. record { dos = d.dos; addressed = d.addressee } };
}

impl<M: Medium> DirectDesk<M> {
    ghost use Rattle.std.specs.Prelude.{◌≡◌, ◌<◌};
    ghost use Rattle.cbm_drive.specs.Addressing.{unaddressed, paced};
    ghost use Rattle.cbm_direct.specs.declared.access.Access.TheVariants.{Guarded};
    ghost use Rattle.cbm_direct.specs.declared.vouch.Vouch.TheVariants.{Sound};
    ghost use Rattle.cbm_direct.specs.Vouching.{ShowsDisk, IsSoundSince};
    ghost use Rattle.cbm_direct.specs.Directs.{IsPoweredWith};

    /// As the drive is switched on with this medium, and a device number below 31. Unless any sector may be written, it looks whether the disk is
    /// sound.
    pub fn at_power_up(medium: M, channels: Channels, device: u8, access: Access) -> DirectDesk<M>
        requires { device < 31 }
        ensures medium { result.dos.vouched.dos.medium ≡ medium }
        ensures sound { access ≡ Guarded → ShowsDisk (M.seen medium) → result.dos.vouched.vouch ≡ Sound (M.seen medium).failures }
        ensures powered { IsPoweredWith M.seen medium access result.dos }
        ensures addressed { result.addressed ≡ unaddressed device }
    {
        DirectDesk {
            dos: DirectDos::new(medium, channels, access),
            addressee: Addressee::new(device),
        }
    }

    /// The same drive at this pace, which a drive on the bus has of its `Party`.
    pub fn with_pace(mut self, pace: Pace) -> DirectDesk<M>
        ensures { result ≡ (record { dos = self.dos; addressed = paced pace self.addressed }) }
    {
        self.addressee.keep_pace(pace);
        self
    }

    /// The drive's DOS, to look at.
    pub fn dos(&self) -> &DirectDos<M>
        ensures { result.now ≡ self.now.dos }
    {
        &self.dos
    }

    /// The medium as it is now: it has a sound disk if it did when it was put in, and didn't fail by itself since.
    pub fn into_medium(self) -> M
        ensures medium { result ≡ self.dos.vouched.dos.medium }
        ensures sound { IsSoundSince self.dos.vouched.vouch (M.seen result) }
    {
        let DirectDesk { dos, .. } = self;
        dos.into_medium()
    }
}

impl<M: Medium> DirectDesk<M> {
    ghost use Rattle.std.specs.Prelude.{◌≡◌, ◌<◌, ◌≤◌, ℕ, true, false, Some, IfSome, IsSome};
    ghost use Rattle.cbm_iec.specs.Machines.{owes};
    ghost use Rattle.cbm_drive.specs.Addressing.{attended, waiting, name_heard, atn_released, channel_named, addressed_after};
    ghost use Rattle.cbm_direct_desk.specs.DirectDesks.{KeepsDesk, direct_desk_shows};

    /// ATN was pulled: what a listener was sent ends, and the secondary address goes.
    fn pulled(&mut self)
        ensures keeps { KeepsDesk M.seen self.old self.new }
        ensures addressed { self.new.addressed ≡ waiting self.old.addressed }
    {
        let ended = self.addressee.ended();
        let name = self.addressee.end();
        match ended {
            Some(Ended::Name(channel)) => self.dos.open(channel, name.as_slice()),
            Some(Ended::Bytes(channel)) => self.dos.end_put(channel),
            None => {}
        }
    }

    /// A byte came in attention: a secondary address asks something of the channel, by the role.
    fn attended(&mut self, byte: u8)
        ensures keeps { KeepsDesk M.seen self.old self.new }
        ensures addressed { self.new.addressed ≡ attended byte self.old.addressed }
    {
        self.second(Secondary::of(byte));
        self.addressee.attend(byte);
    }

    /// What a secondary address asks of the DOS.
    fn second(&mut self, secondary: Option<Secondary>)
        requires { IfSome secondary (λ s. channel_named s ≤ 15) }
        ensures keeps { KeepsDesk M.seen self.old self.new }
        ensures addressed { self.new.addressed ≡ self.old.addressed }
    {
        match (secondary, self.addressee.role()) {
            (Some(Secondary::Data(channel)), Role::Listener) => self.listen(channel),
            (Some(Secondary::Data(channel)), Role::Talker) => self.talk(channel),
            (Some(Secondary::Close(channel)), Role::Listener) => self.dos.close(channel),
            _ => {}
        }
    }

    /// A talker's channel is asked for bytes, by the drive's pace.
    fn talk(&mut self, channel: u8)
        requires { channel ≤ 15 }
        ensures keeps { KeepsDesk M.seen self.old self.new }
        ensures addressed { self.new.addressed ≡ self.old.addressed }
    {
        match self.addressee.pace() {
            Pace::Profile => self.dos.talk(channel),
            Pace::Kernal => self.dos.talk_keeping_error(channel),
        }
    }

    /// A listener's channel is asked to take bytes, by the drive's pace.
    fn listen(&mut self, channel: u8)
        requires { channel ≤ 15 }
        ensures keeps { KeepsDesk M.seen self.old self.new }
        ensures addressed { self.new.addressed ≡ self.old.addressed }
    {
        match self.addressee.pace() {
            Pace::Profile => self.dos.listen(channel),
            Pace::Kernal => self.dos.listen_keeping_error(channel),
        }
    }

    /// A byte came to the listener, for a name or for its channel.
    fn heard(&mut self, byte: u8)
        ensures keeps { KeepsDesk M.seen self.old self.new }
        ensures addressed { self.new.addressed ≡ name_heard byte self.old.addressed }
    {
        if self.addressee.is_naming() {
            self.addressee.hear(byte);
            return;
        }
        if let Some(channel) = self.addressee.channel_heard() {
            self.dos.put(channel, byte);
        }
    }

    /// ATN was freed.
    fn released(&mut self)
        ensures keeps { KeepsDesk M.seen self.old self.new }
        ensures addressed { self.new.addressed ≡ atn_released self.old.addressed }
    {
        self.addressee.release();
    }

    /// The talker's byte was taken; after one that isn't the last (EOI) there is another.
    fn said(&mut self)
        ensures keeps { KeepsDesk M.seen self.old self.new }
        ensures addressed { self.new.addressed ≡ self.old.addressed }
        ensures next { (n : ℕ) → direct_desk_shows self.old ≡ Some (n, false) → IsSome (direct_desk_shows self.new) }
    {
        if let Some(channel) = self.addressee.channel_said() {
            self.dos.taken(channel);
        }
    }

    /// Does what an act asks.
    fn obey(&mut self, act: Act)
        ensures keeps { KeepsDesk M.seen self.old self.new }
        ensures addressed { self.new.addressed ≡ addressed_after act self.old.addressed }
        ensures owed { owes act (direct_desk_shows self.old) ≡ true → IsSome (direct_desk_shows self.new) }
    {
        match act {
            Act::Pulled => self.pulled(),
            Act::Attention(byte) => self.attended(byte),
            Act::Released => self.released(),
            Act::Heard(byte, _) => self.heard(byte),
            Act::Said(..) => self.said(),
            Act::Silent => {}
        }
    }

    /// The byte that there is to say, and whether it is the last.
    fn shown(&self) -> Option<(u8, bool)>
        ensures shows { result ≡ direct_desk_shows self.now }
        ensures byte { IfSome result (λ s. s.0 < 256) }
    {
        let channel = self.addressee.channel_said()?;
        self.dos.peek(channel)
    }
}

impl<M: Medium> Machine for DirectDesk<M> {
    ghost use Rattle.cbm_direct.specs.Vouching.{vouch_number};
    ghost use Rattle.std.specs.Prelude.{None};
    ghost use Rattle.cbm_direct_desk.specs.DirectDesks.{direct_desk_shows, never_more};

    ghost State = { Unit {0} };

    ghost step = { λ m act. m };

    ghost says = { λ m. None };

    ghost stands = { λ x m. ⊥ };

    ghost shows = { direct_desk_shows };

    ghost lasting = { λ x. vouch_number x.dos.vouched.vouch };

    ghost failures = { λ x. (M.seen x.dos.vouched.dos.medium).failures };

    fn act(&mut self, act: Act) {
        self.obey(act);
        let _byte = self.shown();
    }

    fn peek(&self) -> Option<(u8, bool)> {
        self.shown()
    }

    ghost byte = { λ x m n last s e. absurd s };

    ghost more = { never_more };
}

impl<M: Medium> Restarts for DirectDesk<M> {
    ghost use Rattle.cbm_direct_desk.specs.DirectDesks.{IsStartedAgain};

    ghost restarts = { λ old new. IsStartedAgain M.seen old new };

    fn restart(&mut self) {
        self.dos.restart();
        self.addressee.restart();
    }
}

impl<M: Medium + Drop> Takes<M> for DirectDesk<M> {
    ghost use Rattle.cbm_direct_desk.specs.DirectDesks.{IsGivenDisk};

    ghost takes = { λ medium old new. IsGivenDisk M.seen medium old new };

    fn take(&mut self, medium: M) {
        self.dos.insert(medium);
    }
}
