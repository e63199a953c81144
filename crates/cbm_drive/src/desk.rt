//! The drive's DOS on the bus.

mod saving;

use crate::addressee::Addressee;
use crate::addressee::ended::Ended;
use crate::calls::{close, end_put, open, put};
use crate::secondary::Secondary;
use cbm_channel::{Channels, Dos};
use cbm_iec::{Act, Machine, Pace, Role};
use cbm_medium::Medium;
use std::marker::Model;

/// The drive's DOS on the bus: LISTEN, TALK and secondary addresses become its calls.
///
/// So it is a machine above the wires: each act leads it from the named-files machine that it represents to that machine's
/// next state, or its medium failed by itself, which is counted.
#[derive(Drop)]
pub struct Desk<M: Medium> {
    dos: Dos<M>,
    addressee: Addressee,
}

impl<M: Medium> Model for Desk<M> {
    ghost use Rattle.cbm_channel.specs.Standing.{Kept};
    ghost use Rattle.cbm_drive.specs.Desks as desks;

    ghost Value = { desks.Desk (Kept M) };

    ghost view = { λ d. record { dos = d.dos; addressed = d.addressee } };
}

impl<M: Medium> Desk<M> {
    ghost use Rattle.std.specs.Prelude.{◌≡◌, ◌<◌};
    ghost use Rattle.cbm_file.specs.Files.{Disk};
    ghost use Rattle.cbm_machine.specs.Machines as files;
    ghost use Rattle.cbm_channel.specs.Standing.{Stands};
    ghost use Rattle.cbm_volume.specs.Holding.{HoldsDisk};
    ghost use Rattle.cbm_drive.specs.Afresh.{switched_on};
    ghost use Rattle.cbm_iec.specs.declared.pace.Pace.TheVariants.{Profile};
    ghost use Rattle.cbm_drive.specs.Desks as desks;
    ghost use Rattle.cbm_drive.specs.Desks.{at_first, with_pace, DeskStands};

    /// As the drive is switched on, with a device number below 31.
    pub fn new(dos: Dos<M>, device: u8) -> Desk<M>
        requires { device < 31 }
        ensures value { result ≡ at_first device dos }
        ensures stands { (m : files.Machine) → Stands M.seen dos m → DeskStands M.seen result (at_first device m) }
    {
        Desk {
            dos,
            addressee: Addressee::new(device),
        }
    }

    /// As the drive is switched on with this medium, and a device number below 31. It reads nothing.
    pub fn at_power_up(medium: M, channels: Channels, device: u8) -> Desk<M>
        requires { device < 31 }
        ensures value { result ≡ switched_on device Profile medium }
        ensures stands { (d : Disk) → HoldsDisk (M.seen medium).tracks (M.seen medium).content d → DeskStands M.seen
            result (at_first device (files.start d (M.seen medium).protected (M.seen medium).tracks)) }
    {
        Desk::new(Dos::new(medium, channels), device)
    }

    /// The same drive at this pace, which a drive on the bus has of its `Party`.
    pub fn with_pace(mut self, pace: Pace) -> Desk<M>
        ensures value { result ≡ with_pace pace self }
        ensures stands { (d : desks.Desk files.Machine) → DeskStands M.seen self d →
            DeskStands M.seen result (with_pace pace d) }
    {
        self.addressee.keep_pace(pace);
        self
    }

    /// The DOS, to look at: its calls are the bus's alone.
    pub fn dos(&self) -> &Dos<M>
        ensures { result.now ≡ self.now.dos }
    {
        &self.dos
    }

    // The DOS.
    fn into_dos(self) -> Dos<M>
        ensures { result ≡ self.dos }
    {
        let Desk { dos, .. } = self;
        dos
    }

    /// The medium as it is now; channels that are open are dropped.
    pub fn into_medium(self) -> M
        ensures medium { result ≡ self.dos.medium }
        ensures disk { (m : files.Machine) → Stands M.seen self.dos m →
            HoldsDisk (M.seen result).tracks (M.seen result).content m.disk }
    {
        self.into_dos().into_medium()
    }
}

impl<M: Medium> Desk<M> {
    ghost use Rattle.std.specs.Prelude.{◌≡◌, ◌<◌, ◌≤◌, ℕ, true, false, Some, IfSome, IsSome};
    ghost use Rattle.cbm_iec.specs.Machines.{owes};
    ghost use Rattle.cbm_channel.specs.Exchanged.{still_telling};
    ghost use Rattle.cbm_file.specs.Files.{Disk};
    ghost use Rattle.cbm_machine.specs.Machines as files;
    ghost use Rattle.cbm_volume.specs.Holding.{HoldsDisk};
    ghost use Rattle.cbm_drive.specs.Afresh.{restarted, with_another};
    ghost use Rattle.cbm_drive.specs.Addressing.{unaddressed, paced, attended, waiting, name_heard, atn_released, secondary_of, channel_named, channel_heard, channel_said, channel_ended, addressed_after};
    ghost use Rattle.cbm_drive.specs.Desks as desks;
    ghost use Rattle.cbm_drive.specs.Desks.{talked_to, listened_to, seconded, ending, put_to, taken_from, desk_asked, desk_says, desk_shows, DeskStands, LeadsUnfailed, IsAlike};

    /// ATN was pulled: what a listener was sent ends, and the secondary address goes.
    fn pulled(&mut self)
        ensures leads { LeadsUnfailed M.seen self.old.dos self.new.dos (ending (channel_ended self.old.addressed) self.old.addressed.name) }
        ensures addressed { self.new.addressed ≡ waiting self.old.addressed }
        ensures tracks { (M.seen self.new.dos.medium).tracks ≡ (M.seen self.old.dos.medium).tracks }
        ensures counted { (M.seen self.old.dos.medium).failures ≤ (M.seen self.new.dos.medium).failures }
    {
        let ended = self.addressee.ended();
        let name = self.addressee.end();
        match ended {
            Some(Ended::Name(channel)) => open(&mut self.dos, channel, name.as_slice()),
            Some(Ended::Bytes(channel)) => end_put(&mut self.dos, channel),
            None => {}
        }
    }

    /// A byte came in attention: a secondary address asks something of the channel, by the role.
    fn attended(&mut self, byte: u8)
        ensures leads { LeadsUnfailed M.seen self.old.dos self.new.dos (seconded self.old.addressed.pace (secondary_of byte) self.old.addressed.role) }
        ensures addressed { self.new.addressed ≡ attended byte self.old.addressed }
        ensures tracks { (M.seen self.new.dos.medium).tracks ≡ (M.seen self.old.dos.medium).tracks }
        ensures counted { (M.seen self.old.dos.medium).failures ≤ (M.seen self.new.dos.medium).failures }
    {
        self.second(Secondary::of(byte));
        self.addressee.attend(byte);
    }

    /// What a secondary address asks of the DOS.
    fn second(&mut self, secondary: Option<Secondary>)
        requires { IfSome secondary (λ s. channel_named s ≤ 15) }
        ensures leads { LeadsUnfailed M.seen self.old.dos self.new.dos (seconded self.old.addressed.pace secondary self.old.addressed.role) }
        ensures addressed { self.new.addressed ≡ self.old.addressed }
        ensures tracks { (M.seen self.new.dos.medium).tracks ≡ (M.seen self.old.dos.medium).tracks }
        ensures counted { (M.seen self.old.dos.medium).failures ≤ (M.seen self.new.dos.medium).failures }
    {
        match (secondary, self.addressee.role()) {
            (Some(Secondary::Data(channel)), Role::Listener) => self.listen(channel),
            (Some(Secondary::Data(channel)), Role::Talker) => self.talk(channel),
            (Some(Secondary::Close(channel)), Role::Listener) => close(&mut self.dos, channel),
            _ => {}
        }
    }

    /// A talker's channel is asked for bytes, by the drive's pace.
    fn talk(&mut self, channel: u8)
        requires { channel ≤ 15 }
        ensures leads { LeadsUnfailed M.seen self.old.dos self.new.dos (talked_to self.old.addressed.pace channel) }
        ensures addressed { self.new.addressed ≡ self.old.addressed }
        ensures tracks { (M.seen self.new.dos.medium).tracks ≡ (M.seen self.old.dos.medium).tracks }
        ensures counted { (M.seen self.old.dos.medium).failures ≤ (M.seen self.new.dos.medium).failures }
    {
        match self.addressee.pace() {
            Pace::Profile => self.dos.talk(channel),
            Pace::Kernal => self.dos.talk_keeping_error(channel),
        }
    }

    /// A listener's channel is asked to take bytes, by the drive's pace.
    fn listen(&mut self, channel: u8)
        requires { channel ≤ 15 }
        ensures leads { LeadsUnfailed M.seen self.old.dos self.new.dos (listened_to self.old.addressed.pace channel) }
        ensures addressed { self.new.addressed ≡ self.old.addressed }
        ensures tracks { (M.seen self.new.dos.medium).tracks ≡ (M.seen self.old.dos.medium).tracks }
        ensures counted { (M.seen self.old.dos.medium).failures ≤ (M.seen self.new.dos.medium).failures }
    {
        match self.addressee.pace() {
            Pace::Profile => self.dos.listen(channel),
            Pace::Kernal => self.dos.listen_keeping_error(channel),
        }
    }

    /// A byte came to the listener, for a name or for its channel.
    fn heard(&mut self, byte: u8)
        ensures leads { let a = self.old.addressed in
            LeadsUnfailed M.seen self.old.dos self.new.dos (put_to a.naming (channel_heard a.role a.channel) byte) }
        ensures addressed { self.new.addressed ≡ name_heard byte self.old.addressed }
        ensures tracks { (M.seen self.new.dos.medium).tracks ≡ (M.seen self.old.dos.medium).tracks }
        ensures counted { (M.seen self.old.dos.medium).failures ≤ (M.seen self.new.dos.medium).failures }
    {
        if self.addressee.is_naming() {
            self.addressee.hear(byte);
            return;
        }
        if let Some(channel) = self.addressee.channel_heard() {
            put(&mut self.dos, channel, byte);
        }
    }

    /// ATN was freed.
    fn released(&mut self)
        ensures dos { self.new.dos ≡ self.old.dos }
        ensures addressed { self.new.addressed ≡ atn_released self.old.addressed }
        ensures tracks { (M.seen self.new.dos.medium).tracks ≡ (M.seen self.old.dos.medium).tracks }
        ensures counted { (M.seen self.old.dos.medium).failures ≤ (M.seen self.new.dos.medium).failures }
    {
        self.addressee.release();
    }

    /// The talker's byte was taken; after one that isn't the last (EOI) there is another, on any disk.
    fn said(&mut self)
        ensures leads { let a = self.old.addressed in
            LeadsUnfailed M.seen self.old.dos self.new.dos (taken_from (channel_said a.role a.channel)) }
        ensures addressed { self.new.addressed ≡ self.old.addressed }
        ensures tracks { (M.seen self.new.dos.medium).tracks ≡ (M.seen self.old.dos.medium).tracks }
        ensures counted { (M.seen self.old.dos.medium).failures ≤ (M.seen self.new.dos.medium).failures }
        ensures next { (n : ℕ) → desk_shows self.old ≡ Some (n, false) → IsSome (desk_shows self.new) }
    {
        if let Some(channel) = self.addressee.channel_said() {
            self.dos.taken(channel);
        }
    }

    /// Does what an act asks.
    fn obey(&mut self, act: Act)
        ensures leads { LeadsUnfailed M.seen self.old.dos self.new.dos (desk_asked act self.old.addressed) }
        ensures addressed { self.new.addressed ≡ addressed_after act self.old.addressed }
        ensures tracks { (M.seen self.new.dos.medium).tracks ≡ (M.seen self.old.dos.medium).tracks }
        ensures counted { (M.seen self.old.dos.medium).failures ≤ (M.seen self.new.dos.medium).failures }
        ensures owed { owes act (desk_shows self.old) ≡ true → IsSome (desk_shows self.new) }
    {
        match act {
            Act::Pulled => self.pulled(),
            Act::Attention(byte) => self.attended(byte),
            Act::Released => self.released(),
            Act::Heard(byte, _) => self.heard(byte),
            Act::Said(..) => self.said(),
            Act::Silent => {}
        }
    }

    /// The drive is switched off and on with its disk.
    pub(crate) fn restart(&mut self)
        ensures value { self.new ≡ restarted self.old }
        ensures stands { let now = M.seen self.old.dos.medium in let was = self.old.addressed in (d : Disk) →
            HoldsDisk now.tracks now.content d → DeskStands M.seen self.new (record {
              dos = files.start d now.protected now.tracks;
              addressed = paced was.pace (unaddressed was.device);
            }) }
    {
        self.dos.restart();
        self.addressee.restart();
    }

    /// Another disk is put in; who is addressed and the status stay.
    pub(crate) fn insert(&mut self, medium: M)
    where
        M: Drop,
        ensures value { self.new ≡ with_another medium self.old }
        ensures stands { let now = M.seen medium in let was = self.old in (d : Disk) →
            HoldsDisk now.tracks now.content d → DeskStands M.seen self.new (record {
              dos = still_telling was.dos.told (files.start d now.protected now.tracks);
              addressed = was.addressed;
            }) }
    {
        self.dos.insert(medium);
        let _byte = self.shown();
    }

    /// The byte that there is to say, and whether it is the last.
    fn shown(&self) -> Option<(u8, bool)>
        ensures value { (d : desks.Desk files.Machine) → IsAlike M.seen self.now d → result ≡ desk_says d }
        ensures shows { result ≡ desk_shows self.now }
        ensures byte { IfSome result (λ s. s.0 < 256) }
    {
        let channel = self.addressee.channel_said()?;
        self.dos.peek(channel)
    }
}

impl<M: Medium> Machine for Desk<M> {
    ghost use Rattle.cbm_machine.specs.Machines as files;
    ghost use Rattle.cbm_drive.specs.Desks as desks;
    ghost use Rattle.cbm_drive.specs.Desks.{desk_step, desk_says, desk_shows, DeskStands};
    ghost use Rattle.cbm_drive.specs.NextSaid.{is_byte, more_said};

    ghost State = { desks.Desk files.Machine };

    ghost step = { desk_step };

    ghost says = { desk_says };

    ghost stands = { λ x d. DeskStands M.seen x d };

    ghost shows = { desk_shows };

    ghost lasting = { λ x. (M.seen x.dos.medium).tracks };

    ghost failures = { λ x. (M.seen x.dos.medium).failures };

    fn act(&mut self, act: Act) {
        self.obey(act);
        let _byte = self.shown();
    }

    fn peek(&self) -> Option<(u8, bool)> {
        self.shown()
    }

    ghost byte = { λ x d n last s e. is_byte (desk_says d) n last s.1 e };

    ghost more = { more_said };
}
