//! How a drive is addressed on the bus.
ghost use Rattle.std.specs.Prelude.{◌≡◌, ◌≤◌, ◌<◌, ◌++◌, ◌∷◌, [], take, IfSome};
ghost use Rattle.cbm_drive.specs.Addressing.{unaddressed, paced, called, role_turned, given, attended, waiting, atn_released, name_heard, channel_ended, ended_channel, channel_heard, channel_said};

pub(crate) mod ended;
mod saving;

use self::ended::Ended;
use crate::secondary::Secondary;
use arrayvec::ArrayVec;
use cbm_iec::attention::{LISTEN, TALK};
use cbm_iec::{Pace, Role};
use std::marker::Model;
use std::mem;

/// The most bytes of a name that are kept: more than a command and a record have.
const KEPT: usize = 256;

/// A byte is appended to a name, of which the first 256 bytes are kept.
fn keep(name: &mut ArrayVec<u8, 256>, byte: u8)
    ensures { name.new.items ≡ take 256 (name.old.items ++ byte ∷ []) }
{
    if name.len() < KEPT {
        name.push(byte);
    }
}

/// How a drive is addressed on the bus: its role, the channel of its secondary address, and what came after it.
#[derive(Drop)]
pub struct Addressee {
    device: u8,
    pace: Pace,
    role: Role,
    channel: Option<u8>,
    naming: bool,
    freed: bool,
    name: ArrayVec<u8, 256>,
}

impl Model for Addressee {
    ghost use Rattle.std.specs.Prelude.{◌<◌, ◌≤◌, IfSome};
    ghost use Rattle.cbm_drive.specs.Addressing.{Addressed};

    ghost Value = { Addressed };

    ghost view = { λ a. record { device = a.device; pace = a.pace; role = a.role; channel = a.channel; naming = a.naming; freed = a.freed; name = a.name.items } };

    ghost invariant = { λ a. (a.device < 31) × IfSome a.channel (λ c. c ≤ 15) };
}

impl Addressee {
    /// As the drive is switched on, with a device number below 31.
    pub fn new(device: u8) -> Addressee
        requires { device < 31 }
        ensures { result ≡ unaddressed device }
    {
        Addressee {
            device,
            pace: Pace::Profile,
            role: Role::Absent,
            channel: None,
            naming: false,
            freed: false,
            name: ArrayVec::new(),
        }
    }

    /// As the drive is switched on again, with its number and its pace.
    pub fn restart(&mut self)
        ensures { self.new ≡ paced self.old.pace (unaddressed self.old.device) }
    {
        self.role = Role::Absent;
        self.channel = None;
        self.naming = false;
        self.freed = false;
        self.name = ArrayVec::new();
    }

    /// It keeps this pace from now on.
    pub fn keep_pace(&mut self, pace: Pace)
        ensures { self.new ≡ paced pace self.old }
    {
        self.pace = pace;
    }

    /// Its pace.
    pub fn pace(&self) -> Pace
        ensures { result ≡ self.now.pace }
    {
        self.pace
    }

    /// Its role.
    pub fn role(&self) -> Role
        ensures { result ≡ self.now.role }
    {
        self.role
    }

    /// The channel to which a listener's bytes go.
    pub fn channel_heard(&self) -> Option<u8>
        ensures value { result ≡ channel_heard self.now.role self.now.channel }
        ensures channel { IfSome result (λ c. c ≤ 15) }
    {
        match self.role {
            Role::Listener => self.channel,
            Role::Absent | Role::Talker => None,
        }
    }

    /// The channel from which a talker's bytes come.
    pub fn channel_said(&self) -> Option<u8>
        ensures value { result ≡ channel_said self.now.role self.now.channel }
        ensures channel { IfSome result (λ c. c ≤ 15) }
    {
        match self.role {
            Role::Talker => self.channel,
            Role::Absent | Role::Listener => None,
        }
    }

    /// Whether a listener's bytes are the name of an OPEN.
    pub fn is_naming(&self) -> bool
        ensures { result ≡ self.now.naming }
    {
        self.naming
    }

    /// A byte in attention: the role first, then a secondary address for it.
    pub fn attend(&mut self, byte: u8)
        ensures { self.new ≡ attended byte self.old }
    {
        self.call(byte);
        self.turn(byte);
        match (Secondary::of(byte), self.role) {
            (Some(Secondary::Data(channel)), Role::Listener | Role::Talker) => {
                self.give(channel, false);
            }
            (Some(Secondary::Open(channel)), Role::Listener) => self.give(channel, true),
            _ => {}
        }
    }

    /// LISTEN and TALK to this device wait for a secondary address.
    fn call(&mut self, byte: u8)
        ensures { self.new ≡ called byte self.old }
    {
        if byte == LISTEN + self.device || byte == TALK + self.device {
            self.end();
        }
    }

    /// The role after a byte in attention.
    fn turn(&mut self, byte: u8)
        ensures { self.new ≡ role_turned byte self.old }
    {
        self.role = self.role.after(self.device, byte);
    }

    /// A secondary address came, for the name of an OPEN or for bytes.
    fn give(&mut self, channel: u8, naming: bool)
        requires { channel ≤ 15 }
        ensures { self.new ≡ given channel naming self.old }
    {
        self.channel = Some(channel);
        self.naming = naming;
        self.freed = false;
        self.name = ArrayVec::new();
    }

    /// ATN was freed: what comes now is for the channel.
    pub fn release(&mut self)
        ensures { self.new ≡ atn_released self.old }
    {
        self.freed = self.channel.is_some();
    }

    /// A byte came to the listener: of a name the first 256 bytes are kept.
    pub fn hear(&mut self, byte: u8)
        ensures { self.new ≡ name_heard byte self.old }
    {
        if self.naming {
            keep(&mut self.name, byte);
        }
    }

    /// What a listener was sent and would end with a pull of ATN.
    pub fn ended(&self) -> Option<Ended>
        ensures value { result ≡ channel_ended self.now }
        ensures channel { IfSome result (λ e. ended_channel e ≤ 15) }
    {
        if !self.freed {
            return None;
        }
        let channel = self.channel_heard()?;
        if self.naming {
            Some(Ended::Name(channel))
        } else {
            Some(Ended::Bytes(channel))
        }
    }

    /// The secondary address goes. The answer is what came of a name.
    pub fn end(&mut self) -> ArrayVec<u8, 256>
        ensures value { self.new ≡ waiting self.old }
        ensures name { result.items ≡ self.old.name }
    {
        self.channel = None;
        self.naming = false;
        self.freed = false;
        mem::replace(&mut self.name, ArrayVec::new())
    }
}
