// A drive that is asked by calls, with direct access or without.

ghost use Rattle.std.specs.Prelude.{◌≤◌};

use cbm_channel::{Channels, Dos};
use cbm_direct::{Access, DirectDos};
use cbm_medium::Medium;

/// A drive's DOS.
#[derive(Drop)]
pub enum Called<M: Medium> {
    Plain(Dos<M>),
    Direct(DirectDos<M>),
}

impl<M: Medium> Called<M> {
    /// The drive at power up with this medium.
    pub fn new(medium: M, channels: Channels, direct: Option<Access>) -> Called<M> {
        match direct {
            Some(access) => Called::Direct(DirectDos::new(medium, channels, access)),
            None => Called::Plain(Dos::new(medium, channels)),
        }
    }

    /// OPEN.
    pub fn open(&mut self, channel: u8, text: &[u8])
        requires { channel ≤ 15 }
    {
        match self {
            Called::Plain(dos) => dos.open(channel, text),
            Called::Direct(dos) => dos.open(channel, text),
        }
    }

    /// CLOSE.
    pub fn close(&mut self, channel: u8)
        requires { channel ≤ 15 }
    {
        match self {
            Called::Plain(dos) => dos.close(channel),
            Called::Direct(dos) => dos.close(channel),
        }
    }

    /// LISTEN.
    pub fn listen(&mut self, channel: u8)
        requires { channel ≤ 15 }
    {
        match self {
            Called::Plain(dos) => dos.listen(channel),
            Called::Direct(dos) => dos.listen(channel),
        }
    }

    /// A byte for a channel.
    pub fn put(&mut self, channel: u8, byte: u8)
        requires { channel ≤ 15 }
    {
        match self {
            Called::Plain(dos) => dos.put(channel, byte),
            Called::Direct(dos) => dos.put(channel, byte),
        }
    }

    /// The end of the bytes for a channel.
    pub fn end_put(&mut self, channel: u8)
        requires { channel ≤ 15 }
    {
        match self {
            Called::Plain(dos) => dos.end_put(channel),
            Called::Direct(dos) => dos.end_put(channel),
        }
    }

    /// TALK.
    pub fn talk(&mut self, channel: u8)
        requires { channel ≤ 15 }
    {
        match self {
            Called::Plain(dos) => dos.talk(channel),
            Called::Direct(dos) => dos.talk(channel),
        }
    }

    /// The next byte that a channel sends, and whether it is the last (EOI).
    pub fn peek(&self, channel: u8) -> Option<(u8, bool)>
        requires { channel ≤ 15 }
    {
        match self {
            Called::Plain(dos) => dos.peek(channel),
            Called::Direct(dos) => dos.peek(channel),
        }
    }

    /// That byte was sent.
    pub fn taken(&mut self, channel: u8)
        requires { channel ≤ 15 }
    {
        match self {
            Called::Plain(dos) => dos.taken(channel),
            Called::Direct(dos) => dos.taken(channel),
        }
    }

    /// The medium as it is now.
    pub fn into_medium(self) -> M {
        match self {
            Called::Plain(dos) => dos.into_medium(),
            Called::Direct(dos) => dos.into_medium(),
        }
    }
}
