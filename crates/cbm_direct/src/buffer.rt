ghost use Rattle.std.specs.Prelude.{◌≡◌, replicate};
ghost use Rattle.cbm_direct.specs.Buffered.{is_channel, is_free, taken_one};

use crate::form::Form;
use std::marker::Model;

/// A block of zeros.
fn zeros() -> [u8; 256]
    ensures { result ≡ replicate 256 0 }
{
    [0; 256]
}

/// Whether the channel is this one.
fn is_channel(own: Option<u8>, channel: u8) -> bool
    ensures { result ≡ is_channel channel own }
{
    match own {
        None => false,
        Some(own) => own == channel,
    }
}

/// A buffer of 256 bytes that a channel may have for itself, and the place of its next byte.
#[derive(Drop)]
pub struct Buffer {
    channel: Option<u8>,
    bytes: [u8; 256],
    pointer: u8,
    last: u8,
}

impl Model for Buffer {
    ghost use Rattle.cbm_direct.specs.Buffered.{Buffered};

    ghost Value = { Buffered };

    ghost view = { λ b. record { channel = b.channel; bytes = b.bytes; pointer = b.pointer; last = b.last } };
}

impl Buffer {
    ghost use Rattle.std.specs.Prelude.{◌≡◌, ◌<◌, ◌≤◌};
    ghost use Rattle.cbm_direct.specs.Buffered.{free_buffer, has_it, with_channel_open, given_back, loaded, at_place, pointer_on, with_byte_put, next_in, bytes_by_form, bytes_counted};

    /// A buffer at power up: zeros that no channel has.
    pub fn free() -> Buffer
        ensures { result ≡ free_buffer }
    {
        Buffer {
            channel: None,
            bytes: zeros(),
            pointer: 0,
            last: 255,
        }
    }

    /// Whether this channel has it.
    pub fn is_on(&self, channel: u8) -> bool
        ensures { result ≡ has_it channel self.now }
    {
        is_channel(self.channel, channel)
    }

    /// Whether no channel has it.
    pub fn is_free(&self) -> bool
        ensures { result ≡ is_free self.now.channel }
    {
        self.channel.is_none()
    }

    /// One if a channel has it, else 0.
    pub fn count(&self) -> usize
        ensures value { result ≡ taken_one self.now.channel }
        ensures few { result ≤ 1 }
    {
        match self.channel {
            None => 0,
            Some(_) => 1,
        }
    }

    /// This channel has it from now on; its bytes stay, and the next one is byte 1.
    pub fn open(&mut self, channel: u8)
        ensures { self.new ≡ with_channel_open channel self.old }
    {
        self.channel = Some(channel);
        self.pointer = 1;
        self.last = 255;
    }

    /// No channel has it from now on.
    pub fn close(&mut self)
        ensures { self.new ≡ given_back self.old }
    {
        self.channel = None;
    }

    /// It gets a sector's bytes. Whole, the next one is byte 0, and EOI comes with byte 255; counted, the next one is byte 1, and EOI comes with
    /// the byte whose place byte 0 says.
    pub fn load(&mut self, bytes: &[u8; 256], form: Form)
        ensures { self.new ≡ loaded form bytes.now self.old }
    {
        self.bytes = *bytes;
        match form {
            Form::Whole => {
                self.pointer = 0;
                self.last = 255;
            }
            Form::Counted => {
                self.pointer = 1;
                self.last = bytes[0];
            }
        }
    }

    /// The next byte is the one of this place.
    pub fn seek(&mut self, pointer: u8)
        ensures { self.new ≡ at_place pointer self.old }
    {
        self.pointer = pointer;
    }

    /// The next byte is the one behind; byte 0 comes behind byte 255.
    pub fn go_on(&mut self)
        ensures { self.new ≡ pointer_on self.old }
    {
        self.pointer = self.pointer.wrapping_add(1);
    }

    /// The next byte becomes this one, and the one behind is the next.
    pub fn put(&mut self, byte: u8)
        ensures { self.new ≡ with_byte_put byte self.old }
    {
        self.bytes[self.pointer as usize] = byte;
        self.pointer = self.pointer.wrapping_add(1);
    }

    /// Its bytes. Counted, byte 0 says the place of the byte before the next one.
    pub fn bytes(&self, form: Form) -> [u8; 256]
        ensures { result ≡ bytes_by_form form self.now }
    {
        match form {
            Form::Whole => self.bytes,
            Form::Counted => self.counted(),
        }
    }

    /// Its bytes, of which byte 0 says the place of the byte before the next one.
    fn counted(&self) -> [u8; 256]
        ensures { result ≡ bytes_counted self.now }
    {
        let mut bytes = self.bytes;
        bytes[0] = self.pointer.wrapping_add(255);
        bytes
    }

    /// The next byte, and whether EOI comes with it.
    pub fn next(&self) -> (u8, bool)
        ensures value { result ≡ next_in self.now }
        ensures byte { result.0 < 256 }
    {
        (self.bytes[self.pointer as usize], self.pointer == self.last)
    }
}
