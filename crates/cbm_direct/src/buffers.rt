use crate::buffer::Buffer;
use crate::form::Form;
use std::marker::Model;

/// The drive's three buffers.
#[derive(Drop)]
pub struct Buffers {
    first: Buffer,
    second: Buffer,
    third: Buffer,
}

impl Model for Buffers {
    ghost use Rattle.cbm_direct.specs.Buffered.{ThreeBuffers};

    ghost Value = { ThreeBuffers };

    ghost view = { λ b. record { first = b.first; second = b.second; third = b.third } };
}

impl Buffers {
    ghost use Rattle.std.specs.Prelude.{◌≡◌, ◌<◌, ◌≤◌, true, false, IfSome, MatchOption, MatchBool, None, Some};
    ghost use Rattle.cbm_direct.specs.Buffered.{three_free, has_buffer, on_buffer, shown_in, bytes_of_channel, taken_count, with_any_for, with_number_for, given_back, loaded, at_place, pointer_on, with_byte_put};

    /// Three buffers at power up.
    pub fn free() -> Buffers
        ensures { result ≡ three_free }
    {
        Buffers {
            first: Buffer::free(),
            second: Buffer::free(),
            third: Buffer::free(),
        }
    }

    /// Whether this channel has one.
    pub fn has(&self, channel: u8) -> bool
        ensures { result ≡ has_buffer channel self.now }
    {
        self.first.is_on(channel) || self.second.is_on(channel) || self.third.is_on(channel)
    }

    /// How many channels have one.
    pub fn count(&self) -> usize
        ensures value { result ≡ taken_count self.now }
        ensures few { result ≤ 3 }
    {
        self.first.count() + self.second.count() + self.third.count()
    }

    /// The first one that is free becomes this channel's; false if none is.
    pub fn open_any(&mut self, channel: u8) -> bool
        ensures { MatchBool result (with_any_for channel self.old ≡ Some self.new)
            ((with_any_for channel self.old ≡ None) × (self.new ≡ self.old)) }
    {
        if self.first.is_free() {
            self.first.open(channel);
        } else if self.second.is_free() {
            self.second.open(channel);
        } else if self.third.is_free() {
            self.third.open(channel);
        } else {
            return false;
        }
        true
    }

    /// The one of this number, 0 to 2, becomes this channel's; false if it isn't free, or if there is none such.
    pub fn open_number(&mut self, number: u8, channel: u8) -> bool
        ensures { MatchBool result (with_number_for number channel self.old ≡ Some self.new)
            ((with_number_for number channel self.old ≡ None) × (self.new ≡ self.old)) }
    {
        if number == 0 && self.first.is_free() {
            self.first.open(channel);
        } else if number == 1 && self.second.is_free() {
            self.second.open(channel);
        } else if number == 2 && self.third.is_free() {
            self.third.open(channel);
        } else {
            return false;
        }
        true
    }

    /// This channel gives its buffer back.
    pub fn close(&mut self, channel: u8)
        ensures { self.new ≡ on_buffer given_back channel self.old }
    {
        if self.first.is_on(channel) {
            self.first.close();
        } else if self.second.is_on(channel) {
            self.second.close();
        } else if self.third.is_on(channel) {
            self.third.close();
        }
    }

    /// All are given back.
    pub fn close_all(&mut self)
        ensures { self.new ≡ (record { first = given_back self.old.first; second = given_back self.old.second; third = given_back self.old.third }) }
    {
        self.first.close();
        self.second.close();
        self.third.close();
    }

    /// The channel's buffer gets a sector's bytes.
    pub fn load(&mut self, channel: u8, bytes: &[u8; 256], form: Form)
        ensures { self.new ≡ on_buffer (loaded form bytes.now) channel self.old }
    {
        if self.first.is_on(channel) {
            self.first.load(bytes, form);
        } else if self.second.is_on(channel) {
            self.second.load(bytes, form);
        } else if self.third.is_on(channel) {
            self.third.load(bytes, form);
        }
    }

    /// The next byte of the channel's buffer is the one of this place.
    pub fn seek(&mut self, channel: u8, pointer: u8)
        ensures { self.new ≡ on_buffer (at_place pointer) channel self.old }
    {
        if self.first.is_on(channel) {
            self.first.seek(pointer);
        } else if self.second.is_on(channel) {
            self.second.seek(pointer);
        } else if self.third.is_on(channel) {
            self.third.seek(pointer);
        }
    }

    /// The next byte of the channel's buffer was sent.
    pub fn go_on(&mut self, channel: u8)
        ensures { self.new ≡ on_buffer pointer_on channel self.old }
    {
        if self.first.is_on(channel) {
            self.first.go_on();
        } else if self.second.is_on(channel) {
            self.second.go_on();
        } else if self.third.is_on(channel) {
            self.third.go_on();
        }
    }

    /// The next byte of the channel's buffer becomes this one.
    pub fn put(&mut self, channel: u8, byte: u8)
        ensures { self.new ≡ on_buffer (with_byte_put byte) channel self.old }
    {
        if self.first.is_on(channel) {
            self.first.put(byte);
        } else if self.second.is_on(channel) {
            self.second.put(byte);
        } else if self.third.is_on(channel) {
            self.third.put(byte);
        }
    }

    /// The bytes of the channel's buffer; None if it has none.
    pub fn bytes(&self, channel: u8, form: Form) -> Option<[u8; 256]>
        ensures { result ≡ bytes_of_channel form channel self.now }
    {
        if self.first.is_on(channel) {
            return Some(self.first.bytes(form));
        }
        if self.second.is_on(channel) {
            return Some(self.second.bytes(form));
        }
        if self.third.is_on(channel) {
            return Some(self.third.bytes(form));
        }
        None
    }

    /// The next byte of the channel's buffer, and whether EOI comes with it; None if it has none.
    pub fn shown(&self, channel: u8) -> Option<(u8, bool)>
        ensures value { result ≡ shown_in channel self.now }
        ensures byte { IfSome result (λ s. s.0 < 256) }
    {
        if self.first.is_on(channel) {
            return Some(self.first.next());
        }
        if self.second.is_on(channel) {
            return Some(self.second.next());
        }
        if self.third.is_on(channel) {
            return Some(self.third.next());
        }
        None
    }
}
