// Bytes to a channel and from it.

use crate::direct::DirectDos;
use crate::reading::command_asked;
use cbm_medium::Medium;

impl<M: Medium> DirectDos<M> {
    ghost use Rattle.std.specs.Prelude.{◌≡◌, ◌≢◌, ◌≤◌, ◌<◌, ◌∷◌, [], ℕ, true, false, None, Some, IfSome, IsSome};
    ghost use Rattle.cbm_machine.specs.Talking.{taken, after_talk, talk_keeping_error, after_listen, listen_keeping_error};
    ghost use Rattle.cbm_machine.specs.Calls.{put, text_for};
    ghost use Rattle.cbm_channel.specs.Standing.{Leads};
    ghost use Rattle.cbm_channel.specs.Going.{Goes};
    ghost use Rattle.cbm_channel.specs.Parts.{EndsGathered, OnlyText};
    ghost use Rattle.cbm_direct.specs.declared.asked.Asked.{Asked};
    ghost use Rattle.cbm_direct.specs.Buffered.{has_buffer, on_buffer, pointer_on, with_byte_put};
    ghost use Rattle.cbm_direct.specs.Vouching.{KeepsVouch};
    ghost use Rattle.cbm_direct.specs.Directs.{OfDos, OnlyBuffers, IsDirectCommand, IsToldOn, asked_on, direct_shown};

    /// A byte for a channel: if it has a buffer, the next byte there becomes this one.
    pub fn put(&mut self, channel: u8, byte: u8)
        requires { channel ≤ 15 }
        ensures buffer { has_buffer channel self.old.buffers ≡ true → OnlyBuffers (on_buffer (with_byte_put byte) channel self.old.buffers) self.old self.new }
        ensures dos { has_buffer channel self.old.buffers ≡ false → OfDos (λ old new. Goes M.seen old new ((channel, put channel byte) ∷ [])) self.old.reply self.old self.new }
        ensures keeps { KeepsVouch M.seen self.old.vouched self.new.vouched }
    {
        if self.buffers.has(channel) {
            self.buffers.put(channel, byte);
        } else {
            self.vouched.put(channel, byte);
        }
    }

    /// The end of the bytes for a channel: on 15 a command is carried out.
    pub fn end_put(&mut self, channel: u8)
        requires { channel ≤ 15 }
        ensures command { channel ≡ 15 → (a : Asked) → asked_on M.seen (text_for 15 self.old.vouched.dos.text) self.old ≡ Some a → IsDirectCommand M.seen a self.old self.new }
        ensures dos { channel ≡ 15 → asked_on M.seen (text_for 15 self.old.vouched.dos.text) self.old ≡ None →
            OfDos (EndsGathered M.seen 15) None self.old self.new }
        ensures other { channel ≢ 15 → OfDos (EndsGathered M.seen channel) self.old.reply self.old self.new }
        ensures keeps { KeepsVouch M.seen self.old.vouched self.new.vouched }
    {
        if channel == 15 {
            self.end_command();
        } else {
            self.vouched.end_put(channel);
        }
    }

    /// What was put to channel 15 is a command.
    fn end_command(&mut self)
        ensures command { (a : Asked) → asked_on M.seen (text_for 15 self.old.vouched.dos.text) self.old ≡ Some a → IsDirectCommand M.seen a self.old self.new }
        ensures dos { asked_on M.seen (text_for 15 self.old.vouched.dos.text) self.old ≡ None → OfDos (EndsGathered M.seen 15) None self.old self.new }
        ensures keeps { KeepsVouch M.seen self.old.vouched self.new.vouched }
    {
        let text = self.vouched.gathered();
        match command_asked(&self.vouched, self.buffers.count(), text) {
            None => self.end_other(),
            Some(asked) => {
                self.forget_command();
                self.carry_out(asked);
            }
        }
    }

    /// The DOS carries out what was put to channel 15.
    fn end_other(&mut self)
        ensures dos { OfDos (EndsGathered M.seen 15) None self.old self.new }
        ensures keeps { KeepsVouch M.seen self.old.vouched self.new.vouched }
    {
        self.reply = None;
        self.vouched.end_put(15);
    }

    /// Drops what was put to channel 15, and what M-R asked for.
    pub(super) fn forget_command(&mut self)
        ensures dos { OfDos OnlyText None self.old self.new }
        ensures keeps { KeepsVouch M.seen self.old.vouched self.new.vouched }
    {
        self.reply = None;
        self.vouched.forget_command();
    }

    /// TALK: a channel with a buffer always has bytes.
    pub fn talk(&mut self, channel: u8)
        requires { channel ≤ 15 }
        ensures buffer { has_buffer channel self.old.buffers ≡ true → self.new ≡ self.old }
        ensures dos { has_buffer channel self.old.buffers ≡ false → OfDos (λ old new. Leads M.seen old new (after_talk channel)) self.old.reply self.old self.new }
        ensures keeps { KeepsVouch M.seen self.old.vouched self.new.vouched }
    {
        if !self.buffers.has(channel) {
            self.vouched.talk(channel);
        }
    }

    /// TALK at a KERNAL's pace: an error that nobody has begun to read stays.
    pub fn talk_keeping_error(&mut self, channel: u8)
        requires { channel ≤ 15 }
        ensures buffer { has_buffer channel self.old.buffers ≡ true → self.new ≡ self.old }
        ensures dos { has_buffer channel self.old.buffers ≡ false → OfDos (λ old new. Leads M.seen old new (talk_keeping_error channel)) self.old.reply self.old self.new }
        ensures keeps { KeepsVouch M.seen self.old.vouched self.new.vouched }
    {
        if !self.buffers.has(channel) {
            self.vouched.talk_keeping_error(channel);
        }
    }

    /// LISTEN: a channel with a buffer always takes bytes.
    pub fn listen(&mut self, channel: u8)
        requires { channel ≤ 15 }
        ensures buffer { has_buffer channel self.old.buffers ≡ true → self.new ≡ self.old }
        ensures dos { has_buffer channel self.old.buffers ≡ false → OfDos (λ old new. Leads M.seen old new (after_listen channel)) self.old.reply self.old self.new }
        ensures keeps { KeepsVouch M.seen self.old.vouched self.new.vouched }
    {
        if !self.buffers.has(channel) {
            self.vouched.listen(channel);
        }
    }

    /// LISTEN at a KERNAL's pace: an error that nobody has begun to read stays.
    pub fn listen_keeping_error(&mut self, channel: u8)
        requires { channel ≤ 15 }
        ensures buffer { has_buffer channel self.old.buffers ≡ true → self.new ≡ self.old }
        ensures dos { has_buffer channel self.old.buffers ≡ false → OfDos (λ old new. Leads M.seen old new (listen_keeping_error channel)) self.old.reply self.old self.new }
        ensures keeps { KeepsVouch M.seen self.old.vouched self.new.vouched }
    {
        if !self.buffers.has(channel) {
            self.vouched.listen_keeping_error(channel);
        }
    }

    /// The next byte that a channel sends, and whether it is the last (EOI); None if it has nothing to send.
    pub fn peek(&self, channel: u8) -> Option<(u8, bool)>
        requires { channel ≤ 15 }
        ensures value { result ≡ direct_shown channel self.now }
        ensures byte { IfSome result (λ s. s.0 < 256) }
    {
        if channel == 15 {
            return self.told();
        }
        if self.buffers.has(channel) {
            return self.buffers.shown(channel);
        }
        self.vouched.peek(channel)
    }

    /// What channel 15 sends next.
    fn told(&self) -> Option<(u8, bool)>
        ensures value { result ≡ direct_shown 15 self.now }
        ensures byte { IfSome result (λ s. s.0 < 256) }
    {
        match self.reply {
            Some(reply) => Some(reply.next()),
            None => self.vouched.peek(15),
        }
    }

    /// The byte that `peek` shows was sent; nothing happens if it shows none.
    pub fn taken(&mut self, channel: u8)
        requires { channel ≤ 15 }
        ensures told { channel ≡ 15 → IsToldOn M.seen self.old.reply self.old self.new }
        ensures buffer { channel ≢ 15 → has_buffer channel self.old.buffers ≡ true → OnlyBuffers (on_buffer pointer_on channel self.old.buffers) self.old self.new }
        ensures dos { channel ≢ 15 → has_buffer channel self.old.buffers ≡ false → OfDos (λ old new. Leads M.seen old new (taken channel)) self.old.reply self.old self.new }
        ensures keeps { KeepsVouch M.seen self.old.vouched self.new.vouched }
        // After a byte that isn't the last (EOI) another one waits.
        ensures next { (n : ℕ) → direct_shown channel self.old ≡ Some (n, false) → IsSome (direct_shown channel self.new) }
    {
        if channel == 15 {
            self.told_taken();
        } else if self.buffers.has(channel) {
            self.buffers.go_on(channel);
        } else {
            self.vouched.taken(channel);
        }
    }

    /// The byte that channel 15 shows was sent.
    fn told_taken(&mut self)
        ensures told { IsToldOn M.seen self.old.reply self.old self.new }
        ensures keeps { KeepsVouch M.seen self.old.vouched self.new.vouched }
        ensures next { (n : ℕ) → direct_shown 15 self.old ≡ Some (n, false) → IsSome (direct_shown 15 self.new) }
    {
        match self.reply {
            Some(reply) => self.reply = reply.behind(),
            None => self.vouched.taken(15),
        }
    }
}
