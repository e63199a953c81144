// OPEN and CLOSE.

ghost use Rattle.std.specs.Prelude.{◌≤◌};

use crate::direct::DirectDos;
use crate::reading::command_asked;
use crate::wanted::{Wanted, wanted_by};
use cbm_channel::{Code, FileType, Opening};
use cbm_command::parse_open;
use cbm_medium::Medium;

/// How many buffers the DOS and direct access have.
const MOST_BUFFERS: usize = 3;

/// How many buffers an OPEN needs of them at least: two if it asks for records, none if its text is refused.
fn needed(channel: u8, text: &[u8]) -> usize
    ensures { result ≤ 2 }
{
    match parse_open(channel, text) {
        Err(_) => 0,
        Ok(Opening::File(wanted)) if wanted.kind == Some(FileType::Rel) => 2,
        Ok(_) => 1,
    }
}

impl<M: Medium> DirectDos<M> {
    ghost use Rattle.std.specs.Prelude.{◌≡◌, ◌≤◌, ◌<◌, None, Some, MatchBool};
    ghost use Rattle.cbm_channel.specs.Opening.{OpensFrom};
    ghost use Rattle.cbm_direct.specs.declared.asked.Asked.{Asked};
    ghost use Rattle.cbm_direct.specs.Vouching.{KeepsVouch};
    ghost use Rattle.cbm_direct.specs.Directs.{OfDos, OnlyBuffersOf, IsAskedDone, AreAllClosed, IsClosedHere, IsOpenedHere, IsOpenedBeside, IsBufferOpened, asked_on, buffer_opened_by};

    /// OPEN: on channel 15 the text is a command; `#` asks for a buffer; all else is the DOS's. A channel that is open is closed first.
    pub fn open(&mut self, channel: u8, text: &[u8])
        requires { channel ≤ 15 }
        ensures direct { channel ≡ 15 → (a : Asked) → asked_on M.seen text.now self.old ≡ Some a → IsAskedDone M.seen a (record self.old { reply = None }) self.new }
        ensures command { channel ≡ 15 → asked_on M.seen text.now self.old ≡ None → OfDos (OpensFrom M.seen 15 text.now) None self.old self.new }
        ensures opened { channel < 15 → IsOpenedHere M.seen channel text.now self.old self.new }
        ensures keeps { KeepsVouch M.seen self.old.vouched self.new.vouched }
    {
        if channel == 15 {
            self.open_command(text);
        } else if let Some(wanted) = wanted_by(text) {
            self.close(channel);
            self.open_buffer(channel, wanted);
        } else if self.buffers.count() == 0 {
            self.vouched.open(channel, text);
        } else {
            self.close(channel);
            self.open_beside(channel, text);
        }
    }

    /// A command as the text of an OPEN of channel 15.
    fn open_command(&mut self, text: &[u8])
        ensures direct { (a : Asked) → asked_on M.seen text.now self.old ≡ Some a → IsAskedDone M.seen a (record self.old { reply = None }) self.new }
        ensures dos { asked_on M.seen text.now self.old ≡ None → OfDos (OpensFrom M.seen 15 text.now) None self.old self.new }
        ensures keeps { KeepsVouch M.seen self.old.vouched self.new.vouched }
    {
        self.reply = None;
        match command_asked(&self.vouched, self.buffers.count(), text) {
            None => self.vouched.open(15, text),
            Some(asked) => self.carry_out(asked),
        }
    }

    /// OPEN of a closed channel with `#`: the status is 70 if no buffer is free or not the one that is asked for, 30 if the text can't
    /// be read, else 00.
    fn open_buffer(&mut self, channel: u8, wanted: Wanted)
        ensures opened { IsBufferOpened wanted channel self.old self.new }
        ensures keeps { KeepsVouch M.seen self.old.vouched self.new.vouched }
    {
        if wanted == Wanted::Unread {
            self.say(Code::Syntax);
        } else if self.vouched.cost() + self.buffers.count() >= MOST_BUFFERS {
            self.say(Code::NoChannel);
        } else if self.has_opened(channel, wanted) {
            self.say(Code::Fine);
        } else {
            self.say(Code::NoChannel);
        }
    }

    /// The buffer that is asked for becomes the channel's; false if it isn't free.
    fn has_opened(&mut self, channel: u8, wanted: Wanted) -> bool
        ensures opened { MatchBool result (OnlyBuffersOf (buffer_opened_by wanted channel self.old.buffers) self.old self.new)
            ((buffer_opened_by wanted channel self.old.buffers ≡ None) × (self.new ≡ self.old)) }
    {
        match wanted {
            Wanted::Any => self.buffers.open_any(channel),
            Wanted::Number(number) => self.buffers.open_number(number, channel),
            Wanted::Unread => false,
        }
    }

    /// OPEN of a closed channel by the DOS while channels have buffers: 70 if more than three would be taken.
    fn open_beside(&mut self, channel: u8, text: &[u8])
        requires { channel < 15 }
        ensures opened { IsOpenedBeside M.seen channel text.now self.old self.new }
        ensures keeps { KeepsVouch M.seen self.old.vouched self.new.vouched }
    {
        let others = self.vouched.cost() + self.buffers.count();
        let needed = needed(channel, text);
        if needed > 0 && others + needed > MOST_BUFFERS {
            self.say(Code::NoChannel);
            return;
        }
        self.vouched.open(channel, text);
        if self.vouched.cost() + self.buffers.count() > MOST_BUFFERS {
            self.vouched.close(channel);
            self.say(Code::NoChannel);
        }
    }

    /// CLOSE of a channel: its buffer is given back. On 15 all channels are closed.
    pub fn close(&mut self, channel: u8)
        requires { channel ≤ 15 }
        ensures one { channel < 15 → IsClosedHere M.seen channel self.old self.new }
        ensures all { channel ≡ 15 → AreAllClosed M.seen self.old self.new }
        ensures keeps { KeepsVouch M.seen self.old.vouched self.new.vouched }
    {
        if channel == 15 {
            self.close_all();
        } else if self.buffers.has(channel) {
            self.buffers.close(channel);
        } else {
            self.vouched.close(channel);
        }
    }

    /// CLOSE of channel 15.
    fn close_all(&mut self)
        ensures all { AreAllClosed M.seen self.old self.new }
        ensures keeps { KeepsVouch M.seen self.old.vouched self.new.vouched }
    {
        self.vouched.close(15);
        self.buffers.close_all();
        self.reply = None;
    }
}
