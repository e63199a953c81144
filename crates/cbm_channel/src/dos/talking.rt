ghost use Rattle.std.specs.Prelude.{◌≡◌, ◌≤◌};

use crate::channel::Channel;
use crate::dos::Dos;
use cbm_machine::{Code, Status};
use cbm_volume::Medium;

impl<M: Medium> Dos<M> {
    ghost use Rattle.std.specs.Prelude.{◌≡◌, ◌≤◌, ◌<◌, ℕ, false, Some, IsSome};
    ghost use Rattle.cbm_machine.specs.Machines.{Machine};
    ghost use Rattle.cbm_machine.specs.Talking.{peek, taken, after_talk, talk_keeping_error, after_listen, listen_keeping_error};
    ghost use Rattle.cbm_channel.specs.Grounds.{IsToldFor};
    ghost use Rattle.cbm_channel.specs.Standing.{Stands, Leads};
    ghost use Rattle.cbm_channel.specs.Shown.{shown_by};
    ghost use Rattle.cbm_channel.specs.Taken.{IsTakenOn, TakesOne};

    /// TALK: asks a channel to send; the status becomes 61 if it isn't open for reading, and 50 if the
    /// record of its place isn't there.
    pub fn talk(&mut self, channel: u8)
        requires { channel ≤ 15 }
        ensures leads { Leads M.seen self.old self.new (after_talk channel) }
        // On any disk:
        ensures channels { self.new.channels ≡ self.old.channels }
        ensures told { IsToldFor M.seen self.old self.new }
        ensures medium { self.new.medium ≡ self.old.medium }
    {
        if channel == 15 {
            return;
        }
        if let Some(code) = self.channels[channel as usize].talk_refused() {
            self.say(code);
        }
    }

    /// TALK of a computer that asks for a file's bytes though its OPEN was refused, as a KERNAL does: as `talk`, but an
    /// error (20 or above) that nobody has begun to read stays the status.
    pub fn talk_keeping_error(&mut self, channel: u8)
        requires { channel ≤ 15 }
        ensures leads { Leads M.seen self.old self.new (talk_keeping_error channel) }
        // On any disk:
        ensures channels { self.new.channels ≡ self.old.channels }
        ensures told { IsToldFor M.seen self.old self.new }
        ensures medium { self.new.medium ≡ self.old.medium }
    {
        if self.telling.is_unread_error() {
            return;
        }
        self.talk(channel);
    }

    /// LISTEN: asks a channel to take bytes; the status becomes 61 if it is neither 15 nor open for writing.
    pub fn listen(&mut self, channel: u8)
        requires { channel ≤ 15 }
        ensures leads { Leads M.seen self.old self.new (after_listen channel) }
        // On any disk:
        ensures channels { self.new.channels ≡ self.old.channels }
        ensures told { IsToldFor M.seen self.old self.new }
        ensures medium { self.new.medium ≡ self.old.medium }
    {
        if channel == 15 {
            return;
        }
        if !self.channels[channel as usize].is_written() {
            self.say(Code::FileNotOpen);
        }
    }

    /// LISTEN of a computer that sends a file's bytes though its OPEN was refused, as a KERNAL does: as `listen`, but an
    /// error (20 or above) that nobody has begun to read stays the status.
    pub fn listen_keeping_error(&mut self, channel: u8)
        requires { channel ≤ 15 }
        ensures leads { Leads M.seen self.old self.new (listen_keeping_error channel) }
        // On any disk:
        ensures channels { self.new.channels ≡ self.old.channels }
        ensures told { IsToldFor M.seen self.old self.new }
        ensures medium { self.new.medium ≡ self.old.medium }
    {
        if !self.telling.is_unread_error() {
            self.listen(channel);
        }
    }

    /// The next byte that a channel sends, and whether it is the last (EOI); None if it has nothing to send.
    pub fn peek(&self, channel: u8) -> Option<(u8, bool)>
        requires { channel ≤ 15 }
        ensures value { result ≡ shown_by channel self.now }
        ensures next { (m : Machine) → Stands M.seen self.now m → result ≡ peek channel m }
    {
        if channel < 15 {
            self.channels[channel as usize].peek()
        } else {
            self.telling.peek()
        }
    }

    /// The byte that `peek` shows was sent; nothing happens if it shows none. If the file's next sector or
    /// record doesn't read, its fault becomes the status.
    pub fn taken(&mut self, channel: u8)
        requires { channel ≤ 15 }
        ensures leads { Leads M.seen self.old self.new (taken channel) }
        ensures takes { TakesOne M.seen channel self.old self.new }
        ensures byte { channel < 15 → IsTakenOn M.seen channel self.old self.new }
        ensures medium { self.new.medium ≡ self.old.medium }
        // After a byte that isn't the last (EOI) another one waits.
        ensures next { (n : ℕ) → shown_by channel self.old ≡ Some (n, false) → IsSome (shown_by channel self.new) }
    {
        if channel == 15 {
            self.telling.taken();
            return;
        }
        if let Err(trouble) = self.channels[channel as usize].taken(&self.volume) {
            self.set(Status::from(trouble));
        }
    }
}
