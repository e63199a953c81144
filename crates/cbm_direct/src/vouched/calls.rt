// The calls of the DOS, one by one.

use crate::vouched::Vouched;
use cbm_channel::Status;
use cbm_medium::Medium;

impl<M: Medium> Vouched<M> {
    ghost use Rattle.std.specs.Prelude.{◌≡◌, ◌≤◌, ◌∷◌, [], ℕ, false, Some, IsSome};
    ghost use Rattle.cbm_machine.specs.Talking.{taken, after_talk, talk_keeping_error, after_listen, listen_keeping_error};
    ghost use Rattle.cbm_machine.specs.Calls.{put};
    ghost use Rattle.cbm_channel.specs.Standing.{Leads};
    ghost use Rattle.cbm_channel.specs.Shown.{shown_by};
    ghost use Rattle.cbm_channel.specs.Going.{Goes, closing};
    ghost use Rattle.cbm_channel.specs.Opening.{OpensFrom};
    ghost use Rattle.cbm_channel.specs.Parts.{EndsGathered, OnlyText};
    ghost use Rattle.cbm_direct.specs.Vouching.{KeepsVouch, OnlyStatus};

    /// Sets the status.
    pub fn tell(&mut self, status: Status)
        ensures keeps { KeepsVouch M.seen self.old self.new }
        ensures only { OnlyStatus status self.old.dos self.new.dos }
    {
        self.dos.tell(status);
    }

    /// Drops what was put to channel 15 since its last command.
    pub fn forget_command(&mut self)
        ensures keeps { KeepsVouch M.seen self.old self.new }
        ensures only { OnlyText self.old.dos self.new.dos }
    {
        self.dos.forget_command();
    }

    /// OPEN of a channel.
    pub fn open(&mut self, channel: u8, text: &[u8])
        requires { channel ≤ 15 }
        ensures keeps { KeepsVouch M.seen self.old self.new }
        ensures goes { OpensFrom M.seen channel text.now self.old.dos self.new.dos }
    {
        self.dos.open(channel, text);
    }

    /// CLOSE of a channel.
    pub fn close(&mut self, channel: u8)
        requires { channel ≤ 15 }
        ensures keeps { KeepsVouch M.seen self.old self.new }
        ensures goes { Goes M.seen self.old.dos self.new.dos (closing channel) }
    {
        self.dos.close(channel);
    }

    /// A byte for a channel.
    pub fn put(&mut self, channel: u8, byte: u8)
        requires { channel ≤ 15 }
        ensures keeps { KeepsVouch M.seen self.old self.new }
        ensures goes { Goes M.seen self.old.dos self.new.dos ((channel, put channel byte) ∷ []) }
    {
        self.dos.put(channel, byte);
    }

    /// The end of the bytes for a channel.
    pub fn end_put(&mut self, channel: u8)
        requires { channel ≤ 15 }
        ensures keeps { KeepsVouch M.seen self.old self.new }
        ensures goes { EndsGathered M.seen channel self.old.dos self.new.dos }
    {
        self.dos.end_put(channel);
    }

    /// The byte that a channel shows was sent.
    pub fn taken(&mut self, channel: u8)
        requires { channel ≤ 15 }
        ensures keeps { KeepsVouch M.seen self.old self.new }
        ensures leads { Leads M.seen self.old.dos self.new.dos (taken channel) }
        ensures medium { self.new.dos.medium ≡ self.old.dos.medium }
        ensures next { (n : ℕ) → shown_by channel self.old.dos ≡ Some (n, false) → IsSome (shown_by channel self.new.dos) }
    {
        self.dos.taken(channel);
    }

    /// TALK.
    pub fn talk(&mut self, channel: u8)
        requires { channel ≤ 15 }
        ensures keeps { KeepsVouch M.seen self.old self.new }
        ensures leads { Leads M.seen self.old.dos self.new.dos (after_talk channel) }
        ensures medium { self.new.dos.medium ≡ self.old.dos.medium }
    {
        self.dos.talk(channel);
    }

    /// TALK at a KERNAL's pace: an error that nobody has begun to read stays.
    pub fn talk_keeping_error(&mut self, channel: u8)
        requires { channel ≤ 15 }
        ensures keeps { KeepsVouch M.seen self.old self.new }
        ensures leads { Leads M.seen self.old.dos self.new.dos (talk_keeping_error channel) }
        ensures medium { self.new.dos.medium ≡ self.old.dos.medium }
    {
        self.dos.talk_keeping_error(channel);
    }

    /// LISTEN.
    pub fn listen(&mut self, channel: u8)
        requires { channel ≤ 15 }
        ensures keeps { KeepsVouch M.seen self.old self.new }
        ensures leads { Leads M.seen self.old.dos self.new.dos (after_listen channel) }
        ensures medium { self.new.dos.medium ≡ self.old.dos.medium }
    {
        self.dos.listen(channel);
    }

    /// LISTEN at a KERNAL's pace: an error that nobody has begun to read stays.
    pub fn listen_keeping_error(&mut self, channel: u8)
        requires { channel ≤ 15 }
        ensures keeps { KeepsVouch M.seen self.old self.new }
        ensures leads { Leads M.seen self.old.dos self.new.dos (listen_keeping_error channel) }
        ensures medium { self.new.dos.medium ≡ self.old.dos.medium }
    {
        self.dos.listen_keeping_error(channel);
    }
}
