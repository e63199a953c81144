// What another layer needs that carries some commands out beside the DOS.

use crate::channel::open_count;
use crate::dos::Dos;
use cbm_machine::Status;
use cbm_volume::Medium;

impl<M: Medium> Dos<M> {
    ghost use Rattle.std.specs.Prelude.{◌≡◌, ◌≤◌, [], sum_by};
    ghost use Rattle.cbm_machine.specs.Machines.{with_status};
    ghost use Rattle.cbm_machine.specs.Closing.{without_text};
    ghost use Rattle.cbm_machine.specs.Calls.{text_for};
    ghost use Rattle.cbm_channel.specs.Shown.{cost_on};
    ghost use Rattle.cbm_channel.specs.Standing.{Leads};
    ghost use Rattle.cbm_channel.specs.Parts.{OnlyText};

    /// Sets the status; channel 15 sends it from its beginning.
    pub fn tell(&mut self, status: Status)
        ensures leads { Leads M.seen self.old self.new (with_status status) }
        ensures medium { self.new.medium ≡ self.old.medium }
        ensures channels { self.new.channels ≡ self.old.channels }
        ensures told { self.new.told ≡ (record { status = status; told = 0 }) }
    {
        self.set(status);
    }

    /// How many of the drive's three buffers the open channels take: two for records, one for a file or a listing.
    pub fn cost(&self) -> usize
        ensures value { result ≡ sum_by cost_on self.now.channels }
        ensures few { result ≤ 30 }
    {
        open_count(self.channels.as_slice())
    }

    /// What was put to channel 15 since its last command; empty if that is nothing. Of more than 256 bytes it is the first 256.
    pub fn gathered(&self) -> &[u8]
        ensures { result.now ≡ text_for 15 self.now.text }
    {
        match &self.text {
            Some(text) if text.channel() == 15 => text.bytes(),
            _ => &[],
        }
    }

    /// Drops what was put to channel 15 since its last command.
    pub fn forget_command(&mut self)
        ensures leads { Leads M.seen self.old self.new (without_text 15) }
        ensures only { OnlyText self.old self.new }
    {
        self.take_text(15);
    }
}
