// V: the map is written anew from the closed files.

use crate::channel::any_open;
use crate::dos::Dos;
use cbm_machine::{Code, Status};
use cbm_volume::Medium;

impl<M: Medium> Dos<M> {
    ghost use Rattle.std.specs.Prelude.{◌≡◌, length, false};
    ghost use Rattle.cbm_command.specs.declared.command.Command.TheVariants.{Validate};
    ghost use Rattle.cbm_machine.specs.Machines.{Machine, answered, any_open};
    ghost use Rattle.cbm_machine.specs.Running.{run};
    ghost use Rattle.cbm_channel.specs.ChannelCalls.{LeavesRest, no_slot};
    ghost use Rattle.cbm_channel.specs.Standing.{Stands};
    ghost use Rattle.cbm_channel.specs.Grounds.{OrdersDisk};
    ghost use Rattle.cbm_channel.specs.Going.{Went};
    ghost use Rattle.cbm_channel.specs.Parts.{LeavesChannels};

    /// V: files that were never closed go, and each block is free or a file's. 60 if a channel is open; if the
    /// disk can't be mended, its flaw is reported and nothing is changed.
    #[inline(never)]
    pub(super) fn validate(&mut self)
        ensures goes { Went M.seen self.old self.new 15 (λ m. answered m (run Validate m)) }
        ensures count { length self.new.channels ≡ 15 }
        // On any disk:
        ensures ordered { OrdersDisk M.seen self.old self.new }
        ensures leaves { LeavesChannels M.seen false self.old self.new }
        ensures rest { LeavesRest M.seen (λ m. no_slot) self.old self.new }
    {
        if self.is_any_open() {
            self.say(Code::WriteFileOpen);
            return;
        }
        match self.volume.validate() {
            Ok(()) => self.say(Code::Fine),
            Err(trouble) => self.set(Status::from(trouble)),
        }
    }

    /// Whether a channel is open.
    pub(super) fn is_any_open(&self) -> bool
        ensures { (m : Machine) → Stands M.seen self.now m → result ≡ any_open m }
    {
        any_open(self.channels.as_slice())
    }
}
