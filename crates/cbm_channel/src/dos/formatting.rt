// N: an empty disk.

use crate::dos::Dos;
use cbm_command::Name;
use cbm_machine::{Code, Status};
use cbm_volume::Medium;

impl<M: Medium> Dos<M> {
    ghost use Rattle.std.specs.Prelude.{◌≡◌, Ok, length, true};
    ghost use Rattle.cbm_volume.specs.NewDisks.{EmptiesDisk};
    ghost use Rattle.cbm_command.specs.declared.command.Command.TheVariants.{New};
    ghost use Rattle.cbm_machine.specs.declared.code.Code.TheVariants.{Fine};
    ghost use Rattle.cbm_machine.specs.Machines.{answered};
    ghost use Rattle.cbm_machine.specs.Running.{run};
    ghost use Rattle.cbm_channel.specs.Going.{Went};
    ghost use Rattle.cbm_channel.specs.Parts.{LeavesChannels};

    /// N: an empty disk of this title; with an id it is formatted, else it keeps its own. 60 if a channel is open,
    /// 26 if the disk is protected. If the medium fails in it, the disk is as it was, or sound and without files.
    #[inline(never)]
    pub(super) fn format(&mut self, title: &Name, id: Option<[u8; 2]>)
        ensures goes { Went M.seen self.old self.new 15 (λ m. answered m (run (New title.now id) m)) }
        ensures done { self.new.told.status.code ≡ Fine →
            EmptiesDisk (Ok tt) title.now id (M.seen self.old.medium) (M.seen self.new.medium) }
        ensures count { length self.new.channels ≡ 15 }
        ensures leaves { LeavesChannels M.seen true self.old self.new }
    {
        if self.is_any_open() {
            self.say(Code::WriteFileOpen);
            return;
        }
        if self.volume().is_protected() {
            self.say(Code::WriteProtected);
            return;
        }
        match self.volume.new_disk(title.bytes(), id) {
            Ok(()) => self.say(Code::Fine),
            Err(trouble) => self.set(Status::from(trouble)),
        }
    }
}
