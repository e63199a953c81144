// R: a file gets another name.

use crate::dos::Dos;
use crate::sought::Sought;
use cbm_command::Name;
use cbm_machine::{Code, Status};
use cbm_volume::Medium;

impl<M: Medium> Dos<M> {
    ghost use Rattle.std.specs.Prelude.{◌≡◌, IfOk, IfErr, length, false};
    ghost use Rattle.cbm_file.specs.Padding.{before_filler};
    ghost use Rattle.cbm_volume.specs.Led.{RenamesLed};
    ghost use Rattle.cbm_machine.specs.declared.code.Code.TheVariants.{Fine};
    ghost use Rattle.cbm_machine.specs.Machines.{Machine, answered};
    ghost use Rattle.cbm_machine.specs.Running.{rename};
    ghost use Rattle.cbm_channel.specs.Grounds.{HasGround, IsNotOk};
    ghost use Rattle.cbm_channel.specs.ChannelCalls.{LeavesRest, no_slot};
    ghost use Rattle.cbm_channel.specs.Standing.{Stands};
    ghost use Rattle.cbm_channel.specs.Going.{Went};
    ghost use Rattle.cbm_channel.specs.Meant.{IsRenameMeant, RenamesMeant};
    ghost use Rattle.cbm_channel.specs.Commanded.{IsRenamable, RenamesAs};
    ghost use Rattle.cbm_channel.specs.Parts.{WentWhere, KeepsRestWhere, LeavesChannels, IsFineOrSame};

    /// R: the first file of the old name gets the new one, which ends before its first $A0.
    #[inline(never)]
    pub(super) fn rename(&mut self, new: &Name, old: &Name)
        ensures goes { before_filler new.now ≡ new.now →
            Went M.seen self.old self.new 15 (λ m. answered m (rename new.now old.now m)) }
        ensures refused { IsFineOrSame M.seen self.old self.new }
        ensures done { self.new.told.status.code ≡ Fine →
            RenamesMeant (M.seen self.old.medium) (M.seen self.new.medium) new.now old.now }
        ensures leaves { LeavesChannels M.seen false self.old self.new }
        ensures rest { LeavesRest M.seen (λ m. no_slot) self.old self.new }
    {
        match self.plan_rename(new, old) {
            Ok(slot) => self.rename_slot(slot, new),
            Err(status) => self.set(status),
        }
    }

    /// The slot of the file that gets the new name. Errors: 62 no file has the old name; 60 it is open for writing; 63
    /// a file has the new name; 26 the disk is protected; or the fault of the directory.
    fn plan_rename(&self, new: &Name, old: &Name) -> Result<u8, Status>
        ensures ground { IfErr result (HasGround M.seen self.now.medium) }
        ensures denied { IfErr result IsNotOk }
        ensures meant { IfOk result (IsRenameMeant (M.seen self.now.medium) new.now old.now) }
        ensures planned { (m : Machine) → Stands M.seen self.now m → RenamesAs m new.now old.now result }
    {
        let found = self.found(old, None)?;
        if self.in_writing(found.slot) {
            return Err(Status::plain(Code::WriteFileOpen));
        }
        if self.is_there(new)? {
            return Err(Status::plain(Code::FileExists));
        }
        if self.volume().is_protected() {
            return Err(Status::plain(Code::WriteProtected));
        }
        Ok(found.slot)
    }

    /// The file in a slot gets a name.
    fn rename_slot(&mut self, slot: u8, name: &Name)
        ensures goes { before_filler name.now ≡ name.now → WentWhere M.seen self.old self.new
            (λ m old. IsRenamable m name.now old slot) (λ old n. answered n (rename name.now old n)) }
        ensures refused { IsFineOrSame M.seen self.old self.new }
        ensures done { self.new.told.status.code ≡ Fine →
            RenamesLed (M.seen self.old.medium) (M.seen self.new.medium) slot name.now }
        ensures count { length self.new.channels ≡ 15 }
        ensures leaves { LeavesChannels M.seen false self.old self.new }
        ensures rest { KeepsRestWhere M.seen no_slot self.old self.new (λ m old. IsRenamable m name.now old slot) }
    {
        match self.volume.rename(slot, name.bytes()) {
            Ok(()) => self.say(Code::Fine),
            Err(trouble) => self.set(Status::from(trouble)),
        }
    }
}
