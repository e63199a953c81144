// C: files are joined into a new one.

ghost use Rattle.std.specs.Prelude.{◌≡◌, ◌||◌, false};
ghost use Rattle.cbm_file.specs.declared.file_type.FileType.TheVariants.{Del, Rel};
ghost use Rattle.cbm_file.specs.Types.{is_same_type};

use crate::dos::Dos;
use arrayvec::ArrayVec;
use cbm_command::{Name, Names};
use cbm_file::FileType;
use cbm_machine::{Code, Status};
use cbm_volume::Medium;

/// The numbers of slots: a text names at most 58 files.
type Sources = ArrayVec<u8, 58>;

/// A file whose bytes can be copied: its slot and its type.
#[derive(Drop)]
pub struct Source {
    slot: u8,
    kind: FileType,
}

/// A file of this type has no bytes to be copied.
fn is_wrong(kind: FileType) -> bool
    ensures { result ≡ (is_same_type Rel kind || is_same_type Del kind) }
{
    match kind {
        FileType::Rel | FileType::Del => true,
        FileType::Seq | FileType::Prg | FileType::Usr => false,
    }
}

impl<M: Medium> Dos<M> {
    ghost use Rattle.std.specs.Prelude.{◌≡◌, ◌≤◌, ◌+◌, IfOk, IfErr, length};
    ghost use Rattle.cbm_file.specs.Padding.{before_filler};
    ghost use Rattle.cbm_volume.specs.Copying.{CopyLed};
    ghost use Rattle.cbm_machine.specs.declared.code.Code.TheVariants.{Fine};
    ghost use Rattle.cbm_machine.specs.Machines.{Machine, answered};
    ghost use Rattle.cbm_machine.specs.Running.{copy, source, sources};
    ghost use Rattle.cbm_channel.specs.Grounds.{HasGround, IsNotOk};
    ghost use Rattle.cbm_channel.specs.ChannelCalls.{LeavesRest, no_slot};
    ghost use Rattle.cbm_channel.specs.Standing.{Stands};
    ghost use Rattle.cbm_channel.specs.Going.{Went};
    ghost use Rattle.cbm_channel.specs.Meant.{IsNewName, CopiesMeant};
    ghost use Rattle.cbm_channel.specs.Joined.{SourceAs, AddsSources, IsCopying, RefusesCopy};
    ghost use Rattle.cbm_channel.specs.Parts.{OfMachine, WentWhere, KeepsRestWhere, LeavesChannels, IsFineOrSameUnlessFault};

    /// C: the bytes of the old names' files, one after another, are a new closed file of the first one's type.
    #[inline(never)]
    pub(super) fn copy(&mut self, new: &Name, olds: &Names)
        ensures goes { before_filler new.now ≡ new.now →
            Went M.seen self.old self.new 15 (λ m. answered m (copy new.now olds.now m)) }
        ensures refused { IsFineOrSameUnlessFault M.seen self.old self.new }
        ensures done { self.new.told.status.code ≡ Fine →
            CopiesMeant (M.seen self.old.medium) (M.seen self.new.medium) new.now }
        ensures leaves { LeavesChannels M.seen false self.old self.new }
        ensures rest { LeavesRest M.seen (λ m. no_slot) self.old self.new }
    {
        match self.plan_copy(new, olds) {
            Ok((kind, slots)) => self.copy_slots(new, kind, slots.as_slice()),
            Err(status) => self.set(status),
        }
    }

    /// The type of the new file, and the slots of its sources in order. Errors: 63 a file has the new name; of the first
    /// old name that can't be copied 62 no file has it, 64 its file is relative or deleted, 60 it was never closed; 34
    /// no old name is given; or the fault of the directory.
    fn plan_copy(&self, new: &Name, olds: &Names) -> Result<(FileType, Sources), Status>
        ensures ground { IfErr result (HasGround M.seen self.now.medium) }
        ensures denied { IfErr result IsNotOk }
        ensures fresh { IfOk result (λ v. IsNewName (M.seen self.now.medium) new.now) }
        ensures planned { OfMachine M.seen self.now (λ m. IfOk result (λ v. IsCopying m new.now olds.now v.0 v.1.items)) }
        ensures refused { OfMachine M.seen self.now (λ m. IfErr result (RefusesCopy m new.now olds.now)) }
    {
        if self.is_there(new)? {
            return Err(Status::plain(Code::FileExists));
        }
        let Some((first, others)) = olds.as_slice().split_first() else {
            return Err(Status::plain(Code::NoName));
        };
        let source = self.source(first)?;
        let mut slots = Sources::new();
        slots.push(source.slot);
        self.add_sources(others, &mut slots)?;
        Ok((source.kind, slots))
    }

    /// Adds the slots of the files of these names. Errors: as `source` has them.
    fn add_sources(&self, names: &[Name], slots: &mut Sources) -> Result<(), Status>
        requires { length slots.old.items + length names.now ≤ 58 }
        ensures ground { IfErr result (HasGround M.seen self.now.medium) }
        ensures denied { IfErr result IsNotOk }
        ensures added { (m : Machine) → Stands M.seen self.now m →
            AddsSources m.disk (sources m.disk names.now) slots.old.items slots.new.items result }
    {
        'names: for name in names {
            let source = self.source(name)?;
            slots.push(source.slot);
        }
        Ok(())
    }

    /// The first file of a name, whose bytes can be copied. Errors: 62 no file has the name; 64 it is relative or
    /// deleted; 60 it was never closed; or the fault of the directory.
    fn source(&self, name: &Name) -> Result<Source, Status>
        ensures ground { IfErr result (HasGround M.seen self.now.medium) }
        ensures denied { IfErr result IsNotOk }
        ensures source { (m : Machine) → Stands M.seen self.now m →
            SourceAs m.disk (source m.disk name.now) result }
    {
        let found = self.found(name, None)?;
        let Some(kind) = found.entry.kind() else {
            return Err(Status::plain(Code::WrongType));
        };
        if is_wrong(kind) {
            return Err(Status::plain(Code::WrongType));
        }
        if !found.entry.is_closed() {
            return Err(Status::plain(Code::WriteFileOpen));
        }
        Ok(Source {
            slot: found.slot,
            kind,
        })
    }

    /// The files in these slots are joined into a new one of a type and a name.
    fn copy_slots(&mut self, name: &Name, kind: FileType, slots: &[u8])
        ensures goes { before_filler name.now ≡ name.now → WentWhere M.seen self.old self.new
            (λ m olds. IsCopying m name.now olds kind slots.now) (λ olds n. answered n (copy name.now olds n)) }
        ensures refused { IsFineOrSameUnlessFault M.seen self.old self.new }
        ensures done { self.new.told.status.code ≡ Fine →
            CopyLed (M.seen self.old.medium) (M.seen self.new.medium) kind name.now }
        ensures count { length self.new.channels ≡ 15 }
        ensures leaves { LeavesChannels M.seen false self.old self.new }
        ensures rest { KeepsRestWhere M.seen no_slot self.old self.new
            (λ m olds. IsCopying m name.now olds kind slots.now) }
    {
        match self.volume.copy(kind, name.bytes(), slots) {
            Ok(true) => self.say(Code::Fine),
            Ok(false) => self.say(Code::DiskFull),
            Err(trouble) => self.set(Status::from(trouble)),
        }
    }
}
