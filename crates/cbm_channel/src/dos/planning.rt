// What an OPEN will do, or its refusal.

ghost use Rattle.cbm_machine.specs.Codes.{code_number};
ghost use Rattle.cbm_channel.specs.Grounds.{IsNotOk, is_fault_number};
ghost use Rattle.cbm_channel.specs.declared.plan.Plan.TheVariants as planned;
ghost use Rattle.std.specs.Prelude.{◌≡◌, ◌≤◌, ◌⊎◌, ℕ, true, false, Result, Ok, IfOk, IfErr, if◌then◌else◌, not, ◌&&◌};
ghost use Rattle.cbm_file.specs.Files.{Disk, File};
ghost use Rattle.cbm_file.specs.declared.file_type.FileType.TheVariants.{Rel};
ghost use Rattle.cbm_file.specs.Types.{is_same_type};
ghost use Rattle.cbm_medium.specs.Content.{Content};
ghost use Rattle.cbm_machine.specs.Machines.{Machine, in_writing};
ghost use Rattle.cbm_machine.specs.Plans as plans;
ghost use Rattle.cbm_channel.specs.Planned.{FoundAs, PlannedAs, IsFound};
ghost use Rattle.cbm_machine.specs.declared.code.Code as code;

use crate::channel::{FILE_COST, MOST_COST, RECORDS_COST, any_uses, any_writes, open_count};
use crate::dos::Dos;
use crate::finding::Found;
use crate::plan::Plan;
use crate::sought::Sought;
use cbm_command::{Mode, Name, Opening, Wanted};
use cbm_file::FileType;
use cbm_machine::{Code, Status};
use cbm_volume::Medium;

/// How many channels a file costs that is found for reading: two if it has records, unless `@` refuses these.
fn cost_of(wanted: &Wanted, found: &Result<Found, Status>) -> usize
    ensures few { result ≤ 2 }
    ensures cost { (tracks : ℕ) (c : Content) (d : Disk) (r : Result (ℕ × File) code.Code) →
        FoundAs tracks c d r found.now
        → result ≡ (if not wanted.now.has_at && plans.meets_records r then 2 else 1) }
{
    match found {
        Ok(found) if !wanted.has_at && found.entry.kind() == Some(FileType::Rel) => RECORDS_COST,
        _ => FILE_COST,
    }
}

/// What reading a file will do that was found, and may be open for writing: the records of a relative one are opened.
/// Errors: 64 it can't be read, or `@` asks for a relative one; 60 it isn't closed, or a channel writes it.
fn plan_read(wanted: &Wanted, found: Found, written: bool) -> Result<Plan, Status>
    ensures own { IfErr result (λ s. is_fault_number (code_number s.code) ≡ false) }
    ensures denied { IfErr result IsNotOk }
    ensures same { IfOk result (λ p. (p ≡ planned.ReadFile found) ⊎ (p ≡ planned.OpenRecords found)) }
    ensures planned { (tracks : ℕ) (c : Content) (m : Machine) (s : ℕ) (f : File) → in_writing m s ≡ written →
        IsFound tracks c m.disk s f found →
        PlannedAs tracks c m (plans.plan_read wanted.now m (s, f)) result }
{
    let kind = found.entry.kind();
    if kind == Some(FileType::Del) {
        return Err(Status::plain(Code::WrongType));
    }
    if kind == Some(FileType::Rel) && wanted.has_at {
        return Err(Status::plain(Code::WrongType));
    }
    if !found.entry.is_closed() || written {
        return Err(Status::plain(Code::WriteFileOpen));
    }
    if kind == Some(FileType::Rel) {
        return Ok(Plan::OpenRecords(found));
    }
    Ok(Plan::ReadFile(found))
}

/// What an OPEN by type L of a file will do that was found, and may be open for writing. Errors: 60 it isn't closed, or
/// a channel writes it; 50 another record length is asked for.
fn plan_there(wanted: &Wanted, found: Found, written: bool) -> Result<Plan, Status>
    ensures own { IfErr result (λ s. is_fault_number (code_number s.code) ≡ false) }
    ensures denied { IfErr result IsNotOk }
    ensures same { IfOk result (λ p. p ≡ planned.OpenRecords found) }
    ensures planned { (tracks : ℕ) (c : Content) (m : Machine) (s : ℕ) (f : File) → in_writing m s ≡ written →
        IsFound tracks c m.disk s f found → is_same_type Rel f.kind ≡ true →
        PlannedAs tracks c m (plans.plan_there wanted.now m (s, f)) result }
{
    if !found.entry.is_closed() || written {
        return Err(Status::plain(Code::WriteFileOpen));
    }
    if wanted.record_length != 0 && wanted.record_length != found.entry.record_length() {
        return Err(Status::plain(Code::NoRecord));
    }
    Ok(Plan::OpenRecords(found))
}

impl<M: Medium> Dos<M> {
    ghost use Rattle.std.specs.Prelude.{◌≡◌, ◌≤◌, ℕ, true, false, Ok, IfOk, IfErr};
    ghost use Rattle.cbm_file.specs.declared.file_type.FileType.TheVariants.{Del, Rel};
    ghost use Rattle.cbm_file.specs.Types.{is_same_type};
    ghost use Rattle.cbm_file.specs.Padding.{before_filler};
    ghost use Rattle.cbm_command.specs.declared.opening.Mode.TheVariants.{Read};
    ghost use Rattle.cbm_command.specs.declared.opening.Opening.TheVariants as opening;
    ghost use Rattle.cbm_command.specs.Openings.{wants_relative};
    ghost use Rattle.cbm_machine.specs.Machines.{Machine, too_many, in_writing, in_use};
    ghost use Rattle.cbm_machine.specs.Finding.{is_there};
    ghost use Rattle.cbm_machine.specs.Plans as plans;
    ghost use Rattle.cbm_channel.specs.Grounds.{HasGround, IsNotOk};
    ghost use Rattle.cbm_channel.specs.Standing.{Stands};
    ghost use Rattle.cbm_channel.specs.Planned.{IsOfText, is_for_writing, plan_writes};
    ghost use Rattle.cbm_channel.specs.Meant.{IsNewName, IsFileMeant, IsPlanMeant};
    ghost use Rattle.cbm_channel.specs.Opening.{IsSoundPlan, PlansAs, IsFoundIn, IsAllowed};

    /// What an OPEN will do. Errors: its refusal, or the fault of the directory.
    pub(super) fn plan(&self, channel: u8, opening: Opening) -> Result<Plan, Status>
        ensures sound { IsSoundPlan M.seen self.now.medium result }
        ensures meant { IfOk result (IsPlanMeant (M.seen self.now.medium) opening) }
        ensures reads { is_for_writing opening ≡ false → IfOk result (λ p. plan_writes p ≡ false) }
        ensures planned { (m : Machine) → IsOfText opening → Stands M.seen self.now m →
            PlansAs M.seen self.now.medium m (plans.plan channel opening m) result }
    {
        match opening {
            Opening::Listing(pattern) => {
                if self.is_too_many(FILE_COST) {
                    return Err(Status::plain(Code::NoChannel));
                }
                Ok(Plan::ReadListing(pattern))
            }
            Opening::File(wanted) => {
                if wanted.kind == Some(FileType::Rel) {
                    return self.plan_relative(channel, wanted);
                }
                self.plan_file(wanted)
            }
        }
    }

    /// What an OPEN of a file by its mode will do, which isn't asked for by type L.
    fn plan_file(&self, wanted: Wanted) -> Result<Plan, Status>
        ensures sound { IsSoundPlan M.seen self.now.medium result }
        ensures meant { IfOk result (IsFileMeant (M.seen self.now.medium) wanted) }
        ensures reads { wanted.mode ≡ Read → IfOk result (λ p. plan_writes p ≡ false) }
        ensures planned { (m : Machine) (ch : ℕ) → IsOfText (opening.File wanted) → wants_relative wanted ≡ false →
            Stands M.seen self.now m →
            PlansAs M.seen self.now.medium m (plans.plan ch (opening.File wanted) m) result }
    {
        if wanted.mode == Mode::Read {
            return self.plan_reading(&wanted);
        }
        if self.is_too_many(FILE_COST) {
            return Err(Status::plain(Code::NoChannel));
        }
        if wanted.mode == Mode::Append {
            let found = self.found(&wanted.name, wanted.kind)?;
            return self.plan_append(found);
        }
        self.plan_writing(wanted)
    }

    /// What an OPEN by type L will do. Errors: 70 too many channels; 64 with `@`, on the channels 0 and 1, or if the
    /// name has another type; else what is met at the file that is there, or if it is not.
    fn plan_relative(&self, channel: u8, wanted: Wanted) -> Result<Plan, Status>
        ensures sound { IsSoundPlan M.seen self.now.medium result }
        ensures meant { wants_relative wanted ≡ true → IfOk result (IsFileMeant (M.seen self.now.medium) wanted) }
        ensures planned { (m : Machine) → IsOfText (opening.File wanted) → wants_relative wanted ≡ true →
            Stands M.seen self.now m →
            PlansAs M.seen self.now.medium m (plans.plan channel (opening.File wanted) m) result }
    {
        if self.is_too_many(RECORDS_COST) {
            return Err(Status::plain(Code::NoChannel));
        }
        if wanted.has_at || channel < 2 {
            return Err(Status::plain(Code::WrongType));
        }
        if !self.is_there(&wanted.name)? {
            return self.plan_missing(wanted);
        }
        let found = self.found(&wanted.name, Some(FileType::Rel))?;
        let written = self.in_writing(found.slot);
        plan_there(&wanted, found, written)
    }

    /// What an OPEN by type L of a name that isn't there will do. Errors: 62 no record length is given, 50 it is 255, 72
    /// two blocks or a place for a name are lacking, 26 the disk is protected; or a fault of the map or of the directory.
    fn plan_missing(&self, wanted: Wanted) -> Result<Plan, Status>
        ensures sound { IsSoundPlan M.seen self.now.medium result }
        ensures same { IfOk result (λ p. p ≡ planned.MakeRecords wanted.name wanted.record_length) }
        ensures planned { (m : Machine) → before_filler wanted.name ≡ wanted.name → Stands M.seen self.now m →
            PlansAs M.seen self.now.medium m (plans.plan_missing wanted m) result }
    {
        if wanted.record_length == 0 {
            return Err(Status::plain(Code::FileNotFound));
        }
        if wanted.record_length == 255 {
            return Err(Status::plain(Code::NoRecord));
        }
        let room = self.volume().room()?;
        if room.blocks < 2 || !room.slot {
            return Err(Status::plain(Code::DiskFull));
        }
        if self.volume().is_protected() {
            return Err(Status::plain(Code::WriteProtected));
        }
        Ok(Plan::MakeRecords(wanted.name, wanted.record_length))
    }

    /// What reading will do.
    fn plan_reading(&self, wanted: &Wanted) -> Result<Plan, Status>
        ensures sound { IsSoundPlan M.seen self.now.medium result }
        ensures meant { IfOk result (IsFileMeant (M.seen self.now.medium) wanted.now) }
        ensures reads { IfOk result (λ p. plan_writes p ≡ false) }
        ensures planned { (m : Machine) (ch : ℕ) → wanted.now.mode ≡ Read → wants_relative wanted.now ≡ false →
            Stands M.seen self.now m →
            PlansAs M.seen self.now.medium m (plans.plan ch (opening.File wanted.now) m) result }
    {
        let found = self.found(&wanted.name, wanted.kind);
        if self.is_too_many(cost_of(wanted, &found)) {
            return Err(Status::plain(Code::NoChannel));
        }
        match found {
            Ok(found) => {
                let written = self.in_writing(found.slot);
                plan_read(wanted, found, written)
            }
            Err(status) => Err(status),
        }
    }

    /// What appending to a found file will do. Errors: 64 it can't be appended to, 60 it isn't closed or is open on a
    /// channel, 26 the disk is protected.
    fn plan_append(&self, found: Found) -> Result<Plan, Status>
        ensures ground { IfErr result (HasGround M.seen self.now.medium) }
        ensures denied { IfErr result IsNotOk }
        ensures same { IfOk result (λ p. p ≡ planned.AppendFile found) }
        ensures allowed { IfOk result (IsAllowed M.seen self.now.medium) }
        ensures planned { (m : Machine) (s : ℕ) (f : File) → Stands M.seen self.now m →
            IsFoundIn M.seen self.now.medium m s f found →
            PlansAs M.seen self.now.medium m (plans.plan_append m (s, f)) result }
    {
        let kind = found.entry.kind();
        if kind == Some(FileType::Del) {
            return Err(Status::plain(Code::WrongType));
        }
        if kind == Some(FileType::Rel) {
            return Err(Status::plain(Code::WrongType));
        }
        if !found.entry.is_closed() || self.in_use(found.slot) {
            return Err(Status::plain(Code::WriteFileOpen));
        }
        if self.volume().is_protected() {
            return Err(Status::plain(Code::WriteProtected));
        }
        Ok(Plan::AppendFile(found))
    }

    /// What writing will do: with `@` and the name there a replacement, else a new file.
    fn plan_writing(&self, wanted: Wanted) -> Result<Plan, Status>
        ensures sound { IsSoundPlan M.seen self.now.medium result }
        ensures meant { IfOk result (IsFileMeant (M.seen self.now.medium) wanted) }
        ensures planned { (m : Machine) → IsOfText (opening.File wanted) → wants_relative wanted ≡ false →
            Stands M.seen self.now m →
            PlansAs M.seen self.now.medium m (plans.plan_writing wanted wanted.kind m) result }
    {
        let Some(kind) = wanted.kind else {
            return Err(Status::plain(Code::WrongType));
        };
        let there = self.is_there(&wanted.name)?;
        if wanted.has_at && there {
            let found = self.found(&wanted.name, Some(kind))?;
            return self.plan_replace(&found);
        }
        if there {
            return Err(Status::plain(Code::FileExists));
        }
        self.plan_write(kind, wanted.name)
    }

    /// What writing a new file will do, whose name isn't there. Errors: 72 no block is free or there is no place for a
    /// name, 26 the disk is protected; or a fault of the map or of the directory.
    fn plan_write(&self, kind: FileType, name: Name) -> Result<Plan, Status>
        ensures ground { IfErr result (HasGround M.seen self.now.medium) }
        ensures denied { IfErr result IsNotOk }
        ensures same { IfOk result (λ p. p ≡ planned.WriteFile kind name) }
        ensures allowed { IfOk result (IsAllowed M.seen self.now.medium) }
        ensures planned { (m : Machine) (w : Wanted) → w.name ≡ name → is_there m.disk name ≡ false →
            before_filler name ≡ name → is_same_type Del kind ≡ false → is_same_type Rel kind ≡ false →
            Stands M.seen self.now m → PlansAs M.seen self.now.medium m (plans.plan_write w kind m) result }
    {
        let room = self.volume().room()?;
        if room.blocks == 0 || !room.slot {
            return Err(Status::plain(Code::DiskFull));
        }
        if self.volume().is_protected() {
            return Err(Status::plain(Code::WriteProtected));
        }
        Ok(Plan::WriteFile(kind, name))
    }

    /// What the replacement of a found file will do. Errors: 60 it isn't closed or is open on a channel, 63 it is
    /// locked, 72 no block is free, 26 the disk is protected; or a fault of the map. The directory after the file isn't read.
    fn plan_replace(&self, found: &Found) -> Result<Plan, Status>
        ensures ground { IfErr result (HasGround M.seen self.now.medium) }
        ensures denied { IfErr result IsNotOk }
        ensures same { IfOk result (λ p. p ≡ planned.ReplaceFile found.now.slot) }
        ensures allowed { IfOk result (IsAllowed M.seen self.now.medium) }
        ensures planned { (m : Machine) (s : ℕ) (f : File) → Stands M.seen self.now m →
            IsFoundIn M.seen self.now.medium m s f found.now → is_same_type Rel f.kind ≡ false →
            PlansAs M.seen self.now.medium m (plans.plan_replace m (s, f)) result }
    {
        if !found.entry.is_closed() || self.in_use(found.slot) {
            return Err(Status::plain(Code::WriteFileOpen));
        }
        if found.entry.is_locked() {
            return Err(Status::plain(Code::FileExists));
        }
        if self.volume().blocks_free()? == 0 {
            return Err(Status::plain(Code::DiskFull));
        }
        if self.volume().is_protected() {
            return Err(Status::plain(Code::WriteProtected));
        }
        Ok(Plan::ReplaceFile(found.slot))
    }

    /// Whether some file has the name. An `Err` is the fault of the directory.
    pub(super) fn is_there(&self, name: &Name) -> Result<bool, Status>
        ensures ground { IfErr result (HasGround M.seen self.now.medium) }
        ensures denied { IfErr result IsNotOk }
        ensures none { IfOk result (λ there. there ≡ false → IsNewName (M.seen self.now.medium) name.now) }
        ensures there { (m : Machine) → Stands M.seen self.now m → result ≡ Ok (is_there m.disk name.now) }
    {
        let any = Sought {
            pattern: name,
            kind: None,
        };
        Ok(self.volume().find(&any)?.is_some())
    }

    /// Whether a slot is open on a channel.
    fn in_use(&self, slot: u8) -> bool
        ensures { (m : Machine) → Stands M.seen self.now m → result ≡ in_use m slot }
    {
        any_uses(self.channels.as_slice(), slot)
    }

    /// Whether a slot is open for writing.
    pub(super) fn in_writing(&self, slot: u8) -> bool
        ensures { (m : Machine) → Stands M.seen self.now m → result ≡ in_writing m slot }
    {
        any_writes(self.channels.as_slice(), slot)
    }

    /// Whether channels of this cost more would be too many.
    fn is_too_many(&self, cost: usize) -> bool
        requires { cost ≤ 2 }
        ensures { (m : Machine) → Stands M.seen self.now m → result ≡ too_many cost m }
    {
        cost + open_count(self.channels.as_slice()) > MOST_COST
    }
}
