// S: files are cleared.

ghost use Rattle.std.specs.Prelude.{◌≡◌, ◌&&◌, not, false};
ghost use Rattle.std.specs.List.{list_any};
ghost use Rattle.cbm_command.specs.Names.{is_match};
ghost use Rattle.cbm_channel.specs.Commanded.{entry_may_go};

use crate::channel::{Channel, any_uses};
use crate::dos::Dos;
use arrayvec::ArrayVec;
use cbm_command::{Name, Names, matches};
use cbm_machine::{Code, Status};
use cbm_volume::{Entry, Medium, Trouble};

/// The numbers of slots: a directory has at most 144.
type Numbers = ArrayVec<u8, 144>;

/// Whether one of the patterns matches a name.
fn is_named(patterns: &[Name], name: &[u8]) -> bool
    ensures { result ≡ list_any (λ p. is_match p name.now) patterns.now }
{
    patterns
        .iter()
        .any(|pattern| matches(pattern.bytes(), name))
}

/// A file stays that is locked or open.
fn can_go(locked: bool, used: bool) -> bool
    ensures { result ≡ (not locked && not used) }
{
    !locked && !used
}

/// Whether the file of an entry may go: a pattern matches its name, it isn't locked, and no channel has it open.
fn may_go(channels: &[Channel], patterns: &[Name], number: u8, entry: &Entry) -> bool
    ensures { result ≡ entry_may_go channels.now patterns.now number entry.now }
{
    if entry.is_empty() || !is_named(patterns, entry.name()) {
        return false;
    }
    can_go(entry.is_locked(), any_uses(channels, number))
}

impl<M: Medium> Dos<M> {
    ghost use Rattle.std.specs.Prelude.{◌≡◌, ◌≢◌, ◌≤◌, OnOk, IfOk, IfErr, IsOkAnd, length};
    ghost use Rattle.cbm_channel.specs.ChannelCalls.{KeepsElse, LeavesRest};
    ghost use Rattle.cbm_volume.specs.SeenDisks.{seen_directory};
    ghost use Rattle.cbm_machine.specs.declared.code.Code.TheVariants.{FilesScratched};
    ghost use Rattle.cbm_machine.specs.Machines.{Machine, answered};
    ghost use Rattle.cbm_machine.specs.Running.{scratch};
    ghost use Rattle.cbm_channel.specs.Grounds.{HasGround, IsNotOk, KeepsIfRefused};
    ghost use Rattle.cbm_channel.specs.Standing.{Stands};
    ghost use Rattle.cbm_channel.specs.Going.{Went};
    ghost use Rattle.cbm_channel.specs.Meant.{ScratchesEach, ScratchesMeant};
    ghost use Rattle.cbm_channel.specs.Commanded.{entries_going, slots_going, is_slot_among, AreSlotsGoing, AreUnguarded, RefusesScratch};
    ghost use Rattle.cbm_channel.specs.Parts.{OfMachine, WentWhere, KeepsRestWhere, LeavesMedium, LeavesChannels, OnlyMedium, SameChannels, ClearsSlots, StopsClearing, KeepsRestGoing};

    /// S: each file that matches a pattern, isn't locked and isn't open goes; 01 reports how many.
    #[inline(never)]
    pub(super) fn scratch(&mut self, patterns: &Names)
        ensures goes { Went M.seen self.old self.new 15 (λ n. answered n (scratch patterns.now n)) }
        ensures not_ok { IsNotOk self.new.told.status }
        ensures done { self.new.told.status.code ≡ FilesScratched →
            ScratchesMeant self.old.channels (M.seen self.old.medium) (M.seen self.new.medium) patterns.now
            self.new.told.status.first }
        ensures leaves { LeavesChannels M.seen false self.old self.new }
        ensures rest { LeavesRest M.seen (λ m. is_slot_among (slots_going m patterns.now 0 m.disk.slots)) self.old self.new }
    {
        match self.plan_scratch(patterns) {
            Ok(slots) => self.scratch_slots(slots.as_slice()),
            Err(status) => self.set(status),
        }
    }

    /// The slots of the files that go. Errors: 26 the disk is protected; or the fault of the directory.
    fn plan_scratch(&self, patterns: &Names) -> Result<Numbers, Status>
        ensures ground { IfErr result (HasGround M.seen self.now.medium) }
        ensures denied { IfErr result (λ s. s.code ≢ FilesScratched) }
        ensures not_ok { IfErr result IsNotOk }
        ensures going { IfOk result (λ v. v.items ≡ entries_going
            self.now.channels patterns.now 0 (seen_directory (M.seen self.now.medium)).entries) }
        ensures planned { OfMachine M.seen self.now (λ m. IfOk result (λ v. AreSlotsGoing m patterns.now v.items)) }
        ensures refused { OfMachine M.seen self.now (λ m. IfErr result (RefusesScratch m patterns.now)) }
        ensures unguarded { IfOk result (λ v. AreUnguarded (M.seen self.now.medium).protected v.items) }
        ensures few { IfOk result (λ v. length v.items ≤ 144) }
    {
        let slots = self.slots_going(patterns)?;
        if !slots.is_empty() && self.volume().is_protected() {
            return Err(Status::plain(Code::WriteProtected));
        }
        Ok(slots)
    }

    /// The slots of the files that may go, in order. An `Err` is the fault of the directory.
    fn slots_going(&self, patterns: &Names) -> Result<Numbers, Status>
        ensures ground { IfErr result (HasGround M.seen self.now.medium) }
        ensures denied { IfErr result (λ s. s.code ≢ FilesScratched) }
        ensures not_ok { IfErr result IsNotOk }
        ensures going { IfOk result (λ v. v.items ≡ entries_going
            self.now.channels patterns.now 0 (seen_directory (M.seen self.now.medium)).entries) }
        ensures means { (m : Machine) → Stands M.seen self.now m →
            IsOkAnd result (λ v. v.items ≡ slots_going m patterns.now 0 m.disk.slots) }
    {
        let channels = self.channels.as_slice();
        let mut slots = self.volume.slots();
        let mut number = 0;
        let mut going = Numbers::new();
        'slots: while let Some(entry) = self.volume.next_slot(&mut slots)? {
            if may_go(channels, patterns.as_slice(), number, &entry) {
                going.push(number);
            }
            number += 1;
        }
        Ok(going)
    }

    /// Scratches these slots, and reports how many they were.
    fn scratch_slots(&mut self, slots: &[u8])
        requires { length slots.now ≤ 144 }
        ensures goes { WentWhere M.seen self.old self.new (λ m patterns. AreSlotsGoing m patterns slots.now)
            (λ patterns n. answered n (scratch patterns n)) }
        ensures done { self.new.told.status.code ≡ FilesScratched →
            ScratchesEach (M.seen self.old.medium) (M.seen self.new.medium) slots.now }
        ensures number { self.new.told.status.code ≡ FilesScratched → self.new.told.status.first ≡ length slots.now }
        ensures not_ok { IsNotOk self.new.told.status }
        ensures same { SameChannels self.old.channels self.new.channels }
        ensures spared { AreUnguarded (M.seen self.old.medium).protected slots.now →
            KeepsIfRefused M.seen self.old self.new }
        ensures leaves { LeavesMedium M.seen self.old self.new }
        ensures rest { KeepsRestWhere M.seen (is_slot_among slots.now) self.old self.new
            (λ m patterns. AreSlotsGoing m patterns slots.now) }
    {
        match self.clear(slots) {
            Ok(()) => self.set(Status {
                code: Code::FilesScratched,
                first: slots.len() as u8,
                second: 0,
            }),
            Err(trouble) => self.set(Status::from(trouble)),
        }
    }

    /// Scratches these slots, one after another. An `Err` is what ended it: the slots before stay scratched.
    fn clear(&mut self, slots: &[u8]) -> Result<(), Trouble>
        ensures led { OnOk result (ScratchesEach (M.seen self.old.medium) (M.seen self.new.medium) slots.now) }
        ensures scratched { ClearsSlots M.seen slots.now self.old self.new result }
        ensures stopped { StopsClearing M.seen slots.now self.old self.new result }
        ensures unguarded { AreUnguarded (M.seen self.old.medium).protected slots.now → IfErr result (λ t. t.code ≢ 26) }
        ensures only { OnlyMedium self.old self.new }
        ensures medium { KeepsElse result (M.seen self.old.medium) (M.seen self.new.medium) }
        ensures rest { KeepsRestGoing M.seen slots.now self.old self.new }
    {
        'slots: for slot in slots {
            self.volume.scratch(*slot)?;
        }
        Ok(())
    }
}
