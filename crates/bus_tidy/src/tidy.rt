//! The tidy host's trace, event by event.

ghost use Rattle.std.specs.Prelude.{◌≡◌, ◌≤◌, ◌+◌, length, ℕ};
ghost use Rattle.cbm_iec.specs.declared.lines.Lines.{Lines as TheseLines};
ghost use Rattle.cbm_iec.specs.Changes.{lines_changed};
ghost use Rattle.bus_tidy.specs.Tidied.{after_all};

use crate::cable::Cable;
use crate::phase::Phase;
use arrayvec::ArrayVec;
use cbm_iec::{Change, Line, Lines, Party, Role, Way};

/// What the tidy host does beside a change of the host: at most one change of ATN and one of each other line.
pub type Changes = ArrayVec<Change, 4>;

/// Reads a trace, and gives that of a tidy host.
#[derive(Drop)]
pub struct Tidy {
    cable: Cable,
    phase: Phase,
    /// The lines that the host holds, and those that the tidy one does.
    host: Lines,
    tidy: Lines,
    /// When the host changed DATA last.
    data_since: u64,
}

impl Tidy {
    /// Beside a trace of these drives, in which nothing was seen yet. All lines are free.
    pub fn new(parties: &[Party]) -> Tidy {
        Tidy {
            cable: Cable::new(parties),
            phase: Phase::Rest,
            host: Lines::FREE,
            tidy: Lines::FREE,
            data_since: 0,
        }
    }

    /// A drive changes a line. The tidy host's trace has the same event.
    pub fn drive(&mut self, device: u8, change: Change) {
        let is_talkers = self.cable.is_talker(device);
        self.phase = self.phase.settled(change, is_talkers);
        self.cable.change(device, change);
        if is_talkers {
            self.phase = self.phase.told(change);
        }
    }

    /// The host changes a line. Answers the tidy host's changes that it comes to: none if no drive heeds it; with ATN's
    /// changes come those that a session has there.
    pub fn host(&mut self, change: Change) -> Changes
        ensures host { self.new.host ≡ lines_changed change self.old.host }
        ensures tidy { self.new.tidy ≡ after_all result.items self.old.tidy }
    {
        let mut changes = Changes::new();
        self.phase = self.phase.settled(change, false);
        self.host = self.host.after(change);
        match (change.line, change.way) {
            (Line::Atn, Way::Pull) => self.call(change.moment, &mut changes),
            (Line::Atn, Way::Free) => self.release(change.moment, &mut changes),
            (Line::Clock, _) => self.clock(change, &mut changes),
            (Line::Data, _) => self.data(change, &mut changes),
        }
        changes
    }

    /// ATN is pulled: with it the tidy host pulls CLOCK and frees DATA; if it waits for the host's pull, with that.
    fn call(&mut self, moment: u64, changes: &mut Changes)
        requires { length changes.old.items + 3 ≤ 4 }
        ensures host { self.new.host ≡ self.old.host }
        ensures room { length changes.new.items ≤ length changes.old.items + 3 }
        ensures tidy { (l : TheseLines) → self.old.tidy ≡ after_all changes.old.items l → self.new.tidy ≡ after_all changes.new.items l }
    {
        self.phase = Phase::Called;
        self.give(moment, Line::Atn, true, changes);
        if self.host.clock_low || self.cable.waits_for_clock() {
            self.pull_clock(moment, changes);
        }
    }

    /// ATN is freed: with it the tidy host pulls DATA, if a drive talks; if none listens or talks it frees CLOCK.
    fn release(&mut self, moment: u64, changes: &mut Changes)
        requires { length changes.old.items + 3 ≤ 4 }
        ensures host { self.new.host ≡ self.old.host }
        ensures room { length changes.new.items ≤ length changes.old.items + 3 }
        ensures tidy { (l : TheseLines) → self.old.tidy ≡ after_all changes.old.items l → self.new.tidy ≡ after_all changes.new.items l }
    {
        let (talks, listens) = (self.cable.has(Role::Talker), self.cable.has(Role::Listener));
        if talks {
            self.give(moment, Line::Data, self.host.data_low, changes);
        }
        self.give(moment, Line::Atn, false, changes);
        if talks {
            self.phase = Phase::Turn;
        } else if listens {
            self.phase = Phase::Between;
        } else {
            self.give(moment, Line::Clock, false, changes);
            self.phase = Phase::Rest;
        }
    }

    /// CLOCK: left out if no drive heeds it. Before its release comes what became of DATA while it was pulled.
    fn clock(&mut self, change: Change, changes: &mut Changes)
        requires { length changes.old.items + 2 ≤ 4 }
        ensures host { self.new.host ≡ self.old.host }
        ensures room { length changes.new.items ≤ length changes.old.items + 2 }
        ensures tidy { (l : TheseLines) → self.old.tidy ≡ after_all changes.old.items l → self.new.tidy ≡ after_all changes.new.items l }
    {
        let low = change.way.is_pull();
        if matches!(
            self.phase,
            Phase::Rest | Phase::Talk { .. } | Phase::Answered(_)
        ) {
            return;
        }
        if low {
            self.pull_clock(change.moment, changes);
        } else {
            self.free_clock(change.moment, changes);
        }
        if let Some(byte) = self.phase.byte(low)
            && self.host.atn_low
        {
            self.cable.obey(byte);
        }
        self.phase = self.phase.clocked(low, self.host.data_low);
    }

    /// CLOCK is pulled; if that comes with ATN's pull DATA is freed.
    fn pull_clock(&mut self, moment: u64, changes: &mut Changes)
        requires { length changes.old.items + 2 ≤ 4 }
        ensures host { self.new.host ≡ self.old.host }
        ensures room { length changes.new.items ≤ length changes.old.items + 2 }
        ensures tidy { (l : TheseLines) → self.old.tidy ≡ after_all changes.old.items l → self.new.tidy ≡ after_all changes.new.items l }
    {
        self.give(moment, Line::Clock, true, changes);
        if self.phase == Phase::Called {
            self.give(moment, Line::Data, false, changes);
        }
    }

    /// CLOCK is freed, after what became of DATA while it was pulled.
    fn free_clock(&mut self, moment: u64, changes: &mut Changes)
        requires { length changes.old.items + 2 ≤ 4 }
        ensures host { self.new.host ≡ self.old.host }
        ensures room { length changes.new.items ≤ length changes.old.items + 2 }
        ensures tidy { (l : TheseLines) → self.old.tidy ≡ after_all changes.old.items l → self.new.tidy ≡ after_all changes.new.items l }
    {
        self.give(self.data_since, Line::Data, self.host.data_low, changes);
        self.give(moment, Line::Clock, false, changes);
    }

    /// DATA: left out if no drive heeds it. While CLOCK is pulled it is put off until that is freed, but for its release after
    /// a byte.
    fn data(&mut self, change: Change, changes: &mut Changes)
        requires { length changes.old.items + 1 ≤ 4 }
        ensures host { self.new.host ≡ self.old.host }
        ensures room { length changes.new.items ≤ length changes.old.items + 1 }
        ensures tidy { (l : TheseLines) → self.old.tidy ≡ after_all changes.old.items l → self.new.tidy ≡ after_all changes.new.items l }
    {
        let low = change.way.is_pull();
        self.data_since = change.moment;
        let waits = match self.phase {
            Phase::Rest | Phase::Called => true,
            Phase::Between => low,
            Phase::Bits { .. } => self.host.clock_low,
            _ => false,
        };
        if !waits {
            self.give(change.moment, Line::Data, low, changes);
            self.phase = self.phase.answered(low);
        }
    }

    /// The tidy host changes a line, unless it holds it so already.
    fn give(&mut self, moment: u64, line: Line, low: bool, changes: &mut Changes)
        requires { length changes.old.items + 1 ≤ 4 }
        ensures host { self.new.host ≡ self.old.host }
        ensures room { length changes.new.items ≤ length changes.old.items + 1 }
        ensures tidy { (l : TheseLines) → self.old.tidy ≡ after_all changes.old.items l → self.new.tidy ≡ after_all changes.new.items l }
    {
        let way = if low { Way::Pull } else { Way::Free };
        let change = Change { moment, line, way };
        let tidy = self.tidy.after(change);
        if tidy != self.tidy {
            self.tidy = tidy;
            changes.try_push(change).ok();
        }
    }
}
