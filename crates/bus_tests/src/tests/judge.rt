//! The judge of a trace: whether it begins a session, whether the host keeps the timing, and whether a drive is late.

use crate::tests::decided::agrees;
use crate::tests::reading::{Reading, add};
use cbm_iec::*;
use std::alloc::Global;
use std::mem;
use std::process::Abort;

/// What is said of a trace: all its readings at once, of which one says that it begins a session.
#[derive(Drop)]
pub struct Judge {
    alloc: Global,
    pub readings: Vec<Reading>,
    /// Up to which moment the trace was seen.
    seen: u64,
    /// Unless a drive was late before, each change of the host goes on with a session, and none that is due is left
    /// out.
    pub keeps: bool,
    /// A drive left out a change that was due in every reading.
    pub late: bool,
}

/// Whether a drive is late at a moment: some session may be quiet up to then, and in each that may, a change of a
/// drive is overdue.
fn is_late_at(readings: &[Reading], moment: u64) -> bool {
    let mut some = false;
    for reading in readings {
        if reading.is_quiet(moment) {
            some = true;
            if !reading.owes(moment) {
                return false;
            }
        }
    }
    some
}

impl Judge {
    pub fn new(rt: &impl Abort, alloc: Global, parties: &[Party]) -> Judge {
        let mut readings = Vec::new(alloc);
        add(rt, &mut readings, Reading::at_rest(rt, alloc, parties));
        Judge {
            alloc,
            readings,
            seen: 0,
            keeps: true,
            late: false,
        }
    }

    /// Whether a drive was late at a moment from what was seen to before that one. Only if something falls due can
    /// it begin to be so.
    fn is_late_before(&self, moment: u64) -> bool {
        if moment <= self.seen {
            return false;
        }
        let mut late = is_late_at(&self.readings, self.seen);
        for reading in &self.readings {
            for due in [reading.host_due(), reading.next_owed()] {
                if let Some(due) = due
                    && self.seen < due
                    && due < moment
                {
                    late = late || is_late_at(&self.readings, due);
                }
            }
        }
        late
    }

    /// From which moment no session is quiet any more, if there is one.
    fn all_due(&self) -> Option<u64> {
        let mut last = self.seen;
        for reading in &self.readings {
            last = last.max(reading.host_due()?);
        }
        if self.readings.is_empty() {
            None
        } else {
            Some(last)
        }
    }

    /// Time goes on to a moment, before which nothing more happened.
    fn pass(&mut self, moment: u64) {
        if moment <= self.seen {
            return;
        }
        if let Some(due) = self.all_due()
            && due < moment
            && !self.late
            && !self.is_late_before(due)
        {
            self.keeps = false;
        }
        self.late = self.late || self.is_late_before(moment);
    }

    /// The next event; whether some session goes on with it.
    fn see(&mut self, rt: &impl Abort, event: Event) -> bool {
        let moment = event.change.moment;
        self.pass(moment);
        let mut next = Vec::new(self.alloc);
        for reading in mem::replace(&mut self.readings, Vec::new(self.alloc)) {
            reading.step(rt, self.alloc, event, &mut next);
        }
        if next.is_empty() && event.who == Who::Host && !self.late {
            self.keeps = false;
        }
        self.readings = next;
        self.seen = moment;
        !self.readings.is_empty()
    }

    /// Judges a trace up to an end; the judge of `bus_judge` says the same.
    pub fn of(
        rt: &impl Abort,
        alloc: Global,
        parties: &[Party],
        trace: &[Event],
        end: u64,
    ) -> Judge {
        let judge = Judge::read(rt, alloc, parties, trace, end);
        agrees(rt, alloc, parties, trace, end, &judge);
        judge
    }

    fn read(rt: &impl Abort, alloc: Global, parties: &[Party], trace: &[Event], end: u64) -> Judge {
        let mut judge = Judge::new(rt, alloc, parties);
        for event in trace {
            if !judge.see(rt, *event) {
                return judge;
            }
        }
        judge.pass(end.wrapping_add(1));
        judge
    }

    /// The trace begins a session.
    pub fn begins(&self) -> bool {
        !self.readings.is_empty()
    }
}
