//! A frame of the host in a reading.

use crate::tests::phase::{Frame, Phase};
use crate::tests::reading::*;
use Line::*;
use Way::*;
use cbm_iec::*;
use std::alloc::Global;
use std::process::Abort;

/// A change that a drive owes, with which no act counts.
pub fn owed_change(place: usize, moment: u64, line: Line, way: Way) -> Owed {
    Owed {
        place,
        change: Change { moment, line, way },
        act: None,
    }
}

impl Reading {
    /// A frame may be ready 100 after the last accept, and after ATN's pull or release.
    pub fn may_send(&self, moment: u64, changed: Option<u64>) -> bool {
        self.is_clear() && is_after(moment, 100, changed) && is_after(moment, 100, self.accepted)
    }

    /// CLOCK is free: each that hears frees DATA, and if the end is signalled it pulses from the moment at which
    /// DATA is free on the wire.
    pub fn ready(
        mut self,
        rt: &impl Abort,
        alloc: Global,
        moment: u64,
        frame: Frame,
        next: &mut Vec<Reading>,
    ) {
        let hearers = self.hearers(rt, alloc, frame.attention);
        let (mut slowest, mut longest) = (0, 0);
        for (place, reaction) in &hearers {
            slowest = slowest.max(*reaction);
            longest = longest.max(after(*reaction, beat(self.pace_at(*place))));
        }
        let wire = after(moment, slowest);
        let pulse = after(wire, 200);
        for (place, reaction) in &hearers {
            self.owe(rt, *place, after(moment, *reaction), Data, Free, None);
            if frame.eoi {
                self.owe(rt, *place, after(pulse, *reaction), Data, Pull, None);
                let end = after(after(pulse, beat(self.pace_at(*place))), *reaction);
                self.owe(rt, *place, end, Data, Free, None);
            }
        }
        self.phase = Phase::Ready(frame, wire, after(pulse, longest));
        add(rt, next, self)
    }

    /// The first bit begins 1 to 199 after the moment at which DATA is free, or after the pulse.
    pub fn start(
        mut self,
        rt: &impl Abort,
        moment: u64,
        frame: Frame,
        wire: u64,
        quiet: u64,
        next: &mut Vec<Reading>,
    ) {
        let fits = if frame.eoi {
            quiet < moment
        } else {
            wire < moment && moment <= after(wire, 199)
        };
        if !fits || !self.is_clear() {
            return;
        }
        self.phase = Phase::Setting(frame, moment, None);
        add(rt, next, self)
    }

    /// CLOCK is free at least 20 after its pull and after DATA: the bit is 1 if DATA is free.
    pub fn bit(
        mut self,
        rt: &impl Abort,
        moment: u64,
        frame: Frame,
        set: u64,
        next: &mut Vec<Reading>,
    ) {
        if moment < after(set, 20) {
            return;
        }
        let top = if self.host.data_low { 0 } else { 128 };
        let read = Frame {
            byte: frame.byte / 2 + top,
            count: frame.count.wrapping_add(1),
            ..frame
        };
        self.phase = Phase::Showing(read, moment);
        add(rt, next, self)
    }

    /// CLOCK is pulled after a bit: the next one, or the end of the byte.
    pub fn bit_over(
        mut self,
        rt: &impl Abort,
        alloc: Global,
        moment: u64,
        frame: Frame,
        next: &mut Vec<Reading>,
    ) {
        if frame.count < 8 {
            self.phase = Phase::Setting(frame, moment, None);
            return add(rt, next, self);
        }
        if self.host.data_low {
            self.phase = Phase::Freeing(frame, moment);
            return add(rt, next, self);
        }
        self.sent(rt, alloc, moment, frame, next)
    }

    /// The byte is sent: each that heard it pulls DATA, and with that it counts.
    pub fn sent(
        mut self,
        rt: &impl Abort,
        alloc: Global,
        end: u64,
        frame: Frame,
        next: &mut Vec<Reading>,
    ) {
        let (phase, act) = if frame.attention {
            (Phase::Attention, Act::Attention(frame.byte))
        } else {
            (Phase::Listening, Act::Heard(frame.byte, frame.eoi))
        };
        let (mut fastest, mut slowest) = (60, 0);
        let hearers = self.hearers(rt, alloc, frame.attention);
        for (place, reaction) in &hearers {
            fastest = fastest.min(*reaction);
            slowest = slowest.max(*reaction);
            self.owe(rt, *place, after(end, *reaction), Data, Pull, Some(act));
        }
        self.phase = phase;
        self.accepted = Some(after(end, fastest));
        self.answered = Some(after(end, slowest));
        add(rt, next, self)
    }
}
