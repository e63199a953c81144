//! What an event makes of a reading: the readings that go on with it, or none.

use crate::tests::bits::owed_change;
use crate::tests::phase::{Frame, Phase};
use crate::tests::reading::*;
use Line::*;
use Way::*;
use cbm_iec::*;
use std::alloc::Global;
use std::process::Abort;

/// A frame of which nothing was read yet.
fn frame(attention: bool, eoi: bool) -> Frame {
    Frame {
        attention,
        eoi,
        byte: 0,
        count: 0,
    }
}

impl Reading {
    /// The readings that go on from this one with an event.
    pub fn step(self, rt: &impl Abort, alloc: Global, event: Event, next: &mut Vec<Reading>) {
        match event.who {
            Who::Host => self.host_step(rt, alloc, event.change, next),
            Who::Drive(device) => self.drive_step(rt, device, event.change, next),
        }
    }

    /// A drive's change is the first of all that is owed, and comes before the host's next one is due: at one moment
    /// the host's comes first.
    fn drive_step(mut self, rt: &impl Abort, device: u8, change: Change, next: &mut Vec<Reading>) {
        let Some((index, owed)) = self.first_owed() else {
            return;
        };
        let rank = after(owed.place as u64, 1) as usize;
        let early = change.moment < self.last || change.moment == self.last && rank < self.rank;
        if early || !self.is_quiet(change.moment) {
            return;
        }
        if change != owed.change || index >= self.owed.len() {
            return;
        }
        self.owed.remove(index);
        self.last = change.moment;
        self.rank = rank;
        if !self.shows(rt, owed, device) {
            return;
        }
        self.go_on(rt, next)
    }

    /// The drive that owes is that one: it shows its change, and the act counts.
    fn shows(&mut self, rt: &impl Abort, owed: Owed, device: u8) -> bool {
        let Some(seat) = self.seats.get_mut(owed.place) else {
            return false;
        };
        if seat.party.device != device {
            return false;
        }
        seat.own = held_after(seat.own, owed.change);
        if let Some(act) = owed.act {
            if let Act::Attention(byte) = act {
                seat.role = role_after(device, byte, seat.role);
            }
            add(rt, &mut self.acts, (device, act));
        }
        true
    }

    /// What stands once nothing more is owed.
    fn go_on(mut self, rt: &impl Abort, next: &mut Vec<Reading>) {
        match self.phase {
            Phase::Leading(answer) if self.is_clear() => self.offer(rt, after(answer, 80), next),
            Phase::Sending(_, _, _, _) if self.is_clear() => self.bits(rt, next),
            Phase::Taken if self.is_clear() => {
                self.phase = Phase::Open;
                self.released = None;
                self.since = after(self.last, 1);
                add(rt, next, self)
            }
            _ => add(rt, next, self),
        }
    }

    /// A change of the host is none if its line is so already, and comes after all that a drive owes before it.
    fn may_change(&self, change: Change) -> bool {
        let moment = change.moment;
        let early = moment < self.last || moment == self.last && self.rank > 0;
        let overdue = match self.next_owed() {
            Some(due) => due < moment,
            None => false,
        };
        let same = change.line != Atn && held_after(self.host, change) == self.host;
        !early && !overdue && !same
    }

    fn host_step(
        mut self,
        rt: &impl Abort,
        alloc: Global,
        change: Change,
        next: &mut Vec<Reading>,
    ) {
        if !self.may_change(change) {
            return;
        }
        let moment = change.moment;
        if change.line == Atn && change.way == Pull {
            return self.pull(rt, moment, next);
        }
        self.host = held_after(self.host, change);
        self.last = moment;
        self.rank = 0;
        match (change.line, change.way) {
            (Atn, _) => self.release(rt, moment, next),
            (Clock, Free) => self.clock_freed(rt, alloc, moment, next),
            (Clock, Pull) => self.clock_pulled(rt, alloc, moment, next),
            (Data, way) => self.data_changed(rt, alloc, moment, way, next),
        }
    }

    /// Whether ATN may be pulled: a piece of a drive that talks may be cut, before its last event.
    fn may_pull(&self, moment: u64) -> bool {
        let pause = self.pull_pause();
        match self.phase {
            Phase::Open => {
                self.is_clear() && is_after(moment, pause, self.released) && self.since <= moment
            }
            Phase::Listening => {
                self.is_clear()
                    && is_after(moment, pause, self.released)
                    && self.is_accepted(moment)
            }
            Phase::Over if self.is_clear() => self.last <= moment,
            Phase::Offered(_, _) if self.rank == 0 => self.last <= moment,
            Phase::Waiting(_, first, _) if after(first, self.latest()) < moment => false,
            phase => phase.is_talk() && self.last < moment,
        }
    }

    fn pull(mut self, rt: &impl Abort, moment: u64, next: &mut Vec<Reading>) {
        if !self.may_pull(moment) {
            return;
        }
        self.count_each(rt, Act::Pulled);
        let clock = !self.host.clock_low;
        self.phase = if clock || self.host.data_low {
            Phase::Pulling(clock, self.host.data_low)
        } else {
            Phase::Attention
        };
        self.last = moment;
        self.rank = 0;
        self.pulled = moment;
        self.released = None;
        self.accepted = None;
        self.answered = None;
        self.owed.clear();
        self.owe_hold(rt, moment);
        add(rt, next, self)
    }

    /// Each drive frees CLOCK and holds DATA, a reaction after ATN's pull.
    fn owe_hold(&mut self, rt: &impl Abort, moment: u64) {
        for (place, seat) in self.seats.iter().enumerate() {
            let at = after(moment, seat.reaction());
            if seat.own.clock_low {
                add(rt, &mut self.owed, owed_change(place, at, Clock, Free));
            }
            if !seat.own.data_low {
                add(rt, &mut self.owed, owed_change(place, at, Data, Pull));
            }
        }
    }

    /// ATN's release, of an attention with at least one byte.
    fn release(mut self, rt: &impl Abort, moment: u64, next: &mut Vec<Reading>) {
        let talks = self.has(Role::Talker);
        match self.phase {
            Phase::Attention if !talks && self.is_clear() && self.is_accepted(moment) => {
                self.phase = if self.has(Role::Listener) {
                    Phase::Listening
                } else {
                    Phase::Leaving
                };
                self.released = Some(moment);
            }
            Phase::Turning if self.released == Some(moment) => self.phase = Phase::Turned,
            _ => return (),
        }
        self.count_each(rt, Act::Released);
        for (place, seat) in self.seats.iter().enumerate() {
            if seat.role == Role::Absent {
                let at = after(moment, seat.reaction());
                add(rt, &mut self.owed, owed_change(place, at, Data, Free));
            }
        }
        add(rt, next, self)
    }

    /// CLOCK was freed: a frame is ready, a bit is there, or it follows ATN's release.
    fn clock_freed(mut self, rt: &impl Abort, alloc: Global, moment: u64, next: &mut Vec<Reading>) {
        match self.phase {
            Phase::Attention if self.may_send(moment, Some(self.pulled)) => {
                self.ready(rt, alloc, moment, frame(true, false), next)
            }
            Phase::Listening if self.may_send(moment, self.released) => {
                let other = self.copy(rt);
                self.ready(rt, alloc, moment, frame(false, false), next);
                other.ready(rt, alloc, moment, frame(false, true), next)
            }
            Phase::Setting(frame, pull, set) => self.bit(
                rt,
                moment,
                frame,
                set.unwrap_or(pull),
                next,
            ),
            Phase::Leaving => {
                self.phase = Phase::Open;
                self.since = moment;
                add(rt, next, self)
            }
            Phase::Turned if is_after(moment, self.turn(), self.released) => {
                self.turned(rt, moment, next)
            }
            _ => {}
        }
    }

    fn clock_pulled(
        mut self,
        rt: &impl Abort,
        alloc: Global,
        moment: u64,
        next: &mut Vec<Reading>,
    ) {
        match self.phase {
            Phase::Pulling(true, data) if moment == self.pulled => {
                self.phase = if data {
                    Phase::Pulling(false, true)
                } else {
                    Phase::Attention
                };
                add(rt, next, self)
            }
            Phase::Ready(frame, wire, quiet) => self.start(rt, moment, frame, wire, quiet, next),
            Phase::Showing(frame, free) if is_after(moment, 20, Some(free)) => {
                self.bit_over(rt, alloc, moment, frame, next)
            }
            _ => {}
        }
    }

    fn data_changed(
        mut self,
        rt: &impl Abort,
        alloc: Global,
        moment: u64,
        way: Way,
        next: &mut Vec<Reading>,
    ) {
        match (self.phase, way) {
            (Phase::Pulling(false, true), Free) if moment == self.pulled => {
                self.phase = Phase::Attention;
                add(rt, next, self)
            }
            (Phase::Setting(frame, pull, None), _) => {
                self.phase = Phase::Setting(frame, pull, Some(moment));
                add(rt, next, self)
            }
            (Phase::Freeing(frame, end), Free) if moment == end => {
                self.sent(rt, alloc, end, frame, next)
            }
            (Phase::Attention, Pull) if self.may_turn(moment) => {
                self.phase = Phase::Turning;
                self.released = Some(moment);
                add(rt, next, self)
            }
            (_, way) => self.answer(rt, moment, way, next),
        }
    }
}
