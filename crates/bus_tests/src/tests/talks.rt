//! A drive that talks in a reading: the turnaround, and the frames of its bytes.

use crate::tests::bits::owed_change;
use crate::tests::phase::Phase;
use crate::tests::reading::*;
use Line::*;
use Way::*;
use cbm_iec::*;
use std::process::Abort;

impl Reading {
    /// A turnaround may begin after a byte, with a talker and no listener.
    pub fn may_turn(&self, moment: u64) -> bool {
        let alone = self.has(Role::Talker) && !self.has(Role::Listener);
        alone && self.is_clear() && self.is_accepted(moment)
    }

    /// CLOCK is free: the talker answers, with a byte to say or with none.
    pub fn turned(mut self, rt: &impl Abort, moment: u64, next: &mut Vec<Reading>) {
        let Some((place, reaction)) = self.first_with(Role::Talker) else {
            return;
        };
        let answer = after(moment, reaction);
        let other = self.copy(rt);
        self.phase = Phase::Leading(answer);
        self.owe(rt, place, answer, Clock, Pull, None);
        self.owe(rt, place, answer, Data, Free, None);
        add(rt, next, self);
        other.silent(rt, place, answer, next)
    }

    /// The talker has nothing to say: it frees DATA, at a KERNAL's pace after it has held CLOCK for 80.
    fn silent(mut self, rt: &impl Abort, place: usize, answer: u64, next: &mut Vec<Reading>) {
        let mut end = answer;
        if self.pace_at(place) == Pace::Kernal {
            end = after(answer, 80);
            self.owe(rt, place, answer, Clock, Pull, None);
            self.owe(rt, place, end, Clock, Free, None);
        }
        self.phase = Phase::Silent(end);
        self.owe(rt, place, end, Data, Free, Some(Act::Silent));
        add(rt, next, self)
    }

    /// The talker frees CLOCK for a byte, last or not.
    pub fn offer(mut self, rt: &impl Abort, start: u64, next: &mut Vec<Reading>) {
        let Some((place, _)) = self.first_with(Role::Talker) else {
            return;
        };
        self.owe(rt, place, start, Clock, Free, None);
        let mut other = self.copy(rt);
        self.phase = Phase::Offered(false, start);
        other.phase = Phase::Offered(true, start);
        add(rt, next, self);
        add(rt, next, other)
    }

    /// DATA was changed by the host while a drive talks.
    pub fn answer(mut self, rt: &impl Abort, moment: u64, way: Way, next: &mut Vec<Reading>) {
        match (self.phase, way) {
            (Phase::Silent(at), Free) if at < moment => self.phase = Phase::Over,
            (Phase::Offered(false, start), Free) if start < moment => {
                return self.send(rt, moment, false, next);
            }
            (Phase::Offered(true, start), Free) if start < moment => {
                self.phase = Phase::Marking(moment);
            }
            (Phase::Marking(free), Pull) if after(free, 200) <= moment => {
                self.phase = Phase::Marked(moment);
            }
            (Phase::Marked(pull), Free) if after(pull, 60) <= moment => {
                return self.send(rt, moment, true, next);
            }
            (Phase::Waiting(last, first, byte), Pull) => {
                return self.accept(rt, moment, last, first, byte, next);
            }
            _ => return (),
        }
        add(rt, next, self)
    }

    /// The bits begin a reaction after the host's last release of DATA.
    fn send(mut self, rt: &impl Abort, moment: u64, last: bool, next: &mut Vec<Reading>) {
        let Some((_, reaction)) = self.first_with(Role::Talker) else {
            return;
        };
        self.phase = Phase::Sending(last, after(moment, reaction), 0, 0);
        self.bits(rt, next)
    }

    /// The next bit, 0 or 1, or the end of the byte: CLOCK is pulled and DATA freed.
    pub fn bits(mut self, rt: &impl Abort, next: &mut Vec<Reading>) {
        let (Phase::Sending(last, first, byte, count), Some((place, _))) = (
            self.phase,
            self.first_with(Role::Talker),
        ) else {
            return;
        };
        if count < 8 {
            let other = self.copy(rt);
            self.bit_of(
                rt,
                place,
                Phase::Sending(last, first, byte / 2, count + 1),
                next,
            );
            let one = Phase::Sending(last, first, byte / 2 + 128, count + 1);
            return other.bit_of(rt, place, one, next);
        }
        let end = after(first, eight_bits(self.talk_pace()));
        self.owe(rt, place, end, Clock, Pull, None);
        if self.holds_data(place) {
            self.owe(rt, place, end, Data, Free, None);
        }
        self.phase = Phase::Waiting(last, first, byte);
        add(rt, next, self)
    }

    fn holds_data(&self, place: usize) -> bool {
        match self.seats.get(place) {
            Some(seat) => seat.own.data_low,
            None => false,
        }
    }

    fn device_at(&self, place: usize) -> u8 {
        match self.seats.get(place) {
            Some(seat) => seat.party.device,
            None => 0,
        }
    }

    /// A bit: CLOCK pulled with DATA by the bit, and CLOCK freed half of a bit later.
    fn bit_of(mut self, rt: &impl Abort, place: usize, phase: Phase, next: &mut Vec<Reading>) {
        if let Phase::Sending(_, first, byte, count) = phase {
            let half = beat(self.talk_pace());
            let before = half
                .wrapping_mul(2)
                .wrapping_mul((count as u64).wrapping_sub(1));
            let at = after(first, before);
            self.owe(rt, place, at, Clock, Pull, None);
            let low = byte < 128;
            if low != self.holds_data(place) {
                self.owe(rt, place, at, Data, if low { Pull } else { Free }, None);
            }
            self.owe(rt, place, after(at, half), Clock, Free, None);
        }
        self.phase = phase;
        add(rt, next, self)
    }

    /// The host takes the byte 1 to 1,000 after the last pull of CLOCK.
    fn accept(
        mut self,
        rt: &impl Abort,
        moment: u64,
        last: bool,
        first: u64,
        byte: u8,
        next: &mut Vec<Reading>,
    ) {
        let end = after(first, eight_bits(self.talk_pace()));
        let fits = end < moment && moment <= after(end, 1000);
        let Some((place, reaction)) = self.first_with(Role::Talker) else {
            return;
        };
        if !fits || !self.is_clear() {
            return;
        }
        let device = self.device_at(place);
        add(rt, &mut self.acts, (device, Act::Said(byte, last)));
        if !last {
            return self.offer(rt, after(moment, 100), next);
        }
        self.phase = Phase::Taken;
        let freed = owed_change(place, after(moment, reaction), Clock, Free);
        add(rt, &mut self.owed, freed);
        add(rt, next, self)
    }
}
