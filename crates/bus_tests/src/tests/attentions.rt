//! Attentions of a generated session and what follows them: releases, talks, cuts.

use crate::tests::bounds::Bound;
use crate::tests::plays::*;
use crate::tests::reading::{FREE, add, after, beat};
use crate::tests::sessions::*;
use Line::*;
use Way::*;
use cbm_iec::*;
use std::alloc::Global;
use std::process::Abort;

impl Session {
    // ATN's release, and what follows it up to the next attention; the moment from which ATN may be pulled after all
    // of that.
    pub fn release(&mut self, rt: &impl Abort, alloc: Global) -> u64 {
        let first = self.after_accepts();
        let moment = self.from(rt, Bound::Release, first, after(first, 80));
        self.released = moment;
        match (self.any(Role::Listener), self.any(Role::Talker)) {
            (None, None) => {
                self.host(rt, moment, Atn, Free);
                self.each(rt, alloc, moment, Act::Released);
                self.let_go(rt, alloc, moment);
                let clock = self.pick(moment, after(moment, 100));
                self.host(rt, clock, Clock, Free);
                after(moment, self.pull_pause()).max(clock)
            }
            (Some(_), _) => {
                self.host(rt, moment, Atn, Free);
                self.each(rt, alloc, moment, Act::Released);
                self.let_go(rt, alloc, moment);
                let mut ready = after(moment, 100);
                for _ in 0..self.random(3) {
                    let eoi = self.random(2) == 0;
                    let byte = (self.random(256) % 256) as u8;
                    let from = self.from(rt, Bound::Ready, ready, after(ready, 60));
                    self.frame(rt, alloc, false, byte, eoi, from);
                    ready = after(self.accepted, 100);
                }
                after(moment, self.pull_pause()).max(self.after_accepts())
            }
            (None, Some(talker)) => {
                self.host(rt, moment, Data, Pull);
                let freed = self.together(rt, moment);
                self.host(rt, freed, Atn, Free);
                self.each(rt, alloc, moment, Act::Released);
                let afterwards = self.let_go(rt, alloc, moment);
                let turn = match talker.pace {
                    Pace::Profile => 20,
                    Pace::Kernal => 15,
                };
                let clock = self.from(rt, Bound::Turn, after(moment, turn), after(moment, 90));
                self.host(rt, clock, Clock, Free);
                let end = self.talk(rt, talker, after(clock, talker.reaction));
                end.max(afterwards)
            }
        }
    }

    // The answer of a talker: nothing to say, or bytes up to a last one.
    pub fn talk(&mut self, rt: &impl Abort, talker: Member, answer: u64) -> u64 {
        let (device, r) = (talker.device, talker.reaction);
        if self.silent {
            return self.mute(rt, talker, answer);
        }
        self.drive(rt, device, answer, Clock, Pull);
        self.drive(rt, device, answer, Data, Free);
        let mut lead = after(answer, 80);
        for _ in 0..3 {
            let byte = *STATUS.get(self.said).unwrap_or(&0);
            let last = self.said % 3 == 2;
            self.drive(rt, device, lead, Clock, Free);
            let free = self.from(rt, Bound::Take, after(lead, 1), after(lead, 300));
            self.host(rt, free, Data, Free);
            let mut begin = free;
            if last {
                let mark = self.from(rt, Bound::Mark, after(free, 200), after(free, 400));
                begin = self.from(rt, Bound::Unmark, after(mark, 60), after(mark, 160));
                self.host(rt, mark, Data, Pull);
                self.host(rt, begin, Data, Free);
            }
            let accept = self.say(rt, talker, byte, after(begin, r));
            self.host(rt, accept, Data, Pull);
            add(rt, &mut self.acts, (accept, device, Act::Said(byte, last)));
            self.said = if self.said < 26 { self.said + 1 } else { 0 };
            if last {
                self.drive(rt, device, after(accept, r), Clock, Free);
                return after(accept, r.wrapping_add(1));
            }
            lead = after(accept, 100);
        }
        lead
    }

    // Nothing to say: DATA is freed, at a KERNAL's pace after CLOCK was held for 80; and the host may free DATA then.
    fn mute(&mut self, rt: &impl Abort, talker: Member, answer: u64) -> u64 {
        let device = talker.device;
        let mut end = answer;
        if talker.pace == Pace::Kernal {
            end = after(answer, 80);
            self.drive(rt, device, answer, Clock, Pull);
            self.drive(rt, device, end, Clock, Free);
        }
        self.drive(rt, device, end, Data, Free);
        add(rt, &mut self.acts, (end, device, Act::Silent));
        if self.random(2) == 0 {
            return after(end, 1);
        }
        let free = self.from(rt, Bound::Silence, after(end, 1), after(end, 80));
        self.host(rt, free, Data, Free);
        free
    }

    // The bits of a byte, from the first; when the host accepts it.
    pub fn say(&mut self, rt: &impl Abort, talker: Member, byte: u8, first: u64) -> u64 {
        let (device, half) = (talker.device, beat(talker.pace));
        let mut left = byte;
        let mut moment = first;
        for _ in 0..8 {
            self.drive(rt, device, moment, Clock, Pull);
            self.drive(
                rt,
                device,
                moment,
                Data,
                if left % 2 == 0 { Pull } else { Free },
            );
            self.drive(rt, device, after(moment, half), Clock, Free);
            left = left / 2;
            moment = after(moment, half.wrapping_mul(2));
        }
        self.drive(rt, device, moment, Clock, Pull);
        self.drive(rt, device, moment, Data, Free);
        self.within(rt, Bound::Accept, after(moment, 1), after(moment, 1000))
    }

    // An attention of some bytes, so that no drive listens beside one that talks.
    pub fn attention(&mut self, rt: &impl Abort, alloc: Global, moment: u64) {
        self.pull(rt, alloc, moment);
        let device = (8 + self.random(4) % 4) as u8;
        match self.random(4) {
            0 => self.command(rt, alloc, 0x40 + device),
            1 => self.command(rt, alloc, 0x20 + device),
            2 => self.command(rt, alloc, 0x3f),
            _ => {
                self.command(rt, alloc, 0x5f);
                self.command(rt, alloc, 0x20 + device);
                self.command(rt, alloc, 0x6f);
            }
        }
        match (self.any(Role::Listener), self.any(Role::Talker)) {
            (Some(_), Some(_)) => self.command(rt, alloc, 0x3f),
            _ => {}
        }
    }

    // ATN is pulled at this moment: only what lies before stands.
    pub fn cut(&mut self, rt: &impl Abort, alloc: Global, moment: u64) {
        if let Some((_, flawed, _)) = self.broken
            && moment <= flawed
        {
            self.broken = None;
        }
        let mut changes = Vec::new(alloc);
        for change in &self.changes {
            if change.moment < moment {
                add(rt, &mut changes, *change);
            }
        }
        let mut wanted = Vec::new(alloc);
        for event in &self.wanted {
            if event.change.moment < moment {
                add(rt, &mut wanted, *event);
            }
        }
        let mut acts = Vec::new(alloc);
        self.said = 0;
        for (counted, device, act) in &self.acts {
            if *counted < moment {
                add(rt, &mut acts, (*counted, *device, *act));
                if let Act::Said(_, _) = *act {
                    self.said = if self.said < 26 { self.said + 1 } else { 0 }
                }
            }
        }
        self.host = FREE;
        for change in &changes {
            self.host = with_own(self.host, change.line, is_low(change.way)).0;
        }
        for member in &mut self.members {
            member.own = FREE;
            for event in &wanted {
                if event.who == Who::Drive(member.device) {
                    member.own = with_own(
                        member.own,
                        event.change.line,
                        is_low(event.change.way),
                    ).0;
                }
            }
        }
        self.changes = changes;
        self.wanted = wanted;
        self.acts = acts;
    }

    // A moment of a talk: often that of an event, or 1 beside it.
    pub fn cut_moment(&mut self, first: u64, last: u64) -> u64 {
        let (made, asked) = (self.wanted.len() as u64, self.changes.len() as u64);
        let (of_drive, of_host) = (self.random(made) as usize, self.random(asked) as usize);
        let beside = self.random(3);
        let of_drive = match self.wanted.get(of_drive) {
            Some(event) => event.change.moment,
            None => first,
        };
        let of_host = match self.changes.get(of_host) {
            Some(change) => change.moment,
            None => first,
        };
        let event = if self.random(2) == 0 {
            of_drive
        } else {
            of_host
        };
        let moment = after(event, beside).wrapping_sub(1);
        if first <= moment && moment <= last {
            moment
        } else {
            self.pick(first, last)
        }
    }

    // Up to three attentions, each with what follows it; a talk may be cut at any moment after ATN's release.
    pub fn write(&mut self, rt: &impl Abort, alloc: Global) -> u64 {
        let mut moment = self.random(50);
        for _ in 0..after(1, self.random(3)) {
            self.attention(rt, alloc, moment);
            let end = self.release(rt, alloc);
            let talks = self.any(Role::Talker).is_some() && self.any(Role::Listener).is_none();
            if !talks {
                moment = self.from(rt, Bound::Attention, end, after(end, 200));
                continue;
            }
            moment = self.pick(end, after(end, 200));
            let first = after(self.released, 1);
            if first < end && self.random(2) == 0 {
                moment = self.cut_moment(first, end.wrapping_sub(1));
                self.cut(rt, alloc, moment);
            }
        }
        self.pull(rt, alloc, moment);
        moment
    }
}
