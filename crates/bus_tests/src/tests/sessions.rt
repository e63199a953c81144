//! Generated sessions: the pieces with moments at and inside their bounds, and what each drive makes of them.
//! The generator writes down the host's changes and each drive's own from the pieces, and knows nothing of ear and
//! mouth.

use crate::tests::bounds::{BOUNDS, Bound};
use crate::tests::plays::*;
use crate::tests::reading::{FREE, add, after, beat, role_after};
use Line::*;
use Way::*;
use cbm_iec::*;
use std::alloc::Global;
use std::process::Abort;

// A drive of the generated session.
#[derive(Clone, Copy, Drop)]
pub struct Member {
    pub device: u8,
    pub reaction: u64,
    pub pace: Pace,
    pub role: Role,
    pub own: Held,
}

// A session as it is written down: the host's changes, the drives' events, and the acts that count, each with its
// moment.
#[derive(Drop)]
pub struct Session {
    pub seed: u64,
    pub members: Vec<Member>,
    pub host: Held,
    pub changes: Vec<Change>,
    pub wanted: Vec<Event>,
    pub acts: Vec<(u64, u8, Act)>,
    pub said: usize,
    pub pulled: u64,
    pub released: u64,
    // The first accept of the last byte, and the last one.
    pub accepted: u64,
    pub answered: u64,
    pub silent: bool,
    // The bounds in order, and which of them is to be broken, counted from 1; which one was, the moment of the
    // change, and whether that is too late.
    pub bounds: Vec<Bound>,
    pub flaw: u64,
    pub broken: Option<(Bound, u64, bool)>,
}

// The lines after a change, and whether it changes them.
pub fn with_own(own: Held, line: Line, low: bool) -> (Held, bool) {
    match line {
        Atn => (own, false),
        Clock => (
            Held {
                clock_low: low,
                ..own
            },
            own.clock_low != low,
        ),
        Data => (
            Held {
                data_low: low,
                ..own
            },
            own.data_low != low,
        ),
    }
}

impl Session {
    pub fn random(&mut self, below: u64) -> u64 {
        self.seed = self
            .seed
            .wrapping_mul(6364136223846793005)
            .wrapping_add(1442695040888963407);
        let high = self.seed / 0x1_0000_0000;
        if below == 0 { 0 } else { high % below }
    }

    // A moment of a range: often its first or its last.
    pub fn pick(&mut self, first: u64, last: u64) -> u64 {
        match self.random(5) {
            0 | 1 => first,
            2 | 3 => last,
            _ => {
                let span = last.wrapping_sub(first);
                after(first, self.random(span))
            }
        }
    }

    // Whether the bound that comes now is the one to be broken.
    pub fn is_flaw(&mut self, rt: &impl Abort, bound: Bound) -> bool {
        add(rt, &mut self.bounds, bound);
        self.bounds.len() as u64 == self.flaw
    }

    /// Which bound to break: one of a kind, if there is one.
    pub fn choose(&mut self) -> u64 {
        let kind = self.random(BOUNDS.len() as u64) as usize;
        let count = self.bounds.len() as u64;
        let first = self.random(count);
        let mut chosen = after(first, 1);
        let mut place = 0;
        for bound in &self.bounds {
            place = after(place, 1);
            if BOUNDS.get(kind) == Some(bound) && (chosen <= first || place <= after(first, 1)) {
                chosen = place;
            }
        }
        chosen
    }

    // A moment that is at least the first, often that or the last. Where this bound is to be broken it is 1 too
    // early, if it still comes after all others.
    pub fn from(&mut self, rt: &impl Abort, bound: Bound, first: u64, last: u64) -> u64 {
        if self.is_flaw(rt, bound) && self.is_after_all(first.wrapping_sub(1)) {
            self.broken = Some((bound, first.wrapping_sub(1), false));
            return first.wrapping_sub(1);
        }
        self.pick(first, last)
    }

    // A moment that is at least the first and at most the last, or 1 beside them where one of them is to be broken.
    pub fn within(&mut self, rt: &impl Abort, bound: Bound, first: u64, last: u64) -> u64 {
        let moment = self.from(rt, bound, first, last);
        if self.is_flaw(rt, bound) {
            self.broken = Some((bound, after(last, 1), true));
            return after(last, 1);
        }
        moment
    }

    // The moment of a change that comes together with the last one, or 1 later.
    pub fn together(&mut self, rt: &impl Abort, moment: u64) -> u64 {
        if self.is_flaw(rt, Bound::Together) {
            self.broken = Some((Bound::Together, after(moment, 1), true));
            return after(moment, 1);
        }
        moment
    }

    pub fn is_after_all(&self, moment: u64) -> bool {
        match self.changes.last() {
            Some(change) => change.moment <= moment,
            None => false,
        }
    }

    // A change of the host, where it changes its line.
    pub fn host(&mut self, rt: &impl Abort, moment: u64, line: Line, way: Way) {
        let (held, changes) = with_own(self.host, line, is_low(way));
        if line == Atn || changes {
            add(rt, &mut self.changes, at(moment, line, way));
        }
        self.host = held;
    }

    // A change of a drive, where it changes its line.
    pub fn drive(&mut self, rt: &impl Abort, device: u8, moment: u64, line: Line, way: Way) {
        let mut changed = false;
        for member in &mut self.members {
            if member.device == device {
                let (held, changes) = with_own(member.own, line, is_low(way));
                member.own = held;
                changed = changes;
            }
        }
        if changed {
            add(
                rt,
                &mut self.wanted,
                Event {
                    who: Who::Drive(device),
                    change: at(moment, line, way),
                },
            );
        }
    }

    // The members, copied, since they are read while the session grows.
    pub fn seats(&self, rt: &impl Abort, alloc: Global) -> Vec<Member> {
        let mut seats = Vec::new(alloc);
        for member in &self.members {
            add(rt, &mut seats, *member);
        }
        seats
    }

    pub fn each(&mut self, rt: &impl Abort, alloc: Global, moment: u64, act: Act) {
        let seats = self.seats(rt, alloc);
        for member in &seats {
            add(rt, &mut self.acts, (moment, member.device, act));
        }
    }

    pub fn pull(&mut self, rt: &impl Abort, alloc: Global, moment: u64) {
        self.host(rt, moment, Atn, Pull);
        let mut joined = moment;
        if !self.host.clock_low {
            joined = self.together(rt, joined);
            self.host(rt, joined, Clock, Pull);
        }
        if self.host.data_low {
            let freed = self.together(rt, joined);
            self.host(rt, freed, Data, Free);
        }
        self.each(rt, alloc, moment, Act::Pulled);
        let seats = self.seats(rt, alloc);
        for member in &seats {
            self.drive(
                rt,
                member.device,
                after(moment, member.reaction),
                Clock,
                Free,
            );
            self.drive(
                rt,
                member.device,
                after(moment, member.reaction),
                Data,
                Pull,
            );
        }
        self.pulled = moment;
    }

    // A frame of the host, to all in attention and else to the listeners.
    pub fn frame(
        &mut self,
        rt: &impl Abort,
        alloc: Global,
        attention: bool,
        byte: u8,
        eoi: bool,
        ready: u64,
    ) {
        let seats = self.seats(rt, alloc);
        self.host(rt, ready, Clock, Free);
        let (mut slowest, mut longest) = (0, 0);
        let mut fastest = 60;
        for member in &seats {
            if attention || member.role == Role::Listener {
                slowest = slowest.max(member.reaction);
                longest = longest.max(after(member.reaction, beat(member.pace)));
                fastest = fastest.min(member.reaction);
            }
        }
        let t = after(ready, slowest);
        let quiet = after(t, after(longest, 200));
        let start = if eoi {
            self.from(
                rt,
                Bound::StartAfterPulse,
                after(quiet, 1),
                after(quiet, 300),
            )
        } else {
            self.within(rt, Bound::Start, after(t, 1), after(t, 199))
        };
        if let Some((Bound::Start, moment, _)) = self.broken
            && moment == start
        {
            // To listeners the host might still signal the end.
            self.broken = Some((Bound::Start, moment, attention && t < moment));
        }
        self.host(rt, start, Clock, Pull);
        let mut last = start;
        let mut left = byte;
        for _ in 0..8 {
            let low = left % 2 == 0;
            left = left / 2;
            let mut set = last;
            if low != self.host.data_low {
                set = self.pick(last, after(last, 50));
                self.host(rt, set, Data, if low { Pull } else { Free });
            }
            let free = self.from(rt, Bound::Settled, after(set, 20), after(set, 90));
            self.host(rt, free, Clock, Free);
            last = self.from(rt, Bound::Shown, after(free, 20), after(free, 90));
            self.host(rt, last, Clock, Pull);
        }
        if self.host.data_low {
            let freed = self.together(rt, last);
            self.host(rt, freed, Data, Free);
        }
        for member in &seats {
            let (device, r) = (member.device, member.reaction);
            if attention || member.role == Role::Listener {
                self.drive(rt, device, after(ready, r), Data, Free);
                if eoi {
                    self.drive(rt, device, after(t, r.wrapping_add(200)), Data, Pull);
                    let pulse = after(beat(member.pace), 200);
                    self.drive(rt, device, after(t, r.wrapping_add(pulse)), Data, Free);
                }
                self.drive(rt, device, after(last, r), Data, Pull);
                add(
                    rt,
                    &mut self.acts,
                    (
                        after(last, r),
                        device,
                        if attention {
                            Act::Attention(byte)
                        } else {
                            Act::Heard(byte, eoi)
                        },
                    ),
                );
            }
        }
        self.accepted = after(last, fastest);
        self.answered = after(last, slowest);
    }

    pub fn command(&mut self, rt: &impl Abort, alloc: Global, byte: u8) {
        let first = after(self.pulled.max(self.accepted), 100);
        let ready = self.from(rt, Bound::Ready, first, after(first, 60));
        self.frame(rt, alloc, true, byte, false, ready);
        for member in &mut self.members {
            member.role = role_after(member.device, byte, member.role);
        }
    }

    pub fn any(&self, role: Role) -> Option<Member> {
        for member in &self.members {
            if member.role == role {
                return Some(*member);
            }
        }
        None
    }

    // Every drive is of a KERNAL's pace.
    fn is_of_kernal(&self) -> bool {
        for member in &self.members {
            if member.pace == Pace::Profile {
                return false;
            }
        }
        true
    }

    // From which moment ATN may be changed after a byte.
    pub fn after_accepts(&self) -> u64 {
        if self.is_of_kernal() {
            return after(self.accepted, 20).max(after(self.answered, 1));
        }
        let gap = if self.members.len() == 1 { 20 } else { 60 };
        after(self.accepted, gap)
    }

    // From ATN's release to its next pull.
    pub fn pull_pause(&self) -> u64 {
        if self.is_of_kernal() { 61 } else { 100 }
    }

    // Drives without a role let go of DATA.
    pub fn let_go(&mut self, rt: &impl Abort, alloc: Global, moment: u64) -> u64 {
        let seats = self.seats(rt, alloc);
        let mut afterwards = moment;
        for member in &seats {
            if member.role == Role::Absent {
                self.drive(
                    rt,
                    member.device,
                    after(moment, member.reaction),
                    Data,
                    Free,
                );
                afterwards = afterwards.max(after(moment, member.reaction.wrapping_add(1)));
            }
        }
        afterwards
    }
}

impl Session {
    /// A session of one to four drives, whose order of ties rises or falls; of its bounds the one with that number is
    /// broken, counted from 1. Each bit of `paces` is a drive's pace, and 1 that of a KERNAL.
    pub fn new(rt: &impl Abort, alloc: Global, seed: u64, flaw: u64, paces: u8) -> Session {
        let mut session = Session {
            seed,
            members: Vec::new(alloc),
            host: FREE,
            changes: Vec::new(alloc),
            wanted: Vec::new(alloc),
            acts: Vec::new(alloc),
            said: 0,
            pulled: 0,
            accepted: 0,
            answered: 0,
            silent: false,
            released: 0,
            bounds: Vec::new(alloc),
            flaw,
            broken: None,
        };
        session.silent = session.random(3) == 0;
        let count = after(session.random(4), 1);
        let falling = session.random(2) == 0;
        for place in 0..4u8 {
            let reaction = match session.random(4) {
                0 => 1,
                1 => 20,
                2 => 60,
                _ => 1 + session.random(60) % 60,
            };
            if (place as u64) < count {
                add(
                    rt,
                    &mut session.members,
                    Member {
                        device: if falling { 11 - place } else { 8 + place },
                        reaction,
                        pace: if paces >> place & 1 == 1 {
                            Pace::Kernal
                        } else {
                            Pace::Profile
                        },
                        role: Role::Absent,
                        own: FREE,
                    },
                );
            }
        }
        session
    }

    // The acts that count, without their moments.
    pub fn counted(&self, rt: &impl Abort, alloc: Global) -> Vec<(u8, Act)> {
        let mut counted = Vec::new(alloc);
        for (_, device, act) in &self.acts {
            add(rt, &mut counted, (*device, *act));
        }
        counted
    }
}
