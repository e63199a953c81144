//! A player gives events one by one.

use crate::drives::{Parrot, turn};
use arrayvec::ArrayVec;
use cbm_drive::{Bus, Drive, PlayFault, Player};
use cbm_iec::Line::*;
use cbm_iec::Way::*;
use cbm_iec::{Change, Event, Line, Pace, Party, Way, Who};
use std::process::Abort;

/// A player and its bus, with drive 8 alone.
#[derive(Drop)]
struct Stand {
    player: Player,
    bus: Bus<Parrot, 1>,
}

/// What is tried, and what comes of it.
#[derive(Clone, Copy, Drop)]
enum Step {
    /// A change is taken, and is the next event.
    Gives(u64, Line, Way),
    /// A change is taken, and waits.
    Waits(u64, Line, Way),
    /// A change is refused by this fault.
    Refuses(u64, Line, Way, PlayFault),
    /// Up to a moment nothing happens, and a change waits or not.
    Silent(u64, bool),
    /// Up to a moment the host makes this change, which waited.
    Host(u64, u64, Line, Way),
    /// Up to a moment the drive makes this change.
    Drive(u64, u64, Line, Way),
}

use Step::*;

fn resting() -> Stand {
    let acts = ArrayVec::new();
    let party = Party {
        device: 8,
        reaction: 20,
        pace: Pace::Profile,
    };
    Stand {
        player: Player::new(),
        bus: Bus::new([Drive::new(Parrot { acts }, party)]),
    }
}

impl Stand {
    fn offer(&mut self, moment: u64, line: Line, way: Way) -> Option<Result<(), PlayFault>> {
        if self.player.waits() || moment >= 1 << 58 {
            return None;
        }
        Some(self.player.offer(Change { moment, line, way }))
    }

    fn takes(&mut self, moment: u64, line: Line, way: Way) -> bool {
        self.offer(moment, line, way) == Some(Ok(()))
    }

    /// The next event up to a moment.
    fn next(&mut self, upto: u64) -> Option<Event> {
        if upto < 1 << 58 {
            self.player.next(&mut self.bus, upto)
        } else {
            None
        }
    }

    fn comes(&mut self, upto: u64, who: Who, moment: u64, line: Line, way: Way) -> bool {
        let change = Change { moment, line, way };
        self.next(upto) == Some(Event { who, change })
    }

    fn gives(&mut self, moment: u64, line: Line, way: Way) -> bool {
        self.takes(moment, line, way) && self.comes(moment, Who::Host, moment, line, way)
    }

    fn keeps(&mut self, step: Step) -> bool {
        match step {
            Gives(moment, line, way) => self.gives(moment, line, way),
            Waits(moment, line, way) => self.takes(moment, line, way) && self.player.waits(),
            Refuses(moment, line, way, fault) => {
                self.offer(moment, line, way) == Some(Err(fault)) && !self.player.waits()
            }
            Silent(upto, waits) => self.next(upto).is_none() && self.player.waits() == waits,
            Host(upto, moment, line, way) => {
                self.comes(upto, Who::Host, moment, line, way) && !self.player.waits()
            }
            Drive(upto, moment, line, way) => { self.comes(upto, Who::Drive(8), moment, line, way) }
        }
    }
}

fn try_steps(rt: &impl Abort, stand: &mut Stand, steps: &[Step]) {
    for step in steps {
        assert!(rt; stand.keeps(*step));
    }
}

// LISTEN 8, 40 for a bit: each event as soon as it comes.
const LISTEN: [Step; 30] = [
    Gives(0, Atn, Pull),
    Gives(0, Clock, Pull),
    Silent(19, false),
    Drive(999, 20, Data, Pull),
    Silent(999, false),
    Gives(1000, Clock, Free),
    Drive(1040, 1020, Data, Free),
    Gives(1040, Clock, Pull),
    Gives(1040, Data, Pull),
    Gives(1060, Clock, Free),
    Gives(1080, Clock, Pull),
    Gives(1100, Clock, Free),
    Gives(1120, Clock, Pull),
    Gives(1140, Clock, Free),
    Gives(1160, Clock, Pull),
    Gives(1160, Data, Free),
    Gives(1180, Clock, Free),
    Gives(1200, Clock, Pull),
    Gives(1200, Data, Pull),
    Gives(1220, Clock, Free),
    Gives(1240, Clock, Pull),
    Gives(1240, Data, Free),
    Gives(1260, Clock, Free),
    Gives(1280, Clock, Pull),
    Gives(1280, Data, Pull),
    Gives(1300, Clock, Free),
    Gives(1320, Clock, Pull),
    Gives(1340, Clock, Free),
    Gives(1360, Clock, Pull),
    Gives(1360, Data, Free),
];

const LISTENED: [Step; 3] = [
    Drive(1399, 1380, Data, Pull),
    Gives(1400, Atn, Free),
    Silent(1500, false),
];

#[test]
fn listens(rt: HostRuntime) {
    let mut stand = resting();
    try_steps(&rt, &mut stand, &LISTEN);
    try_steps(&rt, &mut stand, &LISTENED);
}

// A change that waits comes before a reaction of its moment.
const FIRST: [Step; 7] = [
    Gives(0, Atn, Pull),
    Waits(20, Clock, Pull),
    Silent(19, true),
    Host(20, 20, Clock, Pull),
    Drive(20, 20, Data, Pull),
    // A change comes after the last reaction that was given.
    Refuses(20, Data, Pull, PlayFault::Backwards(2)),
    Gives(21, Data, Pull),
];

#[test]
fn the_host_comes_first(rt: HostRuntime) {
    try_steps(&rt, &mut resting(), &FIRST);
}

// The drive leaves at 25, and holds no line.
fn is_leaving(bus: &Bus<Parrot, 1>) -> bool {
    bus.next_due() == Some(25) && !bus.shows_before(1000)
}

// A reaction that changes no line isn't made where no event follows: the host may still come before it.
#[test]
fn what_shows_nothing_waits(rt: HostRuntime) {
    let mut stand = resting();
    try_steps(&rt, &mut stand, &[Gives(0, Atn, Pull), Gives(5, Atn, Free)]);
    assert!(rt; is_leaving(&stand.bus));
    let steps = [
        Silent(999, false),
        Gives(25, Atn, Pull),
        Drive(999, 45, Data, Pull),
    ];
    try_steps(&rt, &mut stand, &steps);
}

// Up to ten events, until the change comes that waits: the last of them.
fn last_of_ten(stand: &mut Stand, upto: u64) -> Option<Event> {
    let mut last = None;
    for _ in 0..10 {
        if stand.player.waits() {
            last = stand.next(upto);
        }
    }
    last
}

// Whether each change is taken; and whether the last one comes as an event.
fn give_all(rt: &impl Abort, stand: &mut Stand, changes: &[Change]) -> bool {
    let mut is_last = false;
    for change in changes {
        assert!(rt; stand.takes(change.moment, change.line, change.way));
        let wanted = Event {
            who: Who::Host,
            change: *change,
        };
        is_last = last_of_ten(stand, change.moment) == Some(wanted);
    }
    is_last
}

fn has_no_half(stand: &mut Stand, upto: u64) -> bool {
    upto < 1 << 58 && stand.player.half(&mut stand.bus, upto).is_none()
}

// Whether the half that comes at a moment changes CLOCK, pulled or not before, and leaves DATA so.
fn is_half(stand: &mut Stand, moment: u64, shown: bool, low: bool) -> bool {
    if moment >= 1 << 58 {
        return false;
    }
    match stand.player.half(&mut stand.bus, moment) {
        Some(said) => {
            let is_its = said.moment == moment && said.device == 8 && said.now.data_low == low;
            is_its && said.was.clock_low == shown && said.now.clock_low != shown
        }
        None => false,
    }
}

// TALK 8, CLOCK free for the turnaround at 1420 and DATA 120 later: the halves of $37, its end apart.
#[test]
fn a_byte_comes_in_halves(rt: HostRuntime) {
    let mut stand = resting();
    let host = turn(rt.alloc());
    assert!(rt; give_all(&rt, &mut stand, host.changes(&rt)));
    assert!(rt; has_no_half(&mut stand, 1559));
    for half in 0..16u64 {
        let low = matches!(half, 6 | 7 | 12..=15);
        assert!(rt; is_half(&mut stand, 1560 + 60 * half, half % 2 == 1, low));
    }
    assert!(rt; has_no_half(&mut stand, 9999));
    assert!(rt; stand.keeps(Drive(9999, 2520, Clock, Pull)));
    assert!(rt; has_no_half(&mut stand, 9999));
    assert!(rt; stand.keeps(Drive(9999, 2520, Data, Free)));
}
