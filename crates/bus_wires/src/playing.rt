//! Who does what at one moment: the host's changes first, then the drives' reactions in the order of ties.

ghost use Rattle.std.specs.Prelude.{◌≡◌};

use crate::drive::{Drive, Drives, Now};
use crate::hands::{Hands, holds, low};
use cbm_iec::{Change, Event, Line, Lines, Party, Way, Who};

/// A change of a line by a party, at the present moment.
#[derive(Clone, Copy, Debug, PartialEq, Eq, Drop)]
pub struct Move {
    pub who: Who,
    pub line: Line,
    pub way: Way,
}

/// What becomes of ATN at the present moment.
#[derive(Clone, Copy, Debug, PartialEq, Eq, Drop)]
pub enum Turned {
    Pulled,
    Released,
    Stays,
}

/// What is looked at next: one of the host's changes, by its place; a drive's reaction and its CLOCK, and then its DATA.
#[derive(Clone, Copy, Debug, PartialEq, Eq, Drop)]
enum Stage {
    Host(u8),
    Clock(usize),
    Data(usize),
    Over,
}

/// More than the stages of a moment: four changes of the host, two of each of four drives, and the end.
const STAGES: usize = 16;

/// The drives, and how far the present moment is played.
#[derive(Drop)]
pub struct Playing {
    pub(crate) drives: Drives,
    pub(crate) turned: Turned,
    stage: Stage,
}

impl Move {
    /// The event, at a moment.
    pub fn event(self, moment: u64) -> Event
        ensures { result.change.moment ≡ moment }
    {
        Event {
            who: self.who,
            change: Change {
                moment,
                line: self.line,
                way: self.way,
            },
        }
    }
}

impl Turned {
    /// From whether ATN is pulled to whether it is then.
    fn of(was_low: bool, is_low: bool) -> Turned {
        match (was_low, is_low) {
            (false, true) => Turned::Pulled,
            (true, false) => Turned::Released,
            _ => Turned::Stays,
        }
    }

    pub fn way(self) -> Option<Way> {
        match self {
            Turned::Pulled => Some(Way::Pull),
            Turned::Released => Some(Way::Free),
            Turned::Stays => None,
        }
    }
}

impl Playing {
    /// The drives as they are switched on, up to four.
    pub fn new(parties: &[Party]) -> Playing {
        let mut drives = Drives::new();
        for party in parties.iter().take(4) {
            drives.try_push(Drive::new(*party)).ok();
        }
        Playing {
            drives,
            turned: Turned::Stays,
            stage: Stage::Over,
        }
    }

    /// A moment begins, with these wires.
    pub fn begin(&mut self, hands: &Hands, wires: Lines) {
        self.turned = Turned::of(hands.host.atn_low, wires.atn_low);
        self.stage = Stage::Host(0);
    }

    /// When the first reaction after a moment is due.
    pub fn next_due(&self, moment: u64) -> Option<u64> {
        let mut first: Option<u64> = None;
        for drive in &self.drives {
            if let Some(due) = drive.next_due()
                && due > moment
            {
                first = Some(first.map_or(due, |other| other.min(due)));
            }
        }
        first
    }

    /// Each drive is told what the others hold from this moment on.
    pub fn tell(&mut self, hands: &Hands, moment: u64) {
        for drive in self.drives.as_mut_slice() {
            let others = hands.others(drive.device());
            drive.hear(moment, others);
        }
    }

    /// Whether a drive listens or talks.
    pub(crate) fn has_roles(&self) -> bool {
        self.drives
            .iter()
            .any(|drive| drive.is_listener() || drive.is_talker())
    }

    /// Whether ATN's release goes to a talker: one talks, and no drive listens.
    pub(crate) fn is_turnaround(&self) -> bool {
        let listens = self.drives.iter().any(|drive| drive.is_listener());
        !listens && self.drives.iter().any(|drive| drive.is_talker())
    }

    /// Whether a line that is pulled is a drive's: one pulls it, or is to pull it at this moment; and CLOCK, while one
    /// talks.
    pub(crate) fn is_drives(&self, hands: &Hands, now: Now, line: Line) -> bool {
        if hands.any_drive(line) {
            return true;
        }
        let mut any = false;
        for drive in &self.drives {
            let owns = line == Line::Clock && !now.wires.atn_low && drive.is_talking();
            let is_due = self.turned == Turned::Stays && drive.is_to_hold(now, line);
            any = any || owns || is_due;
        }
        any
    }

    /// Who pulls a line that nobody is known to pull: a drive that means to hold it, or that talks; else the host.
    pub fn unseen(&self, wires: Lines, line: Line) -> Who {
        for drive in &self.drives {
            let owns = line == Line::Clock && !wires.atn_low && drive.is_talking();
            if owns || holds(drive.own(), line) {
                return Who::Drive(drive.device());
            }
        }
        Who::Host
    }

    /// The next change of this moment, so far as one is foreseen.
    pub fn next(&mut self, hands: &Hands, now: Now) -> Option<Move> {
        for _ in 0..STAGES {
            let moved = match self.stage {
                Stage::Over => return None,
                Stage::Host(place) => {
                    self.stage = if place < 3 {
                        Stage::Host(place + 1)
                    } else {
                        Stage::Clock(0)
                    };
                    self.host(hands, now, place)
                }
                Stage::Clock(place) => self.react(hands, now, place),
                Stage::Data(place) => {
                    self.stage = Stage::Clock(place.saturating_add(1));
                    self.drive(hands, now, place, Line::Data)
                }
            };
            if moved.is_some() {
                return moved;
            }
        }
        None
    }

    /// The reaction of a drive, by its place, and what it does with CLOCK.
    fn react(&mut self, hands: &Hands, now: Now, place: usize) -> Option<Move> {
        let Some(drive) = self.drives.get_mut(place) else {
            self.stage = Stage::Over;
            return None;
        };
        if !drive.react(now) {
            self.stage = Stage::Clock(place.saturating_add(1));
            return None;
        }
        self.stage = Stage::Data(place);
        self.drive(hands, now, place, Line::Clock)
    }

    /// What a drive does with a line, if the wires can show it: a pull of a line that is free on the wire isn't there, nor
    /// a release of one that nobody else pulls and that is pulled there.
    fn drive(&self, hands: &Hands, now: Now, place: usize, line: Line) -> Option<Move> {
        let drive = self.drives.get(place)?;
        let (device, held) = (drive.device(), hands.held(place));
        let (is, was) = (holds(drive.own(), line), holds(held, line));
        let is_low = low(now.wires, line);
        let can_be = if is {
            is_low
        } else {
            !is_low || hands.is_shared(device, line)
        };
        if is == was || !can_be {
            return None;
        }
        Some(Move {
            who: Who::Drive(device),
            line,
            way: if is { Way::Pull } else { Way::Free },
        })
    }
}
