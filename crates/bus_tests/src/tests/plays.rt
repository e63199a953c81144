//! One to four drives and a host, played plainly: each event is told to every other party before the next.

use crate::tests::judge::Judge;
use crate::tests::reading::{add, after};
use Line::*;
use Way::*;
use cbm_iec::*;
use std::alloc::Global;
use std::process::Abort;

// The first status after switching on, as the talker says it.
pub const STATUS: &[u8; 27] = b"73,CBM DOS V2.6 1541,00,00\r";

/// A change of a drive: the moment, its device, the line, and what is done with it.
pub type WantedEvent = (u64, u8, Line, Way);

// One to four drives and a host; every drive says the status from the first byte that was not taken.
#[derive(Drop)]
pub struct Bus {
    pub ports: Vec<Port>,
    pub host: Lines,
    pub said: usize,
    pub short: bool,
    pub mute: bool,
    pub heard: Vec<(u8, Act)>,
    pub events: Vec<Event>,
}

pub fn is_low(way: Way) -> bool {
    match way {
        Pull => true,
        Free => false,
    }
}

pub fn with_change(lines: Lines, change: Change) -> Lines {
    let low = is_low(change.way);
    match change.line {
        Atn => Lines {
            atn_low: low,
            ..lines
        },
        Clock => Lines {
            clock_low: low,
            ..lines
        },
        Data => Lines {
            data_low: low,
            ..lines
        },
    }
}

impl Bus {
    pub fn new(rt: &impl Abort, alloc: Global, parties: &[Party]) -> Bus {
        let mut ports = Vec::new(alloc);
        for party in parties {
            add(rt, &mut ports, Port::new(*party));
        }
        Bus {
            ports,
            host: Lines {
                atn_low: false,
                clock_low: false,
                data_low: false,
            },
            said: 0,
            short: false,
            mute: false,
            heard: Vec::new(alloc),
            events: Vec::new(alloc),
        }
    }

    // What all parties but that drive hold.
    fn others(&self, device: u8) -> Lines {
        let mut lines = self.host;
        for port in &self.ports {
            if port.party.device != device {
                lines.clock_low = lines.clock_low || port.own.clock_low;
                lines.data_low = lines.data_low || port.own.data_low;
            }
        }
        lines
    }

    // The byte to say, and whether it is the last: of the whole status, or of three bytes at a time.
    fn peek(&self) -> Option<(u8, bool)> {
        if self.mute {
            return None;
        }
        match STATUS.get(self.said) {
            Some(byte) => Some((
                *byte,
                if self.short {
                    self.said % 3 == 2
                } else {
                    self.said == 26
                },
            )),
            None => None,
        }
    }

    fn count(&mut self, rt: &impl Abort, device: u8, act: Option<Act>) {
        if let Some(act) = act {
            if let Act::Said(_, _) = act {
                self.said = if self.said < 26 || !self.short && self.said < 100 {
                    self.said + 1
                } else {
                    0
                }
            }
            add(rt, &mut self.heard, (device, act));
        }
    }

    // Each drive is told what the others hold.
    fn tell(&mut self, rt: &impl Abort, moment: u64) {
        assert!(rt; moment < 1 << 60);
        for place in 0..self.ports.len() {
            assert!(rt; place < self.ports.len());
            let mut port = self.ports[place];
            let others = self.others(port.party.device);
            if others != port.others {
                let act = port.line(moment, others);
                self.ports[place] = port;
                self.count(rt, port.party.device, act);
            }
        }
    }

    // The reactions that are due at this moment, in the order of the drives.
    fn react(&mut self, rt: &impl Abort, moment: u64) {
        assert!(rt; moment < 1 << 60);
        for place in 0..self.ports.len() {
            assert!(rt; place < self.ports.len());
            let mut port = self.ports[place];
            if port.next_due() == Some(moment) {
                assert!(rt; port.party.device < 31);
                let reaction = port.due(moment, self.peek());
                self.ports[place] = port;
                self.count(rt, port.party.device, reaction.act);
                for change in &reaction.changes {
                    add(
                        rt,
                        &mut self.events,
                        Event {
                            who: Who::Drive(port.party.device),
                            change: *change,
                        },
                    );
                }
                self.tell(rt, moment);
            }
        }
    }

    pub fn next_due(&self) -> Option<u64> {
        let mut first = None;
        for port in &self.ports {
            if let Some(at) = port.next_due() {
                first = match first {
                    Some(other) if other <= at => Some(other),
                    _ => Some(at),
                }
            }
        }
        first
    }

    // All reactions before the limit.
    fn settle(&mut self, rt: &impl Abort, limit: u64) {
        for _ in 0..100_000 {
            match self.next_due() {
                Some(at) if at < limit => self.react(rt, at),
                _ => return (),
            }
        }
        assert!(rt; false, "the reactions come to an end");
    }

    pub fn play(&mut self, rt: &impl Abort, changes: &[Change], end: u64) {
        assert!(rt; end < 1 << 60);
        for change in changes {
            self.settle(rt, change.moment);
            add(
                rt,
                &mut self.events,
                Event {
                    who: Who::Host,
                    change: *change,
                },
            );
            self.host = with_change(self.host, *change);
            self.tell(rt, change.moment);
        }
        self.settle(rt, end + 1)
    }

    pub fn parties(&self, rt: &impl Abort, alloc: Global) -> Vec<Party> {
        let mut parties = Vec::new(alloc);
        for port in &self.ports {
            add(rt, &mut parties, port.party);
        }
        parties
    }

    // What the plain reader says of the trace up to an end.
    pub fn judge(&self, rt: &impl Abort, alloc: Global, end: u64) -> Judge {
        let parties = self.parties(rt, alloc);
        Judge::of(rt, alloc, &parties, &self.events, end)
    }

    // Whether the drives' changes from a moment on and before another are these.
    pub fn makes(&self, from: u64, until: u64, wanted: &[WantedEvent]) -> bool {
        let (mut place, mut same) = (0usize, true);
        for event in &self.events {
            let change = event.change;
            if let Who::Drive(device) = event.who
                && change.moment >= from
                && change.moment < until
            {
                let row = (change.moment, device, change.line, change.way);
                same = wanted.get(place) == Some(&row) && same;
                place = place.wrapping_add(1);
            }
        }
        same && place == wanted.len()
    }
}

// A change of the host.
pub fn at(moment: u64, line: Line, way: Way) -> Change {
    Change { moment, line, way }
}

// An event of the wires.
pub fn shown(who: Who, moment: u64, line: Line, way: Way) -> Event {
    Event {
        who,
        change: at(moment, line, way),
    }
}

// A frame of the host whose bits take 40 each; DATA is set with CLOCK's pull. The last pull is 320 after the start.
pub fn send(rt: &impl Abort, changes: &mut Vec<Change>, byte: u8, ready: u64, start: u64) {
    add(rt, changes, at(ready, Clock, Free));
    add(rt, changes, at(start, Clock, Pull));
    let mut left = byte;
    let mut data_low = false;
    let mut moment = start;
    for _ in 0..8 {
        let low = left % 2 == 0;
        if low != data_low {
            add(rt, changes, at(moment, Data, if low { Pull } else { Free }));
        }
        data_low = low;
        left = left / 2;
        add(rt, changes, at(after(moment, 20), Clock, Free));
        moment = after(moment, 40);
        add(rt, changes, at(moment, Clock, Pull));
    }
    if data_low {
        add(rt, changes, at(moment, Data, Free));
    }
}

// LISTEN to a device: the attention byte at 1000, its start at 1040 and all from there on shifted, ATN free at a moment.
pub fn listen(rt: &impl Abort, alloc: Global, byte: u8, shift: u64, free: u64) -> Vec<Change> {
    let mut changes = Vec::new(alloc);
    add(rt, &mut changes, at(0, Atn, Pull));
    add(rt, &mut changes, at(0, Clock, Pull));
    send(rt, &mut changes, byte, 1000, after(1040, shift));
    add(rt, &mut changes, at(after(free, shift), Atn, Free));
    changes
}

pub fn one(device: u8, reaction: u8) -> Party {
    Party {
        device,
        reaction,
        pace: Pace::Profile,
    }
}
