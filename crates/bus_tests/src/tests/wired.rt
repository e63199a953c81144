//! A trace of the wires alone, and the events that they are told as.

use crate::tests::plays::with_change;
use crate::tests::reading::add;
use bus_wires::Wires;
use cbm_iec::*;
use std::alloc::Global;
use std::process::Abort;

const FREE: Lines = Lines {
    atn_low: false,
    clock_low: false,
    data_low: false,
};

/// What each party holds: the host, and the drives by their numbers.
#[derive(Drop)]
struct Hands {
    host: Lines,
    drives: Vec<(u8, Lines)>,
}

impl Hands {
    fn new(rt: &impl Abort, alloc: Global, parties: &[Party]) -> Hands {
        let mut drives = Vec::new(alloc);
        for party in parties {
            add(rt, &mut drives, (party.device, FREE));
        }
        Hands { host: FREE, drives }
    }

    fn change(&mut self, event: Event) {
        match event.who {
            Who::Host => self.host = with_change(self.host, event.change),
            Who::Drive(device) => {
                for (other, held) in &mut self.drives {
                    if *other == device {
                        *held = with_change(*held, event.change);
                    }
                }
            }
        }
    }

    fn wires(&self) -> Lines {
        let mut wires = self.host;
        for (_, held) in &self.drives {
            wires.clock_low = wires.clock_low || held.clock_low;
            wires.data_low = wires.data_low || held.data_low;
        }
        wires
    }
}

fn way(is_low: bool) -> Way {
    if is_low { Way::Pull } else { Way::Free }
}

/// The changes from some wires to others at one moment, in the order of ATN, CLOCK and DATA, or backwards.
fn turn(
    rt: &impl Abort,
    changes: &mut Vec<Change>,
    moment: u64,
    was: Lines,
    is: Lines,
    backwards: bool,
) {
    let atn = (Line::Atn, was.atn_low, is.atn_low);
    let clock = (Line::Clock, was.clock_low, is.clock_low);
    let data = (Line::Data, was.data_low, is.data_low);
    let order = if backwards {
        [data, clock, atn]
    } else {
        [atn, clock, data]
    };
    for (line, was_low, is_low) in order {
        if was_low != is_low {
            let way = way(is_low);
            add(rt, changes, Change { moment, line, way });
        }
    }
}

/// What a trace leaves on the wires: the changes from moment to moment.
pub fn wires_of(
    rt: &impl Abort,
    alloc: Global,
    parties: &[Party],
    trace: &[Event],
    backwards: bool,
) -> Vec<Change> {
    let mut held = Hands::new(rt, alloc, parties);
    let mut changes = Vec::new(alloc);
    let (mut shown, mut moment) = (FREE, 0);
    for event in trace {
        if event.change.moment != moment {
            turn(rt, &mut changes, moment, shown, held.wires(), backwards);
            shown = held.wires();
            moment = event.change.moment;
        }
        held.change(*event);
    }
    turn(rt, &mut changes, moment, shown, held.wires(), backwards);
    changes
}

/// The events that are known.
fn take(rt: &impl Abort, wires: &mut Wires, events: &mut Vec<Event>) {
    for _ in 0..1_000 {
        let Some(event) = wires.next() else {
            return;
        };
        add(rt, events, event);
    }
    assert!(rt; false, "the events of a moment come to an end");
}

/// The events that the wires of a trace are told as, up to an end.
pub fn told_by_wires(
    rt: &impl Abort,
    alloc: Global,
    parties: &[Party],
    trace: &[Event],
    end: u64,
) -> Vec<Event> {
    let mut wires = Wires::new(parties).expect(rt, "a bus");
    let mut events = Vec::new(alloc);
    for change in wires_of(rt, alloc, parties, trace, end % 2 == 1) {
        assert!(rt; wires.read(change).is_ok());
        take(rt, &mut wires, &mut events);
    }
    wires.finish(end);
    take(rt, &mut wires, &mut events);
    events
}
