//! Two drives on one cable, moment by moment.

use crate::drives::Parrot;
use crate::host::Host;
use arrayvec::ArrayVec;
use cbm_drive::{Bus, Drive, PlayFault};
use cbm_iec::Line::*;
use cbm_iec::Way::*;
use cbm_iec::{Change, Event, Line, Pace, Party, Way, Who};
use std::alloc::Global;
use std::process::Abort;

fn drive(rt: &impl Abort, device: u8, reaction: u8) -> Drive<Parrot> {
    assert!(rt; device < 31 && reaction > 0);
    let acts = ArrayVec::new();
    Drive::new(
        Parrot { acts },
        Party {
            device,
            reaction,
            pace: Pace::Profile,
        },
    )
}

// Two drives by their devices and reactions.
fn pair(rt: &impl Abort, first: (u8, u8), second: (u8, u8)) -> Bus<Parrot, 2> {
    Bus::new([drive(rt, first.0, first.1), drive(rt, second.0, second.1)])
}

// What happens on the bus, up to an end.
fn played(
    rt: &impl Abort,
    alloc: Global,
    mut bus: Bus<Parrot, 2>,
    changes: &[Change],
    end: u64,
) -> Vec<Event> {
    assert!(rt; end < 10_000);
    let mut events = Vec::new(alloc);
    let is_played = bus.play(changes, end, &mut events).is_ok();
    assert!(rt; is_played, "the changes are in order");
    events
}

/// A change of a drive: its device, the moment, the line, and what is done with it.
type Row = (u8, u64, Line, Way);

// The changes of the drives alone.
fn of_drives(rt: &impl Abort, alloc: Global, events: &[Event]) -> Vec<Row> {
    let mut made = Vec::new(alloc);
    for event in events {
        if let Who::Drive(device) = event.who {
            let row = (
                device,
                event.change.moment,
                event.change.line,
                event.change.way,
            );
            made.push(row).ok().expect(rt, "memory");
        }
    }
    made
}

// What the drives make of a host, up to an end.
fn made(rt: &impl Abort, alloc: Global, bus: Bus<Parrot, 2>, host: &Host, end: u64) -> Vec<Row> {
    let events = played(rt, alloc, bus, host.changes(rt), end);
    of_drives(rt, alloc, events.as_slice())
}

fn pull(alloc: Global) -> Host {
    let mut host = Host::new(alloc);
    host.after(0, Atn, Pull);
    host
}

const TIES: [(u8, u8, [Row; 2]); 2] = [
    (9, 8, [(9, 20, Data, Pull), (8, 20, Data, Pull)]),
    (8, 9, [(8, 20, Data, Pull), (9, 20, Data, Pull)]),
];

// Of two drives that answer at one moment the one that is listed first comes first.
#[test]
fn ties_go_by_the_list(rt: HostRuntime) {
    for (first, second, wanted) in TIES {
        let bus = pair(&rt, (first, 20), (second, 20));
        let made = made(&rt, rt.alloc(), bus, &pull(rt.alloc()), 30);
        assert!(rt; made.as_slice() == wanted.as_slice());
    }
}

// LISTEN 8 with all changes from the start of the byte on moved by a delay; ATN is free 80 after the last bit.
fn listened(rt: &impl Abort, alloc: Global, delay: u64) -> Vec<Row> {
    let mut host = Host::new(alloc);
    host.begin(0x28, delay);
    host.after(80, Atn, Free);
    made(rt, alloc, pair(rt, (8, 1), (9, 60)), &host, 1600)
}

const EARLY: [Row; 3] = [
    (8, 1, Data, Pull),
    (9, 60, Data, Pull),
    (8, 1001, Data, Free),
];

// The drive 9 keeps DATA.
fn is_early(made: &[Row]) -> bool {
    made.starts_with(EARLY.as_slice()) && !made.contains(&(9, 1060, Data, Free))
}

const LATE: [Row; 7] = [
    (8, 1, Data, Pull),
    (9, 60, Data, Pull),
    (8, 1001, Data, Free),
    (9, 1060, Data, Free),
    (8, 1401, Data, Pull),
    (9, 1460, Data, Pull),
    (9, 1540, Data, Free),
];

// A start before the slower drive has freed DATA cancels its release; 40 later it doesn't.
#[test]
fn an_early_start_cancels_a_release(rt: HostRuntime) {
    assert!(rt; is_early(listened(&rt, rt.alloc(), 0).as_slice()));
    assert!(rt; listened(&rt, rt.alloc(), 40).as_slice() == LATE.as_slice());
}

// LISTEN for both, a start at 1100 and one at 2100; ATN is free at 2520, and CLOCK at 3000.
fn listen_both(alloc: Global) -> Host {
    let mut host = Host::new(alloc);
    host.begin(0x28, 60);
    host.after(580, Clock, Free);
    host.after(100, Clock, Pull);
    host.bits(0x29);
    host.after(100, Atn, Free);
    host.after(480, Clock, Free);
    host
}

// From the moment 3060 on, at which DATA is free on the wire.
const PULSES: [Row; 6] = [
    (8, 3001, Data, Free),
    (9, 3060, Data, Free),
    (8, 3261, Data, Pull),
    (9, 3320, Data, Pull),
    (8, 3321, Data, Free),
    (9, 3380, Data, Free),
];

// Both listen, and the byte is the last one: the pulses of EOI count from the moment at which DATA is free on the wire.
#[test]
fn both_pulses_of_eoi_are_one(rt: HostRuntime) {
    let bus = pair(&rt, (8, 1), (9, 60));
    let made = made(&rt, rt.alloc(), bus, &listen_both(rt.alloc()), 3400);
    assert!(rt; made.as_slice().ends_with(PULSES.as_slice()));
}

/// A list whose second change goes back in time.
pub const BACK: [Change; 2] = [
    Change {
        moment: 5,
        line: Atn,
        way: Pull,
    },
    Change {
        moment: 4,
        line: Clock,
        way: Pull,
    },
];

const PAST: [Change; 1] = [Change {
    moment: 10,
    line: Atn,
    way: Pull,
}];

// Whether the fault is told, and nothing is played.
fn is_refused(
    mut bus: Bus<Parrot, 2>,
    alloc: Global,
    changes: &[Change],
    fault: PlayFault,
) -> bool {
    let mut events = Vec::new(alloc);
    let is_told = bus.play(changes, 9, &mut events) == Err(fault);
    is_told && events.as_slice().is_empty() && bus.next_due().is_none()
}

// Changes that go back in time or come after the end are told by their places, and nothing is played.
#[test]
fn changes_at_fault_are_not_played(rt: HostRuntime) {
    let alloc = rt.alloc();
    let bus = pair(&rt, (8, 20), (9, 20));
    assert!(rt; is_refused(bus, alloc, &BACK, PlayFault::Backwards(1)));
    let bus = pair(&rt, (8, 20), (9, 20));
    assert!(rt; is_refused(bus, alloc, &PAST, PlayFault::PastEnd(0)));
}

fn pulls(alloc: Global) -> Host {
    let mut host = Host::new(alloc);
    host.after(0, Atn, Pull);
    host.after(0, Clock, Pull);
    host.after(20, Data, Pull);
    host
}

const IN_ORDER: [(Who, u64, Line, Way); 5] = [
    (Who::Host, 0, Atn, Pull),
    (Who::Host, 0, Clock, Pull),
    (Who::Host, 20, Data, Pull),
    (Who::Drive(8), 20, Data, Pull),
    (Who::Drive(9), 30, Data, Pull),
];

fn are_in_order(events: &[Event]) -> bool {
    let mut same = events.len() == IN_ORDER.len();
    for (event, wanted) in events.iter().zip(IN_ORDER.as_slice()) {
        let row = (
            event.who,
            event.change.moment,
            event.change.line,
            event.change.way,
        );
        same = row == *wanted && same;
    }
    same
}

// The events of the host and of the drives stand in one list, the host's first where moments are the same.
#[test]
fn events_come_in_order(rt: HostRuntime) {
    let bus = pair(&rt, (8, 20), (9, 30));
    let host = pulls(rt.alloc());
    let events = played(&rt, rt.alloc(), bus, host.changes(&rt), 30);
    assert!(rt; are_in_order(events.as_slice()));
}
