//! The worked sessions: what a drive does on the wires, moment by moment.

use crate::tests::judge::Judge;
use crate::tests::plays::*;
use crate::tests::reading::{add, after};
use crate::tests::verdicts::{breaks, keeps};
use Line::*;
use Way::*;
use cbm_iec::*;
use std::alloc::Global;
use std::process::Abort;

// The reader says whether the host keeps the timing; where it does, the trace begins a session with the acts that the
// drives were told.
fn judged(rt: &impl Abort, alloc: Global, bus: &Bus, end: u64, row: &str, kept: bool) {
    if kept {
        keeps(rt, alloc, bus, end, row, 0)
    } else {
        breaks(rt, alloc, bus, end, row, 0)
    }
}

// The bus after a host's changes, up to an end.
fn played(rt: &impl Abort, alloc: Global, parties: &[Party], changes: &[Change], end: u64) -> Bus {
    let mut bus = Bus::new(rt, alloc, parties);
    bus.play(rt, changes, end);
    bus
}

// The device, the byte of an attention, by how much its start is late, and what the drive makes of it.
const LISTENS: [(&str, u8, u8, u64, &[WantedEvent]); 5] = [
    (
        "its own device",
        8,
        0x28,
        0,
        &[
            (20, 8, Data, Pull),
            (1020, 8, Data, Free),
            (1380, 8, Data, Pull),
        ],
    ),
    (
        "another device",
        8,
        0x29,
        0,
        &[
            (20, 8, Data, Pull),
            (1020, 8, Data, Free),
            (1380, 8, Data, Pull),
            (1420, 8, Data, Free),
        ],
    ),
    (
        "device 9 and LISTEN 8",
        9,
        0x28,
        0,
        &[
            (20, 9, Data, Pull),
            (1020, 9, Data, Free),
            (1380, 9, Data, Pull),
            (1420, 9, Data, Free),
        ],
    ),
    (
        "a start at T + 200",
        8,
        0x28,
        180,
        &[
            (20, 8, Data, Pull),
            (1020, 8, Data, Free),
            (1560, 8, Data, Pull),
        ],
    ),
    (
        "a start at T + 220",
        8,
        0x28,
        200,
        &[
            (20, 8, Data, Pull),
            (1020, 8, Data, Free),
            (1580, 8, Data, Pull),
        ],
    ),
];

fn listened(rt: &impl Abort, alloc: Global, device: u8, byte: u8, shift: u64, end: u64) -> Bus {
    let changes = listen(rt, alloc, byte, shift, 1400);
    played(rt, alloc, &[one(device, 20)], &changes, end)
}

#[test]
fn hears_listen(rt: HostRuntime) {
    for (row, device, byte, shift, wanted) in LISTENS {
        let end = after(1500, shift);
        let bus = listened(&rt, rt.alloc(), device, byte, shift, end);
        assert!(rt; bus.makes(0, u64::MAX, wanted), "{row}");
        judged(&rt, rt.alloc(), &bus, end, row, shift == 0);
    }
}

fn pulled(rt: &impl Abort, alloc: Global, joined: bool) -> Vec<Change> {
    let mut changes = Vec::new(alloc);
    add(rt, &mut changes, at(0, Atn, Pull));
    if joined {
        add(rt, &mut changes, at(0, Clock, Pull));
    }
    changes
}

fn tied(rt: &impl Abort, alloc: Global, first: u8, second: u8, joined: bool) -> Bus {
    let changes = pulled(rt, alloc, joined);
    played(rt, alloc, &[one(first, 20), one(second, 20)], &changes, 30)
}

// Two drives with one reaction pull DATA at one moment, in the order of ties. A host that doesn't pull CLOCK with ATN
// breaks the timing.
#[test]
fn keeps_the_order_of_ties(rt: HostRuntime) {
    for (first, second) in [(9, 8), (8, 9)] {
        let wanted = [(20, first, Data, Pull), (20, second, Data, Pull)];
        for joined in [false, true] {
            let bus = tied(&rt, rt.alloc(), first, second, joined);
            assert!(rt; bus.makes(0, u64::MAX, &wanted));
            judged(&rt, rt.alloc(), &bus, 30, "ties", joined);
        }
    }
}

// Whether the trace begins a session, the host keeps the timing, and the drive is late.
fn judge_pull(rt: &impl Abort, alloc: Global, joined: bool) -> [bool; 3] {
    let mut trace = Vec::new(alloc);
    add(rt, &mut trace, shown(Who::Host, 0, Atn, Pull));
    if joined {
        add(rt, &mut trace, shown(Who::Host, 0, Clock, Pull));
    }
    add(rt, &mut trace, shown(Who::Drive(8), 20, Data, Pull));
    let judge = Judge::of(rt, alloc, &[one(8, 20)], &trace, 30);
    [judge.begins(), judge.keeps, judge.late]
}

// ATN's pull comes with CLOCK's: where the host leaves that out, the drive's answer to ATN begins no session.
#[test]
fn misses_a_change_of_the_host(rt: HostRuntime) {
    for joined in [false, true] {
        assert!(rt; judge_pull(&rt, rt.alloc(), joined) == [joined, joined, false]);
    }
}

// By how much a start is late, and what the drives make of it up to a moment.
const RELEASES: [(u64, u64, &[WantedEvent]); 2] = [
    (
        0,
        1100,
        &[
            (1, 8, Data, Pull),
            (60, 9, Data, Pull),
            (1001, 8, Data, Free),
        ],
    ),
    (
        40,
        2000,
        &[
            (1, 8, Data, Pull),
            (60, 9, Data, Pull),
            (1001, 8, Data, Free),
            (1060, 9, Data, Free),
            (1401, 8, Data, Pull),
            (1460, 9, Data, Pull),
            (1540, 9, Data, Free),
        ],
    ),
];

fn released(rt: &impl Abort, alloc: Global, shift: u64, end: u64) -> Bus {
    let changes = listen(rt, alloc, 0x28, shift, 1440);
    played(rt, alloc, &[one(8, 1), one(9, 60)], &changes, end)
}

// Reactions 1 and 60: the start at 1040 comes before the slow drive's release, which it cancels; 40 later it doesn't.
#[test]
fn cancels_a_release(rt: HostRuntime) {
    for (shift, until, wanted) in RELEASES {
        let end = after(1600, shift);
        let bus = released(&rt, rt.alloc(), shift, end);
        assert!(rt; bus.makes(0, until, wanted));
        judged(&rt, rt.alloc(), &bus, end, "two reactions", shift == 40);
    }
}

// An attention of these bytes for drives of reactions up to 60, from a pull at that moment; the last accept is 60
// after what it answers at the latest.
fn attend(rt: &impl Abort, changes: &mut Vec<Change>, moment: u64, bytes: &[u8]) -> u64 {
    add(rt, changes, at(moment, Atn, Pull));
    add(rt, changes, at(moment, Clock, Pull));
    let mut last = moment;
    let mut ready = after(moment, 100);
    for byte in bytes {
        send(rt, changes, *byte, ready, after(ready, 80));
        last = after(ready, 400);
        ready = after(ready, 600);
    }
    last
}

// LISTEN to both drives up to 1700: ATN is free at 1820, CLOCK at 1920, so that DATA is free on the wire at T = 1980.
fn listen_both(rt: &impl Abort, alloc: Global) -> Vec<Change> {
    let mut changes = Vec::new(alloc);
    let last = attend(rt, &mut changes, 0, &[0x28, 0x29, 0x60]);
    assert!(rt; last == 1700);
    add(rt, &mut changes, at(1820, Atn, Free));
    add(rt, &mut changes, at(1920, Clock, Free));
    changes
}

const PULSES: [WantedEvent; 6] = [
    (1921, 8, Data, Free),
    (1980, 9, Data, Free),
    (2181, 8, Data, Pull),
    (2240, 9, Data, Pull),
    (2241, 8, Data, Free),
    (2300, 9, Data, Free),
];

fn pulsed(rt: &impl Abort, alloc: Global) -> Bus {
    let changes = listen_both(rt, alloc);
    played(rt, alloc, &[one(8, 1), one(9, 60)], &changes, 2380)
}

// Two listeners with reactions 1 and 60: their pulses are one pulse on the wire, from T + 201 to T + 320.
#[test]
fn joins_the_pulses(rt: HostRuntime) {
    let bus = pulsed(&rt, rt.alloc());
    assert!(rt; bus.makes(1820, u64::MAX, &PULSES));
    judged(&rt, rt.alloc(), &bus, 2380, "pulses", true);
}

// The host frees CLOCK for the turnaround 80 after the last accept's moment of an attention with TALK 8; where the
// talker frees CLOCK then.
fn talk(rt: &impl Abort, changes: &mut Vec<Change>, moment: u64) -> u64 {
    let last = attend(rt, changes, moment, &[0x48, 0x6f]);
    add(rt, changes, at(after(last, 120), Data, Pull));
    add(rt, changes, at(after(last, 120), Atn, Free));
    add(rt, changes, at(after(last, 140), Clock, Free));
    after(last, 140)
}

// The host takes the first byte; when it frees CLOCK is answered.
fn take_byte(rt: &impl Abort, changes: &mut Vec<Change>) -> u64 {
    let clock = talk(rt, changes, 0);
    add(rt, changes, at(after(clock, 120), Data, Free));
    clock
}

// What a drive does from that moment on.
fn byte_from(rt: &impl Abort, alloc: Global, clock: u64) -> Vec<WantedEvent> {
    let mut wanted = Vec::new(alloc);
    add(rt, &mut wanted, (after(clock, 20), 8, Clock, Pull));
    add(rt, &mut wanted, (after(clock, 20), 8, Data, Free));
    add(rt, &mut wanted, (after(clock, 100), 8, Clock, Free));
    for k in 0..17u64 {
        let moment = after(clock, 140 + 60 * k);
        let way = if k % 2 == 0 { Pull } else { Free };
        add(rt, &mut wanted, (moment, 8, Clock, way));
        match k {
            6 | 12 => add(rt, &mut wanted, (moment, 8, Data, Pull)),
            8 | 16 => add(rt, &mut wanted, (moment, 8, Data, Free)),
            _ => {}
        }
    }
    wanted
}

fn try_byte(rt: &impl Abort, alloc: Global, changes: &[Change], clock: u64) {
    let end = after(clock, 1200);
    let bus = played(rt, alloc, &[one(8, 20)], changes, end);
    let wanted = byte_from(rt, alloc, clock);
    assert!(rt; bus.makes(after(clock, 1), u64::MAX, &wanted));
    judged(rt, alloc, &bus, end, "a byte", true);
}

// The talker says the first byte of the status, which is $37: each change at its moment after the host's release of
// CLOCK.
#[test]
fn talks_a_byte(rt: HostRuntime) {
    let mut changes = Vec::new(rt.alloc());
    let clock = take_byte(&rt, &mut changes);
    try_byte(&rt, rt.alloc(), &changes, clock);
}

// The host takes the status of 27 bytes, offered first at that moment; before the last byte it waits for EOI. Answers
// the moment 100 after the last accept.
fn take_status(rt: &impl Abort, changes: &mut Vec<Change>, first: u64) -> u64 {
    let mut offer = first;
    for k in 0..27 {
        add(rt, changes, at(after(offer, 20), Data, Free));
        let mut sending = after(offer, 40);
        if k == 26 {
            add(rt, changes, at(after(offer, 220), Data, Pull));
            add(rt, changes, at(after(offer, 280), Data, Free));
            sending = after(offer, 300);
        }
        add(rt, changes, at(after(sending, 980), Data, Pull));
        offer = after(sending, 1080);
    }
    offer
}

// Whether the drive said the status, EOI with its last byte.
fn is_status(heard: &[(u8, Act)]) -> bool {
    let (mut place, mut same) = (0usize, true);
    for (_, act) in heard {
        if let Act::Said(byte, last) = *act {
            same = STATUS.get(place) == Some(&byte) && last == (place == 26) && same;
            place = place.wrapping_add(1);
        }
    }
    same && place == 27
}

// A cut after four bits, and the whole status.
fn take_again(rt: &impl Abort, changes: &mut Vec<Change>) -> u64 {
    let clock = take_byte(rt, changes);
    let again = talk(rt, changes, after(clock, 590));
    take_status(rt, changes, after(again, 100))
}

fn try_status(rt: &impl Abort, alloc: Global, changes: &[Change], end: u64) {
    let bus = played(rt, alloc, &[one(8, 20)], changes, end);
    assert!(rt; is_status(&bus.heard));
    assert!(rt; bus.next_due().is_none(), "nothing is due");
    judged(rt, alloc, &bus, end, "a status", true);
}

// ATN is pulled after four bits of the first byte; the next TALK says all 27 bytes from the first, EOI with the last.
#[test]
fn says_again_what_was_cut(rt: HostRuntime) {
    let mut changes = Vec::new(rt.alloc());
    let offer = take_again(&rt, &mut changes);
    try_status(&rt, rt.alloc(), &changes, after(offer, 1000));
}

// The events but one, which is left out or comes 1 later or earlier.
fn with_one(
    rt: &impl Abort,
    alloc: Global,
    events: &[Event],
    place: usize,
    shift: u64,
) -> Vec<Event> {
    let mut other = Vec::new(alloc);
    for (at, event) in events.iter().enumerate() {
        if at != place {
            add(rt, &mut other, *event);
        } else if shift < 3 {
            let moment = event.change.moment.wrapping_add(shift).wrapping_sub(1);
            add(
                rt,
                &mut other,
                Event {
                    who: event.who,
                    change: Change {
                        moment,
                        ..event.change
                    },
                },
            );
        }
    }
    other
}

// Whether the drive is late, the host keeps the timing, and a session is begun, with the change at a place moved by
// `shift - 1`, or left out for 3.
fn judge_moved(
    rt: &impl Abort,
    alloc: Global,
    events: &[Event],
    place: usize,
    shift: u64,
) -> (bool, bool, bool) {
    let trace = with_one(rt, alloc, events, place, shift);
    let judge = Judge::of(rt, alloc, &[one(8, 20)], &trace, 1500);
    (judge.late, judge.keeps, judge.begins())
}

// Late, or no session's where it comes too soon.
fn is_moved(rt: &impl Abort, alloc: Global, events: &[Event], place: usize) -> bool {
    let (is_late, keeps, begins) = judge_moved(rt, alloc, events, place, 0);
    let is_early = !is_late && keeps && !begins;
    let (is_late, keeps, _) = judge_moved(rt, alloc, events, place, 2);
    let is_after = is_late && keeps;
    let (is_late, keeps, _) = judge_moved(rt, alloc, events, place, 3);
    is_early && is_after && is_late && keeps
}

// How many changes of the drive are moved so.
fn moved(rt: &impl Abort, alloc: Global, events: &[Event]) -> u64 {
    let mut tried = 0;
    for (place, event) in events.iter().enumerate() {
        if event.who != Who::Host {
            tried = after(tried, 1);
            assert!(rt; is_moved(rt, alloc, events, place), "change {place}");
        }
    }
    tried
}

// A drive's change that is left out or comes 1 later makes the trace late; 1 earlier it is no session's. The host is
// never to blame.
#[test]
fn tells_a_late_drive(rt: HostRuntime) {
    let bus = listened(&rt, rt.alloc(), 8, 0x29, 0, 1500);
    assert!(rt;
        moved(&rt, rt.alloc(), &bus.events) == 4,
        "the changes of the drive"
    );
}
