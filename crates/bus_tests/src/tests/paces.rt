//! The bounds that go by the drives' pace, each at its least moment and 1 before it.

use crate::tests::bounds::Bound;
use crate::tests::decided::names;
use crate::tests::plays::*;
use crate::tests::reading::{add, after};
use crate::tests::verdicts::{breaks, keeps};
use Line::*;
use Pace::*;
use Way::*;
use cbm_iec::*;
use std::alloc::Global;
use std::process::Abort;

// The change of the host that comes after a wait, and from when that is counted: ATN's release, or the first accept.
#[derive(Clone, Copy, PartialEq, Eq, Drop)]
enum Waits {
    // ATN's pull after its release, with nobody or a listener.
    PullAfterNobody,
    PullAfterListener,
    // CLOCK's release after ATN's, with a talker.
    Turn,
    // ATN's release after a byte, and its pull after a byte to listeners.
    Release,
    PullAfterByte,
}

// The change, the drives' reactions and paces from device 8 on, the bytes in attention, the least reaction of those that
// hear the last byte, and the least wait.
type Row = (Waits, &'static [(u8, Pace)], &'static [u8], u64, u64);

const ROWS: [Row; 24] = [
    (Waits::PullAfterNobody, &[(20, Profile)], &[0x3f], 20, 100),
    (Waits::PullAfterNobody, &[(20, Kernal)], &[0x3f], 20, 61),
    (
        Waits::PullAfterNobody,
        &[(60, Kernal), (1, Kernal)],
        &[0x3f],
        1,
        61,
    ),
    (
        Waits::PullAfterNobody,
        &[(20, Kernal), (30, Profile)],
        &[0x3f],
        20,
        100,
    ),
    (Waits::PullAfterListener, &[(20, Profile)], &[0x28], 20, 100),
    (Waits::PullAfterListener, &[(20, Kernal)], &[0x28], 20, 61),
    (
        Waits::PullAfterListener,
        &[(1, Kernal), (60, Kernal)],
        &[0x28],
        1,
        61,
    ),
    (
        Waits::PullAfterListener,
        &[(1, Profile), (60, Kernal)],
        &[0x28],
        1,
        100,
    ),
    (Waits::Turn, &[(20, Profile)], &[0x48], 20, 20),
    (Waits::Turn, &[(20, Kernal)], &[0x48], 20, 15),
    (Waits::Turn, &[(60, Kernal), (1, Profile)], &[0x48], 1, 15),
    (Waits::Turn, &[(1, Profile), (60, Kernal)], &[0x48], 1, 20),
    (Waits::Release, &[(20, Profile)], &[0x3f], 20, 20),
    (Waits::Release, &[(20, Kernal)], &[0x3f], 20, 20),
    (
        Waits::Release,
        &[(20, Profile), (30, Profile)],
        &[0x3f],
        20,
        60,
    ),
    (
        Waits::Release,
        &[(20, Kernal), (30, Profile)],
        &[0x3f],
        20,
        60,
    ),
    (
        Waits::Release,
        &[(20, Kernal), (30, Kernal)],
        &[0x3f],
        20,
        20,
    ),
    (
        Waits::Release,
        &[(40, Kernal), (10, Kernal)],
        &[0x3f],
        10,
        31,
    ),
    (
        Waits::Release,
        &[(1, Kernal), (20, Kernal), (60, Kernal)],
        &[0x3f],
        1,
        60,
    ),
    (Waits::PullAfterByte, &[(20, Kernal)], &[0x28], 20, 20),
    (
        Waits::PullAfterByte,
        &[(10, Profile), (40, Profile)],
        &[0x28, 0x29],
        10,
        60,
    ),
    (
        Waits::PullAfterByte,
        &[(10, Kernal), (40, Kernal)],
        &[0x28, 0x29],
        10,
        31,
    ),
    (
        Waits::PullAfterByte,
        &[(10, Kernal), (60, Kernal)],
        &[0x28],
        10,
        20,
    ),
    (
        Waits::PullAfterByte,
        &[(10, Kernal), (60, Profile)],
        &[0x28],
        10,
        60,
    ),
];

// ATN's pull, with CLOCK's where that is free.
fn pull(rt: &impl Abort, changes: &mut Vec<Change>, moment: u64, clock: bool) {
    add(rt, changes, at(moment, Atn, Pull));
    if clock {
        add(rt, changes, at(moment, Clock, Pull));
    }
}

// An attention of these bytes from rest; the last pull of CLOCK.
fn attend(rt: &impl Abort, changes: &mut Vec<Change>, bytes: &[u8]) -> u64 {
    pull(rt, changes, 0, true);
    let mut ready = 100;
    for byte in bytes {
        send(rt, changes, *byte, ready, after(ready, 80));
        ready = after(ready, 600);
    }
    ready.wrapping_sub(200)
}

// The host of a row, with that wait; when its last change comes.
fn host(rt: &impl Abort, changes: &mut Vec<Change>, row: &Row, wait: u64) -> u64 {
    let (waits, _, bytes, fastest, _) = *row;
    let end = attend(rt, changes, bytes);
    let release = match waits {
        Waits::Release => after(after(end, fastest), wait),
        _ => after(end, 120),
    };
    if waits == Waits::Turn {
        add(rt, changes, at(release, Data, Pull));
    }
    add(rt, changes, at(release, Atn, Free));
    let last = after(release, wait);
    match waits {
        Waits::Release => {
            add(rt, changes, at(release, Clock, Free));
            return release;
        }
        Waits::Turn => add(rt, changes, at(last, Clock, Free)),
        Waits::PullAfterListener => pull(rt, changes, last, false),
        Waits::PullAfterNobody => {
            add(rt, changes, at(release, Clock, Free));
            pull(rt, changes, last, true)
        }
        Waits::PullAfterByte => {
            send(rt, changes, 0x41, after(release, 100), after(release, 180));
            let last = after(release, after(500, after(fastest, wait)));
            pull(rt, changes, last, false);
            return last;
        }
    }
    last
}

fn bound(waits: Waits) -> Bound {
    match waits {
        Waits::Turn => Bound::Turn,
        Waits::Release => Bound::Release,
        _ => Bound::Attention,
    }
}

fn parties(rt: &impl Abort, alloc: Global, row: &Row) -> Vec<Party> {
    let mut parties = Vec::new(alloc);
    let mut device = 8;
    for (reaction, pace) in row.1 {
        let pace = *pace;
        let party = one(device, *reaction);
        add(rt, &mut parties, Party { pace, ..party });
        device = if device < 11 { device + 1 } else { 11 };
    }
    parties
}

// The host of a row with that wait keeps the timing, or breaks the bound by 1.
fn try_row(rt: &impl Abort, alloc: Global, row: &Row, number: u64, wait: u64) {
    let mut changes = Vec::new(alloc);
    let end = after(host(rt, &mut changes, row, wait), 300);
    let mut bus = Bus::new(rt, alloc, &parties(rt, alloc, row));
    bus.play(rt, &changes, end);
    if wait == row.4 {
        return keeps(rt, alloc, &bus, end, "a bound by the pace, row", number);
    }
    breaks(rt, alloc, &bus, end, "a bound by the pace, row", number);
    names(rt, alloc, &bus, end, bound(row.0), number)
}

#[test]
fn waits_by_the_pace(rt: HostRuntime) {
    let mut number = 0;
    for row in &ROWS {
        try_row(&rt, rt.alloc(), row, number, row.4);
        try_row(&rt, rt.alloc(), row, number, row.4.wrapping_sub(1));
        number = after(number, 1);
    }
}
