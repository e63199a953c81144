// Events one by one, by a player, from a drive with a disk: the worked rows with their moments.

use crate::disks::{played, switched_on};
use crate::host::Host;
use crate::wires::{BOTH, is_said, take_both};
use cbm_d64::D64Disk;
use cbm_drive::Line::*;
use cbm_drive::Way::*;
use cbm_drive::{Bus, Change, Desk, Event, Line, Player, Way, Who};
use std::alloc::Global;
use std::process::Abort;

type Cable = Bus<Desk<D64Disk>, 1>;

fn next(player: &mut Player, bus: &mut Cable, upto: u64) -> Option<Event> {
    if upto < 1 << 58 {
        player.next(bus, upto)
    } else {
        None
    }
}

fn takes(player: &mut Player, change: Change) -> bool {
    let is_free = change.moment < 1 << 58 && !player.waits();
    is_free && player.offer(change).is_ok()
}

fn add(rt: &impl Abort, events: &mut Vec<Event>, event: Event) {
    events.push(event).ok().expect(rt, "memory");
}

// A change that waits is given, after what comes before it.
fn give(
    rt: &impl Abort,
    player: &mut Player,
    bus: &mut Cable,
    change: Change,
    events: &mut Vec<Event>,
) {
    assert!(rt; takes(player, change));
    for _ in 0..100 {
        if player.waits() {
            let event = next(player, bus, change.moment).expect(rt, "a change that waits is given");
            add(rt, events, event);
        }
    }
}

// All events up to an end, each as soon as it comes.
fn streamed(
    rt: &impl Abort,
    alloc: Global,
    bus: &mut Cable,
    changes: &[Change],
    end: u64,
) -> Vec<Event> {
    let mut player = Player::new();
    let mut events = Vec::new(alloc);
    for change in changes {
        give(rt, &mut player, bus, *change, &mut events);
    }
    for _ in 0..100 {
        if let Some(event) = next(&mut player, bus, end) {
            add(rt, &mut events, event);
        }
    }
    events
}

// Whether the drive's changes of a line from a moment on are these, each by how much later it is.
fn are_on_line(events: &[Event], from: u64, line: Line, wanted: &[(u64, Way)]) -> bool {
    let (mut place, mut same) = (0usize, true);
    for event in events {
        let change = event.change;
        if event.who != Who::Host && change.line == line && change.moment >= from {
            let row = (change.moment.wrapping_sub(from), change.way);
            same = wanted.get(place) == Some(&row) && same;
            place = place.wrapping_add(1);
        }
    }
    same && place == wanted.len()
}

const DATA: [(u64, Way); 5] = [
    (20, Free),
    (500, Pull),
    (620, Free),
    (860, Pull),
    (1100, Free),
];

const CLOCK: [(u64, Way); 19] = [
    (20, Pull),
    (100, Free),
    (140, Pull),
    (200, Free),
    (260, Pull),
    (320, Free),
    (380, Pull),
    (440, Free),
    (500, Pull),
    (560, Free),
    (620, Pull),
    (680, Free),
    (740, Pull),
    (800, Free),
    (860, Pull),
    (920, Free),
    (980, Pull),
    (1040, Free),
    (1100, Pull),
];

// The moment of a host's last change.
fn last_of(changes: &[Change]) -> u64 {
    match changes.last() {
        Some(change) => change.moment,
        None => 0,
    }
}

// The events from the host's release of CLOCK on, up to 1200 later.
fn talked(rt: &impl Abort, alloc: Global, host: &Host, from: u64) -> Vec<Event> {
    let mut bus = switched_on(rt, alloc, 8);
    streamed(
        rt,
        alloc,
        &mut bus,
        host.changes(rt),
        from.wrapping_add(1200),
    )
}

fn is_byte(events: &[Event], from: u64) -> bool {
    are_on_line(events, from, Data, &DATA) && are_on_line(events, from, Clock, &CLOCK)
}

// The first byte of the status after power up, $37: each change from the host's release of CLOCK on.
#[test]
fn a_byte_is_talked_to_the_microsecond(rt: HostRuntime) {
    let mut host = Host::new(rt.alloc());
    host.talk(0);
    let from = last_of(host.changes(&rt));
    host.after(120, Data, Free);
    assert!(rt; is_byte(talked(&rt, rt.alloc(), &host, from).as_slice(), from));
}

// LISTEN to device 8: ready at 1000, its start at 1040, bits of 40 each, ATN free at 1400. All from the start on comes later by
// a delay.
fn listen(alloc: Global, delay: u64) -> Host {
    let mut host = Host::new(alloc);
    host.begin(0x28, delay);
    host.after(40, Atn, Free);
    host
}

// Whether all changes that aren't the host's are this drive's.
fn are_of(events: &[Event], device: u8) -> bool {
    let mut all = true;
    for event in events {
        all = (event.who == Who::Host || event.who == Who::Drive(device)) && all;
    }
    all
}

// Whether a drive changes DATA so, and CLOCK never.
fn is_heard(events: &[Event], device: u8, wanted: &[(u64, Way)]) -> bool {
    let is_data = are_on_line(events, 0, Data, wanted);
    is_data && are_on_line(events, 0, Clock, &[]) && are_of(events, device)
}

// What a drive makes of it.
fn listens(rt: &impl Abort, alloc: Global, device: u8, delay: u64) -> Vec<Event> {
    let host = listen(alloc, delay);
    let mut bus = switched_on(rt, alloc, device);
    streamed(
        rt,
        alloc,
        &mut bus,
        host.changes(rt),
        delay.wrapping_add(1500),
    )
}

// Drive 8 hears that it is to listen; drive 9 accepts the byte, and leaves the bus. Then a start 200 after DATA was free
// on the wire, where only 199 keep the timing, and one at the very moment of the EOI pulse: the host comes first, and
// there is no pulse.
const HEARD: [(u8, u64, &[(u64, Way)]); 4] = [
    (8, 0, &[(20, Pull), (1020, Free), (1380, Pull)]),
    (
        9,
        0,
        &[(20, Pull), (1020, Free), (1380, Pull), (1420, Free)],
    ),
    (8, 180, &[(20, Pull), (1020, Free), (1560, Pull)]),
    (8, 200, &[(20, Pull), (1020, Free), (1580, Pull)]),
];

#[test]
fn a_drive_listens_for_itself(rt: HostRuntime) {
    for (device, delay, wanted) in HEARD {
        let events = listens(&rt, rt.alloc(), device, delay);
        assert!(rt;
            is_heard(events.as_slice(), device, wanted),
            "{device}, {delay}"
        );
    }
}

fn all_at_once(rt: &impl Abort, alloc: Global, host: &Host) -> Vec<Event> {
    let mut bus = switched_on(rt, alloc, 8);
    played(rt, alloc, &mut bus, host)
}

fn one_by_one(rt: &impl Abort, alloc: Global, host: &Host) -> Vec<Event> {
    let mut bus = switched_on(rt, alloc, 8);
    streamed(rt, alloc, &mut bus, host.changes(rt), 1_000_000)
}

// The status after power up, and then the other one, byte by byte as it comes.
#[test]
fn the_status_is_talked_as_it_comes(rt: HostRuntime) {
    let host = take_both(rt.alloc());
    let events = one_by_one(&rt, rt.alloc(), &host);
    assert!(rt; events.as_slice() == all_at_once(&rt, rt.alloc(), &host).as_slice());
    assert!(rt; is_said(events.as_slice(), BOTH));
}

// Whether a change is taken, comes as the next event, and nothing after it.
fn is_alone(bus: &mut Cable, change: Change) -> bool {
    let mut player = Player::new();
    let who = Who::Host;
    let is_taken = takes(&mut player, change);
    let is_next = next(&mut player, bus, change.moment) == Some(Event { who, change });
    is_taken && is_next && next(&mut player, bus, change.moment).is_none()
}

// A list of changes that breaks off at a bad one: what was given are the events up to the last good change.
#[test]
fn a_list_breaks_off(rt: HostRuntime) {
    let pull = Change {
        moment: 0,
        line: Atn,
        way: Pull,
    };
    assert!(rt; is_alone(&mut switched_on(&rt, rt.alloc(), 8), pull));
}
