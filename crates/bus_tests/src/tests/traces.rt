//! Generated hosts, played to one to four drives, with the reader as judge.

use crate::tests::bounds::{BOUNDS, Bound};
use crate::tests::decided::names;
use crate::tests::plays::*;
use crate::tests::reading::{add, after};
use crate::tests::sessions::*;
use crate::tests::verdicts::*;
use cbm_iec::*;
use std::alloc::Global;
use std::process::Abort;

fn own_events(rt: &impl Abort, alloc: Global, events: &[Event], device: u8) -> Vec<Event> {
    let mut own = Vec::new(alloc);
    for event in events {
        if event.who == Who::Drive(device) {
            add(rt, &mut own, *event);
        }
    }
    own
}

fn parties_of(rt: &impl Abort, alloc: Global, session: &Session) -> Vec<Party> {
    let mut parties = Vec::new(alloc);
    for member in &session.members {
        assert!(rt; member.reaction <= 60);
        let party = one(member.device, member.reaction as u8);
        let pace = member.pace;
        add(rt, &mut parties, Party { pace, ..party });
    }
    parties
}

// What the drives make of the host's changes.
fn played(rt: &impl Abort, alloc: Global, session: &Session, changes: &[Change], end: u64) -> Bus {
    let parties = parties_of(rt, alloc, session);
    let mut bus = Bus::new(rt, alloc, &parties);
    bus.short = true;
    bus.mute = session.silent;
    bus.play(rt, changes, end);
    bus
}

// Whether a drive makes what was written down, and is told what counts.
fn is_followed(rt: &impl Abort, alloc: Global, bus: &Bus, session: &Session, device: u8) -> bool {
    let made = own_events(rt, alloc, &bus.events, device);
    let wanted = own_events(rt, alloc, &session.wanted, device);
    let counted = session.counted(rt, alloc);
    made.as_slice() == wanted.as_slice() && is_told(rt, alloc, &bus.heard, &counted, device)
}

// All drives do.
fn follows(rt: &impl Abort, alloc: Global, bus: &Bus, session: &Session, seed: u64) {
    for port in &bus.ports {
        let is_followed = is_followed(rt, alloc, bus, session, port.party.device);
        assert!(rt; is_followed, "seed {seed}: what a drive does");
    }
}

// A host that ends somewhere on the way: the changes up to then.
fn ended(rt: &impl Abort, alloc: Global, changes: &[Change], end: u64) -> Vec<Change> {
    let mut front = Vec::new(alloc);
    for change in changes {
        if change.moment <= end {
            add(rt, &mut front, *change);
        }
    }
    front
}

// Whether a later change is of that line.
fn comes_again(changes: &[Change], place: usize) -> bool {
    let mut line = None;
    for (other, change) in changes.iter().enumerate() {
        if other == place {
            line = Some(change.line);
        } else if line == Some(change.line) {
            return true;
        }
    }
    false
}

// A change left out, doubled, or its line changed in place of the next one's and that one's in its place.
fn disturbed(
    rt: &impl Abort,
    alloc: Global,
    changes: &[Change],
    place: usize,
    how: u64,
) -> Vec<Change> {
    let mut other = Vec::new(alloc);
    for (at, change) in changes.iter().enumerate() {
        let before = changes.get(at.wrapping_sub(1));
        let afterwards = changes.get(at.wrapping_add(1));
        match (how, afterwards, before) {
            (0, _, _) if at == place => {}
            (1, _, _) if at == place => {
                add(rt, &mut other, *change);
                add(rt, &mut other, *change);
            }
            (2, Some(next), _) if at == place => add(
                rt,
                &mut other,
                Change {
                    moment: change.moment,
                    ..*next
                },
            ),
            (2, _, Some(last)) if at == place.wrapping_add(1) => {
                add(
                    rt,
                    &mut other,
                    Change {
                        moment: change.moment,
                        ..*last
                    },
                );
            }
            _ => add(rt, &mut other, *change),
        }
    }
    other
}

// A host that keeps the timing: the drives make what was written down, and the trace is a session.
fn check_whole(rt: &impl Abort, alloc: Global, session: &Session, end: u64, seed: u64) {
    let bus = played(rt, alloc, session, &session.changes, end);
    follows(rt, alloc, &bus, session, seed);
    keeps(rt, alloc, &bus, end, "session", seed)
}

// The same host up to a moment of its own.
fn check_front(rt: &impl Abort, alloc: Global, session: &Session, until: u64, seed: u64) {
    let changes = ended(rt, alloc, &session.changes, until);
    let bus = played(rt, alloc, session, &changes, until);
    keeps(rt, alloc, &bus, until, "front of session", seed)
}

// A host that leaves a change out, doubles it, or swaps it with the next one where that matters; how many traces were
// judged.
fn check_disturbed(
    rt: &impl Abort,
    alloc: Global,
    session: &Session,
    place: usize,
    how: u64,
    end: u64,
    seed: u64,
) -> u64 {
    if how != 1 && !comes_again(&session.changes, place) {
        return 0;
    }
    let changes = disturbed(rt, alloc, &session.changes, place, how);
    let bus = played(rt, alloc, session, &changes, end);
    breaks(
        rt,
        alloc,
        &bus,
        end,
        "a change left out, doubled or swapped in",
        seed,
    );
    1
}

// A host that is late with a change, up to the moment before it.
fn check_late(
    rt: &impl Abort,
    alloc: Global,
    flawed: &Session,
    until: u64,
    bound: Bound,
    seed: u64,
) {
    let changes = ended(rt, alloc, &flawed.changes, until);
    let bus = played(rt, alloc, flawed, &changes, until);
    breaks(
        rt,
        alloc,
        &bus,
        until,
        "a change that is due left out in",
        seed,
    );
    names(rt, alloc, &bus, until, bound, seed)
}

// A host that breaks a bound by 1, and the same before its late change where it is late; how many traces were judged.
fn check_flawed(
    rt: &impl Abort,
    alloc: Global,
    seed: u64,
    flaw: u64,
    paces: u8,
    broken: &mut Vec<Bound>,
) -> u64 {
    let mut flawed = Session::new(rt, alloc, seed, flaw, paces);
    let end = after(flawed.write(rt, alloc), 3000);
    if let Some((bound, moment, late)) = flawed.broken {
        let bus = played(rt, alloc, &flawed, &flawed.changes, end);
        breaks(rt, alloc, &bus, end, "a bound broken by 1 in", seed);
        names(rt, alloc, &bus, end, bound, seed);
        add(rt, broken, bound);
        if late {
            check_late(rt, alloc, &flawed, moment.wrapping_sub(1), bound, seed);
            return 2;
        }
        return 1;
    }
    0
}

// Hosts made of one seed: one that keeps the timing, whole and up to a moment of its own, one that is disturbed, and
// one that breaks a bound. Answers how many traces were judged.
fn check(rt: &impl Abort, alloc: Global, seed: u64, paces: u8, broken: &mut Vec<Bound>) -> u64 {
    let mut session = Session::new(rt, alloc, seed, 0, paces);
    let end = session.write(rt, alloc);
    let last = after(end, 3000);
    check_whole(rt, alloc, &session, last, seed);
    let until = session.random(after(end, 1));
    check_front(rt, alloc, &session, until, seed);
    let how = session.random(3);
    let count = session.changes.len() as u64;
    let place = session.random(count) as usize;
    let disturbed = check_disturbed(rt, alloc, &session, place, how, last, seed);
    let flawed = check_flawed(rt, alloc, seed, session.choose(), paces, broken);
    after(2, after(disturbed, flawed))
}

// So many traces of some seeds, with each bound broken at least once. The drives keep the profile's pace; or all keep a
// KERNAL's with each other seed, and by the seed some of them, or all, with the others.
fn check_all(rt: &impl Abort, alloc: Global, first: u64, last: u64, of_kernal: bool) {
    let mut broken = Vec::new(alloc);
    let mut traces = 0;
    for seed in first..last {
        let paces = match (of_kernal, seed % 2) {
            (false, _) => 0,
            (true, 0) => 15,
            (true, _) => (seed / 2 % 15 + 1) as u8,
        };
        traces = after(traces, check(rt, alloc, seed, paces, &mut broken));
    }
    assert!(rt; traces >= 45_000, "{traces} traces");
    for bound in BOUNDS {
        assert!(rt; broken.contains(&bound), "{bound:?} was never broken");
    }
}

#[test]
fn first_eighth(rt: HostRuntime) {
    check_all(&rt, rt.alloc(), 0, 12_500, false)
}

#[test]
fn second_eighth(rt: HostRuntime) {
    check_all(&rt, rt.alloc(), 12_500, 25_000, false)
}

#[test]
fn third_eighth(rt: HostRuntime) {
    check_all(&rt, rt.alloc(), 25_000, 37_500, false)
}

#[test]
fn fourth_eighth(rt: HostRuntime) {
    check_all(&rt, rt.alloc(), 37_500, 50_000, false)
}

#[test]
fn fifth_eighth(rt: HostRuntime) {
    check_all(&rt, rt.alloc(), 50_000, 62_500, false)
}

#[test]
fn sixth_eighth(rt: HostRuntime) {
    check_all(&rt, rt.alloc(), 62_500, 75_000, false)
}

#[test]
fn seventh_eighth(rt: HostRuntime) {
    check_all(&rt, rt.alloc(), 75_000, 87_500, false)
}

#[test]
fn last_eighth(rt: HostRuntime) {
    check_all(&rt, rt.alloc(), 87_500, 100_000, false)
}

#[test]
fn of_both_paces(rt: HostRuntime) {
    check_all(&rt, rt.alloc(), 100_000, 112_500, true)
}
