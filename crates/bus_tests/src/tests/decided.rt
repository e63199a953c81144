//! What `bus_judge` says of a trace, against the plain reader.

use crate::tests::bounds::Bound;
use crate::tests::judge::Judge as Reader;
use crate::tests::plays::Bus;
use crate::tests::reading::add;
use crate::tests::verdicts::{is_told, own_acts};
use crate::tests::wired::{told_by_wires, wires_of};
use bus_judge::{Breach, Cause, Judge, Mark, Verdict};
use cbm_iec::*;
use std::alloc::Global;
use std::process::Abort;

/// The verdict on a trace up to an end, and the acts that count in it.
fn decided(
    rt: &impl Abort,
    parties: &[Party],
    trace: &[Event],
    end: u64,
    acts: &mut Vec<(u8, Act)>,
) -> Verdict {
    let mut judge = Judge::new(parties).expect(rt, "a bus");
    for event in trace {
        match judge.see(*event) {
            Ok(Mark::Plain) => {}
            Ok(Mark::For(device, act)) => add(rt, acts, (device, act)),
            Ok(Mark::ForEach(act)) => {
                for party in parties {
                    add(rt, acts, (party.device, act));
                }
            }
            Err(breach) => return breach.verdict(),
        }
    }
    match judge.end(end) {
        Ok(()) => Verdict::Session,
        Err(breach) => breach.verdict(),
    }
}

/// The acts, but for that of a talker of a KERNAL's pace that has nothing to say: the wires don't tell it from one that
/// offers a byte, if no bit came.
fn seen_acts(rt: &impl Abort, alloc: Global, acts: &[(u8, Act)], party: Party) -> Vec<Act> {
    let mut seen = Vec::new(alloc);
    for act in own_acts(rt, alloc, acts, party.device) {
        if act != Act::Silent || party.pace != Pace::Kernal {
            add(rt, &mut seen, act);
        }
    }
    seen
}

/// Of a session's wires alone the judge says that they are a session, with the same acts.
fn agrees_by_wires(
    rt: &impl Abort,
    alloc: Global,
    parties: &[Party],
    trace: &[Event],
    end: u64,
    acts: &[(u8, Act)],
) {
    let told = told_by_wires(rt, alloc, parties, trace, end);
    let mut counted = Vec::new(alloc);
    let verdict = decided(rt, parties, &told, end, &mut counted);
    assert!(rt;
        verdict == Verdict::Session,
        "by the wires: {verdict:?}, {trace:?}, {told:?}"
    );
    for party in parties {
        let (told, meant) = (
            seen_acts(rt, alloc, &counted, *party),
            seen_acts(rt, alloc, acts, *party),
        );
        assert!(rt; told.as_slice() == meant.as_slice(), "{trace:?}");
    }
}

/// The judge says the same as the reader.
pub fn agrees(
    rt: &impl Abort,
    alloc: Global,
    parties: &[Party],
    trace: &[Event],
    end: u64,
    reader: &Reader,
) {
    let mut acts = Vec::new(alloc);
    let verdict = decided(rt, parties, trace, end, &mut acts);
    let is_same = match verdict {
        Verdict::Session => reader.keeps && reader.begins() && !reader.late,
        Verdict::Host(_) => !reader.keeps,
        Verdict::Drive(_) => reader.keeps && (reader.late || !reader.begins()),
    };
    assert!(rt; is_same, "{verdict:?}, {trace:?}");
    if verdict == Verdict::Session {
        agrees_by_wires(rt, alloc, parties, trace, end, &acts);
        for reading in &reader.readings {
            for party in parties {
                assert!(rt; is_told(rt, alloc, &acts, &reading.acts, party.device));
            }
        }
    }
}

/// The bound of a verdict.
fn bound_of(verdict: Verdict) -> Option<Bound> {
    let Verdict::Host(breach) = verdict else {
        return None;
    };
    match breach.cause {
        Cause::Bound(broken) | Cause::LeftOut(broken) => Some(broken.bound),
        _ => None,
    }
}

/// Whether a wire changes with a change of its line.
fn shows(
    rt: &impl Abort,
    alloc: Global,
    parties: &[Party],
    trace: &[Event],
    change: Change,
) -> bool {
    wires_of(rt, alloc, parties, trace, false).contains(&change)
}

/// By the wires alone the host breaks the timing, too, if its change shows there. Of two changes that don't come together
/// one may not show, and then these are the wires of a session.
fn is_named_by_wires(
    rt: &impl Abort,
    alloc: Global,
    parties: &[Party],
    trace: &[Event],
    end: u64,
    breach: Breach,
) -> bool {
    let told = told_by_wires(rt, alloc, parties, trace, end);
    let verdict = decided(rt, parties, &told, end, &mut Vec::new(alloc));
    let (hides, apart) = match breach.cause {
        Cause::Bound(broken) => (
            !shows(rt, alloc, parties, trace, breach.change),
            broken.bound == Bound::Together,
        ),
        Cause::LeftOut(broken) => (false, broken.bound == Bound::Together),
        _ => (false, false),
    };
    match verdict {
        Verdict::Session => hides || apart,
        Verdict::Host(_) => true,
        Verdict::Drive(_) => hides,
    }
}

/// The judge names the bound that the host breaks by 1.
pub fn names(rt: &impl Abort, alloc: Global, bus: &Bus, end: u64, bound: Bound, seed: u64) {
    let parties = bus.parties(rt, alloc);
    let mut acts = Vec::new(alloc);
    let verdict = decided(rt, &parties, &bus.events, end, &mut acts);
    assert!(rt;
        bound_of(verdict) == Some(bound),
        "{seed}: {bound:?}, {verdict:?}"
    );
    if let Verdict::Host(breach) = verdict {
        let is_named = is_named_by_wires(rt, alloc, &parties, &bus.events, end, breach);
        assert!(rt; is_named, "{seed}: {bound:?}, by the wires");
        if let Cause::Bound(broken) = breach.cause {
            assert!(rt; broken.by() == 1, "{seed}: {verdict:?}");
        }
    }
}
