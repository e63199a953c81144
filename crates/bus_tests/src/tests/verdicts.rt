//! What the plain reader has to say of a play.

use crate::tests::plays::Bus;
use crate::tests::reading::{Reading, add};
use cbm_iec::*;
use std::alloc::Global;
use std::process::Abort;

pub fn own_acts(rt: &impl Abort, alloc: Global, acts: &[(u8, Act)], device: u8) -> Vec<Act> {
    let mut own = Vec::new(alloc);
    for (other, act) in acts {
        if *other == device {
            add(rt, &mut own, *act);
        }
    }
    own
}

/// Whether a drive was told the same in two lists of acts.
pub fn is_told(
    rt: &impl Abort,
    alloc: Global,
    told: &[(u8, Act)],
    counted: &[(u8, Act)],
    device: u8,
) -> bool {
    let told = own_acts(rt, alloc, told, device);
    let counted = own_acts(rt, alloc, counted, device);
    told.as_slice() == counted.as_slice()
}

/// Whether each drive was told what counts in a reading.
fn are_told(rt: &impl Abort, alloc: Global, bus: &Bus, reading: &Reading) -> bool {
    let mut all = true;
    for port in &bus.ports {
        let device = port.party.device;
        all = is_told(rt, alloc, &bus.heard, &reading.acts, device) && all;
    }
    all
}

/// Whether the host keeps the timing: the trace begins a session and isn't late, and each drive was told what counts in
/// it.
fn is_kept(rt: &impl Abort, alloc: Global, bus: &Bus, end: u64) -> bool {
    let judge = bus.judge(rt, alloc, end);
    let mut all = judge.keeps && judge.begins() && !judge.late;
    for reading in &judge.readings {
        all = are_told(rt, alloc, bus, reading) && all;
    }
    all
}

fn is_broken(rt: &impl Abort, alloc: Global, bus: &Bus, end: u64) -> bool {
    !bus.judge(rt, alloc, end).keeps
}

pub fn keeps(rt: &impl Abort, alloc: Global, bus: &Bus, end: u64, what: &str, seed: u64) {
    let is_kept = is_kept(rt, alloc, bus, end);
    assert!(rt; is_kept, "{what} {seed}: the host keeps the timing");
}

/// The host breaks the timing.
pub fn breaks(rt: &impl Abort, alloc: Global, bus: &Bus, end: u64, what: &str, seed: u64) {
    let is_broken = is_broken(rt, alloc, bus, end);
    assert!(rt; is_broken, "{what} {seed}: the host breaks the timing");
}
