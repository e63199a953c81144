//! A drive with a machine of a few lines, moment by moment.

use crate::host::Host;
use Line::*;
use Way::*;
use arrayvec::ArrayVec;
use cbm_drive::Drive;
use cbm_iec::*;
use std::alloc::Global;
use std::process::Abort;

/// A machine that always has the byte $37 to say, and keeps the first acts that it is told.
#[derive(Drop)]
pub(crate) struct Parrot {
    pub(crate) acts: ArrayVec<Option<Act>, 8>,
}

impl Machine for Parrot {
    ghost use Rattle.std.specs.Prelude.{◌<◌, ℕ, Bool, false, Option, Some, IfSome, refl};
    ghost use Rattle.std.proofs.Common.{subst, lit<};

    ghost State = { Unit {0} };

    ghost step = { λ m act. m };

    ghost says = { λ m. Some (55, false) };

    ghost stands = { λ x m. Unit {0} };

    ghost shows = { λ x. Some (55, false) };

    ghost lasting = { λ x. 0 };

    ghost failures = { λ x. 0 };

    fn act(&mut self, act: Act) {
        if !self.acts.is_full() {
            self.acts.push(Some(act));
        }
    }

    fn peek(&self) -> Option<(u8, bool)> {
        Some((0x37, false))
    }

    ghost byte = { λ x m n last s e. subst (λ (o : Option (ℕ × Bool)). IfSome o (λ b. b.0 < 256)) e (lit< tt) };

    ghost more = { λ m n e. ((55, false), refl) };
}

fn with_change(lines: Lines, change: Change) -> Lines {
    let low = change.way == Pull;
    match change.line {
        Atn => Lines {
            atn_low: low,
            ..lines
        },
        Clock => Lines {
            clock_low: low,
            ..lines
        },
        Data => Lines {
            data_low: low,
            ..lines
        },
    }
}

/// A change: its moment, its line, and what is done with it.
type Row = (u64, Line, Way);

// A drive's reaction at a moment, added to what it made.
fn react(rt: &impl Abort, drive: &mut Drive<Parrot>, moment: u64, made: &mut Vec<Row>) {
    assert!(rt; moment < 1 << 60);
    for change in &drive.due(moment) {
        let row = (change.moment, change.line, change.way);
        made.push(row).ok().expect(rt, "memory");
    }
}

// The drive's reactions before a moment.
fn settle(rt: &impl Abort, drive: &mut Drive<Parrot>, limit: u64, made: &mut Vec<Row>) {
    for _ in 0..100 {
        match drive.next_due() {
            Some(moment) if moment < limit => react(rt, drive, moment, made),
            _ => return,
        }
    }
    assert!(rt; false, "the reactions come to an end");
}

fn tell(rt: &impl Abort, drive: &mut Drive<Parrot>, moment: u64, host: Lines) {
    assert!(rt; moment < 1 << 60);
    drive.line(moment, host);
}

// What a drive makes of these changes of a host, up to an end.
fn played(
    rt: &impl Abort,
    alloc: Global,
    drive: &mut Drive<Parrot>,
    changes: &[Change],
    end: u64,
) -> Vec<Row> {
    let mut made = Vec::new(alloc);
    let mut host = Lines {
        atn_low: false,
        clock_low: false,
        data_low: false,
    };
    for change in changes {
        settle(rt, drive, change.moment, &mut made);
        host = with_change(host, *change);
        tell(rt, drive, change.moment, host);
    }
    settle(rt, drive, end, &mut made);
    made
}

/// An attention with one byte: ready at 1000, its start at 1040, bits of 40 each; then ATN is free at 1400.
pub(crate) fn attention(alloc: Global, byte: u8, talks: bool) -> Host {
    let mut host = Host::new(alloc);
    host.begin(byte, 0);
    if talks {
        host.after(40, Data, Pull);
        host.after(0, Atn, Free);
    } else {
        host.after(40, Atn, Free);
    }
    host
}

fn drive_8() -> Drive<Parrot> {
    let acts = ArrayVec::new();
    Drive::new(
        Parrot { acts },
        Party {
            device: 8,
            reaction: 20,
            pace: Pace::Profile,
        },
    )
}

// Whether a drive makes this of a host, and its machine is told these acts.
fn makes(
    rt: &impl Abort,
    alloc: Global,
    host: &Host,
    end: u64,
    wanted: &[Row],
    told: &[Option<Act>],
) -> bool {
    let mut drive = drive_8();
    let made = played(rt, alloc, &mut drive, host.changes(rt), end);
    made.as_slice() == wanted && drive.into_machine().acts.as_slice() == told
}

const HEARD: [(u8, &[Row]); 2] = [
    (
        0x28,
        &[(20, Data, Pull), (1020, Data, Free), (1380, Data, Pull)],
    ),
    (
        0x29,
        &[
            (20, Data, Pull),
            (1020, Data, Free),
            (1380, Data, Pull),
            (1420, Data, Free),
        ],
    ),
];

#[test]
fn hears_listen(rt: HostRuntime) {
    for (byte, wanted) in HEARD {
        let host = attention(rt.alloc(), byte, false);
        let told = [
            Some(Act::Pulled),
            Some(Act::Attention(byte)),
            Some(Act::Released),
        ];
        assert!(rt; makes(&rt, rt.alloc(), &host, 1501, wanted, &told));
    }
}

// An attention with TALK 8. CLOCK is freed for the turnaround at 1420, and DATA 120 later.
pub(crate) fn turn(alloc: Global) -> Host {
    let mut host = attention(alloc, 0x48, true);
    host.after(20, Clock, Free);
    host.after(120, Data, Free);
    host
}

// From 1560 on come the halves of $37's bits.
const TALKED: [Row; 27] = [
    (20, Data, Pull),
    (1020, Data, Free),
    (1380, Data, Pull),
    (1440, Clock, Pull),
    (1440, Data, Free),
    (1520, Clock, Free),
    (1560, Clock, Pull),
    (1620, Clock, Free),
    (1680, Clock, Pull),
    (1740, Clock, Free),
    (1800, Clock, Pull),
    (1860, Clock, Free),
    (1920, Clock, Pull),
    (1920, Data, Pull),
    (1980, Clock, Free),
    (2040, Clock, Pull),
    (2040, Data, Free),
    (2100, Clock, Free),
    (2160, Clock, Pull),
    (2220, Clock, Free),
    (2280, Clock, Pull),
    (2280, Data, Pull),
    (2340, Clock, Free),
    (2400, Clock, Pull),
    (2460, Clock, Free),
    (2520, Clock, Pull),
    (2520, Data, Free),
];

// The drive says $37.
#[test]
fn talks(rt: HostRuntime) {
    let mut host = turn(rt.alloc());
    host.after(1000, Data, Pull);
    let told = [
        Some(Act::Pulled),
        Some(Act::Attention(0x48)),
        Some(Act::Released),
        Some(Act::Said(0x37, false)),
    ];
    assert!(rt; makes(&rt, rt.alloc(), &host, 2621, &TALKED, &told));
}
