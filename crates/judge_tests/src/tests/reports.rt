//! Traces by lines, and what is said of them.

use bus_judge::NotABus;
use cbm_iec::Party;
use judge_report::{
    Asked, Extent, Form, Range, ReportFault, Timing, Verdict, judge_trace, seat_of,
};
use std::alloc::Global;
use std::process::Abort;
use std::str::from_utf8;

/// LISTEN to device 8 with a reaction of 20: the first worked session.
const LISTEN: &str = "0 host atn pull
0 host clock pull
20 8 data pull
1000 host clock free
1020 8 data free
1040 host clock pull
1040 host data pull
1060 host clock free
1080 host clock pull
1100 host clock free
1120 host clock pull
1140 host clock free
1160 host clock pull
1160 host data free
1180 host clock free
1200 host clock pull
1200 host data pull
1220 host clock free
1240 host clock pull
1240 host data free
1260 host clock free
1280 host clock pull
1280 host data pull
1300 host clock free
1320 host clock pull
1340 host clock free
1360 host clock pull
1360 host data free
1380 8 data pull
1400 host atn free
";

/// What is said of a trace of these drives is this; the verdict.
pub fn said(
    rt: &impl Abort,
    alloc: Global,
    trace: &str,
    words: &[&str],
    expected: &str,
) -> Result<Verdict, ReportFault> {
    said_with(rt, alloc, trace, words, Form::Acts, expected)
}

/// The same, printed so.
fn said_with(
    rt: &impl Abort,
    alloc: Global,
    trace: &str,
    words: &[&str],
    form: Form,
    expected: &str,
) -> Result<Verdict, ReportFault> {
    let mut parties: Vec<Party> = Vec::new(alloc);
    let mut ranges: Vec<Range> = Vec::new(alloc);
    for word in words {
        let seat = seat_of(word).expect(rt, "a drive");
        parties.push(seat.party).ok().expect(rt, "memory");
        if seat.range.more > 0 {
            ranges.push(seat.range).ok().expect(rt, "memory");
        }
    }
    let mut output: Vec<u8> = Vec::new(alloc);
    let asked = Asked {
        parties: &parties,
        ranges: &ranges,
        timing: Timing::Kept,
        extent: Extent::FirstBreach,
        form,
    };
    let judged = judge_trace(alloc, trace.as_bytes(), &mut output, &asked);
    let text = from_utf8(output.as_slice()).ok().expect(rt, "text");
    assert!(rt; text == expected, "{text}");
    Ok(judged?.verdict)
}

#[test]
fn tells_a_session(rt: HostRuntime) {
    let expected = "attention 28\na session to 1400 us\n";
    let verdict = said(&rt, rt.alloc(), LISTEN, &["8:20"], expected);
    assert!(rt; verdict == Ok(Verdict::Session));
}

// An attention's moment is that of its beginning.
#[test]
fn tells_moments(rt: HostRuntime) {
    let expected = "0 us attention 28\na session to 1400 us\n";
    let verdict = said_with(
        &rt,
        rt.alloc(),
        LISTEN,
        &["8:20"],
        Form::ActsWithMoments,
        expected,
    );
    assert!(rt; verdict == Ok(Verdict::Session));
}

// Of nothing that was captured nothing is said.
#[test]
fn refuses_a_trace_without_a_change(rt: HostRuntime) {
    for trace in ["", "; a comment\n"] {
        let verdict = said(&rt, rt.alloc(), trace, &["8:20"], "");
        assert!(rt; verdict == Err(ReportFault::Empty));
    }
}

// A computer pulls CLOCK when it is switched on, and no session begins so.
#[test]
fn knows_a_trace_of_a_kernal(rt: HostRuntime) {
    for (trace, wanted) in [
        ("1100 host clock pull\n", true),
        ("0 host atn pull\n", false),
    ] {
        let mut output: Vec<u8> = Vec::new(rt.alloc());
        let party = seat_of("8:20").expect(&rt, "a drive").party;
        let asked = Asked {
            parties: &[party],
            ranges: &[],
            timing: Timing::Kept,
            extent: Extent::FirstBreach,
            form: Form::Acts,
        };
        let judged = judge_trace(rt.alloc(), trace.as_bytes(), &mut output, &asked);
        assert!(rt; judged.is_ok_and(|it| it.is_of_kernal == wanted));
    }
}

// The start comes 20 after T = 1020; with a drive of reaction 40 T is 1040.
#[test]
fn tells_who_broke_it(rt: HostRuntime) {
    let expected = "attention\n20 us drive 8 data pull: due at 40\n";
    let verdict = said(&rt, rt.alloc(), LISTEN, &["8:40"], expected);
    assert!(rt; matches!(verdict, Ok(Verdict::Drive(_))));
    let late = "0 host atn pull\n0 host clock pull\n20 8 data pull\n99 host clock free\n";
    let expected = "attention\n99 us host clock free: 99 after ATN's pull, 100 at least\n";
    let verdict = said(&rt, rt.alloc(), late, &["8:20"], expected);
    assert!(rt; matches!(verdict, Ok(Verdict::Host(_))));
}

/// TALK to device 8 with a reaction of 20, up to ATN's release.
const TALK: &str = "0 host atn pull
0 host clock pull
20 8 data pull
100 host clock free
120 8 data free
140 host clock pull
140 host data pull
160 host clock free
180 host clock pull
200 host clock free
220 host clock pull
240 host clock free
260 host clock pull
260 host data free
280 host clock free
300 host clock pull
300 host data pull
320 host clock free
340 host clock pull
360 host clock free
380 host clock pull
380 host data free
400 host clock free
420 host clock pull
420 host data pull
440 host clock free
460 host clock pull
460 host data free
480 8 data pull
560 host data pull
560 host atn free
";

/// With nothing to say, at a KERNAL's pace it holds CLOCK for 80.
const SILENT: &str = "580 host clock free
600 8 clock pull
680 8 clock free
680 8 data free
";

fn turned(rt: &impl Abort, alloc: Global, rest: &str) -> String {
    format!(in alloc; "{TALK}{rest}").ok().expect(rt, "memory")
}

// At the pace of the profile a talker that pulls CLOCK leads, and frees DATA with it.
#[test]
fn keeps_the_drives_pace(rt: HostRuntime) {
    let silent = turned(&rt, rt.alloc(), SILENT);
    let expected = "attention 48\ndrive 8 has nothing to say\na session to 680 us\n";
    let verdict = said(&rt, rt.alloc(), &silent, &["8:20:kernal"], expected);
    assert!(rt; verdict == Ok(Verdict::Session));
    let expected = "attention 48\n600 us drive 8 data free: missing, was due then\n";
    let verdict = said(&rt, rt.alloc(), &silent, &["8:20"], expected);
    assert!(rt; matches!(verdict, Ok(Verdict::Drive(_))));
}

// CLOCK's release after ATN's goes by the pace of the drive that talks.
#[test]
fn keeps_the_bounds_of_the_pace(rt: HostRuntime) {
    let early = turned(&rt, rt.alloc(), "574 host clock free\n");
    let rows = [
        (
            "8:20:kernal",
            "attention 48\n574 us host clock free: 14 after ATN's release, 15 at least\n",
        ),
        (
            "8:20",
            "attention 48\n574 us host clock free: 14 after ATN's release, 20 at least\n",
        ),
    ];
    for (drive, expected) in rows {
        let verdict = said(&rt, rt.alloc(), &early, &[drive], expected);
        assert!(rt; matches!(verdict, Ok(Verdict::Host(_))));
    }
}

#[test]
fn reads_drives(rt: HostRuntime) {
    assert!(rt; seat_of("8").is_none() && seat_of("8:").is_none());
    assert!(rt; seat_of("8:20:fast").is_none() && seat_of("8:300").is_none());
    assert!(rt; seat_of("9:35:kernal").is_some());
    let none = said(&rt, rt.alloc(), LISTEN, &["8:0"], "");
    assert!(rt; none == Err(ReportFault::Drives(NotABus::Reaction)));
}
