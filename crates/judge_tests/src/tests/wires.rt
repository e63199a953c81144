//! Captures of the wires alone, as a logic analyser has them, and what is said of them.

use crate::tests::reports::said;
use judge_report::Verdict;

/// The first worked session, LISTEN to device 8 with a reaction of 20: what its parties' trace leaves on the wires.
const LISTEN: &str = "$date Thu Nov 26 2026 $end
$version libsigrok $end
$timescale 1 us $end
$scope module libsigrok $end
$var wire 1 ! DATA $end
$var wire 1 \" CLK $end
$var wire 1 # ATN $end
$upscope $end
$enddefinitions $end
#0 1! 0\" 0#
#20 0!
#1000 1\"
#1020 1!
#1040 0! 0\"
#1060 1\"
#1080 0\"
#1100 1\"
#1120 0\"
#1140 1\"
#1160 1! 0\"
#1180 1\"
#1200 0! 0\"
#1220 1\"
#1240 1! 0\"
#1260 1\"
#1280 0! 0\"
#1300 1\"
#1320 0\"
#1340 1\"
#1360 1! 0\"
#1380 0!
#1400 1#
";

#[test]
fn tells_a_session(rt: HostRuntime) {
    let expected = "attention 28\na session to 1400 us\n";
    let verdict = said(&rt, rt.alloc(), LISTEN, &["8:20"], expected);
    assert!(rt; verdict == Ok(Verdict::Session));
}

// DATA that is pulled before the drive's moment is the host's; after it, it is the drive's that owes it.
#[test]
fn tells_who_broke_it(rt: HostRuntime) {
    let expected =
        "attention\n19 us host data pull: no session has it there (in attention; next: drive 8 data pull at 20)\n";
    let early =
        "$var wire 1 a atn $end $var wire 1 c clk $end $var wire 1 d data $end $enddefinitions $end
#0 0a 0c
#19 0d
#100 1c
";
    let verdict = said(&rt, rt.alloc(), early, &["8:20"], expected);
    assert!(rt; matches!(verdict, Ok(Verdict::Host(_))));
    let expected = "attention\n20 us drive 8 data pull: due at 19\n";
    let late =
        "$var wire 1 a atn $end $var wire 1 c clk $end $var wire 1 d data $end $enddefinitions $end
#0 0a 0c
#20 0d
#100 1c
";
    let verdict = said(&rt, rt.alloc(), late, &["8:19"], expected);
    assert!(rt; matches!(verdict, Ok(Verdict::Drive(_))));
    let expected = "attention\n99 us host clock free: 99 after ATN's pull, 100 at least\n";
    let host =
        "$var wire 1 a atn $end $var wire 1 c clk $end $var wire 1 d data $end $enddefinitions $end
#0 0a 0c
#20 0d
#99 1c
";
    let verdict = said(&rt, rt.alloc(), host, &["8:20"], expected);
    assert!(rt; matches!(verdict, Ok(Verdict::Host(_))));
}

/// TALK to a drive of a KERNAL's pace that has nothing to say: the host's pull of DATA at ATN's release, and the drive's
/// release of it, don't show.
const SILENT: &str =
    "$var wire 1 a atn $end $var wire 1 c clk $end $var wire 1 d data $end $enddefinitions $end
#0 0a 0c
#20 0d
#100 1c
#120 1d
#140 0d 0c
#160 1c
#180 0c
#200 1c
#220 0c
#240 1c
#260 1d 0c
#280 1c
#300 0d 0c
#320 1c
#340 0c
#360 1c
#380 1d 0c
#400 1c
#420 0d 0c
#440 1c
#460 1d 0c
#480 0d
#560 1a
#580 1c
#600 0c
#680 1c
";

#[test]
fn tells_what_does_not_show(rt: HostRuntime) {
    let expected = "attention 48\ndrive 8 has nothing to say\na session to 680 us\n";
    let verdict = said(&rt, rt.alloc(), SILENT, &["8:20:kernal"], expected);
    assert!(rt; verdict == Ok(Verdict::Session));
}

/// The same drive, with a byte to say, and ATN pulled before it has freed CLOCK: that DATA is free then shows that it leads.
const LEADS: &str =
    "$var wire 1 a atn $end $var wire 1 c clk $end $var wire 1 d data $end $enddefinitions $end
#0 0a 0c
#20 0d
#100 1c
#120 1d
#140 0d 0c
#160 1c
#180 0c
#200 1c
#220 0c
#240 1c
#260 1d 0c
#280 1c
#300 0d 0c
#320 1c
#340 0c
#360 1c
#380 1d 0c
#400 1c
#420 0d 0c
#440 1c
#460 1d 0c
#480 0d
#560 1a
#580 1c
#600 0c
#650 0a 1d
#670 0d
";

#[test]
fn tells_who_leads(rt: HostRuntime) {
    let expected = "attention 48\nattention\na session to 670 us\n";
    let verdict = said(&rt, rt.alloc(), LEADS, &["8:20:kernal"], expected);
    assert!(rt; verdict == Ok(Verdict::Session));
}
