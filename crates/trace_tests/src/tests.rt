//! Traces of either form read, and what is refused.

use arrayvec::ArrayVec;
use bus_traces::{
    Decoder, EventLines, Flaw, Picture, Recorder, Sent, Told, TraceFault, TraceForm, Traces,
};
use cbm_iec::{Change, Event, Line, Way, Who};
use std::alloc::Global;
use std::io;

/// The two first changes and the answer of a drive, as lines.
const LINES: &[u8; 65] = b"0 host atn pull\n; the drive answers\n\n20 8 data pull\n9 8 data free";

fn all(bytes: &[u8]) -> (ArrayVec<u64, 8>, Option<TraceFault>) {
    let mut traces = Traces::new(bytes);
    let mut moments = ArrayVec::new();
    for _ in 0..8 {
        match traces.next() {
            Ok(Some(Told::Party(event))) => {
                let _ = moments.try_push(event.change.moment);
            }
            Ok(Some(Told::Wire(change))) => {
                let _ = moments.try_push(change.moment.saturating_add(1000));
            }
            Ok(None) => return (moments, None),
            Err(fault) => return (moments, Some(fault)),
        }
    }
    (moments, None)
}

#[test]
fn reads_lines(rt: HostRuntime) {
    let (moments, fault) = all(LINES);
    assert!(rt; moments.as_slice() == [0, 20].as_slice());
    assert!(rt; fault == Some(TraceFault::Line(5, Flaw::Early)));
}

/// Events of a host and two drives: DATA stays pulled while one of the drives pulls it.
fn events() -> [Event; 7] {
    let event = |moment: u64, who: Who, line: Line, way: Way| Event {
        who,
        change: Change { moment, line, way },
    };
    [
        event(0, Who::Host, Line::Atn, Way::Pull),
        event(0, Who::Host, Line::Clock, Way::Pull),
        event(20, Who::Drive(8), Line::Data, Way::Pull),
        event(35, Who::Drive(10), Line::Data, Way::Pull),
        event(100, Who::Host, Line::Atn, Way::Free),
        event(120, Who::Drive(8), Line::Data, Way::Free),
        event(135, Who::Drive(10), Line::Data, Way::Free),
    ]
}

// The values follow from the wires' rule: DATA is 0 from 20 to 135, ATN from 0 to 100.
const CHANGES: &str = "0ha
0a
0hc
0c
#20
08d
0d
#35
010d
#100
1ha
1a
#120
18d
#135
110d
1d
#200
";

fn recorded(alloc: Global, form: TraceForm) -> io::Result<Vec<u8>> {
    let mut bytes = Vec::new(alloc);
    let mut recorder = Recorder::begin(&mut bytes, form, &[8, 10])?;
    recorder.events(&events())?;
    recorder.end(200)?;
    Ok(bytes)
}

#[test]
fn writes_a_vcd(rt: HostRuntime) {
    let bytes = recorded(rt.alloc(), TraceForm::Vcd).expect(&rt, "it is written");
    assert!(rt; bytes.as_slice().starts_with(b"$comment"));
    assert!(rt; bytes.as_slice().ends_with(CHANGES.as_bytes()));
}

// The form of lines has a reader of its own.
#[test]
fn reads_lines_as_events(rt: HostRuntime) {
    let bytes = recorded(rt.alloc(), TraceForm::Lines).expect(&rt, "it is written");
    let mut lines = EventLines::new(bytes.as_slice());
    for event in events() {
        assert!(rt; lines.next() == Ok(Some(event)));
    }
    assert!(rt; lines.next() == Ok(None));
}

#[test]
fn reads_what_was_written(rt: HostRuntime) {
    for form in [TraceForm::Lines, TraceForm::Vcd] {
        let bytes = recorded(rt.alloc(), form).expect(&rt, "it is written");
        let mut traces = Traces::new(bytes.as_slice());
        for event in events() {
            assert!(rt; traces.next() == Ok(Some(Told::Party(event))));
        }
        assert!(rt; traces.next() == Ok(None));
        let end = match form {
            TraceForm::Lines => 135,
            TraceForm::Vcd => 200,
        };
        assert_eq!(rt; traces.moment(), end);
    }
}

// A capture of an analyser: only the wires, named in capitals, at 10 ns; line 6 lists their values, of which DATA's isn't known.
const CAPTURE: &str = "$date today $end $version an analyser $end
$timescale 10ns $end
$scope module top $end
$var wire 1 ! DATA $end $var wire 1 \" CLK $end $var wire 1 # ATN $end $var wire 8 % D7 [7:0] $end
$upscope $end $enddefinitions $end
#0 $dumpvars x! 1\" 1# b0 % $end
#150 0#
#2499 0\"
#2500 b0 ! r1.5 %
$comment 0! isn't a change here $end
#100000 z!
";

#[test]
fn reads_a_capture(rt: HostRuntime) {
    let mut traces = Traces::new(CAPTURE.as_bytes());
    let wants = [
        (1, Line::Atn, Way::Pull),
        (24, Line::Clock, Way::Pull),
        (25, Line::Data, Way::Pull),
        (1000, Line::Data, Way::Free),
    ];
    for (moment, line, way) in wants {
        let want = Told::Wire(Change { moment, line, way });
        assert!(rt; traces.next() == Ok(Some(want)));
    }
    assert!(rt; traces.next() == Ok(None));
    assert_eq!(rt; traces.line(), 12);
}

// Without names the first three of one bit are ATN, CLOCK and DATA.
#[test]
fn takes_nameless_wires_in_order(rt: HostRuntime) {
    let text =
        "$var wire 4 a bus $end $var wire 1 b D0 $end $var wire 1 c D1 $end $var wire 1 d D2 $end
$enddefinitions $end #5 0c #7 0d #9 0b";
    let (moments, fault) = all(text.as_bytes());
    assert!(rt; moments.as_slice() == [1005, 1007, 1009].as_slice());
    assert!(rt; fault == None);
}

/// A VCD's header of three lines, and what stands after it on line 4 and later.
fn flaw_of(alloc: Global, text: &str) -> io::Result<Option<TraceFault>> {
    let mut bytes = Vec::new(alloc);
    bytes.extend_from_slice(
        b"$timescale 1 us $end\n$var wire 1 a atn $end $var wire 1 c clk $end\n",
    )?;
    bytes.extend_from_slice(b"$var wire 1 d data $end $enddefinitions $end\n")?;
    bytes.extend_from_slice(text.as_bytes())?;
    Ok(all(bytes.as_slice()).1)
}

#[test]
fn refuses_broken_changes(rt: HostRuntime) {
    let wants = [
        ("#5\n0a\n#4\n", 6, Flaw::Early),
        ("#5\n0b\n", 5, Flaw::Unknown),
        ("#5\n0\n", 5, Flaw::Unknown),
        ("#x\n", 4, Flaw::Moment),
        ("#1000000000000001", 4, Flaw::Moment),
        ("#99999999999999999999", 4, Flaw::Moment),
        ("\n\nq", 6, Flaw::Change),
        ("b02 a", 4, Flaw::Change),
        ("$dumpvars 1a", 4, Flaw::Cut),
        ("$comment 1a\n\n", 6, Flaw::Cut),
    ];
    for (text, line, flaw) in wants {
        let fault = flaw_of(rt.alloc(), text).expect(&rt, "memory");
        assert!(rt; fault == Some(TraceFault::Line(line, flaw)), "{text}");
    }
}

#[test]
fn refuses_broken_headers(rt: HostRuntime) {
    let wants = [
        ("$timescale 2 us $end", 1, Flaw::Timescale),
        ("$timescale 1 min $end", 1, Flaw::Timescale),
        ("$upscope $end", 1, Flaw::Scope),
        ("$var wire 1 $end", 1, Flaw::Variable),
        ("$var wire 1 123456789 atn $end", 1, Flaw::Variable),
        (
            "$var wire 1 a atn $end\n$enddefinitions $end",
            2,
            Flaw::Lines,
        ),
        ("$date\n never ends", 2, Flaw::Cut),
        ("$date $end\nword", 2, Flaw::Header),
    ];
    for (text, line, flaw) in wants {
        let (_, fault) = all(text.as_bytes());
        assert!(rt; fault == Some(TraceFault::Line(line, flaw)), "{text}");
    }
}

// A line without an end is refused as soon as it is too long.
#[test]
fn refuses_long_lines(rt: HostRuntime) {
    let (_, fault) = all([b'1'; 3000].as_slice());
    assert!(rt; fault == Some(TraceFault::Line(1, Flaw::Long)));
}

// What the rule of the wires gives, drawn by hand; DATA is pulled by two drives from 35 on, so that 120 shows nothing.
const PICTURE: &str = "us   0 20  135
ATN  \\___/---
CLK  \\_______
DATA --\\___/-

";

#[test]
fn draws(rt: HostRuntime) {
    let mut bytes = Vec::new(rt.alloc());
    let mut picture = Picture::new(&mut bytes, 80);
    for event in events() {
        picture.event(event).expect(&rt, "it is drawn");
    }
    picture.end().expect(&rt, "it is drawn");
    assert!(rt; bytes.as_slice() == PICTURE.as_bytes());
}

/// The byte that a frame shows in attention: the host sends it with EOI, if the drive answers by a pulse.
fn decoded(byte: u8) -> Option<Sent> {
    let mut decoder = Decoder::new();
    let host = |line: Line, way: Way| Event {
        who: Who::Host,
        change: Change {
            moment: 0,
            line,
            way,
        },
    };
    let drive = |way: Way| Event {
        who: Who::Drive(8),
        change: Change {
            moment: 0,
            line: Line::Data,
            way,
        },
    };
    decoder.event(host(Line::Atn, Way::Pull));
    decoder.event(host(Line::Clock, Way::Pull));
    decoder.event(drive(Way::Pull));
    decoder.event(host(Line::Clock, Way::Free));
    decoder.event(drive(Way::Free));
    decoder.event(drive(Way::Pull));
    decoder.event(drive(Way::Free));
    decoder.event(host(Line::Clock, Way::Pull));
    for place in 0..8u32 {
        let way = if byte >> place & 1 == 0 {
            Way::Pull
        } else {
            Way::Free
        };
        decoder.event(host(Line::Data, way));
        decoder.event(host(Line::Clock, Way::Free));
        let sent = decoder.event(host(Line::Clock, Way::Pull));
        if place == 7 {
            return sent;
        }
    }
    None
}

#[test]
fn decodes_a_byte(rt: HostRuntime) {
    for byte in [0x28, 0x00, 0xff, 0x80, 0x01] {
        let want = Sent {
            byte,
            is_attention: true,
            is_last: true,
        };
        assert!(rt; decoded(byte) == Some(want));
    }
}
