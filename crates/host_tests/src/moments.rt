// The moments of requests: drive 8 reacts in 20 microseconds, and the first request comes at 1000.

use crate::wired::Wired;
use cbm_drive::Line::*;
use cbm_drive::Way::*;
use cbm_drive::{Event, Line, Pace, Way, Who};
use cbm_host::Request;
use std::process::Abort;
use std::test::Fail;

// Asserts that these events are there, from a place on.
fn happen(rt: &impl Abort, events: &[Event], from: usize, wanted: &[(Who, u64, Line, Way)]) {
    for (place, (who, moment, line, way)) in wanted.iter().enumerate() {
        let event = events.get(from.wrapping_add(place));
        let is_there = event.is_some_and(|event| {
            let change = event.change;
            event.who == *who
                && change.moment == *moment
                && change.line == *line
                && change.way == *way
        });
        assert!(rt; is_there, "event {place}");
    }
}

const HOST: Who = Who::Host;

const DRIVE: Who = Who::Drive(8);

// ATN is pulled, and LISTEN 8 sent: 0, 0, 0, 1, 0, 1, 0, 0 from the lowest bit on.
const LISTEN: [(Who, u64, Line, Way); 28] = [
    (HOST, 1000, Atn, Pull),
    (HOST, 1000, Clock, Pull),
    (DRIVE, 1020, Data, Pull),
    (HOST, 1100, Clock, Free),
    (DRIVE, 1120, Data, Free),
    (HOST, 1140, Clock, Pull),
    (HOST, 1140, Data, Pull),
    (HOST, 1160, Clock, Free),
    (HOST, 1180, Clock, Pull),
    (HOST, 1200, Clock, Free),
    (HOST, 1220, Clock, Pull),
    (HOST, 1240, Clock, Free),
    (HOST, 1260, Clock, Pull),
    (HOST, 1260, Data, Free),
    (HOST, 1280, Clock, Free),
    (HOST, 1300, Clock, Pull),
    (HOST, 1300, Data, Pull),
    (HOST, 1320, Clock, Free),
    (HOST, 1340, Clock, Pull),
    (HOST, 1340, Data, Free),
    (HOST, 1360, Clock, Free),
    (HOST, 1380, Clock, Pull),
    (HOST, 1380, Data, Pull),
    (HOST, 1400, Clock, Free),
    (HOST, 1420, Clock, Pull),
    (HOST, 1440, Clock, Free),
    (HOST, 1460, Clock, Pull),
    (HOST, 1460, Data, Free),
];

#[test]
fn listen_has_its_moments(rt: HostRuntime) -> Result<(), Fail> {
    let mut wired = Wired::new(&rt, rt.alloc(), 20)?;
    let done = wired.asks(&rt, rt.alloc(), Request::Close(1))?;
    happen(&rt, wired.events.as_slice(), 0, &LISTEN);
    happen(
        &rt,
        wired.events.as_slice(),
        28,
        &[(DRIVE, 1480, Data, Pull)],
    );
    // Three bytes, each accepted 480 after the one before; ATN freed 60 after the last, and 100 more.
    assert!(&rt; done.end == 1000 + 3 * 480 + 60 + 100);
    Ok(())
}

// The turnaround, and the first byte of the status after power up, $37.
const TALK: [(Who, u64, Line, Way); 28] = [
    (HOST, 2020, Data, Pull),
    (HOST, 2020, Atn, Free),
    (HOST, 2040, Clock, Free),
    (DRIVE, 2060, Clock, Pull),
    (DRIVE, 2060, Data, Free),
    (DRIVE, 2140, Clock, Free),
    (HOST, 2160, Data, Free),
    (DRIVE, 2180, Clock, Pull),
    (DRIVE, 2240, Clock, Free),
    (DRIVE, 2300, Clock, Pull),
    (DRIVE, 2360, Clock, Free),
    (DRIVE, 2420, Clock, Pull),
    (DRIVE, 2480, Clock, Free),
    (DRIVE, 2540, Clock, Pull),
    (DRIVE, 2540, Data, Pull),
    (DRIVE, 2600, Clock, Free),
    (DRIVE, 2660, Clock, Pull),
    (DRIVE, 2660, Data, Free),
    (DRIVE, 2720, Clock, Free),
    (DRIVE, 2780, Clock, Pull),
    (DRIVE, 2840, Clock, Free),
    (DRIVE, 2900, Clock, Pull),
    (DRIVE, 2900, Data, Pull),
    (DRIVE, 2960, Clock, Free),
    (DRIVE, 3020, Clock, Pull),
    (DRIVE, 3080, Clock, Free),
    (DRIVE, 3140, Clock, Pull),
    (DRIVE, 3140, Data, Free),
];

// Where an event of the host comes first.
fn place_of(events: &[Event], moment: u64) -> usize {
    let mut place = 0usize;
    for event in events {
        if event.change.moment >= moment {
            return place;
        }
        place = place.wrapping_add(1);
    }
    place
}

#[test]
fn talk_has_its_moments(rt: HostRuntime) -> Result<(), Fail> {
    let mut wired = Wired::new(&rt, rt.alloc(), 20)?;
    wired.asks(&rt, rt.alloc(), Request::Status)?;
    let events = wired.events.as_slice();
    happen(&rt, events, place_of(events, 2020), &TALK);
    happen(
        &rt,
        events,
        place_of(events, 3160),
        &[
            (HOST, 3160, Data, Pull),
            (DRIVE, 3260, Clock, Free),
            (HOST, 3280, Data, Free),
        ],
    );
    Ok(())
}

// A closed channel has nothing to say: the drive only frees DATA.
#[test]
fn nothing_to_say_has_its_moments(rt: HostRuntime) -> Result<(), Fail> {
    let mut wired = Wired::new(&rt, rt.alloc(), 20)?;
    let done = wired.asks(&rt, rt.alloc(), Request::Get(0, 1))?;
    let events = wired.events.as_slice();
    happen(
        &rt,
        events,
        place_of(events, 2020),
        &[
            (HOST, 2020, Data, Pull),
            (HOST, 2020, Atn, Free),
            (HOST, 2040, Clock, Free),
            (DRIVE, 2060, Data, Free),
            (HOST, 3040, Data, Free),
            (HOST, 3060, Atn, Pull),
            (HOST, 3060, Clock, Pull),
            (DRIVE, 3080, Data, Pull),
            (HOST, 3160, Clock, Free),
        ],
    );
    happen(
        &rt,
        events,
        place_of(events, 3600),
        &[
            (HOST, 3600, Atn, Free),
            (HOST, 3600, Clock, Free),
            (DRIVE, 3620, Data, Free),
        ],
    );
    assert!(&rt; done.end == 3700);
    Ok(())
}

// Asserts the changes of a byte with EOI to a listener, which frees DATA again and hears CLOCK pulled at these moments.
fn has_eoi(rt: &impl Abort, wired: &Wired, freed: u64, pulled: u64) {
    let events = wired.events.as_slice();
    happen(
        rt,
        events,
        place_of(events, 2020),
        &[
            (HOST, 2020, Atn, Free),
            (HOST, 2120, Clock, Free),
            (DRIVE, 2140, Data, Free),
            (DRIVE, 2360, Data, Pull),
            (DRIVE, freed, Data, Free),
            (HOST, pulled, Clock, Pull),
        ],
    );
}

// A byte with EOI to a listener: the drive's pulse is from 200 to 260 and its reaction after DATA's release.
#[test]
fn eoi_has_its_moments(rt: HostRuntime) -> Result<(), Fail> {
    let mut wired = Wired::new(&rt, rt.alloc(), 20)?;
    wired.asks(&rt, rt.alloc(), Request::Put(15, b"I"))?;
    has_eoi(&rt, &wired, 2420, 2440);
    Ok(())
}

// The first byte of the status again, by a drive at a KERNAL's pace: its bits last 160.
const SLOW_TALK: [(Who, u64, Line, Way); 27] = [
    (HOST, 2020, Data, Pull),
    (HOST, 2020, Atn, Free),
    (HOST, 2040, Clock, Free),
    (DRIVE, 2060, Clock, Pull),
    (DRIVE, 2060, Data, Free),
    (DRIVE, 2140, Clock, Free),
    (HOST, 2160, Data, Free),
    (DRIVE, 2180, Clock, Pull),
    (DRIVE, 2260, Clock, Free),
    (DRIVE, 2340, Clock, Pull),
    (DRIVE, 2420, Clock, Free),
    (DRIVE, 2500, Clock, Pull),
    (DRIVE, 2580, Clock, Free),
    (DRIVE, 2660, Clock, Pull),
    (DRIVE, 2660, Data, Pull),
    (DRIVE, 2740, Clock, Free),
    (DRIVE, 2820, Clock, Pull),
    (DRIVE, 2820, Data, Free),
    (DRIVE, 2900, Clock, Free),
    (DRIVE, 2980, Clock, Pull),
    (DRIVE, 3060, Clock, Free),
    (DRIVE, 3140, Clock, Pull),
    (DRIVE, 3140, Data, Pull),
    (DRIVE, 3220, Clock, Free),
    (DRIVE, 3300, Clock, Pull),
    (DRIVE, 3380, Clock, Free),
    (DRIVE, 3460, Clock, Pull),
];

#[test]
fn talk_has_its_moments_at_a_kernals_pace(rt: HostRuntime) -> Result<(), Fail> {
    let mut wired = Wired::at(&rt, rt.alloc(), Pace::Kernal, 20)?;
    wired.asks(&rt, rt.alloc(), Request::Status)?;
    let events = wired.events.as_slice();
    happen(&rt, events, place_of(events, 2020), &SLOW_TALK);
    happen(
        &rt,
        events,
        place_of(events, 3480),
        &[
            (HOST, 3480, Data, Pull),
            (DRIVE, 3580, Clock, Free),
            (HOST, 3600, Data, Free),
        ],
    );
    Ok(())
}

// A closed channel has nothing to say: the drive pulls CLOCK, and lets go of both lines 80 later; the host sees that, and
// doesn't wait for its millisecond.
#[test]
fn nothing_to_say_has_its_moments_at_a_kernals_pace(rt: HostRuntime) -> Result<(), Fail> {
    let mut wired = Wired::at(&rt, rt.alloc(), Pace::Kernal, 20)?;
    let done = wired.asks(&rt, rt.alloc(), Request::Get(0, 1))?;
    let events = wired.events.as_slice();
    happen(
        &rt,
        events,
        place_of(events, 2020),
        &[
            (HOST, 2020, Data, Pull),
            (HOST, 2020, Atn, Free),
            (HOST, 2040, Clock, Free),
            (DRIVE, 2060, Clock, Pull),
            (DRIVE, 2140, Clock, Free),
            (DRIVE, 2140, Data, Free),
            (HOST, 2160, Data, Free),
            (HOST, 2180, Atn, Pull),
            (HOST, 2180, Clock, Pull),
            (DRIVE, 2200, Data, Pull),
            (HOST, 2280, Clock, Free),
        ],
    );
    happen(
        &rt,
        events,
        place_of(events, 2720),
        &[
            (HOST, 2720, Atn, Free),
            (HOST, 2720, Clock, Free),
            (DRIVE, 2740, Data, Free),
        ],
    );
    assert!(&rt; done.bytes.is_empty());
    assert!(&rt; done.end == 2820);
    Ok(())
}

// A byte with EOI to a listener at that pace: its pulse lasts 80.
#[test]
fn eoi_has_its_moments_at_a_kernals_pace(rt: HostRuntime) -> Result<(), Fail> {
    let mut wired = Wired::at(&rt, rt.alloc(), Pace::Kernal, 20)?;
    wired.asks(&rt, rt.alloc(), Request::Put(15, b"I"))?;
    has_eoi(&rt, &wired, 2440, 2460);
    Ok(())
}
