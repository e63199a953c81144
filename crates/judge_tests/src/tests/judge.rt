//! The judge, event by event.

use bus_judge::{Cause, Judge, Mark};
use cbm_iec::*;

fn event(who: Who, moment: u64, line: Line, way: Way) -> Event {
    Event {
        who,
        change: Change { moment, line, way },
    }
}

// CLOCK is to be pulled together with ATN: what the host left out comes before the drive's answer.
#[test]
fn says_what_is_missing(rt: HostRuntime) {
    let parties = [Party {
        device: 8,
        reaction: 20,
        pace: Pace::Profile,
    }];
    let mut judge = Judge::new(&parties).expect(&rt, "a bus");
    let pull = judge.see(event(Who::Host, 0, Line::Atn, Way::Pull));
    assert!(rt; pull == Ok(Mark::ForEach(Act::Pulled)));
    let drive = judge.see(event(Who::Drive(8), 20, Line::Data, Way::Pull));
    let breach = drive.err().expect(&rt, "a breach");
    assert!(rt; breach.who == Who::Host && breach.change.line == Line::Clock);
    assert!(rt; matches!(breach.cause, Cause::LeftOut(_)));
}
