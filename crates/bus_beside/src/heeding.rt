//! What a drive heeds of the hosts' lines.

ghost use Rattle.std.specs.Prelude.{◌≡◌, true, false};
ghost use Rattle.cbm_session.specs.Loosely.{HearsAlike, CallsAlike, AwaitsAlike, EarHeeds, MouthHeeds, HeedsAlike, EarIgnoresClock, EarIgnoresData, MouthIgnoresClock, MouthIgnoresData, Ignores, MayStray};

use cbm_iec::{Ear, Line, Lines, Mouth, Pace, Side, Way};

/// The same CLOCK, and while it is free the same DATA.
fn hears_alike(host: Lines, tidy: Lines) -> bool
    ensures { result ≡ true → HearsAlike host tidy }
{
    host.clock_low == tidy.clock_low && (host.clock_low || host.data_low == tidy.data_low)
}

/// The same CLOCK and DATA.
fn are_alike(host: Lines, tidy: Lines) -> bool
    ensures { result ≡ true → (host.clock_low ≡ tidy.clock_low) × (host.data_low ≡ tidy.data_low) }
{
    host.clock_low == tidy.clock_low && host.data_low == tidy.data_low
}

/// The host hasn't pulled CLOCK, the tidy one has, and no other drive holds it.
fn is_to_pull(clocks: u64, host: Lines, tidy: Lines) -> bool
    ensures { result ≡ true → (clocks ≡ 0) × (host.clock_low ≡ false) × (tidy.clock_low ≡ true) }
{
    clocks == 0 && !host.clock_low && tidy.clock_low
}

/// After ATN's pull.
fn calls_alike(pace: Pace, clocks: u64, host: Lines, tidy: Lines) -> bool
    ensures { result ≡ true → CallsAlike pace clocks host tidy }
{
    host.clock_low == tidy.clock_low || (pace == Pace::Kernal && is_to_pull(clocks, host, tidy))
}

/// Where CLOCK's pull after ATN's is waited for.
fn awaits_alike(clocks: u64, host: Lines, tidy: Lines, side: Side) -> bool
    ensures { result ≡ true → AwaitsAlike clocks host tidy side }
{
    match side {
        Side::Hearing(Ear::Await) => host.clock_low == tidy.clock_low,
        _ => is_to_pull(clocks, host, tidy),
    }
}

/// What a drive heeds that hears is alike.
fn ear_heeds(pace: Pace, clocks: u64, host: Lines, tidy: Lines, ear: Ear, side: Side) -> bool
    ensures { result ≡ true → EarHeeds pace clocks host tidy ear side }
{
    match ear {
        Ear::Idle | Ear::Leaving(_) => true,
        Ear::Starting(_) => calls_alike(pace, clocks, host, tidy),
        Ear::Await => awaits_alike(clocks, host, tidy, side),
        _ => hears_alike(host, tidy),
    }
}

/// What a drive heeds that talks is alike.
fn mouth_heeds(host: Lines, tidy: Lines, mouth: Mouth) -> bool
    ensures { result ≡ true → MouthHeeds host tidy mouth }
{
    match mouth {
        Mouth::Turned | Mouth::Answering(_) => are_alike(host, tidy),
        Mouth::Mute(_) | Mouth::Ending(_) | Mouth::Over => true,
        _ => host.data_low == tidy.data_low,
    }
}

/// What a drive heeds is alike.
pub(crate) fn heeds_alike(
    pace: Pace,
    clocks: u64,
    host: Lines,
    tidy: Lines,
    side: Side,
    tidy_side: Side,
) -> bool
    ensures { result ≡ true → HeedsAlike pace clocks host tidy side tidy_side }
{
    match side {
        Side::Hearing(ear) => ear_heeds(pace, clocks, host, tidy, ear, tidy_side),
        Side::Speaking(mouth) => mouth_heeds(host, tidy, mouth),
    }
}

/// A drive that hears ignores a change of CLOCK.
fn ear_ignores_clock(ear: Ear) -> bool
    ensures { result ≡ true → EarIgnoresClock ear }
{
    match ear {
        Ear::Idle | Ear::Leaving(_) | Ear::Starting(_) => true,
        _ => false,
    }
}

/// A drive that hears ignores a change of DATA.
fn ear_ignores_data(clock_low: bool, ear: Ear) -> bool
    ensures { result ≡ true → EarIgnoresData clock_low ear }
{
    match ear {
        Ear::Idle | Ear::Leaving(_) | Ear::Starting(_) | Ear::Await => true,
        _ => clock_low,
    }
}

/// A drive that talks ignores a change of CLOCK.
fn mouth_ignores_clock(mouth: Mouth) -> bool
    ensures { result ≡ true → MouthIgnoresClock mouth }
{
    match mouth {
        Mouth::Turned | Mouth::Answering(_) => false,
        _ => true,
    }
}

/// A drive that talks ignores a change of DATA.
fn mouth_ignores_data(mouth: Mouth) -> bool
    ensures { result ≡ true → MouthIgnoresData mouth }
{
    match mouth {
        Mouth::Mute(_) | Mouth::Ending(_) | Mouth::Over => true,
        _ => false,
    }
}

/// A drive ignores a change of a line by a host that holds CLOCK or not.
pub(crate) fn ignores(line: Line, clock_low: bool, side: Side) -> bool
    ensures { result ≡ true → Ignores line clock_low side }
{
    match (line, side) {
        (Line::Atn, _) => false,
        (Line::Clock, Side::Hearing(ear)) => ear_ignores_clock(ear),
        (Line::Clock, Side::Speaking(mouth)) => mouth_ignores_clock(mouth),
        (Line::Data, Side::Hearing(ear)) => ear_ignores_data(clock_low, ear),
        (Line::Data, Side::Speaking(mouth)) => mouth_ignores_data(mouth),
    }
}

/// The host may make a change alone.
pub(crate) fn may_stray(line: Line, way: Way, clock_low: bool, side: Side, tidy: Side) -> bool
    ensures { result ≡ true → MayStray line way clock_low side tidy }
{
    match (line, way, side) {
        (Line::Clock, Way::Pull, Side::Hearing(Ear::Await)) => {
            matches!(tidy, Side::Hearing(Ear::Holding))
        }
        _ => ignores(line, clock_low, side),
    }
}
