//! What broke a session: the party, the change that came or is missing, and the rule.

use crate::bound::Broken;
use cbm_iec::{Change, Line, Way, Who};
use std::fmt;

/// Why no session goes on.
#[derive(Clone, Copy, Debug, PartialEq, Eq, Drop)]
pub enum Cause {
    /// The change breaks a bound of the host's timing.
    Bound(Broken),
    /// The host left out the change, which was due by a bound.
    LeftOut(Broken),
    /// The reaction of a drive was due then, and didn't come.
    Missing,
    /// A drive made its change at another moment than that one, when it is due.
    Moved(u64),
    /// A drive made its change before the first of these moments, or after the other one.
    Within(u64, u64),
    /// The reaction of a drive was due from that moment up to then, and didn't come.
    Awaited(u64),
    /// No session has that change there.
    Unasked,
    /// The change comes before one that was already seen, at that moment.
    Backwards(u64),
    /// Its moment is too great: from 2^50 microseconds (35 years) on.
    Far,
}

/// What broke a session.
#[derive(Clone, Copy, Debug, PartialEq, Eq, Drop)]
pub struct Breach {
    /// The party that broke it.
    pub who: Who,
    /// The change that came or is missing, with its moment in microseconds.
    pub change: Change,
    /// Why.
    pub cause: Cause,
}

/// What is said of a trace.
#[derive(Clone, Copy, Debug, PartialEq, Eq, Drop)]
pub enum Verdict {
    /// It is a session so far.
    Session,
    /// The host broke it, or a drive did.
    Host(Breach),
    Drive(Breach),
}

impl Breach {
    /// The verdict of a breach.
    pub fn verdict(self) -> Verdict {
        match self.who {
            Who::Host => Verdict::Host(self),
            Who::Drive(_) => Verdict::Drive(self),
        }
    }
}

/// The word of a line.
pub fn line_name(line: Line) -> &'static str {
    match line {
        Line::Atn => "atn",
        Line::Clock => "clock",
        Line::Data => "data",
    }
}

/// The word of a change.
pub fn way_name(way: Way) -> &'static str {
    match way {
        Way::Pull => "pull",
        Way::Free => "free",
    }
}

/// In words, as `drive 8: the change was due`.
impl fmt::Display for Cause {
    fn fmt<W: fmt::Write>(&self, f: &mut fmt::Formatter<W>) -> fmt::Result {
        match self {
            Cause::Bound(broken) => write!(f, "{broken}"),
            Cause::LeftOut(broken) => write!(f, "left out, {broken}"),
            Cause::Missing => write!(f, "missing, was due then"),
            Cause::Moved(due) => write!(f, "due at {due}"),
            Cause::Within(first, last) => write!(f, "due at {first} to {last}"),
            Cause::Awaited(first) => write!(f, "missing, was due from {first} on"),
            Cause::Unasked => write!(f, "no session has it there"),
            Cause::Backwards(last) => write!(f, "comes before an event at {last}"),
            Cause::Far => write!(f, "the moment is too great"),
        }
    }
}

/// In words, as `5240 us host clock pull: 214 after T, 199 at most`.
impl fmt::Display for Breach {
    fn fmt<W: fmt::Write>(&self, f: &mut fmt::Formatter<W>) -> fmt::Result {
        let (moment, cause) = (self.change.moment, self.cause);
        let (line, way) = (line_name(self.change.line), way_name(self.change.way));
        match self.who {
            Who::Host => write!(f, "{moment} us host {line} {way}: {cause}"),
            Who::Drive(device) => write!(f, "{moment} us drive {device} {line} {way}: {cause}"),
        }
    }
}
