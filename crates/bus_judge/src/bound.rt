//! The bounds of the host's timing.

use std::fmt;

/// What a bound of the host's timing is of.
#[derive(Clone, Copy, Debug, PartialEq, Eq, Drop)]
pub enum Bound {
    /// Two changes of the host at one moment.
    Together,
    /// ATN's pull, after its release and after the last accept.
    Attention,
    /// CLOCK's release for a byte.
    Ready,
    /// CLOCK's first pull of a frame without EOI.
    Start,
    /// CLOCK's first pull of a frame with EOI.
    StartAfterPulse,
    /// CLOCK's release with a bit.
    Settled,
    /// CLOCK's pull after a bit.
    Shown,
    /// ATN's release.
    Release,
    /// CLOCK's release for a turnaround, or for nobody.
    Turn,
    /// DATA freed if there is nothing to say.
    Silence,
    /// DATA freed for a byte of the talker.
    Take,
    /// DATA pulled, and freed again, for the last byte.
    Mark,
    Unmark,
    /// DATA pulled for the accept of a byte of the talker.
    Accept,
}

/// From which change a bound is counted.
#[derive(Clone, Copy, Debug, PartialEq, Eq, Drop)]
pub enum Since {
    /// ATN's pull, and its release.
    Pull,
    Release,
    /// The fastest drive's accept.
    Accept,
    /// T: DATA is free on the wire.
    Wire,
    /// The end of the listeners' pulse for EOI.
    Pulse,
    /// The host's changes of CLOCK and DATA in a bit.
    ClockPull,
    DataChange,
    ClockFree,
    /// The talker's answer, its offer of a byte, and the end of its eighth bit.
    Answer,
    Offer,
    EighthBit,
    /// The host's release of DATA, and its pull for the last byte.
    DataFree,
    DataPull,
    /// The last event.
    Event,
}

/// How many microseconds after it a change may come.
#[derive(Clone, Copy, Debug, PartialEq, Eq, Drop)]
pub enum Limit {
    Least(u64),
    Most(u64),
}

/// A bound that a change of the host breaks.
#[derive(Clone, Copy, Debug, PartialEq, Eq, Drop)]
pub struct Broken {
    /// What the bound is of.
    pub bound: Bound,
    /// From which change it is counted, and when that was, in microseconds.
    pub since: Since,
    pub reference: u64,
    /// When the change came.
    pub moment: u64,
    /// How many microseconds after the reference it may come.
    pub limit: Limit,
}

impl Broken {
    /// How many microseconds after the reference the change came; 0 if it came before.
    pub fn had(&self) -> u64 {
        self.moment.saturating_sub(self.reference)
    }

    /// By how many microseconds the bound is broken.
    pub fn by(&self) -> u64 {
        match self.limit {
            Limit::Least(least) => {
                self.reference
                    .saturating_add(least)
                    .saturating_sub(self.moment)
            }
            Limit::Most(most) => {
                self.moment
                    .saturating_sub(self.reference.saturating_add(most))
            }
        }
    }
}

/// The name of the change in words.
fn name_of(since: Since) -> &'static str {
    match since {
        Since::Pull => "ATN's pull",
        Since::Release => "ATN's release",
        Since::Accept => "the accept",
        Since::Wire => "T",
        Since::Pulse => "the pulse",
        Since::ClockPull => "CLOCK's pull",
        Since::DataChange => "DATA's change",
        Since::ClockFree => "CLOCK's release",
        Since::Answer => "the talker's release of DATA",
        Since::Offer => "the talker's release of CLOCK",
        Since::EighthBit => "the eighth bit",
        Since::DataFree => "DATA's release",
        Since::DataPull => "DATA's pull",
        Since::Event => "the last event",
    }
}

/// In words, as `214 after T, 199 at most`.
impl fmt::Display for Broken {
    fn fmt<W: fmt::Write>(&self, f: &mut fmt::Formatter<W>) -> fmt::Result {
        let name = name_of(self.since);
        let (had, before) = (self.had(), self.reference.saturating_sub(self.moment));
        if before > 0 {
            write!(f, "{before} before {name}")?;
        } else {
            write!(f, "{had} after {name}")?;
        }
        match self.limit {
            Limit::Least(least) => write!(f, ", {least} at least"),
            Limit::Most(0) => write!(f, ", together with it"),
            Limit::Most(most) => write!(f, ", {most} at most"),
        }
    }
}
