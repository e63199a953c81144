//! A byte of the talker on the wires.

ghost use Rattle.std.specs.Prelude.{◌≡◌, ◌^◌, ◌<◌, not};
ghost use Rattle.cbm_drive.specs.Halves.{half_lines};
ghost use Rattle.cbm_host.specs.Taking.{nothing_came, came_bit, take_change, take_made, take_seen, take_heard};
ghost use Rattle.cbm_host.specs.declared.take.Take.TheVariants.{Gathering};

use crate::waits::{ANSWER, LAST_PULSE, LAST_WAIT};
use cbm_drive::Half;
use cbm_iec::{Change, Line, Way};

/// The bits of a byte that came so far.
#[derive(Clone, Copy, Drop)]
pub(crate) struct Came {
    /// How many.
    pub(crate) count: u8,
    /// The byte with them at its top.
    pub(crate) byte: u8,
    /// Whether the talker holds DATA.
    pub(crate) low: bool,
    /// Whether EOI came before them.
    pub(crate) last: bool,
}

/// What the host does next for a byte of the talker, or waits for.
#[derive(Clone, Copy, Drop)]
pub(crate) enum Take {
    /// The talker is to free CLOCK: it offers a byte.
    Awaiting,
    /// DATA is freed then.
    Freeing(u64),
    /// The talker is to pull CLOCK for its first bit; if it hasn't by then the byte is the last.
    Listening(u64),
    /// EOI: DATA is pulled then.
    Marking(u64),
    /// EOI: DATA is freed again then.
    Unmarking(u64),
    /// Bits come.
    Gathering(Came),
    /// DATA is pulled then: the byte is accepted, with whether it is the last.
    Accepting { at: u64, byte: u8, last: bool },
}

impl Came {
    /// Before the first bit.
    fn nothing(last: bool) -> Came
        ensures { result ≡ nothing_came last }
    {
        Came {
            count: 0,
            byte: 0,
            low: false,
            last,
        }
    }

    /// CLOCK was freed: a bit counts, 1 is DATA free.
    fn bit(self) -> Came
        requires { self.count < 8 }
        ensures { result ≡ came_bit self }
    {
        Came {
            count: self.count + 1,
            byte: self.byte / 2 + if self.low { 0 } else { 128 },
            ..self
        }
    }

    /// Half of a bit counts in place: CLOCK is freed, and the bit counts, or pulled; then DATA may change for the next one.
    #[inline(always)]
    pub(crate) fn half(&mut self, half: Half)
        requires count { self.old.count < 8 }
        requires clock { half.now.clock_low ≡ not half.was.clock_low }
        ensures { Gathering self.new ≡ take_heard (half_lines half) (Gathering self.old) }
    {
        if half.was.clock_low {
            *self = self.bit();
        }
        if half.was.data_low != half.now.data_low {
            self.low = half.now.data_low;
        }
    }
}

impl Take {
    /// The change of the host that comes next, if it waits for nobody.
    #[inline(always)]
    pub(crate) fn change(&self) -> Option<Change>
        ensures { result ≡ take_change self.now }
    {
        let (moment, way) = match *self {
            Take::Freeing(at) | Take::Unmarking(at) => (at, Way::Free),
            Take::Marking(at) | Take::Accepting { at, .. } => (at, Way::Pull),
            Take::Awaiting | Take::Listening(_) | Take::Gathering(_) => return None,
        };
        Some(Change {
            moment,
            line: Line::Data,
            way,
        })
    }

    /// After that change. What comes of the accept is the caller's.
    pub(crate) fn made(self, moment: u64) -> Take
        requires { moment < 2 ^ 60 }
        ensures { result ≡ take_made moment self }
    {
        match self {
            Take::Freeing(_) => Take::Listening(moment + LAST_WAIT),
            Take::Marking(_) => Take::Unmarking(moment + LAST_PULSE),
            Take::Unmarking(_) => Take::Gathering(Came::nothing(true)),
            other => other,
        }
    }

    /// After a change of the talker.
    pub(crate) fn seen(self, change: Change) -> Take
        requires { change.moment < 2 ^ 60 }
        ensures { result ≡ take_seen change self }
    {
        match (self, change.line, change.way) {
            (Take::Awaiting, Line::Clock, Way::Free) => Take::Freeing(change.moment + ANSWER),
            (Take::Listening(_), Line::Clock, Way::Pull) => Take::Gathering(Came::nothing(false)),
            (Take::Gathering(came), Line::Data, way) => Take::Gathering(Came {
                low: way == Way::Pull,
                ..came
            }),
            (Take::Gathering(came), Line::Clock, Way::Free) if came.count < 8 => {
                Take::Gathering(came.bit())
            }
            (
                Take::Gathering(
                    Came {
                        count: 8,
                        byte,
                        last,
                        ..
                    },
                ),
                Line::Clock,
                Way::Pull,
            ) => {
                Take::Accepting {
                    at: change.moment + ANSWER,
                    byte,
                    last,
                }
            }
            (other, _, _) => other,
        }
    }
}
