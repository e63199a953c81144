//! A byte of the host on the wires.

ghost use Rattle.std.specs.Prelude.{◌≡◌, ◌^◌, ◌<◌};
ghost use Rattle.cbm_host.specs.Sending.{frame_change, frame_made, frame_seen, bits_to_send, starts_low, toggle, toggled, after_bit, next_bit};

use crate::waits::{ANSWER, PHASE};
use cbm_iec::{Change, Line, Way};

/// The bits of a byte that are still to be sent.
#[derive(Clone, Copy, Drop)]
pub(crate) struct Bits {
    /// These bits, the next one lowest.
    pub(crate) left: u8,
    /// How many they are.
    pub(crate) count: u8,
    /// Whether the host holds DATA.
    pub(crate) low: bool,
}

/// What the host does next in a frame, or waits for.
#[derive(Clone, Copy, Drop)]
pub(crate) enum Frame {
    /// CLOCK is freed then: the host is ready to send a byte, with EOI or without.
    Readying { at: u64, byte: u8, eoi: bool },
    /// Who hears is to free DATA.
    Ready { byte: u8, eoi: bool },
    /// EOI: who hears is to pull DATA.
    EoiSent(u8),
    /// EOI: who hears is to free DATA again.
    EoiHeard(u8),
    /// CLOCK is pulled then, and the bits begin.
    Starting { at: u64, byte: u8 },
    /// DATA is changed then, for the next bit.
    Setting { at: u64, bits: Bits },
    /// CLOCK is freed then, and the bit counts.
    Showing { at: u64, bits: Bits },
    /// CLOCK is pulled then, and the bit is over.
    Hiding { at: u64, bits: Bits },
    /// DATA is freed then, after the eighth bit.
    Clearing(u64),
    /// Who hears is to pull DATA: the accept.
    Sent,
}

impl Frame {
    /// The change of the host that comes next, if it waits for nobody.
    #[inline(always)]
    pub(crate) fn change(&self) -> Option<Change>
        ensures { result ≡ frame_change self.now }
    {
        let (moment, line, way) = match *self {
            Frame::Readying { at, .. } | Frame::Showing { at, .. } => (at, Line::Clock, Way::Free),
            Frame::Starting { at, .. } | Frame::Hiding { at, .. } => (at, Line::Clock, Way::Pull),
            Frame::Setting { at, bits } => (at, Line::Data, bits.toggle()),
            Frame::Clearing(at) => (at, Line::Data, Way::Free),
            Frame::Ready { .. } | Frame::EoiSent(_) | Frame::EoiHeard(_) | Frame::Sent =>
                return None,
        };
        Some(Change { moment, line, way })
    }

    /// That change was made; while bits are sent it writes only what changes.
    #[inline(always)]
    pub(crate) fn make(&mut self, moment: u64)
        requires { moment < 2 ^ 60 }
        ensures { self.new ≡ frame_made moment self.old }
    {
        match *self {
            Frame::Setting { bits, .. } => {
                *self = Frame::Showing {
                    at: moment + PHASE,
                    bits: bits.toggled(),
                };
            }
            Frame::Showing { bits, .. } => {
                *self = Frame::Hiding {
                    at: moment + PHASE,
                    bits,
                };
            }
            Frame::Hiding { bits, .. } => *self = bits.afterwards().next(moment),
            Frame::Readying { byte, eoi, .. } => *self = Frame::Ready { byte, eoi },
            Frame::Starting { byte, .. } => *self = Bits::of(byte).next(moment),
            Frame::Clearing(_) => *self = Frame::Sent,
            Frame::Ready { .. } | Frame::EoiSent(_) | Frame::EoiHeard(_) | Frame::Sent => {}
        }
    }

    /// After a change of who hears. The accept is the caller's.
    pub(crate) fn seen(self, change: Change) -> Frame
        requires { change.moment < 2 ^ 60 }
        ensures { result ≡ frame_seen change self }
    {
        match (self, change.line, change.way) {
            (Frame::Ready { byte, eoi: true }, Line::Data, Way::Free) => Frame::EoiSent(byte),
            (Frame::EoiSent(byte), Line::Data, Way::Pull) => Frame::EoiHeard(byte),
            (Frame::Ready { byte, eoi: false } | Frame::EoiHeard(byte), Line::Data, Way::Free) => {
                Frame::Starting {
                    at: change.moment + ANSWER,
                    byte,
                }
            }
            (other, _, _) => other,
        }
    }
}

impl Bits {
    /// The bits of a byte, DATA free before them.
    fn of(byte: u8) -> Bits
        ensures { result ≡ bits_to_send byte }
    {
        Bits {
            left: byte,
            count: 8,
            low: false,
        }
    }

    /// Whether DATA is held for the next bit: 1 is DATA free.
    fn is_low(self) -> bool
        ensures { result ≡ starts_low self.left }
    {
        self.left % 2 == 0
    }

    /// The change of DATA if the next bit wants one.
    fn toggle(self) -> Way
        ensures { result ≡ toggle self }
    {
        if self.low { Way::Free } else { Way::Pull }
    }

    /// DATA changed.
    fn toggled(self) -> Bits
        ensures { result ≡ toggled self }
    {
        Bits {
            low: !self.low,
            ..self
        }
    }

    /// The bits after the next one.
    fn afterwards(self) -> Bits
        ensures { result ≡ after_bit self }
    {
        Bits {
            left: self.left / 2,
            count: self.count.saturating_sub(1),
            low: self.low,
        }
    }

    /// What comes after a pull of CLOCK: the next bit, or the end of the frame.
    fn next(self, moment: u64) -> Frame
        requires { moment < 2 ^ 60 }
        ensures { result ≡ next_bit moment self }
    {
        if self.count == 0 {
            return if self.low {
                Frame::Clearing(moment)
            } else {
                Frame::Sent
            };
        }
        if self.low == self.is_low() {
            Frame::Showing {
                at: moment + PHASE,
                bits: self,
            }
        } else {
            Frame::Setting {
                at: moment,
                bits: self,
            }
        }
    }
}
