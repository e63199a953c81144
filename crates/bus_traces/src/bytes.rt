//! The bytes that the wires show.

use crate::cable::Cable;
use cbm_iec::{Event, Line};

/// A byte that was sent.
#[derive(Clone, Copy, Debug, PartialEq, Eq, Drop)]
pub struct Sent {
    /// The byte.
    pub byte: u8,
    /// Whether it was sent in attention.
    pub is_attention: bool,
    /// Whether EOI came before it.
    pub is_last: bool,
}

/// What the wires wait for.
#[derive(Clone, Copy, Debug, PartialEq, Eq, Drop)]
enum Step {
    /// The talker frees CLOCK while DATA is pulled.
    Rest,
    /// The listeners free DATA.
    Offered,
    /// The talker pulls CLOCK; DATA pulled before that is EOI.
    Ready { is_last: bool },
    /// Bits, by so many ends of one so far.
    Bits { is_last: bool, count: u8, byte: u8 },
}

/// A plain decoder of the wires: it knows no times, and takes a byte where CLOCK ends its eighth bit.
#[derive(Clone, Copy, Debug, PartialEq, Eq, Drop)]
pub struct Decoder {
    cable: Cable,
    step: Step,
    is_attention: bool,
}

impl Decoder {
    /// All lines are free.
    pub fn new() -> Decoder {
        Decoder {
            cable: Cable::free(),
            step: Step::Rest,
            is_attention: false,
        }
    }

    /// Whether a wire is pulled.
    pub fn is_low(&self, line: Line) -> bool {
        self.cable.is_low(line)
    }

    /// A party changes a line; the byte that ends by that, if one does.
    pub fn event(&mut self, event: Event) -> Option<Sent> {
        let line = event.change.line;
        let was = self.cable.is_low(line);
        self.cable.change(event);
        let is = self.cable.is_low(line);
        if was == is {
            return None;
        }
        match line {
            Line::Atn => {
                if is {
                    self.step = Step::Rest;
                }
                None
            }
            Line::Clock => self.clock(is),
            Line::Data => {
                self.data(is);
                None
            }
        }
    }

    /// CLOCK was pulled or freed on the wire.
    fn clock(&mut self, is_low: bool) -> Option<Sent> {
        let is_data_low = self.cable.is_low(Line::Data);
        match self.step {
            Step::Rest if !is_low && is_data_low => self.step = Step::Offered,
            Step::Offered => self.step = Step::Rest,
            Step::Ready { is_last } => {
                self.step = Step::Bits {
                    is_last,
                    count: 0,
                    byte: 0,
                };
            }
            Step::Bits {
                is_last,
                count,
                byte,
            } => return self.bit(is_last, count, byte, is_low),
            Step::Rest => {}
        }
        None
    }

    /// CLOCK frees a bit, the lowest first, or ends it.
    fn bit(&mut self, is_last: bool, count: u8, byte: u8, is_low: bool) -> Option<Sent> {
        if !is_low {
            let high: u8 = if self.cable.is_low(Line::Data) {
                0
            } else {
                128
            };
            self.step = Step::Bits {
                is_last,
                count,
                byte: byte / 2 | high,
            };
            return None;
        }
        if count >= 7 {
            self.step = Step::Rest;
            return Some(Sent {
                byte,
                is_attention: self.is_attention,
                is_last,
            });
        }
        self.step = Step::Bits {
            is_last,
            count: count + 1,
            byte,
        };
        None
    }

    /// DATA was pulled or freed on the wire.
    fn data(&mut self, is_low: bool) {
        match self.step {
            Step::Offered if !is_low => {
                self.is_attention = self.cable.is_low(Line::Atn);
                self.step = Step::Ready { is_last: false };
            }
            Step::Ready { .. } if is_low => self.step = Step::Ready { is_last: true },
            _ => {}
        }
    }
}
