//! The computer at the cable: it stores to its port, and reads it. All cycles are counted from one access of the port, or of a
//! timer, to the next.

use crate::tests::cable::{Cable, Drives};
use crate::tests::cycles::{Computer, Cycles};
use bus_beside::Unkept;
use cbm_drive::Line::*;
use cbm_drive::Way::*;
use cbm_drive::{Change, Line, Lines, Way};

/// What the KERNAL waits for without an end.
#[derive(Clone, Copy, Drop)]
pub enum Wait {
    /// ISOUR: DATA free, as all who listen are ready.
    Ready,
    /// ISOUR, before a last byte: DATA pulled, as a listener noted EOI.
    Pulse,
    /// TKATN: CLOCK pulled, by who talks from now on.
    Turn,
    /// ACPTR: CLOCK free, as the talker offers a byte.
    Offer,
    /// ACPTR: CLOCK free, as a bit may be read.
    Bit,
    /// ACPTR: CLOCK pulled, at the end of a bit.
    BitEnd,
}

/// The status: no byte was accepted, or sent, in time.
pub const TIMEOUT: u8 = 3;

/// The status: no byte came.
pub const READ_TIMEOUT: u8 = 2;

/// The status: this was the last byte.
pub const EOI: u8 = 0x40;

/// The status: device not present.
pub const ABSENT: u8 = 0x80;

/// From CMP of the port, which saw what LDA had, to LDA again: BNE, ASL, RTS, a branch taken, JSR. So a look comes each 27.
const LOOK_AGAIN: u64 = 23;

/// The same in the loops of ACPTR for bits, which have no call: a look comes each 15.
const BIT_AGAIN: u64 = 11;

/// From LDA of the port to CMP of it.
const COMPARED: u64 = 4;

/// From CMP, if it saw something else than LDA, to LDA again.
const UNLIKE: u64 = 7;

/// So many looks in vain, about a fifth of a second, and the host waits for ever.
const LOOKS: u32 = 8_000;

/// A call that returns and the next one: RTS, JSR.
const RETURN_AND_CALL: u64 = 12;

/// How long an interrupt takes, about.
const INTERRUPT: u64 = 1000;

/// From a timer's flag to LDA of the port: AND, BNE, JSR, LDA.
const FLAG_TO_LOOK: u64 = 14;

/// From CMP of the port to the timer's flag again: BNE, ASL, RTS, a branch taken, LDA. So a look comes each 35.
const LOOK_TO_FLAG: u64 = 17;

/// The computer, and what its KERNAL keeps.
#[derive(Drop)]
pub struct Host {
    cable: Cable,
    pub cycles: Cycles,
    /// The low byte of the timer, which the KERNAL doesn't set: $FF as at reset, or 0, by the seed.
    timer_low: u64,
    /// ST.
    pub status: u8,
    /// All errors that ST had so far.
    pub errors: u8,
    /// The byte that waits until it is known whether it is the last.
    pub buffered: Option<u8>,
    /// What it waits for in vain, for ever.
    pub stuck: Option<Wait>,
}

/// Whether a line is pulled, or free.
fn is_so(lines: Lines, line: Line, way: Way) -> bool {
    let low = match line {
        Atn => lines.atn_low,
        Clock => lines.clock_low,
        Data => lines.data_low,
    };
    low == (way == Pull)
}

/// The line that is waited for, which way, and from a look in vain to the next.
fn terms(wait: Wait) -> (Line, Way, u64) {
    match wait {
        Wait::Ready => (Data, Free, LOOK_AGAIN),
        Wait::Pulse => (Data, Pull, LOOK_AGAIN),
        Wait::Turn => (Clock, Pull, LOOK_AGAIN),
        Wait::Offer => (Clock, Free, LOOK_AGAIN),
        Wait::Bit => (Clock, Free, BIT_AGAIN),
        Wait::BitEnd => (Clock, Pull, BIT_AGAIN),
    }
}

impl Host {
    /// As it is switched on: IOINIT pulls CLOCK, and leaves it so.
    pub fn new(drives: Drives, computer: Computer, seed: u32) -> Host {
        let mut host = Host {
            cable: Cable::new(drives),
            cycles: Cycles::new(computer, seed),
            timer_low: if seed / 2 % 2 == 1 { 0xff } else { 0 },
            status: 0,
            errors: 0,
            buffered: None,
            stuck: None,
        };
        host.store(1000, Clock, Pull);
        host.cycles.pass(1000);
        host
    }

    /// A store to the port: a line is pulled or freed. A host that waits for ever does nothing more.
    pub fn store(&mut self, cycles: u64, line: Line, way: Way) {
        self.cycles.pass(cycles);
        let moment = self.cycles.moment();
        if self.stuck.is_none() {
            self.cable.change(Change { moment, line, way });
        }
    }

    /// A read of the port.
    fn look(&mut self, cycles: u64) -> Lines {
        self.cycles.pass(cycles);
        let moment = self.cycles.moment();
        self.cable.seen(moment)
    }

    /// LDA and CMP of the port, until both see the same; so many cycles to the first LDA.
    pub fn read(&mut self, cycles: u64) -> Lines {
        let mut seen = self.look(cycles);
        for _ in 0..LOOKS {
            let again = self.look(COMPARED);
            if again == seen {
                return seen;
            }
            seen = self.look(UNLIKE);
        }
        seen
    }

    /// Reads the port until what is waited for is there, and answers what it saw then; so many cycles to the first look.
    pub fn wait(&mut self, cycles: u64, wait: Wait) -> Lines {
        let (line, way, again) = terms(wait);
        let mut seen = self.read(cycles);
        for _ in 0..LOOKS {
            if is_so(seen, line, way) || self.stuck.is_some() {
                return seen;
            }
            seen = self.read(again);
        }
        self.stuck = Some(wait);
        seen
    }

    /// When a timer ends that starts now with this high byte.
    pub fn timer_end(&self, high: u64) -> u64 {
        self.cycles.passed.wrapping_add(high | self.timer_low)
    }

    /// Whether a line is pulled before a timer ends; so many cycles to the first look at the timer's flag.
    pub fn is_pulled_before(&mut self, cycles: u64, end: u64, line: Line) -> bool {
        self.cycles.pass(cycles);
        for _ in 0..LOOKS {
            if self.cycles.passed >= end {
                return false;
            }
            if is_so(self.read(FLAG_TO_LOOK), line, Pull) {
                return true;
            }
            self.cycles.pass(LOOK_TO_FLAG);
        }
        false
    }

    /// What a program does between two calls of the KERNAL: nothing, or by chance some work or an interrupt.
    pub fn works(&mut self) {
        self.cycles.pass(RETURN_AND_CALL);
        match self.cycles.chance() {
            0..64 => {}
            64..240 => {
                let work = self.cycles.chance();
                self.cycles.pass(work);
            }
            _ => self.cycles.pass(INTERRUPT),
        }
    }

    /// Whether it kept the bus's timing loosely so far; else why that isn't known.
    pub fn keeps_loosely(&mut self) -> Result<(), Unkept> {
        self.cable.keeps_loosely()
    }

    /// Whether it waits for nothing in vain, and its status is this one.
    pub fn is_well(&self, status: u8) -> bool {
        self.stuck.is_none() && self.status == status
    }
}
