//! ACPTR: bytes in.

use crate::tests::host::{EOI, Host, READ_TIMEOUT, Wait};
use cbm_drive::Line::*;
use cbm_drive::Way::*;

/// From the end of TKSA, or of the byte before, by the call of ACPTR, to CLOCK's release: SEI, LDA, STA, CLKHI.
const CALLED: u64 = 37;

/// From CLOCK's release to the look whether a byte is offered: RTS, JSR, LDA.
const CLOCK_TO_LOOK: u64 = 16;

/// From that look to the timer's start: BNE, ASL, RTS, BPL, LDA, STA, LDA, STA.
const LOOK_TO_TIMER: u64 = 24;

/// The timer for the first bit, 1 in its high byte.
const FIRST_BIT_TIMER: u64 = 0x0100;

/// From the timer's start to DATA's release: JSR, LDA, AND, STA.
const TIMER_TO_DATA: u64 = 16;

/// From DATA's release to the second look at the timer's flag: RTS, LDA, LDA.
const DATA_TO_FLAG: u64 = 14;

/// From the flag at the timer's end to DATA's pull, the answer to EOI: AND, BNE, LDA, BEQ, DATALO.
const FLAG_TO_PULSE: u64 = 27;

/// From DATA's pull to CLOCK's release, which is no change: RTS, CLKHI.
const PULSE_TO_CLOCK: u64 = 22;

/// From there to the timer's next start: RTS, LDA, UDST, INC, BNE, LDA, STA, LDA, STA. So DATA is freed 84 after its pull.
const CLOCK_TO_TIMER: u64 = 46;

/// From the look that saw CLOCK pulled to the look for the first bit: BNE, ASL, RTS, BMI, BPL, LDA, STA, LDA.
const LOOK_TO_BITS: u64 = 24;

/// From the look that reads a bit to the look for its end: BNE, ASL, BPL, ROR, LDA.
const BIT_TO_END: u64 = 15;

/// From the look that saw a bit's end to the look for the next bit: BNE, ASL, BMI, DEC, BNE, LDA.
const END_TO_BIT: u64 = 18;

/// From the look that saw the last bit's end to DATA's pull, the accept: BNE, ASL, BMI, DEC, BNE, DATALO.
const END_TO_ACCEPT: u64 = 29;

/// After a byte with EOI from the accept to CLOCK's release: RTS, BIT, BVC, JSR, a loop of ten, CLKHI.
const ACCEPT_TO_CLOCK: u64 = 88;

/// From there to DATA's release: RTS, JMP, LDA, AND, STA. So it comes 107 after the accept.
const CLOCK_TO_DATA: u64 = 19;

impl Host {
    /// ACPTR: waits until CLOCK is high, frees DATA, and takes eight bits; DATA pulled is the accept. After a byte with EOI CLOCK
    /// and DATA are freed. The status tells EOI, or that no byte came; then all lines are freed.
    pub fn acptr(&mut self) -> u8 {
        self.works();
        self.store(CALLED, Clock, Free);
        self.wait(CLOCK_TO_LOOK, Wait::Offer);
        if !self.begins() {
            self.fail(READ_TIMEOUT);
            return 0;
        }
        let byte = self.take_bits();
        self.store(END_TO_ACCEPT, Data, Pull);
        if self.status & EOI != 0 {
            self.store(ACCEPT_TO_CLOCK, Clock, Free);
            self.store(CLOCK_TO_DATA, Data, Free);
        }
        byte
    }

    /// Whether a first bit comes. The timer's end is EOI, which is answered by a pulse of DATA; its second end is an error.
    fn begins(&mut self) -> bool {
        if self.is_begun_in_time(LOOK_TO_TIMER) {
            return true;
        }
        self.store(FLAG_TO_PULSE, Data, Pull);
        self.store(PULSE_TO_CLOCK, Clock, Free);
        self.status |= EOI;
        self.is_begun_in_time(CLOCK_TO_TIMER)
    }

    /// Starts the timer, frees DATA, and looks whether CLOCK is pulled before the timer ends.
    fn is_begun_in_time(&mut self, cycles: u64) -> bool {
        self.cycles.pass(cycles);
        let end = self.timer_end(FIRST_BIT_TIMER);
        self.store(TIMER_TO_DATA, Data, Free);
        self.is_pulled_before(DATA_TO_FLAG, end, Clock)
    }

    /// Eight bits, the lowest first: DATA if CLOCK is high, and then CLOCK low.
    fn take_bits(&mut self) -> u8 {
        let mut byte = 0u8;
        let mut to_look = LOOK_TO_BITS;
        for _ in 0..8u8 {
            let seen = self.wait(to_look, Wait::Bit);
            byte = byte / 2 | if seen.data_low { 0 } else { 128 };
            self.wait(BIT_TO_END, Wait::BitEnd);
            to_look = END_TO_BIT;
        }
        byte
    }
}
