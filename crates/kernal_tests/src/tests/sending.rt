//! CIOUT and ISOUR: bytes out.

use crate::tests::host::{ABSENT, Host, TIMEOUT, Wait};
use cbm_drive::Line::*;
use cbm_drive::Way::*;

/// From the end of the CIOUT before, by a call of CIOUT, to DATA's release: BIT, BMI, PHA, JSR, SEI, DATAHI.
const CALLED: u64 = 53;

/// From the end of the last CIOUT, by the call of UNLISTEN, to DATA's release for the byte that waits: LIST1, SEI, DATAHI.
const UNLISTENED: u64 = 67;

/// From DATA's release to the look whether a device is there: RTS, JSR, LDA.
const DATA_TO_LOOK: u64 = 16;

/// From that look to CLOCK's release: BNE, ASL, RTS, BCS, CLKHI.
const LOOK_TO_READY: u64 = 28;

/// From CLOCK's release to the look whether all are ready: RTS, BIT, BPL, JSR, LDA.
const READY_TO_LOOK: u64 = 22;

/// The same before a last byte, BPL not taken.
const LAST_TO_LOOK: u64 = 21;

/// From a look that saw what it waited for to the next wait's first: BNE, ASL, RTS, a branch, JSR, LDA.
const NEXT_LOOK: u64 = 22;

/// From the look that all are ready to CLOCK's pull: BNE, ASL, RTS, BCC, CLKLO.
const LOOK_TO_START: u64 = 28;

/// From CLOCK's first pull to the look before a bit: RTS, LDA, STA, LDA.
const START_TO_LOOK: u64 = 15;

/// From CLOCK's pull after a bit to the look before the next one: DEC, BNE, LDA.
const BIT_TO_LOOK: u64 = 12;

/// From that look to DATA's pull for a 0: BNE, ASL, BCC, ROR, BCS, DATALO.
const LOOK_TO_ZERO: u64 = 29;

/// From that look to DATA's release for a 1: the same with BCS taken.
const LOOK_TO_ONE: u64 = 30;

/// From DATA's pull to CLOCK's release: RTS, BNE, CLKHI.
const ZERO_TO_CLOCK: u64 = 25;

/// From DATA's release to CLOCK's: RTS, CLKHI.
const ONE_TO_CLOCK: u64 = 22;

/// From CLOCK's release with a bit to its pull: RTS, four NOPs, LDA, AND, ORA, STA.
const BIT: u64 = 26;

/// From CLOCK's last pull to the start of the timer for the accept.
const BITS_TO_TIMER: u64 = 19;

/// The timer for the accept, 4 in its high byte.
const ACCEPT_TIMER: u64 = 0x0400;

/// From the timer's start to the first look at its flag: two reads of it.
const TIMER_TO_FLAG: u64 = 8;

impl Host {
    /// CIOUT: a byte for who listens. It waits, and the one that waited is sent.
    pub fn ciout(&mut self, byte: u8) {
        self.works();
        if let Some(waiting) = self.buffered {
            self.send(CALLED, waiting, false);
        }
        self.buffered = Some(byte);
    }

    /// The byte that waited is sent as the last one.
    pub fn send_last(&mut self, byte: u8) {
        self.send(UNLISTENED, byte, true);
    }

    /// ISOUR: DATA freed; a device is there if DATA is low. CLOCK freed, and when all are ready pulled for the bits; then DATA
    /// is to be pulled within a millisecond.
    pub fn send(&mut self, cycles: u64, byte: u8, last: bool) {
        self.store(cycles, Data, Free);
        if !self.read(DATA_TO_LOOK).data_low {
            self.fail(ABSENT);
            return;
        }
        self.store(LOOK_TO_READY, Clock, Free);
        self.become_ready(last);
        self.store(LOOK_TO_START, Clock, Pull);
        if !self.send_bits(byte) || !self.is_accepted() {
            self.fail(TIMEOUT);
        }
    }

    /// Waits until DATA is high; before a last byte until it is high, low for EOI, and high again.
    fn become_ready(&mut self, last: bool) {
        if last {
            self.wait(LAST_TO_LOOK, Wait::Ready);
            self.wait(NEXT_LOOK, Wait::Pulse);
            self.wait(NEXT_LOOK, Wait::Ready);
        } else {
            self.wait(READY_TO_LOOK, Wait::Ready);
        }
    }

    /// Eight bits, the lowest first: DATA by the bit, CLOCK freed, CLOCK pulled and DATA freed by one store. Before each DATA has
    /// to be high, or somebody gave up.
    fn send_bits(&mut self, byte: u8) -> bool {
        let mut left = byte;
        let mut to_look = START_TO_LOOK;
        for _ in 0..8u8 {
            if self.read(to_look).data_low {
                return false;
            }
            self.send_bit(left % 2 == 1);
            left /= 2;
            to_look = BIT_TO_LOOK;
        }
        true
    }

    /// One bit, from the look before it to CLOCK's pull after it.
    fn send_bit(&mut self, one: bool) {
        if one {
            self.store(LOOK_TO_ONE, Data, Free);
            self.store(ONE_TO_CLOCK, Clock, Free);
        } else {
            self.store(LOOK_TO_ZERO, Data, Pull);
            self.store(ZERO_TO_CLOCK, Clock, Free);
        }
        self.store(BIT, Clock, Pull);
        self.store(0, Data, Free);
    }

    /// Whether DATA is pulled before the timer ends.
    fn is_accepted(&mut self) -> bool {
        self.cycles.pass(BITS_TO_TIMER);
        let end = self.timer_end(ACCEPT_TIMER);
        self.is_pulled_before(TIMER_TO_FLAG, end, Data)
    }
}
