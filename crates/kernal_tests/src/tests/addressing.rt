//! TALK, LISTEN, SECOND, TKSA, UNTALK and UNLISTEN: bytes in attention.

use crate::tests::host::{Host, Wait};
use cbm_drive::Line::*;
use cbm_drive::Way::*;

/// From the end of what was before, by the call of TALK or LISTEN and the test for the other serial port, to DATA's release.
const CALLED: u64 = 62;

/// From the call of UNLISTEN to DATA's release, if no byte waits: so ATN may be pulled 75 after SECOND freed it.
const UNLISTENED: u64 = 42;

/// From the last look of the byte that waited to DATA's release: RTS, two shifts, PLA, STA, SEI, DATAHI.
const WAITED: u64 = 55;

/// From DATA's release to ATN's pull: RTS, CMP, BNE, LDA, ORA, STA.
const DATA_TO_ATN: u64 = 21;

/// From ATN's pull to CLOCK's: SEI, JSR, LDA, ORA, STA.
const ATN_TO_CLOCK: u64 = 18;

/// From CLOCK's pull to DATA's release: RTS, JSR, LDA, AND, STA.
const CLOCK_TO_DATA: u64 = 22;

/// From DATA's release to the one of ISOUR, a millisecond by W1MS between them.
const MILLISECOND: u64 = 961;

/// From the last look of ISOUR, by its end and the call of SECOND or TKSA, to CLOCK's pull: STA, JSR, SEI, CLKLO.
const SECONDED: u64 = 41;

/// From the last look of ISOUR to ATN's release: its end, and SCATN.
const LOOK_TO_SCATN: u64 = 30;

/// From the last look of ISOUR to DATA's pull of TKATN: its end, SEI, DATALO.
const LOOK_TO_TKATN: u64 = 38;

/// In a turnaround from DATA's pull to ATN's release, and from there to CLOCK's: RTS, JSR, LDA, AND, STA.
const TURNED: u64 = 22;

/// From CLOCK's release in a turnaround to the first look: RTS, JSR, LDA.
const TURNED_TO_LOOK: u64 = 16;

/// From the end of ACPTR, by the call of UNTALK, to CLOCK's pull: SEI, CLKLO.
const UNTALKED: u64 = 31;

/// In UNTALK from CLOCK's pull to ATN's: RTS, LDA, ORA, STA.
const CLOCK_TO_ATN: u64 = 16;

/// In UNTALK from ATN's pull to DATA's release, by LIST1's beginning.
const ATN_TO_DATA: u64 = 46;

/// From the last look of ISOUR to ATN's release in UNTALK and UNLISTEN: its end, RTS, SCATN.
const LOOK_TO_RELEASE: u64 = 36;

/// From the look that found an error to ATN's release: UDST, then as UNLISTEN.
const ERROR_TO_RELEASE: u64 = 60;

/// From ATN's release to CLOCK's: RTS, a loop of ten, CLKHI.
const RELEASE_TO_CLOCK: u64 = 77;

/// From CLOCK's release to DATA's: RTS, JMP, LDA, AND, STA.
const RELEASE_TO_DATA: u64 = 19;

impl Host {
    /// TALK: a device is to talk.
    pub fn talk(&mut self, device: u8) {
        self.works();
        self.list1(CALLED, 0x40 | device);
    }

    /// LISTEN: a device is to listen.
    pub fn listen(&mut self, device: u8) {
        self.works();
        self.list1(CALLED, 0x20 | device);
    }

    /// LIST1: DATA freed, then ATN pulled, and a byte in attention.
    fn list1(&mut self, cycles: u64, byte: u8) {
        self.store(cycles, Data, Free);
        self.store(DATA_TO_ATN, Atn, Pull);
        self.attention(ATN_TO_CLOCK, byte);
    }

    /// ISOURA: CLOCK pulled, DATA freed, 1 ms of waiting, a byte out.
    fn attention(&mut self, cycles: u64, byte: u8) {
        self.store(cycles, Clock, Pull);
        self.store(CLOCK_TO_DATA, Data, Free);
        self.send(MILLISECOND, byte, false);
    }

    /// SECOND: a secondary address for who listens. ATN is freed, and CLOCK stays pulled.
    pub fn second(&mut self, byte: u8) {
        self.works();
        self.attention(SECONDED, byte);
        self.store(LOOK_TO_SCATN, Atn, Free);
    }

    /// TKSA: a secondary address for who is to talk. DATA is pulled, ATN freed, CLOCK freed; then it waits until CLOCK is pulled.
    pub fn tksa(&mut self, byte: u8) {
        self.works();
        self.attention(SECONDED, byte);
        self.store(LOOK_TO_TKATN, Data, Pull);
        self.store(TURNED, Atn, Free);
        self.store(TURNED, Clock, Free);
        self.wait(TURNED_TO_LOOK, Wait::Turn);
    }

    /// UNTALK: CLOCK pulled, then ATN, then DATA freed; $5F, and all lines are freed.
    pub fn untalk(&mut self) {
        self.works();
        self.store(UNTALKED, Clock, Pull);
        self.store(CLOCK_TO_ATN, Atn, Pull);
        self.list1(ATN_TO_DATA, 0x5f);
        self.release(LOOK_TO_RELEASE);
    }

    /// UNLISTEN: a byte that waits is sent as the last one; $3F in attention, and all lines are freed.
    pub fn unlisten(&mut self) {
        self.works();
        match self.buffered.take() {
            Some(byte) => {
                self.send_last(byte);
                self.list1(WAITED, 0x3f);
            }
            None => self.list1(UNLISTENED, 0x3f),
        }
        self.release(LOOK_TO_RELEASE);
    }

    /// DLABYE: ATN freed, then CLOCK, then DATA.
    fn release(&mut self, cycles: u64) {
        self.store(cycles, Atn, Free);
        self.store(RELEASE_TO_CLOCK, Clock, Free);
        self.store(RELEASE_TO_DATA, Data, Free);
    }

    /// An error goes to the status, and all lines are freed.
    pub fn fail(&mut self, status: u8) {
        if self.stuck.is_some() {
            return;
        }
        self.status |= status;
        self.errors |= status;
        self.release(ERROR_TO_RELEASE);
    }
}
