// A host that sends and takes bytes over the wires, 20 microseconds for half a bit.

use cbm_drive::Line::*;
use cbm_drive::Way::*;
use cbm_drive::{Change, Line, Way};
use std::alloc::Global;
use std::process::Abort;

/// How long a host waits, in microseconds.
#[derive(Clone, Copy, Drop)]
struct Waits {
    /// From CLOCK's release for a byte to its first bit.
    start: u64,
    /// From its own change to DATA's release for a talker's byte, which the talker has offered by then.
    offer: u64,
    /// From there to the byte's accept.
    byte: u64,
}

/// Long enough for drives that react in 20.
const USUAL: Waits = Waits {
    start: 40,
    offer: 120,
    byte: 1030,
};

/// Long enough for drives that react in 60, and not too long for those that react in 1.
const PATIENT: Waits = Waits {
    start: 100,
    offer: 200,
    byte: 1100,
};

/// What a host changes, one after the other. One that is out of step leaves out or delays some of its changes, by chance.
#[derive(Drop)]
pub struct Host {
    changes: Vec<Change>,
    waits: Waits,
    now: u64,
    seed: u32,
    often: Option<u32>,
    is_short: bool,
}

impl Host {
    /// One that keeps the timing of drives that react in 20.
    pub fn new(alloc: Global) -> Host {
        Host::with(alloc, USUAL)
    }

    /// One that keeps the timing of every drive.
    pub fn patient(alloc: Global) -> Host {
        Host::with(alloc, PATIENT)
    }

    fn with(alloc: Global, waits: Waits) -> Host {
        let changes = Vec::new(alloc);
        Host {
            changes,
            waits,
            now: 0,
            seed: 0,
            often: None,
            is_short: false,
        }
    }

    /// One that is out of step, the oftener the greater the number, which is below 1024.
    pub fn out_of_step(alloc: Global, seed: u32, often: u32) -> Host {
        let mut host = Host::new(alloc);
        host.seed = seed;
        host.often = Some(often);
        host
    }

    /// A number below 32, by chance.
    pub fn chance(&mut self) -> u32 {
        self.seed = self
            .seed
            .wrapping_mul(1_664_525)
            .wrapping_add(1_013_904_223);
        self.seed / 0x0800_0000
    }

    // Whether it gets out of step, by chance.
    fn slips(&mut self) -> bool {
        match self.often {
            None => false,
            Some(often) => {
                let chance = self.chance().wrapping_mul(32);
                chance.wrapping_add(self.chance()) < often
            }
        }
    }

    // Whether a change that slips is left out; else it comes later.
    fn leaves_out(&mut self) -> bool {
        match self.chance() {
            0..16 => true,
            late => {
                self.now = self.now.wrapping_add(late as u64);
                false
            }
        }
    }

    // A change now. Want of memory is kept in mind.
    fn add(&mut self, line: Line, way: Way) {
        let moment = self.now;
        let added = self.changes.push(Change { moment, line, way });
        self.is_short = self.is_short || added.is_err();
    }

    /// All its changes; memory was there for each.
    pub fn changes(&self, rt: &impl Abort) -> &[Change] {
        assert!(rt; !self.is_short);
        self.changes.as_slice()
    }

    /// So many microseconds later a line is changed.
    pub fn after(&mut self, wait: u64, line: Line, way: Way) {
        self.now = self.now.wrapping_add(wait);
        let is_left_out = self.slips() && self.leaves_out();
        if !is_left_out {
            self.add(line, way);
        }
    }

    /// ATN is pulled, and bytes are sent, 20 for half a bit.
    pub fn attention(&mut self, wait: u64, bytes: &[u8]) {
        self.after(wait, Atn, Pull);
        self.after(0, Clock, Pull);
        self.frames(bytes);
    }

    /// Bytes, each of them ready after 200 and begun 40 later, or later for slow drives.
    fn frames(&mut self, bytes: &[u8]) {
        for byte in bytes {
            self.after(200, Clock, Free);
            self.after(self.waits.start, Clock, Pull);
            self.bits(*byte);
        }
    }

    /// ATN and CLOCK are pulled, and one byte is sent: ready at 1000, its start at 1040 and later by a delay, bits of
    /// 40 each. So it ends at 1360.
    pub fn begin(&mut self, byte: u8, delay: u64) {
        self.after(0, Atn, Pull);
        self.after(0, Clock, Pull);
        self.after(1000, Clock, Free);
        self.after(delay.wrapping_add(40), Clock, Pull);
        self.bits(byte);
    }

    /// The bits of a byte, if CLOCK is held.
    pub fn bits(&mut self, byte: u8) {
        let mut left = byte;
        let mut low = false;
        for _ in 0..8u8 {
            let is_low = left % 2 == 0;
            if is_low != low {
                self.after(0, Data, if is_low { Pull } else { Free });
            }
            low = is_low;
            left /= 2;
            self.after(20, Clock, Free);
            self.after(20, Clock, Pull);
        }
        if low {
            self.after(0, Data, Free);
        }
    }

    /// TALK to drive 8 on channel 15, and the turnaround.
    pub fn talk(&mut self, wait: u64) {
        self.talk_to(wait, 8, 0x6f);
    }

    /// TALK to a drive with a secondary address, and the turnaround.
    pub fn talk_to(&mut self, wait: u64, device: u8, secondary: u8) {
        self.attention(wait, &[0x40 | device, secondary]);
        self.after(100, Data, Pull);
        self.after(0, Atn, Free);
        self.after(20, Clock, Free);
    }

    /// So many bytes are taken, the last of them with EOI.
    pub fn take(&mut self, bytes: usize) {
        for place in 1..=bytes {
            self.after(self.waits.offer, Data, Free);
            if place == bytes {
                self.after(200, Data, Pull);
                self.after(60, Data, Free);
            }
            self.after(self.waits.byte, Data, Pull);
        }
    }

    /// UNTALK: nobody talks, and all lines are free.
    pub fn untalk(&mut self) {
        self.attention(200, &[0x5f]);
        self.after(100, Atn, Free);
        self.after(0, Clock, Free);
    }

    /// LISTEN to drive 8 with a secondary address, bytes, and UNLISTEN.
    pub fn send(&mut self, secondary: u8, bytes: &[u8]) {
        self.send_to(8, secondary, bytes);
    }

    /// LISTEN to a drive with a secondary address, bytes, and UNLISTEN.
    pub fn send_to(&mut self, device: u8, secondary: u8, bytes: &[u8]) {
        self.attention(200, &[0x20 | device, secondary]);
        self.after(100, Atn, Free);
        self.frames(bytes);
        self.attention_again(&[0x3f]);
        self.after(100, Atn, Free);
        self.after(0, Clock, Free);
    }

    // As `attention`, where the host holds CLOCK.
    fn attention_again(&mut self, bytes: &[u8]) {
        self.after(200, Atn, Pull);
        self.frames(bytes);
    }
}
