//! What a program has the KERNAL do: LOAD, SAVE, OPEN, PRINT#, INPUT#, GET#, CLOSE. Each answers whether all went right.

use crate::tests::host::{ABSENT, EOI, Host, READ_TIMEOUT};

/// The secondary address for bytes of channel 0.
const BYTES: u8 = 0x60;

/// The one that closes channel 0.
const CLOSED: u8 = 0xe0;

/// The one after which the name of an OPEN of channel 0 comes.
const NAMED: u8 = 0xf0;

/// The channel of commands and the status.
const COMMANDS: u8 = 15;

impl Host {
    /// LISTEN with a secondary address, bytes, and UNLISTEN; if no device is present it ends at once.
    fn tells(&mut self, device: u8, secondary: u8, bytes: &[u8]) -> bool {
        self.status = 0;
        self.listen(device);
        self.second(secondary);
        if self.status & ABSENT != 0 {
            return false;
        }
        for byte in bytes {
            self.ciout(*byte);
        }
        self.unlisten();
        self.is_well(0)
    }

    /// OPEN with a name.
    pub fn opens(&mut self, device: u8, channel: u8, name: &[u8]) -> bool {
        self.tells(device, NAMED | channel, name)
    }

    /// PRINT#.
    pub fn prints(&mut self, device: u8, channel: u8, bytes: &[u8]) -> bool {
        self.tells(device, BYTES | channel, bytes)
    }

    /// CLOSE.
    pub fn closes(&mut self, device: u8, channel: u8) -> bool {
        self.tells(device, CLOSED | channel, &[])
    }

    /// A byte of who talks, which is the last one (EOI) or isn't.
    fn takes(&mut self, wanted: u8, last: bool) -> bool {
        let byte = self.acptr();
        byte == wanted && self.is_well(if last { EOI } else { 0 })
    }

    /// INPUT#: TALK, these bytes, UNTALK. The last of them is the channel's last, or isn't.
    pub fn inputs(&mut self, device: u8, channel: u8, wanted: &[u8], last: bool) -> bool {
        self.status = 0;
        self.talk(device);
        self.tksa(BYTES | channel);
        if !self.is_well(0) {
            return false;
        }
        let mut same = true;
        for (place, byte) in wanted.iter().enumerate() {
            let is_end = place.wrapping_add(1) == wanted.len();
            same = self.takes(*byte, last && is_end) && same;
        }
        self.untalk();
        same && self.is_well(if last { EOI } else { 0 })
    }

    /// GET#, up to the channel's last byte: TALK and UNTALK for each.
    pub fn gets(&mut self, device: u8, channel: u8, wanted: &[u8]) -> bool {
        let mut same = true;
        for (place, byte) in wanted.iter().enumerate() {
            let is_end = place.wrapping_add(1) == wanted.len();
            same = self.inputs(device, channel, &[*byte], is_end) && same;
        }
        same
    }

    /// LOAD: the name, all bytes, CLOSE.
    pub fn loads(&mut self, device: u8, name: &[u8], wanted: &[u8]) -> bool {
        let is_opened = self.opens(device, 0, name);
        let is_read = self.inputs(device, 0, wanted, true);
        self.closes(device, 0) && is_opened && is_read
    }

    /// SAVE: the name, all bytes, CLOSE.
    pub fn saves(&mut self, device: u8, name: &[u8], bytes: &[u8]) -> bool {
        let is_opened = self.opens(device, 1, name);
        let is_written = self.prints(device, 1, bytes);
        self.closes(device, 1) && is_opened && is_written
    }

    /// LOAD of a file that isn't there: no byte comes, and there it ends.
    pub fn misses(&mut self, device: u8, name: &[u8]) -> bool {
        let is_opened = self.opens(device, 0, name);
        self.talk(device);
        self.tksa(BYTES);
        self.acptr();
        is_opened && self.is_well(EOI | READ_TIMEOUT)
    }

    /// The status: INPUT# of channel 15, and CLOSE.
    pub fn reads_status(&mut self, device: u8, wanted: &[u8]) -> bool {
        let is_read = self.inputs(device, COMMANDS, wanted, true);
        self.closes(device, COMMANDS) && is_read
    }
}
