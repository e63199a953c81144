//! A record of a tape archive.
ghost use Rattle.std.specs.Prelude.{◌≡◌, ◌≤◌, ◌<◌, ◌+◌, ◌-◌, ◌*◌, ◌^◌, [], ◌∷◌, length, slice_index, slice_range};
ghost use Rattle.cbm_sources.specs.Tapes.{tape_record, is_used, start_address, end_address, offset_of, trimmed};

use std::marker::Model;

/// The file that a tape archive has in 32 bytes of its directory (the T64 format).
#[derive(Drop)]
pub(crate) struct Record {
    bytes: [u8; 32],
}

impl Model for Record {
    ghost use Rattle.std.specs.Prelude.{◌≡◌, List, ℕ, length};

    ghost Value = { List ℕ };

    ghost view = { λ r. r.bytes };

    ghost invariant = { λ r. length r.bytes ≡ 32 };
}

/// A name without the spaces that fill it up.
pub(crate) fn trimmed(name: &[u8]) -> &[u8]
    ensures value { result.now ≡ trimmed name.now }
    ensures short { length result.now ≤ length name.now }
{
    let mut end = 0;
    for (i, byte) in name.iter().enumerate() {
        if *byte != b' ' {
            end = i + 1;
        }
    }
    &name[..end]
}

impl Record {
    /// The record of a number.
    pub(crate) fn of(archive: &[u8], number: usize) -> Record
        requires { 96 + 32 * number ≤ length archive.now }
        ensures { result ≡ tape_record archive.now number }
    {
        let mut bytes = [0; 32];
        let from = 64 + 32 * number;
        bytes.copy_from_slice(&archive[from..from + 32]);
        Record { bytes }
    }

    /// Whether it is a file's.
    pub(crate) fn is_used(&self) -> bool
        ensures { result ≡ is_used self.now }
    {
        self.bytes[0] != 0
    }

    /// The two bytes of the address where its file is loaded.
    pub(crate) fn load_address(&self) -> [u8; 2]
        ensures { result ≡ slice_index self.now 2 ∷ slice_index self.now 3 ∷ [] }
    {
        [self.bytes[2], self.bytes[3]]
    }

    /// The address where its file is loaded.
    pub(crate) fn start(&self) -> u16
        ensures { result ≡ start_address self.now }
    {
        self.bytes[2] as u16 + 256 * self.bytes[3] as u16
    }

    /// The address after the last byte.
    pub(crate) fn end(&self) -> u16
        ensures { result ≡ end_address self.now }
    {
        self.bytes[4] as u16 + 256 * self.bytes[5] as u16
    }

    /// Where its file's bytes begin in the archive.
    pub(crate) fn offset(&self) -> usize
        ensures value { result ≡ offset_of self.now }
        ensures small { result < 2 ^ 32 }
    {
        let low = self.bytes[8] as usize + 256 * self.bytes[9] as usize;
        let high = self.bytes[10] as usize + 256 * self.bytes[11] as usize;
        low + 65_536 * high
    }

    /// Its file's name.
    pub(crate) fn name(&self) -> &[u8]
        ensures value { result.now ≡ trimmed (slice_range self.now 16 32) }
        ensures short { length result.now ≤ 16 }
    {
        trimmed(&self.bytes[16..])
    }
}
