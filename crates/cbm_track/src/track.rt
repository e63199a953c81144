ghost use Rattle.std.specs.Prelude.{◌≡◌, ◌<◌, ◌≤◌, ◌*◌, ◌%◌, ◌↔◌, length, IfSome, IsSome};
ghost use Rattle.cbm_track.specs.Circle.{circle_bits_of, is_clear, next_block, stretch, PutsBytes};

use crate::marks::{is_clear, next_place};
use crate::stretches::{read_bytes, write_bytes};
use arrayvec::ArrayVec;
use std::marker::Model;

/// A track of a disk, as a circle of bits.
#[derive(Drop)]
pub struct Track {
    bytes: ArrayVec<u8, 7928>,
}

impl Model for Track {
    ghost use Rattle.std.specs.Prelude.{List, Bool, length, ◌<◌, ◌≤◌};
    ghost use Rattle.cbm_track.specs.Circle.{circle_bits_of};

    ghost Value = { List Bool };

    ghost view = { λ t. circle_bits_of t.bytes.items };

    ghost invariant = { λ t. (0 < length t.bytes.items) × (length t.bytes.items ≤ 7928) };
}

impl Track {
    /// The most bytes of a track, which is the usual greatest size in a G64 image.
    pub const MAX_BYTES: usize = 7928;

    /// The circle of the bits of bytes, the high bit of the first byte first; `None` exactly if
    /// there is no byte or more than `MAX_BYTES`.
    pub fn from_bytes(bytes: &[u8]) -> Option<Track>
        ensures some { IfSome result (λ t. t ≡ circle_bits_of bytes.now) }
        ensures which { IsSome result ↔ ((0 < length bytes.now) × (length bytes.now ≤ 7928)) }
    {
        if bytes.is_empty() || bytes.len() > Track::MAX_BYTES {
            return None;
        }
        let mut kept = ArrayVec::new();
        kept.try_extend_from_slice(bytes).ok()?;
        Some(Track { bytes: kept })
    }

    /// How many bits the circle has: eight for each byte.
    pub fn bits(&self) -> u32
        ensures value { result ≡ length self.now }
        ensures bytes { result % 8 ≡ 0 }
        ensures some { 0 < result }
        ensures most { result ≤ 63424 }
    {
        8 * self.bytes.len() as u32
    }

    /// The first place at which a block begins, from a place on and all the way round: a zero that
    /// follows ten or more ones, which are a sync mark. `None` if the circle has no sync mark.
    pub fn next_sync(&self, from: u32) -> Option<u32>
        requires { from < length self.now }
        ensures value { result ≡ next_block self.now from }
        ensures below { IfSome result (λ p. p < length self.now) }
    {
        let place = next_place(self.bytes.as_slice(), from as usize)?;
        Some(place as u32)
    }

    /// Whether ten ones in a row begin nowhere among some bits from a place on.
    pub fn is_clear(&self, place: u32, bits: u32) -> bool
        requires place { place < length self.now }
        requires few { bits ≤ 65536 }
        ensures { result ≡ is_clear self.now place bits }
    {
        is_clear(self.bytes.as_slice(), place as usize, bits as usize)
    }

    /// Reads the bytes from a place on, round and round.
    pub fn bytes_at(&self, place: u32, out: &mut [u8])
        requires { place < length self.now }
        ensures { circle_bits_of out.new ≡ stretch self.now place (8 * length out.old) }
    {
        read_bytes(self.bytes.as_slice(), place as usize, out);
    }

    /// Writes bytes from a place on. Other bits stay.
    pub fn overwrite(&mut self, place: u32, bytes: &[u8])
        requires place { place < length self.old }
        requires fits { 8 * length bytes.now ≤ length self.old }
        ensures length { length self.new ≡ length self.old }
        ensures bytes { PutsBytes self.old self.new (length self.old) place bytes.now }
    {
        write_bytes(self.bytes.as_mut_slice(), place as usize, bytes);
    }
}
