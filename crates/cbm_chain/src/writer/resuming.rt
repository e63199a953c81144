// A writer taken apart, and made again of its parts.

ghost use Rattle.std.specs.Prelude.{◌≡◌, ◌≤◌, ◌+◌, ℕ, length, slice_index, slice_range};

use crate::writer::{ChainWriter, FROM, FULL};
use cbm_medium::{Address, Geometry};

/// A block with these bytes, and zeros after them.
fn block_with(bytes: &[u8]) -> [u8; 256]
    requires { length bytes.now ≤ 254 }
    ensures data { slice_range result 2 (2 + length bytes.now) ≡ bytes.now }
    ensures zeros { (i : ℕ) → 2 + length bytes.now ≤ i → slice_index result i ≡ 0 }
{
    let mut block = [0; 256];
    block[FROM..FROM + bytes.len()].copy_from_slice(bytes);
    block
}

impl ChainWriter {
    ghost use Rattle.std.specs.Prelude.{◌≡◌, SomeIff};
    ghost use Rattle.cbm_chain.specs.Resuming.{CanWrite};

    /// Its first block, if it has one.
    pub fn first(&self) -> Option<Address>
        ensures { result ≡ self.now.first }
    {
        self.first
    }

    /// The block that it fills, if it has one.
    pub fn current(&self) -> Option<Address>
        ensures { result ≡ self.now.current }
    {
        self.current
    }

    /// The bytes that wait for the block that it fills.
    pub fn waiting(&self) -> &[u8]
        ensures value { result.now ≡ self.now.waiting }
        ensures again { CanWrite self.now.tracks self.now.current self.now.waiting }
    {
        &self.sector[FROM..self.used]
    }

    /// The writer of these parts; None if no writer has them.
    pub fn resumed(
        geometry: Geometry,
        first: Option<Address>,
        current: Option<Address>,
        count: u16,
        waiting: &[u8],
    ) -> Option<ChainWriter>
        ensures { SomeIff result (CanWrite geometry current waiting.now)
            (record { tracks = geometry; first = first; current = current; count = count; waiting = waiting.now }) }
    {
        let used = FROM + waiting.len();
        if used > FULL {
            return None;
        }
        if let Some(at) = current
            && at.track() > geometry.tracks()
        {
            return None;
        }
        Some(ChainWriter {
            geometry,
            first,
            current,
            count,
            sector: block_with(waiting),
            used,
        })
    }
}
