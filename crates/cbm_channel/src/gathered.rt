ghost use Rattle.std.specs.Prelude.{◌≡◌, ◌≤◌, ◌++◌, ◌∷◌, [], length, take, Some};
ghost use Rattle.cbm_machine.specs.Calls.{text_for};

pub mod saving;

use arrayvec::ArrayVec;
use std::marker::Model;

/// The most bytes of a text that are kept: more than a command and a record have.
const KEPT: usize = 256;

/// A text of at least one byte that is gathered for a channel, of which the first 256 bytes are kept.
#[derive(Drop)]
pub struct Gathered {
    channel: u8,
    bytes: ArrayVec<u8, 256>,
}

impl Model for Gathered {
    ghost use Rattle.std.specs.Prelude.{◌≡◌, ◌≤◌, ℕ, List, length};

    ghost Value = { ℕ × List ℕ };

    ghost view = { λ g. (g.channel, g.bytes.items) };

    ghost invariant = { λ g. (1 ≤ length g.bytes.items) × (length g.bytes.items ≤ 256) };
}

impl Gathered {
    /// A text of this one byte.
    pub fn begin(channel: u8, byte: u8) -> Gathered
        ensures { result ≡ (channel, byte ∷ []) }
    {
        let mut bytes = ArrayVec::new();
        bytes.push(byte);
        Gathered { channel, bytes }
    }

    /// The channel that it is for.
    pub fn channel(&self) -> u8
        ensures value { result ≡ self.now.0 }
        ensures some { 1 ≤ length self.now.1 }
    {
        let _ = &self.bytes;
        self.channel
    }

    /// Its bytes.
    pub fn bytes(&self) -> &[u8]
        ensures { result.now ≡ self.now.1 }
    {
        self.bytes.as_slice()
    }

    /// Adds a byte; from the 257th on they are dropped.
    pub fn add(&mut self, byte: u8)
        ensures { self.new ≡ (self.old.0, take 256 (self.old.1 ++ byte ∷ [])) }
    {
        if self.bytes.len() < KEPT {
            self.bytes.push(byte);
        }
    }
}

/// Adds a byte to the text for a channel; what was gathered for another one is dropped.
pub fn gather(text: &mut Option<Gathered>, channel: u8, byte: u8)
    ensures { text.new ≡ Some (channel, take 256 (text_for channel text.old ++ byte ∷ [])) }
{
    if let Some(gathered) = text {
        if gathered.channel() == channel {
            gathered.add(byte);
            return;
        }
    }
    *text = Some(Gathered::begin(channel, byte));
}
