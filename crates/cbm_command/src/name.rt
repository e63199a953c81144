ghost use Rattle.std.specs.Prelude.{◌≡◌, ◌≤◌, ℕ, List, [], length};
ghost use Rattle.cbm_command.specs.Names.{name_of, is_empty, is_wild};

use arrayvec::ArrayVec;
use std::marker::Model;

/// The most bytes that a name has.
const LONGEST: usize = 16;

/// What fills a shorter name on the disk, and so ends one.
const FILLER: u8 = 0xa0;

/// A name or a pattern of at most 16 bytes, seen as its bytes.
#[derive(Debug, Drop)]
pub struct Name {
    bytes: ArrayVec<u8, 16>,
}

impl Model for Name {
    ghost Value = { List ℕ };

    ghost view = { λ n. n.bytes.items };
}

impl Default for Name {
    ghost is_default = { λ n. n ≡ [] };

    /// An empty name.
    fn default() -> Name {
        Name {
            bytes: ArrayVec::new(),
        }
    }
}

impl Name {
    /// The name that a text means: cut at its first $A0 and to 16 bytes.
    pub fn of(text: &[u8]) -> Name
        ensures { result ≡ name_of text.now }
    {
        let mut bytes = ArrayVec::new();
        for byte in text {
            if *byte == FILLER || bytes.len() >= LONGEST {
                break;
            }
            bytes.push(*byte);
        }
        Name { bytes }
    }

    /// Its bytes, at most 16.
    pub fn bytes(&self) -> &[u8]
        ensures value { result.now ≡ self.now }
        ensures short { length self.now ≤ 16 }
    {
        self.bytes.as_slice()
    }

    /// Whether no byte of it is left.
    pub fn is_empty(&self) -> bool
        ensures { result ≡ is_empty self.now }
    {
        self.bytes.is_empty()
    }

    /// Whether it is a pattern that may match several names: `*` or `?` stands in it.
    pub fn is_wild(&self) -> bool
        ensures { result ≡ is_wild self.now }
    {
        self.bytes
            .as_slice()
            .iter()
            .any(|byte| *byte == b'*' || *byte == b'?')
    }
}
