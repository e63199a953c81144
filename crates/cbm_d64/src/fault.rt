ghost use Rattle.std.specs.Prelude.{◌≡◌};

use thiserror::Error;

/// Why an image isn't taken, or not given back: the size is tested first.
#[derive(Clone, Copy, Debug, PartialEq, Eq, Error)]
pub enum D64Fault {
    /// The image has none of the three sizes: 174,848, 175,531 or 196,608 bytes.
    #[error("the size is none of a D64 image")]
    Size,
    /// Memory ran out.
    #[error("no memory")]
    Memory,
}

impl D64Fault {
    /// Its number, as the program shows it.
    pub fn number(self) -> u8
        ensures size { self ≡ D64Fault.Size → result ≡ 1 }
        ensures memory { self ≡ D64Fault.Memory → result ≡ 2 }
    {
        match self {
            D64Fault::Size => 1,
            D64Fault::Memory => 2,
        }
    }
}
