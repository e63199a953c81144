ghost use Rattle.std.specs.Prelude.{◌≡◌};
ghost use Rattle.cbm_g64.specs.Numbers.{g64_fault_number};

use thiserror::Error;

/// Why an image isn't taken. The faults are tested in this order, each over all tracks, but memory
/// last; a field that the file lacks counts as wrong.
#[derive(Clone, Copy, Debug, PartialEq, Eq, Error)]
pub enum G64Fault {
    /// The file doesn't begin with `GCR-1541`.
    #[error("no signature of a G64 image")]
    Signature,
    /// The version isn't 0.
    #[error("the version isn't 0")]
    Version,
    /// The tables have fewer than 69 entries or more than 84.
    #[error("the number of entries isn't 69 to 84")]
    Entries,
    /// The greatest track size is above 7,928 bytes.
    #[error("the greatest track size is above 7928")]
    GreatestSize,
    /// The tables or a track pass the file's end, or a track begins inside the tables.
    #[error("a track lies outside the file")]
    OffsetOutside,
    /// A track has no byte, or more than the greatest size.
    #[error("a track's length is 0 or above the greatest")]
    TrackLength,
    /// Two tracks share bytes.
    #[error("two tracks share bytes")]
    Overlap,
    /// Memory ran out.
    #[error("no memory")]
    Memory,
}

impl G64Fault {
    /// Its number, as the program shows it.
    pub fn number(self) -> u8
        ensures { result ≡ g64_fault_number self }
    {
        match self {
            G64Fault::Signature => 1,
            G64Fault::Version => 2,
            G64Fault::Entries => 3,
            G64Fault::GreatestSize => 4,
            G64Fault::OffsetOutside => 5,
            G64Fault::TrackLength => 6,
            G64Fault::Memory => 7,
            G64Fault::Overlap => 8,
        }
    }
}
