ghost use Rattle.std.specs.Prelude.{◌≡◌};
ghost use Rattle.cbm_program.specs.Faults.{fault_number};

use thiserror::Error;

/// Why a run ended before its script did.
#[derive(Clone, Copy, Debug, PartialEq, Eq, Error)]
pub enum RunFault {
    /// The line with this number, counted from 1, is refused.
    #[error("script line {0} refused")]
    Script(u32),
    /// The image is refused, by the number of its format's fault.
    #[error("image refused: {0}")]
    Image(u8),
    /// Memory ran out.
    #[error("no memory")]
    Memory,
    /// The reader failed, or was interrupted.
    #[error("reading failed")]
    Reading,
    /// The writer failed, was interrupted, or took no byte.
    #[error("writing failed")]
    Writing,
}

impl RunFault {
    /// Its number: 1 script, 2 image, 3 memory, 4 reading, 5 writing.
    pub fn number(self) -> u8
        ensures { result ≡ fault_number self }
    {
        match self {
            RunFault::Script(_) => 1,
            RunFault::Image(_) => 2,
            RunFault::Memory => 3,
            RunFault::Reading => 4,
            RunFault::Writing => 5,
        }
    }
}
