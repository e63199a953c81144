use cbm_channel::Status;
use cbm_volume::{Trouble, Unsound};
use std::alloc::AllocError;
use thiserror::Error;

/// Why a command wasn't carried out.
#[derive(Clone, Copy, Debug, PartialEq, Eq, Error)]
pub enum ShellFault {
    /// Memory ran out.
    #[error("memory ran out")]
    Memory,
    /// The image is refused, by the number of its format's fault.
    #[error("this is no image of a disk: {0}")]
    Image(u8),
    /// The disk isn't sound, and so isn't changed.
    #[error("the disk isn't sound")]
    Unsound(Unsound),
    /// The drive refused it, with this status.
    #[error("the drive refused it")]
    Refused(Status),
    /// A sector that is needed doesn't read, or a link leads nowhere.
    #[error("a sector can't be read")]
    Trouble(Trouble),
    /// No file has the name.
    #[error("no such file")]
    NotFound,
    /// The file was never closed, so that it has no known end.
    #[error("the file was never closed")]
    NotClosed,
    /// A D64 that begins as a G64 does would be taken for one, and so isn't made.
    #[error("its first sector begins with GCR-1541, so as a D64 it would be taken for a G64")]
    Mistaken,
}

impl From<AllocError> for ShellFault {
    ghost use Rattle.std.specs.Prelude.{◌≡◌};
    ghost use Rattle.cbm_shell.specs.declared.fault.ShellFault.TheVariants.{Memory};

    ghost from_gives = { λ _ fault. fault ≡ Memory };

    fn from(_error: AllocError) -> ShellFault {
        ShellFault::Memory
    }
}

impl From<Trouble> for ShellFault {
    ghost use Rattle.std.specs.Prelude.{◌≡◌};
    ghost use Rattle.cbm_shell.specs.declared.fault.ShellFault.TheVariants as fault;

    ghost from_gives = { λ trouble given. given ≡ fault.Trouble trouble };

    fn from(trouble: Trouble) -> ShellFault {
        ShellFault::Trouble(trouble)
    }
}
