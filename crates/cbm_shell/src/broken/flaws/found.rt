//! What a flaw of a disk is.
ghost use Rattle.std.specs.Prelude.{◌≡◌};
ghost use Rattle.cbm_shell.specs.Flaws.{flawed};
ghost use Rattle.cbm_shell.specs.FlawSteps.{is_directory, number_outside};

use cbm_medium::Link;
use cbm_volume::Unsound;

/// Whose sectors were followed to a flaw.
#[derive(Clone, Copy, Debug, PartialEq, Eq)]
pub enum Whose {
    /// Nobody's: it is a header or the BAM.
    Disk,
    /// The directory's.
    Directory,
    /// Those of the file in the slot of this number, from 0.
    File(u16),
}

impl Whose {
    /// Whether its sectors lie on the directory's track.
    pub(super) fn is_directory(self) -> bool
        ensures { result ≡ is_directory self }
    {
        match self {
            Whose::Disk | Whose::Directory => true,
            Whose::File(_) => false,
        }
    }

    /// The number of a link to elsewhere.
    pub(super) fn outside(self) -> u8
        ensures { result ≡ number_outside self }
    {
        match self {
            Whose::Disk | Whose::Directory => 6,
            Whose::File(_) => 4,
        }
    }
}

/// Something that is wrong with a disk.
#[derive(Clone, Copy, Debug, PartialEq, Eq)]
pub struct DiskFlaw {
    /// What it is, and where, as `check` says it.
    pub what: Unsound,
    /// Whose sectors were followed to it.
    pub whose: Whose,
    /// How many sectors of the chain come before it.
    pub before: u16,
}

/// The flaw of a number at a place.
pub(super) fn flawed(whose: Whose, before: u16, at: Link, number: u8) -> DiskFlaw
    ensures { result ≡ flawed whose before at number }
{
    DiskFlaw {
        what: Unsound {
            number,
            track: at.track(),
            sector: at.sector(),
        },
        whose,
        before,
    }
}
