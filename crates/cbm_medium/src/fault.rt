ghost use Rattle.std.specs.Prelude.{◌≡◌};
ghost use Rattle.cbm_medium.specs.Content.{is_header_fault};

use crate::address::Address;
use crate::codes::{DISK_ID_MISMATCH, HEADER_CHECKSUM, NO_HEADER, NO_SYNC};

/// Whether a code is a fault of a sector's header, which refuses a write too: 20, 21, 27 and 29
/// (1541 User's Guide, "DOS error messages").
pub fn is_of_header(code: u8) -> bool
    ensures { result ≡ is_header_fault code }
{
    matches!(
        code,
        NO_HEADER | NO_SYNC | HEADER_CHECKSUM | DISK_ID_MISMATCH
    )
}

/// What a medium answers in place of a sector: the code of the drive's status, and where.
#[derive(Clone, Copy, Debug, PartialEq, Eq)]
pub struct Fault {
    /// 20 to 29.
    pub code: u8,
    /// The sector that was asked for.
    pub at: Address,
}

/// What a disk's structures answer: a medium's fault, 66 at a link to no sector of the disk, with the
/// link's two bytes, or 71 at the sector that would be one too many for a chain or the directory.
#[derive(Clone, Copy, Debug, PartialEq, Eq)]
pub struct Trouble {
    /// The code of the drive's status.
    pub code: u8,
    /// The track that the status shows.
    pub track: u8,
    /// The sector that the status shows.
    pub sector: u8,
}

impl From<Fault> for Trouble {
    ghost use Rattle.cbm_medium.specs.declared.fault.Trouble.{Trouble};

    ghost from_gives = { λ f t. t ≡ (record { code = f.code; track = f.at.track; sector = f.at.sector }) };

    fn from(fault: Fault) -> Trouble {
        Trouble {
            code: fault.code,
            track: fault.at.track(),
            sector: fault.at.sector(),
        }
    }
}
