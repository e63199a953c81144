//! The drives of a bus, and which may be judged.

ghost use Rattle.std.specs.Prelude.{◌≤◌, length, OnOk};

use cbm_iec::{DEVICES, Party, SLOWEST_REACTION};
use thiserror::Error;

/// Why there is no judge for some drives.
#[derive(Clone, Copy, Debug, PartialEq, Eq, Drop, Error)]
pub enum NotABus {
    /// They aren't one to four.
    #[error("one to four drives are judged")]
    Count,
    /// A device number isn't 8 to 11.
    #[error("a device number is 8 to 11")]
    Device,
    /// A reaction isn't 1 to 60.
    #[error("a reaction is 1 to 60 microseconds")]
    Reaction,
    /// Two have one number.
    #[error("two drives have one device number")]
    Twice,
}

/// Whether these drives are a bus: one to four, of unlike devices 8 to 11 and reactions of 1 to 60.
pub fn check_drives(parties: &[Party]) -> Result<(), NotABus>
    ensures { OnOk result (length parties.now ≤ 4) }
{
    if parties.is_empty() || parties.len() > 4 {
        return Err(NotABus::Count);
    }
    for (place, party) in parties.iter().enumerate() {
        if party.device < DEVICES.0 || party.device > DEVICES.1 {
            return Err(NotABus::Device);
        }
        if party.reaction < 1 || party.reaction > SLOWEST_REACTION {
            return Err(NotABus::Reaction);
        }
        for other in parties.iter().take(place) {
            if other.device == party.device {
                return Err(NotABus::Twice);
            }
        }
    }
    Ok(())
}
