//! How much the reactions of a drive vary.

ghost use Rattle.std.specs.Prelude.{◌≡◌};
ghost use Rattle.bus_judge.specs.Varied as spec;

use crate::drives::NotABus;
use arrayvec::ArrayVec;
use cbm_iec::{Party, SLOWEST_REACTION};

/// How much longer than its least time a drive may take to react.
#[derive(Clone, Copy, Debug, Default, PartialEq, Eq, Drop)]
pub struct Range {
    /// The drive's device number.
    pub device: u8,
    /// By how many microseconds.
    pub more: u8,
}

/// The ranges of the drives of a bus.
pub type Ranges = ArrayVec<Range, 4>;

/// The range of the drive with a device number; 0 of none.
pub fn range_at(device: u8, ranges: &[Range]) -> u64
    ensures { result ≡ spec.range_at device ranges.now }
{
    match ranges {
        [] => 0,
        [first, ..] if first.device == device => first.more as u64,
        [_, rest @ ..] => range_at(device, rest),
    }
}

/// The greatest range.
pub fn widest(ranges: &[Range]) -> u64
    ensures { result ≡ spec.widest ranges.now }
{
    match ranges {
        [] => 0,
        [first, rest @ ..] => (first.more as u64).max(widest(rest)),
    }
}

/// Whether each drive still reacts within 60 microseconds.
pub fn check_ranges(parties: &[Party], ranges: &[Range]) -> Result<(), NotABus> {
    for party in parties {
        let most = range_at(party.device, ranges).saturating_add(party.reaction as u64);
        if most > SLOWEST_REACTION as u64 {
            return Err(NotABus::Reaction);
        }
    }
    Ok(())
}
