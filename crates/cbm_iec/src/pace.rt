//! Whose hosts a drive is made for: the times that differ, and three rows of the drive's table.

ghost use Rattle.std.specs.Prelude.{◌≡◌};
ghost use Rattle.cbm_iec.specs.Profile.{eoi_pulse, half_bit};

use crate::profile::{EOI_PULSE, HALF_BIT, KERNAL_EOI_PULSE, KERNAL_HALF_BIT};

/// Which hosts a drive keeps pace with.
#[derive(Clone, Copy, Debug, Default, PartialEq, Eq, Drop)]
pub enum Pace {
    /// Hosts that keep to the profile of the bus.
    #[default]
    Profile,
    /// Hosts with the KERNAL of a C64 or VIC-20, which take longer between two looks at the lines.
    Kernal,
}

impl Pace {
    /// EOI: how long a listener's pulse pulls DATA, in microseconds.
    #[inline(always)]
    pub fn eoi_pulse(self) -> u8
        ensures { result ≡ eoi_pulse self }
    {
        match self {
            Pace::Profile => EOI_PULSE,
            Pace::Kernal => KERNAL_EOI_PULSE,
        }
    }

    /// How long each half of a talker's bit lasts, in microseconds: CLOCK pulled, then CLOCK free.
    #[inline(always)]
    pub fn half_bit(self) -> u8
        ensures { result ≡ half_bit self }
    {
        match self {
            Pace::Profile => HALF_BIT,
            Pace::Kernal => KERNAL_HALF_BIT,
        }
    }
}
