ghost use Rattle.std.specs.Prelude.{◌≡◌, ℕ, ◌<◌, SomeIff};
ghost use Rattle.cbm_medium.specs.Place.{Place, sectors_on, IsOnDisk, directory_head};

use std::marker::Model;

/// How many sectors a track has, 0 if no disk has such a track (1541 User's Guide, "Disk format").
///
/// Tracks 36 to 40, which some images have, hold 17 as the innermost zone does.
pub fn sectors_of(track: u8) -> u8
    ensures { result ≡ sectors_on track }
{
    match track {
        1..=17 => 21,
        18..=24 => 19,
        25..=30 => 18,
        31..=40 => 17,
        _ => 0,
    }
}

/// A sector of a disk: track 1 to 40, sector counted from 0. There are 768.
#[derive(Clone, Copy, Debug, PartialEq, Eq)]
pub struct Address {
    track: u8,
    sector: u8,
}

impl Model for Address {
    ghost use Rattle.cbm_medium.specs.Place.{Place, sectors_on};
    ghost use Rattle.std.specs.Prelude.{◌<◌};

    ghost Value = { Place };

    ghost view = { λ a. record { track = a.track; sector = a.sector } };

    ghost invariant = { λ a. a.sector < sectors_on a.track };

    ghost inverse = { λ p. record { track = p.track; sector = p.sector } };
}

impl Address {
    /// The sector with these two numbers, None if no disk has it.
    pub fn new(track: u8, sector: u8) -> Option<Address>
        ensures { let p : Place = record { track = track; sector = sector } in
            SomeIff result (IsOnDisk p) p }
    {
        if sector < sectors_of(track) {
            Some(Address { track, sector })
        } else {
            None
        }
    }

    /// The sector of the block availability map, 18/0 (Inside Commodore DOS).
    pub fn of_map() -> Address
        ensures value { result ≡ directory_head }
        ensures on_disk { IsOnDisk result }
    {
        Address {
            track: 18,
            sector: 0,
        }
    }

    /// Its track, from 1.
    pub fn track(self) -> u8
        ensures value { result ≡ self.track }
        ensures on_disk { IsOnDisk self }
    {
        self.track
    }

    /// Its sector on the track, from 0.
    pub fn sector(self) -> u8
        ensures value { result ≡ self.sector }
        ensures on_disk { IsOnDisk self }
    {
        self.sector
    }
}
