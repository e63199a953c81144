ghost use Rattle.std.specs.Prelude.{◌≡◌, ◌⊎◌, ◌↔◌, IsTrue};
ghost use Rattle.cbm_medium.specs.Place.{Has, IsOnDisk, sector_count};

use crate::address::Address;
use std::marker::Model;

/// How many tracks a disk uses: 35, as the drive was sold, or 40, as some images have it.
#[derive(Clone, Copy, Debug, PartialEq, Eq)]
pub struct Geometry {
    tracks: u8,
}

impl Model for Geometry {
    ghost use Rattle.std.specs.Prelude.{ℕ, ◌≡◌, ◌⊎◌};

    ghost Value = { ℕ };

    ghost view = { λ g. g.tracks };

    ghost invariant = { λ g. (g.tracks ≡ 35) ⊎ (g.tracks ≡ 40) };

    ghost inverse = { λ n. record { tracks = n } };
}

impl Geometry {
    /// The drive's own 35 tracks, 683 sectors.
    pub fn of_35() -> Geometry
        ensures { result ≡ 35 }
    {
        Geometry { tracks: 35 }
    }

    /// 40 tracks, 768 sectors.
    pub fn of_40() -> Geometry
        ensures { result ≡ 40 }
    {
        Geometry { tracks: 40 }
    }

    /// The number of tracks.
    pub fn tracks(self) -> u8
        ensures value { result ≡ self }
        ensures either { (result ≡ 35) ⊎ (result ≡ 40) }
    {
        self.tracks
    }

    /// The number of sectors.
    pub fn sectors(self) -> u16
        ensures { result ≡ sector_count self }
    {
        if self.tracks < 40 { 683 } else { 768 }
    }

    /// Whether a disk of this geometry has the sector.
    pub fn has(self, at: Address) -> bool
        ensures value { IsTrue result ↔ Has self at }
        ensures on_disk { IsOnDisk at }
    {
        at.track() <= self.tracks
    }
}
