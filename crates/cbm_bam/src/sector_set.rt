// Sets of sectors.

ghost use Rattle.std.specs.Prelude.{◌≡◌, true};
ghost use Rattle.cbm_bam.specs.Map.{with_bit};
ghost use Rattle.cbm_bam.specs.Marks.{is_marked, nothing};

use cbm_medium::Address;
use std::marker::Model;

/// A set of sectors in fixed memory: a bit for each, a number for each track.
#[derive(Drop)]
pub struct SectorSet {
    rows: [u32; 41],
}

impl Model for SectorSet {
    ghost use Rattle.std.specs.Prelude.{◌≡◌, List, ℕ, length};

    ghost Value = { List ℕ };

    ghost view = { λ s. s.rows };

    ghost invariant = { λ s. length s.rows ≡ 41 };
}

impl SectorSet {
    /// No sector.
    pub fn new() -> SectorSet
        ensures { is_marked result ≡ nothing }
    {
        SectorSet { rows: [0; 41] }
    }

    /// Whether a sector is in it.
    pub fn has(&self, at: Address) -> bool
        ensures { result ≡ is_marked self.now at }
    {
        let track = at.track() as usize;
        (self.rows[track] >> at.sector()) & 1 == 1
    }

    /// Puts a sector into it.
    pub fn insert(&mut self, at: Address)
        ensures { is_marked self.new ≡ with_bit (is_marked self.old) at true }
    {
        let track = at.track() as usize;
        self.rows[track] |= 1 << at.sector();
    }
}
