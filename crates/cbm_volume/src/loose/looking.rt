ghost use Rattle.std.specs.Prelude.{MatchBool};
ghost use Rattle.cbm_bam.specs.Marks.{is_marked};
ghost use Rattle.cbm_volume.specs.Loose.{IsLooseOn, IsNotLoose};

use crate::check::check_disk;
use cbm_bam::SectorSet;
use cbm_medium::{Address, Medium};

/// Whether the disk is sound, no part of it has the sector, and the sector isn't spared.
pub fn is_loose<M: Medium>(medium: &M, at: Address, spared: &SectorSet) -> bool
    ensures { MatchBool result (IsLooseOn (M.seen medium.now) (is_marked spared.now) at) (IsNotLoose (M.seen medium.now) (is_marked spared.now) at) }
{
    let Ok(claimed) = check_disk(medium) else {
        return false;
    };
    if claimed.has(at) {
        return false;
    }
    if spared.has(at) {
        return false;
    }
    true
}
