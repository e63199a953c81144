ghost use Rattle.std.specs.Prelude.{List, OnOk, IfErr};
ghost use Rattle.cbm_medium.specs.Place.{Place};
ghost use Rattle.cbm_bam.specs.Marks.{is_marked};
ghost use Rattle.cbm_volume.specs.check.SlotWalk.{entries_in, ClaimsEntries, EntriesFault, ClaimsSlots, SlotsFault};
ghost use Rattle.cbm_volume.specs.check.Claims.{HasMap};

use crate::check::claims::claim;
use crate::check::entries::check_entry;
use crate::check::unsound::{Part, Unsound};
use cbm_bam::SectorSet;
use cbm_directory::Entry;
use cbm_medium::{Geometry, Link, Medium};

/// Looks at the eight entries of a sector of the directory.
fn check_entries<M: Medium>(
    medium: &M,
    geometry: Geometry,
    at: Link,
    sector: &[u8; 256],
    claimed: &mut SectorSet,
) -> Result<(), Unsound>
    requires map { HasMap geometry (M.seen medium.now) }
    ensures ok { OnOk result (ClaimsEntries geometry (M.seen medium.now).content (is_marked claimed.old)
        (entries_in sector.now) (is_marked claimed.new)) }
    ensures err { IfErr result (λ u. EntriesFault geometry (M.seen medium.now).content (is_marked claimed.old) at
        (entries_in sector.now) u) }
{
    for number in 0..8u8 {
        let entry = Entry::of(sector, number);
        check_entry(medium, geometry, at, &entry, claimed)?;
    }
    Ok(())
}

/// Goes once more through the sectors of the directory, which go into a set of their own, and looks at their entries.
pub fn check_slots<M: Medium>(
    medium: &M,
    geometry: Geometry,
    first: Link,
    met: &mut SectorSet,
    claimed: &mut SectorSet,
) -> Result<(), Unsound>
    requires map { HasMap geometry (M.seen medium.now) }
    ensures ok { OnOk result ((blocks : List Place) ×
        ClaimsSlots geometry (M.seen medium.now).content (is_marked met.old) (is_marked claimed.old) first blocks
        (is_marked claimed.new)) }
    ensures err { IfErr result (λ u. (blocks : List Place) ×
        SlotsFault geometry (M.seen medium.now).content (is_marked met.old) (is_marked claimed.old) first blocks u) }
{
    let mut at = first;
    while !at.is_end() {
        let sector = claim(medium, geometry, Part::OfDirectory, at, met)?;
        check_entries(medium, geometry, at, &sector, claimed)?;
        at = Link::of(&sector);
    }
    Ok(())
}
