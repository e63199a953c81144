ghost use Rattle.std.specs.Prelude.{◌≡◌, IfOk, IfErr};
ghost use Rattle.cbm_bam.specs.Marks.{is_marked};
ghost use Rattle.cbm_volume.specs.SeenDisks.{seen_tracks};
ghost use Rattle.cbm_volume.specs.check.WholeDisk.{only_head, ClaimsInto, SeenFault};

mod claims;
mod entries;
mod headers;
mod map;
mod records;
mod sides;
mod slots;
mod unsound;

use self::claims::claim_chain;
use self::headers::check_headers;
use self::map::check_map;
use self::slots::check_slots;
use self::unsound::Part;
use cbm_bam::SectorSet;
use cbm_medium::{Address, Link, Medium};
pub(crate) use entries::has_records;
pub use unsound::{Flaw, Unsound};

/// A set with 18/0 alone.
fn head_alone() -> SectorSet
    ensures { is_marked result ≡ only_head }
{
    let mut set = SectorSet::new();
    set.insert(Address::of_map());
    set
}

/// Looks at the whole disk, and answers the sectors of its parts, or the first fault that it meets: of the headers, of
/// the map, of the directory, of the slots.
pub fn check_disk<M: Medium>(medium: &M) -> Result<SectorSet, Unsound>
    ensures ok { IfOk result (λ set. ClaimsInto (seen_tracks (M.seen medium.now)) (M.seen medium.now).content (is_marked set)) }
    ensures err { IfErr result (SeenFault (M.seen medium.now)) }
{
    let geometry = cbm_bam::geometry(medium);
    check_headers(medium, geometry)?;
    check_map(medium, geometry)?;
    let first = Link::new(18, 1);
    let mut claimed = head_alone();
    claim_chain(medium, geometry, Part::OfDirectory, first, &mut claimed)?;
    let mut met = head_alone();
    check_slots(medium, geometry, first, &mut met, &mut claimed)?;
    Ok(claimed)
}
