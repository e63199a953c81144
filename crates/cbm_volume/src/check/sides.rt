ghost use Rattle.std.specs.Prelude.{◌≡◌, OnOk, IfErr, IfOk, Ok};
ghost use Rattle.cbm_volume.specs.declared.check.unsound.Part.TheVariants.{OfFile};
ghost use Rattle.cbm_bam.specs.Marks.{is_marked};
ghost use Rattle.cbm_volume.specs.check.SideLists.{ClaimsEach, MeetsAmong, after_the_first, sides_from};
ghost use Rattle.cbm_volume.specs.check.Claims.{HasMap};

use crate::check::claims::claim;
use crate::check::unsound::{Part, Unsound};
use cbm_bam::SectorSet;
use cbm_medium::{Geometry, Link, Medium};
use cbm_relfile::side::SIDES;

/// Claims the side sectors that a file's first one lists after itself.
fn claim_listed<M: Medium>(
    medium: &M,
    geometry: Geometry,
    first: &[u8; 256],
    claimed: &mut SectorSet,
) -> Result<(), Unsound>
    requires map { HasMap geometry (M.seen medium.now) }
    ensures ok { OnOk result (ClaimsEach OfFile geometry (M.seen medium.now).content (is_marked claimed.old)
        (after_the_first first.now) (is_marked claimed.new)) }
    ensures err { IfErr result (MeetsAmong OfFile geometry (M.seen medium.now).content (is_marked claimed.old) (after_the_first first.now)) }
{
    if first[SIDES] == 0 {
        return Ok(());
    }
    for number in 1..6usize {
        let at = Link::new(first[SIDES + 2 * number], first[SIDES + 2 * number + 1]);
        if at.is_end() {
            return Ok(());
        }
        claim(medium, geometry, Part::OfFile, at, claimed)?;
    }
    Ok(())
}

/// Claims the side sectors of a relative file, and answers the bytes of the first.
pub fn claim_sides<M: Medium>(
    medium: &M,
    geometry: Geometry,
    first: Link,
    claimed: &mut SectorSet,
) -> Result<[u8; 256], Unsound>
    requires map { HasMap geometry (M.seen medium.now) }
    ensures ok { OnOk result (ClaimsEach OfFile geometry (M.seen medium.now).content (is_marked claimed.old)
        (sides_from (M.seen medium.now).content first) (is_marked claimed.new)) }
    ensures read { IfOk result (λ bytes. (M.seen medium.now).content first ≡ Ok bytes) }
    ensures err { IfErr result (MeetsAmong OfFile geometry (M.seen medium.now).content (is_marked claimed.old)
        (sides_from (M.seen medium.now).content first)) }
{
    let bytes = claim(medium, geometry, Part::OfFile, first, claimed)?;
    claim_listed(medium, geometry, &bytes, claimed)?;
    Ok(bytes)
}
