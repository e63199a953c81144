// The side sectors of a relative file are given back.

ghost use Rattle.std.specs.Prelude.{◌≡◌, ◌≤◌, false, OnOk, IfErr, Ok, IsOk};
ghost use Rattle.cbm_medium.specs.Place.{Has, has};
ghost use Rattle.cbm_medium.specs.Links.{bytes_at};
ghost use Rattle.cbm_medium.specs.Met.{MeetsTrouble, place_of};
ghost use Rattle.cbm_bam.specs.Map.{Frees, IsGiven};
ghost use Rattle.cbm_relfile.specs.Records.{OfSector};
ghost use Rattle.cbm_relfile.specs.OfFile.{IsSide};
ghost use Rattle.cbm_relfile.specs.SideSectors.{AllHave, sides_listed};

use crate::sectors::read_at;
use crate::side::SIDES;
use cbm_bam::Release;
use cbm_medium::codes::ILLEGAL_LINK;
use cbm_medium::{Geometry, Link, Medium, Trouble};

/// Gives the side sectors that the first one lists back to a map that was read. An `Err` is 66 if a link names no
/// sector of the disk, or the medium's fault if the first one doesn't read.
pub fn free_sides<M: Medium>(
    medium: &M,
    geometry: Geometry,
    first: Link,
    release: &mut Release,
) -> Result<(), Trouble>
    requires { geometry ≤ (M.seen medium.now).tracks }
    ensures freed { OnOk result (Frees geometry release.old (sides_listed (bytes_at (M.seen medium.now).content first))
        release.new) }
    ensures goes { OfSector geometry (M.seen medium.now).content first (λ head.
        AllHave geometry (sides_listed head) → IsOk result) }
    ensures err { MeetsTrouble geometry (M.seen medium.now).content (IsSide geometry (M.seen medium.now).content first) result }
    ensures reads { OnOk result (IsOk ((M.seen medium.now).content first)) }
{
    let head = read_at(medium, geometry, first)?;
    for n in 0..6usize {
        let at = Link::new(head[SIDES + 2 * n], head[SIDES + 2 * n + 1]);
        if at.is_end() {
            return Ok(());
        }
        give_named(geometry, at, release)?;
    }
    Ok(())
}

/// Gives the sector that a link names back; 66 if the disk has no such sector.
fn give_named(geometry: Geometry, at: Link, release: &mut Release) -> Result<(), Trouble>
    ensures given { OnOk result (IsGiven geometry release.old release.new at) }
    ensures has { Has geometry at → IsOk result }
    ensures code { IfErr result (λ t. t.code ≡ 66) }
    ensures off { IfErr result (λ t. has geometry (place_of t) ≡ false) }
    ensures place { IfErr result (λ t. place_of t ≡ at) }
{
    let Some(address) = at.address(geometry) else {
        return Err(at.trouble(ILLEGAL_LINK));
    };
    prove!(geometry.tracks() <= 40);
    release.give(address);
    Ok(())
}
