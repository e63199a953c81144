ghost use Rattle.std.specs.Prelude.{◌≡◌, true, None, OnOk, IfOk, IfErr, Ok};
ghost use Rattle.cbm_bam.specs.Map.{with_bit};
ghost use Rattle.cbm_bam.specs.Marks.{is_marked};
ghost use Rattle.cbm_volume.specs.check.Claims.{wrong_at, IsWrongAt, ClaimsFrom, MeetsFrom, HasMap};

use crate::check::unsound::{Flaw, Part, Unsound};
use cbm_bam::{SectorSet, is_free};
use cbm_medium::{Geometry, Link, Medium};

/// Claims the sector that a link names, and answers its bytes.
pub fn claim<M: Medium>(
    medium: &M,
    geometry: Geometry,
    part: Part,
    at: Link,
    claimed: &mut SectorSet,
) -> Result<[u8; 256], Unsound>
    requires map { HasMap geometry (M.seen medium.now) }
    ensures none { OnOk result (wrong_at part geometry (M.seen medium.now).content (is_marked claimed.old) at ≡ None) }
    ensures claimed { OnOk result (is_marked claimed.new ≡ with_bit (is_marked claimed.old) at true) }
    ensures read { IfOk result (λ bytes. (M.seen medium.now).content at ≡ Ok bytes) }
    ensures wrong { IfErr result (IsWrongAt part geometry (M.seen medium.now).content (is_marked claimed.old) at) }
{
    let outside = match part {
        Part::OfDirectory => Flaw::DirectoryChain,
        Part::OfFile => Flaw::ChainOutside,
    };
    let inside = at
        .address(geometry)
        .filter(|at| (at.track() == 18) == (part == Part::OfDirectory));
    let Some(address) = inside else {
        return Err(outside.at(at));
    };
    if claimed.has(address) {
        return Err(Flaw::SharedBlock.at(at));
    }
    let Ok(bytes) = medium.read(address) else {
        return Err(Flaw::Unreadable.at(at));
    };
    if is_free(medium, geometry, address) != Ok(false) {
        return Err(Flaw::ClaimedButFree.at(at));
    }
    claimed.insert(address);
    Ok(bytes)
}

/// Claims the sectors of a chain from a link on, up to the last one.
pub fn claim_chain<M: Medium>(
    medium: &M,
    geometry: Geometry,
    part: Part,
    first: Link,
    claimed: &mut SectorSet,
) -> Result<(), Unsound>
    requires map { HasMap geometry (M.seen medium.now) }
    ensures ok { OnOk result (ClaimsFrom part geometry (M.seen medium.now).content (is_marked claimed.old) first (is_marked claimed.new)) }
    ensures err { IfErr result (MeetsFrom part geometry (M.seen medium.now).content (is_marked claimed.old) first) }
{
    let mut at = first;
    while !at.is_end() {
        let bytes = claim(medium, geometry, part, at, claimed)?;
        at = Link::of(&bytes);
    }
    Ok(())
}
