ghost use Rattle.std.specs.Prelude.{◌≡◌, ◌≤◌, ◌<◌, true, false, OnOk, IfErr, Ok};
ghost use Rattle.cbm_directory.specs.Entries.{first_side};
ghost use Rattle.cbm_bam.specs.Marks.{is_marked};
ghost use Rattle.cbm_volume.specs.check.SideLists.{are_records_in, ClaimsSides, SidesFault};
ghost use Rattle.cbm_volume.specs.check.SlotWalk.{ClaimsFile, ClaimsFileOf, FileFault, FaultOfFile, ClaimsEntry, EntryFault};
ghost use Rattle.cbm_volume.specs.check.Claims.{HasMap};

use crate::check::claims::claim_chain;
use crate::check::records::walk_sides;
use crate::check::sides::claim_sides;
use crate::check::unsound::{Flaw, Part, Unsound};
use cbm_bam::SectorSet;
use cbm_directory::Entry;
use cbm_medium::{Geometry, Link, Medium};
use cbm_relfile::side::SIDES;

/// Whether the records of an entry's file are right, from the bytes of its first side sector.
pub(crate) fn has_records<M: Medium>(
    medium: &M,
    geometry: Geometry,
    entry: &Entry,
    first: &[u8; 256],
) -> bool
    requires { geometry ≤ (M.seen medium.now).tracks }
    ensures { result ≡ are_records_in geometry (M.seen medium.now).content entry.now first.now }
{
    let length = entry.record_length();
    if length == 0 || length == 255 {
        return false;
    }
    if Link::new(first[SIDES], first[SIDES + 1]) != entry.first_side() {
        return false;
    }
    walk_sides(medium, geometry, length, first, entry.first_block()).is_some()
}

/// Claims the side sectors of a relative file: 7 at the first of them if its records aren't right.
fn check_sides<M: Medium>(
    medium: &M,
    geometry: Geometry,
    entry: &Entry,
    claimed: &mut SectorSet,
) -> Result<(), Unsound>
    requires map { HasMap geometry (M.seen medium.now) }
    ensures ok { OnOk result (ClaimsSides geometry (M.seen medium.now).content (is_marked claimed.old) entry.now
        (is_marked claimed.new)) }
    ensures err { IfErr result (SidesFault geometry (M.seen medium.now).content (is_marked claimed.old) entry.now) }
{
    let at = entry.first_side();
    let first = claim_sides(medium, geometry, at, claimed)?;
    if has_records(medium, geometry, entry, &first) {
        return Ok(());
    }
    Err(Flaw::SideSectors.at(at))
}

/// Claims the sectors of a relative file: 4 if it has no block.
fn check_relative<M: Medium>(
    medium: &M,
    geometry: Geometry,
    entry: &Entry,
    claimed: &mut SectorSet,
) -> Result<(), Unsound>
    requires map { HasMap geometry (M.seen medium.now) }
    ensures ok { OnOk result (ClaimsFile true true geometry (M.seen medium.now).content
        (is_marked claimed.old) entry.now (is_marked claimed.new)) }
    ensures err { IfErr result (FileFault true true geometry (M.seen medium.now).content (is_marked claimed.old) entry.now) }
{
    let first = entry.first_block();
    if first.is_end() {
        return Err(Flaw::ChainOutside.at(first));
    }
    claim_chain(medium, geometry, Part::OfFile, first, claimed)?;
    check_sides(medium, geometry, entry, claimed)
}

/// Claims the sectors of an entry's file, if it is closed.
fn check_file<M: Medium>(
    medium: &M,
    geometry: Geometry,
    entry: &Entry,
    claimed: &mut SectorSet,
) -> Result<(), Unsound>
    requires map { HasMap geometry (M.seen medium.now) }
    ensures ok { OnOk result (ClaimsFileOf geometry (M.seen medium.now).content (is_marked claimed.old) entry.now (is_marked claimed.new)) }
    ensures err { IfErr result (FaultOfFile geometry (M.seen medium.now).content (is_marked claimed.old) entry.now) }
{
    if !entry.is_closed() {
        return Ok(());
    }
    if entry.is_relative() {
        return check_relative(medium, geometry, entry, claimed);
    }
    claim_chain(medium, geometry, Part::OfFile, entry.first_block(), claimed)
}

/// Looks at an entry in a sector of the directory: 8 if its type is none's, else its file.
pub fn check_entry<M: Medium>(
    medium: &M,
    geometry: Geometry,
    sector: Link,
    entry: &Entry,
    claimed: &mut SectorSet,
) -> Result<(), Unsound>
    requires map { HasMap geometry (M.seen medium.now) }
    ensures ok { OnOk result (ClaimsEntry geometry (M.seen medium.now).content (is_marked claimed.old) entry.now
        (is_marked claimed.new)) }
    ensures err { IfErr result (EntryFault geometry (M.seen medium.now).content (is_marked claimed.old) sector entry.now) }
{
    if entry.kind().is_none() {
        return Err(Flaw::UnknownType.at(sector));
    }
    check_file(medium, geometry, entry, claimed)
}
