ghost use Rattle.std.specs.Prelude.{◌≡◌, ◌<◌, ◌≤◌, true, false, OnOk, IfErr, IsOk};
ghost use Rattle.cbm_medium.specs.Place.{directory_head};
ghost use Rattle.cbm_bam.specs.Map.{map_of, is_free_in, at};
ghost use Rattle.cbm_volume.specs.check.Claims.{fault_at, HasMap};
ghost use Rattle.cbm_volume.specs.check.MapCounts.{is_counted_on, IsMapRight, IsMapFault};

use crate::check::unsound::{Flaw, Unsound};
use cbm_bam::{is_counted, is_free, read_map};
use cbm_medium::{Address, Geometry, Link, Medium};

/// Looks at a track's count.
fn check_count<M: Medium>(medium: &M, geometry: Geometry, track: u8) -> Result<(), Unsound>
    requires room { geometry ≤ (M.seen medium.now).tracks }
    requires track { track ≤ 40 }
    requires map { IsOk ((M.seen medium.now).content directory_head) }
    ensures ok { OnOk result (is_counted_on track (map_of (M.seen medium.now).content) ≡ true) }
    ensures err { IfErr result (λ u. (is_counted_on track (map_of (M.seen medium.now).content) ≡ false) ×
        (u ≡ fault_at 1 (at track 0))) }
{
    if is_counted(medium, geometry, track) == Ok(true) {
        return Ok(());
    }
    Err(Flaw::MapCount.at(Link::new(track, 0)))
}

/// Looks whether 18/0 reads: 9 if it doesn't.
fn check_reads<M: Medium>(medium: &M, geometry: Geometry) -> Result<(), Unsound>
    requires room { geometry ≤ (M.seen medium.now).tracks }
    ensures reads { OnOk result (IsOk ((M.seen medium.now).content directory_head)) }
    ensures err { IfErr result (IsMapFault geometry (M.seen medium.now).content) }
{
    match read_map(medium, geometry) {
        Ok(_) => Ok(()),
        Err(_) => Err(Flaw::Unreadable.at(Link::from(Address::of_map()))),
    }
}

/// Looks at 18/0's own bit: 2 if it is free.
fn check_own_bit<M: Medium>(medium: &M, geometry: Geometry) -> Result<(), Unsound>
    requires map { HasMap geometry (M.seen medium.now) }
    ensures taken { OnOk result (is_free_in (map_of (M.seen medium.now).content) directory_head ≡ false) }
    ensures err { IfErr result (IsMapFault geometry (M.seen medium.now).content) }
{
    if is_free(medium, geometry, Address::of_map()) == Ok(false) {
        return Ok(());
    }
    Err(Flaw::ClaimedButFree.at(Link::from(Address::of_map())))
}

/// Looks at the map: whether 18/0 reads, then at its own bit, then at the counts of its tracks in order, 1 at the
/// first that is wrong.
pub fn check_map<M: Medium>(medium: &M, geometry: Geometry) -> Result<(), Unsound>
    requires { geometry ≤ (M.seen medium.now).tracks }
    ensures ok { OnOk result (IsMapRight geometry (M.seen medium.now).content) }
    ensures err { IfErr result (IsMapFault geometry (M.seen medium.now).content) }
{
    check_reads(medium, geometry)?;
    check_own_bit(medium, geometry)?;
    for track in 1..geometry.tracks() + 1 {
        check_count(medium, geometry, track)?;
    }
    Ok(())
}
