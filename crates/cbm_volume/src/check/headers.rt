ghost use Rattle.std.specs.Prelude.{◌≡◌, ◌<◌, ◌≤◌, ℕ, true, OnOk, IfErr};
ghost use Rattle.cbm_medium.specs.Place.{Place, Has, sectors_on};
ghost use Rattle.cbm_bam.specs.Map.{at};
ghost use Rattle.cbm_volume.specs.Layouts.{IsCellWritable};
ghost use Rattle.cbm_volume.specs.check.Headers.{is_bad_header, TrackFault};
ghost use Rattle.cbm_volume.specs.check.Claims.{fault_at};
ghost use Rattle.cbm_volume.specs.check.WholeDisk.{HeaderFault};

use crate::check::unsound::{Flaw, Unsound};
use cbm_medium::{Address, Geometry, Link, Medium, is_of_header, sectors_of};

/// Looks at a sector's header.
fn check_header<M: Medium>(medium: &M, at: Address) -> Result<(), Unsound>
    requires { at.track ≤ (M.seen medium.now).tracks }
    ensures ok { OnOk result (IsCellWritable ((M.seen medium.now).content at)) }
    ensures err { IfErr result (λ u. (is_bad_header ((M.seen medium.now).content at) ≡ true) × (u ≡ fault_at 5 at)) }
{
    match medium.read(at) {
        Err(fault) if is_of_header(fault.code) => Err(Flaw::BadHeader.at(Link::from(at))),
        _ => Ok(()),
    }
}

/// Looks at the headers of a track in order.
fn check_track<M: Medium>(medium: &M, track: u8) -> Result<(), Unsound>
    requires { (0 < track) × (track ≤ (M.seen medium.now).tracks) }
    ensures ok { OnOk result ((s : ℕ) → s < sectors_on track → IsCellWritable ((M.seen medium.now).content (at track s))) }
    ensures err { IfErr result (TrackFault (M.seen medium.now).content track) }
{
    for sector in 0..sectors_of(track) {
        let at = Address::new(track, sector).unwrap();
        check_header(medium, at)?;
    }
    Ok(())
}

/// Looks at the headers of all sectors in order: 5 at the first that has a fault.
pub fn check_headers<M: Medium>(medium: &M, geometry: Geometry) -> Result<(), Unsound>
    requires { geometry ≤ (M.seen medium.now).tracks }
    ensures ok { OnOk result ((p : Place) → Has geometry p → IsCellWritable ((M.seen medium.now).content p)) }
    ensures err { IfErr result (HeaderFault geometry (M.seen medium.now).content) }
{
    for track in 1..geometry.tracks() + 1 {
        check_track(medium, track)?;
    }
    Ok(())
}
