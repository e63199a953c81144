//! The fault of a sector.
ghost use Rattle.std.specs.Prelude.{◌≡◌, ◌≤◌, IsOk, MatchOption, Err};

use cbm_medium::{Address, Medium};
use cbm_volume::Volume;

/// The code of the fault that stands in place of a sector's bytes; None where it reads, or the disk has no such track.
pub fn error_at<M: Medium>(volume: &Volume<M>, at: Address) -> Option<u8>
    ensures { let now = M.seen volume.now in
        MatchOption result (at.track ≤ now.tracks → IsOk (now.content at)) (λ code. now.content at ≡ Err code) }
{
    let medium = volume.medium();
    if at.track() > medium.tracks() {
        return None;
    }
    match medium.read(at) {
        Ok(_) => None,
        Err(fault) => Some(fault.code),
    }
}
