// The directory grows.

ghost use Rattle.std.specs.Prelude.{◌≡◌, ◌≢◌, ◌≤◌, true, Some, Ok, IfOk, IfErr, OnErr};
ghost use Rattle.cbm_medium.specs.Links.{follow};
ghost use Rattle.cbm_medium.specs.Seen.{ShowsGround, OnlyContent};
ghost use Rattle.cbm_directory.specs.Entries.{HasLink, first_directory};
ghost use Rattle.cbm_directory.specs.Growth.{IsLastSector, new_sector, GrowthStopped, IsGrowthRefused, GrowsIfRoom};

use crate::slots::MOST;
use cbm_bam::claim_directory;
use cbm_medium::{Address, Geometry, Link, Medium, Trouble, read_linked};

/// The last byte of the link in a directory's last sector (Inside Commodore DOS).
const ALL_USED: u8 = 0xFF;

/// A sector of the directory, where it is, and how many stand before it.
#[derive(Drop)]
struct Sector {
    at: Address,
    bytes: [u8; 256],
    before: u16,
}

/// The last sector of the directory. An `Err` is what breaks the directory off: 66, 71 or the medium's fault.
fn last_sector<M: Medium>(medium: &M, geometry: Geometry) -> Result<Sector, Trouble>
    requires { geometry ≤ (M.seen medium.now).tracks }
    ensures last { IfOk result (λ s. IsLastSector geometry (M.seen medium.now).content s.at s.before) }
    ensures bytes { IfOk result (λ s. (M.seen medium.now).content s.at ≡ Ok s.bytes) }
    ensures track { IfOk result (λ s. s.at.track ≤ geometry) }
    ensures err { IfErr result (λ t.
        (follow geometry (M.seen medium.now).content 18 first_directory).trouble ≡ Some t) }
    ensures never_26 { IfErr result (λ t. t.code ≢ 26) }
    ensures shown { IfErr result (ShowsGround (M.seen medium.now)) }
{
    let mut at = Link::new(18, 1);
    let mut left = MOST;
    loop {
        let bytes = read_linked(medium, geometry, at, left)?;
        let next = Link::of(&bytes);
        if next.is_end() {
            let at = at.address(geometry).unwrap();
            let before = MOST - left;
            return Ok(Sector { at, bytes, before });
        }
        at = next;
        left -= 1;
    }
}

/// A sector of the directory with another link; its entries stay.
fn linked(sector: &[u8; 256], next: Address) -> [u8; 256]
    ensures { HasLink sector.now result next }
{
    let mut new = *sector;
    new[0] = next.track();
    new[1] = next.sector();
    new
}

/// A last sector of the directory with eight empty entries.
fn blank() -> [u8; 256]
    ensures { result ≡ new_sector }
{
    let mut sector = [0; 256];
    sector[1] = ALL_USED;
    sector
}

/// Makes room for eight more entries: claims a free sector of track 18, writes it as the new last sector, then links
/// the old last sector to it. False, with nothing changed, if track 18 has no free sector, or the directory has
/// eighteen, whatever the map says. An `Err` leaves the directory as it was, with at most that sector claimed.
pub fn grow<M: Medium>(medium: &mut M, geometry: Geometry) -> Result<bool, Trouble>
    requires { geometry ≤ (M.seen medium.old).tracks }
    ensures grown { IfOk result (GrowsIfRoom geometry (M.seen medium.old).content (M.seen medium.new).content) }
    ensures stopped { OnErr result (GrowthStopped geometry (M.seen medium.old).content (M.seen medium.new).content) }
    ensures cause { IfErr result (IsGrowthRefused geometry (M.seen medium.old) (M.seen medium.new)) }
    ensures only { OnlyContent geometry result (M.seen medium.old) (M.seen medium.new) }
{
    let last = last_sector(medium, geometry)?;
    if last.before == MOST - 1 {
        return Ok(false);
    }
    let Some(at) = claim_directory(medium, geometry)? else {
        return Ok(false);
    };
    prove!(at.track() <= 40);
    medium.write(at, &blank())?;
    let bytes = linked(&last.bytes, at);
    medium.write(last.at, &bytes)?;
    Ok(true)
}
