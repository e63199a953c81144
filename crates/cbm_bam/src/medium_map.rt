ghost use Rattle.std.specs.Prelude.{◌≡◌, ◌≢◌, ◌==◌, ◌≤◌, Ok, IsOk, IfOk, IfErr, OnOk, find, is_some};
ghost use Rattle.cbm_medium.specs.Place.{Place, directory_head, sectors_on};
ghost use Rattle.cbm_medium.specs.Content.{IsWhole};
ghost use Rattle.cbm_medium.specs.Seen.{ShowsGround};
ghost use Rattle.cbm_bam.specs.Orders.{directory_order};
ghost use Rattle.cbm_bam.specs.Map.{map_of, is_free_in, count_in, tally, free_in, number, geometry_of};
ghost use Rattle.cbm_bam.specs.Causes.{IsHeadFault};

use crate::map;
use crate::order::in_directory;
use cbm_medium::{Address, Geometry, Medium, Trouble};

/// How many tracks the disk uses: 40 if the medium has 40, 18/0 reads and each count of the tracks 36 to 40 is the
/// number of its free bits, else 35 (this project's rule).
pub fn geometry<M: Medium>(medium: &M) -> Geometry
    ensures value { result ≡ geometry_of (M.seen medium.now).tracks (M.seen medium.now).content }
    ensures room { result ≤ (M.seen medium.now).tracks }

    // A sector that reads has 256 bytes.
    ensures whole { (p : Place) → IsWhole ((M.seen medium.now).content p) }
{
    if medium.tracks() < 40 {
        return Geometry::of_35();
    }
    let Ok(map) = medium.read(Address::of_map()) else {
        return Geometry::of_35();
    };
    if map::is_wide(&map) {
        Geometry::of_40()
    } else {
        Geometry::of_35()
    }
}

/// The 256 bytes of 18/0, or the medium's fault there.
pub fn read_map<M: Medium>(medium: &M, geometry: Geometry) -> Result<[u8; 256], Trouble>
    requires { geometry ≤ (M.seen medium.now).tracks }
    ensures ok { IfOk result (λ map. (M.seen medium.now).content directory_head ≡ Ok map) }
    ensures err { IfErr result (IsHeadFault (M.seen medium.now).content) }
    ensures never_26 { IfErr result (λ t. t.code ≢ 26) }
    ensures shown { IfErr result (ShowsGround (M.seen medium.now)) }
{
    prove!(geometry.tracks() >= 35);
    let map = medium.read(Address::of_map())?;
    Ok(map)
}

/// Whether the map has a sector as free.
pub fn is_free<M: Medium>(medium: &M, geometry: Geometry, at: Address) -> Result<bool, Trouble>
    requires { geometry ≤ (M.seen medium.now).tracks }
    ensures ok { IfOk result (λ free. free ≡ is_free_in (map_of (M.seen medium.now).content) at) }
    ensures read { OnOk result (IsOk ((M.seen medium.now).content directory_head)) }
    ensures err { IfErr result (IsHeadFault (M.seen medium.now).content) }
{
    let map = read_map(medium, geometry)?;
    Ok(map::has(&map, at))
}

/// How many blocks of files the map counts as free: the sum of its counts but track 18's.
pub fn free_blocks<M: Medium>(medium: &M, geometry: Geometry) -> Result<u16, Trouble>
    requires { geometry ≤ (M.seen medium.now).tracks }
    ensures ok { IfOk result (λ free. free ≡ free_in geometry (map_of (M.seen medium.now).content)) }
    ensures read { OnOk result (IsOk ((M.seen medium.now).content directory_head)) }
    ensures err { IfErr result (IsHeadFault (M.seen medium.now).content) }
    ensures shown { IfErr result (ShowsGround (M.seen medium.now)) }
{
    let map = read_map(medium, geometry)?;
    Ok(map::free_blocks(&map, geometry.tracks()))
}

/// How many sectors outside track 18 the map has as free, by its bits and not by its counts.
pub fn free_bits<M: Medium>(medium: &M, geometry: Geometry) -> Result<u16, Trouble>
    requires { geometry ≤ (M.seen medium.now).tracks }
    ensures ok { IfOk result (λ free. free ≡ number geometry (is_free_in (map_of (M.seen medium.now).content))) }
    ensures read { OnOk result (IsOk ((M.seen medium.now).content directory_head)) }
    ensures err { IfErr result (IsHeadFault (M.seen medium.now).content) }
    ensures never_26 { IfErr result (λ t. t.code ≢ 26) }
    ensures shown { IfErr result (ShowsGround (M.seen medium.now)) }
{
    let map = read_map(medium, geometry)?;
    Ok(map::free_bits(&map, geometry.tracks()))
}

/// Whether track 18 has a free sector that the directory could use.
pub fn has_directory_room<M: Medium>(medium: &M, geometry: Geometry) -> Result<bool, Trouble>
    requires { geometry ≤ (M.seen medium.now).tracks }
    ensures ok { IfOk result (λ room. room ≡ is_some (find (is_free_in (map_of (M.seen medium.now).content))
        directory_order)) }
    ensures read { OnOk result (IsOk ((M.seen medium.now).content directory_head)) }
    ensures err { IfErr result (IsHeadFault (M.seen medium.now).content) }
    ensures shown { IfErr result (ShowsGround (M.seen medium.now)) }
{
    let map = read_map(medium, geometry)?;
    Ok(in_directory(&map).is_some())
}

/// Whether the map's count of a track is the number of its free bits.
pub fn is_counted<M: Medium>(medium: &M, geometry: Geometry, track: u8) -> Result<bool, Trouble>
    requires room { geometry ≤ (M.seen medium.now).tracks }
    requires track { track ≤ 40 }
    ensures ok { let map = map_of (M.seen medium.now).content in
        IfOk result (λ counted. counted ≡ (count_in map track == tally (is_free_in map) track (sectors_on track))) }
    ensures read { OnOk result (IsOk ((M.seen medium.now).content directory_head)) }
    ensures err { IfErr result (IsHeadFault (M.seen medium.now).content) }
{
    let map = read_map(medium, geometry)?;
    Ok(map::is_counted(&map, track))
}
