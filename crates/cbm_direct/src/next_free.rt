//! The next sector in number that is free.
ghost use Rattle.std.specs.Prelude.{◌≡◌, ◌≤◌, ◌+◌, IsOk};
ghost use Rattle.cbm_medium.specs.Place.{directory_head, sectors_on};
ghost use Rattle.cbm_bam.specs.Map.{map_of, is_free_in};
ghost use Rattle.cbm_direct.specs.NextFree.{next_on, next_from, next_behind};

use cbm_bam::is_free;
use cbm_medium::{Address, Geometry, Medium, sectors_of};

/// Whether the map, which reads, has a sector as free.
fn has_free<M: Medium>(medium: &M, geometry: Geometry, at: Address) -> bool
    requires room { geometry ≤ (M.seen medium.now).tracks }
    requires map { IsOk ((M.seen medium.now).content directory_head) }
    ensures { result ≡ is_free_in (map_of (M.seen medium.now).content) at }
{
    is_free(medium, geometry, at) == Ok(true)
}

/// The first free one of so many sectors of a track, from one on.
fn next_on<M: Medium>(
    medium: &M,
    geometry: Geometry,
    track: u8,
    sector: u8,
    left: u8,
) -> Option<Address>
    requires room { geometry ≤ (M.seen medium.now).tracks }
    requires map { IsOk ((M.seen medium.now).content directory_head) }
    requires on { sector + left ≤ sectors_on track }
    ensures { result ≡ next_on (is_free_in (map_of (M.seen medium.now).content)) track sector left }
{
    if left == 0 {
        return None;
    }
    let at = Address::new(track, sector).unwrap();
    if has_free(medium, geometry, at) {
        return Some(at);
    }
    next_on(medium, geometry, track, sector + 1, left - 1)
}

/// The first free sector on so many tracks, from one on.
fn next_from<M: Medium>(medium: &M, geometry: Geometry, track: u8, left: u8) -> Option<Address>
    requires room { geometry ≤ (M.seen medium.now).tracks }
    requires map { IsOk ((M.seen medium.now).content directory_head) }
    requires on { track + left ≤ 255 }
    ensures { result ≡ next_from (is_free_in (map_of (M.seen medium.now).content)) track left }
{
    if left == 0 {
        return None;
    }
    match next_on(medium, geometry, track, 0, sectors_of(track)) {
        Some(at) => Some(at),
        None => next_from(medium, geometry, track + 1, left - 1),
    }
}

/// The next free sector in number behind one, on a disk whose map reads; None if there is none.
pub fn next_free<M: Medium>(medium: &M, geometry: Geometry, behind: Address) -> Option<Address>
    requires room { geometry ≤ (M.seen medium.now).tracks }
    requires map { IsOk ((M.seen medium.now).content directory_head) }
    requires on { behind.track ≤ geometry }
    ensures { result ≡ next_behind (is_free_in (map_of (M.seen medium.now).content)) geometry behind }
{
    let track = behind.track();
    let left = sectors_of(track) - behind.sector() - 1;
    match next_on(medium, geometry, track, behind.sector() + 1, left) {
        Some(at) => Some(at),
        None => next_from(medium, geometry, track + 1, geometry.tracks() - track),
    }
}
