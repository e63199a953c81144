// The map of a whole disk written anew.

ghost use Rattle.std.specs.Prelude.{◌≡◌, ℕ, List, Bool, false, not, ◌+◌, ◌<◌, ◌≤◌, ◌⊎◌, length, slice_index};
ghost use Rattle.cbm_medium.specs.Place.{Place, Has};
ghost use Rattle.cbm_bam.specs.Map.{is_free_in, IsCounted, IsOutsideMap, IsSpare};
ghost use Rattle.cbm_bam.specs.Marks.{is_marked};
ghost use Rattle.cbm_bam.specs.WrittenAnew.{IsAnew};

use crate::map::give;
use crate::sector_set::SectorSet;
use cbm_medium::{Address, Geometry, sectors_of};

/// Clears some of the bytes of 18/0.
fn clear(map: &mut [u8; 256], begin: usize, end: usize)
    requires { (begin ≤ end) × (end ≤ 256) }
    ensures zeros { (i : ℕ) → begin ≤ i → i < end → slice_index map.new i ≡ 0 }
    ensures others { (i : ℕ) → (i < begin) ⊎ (end ≤ i) → slice_index map.new i ≡ slice_index map.old i }
{
    for i in begin..end {
        map[i] = 0;
    }
}

/// The map with no sector of these tracks free, and none counted.
fn all_taken(map: &[u8; 256], geometry: Geometry) -> [u8; 256]
    ensures { (used : Place → Bool) → IsAnew geometry map.now result used 1 0 }
{
    let mut taken = *map;
    clear(&mut taken, 4, 144);
    if geometry.tracks() < 40 {
        return taken;
    }
    clear(&mut taken, 192, 212);
    taken
}

/// Sets the sectors of a track free that aren't used.
fn free_unused(map: &mut [u8; 256], track: u8, used: &SectorSet)
    ensures { (tracks : ℕ) (old : List ℕ) → track ≤ tracks → tracks ≤ 40 →
        IsAnew tracks old map.old (is_marked used.now) track 0 →
        IsAnew tracks old map.new (is_marked used.now) (track + 1) 0 }
{
    for sector in 0..sectors_of(track) {
        let at = Address::new(track, sector).unwrap();
        if used.has(at) {
            continue;
        }
        give(map, at);
    }
}

/// Writes the whole map of a disk of these tracks: each of its sectors is free but those that are used, and each
/// count is the number of free bits; the bits of no sector are 0. What else stands in 18/0 stays.
pub fn anew(map: &[u8; 256], geometry: Geometry, used: &SectorSet) -> [u8; 256]
    ensures free { (p : Place) → Has geometry p → is_free_in result p ≡ not (is_marked used.now p) }
    ensures counted { IsCounted geometry result }
    ensures outside { (i : ℕ) → IsOutsideMap geometry i → slice_index result i ≡ slice_index map.now i }
    ensures spare { (p : Place) → IsSpare geometry p → is_free_in result p ≡ false }
    ensures length { length result ≡ 256 }
{
    let mut anew = all_taken(map, geometry);
    for track in 1..geometry.tracks() + 1 {
        free_unused(&mut anew, track, used);
    }
    anew
}
