//! The sectors that are taken while a file is moved, and after it.
ghost use Rattle.std.specs.Prelude.{◌≡◌, ◌≤◌};
ghost use Rattle.cbm_medium.specs.Place.{sectors_on, directory_head};
ghost use Rattle.cbm_bam.specs.Marks.{is_marked};
ghost use Rattle.cbm_shell.specs.Mapping.{is_among};
ghost use Rattle.cbm_shell.specs.Marking.{with_places};
ghost use Rattle.cbm_shell.specs.Passing.{place_if, places_on, places_in};
ghost use Rattle.cbm_place.specs.Moves.{is_taken, taken_places};

use cbm_bam::SectorSet;
use cbm_medium::{Address, Geometry, Medium, sectors_of};
use cbm_shell::parts::is_free_at;

/// The sectors that a file leaves, and those that it claims.
#[derive(Drop)]
pub(crate) struct Change {
    /// Those that it leaves; one that it claims, too, stays taken.
    pub(crate) left: SectorSet,
    /// Those that it claims.
    pub(crate) claimed: SectorSet,
}

/// Whether a sector is taken after a change.
fn is_taken<M: Medium>(medium: &M, geometry: Geometry, change: &Change, at: Address) -> bool
    requires { geometry ≤ (M.seen medium.now).tracks }
    ensures { result ≡ is_taken ((M.seen medium.now).content directory_head) (is_marked change.now.left) (is_marked change.now.claimed) at }
{
    (!is_free_at(medium, geometry, at) && !change.left.has(at)) || change.claimed.has(at)
}

/// Puts a sector into a set, if it is taken.
fn insert_if(set: &mut SectorSet, is_taken: bool, at: Address)
    ensures { is_marked set.new ≡ with_places (is_marked set.old) (place_if is_taken at) }
{
    if is_taken {
        set.insert(at);
    }
}

/// Puts the sectors of a track into a set that are taken after a change.
fn take_on<M: Medium>(
    medium: &M,
    geometry: Geometry,
    change: &Change,
    track: u8,
    taken: &mut SectorSet,
)
    requires room { geometry ≤ (M.seen medium.now).tracks }
    requires track { track ≤ 40 }
    ensures { let test = is_taken ((M.seen medium.now).content directory_head) (is_marked change.now.left) (is_marked change.now.claimed) in
        is_marked taken.new ≡ with_places (is_marked taken.old) (places_on test track (sectors_on track)) }
{
    for sector in 0..sectors_of(track) {
        match Address::new(track, sector) {
            Some(at) => insert_if(taken, is_taken(medium, geometry, change, at), at),
            None => unreachable!(),
        }
    }
}

/// The sectors that are taken after a change.
pub(crate) fn taken_sectors<M: Medium>(medium: &M, geometry: Geometry, change: &Change) -> SectorSet
    requires { geometry ≤ (M.seen medium.now).tracks }
    ensures { is_marked result
        ≡ is_among (taken_places geometry (M.seen medium.now).content (is_marked change.now.left) (is_marked change.now.claimed)) }
{
    let mut taken = SectorSet::new();
    for track in 0..geometry.tracks() {
        take_on(medium, geometry, change, track + 1, &mut taken);
    }
    taken
}
