//! What is spared beside what the DOS has: the blocks of files that were never closed, and those of a disk of GEOS.
ghost use Rattle.std.specs.Prelude.{◌≡◌, ◌≤◌};
ghost use Rattle.cbm_medium.specs.Place.{directory_head};
ghost use Rattle.cbm_volume.specs.SeenDisks.{seen_tracks};
ghost use Rattle.cbm_direct.specs.Spared.{is_unclosed, is_on_chain, leads_to, has_unclosed, begins_as_geos, shows_geos, is_taken_in, has_geos, is_spared};

use cbm_bam::{geometry, is_free};
use cbm_directory::find;
use cbm_medium::{Address, Geometry, Link, Medium};
use cbm_volume::{Entry, Wanted};

/// Where 18/0 says that GEOS formatted the disk.
const MARK: usize = 173;

/// Whether an entry is that of a file that was never closed.
fn is_unclosed(entry: &Entry) -> bool
    ensures { result ≡ is_unclosed entry.now }
{
    !entry.is_empty() && !entry.is_closed()
}

/// Whether links lead to a sector from a place on, as far as the sectors on the way read and are on the disk.
fn is_on_chain<M: Medium>(medium: &M, geometry: Geometry, first: Link, at: Address) -> bool
    requires { geometry ≤ (M.seen medium.now).tracks }
    ensures { result ≡ is_on_chain geometry (M.seen medium.now).content first at }
{
    let mut link = first;
    let count = geometry.sectors();
    for done in 0..count {
        let Some(block) = link.address(geometry) else {
            return false;
        };
        let Ok(bytes) = medium.read(block) else {
            return false;
        };
        if block == at {
            return true;
        }
        link = Link::of(&bytes);
    }
    false
}

/// Whether an entry leads to a sector: from its first block on, or from its first side sector on if its file is relative.
fn leads_to<M: Medium>(medium: &M, entry: &Entry, at: Address) -> bool
    ensures { result ≡ leads_to (seen_tracks (M.seen medium.now)) (M.seen medium.now).content at entry.now }
{
    let geometry = geometry(medium);
    is_on_chain(medium, geometry, entry.first_block(), at)
        || entry.is_relative() && is_on_chain(medium, geometry, entry.first_side(), at)
}

/// An entry of a file that was never closed which leads to a sector.
#[derive(Drop)]
struct Unclosed<'a, M> {
    medium: &'a M,
    at: Address,
}

impl<M: Medium> Wanted for Unclosed<'_, M> {
    ghost use Rattle.cbm_volume.specs.SeenDisks.{seen_tracks};
    ghost use Rattle.cbm_direct.specs.Spared.{is_of_unclosed};

    ghost wants = { λ s. is_of_unclosed (seen_tracks (M.seen s.medium.now)) (M.seen s.medium.now).content s.at };

    fn wants(&self, entry: &Entry) -> bool {
        is_unclosed(entry) && leads_to(self.medium, entry, self.at)
    }
}

/// Whether a file that was never closed has a sector.
fn has_unclosed<M: Medium>(medium: &M, at: Address) -> bool
    ensures { result ≡ has_unclosed (seen_tracks (M.seen medium.now)) (M.seen medium.now).content at }
{
    match find(medium, geometry(medium), &Unclosed { medium, at }) {
        Ok(found) => found.is_some(),
        Err(_) => false,
    }
}

/// Whether a text begins as GEOS marks a disk.
fn begins_as_geos(text: &[u8]) -> bool
    ensures { result ≡ begins_as_geos text.now }
{
    text.starts_with(b"GEOS format")
}

/// Whether GEOS formatted the disk; not if 18/0 can't be read.
pub(crate) fn is_geos_disk<M: Medium>(medium: &M) -> bool
    ensures { result ≡ shows_geos ((M.seen medium.now).content directory_head) }
{
    let _tracks = medium.tracks();
    match medium.read(Address::of_map()) {
        Ok(map) => begins_as_geos(&map[MARK..]),
        Err(_) => false,
    }
}

/// Whether the map has a sector as taken; not if 18/0 can't be read.
fn is_taken<M: Medium>(medium: &M, at: Address) -> bool
    ensures { result ≡ is_taken_in ((M.seen medium.now).content directory_head) at }
{
    match is_free(medium, geometry(medium), at) {
        Ok(free) => !free,
        Err(_) => false,
    }
}

/// Whether GEOS may have a sector: it formatted the disk, and the map has the sector as taken.
fn has_geos<M: Medium>(medium: &M, at: Address) -> bool
    ensures { result ≡ has_geos ((M.seen medium.now).content directory_head) at }
{
    is_geos_disk(medium) && is_taken(medium, at)
}

/// Whether a sector is spared: a file that was never closed has it, or GEOS may have it.
pub(crate) fn is_spared<M: Medium>(medium: &M, at: Address) -> bool
    ensures { result ≡ is_spared (M.seen medium.now) at }
{
    has_unclosed(medium, at) || has_geos(medium, at)
}
