// The sectors that channels have to themselves.

ghost use Rattle.std.specs.Prelude.{◌≡◌, ◌≤◌, ◌⊎◌, ℕ, List, true, false, length};
ghost use Rattle.cbm_medium.specs.Place.{Place};
ghost use Rattle.cbm_medium.specs.Links.{IsApart, follow, ended};
ghost use Rattle.cbm_bam.specs.Marks.{is_marked};
ghost use Rattle.cbm_chain.specs.Writing.{Wrote, place_or_none};
ghost use Rattle.cbm_volume.specs.Loose.{IsOffLinks, IsOnLinks};

use crate::files::FileWriter;
use crate::volume::Volume;
use cbm_bam::SectorSet;
use cbm_chain::ChainReader;
use cbm_medium::{Geometry, Link, Medium};

/// Puts the sectors into a set along which links lead from one on, at most so many: up to the first link to no sector, or the first sector
/// that doesn't read.
fn insert_linked<M: Medium>(
    medium: &M,
    geometry: Geometry,
    first: Link,
    most: u16,
    set: &mut SectorSet,
)
    requires { geometry ≤ (M.seen medium.now).tracks }
    ensures off { (p : Place) → is_marked set.new p ≡ false → IsOffLinks geometry (M.seen medium.now).content most first p }
    ensures keeps { (p : Place) → is_marked set.new p ≡ false → is_marked set.old p ≡ false }
    ensures only { (p : Place) → is_marked set.new p ≡ true →
        (is_marked set.old p ≡ true) ⊎ IsOnLinks geometry (M.seen medium.now).content most first p }
{
    let mut at = first;
    for passed in 0..most {
        let Some(address) = at.address(geometry) else {
            return;
        };
        set.insert(address);
        let Ok(bytes) = medium.read(address) else {
            return;
        };
        at = Link::of(&bytes);
    }
}

impl<M: Medium> Volume<M> {
    /// Puts the sectors into a set that a reader still has to read.
    pub fn spare_read(&self, reader: &ChainReader, spared: &mut SectorSet)
        requires { reader.now.tracks ≤ (M.seen self.now).tracks }
        ensures spares { (p : Place) → is_marked spared.new p ≡ false → (blocks : List Place) →
            follow reader.now.tracks (M.seen self.now).content reader.now.left reader.now.next ≡ ended blocks → IsApart p blocks }
        ensures keeps { (p : Place) → is_marked spared.new p ≡ false → is_marked spared.old p ≡ false }
        ensures only { (p : Place) → is_marked spared.new p ≡ true → (is_marked spared.old p ≡ true) ⊎
            IsOnLinks reader.now.tracks (M.seen self.now).content reader.now.left reader.now.next p }
    {
        insert_linked(
            &self.medium,
            reader.geometry(),
            reader.next_link(),
            reader.sectors_left(),
            spared,
        );
    }

    /// Puts the blocks of a file into a set that is being written.
    pub fn spare_written(&self, writer: &FileWriter, spared: &mut SectorSet)
        requires { writer.now.chain.tracks ≤ (M.seen self.now).tracks }
        ensures spares { (p : Place) → is_marked spared.new p ≡ false → (places : List Place) (bytes : List ℕ) →
            Wrote (M.seen self.now).content writer.now.chain places bytes → length places ≤ 65535 → IsApart p places }
        ensures keeps { (p : Place) → is_marked spared.new p ≡ false → is_marked spared.old p ≡ false }
        ensures only { let chain = writer.now.chain in (p : Place) → is_marked spared.new p ≡ true → (is_marked spared.old p ≡ true) ⊎
            IsOnLinks chain.tracks (M.seen self.now).content chain.count (place_or_none chain.first) p }
    {
        let chain = &writer.chain;
        insert_linked(
            &self.medium,
            chain.geometry(),
            chain.first_block(),
            chain.count(),
            spared,
        );
    }
}
