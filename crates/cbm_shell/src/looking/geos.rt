//! Files of GEOS, which have more blocks than their chains.
ghost use Rattle.std.specs.Prelude.{◌≡◌, ◌≤◌};
ghost use Rattle.cbm_medium.specs.Place.{directory_head};
ghost use Rattle.cbm_bam.specs.Marks.{is_marked};
ghost use Rattle.cbm_directory.specs.Entries.{first_block};
ghost use Rattle.cbm_shell.specs.Mapping.{chain_of, is_among};
ghost use Rattle.cbm_shell.specs.Marking.{with_places};
ghost use Rattle.cbm_shell.specs.Geos.{is_one_chain, is_geos, has_geos_records, geos_of, chains_in, records_of, geos_blocks, in_geos, is_geos_mark, is_geos_map, border_in, geos_places};

use crate::looking::mapping::use_chain;
use cbm_bam::SectorSet;
use cbm_medium::{Address, Geometry, Link, Medium};
use cbm_volume::{Entry, FileType};

/// Where an entry's thirty bytes have the type that GEOS gives its file.
const KIND: usize = 22;

/// The structure of a file whose first block lists its records.
const LISTED: u8 = 1;

/// How many records a block can list.
const RECORDS: u8 = 127;

/// Where 18/0 names the border block.
const BORDER: usize = 171;

/// Where 18/0 says that GEOS formatted the disk.
const MARK: usize = 173;

/// What GEOS keeps in the entry of a file.
#[derive(Clone, Copy, Debug, PartialEq, Eq)]
pub struct Geos {
    /// Whether the file's first block lists the chains of its records (VLIR).
    pub has_records: bool,
    /// Its type, from 1 on.
    pub kind: u8,
}

/// Whether the files of a type are one chain of blocks to the drive.
fn is_one_chain(kind: Option<FileType>) -> bool
    ensures { result ≡ is_one_chain kind }
{
    match kind {
        Some(FileType::Seq | FileType::Prg | FileType::Usr) => true,
        Some(FileType::Del | FileType::Rel) | None => false,
    }
}

/// Whether an entry is that of a file of GEOS.
fn is_geos(entry: &Entry) -> bool
    ensures { result ≡ is_geos entry.now }
{
    entry.is_closed()
        && is_one_chain(entry.kind())
        && entry.record_length() < 2
        && entry.bytes()[KIND] != 0
}

/// Whether the first block of a file of GEOS lists its records.
fn has_records(entry: &Entry) -> bool
    ensures { result ≡ has_geos_records entry.now }
{
    entry.record_length() == LISTED
}

/// What GEOS keeps in an entry; None in one of a file that isn't its own.
pub fn geos_of(entry: &Entry) -> Option<Geos>
    ensures { result ≡ geos_of entry.now }
{
    if !is_geos(entry) {
        return None;
    }
    Some(Geos {
        has_records: has_records(entry),
        kind: entry.bytes()[KIND],
    })
}

/// Puts the sectors of the records that a block lists into the set.
fn use_chains<M: Medium>(medium: &M, geometry: Geometry, block: &[u8; 256], used: &mut SectorSet)
    requires { geometry ≤ (M.seen medium.now).tracks }
    ensures { is_marked used.new
        ≡ with_places (is_marked used.old) (chains_in geometry (M.seen medium.now).content block.now 127) }
{
    for number in 0..RECORDS {
        let at = 2 * number as usize + 2;
        let first = Link::new(block[at], block[at + 1]);
        use_chain(medium, geometry, first, used);
    }
}

/// Puts the sectors of the records that the block at a link lists into the set.
fn use_records<M: Medium>(medium: &M, geometry: Geometry, list: Link, used: &mut SectorSet)
    requires { geometry ≤ (M.seen medium.now).tracks }
    ensures { is_marked used.new
        ≡ with_places (is_marked used.old) (records_of geometry (M.seen medium.now).content list) }
{
    let Some(at) = list.address(geometry) else {
        return;
    };
    let Ok(block) = medium.read(at) else {
        return;
    };
    use_chains(medium, geometry, &block, used);
}

/// Adds the blocks of a GEOS file outside its chain to the set: the info block and the chains of the records.
pub fn use_geos<M: Medium>(medium: &M, geometry: Geometry, entry: &Entry, used: &mut SectorSet)
    requires { geometry ≤ (M.seen medium.now).tracks }
    ensures { is_marked used.new
        ≡ with_places (is_marked used.old) (geos_blocks geometry (M.seen medium.now).content entry.now) }
{
    if !is_geos(entry) {
        return;
    }
    use_chain(medium, geometry, entry.first_side(), used);
    if has_records(entry) {
        use_records(medium, geometry, entry.first_block(), used);
    }
}

/// Puts the blocks that the files of GEOS have beside their chains into the set.
pub(crate) fn use_all_geos<M: Medium>(
    medium: &M,
    geometry: Geometry,
    entries: &[Entry],
    used: &mut SectorSet,
)
    requires { geometry ≤ (M.seen medium.now).tracks }
    ensures { is_marked used.new
        ≡ with_places (is_marked used.old) (in_geos geometry (M.seen medium.now).content entries.now) }
{
    for entry in entries {
        use_geos(medium, geometry, entry, used);
    }
}

/// Whether a text begins as GEOS says that it formatted a disk.
fn is_geos_mark(text: &[u8]) -> bool
    ensures { result ≡ is_geos_mark text.now }
{
    text.starts_with(b"GEOS format")
}

/// Whether the BAM of a disk says that GEOS formatted it.
fn is_geos_map(map: &[u8; 256]) -> bool
    ensures { result ≡ is_geos_map map.now }
{
    is_geos_mark(&map[MARK..])
}

/// Puts the border block of a disk that GEOS formatted into the set.
pub(crate) fn use_border<M: Medium>(medium: &M, geometry: Geometry, used: &mut SectorSet)
    requires { geometry ≤ (M.seen medium.now).tracks }
    ensures { let content = (M.seen medium.now).content in is_marked used.new
        ≡ with_places (is_marked used.old) (border_in geometry content (content directory_head)) }
{
    let _tracks = medium.tracks();
    let Ok(map) = medium.read(Address::of_map()) else {
        return;
    };
    if is_geos_map(&map) {
        let border = Link::new(map[BORDER], map[BORDER + 1]);
        use_chain(medium, geometry, border, used);
    }
}

/// The sectors that GEOS uses beside those that the drive knows of.
pub(crate) fn geos_sectors<M: Medium>(
    medium: &M,
    geometry: Geometry,
    entries: &[Entry],
) -> SectorSet
    requires { geometry ≤ (M.seen medium.now).tracks }
    ensures { is_marked result ≡ is_among (geos_places geometry (M.seen medium.now).content entries.now) }
{
    let mut used = SectorSet::new();
    use_border(medium, geometry, &mut used);
    use_all_geos(medium, geometry, entries, &mut used);
    used
}

/// The blocks that a file of GEOS has beside its chain; none of another file.
pub(crate) fn geos_blocks<M: Medium>(medium: &M, geometry: Geometry, entry: &Entry) -> SectorSet
    requires { geometry ≤ (M.seen medium.now).tracks }
    ensures { is_marked result ≡ is_among (geos_blocks geometry (M.seen medium.now).content entry.now) }
{
    let mut used = SectorSet::new();
    use_geos(medium, geometry, entry, &mut used);
    used
}

/// The blocks of the chain of an entry's file.
pub(crate) fn chain_blocks<M: Medium>(medium: &M, geometry: Geometry, entry: &Entry) -> SectorSet
    requires { geometry ≤ (M.seen medium.now).tracks }
    ensures { is_marked result
        ≡ is_among (chain_of geometry (M.seen medium.now).content (first_block entry.now)) }
{
    let mut used = SectorSet::new();
    use_chain(medium, geometry, entry.first_block(), &mut used);
    used
}
