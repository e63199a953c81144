//! A picture of a disk's sectors.
ghost use Rattle.std.specs.Prelude.{◌≡◌, ◌≤◌, [], ◌∷◌, ◌++◌, nat_lt, if◌then◌else◌, codes, decimal, IfOk, IfErr, OnOk};
ghost use Rattle.cbm_medium.specs.Place.{directory_head, sectors_on};
ghost use Rattle.cbm_bam.specs.Map.{geometry_of};
ghost use Rattle.cbm_directory.specs.Slots.{directory_of};
ghost use Rattle.cbm_bam.specs.Marks.{is_marked};
ghost use Rattle.cbm_shell.specs.Mapping.{mark_by, mark_of, sign_of, chain_of, sectors_of, in_files, used_in, is_among, entries_shown, free_by, sign_at, signs_on, row_of, rows_of, picture_of};
ghost use Rattle.cbm_shell.specs.Marking.{with_places};

use crate::fault::ShellFault;
use crate::looking::slots::entries_of;
use cbm_bam::{SectorSet, is_free};
use cbm_medium::{Address, Geometry, Link, Medium, sectors_of};
use cbm_volume::{Entry, Volume};
use itoa::Buffer;
use std::alloc::{AllocError, Global};

/// The numbers of the sectors, over the picture's lines.
const HEAD: &[u8] = b"sector 0         1         2\ntrack  012345678901234567890\n";

/// What the picture's signs mean.
const LEGEND: &[u8] =
    b". free   # used   x can't be read\n? lost: no file uses it, but it isn't free   ! used, but marked free\n";

/// What a sector is.
#[derive(Clone, Copy, Debug, PartialEq, Eq)]
pub enum Mark {
    /// The BAM has it as free.
    Free,
    /// A closed file or the directory uses it.
    Used,
    /// Nothing uses it, and it isn't free.
    Lost,
    /// It is used, and the BAM has it as free.
    Clash,
    /// It can't be read.
    Unreadable,
}

impl Mark {
    /// Its sign in the picture.
    fn sign(self) -> u8
        ensures { result ≡ sign_of self }
    {
        match self {
            Mark::Free => b'.',
            Mark::Used => b'#',
            Mark::Lost => b'?',
            Mark::Clash => b'!',
            Mark::Unreadable => b'x',
        }
    }
}

/// The mark of a sector that reads.
fn mark_by(used: bool, free: bool) -> Mark
    ensures { result ≡ mark_by used free }
{
    match (used, free) {
        (true, true) => Mark::Clash,
        (true, false) => Mark::Used,
        (false, true) => Mark::Free,
        (false, false) => Mark::Lost,
    }
}

/// The mark of a sector.
fn mark_of<M: Medium>(medium: &M, at: Address, used: &SectorSet, free: bool) -> Mark
    requires { at.track ≤ (M.seen medium.now).tracks }
    ensures { result ≡ mark_of ((M.seen medium.now).content at) (is_marked used.now at) free }
{
    match medium.read(at) {
        Ok(_) => mark_by(used.has(at), free),
        Err(_) => Mark::Unreadable,
    }
}

/// Puts the sectors of a chain into the set, up to its end or to what cuts it off.
pub fn use_chain<M: Medium>(medium: &M, geometry: Geometry, from: Link, used: &mut SectorSet)
    requires { geometry ≤ (M.seen medium.now).tracks }
    ensures { is_marked used.new
        ≡ with_places (is_marked used.old) (chain_of geometry (M.seen medium.now).content from) }
{
    let mut link = from;
    let count = geometry.sectors();
    for done in 0..count {
        let Some(at) = link.address(geometry) else {
            return;
        };
        let Ok(bytes) = medium.read(at) else {
            return;
        };
        used.insert(at);
        link = Link::of(&bytes);
    }
}

/// Puts the sectors of an entry's file into the set, if it was closed.
pub(crate) fn use_file<M: Medium>(
    medium: &M,
    geometry: Geometry,
    entry: &Entry,
    used: &mut SectorSet,
)
    requires { geometry ≤ (M.seen medium.now).tracks }
    ensures { is_marked used.new
        ≡ with_places (is_marked used.old) (sectors_of geometry (M.seen medium.now).content entry.now) }
{
    if !entry.is_closed() {
        return;
    }
    use_chain(medium, geometry, entry.first_block(), used);
    if entry.is_relative() {
        use_chain(medium, geometry, entry.first_side(), used);
    }
}

/// Puts the sectors of the closed files into the set.
fn use_files<M: Medium>(medium: &M, geometry: Geometry, entries: &[Entry], used: &mut SectorSet)
    requires { geometry ≤ (M.seen medium.now).tracks }
    ensures { is_marked used.new
        ≡ with_places (is_marked used.old) (in_files geometry (M.seen medium.now).content entries.now) }
{
    for entry in entries {
        use_file(medium, geometry, entry, used);
    }
}

/// The sectors that the directory and the closed files use.
pub fn used_sectors<M: Medium>(medium: &M, geometry: Geometry, entries: &[Entry]) -> SectorSet
    requires { geometry ≤ (M.seen medium.now).tracks }
    ensures { is_marked result ≡ is_among (used_in geometry (M.seen medium.now).content entries.now) }
{
    let mut used = SectorSet::new();
    use_chain(medium, geometry, Link::new(18, 0), &mut used);
    use_chain(medium, geometry, Link::new(18, 1), &mut used);
    use_files(medium, geometry, entries, &mut used);
    used
}

/// Whether the BAM has a sector as free; no sector where 18/0 can't be read.
pub fn is_free_at<M: Medium>(medium: &M, geometry: Geometry, at: Address) -> bool
    requires { geometry ≤ (M.seen medium.now).tracks }
    ensures { result ≡ free_by ((M.seen medium.now).content directory_head) at }
{
    match is_free(medium, geometry, at) {
        Ok(free) => free,
        Err(_) => false,
    }
}

/// Adds the sign of a sector.
fn add_sign<M: Medium>(
    out: &mut Vec<u8>,
    medium: &M,
    geometry: Geometry,
    used: &SectorSet,
    at: Address,
) -> Result<(), AllocError>
    requires room { geometry ≤ (M.seen medium.now).tracks }
    requires track { at.track ≤ geometry }
    ensures { OnOk result (out.new.items
        ≡ out.old.items ++ sign_at (M.seen medium.now).content (is_marked used.now) at ∷ []) }
{
    let free = is_free_at(medium, geometry, at);
    out.push(mark_of(medium, at, used, free).sign())
        .map_err(AllocError::from)
}

/// Adds the signs of a track.
fn add_signs<M: Medium>(
    out: &mut Vec<u8>,
    medium: &M,
    geometry: Geometry,
    used: &SectorSet,
    track: u8,
) -> Result<(), AllocError>
    requires room { geometry ≤ (M.seen medium.now).tracks }
    requires track { track ≤ geometry }
    ensures { OnOk result (out.new.items
        ≡ out.old.items ++ signs_on (M.seen medium.now).content (is_marked used.now) track (sectors_on track)) }
{
    for sector in 0..sectors_of(track) {
        match Address::new(track, sector) {
            Some(at) => add_sign(out, medium, geometry, used, at)?,
            None => unreachable!(),
        }
    }
    Ok(())
}

/// Adds the number of a track, two places wide, and spaces.
fn add_number(out: &mut Vec<u8>, track: u8) -> Result<(), AllocError>
    ensures { OnOk result (out.new.items
        ≡ out.old.items ++ (if nat_lt track 10 then codes " " else []) ++ decimal track ++ codes "     ") }
{
    let mut buffer = Buffer::new();
    if track < 10 {
        out.extend_from_slice(b" ")?;
    }
    out.extend_from_slice(buffer.format(track).as_bytes())?;
    out.extend_from_slice(b"     ")
}

/// Adds the line of a track.
fn add_track<M: Medium>(
    out: &mut Vec<u8>,
    medium: &M,
    geometry: Geometry,
    used: &SectorSet,
    track: u8,
) -> Result<(), AllocError>
    requires room { geometry ≤ (M.seen medium.now).tracks }
    requires track { track ≤ geometry }
    ensures { OnOk result (out.new.items
        ≡ out.old.items ++ row_of (M.seen medium.now).content (is_marked used.now) track) }
{
    add_number(out, track)?;
    add_signs(out, medium, geometry, used, track)?;
    out.extend_from_slice(b"\n")
}

/// The entries of a disk's directory; none where it can't be followed to its end.
pub fn entries_or_none<M: Medium>(
    alloc: Global,
    volume: &Volume<M>,
) -> Result<Vec<Entry>, ShellFault>
    ensures ok { let now = M.seen volume.now in IfOk result (λ v.
        v.items ≡ entries_shown (directory_of (geometry_of now.tracks now.content) now.content)) }
    ensures err { IfErr result (λ fault. fault ≡ ShellFault.Memory) }
{
    match entries_of(alloc, volume) {
        Ok(entries) => Ok(entries),
        Err(ShellFault::Trouble(_)) => Ok(Vec::new(alloc)),
        Err(fault) => Err(fault),
    }
}

/// The lines of the tracks.
fn add_tracks<M: Medium>(
    out: &mut Vec<u8>,
    medium: &M,
    geometry: Geometry,
    used: &SectorSet,
) -> Result<(), AllocError>
    requires { geometry ≤ (M.seen medium.now).tracks }
    ensures { OnOk result (out.new.items
        ≡ out.old.items ++ rows_of (M.seen medium.now).content (is_marked used.now) geometry) }
{
    for track in 0..geometry.tracks() {
        add_track(out, medium, geometry, used, track + 1)?;
    }
    Ok(())
}

/// A line for each track that the disk uses, with a sign for each sector, between the sectors' numbers and what the signs mean.
/// Where the directory can't be followed to its end, no file's sectors are used. The one error is `Memory`.
pub fn picture_of<M: Medium + Drop>(alloc: Global, medium: M) -> Result<Vec<u8>, ShellFault>
    ensures ok { let now = M.seen medium in
        IfOk result (λ v. v.items ≡ picture_of (geometry_of now.tracks now.content) now.content) }
    ensures err { IfErr result (λ fault. fault ≡ ShellFault.Memory) }
{
    let volume = Volume::open(medium);
    let geometry = volume.geometry();
    let entries = entries_or_none(alloc, &volume)?;
    let medium = volume.into_medium();
    let used = used_sectors(&medium, geometry, entries.as_slice());
    let mut out = Vec::from_slice(alloc, HEAD)?;
    add_tracks(&mut out, &medium, geometry, &used)?;
    out.extend_from_slice(LEGEND)?;
    Ok(out)
}
