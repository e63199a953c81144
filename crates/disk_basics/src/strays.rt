//! Sectors of track 18 that look like a directory's, and to which no link leads: the files in them aren't listed.
mod keeping;

pub use self::keeping::require_kept;
use crate::border::border_place;
use crate::break_off::BreakOff;
use crate::disk::Disk;
use crate::what::What;
use cbm_bam::SectorSet;
use cbm_medium::{Address, Link};
use cbm_shell::{Listed, ShellFault};
use cbm_volume::Entry;
use std::alloc::{AllocError, Global};
use std::fmt::{self, Display, Formatter};

/// The directory's track.
const TRACK: u8 = 18;

/// How many sectors it has.
const SECTORS: u8 = 19;

/// How many entries are in a sector.
const ENTRIES: u8 = 8;

/// How many files aren't listed, and in how many sectors their entries are.
#[derive(Clone, Copy)]
pub struct Unlinked {
    /// How many sectors of track 18.
    pub sectors: usize,
    /// How many files.
    pub files: usize,
}

impl Display for Unlinked {
    fn fmt<W: fmt::Write>(&self, f: &mut Formatter<W>) -> fmt::Result {
        let Unlinked { sectors, files } = *self;
        if sectors == 1 {
            f.write_str("1 sector of track 18 looks like directory, but no link reaches it: ")?;
        } else {
            write!(
                f,
                "{sectors} sectors of track 18 look like directory, but no link reaches them: "
            )?;
        }
        if files == 1 {
            f.write_str("`get-all --salvage` extracts its file")
        } else {
            write!(f, "`get-all --salvage` extracts {files} files from there")
        }
    }
}

/// A sector to which no link leads, and the entries of its files.
#[derive(Drop)]
pub struct Stray {
    /// Where it is.
    pub at: Address,
    /// The entries.
    pub entries: Vec<Entry>,
}

/// The sectors of a disk to which no link leads.
#[derive(Drop)]
pub struct Strays {
    /// They.
    pub sectors: Vec<Stray>,
}

impl Strays {
    /// How many there are; None if there is none.
    pub fn count(&self) -> Option<Unlinked> {
        let mut files: usize = 0;
        for stray in self.sectors.as_slice() {
            files = files.saturating_add(stray.entries.len());
        }
        let sectors = self.sectors.len();
        if sectors == 0 {
            return None;
        }
        Some(Unlinked { sectors, files })
    }
}

/// Whether bytes look like the entry of a file: they have a type that is known, a name, and a first block off the directory's
/// track.
pub fn looks_like_entry(entry: &Entry) -> bool {
    !entry.is_empty()
        && entry.kind().is_some()
        && !entry.name().is_empty()
        && first_place(entry).is_some()
}

/// The place of an entry's first block, if that is off the directory's track.
fn first_place(entry: &Entry) -> Option<Address> {
    let first = entry.first_block();
    if first.track() == TRACK {
        return None;
    }
    Address::new(first.track(), first.sector())
}

/// Whether bytes look like a sector of a directory: it leads to its track or to none, and each slot is empty or has a known type.
fn looks_like_directory(bytes: &[u8; 256]) -> bool {
    let track = bytes[0];
    if track != TRACK && track != 0 {
        return false;
    }
    for number in 0..ENTRIES {
        let entry = Entry::of(bytes, number);
        if !entry.is_empty() && entry.kind().is_none() {
            return false;
        }
    }
    true
}

/// Whether a sector is one of a directory's.
fn is_linked(sectors: &[Link], at: Address) -> bool {
    for sector in sectors {
        if *sector == Link::from(at) {
            return true;
        }
    }
    false
}

/// Whether the file of an entry is listed under another one, which leads to the same first block.
fn is_listed(entries: &[Entry], entry: &Entry) -> bool {
    let first = entry.first_block();
    for other in entries {
        if !other.is_empty() && other.first_block() == first {
            return true;
        }
    }
    false
}

/// Whether an entry to which no link leads is a file's that is still there: the BAM has its first block as taken.
fn is_file(disk: &Disk, listed: &Listed, entry: &Entry) -> bool {
    match first_place(entry) {
        Some(at) => {
            looks_like_entry(entry)
                && disk.is_taken(at)
                && !is_listed(listed.entries.as_slice(), entry)
        }
        None => false,
    }
}

/// The entries of files in a sector to which no link leads.
fn files_in(
    alloc: Global,
    disk: &Disk,
    listed: &Listed,
    bytes: &[u8; 256],
) -> Result<Vec<Entry>, AllocError> {
    let mut entries = Vec::new(alloc);
    if !looks_like_directory(bytes) {
        return Ok(entries);
    }
    for number in 0..ENTRIES {
        let entry = Entry::of(bytes, number);
        if is_file(disk, listed, &entry) {
            entries.push(entry).map_err(AllocError::from)?;
        }
    }
    Ok(entries)
}

/// Whether a place is GEOS's border block, which no link leads to either.
fn is_border(disk: &Disk, at: Address) -> bool {
    match border_place(disk) {
        Some(border) => Link::from(border) == Link::from(at),
        None => false,
    }
}

/// The bytes of a sector, if it may be a directory's to which no link leads: the BAM has it as taken, and no link leads there.
fn unlinked_bytes(disk: &Disk, listed: &Listed, at: Address) -> Option<[u8; 256]> {
    if is_linked(listed.sectors.as_slice(), at) || !disk.is_taken(at) || is_border(disk, at) {
        return None;
    }
    match disk.sector(at) {
        Some(Ok(bytes)) => Some(bytes),
        _ => None,
    }
}

/// Adds a sector, if files are in it and no link leads there.
fn add_stray(
    alloc: Global,
    strays: &mut Strays,
    disk: &Disk,
    listed: &Listed,
    at: Address,
) -> Result<(), AllocError> {
    let Some(bytes) = unlinked_bytes(disk, listed, at) else {
        return Ok(());
    };
    let entries = files_in(alloc, disk, listed, &bytes)?;
    if entries.is_empty() {
        return Ok(());
    }
    Ok(strays.sectors.push(Stray { at, entries })?)
}

/// The sectors of a disk that look like its directory's and to which no link leads. None where the directory breaks off, which is
/// reported by itself. The one error is want of memory.
pub fn strays_on(alloc: Global, disk: &Disk, listed: &Listed) -> Result<Strays, AllocError> {
    let mut strays = Strays {
        sectors: Vec::new(alloc),
    };
    if listed.trouble.is_some() {
        return Ok(strays);
    }
    for number in 1..SECTORS {
        if let Some(at) = Address::new(TRACK, number) {
            add_stray(alloc, &mut strays, disk, listed, at)?;
        }
    }
    Ok(strays)
}

/// Those of an image. Errors: `Image`, `Memory`.
pub fn strays_of(alloc: Global, image: &[u8]) -> Result<Strays, ShellFault> {
    let disk = Disk::open(alloc, image)?;
    let listed = disk.listed(alloc)?;
    Ok(strays_on(alloc, &disk, &listed)?)
}

/// Why a disk may have more files than its directory lists: that breaks off, or no link leads to them. None where it lists all. The one
/// error is want of memory.
pub fn unlisted_on(
    alloc: Global,
    disk: &Disk,
    listed: &Listed,
) -> Result<Option<What>, AllocError> {
    if let Some(trouble) = listed.trouble {
        return Ok(Some(What::Broken(BreakOff {
            entries: listed.entries.len(),
            trouble,
        })));
    }
    match strays_on(alloc, disk, listed)?.count() {
        Some(unlinked) => Ok(Some(What::Unlinked(unlinked))),
        None => Ok(None),
    }
}

/// The sectors that these and their files have.
pub fn held_by(disk: &Disk, strays: &Strays) -> SectorSet {
    let mut held = SectorSet::new();
    for stray in strays.sectors.as_slice() {
        held.insert(stray.at);
        for entry in stray.entries.as_slice() {
            disk.use_file(entry, &mut held);
        }
    }
    held
}
