//! Looking into the bytes of an image.
ghost use Rattle.std.specs.Prelude.{◌≡◌, ◌⊎◌, ℕ, List, None, Some, IfOk, IfErr, MatchResult, MatchOption, ◌<◌};
ghost use Rattle.cbm_file.specs.Files.{Disk};
ghost use Rattle.cbm_directory.specs.Slots.{directory_of};
ghost use Rattle.cbm_bam.specs.Map.{geometry_of};
ghost use Rattle.cbm_volume.specs.Holding.{HasBytes, EntryStandsAt};
ghost use Rattle.cbm_image.specs.Images.{kind_of, tracks_of, ImageHolds};
ghost use Rattle.cbm_shell.specs.Converting.{content_held};
ghost use Rattle.cbm_shell.specs.Images.{IsOpenFault, OrOpenFault, OfHeld, IsCheckedImage};
ghost use Rattle.cbm_shell.specs.Reading.{IsReadFault};
ghost use Rattle.cbm_bam.specs.Marks.{is_marked};
ghost use Rattle.cbm_shell.specs.Geos.{geos_blocks};
ghost use Rattle.cbm_directory.specs.Entries.{first_block};
ghost use Rattle.cbm_shell.specs.Mapping.{picture_of, chain_of, is_among};
ghost use Rattle.cbm_shell.specs.Sectors.{faults_shown};

mod facts;
mod freeing;
mod geos;
pub(crate) mod listing;
mod mapping;
mod opening;
pub(crate) mod reading;
pub(crate) mod salvaging;
pub(crate) mod sectors;
mod slots;

use crate::fault::ShellFault;
use crate::images::opened;
use cbm_bam::SectorSet;
use cbm_medium::{Address, Medium};
use cbm_volume::Entry;
pub use facts::{Info, info_of};
pub use freeing::Freed;
pub(crate) use freeing::freed_by;
pub(crate) use geos::{geos_sectors, use_all_geos, use_border};
pub use geos::{Geos, geos_of, use_geos};
pub use listing::{list, raw_list};
pub(crate) use mapping::use_file;
pub use mapping::{Mark, entries_or_none, is_free_at, picture_of, use_chain, used_sectors};
pub use opening::open_disk;
pub use reading::{Named, get, read_file};
pub use salvaging::{listed_of, salvage};
pub use slots::entries_of;
use std::alloc::Global;

/// The entries of an image's directory in order, those of empty slots too. Errors: `Image`; `Trouble` where the directory
/// can't be followed to its end; `Memory`.
pub fn entries(alloc: Global, image: &[u8]) -> Result<Vec<Entry>, ShellFault>
    ensures ok { let content = content_held image.now in
        IfOk result (λ v. directory_of (geometry_of (tracks_of (kind_of image.now) image.now) content) content
        ≡ (record { entries = v.items; trouble = None })) }
    ensures err { let content = content_held image.now in IfErr result (λ fault. IsOpenFault image.now fault ⊎
        IsReadFault (directory_of (geometry_of (tracks_of (kind_of image.now) image.now) content) content).trouble fault) }
{
    let disk = open_disk(alloc, image)?;
    entries_of(alloc, &disk)
}

/// The bytes of the file of an entry that stands in an image's directory; of a relative file all records. Errors: `Image`;
/// `Trouble`, where its chain can't be followed to its end; `Memory`.
pub fn file_of(alloc: Global, image: &[u8], entry: &Entry) -> Result<Vec<u8>, ShellFault>
    // A closed file without records on a sound disk is got byte for byte.
    ensures { let kind = kind_of image.now in (d : Disk) (n : ℕ) (bytes : List ℕ) → ImageHolds kind image.now d →
        EntryStandsAt (tracks_of kind image.now) (content_held image.now) n entry.now → HasBytes d n bytes →
        MatchResult result (λ v. v.items ≡ bytes) (OrOpenFault image.now (λ fault. fault ≡ ShellFault.Memory)) }
{
    let disk = open_disk(alloc, image)?;
    read_file(alloc, &disk, entry)
}

/// What the disk of an image is. Errors: `Image`, `Memory`.
pub fn info(alloc: Global, image: &[u8]) -> Result<Info, ShellFault>
    // The sectors that don't read, in order.
    ensures faults { IfOk result (λ info. info.unreadable.items ≡ faults_shown image.now) }
    ensures tracks { IfOk result (λ info. info.tracks ≡ tracks_of (kind_of image.now) image.now) }
    ensures check { IfOk result (λ info. IsCheckedImage image.now info.check) }
    ensures means { OfHeld image.now (λ d. IfOk result (λ info.
        (info.label ≡ Some (record { title = d.title; mark = d.mark })) × (info.free ≡ Some d.free))) }
    ensures err { IfErr result (IsOpenFault image.now) }
{
    let disk = opened(alloc, image)?;
    let info = info_of(alloc, disk)?;
    Ok(info)
}

/// A picture of an image's sectors, as lines: a sign for each sector, and what the signs mean. Errors: `Image`, `Memory`.
pub fn picture(alloc: Global, image: &[u8]) -> Result<Vec<u8>, ShellFault>
    // A sector is shown as used exactly where the directory, its BAM or a closed file has it.
    ensures ok { let content = content_held image.now in
        IfOk result (λ v. v.items ≡ picture_of (geometry_of (tracks_of (kind_of image.now) image.now) content) content) }
    ensures err { IfErr result (IsOpenFault image.now) }
{
    let disk = opened(alloc, image)?;
    picture_of(alloc, disk)
}

/// The blocks that a file of GEOS has beside its chain: that of its info, and those of its records. None of another file.
/// Errors: `Image`, `Memory`.
pub fn geos_blocks(alloc: Global, image: &[u8], entry: &Entry) -> Result<SectorSet, ShellFault>
    ensures ok { let content = content_held image.now in IfOk result (λ set. is_marked set
        ≡ is_among (geos_blocks (geometry_of (tracks_of (kind_of image.now) image.now) content) content entry.now)) }
    ensures err { IfErr result (IsOpenFault image.now) }
{
    let disk = opened(alloc, image)?;
    let geometry = cbm_bam::geometry(&disk);
    Ok(geos::geos_blocks(&disk, geometry, entry))
}

/// The blocks of the chain of an entry's file, up to where it ends or breaks off. Errors: `Image`, `Memory`.
pub fn file_blocks(alloc: Global, image: &[u8], entry: &Entry) -> Result<SectorSet, ShellFault>
    ensures ok { let content = content_held image.now in IfOk result (λ set. is_marked set
        ≡ is_among (chain_of (geometry_of (tracks_of (kind_of image.now) image.now) content) content (first_block entry.now))) }
    ensures err { IfErr result (IsOpenFault image.now) }
{
    let disk = opened(alloc, image)?;
    let geometry = cbm_bam::geometry(&disk);
    Ok(geos::chain_blocks(&disk, geometry, entry))
}

/// The 256 bytes of a sector, or the code of the fault that stands in their place; None where the image has no such track.
/// Errors: `Image`, `Memory`.
pub fn sector(
    alloc: Global,
    image: &[u8],
    at: Address,
) -> Result<Option<Result<[u8; 256], u8>>, ShellFault>
    ensures ok { IfOk result (λ o. MatchOption o (tracks_of (kind_of image.now) image.now < at.track)
        (λ cell. content_held image.now at ≡ cell)) }
    ensures err { IfErr result (IsOpenFault image.now) }
{
    let disk = opened(alloc, image)?;
    if at.track() > disk.tracks() {
        return Ok(None);
    }
    match disk.read(at) {
        Ok(bytes) => Ok(Some(Ok(bytes))),
        Err(fault) => Ok(Some(Err(fault.code))),
    }
}
