//! Looks into an image.
ghost use Rattle.std.specs.Prelude.{◌≡◌, Err, Ok, false, true, IfErr, IfOk, IsOk, IsOkAnd, MatchResult};
ghost use Rattle.cbm_file.specs.Files.{Disk};
ghost use Rattle.cbm_medium.specs.Place.{directory_head};
ghost use Rattle.cbm_volume.specs.Holding.{HoldsDisk, EntryStandsAt};
ghost use Rattle.cbm_volume.specs.Layouts.{Layout, Sound};
ghost use Rattle.cbm_bam.specs.Map.{geometry_of};
ghost use Rattle.cbm_image.specs.Images.{kind_of, tracks_of, content_of, ImageHolds};
ghost use Rattle.cbm_machine.specs.Machines.{start};
ghost use Rattle.cbm_shell.specs.Images.{IsChecked};
ghost use Rattle.cbm_shell.specs.Listing.{IsSent};
ghost use Rattle.cbm_shell.specs.Reading.{Gets};
ghost use Rattle.cbm_device.specs.ImageDisks.{IsDiskOf, IsOpenRefusal};
ghost use Rattle.cbm_device.specs.Looking.{IsTitleOf, IsUntitled, IsNoDeviceEntry, IsNoSector, IsAccepted, IsLookRefused, IsUnsent, IsUngot};

use crate::image_disk::ImageDisk;
use crate::refusal::DeviceRefusal;
use cbm_channel::{Channels, Dos};
use cbm_medium::{Address, Medium};
use cbm_shell::{get, raw_list};
use cbm_volume::{Entry, Label, Trouble, Unsound, Volume};
use std::alloc::Global;

/// What 18/0 says of a disk.
#[derive(Clone, Copy, Debug, PartialEq, Eq)]
pub struct Heading {
    /// Its title and its mark.
    pub label: Label,
    /// How many blocks are free for files.
    pub free: u16,
}

/// The disk of an image, to look at.
fn volume_of(alloc: Global, image: &[u8]) -> Result<Volume<ImageDisk>, DeviceRefusal>
    ensures ok { IfOk result (λ volume. IsDiskOf image.now true volume) }
    ensures err { IfErr result (IsOpenRefusal image.now) }
{
    let disk = ImageDisk::open(alloc, image, true)?;
    Ok(Volume::open(disk))
}

/// Whether the disk of an image is sound, or what is wrong with it first. Errors: `NoImage`, `Memory`.
pub fn check(alloc: Global, image: &[u8]) -> Result<Result<(), Unsound>, DeviceRefusal>
    ensures ok { let kind = kind_of image.now in
        IfOk result (IsChecked (tracks_of kind image.now) (content_of kind image.now)) }
    ensures exact { let kind = kind_of image.now in let content = content_of kind image.now in (l : Layout) →
        Sound (geometry_of (tracks_of kind image.now) content) content l → IfOk result IsOk }
    ensures err { IfErr result (IsOpenRefusal image.now) }
{
    let volume = volume_of(alloc, image)?;
    Ok(volume.check())
}

/// What 18/0 says of a disk, or the medium's fault there.
fn title_on<M: Medium>(volume: &Volume<M>) -> Result<Heading, Trouble>
    ensures means { (d : Disk) → HoldsDisk (M.seen volume.now).tracks (M.seen volume.now).content d →
        IsOkAnd result (IsTitleOf d) }
    ensures err { IfErr result (λ t. (M.seen volume.now).content directory_head ≡ Err t.code) }
{
    let label = volume.label()?;
    let free = volume.free()?;
    Ok(Heading { label, free })
}

/// What 18/0 says of the disk of an image. Errors: `NoImage`, `Memory`, the fault of 18/0.
pub fn title(alloc: Global, image: &[u8]) -> Result<Heading, DeviceRefusal>
    ensures means { (d : Disk) → ImageHolds (kind_of image.now) image.now d →
        MatchResult result (IsTitleOf d) (IsOpenRefusal image.now) }
    ensures err { IfErr result (IsUntitled image.now) }
{
    let volume = volume_of(alloc, image)?;
    match title_on(&volume) {
        Ok(title) => Ok(title),
        Err(trouble) => Err(DeviceRefusal::from(trouble)),
    }
}

/// The entry of a slot of an image's directory, counted from 0. Errors: `NoImage`, `Memory`, `Absent` past the last slot, or
/// what breaks the directory off.
pub fn entry(alloc: Global, image: &[u8], slot: u8) -> Result<Entry, DeviceRefusal>
    ensures ok { let kind = kind_of image.now in
        IfOk result (EntryStandsAt (tracks_of kind image.now) (content_of kind image.now) slot) }
    ensures err { IfErr result (IsNoDeviceEntry image.now slot) }
{
    let volume = volume_of(alloc, image)?;
    match volume.slot(slot) {
        Ok(Some(entry)) => Ok(entry),
        Ok(None) => Err(DeviceRefusal::Absent),
        Err(trouble) => Err(DeviceRefusal::from(trouble)),
    }
}

/// The bytes of a sector of an image. Errors: `NoImage`, `Memory`, `Absent` if the disk has no such sector, or the fault that
/// stands in place of its bytes.
pub fn sector(
    alloc: Global,
    image: &[u8],
    track: u8,
    sector: u8,
) -> Result<[u8; 256], DeviceRefusal>
    ensures ok { let kind = kind_of image.now in IfOk result (λ bytes.
        content_of kind image.now (record { track = track; sector = sector }) ≡ Ok bytes) }
    ensures err { IfErr result (IsNoSector image.now (record { track = track; sector = sector })) }
{
    let disk = ImageDisk::open(alloc, image, true)?;
    let Some(at) = Address::new(track, sector) else {
        return Err(DeviceRefusal::Absent);
    };
    if track > disk.tracks() {
        return Err(DeviceRefusal::Absent);
    }
    match disk.read(at) {
        Ok(bytes) => Ok(bytes),
        Err(fault) => Err(DeviceRefusal::Status(fault.code)),
    }
}

/// The directory of an image as the drive sends it, a BASIC program, with the files that match a pattern; an empty pattern asks for
/// all. Errors: `NoImage`, `Memory`, the drive's status.
pub fn list(alloc: Global, image: &[u8], pattern: &[u8]) -> Result<Vec<u8>, DeviceRefusal>
    ensures sent { let kind = kind_of image.now in (d : Disk) → ImageHolds kind image.now d →
        let m = start d false (tracks_of kind image.now) in
        MatchResult result (λ v. IsSent pattern.now m v.items) (IsUnsent image.now pattern.now m) }
    // Of any disk:
    ensures refused { MatchResult result (λ _. IsAccepted image.now) (IsLookRefused image.now) }
{
    let disk = ImageDisk::open(alloc, image, false)?;
    let channels = Channels::new(alloc)?;
    let mut dos = Dos::new(disk, channels);
    match raw_list(alloc, &mut dos, pattern) {
        Ok(bytes) => Ok(bytes),
        Err(fault) => Err(DeviceRefusal::from(fault)),
    }
}

/// The bytes of the first file of an image that matches a pattern, of any type. Errors: `NoImage`, `Memory`, `Absent`; 60 for a file
/// that was never closed; what breaks the directory or the file off.
pub fn file(alloc: Global, image: &[u8], pattern: &[u8]) -> Result<Vec<u8>, DeviceRefusal>
    ensures got { (d : Disk) → ImageHolds (kind_of image.now) image.now d →
        MatchResult result (λ v. Gets d pattern.now v.items) (IsUngot image.now d pattern.now) }
    // Of any disk:
    ensures refused { MatchResult result (λ _. IsAccepted image.now) (IsLookRefused image.now) }
{
    let volume = volume_of(alloc, image)?;
    match get(alloc, &volume, pattern) {
        Ok(bytes) => Ok(bytes),
        Err(fault) => Err(DeviceRefusal::from(fault)),
    }
}
