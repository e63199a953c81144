// A disk as bytes, and of bytes.
ghost use Rattle.std.specs.Prelude.{◌≡◌, ◌++◌, OnOk, IfOk, IfErr, option_map};
ghost use Rattle.cbm_saved.specs.Texts.{front_of};
ghost use Rattle.cbm_device.specs.Snapshots.{DiskParts, IsLoadRefusal, parts_of, saved_parts, disk_parts_at as parts_in, IsDiskWith, IsKeptDisk, AreSectorsKept, AreSectorsOf};
ghost use Rattle.cbm_channel.specs.Saved.{flag_byte};
ghost use Rattle.cbm_image.specs.declared.any_disk.AnyDisk.TheVariants.{D64, G64};
ghost use Rattle.cbm_device.specs.declared.image_disk.Sectors.TheVariants.{Held, Blank};

use crate::image_disk::{ImageDisk, Sectors};
use crate::refusal::DeviceRefusal;
use cbm_d64::{D64Disk, D64Fault};
use cbm_g64::{G64Disk, G64Fault};
use cbm_image::AnyDisk;
use cbm_medium::Medium;
use cbm_saved::{eight_at, put_eight};
use std::alloc::{AllocError, Global};

/// The parts of a disk: its format, its protection, the count of its writes, and its image.
#[derive(Drop)]
pub struct Parts<'a> {
    pub format: u8,
    pub protected: bool,
    pub writes: u64,
    pub image: &'a [u8],
}

/// So many bytes from the front, and what follows them; None if they are fewer.
fn front_of(count: u64, bytes: &[u8]) -> Option<(&[u8], &[u8])>
    ensures { option_map (λ x. (x.0.now, x.1.now)) result ≡ front_of count bytes.now }
{
    if (bytes.len() as u64) < count {
        return None;
    }
    Some(bytes.split_at(count as usize))
}

/// The parts of a disk that begin some bytes, and what follows them; None if they are none.
pub fn parts_at(bytes: &[u8]) -> Option<(Parts<'_>, &[u8])>
    ensures { option_map (λ x. (parts_of x.0, x.1.now)) result ≡ parts_in bytes.now }
{
    let [format, protected, rest @ ..] = bytes else {
        return None;
    };
    let (writes, rest) = eight_at(rest)?;
    let (count, rest) = eight_at(rest)?;
    let (image, rest) = front_of(count, rest)?;
    let parts = Parts {
        format: *format,
        protected: *protected != 0,
        writes,
        image,
    };
    Some((parts, rest))
}

/// A flag as a byte.
fn flag_byte(flag: bool) -> u8
    ensures { result ≡ flag_byte flag }
{
    if flag { 1 } else { 0 }
}

/// Adds the parts of a disk.
fn save_parts(out: &mut Vec<u8>, parts: &Parts<'_>) -> Result<(), AllocError>
    ensures { OnOk result (out.new.items ≡ out.old.items ++ saved_parts (parts_of parts.now)) }
{
    out.extend_from_slice(&[parts.format, flag_byte(parts.protected)])?;
    put_eight(out, parts.writes)?;
    put_eight(out, parts.image.len() as u64)?;
    out.extend_from_slice(parts.image)
}

/// Adds a D64, and how often it was written.
fn keep_d64(alloc: Global, out: &mut Vec<u8>, disk: &D64Disk, writes: u64) -> Result<(), AllocError>
    ensures { OnOk result (AreSectorsKept (Held (D64 disk.now)) writes out.old.items out.new.items) }
{
    let Ok(image) = disk.to_bytes(alloc) else {
        return Err(AllocError);
    };
    let parts = Parts {
        format: 1,
        protected: disk.protected(),
        writes,
        image: image.as_slice(),
    };
    save_parts(out, &parts)
}

/// Adds a G64, and how often it was written.
fn keep_g64(alloc: Global, out: &mut Vec<u8>, disk: &G64Disk, writes: u64) -> Result<(), AllocError>
    ensures { OnOk result (AreSectorsKept (Held (G64 disk.now)) writes out.old.items out.new.items) }
{
    let Ok(image) = disk.to_bytes(alloc) else {
        return Err(AllocError);
    };
    let parts = Parts {
        format: 2,
        protected: disk.protected(),
        writes,
        image: image.as_slice(),
    };
    save_parts(out, &parts)
}

/// Adds that there is no disk, and how often it was written.
fn keep_blank(out: &mut Vec<u8>, writes: u64) -> Result<(), AllocError>
    ensures { OnOk result (AreSectorsKept Blank writes out.old.items out.new.items) }
{
    let parts = Parts {
        format: 0,
        protected: true,
        writes,
        image: &[],
    };
    save_parts(out, &parts)
}

/// The sectors of a D64.
fn d64_of(alloc: Global, image: &[u8], protected: bool) -> Result<Sectors, DeviceRefusal>
    ensures ok { (p : DiskParts) → p.format ≡ 1 → p.image ≡ image.now → p.protected ≡ protected → IfOk result (AreSectorsOf p) }
    ensures err { IfErr result IsLoadRefusal }
{
    match D64Disk::from_bytes(alloc, image, protected) {
        Ok(disk) => Ok(Sectors::Held(AnyDisk::D64(disk))),
        Err(D64Fault::Size) => Err(DeviceRefusal::NoImage),
        Err(D64Fault::Memory) => Err(DeviceRefusal::Memory),
    }
}

/// The sectors of a G64.
fn g64_of(alloc: Global, image: &[u8], protected: bool) -> Result<Sectors, DeviceRefusal>
    ensures ok { (p : DiskParts) → p.format ≡ 2 → p.image ≡ image.now → p.protected ≡ protected → IfOk result (AreSectorsOf p) }
    ensures err { IfErr result IsLoadRefusal }
{
    match G64Disk::from_bytes(alloc, image, protected) {
        Ok(disk) => Ok(Sectors::Held(AnyDisk::G64(disk))),
        Err(G64Fault::Memory) => Err(DeviceRefusal::Memory),
        Err(_) => Err(DeviceRefusal::NoImage),
    }
}

/// The sectors of these parts. Errors: `NoImage`, `Memory`.
fn sectors_of(alloc: Global, parts: &Parts<'_>) -> Result<Sectors, DeviceRefusal>
    ensures ok { IfOk result (AreSectorsOf (parts_of parts.now)) }
    ensures err { IfErr result IsLoadRefusal }
{
    match parts.format {
        0 => Ok(Sectors::Blank),
        1 => d64_of(alloc, parts.image, parts.protected),
        2 => g64_of(alloc, parts.image, parts.protected),
        _ => Err(DeviceRefusal::NoImage),
    }
}

impl ImageDisk {
    /// Adds the disk, as it shows itself. The one error is want of memory.
    pub fn keep(&self, alloc: Global, out: &mut Vec<u8>) -> Result<(), AllocError>
        ensures { OnOk result (IsKeptDisk self.now out.old.items out.new.items) }
    {
        match &self.sectors {
            Sectors::Held(AnyDisk::D64(disk)) => keep_d64(alloc, out, disk, self.writes),
            Sectors::Held(AnyDisk::G64(disk)) => keep_g64(alloc, out, disk, self.writes),
            Sectors::Blank => keep_blank(out, self.writes),
        }
    }

    /// The disk of these parts. Errors: `NoImage`, `Memory`.
    #[inline(never)]
    pub fn with_parts(alloc: Global, parts: &Parts<'_>) -> Result<ImageDisk, DeviceRefusal>
        ensures ok { IfOk result (IsDiskWith (parts_of parts.now)) }
        ensures err { IfErr result IsLoadRefusal }
    {
        let sectors = sectors_of(alloc, parts)?;
        Ok(ImageDisk {
            sectors,
            writes: parts.writes,
        })
    }
}
