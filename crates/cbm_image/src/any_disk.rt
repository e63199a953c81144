//! The disk of an image of either format.
ghost use Rattle.std.specs.Prelude.{◌≡◌, Err, IfSome, IfOk, IfErr};
ghost use Rattle.cbm_d64.specs.Image.{d64_seen};
ghost use Rattle.cbm_g64.specs.Tracks.{g64_seen};
ghost use Rattle.cbm_image.specs.AnyDisks.{any_kind, any_seen, any_has_codes, outer_good, is_steady, IsDiskOfImage};
ghost use Rattle.cbm_image.specs.Images.{kind_of, image_fault, IsOf, IsImageRefusal};
ghost use Rattle.cbm_image.specs.declared.kind.Kind.TheVariants as kind;

use crate::fault::ImageFault;
use crate::kind::{Kind, kind_of};
use cbm_d64::{D64Disk, D64Fault};
use cbm_g64::{G64Disk, G64Fault};
use cbm_medium::{Address, Fault, Medium, Steady};
use std::alloc::{AllocError, Global};

/// The disk of an image, in memory. It never fails by itself.
#[derive(Drop)]
pub enum AnyDisk {
    /// Of a D64: an array of sectors.
    D64(D64Disk),
    /// Of a G64: circles of bits.
    G64(G64Disk),
}

/// The disk of a D64.
fn open_d64(alloc: Global, image: &[u8], protected: bool) -> Result<AnyDisk, ImageFault>
    ensures ok { IfOk result (λ d. IsDiskOfImage kind.D64 image.now protected d) }
    ensures refused { IfSome (image_fault kind.D64 image.now) (λ n. result ≡ Err (ImageFault.Format n)) }
    ensures cause { IfErr result (IsImageRefusal (image_fault kind.D64 image.now)) }
{
    match D64Disk::from_bytes(alloc, image, protected) {
        Ok(disk) => Ok(AnyDisk::D64(disk)),
        Err(D64Fault::Size) => Err(ImageFault::Format(D64Fault::Size.number())),
        Err(D64Fault::Memory) => Err(ImageFault::Memory),
    }
}

/// The disk of a G64.
fn open_g64(alloc: Global, image: &[u8], protected: bool) -> Result<AnyDisk, ImageFault>
    ensures ok { IfOk result (λ d. IsDiskOfImage kind.G64 image.now protected d) }
    ensures refused { IfSome (image_fault kind.G64 image.now) (λ n. result ≡ Err (ImageFault.Format n)) }
    ensures cause { IfErr result (IsImageRefusal (image_fault kind.G64 image.now)) }
{
    match G64Disk::from_bytes(alloc, image, protected) {
        Ok(disk) => Ok(AnyDisk::G64(disk)),
        Err(G64Fault::Memory) => Err(ImageFault::Memory),
        Err(fault) => Err(ImageFault::Format(fault.number())),
    }
}

/// The image of the disk of a D64.
#[tactic(auto, using(crate::proofs::ImageSizes::right_size))]
fn save_d64(alloc: Global, disk: &D64Disk) -> Result<Vec<u8>, AllocError>
    ensures { IfOk result (λ image. IsOf kind.D64 image.items (d64_seen disk.now)) }
{
    disk.to_bytes(alloc).map_err(|_| AllocError)
}

/// The image of the disk of a G64.
fn save_g64(alloc: Global, disk: &G64Disk) -> Result<Vec<u8>, AllocError>
    ensures { IfOk result (λ image. IsOf kind.G64 image.items (g64_seen disk.now)) }
{
    disk.to_bytes(alloc).map_err(|_| AllocError)
}

impl AnyDisk {
    /// The disk of an image. Errors: `Format` with the number of the format's first fault, or `Memory`.
    // (In its caller's frame its tracks would take stack as long as a drive does.)
    #[inline(never)]
    pub fn open(alloc: Global, image: &[u8], protected: bool) -> Result<AnyDisk, ImageFault>
        ensures ok { IfOk result (λ d. IsDiskOfImage (kind_of image.now) image.now protected d) }
        ensures refused { IfSome (image_fault (kind_of image.now) image.now) (λ n. result ≡ Err (ImageFault.Format n)) }
        ensures cause { IfErr result (IsImageRefusal (image_fault (kind_of image.now) image.now)) }
    {
        match kind_of(image) {
            Kind::D64 => open_d64(alloc, image, protected),
            Kind::G64 => open_g64(alloc, image, protected),
        }
    }

    /// The format of its images.
    pub fn kind(&self) -> Kind
        ensures { result ≡ any_kind self.now }
    {
        match self {
            AnyDisk::D64(_) => Kind::D64,
            AnyDisk::G64(_) => Kind::G64,
        }
    }

    /// The image of the disk as it is now, in this format; it opens again. The one error is want of memory. A disk of the other
    /// format, which no write makes of it, is refused so, too.
    pub fn save(&self, alloc: Global, kind: Kind) -> Result<Vec<u8>, AllocError>
        ensures { IfOk result (λ image. IsOf kind image.items (any_seen self.now)) }
    {
        match (self, kind) {
            (AnyDisk::D64(disk), Kind::D64) => save_d64(alloc, disk),
            (AnyDisk::G64(disk), Kind::G64) => save_g64(alloc, disk),
            _ => Err(AllocError),
        }
    }
}

impl Medium for AnyDisk {
    ghost use Rattle.cbm_image.specs.AnyDisks.{any_seen, any_has_codes, outer_good};

    ghost seen = { any_seen };

    ghost codes = { any_has_codes };

    ghost outer_headers = { outer_good };

    fn read(&self, at: Address) -> Result<[u8; 256], Fault> {
        match self {
            AnyDisk::D64(disk) => disk.read(at),
            AnyDisk::G64(disk) => disk.read(at),
        }
    }

    fn write(&mut self, at: Address, bytes: &[u8; 256]) -> Result<(), Fault> {
        match self {
            AnyDisk::D64(disk) => disk.write(at, bytes),
            AnyDisk::G64(disk) => disk.write(at, bytes),
        }
    }

    fn format(&mut self, id: [u8; 2]) -> Result<(), Fault> {
        match self {
            AnyDisk::D64(disk) => disk.format(id),
            AnyDisk::G64(disk) => disk.format(id),
        }
    }

    fn tracks(&self) -> u8 {
        match self {
            AnyDisk::D64(disk) => disk.tracks(),
            AnyDisk::G64(disk) => disk.tracks(),
        }
    }

    fn protected(&self) -> bool {
        match self {
            AnyDisk::D64(disk) => disk.protected(),
            AnyDisk::G64(disk) => disk.protected(),
        }
    }

    fn failures(&self) -> u64 {
        0
    }
}

impl Steady for AnyDisk {
    ghost use Rattle.cbm_image.specs.AnyDisks.{is_steady};

    ghost steady = { is_steady };
}
