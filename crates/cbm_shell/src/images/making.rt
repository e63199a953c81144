//! New images of empty disks.
ghost use Rattle.std.specs.Prelude.{◌≡◌, ◌≤◌, false, length, replicate, None, Ok, IfOk};
ghost use Rattle.cbm_medium.specs.Place.{Place, Has};
ghost use Rattle.cbm_d64.specs.Image.{d64_seen};
ghost use Rattle.cbm_g64.specs.Tracks.{g64_seen};
ghost use Rattle.cbm_image.specs.AnyDisks.{IsDiskOfImage};
ghost use Rattle.cbm_image.specs.Images.{kind_of, image_fault};
ghost use Rattle.cbm_image.specs.declared.kind.Kind.TheVariants.{D64, G64};
ghost use Rattle.cbm_shell.specs.Making.{kind_in, tracks_of_form, IsBlankDisk, IsBlankImage, IsEmpty, IsNew};

use cbm_d64::D64Disk;
use cbm_g64::G64Disk;
use cbm_image::{AnyDisk, ImageFault, OF_35_TRACKS, OF_40_TRACKS};
use cbm_medium::Steady;
use cbm_volume::Volume;
use std::alloc::{AllocError, Global};

/// What a new image is.
#[derive(Clone, Copy, Debug, PartialEq, Eq)]
pub enum Form {
    /// A D64 of 35 tracks.
    D64,
    /// A D64 of 40 tracks, which some drives and programs write.
    LongD64,
    /// A G64 of 35 tracks.
    G64,
}

/// This many zeros.
pub(crate) fn zeros(alloc: Global, count: usize) -> Result<Vec<u8>, AllocError>
    ensures { IfOk result (λ v. v.items ≡ replicate count 0) }
{
    vec![in alloc; 0; count]
}

/// A G64 whose sectors are all zeros.
fn blank_g64(alloc: Global, id: [u8; 2]) -> Result<Vec<u8>, AllocError>
    ensures { IfOk result (λ v. IsBlankImage Form.G64 v.items) }
{
    let sectors = zeros(alloc, OF_35_TRACKS)?;
    let Ok(disk) = D64Disk::from_bytes(alloc, sectors.as_slice(), false) else {
        return Err(AllocError);
    };
    match G64Disk::from_sectors(alloc, &disk, id) {
        Ok(image) => Ok(image),
        Err(_) => Err(AllocError),
    }
}

/// An image whose sectors are all zeros.
fn blank(alloc: Global, form: Form, id: [u8; 2]) -> Result<Vec<u8>, AllocError>
    ensures { IfOk result (λ v. IsBlankImage form v.items) }
{
    match form {
        Form::D64 => zeros(alloc, OF_35_TRACKS),
        Form::LongD64 => zeros(alloc, OF_40_TRACKS),
        Form::G64 => blank_g64(alloc, id),
    }
}

/// The disk of an image that has no fault.
fn opened(alloc: Global, image: &[u8]) -> Result<AnyDisk, AllocError>
    requires { image_fault (kind_of image.now) image.now ≡ None }
    ensures { IfOk result (IsDiskOfImage (kind_of image.now) image.now false) }
{
    match AnyDisk::open(alloc, image, false) {
        Ok(disk) => Ok(disk),
        Err(ImageFault::Memory) => Err(AllocError),
        Err(_) => unreachable!(),
    }
}

/// A disk formatted as the drive's own NEW does it. A disk of zeros is sound, with no block free, and so NEW is refused by
/// none of its sectors.
fn formatted<M: Steady + Drop>(medium: M, title: &[u8], id: [u8; 2]) -> M
    requires short { length title.now ≤ 16 }
    requires blank { (p : Place) → Has (M.seen medium).tracks p → (M.seen medium).content p ≡ Ok (replicate 256 0) }
    requires free { (M.seen medium).protected ≡ false }
    ensures { IsEmpty (M.seen medium).tracks title.now id (M.seen medium).outside (M.seen result) }
{
    let _tracks = medium.tracks();
    let mut volume = Volume::open(medium);
    match volume.new_disk(title, Some(id)) {
        Ok(()) => volume.into_medium(),
        Err(_) => unreachable!(),
    }
}

/// A new D64, of its disk of zeros.
fn new_d64(
    alloc: Global,
    form: Form,
    disk: D64Disk,
    title: &[u8],
    id: [u8; 2],
) -> Result<Vec<u8>, AllocError>
    requires short { length title.now ≤ 16 }
    requires form { kind_in form ≡ D64 }
    requires blank { IsBlankDisk (tracks_of_form form) (d64_seen disk) }
    ensures { IfOk result (λ v. IsNew form title.now id v.items) }
{
    let disk = formatted(disk, title, id);
    match disk.to_bytes(alloc) {
        Ok(image) => Ok(image),
        Err(_) => Err(AllocError),
    }
}

/// A new G64, of its disk of zeros.
fn new_g64(
    alloc: Global,
    form: Form,
    disk: G64Disk,
    title: &[u8],
    id: [u8; 2],
) -> Result<Vec<u8>, AllocError>
    requires short { length title.now ≤ 16 }
    requires form { kind_in form ≡ G64 }
    requires blank { IsBlankDisk (tracks_of_form form) (g64_seen disk) }
    ensures { IfOk result (λ v. IsNew form title.now id v.items) }
{
    let disk = formatted(disk, title, id);
    match disk.to_bytes(alloc) {
        Ok(image) => Ok(image),
        Err(_) => Err(AllocError),
    }
}

/// An image of an empty disk, formatted with a title of at most sixteen bytes and an id as the drive's own NEW does it
/// (1541 User's Guide, "NEW"). No title and no id is refused: the one error is want of memory.
pub fn new_image(
    alloc: Global,
    form: Form,
    title: &[u8],
    id: [u8; 2],
) -> Result<Vec<u8>, AllocError>
    requires { length title.now ≤ 16 }
    ensures { IfOk result (λ v. IsNew form title.now id v.items) }
{
    let image = blank(alloc, form, id)?;
    match opened(alloc, image.as_slice())? {
        AnyDisk::D64(disk) => new_d64(alloc, form, disk, title, id),
        AnyDisk::G64(disk) => new_g64(alloc, form, disk, title, id),
    }
}
