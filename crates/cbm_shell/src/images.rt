//! What is done with the bytes of an image.
ghost use Rattle.std.specs.Prelude.{◌≡◌, ℕ, List, None, false, IfErr, IfOk, OnOk, MatchResult};
ghost use Rattle.cbm_file.specs.Files.{Disk};
ghost use Rattle.cbm_machine.specs.Machines.{start};
ghost use Rattle.cbm_channel.specs.Standing.{Stands};
ghost use Rattle.cbm_volume.specs.Holding.{HoldsDisk};
ghost use Rattle.cbm_bam.specs.Map.{geometry_of};
ghost use Rattle.cbm_image.specs.AnyDisks.{any_seen};
ghost use Rattle.cbm_image.specs.Images.{kind_of, tracks_of, content_of, outside_of, ImageHolds, OpensAgain, KeepsOtherBytes, ChangesSectors};
ghost use Rattle.cbm_shell.specs.Changing.{change_formats};
ghost use Rattle.cbm_shell.specs.Reading.{Gets};
ghost use Rattle.cbm_shell.specs.Listing.{IsListing, IsSent};
ghost use Rattle.cbm_shell.specs.Images.{IsImageOpened, IsSaved, IsOpenFault, IsFailed, IsLost, ShowsFileIn, IsSoundImage, IsHidden, IsChecked, IsOrderlyDisk, IsInOrder, IsImageInOrder, OfHeld, machine_on, HasChanged};
ghost use Rattle.cbm_volume.specs.Sweeps.{IsPutInOrder};
ghost use Rattle.cbm_shell.specs.Freeing.{AreFreed, AreGivenBack};
ghost use Rattle.cbm_shell.specs.Mending.{IsNotMended};

pub(crate) mod converting;
pub(crate) mod formats;
pub(crate) mod making;
pub(crate) mod wrapped;

use crate::changing::{DiskChange, changed};
use crate::fault::ShellFault;
use crate::looking::listing::{list, raw_list};
use crate::looking::reading::get;
use crate::looking::{Freed, freed_by, open_disk};
use crate::texts::petscii::Charset;
use cbm_channel::{Channels, Dos};
use cbm_image::{AnyDisk, ImageFault, Kind, kind_of};
use cbm_volume::Unsound;
pub use converting::{Converted, Losses, convert};
pub use formats::{Foreign, foreign_of};
pub use making::{Form, new_image};
use std::alloc::Global;
pub use wrapped::{Wrapped, unwrapped};

/// The disk of an image. Errors: `Image` with the number of the format's first fault, `Memory`.
pub fn opened(alloc: Global, image: &[u8]) -> Result<AnyDisk, ShellFault>
    ensures ok { IfOk result (λ disk. IsImageOpened image.now (any_seen disk)) }
    ensures err { IfErr result (IsOpenFault image.now) }
{
    match AnyDisk::open(alloc, image, false) {
        Ok(disk) => Ok(disk),
        Err(ImageFault::Format(number)) => Err(ShellFault::Image(number)),
        Err(ImageFault::Memory) => Err(ShellFault::Memory),
    }
}

/// The image of a disk in the format that it was opened from. The one error is `Memory`.
pub fn saved(alloc: Global, disk: &AnyDisk, kind: Kind) -> Result<Vec<u8>, ShellFault>
    ensures ok { IfOk result (λ v. IsSaved kind v.items (any_seen disk.now)) }
    ensures err { IfErr result (λ fault. fault ≡ ShellFault.Memory) }
{
    disk.save(alloc, kind).map_err(|_| ShellFault::Memory)
}

/// Makes a change on the disk of an image, and gives the image as it is then. Errors: `Image`; `Unsound`, with what is
/// wrong first; `Refused`, with the drive's status; `Memory`.
pub fn change(alloc: Global, image: &[u8], change: &DiskChange<'_>) -> Result<Vec<u8>, ShellFault>
    ensures made { OfHeld image.now (λ d. MatchResult result (λ v. HasChanged image.now change.now d v.items)
        (IsFailed image.now change.now (machine_on image.now d))) }
    // An image that isn't sound gives no new one, and the new image opens again.
    ensures sound { OnOk result (IsSoundImage (kind_of image.now) image.now) }
    ensures opens { IfOk result (λ v. OpensAgain image.now v.items) }
    // All but its sectors is as it was, unless the change is NEW.
    ensures bytes { change_formats change.now ≡ false → IfOk result (λ v. KeepsOtherBytes image.now v.items) }
{
    let disk = opened(alloc, image)?;
    let channels = Channels::new(alloc)?;
    let disk = changed(disk, channels, change)?;
    saved(alloc, &disk, kind_of(image))
}

/// Takes the first file that matches a pattern out of an image. Errors: `Image`, `NotFound`, `NotClosed`, `Trouble`,
/// `Memory`.
pub fn file(alloc: Global, image: &[u8], pattern: &[u8]) -> Result<Vec<u8>, ShellFault>
    ensures means { (d : Disk) → ImageHolds (kind_of image.now) image.now d →
        MatchResult result (λ v. Gets d pattern.now v.items) (IsLost image.now d pattern.now) }
    // What stands before the place where the directory breaks off is got all the same.
    ensures shown { (bytes : List ℕ) → ShowsFileIn image.now pattern.now bytes →
        MatchResult result (λ v. v.items ≡ bytes) (IsOpenFault image.now) }
{
    let volume = open_disk(alloc, image)?;
    get(alloc, &volume, pattern)
}

/// A drive at power up with the disk of an image. Errors: `Image`, `Memory`.
fn drive_of(alloc: Global, image: &[u8]) -> Result<Dos<AnyDisk>, ShellFault>
    ensures medium { IfOk result (λ dos. IsImageOpened image.now (any_seen dos.medium)) }
    ensures stands { IfOk result (λ dos. let now = any_seen dos.medium in (d : Disk) → HoldsDisk now.tracks now.content d →
        Stands any_seen dos (start d now.protected now.tracks)) }
    ensures err { IfErr result (IsOpenFault image.now) }
{
    let disk = opened(alloc, image)?;
    let channels = Channels::new(alloc)?;
    Ok(Dos::new(disk, channels))
}

/// The directory of an image as readable text in a character set of a C64, with the files that match a pattern; an empty
/// pattern asks for all. Errors: `Image`; `Refused`, with the drive's status; `Memory`.
pub fn directory(
    alloc: Global,
    image: &[u8],
    charset: Charset,
    pattern: &[u8],
) -> Result<Vec<u8>, ShellFault>
    ensures { let kind = kind_of image.now in (d : Disk) → ImageHolds kind image.now d →
        let m = start d false (tracks_of kind image.now) in
        MatchResult result (λ v. IsListing charset pattern.now m v.items) (IsHidden image.now pattern.now m) }
{
    let mut dos = drive_of(alloc, image)?;
    list(alloc, &mut dos, charset, pattern)
}

/// The directory of an image as the drive sends it, a BASIC program, with the files that match a pattern; an empty pattern
/// asks for all. Errors: `Image`; `Refused`, with the drive's status; `Memory`.
pub fn raw_directory(alloc: Global, image: &[u8], pattern: &[u8]) -> Result<Vec<u8>, ShellFault>
    ensures { let kind = kind_of image.now in (d : Disk) → ImageHolds kind image.now d →
        let m = start d false (tracks_of kind image.now) in
        MatchResult result (λ v. IsSent pattern.now m v.items) (IsHidden image.now pattern.now m) }
{
    let mut dos = drive_of(alloc, image)?;
    raw_list(alloc, &mut dos, pattern)
}

/// Whether the disk of an image is sound, or what is wrong with it first. Errors: `Image`, `Memory`.
pub fn check(alloc: Global, image: &[u8]) -> Result<Result<(), Unsound>, ShellFault>
    ensures ok { let kind = kind_of image.now in
        IfOk result (IsChecked (tracks_of kind image.now) (content_of kind image.now)) }
    ensures err { IfErr result (IsOpenFault image.now) }
{
    let volume = open_disk(alloc, image)?;
    Ok(volume.check())
}

/// A disk that was put in order.
#[derive(Drop)]
pub struct Order {
    /// Its image.
    pub image: Vec<u8>,
    /// The blocks that it gave back.
    pub freed: Freed,
}

/// The disk of an image, put in order.
fn validated(alloc: Global, image: &[u8]) -> Result<AnyDisk, ShellFault>
    ensures tracks { IfOk result (λ disk. (any_seen disk).tracks ≡ tracks_of (kind_of image.now) image.now) }
    ensures outside { IfOk result (λ disk. (any_seen disk).outside ≡ outside_of (kind_of image.now) image.now) }
    ensures order { IfOk result (λ disk. IsOrderlyDisk (any_seen disk).tracks (any_seen disk).content) }
    ensures changes { let kind = kind_of image.now in let content = content_of kind image.now in IfOk result (λ disk.
        IsPutInOrder (geometry_of (tracks_of kind image.now) content) content (any_seen disk).content) }
    ensures cause { IfErr result (IsNotMended image.now) }
{
    let mut volume = open_disk(alloc, image)?;
    volume.validate()?;
    Ok(volume.into_medium())
}

/// The blocks that an image had, and a new disk has free.
fn given_back(alloc: Global, image: &[u8], new: &AnyDisk) -> Result<Freed, ShellFault>
    requires { (any_seen new.now).tracks ≡ tracks_of (kind_of image.now) image.now }
    ensures ok { let kind = kind_of image.now in IfOk result (λ f.
        AreFreed (geometry_of (tracks_of kind image.now) (content_of kind image.now)) (content_of kind image.now)
        (any_seen new.now).content f.blocks.items f.takes_geos) }
    ensures err { IfErr result (IsOpenFault image.now) }
{
    let old = opened(alloc, image)?;
    freed_by(alloc, old, new)
}

/// Puts the disk of an image in order, also one that isn't sound: slots of files that were never closed become empty, and
/// each block is free or a file's. Errors: `Image`; `Trouble`, with what can't be mended first; `Memory`.
pub fn validate(alloc: Global, image: &[u8]) -> Result<Order, ShellFault>
    // The new image opens again, with all its bytes outside the sectors, is sound, and putting it in order again changes nothing.
    ensures opens { IfOk result (λ o. ChangesSectors image.now o.image.items) }
    ensures order { IfOk result (λ o. IsInOrder (kind_of image.now) o.image.items) }
    // Closed files, their entries and the title are as they were.
    ensures changes { IfOk result (λ o. IsImageInOrder (kind_of image.now) image.now o.image.items) }
    // The blocks that it gives back are all reported, and whether GEOS uses one of them.
    ensures freed { IfOk result (λ o.
        AreGivenBack (kind_of image.now) image.now o.image.items o.freed.blocks.items o.freed.takes_geos) }
    // What can't be mended refuses it, and nothing else but the image's own fault and want of memory.
    ensures cause { IfErr result (IsNotMended image.now) }
{
    let new = validated(alloc, image)?;
    let freed = given_back(alloc, image, &new)?;
    let image = saved(alloc, &new, kind_of(image))?;
    Ok(Order { image, freed })
}
