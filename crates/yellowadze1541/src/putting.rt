//! Several files put on an image's disk: all of them, or none.
ghost use Rattle.std.specs.Prelude.{◌≡◌, ◌≤◌, false, length, IfErr, MatchResult};
ghost use Rattle.cbm_file.specs.Files.{Disk};
ghost use Rattle.cbm_machine.specs.Machines.{Machine, start};
ghost use Rattle.cbm_channel.specs.Standing.{Stands};
ghost use Rattle.cbm_volume.specs.Holding.{HoldsDisk};
ghost use Rattle.cbm_image.specs.Images.{kind_of, tracks_of, ImageHolds};
ghost use Rattle.cbm_shell.specs.Changing.{IsFine};
ghost use Rattle.cbm_device.specs.Answers.{GivesBytes};
ghost use Rattle.cbm_device.specs.Looking.{IsAccepted, IsSound};
ghost use Rattle.cbm_device.specs.Making.{opened_for, IsUnchanged};
ghost use Rattle.yellowadze1541.specs.Putting.{after_file, after_files, ArePut, IsRefusedFile, IsFileRefusal, IsStatus, IsUnput};

use crate::shapes::File;
use crate::sound::{image_of, sound_disk, told};
use cbm_channel::{Channels, Dos};
use cbm_device::{DeviceRefusal, given, number};
use cbm_image::kind_of;
use cbm_medium::Steady;
use cbm_talk::hear;
use std::alloc::Global;

/// The channel on which a file is written.
const WRITING: u8 = 2;

/// Puts a file on a drive's disk, as an OPEN with its text would write it. The error is the drive's status.
fn put_one<M: Steady>(dos: &mut Dos<M>, file: &File<'_>) -> Result<(), DeviceRefusal>
    ensures put { (m : Machine) → Stands M.seen dos.old m → MatchResult result
        (λ _. IsFine (after_file file.now m).status × Stands M.seen dos.new (after_file file.now m))
        (IsRefusedFile (opened_for file.now.text.now m) (after_file file.now m)) }
    ensures status { IfErr result IsStatus }
{
    dos.open(WRITING, file.text);
    told(dos.status())?;
    hear(dos, WRITING, file.bytes);
    dos.close(WRITING);
    told(dos.status())
}

/// Puts files on a drive's disk, one after another, and counts those that were put. The error is the drive's status of the first
/// one that isn't.
fn put_each<M: Steady>(
    dos: &mut Dos<M>,
    files: &[File<'_>],
    put: &mut usize,
) -> Result<(), DeviceRefusal>
    ensures put { (m : Machine) → Stands M.seen dos.old m → MatchResult result
        (λ _. ArePut files.now m × (put.new ≡ length files.now) × Stands M.seen dos.new (after_files files.now m))
        (IsFileRefusal files.now m put.new) }
    ensures status { IfErr result IsStatus }
{
    *put = 0;
    for file in files {
        put_one(dos, file)?;
        *put += 1;
    }
    Ok(())
}

/// The disk after these files were put, by a drive at power up. The error is the drive's status of the first one that isn't.
fn put_on<M: Steady + Drop>(
    medium: M,
    channels: Channels,
    files: &[File<'_>],
    put: &mut usize,
) -> Result<M, DeviceRefusal>
    ensures put { let old = M.seen medium in (d : Disk) → HoldsDisk old.tracks old.content d →
        let m = start d old.protected old.tracks in MatchResult result
        (λ after. ArePut files.now m × (put.new ≡ length files.now)
        × HoldsDisk (M.seen after).tracks (M.seen after).content (after_files files.now m).disk)
        (IsFileRefusal files.now m put.new) }
    ensures status { IfErr result IsStatus }
{
    let mut dos = Dos::new(medium, channels);
    put_each(&mut dos, files, put)?;
    Ok(dos.into_medium())
}

/// The image after these files were put. Errors: `NoImage`, `Memory`, `Unsound`; the drive's status of the first file that isn't
/// put, and how many were before it.
pub(crate) fn with_files(
    alloc: Global,
    image: &[u8],
    files: &[File<'_>],
    put: &mut usize,
) -> Result<Vec<u8>, DeviceRefusal>
    ensures made { let kind = kind_of image.now in (d : Disk) → ImageHolds kind image.now d →
        let m = start d false (tracks_of kind image.now) in MatchResult result
        (λ v. ArePut files.now m × (put.new ≡ length files.now) × ImageHolds kind v.items (after_files files.now m).disk)
        (IsUnput image.now files.now m put.new) }
    ensures sound { MatchResult result (λ _. IsAccepted image.now × IsSound image.now) (IsUnchanged image.now) }
{
    let disk = sound_disk(alloc, image)?;
    let channels = Channels::new(alloc)?;
    let disk = put_on(disk, channels, files, put)?;
    image_of(alloc, &disk, kind_of(image))
}

/// Files are put on an image's disk, each as an OPEN with its text would write it, and the new image is given; or one is refused, and
/// none is given. How many were put before it is reported.
#[unsafe(no_mangle)]
pub extern "C" fn y1541_image_put_all(
    alloc: Global,
    image: &[u8],
    files: &[File<'_>],
    put: &mut usize,
    out: &mut [u8],
    needed: &mut usize,
) -> i32
    ensures made { let kind = kind_of image.now in (d : Disk) → ImageHolds kind image.now d →
        let m = start d false (tracks_of kind image.now) in
        GivesBytes result out.old out.new needed.old needed.new
        (λ bytes. ArePut files.now m × (put.new ≡ length files.now) × ImageHolds kind bytes (after_files files.now m).disk)
        (IsUnput image.now files.now m put.new) }
    // Of any disk: one that isn't sound isn't changed.
    ensures sound { GivesBytes result out.old out.new needed.old needed.new
        (λ _. IsAccepted image.now × IsSound image.now) (IsUnchanged image.now) }
{
    *put = 0;
    number(given(with_files(alloc, image, files, put), out, needed))
}
