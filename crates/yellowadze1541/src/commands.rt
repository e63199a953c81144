//! A command with what the drive says after it.
ghost use Rattle.std.specs.Prelude.{◌≡◌, ◌≤◌, false, IfErr, MatchResult};
ghost use Rattle.cbm_file.specs.Files.{Disk};
ghost use Rattle.cbm_machine.specs.Machines.{start};
ghost use Rattle.cbm_volume.specs.Holding.{HoldsDisk};
ghost use Rattle.cbm_image.specs.Images.{kind_of, tracks_of, ImageHolds};
ghost use Rattle.cbm_shell.specs.Changing.{IsFine};
ghost use Rattle.cbm_device.specs.Answers.{GivesBytes};
ghost use Rattle.cbm_device.specs.Looking.{IsAccepted, IsSound};
ghost use Rattle.cbm_device.specs.Making.{after_command, IsUnchanged};
ghost use Rattle.yellowadze1541.specs.Commands.{IsSaidOf, IsCommandRefusal, IsUncommanded};
ghost use Rattle.yellowadze1541.specs.Putting.{IsStatus};

use crate::shapes::Said;
use crate::sound::{image_of, sound_disk, told};
use cbm_channel::{Channels, Dos, Status};
use cbm_device::{DeviceRefusal, given, number};
use cbm_image::kind_of;
use cbm_medium::Steady;
use std::alloc::Global;

/// The channel of commands.
const COMMANDS: u8 = 15;

/// A status as C has it.
fn said(status: Status) -> Said
    ensures { IsSaidOf status result }
{
    let whole = status.line();
    let count = whole.len() - 1;
    let mut line = [0; 33];
    line[..count].copy_from_slice(&whole.as_slice()[..count]);
    Said {
        number: status.code.number(),
        first: status.first,
        second: status.second,
        line,
    }
}

/// Nothing that was said.
pub(crate) fn unsaid() -> Said {
    Said {
        number: 0,
        first: 0,
        second: 0,
        line: [0; 33],
    }
}

/// The disk after a command was carried out by a drive at power up, and what the drive says then. The error is the drive's status.
fn commanded<M: Steady + Drop>(
    medium: M,
    channels: Channels,
    text: &[u8],
    status: &mut Said,
) -> Result<M, DeviceRefusal>
    ensures done { let old = M.seen medium in (d : Disk) → HoldsDisk old.tracks old.content d →
        let after = after_command text.now (start d old.protected old.tracks) in MatchResult result
        (λ disk. IsFine after.status × IsSaidOf after.status status.new
        × HoldsDisk (M.seen disk).tracks (M.seen disk).content after.disk)
        (IsCommandRefusal after status.new) }
    ensures status { IfErr result IsStatus }
{
    let mut dos = Dos::new(medium, channels);
    dos.open(COMMANDS, text);
    *status = said(dos.status());
    told(dos.status())?;
    Ok(dos.into_medium())
}

/// The image after a command, and what the drive says then. Errors: `NoImage`, `Memory`, `Unsound`; the drive's status.
pub(crate) fn with_command(
    alloc: Global,
    image: &[u8],
    text: &[u8],
    status: &mut Said,
) -> Result<Vec<u8>, DeviceRefusal>
    ensures made { let kind = kind_of image.now in (d : Disk) → ImageHolds kind image.now d →
        let after = after_command text.now (start d false (tracks_of kind image.now)) in MatchResult result
        (λ v. IsFine after.status × IsSaidOf after.status status.new × ImageHolds kind v.items after.disk)
        (IsUncommanded image.now after status.old status.new) }
    ensures sound { MatchResult result (λ _. IsAccepted image.now × IsSound image.now) (IsUnchanged image.now) }
{
    let disk = sound_disk(alloc, image)?;
    let channels = Channels::new(alloc)?;
    let disk = commanded(disk, channels, text, status)?;
    image_of(alloc, &disk, kind_of(image))
}

/// A command for the drive is carried out on an image's disk; the new image is given, and what channel 15 says after it, also if the
/// drive refuses it.
#[unsafe(no_mangle)]
pub extern "C" fn y1541_image_command_status(
    alloc: Global,
    image: &[u8],
    text: &[u8],
    status: &mut Said,
    out: &mut [u8],
    needed: &mut usize,
) -> i32
    ensures made { let kind = kind_of image.now in (d : Disk) → ImageHolds kind image.now d →
        let after = after_command text.now (start d false (tracks_of kind image.now)) in
        GivesBytes result out.old out.new needed.old needed.new
        (λ bytes. IsFine after.status × IsSaidOf after.status status.new × ImageHolds kind bytes after.disk)
        (IsUncommanded image.now after status.old status.new) }
    // Of any disk: one that isn't sound isn't changed.
    ensures sound { GivesBytes result out.old out.new needed.old needed.new
        (λ _. IsAccepted image.now × IsSound image.now) (IsUnchanged image.now) }
{
    number(given(with_command(alloc, image, text, status), out, needed))
}
