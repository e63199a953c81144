//! Relative files, made as the drive makes them.
ghost use Rattle.std.specs.Prelude.{◌≡◌, ◌≤◌, ◌==◌, false, None, map, MatchResult, IfErr, IfOk, OnOk};
ghost use Rattle.cbm_machine.specs.Machines.{Machine};
ghost use Rattle.cbm_channel.specs.Standing.{Stands, Leads};
ghost use Rattle.cbm_channel.specs.Going.{KeepsMedium};
ghost use Rattle.cbm_image.specs.Images.{kind_of, ChangesSectors};
ghost use Rattle.cbm_shell.specs.Images.{IsSoundDisk, IsSoundImage, OfHeld, machine_on};
ghost use Rattle.cbm_shell.specs.Changing.{IsFine, IsStatusRefusal};
ghost use Rattle.cbm_shell.specs.Recording.{hear_records, after_records, AreRecordsUnmade, IsUnmadeIn, IsStoppedAt, MakesRecords, HasRecorded};

use crate::changing::{require_sound, told};
use crate::fault::ShellFault;
use crate::images::{opened, saved};
use cbm_channel::{Channels, Dos};
use cbm_image::kind_of;
use cbm_medium::{Medium, Steady};
use cbm_talk::hear;
use cbm_volume::Volume;
use std::alloc::Global;

/// The channel on which the file is written.
const WRITING: u8 = 2;

/// A relative file that is made.
#[derive(Clone, Copy)]
pub struct Records<'a> {
    /// The text of the OPEN that makes it, such as `0:NAME,L,` and a byte, the length of its records.
    pub text: &'a [u8],
    /// Its records in order.
    pub records: &'a [&'a [u8]],
}

/// Sends the records to a channel, one after another. Errors: `Refused`, with the status after the first that was refused.
fn hear_each<M: Steady>(dos: &mut Dos<M>, channel: u8, records: &[&[u8]]) -> Result<(), ShellFault>
    requires { channel ≤ 15 }
    ensures leads { OnOk result (Leads M.seen dos.old dos.new (hear_records channel (map (λ r. r.now) records.now))) }
    ensures stopped { (m : Machine) → Stands M.seen dos.old m →
        IfErr result (IsStoppedAt channel (map (λ r. r.now) records.now) m) }
    ensures refused { IfErr result IsStatusRefusal }
    ensures medium { KeepsMedium (channel == 15) (M.seen dos.old.medium) (M.seen dos.new.medium) }
{
    for record in records {
        hear(dos, channel, *record);
        told(dos.status())?;
    }
    Ok(())
}

/// Makes a relative file on a drive. Errors: `Refused`.
fn record_on<M: Steady>(dos: &mut Dos<M>, file: Records<'_>) -> Result<(), ShellFault>
    ensures made { (m : Machine) → Stands M.seen dos.old m → MatchResult result
        (λ _. IsFine (after_records file.entry.text.now (map (λ r. r.now) file.entry.records.now) m).status
        × Stands M.seen dos.new (after_records file.entry.text.now (map (λ r. r.now) file.entry.records.now) m))
        (AreRecordsUnmade file.entry.text.now (map (λ r. r.now) file.entry.records.now) m) }
    ensures refused { IfErr result IsStatusRefusal }
    ensures medium { KeepsMedium false (M.seen dos.old.medium) (M.seen dos.new.medium) }
{
    dos.open(WRITING, file.text);
    told(dos.status())?;
    hear_each(dos, WRITING, file.records)?;
    dos.close(WRITING);
    told(dos.status())
}

/// A disk with a relative file more, if it is sound. Errors: `Unsound`; `Refused`.
fn recorded<M: Steady + Drop>(
    medium: M,
    channels: Channels,
    file: Records<'_>,
) -> Result<M, ShellFault>
    ensures made { MakesRecords M.seen medium file.entry.text.now (map (λ r. r.now) file.entry.records.now) result }
    ensures sound { OnOk result (IsSoundDisk (M.seen medium).tracks (M.seen medium).content) }
    ensures same_tracks { IfOk result (λ after. (M.seen after).tracks ≡ (M.seen medium).tracks) }
    ensures same_outside { IfOk result (λ after. (M.seen after).outside ≡ (M.seen medium).outside) }
{
    let volume = Volume::open(medium);
    require_sound(&volume)?;
    let mut dos = Dos::new(volume.into_medium(), channels);
    record_on(&mut dos, file)?;
    Ok(dos.into_medium())
}

/// Makes a relative file on the disk of an image, and gives the image as it is then. Errors: `Image`; `Unsound`, with what is
/// wrong first; `Refused`, with the drive's status; `Memory`.
pub fn put_records(alloc: Global, image: &[u8], file: Records<'_>) -> Result<Vec<u8>, ShellFault>
    ensures made { OfHeld image.now (λ d. MatchResult result
        (λ v. HasRecorded image.now file.entry.text.now (map (λ r. r.now) file.entry.records.now) d v.items)
        (IsUnmadeIn image.now file.entry.text.now (map (λ r. r.now) file.entry.records.now) (machine_on image.now d))) }
    // An image that isn't sound gives no new one, and the new image opens again.
    ensures sound { OnOk result (IsSoundImage (kind_of image.now) image.now) }
    ensures opens { IfOk result (λ v. ChangesSectors image.now v.items) }
{
    let disk = opened(alloc, image)?;
    let channels = Channels::new(alloc)?;
    let disk = recorded(disk, channels, file)?;
    saved(alloc, &disk, kind_of(image))
}
