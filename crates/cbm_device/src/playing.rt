//! A drive that is switched on and played under a whole list of line changes.
ghost use Rattle.std.specs.Prelude.{◌≡◌, ◌≤◌, ◌<◌, ◌^◌, ◌⊎◌, Err, IfErr, IfOk, IfSome, IsSome};
ghost use Rattle.cbm_file.specs.Files.{Disk};
ghost use Rattle.cbm_machine.specs.Machines.{start};
ghost use Rattle.cbm_drive.specs.Ordered.{fault_of};
ghost use Rattle.cbm_volume.specs.Holding.{HoldsDisk};
ghost use Rattle.cbm_device.specs.ImageDisks.{counted_seen};
ghost use Rattle.cbm_device.specs.Plays.{HasPlayedAll, IsDiskIn};

use crate::image_disk::ImageDisk;
use crate::refusal::DeviceRefusal;
use cbm_drive::{Bus, Change, Channels, Desk, Drive, Event, Party, PlayFault};

/// A drive is switched on with this disk and played under these changes of the host, up to an end, in microseconds: all events, the
/// host's and the drive's, come one after the other, and the disk as it is then. Errors: `Invalid`, if a change goes back in time
/// or comes after the end, and then nothing was played; `Memory`.
pub fn play(
    disk: ImageDisk,
    channels: Channels,
    party: Party,
    changes: &[Change],
    end: u64,
    events: &mut Vec<Event>,
) -> Result<ImageDisk, DeviceRefusal>
    requires party { (party.device < 31) × (1 ≤ party.reaction) }
    requires end { end < 2 ^ 59 }
    ensures refused { IfSome (fault_of 0 0 end changes.now) (λ _. (result ≡ Err DeviceRefusal.Invalid) × (events.new ≡ events.old)) }
    ensures cause { IfErr result (λ r. ((r ≡ DeviceRefusal.Invalid) × IsSome (fault_of 0 0 end changes.now)) ⊎ (r ≡ DeviceRefusal.Memory)) }
    ensures played { let now = counted_seen disk in (d : Disk) → HoldsDisk now.tracks now.content d → IfOk result (λ after.
        HasPlayedAll party (start d now.protected now.tracks) changes.now end events.old.items events.new.items after) }
{
    let desk = Desk::at_power_up(disk, channels, party.device).with_pace(party.pace);
    let mut bus = Bus::new([Drive::new(desk, party)]);
    match bus.play(changes, end, events) {
        Ok(()) => Ok(disk_of(bus)),
        Err(PlayFault::Memory) => Err(DeviceRefusal::Memory),
        Err(_) => Err(DeviceRefusal::Invalid),
    }
}

/// The disk of the drive on a bus.
fn disk_of(bus: Bus<Desk<ImageDisk>, 1>) -> ImageDisk
    ensures { IsDiskIn bus.drives result }
{
    let [drive] = bus.into_drives();
    drive.into_machine().into_medium()
}
