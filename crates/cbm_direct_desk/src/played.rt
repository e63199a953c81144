//! Drives with direct access on a bus: their disks stay sound.
ghost use Rattle.std.specs.Prelude.{◌≡◌, ◌∷◌, [], ◌<◌, ◌≤◌, ◌^◌};
ghost use Rattle.cbm_d64.specs.Image.{d64_seen};
ghost use Rattle.cbm_direct.specs.Vouching.{ShowsDisk, IsSoundSince, vouch_number};
ghost use Rattle.cbm_direct.specs.declared.access.Access.TheVariants.{Guarded};
ghost use Rattle.cbm_direct.specs.declared.vouch.Vouch.TheVariants.{Sound};
ghost use Rattle.cbm_direct_desk.specs.DirectDesks.{DirectAddressed};
ghost use Rattle.cbm_drive.specs.Seats.{AreCarried, Seated};

use crate::desk::DirectDesk;
use cbm_d64::D64Disk;
use cbm_direct::Access;
use cbm_drive::{Bus, Change, Channels, Drive, Event, Party, PlayFault};
use cbm_medium::Medium;

/// The drive as it is switched on with this disk.
pub fn drive_with<M: Medium>(
    disk: M,
    channels: Channels,
    party: Party,
    access: Access,
) -> Drive<DirectDesk<M>>
    requires device { party.device < 31 }
    requires reaction { 1 ≤ party.reaction }
    ensures disk { result.machine.dos.vouched.dos.medium ≡ disk }
    ensures sound { access ≡ Guarded → ShowsDisk (M.seen disk) → result.machine.dos.vouched.vouch ≡ Sound (M.seen disk).failures }
{
    let desk = DirectDesk::at_power_up(disk, channels, party.device, access).with_pace(party.pace);
    Drive::new(desk, party)
}

/// The disk of a drive as it is now: sound, if it was put in so, and didn't fail by itself since.
pub fn into_disk<M: Medium>(drive: Drive<DirectDesk<M>>) -> M
    ensures same { result ≡ drive.machine.dos.vouched.dos.medium }
    ensures sound { IsSoundSince drive.machine.dos.vouched.vouch (M.seen result) }
{
    drive.into_machine().into_medium()
}

/// Plays these changes of the host up to an end.
pub fn play<M: Medium, const N: usize>(
    bus: &mut Bus<DirectDesk<M>, N>,
    changes: &[Change],
    end: u64,
    events: &mut Vec<Event>,
) -> Result<(), PlayFault>
    requires { end < 2 ^ 59 }
    ensures { AreCarried (λ x. vouch_number x.dos.vouched.vouch) (λ x. (M.seen x.dos.vouched.dos.medium).failures) bus.old.drives bus.new.drives }
{
    bus.play(changes, end, events)
}

/// The disk of the one drive of a bus.
pub fn disk_of<M: Medium>(bus: Bus<DirectDesk<M>, 1>) -> M
    ensures { (x : Seated (DirectAddressed M)) → bus.drives ≡ x ∷ [] → IsSoundSince x.machine.dos.vouched.vouch (M.seen result) }
{
    let [drive] = bus.into_drives();
    into_disk(drive)
}

/// Plays on a bus of one drive, and takes its disk out, whether or not the play came to its end: what the host does on the wires, the disk
/// is sound if it was put in so, and didn't fail by itself since.
pub fn play_out<M: Medium>(
    mut bus: Bus<DirectDesk<M>, 1>,
    changes: &[Change],
    end: u64,
    events: &mut Vec<Event>,
) -> M
    requires { end < 2 ^ 59 }
    ensures { (x : Seated (DirectAddressed M)) → bus.drives ≡ x ∷ [] → IsSoundSince x.machine.dos.vouched.vouch (M.seen result) }
{
    let _played = play(&mut bus, changes, end, events);
    disk_of(bus)
}

/// A D64 in a drive alone with a host: whatever the host does on the wires, it is sound after the play, if it was before.
pub fn play_alone(
    disk: D64Disk,
    channels: Channels,
    party: Party,
    changes: &[Change],
    end: u64,
    events: &mut Vec<Event>,
) -> D64Disk
    requires device { party.device < 31 }
    requires reaction { 1 ≤ party.reaction }
    requires end { end < 2 ^ 59 }
    ensures { ShowsDisk (d64_seen disk) → ShowsDisk (d64_seen result) }
{
    play_out(
        Bus::new([drive_with(disk, channels, party, Access::Guarded)]),
        changes,
        end,
        events,
    )
}
