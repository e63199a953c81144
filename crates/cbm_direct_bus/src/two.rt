//! Two drives with direct access on one bus: each disk stays sound.
ghost use Rattle.std.specs.Prelude.{◌≡◌, ◌∷◌, [], ◌<◌, ◌^◌};
ghost use Rattle.cbm_d64.specs.Image.{d64_seen};
ghost use Rattle.cbm_direct.specs.Vouching.{IsSoundSince};
ghost use Rattle.cbm_direct_desk.specs.DirectDesks.{DirectAddressed};
ghost use Rattle.cbm_drive.specs.Seats.{Seated};

use crate::direct_bus::DirectBus;
use cbm_d64::D64Disk;
use cbm_direct_desk::{DirectDesk, into_disk};
use cbm_drive::{Change, Drive, Event};
use cbm_medium::Medium;

/// The disks of the two drives of a bus.
pub fn disks_of<M: Medium>(bus: DirectBus<M, 2>) -> (M, M)
    ensures { (x y : Seated (DirectAddressed M)) → bus.drives ≡ x ∷ y ∷ [] →
        IsSoundSince x.machine.dos.vouched.vouch (M.seen result.0) × IsSoundSince y.machine.dos.vouched.vouch (M.seen result.1) }
{
    let [first, second] = bus.into_drives();
    (into_disk(first), into_disk(second))
}

/// Plays on a bus of two drives with D64 disks, and takes their disks out, whether or not the play came to its end: whatever the host does on the wires, and
/// whatever the other drive does, each disk is sound if it was put in so, and didn't fail by itself since.
pub fn play_two(
    first: Drive<DirectDesk<D64Disk>>,
    second: Drive<DirectDesk<D64Disk>>,
    changes: &[Change],
    end: u64,
    events: &mut Vec<Event>,
) -> (D64Disk, D64Disk)
    requires { end < 2 ^ 59 }
    ensures first { IsSoundSince first.machine.dos.vouched.vouch (d64_seen result.0) }
    ensures second { IsSoundSince second.machine.dos.vouched.vouch (d64_seen result.1) }
{
    let mut bus = DirectBus::new([first, second]);
    let _played = bus.play(changes, end, events);
    disks_of(bus)
}
