//! A drive with a disk in it.
ghost use Rattle.std.specs.Prelude.{◌≡◌, ◌<◌, ◌≤◌};
ghost use Rattle.cbm_file.specs.Files.{Disk};
ghost use Rattle.cbm_volume.specs.Holding.{HoldsDisk};
ghost use Rattle.cbm_bus.specs.Powered.{IsPowered, powered};
ghost use Rattle.cbm_machine.specs.Machines.{Machine};
ghost use Rattle.cbm_drive.specs.Afresh.{switched_on};
ghost use Rattle.cbm_drive.specs.Desks as desks;

use cbm_drive::{Channels, Desk, Drive, Party};
use cbm_medium::Medium;

/// The drive as it is switched on with this disk in it: its device number is below 31, and it takes 1 microsecond at least to
/// react. It reads nothing.
pub fn drive_with<M: Medium>(disk: M, channels: Channels, party: Party) -> Drive<Desk<M>>
    requires device { party.device < 31 }
    requires reaction { 1 ≤ party.reaction }
    ensures machine { result.machine ≡ switched_on party.device party.pace disk }
    ensures powered { (d : Disk) → HoldsDisk (M.seen disk).tracks (M.seen disk).content d →
        IsPowered M.seen party (powered party (M.seen disk) d) result }
{
    let desk = Desk::at_power_up(disk, channels, party.device).with_pace(party.pace);
    Drive::new(desk, party)
}

/// The disk of a drive as it is now. Channels that are open are dropped: a file that is being written stays unclosed.
pub fn into_disk<M: Medium>(drive: Drive<Desk<M>>) -> M
    ensures same { result ≡ drive.machine.dos.medium }
    ensures disk { (m : desks.Desk Machine) → desks.DeskStands M.seen drive.machine m →
        HoldsDisk (M.seen result).tracks (M.seen result).content m.dos.disk }
{
    drive.into_machine().into_medium()
}
