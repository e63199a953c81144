//! A drive with direct access alone on a cable with a host.
ghost use Rattle.std.specs.Prelude.{◌≡◌, ◌≤◌, ◌<◌, ◌^◌};

use crate::station::Station;
use cbm_direct_desk::{Access, DirectDesk, disk_of, drive_with};
use cbm_drive::{Bus, Drive, Event, Half, Pace, Party, Player};
use cbm_host::Performer;
use cbm_medium::Steady;

/// How long the drive takes to react, in microseconds.
const REACTION: u8 = 20;

/// The party of a drive of this pace.
fn party_of(device: u8, pace: Pace) -> Party
    ensures device { result.device ≡ device }
    ensures reaction { 1 ≤ result.reaction }
{
    Party {
        device,
        reaction: REACTION,
        pace,
    }
}

/// A drive alone on a cable with a host.
pub(crate) trait Cable {
    /// What its disk is.
    type Medium;

    /// The next event of a request; None if the request is over.
    fn next(&mut self, performer: &mut Performer) -> Option<Event>;

    /// The next half of a bit that the drive says, if the host waits for it.
    fn half(&mut self, performer: &mut Performer) -> Option<Half>;

    /// The next event of line changes up to a moment, in microseconds; None if none comes by then.
    fn change(&mut self, player: &mut Player, upto: u64) -> Option<Event>
        requires { upto < 2 ^ 59 };

    /// The medium, with all that was written to it.
    fn into_medium(self) -> Self::Medium;
}

/// A drive alone on a cable.
fn bus_of<M: Steady>(drive: Drive<DirectDesk<M>>) -> Bus<DirectDesk<M>, 1> {
    Bus::new([drive])
}

/// The cable of a drive with direct access.
#[derive(Drop)]
pub(crate) struct DirectCable<M: Steady> {
    bus: Bus<DirectDesk<M>, 1>,
}

impl<M: Steady> DirectCable<M> {
    /// A drive at power up with this medium.
    pub(crate) fn new(medium: M, station: Station, access: Access) -> DirectCable<M>
        requires { station.device ≤ 11 }
    {
        let Station {
            device,
            pace,
            channels,
        } = station;
        DirectCable {
            bus: bus_of(drive_with(medium, channels, party_of(device, pace), access)),
        }
    }
}

impl<M: Steady> Cable for DirectCable<M> {
    type Medium = M;

    fn next(&mut self, performer: &mut Performer) -> Option<Event> {
        performer.next(&mut self.bus)
    }

    fn half(&mut self, performer: &mut Performer) -> Option<Half> {
        performer.next_half(&mut self.bus)
    }

    fn change(&mut self, player: &mut Player, upto: u64) -> Option<Event> {
        player.next(&mut self.bus, upto)
    }

    fn into_medium(self) -> M {
        let DirectCable { bus, .. } = self;
        disk_of(bus)
    }
}
