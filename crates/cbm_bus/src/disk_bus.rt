//! A bus of drives with disks.
ghost use Rattle.std.specs.Prelude.{◌≡◌};

use cbm_drive::{Bus, Change, Desk, Drive, Event, PlayFault};
use cbm_medium::Medium;
use std::marker::Model;

/// One to four drives, each with its disk, on one bus with a host. Of several whose reactions are due at one moment the one
/// that is listed first answers first. With `AnyDisk` as its medium a D64 stands beside a G64.
#[derive(Drop)]
pub struct DiskBus<M: Medium, const N: usize> {
    bus: Bus<Desk<M>, N>,
}

impl<M: Medium, const N: usize> Model for DiskBus<M, N> {
    ghost use Rattle.cbm_channel.specs.Standing.{Kept};
    ghost use Rattle.cbm_drive.specs.Cables.{Cabled};
    ghost use Rattle.cbm_drive.specs.Desks as desks;

    ghost Value = { Cabled (desks.Desk (Kept M)) };

    ghost view = { λ b. b.bus };
}

impl<M: Medium, const N: usize> DiskBus<M, N> {
    ghost use Rattle.std.specs.Prelude.{◌≡◌, ◌↔◌, ◌^◌, ◌<◌, ◌≤◌, ℕ, true, List, length, Some, None, Err, IfErr};
    ghost use Rattle.cbm_bus.specs.Headline.{AreAt, HandsToMachines, KeepsDisks, PlaysFiles, PlaysFilesLoosely, PlaysOrIsCut, failures_on, machines_now};
    ghost use Rattle.cbm_bus.specs.Powered.{ArePowered, IsAtRest};
    ghost use Rattle.cbm_drive.specs.Cables.{all_free};
    ghost use Rattle.cbm_drive.specs.Desks as desks;
    ghost use Rattle.cbm_channel.specs.Standing.{Kept};
    ghost use Rattle.cbm_drive.specs.Ordered.{fault_of};
    ghost use Rattle.cbm_drive.specs.declared.fault.PlayFault.{PlayFault};
    ghost use Rattle.cbm_drive.specs.declared.fault.PlayFault.TheVariants.{Memory};
    ghost use Rattle.cbm_iec.specs.declared.party.Party.{Party};
    ghost use Rattle.cbm_drive.specs.Seats.{AreResting};
    ghost use Rattle.cbm_machine.specs.Machines.{Machine};
    ghost use Rattle.cbm_session.specs.Playing.{Station};
    ghost use Rattle.cbm_session.specs.Sessions.{AllUnlike};

    /// The drives on a cable of which the host holds no line, in the order in which they answer at equal moments.
    pub fn new(drives: [Drive<Desk<M>>; N]) -> DiskBus<M, N>
        requires { length drives ≤ 4 }
        ensures drives { result.drives ≡ drives }
        ensures host { result.host ≡ all_free }
        ensures rests { (bs : List Party) (ms : ℕ → desks.Desk Machine) → ArePowered M.seen bs ms drives →
            IsAtRest M.seen bs ms result }
    {
        DiskBus {
            bus: Bus::new(drives),
        }
    }

    /// Whether all rests, as when it was switched on: the host holds no line, no drive has a role or a reaction that is due, and
    /// each last saw all lines free. Then a next list of changes may be played as the first one was, from the machines that the
    /// drives have by then.
    pub fn at_rest(&self) -> bool
        ensures rests { (result ≡ true) ↔ ((self.now.host ≡ all_free) × AreResting self.now.drives) }
        ensures again { result ≡ true → (bs : List Party) (ms : ℕ → desks.Desk Machine)
            (ss : List (Station (desks.Desk Machine))) → AllUnlike bs → AreAt M.seen bs self.now ss →
            IsAtRest M.seen bs (machines_now ss ms) self.now }
    {
        self.bus.at_rest()
    }

    /// Plays these changes of the host, from rest up to an end, in microseconds. The host's changes and the drives' go to
    /// `events` in the order in which they happen, the reactions that are due at the end too.
    ///
    /// Where the host keeps the timing of the bus, that is a beginning of a session in which each byte talked is the answer of
    /// its drive's machine of named files to the bytes sent, and no reaction is late. If it keeps it loosely, as a computer's
    /// KERNAL does, that is so of a trace with the same events of the drives. Whatever the host does, each disk is sound afterwards,
    /// and is that machine's. All this holds if no medium failed by itself in it (`HaveNotFailed`).
    ///
    /// Errors: the first change that goes back in time or comes after the end, and then nothing was played; or want of memory,
    /// before a step: the events are all that happened, and each disk is sound, too.
    pub fn play(
        &mut self,
        changes: &[Change],
        end: u64,
        events: &mut Vec<Event>,
    ) -> Result<(), PlayFault>
        requires { end < 2 ^ 59 }
        ensures headline { PlaysFiles M.seen self.old self.new end events.old.items events.new.items changes.now result }
        // And under a host that keeps the timing loosely, as a computer's KERNAL does:
        ensures loosely { PlaysFilesLoosely M.seen self.old self.new end events.old.items events.new.items changes.now result }
        ensures disks { KeepsDisks M.seen self.old self.new }
        // Whether or not the host keeps any timing:
        ensures handed { HandsToMachines M.seen self.old self.new end events.old.items events.new.items changes.now result }
        ensures cut { PlaysOrIsCut M.seen self.old self.new end events.old.items events.new.items changes.now result }
        ensures fault { (f : PlayFault) → fault_of 0 0 end changes.now ≡ Some f →
            (result ≡ Err f) × (self.new ≡ self.old) × (events.new ≡ events.old) }
        ensures memory { fault_of 0 0 end changes.now ≡ None → IfErr result (λ f. f ≡ Memory) }
        ensures counted { failures_on M.seen self.old ≤ failures_on M.seen self.new }
    {
        self.bus.play(changes, end, events)
    }

    /// The drives, in their order, whose disks `into_disk` gives.
    pub fn into_drives(self) -> [Drive<Desk<M>>; N]
        ensures { result ≡ self.drives }
    {
        let DiskBus { bus } = self;
        bus.into_drives()
    }
}
