//! A bus of drives with direct access.
ghost use Rattle.std.specs.Prelude.{◌≡◌};

use cbm_direct_desk::DirectDesk;
use cbm_drive::{Bus, Change, Drive, Event, PlayFault};
use cbm_medium::Medium;
use std::marker::Model;

/// One to four drives with direct access, each with its disk, on one bus with a host. Of several whose reactions are due at one moment the one
/// that is listed first answers first.
#[derive(Drop)]
pub struct DirectBus<M: Medium, const N: usize> {
    bus: Bus<DirectDesk<M>, N>,
}

impl<M: Medium, const N: usize> Model for DirectBus<M, N> {
    ghost use Rattle.cbm_drive.specs.Cables.{Cabled};
    ghost use Rattle.cbm_direct_desk.specs.DirectDesks.{DirectAddressed};

    ghost Value = { Cabled (DirectAddressed M) };

    ghost view = { λ b. b.bus };
}

impl<M: Medium, const N: usize> DirectBus<M, N> {
    ghost use Rattle.std.specs.Prelude.{◌≡◌, ◌^◌, ◌<◌, ◌≤◌, length, None, Some, Err, IfErr};
    ghost use Rattle.cbm_direct_bus.specs.DirectBuses.{vouches_of};
    ghost use Rattle.cbm_drive.specs.Cables.{all_free};
    ghost use Rattle.cbm_drive.specs.Ordered.{fault_of};
    ghost use Rattle.cbm_drive.specs.declared.fault.PlayFault.{PlayFault};
    ghost use Rattle.cbm_drive.specs.declared.fault.PlayFault.TheVariants.{Memory};

    /// The drives on a cable of which the host holds no line, in the order in which they answer at equal moments.
    pub fn new(drives: [Drive<DirectDesk<M>>; N]) -> DirectBus<M, N>
        requires { length drives ≤ 4 }
        ensures drives { result.drives ≡ drives }
        ensures host { result.host ≡ all_free }
    {
        DirectBus {
            bus: Bus::new(drives),
        }
    }

    /// Plays these changes of the host up to an end, in microseconds. The host's changes and the drives' go to `events` in the order in which
    /// they happen. Whatever the host does, each disk is sound afterwards if it was put in so, if its drive isn't raw, and if its medium didn't
    /// fail by itself since: what is known of it stays, and `into_disk` gives it so.
    ///
    /// Errors: the first change that goes back in time or comes after the end, and then nothing was played; or want of memory, before a step.
    pub fn play(
        &mut self,
        changes: &[Change],
        end: u64,
        events: &mut Vec<Event>,
    ) -> Result<(), PlayFault>
        requires { end < 2 ^ 59 }
        ensures known { vouches_of self.new.drives ≡ vouches_of self.old.drives }
        ensures fault { (f : PlayFault) → fault_of 0 0 end changes.now ≡ Some f →
            (result ≡ Err f) × (self.new ≡ self.old) × (events.new ≡ events.old) }
        ensures memory { fault_of 0 0 end changes.now ≡ None → IfErr result (λ f. f ≡ Memory) }
    {
        self.bus.play(changes, end, events)
    }

    /// The drives, in their order, whose disks `into_disk` gives.
    pub fn into_drives(self) -> [Drive<DirectDesk<M>>; N]
        ensures { result ≡ self.drives }
    {
        let DirectBus { bus } = self;
        bus.into_drives()
    }
}
