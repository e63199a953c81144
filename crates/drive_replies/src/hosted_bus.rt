//! Drives on a bus, under a host that changes its lines one at a time.

use bus_replies::Plays;
use cbm_drive::{Bus, Change, Drive, Event, Machine, Player};

/// Drives on a bus, and the change of the host that waits for its turn.
#[derive(Drop)]
pub struct HostedBus<D: Machine, const N: usize> {
    bus: Bus<D, N>,
    player: Player,
}

impl<D: Machine, const N: usize> HostedBus<D, N> {
    ghost use Rattle.std.specs.Prelude.{◌≡◌, ◌≤◌, length};
    ghost use Rattle.cbm_drive.specs.Players.{at_start};

    /// A bus with these drives, whose host has changed nothing yet. Of several whose reactions are due at one moment the one that
    /// is listed first comes first.
    pub fn new(drives: [Drive<D>; N]) -> HostedBus<D, N>
        requires { length drives ≤ 4 }
        ensures drives { result.bus.drives ≡ drives }
        ensures player { result.player ≡ at_start }
    {
        HostedBus {
            bus: Bus::new(drives),
            player: Player::new(),
        }
    }

    /// The drives, in their order.
    pub fn into_drives(self) -> [Drive<D>; N]
        ensures { result ≡ self.bus.drives }
    {
        let HostedBus { bus, .. } = self;
        bus.into_drives()
    }
}

impl<D: Machine, const N: usize> Plays for HostedBus<D, N> {
    ghost use Rattle.std.specs.Prelude.{◌≤◌, ℕ, List, MatchOption};
    ghost use Rattle.cbm_session.specs.Playing.{Station};
    ghost use Rattle.cbm_drive.specs.Cables.{IsDueFirst};
    ghost use Rattle.cbm_drive.specs.Players.{IsAfter, at_most};
    ghost use Rattle.cbm_drive.specs.Seats.{AreIdle, failed};

    // The stations of the bus at a moment, and how often the drives' machines had failed by then.
    ghost Start = { ℕ × ℕ × List (Station D.State) };

    // They are a play from these stations, if no machine failed since.
    ghost gave = { λ b start es. (start.0 ≤ failed D.failures b.bus.drives) × (failed D.failures b.bus.drives ≤ start.0 →
        IsAfter _ D.State D.stands D.step D.says b.player b.bus start.1 start.2 es) };

    ghost waiting = { λ b. b.player.waiting };

    ghost from = { λ b. b.player.from };

    ghost most = { λ limit b. at_most limit b.player.second b.bus.drives };

    // The moment at which a drive's reaction is due, and none before; or no drive's is due.
    ghost due = { λ b moment. MatchOption moment (AreIdle b.bus.drives) (IsDueFirst b.bus.drives) };

    fn offer(&mut self, change: Change) {
        self.player.offer(change).unwrap();
    }

    fn next(&mut self, upto: u64) -> Option<Event> {
        self.player.next(&mut self.bus, upto)
    }

    fn finish(&mut self, upto: u64) -> Option<Event> {
        self.player.finish(&mut self.bus, upto)
    }

    fn next_due(&self) -> Option<u64> {
        self.bus.next_due()
    }
}
