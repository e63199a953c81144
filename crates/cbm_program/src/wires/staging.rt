//! A drive under a host whose changes are made one at a time, and printed with what comes of them.
ghost use Rattle.std.specs.Prelude.{◌≡◌, ◌-◌, ◌^◌, ◌<◌, ◌∷◌, [], OnOk};
ghost use Rattle.bus_traces.specs.Events.{event_text};
ghost use Rattle.cbm_machine.specs.Machines.{Machine};
ghost use Rattle.cbm_drive.specs.Desks as desks;
ghost use Rattle.cbm_drive.specs.Seats.{Seated};
ghost use Rattle.cbm_host.specs.Hosted.{party_of};
ghost use Rattle.cbm_program.specs.Output.{Writes};
ghost use Rattle.cbm_drive.specs.Players.{IsOpen};
ghost use Rattle.cbm_program.specs.Staging.{IsBorne, IsFresh, StandsOn, PlaysOn, Ends, ReplaysOn, ReplaysTo, HasStaged, tracks_of_drives};
ghost use Rattle.cbm_program.specs.Starts.{KeptBy};
ghost use Rattle.cbm_drive.specs.KeptDesks.{KeptDesk};

use crate::fault::RunFault;
use crate::output::print;
use bus_traces::event_text;
use cbm_drive::{Bus, Change, Channels, Desk, Drive, Event, Pace, Party, Player, Watches, Who};
use cbm_medium::Steady;
use std::io::Write;

/// How long the drive takes to react, in microseconds.
const REACTION: u8 = 20;

/// Prints an event as `MOMENT WHO LINE WAY`.
fn print_event<W: Write>(writer: &mut W, event: Event) -> Result<(), RunFault>
    ensures { Writes result (W.contents writer.old) (W.contents writer.new) (event_text event) }
{
    print(writer, event_text(event).as_slice())
}

/// A drive on a cable with a host, and the host's changes, each in its turn.
#[derive(Drop)]
pub(crate) struct Stage<M: Steady> {
    bus: Bus<Desk<M>, 1>,
    player: Player,
}

impl<M: Steady> Stage<M> {
    /// A drive with this medium at power up, of this pace and with a device number below 31.
    pub(crate) fn new(medium: M, channels: Channels, device: u8, pace: Pace) -> Stage<M>
        requires { device < 31 }
        ensures open { IsOpen result.player 0 }
        ensures at { StandsOn M.seen (M.seen medium) (party_of pace device) result.player result.bus }
        // With any disk:
        ensures fresh { IsFresh desks.desk_shows (party_of pace device) result.player result.bus }
        ensures tracks { tracks_of_drives M.seen result.bus ≡ (M.seen medium).tracks ∷ [] }
    {
        let desk = Desk::at_power_up(medium, channels, device).with_pace(pace);
        let party = Party {
            device,
            reaction: REACTION,
            pace,
        };
        Stage {
            bus: Bus::new([Drive::new(desk, party)]),
            player: Player::new(),
        }
    }

    /// The host changes a line: the reactions that are due before come first, and all is printed, and told.
    pub(crate) fn change<W: Write, T: Watches>(
        &mut self,
        change: Change,
        writer: &mut W,
        watcher: &mut T,
    ) -> Result<(), RunFault>
        requires open { IsOpen self.old.player change.moment }
        requires moment { change.moment < 2 ^ 59 - 1 }
        ensures ok { OnOk result (PlaysOn M.seen (W.contents writer.old) (W.contents writer.new) (change ∷ [])
            self.old.player self.old.bus self.new.player self.new.bus) }
        ensures open { OnOk result (IsOpen self.new.player change.moment) }
        // Whatever the drive represents:
        ensures wrote { OnOk result (ReplaysOn desks.desk_shows (W.contents writer.old) (W.contents writer.new)
            (change ∷ []) self.old.player self.old.bus self.new.player self.new.bus) }
        ensures staged { HasStaged M.seen result (W.contents writer.old) (W.contents writer.new) (change ∷ [])
            self.old.player self.old.bus self.new.bus }
    {
        self.player.offer(change).unwrap();
        'events: while let Some(event) = self.player.next(&mut self.bus, change.moment) {
            print_event(writer, event)?;
            watcher.event(event);
            if let Who::Host = event.who {
                return Ok(());
            }
        }
        Ok(())
    }

    /// The reactions that are due up to an end, in microseconds, happen and are printed, and told.
    pub(crate) fn end<W: Write, T: Watches>(
        &mut self,
        end: u64,
        writer: &mut W,
        watcher: &mut T,
    ) -> Result<(), RunFault>
        requires open { IsOpen self.old.player end }
        requires moment { end < 2 ^ 59 - 1 }
        ensures ok { OnOk result (Ends M.seen (W.contents writer.old) (W.contents writer.new) end
            self.old.player self.old.bus self.new.player self.new.bus) }
        // Whatever the drive represents:
        ensures wrote { OnOk result (ReplaysTo desks.desk_shows (W.contents writer.old) (W.contents writer.new) end
            self.old.player self.old.bus self.new.player self.new.bus) }
        ensures staged { HasStaged M.seen result (W.contents writer.old) (W.contents writer.new) []
            self.old.player self.old.bus self.new.bus }
    {
        'events: while let Some(event) = self.player.finish(&mut self.bus, end) {
            print_event(writer, event)?;
            watcher.event(event);
        }
        Ok(())
    }

    /// The medium, with all that was written to it.
    pub(crate) fn into_medium(self) -> M
        ensures medium { (x : Seated (KeptDesk M)) → self.bus.drives ≡ x ∷ [] → result ≡ x.machine.dos.medium }
        ensures disk { (m : Machine) → IsBorne M.seen self.bus m → KeptBy (M.seen result) m }
    {
        let Stage { bus, .. } = self;
        let [drive] = bus.into_drives();
        drive.into_machine().into_medium()
    }
}
