// A drive that is switched off and on, and one that is given another disk.

use crate::desk::Desk;
use crate::drive::Drive;
use crate::restarting::{Restarts, Takes};
use cbm_iec::{Machine, Port};
use cbm_medium::Medium;

impl<M: Medium> Drive<Desk<M>> {
    ghost use Rattle.std.specs.Prelude.{◌≡◌};
    ghost use Rattle.cbm_channel.specs.Exchanged.{still_telling};
    ghost use Rattle.cbm_file.specs.Files.{Disk};
    ghost use Rattle.cbm_machine.specs.Machines.{start};
    ghost use Rattle.cbm_iec.specs.Ports.{resting};
    ghost use Rattle.cbm_volume.specs.Holding.{HoldsDisk};
    ghost use Rattle.cbm_drive.specs.Addressing.{paced, unaddressed};
    ghost use Rattle.cbm_drive.specs.Afresh.{restarted, with_another};
    ghost use Rattle.cbm_drive.specs.Desks.{DeskStands};

    /// It is switched off and on with its disk: its lines are free, no channel is open, and what was being written isn't closed.
    pub fn restart(&mut self)
        ensures port { self.new.port ≡ resting self.old.port.party }
        ensures machine { self.new.machine ≡ restarted self.old.machine }
        ensures stands { let now = M.seen self.old.machine.dos.medium in let was = self.old.machine.addressed in (d : Disk) →
            HoldsDisk now.tracks now.content d → DeskStands M.seen self.new.machine (record {
              dos = start d now.protected now.tracks;
              addressed = paced was.pace (unaddressed was.device);
            }) }
    {
        self.port = Port::new(self.port.party);
        self.machine.restart();
    }

    /// Another disk is put in: no channel is open, what was being written isn't closed, and the status stays; so do its lines.
    pub fn insert(&mut self, medium: M)
    where
        M: Drop,
        ensures port { self.new.port ≡ self.old.port }
        ensures machine { self.new.machine ≡ with_another medium self.old.machine }
        ensures stands { let now = M.seen medium in let was = self.old.machine in (d : Disk) →
            HoldsDisk now.tracks now.content d → DeskStands M.seen self.new.machine (record {
              dos = still_telling was.dos.told (start d now.protected now.tracks);
              addressed = was.addressed;
            }) }
    {
        self.machine.insert(medium);
    }
}

impl<D: Restarts> Drive<D> {
    ghost use Rattle.std.specs.Prelude.{◌≡◌};
    ghost use Rattle.cbm_iec.specs.Ports.{resting};

    /// It is switched off and on, whatever its machine is: its lines are free.
    pub fn switch_on_again(&mut self)
        ensures port { self.new.port ≡ resting self.old.port.party }
        ensures machine { D.restarts self.old.machine self.new.machine }
    {
        self.port = Port::new(self.port.party);
        self.machine.restart();
    }
}

impl<D: Machine> Drive<D> {
    ghost use Rattle.std.specs.Prelude.{◌≡◌};

    /// Its machine is given another disk; its lines stay.
    pub fn put_in<M>(&mut self, medium: M)
    where
        D: Takes<M>,
        ensures port { self.new.port ≡ self.old.port }
        ensures machine { D.takes medium self.old.machine self.new.machine }
    {
        self.machine.take(medium);
    }
}
