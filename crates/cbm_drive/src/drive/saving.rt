// A drive on the wires, as bytes, and of bytes.

use crate::desk::Desk;
use crate::drive::Drive;
use crate::seated::{port_at, save_port};
use cbm_channel::Channels;
use cbm_iec::{Lines, Machine};
use cbm_medium::Medium;
use std::alloc::AllocError;

impl<M: Medium> Drive<Desk<M>> {
    ghost use Rattle.std.specs.Prelude.{◌≡◌, ◌++◌, OnOk, option_map};
    ghost use Rattle.cbm_drive.specs.Saved.{saved_seat, MaySit};
    ghost use Rattle.cbm_drive.specs.Loaded.{seat_at};

    /// Adds the drive beside its disk: its port, who is addressed, and what its DOS keeps. The one error is want of memory.
    pub fn save(&self, out: &mut Vec<u8>) -> Result<(), AllocError>
        ensures saved { OnOk result (out.new.items ≡ out.old.items ++ saved_seat self.now) }
        // So it can be read again.
        ensures again { OnOk result (MaySit (M.seen self.now.machine.dos.medium).tracks self.now) }
    {
        save_port(out, self.port)?;
        self.machine.save(out)
    }

    /// The drive of bytes, with this medium, and what follows them; None if they are no drive.
    pub fn load(medium: M, channels: Channels, bytes: &[u8]) -> Option<(Drive<Desk<M>>, &[u8])>
    where
        M: Drop,
        ensures { option_map (λ x. (x.0, x.1.now)) result ≡ seat_at medium (M.seen medium).tracks bytes.now }
    {
        let (port, rest) = port_at(bytes)?;
        let (machine, rest) = Desk::load(medium, channels, rest)?;
        if port.party.device > 30 || port.party.reaction < 1 {
            return None;
        }
        Some((Drive { port, machine }, rest))
    }
}

impl<D: Machine> Drive<D> {
    ghost use Rattle.std.specs.Prelude.{◌≡◌};

    /// The lines that the others held when it was last told of them.
    pub fn others(&self) -> Lines
        ensures { result ≡ self.now.port.others }
    {
        self.port.others
    }
}
