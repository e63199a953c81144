//! Machines that are switched off and on, and that are given another disk.

use cbm_iec::Machine;

/// A machine that may be switched off and on.
pub trait Restarts: Machine {
    /// What it is before, and what it is after.
    ghost restarts: { Self → Self → Type 0 };

    /// It is switched off and on.
    fn restart(&mut self)
        ensures { restarts self.old self.new };
}

/// A machine that may be given another disk.
pub trait Takes<M>: Machine {
    /// The disk, what the machine is before, and what it is after.
    ghost takes: { M → Self → Self → Type 0 };

    /// It is given this disk.
    fn take(&mut self, medium: M)
        ensures { takes medium self.old self.new };
}
