//! Whether a host keeps the timing loosely.

use crate::amiss::Amiss;
use crate::beside::Beside;
use crate::court::Court;
use crate::seat::Seat;
use bus_judge::{Breach, NotABus};
use bus_tidy::Tidy;
use cbm_iec::{Event, Machine, Party, Who};
use cbm_session::laws::keeps_loosely;
use std::marker::Model;

/// Why it isn't known that a host keeps the timing loosely.
#[derive(Clone, Copy, Debug, PartialEq, Eq, Drop)]
pub enum Unkept {
    /// The trace doesn't lie beside the tidy one.
    Beside(Amiss),
    /// The tidy one is no session, or a change is due in it.
    Tidy(Breach),
}

impl From<Amiss> for Unkept {
    fn from(amiss: Amiss) -> Unkept {
        Unkept::Beside(amiss)
    }
}

impl From<Breach> for Unkept {
    fn from(breach: Breach) -> Unkept {
        Unkept::Tidy(breach)
    }
}

/// Looks at a trace event by event: finds a tidy host's trace, judges it, and sees whether the one lies beside the other.
#[derive(Drop)]
pub struct Loosely<D: Machine, const N: usize> {
    tidy: Tidy,
    court: Court,
    beside: Beside<D, N>,
}

impl<D: Machine, const N: usize> Model for Loosely<D, N> {
    ghost use Rattle.bus_beside.specs.Keeping.{Looked};

    ghost Value = { Looked D };

    ghost view = { λ l. record { court = l.court; beside = l.beside } };
}

impl<D: Machine + Drop, const N: usize> Loosely<D, N> {
    ghost use Rattle.std.specs.Prelude.{ℕ, [], IfOk};
    ghost use Rattle.bus_beside.specs.Courses.{AreSwitchedOn};
    ghost use Rattle.bus_beside.specs.Keeping.{KeepsSoFar};
    ghost use Rattle.bus_beside.specs.Seats.{failed_in_all};

    /// Drives that are switched on, in the order in which they answer at equal moments. Nothing was seen.
    pub fn new(seats: [Seat<D>; N], parties: &[Party]) -> Result<Loosely<D, N>, NotABus>
        ensures { IfOk result (λ l. (ms : ℕ → D.State) → AreSwitchedOn _ D.State D.stands D.step D.says seats parties.now ms →
            KeepsSoFar _ D.State D.stands D.step D.says D.failures (failed_in_all D.failures seats) parties.now ms l []) }
    {
        let court = Court::new(parties)?;
        Ok(Loosely {
            tidy: Tidy::new(parties),
            court,
            beside: Beside::new(seats),
        })
    }
}

impl<D: Machine, const N: usize> Loosely<D, N> {
    ghost use Rattle.std.specs.Prelude.{◌≡◌};
    ghost use Rattle.cbm_iec.specs.declared.event.Who.TheVariants.{Host};
    ghost use Rattle.bus_beside.specs.Keeping.{TakesEvent, FindsLoosely, FindsKept};

    /// The next event of the trace. Error: from it on nothing is known.
    pub fn see(&mut self, event: Event) -> Result<(), Unkept>
        ensures { TakesEvent _ D.State D.stands D.step D.says D.failures self.old self.new event result }
    {
        match event.who {
            Who::Drive(device) => {
                self.tidy.drive(device, event.change);
                self.drive(event)
            }
            Who::Host => self.host(event),
        }
    }

    /// The next event of both traces, a drive's.
    fn drive(&mut self, event: Event) -> Result<(), Unkept>
        ensures { TakesEvent _ D.State D.stands D.step D.says D.failures self.old self.new event result }
    {
        self.beside.drive(event)?;
        self.court.see(event)?;
        Ok(())
    }

    /// The host's next event, and what the tidy one makes of it.
    fn host(&mut self, event: Event) -> Result<(), Unkept>
        requires { event.who ≡ Host }
        ensures { TakesEvent _ D.State D.stands D.step D.says D.failures self.old self.new event result }
    {
        let tidied = self.tidy.host(event.change);
        self.beside.host(event.change, &tidied)?;
        self.court.see_all(&tidied)?;
        Ok(())
    }

    /// The trace ends at a moment: nothing more came up to it. So its host keeps the timing loosely, and drives that play
    /// from rest with this trace keep to a session.
    pub fn end(&mut self, moment: u64) -> Result<(), Unkept>
        ensures loosely { FindsLoosely _ D.State D.stands D.step D.says D.failures self.old self.new moment result }
        ensures kept { FindsKept _ D.State D.stands D.step D.says D.failures self.old self.new moment result }
    {
        keeps_loosely::<D>();
        self.court.end(moment)?;
        self.beside.end(moment)?;
        Ok(())
    }
}
